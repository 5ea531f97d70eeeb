// A value converted from the format that it is in into the other one.
#![tactic(auto)]

ghost use Rattle.std.specs.Prelude.{◌≡◌, length};
ghost use Rattle.conversion.specs.Converts.{convert, other, answer, Left, Ahead};

use conversion::Converted;
use seq::Format;

// The value at the start of s, in which `depth` lists and dicts may be opened, is written over `out` from the place `o` on.
pub fn convert(from: Format, s: &[u8], depth: usize, out: &mut [u8], o: usize) -> Option<Converted>
    ensures answer { result ≡ answer o (convert from (other from) depth s.now 0) }
    ensures bytes { Left out.old o (convert from (other from) depth s.now 0) out.new }
    ensures within { Ahead 0 (length s.now) result }
{
    match from {
        Format::Json => to_msgpack::pack_value(s, 0, depth, out, o),
        Format::MsgPack => to_json::json_value(s, 0, depth, out, o),
    }
}
