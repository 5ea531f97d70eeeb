// A message's payload converted from the format that it is in into the other one.
#![tactic(auto)]

ghost use Rattle.std.specs.Prelude.{◌≡◌, length};
ghost use Rattle.seq.specs.Bytes.{text_of, payload_of};
ghost use Rattle.elements.specs.Elements.{inner_depth};
ghost use Rattle.conversion.specs.Converts.{convert, other, Converts};
ghost use Rattle.conversion.specs.Carried.{converted, carried_by};
ghost use Rattle.carry.specs.Carries.{bytes, Near, RoomToConvert};

use conversion::Converted;
use seq::{Format, PayloadSpans, Span};

// How deep a payload's value nests: what stands in a message's list may open 7 more.
const INNER_DEPTH: usize = 7;

// The value of a span is written over `out` from the place `o` on, in at most six times the message's bytes.
fn put_value(
    from: Format,
    message: &[u8],
    value: Span,
    out: &mut [u8],
    o: usize,
) -> Option<Converted>
    ensures means { Converts out.old o bytes (convert from (other from) inner_depth (text_of message.now value) 0) result out.new }
    ensures near { Near (length message.now) o result }
{
    convert::convert(from, seq::text(message, value), INNER_DEPTH, out, o)
}

// The list's value comes to stand at the start of `out`, the dict's behind it.
pub fn payload(
    from: Format,
    message: &[u8],
    p: PayloadSpans,
    out: &mut [u8],
) -> Option<PayloadSpans>
    requires { RoomToConvert message.now out.old }
    ensures { carried_by out.new result ≡ converted from (other from) (payload_of message.now p) }
{
    match p {
        PayloadSpans::Absent => Some(PayloadSpans::Absent),
        PayloadSpans::Arguments(list) => {
            let first = put_value(from, message, list, out, 0)?;
            let list = Span {
                from: 0,
                to: first.written,
            };
            Some(PayloadSpans::Arguments(list))
        }
        PayloadSpans::Keywords(list, dict) => {
            let first = put_value(from, message, list, out, 0)?;
            let second = put_value(from, message, dict, out, first.written)?;
            let list = Span {
                from: 0,
                to: first.written,
            };
            let dict = Span {
                from: first.written,
                to: second.written,
            };
            Some(PayloadSpans::Keywords(list, dict))
        }
    }
}
