// MessagePack to JSON. Each function reads at a place of s and writes over `out` from the place `o` on, as far as there is room, and answers the
// place past what it read and the place past all that it wrote; or that what stands there does not convert.
#![tactic(auto)]

ghost use Rattle.std.specs.Prelude.{◌≡◌, ◌≤◌, ◌<◌, ◌+◌, length};
ghost use Rattle.seq.specs.declared.Format.TheVariants.{Json, MsgPack};
ghost use Rattle.buffer.specs.Capped.{capped};
ghost use Rattle.buffer.specs.Over.{over};
ghost use Rattle.msgpack.specs.Head.{below};
ghost use Rattle.values.specs.Write.{quoted_text, json_member, json_list, json_dict, json_scalar, write};
ghost use Rattle.values.specs.Stands.{text_at, items, pack_member_at, stands};
ghost use Rattle.conversion.specs.Converts.{Converts, Ahead, Onward};
ghost use Rattle.to_json.specs.Plain.{plain};

use conversion::Converted;
use seq::Span;

// A null, a boolean or an integer, by its head's kind and number.
fn put_plain(kind: u8, n: u64, out: &mut [u8], o: usize) -> usize
    requires { (kind < 5) × (kind ≡ below → n < 0x8000000000000000) }
    ensures place { result ≡ capped (o + length (json_scalar (plain kind n))) }
    ensures bytes { out.new ≡ over out.old o (json_scalar (plain kind n)) }
{
    if kind == msgpack::NIL {
        return buffer::put_bytes(b"null", out, o);
    }
    if kind == msgpack::NO {
        return buffer::put_bytes(b"false", out, o);
    }
    if kind == msgpack::YES {
        return buffer::put_bytes(b"true", out, o);
    }
    if kind == msgpack::WHOLE {
        return buffer::put_number(n, out, o);
    }
    let p = buffer::put_byte(b'-', out, o);
    buffer::put_number(n + 1, out, p)
}

// A text of n bytes.
fn json_text(s: &[u8], at: usize, n: u64, out: &mut [u8], o: usize) -> Option<Converted>
    requires { at ≤ length s.now }
    ensures means { Converts out.old o quoted_text (text_at s.now at n) result out.new }
    ensures within { Onward at (length s.now) result }
{
    let read = msgpack::skip_text(s, at, n)?;
    let written = quoting::put_quoted(seq::text(s, Span { from: at, to: read }), out, o);
    Some(Converted { read, written })
}

// A value, in which `depth` arrays and maps may be opened.
#[cycle(json)]
pub fn json_value(s: &[u8], at: usize, depth: usize, out: &mut [u8], o: usize) -> Option<Converted>
    ensures means { Converts out.old o (write Json depth) (stands MsgPack depth s.now at) result out.new }
    ensures within { Ahead at (length s.now) result }
{
    let h = msgpack::head_at(s, at);
    let kind = h.kind;
    let n = h.n;
    let end = h.end;
    if kind < msgpack::STR {
        let written = put_plain(kind, n, out, o);
        return Some(Converted { read: end, written });
    }
    if kind == msgpack::STR {
        return json_text(s, end, n, out, o);
    }
    if depth == 0 {
        return None;
    }
    if kind == msgpack::ARRAY {
        return json_list(s, end, n, depth - 1, out, o);
    }
    if kind == msgpack::MAP {
        return json_dict(s, end, n, depth - 1, out, o);
    }
    None
}

// The n values of an array, from behind its head on.
#[cycle(json)]
fn json_list(
    s: &[u8],
    at: usize,
    n: u64,
    depth: usize,
    out: &mut [u8],
    o: usize,
) -> Option<Converted>
    requires { at ≤ length s.now }
    ensures means { Converts out.old o (json_list (write Json depth)) (items (stands MsgPack depth s.now) n at) result out.new }
    ensures within { Onward at (length s.now) result }
{
    let mut p = at;
    let mut q = buffer::put_byte(b'[', out, o);
    for i in 0..n {
        q = quoting::put_comma(0 < i, out, q);
        let value = json_value(s, p, depth, out, q)?;
        p = value.read;
        q = value.written;
    }
    let written = buffer::put_byte(b']', out, q);
    Some(Converted { read: p, written })
}

// The n members of a map, from behind its head on. One function for this and json_list would take the brackets, what reads an item and what an
// item means as arguments, and be no plainer.
#[cycle(json)]
fn json_dict(
    s: &[u8],
    at: usize,
    n: u64,
    depth: usize,
    out: &mut [u8],
    o: usize,
) -> Option<Converted>
    requires { at ≤ length s.now }
    ensures means { Converts out.old o (json_dict (write Json depth)) (items (pack_member_at (stands MsgPack depth s.now) s.now) n at) result out.new }
    ensures within { Onward at (length s.now) result }
{
    let mut p = at;
    let mut q = buffer::put_byte(b'{', out, o);
    for i in 0..n {
        q = quoting::put_comma(0 < i, out, q);
        let member = json_member(s, p, depth, out, q)?;
        p = member.read;
        q = member.written;
    }
    let written = buffer::put_byte(b'}', out, q);
    Some(Converted { read: p, written })
}

// A key, which must be a str, and its value.
#[cycle(json)]
fn json_member(s: &[u8], at: usize, depth: usize, out: &mut [u8], o: usize) -> Option<Converted>
    ensures means { Converts out.old o (json_member (write Json depth)) (pack_member_at (stands MsgPack depth s.now) s.now at) result out.new }
    ensures within { Ahead at (length s.now) result }
{
    let h = msgpack::head_at(s, at);
    let kind = h.kind;
    let n = h.n;
    let end = h.end;
    if kind != msgpack::STR {
        return None;
    }
    let key = json_text(s, end, n, out, o)?;
    let q = buffer::put_byte(b':', out, key.written);
    json_value(s, key.read, depth, out, q)
}
