// The members of a map that is an element of a message, given a text and the place of its head there.
#![tactic(auto)]

ghost use Rattle.std.specs.Prelude.{◌≡◌};
ghost use Rattle.members.specs.Members.{pair};
ghost use Rattle.maps.specs.Maps.{members_at, is_key, value_of};

use seq::Span;

// The outer array is depth 1 of 8, the map depth 2.
const MEMBER_DEPTH: usize = 6;

// Is the key that stands from one place to another a str of this text?
fn is_key(t: &[u8], from: usize, to: usize, key: &[u8]) -> bool
    ensures { result ≡ is_key t.now key.now (pair from to to to) }
{
    let h = msgpack::head_at(t, from);
    let kind = h.kind;
    let a = h.end;
    if kind != msgpack::STR {
        return false;
    }
    seq::same_bytes(seq::text(t, Span { from: a, to: to }), key)
}

// The value of a str key; an empty span if there is none.
pub fn find(t: &[u8], at: usize, key: &[u8]) -> Span
    ensures { result ≡ value_of t.now key.now (members_at t.now at) }
{
    if json_text::MAX_BYTES < t.len() {
        return Span { from: 0, to: 0 };
    }
    let h = msgpack::head_at(t, at);
    let kind = h.kind;
    let count = h.n;
    if kind != msgpack::MAP {
        return Span { from: 0, to: 0 };
    }
    let mut p = h.end;
    for _ in 0..count {
        let Some(e) = msgpack::value(t, p, MEMBER_DEPTH) else {
            return Span { from: 0, to: 0 };
        };
        let Some(z) = msgpack::value(t, e, MEMBER_DEPTH) else {
            return Span { from: 0, to: 0 };
        };
        if is_key(t, p, e, key) {
            return Span { from: e, to: z };
        }
        p = z;
    }
    Span { from: 0, to: 0 }
}
