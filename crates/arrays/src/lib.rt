// The elements of a message's array in MessagePack: their spans, what kind of value each is, and an ID in one.
#![tactic(auto)]

ghost use Rattle.std.specs.Prelude.{◌≡◌, ◌<◌};
ghost use Rattle.elements.specs.Elements.{max_elements};
ghost use Rattle.arrays.specs.Arrays.{id_of, kind, listed, held, pushed};

use elements::Elements;
use seq::Span;

const MAX_ELEMENTS: u64 = 7;
// The outer array is depth 1 of 8.
const INNER_DEPTH: usize = 7;

// An ID: an integer of any form, 1 to 2^53; 0 if the text is none.
pub fn id(t: &[u8]) -> u64
    ensures { result ≡ id_of t.now }
{
    let h = msgpack::head_at(t, 0);
    let kind = h.kind;
    let n = h.n;
    if kind != msgpack::WHOLE {
        return 0;
    }
    if seq::LAST_ID < n {
        return 0;
    }
    n
}

// 1 an ID, 2 a string, 3 an array, 4 a map, 5 any other value.
pub fn kind(t: &[u8]) -> u32
    ensures { result ≡ kind t.now }
{
    let h = msgpack::head_at(t, 0);
    match h.kind {
        msgpack::STR => 2,
        msgpack::ARRAY => 3,
        msgpack::MAP => 4,
        _ => { if id(t) == 0 { 5 } else { 1 } }
    }
}

// One element more, of the kind that its text is.
fn push(s: &[u8], r: Elements, p: Span) -> Elements
    requires { (r.n < max_elements) × (r.kinds < 1000000) }
    ensures { result ≡ pushed s.now r p }
{
    elements::with_kind(r, p, kind(seq::text(s, p)))
}

// The elements of the array that the whole text is.
pub fn split(s: &[u8]) -> Elements
    ensures { result ≡ held s.now (listed s.now) }
{
    if json_text::MAX_BYTES < s.len() {
        return elements::none();
    }
    let h = msgpack::head_at(s, 0);
    let kind = h.kind;
    let count = h.n;
    if kind != msgpack::ARRAY {
        return elements::none();
    }
    if MAX_ELEMENTS < count {
        return elements::none();
    }
    let mut p = h.end;
    let mut r = elements::none();
    for _ in 0..count {
        let Some(e) = msgpack::value(s, p, INNER_DEPTH) else {
            return elements::none();
        };
        r = push(s, r, Span { from: p, to: e });
        p = e;
    }
    if p == s.len() {
        return r;
    }
    elements::none()
}
