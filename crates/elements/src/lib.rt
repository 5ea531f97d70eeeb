// The elements of a message's outer list: their spans, what kind of JSON value each is, and an ID in one.
#![tactic(auto)]

ghost use Rattle.std.specs.Prelude.{◌≡◌, ◌<◌};
ghost use Rattle.elements.specs.Kinds.{id_of, kind};
ghost use Rattle.elements.specs.Elements.{listed, held, nothing, with_kind, pushed, max_elements};

use lex::Mark;
use seq::Span;

// At most 7 elements: their spans, and their kinds as decimal digits, the first element's first. No elements: no list of 1 to 7.
#[derive(Clone, Copy)]
pub struct Elements {
    pub kinds: u32,
    pub n: usize,
    pub spans: [Span; 7],
}

const MAX_ELEMENTS: usize = 7;
// The outer list is depth 1 of 8.
const INNER_DEPTH: usize = 7;

// An ID: digits only, no leading zero, 1 to 2^53; 0 if the text is none.
pub fn id(t: &[u8]) -> u64
    ensures { result ≡ id_of t.now }
{
    if seq::byte(t, 0) == b'0' {
        return 0;
    }
    let mut v: u64 = 0;
    for b in t {
        if !seq::is_digit(*b) {
            return 0;
        }
        v = v * 10 + u64::from(*b - b'0');
        if seq::LAST_ID < v {
            return 0;
        }
    }
    v
}

// 1 an ID, 2 a string, 3 a list, 4 a dict, 5 any other value.
pub fn kind(t: &[u8]) -> u32
    ensures { result ≡ kind t.now }
{
    match seq::byte(t, 0) {
        b'"' => 2,
        b'[' => 3,
        b'{' => 4,
        _ => { if id(t) == 0 { 5 } else { 1 } }
    }
}

// No elements.
pub fn none() -> Elements
    ensures { result ≡ nothing }
{
    Elements {
        kinds: 0,
        n: 0,
        spans: [Span { from: 0, to: 0 }; 7],
    }
}

// One element more, of a kind.
pub fn with_kind(r: Elements, p: Span, kind: u32) -> Elements
    requires { (r.n < max_elements) × (r.kinds < 1000000) × (kind < 10) }
    ensures { result ≡ with_kind r p kind }
{
    let n = r.n;
    let mut next = r;
    next.spans[n] = p;
    next.n = n + 1;
    next.kinds = r.kinds * 10 + kind;
    next
}

// One element more, of the kind that its text is.
fn push(s: &[u8], r: Elements, p: Span) -> Elements
    requires { (r.n < max_elements) × (r.kinds < 1000000) }
    ensures { result ≡ pushed s.now r p }
{
    with_kind(r, p, kind(seq::text(s, p)))
}

// The elements of the list that the whole text is.
pub fn split(s: &[u8]) -> Elements
    ensures { result ≡ held s.now (listed s.now) }
{
    if json_text::MAX_BYTES < s.len() {
        return none();
    }
    let a = lex::space(s, 0);
    if seq::byte(s, a) != b'[' {
        return none();
    }
    let mut m = lex::first_element(s, a + 1);
    let mut r = none();
    loop {
        match m {
            Mark::Item(i) => {
                if MAX_ELEMENTS <= r.n {
                    return none();
                }
                let Some(e) = json_text::value(s, i, INNER_DEPTH) else {
                    return none();
                };
                r = push(s, r, Span { from: i, to: e });
                m = lex::next_element(s, e);
            }
            Mark::End(e) => {
                if lex::space(s, e) == s.len() {
                    return r;
                }
                return none();
            }
            Mark::Neither => return none(),
        }
    }
}
