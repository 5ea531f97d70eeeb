// JSON values (RFC 8259). Each reader is given the text and a place, and answers the place just past what it reads.
#![tactic(auto)]

ghost use Rattle.std.specs.Prelude.{◌≡◌, ◌+◌, ◌-◌, ◌*◌, ◌≤◌, ◌<◌, not, length, eqb};
ghost use Rattle.seq.specs.Lists.{every};
ghost use Rattle.seq.specs.Bytes.{among, same, byte_at};
ghost use Rattle.strings.specs.Strings.{undone};
ghost use Rattle.strings.specs.Places.{mark_of};
ghost use Rattle.lex.specs.Lex.{Within};
ghost use Rattle.json_text.specs.Json.{max_bytes, literal, key_from, value, list, dict, value_at, is_text};
ghost use Rattle.json_text.specs.Keys.{table, Sized, texts, with_key, Entered, Kept};

use lex::Mark;
use seq::Span;

pub const MAX_BYTES: usize = 2048;

const MAX_DEPTH: usize = 8;

// A value that starts at `at`, in which `depth` lists and dicts may be opened. A text that is too long has none. One table of keys serves
// all depths; a value that opens no list or dict needs none.
pub fn value(s: &[u8], at: usize, depth: usize) -> Option<usize>
    ensures means { result ≡ value_at depth s.now at }
    ensures within { Within at (length s.now) result }
{
    if MAX_BYTES < s.len() {
        return None;
    }
    match seq::byte(s, at) {
        b'[' => nested(s, at, depth),
        b'{' => braced(s, at, depth),
        _ => scalar(s, at),
    }
}

// Is the text one JSON value, with optional white space around it?
pub fn is_text(s: &[u8]) -> bool
    ensures { result ≡ is_text s.now }
{
    let Some(e) = value(s, lex::space(s, 0), MAX_DEPTH) else {
        return false;
    };
    lex::space(s, e) == s.len()
}

// A list or dict that starts at `at`.
fn nested(s: &[u8], at: usize, depth: usize) -> Option<usize>
    requires { length s.now ≤ max_bytes }
    ensures means { result ≡ value depth s.now at }
    ensures within { Within at (length s.now) result }
{
    let mut starts = [0u16; 512];
    let mut ends = [0u16; 512];
    let mut marks = [0u16; 512];
    read_value(s, at, depth, 0, &mut starts, &mut ends, &mut marks)
}

// A dict that starts at `at`: with no members it needs no table.
fn braced(s: &[u8], at: usize, depth: usize) -> Option<usize>
    requires { (length s.now ≤ max_bytes) × (byte_at s.now at ≡ 123) }
    ensures means { result ≡ value depth s.now at }
    ensures within { Within at (length s.now) result }
{
    if depth == 0 {
        return None;
    }
    let m = lex::first_member(s, at + 1);
    if let Mark::End(e) = m {
        return Some(e);
    }
    nested(s, at, depth)
}

// A value that opens neither.
fn scalar(s: &[u8], at: usize) -> Option<usize>
    requires { length s.now ≤ max_bytes }
    ensures means { result ≡ value 0 s.now at }
    ensures within { Within at (length s.now) result }
{
    match seq::byte(s, at) {
        b'"' => lex::quoted(s, at),
        b'[' | b'{' => None,
        b'-' | b'0'..=b'9' => lex::number(s, at),
        b't' => literal(s, at, b"true"),
        b'f' => literal(s, at, b"false"),
        b'n' => literal(s, at, b"null"),
        _ => None,
    }
}

// The first byte decides which kind of value follows. The table holds the n keys of the dicts that are open; what the value puts into it
// stands behind them. A key and its colon take 3 bytes and what it is the key of one more, so 512 places are enough.
#[cycle(value)]
fn read_value(
    s: &[u8],
    at: usize,
    depth: usize,
    n: usize,
    starts: &mut [u16; 512],
    ends: &mut [u16; 512],
    marks: &mut [u16; 512],
) -> Option<usize>
    requires s_len_bound { (length s.now ≤ max_bytes) × (4 * n ≤ at + 1) }
    requires sized { Sized (table starts.old ends.old marks.old) }
    ensures means { result ≡ value depth s.now at }
    ensures within { Within at (length s.now) result }
    ensures kept { Kept n (table starts.old ends.old marks.old) (table starts.new ends.new marks.new) }
{
    match seq::byte(s, at) {
        b'[' => read_list(s, at + 1, depth, n, starts, ends, marks),
        b'{' => read_dict(s, at + 1, depth, n, starts, ends, marks),
        _ => scalar(s, at),
    }
}

// A literal name that starts at `at`.
fn literal(s: &[u8], at: usize, word: &[u8]) -> Option<usize>
    requires s_len_bound { (length s.now ≤ max_bytes) × (at ≤ length s.now) }
    requires word_nonzero { (0 < length word.now) × (length word.now ≤ 5) }
    ensures means { result ≡ literal word.now s.now at }
    ensures within { Within at (length s.now) result }
{
    let end = at + word.len();
    if seq::same_bytes(seq::text(s, Span { from: at, to: end }), word) {
        Some(end)
    } else {
        None
    }
}

// A list from just past its bracket on.
#[cycle(value)]
fn read_list(
    s: &[u8],
    at: usize,
    depth: usize,
    n: usize,
    starts: &mut [u16; 512],
    ends: &mut [u16; 512],
    marks: &mut [u16; 512],
) -> Option<usize>
    requires s_len_bound { (length s.now ≤ max_bytes) × (4 * n ≤ at) }
    requires sized { Sized (table starts.old ends.old marks.old) }
    ensures means { result ≡ list depth s.now at }
    ensures within { Within at (length s.now) result }
    ensures kept { Kept n (table starts.old ends.old marks.old) (table starts.new ends.new marks.new) }
{
    if depth == 0 {
        return None;
    }
    let mut m = lex::first_element(s, at);
    loop {
        match m {
            Mark::Item(i) => {
                let e = read_value(s, i, depth - 1, n, starts, ends, marks)?;
                m = lex::next_element(s, e);
            }
            Mark::End(e) => return Some(e),
            Mark::Neither => return None,
        }
    }
}

// A dict from just past its brace on. Its keys stand in the table from place n on.
#[cycle(value)]
fn read_dict(
    s: &[u8],
    at: usize,
    depth: usize,
    n: usize,
    starts: &mut [u16; 512],
    ends: &mut [u16; 512],
    marks: &mut [u16; 512],
) -> Option<usize>
    requires s_len_bound { (length s.now ≤ max_bytes) × (4 * n ≤ at) }
    requires sized { Sized (table starts.old ends.old marks.old) }
    ensures means { result ≡ dict depth s.now at }
    ensures within { Within at (length s.now) result }
    ensures kept { Kept n (table starts.old ends.old marks.old) (table starts.new ends.new marks.new) }
{
    if depth == 0 {
        return None;
    }
    let mut m = lex::first_member(s, at);
    let mut z = n;
    loop {
        match m {
            Mark::Item(k) => {
                let q = lex::quoted(s, k)?;
                let key = strings::between(s, k, q);
                let mark = strings::mark(key);
                if seen(s, starts, ends, marks, n, z, key, mark) {
                    return None;
                }
                let a = lex::colon(s, q)?;
                enter(z, k, q, mark, starts, ends, marks);
                z += 1;
                let e = read_value(s, a, depth - 1, z, starts, ends, marks)?;
                m = lex::next_member(s, e);
            }
            Mark::End(e) => return Some(e),
            Mark::Neither => return None,
        }
    }
}

// Puts a key that stands from k to q, and its mark, at place z of the table.
fn enter(
    z: usize,
    k: usize,
    q: usize,
    mark: u16,
    starts: &mut [u16; 512],
    ends: &mut [u16; 512],
    marks: &mut [u16; 512],
)
    requires { (z < 512) × (k ≤ max_bytes) × (q ≤ max_bytes) }
    ensures { table starts.new ends.new marks.new ≡ with_key (table starts.old ends.old marks.old) z k q mark }
{
    starts[z] = k as u16;
    ends[z] = q as u16;
    marks[z] = mark;
}

// Is a key, given between its quotes, one of those in the table from place n up to z? Only those with its mark are compared.
fn seen(
    s: &[u8],
    starts: &[u16; 512],
    ends: &[u16; 512],
    marks: &[u16; 512],
    n: usize,
    z: usize,
    key: &[u8],
    mark: u16,
) -> bool
    requires n_le_z { (n ≤ z) × (z ≤ 512) × (mark ≡ mark_of (undone key.now)) }
    requires entered { Entered s.now (table starts.now ends.now marks.now) n z }
    ensures { result ≡ among (undone key.now) (texts s.now (table starts.now ends.now marks.now) n (z - n)) }
{
    if is_new(&marks[n..z], mark) {
        return false;
    }
    for j in n..z {
        if marks[j] == mark && same_key(s, usize::from(starts[j]), usize::from(ends[j]), key) {
            return true;
        }
    }
    false
}

// Does the key that stands from one place to another stand for the same text as a key that is given between its quotes?
fn same_key(s: &[u8], from: usize, to: usize, key: &[u8]) -> bool
    ensures { result ≡ same (key_from s.now from to) (undone key.now) }
{
    strings::same_text(strings::between(s, from, to), key)
}

// Is a mark none of these? All are looked at, so that the loop has one way and goes by many at a time.
pub fn is_new(marks: &[u16], mark: u16) -> bool
    ensures { result ≡ every (λ m. not (eqb m mark)) marks.now }
{
    let mut new = true;
    for m in marks {
        if *m == mark {
            new = false;
        }
    }
    new
}
