// The text that a JSON string stands for (RFC 8259, section 7): escapes undone. The functions are given what stands between the quotes.
#![tactic(auto)]

ghost use Rattle.std.specs.Prelude.{◌≡◌, ◌∷◌, ◌+◌, ◌-◌, ◌%◌, ◌≤◌, ◌<◌, length, take};
ghost use Rattle.seq.specs.Bytes.{byte_at, part, same};
ghost use Rattle.seq.specs.Lists.{tally};
ghost use Rattle.utf8.specs.Table.{encoding};
ghost use Rattle.strings.specs.Strings.{digit, unit, low_at, short, escape, undone, has_lone, is_marked, is_plain, is_half};
ghost use Rattle.strings.specs.Places.{rest, Within, most_kept, kept, kept_in, alike, mark_of};

use seq::Span;

// A character that is spelled as an escape: its number, and how many bytes spell it.
#[derive(Clone, Copy)]
pub struct Character {
    pub code: u32,
    pub len: usize,
}

// A character in UTF-8: the first `len` bytes.
#[derive(Clone, Copy)]
struct Encoded {
    bytes: [u8; 4],
    len: usize,
}

// A byte of the text, and the place of the next: that of a character, and how many of the character's bytes were taken.
#[derive(Clone, Copy)]
pub struct Taken {
    pub byte: u8,
    pub at: usize,
    pub k: usize,
}

// A text: what stands between the quotes as it is, or so many stored bytes.
#[derive(Clone, Copy)]
pub enum Undone {
    AsItIs,
    Kept(usize),
}

// A text of more than 128 bytes is no URI, and one byte more tells so.
const MOST_KEPT: usize = 129;

// ---- escapes

// A hexadecimal digit; 0 if it is none.
fn digit(b: u8) -> u32
    ensures means { result ≡ digit b }
    ensures small { result ≤ 15 }
{
    match b {
        b'0'..=b'9' => (b - b'0') as u32,
        b'A'..=b'F' => (b - b'A') as u32 + 10,
        b'a'..=b'f' => (b - b'a') as u32 + 10,
        _ => 0,
    }
}

// The four digits from a place on; no escape has them further on than its eighth byte.
fn unit(t: &[u8], at: usize) -> u32
    requires { at ≤ 8 }
    ensures means { result ≡ unit t.now at }
    ensures small { result ≤ 0xffff }
{
    let a = digit(seq::byte(t, at));
    let b = digit(seq::byte(t, at + 1));
    let c = digit(seq::byte(t, at + 2));
    let d = digit(seq::byte(t, at + 3));
    ((a * 16 + b) * 16 + c) * 16 + d
}

// The character by the byte after a backslash.
fn short(b: u8) -> u32
    ensures means { result ≡ short b }
    ensures small { result ≤ 255 }
{
    match b {
        b'b' => 8,
        b'f' => 12,
        b'n' => 10,
        b'r' => 13,
        b't' => 9,
        _ => b as u32,
    }
}

// Does an escaped low half stand behind the first six bytes?
fn low_follows(t: &[u8]) -> bool
    ensures { result ≡ low_at t.now 6 }
{
    if seq::byte(t, 6) != b'\\' {
        return false;
    }
    if seq::byte(t, 7) != b'u' {
        return false;
    }
    let low = unit(t, 8);
    if low < 0xdc00 {
        return false;
    }
    low <= 0xdfff
}

// The character that `\u` and four digits begin.
fn long(t: &[u8]) -> Character
    requires { byte_at t.now 1 ≡ 117 }
    ensures means { result ≡ escape t.now }
    ensures small { (result.code ≤ 0x10ffff) × (2 ≤ result.len) × (result.len ≤ 12) }
{
    let high = unit(t, 2);
    if high < 0xd800 {
        return Character { code: high, len: 6 };
    }
    if 0xdbff < high {
        return Character { code: high, len: 6 };
    }
    if low_follows(t) {
        let low = unit(t, 8);
        return Character {
            code: 0x10000 + (high - 0xd800) * 0x400 + (low - 0xdc00),
            len: 12,
        };
    }
    Character { code: high, len: 6 }
}

// The escape at the head of a text, whose first byte is a backslash.
fn escape(t: &[u8]) -> Character
    ensures means { result ≡ escape t.now }
    ensures small { (result.code ≤ 0x10ffff) × (2 ≤ result.len) × (result.len ≤ 12) }
{
    let b = seq::byte(t, 1);
    if b == b'u' {
        return long(t);
    }
    Character {
        code: short(b),
        len: 2,
    }
}

// ---- UTF-8

// The last six bits of a number, as a byte that goes on with a character.
fn tail(n: u32) -> u8
    ensures { result ≡ 0x80 + n % 64 }
{
    0x80 + (n % 64) as u8
}

fn encode(n: u32) -> Encoded
    requires { n ≤ 0x10ffff }
    ensures means { take result.len result.bytes ≡ encoding n }
    ensures small { (1 ≤ result.len) × (result.len ≤ 4) }
{
    if n < 0x80 {
        return Encoded {
            bytes: [n as u8, 0, 0, 0],
            len: 1,
        };
    }
    if n < 0x800 {
        return Encoded {
            bytes: [0xc0 + (n / 64) as u8, tail(n), 0, 0],
            len: 2,
        };
    }
    if n < 0x10000 {
        return Encoded {
            bytes: [0xe0 + (n / 4096) as u8, tail(n / 64), tail(n), 0],
            len: 3,
        };
    }
    Encoded {
        bytes: [
            0xf0 + (n / 262144) as u8,
            tail(n / 4096),
            tail(n / 64),
            tail(n),
        ],
        len: 4,
    }
}

// ---- a text, byte by byte

// What stands between the quotes of a string that stands from one place to another.
pub fn between(s: &[u8], from: usize, to: usize) -> &[u8]
    ensures { result.now ≡ part (from + 1) (to - 1) s.now }
{
    if to <= from {
        return seq::text(s, Span { from: 0, to: 0 });
    }
    seq::text(
        s,
        Span {
            from: from + 1,
            to: to - 1,
        },
    )
}

// The place so many bytes on, or the end.
fn onward(size: usize, at: usize, n: usize) -> usize
    requires { at ≤ size }
    ensures { result ≡ at + (n - (n - (size - at))) }
{
    if size - at < n { size } else { at + n }
}

// A byte of the escape at a place, and the next place.
fn spelled(t: &[u8], at: usize, k: usize) -> Taken
    requires { (at < length t.now) × (byte_at t.now at ≡ 92) × Within t.now at k }
    ensures means { rest t.now at k ≡ result.byte ∷ rest t.now result.at result.k }
    ensures place { (result.at ≤ length t.now) × Within t.now result.at result.k }
{
    let e = escape(seq::text(
        t,
        Span {
            from: at,
            to: t.len(),
        },
    ));
    let c = encode(e.code);
    let bytes = c.bytes;
    let byte = bytes[k];
    if k + 1 < c.len {
        return Taken { byte, at, k: k + 1 };
    }
    Taken {
        byte,
        at: onward(t.len(), at, e.len),
        k: 0,
    }
}

// The byte at a place in the text, and the next place.
pub fn next(t: &[u8], at: usize, k: usize) -> Taken
    requires { (at < length t.now) × Within t.now at k }
    ensures means { rest t.now at k ≡ result.byte ∷ rest t.now result.at result.k }
    ensures place { (result.at ≤ length t.now) × Within t.now result.at result.k }
{
    let b = t[at];
    if b == b'\\' {
        return spelled(t, at, k);
    }
    Taken {
        byte: b,
        at: at + 1,
        k: 0,
    }
}

// Does the text stand there as it is, without a backslash? All bytes are looked at, so that the loop has one way and goes by many at a time.
pub fn is_plain(t: &[u8]) -> bool
    ensures { result ≡ is_plain t.now }
{
    let mut plain = true;
    for b in t {
        if *b == b'\\' {
            plain = false;
        }
    }
    plain
}

// Does a half that is in no pair stand in it? A text without a backslash is not gone through again.
pub fn has_lone(t: &[u8]) -> bool
    ensures { result ≡ has_lone t.now }
{
    if is_plain(t) {
        return false;
    }
    lone_among(t)
}

// The same, escape by escape.
fn lone_among(t: &[u8]) -> bool
    ensures { result ≡ has_lone t.now }
{
    let mut i: usize = 0;
    while i < t.len() {
        if t[i] == b'\\' {
            let e = escape(seq::text(
                t,
                Span {
                    from: i,
                    to: t.len(),
                },
            ));
            if is_half(e.code) {
                return true;
            }
            i = onward(t.len(), i, e.len);
        } else {
            i += 1;
        }
    }
    false
}

fn is_half(n: u32) -> bool
    ensures { result ≡ is_half n }
{
    if n < 0xd800 {
        return false;
    }
    n <= 0xdfff
}

// The text as far as a URI may go and a byte more, stored: how many bytes it has.
fn store(t: &[u8], stored: &mut [u8]) -> usize
    requires { length stored.old ≡ most_kept }
    ensures { take result stored.new ≡ kept (undone t.now) }
{
    let mut n: usize = 0;
    let mut at: usize = 0;
    let mut k: usize = 0;
    while at < t.len() {
        if MOST_KEPT <= n {
            return n;
        }
        let b = next(t, at, k);
        stored[n] = b.byte;
        n += 1;
        at = b.at;
        k = b.k;
    }
    n
}

// The same, or the text as it is where no escape stands in it.
pub fn undo(t: &[u8], stored: &mut [u8; 129]) -> Undone
    ensures { kept_in t.now stored.new result ≡ kept (undone t.now) }
{
    if is_plain(t) {
        return Undone::AsItIs;
    }
    Undone::Kept(store(t, stored))
}

// The text that was undone.
pub fn text<'a>(t: &'a [u8], stored: &'a [u8; 129], u: Undone) -> &'a [u8]
    ensures { result.now ≡ kept_in t.now stored.now u }
{
    match u {
        Undone::AsItIs => seq::text(
            t,
            Span {
                from: 0,
                to: MOST_KEPT,
            },
        ),
        Undone::Kept(n) => seq::text(stored, Span { from: 0, to: n }),
    }
}

// ---- comparing

// Is it this text, once undone? A byte that is no backslash is compared here, for speed.
pub fn is_text(t: &[u8], text: &[u8]) -> bool
    ensures { result ≡ same (undone t.now) text.now }
{
    let mut i: usize = 0;
    let mut at: usize = 0;
    let mut k: usize = 0;
    while at < t.len() {
        if text.len() <= i {
            return false;
        }
        let b = t[at];
        if b == b'\\' {
            let c = spelled(t, at, k);
            if text[i] != c.byte {
                return false;
            }
            i += 1;
            at = c.at;
            k = c.k;
        } else {
            if text[i] != b {
                return false;
            }
            i += 1;
            at += 1;
        }
    }
    i == text.len()
}

// How many bytes two have alike at their heads, before a backslash.
fn alike(x: &[u8], y: &[u8]) -> usize
    ensures { result ≡ alike x.now y.now }
{
    x.iter()
        .zip(y)
        .take_while(|(a, b)| a == b && **a != b'\\')
        .count()
}

// Do two stand for the same text? Two that differ before a backslash do not, which is the quickest to tell.
pub fn same_text(x: &[u8], y: &[u8]) -> bool
    ensures { result ≡ same (undone x.now) (undone y.now) }
{
    let n = alike(x, y);
    if seq::byte(x, n) == b'\\' {
        return same_characters(x, y);
    }
    if seq::byte(y, n) == b'\\' {
        return same_characters(x, y);
    }
    if n < x.len() {
        return false;
    }
    n == y.len()
}

// The same, byte by byte of the texts.
fn same_characters(x: &[u8], y: &[u8]) -> bool
    ensures { result ≡ same (undone x.now) (undone y.now) }
{
    let mut i: usize = 0;
    let mut ik: usize = 0;
    let mut j: usize = 0;
    let mut jk: usize = 0;
    while i < x.len() {
        if y.len() <= j {
            return false;
        }
        let a = next(x, i, ik);
        let b = next(y, j, jk);
        if a.byte != b.byte {
            return false;
        }
        i = a.at;
        ik = a.k;
        j = b.at;
        jk = b.k;
    }
    y.len() <= j
}

// A small number by which two texts are told apart where it differs. A byte that is no backslash is added here, for speed.
pub fn mark(t: &[u8]) -> u16
    ensures { result ≡ mark_of (undone t.now) }
{
    let mut m: u32 = 0;
    let mut at: usize = 0;
    let mut k: usize = 0;
    while at < t.len() {
        let b = t[at];
        if b == b'\\' {
            let c = spelled(t, at, k);
            m = (m * 251 + c.byte as u32) % 65536;
            at = c.at;
            k = c.k;
        } else {
            m = (m * 251 + b as u32) % 65536;
            at += 1;
        }
    }
    m as u16
}

// ---- writing

// How many bytes of a text get a backslash before them.
pub fn marked(t: &[u8]) -> usize
    ensures means { result ≡ tally is_marked t.now }
    ensures small { result ≤ length t.now }
{
    t.iter().filter(|b| is_marked(**b)).count()
}

// A quote or a backslash.
pub fn is_marked(b: u8) -> bool
    ensures { result ≡ is_marked b }
{
    match b {
        b'"' => true,
        b'\\' => true,
        _ => false,
    }
}
