// MessagePack values. Each reader is given the text and a place, and answers the place just past what it reads.
#![tactic(auto)]

ghost use Rattle.std.specs.Prelude.{◌≡◌, ◌+◌, ◌-◌, ◌*◌, ◌^◌, ◌≤◌, ◌<◌, length, get_or};
ghost use Rattle.seq.specs.Bytes.{among, part, same};
ghost use Rattle.strings.specs.Places.{mark_of};
ghost use Rattle.lex.specs.Lex.{Within, From};
ghost use Rattle.json_text.specs.Json.{max_bytes};
ghost use Rattle.json_text.specs.Keys.{table, with_key};
ghost use Rattle.msgpack.specs.Head.{form, forms, array, map, none, form_of, number, half, signed_head, head_at, Placed};
ghost use Rattle.msgpack.specs.MsgPack.{bytes, text, by_head, value, array_at, map_at, value_at};
ghost use Rattle.msgpack.specs.Keys.{Sized, texts, Entered, Kept, Noting};

use seq::Span;

// What a first byte announces: the kind of value, how many bytes the number behind it has, and what to add to that number.
#[derive(Clone, Copy)]
pub struct Form {
    pub kind: u8,
    pub width: usize,
    pub base: u64,
}

// The head of a value: its kind, its number, and the place past it.
#[derive(Clone, Copy)]
pub struct Head {
    pub kind: u8,
    pub n: u64,
    pub end: usize,
}

// ---- heads

// The kinds of values; specs/Head.antt says what a head's number means for each.
pub const NIL: u8 = 0;

pub const NO: u8 = 1;

pub const YES: u8 = 2;

pub const WHOLE: u8 = 3;

pub const BELOW: u8 = 4;

pub const STR: u8 = 5;

pub const OPAQUE: u8 = 6;

pub const ARRAY: u8 = 7;

pub const MAP: u8 = 8;

pub const NONE: u8 = 9;

const SIGNED: u8 = 10;

// The kinds of hex C0 to DF, a line for each sixteen of them: nil, a byte that starts no value, false, true, bin 8 to 32, ext 8 to 32, float
// 32 and 64, uint 8 to 64; int 8 to 64, fixext 1 to 16, str 8 to 32, array 16 and 32, map 16 and 32.
const KINDS: [u8; 32] = *b"\x00\x09\x01\x02\x06\x06\x06\x06\x06\x06\x06\x06\x03\x03\x03\x03\
    \x0a\x0a\x0a\x0a\x06\x06\x06\x06\x06\x05\x05\x05\x07\x07\x08\x08";

// How many bytes the number behind each of them has.
const WIDTHS: [u8; 32] = *b"\x00\x00\x00\x00\x01\x02\x04\x01\x02\x04\x00\x00\x01\x02\x04\x08\
    \x01\x02\x04\x08\x00\x00\x00\x00\x00\x01\x02\x04\x02\x04\x02\x04";

// What to add to that number: an ext has a byte for its type before its data, and a float or a fixext has its length from its first byte.
const BASES: [u8; 32] = *b"\x00\x00\x00\x00\x00\x00\x00\x01\x01\x01\x04\x08\x00\x00\x00\x00\
    \x00\x00\x00\x00\x02\x03\x05\x09\x11\x00\x00\x00\x00\x00\x00\x00";

// The form at a place of the table.
fn listed(i: usize) -> Form
    requires { i < 32 }
    ensures { result ≡ get_or forms i (form none 0 0) }
{
    let kinds = KINDS;
    let widths = WIDTHS;
    let bases = BASES;
    Form {
        kind: kinds[i],
        width: seq::size(widths[i]),
        base: seq::wide(bases[i]),
    }
}

// A form whose number is told by the first byte itself.
fn at_once(kind: u8, n: u8) -> Form
    ensures { result ≡ form kind 0 n }
{
    Form {
        kind: kind,
        width: 0,
        base: seq::wide(n),
    }
}

// What a first byte announces.
fn announced(b: u8) -> Form
    ensures means { result ≡ form_of b }
{
    match b {
        0..=0x7f => at_once(WHOLE, b),
        0x80..=0x8f => at_once(MAP, b - 0x80),
        0x90..=0x9f => at_once(ARRAY, b - 0x90),
        0xa0..=0xbf => at_once(STR, b - 0xa0),
        0xc0..=0xdf => listed(seq::size(b) - 0xc0),
        _ => at_once(BELOW, 0xff - b),
    }
}

// A number in `width` bytes, big-endian.
fn number(s: &[u8], at: usize, width: usize) -> u64
    requires { (at + width ≤ length s.now) × (width ≤ 8) }
    ensures means { result ≡ number s.now at width }
    ensures small { result < 256 ^ width }
{
    let mut n: u64 = 0;
    for b in &s[at..at + width] {
        n = n * 256 + seq::wide(*b);
    }
    n
}

// Half of what `width` bytes can tell apart.
fn half(width: usize) -> u64
    ensures { result ≡ half width }
{
    if width == 1 {
        return 0x80;
    }
    if width == 2 {
        return 0x8000;
    }
    if width == 4 {
        return 0x80000000;
    }
    0x8000000000000000
}

// The head of a signed number of `width` bytes that reads as u unsigned.
fn signed(width: usize, u: u64, end: usize) -> Head
    requires { u < 2 * half width }
    ensures { result ≡ signed_head width u end }
{
    let h = half(width);
    if u < h {
        return Head {
            kind: WHOLE,
            n: u,
            end: end,
        };
    }
    Head {
        kind: BELOW,
        n: (h - 1) - (u - h),
        end: end,
    }
}

// The head at a place.
pub fn head_at(s: &[u8], at: usize) -> Head
    ensures means { result ≡ head_at s.now at }
    ensures placed { Placed at (length s.now) result }
{
    let f = announced(seq::byte(s, at));
    if s.len() <= at {
        return Head {
            kind: NONE,
            n: 0,
            end: 0,
        };
    }
    let width = f.width;
    let base = f.base;
    let kind = f.kind;
    if s.len() - at - 1 < width {
        return Head {
            kind: NONE,
            n: 0,
            end: 0,
        };
    }
    let u = number(s, at + 1, width);
    let end = at + 1 + width;
    if kind == SIGNED {
        return signed(width, u, end);
    }
    Head {
        kind: kind,
        n: base + u,
        end: end,
    }
}

// ---- values

// n bytes from a place on.
fn skip_bytes(s: &[u8], at: usize, n: u64) -> Option<usize>
    requires { at ≤ length s.now }
    ensures means { result ≡ bytes s.now at n }
    ensures within { From at (length s.now) result }
{
    let room = (s.len() - at) as u64;
    if room < n {
        return None;
    }
    Some(at + n as usize)
}

// n bytes of well-formed UTF-8 from a place on.
pub fn skip_text(s: &[u8], at: usize, n: u64) -> Option<usize>
    requires { at ≤ length s.now }
    ensures means { result ≡ text s.now at n }
    ensures within { From at (length s.now) result }
{
    let e = skip_bytes(s, at, n)?;
    if utf8::well_formed(seq::text(s, Span { from: at, to: e })) {
        Some(e)
    } else {
        None
    }
}

// A value that starts at `at`, in which `depth` arrays and maps may be opened. A text that is too long has none. One table of keys serves
// all depths; a value that opens no array or map needs none.
pub fn value(s: &[u8], at: usize, depth: usize) -> Option<usize>
    ensures means { result ≡ value_at depth s.now at }
    ensures within { Within at (length s.now) result }
{
    if json_text::MAX_BYTES < s.len() {
        return None;
    }
    let h = head_at(s, at);
    match h.kind {
        ARRAY | MAP => opened(s, at, depth, h),
        _ => flat(s, h),
    }
}

// An array or a map by its head: with nothing in it, it needs no table.
fn opened(s: &[u8], at: usize, depth: usize, h: Head) -> Option<usize>
    requires { (length s.now ≤ max_bytes) × (h ≡ head_at s.now at) × (array ≤ h.kind) × (h.kind ≤ map) × Placed at (length s.now) h }
    ensures means { result ≡ value depth s.now at }
    ensures within { Within at (length s.now) result }
{
    if depth == 0 {
        return None;
    }
    let n = h.n;
    if n == 0 {
        return Some(h.end);
    }
    nested(s, at, depth)
}

// A value with a table of its own.
fn nested(s: &[u8], at: usize, depth: usize) -> Option<usize>
    requires { length s.now ≤ max_bytes }
    ensures means { result ≡ value depth s.now at }
    ensures within { Within at (length s.now) result }
{
    let mut starts = [0u16; 1024];
    let mut ends = [0u16; 1024];
    let mut marks = [0u16; 1024];
    read_value(s, at, depth, 0, &mut starts, &mut ends, &mut marks)
}

// What follows a head that opens neither an array nor a map.
fn flat(s: &[u8], h: Head) -> Option<usize>
    requires { h.end ≤ length s.now }
    ensures means { result ≡ by_head (λ n e. None) (λ n e. None) s.now h }
    ensures within { From h.end (length s.now) result }
{
    match h.kind {
        NIL..=BELOW => Some(h.end),
        STR => skip_text(s, h.end, h.n),
        OPAQUE => skip_bytes(s, h.end, h.n),
        _ => None,
    }
}

// The head decides which kind of value follows. The table holds the n str keys of the maps that are open; what the value puts into it stands
// behind them. A key and what it is the key of take 2 bytes or more, so 1,024 places are enough.
#[cycle(value)]
fn read_value(
    s: &[u8],
    at: usize,
    depth: usize,
    n: usize,
    starts: &mut [u16; 1024],
    ends: &mut [u16; 1024],
    marks: &mut [u16; 1024],
) -> Option<usize>
    requires s_len_bound { (length s.now ≤ max_bytes) × (2 * n ≤ at) }
    requires sized { Sized (table starts.old ends.old marks.old) }
    ensures means { result ≡ value depth s.now at }
    ensures within { Within at (length s.now) result }
    ensures kept { Kept n (table starts.old ends.old marks.old) (table starts.new ends.new marks.new) }
{
    let h = head_at(s, at);
    match h.kind {
        ARRAY => read_array(s, h.end, h.n, depth, n, starts, ends, marks),
        MAP => read_map(s, h.end, h.n, depth, n, starts, ends, marks),
        _ => flat(s, h),
    }
}

// The values of an array, from behind its head on.
#[cycle(value)]
fn read_array(
    s: &[u8],
    at: usize,
    count: u64,
    depth: usize,
    n: usize,
    starts: &mut [u16; 1024],
    ends: &mut [u16; 1024],
    marks: &mut [u16; 1024],
) -> Option<usize>
    requires s_len_bound { (length s.now ≤ max_bytes) × (at ≤ length s.now) × (2 * n ≤ at) }
    requires sized { Sized (table starts.old ends.old marks.old) }
    ensures means { result ≡ array_at depth s.now count at }
    ensures within { From at (length s.now) result }
    ensures kept { Kept n (table starts.old ends.old marks.old) (table starts.new ends.new marks.new) }
{
    if depth == 0 {
        return None;
    }
    let mut p = at;
    for _ in 0..count {
        p = read_value(s, p, depth - 1, n, starts, ends, marks)?;
    }
    Some(p)
}

// The pairs of a map, from behind its head on. Its str keys stand in the table from place n on. A key may be any value, so what reading it
// puts into the table stands behind them for that time.
#[cycle(value)]
fn read_map(
    s: &[u8],
    at: usize,
    count: u64,
    depth: usize,
    n: usize,
    starts: &mut [u16; 1024],
    ends: &mut [u16; 1024],
    marks: &mut [u16; 1024],
) -> Option<usize>
    requires s_len_bound { (length s.now ≤ max_bytes) × (at ≤ length s.now) × (2 * n < at) }
    requires sized { Sized (table starts.old ends.old marks.old) }
    ensures means { result ≡ map_at depth s.now count at }
    ensures within { From at (length s.now) result }
    ensures kept { Kept n (table starts.old ends.old marks.old) (table starts.new ends.new marks.new) }
{
    if depth == 0 {
        return None;
    }
    let mut p = at;
    let mut z = n;
    for _ in 0..count {
        let h = head_at(s, p);
        let e = read_value(s, p, depth - 1, z, starts, ends, marks)?;
        z = note(s, h, e, n, z, starts, ends, marks)?;
        p = read_value(s, e, depth - 1, z, starts, ends, marks)?;
    }
    Some(p)
}

// ---- the str keys of a map

// A key that was read, from behind its head up to e: a str is entered behind those in the table from place n up to z, unless one of them is
// the same. Answers the place past the map's keys.
fn note(
    s: &[u8],
    h: Head,
    e: usize,
    n: usize,
    z: usize,
    starts: &mut [u16; 1024],
    ends: &mut [u16; 1024],
    marks: &mut [u16; 1024],
) -> Option<usize>
    requires n_le_z { (n ≤ z) × (z < 1024) × (h.end ≤ max_bytes) × (e ≤ max_bytes) }
    requires sized { Sized (table starts.old ends.old marks.old) × Entered s.now (table starts.old ends.old marks.old) n z }
    ensures noted { Noting s.now h e n z (table starts.old ends.old marks.old) (table starts.new ends.new marks.new) result }
    ensures kept { Kept z (table starts.old ends.old marks.old) (table starts.new ends.new marks.new) }
{
    let kind = h.kind;
    let from = h.end;
    if kind != STR {
        return Some(z);
    }
    let key = seq::text(s, Span { from: from, to: e });
    let m = mark(key);
    if seen(s, starts, ends, marks, n, z, key, m) {
        return None;
    }
    enter(z, from, e, m, starts, ends, marks);
    Some(z + 1)
}

// Puts a key that stands from k to q, and its mark, at place z of the table.
fn enter(
    z: usize,
    k: usize,
    q: usize,
    mark: u16,
    starts: &mut [u16; 1024],
    ends: &mut [u16; 1024],
    marks: &mut [u16; 1024],
)
    requires { (z < 1024) × (k ≤ max_bytes) × (q ≤ max_bytes) }
    ensures { table starts.new ends.new marks.new ≡ with_key (table starts.old ends.old marks.old) z k q mark }
{
    starts[z] = k as u16;
    ends[z] = q as u16;
    marks[z] = mark;
}

// Is a key one of those in the table from place n up to z? Only those with its mark are compared.
fn seen(
    s: &[u8],
    starts: &[u16; 1024],
    ends: &[u16; 1024],
    marks: &[u16; 1024],
    n: usize,
    z: usize,
    key: &[u8],
    mark: u16,
) -> bool
    requires n_le_z { (n ≤ z) × (z ≤ 1024) × (mark ≡ mark_of key.now) }
    requires entered { Entered s.now (table starts.now ends.now marks.now) n z }
    ensures { result ≡ among key.now (texts s.now (table starts.now ends.now marks.now) n (z - n)) }
{
    if json_text::is_new(&marks[n..z], mark) {
        return false;
    }
    for j in n..z {
        if marks[j] == mark && same_key(s, usize::from(starts[j]), usize::from(ends[j]), key) {
            return true;
        }
    }
    false
}

// Does this key stand from one place to another?
fn same_key(s: &[u8], from: usize, to: usize, key: &[u8]) -> bool
    ensures { result ≡ same (part from to s.now) key.now }
{
    seq::same_bytes(seq::text(s, Span { from: from, to: to }), key)
}

// A small number by which two texts are told apart where it differs.
fn mark(t: &[u8]) -> u16
    ensures { result ≡ mark_of t.now }
{
    let mut m: u32 = 0;
    for b in t {
        m = (m * 251 + *b as u32) % 65536;
    }
    m as u16
}
