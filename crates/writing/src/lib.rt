// Writing: each function writes bytes over `out` from the place `at` on, as far as they fit, and answers the place past them all.
// So none asks for room, and what is written into no room is only measured. Places stop at the largest usize, as lengths do.
#![tactic(auto)]

ghost use Rattle.std.specs.Prelude.{◌≡◌, ◌∷◌, [], ◌+◌, ◌-◌, ◌%◌, length, take, drop};
ghost use Rattle.seq.specs.Bytes.{text_of, source, payload_of};
ghost use Rattle.strings.specs.Strings.{escaped};
ghost use Rattle.buffer.specs.Capped.{capped};
ghost use Rattle.values.specs.Write.{pack_text};
ghost use Rattle.pieces.specs.Pieces.{texts, shorts, value_bytes, concat, bytes_of, written};
ghost use Rattle.outgoing.specs.Layout.{be16};
ghost use Rattle.buffer.specs.Over.{over};
ghost use Rattle.writing.specs.Times.{repeated};

use pieces::Piece;
use seq::{PayloadSpans, Span};

// A number in two bytes, big-endian.
pub fn put_be16(n: usize, out: &mut [u8], at: usize) -> usize
    ensures place { result ≡ capped (at + 2) }
    ensures bytes { out.new ≡ over out.old at (be16 n) }
{
    let o = buffer::put_byte((n / 256 % 256) as u8, out, at);
    buffer::put_byte((n % 256) as u8, out, o)
}

fn put_value(message: &[u8], s: Span, out: &mut [u8], at: usize) -> usize
    ensures place { result ≡ capped (at + length (44 ∷ text_of message.now s)) }
    ensures bytes { out.new ≡ over out.old at (44 ∷ text_of message.now s) }
{
    let o = buffer::put_byte(b',', out, at);
    buffer::put_bytes(seq::text(message, s), out, o)
}

fn put_values(message: &[u8], p: PayloadSpans, out: &mut [u8], at: usize) -> usize
    ensures place { result ≡ capped (at + length (value_bytes (payload_of message.now p))) }
    ensures bytes { out.new ≡ over out.old at (value_bytes (payload_of message.now p)) }
{
    match p {
        PayloadSpans::Absent => at,
        PayloadSpans::Arguments(list) => put_value(message, list, out, at),
        PayloadSpans::Keywords(list, dict) => {
            let o = put_value(message, list, out, at);
            put_value(message, dict, out, o)
        }
    }
}

fn put_text(s: Span, out: &mut [u8], at: usize) -> usize
    ensures place { result ≡ capped (at + length (text_of texts s)) }
    ensures bytes { out.new ≡ over out.old at (text_of texts s) }
{
    buffer::put_bytes(seq::text(&pieces::TEXTS, s), out, at)
}

fn put_short(s: Span, out: &mut [u8], at: usize) -> usize
    ensures place { result ≡ capped (at + length (text_of shorts s)) }
    ensures bytes { out.new ≡ over out.old at (text_of shorts s) }
{
    buffer::put_bytes(seq::text(&pieces::SHORTS, s), out, at)
}

// One byte of a text, behind a backslash where it is a quote or a backslash.
fn put_char(b: u8, out: &mut [u8], at: usize) -> usize
    ensures place { result ≡ capped (at + length (escaped (b ∷ []))) }
    ensures bytes { out.new ≡ over out.old at (escaped (b ∷ [])) }
{
    if !strings::is_marked(b) {
        return buffer::put_byte(b, out, at);
    }
    let o = buffer::put_byte(b'\\', out, at);
    buffer::put_byte(b, out, o)
}

// A text, escaped. Most have nothing to escape and are copied.
fn put_name(text: &[u8], out: &mut [u8], at: usize) -> usize
    ensures place { result ≡ capped (at + length (escaped text.now)) }
    ensures bytes { out.new ≡ over out.old at (escaped text.now) }
{
    if strings::marked(text) == 0 {
        return buffer::put_bytes(text, out, at);
    }
    let mut o = at;
    for b in text {
        o = put_char(*b, out, o);
    }
    o
}

// A text as a str.
fn put_packed(text: &[u8], out: &mut [u8], at: usize) -> usize
    ensures place { result ≡ capped (at + length (pack_text text.now)) }
    ensures bytes { out.new ≡ over out.old at (pack_text text.now) }
{
    let o = packing::put_str(text.len() as u64, out, at);
    buffer::put_bytes(text, out, o)
}

// A payload's values, one after the other.
fn put_joined(message: &[u8], p: PayloadSpans, out: &mut [u8], at: usize) -> usize
    ensures place { result ≡ capped (at + length (concat (payload_of message.now p))) }
    ensures bytes { out.new ≡ over out.old at (concat (payload_of message.now p)) }
{
    match p {
        PayloadSpans::Absent => at,
        PayloadSpans::Arguments(list) => buffer::put_bytes(seq::text(message, list), out, at),
        PayloadSpans::Keywords(list, dict) => {
            let o = buffer::put_bytes(seq::text(message, list), out, at);
            buffer::put_bytes(seq::text(message, dict), out, o)
        }
    }
}

fn put_piece(message: &[u8], text: &[u8], p: Piece, out: &mut [u8], at: usize) -> usize
    ensures place { result ≡ capped (at + length (bytes_of (source message.now text.now) p)) }
    ensures bytes { out.new ≡ over out.old at (bytes_of (source message.now text.now) p) }
{
    match p {
        Piece::Blank => at,
        Piece::Text(s) => put_text(s, out, at),
        Piece::Short(s) => put_short(s, out, at),
        Piece::Number(n) => buffer::put_number(n, out, at),
        Piece::Name => put_name(text, out, at),
        Piece::Copy => buffer::put_bytes(text, out, at),
        Piece::Values(payload) => put_values(message, payload, out, at),
        Piece::Byte(b) => buffer::put_byte(b, out, at),
        Piece::Packed(n) => packing::put_whole(n, out, at),
        Piece::Str => put_packed(text, out, at),
        Piece::Joined(payload) => put_joined(message, payload, out, at),
    }
}

pub fn put_pieces(message: &[u8], text: &[u8], ps: [Piece; 9], out: &mut [u8], at: usize) -> usize
    ensures place { result ≡ capped (at + length (written (source message.now text.now) ps)) }
    ensures bytes { out.new ≡ over out.old at (written (source message.now text.now) ps) }
{
    let mut o = at;
    for p in &ps {
        o = put_piece(message, text, *p, out, o);
    }
    o
}

// Writes again what stands in out before `at`, n bytes from a place on, and answers the place past n bytes.
fn put_again(from: usize, n: usize, out: &mut [u8], at: usize) -> usize
    ensures place { result ≡ capped (at + n) }
    ensures bytes { out.new ≡ over out.old at (take n (drop from (take at out.old))) }
{
    let size = out.len();
    let end = at.min(size);
    let there = n.min(end.saturating_sub(from));
    let m = there.min(size.saturating_sub(at));
    if 0 < m {
        out.copy_within(from..from + m, at);
    }
    buffer::plus(at, n)
}

// A message in pieces so many times, one after the other: its pieces are written once, and what they gave is copied, if it has room.
pub fn put_times(
    message: &[u8],
    text: &[u8],
    ps: [Piece; 9],
    times: usize,
    out: &mut [u8],
    at: usize,
) -> usize
    ensures place { result ≡ capped (at + length (repeated times (written (source message.now text.now) ps))) }
    ensures bytes { out.new ≡ over out.old at (repeated times (written (source message.now text.now) ps)) }
{
    if times == 0 {
        return at;
    }
    let past = put_pieces(message, text, ps, out, at);
    let n = past - at;
    let more = times - 1;
    let mut o = past;
    for i in 0..more {
        if past <= out.len() {
            o = put_again(at, n, out, o);
        } else {
            o = put_pieces(message, text, ps, out, o);
        }
    }
    o
}
