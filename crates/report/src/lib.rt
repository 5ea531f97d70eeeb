// The text written for a step of the hub: its number and line, how it came out, and each message with its receiver, read from the step's
// output; and for a line of a script that cannot be read (docs/REPLAY.md, "What is written").
#![tactic(auto)]

ghost use Rattle.std.specs.Prelude.{◌≡◌, ◌+◌, ◌*◌, ◌<◌, length};
ghost use Rattle.seq.specs.declared.Format.TheVariants.{Json, MsgPack};
ghost use Rattle.hex_text.specs.Hex.{hex_of};
ghost use Rattle.conversion.specs.Converts.{convert};
ghost use Rattle.show.specs.Buffer.{after, written};
ghost use Rattle.report.specs.Contents.{number16, entry_at};
ghost use Rattle.report.specs.Text.{depth, hex_text, packed_text, body_text};
ghost use Rattle.report.specs.Text.{message_text, messages_text, done_text, outcome_text, head_text, reason_text, wrong_text};

use model::Outcome;
use script::Reason;
use seq::{Format, Span};

// ---- the contents of a step's output

// An entry of the contents: the slot that a message goes to, and the message's length.
#[derive(Clone, Copy)]
pub struct Entry {
    pub slot: u64,
    pub len: usize,
}

// A number of two bytes, big-endian.
fn number(high: u8, low: u8) -> usize
    ensures means { result ≡ high * 256 + low }
    ensures short { result < 65536 }
{
    high as usize * 256 + low as usize
}

// How many messages there are.
fn message_count(out: &[u8]) -> usize
    ensures means { result ≡ number16 out.now 0 }
    ensures short { result < 65536 }
{
    number(seq::byte(out, 0), seq::byte(out, 1))
}

fn entry_at(out: &[u8], k: usize) -> Entry
    requires { k < 65536 }
    ensures means { result ≡ entry_at out.now k }
    ensures short { result.len < 65536 }
{
    let at = 2 + 3 * k;
    let high = at + 1;
    let low = at + 2;
    Entry {
        slot: seq::wide(seq::byte(out, at)),
        len: number(seq::byte(out, high), seq::byte(out, low)),
    }
}

// ---- texts, each written into a buffer from a place on; the answer is the place past it

// Bytes in hex, two digits each.
fn put_digits(text: &mut [u8], at: usize, bytes: &[u8]) -> usize
    ensures place { result ≡ after text.old at (hex_of bytes.now) }
    ensures bytes { text.new ≡ written text.old at (hex_of bytes.now) }
{
    let mut to = at;
    for b in bytes {
        let pair = hex_text::pair(*b);
        to = show::put(text, to, &pair);
    }
    to
}

// A message in hex, and that it is.
fn put_hex(text: &mut [u8], at: usize, body: &[u8]) -> usize
    ensures place { result ≡ after text.old at (hex_text body.now) }
    ensures bytes { text.new ≡ written text.old at (hex_text body.now) }
{
    let a = show::put(text, at, b"hex ");
    put_digits(text, a, body)
}

// Room for the longest JSON text of a message in MessagePack.
fn json_buffer() -> [u8; 32768]
    ensures { 32768 ≡ length result }
{
    [0u8; 32768]
}

// How deep a message nests.
const DEPTH: usize = 8;

// A message in MessagePack, as the JSON text of its value where there is one, else in hex.
fn put_packed(text: &mut [u8], at: usize, body: &[u8]) -> usize
    ensures place { result ≡ after text.old at (packed_text body.now (convert MsgPack Json depth body.now 0)) }
    ensures bytes { text.new ≡ written text.old at (packed_text body.now (convert MsgPack Json depth body.now 0)) }
{
    let mut json = json_buffer();
    let converted = convert::convert(Format::MsgPack, body, DEPTH, &mut json, 0);
    let Some(value) = converted else {
        return put_hex(text, at, body);
    };
    if value.read != body.len() {
        return put_hex(text, at, body);
    }
    let len = value.written;
    if json.len() < len {
        return put_hex(text, at, body);
    }
    show::put(text, at, seq::text(&json, Span { from: 0, to: len }))
}

// A message as a reader can see it: JSON, whose first byte is below hex 80, as it is.
fn put_body(text: &mut [u8], at: usize, body: &[u8]) -> usize
    ensures place { result ≡ after text.old at (body_text body.now) }
    ensures bytes { text.new ≡ written text.old at (body_text body.now) }
{
    if seq::byte(body, 0) < 0x80 {
        return show::put(text, at, body);
    }
    let a = show::put(text, at, b"msgpack ");
    put_packed(text, a, body)
}

fn put_message(text: &mut [u8], at: usize, slot: u64, body: &[u8]) -> usize
    ensures place { result ≡ after text.old at (message_text slot body.now) }
    ensures bytes { text.new ≡ written text.old at (message_text slot body.now) }
{
    let a = show::put(text, at, b"  -> slot ");
    let b = show::put_number(text, a, slot);
    let c = show::put(text, b, b": ");
    let d = put_body(text, c, body);
    show::put(text, d, b"\n")
}

// The messages of a step's output, each with its receiver.
fn put_messages(text: &mut [u8], at: usize, out: &[u8]) -> usize
    ensures place { result ≡ after text.old at (messages_text out.now) }
    ensures bytes { text.new ≡ written text.old at (messages_text out.now) }
{
    let n = message_count(out);
    let mut to = at;
    let mut from = 2 + 3 * n;
    for k in 0..n {
        let e = entry_at(out, k);
        let end = from + e.len;
        to = put_message(text, to, e.slot, seq::text(out, Span { from, to: end }));
        from = end;
    }
    to
}

fn put_done(text: &mut [u8], at: usize, count: usize) -> usize
    ensures place { result ≡ after text.old at (done_text count) }
    ensures bytes { text.new ≡ written text.old at (done_text count) }
{
    let a = show::put(text, at, b"  -> done, ");
    let b = show::put_number(text, a, count as u64);
    show::put(text, b, b" bytes\n")
}

// How a step came out; of a done one also how many bytes of output it has, and its messages.
pub fn put_outcome(text: &mut [u8], at: usize, outcome: Outcome, count: usize, out: &[u8]) -> usize
    ensures place { result ≡ after text.old at (outcome_text outcome count (messages_text out.now)) }
    ensures bytes { text.new ≡ written text.old at (outcome_text outcome count (messages_text out.now)) }
{
    match outcome {
        Outcome::Done => {
            let a = put_done(text, at, count);
            put_messages(text, a, out)
        }
        Outcome::BadState => show::put(text, at, b"  -> refused 1 BAD STATE\n"),
        Outcome::BadSlot => show::put(text, at, b"  -> refused 2 BAD SLOT\n"),
        Outcome::WrongTime => show::put(text, at, b"  -> refused 3 WRONG TIME\n"),
        Outcome::BadNumber => show::put(text, at, b"  -> refused 4 BAD NUMBER\n"),
        Outcome::NoRoom => show::put(text, at, b"  -> refused 5 NO ROOM\n"),
    }
}

// A step's number, and its line as written.
pub fn put_head(text: &mut [u8], at: usize, number: u64, line: &[u8]) -> usize
    ensures place { result ≡ after text.old at (head_text number line.now) }
    ensures bytes { text.new ≡ written text.old at (head_text number line.now) }
{
    let a = show::put_number(text, at, number);
    let b = show::put(text, a, b": ");
    let c = show::put(text, b, line);
    show::put(text, c, b"\n")
}

fn put_reason(text: &mut [u8], at: usize, reason: Reason) -> usize
    ensures place { result ≡ after text.old at (reason_text reason) }
    ensures bytes { text.new ≡ written text.old at (reason_text reason) }
{
    match reason {
        Reason::UnknownWord => show::put(
            text,
            at,
            b"the first word is not attach, attach_msgpack, detach, send or bytes",
        ),
        Reason::NoSlot => show::put(text, at, b"the slot is missing or no number"),
        Reason::NoNumber => show::put(text, at, b"the lent number is missing or no number"),
        Reason::NoMessage => show::put(text, at, b"the message is missing"),
        Reason::TooLarge => show::put(text, at, b"a number does not fit 64 bits"),
        Reason::AfterSlot => show::put(text, at, b"something stands after the slot"),
        Reason::NoHex => show::put(text, at, b"the bytes are no hex digits"),
    }
}

// A line that cannot be read, by its number.
pub fn put_wrong(text: &mut [u8], at: usize, line: u64, reason: Reason) -> usize
    ensures place { result ≡ after text.old at (wrong_text line reason) }
    ensures bytes { text.new ≡ written text.old at (wrong_text line reason) }
{
    let a = show::put(text, at, b"line ");
    let b = show::put_number(text, a, line);
    let c = show::put(text, b, b": ");
    let d = put_reason(text, c, reason);
    show::put(text, d, b"\n")
}
