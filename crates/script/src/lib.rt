// Reads a script of steps for the hub, one to a line: `attach SLOT`, `attach_msgpack SLOT`, `detach SLOT`, `send SLOT NUMBER MESSAGE`,
// `bytes SLOT NUMBER HEX`. Blank lines, and lines that begin with `#`, are no steps. Slots and lent numbers out of the hub's range are read:
// it is the hub that refuses them.
#![tactic(auto)]

ghost use Rattle.std.specs.Prelude.{◌≡◌, ◌-◌, ◌≤◌, length};
ghost use Rattle.seq.specs.Lists.{every};
ghost use Rattle.seq.specs.Bytes.{is_digit};
ghost use Rattle.script.specs.Numbers.{value_from, fitting, number_of};
ghost use Rattle.script.specs.Script.{upto, line_end, spaces, word_at, slot_alone, rest, message_at};
ghost use Rattle.script.specs.Script.{in_hex, step, read_text, text_end, read_line};

use seq::Span;

// Why a line cannot be read.
#[derive(Clone, Copy, Debug, PartialEq, Eq)]
pub enum Reason {
    // The first word is none of the five.
    UnknownWord,
    // No slot, or another word than a number in its place.
    NoSlot,
    // No lent number, or another word than a number in its place.
    NoNumber,
    // No space after the lent number, so no message, not even an empty one.
    NoMessage,
    // A number that does not fit 64 bits.
    TooLarge,
    // More than the slot, where it stands alone.
    AfterSlot,
    // An odd digit or another byte than a digit in a message that is given in hex.
    NoHex,
}

// A message that a slot sends, with the number that the host lends.
#[derive(Clone, Copy)]
pub struct Sent {
    pub slot: u64,
    pub number: u64,
    pub message: Span,
}

#[derive(Clone, Copy)]
pub enum Line {
    Blank,
    Attach(u64),
    // For MessagePack.
    AttachMsgPack(u64),
    Detach(u64),
    Send(Sent),
    // A message that is given in hex.
    Bytes(Sent),
}

// The first place from `at` on that holds the byte; the end where none does.
fn upto(s: &[u8], at: usize, b: u8) -> usize
    ensures means { result ≡ upto b s.now at }
    ensures onward { at ≤ result }
    ensures within { at ≤ length s.now → result ≤ length s.now }
{
    for i in at..s.len() {
        if s[i] == b {
            return i;
        }
    }
    s.len().max(at)
}

// The end of the line that goes on at a place: the next line feed, or the end of the text.
pub fn line_end(text: &[u8], at: usize) -> usize
    ensures means { result ≡ line_end text.now at }
    ensures onward { at ≤ result }
    ensures within { at ≤ length text.now → result ≤ length text.now }
{
    upto(text, at, b'\n')
}

// The first place from `at` on that holds no space.
fn spaces(s: &[u8], at: usize) -> usize
    ensures { result ≡ spaces s.now at }
{
    at + seq::from(s, at).iter().take_while(|b| **b == b' ').count()
}

// The next word from a place on.
pub fn word(s: &[u8], at: usize) -> Span
    ensures { result ≡ word_at s.now at }
{
    let from = spaces(s, at);
    Span {
        from: from,
        to: upto(s, from, b' '),
    }
}

// Are there only digits?
fn only_digits(word: &[u8]) -> bool
    ensures { result ≡ every is_digit word.now }
{
    for b in word {
        if !seq::is_digit(*b) {
            return false;
        }
    }
    true
}

// What a digit stands for.
fn digit(b: u8) -> u64
    ensures { result ≡ b - 48 }
{
    if b < b'0' { 0 } else { (b - b'0') as u64 }
}

// The number that digits stand for, if it fits.
fn value(digits: &[u8]) -> Result<u64, Reason>
    ensures { result ≡ fitting (value_from 0 digits.now) }
{
    let mut v: u64 = 0;
    for b in digits {
        let d = digit(*b);
        if (MAX - d) / 10 < v {
            return Err(Reason::TooLarge);
        }
        v = v * 10 + d;
    }
    Ok(v)
}

const MAX: u64 = 18446744073709551615;

// The number that a word is; `missing` is the reason where it is empty or has another byte than a digit.
pub fn number_of(word: &[u8], missing: Reason) -> Result<u64, Reason>
    ensures { result ≡ number_of missing word.now }
{
    if word.len() == 0 {
        return Err(missing);
    }
    if !only_digits(word) {
        return Err(missing);
    }
    value(word)
}

// A slot after which nothing but spaces stands.
fn slot_alone(s: &[u8], at: usize) -> Result<u64, Reason>
    ensures { result ≡ slot_alone s.now at }
{
    let w = word(s, at);
    if spaces(s, w.to) != s.len() {
        return Err(Reason::AfterSlot);
    }
    number_of(seq::text(s, w), Reason::NoSlot)
}

// The rest of the line, after the one space behind the lent number.
fn rest(s: &[u8], slot: u64, number: u64, at: usize) -> Result<Sent, Reason>
    ensures { result ≡ rest s.now slot number at }
{
    if seq::byte(s, at) != b' ' {
        return Err(Reason::NoMessage);
    }
    let message = Span {
        from: at + 1,
        to: s.len(),
    };
    Ok(Sent {
        slot: slot,
        number: number,
        message,
    })
}

// What follows the word `send` or `bytes`.
fn message_at(s: &[u8], at: usize) -> Result<Sent, Reason>
    ensures { result ≡ message_at s.now at }
{
    let one = word(s, at);
    let two = word(s, one.to);
    let slot = number_of(seq::text(s, one), Reason::NoSlot)?;
    let number = number_of(seq::text(s, two), Reason::NoNumber)?;
    rest(s, slot, number, two.to)
}

// Of a message that is given in hex, every byte must be there.
fn in_hex(s: &[u8], sent: Sent) -> Result<Line, Reason>
    ensures { result ≡ in_hex s.now sent }
{
    let place = sent.message;
    if hex_text::is_whole(seq::text(s, place)) {
        return Ok(Line::Bytes(sent));
    }
    Err(Reason::NoHex)
}

// A line by its first word.
fn step(s: &[u8], word: Span) -> Result<Line, Reason>
    ensures { result ≡ step s.now word }
{
    let name = seq::text(s, word);
    if seq::same_bytes(name, b"attach") {
        let slot = slot_alone(s, word.to)?;
        return Ok(Line::Attach(slot));
    }
    if seq::same_bytes(name, b"attach_msgpack") {
        let slot = slot_alone(s, word.to)?;
        return Ok(Line::AttachMsgPack(slot));
    }
    if seq::same_bytes(name, b"detach") {
        let slot = slot_alone(s, word.to)?;
        return Ok(Line::Detach(slot));
    }
    if seq::same_bytes(name, b"send") {
        let sent = message_at(s, word.to)?;
        return Ok(Line::Send(sent));
    }
    if seq::same_bytes(name, b"bytes") {
        let sent = message_at(s, word.to)?;
        return in_hex(s, sent);
    }
    Err(Reason::UnknownWord)
}

// Reads a line that has no carriage return at its end.
fn read_text(s: &[u8]) -> Result<Line, Reason>
    ensures { result ≡ read_text s.now }
{
    let w = word(s, 0);
    if w.from == s.len() {
        return Ok(Line::Blank);
    }
    if seq::byte(s, w.from) == b'#' {
        return Ok(Line::Blank);
    }
    step(s, w)
}

// The length of a line without the carriage return at its end.
pub fn text_end(line: &[u8]) -> usize
    ensures { result ≡ text_end line.now }
{
    if line.len() == 0 {
        return 0;
    }
    let last = line.len() - 1;
    if seq::byte(line, last) == b'\r' {
        last
    } else {
        line.len()
    }
}

// Reads one line of a script, without its line feed.
pub fn read_line(line: &[u8]) -> Result<Line, Reason>
    ensures { result ≡ read_line line.now }
{
    let end = text_end(line);
    read_text(seq::text(line, Span { from: 0, to: end }))
}
