// Text for people, written into a buffer. What does not fit is left out, so that a full buffer is no trap.
#![tactic(auto)]

ghost use Rattle.std.specs.Prelude.{◌≡◌, ◌+◌, ◌-◌, ◌%◌};
ghost use Rattle.seq.specs.Bytes.{text_of};
ghost use Rattle.seq.specs.Decimal.{decimal};
ghost use Rattle.show.specs.Buffer.{after, written};

use seq::Span;

// How many of `len` bytes fit from a place on into `room` bytes.
fn count(room: usize, at: usize, len: usize) -> usize
    ensures { result ≡ len - (len - (room - at)) }
{
    if room < at {
        return 0;
    }
    let left = room - at;
    if left < len { left } else { len }
}

// Writes as much of the text as fits from a place on, and answers the place past it.
pub fn put(out: &mut [u8], at: usize, text: &[u8]) -> usize
    ensures place { result ≡ after out.old at text.now }
    ensures bytes { out.new ≡ written out.old at text.now }
{
    let n = count(out.len(), at, text.len());
    for i in 0..n {
        out[at + i] = text[i];
    }
    at + n
}

// Decimal digits, and where they stand in the array.
#[derive(Clone, Copy)]
pub struct Digits {
    pub bytes: [u8; 20],
    pub place: Span,
}

// The last decimal digit.
fn last(n: u64) -> u8
    ensures { result ≡ 48 + n % 10 }
{
    48 + (n % 10) as u8
}

// The decimal digits of a number, of which the largest has 20.
fn decimal(n: u64) -> Digits
    ensures { text_of result.bytes result.place ≡ decimal n }
{
    let mut bytes = [0u8; 20];
    let mut from: usize = 20;
    let mut rest = n;
    while 10 <= rest {
        from -= 1;
        bytes[from] = last(rest);
        rest = rest / 10;
    }
    from -= 1;
    bytes[from] = last(rest);
    Digits {
        bytes: bytes,
        place: Span { from: from, to: 20 },
    }
}

// Writes a number's decimal digits.
pub fn put_number(out: &mut [u8], at: usize, n: u64) -> usize
    ensures place { result ≡ after out.old at (decimal n) }
    ensures bytes { out.new ≡ written out.old at (decimal n) }
{
    let digits = decimal(n);
    let bytes = digits.bytes;
    put(out, at, seq::text(&bytes, digits.place))
}
