// Writing over a buffer: each function writes bytes over `out` from the place `at` on, as far as they fit, and answers the place past them
// all. So none asks for room, and what is written into no room is only measured. Places stop at the largest usize, as lengths do.
#![tactic(auto)]

ghost use Rattle.std.specs.Prelude.{◌≡◌, ◌∷◌, [], ◌+◌, ◌-◌, ◌%◌, length};
ghost use Rattle.seq.specs.Decimal.{decimal};
ghost use Rattle.seq.specs.BigEndian.{digits};
ghost use Rattle.buffer.specs.Capped.{capped};
ghost use Rattle.buffer.specs.Over.{over};

// A sum of lengths, or the largest usize where it is more: spans may name parts of any length of a message of any length, so sums could wrap.
#[tactic(auto, unfolding(crate::specs::Capped::capped))]
pub fn plus(a: usize, b: usize) -> usize
    ensures { result ≡ capped (a + b) }
{
    a.saturating_add(b)
}

pub fn put_byte(v: u8, out: &mut [u8], at: usize) -> usize
    ensures place { result ≡ capped (at + 1) }
    ensures bytes { out.new ≡ over out.old at (v ∷ []) }
{
    if out.len() <= at {
        return plus(at, 1);
    }
    out[at] = v;
    at + 1
}

pub fn put_bytes(src: &[u8], out: &mut [u8], at: usize) -> usize
    ensures place { result ≡ capped (at + length src.now) }
    ensures bytes { out.new ≡ over out.old at src.now }
{
    if at < out.len() {
        let n = src.len().min(out.len() - at);
        out[at..at + n].copy_from_slice(&src[..n]);
    }
    plus(at, src.len())
}

// The last decimal digit of a number.
fn digit(n: u64) -> u8
    ensures { result ≡ 48 + n % 10 }
{
    48 + (n % 10) as u8
}

// A number in decimal.
pub fn put_number(n: u64, out: &mut [u8], at: usize) -> usize
    ensures place { result ≡ capped (at + length (decimal n)) }
    ensures bytes { out.new ≡ over out.old at (decimal n) }
{
    if n < 10 {
        put_byte(digit(n), out, at)
    } else {
        let o = put_number(n / 10, out, at);
        put_byte(digit(n), out, o)
    }
}

// The last byte of a number.
fn low_byte(n: u64) -> u8
    ensures { result ≡ n % 256 }
{
    (n % 256) as u8
}

// A number in 4 bytes, the high one first.
pub fn put_number32(n: u64, out: &mut [u8], at: usize) -> usize
    ensures place { result ≡ capped (at + length (digits 4 n)) }
    ensures bytes { out.new ≡ over out.old at (digits 4 n) }
{
    let c = n / 256;
    let b = c / 256;
    let a = b / 256;
    let o = put_byte(low_byte(a), out, at);
    let p = put_byte(low_byte(b), out, o);
    let q = put_byte(low_byte(c), out, p);
    put_byte(low_byte(n), out, q)
}
