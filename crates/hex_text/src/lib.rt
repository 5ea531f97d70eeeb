// Bytes in hex: two digits a byte, 0 to 9 and a to f. In what is read the letters may be capitals.
#![tactic(auto)]

ghost use Rattle.std.specs.Prelude.{◌≡◌, length, take};
ghost use Rattle.seq.specs.Lists.{every};
ghost use Rattle.hex_text.specs.Hex.{hex_value, is_hex, is_whole, bytes_of, filled, hex_digit, hex_byte};

// The value of a hex digit; 16 for any other byte.
fn digit(b: u8) -> u8
    ensures { result ≡ hex_value b }
{
    if b < b'0' {
        return 16;
    }
    if b <= b'9' {
        return b - b'0';
    }
    if b < b'A' {
        return 16;
    }
    if b <= b'F' {
        return b - 55;
    }
    if b < b'a' {
        return 16;
    }
    if b <= b'f' {
        return b - 87;
    }
    16
}

// Puts the bytes that hex digits give at the start of `out`, as many as there is room for, and answers their number.
pub fn unhex(hex: &[u8], out: &mut [u8]) -> usize
    ensures count { result ≡ length (take (length out.old) (bytes_of hex.now)) }
    ensures bytes { out.new ≡ filled out.old (bytes_of hex.now) }
{
    for n in 0..out.len() {
        let high = digit(seq::byte(hex, 2 * n));
        let low = digit(seq::byte(hex, 2 * n + 1));
        if high > 15 {
            return n;
        }
        if low > 15 {
            return n;
        }
        out[n] = high * 16 + low;
    }
    out.len()
}

// Are there only hex digits?
fn only_digits(s: &[u8]) -> bool
    ensures { result ≡ every is_hex s.now }
{
    for b in s {
        if digit(*b) > 15 {
            return false;
        }
    }
    true
}

// Do these give whole bytes, with no digit and no other byte left over?
pub fn is_whole(s: &[u8]) -> bool
    ensures { result ≡ is_whole s.now }
{
    if s.len() % 2 != 0 {
        return false;
    }
    only_digits(s)
}

// The digit of a value below 16; 0 for any other value.
fn digit_of(n: u8) -> u8
    ensures { result ≡ hex_digit n }
{
    seq::byte(b"0123456789abcdef", n as usize)
}

// The two digits of a byte.
pub fn pair(b: u8) -> [u8; 2]
    ensures { result ≡ hex_byte b }
{
    [digit_of(b / 16), digit_of(b % 16)]
}
