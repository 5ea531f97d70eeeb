// JSON strings written (RFC 8259, section 7), and the commas between values. Each function writes over `out` from the place `o` on, as far as
// there is room, and answers the place past it all.
#![tactic(auto)]

ghost use Rattle.std.specs.Prelude.{◌≡◌, ◌<◌, ◌+◌, length};
ghost use Rattle.seq.specs.Lists.{joined};
ghost use Rattle.buffer.specs.Capped.{capped};
ghost use Rattle.buffer.specs.Over.{over};
ghost use Rattle.values.specs.Write.{hex_digit, spelled, quoted_text};
ghost use Rattle.quoting.specs.Quoting.{is_escaped, is_bare, comma};

// A hexadecimal digit, in lower case.
fn hex_digit(n: u8) -> u8
    requires { n < 16 }
    ensures { result ≡ hex_digit n }
{
    if n < 10 { b'0' + n } else { b'a' + (n - 10) }
}

// The bytes below this one are control characters.
const CONTROLS: u8 = 0x20;

// A byte of a string.
fn put_letter(b: u8, out: &mut [u8], o: usize) -> usize
    ensures place { result ≡ capped (o + length (spelled b)) }
    ensures bytes { out.new ≡ over out.old o (spelled b) }
{
    if strings::is_marked(b) {
        let p = buffer::put_byte(b'\\', out, o);
        return buffer::put_byte(b, out, p);
    }
    if b < CONTROLS {
        let p = buffer::put_bytes(b"\\u00", out, o);
        let q = buffer::put_byte(hex_digit(b / 16), out, p);
        return buffer::put_byte(hex_digit(b % 16), out, q);
    }
    buffer::put_byte(b, out, o)
}

// Is a byte not written as it is?
fn is_escaped(b: u8) -> bool
    ensures { result ≡ is_escaped b }
{
    strings::is_marked(b) || b < CONTROLS
}

// Is the text written as it is? All bytes are looked at, and `&` looks at both its sides, so that the loop has one way and goes by many at a
// time.
fn is_bare(t: &[u8]) -> bool
    ensures { result ≡ is_bare t.now }
{
    let mut bare = true;
    for b in t {
        bare = bare & !is_escaped(*b);
    }
    bare
}

// The bytes of a string one by one.
fn put_letters(text: &[u8], out: &mut [u8], o: usize) -> usize
    ensures place { result ≡ capped (o + length (joined spelled text.now)) }
    ensures bytes { out.new ≡ over out.old o (joined spelled text.now) }
{
    let mut q = o;
    for b in text {
        q = put_letter(*b, out, q);
    }
    q
}

// What stands between a string's quotes. A text that is written as it is goes as a whole.
fn put_between(text: &[u8], out: &mut [u8], o: usize) -> usize
    ensures place { result ≡ capped (o + length (joined spelled text.now)) }
    ensures bytes { out.new ≡ over out.old o (joined spelled text.now) }
{
    if is_bare(text) {
        return buffer::put_bytes(text, out, o);
    }
    put_letters(text, out, o)
}

// A string with its quotes.
pub fn put_quoted(text: &[u8], out: &mut [u8], o: usize) -> usize
    ensures place { result ≡ capped (o + length (quoted_text text.now)) }
    ensures bytes { out.new ≡ over out.old o (quoted_text text.now) }
{
    let p = buffer::put_byte(b'"', out, o);
    let q = put_between(text, out, p);
    buffer::put_byte(b'"', out, q)
}

// A comma, where more stands before.
pub fn put_comma(more: bool, out: &mut [u8], o: usize) -> usize
    ensures place { result ≡ capped (o + length (comma more)) }
    ensures bytes { out.new ≡ over out.old o (comma more) }
{
    if more {
        buffer::put_byte(b',', out, o)
    } else {
        o
    }
}
