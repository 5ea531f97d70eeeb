// MessagePack values written, in the shortest forms: heads, texts, and a head that is known after what stands behind it. Each function writes
// over `out` from the place `o` on, as far as there is room, and answers the place past it all.
#![tactic(auto)]

ghost use Rattle.std.specs.Prelude.{◌≡◌, ◌∷◌, ◌+◌, ◌-◌, ◌≤◌, ◌<◌, ◌%◌, length};
ghost use Rattle.buffer.specs.Capped.{capped};
ghost use Rattle.buffer.specs.Over.{over};
ghost use Rattle.seq.specs.Bytes.{part};
ghost use Rattle.strings.specs.Strings.{undone};
ghost use Rattle.values.specs.Write.{wide, pack_whole, pack_below, pack_str, pack_array, pack_map, pack_text};
ghost use Rattle.packing.specs.Headed.{headed};
ghost use Rattle.packing.specs.Counted.{counted};

fn low_byte(n: u64) -> u8
    ensures { result ≡ n % 256 }
{
    (n % 256) as u8
}

// A number in `width` bytes, big-endian.
fn put_wide(width: usize, n: u64, out: &mut [u8], o: usize) -> usize
    ensures place { result ≡ capped (o + length (wide width n)) }
    ensures bytes { out.new ≡ over out.old o (wide width n) }
{
    if width == 0 {
        o
    } else {
        let p = put_wide(width - 1, n / 256, out, o);
        buffer::put_byte(low_byte(n), out, p)
    }
}

// A first byte and a number behind it.
fn put_form(b: u8, width: usize, n: u64, out: &mut [u8], o: usize) -> usize
    ensures place { result ≡ capped (o + length (b ∷ wide width n)) }
    ensures bytes { out.new ≡ over out.old o (b ∷ wide width n) }
{
    let p = buffer::put_byte(b, out, o);
    put_wide(width, n, out, p)
}

// An integer from 0 up.
pub fn put_whole(n: u64, out: &mut [u8], o: usize) -> usize
    ensures place { result ≡ capped (o + length (pack_whole n)) }
    ensures bytes { out.new ≡ over out.old o (pack_whole n) }
{
    if n < 0x80 {
        return buffer::put_byte(n as u8, out, o);
    }
    if n < 0x100 {
        return put_form(0xcc, 1, n, out, o);
    }
    if n < 0x10000 {
        return put_form(0xcd, 2, n, out, o);
    }
    if n < 0x100000000 {
        return put_form(0xce, 4, n, out, o);
    }
    put_form(0xcf, 8, n, out, o)
}

// The integer -1 - n.
pub fn put_below(n: u64, out: &mut [u8], o: usize) -> usize
    ensures place { result ≡ capped (o + length (pack_below n)) }
    ensures bytes { out.new ≡ over out.old o (pack_below n) }
{
    if n < 0x20 {
        return buffer::put_byte(0xff - n as u8, out, o);
    }
    if n < 0x80 {
        return put_form(0xd0, 1, 0xff - n, out, o);
    }
    if n < 0x8000 {
        return put_form(0xd1, 2, 0xffff - n, out, o);
    }
    if n < 0x80000000 {
        return put_form(0xd2, 4, 0xffffffff - n, out, o);
    }
    put_form(0xd3, 8, 0xffffffffffffffff - n, out, o)
}

// The head of a str of n bytes.
pub fn put_str(n: u64, out: &mut [u8], o: usize) -> usize
    ensures place { result ≡ capped (o + length (pack_str n)) }
    ensures bytes { out.new ≡ over out.old o (pack_str n) }
{
    if n < 0x20 {
        return buffer::put_byte(0xa0 + n as u8, out, o);
    }
    if n < 0x100 {
        return put_form(0xd9, 1, n, out, o);
    }
    if n < 0x10000 {
        return put_form(0xda, 2, n, out, o);
    }
    put_form(0xdb, 4, n, out, o)
}

// A count of the values or pairs that stand behind it: in its own byte from `few` on, or behind the byte `many` or the one after it.
fn put_count(few: u8, many: u8, n: u64, out: &mut [u8], o: usize) -> usize
    requires { (few < 0xf0) × (many < 0xff) }
    ensures place { result ≡ capped (o + length (counted few many n)) }
    ensures bytes { out.new ≡ over out.old o (counted few many n) }
{
    if n < 0x10 {
        return buffer::put_byte(few + n as u8, out, o);
    }
    if n < 0x10000 {
        return put_form(many, 2, n, out, o);
    }
    put_form(many + 1, 4, n, out, o)
}

// The head of an array of n values.
pub fn put_array(n: u64, out: &mut [u8], o: usize) -> usize
    ensures place { result ≡ capped (o + length (pack_array n)) }
    ensures bytes { out.new ≡ over out.old o (pack_array n) }
{
    put_count(0x90, 0xdc, n, out, o)
}

// The head of a map of n pairs.
pub fn put_map(n: u64, out: &mut [u8], o: usize) -> usize
    ensures place { result ≡ capped (o + length (pack_map n)) }
    ensures bytes { out.new ≡ over out.old o (pack_map n) }
{
    put_count(0x80, 0xde, n, out, o)
}

// ---- texts

// How many bytes the text has that a string stands for, of which what stands between the quotes is given.
fn undone_len(t: &[u8]) -> usize
    ensures { result ≡ length (undone t.now) }
{
    let mut n: usize = 0;
    let mut at: usize = 0;
    let mut k: usize = 0;
    while at < t.len() {
        let b = strings::next(t, at, k);
        n += 1;
        at = b.at;
        k = b.k;
    }
    n
}

// The text itself.
fn put_undone(t: &[u8], out: &mut [u8], o: usize) -> usize
    ensures place { result ≡ capped (o + length (undone t.now)) }
    ensures bytes { out.new ≡ over out.old o (undone t.now) }
{
    let mut q = o;
    let mut at: usize = 0;
    let mut k: usize = 0;
    while at < t.len() {
        let b = strings::next(t, at, k);
        q = buffer::put_byte(b.byte, out, q);
        at = b.at;
        k = b.k;
    }
    q
}

// The str of the text that a string stands for. One without a backslash is copied.
pub fn put_string(t: &[u8], out: &mut [u8], o: usize) -> usize
    ensures place { result ≡ capped (o + length (pack_text (undone t.now))) }
    ensures bytes { out.new ≡ over out.old o (pack_text (undone t.now)) }
{
    if strings::is_plain(t) {
        let p = put_str(t.len() as u64, out, o);
        return buffer::put_bytes(t, out, p);
    }
    let p = put_str(undone_len(t) as u64, out, o);
    put_undone(t, out, p)
}

// ---- heads that are known last: a byte is left for the head, what stands behind it is written, and then the head

// Moves the bytes from just past o up to q by so many places on, as far as there is room.
fn shift(out: &mut [u8], o: usize, q: usize, by: usize)
    requires { by ≤ 4 }
    ensures { out.new ≡ over out.old (o + 1 + by) (part (o + 1) q out.old) }
{
    if by == 0 {
        return;
    }
    let size = out.len();
    if size <= o {
        return;
    }
    let from = o + 1;
    if size - from < by {
        return;
    }
    let end = q.min(size - by);
    if end <= from {
        return;
    }
    out.copy_within(from..end, from + by);
}

// How many bytes more than one the head of an array or map of n has.
fn more(n: u64) -> usize
    ensures means { result ≡ length (pack_array n) - 1 }
    ensures maps { result ≡ length (pack_map n) - 1 }
    ensures small { result ≤ 4 }
{
    if n < 0x10 {
        return 0;
    }
    if n < 0x10000 {
        return 2;
    }
    4
}

// The head of an array of n values, which stand from just past o up to q.
pub fn head_array(n: u64, out: &mut [u8], o: usize, q: usize) -> usize
    ensures place { result ≡ capped (q + (length (pack_array n) - 1)) }
    ensures bytes { out.new ≡ headed out.old o q (pack_array n) }
{
    let by = more(n);
    shift(out, o, q, by);
    put_array(n, out, o);
    buffer::plus(q, by)
}

// The head of a map of n pairs, which stand from just past o up to q.
pub fn head_map(n: u64, out: &mut [u8], o: usize, q: usize) -> usize
    ensures place { result ≡ capped (q + (length (pack_map n) - 1)) }
    ensures bytes { out.new ≡ headed out.old o q (pack_map n) }
{
    let by = more(n);
    shift(out, o, q, by);
    put_map(n, out, o);
    buffer::plus(q, by)
}
