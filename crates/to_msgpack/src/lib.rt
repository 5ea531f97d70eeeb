// JSON to MessagePack. Each function reads at a place of s and writes over `out` from the place `o` on, as far as there is room, and answers the
// place past what it read and the place past all that it wrote; or that what stands there does not convert.
#![tactic(auto)]

ghost use Rattle.std.specs.Prelude.{◌≡◌, true, List, ◌∷◌, [], ◌++◌, ◌≤◌, ◌<◌, length};
ghost use Rattle.seq.specs.declared.Format.TheVariants.{Json, MsgPack};
ghost use Rattle.seq.specs.Bytes.{is_digit};
ghost use Rattle.seq.specs.Lists.{every, joined};
ghost use Rattle.lex.specs.Lex.{close_list, close_dict};
ghost use Rattle.elements.specs.Kinds.{decimal as natural};
ghost use Rattle.values.specs.Value.{Value, Scalar, Member};
ghost use Rattle.values.specs.Write.{pack_scalar, pack_text, pack_member, pack_array, pack_map, write};
ghost use Rattle.values.specs.Stands.{quoted_at, whole_at, json_whole_at, json_below_at, word, json_scalar_at, json_member_at, enclosed, stands};
ghost use Rattle.conversion.specs.Converts.{Converts, Ahead};
ghost use Rattle.to_msgpack.specs.Integers.{goes_on, bounded, small, Ends};

use conversion::Converted;
use lex::Mark;
use seq::Span;

// ---- integers

// How far below 0 an integer of 64 bits may be.
const MOST_BELOW: u64 = 0x8000000000000000;

// An integer without its sign, and the place past it.
#[derive(Clone, Copy)]
struct Integer {
    value: u64,
    end: usize,
}

// The number in digits, if it is one of 64 bits.
fn number(t: &[u8]) -> Option<u64>
    requires { every is_digit t.now ≡ true }
    ensures { result ≡ bounded (natural 0 t.now) }
{
    let mut n: u64 = 0;
    for b in t {
        let digit = seq::wide(*b) - 48;
        let tens = n.checked_mul(10)?;
        n = tens.checked_add(digit)?;
    }
    Some(n)
}

// Does a fraction or an exponent begin with this byte?
fn goes_on(b: u8) -> bool
    ensures { result ≡ goes_on b }
{
    matches!(b, b'.' | b'E' | b'e')
}

// An integer without its sign.
fn whole_at(s: &[u8], at: usize) -> Option<Integer>
    ensures means { result ≡ small (whole_at s.now at) }
    ensures within { Ends at (length s.now) result }
{
    let end = lex::integer(s, at)?;
    if goes_on(seq::byte(s, end)) {
        return None;
    }
    let value = number(seq::text(s, Span { from: at, to: end }))?;
    Some(Integer { value, end })
}

fn pack_whole(s: &[u8], at: usize, out: &mut [u8], o: usize) -> Option<Converted>
    ensures means { Converts out.old o pack_scalar (json_whole_at s.now at) result out.new }
    ensures within { Ahead at (length s.now) result }
{
    let i = whole_at(s, at)?;
    let written = packing::put_whole(i.value, out, o);
    Some(Converted {
        read: i.end,
        written,
    })
}

// From behind the minus on; -0 is 0.
fn pack_below(s: &[u8], at: usize, out: &mut [u8], o: usize) -> Option<Converted>
    ensures means { Converts out.old o pack_scalar (json_below_at s.now at) result out.new }
    ensures within { Ahead at (length s.now) result }
{
    let i = whole_at(s, at)?;
    let n = i.value;
    if n == 0 {
        let written = packing::put_whole(0, out, o);
        return Some(Converted {
            read: i.end,
            written,
        });
    }
    if MOST_BELOW < n {
        return None;
    }
    let written = packing::put_below(n - 1, out, o);
    Some(Converted {
        read: i.end,
        written,
    })
}

// ---- words and strings

// A word, for which one byte is written.
fn pack_word(s: &[u8], at: usize, name: &[u8], b: u8, out: &mut [u8], o: usize) -> Option<Converted>
    requires { (at ≤ length s.now) × (0 < length name.now) × (length name.now ≤ 5) }
    ensures means { (v : Scalar) → pack_scalar v ≡ b ∷ [] → Converts out.old o pack_scalar (word name.now v s.now at) result out.new }
    ensures within { Ahead at (length s.now) result }
{
    let n = name.len();
    if s.len() - at < n {
        return None;
    }
    let end = at + n;
    if !seq::same_bytes(seq::text(s, Span { from: at, to: end }), name) {
        return None;
    }
    let written = buffer::put_byte(b, out, o);
    Some(Converted { read: end, written })
}

fn pack_text(s: &[u8], at: usize, out: &mut [u8], o: usize) -> Option<Converted>
    ensures means { Converts out.old o pack_text (quoted_at s.now at) result out.new }
    ensures within { Ahead at (length s.now) result }
{
    let read = lex::quoted(s, at)?;
    let t = strings::between(s, at, read);
    if strings::has_lone(t) {
        return None;
    }
    let written = packing::put_string(t, out, o);
    Some(Converted { read, written })
}

// A value that opens no list and no dict.
fn pack_scalar(s: &[u8], at: usize, out: &mut [u8], o: usize) -> Option<Converted>
    ensures means { Converts out.old o pack_scalar (json_scalar_at s.now at) result out.new }
    ensures within { Ahead at (length s.now) result }
{
    let b = seq::byte(s, at);
    match b {
        b'"' => pack_text(s, at, out, o),
        b'-' => pack_below(s, at + 1, out, o),
        b'0'..=b'9' => pack_whole(s, at, out, o),
        b't' => pack_word(s, at, b"true", 0xc3, out, o),
        b'f' => pack_word(s, at, b"false", 0xc2, out, o),
        b'n' => pack_word(s, at, b"null", 0xc0, out, o),
        _ => None,
    }
}

// ---- lists and dicts

// A value, in which `depth` lists and dicts may be opened.
#[cycle(pack)]
pub fn pack_value(s: &[u8], at: usize, depth: usize, out: &mut [u8], o: usize) -> Option<Converted>
    ensures means { Converts out.old o (write MsgPack depth) (stands Json depth s.now at) result out.new }
    ensures within { Ahead at (length s.now) result }
{
    if depth == 0 {
        return pack_scalar(s, at, out, o);
    }
    let b = seq::byte(s, at);
    match b {
        b'[' => pack_list(s, at + 1, depth - 1, out, o),
        b'{' => pack_dict(s, at + 1, depth - 1, out, o),
        _ => pack_scalar(s, at, out, o),
    }
}

// A list from just past its bracket on. How many values it has is known at its end, so its head is written last.
#[cycle(pack)]
fn pack_list(s: &[u8], at: usize, depth: usize, out: &mut [u8], o: usize) -> Option<Converted>
    ensures means { Converts out.old o (λ (vs : List (Value depth)). pack_array (length vs) ++ joined (write MsgPack depth) vs)
        (enclosed (stands Json depth s.now) close_list s.now at) result out.new }
    ensures within { Ahead at (length s.now) result }
{
    let mut q = buffer::put_byte(0, out, o);
    let mut n: u64 = 0;
    let mut m = lex::first_element(s, at);
    loop {
        match m {
            Mark::Item(i) => {
                let value = pack_value(s, i, depth, out, q)?;
                q = value.written;
                n += 1;
                m = lex::next_element(s, value.read);
            }
            Mark::End(read) => {
                let written = packing::head_array(n, out, o, q);
                return Some(Converted { read, written });
            }
            Mark::Neither => return None,
        }
    }
}

// A dict from just past its brace on.
#[cycle(pack)]
fn pack_dict(s: &[u8], at: usize, depth: usize, out: &mut [u8], o: usize) -> Option<Converted>
    ensures means { Converts out.old o (λ (ms : List (Member (Value depth))). pack_map (length ms) ++ joined (pack_member (write MsgPack depth)) ms)
        (enclosed (json_member_at (stands Json depth s.now) s.now) close_dict s.now at) result out.new }
    ensures within { Ahead at (length s.now) result }
{
    let mut q = buffer::put_byte(0, out, o);
    let mut n: u64 = 0;
    let mut m = lex::first_member(s, at);
    loop {
        match m {
            Mark::Item(k) => {
                let member = pack_member(s, k, depth, out, q)?;
                q = member.written;
                n += 1;
                m = lex::next_member(s, member.read);
            }
            Mark::End(read) => {
                let written = packing::head_map(n, out, o, q);
                return Some(Converted { read, written });
            }
            Mark::Neither => return None,
        }
    }
}

// A key, its colon and its value.
#[cycle(pack)]
fn pack_member(s: &[u8], at: usize, depth: usize, out: &mut [u8], o: usize) -> Option<Converted>
    ensures means { Converts out.old o (pack_member (write MsgPack depth)) (json_member_at (stands Json depth s.now) s.now at) result out.new }
    ensures within { Ahead at (length s.now) result }
{
    let key = pack_text(s, at, out, o)?;
    let a = lex::colon(s, key.read)?;
    pack_value(s, a, depth, out, key.written)
}
