// Runs the vectors: reads cases from standard input, one to a line, and writes a line of answer to each. What the answers must be is made by
// an independent program, `reference/`, and stands in the file `stdout`.
//
// A case is a kind and its words: texts in hex, `-` for the empty one, and policies by name. What follows `#` is for the reader, and is
// written back after the answer. A line that begins with `#` is a heading.
#![tactic(auto)]

use image::Kind;
use pattern::Row;
use seq::{Format, Span};
use std::io;
use std::io::{BufWriter, Read, Write};
use uri::Policy;

// The longest input, and the longest text of a case, with room to spare.
const INPUT: u64 = 524288;

const TEXT: usize = 2304;

// The most bytes that a converted text has: six for one.
const CONVERTED: usize = 13824;

fn main(rt: HostRuntime) -> io::Result<()> {
    let mut input = Vec::new(rt.alloc());
    // One byte more than the longest input tells a longer one.
    rt.reader().take(INPUT + 1).read_to_end(&mut input)?;
    let mut to = BufWriter::new(rt.alloc(), io::writer(&rt))?;
    if INPUT < input.len() as u64 {
        write(
            &mut to,
            b"the input is longer than 524288 bytes, and no case is answered\n",
        )?;
    } else {
        answer_all(&mut to, input.as_slice())?;
    }
    to.flush()
}

// Answers each line of the input.
fn answer_all(to: &mut impl Write, s: &[u8]) -> io::Result<()> {
    for line in s.split_inclusive(|b| *b == b'\n') {
        answer_line(to, line.strip_suffix(b"\n").unwrap_or(line))?;
    }
    Ok(())
}

// Writes the kind and the answer of a case, then what stands there for the reader.
fn answer_line(to: &mut impl Write, line: &[u8]) -> io::Result<()> {
    let end = line.iter().position(|b| *b == b'#').unwrap_or(line.len());
    if end > 0 {
        let case = &line[..end];
        let kind = word(case, 0);
        write(to, kind)?;
        write(to, b" ")?;
        answer(to, kind, case)?;
        write(to, b" ")?;
    }
    write(to, &line[end..])?;
    write(to, b"\n")
}

fn write(to: &mut impl Write, s: &[u8]) -> io::Result<()> {
    to.write_all(s)
}

// The k-th word of a case, counted from 0; past the last the empty text.
fn word(case: &[u8], k: usize) -> &[u8] {
    case.split(|b| *b == b' ').nth(k).unwrap_or(&case[..0])
}

// Writes the answer of a case.
fn answer(to: &mut impl Write, kind: &[u8], case: &[u8]) -> io::Result<()> {
    let name = word(case, 1);
    let mut space = [0u8; TEXT];
    let n = hex_text::unhex(name, &mut space);
    let one = seq::text(&space, Span { from: 0, to: n });
    let mut space2 = [0u8; TEXT];
    let n2 = hex_text::unhex(word(case, 2), &mut space2);
    let two = seq::text(&space2, Span { from: 0, to: n2 });
    let mut space3 = [0u8; TEXT];
    let n3 = hex_text::unhex(word(case, 3), &mut space3);
    let three = seq::text(&space3, Span { from: 0, to: n3 });
    if seq::same_bytes(kind, b"utf8") {
        yes_or_no(to, utf8::well_formed(one))
    } else if seq::same_bytes(kind, b"json") {
        yes_or_no(to, is_json(one))
    } else if seq::same_bytes(kind, b"id") {
        number(to, elements::id(one))
    } else if seq::same_bytes(kind, b"uri") {
        yes_or_no(to, uri::valid_topic(two, policy(name)))
    } else if seq::same_bytes(kind, b"register") {
        yes_or_no(to, uri::valid_procedure(two, policy(name)))
    } else if seq::same_bytes(kind, b"components") {
        components(to, one)
    } else if seq::same_bytes(kind, b"fits") {
        fits(to, policy(name), two, three)
    } else if seq::same_bytes(kind, b"better") {
        better(to, one, two)
    } else if seq::same_bytes(kind, b"choose") {
        choose(to, case, one)
    } else if seq::same_bytes(kind, b"split") {
        split(to, one)
    } else if seq::same_bytes(kind, b"member") {
        member(to, one, two, place(three))
    } else if seq::same_bytes(kind, b"msgpack") {
        ended(to, msgpack::value(two, place(three), place(one)))
    } else if seq::same_bytes(kind, b"convert") {
        converted(to, format(name), three, place(two))
    } else {
        write(to, b"no such kind")
    }
}

fn yes_or_no(to: &mut impl Write, is_so: bool) -> io::Result<()> {
    if is_so {
        write(to, b"yes")
    } else {
        write(to, b"no")
    }
}

fn number(to: &mut impl Write, n: u64) -> io::Result<()> {
    write!(to, "{n}")
}

fn span(to: &mut impl Write, p: Span) -> io::Result<()> {
    number(to, p.from as u64)?;
    write(to, b"-")?;
    number(to, p.to as u64)
}

// Writes one more span of a list.
fn another(to: &mut impl Write, p: Span) -> io::Result<()> {
    write(to, b" ")?;
    span(to, p)
}

// The policy of a name, which its first letter tells.
fn policy(name: &[u8]) -> Policy {
    let b = seq::byte(name, 0);
    match b {
        b'e' => Policy::Exact,
        b'p' => Policy::Prefix,
        _ => Policy::Wildcard,
    }
}

// Is the text well-formed UTF-8 and one JSON value?
fn is_json(text: &[u8]) -> bool {
    if utf8::well_formed(text) {
        return json_text::is_text(text);
    }
    false
}

// Writes the number of components, and where each stands.
fn components(to: &mut impl Write, text: &[u8]) -> io::Result<()> {
    let split = uri::split(text);
    let n = split.count;
    let ends = split.places;
    number(to, n as u64)?;
    let mut from: usize = 0;
    for k in 0..n {
        let end = ends[k];
        another(to, Span { from, to: end })?;
        from = end + 1;
    }
    Ok(())
}

// Writes whether a text fits a URI.
fn fits(to: &mut impl Write, policy: Policy, text: &[u8], uri: &[u8]) -> io::Result<()> {
    let split = uri::split(uri);
    let n = split.count;
    let ends = split.places;
    yes_or_no(to, pattern::fits(policy, text, uri, &ends[..n]))
}

// Writes which of two different wildcard texts is the better one.
fn better<'a>(to: &mut impl Write, one: &'a [u8], two: &'a [u8]) -> io::Result<()> {
    if seq::same_bytes(pattern::better(one, two), one) {
        write(to, b"first")
    } else {
        write(to, b"second")
    }
}

// Writes the number of the row that a call goes to, among the registrations of a lent state. The rows are the words from the second on, a
// policy and a text each, numbered from 1.
fn choose(to: &mut impl Write, case: &[u8], uri: &[u8]) -> io::Result<()> {
    let mut state = [0u8; 9688];
    for k in 0..32 {
        let new = row(word(case, 2 * k + 2), word(case, 2 * k + 3), k + 1);
        keep::keep_row(&mut state, Kind::Owner, k, 32, new);
    }
    let Some(chosen) = choose::choose(&state, uri) else {
        return write(to, b"none");
    };
    number(to, image::number(Kind::Owner, &state, chosen))
}

// The row of a policy's name and a text in hex; an unused one where there is no such name.
fn row(name: &[u8], hex: &[u8], number: usize) -> Row {
    let mut text = [0u8; 128];
    let len = hex_text::unhex(hex, &mut text);
    let b = seq::byte(name, 0);
    let used = match b {
        b'e' | b'p' | b'w' => number as u64,
        _ => 0,
    };
    Row {
        number: used,
        policy: policy(name),
        holders: [false; 8],
        len: len,
        text: text,
    }
}

// Writes the kinds of a list's elements, a digit each, and where each stands.
fn split(to: &mut impl Write, text: &[u8]) -> io::Result<()> {
    let found = elements::split(text);
    let n = found.n;
    if n == 0 {
        return write(to, b"none");
    }
    number(to, found.kinds as u64)?;
    let spans = found.spans;
    for (k, p) in spans.iter().enumerate() {
        if k < n {
            another(to, *p)?;
        }
    }
    Ok(())
}

// The place that a text of one byte names.
fn place(text: &[u8]) -> usize {
    seq::byte(text, 0) as usize
}

// A text without the quotes around it.
fn unquoted(text: &[u8]) -> &[u8] {
    if text.len() < 2 {
        return text;
    }
    seq::text(
        text,
        Span {
            from: 1,
            to: text.len() - 1,
        },
    )
}

// Writes where the value of a key, which is given undone between quotes, stands in the dict that begins at a place.
fn member(to: &mut impl Write, text: &[u8], key: &[u8], at: usize) -> io::Result<()> {
    let found = members::find(text, at, unquoted(key));
    if found.from < found.to {
        span(to, found)
    } else {
        write(to, b"none")
    }
}

// Writes where a value ends.
fn ended(to: &mut impl Write, value: Option<usize>) -> io::Result<()> {
    let Some(e) = value else {
        return write(to, b"none");
    };
    number(to, e as u64)
}

// The format of a name, which its first letter tells.
fn format(name: &[u8]) -> Format {
    let b = seq::byte(name, 0);
    match b {
        b'j' => Format::Json,
        _ => Format::MsgPack,
    }
}

// Writes the bytes of the other format that the value at the start of a text has, in hex, and where the value ends.
fn converted(to: &mut impl Write, from: Format, text: &[u8], depth: usize) -> io::Result<()> {
    let mut space = [0u8; CONVERTED];
    let Some(value) = convert::convert(from, text, depth, &mut space, 0) else {
        return write(to, b"none");
    };
    let bytes = Span {
        from: 0,
        to: value.written,
    };
    in_hex(to, seq::text(&space, bytes))?;
    write(to, b" ")?;
    number(to, value.read as u64)
}

// Writes bytes in hex.
fn in_hex(to: &mut impl Write, bytes: &[u8]) -> io::Result<()> {
    for b in bytes {
        write(to, &hex_text::pair(*b))?;
    }
    Ok(())
}
