// Runs the vectors on settings, in the form of the program `vectors`: reads cases from standard input, one to a line, and writes a line of
// answer to each. What the answers must be is made by an independent program, `reference/`, and stands in the file `stdout`.
#![tactic(auto)]

ghost use Rattle.std.specs.Prelude.{◌<◌};

use seq::Span;
use settings_file::Version;
use std::io;
use std::io::{BufWriter, Read, Write};

// The longest input, and the longest text of a case, with room to spare.
const INPUT: u64 = 524288;

const TEXT: usize = 2304;

// How many bytes lent settings have, and the longest file that is written of them.
const SETTINGS: usize = 4357;

const FILE: usize = 4386;

fn main(rt: HostRuntime) -> io::Result<()> {
    let mut input = Vec::new(rt.alloc());
    // One byte more than the longest input tells a longer one.
    rt.reader().take(INPUT + 1).read_to_end(&mut input)?;
    let mut to = BufWriter::new(rt.alloc(), io::writer(&rt))?;
    if INPUT < input.len() as u64 {
        write(
            &mut to,
            b"the input is longer than 524288 bytes, and no case is answered\n",
        )?;
    } else {
        answer_all(&mut to, input.as_slice())?;
    }
    to.flush()
}

// Answers each line of the input.
fn answer_all(to: &mut impl Write, s: &[u8]) -> io::Result<()> {
    for line in s.split_inclusive(|b| *b == b'\n') {
        answer_line(to, line.strip_suffix(b"\n").unwrap_or(line))?;
    }
    Ok(())
}

// Writes the kind and the answer of a case, then what stands there for the reader.
fn answer_line(to: &mut impl Write, line: &[u8]) -> io::Result<()> {
    let end = line.iter().position(|b| *b == b'#').unwrap_or(line.len());
    if end > 0 {
        let case = &line[..end];
        let kind = word(case, 0);
        write(to, kind)?;
        write(to, b" ")?;
        answer(to, kind, case)?;
        write(to, b" ")?;
    }
    write(to, &line[end..])?;
    write(to, b"\n")
}

fn write(to: &mut impl Write, s: &[u8]) -> io::Result<()> {
    to.write_all(s)
}

// The k-th word of a case, counted from 0; past the last the empty text.
fn word(case: &[u8], k: usize) -> &[u8] {
    case.split(|b| *b == b' ').nth(k).unwrap_or(&case[..0])
}

// Writes the answer of a case.
fn answer(to: &mut impl Write, kind: &[u8], case: &[u8]) -> io::Result<()> {
    let mut space = [0u8; TEXT];
    let n = hex_text::unhex(word(case, 1), &mut space);
    let one = seq::text(&space, Span { from: 0, to: n });
    let mut space2 = [0u8; TEXT];
    let n2 = hex_text::unhex(word(case, 2), &mut space2);
    let two = seq::text(&space2, Span { from: 0, to: n2 });
    let mut space3 = [0u8; TEXT];
    let n3 = hex_text::unhex(word(case, 3), &mut space3);
    let three = seq::text(&space3, Span { from: 0, to: n3 });
    if seq::same_bytes(kind, b"settings") {
        settings(to, Version::Second, one)
    } else if seq::same_bytes(kind, b"settings_1") {
        settings(to, Version::First, one)
    } else if seq::same_bytes(kind, b"kept") {
        kept(to, Version::Second, one, two, three)
    } else if seq::same_bytes(kind, b"kept_1") {
        kept(to, Version::First, one, two, three)
    } else {
        write(to, b"no such kind")
    }
}

// Writes the refusal of a settings file, or the file that is written for the settings read.
fn settings(to: &mut impl Write, reader: Version, file: &[u8]) -> io::Result<()> {
    let mut lent = [0u8; SETTINGS];
    if let Err(refusal) = settings_io::read(reader, file, &mut lent) {
        return number(to, refusal.number() as u64);
    }
    write(to, b"done ")?;
    written(to, Version::Second, &lent)
}

// Reads a file, puts a byte in a place of the lent settings, and writes the refusal of these settings or their file. The place is a text
// of two bytes, the high one first.
fn kept(
    to: &mut impl Write,
    version: Version,
    file: &[u8],
    at: &[u8],
    new: &[u8],
) -> io::Result<()> {
    let mut lent = [0u8; SETTINGS];
    // The settings of a refused file are all zero.
    let _ = settings_io::read(Version::Second, file, &mut lent);
    let k = place(at) * 256 + place(seq::from(at, 1));
    if k < SETTINGS {
        lent[k] = seq::byte(new, 0);
    }
    written(to, version, &lent)
}

// Writes the refusal of lent settings, or their file in hex.
fn written(to: &mut impl Write, version: Version, lent: &[u8; 4357]) -> io::Result<()> {
    let mut space = [0u8; FILE];
    match settings_io::write(version, lent, &mut space) {
        Ok(n) => in_hex(to, seq::text(&space, Span { from: 0, to: n })),
        Err(refusal) => number(to, refusal.number() as u64),
    }
}

fn number(to: &mut impl Write, n: u64) -> io::Result<()> {
    write!(to, "{n}")
}

// Writes bytes in hex.
fn in_hex(to: &mut impl Write, bytes: &[u8]) -> io::Result<()> {
    for b in bytes {
        write(to, &hex_text::pair(*b))?;
    }
    Ok(())
}

// The place that a text of one byte names.
fn place(text: &[u8]) -> usize
    ensures { result < 256 }
{
    seq::byte(text, 0) as usize
}
