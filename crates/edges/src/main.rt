// Runs the edges of the protocol (docs/PROTOCOL.md): reads steps from standard input, one to a line, runs each on the lent state, and
// writes what came of it. What must be written is made by an independent program, `reference/`, and stands in the file `stdout`.
//
// A line is a step of a script (`attach SLOT`, `attach_msgpack SLOT`, `detach SLOT`, `send SLOT NUMBER MESSAGE`, `bytes SLOT NUMBER HEX`), or
// one of these:
//
//     # TEXT                     a heading
//     empty                      an empty hub: the state's bytes are all zero
//     room N                     each step from here on is lent N bytes of output, 8,192 at most
//     poke PLACE HEX             the state's bytes from a place on are these
//
// Each line is written back. After a step's line comes the number of its outcome, the number of bytes written, whether the output beyond
// them is as it was, whether the state is, and the state's checksum; then the output, its contents in hex and each message, one of JSON as
// it is and one of MessagePack, which never begins with `[`, in hex.
#![tactic(auto)]

ghost use Rattle.std.specs.Prelude.{◌≡◌, ◌≤◌, length, []};
ghost use Rattle.hub.specs.Answer.{formats_on, written};
ghost use Rattle.hub.specs.Answer as Answer;
ghost use Rattle.hub.specs.Answer.{lent};
ghost use Rattle.hub_ffi.specs.Boundary.{answer};
ghost use Rattle.script.specs.Numbers.{number_of};
ghost use Rattle.script.specs.declared.Reason.TheVariants.{NoNumber};
ghost use Rattle.model.specs.declared.Event.TheVariants.{Attach};
ghost use Rattle.edges.specs.Told.{step_of, adler32, kept, pair_of, number_or0, limited};

use model::Event;
use script::{Line, Reason, Sent};
use seq::{Format, Span};
use std::io;
use std::io::{BufWriter, Read, Write};

// The longest input.
const INPUT: u64 = 524288;

// The most output that a step is lent. No step of the script needs a third of it.
const MOST: usize = 8192;

// The longest message that is given in hex.
const MESSAGE: usize = 4096;

const STATE: usize = 9688;

// Fills the output before a step.
const UNWRITTEN: u8 = 238;

// What the host keeps between steps: the state's bytes, and the room of output that it lends.
#[derive(Clone, Copy)]
struct Host {
    state: [u8; STATE],
    room: usize,
}

fn main(rt: HostRuntime) -> io::Result<()> {
    let mut input = Vec::new(rt.alloc());
    // One byte more than the longest input tells a longer one.
    rt.reader().take(INPUT + 1).read_to_end(&mut input)?;
    let mut to = BufWriter::new(rt.alloc(), io::writer(&rt))?;
    if INPUT < input.len() as u64 {
        write(
            &mut to,
            b"the input is longer than 524288 bytes, and no step is run\n",
        )?;
    } else {
        run_all(&mut to, input.as_slice())?;
    }
    to.flush()
}

// The output before a step. It is a function of its own, so that no other proof counts its bytes.
fn unwritten() -> [u8; MOST]
    ensures { 8192 ≡ length result }
{
    [UNWRITTEN; MOST]
}

// Runs each line of the input, from an empty hub on.
fn run_all(to: &mut impl Write, s: &[u8]) -> io::Result<()> {
    let mut host = Host {
        state: [0u8; STATE],
        room: MOST,
    };
    for line in s.split_inclusive(|b| *b == b'\n') {
        host = run_line(to, host, line.strip_suffix(b"\n").unwrap_or(line))?;
    }
    Ok(())
}

// Runs a line that is no step of a script; any other goes on to be read as one.
fn run_line(to: &mut impl Write, host: Host, line: &[u8]) -> io::Result<Host> {
    write(to, line)?;
    write(to, b"\n")?;
    let word = script::word(line, 0);
    let name = seq::text(line, word);
    if seq::same_bytes(name, b"empty") {
        return Ok(Host {
            state: [0u8; STATE],
            room: host.room,
        });
    }
    if seq::same_bytes(name, b"room") {
        return Ok(lend(host, line, word.to));
    }
    if seq::same_bytes(name, b"poke") {
        return Ok(poke(host, line, word.to));
    }
    run_step(to, host, line)
}

fn write(to: &mut impl Write, s: &[u8]) -> io::Result<()> {
    to.write_all(s)
}

fn number(to: &mut impl Write, n: u64) -> io::Result<()> {
    write!(to, "{n}")
}

// The number that a word is; 0 for a word that is none.
fn value(word: &[u8]) -> u64
    ensures { result ≡ number_or0 (number_of NoNumber word.now) }
{
    script::number_of(word, Reason::NoNumber).unwrap_or(0)
}

// The lesser of a number and a limit.
fn limited(limit: usize, n: usize) -> usize
    ensures means { result ≡ limited limit n }
    ensures within { result ≤ limit }
{
    if n < limit { n } else { limit }
}

// ---- the lines that are no steps of a script

// The room of output from here on.
fn lend(host: Host, line: &[u8], at: usize) -> Host {
    let word = script::word(line, at);
    let room = value(seq::text(line, word)) as usize;
    let state = host.state;
    Host {
        state: state,
        room: room,
    }
}

// Puts bytes into the state, from a place on.
fn poke(host: Host, line: &[u8], at: usize) -> Host {
    let first = script::word(line, at);
    let place = value(seq::text(line, first)) as usize;
    let digits = script::word(line, first.to);
    let mut state = host.state;
    put(&mut state, place, seq::text(line, digits));
    Host {
        state: state,
        room: host.room,
    }
}

// Puts the bytes that hex digits give into the state, as many as fit from a place on.
fn put(state: &mut [u8], place: usize, digits: &[u8]) {
    if place <= state.len() {
        hex_text::unhex(digits, &mut state[place..]);
    }
}

// ---- a step

// A step of a script.
fn run_step(to: &mut impl Write, host: Host, line: &[u8]) -> io::Result<Host> {
    let read = script::read_line(line);
    match read {
        Ok(Line::Blank) => Ok(host),
        Ok(Line::Attach(slot)) => step(to, host, slot, Event::Attach(Format::Json), b""),
        Ok(Line::AttachMsgPack(slot)) => step(to, host, slot, Event::Attach(Format::MsgPack), b""),
        Ok(Line::Detach(slot)) => step(to, host, slot, Event::Detach, b""),
        Ok(Line::Send(sent)) => {
            let message = sent.message;
            step(
                to,
                host,
                sent.slot,
                Event::Message(sent.number),
                seq::text(line, message),
            )
        }
        Ok(Line::Bytes(sent)) => send_bytes(to, host, line, sent),
        Err(_) => {
            write(to, b"  no such line\n")?;
            Ok(host)
        }
    }
}

// A message that is given in hex.
fn send_bytes(to: &mut impl Write, host: Host, line: &[u8], sent: Sent) -> io::Result<Host> {
    let digits = sent.message;
    let mut space = [0u8; MESSAGE];
    let n = hex_text::unhex(seq::text(line, digits), &mut space);
    let message = seq::text(&space, Span { from: 0, to: n });
    step(to, host, sent.slot, Event::Message(sent.number), message)
}

// Runs a step on the lent state and tells what came of it.
fn step(
    to: &mut impl Write,
    host: Host,
    slot: u64,
    event: Event,
    message: &[u8],
) -> io::Result<Host> {
    let before = host.state;
    let mut state = host.state;
    let mut out = unwritten();
    let answer = on_bytes(slot, event, message, &mut state, &mut out, host.room);
    let count = (answer / 256) as usize;
    tell(to, answer, &before, &state, kept(&out, count))?;
    tell_output(to, &out, count)?;
    Ok(Host {
        state: state,
        room: host.room,
    })
}

// A step that is lent so much of the output.
fn on_bytes(
    slot: u64,
    event: Event,
    message: &[u8],
    state: &mut [u8],
    out: &mut [u8],
    room: usize,
) -> u64 {
    let lent = limited(out.len(), room);
    boundary(slot, event, message, state, &mut out[..lent])
}

// The function of the C boundary that attaches a slot for a format.
fn attach(slot: u64, format: Format, state: &mut [u8], out: &mut [u8]) -> u64
    ensures answer { result ≡ answer (lent state.old (step_of slot (Attach format) []) (length out.old)) }
    ensures state { state.new ≡ Answer.kept (lent state.old (step_of slot (Attach format) []) (length out.old)) state.old }
    ensures bytes { out.new ≡ written (formats_on state.old) (lent state.old (step_of slot (Attach format) []) (length out.old)) out.old }
{
    match format {
        Format::Json => hub_ffi::hub_attach(slot, state, out),
        Format::MsgPack => hub_ffi::hub_attach_msgpack(slot, state, out),
    }
}

// The function of the C boundary for an event. Only a message has bytes.
fn boundary(slot: u64, event: Event, message: &[u8], state: &mut [u8], out: &mut [u8]) -> u64
    ensures answer { result ≡ answer (lent state.old (step_of slot event message.now) (length out.old)) }
    ensures state { state.new ≡ Answer.kept (lent state.old (step_of slot event message.now) (length out.old)) state.old }
    ensures bytes { out.new ≡ written (formats_on state.old) (lent state.old (step_of slot event message.now) (length out.old)) out.old }
{
    match event {
        Event::Attach(format) => attach(slot, format, state, out),
        Event::Detach => hub_ffi::hub_detach(slot, state, out),
        Event::Message(number) => hub_ffi::hub_message(slot, number, message, state, out),
    }
}

// ---- what is told of a step

// The line of numbers. An answer is the count times 256, plus the refusal.
fn tell(
    to: &mut impl Write,
    answer: u64,
    before: &[u8],
    after: &[u8],
    tail_kept: bool,
) -> io::Result<()> {
    write(to, b"  ")?;
    number(to, answer % 256)?;
    write_name(to, answer % 256)?;
    number(to, answer / 256)?;
    write(to, b" bytes, tail ")?;
    write_kept(to, tail_kept)?;
    write(to, b", state ")?;
    write_kept(to, seq::same_bytes(before, after))?;
    write(to, b" ")?;
    let sum = adler32(after);
    write!(to, "{sum:08x}")?;
    write(to, b"\n")
}

// The name of a refusal (PROTOCOL, "The five refusals").
fn write_name(to: &mut impl Write, refusal: u64) -> io::Result<()> {
    match refusal {
        0 => write(to, b" done, "),
        1 => write(to, b" BAD STATE, "),
        2 => write(to, b" BAD SLOT, "),
        3 => write(to, b" WRONG TIME, "),
        4 => write(to, b" BAD NUMBER, "),
        _ => write(to, b" NO ROOM, "),
    }
}

fn write_kept(to: &mut impl Write, is_so: bool) -> io::Result<()> {
    if is_so {
        write(to, b"kept")
    } else {
        write(to, b"changed")
    }
}

// The checksum Adler-32 (RFC 1950).
fn adler32(s: &[u8]) -> u64
    ensures { result ≡ adler32 s.now }
{
    let mut a: u64 = 1;
    let mut b: u64 = 0;
    for x in s {
        a = (a + seq::wide(*x)) % 65521;
        b = (b + a) % 65521;
    }
    b * 65536 + a
}

// Is every byte from a place on as it was before the step?
fn kept(out: &[u8], from: usize) -> bool
    ensures { result ≡ kept out.now from }
{
    for i in from..out.len() {
        if out[i] != UNWRITTEN {
            return false;
        }
    }
    true
}

// The number of two bytes, big-endian.
fn pair(high: u8, low: u8) -> usize
    ensures { result ≡ pair_of high low }
{
    (high as usize) * 256 + low as usize
}

// The output: the contents in hex, a line for each message, and what is written beyond them.
fn tell_output(to: &mut impl Write, out: &[u8], count: usize) -> io::Result<()> {
    if count == 0 {
        return Ok(());
    }
    let n = pair(seq::byte(out, 0), seq::byte(out, 1));
    let contents = Span {
        from: 0,
        to: 2 + 3 * n,
    };
    write(to, b"  ")?;
    write_hex(to, seq::text(out, contents))?;
    let end = tell_messages(to, out)?;
    if end < count {
        write(to, b"  more: ")?;
        let rest = Span {
            from: end,
            to: count,
        };
        write_hex(to, seq::text(out, rest))?;
    }
    Ok(())
}

fn write_hex(to: &mut impl Write, s: &[u8]) -> io::Result<()> {
    for b in s {
        write!(to, "{b:02x}")?;
    }
    write(to, b"\n")
}

// A message of JSON, a list, as it is, and any other in hex.
fn tell_message(to: &mut impl Write, message: &[u8]) -> io::Result<()> {
    if seq::byte(message, 0) != b'[' {
        return write_hex(to, message);
    }
    write(to, message)?;
    write(to, b"\n")
}

// Writes each message with its receiver, and answers where the last one ends.
fn tell_messages(to: &mut impl Write, out: &[u8]) -> io::Result<usize> {
    let n = pair(seq::byte(out, 0), seq::byte(out, 1));
    let mut at = 2 + 3 * n;
    for k in 0..n {
        let length = pair(seq::byte(out, 3 * k + 3), seq::byte(out, 3 * k + 4));
        let end = at + length;
        write(to, b"  slot ")?;
        number(to, seq::wide(seq::byte(out, 3 * k + 2)))?;
        write(to, b": ")?;
        tell_message(to, seq::text(out, Span { from: at, to: end }))?;
        at = end;
    }
    Ok(at)
}
