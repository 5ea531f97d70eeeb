// Replays a script of steps through the hub: reads it from standard input, and writes each step with its outcome and each message with its
// receiver to standard output. docs/REPLAY.md says what a script is and what is written; specs/ defines it.
#![tactic(auto)]

ghost use Rattle.std.specs.Prelude.{◌≡◌, ◌+◌, ◌<◌, length};
ghost use Rattle.seq.specs.Bytes.{text_of};
ghost use Rattle.hex_text.specs.Hex.{bytes_of};
ghost use Rattle.script.specs.Numbers.{max_number};
ghost use Rattle.show.specs.Buffer.{after, written};
ghost use Rattle.model.specs.declared.Event.TheVariants.{Message};
ghost use Rattle.model.specs.State.{empty_hub};
ghost use Rattle.image.specs.Image.{store};
ghost use Rattle.hub.specs.Answer.{given, formats_on};
ghost use Rattle.replay.specs.Replay.{room, step_text, steps, shown, action, step_of, played, action_text};

use model::Event;
use script::{Line, Sent};
use seq::{Format, Span};
use std::io;
use std::io::{BufWriter, Read, Write};

// The longest script.
const SCRIPT: u64 = 1048576;

// How far the script has run: the hub's bytes, how many steps there were, and whether every line so far could be read.
#[derive(Clone, Copy)]
pub struct Run {
    pub state: [u8; 9688],
    pub steps: u64,
    pub going: bool,
}

// The run after a line, and how many bytes are written for it.
#[derive(Clone, Copy)]
pub struct Played {
    pub run: Run,
    pub len: usize,
}

// Runs a step, and puts its text at the start of `text`.
fn advance(
    run: Run,
    line: &[u8],
    slot: usize,
    event: Event,
    message: &[u8],
    out: &mut [u8],
    text: &mut [u8],
) -> Played
    requires counts { run.steps < max_number }
    requires lent { length out.old ≡ room }
    ensures run { result.run ≡ played run (steps (given slot event message.now)) }
    ensures place { result.len ≡ after text.old 0 (step_text (formats_on run.state) (run.steps + 1) line.now (step_of run (given slot event message.now))) }
    ensures bytes { text.new ≡ written text.old 0 (step_text (formats_on run.state) (run.steps + 1) line.now (step_of run (given slot event message.now))) }
{
    let mut state = run.state;
    let s = hub::step(&mut state, slot, event, message, out);
    let steps = run.steps + 1;
    let a = report::put_head(text, 0, steps, line);
    let outcome = s.outcome;
    let len = report::put_outcome(text, a, outcome, s.count, out);
    Played {
        run: Run {
            state,
            steps,
            going: run.going,
        },
        len,
    }
}

// One byte more than a message may have: what is longer is cut there, and is as much a violation as it was.
const CUT: usize = 2049;

// Runs a step that sends a message given in hex.
fn advance_bytes(run: Run, line: &[u8], sent: Sent, out: &mut [u8], text: &mut [u8]) -> Played
    requires counts { run.steps < max_number }
    requires lent { length out.old ≡ room }
    ensures run { result.run ≡ played run (steps (given sent.slot (Message sent.number) (bytes_of (text_of line.now sent.message)))) }
    ensures place { result.len ≡ after text.old 0 (step_text (formats_on run.state) (run.steps + 1) line.now (step_of run (given sent.slot (Message sent.number) (bytes_of (text_of line.now sent.message))))) }
    ensures bytes { text.new ≡ written text.old 0 (step_text (formats_on run.state) (run.steps + 1) line.now (step_of run (given sent.slot (Message sent.number) (bytes_of (text_of line.now sent.message))))) }
{
    let place = sent.message;
    let mut space = [0u8; CUT];
    let n = hex_text::unhex(seq::text(line, place), &mut space);
    let message = seq::text(&space, Span { from: 0, to: n });
    let event = Event::Message(sent.number);
    advance(run, line, sent.slot as usize, event, message, out, text)
}

// The line as written, without the carriage return at its end.
fn shown(line: &[u8]) -> &[u8]
    ensures { result.now ≡ shown line.now }
{
    let to = script::text_end(line);
    seq::text(line, Span { from: 0, to })
}

// What the line with this number does, with its text put at the start of `text`. One match, since a function between would have the whole run
// handed over once more.
fn play(run: Run, number: u64, line: &[u8], out: &mut [u8], text: &mut [u8]) -> Played
    requires counts { run.steps < max_number }
    requires lent { length out.old ≡ room }
    ensures run { result.run ≡ played run (action line.now) }
    ensures place { result.len ≡ after text.old 0 (action_text run number (shown line.now) (action line.now)) }
    ensures bytes { text.new ≡ written text.old 0 (action_text run number (shown line.now) (action line.now)) }
{
    let read = script::read_line(line);
    let s = shown(line);
    match read {
        Ok(Line::Blank) => Played { run, len: 0 },
        Ok(Line::Attach(slot)) => {
            let event = Event::Attach(Format::Json);
            advance(run, s, slot as usize, event, b"", out, text)
        }
        Ok(Line::AttachMsgPack(slot)) => {
            let event = Event::Attach(Format::MsgPack);
            advance(run, s, slot as usize, event, b"", out, text)
        }
        Ok(Line::Detach(slot)) => advance(run, s, slot as usize, Event::Detach, b"", out, text),
        Ok(Line::Send(sent)) => {
            let place = sent.message;
            let message = seq::text(s, place);
            let event = Event::Message(sent.number);
            advance(run, s, sent.slot as usize, event, message, out, text)
        }
        Ok(Line::Bytes(sent)) => advance_bytes(run, s, sent, out, text),
        Err(reason) => {
            let len = report::put_wrong(text, 0, number, reason);
            let state = run.state;
            Played {
                run: Run {
                    state,
                    steps: run.steps,
                    going: false,
                },
                len,
            }
        }
    }
}

// Zeros for the output of a step.
fn out_buffer() -> [u8; 65536]
    ensures { 65536 ≡ length result }
{
    [0u8; 65536]
}

// Zeros for the text of a line.
fn text_buffer() -> [u8; 2097152]
    ensures { 2097152 ≡ length result }
{
    [0u8; 2097152]
}

// An empty hub's bytes, which are all zero.
fn empty_state() -> [u8; 9688]
    ensures { result ≡ store empty_hub }
{
    [0u8; 9688]
}

// Replays a script from an empty hub, up to the first line that cannot be read.
fn replay(to: &mut impl Write, script: &[u8]) -> io::Result<()> {
    let mut out = out_buffer();
    let mut text = text_buffer();
    let state = empty_state();
    let mut run = Run {
        state,
        steps: 0,
        going: true,
    };
    let mut lines: u64 = 0;
    let mut at: usize = 0;
    while at < script.len() {
        let end = script::line_end(script, at);
        lines += 1;
        let played = play(run, lines, &script[at..end], &mut out, &mut text);
        let len = played.len;
        write(to, seq::text(&text, Span { from: 0, to: len }))?;
        run = played.run;
        if !run.going {
            return Ok(());
        }
        at = end + 1;
    }
    Ok(())
}

fn write(to: &mut impl Write, s: &[u8]) -> io::Result<()> {
    to.write_all(s)
}

fn main(rt: HostRuntime) -> io::Result<()> {
    let mut input = Vec::new(rt.alloc());
    // One byte more than the longest script tells a longer one.
    rt.reader().take(SCRIPT + 1).read_to_end(&mut input)?;
    let mut to = BufWriter::new(rt.alloc(), io::writer(&rt))?;
    if SCRIPT < input.len() as u64 {
        write(
            &mut to,
            b"the script is longer than 1048576 bytes, and no step is run\n",
        )?;
    } else {
        replay(&mut to, input.as_slice())?;
    }
    to.flush()
}
