// Writes what include/hub.h must say: on each line an expression of C, and its value by the definitions. `include/check` has a C compiler
// evaluate the expressions under the header and compares, and fails where the header has a name that is not written here.
#![tactic(auto)]

ghost use Rattle.std.specs.Prelude.{◌≡◌, [], length};
ghost use Rattle.seq.specs.Numbers.{last_id};
ghost use Rattle.json_text.specs.Json.{max_bytes};
ghost use Rattle.outgoing.specs.Layout.{Mail, Formats, layout, entry};
ghost use Rattle.model.specs.State.{slots};
ghost use Rattle.model.specs.Step.{refusal};
ghost use Rattle.model.specs.declared.Outcome.TheVariants.{Done, BadState, BadSlot, WrongTime, BadNumber, NoRoom};
ghost use Rattle.image.specs.Image.{image_size};
ghost use Rattle.room.specs.Enough.{most_bytes, most_other};
ghost use Rattle.hub_ffi.specs.Boundary.{packed};

use std::io;
use std::io::{BufWriter, Write};

// ---- sizes

fn state_len() -> u64
    ensures { result ≡ image_size }
{
    9688
}

fn slot_count() -> u64
    ensures { result ≡ slots }
{
    8
}

fn message_len() -> u64
    ensures { result ≡ max_bytes }
{
    2048
}

fn last_number() -> u64
    ensures { result ≡ last_id }
{
    seq::LAST_ID
}

fn out_len() -> u64
    ensures { result ≡ most_bytes }
{
    3000000
}

fn out_len_no_publish() -> u64
    ensures { result ≡ most_other }
{
    13000
}

// The output of a step that sends nothing: the number of messages alone.
fn count_len() -> u64
    ensures { (fs : Formats) → result ≡ length (layout fs []) }
{
    2
}

fn entry_len() -> u64
    ensures { (fs : Formats) (m : Mail) → result ≡ length (entry fs m) }
{
    3
}

// ---- refusals

fn done() -> u64
    ensures { result ≡ refusal Done }
{
    0
}

fn bad_state() -> u64
    ensures { result ≡ refusal BadState }
{
    1
}

fn bad_slot() -> u64
    ensures { result ≡ refusal BadSlot }
{
    2
}

fn wrong_time() -> u64
    ensures { result ≡ refusal WrongTime }
{
    3
}

fn bad_number() -> u64
    ensures { result ≡ refusal BadNumber }
{
    4
}

fn no_room() -> u64
    ensures { result ≡ refusal NoRoom }
{
    5
}

// ---- the answer's number, of the largest count and each byte of the refusal's

fn answer() -> u64
    ensures { result ≡ packed most_bytes 255 }
{
    768000255
}

// ---- writing

fn write(to: &mut impl Write, s: &[u8]) -> io::Result<()> {
    to.write_all(s)
}

fn number(to: &mut impl Write, n: u64) -> io::Result<()> {
    write!(to, "{n}")
}

fn line(to: &mut impl Write, expression: &[u8], value: u64) -> io::Result<()> {
    write(to, expression)?;
    write(to, b" ")?;
    number(to, value)?;
    write(to, b"\n")
}

fn line_of_answer(to: &mut impl Write, name: &[u8], value: u64) -> io::Result<()> {
    write(to, name)?;
    write(to, b"(")?;
    number(to, answer())?;
    line(to, b")", value)
}

fn main(rt: HostRuntime) -> io::Result<()> {
    let mut to = BufWriter::new(rt.alloc(), io::writer(&rt))?;
    write_lines(&mut to)?;
    to.flush()
}

// Writes each line.
fn write_lines(to: &mut impl Write) -> io::Result<()> {
    line(to, b"HUB_STATE_LEN", state_len())?;
    line(to, b"HUB_SLOTS", slot_count())?;
    line(to, b"HUB_MESSAGE_LEN", message_len())?;
    line(to, b"HUB_LAST_NUMBER", last_number())?;
    line(to, b"HUB_OUT_LEN", out_len())?;
    line(to, b"HUB_OUT_LEN_NO_PUBLISH", out_len_no_publish())?;
    line(to, b"HUB_OUT_COUNT_LEN", count_len())?;
    line(to, b"HUB_OUT_ENTRY_LEN", entry_len())?;
    line(to, b"HUB_DONE", done())?;
    line(to, b"HUB_BAD_STATE", bad_state())?;
    line(to, b"HUB_BAD_SLOT", bad_slot())?;
    line(to, b"HUB_WRONG_TIME", wrong_time())?;
    line(to, b"HUB_BAD_NUMBER", bad_number())?;
    line(to, b"HUB_NO_ROOM", no_room())?;
    line_of_answer(to, b"HUB_COUNT", out_len())?;
    line_of_answer(to, b"HUB_REFUSAL", 255)?;
    Ok(())
}
