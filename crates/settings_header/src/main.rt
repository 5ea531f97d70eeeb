// Writes what include/hub.h must say of settings: on each line a name of the header, and its value by the definitions. `include/check` compares
// these, as it does what the program `header` writes.
#![tactic(auto)]

ghost use Rattle.std.specs.Prelude.{◌≡◌};
ghost use Rattle.settings.specs.Lent.{settings_size};
ghost use Rattle.settings_io.specs.Written.{most_file};

use settings_file::Refusal;
use std::io;
use std::io::{BufWriter, Write};

fn settings_len() -> u64
    ensures { result ≡ settings_size }
{
    4357
}

fn settings_file_len() -> u64
    ensures { result ≡ most_file }
{
    4386
}

// ---- writing

fn line(to: &mut impl Write, name: &[u8], value: u64) -> io::Result<()> {
    to.write_all(name)?;
    write!(to, " {value}")?;
    to.write_all(b"\n")
}

fn refusal(to: &mut impl Write, name: &[u8], refusal: Refusal) -> io::Result<()> {
    line(to, name, refusal.number() as u64)
}

fn main(rt: HostRuntime) -> io::Result<()> {
    let mut to = BufWriter::new(rt.alloc(), io::writer(&rt))?;
    write_lines(&mut to)?;
    to.flush()
}

// Writes each line.
fn write_lines(to: &mut impl Write) -> io::Result<()> {
    line(to, b"HUB_SETTINGS_LEN", settings_len())?;
    line(to, b"HUB_SETTINGS_FILE_LEN", settings_file_len())?;
    refusal(to, b"HUB_SETTINGS_UNKNOWN_VERSION", Refusal::UnknownVersion)?;
    refusal(to, b"HUB_SETTINGS_CUT_SHORT", Refusal::CutShort)?;
    refusal(to, b"HUB_SETTINGS_OVERLAP", Refusal::Overlap)?;
    refusal(to, b"HUB_SETTINGS_WRONG_KINDS", Refusal::WrongKinds)?;
    refusal(to, b"HUB_SETTINGS_WRONG_LENGTH", Refusal::WrongLength)?;
    refusal(to, b"HUB_SETTINGS_TOO_MANY_RULES", Refusal::TooManyRules)?;
    refusal(to, b"HUB_SETTINGS_RULE_TWICE", Refusal::RuleTwice)?;
    refusal(to, b"HUB_SETTINGS_OUTSIDE_RULE", Refusal::OutsideRule)?;
    Ok(())
}
