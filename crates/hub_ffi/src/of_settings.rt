// The boundary of settings: the file that the depot writes, and the bytes that are lent. crates/hub_c exports its functions to C.
ghost use Rattle.std.specs.Prelude.{◌≡◌, ◌≤◌, length, IfOk, MatchResult};
ghost use Rattle.buffer.specs.Over.{over};
ghost use Rattle.settings.specs.Settings.{default_settings};
ghost use Rattle.settings.specs.Lent.{lent};
ghost use Rattle.settings_file.specs.declared.Version.TheVariants.{First, Second};
ghost use Rattle.settings_file.specs.File.{refusal_no, given, reads, writes};
ghost use Rattle.settings_io.specs.Written.{most_file};
ghost use Rattle.hub_ffi.specs.Boundary.{packed, settled};

use settings_file::{Refusal, Version};

// What comes of a call on settings, as one number. None writes more than the longest file has.
fn told(answer: Result<usize, Refusal>) -> u64
    requires { IfOk answer (λ n. n ≤ most_file) }
    ensures { MatchResult answer (λ n. result ≡ packed n 0) (λ r. result ≡ packed 0 (refusal_no r)) }
{
    match answer {
        Ok(count) => count as u64 * 256,
        Err(refusal) => refusal.number() as u64,
    }
}

// The reader of version 2, which takes version 1 too.
pub fn hub_settings_read(file: &[u8], out: &mut [u8]) -> u64
    ensures answer { result ≡ settled (reads Second file.now (length out.old)) }
    ensures bytes { out.new ≡ over out.old 0 (reads Second file.now (length out.old)).bytes }
{
    told(settings_io::read(Version::Second, file, out))
}

// The reader of version 1, which takes no other.
pub fn hub_settings_read_1(file: &[u8], out: &mut [u8]) -> u64
    ensures answer { result ≡ settled (reads First file.now (length out.old)) }
    ensures bytes { out.new ≡ over out.old 0 (reads First file.now (length out.old)).bytes }
{
    told(settings_io::read(Version::First, file, out))
}

// Writes a file of version 2.
pub fn hub_settings_write(settings: &[u8], out: &mut [u8]) -> u64
    ensures answer { result ≡ settled (writes Second settings.now (length out.old)) }
    ensures bytes { out.new ≡ over out.old 0 (writes Second settings.now (length out.old)).bytes }
{
    told(settings_io::write(Version::Second, settings, out))
}

// Writes a file of version 1, which has no wait.
pub fn hub_settings_write_1(settings: &[u8], out: &mut [u8]) -> u64
    ensures answer { result ≡ settled (writes First settings.now (length out.old)) }
    ensures bytes { out.new ≡ over out.old 0 (writes First settings.now (length out.old)).bytes }
{
    told(settings_io::write(Version::First, settings, out))
}

// What is set where nothing else is.
pub fn hub_settings_default(out: &mut [u8]) -> u64
    ensures answer { result ≡ settled (given (length out.old) (lent default_settings)) }
    ensures bytes { out.new ≡ over out.old 0 (given (length out.old) (lent default_settings)).bytes }
{
    told(settings_io::default(out))
}
