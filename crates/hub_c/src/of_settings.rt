// What a C host calls on settings: the file that the depot writes, and the bytes that are lent. include/hub.h declares its functions.
ghost use Rattle.std.specs.Prelude.{◌≡◌, length};
ghost use Rattle.buffer.specs.Over.{over};
ghost use Rattle.settings.specs.Settings.{default_settings};
ghost use Rattle.settings.specs.Lent.{lent};
ghost use Rattle.settings_file.specs.declared.Version.TheVariants.{First, Second};
ghost use Rattle.settings_file.specs.File.{given, reads, writes};
ghost use Rattle.hub_ffi.specs.Boundary.{settled};

// The reader of version 2, which takes version 1 too.
#[unsafe(no_mangle)]
pub extern "C" fn hub_settings_read(file: &[u8], out: &mut [u8]) -> u64
    ensures answer { result ≡ settled (reads Second file.now (length out.old)) }
    ensures bytes { out.new ≡ over out.old 0 (reads Second file.now (length out.old)).bytes }
{
    hub_ffi::of_settings::hub_settings_read(file, out)
}

// The reader of version 1, which takes no other.
#[unsafe(no_mangle)]
pub extern "C" fn hub_settings_read_1(file: &[u8], out: &mut [u8]) -> u64
    ensures answer { result ≡ settled (reads First file.now (length out.old)) }
    ensures bytes { out.new ≡ over out.old 0 (reads First file.now (length out.old)).bytes }
{
    hub_ffi::of_settings::hub_settings_read_1(file, out)
}

// Writes a file of version 2.
#[unsafe(no_mangle)]
pub extern "C" fn hub_settings_write(settings: &[u8], out: &mut [u8]) -> u64
    ensures answer { result ≡ settled (writes Second settings.now (length out.old)) }
    ensures bytes { out.new ≡ over out.old 0 (writes Second settings.now (length out.old)).bytes }
{
    hub_ffi::of_settings::hub_settings_write(settings, out)
}

// Writes a file of version 1, which has no wait.
#[unsafe(no_mangle)]
pub extern "C" fn hub_settings_write_1(settings: &[u8], out: &mut [u8]) -> u64
    ensures answer { result ≡ settled (writes First settings.now (length out.old)) }
    ensures bytes { out.new ≡ over out.old 0 (writes First settings.now (length out.old)).bytes }
{
    hub_ffi::of_settings::hub_settings_write_1(settings, out)
}

// What is set where nothing else is.
#[unsafe(no_mangle)]
pub extern "C" fn hub_settings_default(out: &mut [u8]) -> u64
    ensures answer { result ≡ settled (given (length out.old) (lent default_settings)) }
    ensures bytes { out.new ≡ over out.old 0 (given (length out.old) (lent default_settings)).bytes }
{
    hub_ffi::of_settings::hub_settings_default(out)
}
