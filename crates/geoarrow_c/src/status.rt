//! The numbers that the calls return.
ghost use Rattle.std.specs.Prelude.{◌≡◌};

/// The text stands at the front of the buffer.
pub(crate) const DONE: u8 = 0;
/// The buffer is too small for the text, and unchanged.
pub(crate) const SHORT: u8 = 1;
/// Out of memory. The buffer is unchanged.
pub(crate) const MEMORY: u8 = 2;
/// The number is that of no command, or of no options, or a name is not UTF-8. The buffer is
/// unchanged.
pub(crate) const UNKNOWN: u8 = 3;
/// The input is past a limit. The buffer is unchanged.
pub(crate) const LIMIT: u8 = 4;
/// The bytes are refused. The line that says why stands at the front of the buffer.
pub(crate) const REFUSED: u8 = 5;
/// The bytes of the first of two files are refused. The line that says why stands at the front of
/// the buffer.
pub(crate) const FIRST_REFUSED: u8 = 6;

/// Returns the version: ten thousand times the first number, a hundred times the second, and the
/// third. Allocates nothing.
#[unsafe(no_mangle)]
pub extern "C" fn geoarrow_version() -> u32
    ensures { result ≡ 20000 }
{
    2_00_00
}
