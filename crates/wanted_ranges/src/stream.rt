//! The size of the first message of a stream.
ghost use Rattle.std.specs.Prelude.{◌≡◌, drop};
ghost use Rattle.column_files.specs.Endings.{size_in, message_end};

/// What stands before the size of a stream's first message, where anything does: four bytes 255.
const MARKER: u32 = 0xffff_ffff;

/// The number in the first four bytes, the lowest first; 0 where there are fewer.
pub(crate) fn number_in(bytes: &[u8]) -> u32
    ensures { result ≡ size_in bytes.now }
{
    match bytes {
        [a, b, c, d, ..] => u32::from_le_bytes([*a, *b, *c, *d]),
        _ => 0,
    }
}

/// What stands behind so many bytes.
pub(crate) fn behind(bytes: &[u8], count: usize) -> &[u8]
    ensures { result.now ≡ drop count bytes.now }
{
    bytes.get(count..).unwrap_or(&[])
}

/// How many of the first bytes of a stream are its first message and what stands before it.
pub(crate) fn message_end(bytes: &[u8]) -> u64
    ensures { result ≡ message_end bytes.now }
{
    if number_in(bytes) == MARKER {
        8 + u64::from(number_in(behind(bytes, 4)))
    } else {
        4 + u64::from(number_in(bytes))
    }
}
