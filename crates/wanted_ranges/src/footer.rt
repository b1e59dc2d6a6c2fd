//! The size of a footer that the end of a file tells.
ghost use Rattle.std.specs.Prelude.{◌≡◌, ◌-◌};
ghost use Rattle.column_files.specs.Endings.{last, is_arrow_end};
ghost use Rattle.wanted_ranges.specs.Wanted.{arrow_told, parquet_told, at_most};

use crate::stream::{behind, number_in};
use parquet_footer::footer_length;

/// So many of the last bytes, or all.
fn last(bytes: &[u8], count: usize) -> &[u8]
    ensures { result.now ≡ last count bytes.now }
{
    &bytes[bytes.len().saturating_sub(count)..]
}

/// Whether an Arrow file ends so: with its magic, behind the size of its footer.
fn is_arrow_end(end: &[u8]) -> bool
    ensures { result ≡ is_arrow_end end.now }
{
    10 <= end.len() && behind(last(end, 10), 4) == b"ARROW1".as_slice()
}

/// The size that the end of an Arrow file tells; 0 where no magic stands there.
fn arrow_told(end: &[u8]) -> u32
    ensures { result ≡ arrow_told end.now }
{
    if is_arrow_end(end) {
        number_in(last(end, 10))
    } else {
        0
    }
}

/// The size that the end of a Parquet file tells; 0 where no magic stands there, or that of a file
/// whose footer is encrypted.
fn parquet_told(end: &[u8]) -> u32
    ensures { result ≡ parquet_told end.now }
{
    match end.split_last_chunk::<8>() {
        Some((_, tail)) => footer_length(tail).unwrap_or(0),
        None => 0,
    }
}

/// A size, where it is not greater than that.
fn at_most(most: u64, told: u32) -> u32
    ensures { result ≡ at_most most told }
{
    if u64::from(told) <= most { told } else { 0 }
}

/// The size of the footer of an Arrow file of that size, which its end tells; 0 where it tells none
/// that it can have.
pub(crate) fn arrow_footer(size: u64, end: &[u8]) -> u32
    ensures { result ≡ at_most (size - 10 - 8) (arrow_told end.now) }
{
    at_most(size.saturating_sub(10).saturating_sub(8), arrow_told(end))
}

/// The same of a Parquet file.
pub(crate) fn parquet_footer(size: u64, end: &[u8]) -> u32
    ensures { result ≡ at_most (size - 8 - 4) (parquet_told end.now) }
{
    at_most(size.saturating_sub(8).saturating_sub(4), parquet_told(end))
}
