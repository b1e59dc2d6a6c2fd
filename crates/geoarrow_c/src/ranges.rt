//! Which bytes of a file are wanted for its report.
ghost use Rattle.std.specs.Prelude.{◌≡◌, ◌≤◌};
ghost use Rattle.wanted_ranges.specs.Wanted.{wanted};
ghost use Rattle.wanted_ranges.specs.Enough.{IsCovered};
ghost use Rattle.geoarrow_c.specs.Ranges.{size_of, more_of};

use wanted_ranges::wanted_ranges;

/// The size that a number says; `u64::MAX` where it is not known.
fn size_of(number: u64) -> Option<u64>
    ensures { result ≡ size_of number }
{
    if number == u64::MAX {
        None
    } else {
        Some(number)
    }
}

/// Writes to `head_wanted` how many bytes of the begin of a file are wanted for its report, and to
/// `tail_wanted` how many of its end (docs/FORMAT.md, 2.7). The file has that many bytes, or
/// `u64::MAX` where that is not known; its first are `head`, and its last are `tail`, behind these.
///
/// Returns 0 where all that is wanted is given: what is read of `head` and `tail`, one behind the
/// other, is what is read of the whole file; else 1.
#[unsafe(no_mangle)]
pub extern "C" fn geoarrow_wanted(
    head: &[u8],
    tail: &[u8],
    size: u64,
    head_wanted: &mut u64,
    tail_wanted: &mut u64,
) -> u8
    ensures head { head_wanted.new ≡ (wanted head.now tail.now (size_of size)).head }
    ensures tail { tail_wanted.new ≡ (wanted head.now tail.now (size_of size)).tail }
    ensures more { result ≡ more_of head.now tail.now (wanted head.now tail.now (size_of size)) }
    ensures enough { result ≡ 0 → IsCovered head.now tail.now (size_of size) }
{
    let wanted = wanted_ranges(head, tail, size_of(size));
    *head_wanted = wanted.head;
    *tail_wanted = wanted.tail;
    if wanted.head <= head.len() as u64 && wanted.tail <= tail.len() as u64 {
        0
    } else {
        1
    }
}
