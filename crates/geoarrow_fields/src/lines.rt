//! The lines of an input, and their limits.
ghost use Rattle.std.specs.Prelude.{◌≡◌, ◌⊎◌, ◌<◌, ◌≤◌, List, ◌∷◌, [], ◌++◌, length, All, MatchBool};
ghost use Rattle.geoarrow_fields.specs.Lines.{Bytes, max_lines, max_line_bytes, lines_of, ended_lines};
ghost use Rattle.geoarrow_fields.specs.Lines.{IsLine, IsSplit, IsWithinLimits, IsPastLimit, Stops};

use line_reader::MAX_LINE_BYTES;
use memchr::memchr;

/// The greatest number of lines that are answered.
pub(crate) const MAX_LINES: usize = 1_000_000;

/// A law: lines that are joined, each with its line feed, and followed by a rest without one, are an input of exactly
/// these lines and, unless it is empty, the rest; every input has this form. There is nothing to run.
#[tactic(auto, using(crate::proofs::Limits::lines_of_ended, crate::proofs::Limits::lines_of_both, crate::proofs::Limits::split_every))]
pub fn splits_at_line_feeds()
    ensures ended { (lines : List Bytes) → All IsLine lines → lines_of (ended_lines lines) ≡ lines }
    ensures last { (lines : List Bytes) (rest : Bytes) → All IsLine lines → IsLine rest → 0 < length rest
        → lines_of (ended_lines lines ++ rest) ≡ lines ++ rest ∷ [] }
    ensures every { (input : Bytes) → (lines : List Bytes) × (rest : Bytes) × IsSplit input lines rest × IsLine rest }
{}

/// A law: either all lines of an input are within the limits, or the first ones are and what comes after them exceeds a
/// limit; never both. There is nothing to run.
#[tactic(auto, using(crate::proofs::Limits::either, crate::proofs::Limits::never_both))]
pub fn keeps_limits_or_passes_one()
    ensures either { (input : Bytes) → IsWithinLimits (lines_of input) ⊎ Stops IsPastLimit input }
    ensures never_both { (input : Bytes) → IsWithinLimits (lines_of input) → ¬ Stops IsPastLimit input }
{}

/// Whether a line of so many bytes is past a limit, after `count` lines.
fn is_past_limit(count: usize, bytes: usize) -> bool
    requires { count ≤ max_lines }
    ensures { MatchBool result ((count ≡ max_lines) ⊎ (max_line_bytes < bytes))
        ((count < max_lines) × (bytes ≤ max_line_bytes)) }
{
    count == MAX_LINES || bytes > MAX_LINE_BYTES
}

/// Returns whether the lines of an input are within the limits (docs/FORMAT.md, 2.3), so that
/// [`crate::run`] answers all of them. Allocates nothing.
///
/// ```rust
/// assert!(rt; is_within_limits(b"[]\n\n{}"));
/// ```
pub fn is_within_limits(input: &[u8]) -> bool
    ensures { MatchBool result (IsWithinLimits (lines_of input.now)) (¬ IsWithinLimits (lines_of input.now)) }
{
    let mut rest = input;
    let mut count = 0;
    while let Some(at) = memchr(b'\n', rest) {
        if is_past_limit(count, at) {
            return false;
        }
        count += 1;
        rest = &rest[at + 1..];
    }
    rest.is_empty() || !is_past_limit(count, rest.len())
}
