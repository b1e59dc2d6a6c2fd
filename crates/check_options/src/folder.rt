//! The files that a folder stands for (docs/FORMAT.md, 2.7).
ghost use Rattle.std.specs.Prelude.{◌≡◌, ◌==◌, IsPermutation, IsSorted, OnOk, string_bytes};
ghost use Rattle.std.specs.List.{ends_with, list_any};
ghost use Rattle.check_options.specs.Folder.{is_left_out, is_taken, order};

use std::alloc::AllocError;

/// The ends of the names of the files.
const ENDINGS: [&str; 7] = [
    ".parquet",
    ".geoparquet",
    ".arrow",
    ".feather",
    ".arrows",
    ".jsonl",
    ".ndjson",
];

/// Returns whether a file or a folder of that name is left out: where it begins with `_` or `.`.
///
/// ```rust
/// assert!(rt; is_left_out("_temporary") && !is_left_out("a_b"));
/// ```
pub fn is_left_out(name: &str) -> bool
    ensures { result ≡ is_left_out name.now }
{
    match name.as_bytes() {
        [first, ..] => *first == b'_' || *first == b'.',
        [] => false,
    }
}

/// Returns whether a folder stands for its file of that name: one that is not left out and has one
/// of seven ends.
///
/// ```rust
/// assert!(rt; is_taken("a.parquet") && !is_taken("a.parquet.crc") && !is_taken("_a.parquet"));
/// ```
pub fn is_taken(name: &str) -> bool
    ensures { result ≡ is_taken name.now }
{
    !is_left_out(name) && has_ending_of(name, ENDINGS.as_slice())
}

/// Whether a name ends as one of some endings.
fn has_ending_of(name: &str, endings: &[&str]) -> bool
    ensures { result ≡ list_any (λ ending. ends_with (λ a b. a == b) name.now ending.now) endings.entry.now }
{
    endings.iter().any(|ending| has_ending(name, ending))
}

/// Whether a name ends so.
fn has_ending(name: &str, ending: &str) -> bool
    ensures { result ≡ ends_with (λ a b. a == b) name.now ending.now }
{
    name.as_bytes().ends_with(ending.as_bytes())
}

/// Puts paths in the order of their bytes. Errs only when out of memory.
///
/// ```rust
/// let (last, first) = (String::from_str(alloc, "a/b")?, String::from_str(alloc, "a-b")?);
/// let mut paths = vec![in alloc; last, first]?;
/// put_in_order(&mut paths)?;
/// assert_eq!(rt; paths[0].as_str(), "a-b");
/// ```
pub fn put_in_order(paths: &mut Vec<String>) -> Result<(), AllocError>
    ensures { OnOk result (IsPermutation paths.old.items paths.new.items × IsSorted (λ a b. order (string_bytes a) (string_bytes b)) paths.new.items) }
{
    paths.sort()
}
