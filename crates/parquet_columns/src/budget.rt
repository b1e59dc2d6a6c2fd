//! How much may be made of a file.
ghost use Rattle.std.specs.Prelude.{◌≡◌, option_map, string_bytes};
ghost use Rattle.parquet_columns.specs.Budget.{budget, size_of};

/// What is wrong with a file of which more would be made.
pub const TOO_LARGE: &str = "a larger report";

/// What is asked of a file.
pub const WITHIN_BUDGET: &str = "a report of at most 1048576 bytes and 32 for each byte read";

/// Returns how many bytes may be made of so many that are read: 1,048,576, and 32 for each
/// (`docs/FORMAT.md`, 4.6). The extension metadata that geometry types give the columns of a
/// footer have together at most so many, by the bytes of the footer.
///
/// ```rust
/// assert_eq!(rt; report_budget(1000), 1_080_576);
/// ```
pub fn report_budget(bytes: usize) -> u128
    ensures { result ≡ budget bytes }
{
    1_048_576 + 32 * bytes as u128
}

/// How many bytes a text has, if there is one.
pub(crate) fn size_of(text: &Option<String>) -> u128
    ensures { result ≡ size_of (option_map string_bytes text.now) }
{
    match text {
        None => 0,
        Some(text) => text.len() as u128,
    }
}
