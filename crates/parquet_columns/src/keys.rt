//! The values of keys.
ghost use Rattle.std.specs.Prelude.{◌≡◌, map, find, option_map};
ghost use Rattle.parquet_footer.specs.Spelled.{spelled};
ghost use Rattle.parquet_footer.specs.Footer.{pairing};
ghost use Rattle.parquet_columns.specs.Keys.{later, value_under, value_of, has_key, no_value, value_or_empty};

use parquet_footer::{Footer, FooterText, KeyValue};

/// The key under which Arrow's libraries store the schema of the columns that they wrote.
pub const ARROW_SCHEMA_KEY: &str = "ARROW:schema";

/// The key under which the metadata of GeoParquet stand.
pub const GEO_KEY: &str = "geo";

/// The later of two values, where there are some.
fn later<'a>(
    value: Option<FooterText<'a>>,
    before: Option<FooterText<'a>>,
) -> Option<FooterText<'a>>
    ensures { option_map spelled result ≡ later (option_map spelled value.entry) (option_map spelled before.entry) }
{
    match value {
        Some(value) => Some(value),
        None => before,
    }
}

/// The value of a pair, if the key is its own.
pub(crate) fn value_under<'a>(pair: &KeyValue<'a>, key: &str) -> Option<FooterText<'a>>
    ensures { option_map spelled result ≡ value_under key.now (pairing pair.now) }
{
    if pair.key.bytes == key.as_bytes() {
        pair.value
    } else {
        None
    }
}

/// Returns the value of a key in the key-value metadata of a footer (`docs/FORMAT.md`, 4.5): the last one, where several pairs of the key
/// have a value. It need not be UTF-8. Allocates nothing.
#[tactic(auto, using(crate::proofs::Laters::first, crate::proofs::Laters::goes_on, crate::proofs::Laters::ends))]
pub fn value_of<'a>(footer: &Footer<'a>, key: &str) -> Option<FooterText<'a>>
    ensures { option_map spelled result ≡ value_of key.now (map pairing footer.now.key_value_metadata.items) }
{
    let mut found = None;
    for pair in footer.key_value_metadata.as_slice() {
        found = later(value_under(pair, key), found);
    }
    found
}

/// Whether a pair has the key.
fn has_key(pair: &KeyValue<'_>, key: &str) -> bool
    ensures { result ≡ has_key key.now (pairing pair.now) }
{
    pair.key.bytes == key.as_bytes()
}

/// The empty text at the first pair that has the key, if one has it.
fn empty_at<'a>(pairs: &[KeyValue<'a>], key: &str) -> Option<FooterText<'a>>
    ensures { option_map spelled result ≡ option_map no_value (find (has_key key.now) (map pairing pairs.now)) }
{
    for pair in pairs {
        if has_key(pair, key) {
            return Some(FooterText {
                bytes: &[],
                byte: pair.key.byte,
            });
        }
    }
    None
}

/// Returns what stands at a key in the key-value metadata of a footer (`docs/FORMAT.md`, 4.5): its value, as [`value_of`] answers it; where
/// pairs have the key, and none of them a value, the empty text, where the key of the first begins. Allocates nothing.
pub fn value_or_empty<'a>(footer: &Footer<'a>, key: &str) -> Option<FooterText<'a>>
    ensures { option_map spelled result ≡ value_or_empty key.now (map pairing footer.now.key_value_metadata.items) }
{
    later(
        value_of(footer, key),
        empty_at(footer.key_value_metadata.as_slice(), key),
    )
}
