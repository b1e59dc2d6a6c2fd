//! Keys that stand several times with a value.
ghost use Rattle.std.specs.Prelude.{◌≡◌, ◌++◌, IfOk, OnOk, map, string_bytes};
ghost use Rattle.parquet_footer.specs.Spelled.{spelled};
ghost use Rattle.parquet_footer.specs.Footer.{pairing};
ghost use Rattle.parquet_columns.specs.Findings.{finding, values_in, values_of, all_same, values_text, several, repeated, repeated_keys};

use crate::code::{FileCode, FilePart};
use crate::finding::{FileFinding, FilePlace};
use crate::keys::{ARROW_SCHEMA_KEY, GEO_KEY, value_of, value_under};
use parquet_footer::{Footer, FooterText, KeyValue};
use std::alloc::{AllocError, Global};

/// Adds the value of a pair, if the key is its own and it has one. Errs only when out of memory.
fn add_value<'a>(
    values: &mut Vec<FooterText<'a>>,
    pair: &KeyValue<'a>,
    key: &str,
) -> Result<(), AllocError>
    ensures { OnOk result (map spelled values.new.items ≡ map spelled values.old.items ++ values_in key.now (pairing pair.now)) }
{
    if let Some(value) = value_under(pair, key) {
        values.push(value)?;
    }
    Ok(())
}

/// The values of a key, in their order. Errs only when out of memory.
fn values_of<'a>(
    alloc: Global,
    pairs: &[KeyValue<'a>],
    key: &str,
) -> Result<Vec<FooterText<'a>>, AllocError>
    ensures { IfOk result (λ values. map spelled values.items ≡ values_of key.now (map pairing pairs.now)) }
{
    let mut values = Vec::new(alloc);
    for pair in pairs {
        add_value(&mut values, pair, key)?;
    }
    Ok(values)
}

/// Whether all values have the bytes of one.
fn all_same(one: FooterText<'_>, values: &[FooterText<'_>]) -> bool
    ensures { result ≡ all_same (spelled one.entry) (map spelled values.now) }
{
    for value in values {
        if value.bytes != one.bytes {
            return false;
        }
    }
    true
}

/// Returns how many values a key has, and whether they differ: `2 values, which are equal`, or
/// `2 values, which differ`. Errs only when out of memory.
///
/// ```rust
/// let text = values_text(alloc, 2, true)?;
/// assert_eq!(rt; text.as_str(), "2 values, which are equal");
/// ```
pub fn values_text(alloc: Global, count: usize, same: bool) -> Result<String, AllocError>
    ensures { IfOk result (λ text. string_bytes text ≡ values_text count same) }
{
    if same {
        format!(in alloc; "{count} values, which are equal")
    } else {
        format!(in alloc; "{count} values, which differ")
    }
}

/// What is found of a key that has several values, the last of which is given. Errs only when out of memory.
fn several(
    alloc: Global,
    key: &str,
    values: &[FooterText<'_>],
    last: FooterText<'_>,
) -> Result<FileFinding, AllocError>
    ensures { IfOk result (λ made. finding made ≡ several key.now (map spelled values.now) (spelled last.entry)) }
{
    let text = values_text(alloc, values.len(), all_same(last, values))?;
    let place = FilePlace {
        part: FilePart::Footer,
        byte: Some(last.byte),
    };
    FileFinding::new(
        alloc,
        FileCode::RepeatedKey,
        place,
        Some(text.as_str()),
        Some(key),
    )
}

/// Adds what is found of a key. Errs only when out of memory.
fn add_repeated(
    alloc: Global,
    findings: &mut Vec<FileFinding>,
    footer: &Footer<'_>,
    key: &str,
) -> Result<(), AllocError>
    ensures { OnOk result (map finding findings.new.items
        ≡ map finding findings.old.items ++ repeated (map pairing footer.now.key_value_metadata.items) key.now) }
{
    let Some(last) = value_of(footer, key) else {
        return Ok(());
    };
    let values = values_of(alloc, footer.key_value_metadata.as_slice(), key)?;
    if values.len() > 1 {
        let found = several(alloc, key, values.as_slice(), last)?;
        findings.push(found)?;
    }
    Ok(())
}

/// Adds what is found of the keys that are used. Errs only when out of memory.
pub(crate) fn add_repeated_keys(
    alloc: Global,
    findings: &mut Vec<FileFinding>,
    footer: &Footer<'_>,
) -> Result<(), AllocError>
    ensures { OnOk result (map finding findings.new.items
        ≡ map finding findings.old.items ++ repeated_keys (map pairing footer.now.key_value_metadata.items)) }
{
    add_repeated(alloc, findings, footer, GEO_KEY)?;
    add_repeated(alloc, findings, footer, ARROW_SCHEMA_KEY)
}
