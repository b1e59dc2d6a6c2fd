//! A key that is `geo` but for the case of its letters.
ghost use Rattle.std.specs.Prelude.{◌≡◌, ◌++◌, find, IfOk, OnOk, map, option_map};
ghost use Rattle.parquet_footer.specs.Spelled.{spelled};
ghost use Rattle.parquet_footer.specs.Footer.{pairing};
ghost use Rattle.parquet_columns.specs.Findings.{finding};
ghost use Rattle.parquet_columns.specs.GeoKeys.{is_other_geo, other_geo, other_geo_findings};

use crate::code::{FileCode, FilePart};
use crate::finding::{FileFinding, FilePlace};
use crate::keys::{GEO_KEY, value_or_empty};
use parquet_footer::{Footer, KeyValue};
use std::alloc::{AllocError, Global};

/// Whether a pair has a value, and its key is `geo` in letters of any case.
fn is_other_geo(pair: &KeyValue<'_>) -> bool
    ensures { result ≡ is_other_geo (pairing pair.now) }
{
    pair.key.bytes.eq_ignore_ascii_case(GEO_KEY.as_bytes()) && pair.value.is_some()
}

/// The first such pair.
fn first_other<'p, 'a>(pairs: &'p [KeyValue<'a>]) -> Option<&'p KeyValue<'a>>
    ensures { option_map (λ p. pairing p.now) result ≡ find is_other_geo (map pairing pairs.now) }
{
    for pair in pairs {
        if is_other_geo(pair) {
            return Some(pair);
        }
    }
    None
}

/// What is found of such a pair. Errs only when out of memory.
fn other_geo(alloc: Global, pair: &KeyValue<'_>) -> Result<FileFinding, AllocError>
    ensures { IfOk result (λ made. finding made ≡ other_geo (pairing pair.now)) }
{
    let place = FilePlace {
        part: FilePart::Footer,
        byte: Some(pair.key.byte),
    };
    match String::from_utf8_lossy(alloc, pair.key.bytes) {
        Ok(name) => {
            let found = Some(name.as_str());
            FileFinding::new(alloc, FileCode::NoGeoMetadata, place, found, None)
        }
        Err(_) => Err(AllocError),
    }
}

/// Adds what is found of such a pair, where no key is `geo` itself. Errs only when out of memory.
pub(crate) fn add_other_geo(
    alloc: Global,
    findings: &mut Vec<FileFinding>,
    footer: &Footer<'_>,
) -> Result<(), AllocError>
    ensures { OnOk result (map finding findings.new.items
        ≡ map finding findings.old.items ++ other_geo_findings (map pairing footer.now.key_value_metadata.items)) }
{
    if value_or_empty(footer, GEO_KEY).is_some() {
        return Ok(());
    }
    if let Some(pair) = first_other(footer.key_value_metadata.as_slice()) {
        let found = other_geo(alloc, pair)?;
        findings.push(found)?;
    }
    Ok(())
}
