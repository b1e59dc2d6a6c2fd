//! What is found in a footer that is read.
ghost use Rattle.std.specs.Prelude.{◌≡◌, ◌++◌, IfOk, OnOk, map, flat_map, option_map};
ghost use Rattle.parquet_footer.specs.Element.{element};
ghost use Rattle.parquet_footer.specs.Footer.{pairing};
ghost use Rattle.parquet_footer.specs.Spelled.{spelled};
ghost use Rattle.parquet_footer.specs.Findings.{finding, no_text, name_findings, is_used, value_findings, pair_findings, findings_of};

use crate::code::FooterCode;
use crate::element::SchemaElement;
use crate::footer::KeyValue;
use crate::text::{FooterText, is_text};
use std::alloc::{AllocError, Global};

/// What is found in a footer: a name, a key or a value that is not UTF-8.
#[derive(Debug, Clone, Copy)]
pub struct FooterFinding<'a> {
    /// What is wrong.
    pub code: FooterCode,
    /// What stands there, and where.
    pub text: FooterText<'a>,
}

/// Adds what is found of bytes that are not UTF-8. Errs only when out of memory.
fn add_unless_text<'a>(
    findings: &mut Vec<FooterFinding<'a>>,
    code: FooterCode,
    text: FooterText<'a>,
) -> Result<(), AllocError>
    ensures { OnOk result (map finding findings.new.items
        ≡ map finding findings.old.items ++ no_text code (spelled text.entry)) }
{
    if !is_text(text.bytes) {
        findings.push(FooterFinding { code, text })?;
    }
    Ok(())
}

/// Whether a key is one of those that are used.
fn is_used(key: &[u8]) -> bool
    ensures { result ≡ is_used key.now }
{
    key == "geo".as_bytes() || key == "ARROW:schema".as_bytes()
}

/// Adds what is found of the value of a key. Errs only when out of memory.
fn add_value<'a>(
    findings: &mut Vec<FooterFinding<'a>>,
    key: &[u8],
    value: Option<FooterText<'a>>,
) -> Result<(), AllocError>
    ensures { OnOk result (map finding findings.new.items
        ≡ map finding findings.old.items ++ value_findings key.now (option_map spelled value.entry)) }
{
    match value {
        Some(value) if !is_used(key) => { add_unless_text(findings, FooterCode::KeyNotText, value) }
        _ => Ok(()),
    }
}

/// Adds what is found of a key and its value. Errs only when out of memory.
fn add_pair<'a>(
    findings: &mut Vec<FooterFinding<'a>>,
    pair: &KeyValue<'a>,
) -> Result<(), AllocError>
    ensures { OnOk result (map finding findings.new.items
        ≡ map finding findings.old.items ++ pair_findings (pairing pair.now)) }
{
    add_unless_text(findings, FooterCode::KeyNotText, pair.key)?;
    add_value(findings, pair.key.bytes, pair.value)
}

/// Adds what is found of the names of elements. Errs only when out of memory.
fn add_names<'a>(
    findings: &mut Vec<FooterFinding<'a>>,
    elements: &[SchemaElement<'a>],
) -> Result<(), AllocError>
    ensures { OnOk result (map finding findings.new.items
        ≡ map finding findings.old.items ++ flat_map name_findings (map element elements.now)) }
{
    for element in elements {
        add_unless_text(findings, FooterCode::NameNotText, element.storage.name)?;
    }
    Ok(())
}

/// Adds what is found of keys and values. Errs only when out of memory.
fn add_pairs<'a>(
    findings: &mut Vec<FooterFinding<'a>>,
    pairs: &[KeyValue<'a>],
) -> Result<(), AllocError>
    ensures { OnOk result (map finding findings.new.items
        ≡ map finding findings.old.items ++ flat_map pair_findings (map pairing pairs.now)) }
{
    for pair in pairs {
        add_pair(findings, pair)?;
    }
    Ok(())
}

/// The findings of elements, and those of keys and values, in their order. Errs only when out of memory.
pub fn findings_of<'a>(
    alloc: Global,
    elements: &[SchemaElement<'a>],
    pairs: &[KeyValue<'a>],
) -> Result<Vec<FooterFinding<'a>>, AllocError>
    ensures { IfOk result (λ found. map finding found.items
        ≡ findings_of (map element elements.now) (map pairing pairs.now)) }
{
    let mut found = Vec::new(alloc);
    add_names(&mut found, elements)?;
    add_pairs(&mut found, pairs)?;
    Ok(found)
}
