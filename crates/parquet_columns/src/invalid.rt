//! What is found of columns with an element that breaks a rule.
ghost use Rattle.std.specs.Prelude.{◌≡◌, ◌++◌, IfOk, OnOk, map, option_map, string_bytes};
ghost use Rattle.parquet_footer.specs.Element.{element};
ghost use Rattle.parquet_columns.specs.Columns.{fault_tree};
ghost use Rattle.parquet_columns.specs.Findings.{finding};
ghost use Rattle.parquet_columns.specs.Invalid.{byte_at, name_at, between, path_at, invalid, invalid_elements};

use crate::code::{FileCode, FilePart};
use crate::columns::ColumnFault;
use crate::finding::{FileFinding, FilePlace};
use crate::levels::{open_behind, path_in};
use crate::marks::child_at;
use parquet_footer::SchemaElement;
use std::alloc::{AllocError, Global};

/// The byte of the element at a place, if there is one.
fn byte_at(elements: &[SchemaElement<'_>], at: usize) -> Option<usize>
    ensures { result ≡ byte_at (map element elements.now) at }
{
    match child_at(elements, at) {
        Some(found) => Some(found.byte),
        None => None,
    }
}

/// The name of the element at a place, if there is one.
fn name_at<'a>(elements: &[SchemaElement<'a>], at: usize) -> Option<&'a [u8]>
    ensures { option_map (λ n. n.now) result ≡ name_at (map element elements.now) at }
{
    match child_at(elements, at) {
        Some(found) => Some(found.storage.name.bytes),
        None => None,
    }
}

/// The elements from a place on, before another.
fn between<'e, 'a>(
    elements: &'e [SchemaElement<'a>],
    start: usize,
    at: usize,
) -> &'e [SchemaElement<'a>]
    ensures { map element result.now ≡ between (map element elements.now) start at }
{
    let from = start.min(elements.len());
    let rest = &elements[from..];
    let count = at.saturating_sub(start).min(rest.len());
    &rest[..count]
}

/// The path from a column, whose element has that place, down to the element at another place, as far
/// as one is there. Errs only when out of memory.
fn path_at(
    alloc: Global,
    elements: &[SchemaElement<'_>],
    start: usize,
    at: usize,
) -> Result<Vec<String>, AllocError>
    ensures { IfOk result (λ path. map string_bytes path.items ≡ path_at (map element elements.now) start at) }
{
    let levels = open_behind(alloc, between(elements, start, at))?;
    path_in(alloc, levels.as_slice(), name_at(elements, at))
}

/// What is found of a column with an element that breaks a rule. Errs only when out of memory.
fn invalid(
    alloc: Global,
    elements: &[SchemaElement<'_>],
    broken: &ColumnFault,
) -> Result<FileFinding, AllocError>
    ensures { IfOk result (λ made. finding made ≡ invalid (map element elements.now) (fault_tree broken.now)) }
{
    let rule = broken.fault.rule;
    let column = String::from_str(alloc, broken.column.as_str())?;
    let found = String::from_str(alloc, rule.message())?;
    let wanted = String::from_str(alloc, rule.wanted())?;
    let path = path_at(alloc, elements, broken.at, broken.fault.at)?;
    Ok(FileFinding {
        code: FileCode::ElementInvalid,
        column: Some(column),
        path,
        place: FilePlace {
            part: FilePart::Elements,
            byte: byte_at(elements, broken.fault.at),
        },
        found: Some(found),
        wanted: Some(wanted),
    })
}

/// Adds what is found of the columns with an element that breaks a rule. Errs only when out of
/// memory.
pub(crate) fn add_invalid(
    alloc: Global,
    findings: &mut Vec<FileFinding>,
    elements: &[SchemaElement<'_>],
    faults: &[ColumnFault],
) -> Result<(), AllocError>
    ensures { OnOk result (map finding findings.new.items
        ≡ map finding findings.old.items ++ invalid_elements (map element elements.now) (map fault_tree faults.now)) }
{
    for broken in faults {
        findings.push(invalid(alloc, elements, broken)?)?;
    }
    Ok(())
}
