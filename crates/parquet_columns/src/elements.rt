//! What is found of the elements of a schema.
ghost use Rattle.std.specs.Prelude.{◌≡◌, [], ◌++◌, is_some, IfOk, OnOk, map, option_map, string_bytes};
ghost use Rattle.arrow_values.specs.Texts.{text_of};
ghost use Rattle.parquet_footer.specs.Logical.{logical};
ghost use Rattle.parquet_footer.specs.Element.{element};
ghost use Rattle.parquet_columns.specs.Findings.{finding};
ghost use Rattle.parquet_columns.specs.Levels.{level};
ghost use Rattle.parquet_columns.specs.Elements.{at_element, of_element, is_zero, is_plain_group, is_empty_group, empty_group, on_text, invalid_type, algorithm_number, logical_number, unknown_algorithm, logical_crs, key_in, key_of, missing_by, missing_key, crs_part, geometry_text, is_nested, nested_geometry, geometry_findings, type_findings, element_findings, findings_from, findings_below};

use crate::annotation::{Annotation, annotation_of};
use crate::code::{FileCode, FilePart};
use crate::finding::{FileFinding, FilePlace};
use crate::geometry::{colon_parts, is_geometry_type};
use crate::levels::{Level, close, column_in, enter, is_below, path_in};
use crate::storage::{is_stored, storage_of, storage_text};
use crate::type_names::{physical_name, type_name};
use crate::values::KeyValues;
use parquet_footer::{Algorithm, LogicalType, Repetition, SchemaElement};
use std::alloc::{AllocError, Global};

/// Where an element is.
fn at_element(found: &SchemaElement<'_>) -> FilePlace
    ensures { result ≡ at_element (element found.now) }
{
    FilePlace {
        part: FilePart::Elements,
        byte: Some(found.byte),
    }
}

/// A finding of an element.
fn of_element(
    alloc: Global,
    code: FileCode,
    levels: &[Level<'_>],
    at: &SchemaElement<'_>,
    found: String,
    wanted: Option<String>,
) -> Result<FileFinding, AllocError>
    ensures { IfOk result (λ made. finding made
        ≡ of_element code (map level levels.now) (element at.now) (string_bytes found) (option_map string_bytes wanted)) }
{
    let name = at.storage.name.bytes;
    let column = column_in(alloc, levels, name)?;
    let path = path_in(alloc, levels, Some(name))?;
    Ok(FileFinding {
        code,
        column: Some(column),
        path,
        place: at_element(at),
        found: Some(found),
        wanted,
    })
}

/// Whether a group is neither a LIST nor a MAP.
fn is_plain_group(annotation: Annotation) -> bool
    ensures { result ≡ is_plain_group annotation }
{
    matches!(annotation, Annotation::Plain)
}

/// Whether an element is a group of no children that is neither a LIST nor a MAP.
fn is_empty_group(found: &SchemaElement<'_>) -> bool
    ensures { result ≡ is_empty_group (element found.now) }
{
    found.storage.physical_type.is_none()
        && (matches!(found.num_children, Some(0)) && is_plain_group(annotation_of(found)))
}

/// Adds what is found of a group of no children.
fn add_empty_group(
    alloc: Global,
    findings: &mut Vec<FileFinding>,
    levels: &[Level<'_>],
    at: &SchemaElement<'_>,
) -> Result<(), AllocError>
    ensures { OnOk result (map finding findings.new.items ≡ map finding findings.old.items ++ empty_group (map level levels.now) (element at.now)) }
{
    if is_empty_group(at) {
        let text = String::from_str(alloc, "0 children")?;
        let found = of_element(alloc, FileCode::EmptyGroup, levels, at, text, None)?;
        findings.push(found)?;
    }
    Ok(())
}

/// The type of an element and the physical type on which it stands.
fn on_text(alloc: Global, at: &SchemaElement<'_>) -> Result<String, AllocError>
    ensures { IfOk result (λ text. string_bytes text ≡ on_text (element at.now)) }
{
    let name = type_name(at);
    let physical = physical_name(at.storage.physical_type);
    format!(in alloc; "{name} on {physical}")
}

/// What is found of a type on a physical type that it does not go with.
fn invalid_type(
    alloc: Global,
    levels: &[Level<'_>],
    at: &SchemaElement<'_>,
) -> Result<FileFinding, AllocError>
    ensures { IfOk result (λ made. finding made ≡ invalid_type (map level levels.now) (element at.now)) }
{
    let text = on_text(alloc, at)?;
    let wanted = String::from_str(alloc, storage_text(storage_of(at)))?;
    let code = FileCode::LogicalTypeInvalid;
    of_element(alloc, code, levels, at, text, Some(wanted))
}

/// The number of an algorithm that is not known.
fn algorithm_number(algorithm: Option<Algorithm>) -> Option<i32>
    ensures { result ≡ algorithm_number algorithm }
{
    match algorithm {
        Some(Algorithm::Unknown(number)) => Some(number),
        _ => None,
    }
}

/// The number of the algorithm of a GEOGRAPHY that is not known.
fn logical_number(logical_type: Option<LogicalType<'_>>) -> Option<i32>
    ensures { result ≡ logical_number (option_map logical logical_type.entry) }
{
    match logical_type {
        Some(LogicalType::Geography(_, algorithm)) => algorithm_number(algorithm),
        _ => None,
    }
}

/// Adds what is found of a GEOGRAPHY whose algorithm is not known.
fn add_unknown(
    alloc: Global,
    findings: &mut Vec<FileFinding>,
    levels: &[Level<'_>],
    at: &SchemaElement<'_>,
) -> Result<(), AllocError>
    ensures { OnOk result (map finding findings.new.items ≡ map finding findings.old.items ++ unknown_algorithm (map level levels.now) (element at.now)) }
{
    if let Some(number) = logical_number(at.logical_type) {
        let text = format!(in alloc; "{number}")?;
        let found = of_element(alloc, FileCode::UnknownAlgorithm, levels, at, text, None)?;
        findings.push(found)?;
    }
    Ok(())
}

/// The CRS of a geometry type.
fn logical_crs<'a>(logical_type: Option<LogicalType<'a>>) -> Option<&'a str>
    ensures { text_of result ≡ logical_crs (option_map logical logical_type.entry) }
{
    match logical_type {
        Some(LogicalType::Geometry(crs)) => crs,
        Some(LogicalType::Geography(crs, _)) => crs,
        _ => None,
    }
}

/// The key of a CRS `projjson:KEY`, by what stands before its first colon and behind it.
fn key_in<'a>(parts: Option<(&'a str, &'a str)>) -> Option<&'a str>
    ensures { text_of result ≡ key_in (option_map (λ p. (p.0.now, p.1.now)) parts.entry) }
{
    match parts {
        Some((word, key)) => {
            if word == "projjson" {
                return Some(key);
            }
            None
        }
        None => None,
    }
}

/// The key of a CRS `projjson:KEY`.
fn key_of(crs: Option<&str>) -> Option<&str>
    ensures { text_of result ≡ key_of (text_of crs.entry) }
{
    match crs {
        Some(crs) => key_in(colon_parts(crs)),
        None => None,
    }
}

/// Adds what is found of a key that has no value that is PROJJSON.
fn add_missing<'a>(
    alloc: Global,
    findings: &mut Vec<FileFinding>,
    values: &mut KeyValues<'_, 'a>,
    levels: &[Level<'_>],
    at: &SchemaElement<'a>,
    key: Option<&'a str>,
) -> Result<(), AllocError>
    ensures found { OnOk result (map finding findings.new.items
        ≡ map finding findings.old.items ++ missing_by values.old (map level levels.now) (element at.now) (text_of key.entry)) }
    ensures same { values.new ≡ values.old }
{
    let Some(key) = key else {
        return Ok(());
    };
    if values.holds_json(alloc, key)? {
        return Ok(());
    }
    let text = String::from_str(alloc, key)?;
    let found = of_element(alloc, FileCode::CrsKeyMissing, levels, at, text, None)?;
    findings.push(found)?;
    Ok(())
}

/// A CRS in parentheses, if there is one.
fn crs_part(alloc: Global, crs: Option<&str>) -> Result<String, AllocError>
    ensures { IfOk result (λ text. string_bytes text ≡ crs_part (text_of crs.entry)) }
{
    match crs {
        Some(crs) => format!(in alloc; "({crs})"),
        None => Ok(String::new(alloc)),
    }
}

/// A geometry type, and the CRS that it names.
fn geometry_text(alloc: Global, at: &SchemaElement<'_>) -> Result<String, AllocError>
    ensures { IfOk result (λ text. string_bytes text ≡ geometry_text (element at.now)) }
{
    let name = type_name(at);
    let crs = crs_part(alloc, logical_crs(at.logical_type))?;
    let crs = crs.as_str();
    format!(in alloc; "{name}{crs}")
}

/// Whether an element is of a geometry type and below a column, or REPEATED.
fn is_nested(levels: &[Level<'_>], at: &SchemaElement<'_>) -> bool
    ensures { result ≡ is_nested (map level levels.now) (element at.now) }
{
    is_geometry_type(at.logical_type)
        && (is_below(levels) || matches!(at.storage.repetition, Some(Repetition::Repeated)))
}

/// Adds what is found of a geometry type below a column, or of a REPEATED element.
fn add_nested(
    alloc: Global,
    findings: &mut Vec<FileFinding>,
    levels: &[Level<'_>],
    at: &SchemaElement<'_>,
) -> Result<(), AllocError>
    ensures { OnOk result (map finding findings.new.items ≡ map finding findings.old.items ++ nested_geometry (map level levels.now) (element at.now)) }
{
    if is_nested(levels, at) {
        let text = geometry_text(alloc, at)?;
        let found = of_element(alloc, FileCode::NestedGeometry, levels, at, text, None)?;
        findings.push(found)?;
    }
    Ok(())
}

/// Adds what is found of the algorithm, the CRS and the place of an element's geometry type, if it
/// is of one.
fn add_of_geometry<'a>(
    alloc: Global,
    findings: &mut Vec<FileFinding>,
    values: &mut KeyValues<'_, 'a>,
    levels: &[Level<'_>],
    at: &SchemaElement<'a>,
) -> Result<(), AllocError>
    ensures found { OnOk result (map finding findings.new.items
        ≡ map finding findings.old.items ++ geometry_findings values.old (map level levels.now) (element at.now)) }
    ensures same { values.new ≡ values.old }
{
    add_unknown(alloc, findings, levels, at)?;
    let key = key_of(logical_crs(at.logical_type));
    add_missing(alloc, findings, values, levels, at, key)?;
    add_nested(alloc, findings, levels, at)
}

/// Adds what is found of the type of an element.
fn add_of_type<'a>(
    alloc: Global,
    findings: &mut Vec<FileFinding>,
    values: &mut KeyValues<'_, 'a>,
    levels: &[Level<'_>],
    at: &SchemaElement<'a>,
) -> Result<(), AllocError>
    ensures found { OnOk result (map finding findings.new.items
        ≡ map finding findings.old.items ++ type_findings values.old (map level levels.now) (element at.now)) }
    ensures same { values.new ≡ values.old }
{
    if is_stored(storage_of(at), at) {
        return add_of_geometry(alloc, findings, values, levels, at);
    }
    let found = invalid_type(alloc, levels, at)?;
    findings.push(found)?;
    Ok(())
}

/// Adds what is found of an element.
fn add_of_element<'a>(
    alloc: Global,
    findings: &mut Vec<FileFinding>,
    values: &mut KeyValues<'_, 'a>,
    levels: &[Level<'_>],
    at: &SchemaElement<'a>,
) -> Result<(), AllocError>
    ensures found { OnOk result (map finding findings.new.items
        ≡ map finding findings.old.items ++ element_findings values.old (map level levels.now) (element at.now)) }
    ensures same { values.new ≡ values.old }
{
    add_empty_group(alloc, findings, levels, at)?;
    add_of_type(alloc, findings, values, levels, at)
}

/// Adds what is found of the elements behind the root.
fn add_from<'a>(
    alloc: Global,
    findings: &mut Vec<FileFinding>,
    values: &mut KeyValues<'_, 'a>,
    elements: &[SchemaElement<'a>],
) -> Result<(), AllocError>
    ensures found { OnOk result (map finding findings.new.items
        ≡ map finding findings.old.items ++ findings_from values.old [] (map element elements.now)) }
    ensures same { values.new ≡ values.old }
{
    let mut levels = Vec::new(alloc);
    for child in elements {
        close(&mut levels)?;
        add_of_element(alloc, findings, values, levels.as_slice(), child)?;
        enter(&mut levels, child)?;
    }
    Ok(())
}

/// Adds what is found of the elements of a schema. Errs only when out of memory.
pub(crate) fn add_elements<'a>(
    alloc: Global,
    findings: &mut Vec<FileFinding>,
    values: &mut KeyValues<'_, 'a>,
    elements: &[SchemaElement<'a>],
) -> Result<(), AllocError>
    ensures found { OnOk result (map finding findings.new.items
        ≡ map finding findings.old.items ++ findings_below values.old (map element elements.now)) }
    ensures same { values.new ≡ values.old }
{
    match elements.split_first() {
        None => Ok(()),
        Some((_root, below)) => add_from(alloc, findings, values, below),
    }
}
