//! Columns of a stored schema, by the elements at their places.
ghost use Rattle.std.specs.Prelude.{◌≡◌, ◌++◌, IfOk, OnOk, map, option_map};
ghost use Rattle.json.specs.Value.{value_view};
ghost use Rattle.std.specs.List.{slice_get};
ghost use Rattle.arrow_values.specs.Texts.{text_of};
ghost use Rattle.arrow_columns.specs.Column.{type_tree, column_tree};
ghost use Rattle.parquet_footer.specs.Element.{element};
ghost use Rattle.parquet_columns.specs.Findings.{finding};
ghost use Rattle.parquet_columns.specs.Fits.{type_fits};
ghost use Rattle.parquet_columns.specs.GeoNames.{json_of};
ghost use Rattle.parquet_columns.specs.Resolutions.{beside_tree, resolution};
ghost use Rattle.parquet_columns.specs.Resolved.{is_geometry, is_geo_name, may_hold, bare, contradiction, as_it_is, is_binary, may_take, is_among, holds_wkb, takes_type, takes_from, is_set, beside_at, fitted, refused, resolve, resolved_from, resolved, listed, resolved_columns, resolved_findings, resolved_refuted, is_misfit, is_asked, is_one_asked};

use crate::code::{FileCode, FilePart};
use crate::excerpt::shown;
use crate::finding::{FileFinding, FilePlace};
use crate::fits::type_fits;
use crate::footer::Unmarked;
use crate::geo_names::{is_named, is_wkb, json_of};
use crate::geometry::is_geometry_type;
use crate::layouts::is_bytes;
use crate::levels::shown_names;
use crate::marks::child_at;
use crate::reserved::is_reserved;
use crate::unreadable::is_unreadable;
use crate::ways::{inner, names_to, type_places};
use arrow_columns::{AnyType, SchemaColumn};
use arrow_values::DataType;
use json::{Scratch, Value};
use parquet_footer::SchemaElement;
use std::alloc::{AllocError, Global};
use std::collections::BTreeMap;

/// Whether an element, if there is one, is of a geometry type.
fn is_geometry(child: Option<&SchemaElement<'_>>) -> bool
    ensures { result ≡ is_geometry (option_map (λ e. element e.now) child.entry) }
{
    match child {
        Some(child) => is_geometry_type(child.logical_type),
        None => false,
    }
}

/// Whether an extension name, if there is one, is of GeoArrow or an old one.
fn is_geo_name(name: Option<&str>) -> bool
    ensures { result ≡ is_geo_name (text_of name.entry) }
{
    match name {
        Some(name) => {
            name.as_bytes().starts_with(b"geoarrow.") || name == "ogc.wkb" || name == "ogc.wkt"
        }
        None => false,
    }
}

/// Whether a column may hold geometries, or their boxes: by its element, by its extension name, or by
/// the metadata at `geo`.
fn may_hold(
    geo: Option<&Value<'_>>,
    child: Option<&SchemaElement<'_>>,
    column: &SchemaColumn,
) -> bool
    ensures { result ≡ may_hold (option_map (λ v. value_view v.now) geo.entry)
        (option_map (λ e. element e.now) child.entry) (column_tree column.now) }
{
    is_geometry(child)
        || is_geo_name(column.extension_type_name())
        || is_named(column.name.as_str(), geo)
}

/// A column without its metadata, of one's own.
fn bare(alloc: Global, column: &SchemaColumn) -> Result<SchemaColumn, AllocError>
    ensures { IfOk result (λ made. column_tree made ≡ bare (column_tree column.now)) }
{
    let name = String::from_str(alloc, column.name.as_str())?;
    let data_type = column.data_type.try_clone(alloc)?;
    Ok(SchemaColumn {
        name,
        nullable: column.nullable,
        data_type,
        metadata: BTreeMap::new(alloc),
    })
}

/// What is found of a stored column that does not fit its element, whose column has a type to compare
/// with.
fn contradiction(
    alloc: Global,
    compared: &SchemaColumn,
    column: &SchemaColumn,
) -> Result<FileFinding, AllocError>
    ensures { IfOk result (λ made. finding made ≡ contradiction (column_tree compared.now) (column_tree column.now)) }
{
    let name = String::from_str(alloc, column.name.as_str())?;
    let way = type_places(alloc, &compared.data_type, &column.data_type)?;
    let there = column.data_type.as_ref();
    let names = names_to(alloc, there, way.as_slice())?;
    let found = inner(there, way.as_slice()).notation(alloc)?;
    let wanted = inner(compared.data_type.as_ref(), way.as_slice()).notation(alloc)?;
    Ok(FileFinding {
        code: FileCode::ArrowSchemaContradicts,
        column: Some(name),
        path: shown_names(alloc, names.as_slice())?,
        place: FilePlace {
            part: FilePart::StoredMessage,
            byte: None,
        },
        found: Some(shown(alloc, found)?),
        wanted: Some(shown(alloc, wanted)?),
    })
}

/// A stored column by its element.
#[derive(Drop)]
struct Resolution {
    /// The column.
    column: SchemaColumn,
    /// What is found.
    found: Option<FileFinding>,
    /// Whether the element refutes a name of GeoArrow.
    refuted: bool,
}

/// A column as it is.
fn as_it_is(column: SchemaColumn) -> Resolution
    ensures { resolution result ≡ as_it_is (column_tree column) }
{
    Resolution {
        column,
        found: None,
        refuted: false,
    }
}

/// The column of an element that a stored column does not fit. Errs only when out of memory.
fn refused(
    alloc: Global,
    other: &SchemaColumn,
    compared: &SchemaColumn,
    column: &SchemaColumn,
) -> Result<Resolution, AllocError>
    ensures { IfOk result (λ made. resolution made ≡ refused (column_tree other.now) (column_tree compared.now) (column_tree column.now)) }
{
    let found = contradiction(alloc, compared, column)?;
    Ok(Resolution {
        column: bare(alloc, other)?,
        found: Some(found),
        refuted: is_geo_name(column.extension_type_name()),
    })
}

/// Whether a type is one of bytes.
fn is_binary(any: &AnyType) -> bool
    ensures { result ≡ is_binary (type_tree any.now) }
{
    matches!(
        any,
        AnyType::Data(DataType::Binary | DataType::LargeBinary | DataType::BinaryView)
    )
}

/// Whether a column stands on a leaf of bytes, and its stored type is none of bytes.
fn may_take(child: Option<&SchemaElement<'_>>, column: &SchemaColumn) -> bool
    ensures { result ≡ may_take (option_map (λ e. element e.now) child.entry) (column_tree column.now) }
{
    match child {
        Some(child) => is_bytes(child) && !is_binary(&column.data_type),
        None => false,
    }
}

/// Whether one of some columns has that name.
fn is_among(name: &str, columns: &[SchemaColumn]) -> bool
    ensures { result ≡ is_among name.now (map column_tree columns.now) }
{
    let mut left = columns;
    'columns: while let [column, rest @ ..] = left {
        if column.name.as_str() == name {
            return true;
        }
        left = rest;
    }
    false
}

/// Whether a column holds well-known binary by its element, or by the metadata at `geo`.
fn holds_wkb(
    geo: Option<&Value<'_>>,
    before: &[SchemaColumn],
    child: Option<&SchemaElement<'_>>,
    column: &SchemaColumn,
) -> bool
    ensures { result ≡ holds_wkb (option_map (λ v. value_view v.now) geo.entry) (map column_tree before.now)
        (option_map (λ e. element e.now) child.entry) (column_tree column.now) }
{
    let name = column.name.as_str();
    is_geometry(child) || (is_wkb(name, geo) && !is_among(name, before))
}

/// Whether a stored column behind those has the type of its element. Errs only when out of memory.
fn takes_type(
    alloc: Global,
    geo: Option<&Value<'_>>,
    before: &[SchemaColumn],
    child: Option<&SchemaElement<'_>>,
    column: &SchemaColumn,
) -> Result<bool, AllocError>
    ensures { IfOk result (λ takes. takes ≡ takes_type (option_map (λ v. value_view v.now) geo.entry) (map column_tree before.now)
        (option_map (λ e. element e.now) child.entry) (column_tree column.now)) }
{
    if !may_take(child, column) {
        return Ok(false);
    }
    let is_own = is_reserved(alloc, column.extension_type_name())?;
    Ok(!is_own && holds_wkb(geo, before, child, column))
}

/// Whether each of some stored columns has the type of its element. Errs only when out of memory.
fn all_taken(
    alloc: Global,
    geo: Option<&Value<'_>>,
    children: &[SchemaElement<'_>],
    stored: &[SchemaColumn],
) -> Result<Vec<bool>, AllocError>
    ensures { IfOk result (λ takes. takes.items ≡ takes_from (option_map (λ v. value_view v.now) geo.entry)
        (map element children.now) (map column_tree stored.now) 0 (map column_tree stored.now)) }
{
    let mut takes = Vec::new(alloc);
    for (at, column) in stored.iter().enumerate() {
        let child = child_at(children, at);
        takes.push(takes_type(alloc, geo, &stored[..at], child, column)?)?;
    }
    Ok(takes)
}

/// A stored column that fits its element: of the type of this, where it takes that. Errs only when out
/// of memory.
fn fitted(
    alloc: Global,
    takes: bool,
    other: &SchemaColumn,
    column: SchemaColumn,
) -> Result<SchemaColumn, AllocError>
    ensures { IfOk result (λ made. column_tree made ≡ fitted takes (column_tree other.now) (column_tree column)) }
{
    if !takes {
        return Ok(column);
    }
    let data_type = other.data_type.try_clone(alloc)?;
    let SchemaColumn {
        name,
        nullable,
        metadata,
        data_type: stored,
    } = column;
    drop(stored);
    Ok(SchemaColumn {
        name,
        nullable,
        data_type,
        metadata,
    })
}

/// What there is at the place of a stored column.
#[derive(Clone, Copy)]
struct Beside<'b, 'a> {
    /// The element.
    element: Option<&'b SchemaElement<'a>>,
    /// The column of the element.
    column: Option<&'b SchemaColumn>,
    /// That column with the type that the stored one is compared with.
    compared: Option<&'b SchemaColumn>,
    /// Whether the stored column has the type of the element where it fits.
    takes: bool,
}

/// What there is at a place.
fn beside_at<'b, 'a>(
    children: &'b [SchemaElement<'a>],
    others: &'b [SchemaColumn],
    compared: &'b [SchemaColumn],
    takes: &[bool],
    at: usize,
) -> Beside<'b, 'a>
    ensures { beside_tree result ≡ beside_at (map element children.now) (map column_tree others.now) (map column_tree compared.now) takes.now at }
{
    Beside {
        element: child_at(children, at),
        column: column_at(others, at),
        compared: column_at(compared, at),
        takes: is_set(takes, at),
    }
}

/// A stored column by what there is at its place. Errs only when out of memory.
fn resolve(
    alloc: Global,
    geo: Option<&Value<'_>>,
    there: Beside<'_, '_>,
    column: SchemaColumn,
) -> Result<Resolution, AllocError>
    ensures { IfOk result (λ made. resolution made ≡ resolve (option_map (λ v. value_view v.now) geo.entry) (beside_tree there.entry) (column_tree column)) }
{
    let Some(other) = there.column else {
        return Ok(as_it_is(column));
    };
    let Some(compared) = there.compared else {
        return Ok(as_it_is(column));
    };
    if is_unreadable(&other.data_type) {
        return Ok(as_it_is(bare(alloc, other)?));
    }
    if type_fits(alloc, &compared.data_type, &column.data_type)? {
        return Ok(as_it_is(fitted(alloc, there.takes, other, column)?));
    }
    if may_hold(geo, there.element, &column) {
        return refused(alloc, other, compared, &column);
    }
    Ok(as_it_is(column))
}

/// The flag at a place, if there is one.
fn is_set(flags: &[bool], at: usize) -> bool
    ensures { result ≡ is_set (slice_get flags.now at) }
{
    match flags.get(at) {
        Some(flag) => *flag,
        None => false,
    }
}

/// The column at a place.
fn column_at(columns: &[SchemaColumn], at: usize) -> Option<&SchemaColumn>
    ensures { option_map (λ c. column_tree c.now) result ≡ slice_get (map column_tree columns.now) at }
{
    columns.get(at)
}

/// Adds what is found, if something is.
pub(crate) fn add_found(
    findings: &mut Vec<FileFinding>,
    found: Option<FileFinding>,
) -> Result<(), AllocError>
    ensures { OnOk result (map finding findings.new.items ≡ map finding findings.old.items ++ listed (option_map finding found)) }
{
    if let Some(found) = found {
        findings.push(found)?;
    }
    Ok(())
}

/// The columns of a stored schema, by what there is at their places and the metadata at `geo`; and what
/// is found.
fn resolved_with<'b, 'a>(
    alloc: Global,
    geo: Option<&Value<'_>>,
    children: &'b [SchemaElement<'a>],
    others: &'b [SchemaColumn],
    compared: &'b [SchemaColumn],
    takes: &[bool],
    stored: Vec<SchemaColumn>,
) -> Result<Unmarked, AllocError>
    ensures columns { IfOk result (λ read. map column_tree read.columns.items ≡ resolved_columns (resolved_from (option_map (λ v. value_view v.now) geo.entry)
        (beside_at (map element children.now) (map column_tree others.now) (map column_tree compared.now) takes.now) 0 (map column_tree stored.items))) }
    ensures findings { IfOk result (λ read. map finding read.findings.items ≡ resolved_findings (resolved_from (option_map (λ v. value_view v.now) geo.entry)
        (beside_at (map element children.now) (map column_tree others.now) (map column_tree compared.now) takes.now) 0 (map column_tree stored.items))) }
    ensures refuted { IfOk result (λ read. read.refuted.items ≡ resolved_refuted (resolved_from (option_map (λ v. value_view v.now) geo.entry)
        (beside_at (map element children.now) (map column_tree others.now) (map column_tree compared.now) takes.now) 0 (map column_tree stored.items))) }
{
    let mut columns = Vec::new(alloc);
    let mut findings = Vec::new(alloc);
    let mut flags = Vec::new(alloc);
    for column in stored {
        let there = beside_at(children, others, compared, takes, columns.len());
        let new = resolve(alloc, geo, there, column)?;
        let Resolution {
            column,
            found,
            refuted,
        } = new;
        columns.push(column)?;
        add_found(&mut findings, found)?;
        flags.push(refuted)?;
    }
    Ok(Unmarked {
        columns,
        findings,
        refuted: flags,
    })
}

/// Whether a stored column does not fit its element. Errs only when out of memory.
fn is_misfit(
    alloc: Global,
    compared: Option<&SchemaColumn>,
    column: &SchemaColumn,
) -> Result<bool, AllocError>
    ensures { IfOk result (λ is. is ≡ is_misfit (option_map (λ c. column_tree c.now) compared.entry) (column_tree column.now)) }
{
    match compared {
        Some(compared) => Ok(!type_fits(alloc, &compared.data_type, &column.data_type)?),
        None => Ok(false),
    }
}

/// Whether the metadata at `geo` decide of a stored column. Errs only when out of memory.
fn is_asked(
    alloc: Global,
    child: Option<&SchemaElement<'_>>,
    compared: Option<&SchemaColumn>,
    column: &SchemaColumn,
) -> Result<bool, AllocError>
    ensures { IfOk result (λ is. is ≡ is_asked (option_map (λ e. element e.now) child.entry) (option_map (λ c. column_tree c.now) compared.entry) (column_tree column.now)) }
{
    Ok(is_misfit(alloc, compared, column)? || may_take(child, column))
}

/// Whether the metadata at `geo` decide of some stored column. Errs only when out of memory.
fn is_one_asked(
    alloc: Global,
    children: &[SchemaElement<'_>],
    compared: &[SchemaColumn],
    stored: &[SchemaColumn],
) -> Result<bool, AllocError>
    ensures { IfOk result (λ is. is ≡ is_one_asked 0 (map element children.now) (map column_tree compared.now) (map column_tree stored.now)) }
{
    let mut at = 0;
    let mut left = stored;
    'columns: while let [column, rest @ ..] = left {
        if is_asked(
            alloc,
            child_at(children, at),
            column_at(compared, at),
            column,
        )? {
            return Ok(true);
        }
        at += 1;
        left = rest;
    }
    Ok(false)
}

/// The columns of a stored schema, by the children of the root, the columns of these, the same with
/// the types that the stored ones are compared with, and the metadata at `geo`; and what is found.
fn resolved_by(
    alloc: Global,
    geo: Option<&Value<'_>>,
    children: &[SchemaElement<'_>],
    others: &[SchemaColumn],
    compared: &[SchemaColumn],
    stored: Vec<SchemaColumn>,
) -> Result<Unmarked, AllocError>
    ensures columns { IfOk result (λ read. map column_tree read.columns.items ≡ resolved_columns (resolved (option_map (λ v. value_view v.now) geo.entry)
        (map element children.now) (map column_tree others.now) (map column_tree compared.now) (map column_tree stored.items))) }
    ensures findings { IfOk result (λ read. map finding read.findings.items ≡ resolved_findings (resolved (option_map (λ v. value_view v.now) geo.entry)
        (map element children.now) (map column_tree others.now) (map column_tree compared.now) (map column_tree stored.items))) }
    ensures refuted { IfOk result (λ read. read.refuted.items ≡ resolved_refuted (resolved (option_map (λ v. value_view v.now) geo.entry)
        (map element children.now) (map column_tree others.now) (map column_tree compared.now) (map column_tree stored.items))) }
{
    let takes = all_taken(alloc, geo, children, stored.as_slice())?;
    let takes = takes.as_slice();
    resolved_with(alloc, geo, children, others, compared, takes, stored)
}

/// The columns of a stored schema, by the children of the root, the columns of these, the same with
/// the types that the stored ones are compared with, and the text at `geo`; and what is found. Errs
/// only when out of memory.
#[tactic(auto, using(crate::proofs::Resolving::unasked))]
pub(crate) fn resolved(
    alloc: Global,
    text: Option<&str>,
    children: &[SchemaElement<'_>],
    others: &[SchemaColumn],
    compared: &[SchemaColumn],
    stored: Vec<SchemaColumn>,
) -> Result<Unmarked, AllocError>
    ensures columns { IfOk result (λ read. map column_tree read.columns.items ≡ resolved_columns (resolved (json_of (text_of text.entry))
        (map element children.now) (map column_tree others.now) (map column_tree compared.now) (map column_tree stored.items))) }
    ensures findings { IfOk result (λ read. map finding read.findings.items ≡ resolved_findings (resolved (json_of (text_of text.entry))
        (map element children.now) (map column_tree others.now) (map column_tree compared.now) (map column_tree stored.items))) }
    ensures refuted { IfOk result (λ read. read.refuted.items ≡ resolved_refuted (resolved (json_of (text_of text.entry))
        (map element children.now) (map column_tree others.now) (map column_tree compared.now) (map column_tree stored.items))) }
{
    if !is_one_asked(alloc, children, compared, stored.as_slice())? {
        return resolved_by(alloc, None, children, others, compared, stored);
    }
    let mut scratch = Scratch::new(alloc);
    match json_of(alloc, text, &mut scratch)? {
        Some(geo) => resolved_by(alloc, Some(&geo), children, others, compared, stored),
        None => resolved_by(alloc, None, children, others, compared, stored),
    }
}
