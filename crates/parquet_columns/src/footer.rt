//! The columns of a footer, and what is found in it.
ghost use Rattle.std.specs.Prelude.{◌≡◌, ◌++◌, IfOk, OnOk, Option, Some, List, map, option_map};
ghost use Rattle.arrow_values.specs.View.{texts_of};
ghost use Rattle.arrow_columns.specs.Column.{column_tree};
ghost use Rattle.parquet_footer.specs.Element.{element};
ghost use Rattle.parquet_footer.specs.Footer.{contents, pairing};
ghost use Rattle.parquet_columns.specs.Columns.{fault_tree, columns_of};
ghost use Rattle.parquet_columns.specs.Findings.{finding, first_other, other_names};
ghost use Rattle.parquet_columns.specs.declared.stored.Stored.TheVariants as holds;
ghost use Rattle.parquet_columns.specs.Reads.{IsBuilt, names_seen, choice, by_names, geo_beside, and_found, chosen, IsReadWith, IsFooterRead, unresolved};
ghost use Rattle.arrow_values.specs.Texts.{text_of};
ghost use Rattle.parquet_columns.specs.GeoNames.{json_of};

use crate::budget::report_budget;
use crate::code::{FileCode, FilePart};
use crate::columns::{ColumnFault, ElementColumns, columns_of, compared_columns};
use crate::elements::add_elements;
use crate::error::SchemaError;
use crate::fault::ColumnsError;
use crate::finding::{FileFinding, FilePlace};
use crate::geo_keys::add_other_geo;
use crate::geo_names::geo_text;
use crate::invalid::add_invalid;
use crate::keys::{GEO_KEY, value_or_empty};
use crate::layouts::{RootElement, root_elements};
use crate::marks::{Marks, marked_columns, root_children};
use crate::repeated::add_repeated_keys;
use crate::resolved::resolved;
use crate::stored::{Stored, stored_in, unreadable};
use crate::values::KeyValues;
use arrow_columns::SchemaColumn;
use arrow_ipc::Schema;
use arrow_values::text_at;
use parquet_footer::{Footer, SchemaElement};
use std::alloc::{AllocError, Global};
use std::collections::BTreeMap;

/// What is read of a footer.
#[derive(Debug, Drop)]
pub struct FooterColumns {
    /// Its columns.
    pub columns: Vec<SchemaColumn>,
    /// What is known of the elements of the columns, one for each, in their order (`docs/FORMAT.md`,
    /// 4.6, 5.1).
    pub elements: Vec<RootElement>,
    /// Of a schema at `ARROW:schema` whose columns are used, for each of them, in their order, whether
    /// its element refutes a name of GeoArrow on it (`docs/FORMAT.md`, 4.5); else none.
    pub refuted: Vec<bool>,
    /// What is found: of the schema at `ARROW:schema`, of the elements, and of keys that stand
    /// several times (`docs/FORMAT.md`, 4.5).
    pub findings: Vec<FileFinding>,
}

/// Columns before the geometry types of their elements are looked at, and what is found.
#[derive(Drop)]
pub(crate) struct Unmarked {
    pub columns: Vec<SchemaColumn>,
    pub findings: Vec<FileFinding>,
    pub refuted: Vec<bool>,
}

/// Two names, of which one may be absent.
type Names<'c> = (Option<&'c str>, Option<&'c str>);

/// The first name of columns that is another than that of others at its place, and the other's.
fn first_other<'c>(columns: &'c [SchemaColumn], others: &'c [SchemaColumn]) -> Option<Names<'c>>
    ensures { option_map names_seen result ≡ first_other (map column_tree columns.now) (map column_tree others.now) }
{
    let mut rest = others.iter();
    for column in columns {
        let name = column.name.as_str();
        let Some(other) = rest.next() else {
            return Some((Some(name), None));
        };
        if name != other.name.as_str() {
            return Some((Some(name), Some(other.name.as_str())));
        }
    }
    match rest.next() {
        Some(other) => Some((None, Some(other.name.as_str()))),
        None => None,
    }
}

/// The columns of the elements of a footer's schema.
fn columns_of_elements(alloc: Global, footer: &Footer<'_>) -> Result<ElementColumns, SchemaError>
    ensures { IsBuilt (columns_of (map element footer.now.schema.items)) result }
{
    match columns_of(alloc, footer) {
        Ok(made) => Ok(made),
        Err(ColumnsError::Broken(fault)) => Err(SchemaError::Elements(fault)),
        Err(ColumnsError::OutOfMemory) => Err(SchemaError::OutOfMemory),
    }
}

/// What is found of a stored schema of other columns. Errs only when out of memory.
fn other_names(alloc: Global, names: Names<'_>) -> Result<FileFinding, AllocError>
    ensures { IfOk result (λ made. finding made ≡ other_names (names_seen names.entry)) }
{
    let place = FilePlace {
        part: FilePart::StoredMessage,
        byte: None,
    };
    FileFinding::new(alloc, FileCode::ArrowSchemaNames, place, names.0, names.1)
}

/// Columns with more that is found, behind what is. Errs only when out of memory.
fn with_found(read: Unmarked, found: Vec<FileFinding>) -> Result<Unmarked, AllocError>
    ensures { IfOk result (λ made. choice made ≡ and_found (choice read) (map finding found.items)) }
{
    let Unmarked {
        columns,
        findings,
        refuted,
    } = read;
    let mut findings = findings;
    let mut found = found;
    findings.append(&mut found)?;
    Ok(Unmarked {
        columns,
        findings,
        refuted,
    })
}

/// Columns of elements, and what is found. Allocates nothing.
fn unresolved(alloc: Global, columns: Vec<SchemaColumn>, findings: Vec<FileFinding>) -> Unmarked
    ensures { choice result ≡ unresolved (map column_tree columns.items) (map finding findings.items) }
{
    Unmarked {
        columns,
        findings,
        refuted: Vec::new(alloc),
    }
}

/// The columns of a stored schema, if their names are those of the elements' columns, each as far
/// as it fits its element, with what was found of them before; else these. Errs only when out of
/// memory.
fn by_names(
    alloc: Global,
    text: Option<&str>,
    elements: &[SchemaElement<'_>],
    stored: Vec<SchemaColumn>,
    found: Vec<FileFinding>,
    columns: Vec<SchemaColumn>,
) -> Result<Unmarked, AllocError>
    ensures { IfOk result (λ read. choice read ≡ by_names (first_other (map column_tree stored.items) (map column_tree columns.items))
        (json_of (text_of text.entry)) (map element elements.now) (map column_tree stored.items) (map finding found.items) (map column_tree columns.items)) }
{
    let other = match first_other(stored.as_slice(), columns.as_slice()) {
        Some(names) => other_names(alloc, names)?,
        None => {
            let children = root_children(alloc, elements)?;
            let compared = compared_columns(alloc, elements)?;
            let others = columns.as_slice();
            let (children, compared) = (children.as_slice(), compared.as_slice());
            let read = resolved(alloc, text, children, others, compared, stored)?;
            return with_found(read, found);
        }
    };
    let findings = vec![in alloc; other]?;
    Ok(unresolved(alloc, columns, findings))
}

/// Adds what is found of a key `geo` in the metadata of a stored schema. Errs only when out of
/// memory.
fn add_geo_beside(
    alloc: Global,
    findings: &mut Vec<FileFinding>,
    footer: &Footer<'_>,
    metadata: &BTreeMap<String, String>,
) -> Result<(), AllocError>
    ensures { OnOk result (map finding findings.new.items
        ≡ map finding findings.old.items ++ geo_beside (texts_of metadata.now.entries) (map pairing footer.now.key_value_metadata.items)) }
{
    if text_at(metadata, GEO_KEY).is_some() && value_or_empty(footer, GEO_KEY).is_none() {
        let place = FilePlace {
            part: FilePart::StoredMessage,
            byte: None,
        };
        let found = FileFinding::new(alloc, FileCode::GeoNotInFooter, place, None, None)?;
        findings.push(found)?;
    }
    Ok(())
}

/// The columns of a footer before its geometry types are looked at, by a stored schema and by the
/// elements; and what is found of the former. Errs only when out of memory.
fn of_schema(
    alloc: Global,
    footer: &Footer<'_>,
    schema: Schema,
    found: Vec<FileFinding>,
    columns: Vec<SchemaColumn>,
) -> Result<Unmarked, AllocError>
    ensures { IfOk result (λ read. choice read ≡ chosen (contents footer.now) (Some (holds.Schema schema found)) (map column_tree columns.items)) }
{
    let Schema {
        columns: stored,
        metadata,
        ..
    } = schema;
    let text = geo_text(footer);
    let elements = footer.schema.as_slice();
    let read = by_names(alloc, text, elements, stored, found, columns)?;
    let Unmarked {
        columns,
        findings,
        refuted,
    } = read;
    let mut findings = findings;
    add_geo_beside(alloc, &mut findings, footer, &metadata)?;
    Ok(Unmarked {
        columns,
        findings,
        refuted,
    })
}

/// The columns of a footer before its geometry types are looked at, by what is stored and by the elements; and what is found of the
/// former. Errs only when out of memory.
fn chosen(
    alloc: Global,
    footer: &Footer<'_>,
    stored: Option<Stored>,
    columns: Vec<SchemaColumn>,
) -> Result<Unmarked, AllocError>
    ensures { IfOk result (λ read. choice read ≡ chosen (contents footer.now) stored (map column_tree columns.items)) }
{
    match stored {
        Some(Stored::Schema(schema, found)) => { of_schema(alloc, footer, schema, found, columns) }
        Some(Stored::Unreadable(fault)) => {
            let found = unreadable(alloc, fault)?;
            let findings = vec![in alloc; found]?;
            Ok(unresolved(alloc, columns, findings))
        }
        None => {
            let findings = Vec::new(alloc);
            Ok(unresolved(alloc, columns, findings))
        }
    }
}

/// Columns with the extensions that their geometry types denote, and what is found of them, of
/// columns that are not read and of repeated keys.
fn finished(
    alloc: Global,
    footer: &Footer<'_>,
    faults: &[ColumnFault],
    read: Unmarked,
    bytes: usize,
) -> Result<FooterColumns, SchemaError>
    ensures { IsReadWith bytes (contents footer.now) (map fault_tree faults.now) (choice read) result }
{
    let Unmarked {
        columns,
        findings,
        refuted,
    } = read;
    let mut findings = findings;
    let mut values = KeyValues::new(alloc, footer.key_value_metadata.as_slice())?;
    let most = report_budget(bytes);
    let elements = footer.schema.as_slice();
    add_invalid(alloc, &mut findings, elements, faults)?;
    add_elements(alloc, &mut findings, &mut values, elements)?;
    add_other_geo(alloc, &mut findings, footer)?;
    add_repeated_keys(alloc, &mut findings, footer)?;
    let marked = marked_columns(alloc, &mut values, elements, columns, most)?;
    let Marks {
        columns,
        elements: claims,
    } = marked;
    let elements = root_elements(alloc, elements, claims)?;
    Ok(FooterColumns {
        columns,
        elements,
        refuted,
        findings,
    })
}

/// Reads the columns of the footer of a Parquet file (`docs/FORMAT.md`, 4.5), which has so many
/// bytes: where its key-value metadata have a value of the key `ARROW:schema`, those of the schema
/// that it holds, an encapsulated IPC message in base64, if they have the names of the columns of
/// the elements, in their order, but for columns that may hold geometries and whose types do not
/// fit their elements; otherwise those of the elements, as `columns_of` of `parquet_columns` makes
/// them. A column without an extension name whose element is of the type GEOMETRY or GEOGRAPHY has
/// the extension `geoarrow.wkb`, with the CRS and the edges of that type (`docs/FORMAT.md`, 4.6).
/// A column with an element that breaks a rule is of the type `unreadable`, whatever is stored for
/// it. What is found of the stored schema, of the elements and of keys is among the findings.
///
/// Errs with `Elements` where the tree of elements has no shape, with the rule and the element; with `Budget` where
/// the extension metadata that geometry types give the columns have together more bytes than
/// `report_budget(bytes)`; and when out of memory.
pub fn columns_of_footer(
    alloc: Global,
    footer: &Footer<'_>,
    bytes: usize,
) -> Result<FooterColumns, SchemaError>
    ensures { IsFooterRead bytes (contents footer.now) result }
{
    let made = columns_of_elements(alloc, footer)?;
    let ElementColumns { columns, faults } = made;
    let stored = stored_in(alloc, footer)?;
    let read = chosen(alloc, footer, stored, columns)?;
    finished(alloc, footer, faults.as_slice(), read, bytes)
}
