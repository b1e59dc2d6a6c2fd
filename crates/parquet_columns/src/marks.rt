//! The columns of geometry types.
ghost use Rattle.std.specs.Prelude.{◌≡◌, ◌<◌, ◌^◌, IfOk, map, option_map, string_bytes};
ghost use Rattle.std.specs.List.{slice_get};
ghost use Rattle.arrow_columns.specs.Column.{column_tree};
ghost use Rattle.parquet_footer.specs.Element.{element};
ghost use Rattle.parquet_columns.specs.Geometry.{count_of, root_children, children_in, given, marked_by};
ghost use Rattle.parquet_columns.specs.Marks.{IsMarked, AreMarked};

use crate::budget::size_of;
use crate::claim::{ElementClaim, claim_of, claim_size};
use crate::error::SchemaError;
use crate::geometry::extension_text;
use crate::reserved::is_reserved;
use crate::unreadable::is_unreadable;
use crate::values::KeyValues;
use arrow_columns::{SchemaColumn, with_extension};
use parquet_footer::SchemaElement;
use std::alloc::{AllocError, Global};

/// The extension name of well-known binary.
const WKB: &str = "geoarrow.wkb";

/// Columns, and what their elements say beside them.
#[derive(Drop)]
pub(crate) struct Marks {
    pub columns: Vec<SchemaColumn>,
    pub elements: Vec<ElementClaim>,
}

/// The elements of a schema that are children of its root.
pub(crate) fn root_children<'a>(
    alloc: Global,
    elements: &[SchemaElement<'a>],
) -> Result<Vec<SchemaElement<'a>>, AllocError>
    ensures { IfOk result (λ found. map element found.items ≡ root_children (map element elements.now)) }
{
    match elements.split_first() {
        None => Ok(Vec::new(alloc)),
        Some((_root, below)) => children_in(alloc, below),
    }
}

/// The children of the root, of the elements behind it.
fn children_in<'a>(
    alloc: Global,
    elements: &[SchemaElement<'a>],
) -> Result<Vec<SchemaElement<'a>>, AllocError>
    ensures { IfOk result (λ found. map element found.items ≡ children_in 0 (map element elements.now)) }
{
    let mut found = Vec::new(alloc);
    let mut below: u128 = 0;
    for child in elements {
        let count = count_of(child);
        if below == 0 {
            found.push(*child)?;
            below = count;
        } else {
            below = below - 1 + count;
        }
    }
    Ok(found)
}

/// How many children an element has.
pub(crate) fn count_of(found: &SchemaElement<'_>) -> u128
    ensures count { result ≡ count_of (element found.now) }
    ensures small { result < 2 ^ 32 }
{
    match found.num_children {
        None => 0,
        Some(count) => u128::from(count),
    }
}

/// The extension metadata that a column is given: those that its element denotes, if it is read
/// and has no extension name of its own, or a foreign one.
fn given<'a>(
    alloc: Global,
    values: &mut KeyValues<'_, 'a>,
    child: Option<&SchemaElement<'a>>,
    column: &SchemaColumn,
) -> Result<Option<String>, AllocError>
    ensures text { IfOk result (λ text. option_map string_bytes text
        ≡ given values.old (option_map (λ e. element e.now) child.entry) (column_tree column.now)) }
    ensures same { values.new ≡ values.old }
{
    let Some(child) = child else {
        return Ok(None);
    };
    if is_unreadable(&column.data_type) {
        return Ok(None);
    }
    if is_reserved(alloc, column.extension_type_name())? {
        return Ok(None);
    }
    extension_text(alloc, values, child)
}

/// A column with extension metadata that it is given.
fn marked_by(
    alloc: Global,
    column: SchemaColumn,
    text: Option<String>,
) -> Result<SchemaColumn, AllocError>
    ensures { IfOk result (λ c. column_tree c ≡ marked_by (option_map string_bytes text) (column_tree column)) }
{
    match text {
        None => Ok(column),
        Some(text) => with_extension(alloc, column, WKB, text),
    }
}

/// The child of the root at a place.
pub(crate) fn child_at<'c, 'a>(
    children: &'c [SchemaElement<'a>],
    at: usize,
) -> Option<&'c SchemaElement<'a>>
    ensures { option_map (λ e. element e.now) result ≡ slice_get (map element children.now) at }
{
    children.get(at)
}

/// A column with the extension that its element denotes, if it has no extension name of its own;
/// what the element says beside it; and what the extension metadata of both leave of an amount.
fn marked<'a>(
    alloc: Global,
    values: &mut KeyValues<'_, 'a>,
    child: Option<&SchemaElement<'a>>,
    column: SchemaColumn,
    amount: u128,
) -> Result<(SchemaColumn, ElementClaim, u128), SchemaError>
    ensures made { IsMarked values.old (option_map (λ e. element e.now) child.entry) (column_tree column) amount result }
    ensures same { values.new ≡ values.old }
{
    let text = given(alloc, values, child, &column)?;
    let said = claim_of(alloc, values, child, &column)?;
    let size = size_of(&text) + claim_size(&said);
    if amount < size {
        return Err(SchemaError::Budget);
    }
    let new = marked_by(alloc, column, text)?;
    Ok((new, said, amount - size))
}

/// Columns with the extensions that the elements denote, each for the column at its place, and what
/// the elements say beside them, where the extension metadata have at most so many bytes.
fn marked_within<'a>(
    alloc: Global,
    values: &mut KeyValues<'_, 'a>,
    children: &[SchemaElement<'a>],
    columns: Vec<SchemaColumn>,
    amount: u128,
) -> Result<Marks, SchemaError>
    ensures { AreMarked values.old (map element children.now) (map column_tree columns.items) amount result }
{
    let mut made = Vec::new(alloc);
    let mut elements = Vec::new(alloc);
    let mut left = amount;
    for column in columns {
        let at = made.len();
        let child = child_at(children, at);
        let (new, said, rest) = marked(alloc, values, child, column, left)?;
        made.push(new)?;
        elements.push(said)?;
        left = rest;
    }
    Ok(Marks {
        columns: made,
        elements,
    })
}

/// Columns with the extensions that the children of the root denote, and what these say beside
/// them, where the extension metadata have at most so many bytes.
pub(crate) fn marked_columns<'a>(
    alloc: Global,
    values: &mut KeyValues<'_, 'a>,
    elements: &[SchemaElement<'a>],
    columns: Vec<SchemaColumn>,
    amount: u128,
) -> Result<Marks, SchemaError>
    ensures { AreMarked values.old (root_children (map element elements.now)) (map column_tree columns.items) amount result }
{
    let children = root_children(alloc, elements)?;
    marked_within(alloc, values, children.as_slice(), columns, amount)
}
