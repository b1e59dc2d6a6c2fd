//! The strict layouts of encodings.
ghost use Rattle.std.specs.Prelude.{◌≡◌, IfOk, option_map, string_bytes};
ghost use Rattle.arrow_values.specs.View.{tree, field_trees};
ghost use Rattle.arrow_columns.specs.Column.{type_tree, column_tree};
ghost use Rattle.parquet_columns.specs.Layouts.{layout};
ghost use Rattle.geoparquet.specs.Sources.{element_view};
ghost use Rattle.geoarrow_layout.specs.Kinds.{levels_of};
ghost use Rattle.geoparquet.specs.StrictLayouts.{kind_encoded, are_doubles, is_ordinate, height, ordinates, coordinate, item_of, coordinate_below, is_binary, native_layout, layout_of_tree, layout_of, dimension_with, native_below, element_layout, layout_by, is_not_judged, is_laid_out, lists_text, ordinates_text, element_text, layout_text};

use arrow_columns::{AnyType, SchemaColumn};
use arrow_values::{DataType, Field};
use column_check::shown;
use geoarrow_layout::{Dimension, NativeKind};
use parquet_columns::{ElementLayout, RootElement, is_unreadable};
use std::alloc::{AllocError, Global};

/// A strict layout: of bytes, or of a native kind with separated coordinates of that dimension.
#[derive(Clone, Copy, Debug, PartialEq, Eq)]
pub(crate) enum Layout {
    /// Bytes.
    Binary,
    /// Coordinates of doubles, under as many lists as the kind has.
    Native(NativeKind, Dimension),
}

/// Returns the kind whose columns a native encoding is of.
fn kind_encoded(text: &str) -> Option<NativeKind>
    ensures { result ≡ kind_encoded text.now }
{
    match text {
        "point" => Some(NativeKind::Point),
        "linestring" => Some(NativeKind::LineString),
        "polygon" => Some(NativeKind::Polygon),
        "multipoint" => Some(NativeKind::MultiPoint),
        "multilinestring" => Some(NativeKind::MultiLineString),
        "multipolygon" => Some(NativeKind::MultiPolygon),
        _ => None,
    }
}

/// Whether a field is an ordinate of that name.
fn is_ordinate(field: &Field, name: &str) -> bool
    ensures { result ≡ is_ordinate name.now field.now.name field.now.tree field.now.nullable }
{
    are_doubles(field.data_type()) && (!field.is_nullable() && field.name() == name)
}

/// Whether a type is that of doubles.
fn are_doubles(data_type: &DataType) -> bool
    ensures { result ≡ are_doubles (tree data_type.now) }
{
    matches!(data_type, DataType::Float64)
}

/// Returns the dimension of ordinates by the fields behind x and y.
fn height(fields: &[Field]) -> Option<Dimension>
    ensures { result ≡ height (field_trees fields.now) }
{
    let [z, more @ ..] = fields else {
        return Some(Dimension::XY);
    };
    if !more.is_empty() || !is_ordinate(z, "z") {
        return None;
    }
    Some(Dimension::XYZ)
}

/// Returns the dimension of the ordinates that some fields are.
fn ordinates(fields: &[Field]) -> Option<Dimension>
    ensures { result ≡ ordinates (field_trees fields.now) }
{
    let [x, past_x @ ..] = fields else {
        return None;
    };
    let [y, past_y @ ..] = past_x else {
        return None;
    };
    if !is_ordinate(x, "x") || !is_ordinate(y, "y") {
        return None;
    }
    height(past_y)
}

/// Returns the dimension of a coordinate.
fn coordinate(data_type: &DataType) -> Option<Dimension>
    ensures { result ≡ coordinate (tree data_type.now) }
{
    match data_type {
        DataType::Struct(fields) => ordinates(fields.as_slice()),
        _ => None,
    }
}

/// Returns the type of the items of a list.
fn item_of(data_type: &DataType) -> Option<&DataType>
    ensures { option_map (λ t. tree t.now) result ≡ item_of (tree data_type.now) }
{
    match data_type {
        DataType::List(item) | DataType::LargeList(item) => Some(item.data_type()),
        _ => None,
    }
}

/// Returns the dimension of the coordinates below a list.
fn below_one(data_type: &DataType) -> Option<Dimension>
    ensures { result ≡ coordinate_below 1 (tree data_type.now) }
{
    coordinate(item_of(data_type)?)
}

/// Returns the dimension of the coordinates below two lists.
fn below_two(data_type: &DataType) -> Option<Dimension>
    ensures { result ≡ coordinate_below 2 (tree data_type.now) }
{
    below_one(item_of(data_type)?)
}

/// Returns the dimension of the coordinates below as many lists as a kind has.
fn dimension_of(data_type: &DataType, kind: NativeKind) -> Option<Dimension>
    ensures { result ≡ coordinate_below (levels_of kind) (tree data_type.now) }
{
    match kind {
        NativeKind::Point => coordinate(data_type),
        NativeKind::LineString | NativeKind::MultiPoint | NativeKind::GeometryCollection => {
            below_one(data_type)
        }
        NativeKind::Polygon | NativeKind::MultiLineString => below_two(data_type),
        NativeKind::MultiPolygon => below_two(item_of(data_type)?),
    }
}

/// Returns the strict layout of a native kind, where a type has it.
fn native_layout(data_type: &DataType, kind: NativeKind) -> Option<Layout>
    ensures { result ≡ native_layout (tree data_type.now) kind }
{
    Some(Layout::Native(kind, dimension_of(data_type, kind)?))
}

/// Whether a type is one of bytes.
fn is_binary(data_type: &DataType) -> bool
    ensures { result ≡ is_binary (tree data_type.now) }
{
    matches!(
        data_type,
        DataType::Binary | DataType::LargeBinary | DataType::BinaryView
    )
}

/// Returns the strict layout of an encoding, where a data type has it.
fn layout_of_tree(encoding: &str, data_type: &DataType) -> Option<Layout>
    ensures { result ≡ layout_of_tree encoding.now (tree data_type.now) }
{
    if encoding == "WKB" {
        return is_binary(data_type).then_some(Layout::Binary);
    }
    native_layout(data_type, kind_encoded(encoding)?)
}

/// Returns the strict layout of an encoding (docs/FORMAT.md, 5.5), where a type has it.
fn layout_of(encoding: &str, column_type: &AnyType) -> Option<Layout>
    ensures { result ≡ layout_of encoding.now (type_tree column_type.now) }
{
    match column_type {
        AnyType::Data(data_type) => layout_of_tree(encoding, data_type),
        AnyType::Other(_) => None,
    }
}

/// Returns the dimension of coordinates with z or without.
fn dimension_with(has_z: bool) -> Dimension
    ensures { result ≡ dimension_with has_z }
{
    if has_z { Dimension::XYZ } else { Dimension::XY }
}

/// Returns how many lists the coordinates of a kind are below.
fn levels(kind: NativeKind) -> usize
    ensures { result ≡ levels_of kind }
{
    match kind {
        NativeKind::Point => 0,
        NativeKind::LineString | NativeKind::MultiPoint | NativeKind::GeometryCollection => 1,
        NativeKind::Polygon | NativeKind::MultiLineString => 2,
        NativeKind::MultiPolygon => 3,
    }
}

/// Returns the strict layout of a native kind, where coordinates are below as many lists.
fn native_below(lists: usize, has_z: bool, kind: NativeKind) -> Option<Layout>
    ensures { result ≡ native_below lists has_z kind }
{
    if levels(kind) == lists {
        Some(Layout::Native(kind, dimension_with(has_z)))
    } else {
        None
    }
}

/// Returns the strict layout of an encoding, where an element has it.
fn element_layout(encoding: &str, found: ElementLayout) -> Option<Layout>
    ensures { result ≡ element_layout encoding.now (layout found) }
{
    match found {
        ElementLayout::Bytes => (encoding == "WKB").then_some(Layout::Binary),
        ElementLayout::Coordinates(lists, has_z) => {
            native_below(lists, has_z, kind_encoded(encoding)?)
        }
        ElementLayout::Other(_, _) | ElementLayout::Unjudged => None,
    }
}

/// Returns the strict layout of an encoding (docs/FORMAT.md, 5.5), where a column has it: its
/// element, if there is one, or else its type.
pub(crate) fn layout_by(
    encoding: &str,
    column: &SchemaColumn,
    element: Option<&RootElement>,
) -> Option<Layout>
    ensures { result ≡ layout_by encoding.now (column_tree column.now) (option_map (λ e. element_view e.now) element.entry) }
{
    let Some(element) = element else {
        return layout_of(encoding, &column.data_type);
    };
    if is_unreadable(&column.data_type) {
        return None;
    }
    element_layout(encoding, element.layout)
}

/// Whether a layout is not judged.
fn is_not_judged(found: ElementLayout) -> bool
    ensures { result ≡ is_not_judged (layout found) }
{
    matches!(found, ElementLayout::Unjudged)
}

/// Returns whether a column has the strict layout of an encoding, or is not judged: it is not read, or
/// an element of it is not stored as its type asks.
pub(crate) fn is_laid_out(
    encoding: &str,
    column: &SchemaColumn,
    element: Option<&RootElement>,
) -> bool
    ensures { result ≡ is_laid_out encoding.now (column_tree column.now) (option_map (λ e. element_view e.now) element.entry) }
{
    let Some(element) = element else {
        return layout_of(encoding, &column.data_type).is_some();
    };
    is_unreadable(&column.data_type)
        || (is_not_judged(element.layout) || element_layout(encoding, element.layout).is_some())
}

/// The words before the ordinates of coordinates below so many lists.
fn lists_text(lists: usize) -> &'static str
    ensures { result.now ≡ lists_text lists }
{
    match lists {
        0 => "group of ",
        1 => "LIST of ",
        2 => "LIST of LIST of ",
        _ => "LIST of LIST of LIST of ",
    }
}

/// The ordinates of coordinates with z or without.
fn ordinates_text(has_z: bool) -> &'static str
    ensures { result.now ≡ ordinates_text has_z }
{
    if has_z { "x, y, z" } else { "x, y" }
}

/// Returns the layout of an element as a finding shows it. Errs only when out of memory.
fn element_text(alloc: Global, found: ElementLayout) -> Result<String, AllocError>
    ensures { IfOk result (λ text. string_bytes text ≡ element_text (layout found)) }
{
    match found {
        ElementLayout::Bytes => String::from_str(alloc, "BYTE_ARRAY"),
        ElementLayout::Coordinates(lists, has_z) => {
            let words = lists_text(lists);
            let ordinates = ordinates_text(has_z);
            format!(in alloc; "{words}{ordinates}")
        }
        ElementLayout::Other(repetition, kind) => format!(in alloc; "{repetition} {kind}"),
        ElementLayout::Unjudged => Ok(String::new(alloc)),
    }
}

/// Returns the layout of a column as a finding shows it: that of its element, if there is one, or
/// else its type. Errs only when out of memory.
pub(crate) fn layout_text(
    alloc: Global,
    column: &SchemaColumn,
    element: Option<&RootElement>,
) -> Result<String, AllocError>
    ensures { IfOk result (λ text. string_bytes text ≡ layout_text (column_tree column.now) (option_map (λ e. element_view e.now) element.entry)) }
{
    let Some(element) = element else {
        let text = column.data_type.notation(alloc)?;
        return shown(alloc, text.as_str());
    };
    element_text(alloc, element.layout)
}
