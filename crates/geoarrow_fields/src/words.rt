//! The words of the answers.
ghost use Rattle.std.specs.Prelude.{◌≡◌, ◌++◌, codes, IfOk, string_bytes};
ghost use Rattle.geoarrow_layout.specs.Kinds.{coord_type_of, dimension_of};
ghost use Rattle.geoarrow_layout.specs.KindWords.{coord_type_word, dimension_word};
ghost use Rattle.geoarrow_fields.specs.Answer.{type_text, error_text, column_text, inferred_text};

use geoarrow_columns::{Column, ColumnFault};
use geoarrow_layout::{CoordType, Dimension, Kind, kind_word};
use geoarrow_schema::GeoArrowType;
use std::alloc::{AllocError, Global};

/// The capacity for the words of a type and what comes before them, without its metadata.
const WORDS_ROOM: usize = 48;

/// A type, after a text: kind, coordinate type, dimension and metadata.
pub(crate) fn type_after(
    alloc: Global,
    before: &str,
    found: &GeoArrowType,
) -> Result<String, AllocError>
    ensures { IfOk result (λ text. string_bytes text ≡ before.now ++ type_text found.now) }
{
    let Ok(written) = found.metadata().serialize(alloc) else {
        return Err(AllocError);
    };
    let metadata = written.as_deref().unwrap_or("-");
    let room = metadata.len().saturating_add(WORDS_ROOM);
    let mut text = String::with_capacity(alloc, room)?;
    text.push_str(before)?;
    let kind = found.kind();
    text.push_str(kind_word(kind))?;
    text.push_str(layout_words(kind))?;
    text.push_str(metadata)?;
    Ok(text)
}

/// The words of the coordinate type and of the dimension of a kind, with the blanks around them: one text, so that it is copied at once.
fn layout_words(kind: Kind) -> &'static str
    ensures { result.now ≡ codes " " ++ coord_type_word (coord_type_of kind) ++ codes " " ++ dimension_word (dimension_of kind) ++ codes " " }
{
    match kind {
        Kind::Native(_, CoordType::Interleaved, Dimension::XY) => " interleaved XY ",
        Kind::Native(_, CoordType::Interleaved, Dimension::XYZ) => " interleaved XYZ ",
        Kind::Native(_, CoordType::Interleaved, Dimension::XYM) => " interleaved XYM ",
        Kind::Native(_, CoordType::Interleaved, Dimension::XYZM) => " interleaved XYZM ",
        Kind::Native(_, CoordType::Separated, Dimension::XY) | Kind::Rect(Dimension::XY) =>
            " separated XY ",
        Kind::Native(_, CoordType::Separated, Dimension::XYZ) | Kind::Rect(Dimension::XYZ) =>
            " separated XYZ ",
        Kind::Native(_, CoordType::Separated, Dimension::XYM) | Kind::Rect(Dimension::XYM) =>
            " separated XYM ",
        Kind::Native(_, CoordType::Separated, Dimension::XYZM) | Kind::Rect(Dimension::XYZM) =>
            " separated XYZM ",
        Kind::Geometry(CoordType::Interleaved) => " interleaved - ",
        Kind::Geometry(CoordType::Separated) => " separated - ",
        Kind::Wkb(_) | Kind::Wkt(_) => " - - ",
    }
}

/// What a column holds, as `columns` says it.
pub(crate) fn column_text(alloc: Global, column: &Column) -> Result<String, AllocError>
    ensures { IfOk result (λ text. string_bytes text ≡ column_text column.now) }
{
    match column {
        Column::Geometry(found) => type_after(alloc, "geometry ", found),
        Column::Inferred(found) => type_after(alloc, "inferred ", found),
        Column::Other => String::from_str(alloc, "other"),
        Column::Faulty(ColumnFault::Arrow) => String::from_str(alloc, "faulty arrow"),
        Column::Faulty(ColumnFault::InvalidGeoArrow) => String::from_str(alloc, "faulty invalid"),
    }
}

/// What a column holds, as `infer` says it.
pub(crate) fn inferred_text(alloc: Global, column: &Column) -> Result<String, AllocError>
    ensures { IfOk result (λ text. string_bytes text ≡ inferred_text column.now) }
{
    match column {
        Column::Geometry(found) | Column::Inferred(found) => type_after(alloc, "", found),
        Column::Other => String::from_str(alloc, "error invalid"),
        Column::Faulty(fault) => String::from_str(alloc, error_text(*fault)),
    }
}

/// Why a field is refused.
pub(crate) fn error_text(fault: ColumnFault) -> &'static str
    ensures { result.now ≡ error_text fault }
{
    match fault {
        ColumnFault::Arrow => "error arrow",
        ColumnFault::InvalidGeoArrow => "error invalid",
    }
}
