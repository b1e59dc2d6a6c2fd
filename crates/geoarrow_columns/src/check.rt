//! What the columns of a schema hold.
ghost use Rattle.std.specs.Prelude.{IfOk, IfErr};
ghost use Rattle.arrow_values.specs.Errors.{IsGeoMemory};
ghost use Rattle.geoarrow_columns.specs.Report.{IsColumnOf, IsFaultyBy, IsReport, IsVariantOf};

use arrow_values::{ArrowError, Field, GeoArrowError, GeoArrowResult};
use geoarrow_meta::Metadata;
use geoarrow_schema::{GeoArrowType, infer_kind};
use std::alloc::{AllocError, Global};

/// What a column holds (docs/FORMAT.md, 1.7).
///
/// ```rust
/// let id = Field::new(alloc, "id", DataType::Int64, false)?;
/// assert!(rt; check_column(alloc, &id)? == Column::Other);
/// ```
#[derive(Debug, PartialEq, Eq, Drop)]
pub enum Column {
    /// Geometries: a GeoArrow type is read from the field.
    Geometry(GeoArrowType),
    /// The field has no GeoArrow name, and this type is inferred from its data type.
    Inferred(GeoArrowType),
    /// The field has no GeoArrow name, and no type is inferred from its data type.
    Other,
    /// The field is refused.
    Faulty(ColumnFault),
}

/// Why a column is refused: the variant of `GeoArrowError` with which its field is refused.
///
/// ```rust
/// let named = GeoArrowType::Wkb(WkbType::try_default(alloc)?).to_field(alloc, "geom", true)?;
/// let found = check_column(alloc, &named.with_data_type(DataType::Utf8))?;
/// assert!(rt; matches!(found, Column::Faulty(ColumnFault::InvalidGeoArrow)));
/// ```
#[derive(Debug, Clone, Copy, PartialEq, Eq)]
pub enum ColumnFault {
    /// The data type or the metadata text does not match the field's GeoArrow name; or the field has no GeoArrow name and
    /// the metadata text is malformed.
    Arrow,
    /// The field has the name of well-known binary or text, and its data type is none of those of that name.
    InvalidGeoArrow,
}

/// What each column of a schema holds: one entry for each field, in order, which depends only on its own field, so that a
/// faulty column never hides the next. Errs only when out of memory.
///
/// ```rust
/// let id = Field::new(alloc, "id", DataType::Int64, false)?;
/// let geometry = GeoArrowType::Wkb(WkbType::try_default(alloc)?).to_field(alloc, "geom", true)?;
/// let columns = check_columns(alloc, &[id, geometry])?;
/// assert!(rt; matches!(columns.as_slice(), [Column::Other, Column::Geometry(_)]));
/// ```
#[tactic(auto, using(crate::proofs::Reports::report_next))]
pub fn check_columns(alloc: Global, fields: &[Field]) -> Result<Vec<Column>, AllocError>
    ensures { IfOk result (λ columns. IsReport fields.now columns.items) }
{
    let mut columns = Vec::with_capacity(alloc, fields.len())?;
    for field in fields {
        columns.push(check_column(alloc, field)?)?;
    }
    Ok(columns)
}

/// What one column holds, as `check_columns` says it. Errs only when out of memory.
pub fn check_column(alloc: Global, field: &Field) -> Result<Column, AllocError>
    ensures { IfOk result (IsColumnOf field.now) }
{
    match find_column(alloc, field) {
        Ok(column) => Ok(column),
        Err(error) => Ok(Column::Faulty(ColumnFault::of_error(&error)?)),
    }
}

/// What a column holds that is not refused. Errs as its field is refused.
#[tactic(auto, using(crate::proofs::Reports::taken_for_none, crate::proofs::Reports::named_faulty, crate::proofs::Reports::unread_faulty))]
fn find_column(alloc: Global, field: &Field) -> GeoArrowResult<Column>
    ensures ok { IfOk result (IsColumnOf field.now) }
    ensures err { IfErr result (IsFaultyBy field.now) }
{
    if let Some(found) = GeoArrowType::from_extension_field(alloc, field)? {
        return Ok(Column::Geometry(found));
    }
    let text = field.extension_type_metadata();
    let Some(kind) = infer_kind(field.data_type()) else {
        Metadata::deserialize(alloc, text)?;
        return Ok(Column::Other);
    };
    let metadata = Metadata::deserialize_shared(alloc, text)?;
    Ok(Column::Inferred(GeoArrowType::from_kind(kind, metadata)))
}

impl ColumnFault {
    /// The fault of a field that is refused by an error: `InvalidGeoArrow` for that variant, and `Arrow` for any other.
    /// Errs where the error is out-of-memory.
    pub fn of_error(error: &GeoArrowError) -> Result<ColumnFault, AllocError>
        ensures memory { IfOk result (λ _. ¬ IsGeoMemory error.now) }
        ensures variant { IfOk result (λ fault. IsVariantOf error.now fault) }
        ensures refused { IfErr result (λ _. IsGeoMemory error.now) }
    {
        match error {
            GeoArrowError::Arrow(ArrowError::OutOfMemory) => Err(AllocError),
            GeoArrowError::InvalidGeoArrow(_) => Ok(ColumnFault::InvalidGeoArrow),
            _ => Ok(ColumnFault::Arrow),
        }
    }
}
