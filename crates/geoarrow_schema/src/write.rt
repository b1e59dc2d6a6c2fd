//! How a type is written as a field.
ghost use Rattle.std.specs.Prelude.{◌≡◌, IfOk, IfErr, IsOk};
ghost use Rattle.geoarrow_layout.specs.Cited.{IsMemory, IsStructured, layout, tree};
ghost use Rattle.geoarrow_meta.specs.Written.{meta_value, normal, IsReadBack, NestsWithin};
ghost use Rattle.geoarrow_native.specs.Column.{ReadsAs};
ghost use Rattle.geoarrow_schema.specs.Types.{kind_of, meta_of};
ghost use Rattle.geoarrow_schema.specs.Reads.{field_of};

use crate::types::GeoArrowType;
use arrow_values::{ArrowError, DataType, Field};
use geoarrow_layout::kind_data_type;
use geoarrow_native::column_field;
use std::alloc::{AllocError, Global};

impl GeoArrowType {
    /// The data type of a column of this type (GeoArrow, "Native encoding", "Serialized encodings"). A data type has
    /// neither the extension name nor the metadata, which only a field has; `to_field` writes all three. Errs only when
    /// out of memory, and never for well-known binary and text.
    ///
    /// ```rust
    /// let metadata = Arc::new(alloc, Metadata::default())?;
    /// let points = GeoArrowType::Point(PointType::new(Dimension::XY, metadata));
    /// assert!(rt; matches!(points.to_data_type(alloc)?, DataType::Struct(_)));
    /// ```
    #[inline(always)]
    pub fn to_data_type(&self, alloc: Global) -> Result<DataType, AllocError>
        ensures layout { IfOk result (λ t. tree t ≡ layout (kind_of self.now)) }
        ensures no_memory { ¬ IsStructured (kind_of self.now) → IsOk result }
    {
        kind_data_type(alloc, self.kind())
    }

    /// The data type of `to_data_type`, of a type that is not needed any more. Errs as that does.
    pub fn into_data_type(self, alloc: Global) -> Result<DataType, AllocError>
        ensures layout { IfOk result (λ t. tree t ≡ layout (kind_of self)) }
        ensures no_memory { ¬ IsStructured (kind_of self) → IsOk result }
    {
        self.to_data_type(alloc)
    }

    /// The field of a column of this type: that name and nullability, the data type of `to_data_type`, and as its metadata
    /// the extension name and the metadata's text, if there is one (GeoArrow, "Extension types"). It reads back as this
    /// type with its metadata in normal form, if `serde_json` reads what it printed, which it does if the CRS value is
    /// nested at most 100 levels. Errs only when out of memory.
    ///
    /// ```rust
    /// let metadata = Arc::new(alloc, Metadata::default())?;
    /// let points = GeoArrowType::Point(PointType::new(Dimension::XY, metadata));
    /// let field = points.to_field(alloc, "geometry", true)?;
    /// assert_eq!(rt; field.name(), "geometry");
    /// assert!(rt; field.is_nullable());
    /// assert_eq!(rt; field.extension_type_name(), Some("geoarrow.point"));
    /// ```
    pub fn to_field(&self, alloc: Global, name: &str, nullable: bool) -> Result<Field, ArrowError>
        ensures written { IfOk result (λ f. f ≡ field_of name.now nullable self.now) }
        ensures reads_back { IfOk result (λ f. IsReadBack (meta_value (meta_of self.now))
            → ReadsAs f (kind_of self.now) (normal (meta_of self.now))) }
        ensures nested { IfOk result (λ f. NestsWithin 100 (meta_of self.now).crs.value
            → ReadsAs f (kind_of self.now) (normal (meta_of self.now))) }
        ensures refused { IfErr result IsMemory }
    {
        column_field(alloc, name, nullable, self.kind(), self.metadata())
    }
}
