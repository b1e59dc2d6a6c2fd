//! The encoding of boxes.
ghost use Rattle.std.specs.Prelude.{◌≡◌};
ghost use Rattle.geoarrow_layout.specs.declared.native_kinds.Kind.TheVariants as kinds;
ghost use Rattle.geoarrow_layout.specs.declared.names.ExtensionName.TheVariants as names;
ghost use Rattle.geoarrow_layout.specs.Cited.{BoxShape, box_shape_same};
ghost use Rattle.geoarrow_native.specs.Agree.{same_box};

use crate::column::{ColumnEncoding, ColumnType, KindEncoding};
use arrow_values::{ArrowError, DataType};
use geoarrow_layout::{Dimension, Kind, parse_box};
use geoarrow_meta::Metadata;
use std::alloc::Global;
use std::fmt;
use std::sync::Arc;

/// The encoding of boxes: all have the same dimension.
#[derive(Clone, Copy, PartialEq, Eq, Hash, Drop)]
pub struct Rect {
    pub(crate) dimension: Dimension,
}

/// Boxes (GeoArrow, "Box"): each value is the least and the greatest value of each dimension.
///
/// ```rust
/// let mut fields = Vec::new(alloc);
/// for &name in [
///     FixedName::Xmin,
///     FixedName::Ymin,
///     FixedName::Xmax,
///     FixedName::Ymax,
/// ]
/// .iter()
/// {
///     fields.push(Field::fixed(alloc, name, DataType::Float64, false))?;
/// }
/// let boxes = BoxType::new(Dimension::XY, Arc::new(alloc, Metadata::default())?);
/// assert!(rt; boxes.data_type(alloc)? == DataType::Struct(Fields::from(fields)));
/// ```
pub type BoxType = ColumnType<Rect>;

/// The name of `BoxType` after the variant `GeoArrowType::Rect`.
pub type RectType = BoxType;

impl ColumnType<Rect> {
    /// The type of that dimension and metadata.
    pub fn new(dimension: Dimension, metadata: Arc<Metadata>) -> BoxType
        ensures dimension { result.encoding.dimension ≡ dimension }
        ensures metadata { result.metadata ≡ metadata }
    {
        let encoding = Rect { dimension };
        ColumnType { encoding, metadata }
    }

    /// The type with that dimension, otherwise unchanged.
    pub fn with_dimension(self, dimension: Dimension) -> BoxType
        ensures dimension { result.encoding.dimension ≡ dimension }
        ensures metadata { result.metadata ≡ self.metadata }
    {
        let encoding = Rect { dimension };
        ColumnType { encoding, ..self }
    }

    /// The dimension of the boxes.
    pub fn dimension(&self) -> Dimension
        ensures { result ≡ self.now.encoding.dimension }
    {
        self.encoding.dimension
    }
}

impl fmt::Debug for ColumnType<Rect> {
    fn fmt<W: fmt::Write>(&self, f: &mut fmt::Formatter<W>) -> fmt::Result {
        f.debug_struct("BoxType")
            .field("dimension", &self.encoding.dimension)
            .field("metadata", &self.metadata)
            .finish()
    }
}

impl ColumnEncoding for Rect {
    const NAME: &'static str = "geoarrow.box";

    ghost name = { names.Rect };

    ghost Accepts = { λ t e. BoxShape t e.dimension };

    ghost accepts_one = { λ t a b h k. same_box a b (box_shape_same t a.dimension b.dimension h k) };

    fn encoding_name() -> &'static str {
        Self::NAME
    }

    fn read(alloc: Global, data_type: &DataType) -> Result<Rect, ArrowError> {
        let dimension = parse_box(data_type).map_err(|fault| fault.into_arrow_error(alloc))?;
        Ok(Rect { dimension })
    }

    fn difference(&self, other: &Rect) -> Option<&'static str> {
        (self.dimension != other.dimension).then_some("unexpected dimension")
    }
}

impl KindEncoding for Rect {
    ghost kind_of = { λ e. kinds.Rect e.dimension };

    fn kind(&self) -> Kind {
        Kind::Rect(self.dimension)
    }
}
