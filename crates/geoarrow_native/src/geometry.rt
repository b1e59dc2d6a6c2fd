//! The encoding of geometries of any kind and dimension.
ghost use Rattle.std.specs.Prelude.{◌≡◌, IfOk};
ghost use Rattle.std.specs.Arc.{arc_value};
ghost use Rattle.geoarrow_layout.specs.declared.dimensions.CoordType.TheVariants.{Separated};
ghost use Rattle.geoarrow_meta.specs.Read.{empty};
ghost use Rattle.geoarrow_layout.specs.declared.native_kinds.Kind.TheVariants as kinds;
ghost use Rattle.geoarrow_layout.specs.declared.names.ExtensionName.TheVariants as names;
ghost use Rattle.geoarrow_layout.specs.Cited.{Geometry as IsOfGeometry, geometry_same};
ghost use Rattle.geoarrow_native.specs.Agree.{same_geometry};

use crate::column::{ColumnEncoding, ColumnType, KindEncoding};
use arrow_values::{ArrowError, DataType};
use geoarrow_layout::{CoordType, Kind, parse_geometry};
use geoarrow_meta::Metadata;
use std::alloc::{AllocError, Global};
use std::fmt;
use std::sync::Arc;

/// The encoding of geometries of any kind and dimension: all have the same coordinate type.
#[derive(Clone, Copy, PartialEq, Eq, Hash, Drop)]
pub struct Geometry {
    pub(crate) coord_type: CoordType,
}

/// Geometries of any kind and dimension (GeoArrow, "Geometry"), of one coordinate type: each value is a member of a union.
///
/// ```rust
/// let geometries = GeometryType::try_default(alloc)?.with_coord_type(CoordType::Interleaved);
/// let data_type = geometries.data_type(alloc)?;
/// assert!(rt; matches!(data_type, DataType::Union(_, UnionMode::Dense)));
/// ```
pub type GeometryType = ColumnType<Geometry>;

impl ColumnType<Geometry> {
    /// The type of that metadata, with separated coordinates.
    pub fn new(metadata: Arc<Metadata>) -> GeometryType
        ensures coord_type { result.encoding.coord_type ≡ Separated }
        ensures metadata { result.metadata ≡ metadata }
    {
        let coord_type = CoordType::Separated;
        let encoding = Geometry { coord_type };
        ColumnType { encoding, metadata }
    }

    /// `new` of the default metadata. Errs only when out of memory.
    pub fn try_default(alloc: Global) -> Result<GeometryType, AllocError>
        ensures coord_type { IfOk result (λ e. e.encoding.coord_type ≡ Separated) }
        ensures metadata { IfOk result (λ e. arc_value e.metadata ≡ empty) }
    {
        Ok(GeometryType::new(Arc::new(alloc, Metadata::default())?))
    }

    /// The type with that coordinate type, otherwise unchanged.
    pub fn with_coord_type(self, coord_type: CoordType) -> GeometryType
        ensures coord_type { result.encoding.coord_type ≡ coord_type }
        ensures metadata { result.metadata ≡ self.metadata }
    {
        let encoding = Geometry { coord_type };
        ColumnType { encoding, ..self }
    }

    /// How the coordinates are stored.
    pub fn coord_type(&self) -> CoordType
        ensures { result ≡ self.now.encoding.coord_type }
    {
        self.encoding.coord_type
    }
}

impl fmt::Debug for ColumnType<Geometry> {
    fn fmt<W: fmt::Write>(&self, f: &mut fmt::Formatter<W>) -> fmt::Result {
        f.debug_struct("GeometryType")
            .field("coord_type", &self.encoding.coord_type)
            .field("metadata", &self.metadata)
            .finish()
    }
}

impl ColumnEncoding for Geometry {
    const NAME: &'static str = "geoarrow.geometry";

    ghost name = { names.Geometry };

    ghost Accepts = { λ t e. IsOfGeometry t e.coord_type };

    ghost accepts_one = { λ t a b h k. same_geometry a b (geometry_same t a.coord_type b.coord_type h k) };

    fn encoding_name() -> &'static str {
        Self::NAME
    }

    fn read(alloc: Global, data_type: &DataType) -> Result<Geometry, ArrowError> {
        let coord_type = parse_geometry(data_type).map_err(|fault| fault.into_arrow_error(alloc))?;
        Ok(Geometry { coord_type })
    }

    fn difference(&self, other: &Geometry) -> Option<&'static str> {
        (self.coord_type != other.coord_type).then_some("unexpected coordinate type")
    }
}

impl KindEncoding for Geometry {
    ghost kind_of = { λ e. kinds.Geometry e.coord_type };

    fn kind(&self) -> Kind {
        Kind::Geometry(self.coord_type)
    }
}
