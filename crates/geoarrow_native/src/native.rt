//! The native encoding, written once for all shapes.
ghost use Rattle.std.specs.Prelude.{◌≡◌};
ghost use Rattle.geoarrow_layout.specs.declared.dimensions.CoordType.TheVariants.{Separated};
ghost use Rattle.geoarrow_layout.specs.declared.native_kinds.Kind.TheVariants as kinds;
ghost use Rattle.geoarrow_layout.specs.declared.names.ExtensionName.TheVariants as names;
ghost use Rattle.geoarrow_layout.specs.Cited.{Native as IsOfKind, any_native_same};
ghost use Rattle.geoarrow_native.specs.Agree.{same_native};

use crate::column::{ColumnEncoding, ColumnType, KindEncoding};
use crate::shape::NativeShape;
use arrow_values::{ArrowError, DataType};
use geoarrow_layout::{CoordType, Dimension, Kind, parse_native};
use geoarrow_meta::Metadata;
use std::alloc::Global;
use std::fmt;
use std::marker::PhantomData;
use std::sync::Arc;

/// The native encoding of a shape (GeoArrow, "Native encoding"): geometries of one kind, coordinate type and dimension.
#[derive(Drop)]
#[derive_where(Clone, Copy, PartialEq, Eq, Hash)]
pub struct Native<S> {
    pub(crate) coord_type: CoordType,
    pub(crate) dimension: Dimension,
    #[derive_where(skip)]
    pub(crate) shape: PhantomData<S>,
}

/// A native type of a shape. `PointType`, `LineStringType` and the other five are this type at their shapes.
pub type NativeType<S> = ColumnType<Native<S>>;

impl<S: NativeShape> ColumnType<Native<S>> {
    /// The type of that dimension and metadata, with separated coordinates.
    pub fn new(dimension: Dimension, metadata: Arc<Metadata>) -> ColumnType<Native<S>>
        ensures coord_type { result.encoding.coord_type ≡ Separated }
        ensures dimension { result.encoding.dimension ≡ dimension }
        ensures metadata { result.metadata ≡ metadata }
    {
        let encoding = Native {
            coord_type: CoordType::Separated,
            dimension,
            shape: PhantomData,
        };
        ColumnType { encoding, metadata }
    }

    /// The type with that coordinate type, otherwise unchanged.
    pub fn with_coord_type(mut self, coord_type: CoordType) -> ColumnType<Native<S>>
        ensures coord_type { result.encoding.coord_type ≡ coord_type }
        ensures dimension { result.encoding.dimension ≡ self.encoding.dimension }
        ensures metadata { result.metadata ≡ self.metadata }
    {
        self.encoding.coord_type = coord_type;
        self
    }

    /// The type with that dimension, otherwise unchanged.
    pub fn with_dimension(mut self, dimension: Dimension) -> ColumnType<Native<S>>
        ensures coord_type { result.encoding.coord_type ≡ self.encoding.coord_type }
        ensures dimension { result.encoding.dimension ≡ dimension }
        ensures metadata { result.metadata ≡ self.metadata }
    {
        self.encoding.dimension = dimension;
        self
    }

    /// How the coordinates are stored.
    pub fn coord_type(&self) -> CoordType
        ensures { result ≡ self.now.encoding.coord_type }
    {
        self.encoding.coord_type
    }

    /// The dimension of the coordinates.
    pub fn dimension(&self) -> Dimension
        ensures { result ≡ self.now.encoding.dimension }
    {
        self.encoding.dimension
    }

    /// The three parts.
    pub fn into_inner(self) -> (CoordType, Dimension, Arc<Metadata>)
        ensures { result ≡ (self.encoding.coord_type, self.encoding.dimension, self.metadata) }
    {
        let encoding = self.encoding;
        (encoding.coord_type, encoding.dimension, self.metadata)
    }
}

impl<S: NativeShape> fmt::Debug for ColumnType<Native<S>> {
    fn fmt<W: fmt::Write>(&self, f: &mut fmt::Formatter<W>) -> fmt::Result {
        f.debug_struct(S::TYPE)
            .field("coord_type", &self.encoding.coord_type)
            .field("dimension", &self.encoding.dimension)
            .field("metadata", &self.metadata)
            .finish()
    }
}

impl<S: NativeShape> ColumnEncoding for Native<S> {
    const NAME: &'static str = S::NAME;

    ghost name = { names.Native S.KIND };

    ghost Accepts = { λ t e. IsOfKind t S.KIND e.coord_type e.dimension };

    ghost accepts_one = { λ t a b h k. same_native a b
        (any_native_same S.KIND t a.coord_type b.coord_type a.dimension b.dimension h k) };

    fn encoding_name() -> &'static str {
        S::shape_name()
    }

    fn read(alloc: Global, data_type: &DataType) -> Result<Native<S>, ArrowError> {
        let found = parse_native(S::KIND, data_type);
        let (coord_type, dimension) = found.map_err(|fault| fault.into_arrow_error(alloc))?;
        Ok(Native {
            coord_type,
            dimension,
            shape: PhantomData,
        })
    }

    fn difference(&self, other: &Native<S>) -> Option<&'static str> {
        if self.coord_type != other.coord_type {
            return Some("unexpected coordinate type");
        }
        (self.dimension != other.dimension).then_some("unexpected dimension")
    }
}

impl<S: NativeShape> KindEncoding for Native<S> {
    ghost kind_of = { λ e. kinds.Native S.KIND e.coord_type e.dimension };

    fn kind(&self) -> Kind {
        Kind::Native(S::KIND, self.coord_type, self.dimension)
    }
}
