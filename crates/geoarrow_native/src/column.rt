//! The type of a column, written once for all encodings.
ghost use Rattle.std.proofs.Common.{◌≡◌, ◌⊎◌, ◌↔◌, None, IfOk, IfErr, MatchResult, refl, sym, subst};
ghost use Rattle.std.specs.Arc.{arc_value};
ghost use Rattle.geoarrow_layout.specs.declared.native_kinds.Kind.{Kind};
ghost use Rattle.geoarrow_layout.specs.declared.names.ExtensionName.{ExtensionName};
ghost use Rattle.geoarrow_layout.specs.Cited.{IsMemory, Tree, layout, name_text as text_of, tree};
ghost use Rattle.geoarrow_meta.specs.declared.metadata.Metadata.{Metadata as MetadataValue};
ghost use Rattle.geoarrow_meta.specs.Laws.{text_denotes_one};
ghost use Rattle.geoarrow_meta.specs.Read.{DenotesMetadata, TextRefusedAs};
ghost use Rattle.geoarrow_meta.specs.Written.{meta_value, normal, printed as printed_text, IsReadBack, NestsWithin};
ghost use Rattle.geoarrow_native.specs.Column.{Agrees, IsLayoutRefusal, ReadsAs, RefusesOther, written_field};

use crate::write::column_field;
use arrow_values::{ArrowError, DataType, ExtensionType, Field};
use geoarrow_layout::{Kind, kind_data_type};
use geoarrow_meta::Metadata;
use std::alloc::{AllocError, Global};
use std::sync::Arc;

/// How the geometries of a column are encoded: the parameter of `ColumnType`. A value holds coordinate type and dimension, if any.
pub trait ColumnEncoding: Copy {
    /// The extension name.
    const NAME: &'static str;

    // The extension name.
    ghost name: { ExtensionName };

    // A tree is accepted as that of a column in this encoding.
    ghost Accepts: { Tree → Self → Type 0 };

    /// `NAME`.
    fn encoding_name() -> &'static str
        ensures { result.now ≡ text_of name };

    /// The encoding as which a data type is accepted. Errs where it is accepted as none, with the error of the fault that
    /// the data type has under the extension name.
    fn read(alloc: Global, data_type: &DataType) -> Result<Self, ArrowError>
        ensures exact { MatchResult result (Accepts (tree data_type.now))
            (λ _. (e : Self) → Accepts (tree data_type.now) e → ⊥) }
        ensures refusal { IfErr result (λ e. IsMemory e ⊎ IsLayoutRefusal name (tree data_type.now) e) };

    /// What is unexpected in another; `None` if they are of one coordinate type and one dimension.
    fn difference(&self, other: &Self) -> Option<&'static str>
        ensures { (result ≡ None) ↔ Agrees self.now other.now };

    // A tree is accepted as one alone.
    ghost accepts_one: { (t : Tree) (a b : Self) → Accepts t a → Accepts t b → Agrees a b };
}

/// An encoding that decides the data type of its columns.
pub trait KindEncoding: ColumnEncoding {
    ghost kind_of: { Self → Kind };

    /// The kind of the columns.
    fn kind(&self) -> Kind
        ensures { result ≡ kind_of self.now };
}

/// The type of a column of geometries in an encoding, with metadata (GeoArrow, "Extension types"). `PointType`, `BoxType`,
/// `WkbType` and the other eight are this type at their encodings. Two are equal, and then hash equally, if encoding and
/// metadata are equal; metadata is compared by value.
///
/// ```rust
/// let metadata = Arc::new(alloc, Metadata::default())?;
/// let polygons = PolygonType::new(Dimension::XYZ, metadata);
/// assert_eq!(rt; polygons.coord_type(), CoordType::Separated);
/// ```
#[derive(PartialEq, Eq, Hash, Drop)]
pub struct ColumnType<E> {
    pub(crate) encoding: E,
    pub(crate) metadata: Arc<Metadata>,
}

impl<E> ColumnType<E> {
    /// The type with that metadata, otherwise unchanged.
    pub fn with_metadata(self, metadata: Arc<Metadata>) -> ColumnType<E>
        ensures encoding { result.encoding ≡ self.encoding }
        ensures metadata { result.metadata ≡ metadata }
    {
        ColumnType { metadata, ..self }
    }

    /// The metadata, in the `Arc` that was given.
    pub fn metadata(&self) -> &Arc<Metadata>
        ensures { result.now ≡ self.now.metadata }
    {
        &self.metadata
    }
}

impl<E: ColumnEncoding> ColumnType<E> {
    /// An equal type, which shares the metadata. Errs if the metadata has as many owners as can be counted.
    pub fn try_clone(&self, _alloc: Global) -> Result<ColumnType<E>, AllocError>
        ensures encoding { IfOk result (λ e. e.encoding ≡ self.now.encoding) }
        ensures metadata { IfOk result (λ e. arc_value e.metadata ≡ arc_value self.now.metadata) }
    {
        Ok(ColumnType {
            encoding: self.encoding,
            metadata: Arc::try_clone(&self.metadata)?,
        })
    }
}

impl<E: KindEncoding> ColumnType<E> {
    /// The data type of a column of this type (GeoArrow, "Native encoding", "Box", "Geometry"). Errs only when out of memory.
    ///
    /// ```rust
    /// let metadata = Arc::new(alloc, Metadata::default())?;
    /// let points = PointType::new(Dimension::XY, metadata).with_coord_type(CoordType::Interleaved);
    /// let xy = Field::new(alloc, "xy", DataType::Float64, false)?;
    /// let wanted = DataType::FixedSizeList(Box::new(alloc, xy)?, 2);
    /// assert!(rt; points.data_type(alloc)? == wanted);
    /// ```
    pub fn data_type(&self, alloc: Global) -> Result<DataType, AllocError>
        ensures { IfOk result (λ t. tree t ≡ layout (E.kind_of self.now.encoding)) }
    {
        kind_data_type(alloc, self.encoding.kind())
    }

    /// The field of a column of this type: that name and nullability, the data type of `data_type`, and as its metadata
    /// the extension name and the metadata's text, if there is one (GeoArrow, "Extension types"). It reads back as
    /// the type with its metadata in normal form, if `serde_json` reads what it printed, which it does if the CRS value is
    /// nested at most 100 levels. Errs only when out of memory.
    pub fn to_field(&self, alloc: Global, name: &str, nullable: bool) -> Result<Field, ArrowError>
        ensures written { IfOk result (λ f. f ≡ written_field name.now nullable
            (E.kind_of self.now.encoding) (arc_value self.now.metadata)) }
        ensures reads_back { IfOk result (λ f. IsReadBack (meta_value (arc_value self.now.metadata)) → ReadsAs f
            (E.kind_of self.now.encoding) (normal (arc_value self.now.metadata))) }
        ensures nested { IfOk result (λ f. NestsWithin 100 (arc_value self.now.metadata).crs.value → ReadsAs f
            (E.kind_of self.now.encoding) (normal (arc_value self.now.metadata))) }
        ensures refused { IfErr result IsMemory }
    {
        column_field(alloc, name, nullable, self.encoding.kind(), &self.metadata)
    }
}

impl<E: ColumnEncoding> ExtensionType for ColumnType<E> {
    const NAME: &'static str = E::NAME;

    type Metadata = Arc<Metadata>;

    ghost name_text = { text_of E.name };

    ghost metadata_of = { λ e. e.metadata };

    ghost printed = { λ m. printed_text (arc_value m) };

    ghost Value = { MetadataValue };

    ghost value_of = { arc_value };

    ghost Denotes = { DenotesMetadata };

    ghost Accepts = { λ t e. E.Accepts t e.encoding };

    ghost Agrees = { λ a b. a.encoding ≡ b.encoding };

    ghost RefusesText = { TextRefusedAs };

    ghost RefusesTree = { IsLayoutRefusal E.name };

    ghost RefusesUse = { λ _ t r. RefusesOther (E.Accepts t) (IsLayoutRefusal E.name t) r };

    ghost accepts_one = { λ t a b h k. E.accepts_one t a.encoding b.encoding h k };

    ghost denotes_one = { text_denotes_one };

    ghost accepts_by_shape = { λ t a e h k. subst (E.Accepts t) (sym k) h };

    ghost agrees_with_itself = { λ e. refl };

    fn extension_name() -> &'static str {
        E::encoding_name()
    }

    fn metadata(&self) -> &Arc<Metadata> {
        &self.metadata
    }

    fn serialize_metadata(&self, alloc: Global) -> Result<Option<String>, ArrowError> {
        self.metadata.serialize(alloc)
    }

    fn deserialize_metadata(
        alloc: Global,
        metadata: Option<&str>,
    ) -> Result<Arc<Metadata>, ArrowError> {
        Metadata::deserialize_shared(alloc, metadata)
    }

    fn supports_data_type(&self, alloc: Global, data_type: &DataType) -> Result<(), ArrowError> {
        let found = E::read(alloc, data_type)?;
        match self.encoding.difference(&found) {
            None => Ok(()),
            Some(text) => Err(ArrowError::schema_error(alloc, text)),
        }
    }

    fn try_new(
        alloc: Global,
        data_type: &DataType,
        metadata: Arc<Metadata>,
    ) -> Result<ColumnType<E>, ArrowError> {
        let encoding = E::read(alloc, data_type)?;
        Ok(ColumnType { encoding, metadata })
    }
}
