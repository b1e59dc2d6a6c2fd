//! The normal form of a type, and of a field that holds one.
ghost use Rattle.std.specs.Prelude.{◌≡◌, ◌↔◌, Ok, None, IsOk, IfOk, IfErr, IfSome, IsTrue};
ghost use Rattle.geoarrow_layout.specs.Cited.{Accepted, IsMemory, layout};
ghost use Rattle.geoarrow_meta.specs.Written.{normal};
ghost use Rattle.geoarrow_schema.specs.declared.types.GeoArrowType.{GeoArrowType};
ghost use Rattle.geoarrow_schema.specs.Types.{kind_of, meta_of};
ghost use Rattle.geoarrow_schema.specs.Reads.{HasGeoArrowName, Reads, IsRefusedBy, writes};
ghost use Rattle.geoarrow_schema.specs.Normal.{normal_of, rewritten, HasKeysOf, ReadsNormally, ReadsShallow, IsCanonical};

use crate::types::GeoArrowType;
use arrow_values::{ArrowError, Field, GeoArrowResult};
use geoarrow_layout::{is_layout, kind_equality_is_exact, layout_reads_back, layouts_are_distinct};
use geoarrow_meta::Metadata;
use std::alloc::{AllocError, Global};
use std::sync::Arc;

impl GeoArrowType {
    /// The normal form (docs/FORMAT.md, 1.6): the CRS type is dropped if there is neither a CRS value nor edges, since it
    /// is not written then. Errs only when out of memory, and only if a CRS type is dropped.
    pub fn normalized(self, alloc: Global) -> Result<GeoArrowType, AllocError>
        ensures kind { IfOk result (λ g. kind_of g ≡ kind_of self) }
        ensures metadata { IfOk result (λ g. meta_of g ≡ normal (meta_of self)) }
        ensures again { IfOk result (λ g. normal (meta_of g) ≡ meta_of g) }
        ensures no_memory { normal (meta_of self) ≡ meta_of self → IsOk result }
    {
        if self.metadata().is_normal() {
            return Ok(self);
        }
        let metadata = Arc::new(alloc, Metadata::default())?;
        Ok(self.with_metadata(metadata))
    }

    /// Whether both are written as the same extension name, data type and metadata value, which is so exactly if their
    /// normal forms are equal. Allocates nothing.
    ///
    /// ```rust
    /// let one_type = GeoArrowType::try_from_field(alloc, one)?;
    /// let other_type = GeoArrowType::try_from_field(alloc, other)?;
    /// Ok(one_type.same_written(&other_type))
    /// ```
    #[tactic(auto, using(crate::proofs::Rewriting::kinds_written))]
    pub fn same_written(&self, other: &GeoArrowType) -> bool
        ensures written { IsTrue result ↔ (writes self.now ≡ writes other.now) }
        ensures normal { IsTrue result ↔ (normal_of self.now ≡ normal_of other.now) }
    {
        layouts_are_distinct();
        // (`==` of the kinds, with its law)
        let same_kind = kind_equality_is_exact(self.kind(), other.kind());
        same_kind && self.metadata().same_written(other.metadata())
    }

    /// The canonical field of a field (docs/FORMAT.md, 1.7): it gets the data type and the two extension keys that
    /// `to_field` writes for the normal form of the type that the field is read as; its name, nullability and other
    /// metadata do not change. It reads as that normal form, if `serde_json` reads what it printed, which it does if the CRS
    /// value is nested at most 100 levels. `None`, which allocates nothing, if `from_extension_field` returns `None`. Errs as
    /// that does, and when out of memory.
    ///
    /// ```rust
    /// let metadata = Arc::new(alloc, Metadata::default())?;
    /// let written = LineStringType::new(Dimension::XY, metadata).to_field(alloc, "road", true)?;
    /// let coordinate = coord_data_type(alloc, CoordType::Separated, Dimension::XY)?;
    /// let item = Box::new(alloc, Field::new(alloc, "item", coordinate, true)?)?;
    /// let other = written.try_clone_with_data_type(alloc, DataType::LargeList(item))?;
    /// assert!(rt; GeoArrowType::canonical_field(alloc, &other)? == Some(written));
    /// ```
    #[tactic(auto, using(crate::proofs::Reading::read_has_name, crate::proofs::Rewriting::keys_along, crate::proofs::Rewriting::shallow_along))]
    pub fn canonical_field(alloc: Global, field: &Field) -> GeoArrowResult<Option<Field>>
        ensures ok { IfOk result (λ found. IfSome found (IsCanonical field.now)) }
        ensures keys { IfOk result (λ found. IfSome found (λ n. (g : GeoArrowType) → Reads field.now g → HasKeysOf g field.now n)) }
        ensures nested { IfOk result (λ found. IfSome found (λ n. (g : GeoArrowType) → Reads field.now g → ReadsShallow n g)) }
        ensures none { (result ≡ Ok None) ↔ ¬ HasGeoArrowName field.now }
        ensures refused { IfErr result (IsRefusedBy field.now) }
    {
        let Some(found) = GeoArrowType::from_extension_field(alloc, field)? else {
            return Ok(None);
        };
        let data_type = found.to_data_type(alloc)?;
        let bare = field.try_clone_with_data_type(alloc, data_type)?;
        layout_reads_back(found.kind());
        Ok(Some(found.set_normal_extension(alloc, bare)?))
    }

    /// The field with the data type and the two extension keys that `to_field` writes for the normal form of this type; its
    /// name, nullability and other metadata do not change. It reads as that normal form, if `serde_json` reads what it printed,
    /// which it does if the CRS value is nested at most 100 levels. So a field that is read as this type becomes its canonical
    /// form, as `canonical_field` makes it of a field that is kept. Errs only when out of memory.
    pub fn rewrite_field(&self, alloc: Global, field: Field) -> Result<Field, ArrowError>
        ensures written { IfOk result (λ f. f ≡ rewritten field (kind_of self.now) (normal (meta_of self.now))) }
        ensures keys { IfOk result (HasKeysOf self.now field) }
        ensures reads_back { IfOk result (λ f. ReadsNormally f (kind_of self.now) (meta_of self.now)) }
        ensures nested { IfOk result (λ f. ReadsShallow f self.now) }
        ensures refused { IfErr result IsMemory }
    {
        let kind = self.kind();
        layout_reads_back(kind);
        if is_layout(field.data_type(), &kind) {
            return self.set_normal_extension(alloc, field);
        }
        let data_type = self.to_data_type(alloc)?;
        self.set_normal_extension(alloc, field.with_data_type(data_type))
    }

    /// The field of this type's data type with the extension keys of its normal form, which are those of the type itself.
    #[tactic(auto, using(crate::proofs::Rewriting::normal_written, crate::proofs::Rewriting::reads_where, geoarrow_meta::specs::Laws::normal_value))]
    fn set_normal_extension(&self, alloc: Global, column: Field) -> Result<Field, ArrowError>
        requires layout { column.tree ≡ layout (kind_of self.now) }
        requires column { Accepted (kind_of self.now) column.tree }
        ensures written { IfOk result (λ f. f ≡ rewritten column (kind_of self.now) (normal (meta_of self.now))) }
        ensures keys { IfOk result (HasKeysOf self.now column) }
        ensures reads_back { IfOk result (λ f. ReadsNormally f (kind_of self.now) (meta_of self.now)) }
        ensures nested { IfOk result (λ f. ReadsShallow f self.now) }
        ensures refused { IfErr result IsMemory }
    {
        let text = self.metadata().serialize(alloc)?;
        Ok(column.with_extension_texts(alloc, self.kind().name(), text)?)
    }
}
