//! The metadata of an extension type.
ghost use Rattle.std.specs.Prelude.{◌≡◌, ◌⊎◌, ◌↔◌, IsTrue, Option, Some, None, IfOk, IfErr, IfSome, IsSome, IsOk, MatchResult, OnOk, option_map, string_bytes, false};
ghost use Rattle.std.specs.Arc.{arc_value};
ghost use Rattle.arrow_values.specs.Errors.{IsMemory};
ghost use Rattle.arrow_values.specs.Texts.{text_of, extension_metadata};
ghost use Rattle.serde_json.specs.Data.{Data};
ghost use Rattle.serde_json.specs.Find.{as_object};
ghost use Rattle.serde_json.specs.Read.{max_depth};
ghost use Rattle.serde_json.specs.View.{view};
ghost use Rattle.serde_json.specs.Written.{has_float};
ghost use Rattle.geoarrow_meta.specs.declared.metadata.Metadata.{Metadata};
ghost use Rattle.geoarrow_meta.specs.CrsValue.{IsCrsValue};
ghost use Rattle.geoarrow_meta.specs.Written.{meta_value, printed, normal, is_bare, IsReadBack, NestsWithin};
ghost use Rattle.geoarrow_meta.specs.Read.{empty, some_has_float, Denotes, DenotesMetadata, RefusedAs, TextRefusedAs, IsTextReading};
ghost use Rattle.geoarrow_meta.specs.KeyValues.{AreValuesOf};

mod key_values;
mod plain;
mod plain_members;
mod plain_values;
mod tokens;
mod write;

use crate::crs::{Crs, CrsValue};
use crate::edges::Edges;
use crate::error::{crs_fault, external_fault, into_external, unread};
use crate::json_values::holds_whole_numbers;
use arrow_values::{ArrowError, Field, GeoArrowResult};
use json::Writer;
pub use key_values::KeyValues;
use key_values::values_of;
use serde_json::Value;
use std::alloc::{AllocError, Global};
use std::sync::Arc;
use tokens::read_noting;
pub use tokens::read_values;
use value_tokens::text_of;
use write::{print_object, written_value};

/// The metadata of an extension type (GeoArrow, "Extension types", "Extension metadata"): a CRS, and how edges run. The
/// default has the default CRS and no edges. Two are equal, and then hash equally, if both parts are equal.
///
/// ```rust
/// let crs = Crs::from_srid(String::from_str(alloc, "1234")?);
/// let text = Metadata::new(crs, Some(Edges::Spherical)).serialize(alloc)?;
/// let wanted = r#"{"crs":"1234","crs_type":"srid","edges":"spherical"}"#;
/// assert!(rt; text.is_some_and(|text| text.as_str() == wanted));
/// ```
#[derive(Debug, Default, PartialEq, Eq, Hash, Drop)]
pub struct Metadata {
    crs: Crs,
    edges: Option<Edges>,
}

impl Metadata {
    /// The metadata with that CRS and those edges, which may be missing.
    pub fn new(crs: Crs, edges: Option<Edges>) -> Metadata
        ensures crs { result.crs ≡ crs }
        ensures edges { result.edges ≡ edges }
    {
        Metadata { crs, edges }
    }

    /// The CRS.
    pub fn crs(&self) -> &Crs
        ensures { result.now ≡ self.now.crs }
    {
        &self.crs
    }

    /// How edges run; `None` means planar edges.
    pub fn edges(&self) -> Option<Edges>
        ensures { result ≡ self.now.edges }
    {
        self.edges
    }

    /// An equal metadata. Errs only when out of memory.
    pub fn try_clone(&self, alloc: Global) -> Result<Metadata, AllocError>
        ensures { IfOk result (λ m. m ≡ self.now) }
    {
        Ok(Metadata {
            crs: self.crs.try_clone(alloc)?,
            edges: self.edges,
        })
    }

    /// The JSON value that the metadata is written as (GeoArrow, "Extension metadata"): an object with `crs`, which is
    /// null if there is no CRS value, with `crs_type` if there is one, and with `edges` if there are any. `None`, which
    /// allocates nothing, if there is neither a CRS value nor edges. Errs only when out of memory.
    pub fn to_value(&self, alloc: Global) -> Result<Option<Value>, AllocError>
        ensures value { IfOk result (λ o. option_map view o ≡ meta_value self.now) }
        ensures whole { IfOk result (λ o. IfSome o (λ v. has_float (view v) ≡ false)) }
        ensures memory { IfErr result (λ _. IsSome (meta_value self.now)) }
        ensures valid { IfSome self.now.crs.value IsCrsValue }
    {
        if self.is_bare() {
            return Ok(None);
        }
        Ok(Some(written_value(alloc, self)?))
    }

    /// The metadata that a JSON value denotes (GeoArrow, "Extension metadata"). The value must be an object. A
    /// `crs`, `crs_type` or `edges` that is null or missing is absent; `crs` may be any other value whose numbers are
    /// whole, at any depth (see [`Crs::is_projjson`]), and `crs_type` and `edges` must be texts of the format. Other
    /// keys are ignored. Errs, in this order, with `External` if the value is not an object, with `Crs` if a number in
    /// `crs` is not whole, with `External` if `crs_type` is not one of the format's, and with `External` if `edges` is
    /// not one of the format's; otherwise only when out of memory.
    pub fn from_value(alloc: Global, value: &Value) -> GeoArrowResult<Metadata>
        ensures ok { IfOk result (Denotes (view value.now)) }
        ensures only { IfOk result (λ m. (n : Metadata) → Denotes (view value.now) n → n ≡ m) }
        ensures err { IfErr result (RefusedAs (view value.now)) }
    {
        if !value.is_object() {
            return Err(external_fault(alloc, "metadata is not an object"));
        }
        Metadata::of_values(alloc, values_of(alloc, value)?, true)
    }

    // The metadata of the values of the three keys of an object, of which the CRS is searched for a float where it may hold one.
    #[inline(always)]
    fn of_values(
        alloc: Global,
        values: KeyValues<Value>,
        may_hold_float: bool,
    ) -> GeoArrowResult<Metadata>
        requires found { (d : Data) × AreValuesOf d (option_map view values.crs) values.crs_type values.edges }
        requires whole { may_hold_float ≡ false → some_has_float (option_map view values.crs) ≡ false }
        ensures ok { IfOk result (λ m. (d : Data) → IsSome (as_object d)
            → AreValuesOf d (option_map view values.crs) values.crs_type values.edges → Denotes d m) }
        ensures err { IfErr result (λ e. (d : Data) → IsSome (as_object d)
            → AreValuesOf d (option_map view values.crs) values.crs_type values.edges → RefusedAs d e) }
    {
        if may_hold_float && matches!(&values.crs, Some(crs) if !holds_whole_numbers(crs)) {
            return Err(crs_fault(alloc, "CRS holds a number that is not whole"));
        }
        let Some(crs_type) = values.crs_type else {
            return Err(external_fault(alloc, "unknown crs_type"));
        };
        let Some(edges) = values.edges else {
            return Err(external_fault(alloc, "unknown edges"));
        };
        let value = values.crs.map(CrsValue::new);
        let crs = Crs { value, crs_type };
        Ok(Metadata { crs, edges })
    }

    /// The text that denotes the metadata at a field's `ARROW:extension:metadata`: the compact JSON text of `to_value`.
    /// If there is neither a CRS value nor edges, there is none, and nothing is allocated. Errs only when out of memory. A
    /// text that is answered reads back to the normal form of the metadata where `serde_json` reads it as the value that
    /// was printed, which it does where the CRS value is nested at most 100 levels.
    pub fn serialize(&self, alloc: Global) -> Result<Option<String>, ArrowError>
        ensures text { MatchResult result (λ text. option_map string_bytes text ≡ printed self.now)
            (λ e. IsMemory e × IsSome (printed self.now)) }
        ensures read_back { OnOk result (NestsWithin max_depth (meta_value self.now)
            → IsReadBack (meta_value self.now)) }
        ensures reads_as { IfOk result (λ text. IsReadBack (meta_value self.now)
            → DenotesMetadata (option_map string_bytes text) (normal self.now)) }
        ensures nested { IfOk result (λ text. NestsWithin 100 self.now.crs.value
            → DenotesMetadata (option_map string_bytes text) (normal self.now)) }
    {
        if self.is_bare() {
            return Ok(None);
        }
        let mut out = Writer::new(Vec::with_capacity(alloc, 128)?);
        print_object(self, &mut out)?;
        Ok(Some(text_of(out)))
    }

    /// The metadata that a text at a field's `ARROW:extension:metadata`, or its absence, denotes. No text gives the
    /// default, and allocates nothing. Errs as `ExternalError` of `External` where `serde_json` does not read the text, and of the
    /// error of `from_value` where that errs for the text's value; else only when out of memory.
    ///
    /// ```rust
    /// let text = r#"{"crs":"EPSG:4326","edges":"spherical"}"#;
    /// let metadata = Metadata::deserialize(alloc, Some(text))?;
    /// assert_eq!(rt; metadata.edges(), Some(Edges::Spherical));
    /// assert_eq!(rt; metadata.crs().crs_type(), None);
    /// ```
    #[inline(always)]
    pub fn deserialize(alloc: Global, metadata: Option<&str>) -> Result<Metadata, ArrowError>
        ensures exact { IsTextReading (text_of metadata.entry) result }
        ensures refusal { IfErr result (TextRefusedAs (text_of metadata.entry)) }
        ensures no_memory { text_of metadata.entry ≡ None → IsOk result }
    {
        let Some(text) = metadata else {
            return Ok(Metadata::default());
        };
        Metadata::of_text(alloc, text)
    }

    // The metadata that a text denotes.
    #[inline(never)]
    fn of_text(alloc: Global, text: &str) -> Result<Metadata, ArrowError>
        ensures exact { IsTextReading (Some text.now) result }
        ensures refusal { IfErr result (TextRefusedAs (Some text.now)) }
    {
        let mut float_read = false;
        let read = match read_noting(alloc, text, &mut float_read) {
            Ok(Some(values)) => Metadata::of_values(alloc, values, float_read),
            Ok(None) => Err(external_fault(alloc, "metadata is not an object")),
            Err(refusal) => return Err(unread(alloc, refusal)),
        };
        read.map_err(|e| into_external(alloc, e))
    }

    /// The metadata of `deserialize` in an `Arc`, as extension types hold their metadata. Errs as `deserialize` does.
    #[inline(always)]
    pub fn deserialize_shared(
        alloc: Global,
        metadata: Option<&str>,
    ) -> Result<Arc<Metadata>, ArrowError>
        ensures exact { MatchResult result (λ m. DenotesMetadata (text_of metadata.entry) (arc_value m))
            (λ e. IsMemory e
            ⊎ ((m : Metadata) → DenotesMetadata (text_of metadata.entry) m → ⊥)) }
        ensures refusal { IfErr result (λ e. IsMemory e ⊎ TextRefusedAs (text_of metadata.entry) e) }
    {
        if metadata.is_none() {
            return Ok(Arc::new(alloc, Metadata::default())?);
        }
        let read = Metadata::deserialize(alloc, metadata)?;
        Ok(Arc::new(alloc, read)?)
    }

    /// The metadata that a field's metadata text, or its absence, denotes, whatever the name of its extension type.
    /// Errs as `deserialize` does.
    #[inline(always)]
    pub fn try_from_field(alloc: Global, field: &Field) -> Result<Metadata, ArrowError>
        ensures exact { IsTextReading (extension_metadata field.now) result }
        ensures refusal { IfErr result (TextRefusedAs (extension_metadata field.now)) }
        ensures no_memory { extension_metadata field.now ≡ None → IsOk result }
    {
        Metadata::deserialize(alloc, field.extension_type_metadata())
    }

    /// Whether both are written as the same JSON value, that is, whether their normal forms are equal. Allocates nothing.
    pub fn same_written(&self, other: &Metadata) -> bool
        ensures value { IsTrue result ↔ (meta_value self.now ≡ meta_value other.now) }
        ensures normal { IsTrue result ↔ (normal self.now ≡ normal other.now) }
    {
        let same = self.crs.same_value(&other.crs) && self.edges == other.edges;
        same && (self.is_bare() || self.crs.crs_type() == other.crs.crs_type())
    }

    /// Whether the metadata is in normal form. If it is not, its normal form is the default metadata. Allocates nothing.
    pub fn is_normal(&self) -> bool
        ensures exact { IsTrue result ↔ (normal self.now ≡ self.now) }
        ensures else_default { IsTrue result ⊎ (normal self.now ≡ empty) }
    {
        !self.is_bare() || self.crs.crs_type().is_none()
    }

    // Whether there is neither a CRS value nor edges.
    fn is_bare(&self) -> bool
        ensures bare { result ≡ is_bare self.now.crs.value self.now.edges }
        ensures valid { IfSome self.now.crs.value IsCrsValue }
    {
        self.crs.crs_value().is_none() && self.edges.is_none()
    }

    /// The normal form: the CRS type is dropped if there is neither a CRS value nor edges, since it is not written then.
    /// Allocates nothing.
    pub fn normalized(self) -> Metadata
        ensures value { result ≡ normal self }
        ensures again { normal result ≡ result }
    {
        let mut normal = self;
        if normal.is_bare() {
            normal.crs.crs_type = None;
        }
        normal
    }
}
