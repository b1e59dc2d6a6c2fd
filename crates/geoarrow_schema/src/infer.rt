//! Which type is inferred for a field without a GeoArrow name.
ghost use Rattle.std.specs.Prelude.{◌≡◌, ◌⊎◌, Some, IfOk};
ghost use Rattle.arrow_values.specs.Texts.{extension_name};
ghost use Rattle.geoarrow_layout.specs.Cited.{InferredAs, IsGeoMemory, tree};
ghost use Rattle.geoarrow_layout.specs.declared.native_kinds.Kind.{Kind};
ghost use Rattle.geoarrow_schema.specs.Reads.{HasGeoArrowName};
ghost use Rattle.geoarrow_schema.specs.Infers.{ReadsOrInfersAlone, InfersNone, uninferred_text, UninferredAs, IsInference};

use crate::read::read_named;
use crate::types::GeoArrowType;
use arrow_values::{DataType, Field, GeoArrowError, GeoArrowResult};
use geoarrow_layout::{Bottom, ExtensionName, infer_kind, summarize};
use geoarrow_meta::Metadata;
use std::alloc::Global;

impl GeoArrowType {
    /// The type that a field is read as by `from_extension_field`. If that returns `None`, the type that is inferred
    /// from the field's data type, with the metadata that the metadata text, or its absence, denotes
    /// (docs/FORMAT.md, 1.4 and 1.7): a separated point for a struct of 2, 3 or 4 `Float64` fields, an interleaved point
    /// for a fixed size list of 2, 3 or 4 of them (three are x, y and m if they are named so, otherwise x, y and z),
    /// well-known binary for `Binary`, `LargeBinary` and `BinaryView`, and well-known text for `Utf8`, `LargeUtf8` and
    /// `Utf8View`. A field has at most one such type.
    ///
    /// Errs as `from_extension_field` does. If the field has no GeoArrow name, it errs with `Arrow` exactly if the
    /// metadata text denotes no metadata, and with `InvalidGeoArrow` if it denotes one and no type is inferred from the
    /// data type, with the message that docs/FORMAT.md, 1.7, has for it; otherwise only when out of memory.
    ///
    /// ```rust
    /// let unnamed = Field::new(alloc, "geom", DataType::Binary, true)?;
    /// assert!(rt; GeoArrowType::from_extension_field(alloc, &unnamed)?.is_none());
    /// let inferred = GeoArrowType::from_arrow_field(alloc, &unnamed)?;
    /// assert!(rt; matches!(inferred, GeoArrowType::Wkb(_)));
    /// ```
    pub fn from_arrow_field(alloc: Global, field: &Field) -> GeoArrowResult<GeoArrowType>
        ensures inference { IsInference field.now result }
        ensures only { IfOk result (ReadsOrInfersAlone field.now) }
    {
        match field.extension_type_name() {
            None => infer(alloc, field),
            Some(text) => read_or_infer(alloc, field, text),
        }
    }
}

/// The type that a field with that extension name is read as or, if the name is not GeoArrow's, taken for.
#[inline(never)]
#[tactic(auto, using(crate::proofs::Inferring::named_inference))]
fn read_or_infer(alloc: Global, field: &Field, text: &str) -> GeoArrowResult<GeoArrowType>
    requires { extension_name field.now ≡ Some text.now }
    ensures inference { IsInference field.now result }
    ensures only { IfOk result (ReadsOrInfersAlone field.now) }
{
    match ExtensionName::from_text(text) {
        Some(name) => read_named(alloc, field, name),
        None => infer(alloc, field),
    }
}

/// The type that a field without a GeoArrow name is taken for.
#[inline(always)]
#[tactic(auto, using(crate::proofs::Inferring::type_inferred, crate::proofs::Inferring::text_error, crate::proofs::Inferring::unnamed_error))]
fn infer(alloc: Global, field: &Field) -> GeoArrowResult<GeoArrowType>
    requires { ¬ HasGeoArrowName field.now }
    ensures inference { IsInference field.now result }
    ensures only { IfOk result (ReadsOrInfersAlone field.now) }
{
    let Some(kind) = infer_kind(field.data_type()) else {
        return Err(inference_error(alloc, field));
    };
    let metadata = Metadata::deserialize_shared(alloc, field.extension_type_metadata())?;
    Ok(GeoArrowType::from_kind(kind, metadata))
}

/// The refusal of a field whose data type is taken for none: that of its metadata, if it is refused, goes before.
#[cold]
#[inline(never)]
#[tactic(auto, using(crate::proofs::Inferring::none_for_tree, crate::proofs::Inferring::text_error, crate::proofs::Inferring::tree_error))]
fn inference_error(alloc: Global, field: &Field) -> GeoArrowError
    requires { (k : Kind) → ¬ InferredAs field.now.tree k }
    ensures { IsGeoMemory result ⊎ (InfersNone field.now × UninferredAs field.now result) }
{
    match Metadata::try_from_field(alloc, field) {
        Ok(_) => GeoArrowError::invalid_geoarrow(alloc, fault_text(field.data_type())),
        Err(error) => GeoArrowError::Arrow(error),
    }
}

/// Why a data type is taken for none.
#[tactic(auto, using(crate::proofs::Uninferred::at_bottom))]
fn fault_text(data_type: &DataType) -> &'static str
    ensures { result.now ≡ uninferred_text (tree data_type.now) }
{
    let summary = summarize(data_type);
    if 0 < summary.levels {
        return "cannot infer: data type";
    }
    match &summary.bottom {
        Bottom::Struct {
            all_float64: false,
            ..
        } => "cannot infer: fields are not all Float64",
        Bottom::Struct { .. } => "cannot infer: field count",
        Bottom::FixedSizeList { float64: false, .. } => "cannot infer: inner field is not Float64",
        Bottom::FixedSizeList { .. } => "cannot infer: list size",
        _ => "cannot infer: data type",
    }
}
