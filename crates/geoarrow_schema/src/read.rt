//! Which type a field is read as.
ghost use Rattle.std.specs.Prelude.{◌≡◌, Some, IfOk, IfErr, IfSome};
ghost use Rattle.arrow_values.specs.Texts.{text_of, extension_name, extension_metadata};
ghost use Rattle.geoarrow_layout.specs.declared.names.ExtensionName.{ExtensionName};
ghost use Rattle.geoarrow_layout.specs.declared.native_kinds.Kind.{Kind};
ghost use Rattle.geoarrow_layout.specs.Cited.{Accepts, FaultAt, HasFault, Text, name_text};
ghost use Rattle.geoarrow_schema.specs.Reads.{HasName, Reads, ReadsAlone, IsRefusedBy, IsReading, IsTypeReading};
ghost use Rattle.geoarrow_schema.specs.Infers.{ReadsOrInfersAlone};

use crate::types::GeoArrowType;
use arrow_values::{Field, GeoArrowError, GeoArrowResult};
use geoarrow_layout::ExtensionName::{Wkb, Wkt};
use geoarrow_layout::{ExtensionName, LayoutFault, names_are_distinct, parse_kind};
use geoarrow_meta::Metadata;
use geoarrow_native::laws::reads_as_one_column;
use std::alloc::Global;

impl GeoArrowType {
    /// The type that a field is read as (GeoArrow, "Extension types"): the field has the extension name of the type,
    /// its data type is accepted as the type's kind, and its metadata text, or the absence of one, denotes the
    /// type's metadata. A field has at most one such type. Returns `None`, which allocates nothing, if the field has no
    /// extension name or one that is not GeoArrow's, compared byte for byte.
    ///
    /// Errs if the field has a GeoArrow name and no type is read: with `InvalidGeoArrow` exactly if the name is
    /// `geoarrow.wkb` and the data type is none of `Binary`, `LargeBinary` and `BinaryView`, or the name is
    /// `geoarrow.wkt` and the data type is none of `Utf8`, `LargeUtf8` and `Utf8View`, whatever the metadata text is;
    /// otherwise with `Arrow`, which is the error of the metadata text or, if that denotes a metadata, that of the one fault
    /// that the data type has under the name (docs/FORMAT.md, 1.5). Also errs when out of memory, with `Arrow` of
    /// `OutOfMemory`.
    ///
    /// ```rust
    /// let boxes = BoxType::new(Dimension::XY, Arc::new(alloc, Metadata::default())?);
    /// let field = boxes.to_field(alloc, "bounds", true)?;
    /// let found = GeoArrowType::from_extension_field(alloc, &field)?;
    /// assert!(rt; matches!(found, Some(GeoArrowType::Rect(_))));
    /// ```
    #[inline(always)]
    pub fn from_extension_field(
        alloc: Global,
        field: &Field,
    ) -> GeoArrowResult<Option<GeoArrowType>>
        ensures reading { IsReading field.now result }
        ensures only { IfOk result (λ found. IfSome found (ReadsAlone field.now)) }
    {
        match field.extension_type_name() {
            None => Ok(None),
            Some(text) => read_under(alloc, field, text),
        }
    }

    /// The type that a field is read as. Errs as `from_extension_field` does; where that returns `None`, with `InvalidGeoArrow`.
    ///
    /// ```rust
    /// let written = GeoArrowType::Wkb(WkbType::try_default(alloc)?).to_field(alloc, "geom", true)?;
    /// let faulty = written.with_data_type(DataType::Utf8);
    /// let refused = GeoArrowType::try_from_field(alloc, &faulty);
    /// assert!(rt; matches!(refused, Err(GeoArrowError::InvalidGeoArrow(_))));
    /// ```
    #[tactic(auto, using(crate::proofs::Reading::type_refused, crate::proofs::Reading::unnamed_refused))]
    pub fn try_from_field(alloc: Global, field: &Field) -> GeoArrowResult<GeoArrowType>
        ensures reading { IsTypeReading field.now result }
        ensures only { IfOk result (ReadsAlone field.now) }
    {
        match GeoArrowType::from_extension_field(alloc, field)? {
            Some(found) => Ok(found),
            None => Err(GeoArrowError::invalid_geoarrow(alloc, "no GeoArrow extension name")),
        }
    }
}

/// The type that a field with that extension name is read as.
#[inline(never)]
fn read_under(alloc: Global, field: &Field, text: &str) -> GeoArrowResult<Option<GeoArrowType>>
    requires { extension_name field.now ≡ Some text.now }
    ensures reading { IsReading field.now result }
    ensures only { IfOk result (λ found. IfSome found (ReadsAlone field.now)) }
{
    let Some(name) = ExtensionName::from_text(text) else {
        return Ok(None);
    };
    Ok(Some(read_named(alloc, field, name)?))
}

/// The type that a field of that name is read as.
pub(crate) fn read_named(
    alloc: Global,
    field: &Field,
    name: ExtensionName,
) -> GeoArrowResult<GeoArrowType>
    requires { HasName field.now name }
    ensures ok { IfOk result (Reads field.now) }
    ensures only { IfOk result (ReadsOrInfersAlone field.now) }
    ensures refused { IfErr result (IsRefusedBy field.now) }
{
    match parse_kind(name, field.data_type()) {
        Ok(kind) => {
            names_are_distinct();
            reads_as_one_column(field);
            let metadata = Metadata::deserialize_shared(alloc, text_beside_name(field))?;
            Ok(GeoArrowType::from_kind(kind, metadata))
        }
        Err(fault) => Err(refusal(alloc, field, name, fault)),
    }
}

/// The refusal of a field of that name for that fault; a refusal of its metadata goes before, but for well-known binary and text.
#[cold]
#[inline(never)]
#[tactic(auto, using(crate::proofs::Reading::unstored_refused))]
fn refusal(alloc: Global, field: &Field, name: ExtensionName, fault: LayoutFault) -> GeoArrowError
    requires named { HasName field.now name }
    requires no_kind { (k : Kind) → ¬ Accepts (name_text name) field.now.tree k }
    requires at_fault { HasFault (FaultAt name field.now.tree) fault }
    ensures { IsRefusedBy field.now result }
{
    match name {
        Wkb => GeoArrowError::invalid_geoarrow(alloc, "geoarrow.wkb needs a binary type"),
        Wkt => GeoArrowError::invalid_geoarrow(alloc, "geoarrow.wkt needs a text type"),
        _ => {
            names_are_distinct();
            match Metadata::try_from_field(alloc, field) {
                Ok(_) => GeoArrowError::Arrow(fault.into_arrow_error(alloc)),
                Err(error) => GeoArrowError::Arrow(error),
            }
        }
    }
}

/// The metadata text of a field with an extension name, which is not looked for where the name is the only text.
#[inline(always)]
#[tactic(auto, using(crate::proofs::Texts::alone))]
fn text_beside_name(field: &Field) -> Option<&str>
    requires { (name : Text) × (extension_name field.now ≡ Some name) }
    ensures { text_of result ≡ extension_metadata field.now }
{
    if field.metadata().len() == 1 {
        return None;
    }
    field.extension_type_metadata()
}
