//! How a column is written as a field.
ghost use Rattle.std.specs.Prelude.{◌≡◌, [], None, IfOk, IfErr, option_map, string_bytes};
ghost use Rattle.arrow_values.specs.Errors.{IsMemory};
ghost use Rattle.arrow_values.specs.Texts.{set_extension};
ghost use Rattle.arrow_values.specs.View.{texts_of};
ghost use Rattle.geoarrow_meta.specs.Written.{meta_value, normal, IsReadBack, NestsWithin};
ghost use Rattle.geoarrow_native.specs.Column.{ReadsAs, written_field};

use arrow_values::{ArrowError, EXTENSION_TYPE_NAME_KEY, Field};
use geoarrow_layout::{Kind, kind_data_type, layout_reads_back};
use geoarrow_meta::Metadata;
use std::alloc::{AllocError, Global};
use std::collections::BTreeMap;

/// The field of a column of a kind: that name and nullability, the kind's data type, and as its metadata the extension
/// name and the metadata's text, if there is one (GeoArrow, "Extension types"). It reads back as the kind and the normal
/// form of the metadata, if `serde_json` reads what it printed, which it does if the CRS value is nested at most 100
/// levels. Errs only when out of memory.
#[tactic(auto, using(crate::proofs::Writing::written_reads))]
pub fn column_field(
    alloc: Global,
    name: &str,
    nullable: bool,
    kind: Kind,
    metadata: &Metadata,
) -> Result<Field, ArrowError>
    ensures written { IfOk result (λ f. f ≡ written_field name.now nullable kind metadata.now) }
    ensures reads_back { IfOk result (λ f. IsReadBack (meta_value metadata.now)
        → ReadsAs f kind (normal metadata.now)) }
    ensures nested { IfOk result (λ f. NestsWithin 100 metadata.now.crs.value
        → ReadsAs f kind (normal metadata.now)) }
    ensures refused { IfErr result IsMemory }
{
    let extension_name = kind.name();
    let text = metadata.serialize(alloc)?;
    layout_reads_back(kind);
    let field = Field::new(alloc, name, kind_data_type(alloc, kind)?, nullable)?;
    Ok(with_texts(alloc, field, extension_name, text)?)
}

/// The field, which has no texts yet, with that extension name and that metadata text, or none. Errs only when out of memory.
fn with_texts(
    alloc: Global,
    field: Field,
    name: &str,
    text: Option<String>,
) -> Result<Field, AllocError>
    requires { field.metadata ≡ [] }
    ensures { IfOk result (λ f. f ≡ record field { metadata = set_extension name.now (option_map string_bytes text) [] }) }
{
    match text {
        None => Ok(field.with_metadata(name_texts(alloc, name)?)),
        Some(_) => field.with_extension_texts(alloc, name, text),
    }
}

/// The texts of a field that has an extension name and no metadata text: a new map, in which nothing is searched or removed.
fn name_texts(alloc: Global, name: &str) -> Result<BTreeMap<String, String>, AllocError>
    ensures { IfOk result (λ texts. texts_of texts.entries ≡ set_extension name.now None []) }
{
    let mut texts = BTreeMap::new(alloc);
    let key = String::from_str(alloc, EXTENSION_TYPE_NAME_KEY)?;
    texts.insert(key, String::from_str(alloc, name)?)?;
    Ok(texts)
}
