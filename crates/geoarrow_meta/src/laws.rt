//! Laws of the metadata, for the crates above: functions whose contract is the law.
ghost use Rattle.std.specs.Prelude.{◌≡◌, ◌↔◌, IsTrue};
ghost use Rattle.arrow_values.specs.Texts.{text_of};
ghost use Rattle.serde_json.specs.View.{view};
ghost use Rattle.geoarrow_meta.specs.declared.metadata.Metadata.{Metadata};
ghost use Rattle.geoarrow_meta.specs.contracts.metadata.MetadataPartialEq.TheImpl as metadatas;
ghost use Rattle.geoarrow_meta.specs.Written.{meta_value, printed, normal, IsReadBack, NestsWithin};
ghost use Rattle.geoarrow_meta.specs.Read.{Denotes, DenotesMetadata};

use crate::crs::{Crs, CrsType};
use crate::edges::Edges;
use crate::json_values::holds_whole_numbers;
use crate::metadata::Metadata;
use serde_json::Value;

/// A law: the normal form of a normal form is that normal form. There is nothing to run.
pub fn normal_form_is_its_own(metadata: &Metadata)
    ensures { normal (normal metadata.now) ≡ normal metadata.now }
{}

/// A law: two metadata are written as the same JSON value, or both as nothing, exactly where their normal forms are
/// equal.
#[tactic(auto, using(crate::proofs::Stands::written_alike))]
pub fn written_alike(one: &Metadata, other: &Metadata)
    ensures { (meta_value one.now ≡ meta_value other.now)
        ↔ (normal one.now ≡ normal other.now) }
{
    one.crs().crs_value();
    other.crs().crs_value();
}

/// A law: the printed text of a metadata, or its absence, denotes the normal form, where `serde_json` reads what it
/// printed as the value that it printed.
pub fn printed_reads_back(metadata: &Metadata)
    ensures { IsReadBack (meta_value metadata.now)
        → DenotesMetadata (printed metadata.now) (normal metadata.now) }
{
    metadata.crs().crs_value();
}

/// A law: where the CRS value of a metadata is nested at most 100 levels, or there is none, `serde_json` reads what it
/// prints for the metadata as the value that it printed.
#[tactic(auto, using(crate::proofs::ReadBack::nested_read_back))]
pub fn nested_reads_back(metadata: &Metadata)
    ensures { NestsWithin 100 metadata.now.crs.value
        → IsReadBack (meta_value metadata.now) }
{
    metadata.crs().crs_value().map(holds_whole_numbers);
}

/// A law: a JSON value denotes one metadata at most. There is nothing to run.
pub fn value_denotes_one(value: &Value)
    ensures { (m n : Metadata) → Denotes (view value.now) m → Denotes (view value.now) n
        → m ≡ n }
{}

/// A law: a text, or its absence, denotes one metadata at most. There is nothing to run.
pub fn text_denotes_one(text: Option<&str>)
    ensures { (m n : Metadata) → DenotesMetadata (text_of text.entry) m
        → DenotesMetadata (text_of text.entry) n → m ≡ n }
{}

/// A law: `==` returns true for two metadata exactly if their parts are equal.
#[tactic(auto, using(crate::proofs::Equality::metadata_decides))]
pub fn equality_is_exact(one: &Metadata, other: &Metadata) -> bool
    ensures { IsTrue result ↔ (one.now ≡ other.now) }
{
    *one == *other
}

/// A law: the test behind `==`, which types that share their metadata go by, returns true for two metadata exactly
/// where their parts are equal. There is nothing to run.
#[tactic(auto, using(crate::proofs::Equality::metadata_decides))]
pub fn equality_test_is_exact()
    ensures { (m n : Metadata) → IsTrue ((metadatas.eq-value).it m n) ↔ (m ≡ n) }
{}

/// A law: `==` returns true for two CRS exactly if JSON value and type are equal.
#[tactic(auto, using(crate::proofs::Equality::crs_decides))]
pub fn crs_equality_is_exact(one: &Crs, other: &Crs) -> bool
    ensures { IsTrue result ↔ (one.now ≡ other.now) }
{
    *one == *other
}

/// A law: `==` returns true for two edges exactly if they are the same.
pub fn edges_equality_is_exact(one: Edges, other: Edges) -> bool
    ensures { IsTrue result ↔ (one ≡ other) }
{
    one == other
}

/// A law: `==` returns true for two CRS types exactly if they are the same.
pub fn crs_type_equality_is_exact(one: CrsType, other: CrsType) -> bool
    ensures { IsTrue result ↔ (one ≡ other) }
{
    one == other
}
