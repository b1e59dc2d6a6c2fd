//! Metadata: read from texts, written and compared.
use arrow_values::ArrowError;
use geoarrow_meta::{Crs, Metadata};
use rows::asked::Asked;
use rows::compared::{Compared, is_same_hashed};
use rows::said::Said;
use rows::texts::halves;
use serde_json::Value;
use std::alloc::AllocError;
use std::mem::{ManuallyDrop, forget};

/// Says the parts of a CRS: its value as JSON, and the text of its type, each `-` where there is none.
pub fn say_crs(said: &mut Said, crs: &Crs) {
    said.push("crs ");
    match crs.crs_value() {
        Some(value) => said.shown(value),
        None => said.push("-"),
    }
    said.push(" type ");
    match crs.crs_type() {
        Some(crs_type) => said.push(crs_type.as_text()),
        None => said.push("-"),
    }
}

/// Says the parts of a metadata: those of its CRS, and the text of its edges, `-` where there are none.
fn say_parts(said: &mut Said, metadata: &Metadata) {
    say_crs(said, metadata.crs());
    said.push(" edges ");
    match metadata.edges() {
        Some(edges) => said.push(edges.as_text()),
        None => said.push("-"),
    }
}

/// Says the text that a metadata prints, `-` where it prints none.
pub fn say_text(said: &mut Said, printed: &Result<Option<String>, ArrowError>) {
    match printed {
        Ok(Some(text)) => said.push(text.as_str()),
        Ok(None) => said.push("-"),
        Err(error) => said.refusal(error),
    }
}

/// Says the parts of a metadata that is read, or what the refusal prints.
fn say_read(said: &mut Said, read: &Result<Metadata, ArrowError>) {
    match read {
        Ok(metadata) => say_parts(said, metadata),
        Err(error) => said.refusal(error),
    }
}

/// The metadata of a text. The answer is lacking where it denotes none.
pub fn metadata_of(said: &mut Said, text: &str) -> ManuallyDrop<Metadata> {
    ManuallyDrop::new(match Metadata::deserialize(said.alloc, Some(text)) {
        Ok(metadata) => metadata,
        Err(error) => {
            forget(error);
            said.fail();
            Metadata::new(Crs::default(), None)
        }
    })
}

/// The JSON value of a text. The answer is lacking where it is none.
pub fn json(said: &mut Said, text: &str) -> ManuallyDrop<Value> {
    ManuallyDrop::new(match Value::from_str(said.alloc, text) {
        Ok(value) => value,
        Err(_) => {
            said.fail();
            Value::Null
        }
    })
}

/// Says what a call answers about the metadata of a text, or what the refusal of the text prints.
pub fn read(it: &mut Asked<'_>) {
    match Metadata::deserialize(it.alloc, Some(it.text)) {
        Ok(metadata) => say_of(it, ManuallyDrop::new(metadata)),
        Err(error) => it.said.refusal(&ManuallyDrop::new(error)),
    }
}

/// Says what a call answers about a metadata: what it prints, the parts of its normal form, or whether it is normal.
fn say_of(it: &mut Asked<'_>, metadata: ManuallyDrop<Metadata>) {
    match it.command {
        "serialize" => say_serialized(it, &metadata),
        "to_value" => say_value(it, &metadata),
        "is_normal" => it.said.truth(metadata.is_normal()),
        _ => {
            it.before();
            let normal = ManuallyDrop::into_inner(metadata).normalized();
            it.after();
            say_parts(&mut it.said, &ManuallyDrop::new(normal));
        }
    }
}

/// Says what a metadata prints, `-` where it prints nothing.
fn say_serialized(it: &mut Asked<'_>, metadata: &Metadata) {
    it.before();
    let printed = ManuallyDrop::new(metadata.serialize(it.alloc));
    it.after();
    say_text(&mut it.said, &printed);
}

/// Says the JSON value that a metadata is written as, `-` for none.
fn say_value(it: &mut Asked<'_>, metadata: &Metadata) {
    it.before();
    let value = ManuallyDrop::new(metadata.to_value(it.alloc));
    it.after();
    match &*value {
        Ok(Some(value)) => it.said.shown(value),
        Ok(None) => it.said.push("-"),
        Err(AllocError) => it.said.fail(),
    }
}

/// Says the parts of the metadata of a text, or of no text, or what the refusal prints.
pub fn deserialized(it: &mut Asked<'_>, text: Option<&str>) {
    it.before();
    let read = ManuallyDrop::new(Metadata::deserialize(it.alloc, text));
    it.after();
    say_read(&mut it.said, &read);
}

/// Says the parts of the metadata of the JSON value of a text.
pub fn from_value(it: &mut Asked<'_>) {
    let value = json(&mut it.said, it.text);
    match &*ManuallyDrop::new(Metadata::from_value(it.alloc, &value)) {
        Ok(metadata) => say_parts(&mut it.said, metadata),
        Err(error) => it.said.geoarrow_refusal(error),
    }
}

/// The metadata of texts, cloned and compared.
pub struct Spelled {}

impl Compared for Spelled {
    fn are_equal(said: &mut Said, one: &str, other: &str) -> bool {
        let one = metadata_of(said, one);
        let other = metadata_of(said, other);
        let clone = ManuallyDrop::new(one.try_clone(said.alloc));
        let crs = ManuallyDrop::new(one.crs().try_clone(said.alloc));
        let is_same_crs = is_same_hashed(said, &crs, other.crs());
        is_same_hashed(said, &clone, &other) && is_same_crs
    }
}

/// Says whether the metadata of two texts are written alike.
pub fn same_written(it: &mut Asked<'_>) {
    let (one, other) = halves(&mut it.said, it.text);
    let one = metadata_of(&mut it.said, one);
    let other = metadata_of(&mut it.said, other);
    it.before();
    let found = one.same_written(&other);
    it.after();
    it.said.truth(found);
}
