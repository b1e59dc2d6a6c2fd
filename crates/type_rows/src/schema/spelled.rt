//! Fields and types that a text spells. Where it spells none, the answer is lacking, so that a row of it is wrong.
use arrow_values::{DataType, EXTENSION_TYPE_METADATA_KEY, EXTENSION_TYPE_NAME_KEY, Field};
use geoarrow_layout::{Kind, coord_type_word, dimension_word, kind_word};
use geoarrow_schema::{GeoArrowType, Metadata};
use rows::notation::{column, data_type, field, made};
use rows::said::Said;
use rows::texts::{first_word, halves, is_line};
use std::mem::{ManuallyDrop, forget};
use std::sync::Arc;

/// A field that may be null, spelled `NAME METADATA | TYPE`, where the name `-` stands for none, no metadata text need be
/// there, and `(empty)` is the empty one; or spelled as a line of JSON.
pub fn field_of(said: &mut Said, text: &str) -> ManuallyDrop<Field> {
    if is_line(text) {
        return field(said, text);
    }
    let (texts, tree) = halves(said, text);
    let (name, metadata) = match texts.split_once(' ') {
        None => (texts, None),
        Some((name, "(empty)")) => (name, Some("")),
        Some((name, metadata)) => (name, Some(metadata)),
    };
    let name = if name == "-" { None } else { Some(name) };
    let texts = [
        (EXTENSION_TYPE_NAME_KEY, name),
        (EXTENSION_TYPE_METADATA_KEY, metadata),
    ];
    column(said, &texts, tree)
}

/// A data type in the notation, or that of a field that is spelled as a line of JSON.
pub fn tree_of(said: &mut Said, text: &str) -> ManuallyDrop<DataType> {
    if !is_line(text) {
        return data_type(said, text);
    }
    let field = field(said, text);
    let tree = field.data_type().try_clone(said.alloc);
    made(said, tree)
}

/// The type of those four words, the last of them a metadata text or a dash.
pub fn type_of(said: &mut Said, text: &str) -> Option<ManuallyDrop<GeoArrowType>> {
    let (kind, rest) = first_word(said, text);
    let (coord_type, rest) = first_word(said, rest);
    let (dimension, metadata) = first_word(said, rest);
    match (
        kind_of(kind, coord_type, dimension),
        metadata_of(said, metadata),
    ) {
        (Some(kind), Some(metadata)) => {
            Some(ManuallyDrop::new(GeoArrowType::from_kind(kind, metadata)))
        }
        _ => None,
    }
}

/// The kind of those three words.
fn kind_of(kind: &str, coord_type: &str, dimension: &str) -> Option<Kind> {
    for found in Kind::ALL.iter() {
        if kind_word(*found) == kind
            && coord_type_word(found.coord_type()) == coord_type
            && dimension_word(found.dimension()) == dimension
        {
            return Some(*found);
        }
    }
    None
}

/// The metadata of a text, or the default for a dash. There is no answer where there is none.
pub fn metadata_of(said: &mut Said, text: &str) -> Option<Arc<Metadata>> {
    let text = if text == "-" { None } else { Some(text) };
    match Metadata::deserialize_shared(said.alloc, text) {
        Ok(metadata) => Some(metadata),
        Err(error) => {
            forget(error);
            said.fail();
            None
        }
    }
}
