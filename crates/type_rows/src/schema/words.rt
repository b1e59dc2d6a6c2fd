//! What the answers say, in words.
use arrow_values::{ArrowError, GeoArrowError};
use geoarrow_layout::{coord_type_word, dimension_word, kind_word};
use geoarrow_schema::{GeoArrowType, Metadata};
use rows::said::Said;
use std::mem::ManuallyDrop;

/// Says a type: its kind, coordinate type, dimension and metadata. It says all that there is of it.
pub fn say_type(said: &mut Said, found: &GeoArrowType) {
    said.push(kind_word(found.kind()));
    said.push(" ");
    said.push(coord_type_word(found.coord_type()));
    said.push(" ");
    said.push(dimension_word(found.dimension()));
    said.push(" ");
    say_metadata(said, found.metadata());
}

/// Says a metadata: its text; or a dash where it has none, and the CRS type that is there nevertheless.
pub fn say_metadata(said: &mut Said, metadata: &Metadata) {
    let text = ManuallyDrop::new(metadata.serialize(said.alloc));
    match (&*text, metadata.crs().crs_type()) {
        (Ok(Some(text)), _) => said.push(text.as_str()),
        (Ok(None), None) => said.push("-"),
        (Ok(None), Some(lone)) => {
            said.push("- ");
            said.push(lone.as_text());
        }
        (Err(error), _) => said.refusal(error),
    }
}

/// Says an error: its variant, and all that it prints; out of memory is no answer.
pub fn say_error(said: &mut Said, error: &GeoArrowError) {
    let variant = match error {
        GeoArrowError::Arrow(ArrowError::OutOfMemory) => return said.fail(),
        GeoArrowError::Arrow(_) => "Arrow",
        GeoArrowError::InvalidGeoArrow(_) => "InvalidGeoArrow",
        _ => "another variant",
    };
    said.push(variant);
    said.push(": ");
    said.shown(error);
}
