//! Commands that build data types. Each says the line of a field `g`, which may be null, of the data type.
use arrow_values::DataType;
use geoarrow_layout::{
    Kind, box_data_type, coord_data_type, geometry_data_type, kind_data_type, list_data_type,
    mixed_data_type, wkb_data_type, wkt_data_type,
};
use rows::asked::Asked;
use rows::notation::{made, new_field};
use rows::texts::{coord_type, dimension, first_word, kind};
use std::alloc::{AllocError, Global};
use std::mem::ManuallyDrop;

/// Builds coordinates, or the union in a collection.
fn of_coords(it: &mut Asked<'_>) -> Result<DataType, AllocError> {
    let (first, second) = first_word(&mut it.said, it.text);
    let first = coord_type(&mut it.said, first);
    let second = dimension(&mut it.said, second);
    if it.command == "coord_data_type" {
        coord_data_type(it.alloc, first, second)
    } else {
        mixed_data_type(it.alloc, first, second)
    }
}

/// The data type of a kind, by the builder for its sort.
fn of_sort(alloc: Global, kind: Kind) -> Result<DataType, AllocError> {
    match kind {
        Kind::Native(native, coord_type, dimension) => {
            list_data_type(alloc, native, coord_type, dimension)
        }
        Kind::Geometry(coord_type) => geometry_data_type(alloc, coord_type),
        Kind::Rect(dimension) => box_data_type(alloc, dimension),
        Kind::Wkb(width) => Ok(wkb_data_type(width)),
        Kind::Wkt(width) => Ok(wkt_data_type(width)),
    }
}

/// Builds the layout of a kind by the builder for its sort; says otherwise where `kind_data_type` builds another.
fn of_kind(it: &mut Asked<'_>) -> ManuallyDrop<DataType> {
    let kind = kind(&mut it.said, it.text);
    let data_type = made(&mut it.said, of_sort(it.alloc, kind));
    let other = made(&mut it.said, kind_data_type(it.alloc, kind));
    if *other != *data_type {
        it.said.push("kind_data_type builds another, ");
    }
    data_type
}

/// Says the line of a field of the data type that is built.
pub fn answer(it: &mut Asked<'_>) {
    let data_type = if it.command == "layout" {
        of_kind(it)
    } else {
        let built = of_coords(it);
        made(&mut it.said, built)
    };
    let data_type = ManuallyDrop::into_inner(data_type);
    let field = ManuallyDrop::new(new_field(&mut it.said, "g", data_type, true));
    it.said.line(&field);
}
