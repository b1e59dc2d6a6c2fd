//! The parts of a type, and what stands in their place.
use crate::schema::spelled::{metadata_of, type_of};
use crate::schema::words::say_type;
use geoarrow_schema::GeoArrowType;
use rows::asked::Asked;
use rows::compared::{Compared, is_same_hashed};
use rows::said::Said;
use rows::texts::{coord_type, dimension};
use std::alloc::AllocError;
use std::mem::ManuallyDrop;

/// Says a type after a change, as its getters tell it.
pub fn changed(it: &mut Asked<'_>, one: ManuallyDrop<GeoArrowType>, part: &str) {
    match it.command {
        "with_metadata" => with_metadata(it, one, part),
        "with_coord_type" => {
            let coord_type = coord_type(&mut it.said, part);
            it.before();
            say_changed(
                it,
                ManuallyDrop::into_inner(one).with_coord_type(coord_type),
            );
        }
        "with_dimension" => {
            let dimension = dimension(&mut it.said, part);
            it.before();
            say_changed(it, ManuallyDrop::into_inner(one).with_dimension(dimension));
        }
        "normalized" => {
            it.before();
            match ManuallyDrop::into_inner(one).normalized(it.alloc) {
                Ok(one) => say_changed(it, one),
                Err(AllocError) => it.said.fail(),
            }
        }
        _ => {
            it.before();
            say_changed(it, ManuallyDrop::into_inner(one));
        }
    }
}

/// Says a type with other metadata.
fn with_metadata(it: &mut Asked<'_>, one: ManuallyDrop<GeoArrowType>, text: &str) {
    if let Some(metadata) = metadata_of(&mut it.said, text) {
        it.before();
        say_changed(it, ManuallyDrop::into_inner(one).with_metadata(metadata));
    }
}

/// Says what a type has become.
fn say_changed(it: &mut Asked<'_>, one: GeoArrowType) {
    it.after();
    say_type(&mut it.said, &ManuallyDrop::new(one));
}

/// Says whether two types are written alike, and whether their normal forms are equal.
pub fn same_written(it: &mut Asked<'_>, one: ManuallyDrop<GeoArrowType>, other: &str) {
    let Some(other) = type_of(&mut it.said, other) else {
        return it.said.fail();
    };
    it.before();
    let found = one.same_written(&other);
    it.after();
    it.said.truth(found);
    it.said.push(" ");
    let one = ManuallyDrop::into_inner(one).normalized(it.alloc);
    let other = ManuallyDrop::into_inner(other).normalized(it.alloc);
    match &*ManuallyDrop::new((one, other)) {
        (Ok(one), Ok(other)) => it.said.truth(*one == *other),
        _ => it.said.fail(),
    }
}

/// The types that texts spell, cloned and compared.
pub struct Spelled {}

impl Compared for Spelled {
    fn are_equal(said: &mut Said, one: &str, other: &str) -> bool {
        match (type_of(said, one), type_of(said, other)) {
            (Some(one), Some(other)) => {
                let clone = ManuallyDrop::new(one.try_clone(said.alloc));
                is_same_hashed(said, &clone, &other)
            }
            _ => {
                said.fail();
                false
            }
        }
    }
}
