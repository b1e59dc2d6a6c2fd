//! What the errors print, and how each of the two holds the other.
use arrow_values::{ArrowError, GeoArrowError};
use rows::asked::Asked;
use rows::said::Said;
use std::alloc::AllocError;
use std::io;
use std::mem::ManuallyDrop;

/// The error of GeoArrow of that name, with the message `m` where it has one.
fn geoarrow_error(said: &mut Said, variant: &str) -> GeoArrowError {
    let message = said.owned("m");
    match variant {
        "Arrow" => GeoArrowError::from(ArrowError::SchemaError(message)),
        "Crs" => GeoArrowError::Crs(message),
        "External" => GeoArrowError::External(message),
        "FlatGeobuf" => GeoArrowError::FlatGeobuf(message),
        "GeoParquet" => GeoArrowError::GeoParquet(message),
        "InvalidGeoArrow" => GeoArrowError::InvalidGeoArrow(message),
        "IncorrectGeometryType" => GeoArrowError::IncorrectGeometryType(message),
        "Wkb" => GeoArrowError::Wkb(message),
        "Wkt" => GeoArrowError::Wkt(message),
        _ => without_message(said, variant),
    }
}

/// The error of GeoArrow of that name, without a message; or what a call or a conversion makes.
fn without_message(said: &mut Said, variant: &str) -> GeoArrowError {
    match variant {
        "IOError" => return GeoArrowError::from(io::Error::from(io::ErrorKind::NotFound)),
        "From<AllocError>" => return GeoArrowError::from(AllocError),
        "invalid_geoarrow" => return GeoArrowError::invalid_geoarrow(said.alloc, "m"),
        "Overflow" => {}
        _ => said.fail(),
    }
    GeoArrowError::Overflow
}

/// The error of Arrow of that name, with the message `m` where it has one; or what a call or a conversion makes.
fn arrow_error(said: &mut Said, variant: &str) -> ArrowError {
    let message = said.owned("m");
    match variant {
        "SchemaError" => return ArrowError::SchemaError(message),
        "InvalidArgumentError" => return ArrowError::InvalidArgumentError(message),
        "ExternalError" => match Box::new(said.alloc, GeoArrowError::Crs(message)) {
            Ok(inner) => return ArrowError::ExternalError(inner),
            Err(_) => said.fail(),
        },
        "From<AllocError>" => return ArrowError::from(AllocError),
        "schema_error" => return ArrowError::schema_error(said.alloc, "m"),
        "OutOfMemory" => {}
        _ => said.fail(),
    }
    ArrowError::OutOfMemory
}

/// The name of the variant of an error.
fn variant_of(error: &ArrowError) -> &'static str {
    match error {
        ArrowError::SchemaError(_) => "SchemaError",
        ArrowError::InvalidArgumentError(_) => "InvalidArgumentError",
        ArrowError::ExternalError(_) => "ExternalError",
        ArrowError::OutOfMemory => "OutOfMemory",
    }
}

/// Says which error of Arrow an error of GeoArrow becomes, and what that prints.
fn into_arrow(it: &mut Asked<'_>) {
    let error = geoarrow_error(&mut it.said, it.text);
    it.before();
    let found = ManuallyDrop::new(error.into_arrow_error(it.alloc));
    it.after();
    match &*found {
        Ok(error) => {
            it.said.push(variant_of(error));
            it.said.push(": ");
            it.said.shown(error);
        }
        Err(AllocError) => it.said.fail(),
    }
}

/// Says what an error prints.
pub fn answer(it: &mut Asked<'_>) {
    match it.command {
        "GeoArrowError" => {
            let error = ManuallyDrop::new(geoarrow_error(&mut it.said, it.text));
            it.said.shown(&*error);
        }
        "ArrowError" => {
            let error = ManuallyDrop::new(arrow_error(&mut it.said, it.text));
            it.said.shown(&*error);
        }
        _ => into_arrow(it),
    }
}
