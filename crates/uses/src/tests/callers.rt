//! The callers of `uses`, each once where it answers.
use crate::{
    any_type, are_written_alike, column_kind, join_unions, keep_wanted, projjson_text,
    survey_columns, write_column,
};
use arrow_values::{DataType, Field, UnionFields};
use geoarrow_schema::{
    BoxType, Crs, Dimension, GeoArrowType, GeometryType, Kind, Metadata, PointType,
};
use serde_json::Value;
use std::alloc::{AllocError, Global};
use std::mem::ManuallyDrop;
use std::sync::Arc;
use std::test::Fail;

/// A CRS in PROJJSON.
const PROJJSON: &str = r#"{"type":"GeographicCRS"}"#;

/// A column of points, whose CRS is this PROJJSON.
fn points(alloc: Global, projjson: &str) -> Result<Field, Fail> {
    let value = ManuallyDrop::new(Value::from_str(alloc, projjson)?);
    let crs = if Crs::is_projjson(&value) {
        Crs::from_projjson(ManuallyDrop::into_inner(value))
    } else {
        Crs::default()
    };
    let metadata = Arc::new(alloc, Metadata::new(crs, None))?;
    let geometry = any_type(PointType::new(Dimension::XY, metadata));
    Ok(write_column(alloc, "place", true, geometry)?)
}

/// A column of geometries of any kind.
fn shapes(alloc: Global) -> Result<Field, Fail> {
    let metadata = Arc::new(alloc, Metadata::default())?;
    let geometry = GeoArrowType::Geometry(GeometryType::new(metadata));
    Ok(write_column(alloc, "shape", true, geometry)?)
}

/// The members with these type ids of the column. Errs where it is none of a union, so that a test of it fails.
fn kept(alloc: Global, column: &Field, ids: &[i8]) -> Result<UnionFields, AllocError> {
    let narrowed = ManuallyDrop::new(keep_wanted(alloc, column, ids)?);
    match (*narrowed).as_ref().map(Field::data_type) {
        Some(DataType::Union(members, _)) => members.try_clone(alloc),
        _ => Err(AllocError),
    }
}

/// How many members two parts of a column of any kind have, once they are joined.
fn joined_len(alloc: Global) -> Result<usize, Fail> {
    let column = ManuallyDrop::new(shapes(alloc)?);
    let one = kept(alloc, &column, &[1, 3])?;
    let other = kept(alloc, &column, &[2, 31])?;
    match &*ManuallyDrop::new(join_unions(one, other)?) {
        Some(DataType::Union(members, _)) => Ok(members.len()),
        _ => Ok(0),
    }
}

/// Whether columns of points with these two PROJJSON are written alike.
fn are_alike(alloc: Global, one: &str, other: &str) -> Result<bool, Fail> {
    let one = ManuallyDrop::new(points(alloc, one)?);
    let other = ManuallyDrop::new(points(alloc, other)?);
    Ok(are_written_alike(alloc, &one, &other)?)
}

/// A column that is called points and holds texts.
fn faulty(alloc: Global) -> Result<Field, Fail> {
    Ok(points(alloc, PROJJSON)?.with_data_type(DataType::Utf8))
}

/// The kind of a column of boxes.
fn box_kind(alloc: Global) -> Result<Kind, Fail> {
    let metadata = Arc::new(alloc, Metadata::default())?;
    let boxes = ManuallyDrop::new(BoxType::new(Dimension::XYZ, metadata));
    let column = ManuallyDrop::new(boxes.to_field(alloc, "bounds", true)?);
    Ok(column_kind(alloc, &column)?)
}

#[test]
fn of_a_kind(rt: HostRuntime) -> Result<(), Fail> {
    assert!(rt; box_kind(rt.alloc())? == Kind::Rect(Dimension::XYZ));
    Ok(())
}

#[test]
fn of_two_columns(rt: HostRuntime) -> Result<(), Fail> {
    assert!(rt; are_alike(rt.alloc(), PROJJSON, r#"{ "type": "GeographicCRS" }"#)?);
    assert!(rt; !are_alike(rt.alloc(), PROJJSON, "{}")?);
    Ok(())
}

/// Whether the CRS of a column of points is the text that it was made of.
fn is_crs_kept(alloc: Global) -> Result<bool, Fail> {
    let column = ManuallyDrop::new(points(alloc, PROJJSON)?);
    match &*ManuallyDrop::new(projjson_text(alloc, &column)?) {
        Some(text) => Ok(text.as_str() == PROJJSON),
        None => Ok(false),
    }
}

#[test]
fn of_a_crs(rt: HostRuntime) -> Result<(), Fail> {
    assert!(rt; is_crs_kept(rt.alloc())?);
    Ok(())
}

/// Whether the one column of points and the faulty one before it are found.
fn is_surveyed(alloc: Global) -> Result<bool, Fail> {
    let columns = ManuallyDrop::new([faulty(alloc)?, points(alloc, PROJJSON)?]);
    let survey = ManuallyDrop::new(survey_columns(alloc, &*columns)?);
    Ok(survey.geometries == 1 && survey.faulty.first() == Some(&0))
}

#[test]
fn of_a_schema(rt: HostRuntime) -> Result<(), Fail> {
    assert!(rt; is_surveyed(rt.alloc())?);
    Ok(())
}

#[test]
fn of_unions(rt: HostRuntime) -> Result<(), Fail> {
    assert!(rt; joined_len(rt.alloc())? == 4);
    Ok(())
}
