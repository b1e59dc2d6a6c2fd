//! The calls that each of the eleven types has by itself.
use crate::metadata::say_text;
use crate::schema::columns::{own_data_type, own_field};
use crate::schema::spelled::{field_of, tree_of};
use crate::schema::words::say_type;
use arrow_values::{ArrowError, DataType, ExtensionType, Field};
use geoarrow_layout::dimension_word;
use geoarrow_native::{ColumnType, KindEncoding};
use geoarrow_schema::generic::{Encoding, SerializedType, Wkb, Wkt};
use geoarrow_schema::type_id::GeometryTypeId;
use geoarrow_schema::{
    BoxType, GeoArrowType, GeometryCollectionType, GeometryType, LineStringType, Metadata,
    MultiLineStringType, MultiPointType, MultiPolygonType, PointType, PolygonType,
};
use rows::asked::Asked;
use rows::notation::new_field;
use rows::said::Said;
use rows::texts::first_word;
use std::alloc::AllocError;
use std::mem::ManuallyDrop;
use std::sync::Arc;

/// Says the type of a word, made of a field.
pub fn make(it: &mut Asked<'_>) {
    let (word, text) = first_word(&mut it.said, it.text);
    let field = field_of(&mut it.said, text);
    match word {
        "point" => of_geometry::<PointType>(it, &field),
        "linestring" => of_geometry::<LineStringType>(it, &field),
        "polygon" => of_geometry::<PolygonType>(it, &field),
        "multipoint" => of_geometry::<MultiPointType>(it, &field),
        "multilinestring" => of_geometry::<MultiLineStringType>(it, &field),
        "multipolygon" => of_geometry::<MultiPolygonType>(it, &field),
        "geometrycollection" => of_geometry::<GeometryCollectionType>(it, &field),
        "geometry" => of_geometry::<GeometryType>(it, &field),
        "box" => of_geometry::<BoxType>(it, &field),
        "wkb" => of_bytes::<Wkb>(it, &field),
        "wkt" => of_bytes::<Wkt>(it, &field),
        _ => it.said.fail(),
    }
}

/// A type that is made of a field: by the field's `try_extension_type`; or by the type's own `try_new`, of the data type and of
/// what its `deserialize_metadata` makes of the metadata text.
fn made_of<E: ExtensionType<Metadata = Arc<Metadata>>>(
    it: &mut Asked<'_>,
    field: &Field,
) -> Result<E, ArrowError> {
    if it.command == "try_extension_type" {
        return field.try_extension_type::<E>(it.alloc);
    }
    let metadata = E::deserialize_metadata(it.alloc, field.extension_type_metadata())?;
    it.before();
    let made = E::try_new(it.alloc, field.data_type(), metadata);
    it.after();
    made
}

/// Says the words of a type that is made of a field, or what its refusal prints.
fn of_geometry<E: ExtensionType<Metadata = Arc<Metadata>> + Into<GeoArrowType>>(
    it: &mut Asked<'_>,
    field: &Field,
) {
    match made_of::<E>(it, field) {
        Ok(found) => say_type(
            &mut it.said,
            &ManuallyDrop::<GeoArrowType>::new(found.into()),
        ),
        Err(error) => it.said.refusal(&ManuallyDrop::new(error)),
    }
}

/// What well-known binary or text is made, of which the type says the metadata alone.
fn of_bytes<E: Encoding>(it: &mut Asked<'_>, field: &Field) {
    match &*ManuallyDrop::new(made_of::<SerializedType<E>>(it, field)) {
        Ok(found) => {
            let text = ManuallyDrop::new(found.serialize_metadata(it.alloc));
            say_text(&mut it.said, &text);
        }
        Err(error) => it.said.refusal(error),
    }
}

/// The field over which a type is used: of the data type that a text spells, or the one that it spells.
fn used_over(it: &mut Asked<'_>, text: &str) -> ManuallyDrop<Field> {
    match it.command {
        "try_with_extension_type" | "with_extension_type" => field_of(&mut it.said, text),
        "supports_data_type" => {
            let tree = ManuallyDrop::into_inner(tree_of(&mut it.said, text));
            ManuallyDrop::new(new_field(&mut it.said, "g", tree, true))
        }
        _ => field_of(&mut it.said, "- | Null"),
    }
}

/// Says what comes of the use of a type by calls of its own, over what stands after it: a data type, a field or a field's name.
pub fn used(it: &mut Asked<'_>, one: &GeoArrowType, text: &str) {
    match one {
        GeoArrowType::Point(own) => use_of_kind(it, own, text),
        GeoArrowType::LineString(own) => use_of_kind(it, own, text),
        GeoArrowType::Polygon(own) => use_of_kind(it, own, text),
        GeoArrowType::MultiPoint(own) => use_of_kind(it, own, text),
        GeoArrowType::MultiLineString(own) => use_of_kind(it, own, text),
        GeoArrowType::MultiPolygon(own) => use_of_kind(it, own, text),
        GeoArrowType::GeometryCollection(own) => use_of_kind(it, own, text),
        GeoArrowType::Rect(own) => use_of_kind(it, own, text),
        GeoArrowType::Geometry(own) => use_of_kind(it, own, text),
        GeoArrowType::Wkb(own) | GeoArrowType::LargeWkb(own) | GeoArrowType::WkbView(own) => {
            use_of_bytes(it, own, text);
        }
        GeoArrowType::Wkt(own) | GeoArrowType::LargeWkt(own) | GeoArrowType::WktView(own) => {
            use_of_bytes(it, own, text);
        }
    }
}

/// Says how a type with a kind of its own is used.
fn use_of_kind<E: KindEncoding>(it: &mut Asked<'_>, own: &ColumnType<E>, text: &str) {
    match it.command {
        "to_field" => own_field(it, own, text),
        "data_type" => own_data_type(it, own, text),
        _ => use_of(it, own, text),
    }
}

/// Says how well-known binary or text is used, which has neither a field nor a data type by a call of its own.
fn use_of_bytes<E: Encoding>(it: &mut Asked<'_>, own: &SerializedType<E>, text: &str) {
    match it.command {
        "to_field" => {}
        "data_type" => it.said.push("-"),
        _ => use_of(it, own, text),
    }
}

/// Says how a type is used: asked whether it supports a data type, written on a field by `try_with_extension_type`, or by
/// `with_extension_type` on a field that can carry it, asked for its metadata's text, or for its name, by its constant and by its
/// call.
fn use_of<E: ExtensionType>(it: &mut Asked<'_>, own: &E, text: &str) {
    let mut field = used_over(it, text);
    match it.command {
        "supports_data_type" => supports(it, own, field.data_type()),
        "try_with_extension_type" => write_on(it, own, &mut field),
        "with_extension_type" => carry(it, own, field),
        "serialize_metadata" => {
            it.before();
            let text = ManuallyDrop::new(own.serialize_metadata(it.alloc));
            it.after();
            say_text(&mut it.said, &text);
        }
        _ => {
            it.said.push(E::NAME);
            it.said.push(" ");
            it.said.push(E::extension_name());
        }
    }
}

/// Says whether a type supports a data type, or what the refusal prints.
fn supports<E: ExtensionType>(it: &mut Asked<'_>, own: &E, data_type: &DataType) {
    it.before();
    let found = ManuallyDrop::new(own.supports_data_type(it.alloc, data_type));
    it.after();
    match &*found {
        Ok(()) => it.said.push("supported"),
        Err(error) => it.said.refusal(error),
    }
}

/// Says the line of a field on which a type is written, or what the refusal prints and whether the field is as it was. Out of
/// memory is no answer where it is.
fn write_on<E: ExtensionType>(it: &mut Asked<'_>, own: &E, field: &mut Field) {
    let before = ManuallyDrop::new(field.try_clone(it.alloc));
    let written = ManuallyDrop::new(field.try_with_extension_type(it.alloc, own));
    match (&*before, &*written) {
        (Err(AllocError), _) => it.said.fail(),
        (Ok(_), Ok(())) => it.said.line(field),
        (Ok(before), Err(_)) if *field != *before => it.said.push("changed"),
        (Ok(_), Err(error)) => {
            it.said.refusal(error);
            it.said.push(", as it was");
        }
    }
}

/// Says the line of a field that carries a type. Has no answer where it cannot carry it.
fn carry<E: ExtensionType>(it: &mut Asked<'_>, own: &E, field: ManuallyDrop<Field>) {
    let supported = ManuallyDrop::new(own.supports_data_type(it.alloc, field.data_type()));
    match &*supported {
        Ok(()) => {
            let carrying = ManuallyDrop::into_inner(field).with_extension_type(it.alloc, own);
            it.said.line_or_refusal(&ManuallyDrop::new(carrying));
        }
        Err(_) => it.said.fail(),
    }
}

/// Says the type id of a native type, its offset, and the dimension by which it goes.
pub fn geometry_type_id(it: &mut Asked<'_>, one: &GeoArrowType) {
    it.before();
    match one {
        GeoArrowType::Point(own) => say_type_id(&mut it.said, own),
        GeoArrowType::LineString(own) => say_type_id(&mut it.said, own),
        GeoArrowType::Polygon(own) => say_type_id(&mut it.said, own),
        GeoArrowType::MultiPoint(own) => say_type_id(&mut it.said, own),
        GeoArrowType::MultiLineString(own) => say_type_id(&mut it.said, own),
        GeoArrowType::MultiPolygon(own) => say_type_id(&mut it.said, own),
        GeoArrowType::GeometryCollection(own) => say_type_id(&mut it.said, own),
        _ => it.said.fail(),
    }
    it.after();
}

/// Says the type id, the offset and the dimension of a type that has them.
fn say_type_id<T: GeometryTypeId>(said: &mut Said, own: &T) {
    said.shown(&own.geometry_type_id());
    said.push(" ");
    said.shown(&T::GEOMETRY_TYPE_OFFSET);
    said.push(" ");
    said.push(dimension_word(Some(own.dimension())));
}
