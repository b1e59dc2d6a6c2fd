//! What no row says of types, fields, structs and unions: clones of a type by its own call, parts that are handed out, what `Debug`
//! prints, fields that are changed, and members by their places.
use crate::tests::extension::{column, texts};
use arrow_values::{ArrowError, DataType, Dimensions, Field, Fields, UnionFields};
use geoarrow_schema::CoordType::Interleaved;
use geoarrow_schema::Dimension::XYM;
use geoarrow_schema::generic::{
    Encoding, GeometryCollection, LineString, MultiLineString, MultiPoint, MultiPolygon,
    NativeShape, NativeType, Point, Polygon, SerializedType, Wkb, Wkt,
};
use geoarrow_schema::{Crs, Edges, GeometryType, Metadata, RectType};
use std::alloc::{AllocError, Global};
use std::collections::BTreeMap;
use std::fmt::Debug;
use std::hash::{DefaultHasher, Hash, Hasher};
use std::mem::ManuallyDrop;
use std::sync::Arc;
use std::test::Fail;

/// The metadata of edges alone, to be shared.
fn shared(alloc: Global, edges: Option<Edges>) -> Result<Arc<Metadata>, AllocError> {
    Ok(Arc::new(alloc, Metadata::new(Crs::default(), edges))?)
}

/// The hash of a value.
fn hash_of<T: Hash>(value: &T) -> u64 {
    let mut state = DefaultHasher::new();
    value.hash(&mut state);
    state.finish()
}

/// Whether two values are equal and hash equally, and `Debug` prints that name first.
fn are_same<T: PartialEq + Hash + Debug>(
    alloc: Global,
    name: &str,
    one: &T,
    other: &T,
) -> Result<bool, AllocError> {
    let printed = format!(in alloc; "{one:?}")?;
    let is_named = printed.as_str().starts_with(name);
    Ok(is_named && one == other && hash_of(one) == hash_of(other))
}

/// Whether the native type of that name is the same as its clone, and differs from the clone with other metadata, which hands its
/// three parts out.
fn is_native<S: NativeShape>(alloc: Global, name: &str) -> Result<bool, AllocError> {
    let one = NativeType::<S>::new(XYM, shared(alloc, Some(Edges::Karney))?);
    let one = one.with_coord_type(Interleaved);
    let other = one.try_clone(alloc)?;
    let is_cloned = are_same(alloc, name, &one, &other)?;
    let other = other.with_metadata(shared(alloc, None)?);
    let differs = one != other;
    let (coord_type, dimension, metadata) = other.into_inner();
    let parts = (coord_type, dimension, metadata.edges());
    Ok(is_cloned && differs && parts == (Interleaved, XYM, None))
}

/// Whether a box type is the same as its clone, and differs from the clone with other metadata.
fn is_box(alloc: Global) -> Result<bool, AllocError> {
    let one = RectType::new(XYM, shared(alloc, Some(Edges::Karney))?);
    let other = one.try_clone(alloc)?;
    let is_cloned = are_same(alloc, "BoxType {", &one, &other)?;
    let other = other.with_metadata(shared(alloc, None)?);
    let parts = (other.dimension(), other.metadata().edges());
    Ok(is_cloned && one != other && parts == (XYM, None))
}

/// Whether a type of geometries is the same as its clone, and differs from the clone with the default metadata.
fn is_geometry(alloc: Global) -> Result<bool, AllocError> {
    let one = GeometryType::new(shared(alloc, Some(Edges::Karney))?);
    let other = one.try_clone(alloc)?;
    let is_cloned = are_same(alloc, "GeometryType {", &one, &other)?;
    let other = other.with_metadata(shared(alloc, None)?);
    Ok(is_cloned && one != other && other == GeometryType::try_default(alloc)?)
}

/// Whether the type of that name of an encoding is the same as its clone, and differs from the clone with the default metadata.
fn is_encoding<E: Encoding>(alloc: Global, name: &str) -> Result<bool, AllocError> {
    let one = SerializedType::<E>::new(shared(alloc, Some(Edges::Karney))?);
    let other = one.try_clone(alloc)?;
    let is_cloned = are_same(alloc, name, &one, &other)?;
    let other = other.with_metadata(shared(alloc, None)?);
    Ok(is_cloned && one != other && other == SerializedType::<E>::try_default(alloc)?)
}

#[test]
fn of_types_are_cloned_and_handed_out(rt: HostRuntime) {
    let alloc = rt.alloc();
    let are_right = [
        is_native::<Point>(alloc, "PointType {"),
        is_native::<LineString>(alloc, "LineStringType {"),
        is_native::<Polygon>(alloc, "PolygonType {"),
        is_native::<MultiPoint>(alloc, "MultiPointType {"),
        is_native::<MultiLineString>(alloc, "MultiLineStringType {"),
        is_native::<MultiPolygon>(alloc, "MultiPolygonType {"),
        is_native::<GeometryCollection>(alloc, "GeometryCollectionType {"),
        is_box(alloc),
        is_geometry(alloc),
        is_encoding::<Wkb>(alloc, "WkbType {"),
        is_encoding::<Wkt>(alloc, "WktType {"),
    ];
    assert!(rt; are_right == [Ok(true); 11], "{are_right:?}");
}

/// The field `g` of texts, with those keys and texts.
fn of_texts(alloc: Global, pairs: &[(&str, &str)]) -> Result<Field, AllocError> {
    column(alloc, pairs, DataType::Utf8)
}

/// Whether a new field of a list has no key, and its items keep theirs.
fn is_list_of_field(alloc: Global) -> Result<bool, AllocError> {
    let list = Field::new_list(alloc, "g", of_texts(alloc, &[("k", "v")])?, true)?;
    let list = ManuallyDrop::new(list);
    let items = Box::new(alloc, of_texts(alloc, &[("k", "v")])?)?;
    let wanted = ManuallyDrop::new(column(alloc, &[], DataType::List(items))?);
    Ok(*list == *wanted)
}

/// Whether a field with other keys has these alone.
fn is_with_metadata(alloc: Global) -> Result<bool, AllocError> {
    let pairs = [("k", "v")];
    let field = ManuallyDrop::new(of_texts(alloc, &[("k", "w"), ("l", "w")])?);
    let texts = texts(alloc, &pairs)?;
    let changed = ManuallyDrop::new(ManuallyDrop::into_inner(field).with_metadata(texts));
    let wanted = ManuallyDrop::new(of_texts(alloc, &pairs)?);
    Ok(*changed == *wanted)
}

/// Whether a field whose keys are taken away is the field without any.
fn is_without_metadata(alloc: Global) -> Result<bool, AllocError> {
    let mut changed = ManuallyDrop::new(of_texts(alloc, &[("k", "v")])?);
    changed.set_metadata(BTreeMap::new(alloc));
    let wanted = ManuallyDrop::new(of_texts(alloc, &[])?);
    Ok(*changed == *wanted)
}

#[test]
fn of_fields_are_changed_alone(rt: HostRuntime) {
    let alloc = rt.alloc();
    let are_right = [
        is_list_of_field(alloc),
        is_with_metadata(alloc),
        is_without_metadata(alloc),
    ];
    assert!(rt; are_right == [Ok(true); 3], "{are_right:?}");
}

/// The ids of a union's members, and the names of the fields of a struct.
const MEMBERS: [(i8, &str); 3] = [(7, "x"), (0, "y"), (127, "x")];

/// The ids of members.
fn ids_of(alloc: Global, members: &[(i8, &str)]) -> Result<Vec<i8>, AllocError> {
    let mut ids = Vec::new(alloc);
    for &(id, _) in members {
        ids.push(id)?;
    }
    Ok(ids)
}

/// The fields of members.
fn fields_of(alloc: Global, members: &[(i8, &str)]) -> Result<Vec<Field>, AllocError> {
    let mut fields = Vec::new(alloc);
    for &(_, name) in members {
        fields.push(Field::new(alloc, name, DataType::Null, true)?)?;
    }
    Ok(fields)
}

/// Whether the fields of a struct have these names, by their places and in order, and there are no others.
fn are_fields(fields: &Fields, members: &[(i8, &str)]) -> bool {
    for (place, &(_, name)) in members.iter().enumerate() {
        if fields.get(place).map(Field::name) != Some(name)
            || fields.iter().nth(place).map(Field::name) != Some(name)
        {
            return false;
        }
    }
    let count = members.len();
    fields.get(count).is_none()
        && fields.iter().count() == count
        && fields.is_empty() == members.is_empty()
}

/// Whether a member is there, and has that id, and its field that name.
fn is_member(found: Option<(i8, &Field)>, id: i8, name: &str) -> bool {
    match found {
        Some((found_id, field)) => found_id == id && field.name() == name,
        None => false,
    }
}

/// Whether the members of a union are these, by their places and in order, and there are no others.
fn are_members(union: &UnionFields, members: &[(i8, &str)]) -> bool {
    for (place, &(id, name)) in members.iter().enumerate() {
        if !is_member(union.get(place), id, name) || !is_member(union.iter().nth(place), id, name) {
            return false;
        }
    }
    let count = members.len();
    union.get(count).is_none()
        && union.iter().count() == count
        && union.is_empty() == members.is_empty()
}

/// Whether a struct and a union of members have them in order.
fn stand_in_order(alloc: Global, members: &[(i8, &str)]) -> Result<bool, ArrowError> {
    let fields = ManuallyDrop::new(Fields::from(fields_of(alloc, members)?));
    let ids = ids_of(alloc, members)?;
    let union = UnionFields::try_new(alloc, ids, fields_of(alloc, members)?)?;
    let union = ManuallyDrop::new(union);
    Ok(are_fields(&fields, members) && are_members(&union, members))
}

#[test]
fn of_structs_and_unions_stand_in_order(rt: HostRuntime) -> Result<(), Fail> {
    assert!(rt; stand_in_order(rt.alloc(), &MEMBERS)?);
    assert!(rt; stand_in_order(rt.alloc(), &[])?);
    Ok(())
}

#[test]
fn of_unknown_coordinates_are_so_many(rt: HostRuntime) {
    assert!(rt; Dimensions::Unknown(0).size() == 0);
    assert!(rt; Dimensions::Unknown(usize::MAX).size() == usize::MAX);
}
