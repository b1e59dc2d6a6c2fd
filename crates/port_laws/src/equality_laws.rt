//! Laws of `==`: it returns true for two values exactly if they are the same.
ghost use Rattle.std.specs.Prelude.{◌≡◌, ◌↔◌, IsTrue};
ghost use Rattle.arrow_values.specs.View.{tree};

use arrow_values::{DataType, Field, Fields, UnionFields};
use geoarrow_meta::crs::CrsValue;
use geoarrow_native::{Encoding, Geometry, Native, NativeShape, Rect, Serialized};

/// A law: `==` returns true for two data types exactly if they are equal as trees.
pub fn data_type_equality_is_exact(one: &DataType, other: &DataType) -> bool
    ensures { IsTrue result ↔ (tree one.now ≡ tree other.now) }
{
    *one == *other
}

/// A law: `==` returns true for two fields exactly if all their parts are equal.
pub fn field_equality_is_exact(one: &Field, other: &Field) -> bool
    ensures { IsTrue result ↔ (one.now ≡ other.now) }
{
    *one == *other
}

/// A law: `==` returns true for two lists of fields exactly if their fields are equal, in order.
pub fn fields_equality_is_exact(one: &Fields, other: &Fields) -> bool
    ensures { IsTrue result ↔ (one.now ≡ other.now) }
{
    *one == *other
}

/// A law: `==` returns true for the members of two unions exactly if ids and fields are equal, in
/// order.
pub fn union_fields_equality_is_exact(one: &UnionFields, other: &UnionFields) -> bool
    ensures { IsTrue result ↔ (one.now ≡ other.now) }
{
    *one == *other
}

/// A law: `==` returns true for two values of a CRS exactly if they are the same JSON value.
#[tactic(auto, using(geoarrow_meta::specs::Code::same_decides))]
pub fn crs_value_equality_is_exact(one: &CrsValue, other: &CrsValue) -> bool
    ensures { IsTrue result ↔ (one.now ≡ other.now) }
{
    *one == *other
}

/// A law: `==` returns true for two encodings of boxes exactly if they are the same.
#[tactic(auto, using(geoarrow_native::specs::Agree::same_box))]
pub fn box_encoding_equality_is_exact(one: &Rect, other: &Rect) -> bool
    ensures { IsTrue result ↔ (one.now ≡ other.now) }
{
    *one == *other
}

/// A law: `==` returns true for two encodings of geometries of any kind exactly if they are the
/// same.
#[tactic(auto, using(geoarrow_native::specs::Agree::same_geometry))]
pub fn geometry_encoding_equality_is_exact(one: &Geometry, other: &Geometry) -> bool
    ensures { IsTrue result ↔ (one.now ≡ other.now) }
{
    *one == *other
}

/// A law: `==` returns true for two native encodings exactly if they are the same.
#[tactic(auto, using(geoarrow_native::specs::Agree::same_native))]
pub fn native_encoding_equality_is_exact<S: NativeShape>(one: &Native<S>, other: &Native<S>) -> bool
    ensures { IsTrue result ↔ (one.now ≡ other.now) }
{
    *one == *other
}

/// A law: `==` returns true for two serialized encodings exactly if they are the same, and any two
/// of well-known binary are, and any two of text.
pub fn serialized_encoding_equality_is_exact<E: Encoding>(
    one: &Serialized<E>,
    other: &Serialized<E>,
) -> bool
    ensures exact { IsTrue result ↔ (one.now ≡ other.now) }
    ensures same { IsTrue result }
{
    *one == *other
}
