//! Laws of columns, for the crates above: functions with nothing to run, whose contract is the law.
ghost use Rattle.std.specs.Arc.{arc_value};
ghost use Rattle.std.specs.Prelude.{◌≡◌, ◌↔◌, Bool, IsTrue, pos};
ghost use Rattle.geoarrow_layout.specs.declared.native_kinds.Kind.{Kind};
ghost use Rattle.geoarrow_layout.specs.declared.native_kinds.NativeKind.TheVariants as kinds;
ghost use Rattle.geoarrow_layout.specs.declared.names.ExtensionName.TheVariants as names;
ghost use Rattle.geoarrow_layout.specs.Cited.{Text, name_text, type_id_of};
ghost use Rattle.geoarrow_meta.specs.declared.metadata.Metadata.{Metadata};
ghost use Rattle.geoarrow_meta.specs.Written.{meta_value, normal, IsReadBack};
ghost use Rattle.geoarrow_native.specs.Column.{ReadsAs, written_field};

use crate::native::NativeType;
use crate::shape::{LineString, NativeShape, Point, Polygon};
use crate::type_id::GeometryTypeId;
use arrow_values::Field;
use geoarrow_layout::{Kind, layout_reads_back, one_kind};
use geoarrow_meta::Metadata;
use geoarrow_meta::laws::{equality_test_is_exact, printed_reads_back};

/// A law: a field reads as one kind and one metadata alone. There is nothing to run.
#[tactic(auto, using(crate::proofs::Writing::read_once))]
pub fn reads_as_one_column(field: &Field)
    ensures { (j k : Kind) (m n : Metadata) → ReadsAs field.now j m → ReadsAs field.now k n
        → (j ≡ k) × (m ≡ n) }
{
    one_kind();
}

/// A law: the field that is written for a kind and a metadata reads as that kind and the normal form of the metadata,
/// where `serde_json` reads what it printed as the value that it printed. There is nothing to run.
#[tactic(auto, using(crate::proofs::Writing::written_reads))]
pub fn written_field_reads_back(kind: Kind, metadata: &Metadata)
    ensures { (name : Text) (nullable : Bool) → IsReadBack (meta_value metadata.now)
        → ReadsAs (written_field name nullable kind metadata.now) kind (normal metadata.now) }
{
    layout_reads_back(kind);
    printed_reads_back(metadata);
}

/// A law: `==` returns true for two native types exactly if coordinate type, dimension and metadata are equal.
pub fn native_equality_is_exact<S: NativeShape>(one: &NativeType<S>, other: &NativeType<S>) -> bool
    ensures { IsTrue result ↔ ((one.now.encoding.coord_type ≡ other.now.encoding.coord_type)
        × (one.now.encoding.dimension ≡ other.now.encoding.dimension)
        × (arc_value one.now.metadata ≡ arc_value other.now.metadata)) }
{
    equality_test_is_exact();
    one == other
}

/// A law: the type id of a native type is that of its own kind and dimension, by the table of type ids.
pub fn type_id_is_its_own<S: NativeShape>(native_type: &NativeType<S>) -> i8
    ensures { result ≡ pos (type_id_of S.KIND native_type.now.encoding.dimension) }
{
    native_type.geometry_type_id()
}

/// A law: the constants `NAME` of points, line strings and polygons are their extension names.
pub fn names_of_shapes() -> (&'static str, &'static str, &'static str)
    ensures points { result.0.now ≡ name_text (names.Native kinds.Point) }
    ensures line_strings { result.1.now ≡ name_text (names.Native kinds.LineString) }
    ensures polygons { result.2.now ≡ name_text (names.Native kinds.Polygon) }
{
    (Point::NAME, LineString::NAME, Polygon::NAME)
}
