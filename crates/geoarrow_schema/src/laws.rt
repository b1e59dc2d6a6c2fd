//! Laws of the types, for the crates above: functions whose contract is the law.
ghost use Rattle.geoarrow_schema.specs.declared.types.GeoArrowType.{GeoArrowType};
ghost use Rattle.std.specs.Arc.{arc_value};
ghost use Rattle.std.specs.Prelude.{◌≡◌, ◌↔◌, IsTrue};
ghost use Rattle.geoarrow_layout.specs.declared.names.ExtensionName.TheVariants as names;
ghost use Rattle.geoarrow_layout.specs.Cited.{FieldTree, name_text};
ghost use Rattle.geoarrow_meta.specs.Read.{empty};
ghost use Rattle.geoarrow_schema.specs.contracts.types.GeoArrowTypePartialEq.TheImpl as types;
ghost use Rattle.geoarrow_schema.specs.Types.{kind_of, meta_of, SameType};
ghost use Rattle.geoarrow_schema.specs.Reads.{Reads};
ghost use Rattle.geoarrow_schema.specs.Infers.{Infers, ReadsOrInfers, IsInferable, IsBareColumn};

use crate::types::GeoArrowType;
use arrow_values::Field;
use geoarrow_layout::infer_kind;
use geoarrow_meta::laws::equality_test_is_exact;
use geoarrow_native::laws::reads_as_one_column;
use geoarrow_native::{
    BoxType, ColumnEncoding, Encoding, Geometry, GeometryType, Rect, SerializedType, Wkb, Wkt,
};

/// A law: a field is read as one type alone. There is nothing to run.
pub fn reads_as_one(field: &Field)
    ensures { (g h : GeoArrowType) → Reads field.now g → Reads field.now h → SameType g h }
{
    reads_as_one_column(field);
}

/// A law: a field without a GeoArrow name is taken for one type alone.
pub fn infers_as_one(field: &Field)
    ensures { (g h : GeoArrowType) → Infers field.now g → Infers field.now h → SameType g h }
{
    infer_kind(field.data_type());
}

/// A law: a field is read as, or else taken for, one type alone.
pub fn reads_or_infers_as_one(field: &Field)
    ensures { (g h : GeoArrowType) → ReadsOrInfers field.now g → ReadsOrInfers field.now h → SameType g h }
{
    reads_as_one(field);
    infers_as_one(field);
}

/// A law: a field with the data type that is written for points, or for well-known binary or text, and without the two
/// extension keys, is taken for that kind with the default metadata. There is nothing to run.
#[tactic(auto, using(crate::proofs::Inferable::bare_inferred))]
pub fn written_is_inferred()
    ensures { (f : FieldTree) (g : GeoArrowType) → IsInferable (kind_of g) → IsBareColumn f (kind_of g)
        → meta_of g ≡ empty → Infers f g }
{}

/// A law: `==` returns true for two types of geometries of any kind exactly if coordinate type and metadata are equal.
pub fn geometry_equality_is_exact(one: &GeometryType, other: &GeometryType) -> bool
    ensures { IsTrue result ↔ ((one.now.encoding.coord_type ≡ other.now.encoding.coord_type)
        × (arc_value one.now.metadata ≡ arc_value other.now.metadata)) }
{
    equality_test_is_exact();
    one == other
}

/// A law: `==` returns true for two types of boxes exactly if dimension and metadata are equal.
pub fn box_equality_is_exact(one: &BoxType, other: &BoxType) -> bool
    ensures { IsTrue result ↔ ((one.now.encoding.dimension ≡ other.now.encoding.dimension)
        × (arc_value one.now.metadata ≡ arc_value other.now.metadata)) }
{
    equality_test_is_exact();
    one == other
}

/// A law: `==` returns true for two types of well-known binary, or of text, exactly if their metadata are equal.
pub fn serialized_equality_is_exact<E: Encoding>(
    one: &SerializedType<E>,
    other: &SerializedType<E>,
) -> bool
    ensures { IsTrue result ↔ (arc_value one.now.metadata ≡ arc_value other.now.metadata) }
{
    equality_test_is_exact();
    one == other
}

/// A law: the test behind `==`, by which a value that holds types is compared, returns true for two types exactly if
/// their kinds and their metadata are equal. There is nothing to run.
pub fn type_test_is_exact()
    ensures { (g h : GeoArrowType) → IsTrue ((types.eq-value).it g h) ↔ SameType g h }
{
    equality_test_is_exact();
}

/// A law: `==` returns true for two types exactly if their kinds and their metadata are equal.
pub fn equality_is_exact(one: &GeoArrowType, other: &GeoArrowType) -> bool
    ensures { IsTrue result ↔ SameType one.now other.now }
{
    type_test_is_exact();
    one == other
}

/// A law: the constants `NAME` of boxes, geometries of any kind, well-known binary and text are their extension names.
pub fn names_of_types() -> (&'static str, &'static str, &'static str, &'static str)
    ensures boxes { result.0.now ≡ name_text names.Rect }
    ensures geometries { result.1.now ≡ name_text names.Geometry }
    ensures binary { result.2.now ≡ name_text names.Wkb }
    ensures text { result.3.now ≡ name_text names.Wkt }
{
    (Rect::NAME, Geometry::NAME, Wkb::NAME, Wkt::NAME)
}
