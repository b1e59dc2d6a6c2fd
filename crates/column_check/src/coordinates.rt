//! What is doubtful of coordinates: of the names of their fields, and of their numbers.
ghost use Rattle.std.specs.Prelude.{◌≡◌, map};
ghost use Rattle.std.specs.List.{list_all};
ghost use Rattle.std.specs.Str.{bytes_eq};
ghost use Rattle.std.specs.Cmp.Lexicographic.{pointwise};
ghost use Rattle.arrow_values.specs.View.{tree};
ghost use Rattle.arrow_columns.specs.Below.{ref_tree};
ghost use Rattle.geoarrow_layout.specs.Shapes.{has_name};
ghost use Rattle.geoarrow_layout.specs.Layouts.{coordinate_names, box_names};
ghost use Rattle.column_check.specs.Warnings.{is_doubtful_tree, is_doubtful_number, axis_names, in_order, have_names, in_some_order, are_doubtful};

use crate::code::WarningCode;
use arrow_columns::TypeRef;
use arrow_values::DataType;
use geoarrow_layout::{Dimension, Kind};

/// Whether that warning holds of a separated coordinate or a box whose fields have these names.
pub(crate) fn are_doubtful(code: WarningCode, kind: Kind, names: &[&str]) -> bool
    ensures { result ≡ are_doubtful code kind (map (λ name. name.now) names.now) }
{
    match code {
        WarningCode::AxisOrder => !in_order(kind, names) && in_some_order(kind, names),
        WarningCode::AxisNames => !in_some_order(kind, names),
        _ => false,
    }
}

/// Whether that warning holds of a number of that type.
pub(crate) fn is_doubtful_number(code: WarningCode, column_type: TypeRef<'_>) -> bool
    ensures { result ≡ is_doubtful_number code (ref_tree column_type.entry) }
{
    match column_type {
        TypeRef::Data(data_type) => is_doubtful_tree(code, data_type),
        TypeRef::Other(_) => matches!(code, WarningCode::CoordinatesNotFloat),
    }
}

/// Whether it holds of a number of that data type.
fn is_doubtful_tree(code: WarningCode, data_type: &DataType) -> bool
    ensures { result ≡ is_doubtful_tree code (tree data_type.now) }
{
    match code {
        WarningCode::CoordinatesNotFloat => !matches!(
            data_type,
            DataType::Float16 | DataType::Float32 | DataType::Float64
        ),
        WarningCode::CoordinatesNotDouble => {
            matches!(data_type, DataType::Float16 | DataType::Float32)
        }
        _ => false,
    }
}

/// Whether the names are those of a dimension, in their order.
fn in_order(kind: Kind, names: &[&str]) -> bool
    ensures { result ≡ in_order kind (map (λ name. name.now) names.now) }
{
    are_named(names, axis_names(kind, Dimension::XY))
        || are_named(names, axis_names(kind, Dimension::XYZ))
        || are_named(names, axis_names(kind, Dimension::XYM))
        || are_named(names, axis_names(kind, Dimension::XYZM))
}

/// Whether the names are those of a dimension, in any order.
fn in_some_order(kind: Kind, names: &[&str]) -> bool
    ensures { result ≡ in_some_order kind (map (λ name. name.now) names.now) }
{
    have_names(names, axis_names(kind, Dimension::XY))
        || have_names(names, axis_names(kind, Dimension::XYZ))
        || have_names(names, axis_names(kind, Dimension::XYM))
        || have_names(names, axis_names(kind, Dimension::XYZM))
}

/// The names of the fields of a separated coordinate, or of a box.
fn axis_names(kind: Kind, dimension: Dimension) -> &'static [&'static str]
    ensures { map (λ name. name.now) result.now ≡ axis_names kind dimension }
{
    match kind {
        Kind::Rect(_) => box_names(dimension),
        _ => coordinate_names(dimension),
    }
}

/// The names of the fields of a separated coordinate.
fn coordinate_names(dimension: Dimension) -> &'static [&'static str]
    ensures { map (λ name. name.now) result.now ≡ coordinate_names dimension }
{
    match dimension {
        Dimension::XY => &["x", "y"],
        Dimension::XYZ => &["x", "y", "z"],
        Dimension::XYM => &["x", "y", "m"],
        Dimension::XYZM => &["x", "y", "z", "m"],
    }
}

/// The names of the fields of a box.
fn box_names(dimension: Dimension) -> &'static [&'static str]
    ensures { map (λ name. name.now) result.now ≡ box_names dimension }
{
    match dimension {
        Dimension::XY => &["xmin", "ymin", "xmax", "ymax"],
        Dimension::XYZ => &["xmin", "ymin", "zmin", "xmax", "ymax", "zmax"],
        Dimension::XYM => &["xmin", "ymin", "mmin", "xmax", "ymax", "mmax"],
        Dimension::XYZM => &[
            "xmin", "ymin", "zmin", "mmin", "xmax", "ymax", "zmax", "mmax",
        ],
    }
}

/// Whether the names are these others, in this order.
fn are_named(names: &[&str], others: &[&str]) -> bool
    ensures { result ≡ pointwise bytes_eq (map (λ name. name.now) names.now) (map (λ name. name.now) others.now) }
{
    let [other, rest @ ..] = others else {
        return names.is_empty();
    };
    let [name, behind @ ..] = names else {
        return false;
    };
    *name == *other && are_named(behind, rest)
}

/// Whether there are as many names as others, and each of the others is among them.
fn have_names(names: &[&str], others: &[&str]) -> bool
    ensures { result ≡ have_names (map (λ name. name.now) names.now) (map (λ name. name.now) others.now) }
{
    names.len() == others.len() && have_each(names, others)
}

/// Whether each of the others is among the names.
fn have_each(names: &[&str], others: &[&str]) -> bool
    ensures { result ≡ list_all (λ n. has_name n (map (λ name. name.now) names.now)) (map (λ name. name.now) others.now) }
{
    let [other, rest @ ..] = others else {
        return true;
    };
    has_name(names, other) && have_each(names, rest)
}

/// Whether that one is among the names.
fn has_name(names: &[&str], other: &str) -> bool
    ensures { result ≡ has_name other.now (map (λ name. name.now) names.now) }
{
    let [name, rest @ ..] = names else {
        return false;
    };
    *name == other || has_name(rest, other)
}
