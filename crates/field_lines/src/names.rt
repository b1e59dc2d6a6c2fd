//! The words of the line format.
ghost use Rattle.std.specs.Prelude.{◌≡◌, IfSome, option_map};
ghost use Rattle.arrow_values.specs.Name.{fixed_text};
ghost use Rattle.arrow_values.specs.Tree.{plain};
ghost use Rattle.arrow_values.specs.View.{tree};
ghost use Rattle.field_lines.specs.Names.{plain_named, mode_named, mode_name};

use arrow_values::{DataType, FixedName, UnionMode};

/// The plain type of a word.
pub(crate) fn plain_named(word: &str) -> Option<DataType>
    ensures { option_map tree result ≡ option_map plain (plain_named word.now) }
{
    match word {
        "null" => Some(DataType::Null),
        "boolean" => Some(DataType::Boolean),
        "int8" => Some(DataType::Int8),
        "int16" => Some(DataType::Int16),
        "int32" => Some(DataType::Int32),
        "int64" => Some(DataType::Int64),
        "uint8" => Some(DataType::UInt8),
        "uint16" => Some(DataType::UInt16),
        "uint32" => Some(DataType::UInt32),
        "uint64" => Some(DataType::UInt64),
        "float16" => Some(DataType::Float16),
        "float32" => Some(DataType::Float32),
        "float64" => Some(DataType::Float64),
        "date32" => Some(DataType::Date32),
        "date64" => Some(DataType::Date64),
        "binary" => Some(DataType::Binary),
        "large_binary" => Some(DataType::LargeBinary),
        "binary_view" => Some(DataType::BinaryView),
        "utf8" => Some(DataType::Utf8),
        "large_utf8" => Some(DataType::LargeUtf8),
        "utf8_view" => Some(DataType::Utf8View),
        _ => None,
    }
}

/// The union mode of a word.
pub(crate) fn mode_named(word: &str) -> Option<UnionMode>
    ensures { result ≡ mode_named word.now }
{
    match word {
        "sparse" => Some(UnionMode::Sparse),
        "dense" => Some(UnionMode::Dense),
        _ => None,
    }
}

/// The word of a union mode.
pub(crate) fn mode_name(mode: UnionMode) -> &'static str
    ensures { result.now ≡ mode_name mode }
{
    match mode {
        UnionMode::Sparse => "sparse",
        UnionMode::Dense => "dense",
    }
}

/// The name of that text, if it is one that nearly every layout has: of a coordinate, of a bound of a box, or of the items of
/// a list. Lengths are compared first, so a text is compared with few others.
pub(crate) fn layout_name(text: &str) -> Option<FixedName>
    ensures { IfSome result (λ name. fixed_text name ≡ text.now) }
{
    match text.len() {
        1 => match text {
            "x" => Some(FixedName::X),
            "y" => Some(FixedName::Y),
            "z" => Some(FixedName::Z),
            "m" => Some(FixedName::M),
            _ => None,
        },
        4 => match text {
            "xyzm" => Some(FixedName::Xyzm),
            "xmin" => Some(FixedName::Xmin),
            "ymin" => Some(FixedName::Ymin),
            "zmin" => Some(FixedName::Zmin),
            "mmin" => Some(FixedName::Mmin),
            "xmax" => Some(FixedName::Xmax),
            "ymax" => Some(FixedName::Ymax),
            "zmax" => Some(FixedName::Zmax),
            "mmax" => Some(FixedName::Mmax),
            _ => None,
        },
        _ => match text {
            "xy" => Some(FixedName::Xy),
            "xyz" => Some(FixedName::Xyz),
            "xym" => Some(FixedName::Xym),
            "rings" => Some(FixedName::Rings),
            "points" => Some(FixedName::Points),
            "vertices" => Some(FixedName::Vertices),
            "polygons" => Some(FixedName::Polygons),
            "geometries" => Some(FixedName::Geometries),
            "linestrings" => Some(FixedName::Linestrings),
            _ => None,
        },
    }
}
