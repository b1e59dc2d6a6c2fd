//! The notation of data types, which names a plain type as the line format does and nests as Arrow's libraries print it.
ghost use Rattle.std.specs.Prelude.{◌≡◌, ◌∷◌, [], IfOk, codes, map, string_bytes};
ghost use Rattle.arrow_values.specs.View.{tree, field_trees, member_trees};
ghost use Rattle.arrow_columns.specs.Notation.{null_word, part_text, member_text, nested_text, sized_text, union_word, plain_word, field_text, tree_text, field_texts, member_texts};

use arrow_values::{DataType, Field, Fields, UnionFields, UnionMode};
use std::alloc::{AllocError, Global};

/// What stands behind a part whose values may not be null.
fn null_word(nullable: bool) -> &'static str
    ensures { result.now ≡ null_word nullable }
{
    if nullable { "" } else { " not null" }
}

/// A part of a nested type: its name, a colon and a space, its type's notation, and ` not null` where values may not
/// be null. Errs only when out of memory.
pub fn part_notation(
    alloc: Global,
    name: &str,
    data_type: &str,
    nullable: bool,
) -> Result<String, AllocError>
    ensures { IfOk result (λ text. string_bytes text ≡ part_text name.now data_type.now nullable) }
{
    let behind = null_word(nullable);
    format!(in alloc; "{name}: {data_type}{behind}")
}

/// A member of a union: the part, an equals sign and the type id. Errs only when out of memory.
pub fn member_notation(alloc: Global, part: &str, id: i8) -> Result<String, AllocError>
    ensures { IfOk result (λ text. string_bytes text ≡ member_text part.now id) }
{
    format!(in alloc; "{part}={id}")
}

/// A nested type: its word, and in angle brackets its parts, with a comma and a space between two. Errs only when out of
/// memory.
pub fn nested_notation(alloc: Global, word: &str, parts: &[String]) -> Result<String, AllocError>
    ensures { IfOk result (λ text. string_bytes text ≡ nested_text word.now (map string_bytes parts.now)) }
{
    let inner = parts.join(alloc, ", ")?;
    format!(in alloc; "{word}<{inner}>")
}

/// A type with a size behind it in square brackets. Errs only when out of memory.
pub fn sized_notation(alloc: Global, data_type: &str, size: i32) -> Result<String, AllocError>
    ensures { IfOk result (λ text. string_bytes text ≡ sized_text data_type.now size) }
{
    format!(in alloc; "{data_type}[{size}]")
}

/// The word of a union: `sparse_union` or `dense_union`.
pub fn union_word(mode: UnionMode) -> &'static str
    ensures { result.now ≡ union_word mode }
{
    match mode {
        UnionMode::Sparse => "sparse_union",
        UnionMode::Dense => "dense_union",
    }
}

/// The word of a plain type, as the line format has it (`docs/FORMAT.md`, 2.1); of a nested type the empty text.
pub fn plain_name(data_type: &DataType) -> &'static str
    ensures { result.now ≡ plain_word (tree data_type.now) }
{
    match data_type {
        DataType::Null => "null",
        DataType::Boolean => "boolean",
        DataType::Int8 => "int8",
        DataType::Int16 => "int16",
        DataType::Int32 => "int32",
        DataType::Int64 => "int64",
        DataType::UInt8 => "uint8",
        DataType::UInt16 => "uint16",
        DataType::UInt32 => "uint32",
        DataType::UInt64 => "uint64",
        DataType::Float16 => "float16",
        DataType::Float32 => "float32",
        DataType::Float64 => "float64",
        DataType::Date32 => "date32",
        DataType::Date64 => "date64",
        DataType::Binary => "binary",
        DataType::LargeBinary => "large_binary",
        DataType::BinaryView => "binary_view",
        DataType::Utf8 => "utf8",
        DataType::LargeUtf8 => "large_utf8",
        DataType::Utf8View => "utf8_view",
        DataType::List(_)
        | DataType::LargeList(_)
        | DataType::FixedSizeList(_, _)
        | DataType::Struct(_)
        | DataType::Union(_, _) => "",
    }
}

/// A data type in Arrow's usual notation: the word of a plain type (`docs/FORMAT.md`, 2.1); `list<..>` and `large_list<..>`
/// of a part; `fixed_size_list<..>[n]`; `struct<..>` of parts; `dense_union<..>` and `sparse_union<..>` of parts with
/// `=id` behind each. Metadata are left out. Errs only when out of memory.
///
/// ```rust
/// let item = Field::new(alloc, "item", DataType::Float64, false)?;
/// let list = DataType::List(Box::new(alloc, item)?);
/// let text = data_type_notation(alloc, &list)?;
/// assert_eq!(rt; text.as_str(), "list<item: float64 not null>");
/// ```
#[cycle(notation)]
pub fn data_type_notation(alloc: Global, data_type: &DataType) -> Result<String, AllocError>
    ensures { IfOk result (λ text. string_bytes text ≡ tree_text (tree data_type.now)) }
{
    match data_type {
        DataType::List(field) => list_notation(alloc, "list", field),
        DataType::LargeList(field) => list_notation(alloc, "large_list", field),
        DataType::FixedSizeList(field, size) => {
            let list = list_notation(alloc, "fixed_size_list", field)?;
            sized_notation(alloc, list.as_str(), *size)
        }
        DataType::Struct(fields) => struct_notation(alloc, fields),
        DataType::Union(members, mode) => union_notation(alloc, members, *mode),
        plain => String::from_str(alloc, plain_name(plain)),
    }
}

/// A list of that word.
#[cycle(notation)]
fn list_notation(alloc: Global, word: &str, field: &Field) -> Result<String, AllocError>
    ensures { IfOk result (λ text. string_bytes text ≡ nested_text word.now (field_text field.now ∷ [])) }
{
    let part = field_notation(alloc, field)?;
    nested_notation(alloc, word, &[part])
}

/// A field as a part.
#[cycle(notation)]
fn field_notation(alloc: Global, field: &Field) -> Result<String, AllocError>
    ensures { IfOk result (λ text. string_bytes text ≡ field_text field.now) }
{
    let data_type = data_type_notation(alloc, field.data_type())?;
    part_notation(alloc, field.name(), data_type.as_str(), field.is_nullable())
}

/// A struct.
#[cycle(notation)]
fn struct_notation(alloc: Global, fields: &Fields) -> Result<String, AllocError>
    ensures { IfOk result (λ text. string_bytes text ≡ nested_text (codes "struct") (field_texts (field_trees fields.now))) }
{
    let mut parts = Vec::new(alloc);
    for field in fields.as_slice() {
        parts.push(field_notation(alloc, field)?)?;
    }
    nested_notation(alloc, "struct", parts.as_slice())
}

/// A union.
#[cycle(notation)]
fn union_notation(
    alloc: Global,
    members: &UnionFields,
    mode: UnionMode,
) -> Result<String, AllocError>
    ensures { IfOk result (λ text. string_bytes text ≡ nested_text (union_word mode) (member_texts (member_trees members.now))) }
{
    let mut parts = Vec::new(alloc);
    for member in members.as_slice() {
        let part = field_notation(alloc, &member.1)?;
        parts.push(member_notation(alloc, part.as_str(), member.0)?)?;
    }
    nested_notation(alloc, union_word(mode), parts.as_slice())
}
