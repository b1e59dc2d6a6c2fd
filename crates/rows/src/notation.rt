//! Fields and data types in a short notation.
//!
//! A data type is spelled as
//!
//! - a plain type by its name: `Float64`, `LargeBinary`;
//! - `Struct(FIELDS)`, fields with commas between them; `Struct()` has none;
//! - `List(FIELD)`, `LargeList(FIELD)`, `FixedSizeList(FIELD, SIZE)`;
//! - `Union(MEMBERS)`, a dense union, and `SparseUnion(MEMBERS)`; `Union()` has no members;
//! - `List*3(FIELD)`, three lists in one another, each over a field of that name and nullability, and `LargeList*3(FIELD)`.
//!
//! A field is its name, then `?` where it may be null, then a colon and its type, `Float64` where no type stands: `x`,
//! `x?`, `x: Utf8`, `v?: Struct(x, y)`. A name has none of `?:,(){}*` and no white space; a name without a character
//! needs a type, as in `: Utf8`. A member is its type id, a colon and its type, and its field, which is named `m`, may
//! not be null: `1: Struct(x, y)`.
//!
//! Where a text spells no data type, the answer is lacking, so that a row of it is wrong, and another stands in its place. What is
//! spelled is not dropped: a data type that nests deep would take more stack than there is, and there is less to prove.
use crate::said::Said;
use crate::texts::split;
use arrow_values::{DataType, Field, Fields, FixedName, UnionFields, UnionMode};
use field_lines::parse_line;
use std::alloc::AllocError;
use std::collections::BTreeMap;
use std::mem::ManuallyDrop;

/// How deep a spelled data type may nest; lists in one another that are counted are one level.
const LEVELS: u8 = 60;

/// The field that a line denotes.
pub fn field(said: &mut Said, line: &str) -> ManuallyDrop<Field> {
    ManuallyDrop::new(match parse_line(said.alloc, line.as_bytes()) {
        Ok(Some(field)) => field,
        _ => no_field(said),
    })
}

/// The data type that a text spells.
pub fn data_type(said: &mut Said, text: &str) -> ManuallyDrop<DataType> {
    ManuallyDrop::new(read_type(said, text, LEVELS))
}

/// The fields that a text spells, as they stand between the brackets of `Struct(..)`.
pub fn fields(said: &mut Said, text: &str) -> ManuallyDrop<Fields> {
    ManuallyDrop::new(read_fields(said, text, LEVELS))
}

/// The union members that a text spells, as they stand between the brackets of `Union(..)`.
pub fn members(said: &mut Said, text: &str) -> ManuallyDrop<UnionFields> {
    ManuallyDrop::new(read_members(said, text, LEVELS))
}

/// The field that a text spells.
pub fn spelled(said: &mut Said, text: &str) -> ManuallyDrop<Field> {
    ManuallyDrop::new(read_field(said, text, LEVELS))
}

/// A field `g` that may be null, of that data type, with those keys and the texts that there are.
pub fn column(
    said: &mut Said,
    texts: &[(&str, Option<&str>)],
    data_type: &str,
) -> ManuallyDrop<Field> {
    let metadata = map_of(said, texts);
    let data_type = read_type(said, data_type, LEVELS);
    ManuallyDrop::new(new_field(said, "g", data_type, true).with_metadata(metadata))
}

/// Those keys and the texts that there are.
fn map_of(said: &mut Said, texts: &[(&str, Option<&str>)]) -> BTreeMap<String, String> {
    let mut map = BTreeMap::new(said.alloc);
    for &(key, text) in texts {
        if let Some(text) = text {
            let (key, text) = (said.owned(key), said.owned(text));
            if map.insert(key, text).is_err() {
                said.fail();
            }
        }
    }
    map
}

/// The data type in the place of one that is lacking.
fn no_type(said: &mut Said) -> DataType {
    said.fail();
    DataType::Null
}

/// The union in the place of one that is lacking.
pub fn no_members(said: &mut Said) -> UnionFields {
    said.fail();
    UnionFields::from_members(Vec::new(said.alloc))
}

/// A data type that was made, if it was.
pub fn made(said: &mut Said, made: Result<DataType, AllocError>) -> ManuallyDrop<DataType> {
    ManuallyDrop::new(match made {
        Ok(data_type) => data_type,
        Err(AllocError) => no_type(said),
    })
}

/// The field in the place of one that is lacking.
fn no_field(said: &mut Said) -> Field {
    Field::fixed(said.alloc, FixedName::X, no_type(said), false)
}

/// The field of those parts.
pub fn new_field(said: &mut Said, name: &str, data_type: DataType, is_nullable: bool) -> Field {
    match Field::new(said.alloc, name, data_type, is_nullable) {
        Ok(field) => field,
        Err(AllocError) => no_field(said),
    }
}

/// The plain types, each behind its name.
const PLAIN: [(&str, DataType); 21] = [
    ("Null", DataType::Null),
    ("Boolean", DataType::Boolean),
    ("Int8", DataType::Int8),
    ("Int16", DataType::Int16),
    ("Int32", DataType::Int32),
    ("Int64", DataType::Int64),
    ("UInt8", DataType::UInt8),
    ("UInt16", DataType::UInt16),
    ("UInt32", DataType::UInt32),
    ("UInt64", DataType::UInt64),
    ("Float16", DataType::Float16),
    ("Float32", DataType::Float32),
    ("Float64", DataType::Float64),
    ("Date32", DataType::Date32),
    ("Date64", DataType::Date64),
    ("Binary", DataType::Binary),
    ("LargeBinary", DataType::LargeBinary),
    ("BinaryView", DataType::BinaryView),
    ("Utf8", DataType::Utf8),
    ("LargeUtf8", DataType::LargeUtf8),
    ("Utf8View", DataType::Utf8View),
];

/// The plain type of a name.
fn plain(said: &mut Said, name: &str) -> DataType {
    for (known, data_type) in PLAIN.iter() {
        if *known == name {
            let clone = data_type.try_clone(said.alloc);
            return ManuallyDrop::into_inner(made(said, clone));
        }
    }
    no_type(said)
}

/// What stands between the commas of a text that are in no brackets, without white space around it; nothing of a text
/// without a character.
fn parts<'a>(said: &mut Said, text: &'a str) -> Vec<&'a str> {
    let mut parts = Vec::new(said.alloc);
    let mut open: usize = 0;
    let mut begin = 0;
    for (at, byte) in text.bytes().enumerate() {
        match byte {
            b'(' => open = open.saturating_add(1),
            b')' => open = open.saturating_sub(1),
            b',' if open == 0 => {
                said.put(&mut parts, text.get(begin..at).unwrap_or("").trim());
                begin = at.saturating_add(1);
            }
            _ => {}
        }
    }
    if !text.is_empty() {
        said.put(&mut parts, text.get(begin..).unwrap_or("").trim());
    }
    parts
}

/// Whether a text may be the name of a field.
fn is_name(text: &str) -> bool {
    !text
        .chars()
        .any(|c| c.is_whitespace() || "?:,(){}*".contains(c))
}

/// The data type that a text spells, where it nests no deeper than so many levels.
#[cycle(notation)]
fn read_type(said: &mut Said, text: &str, levels: u8) -> DataType {
    let Some((head, rest)) = text.split_once('(') else {
        return plain(said, text);
    };
    let (Some(inner), Some(levels)) = (rest.strip_suffix(')'), levels.checked_sub(1)) else {
        return no_type(said);
    };
    match head {
        "Struct" => DataType::Struct(read_fields(said, inner, levels)),
        "Union" => DataType::Union(read_members(said, inner, levels), UnionMode::Dense),
        "SparseUnion" => DataType::Union(read_members(said, inner, levels), UnionMode::Sparse),
        "FixedSizeList" => {
            let (field, size) = inner.rsplit_once(',').unwrap_or(("", ""));
            let field = read_field(said, field, levels);
            sized(said, field, size)
        }
        _ => {
            let field = read_field(said, inner, levels);
            lists(said, head, field)
        }
    }
}

/// The field that a text spells.
#[cycle(notation)]
fn read_field(said: &mut Said, text: &str, levels: u8) -> Field {
    let (front, spelled) = text.split_once(':').unwrap_or((text, "Float64"));
    let name = front.strip_suffix('?').unwrap_or(front);
    if !is_name(name) || name.is_empty() && !text.contains(':') {
        said.fail();
    }
    let data_type = read_type(said, spelled.trim(), levels);
    new_field(said, name, data_type, front.ends_with('?'))
}

/// The fields that a text spells, as they stand between the brackets of `Struct(..)`.
#[cycle(notation)]
fn read_fields(said: &mut Said, text: &str, levels: u8) -> Fields {
    let mut fields = Vec::new(said.alloc);
    for part in &parts(said, text) {
        let field = read_field(said, part, levels);
        said.put(&mut fields, field);
    }
    Fields::from(fields)
}

/// The union members that a text spells.
#[cycle(notation)]
fn read_members(said: &mut Said, text: &str, levels: u8) -> UnionFields {
    let mut ids = Vec::new(said.alloc);
    let mut fields = Vec::new(said.alloc);
    for part in &parts(said, text) {
        let (id, spelled) = split(said, part, ":");
        let data_type = read_type(said, spelled.trim(), levels);
        let id = said.found(id.parse::<i8>().ok(), 0);
        said.put(&mut ids, id);
        let field = new_field(said, "m", data_type, false);
        said.put(&mut fields, field);
    }
    union_of(said, ids, fields)
}

/// The members of those ids and fields.
fn union_of(said: &mut Said, ids: Vec<i8>, fields: Vec<Field>) -> UnionFields {
    match UnionFields::try_new(said.alloc, ids, fields) {
        Ok(members) => members,
        Err(_) => no_members(said),
    }
}

/// The fixed size list of a field and a size.
fn sized(said: &mut Said, field: Field, size: &str) -> DataType {
    let size = said.found(size.trim().parse::<i32>().ok(), 0);
    match Box::new(said.alloc, field) {
        Ok(field) => DataType::FixedSizeList(field, size),
        Err(_) => no_type(said),
    }
}

/// So many lists in one another over a field, as the head says.
fn lists(said: &mut Said, head: &str, field: Field) -> DataType {
    let (list, count) = head.split_once('*').unwrap_or((head, "1"));
    let count = said.found(count.parse::<u32>().ok(), 0);
    let is_large = list == "LargeList";
    if count == 0 || !is_large && list != "List" {
        said.fail();
    }
    let (name, is_nullable) = (said.owned(field.name()), field.is_nullable());
    let mut lists = list_of(said, is_large, field);
    for _ in 1..count {
        let outer = new_field(said, name.as_str(), lists, is_nullable);
        lists = list_of(said, is_large, outer);
    }
    lists
}

/// A list over a field, with wide offsets or not.
fn list_of(said: &mut Said, is_large: bool, field: Field) -> DataType {
    match Box::new(said.alloc, field) {
        Ok(field) => {
            if is_large {
                return DataType::LargeList(field);
            }
            DataType::List(field)
        }
        Err(_) => no_type(said),
    }
}
