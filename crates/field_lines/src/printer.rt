//! From a field to the tokens of its line, with no JSON value between.
ghost use Rattle.std.specs.Prelude.{OnOk, codes};
ghost use Rattle.serde_json.specs.Data.{string, number, object, array, no_items, item};
ghost use Rattle.serde_json.specs.Find.{of_integer};
ghost use Rattle.arrow_values.specs.View.{tree, texts_of, field_trees, member_trees};
ghost use Rattle.field_lines.specs.Names.{mode_name};
ghost use Rattle.field_lines.specs.Steps.{PrintsMetadata};
ghost use Rattle.field_lines.specs.Line.{one_key, two_keys, type_value, fields_value, members_value, value_of_field, other_value};
ghost use Rattle.value_tokens.specs.Adds.{Prints};

use crate::names::mode_name;
use arrow_columns::plain_name;
use arrow_values::{DataType, Field, Fields, UnionFields, UnionMode};
use json::Writer;
use std::alloc::AllocError;
use std::collections::BTreeMap;

/// Writes the metadata's key and an object of its texts, unless it is empty.
fn print_metadata(metadata: &BTreeMap<String, String>, out: &mut Writer) -> Result<(), AllocError>
    ensures { OnOk result (PrintsMetadata (texts_of metadata.now.entries) out.old out.new) }
{
    if metadata.is_empty() {
        return Ok(());
    }
    out.key("metadata")?;
    out.begin_object()?;
    for (key, text) in metadata.iter() {
        out.key(key.as_str())?;
        out.string(text.as_str())?;
    }
    out.end_object()
}

/// Writes a field.
#[cycle(print)]
pub(crate) fn print_field(field: &Field, out: &mut Writer) -> Result<(), AllocError>
    ensures { OnOk result (Prints (value_of_field field.now) out.old out.new) }
{
    out.begin_object()?;
    print_metadata(field.metadata(), out)?;
    out.key("name")?;
    out.string(field.name())?;
    out.key("nullable")?;
    out.boolean(field.is_nullable())?;
    out.key("type")?;
    print_type(field.data_type(), out)?;
    out.end_object()
}

/// Writes a field of these parts, whose type is another: an object with the single key `other`, at which its notation stands.
pub(crate) fn print_other(
    name: &str,
    nullable: bool,
    metadata: &BTreeMap<String, String>,
    notation: &str,
    out: &mut Writer,
) -> Result<(), AllocError>
    ensures { OnOk result (Prints (other_value name.now notation.now nullable (texts_of metadata.now.entries)) out.old out.new) }
{
    out.begin_object()?;
    print_metadata(metadata, out)?;
    out.key("name")?;
    out.string(name)?;
    out.key("nullable")?;
    out.boolean(nullable)?;
    out.key("type")?;
    out.begin_object()?;
    out.key("other")?;
    out.string(notation)?;
    out.end_object()?;
    out.end_object()
}

/// Writes a type.
#[cycle(print)]
#[inline(always)]
fn print_type(data_type: &DataType, out: &mut Writer) -> Result<(), AllocError>
    ensures { OnOk result (Prints (type_value (tree data_type.now)) out.old out.new) }
{
    match data_type {
        DataType::List(field) => print_list("list", field, out),
        DataType::LargeList(field) => print_list("large_list", field, out),
        DataType::FixedSizeList(field, size) => print_fixed_size_list(field, *size, out),
        DataType::Struct(fields) => print_struct(fields, out),
        DataType::Union(members, mode) => print_union(members, *mode, out),
        plain => out.string(plain_name(plain)),
    }
}

/// Writes a list under its key.
#[cycle(print)]
fn print_list(key: &str, field: &Field, out: &mut Writer) -> Result<(), AllocError>
    ensures { OnOk result (Prints (one_key key.now (value_of_field field.now)) out.old out.new) }
{
    out.begin_object()?;
    out.key(key)?;
    print_field(field, out)?;
    out.end_object()
}

/// Writes a list of fixed size.
#[cycle(print)]
fn print_fixed_size_list(field: &Field, size: i32, out: &mut Writer) -> Result<(), AllocError>
    ensures { OnOk result (Prints (two_keys (codes "fixed_size_list") (value_of_field field.now) (codes "size") (number (of_integer size))) out.old out.new) }
{
    out.begin_object()?;
    out.key("fixed_size_list")?;
    print_field(field, out)?;
    out.key("size")?;
    out.i64(size as i64)?;
    out.end_object()
}

/// Writes a struct.
#[cycle(print)]
fn print_struct(fields: &Fields, out: &mut Writer) -> Result<(), AllocError>
    ensures { OnOk result (Prints (one_key (codes "struct") (array (fields_value (field_trees fields.now)))) out.old out.new) }
{
    out.begin_object()?;
    out.key("struct")?;
    out.begin_array()?;
    for field in fields.as_slice() {
        print_field(field, out)?;
    }
    out.end_array()?;
    out.end_object()
}

/// Writes a union.
#[cycle(print)]
fn print_union(members: &UnionFields, mode: UnionMode, out: &mut Writer) -> Result<(), AllocError>
    ensures { OnOk result (Prints (two_keys (codes "mode") (string (mode_name mode)) (codes "union") (array (members_value (member_trees members.now)))) out.old out.new) }
{
    out.begin_object()?;
    out.key("mode")?;
    out.string(mode_name(mode))?;
    out.key("union")?;
    out.begin_array()?;
    for member in members.as_slice() {
        print_member(member.0, &member.1, out)?;
    }
    out.end_array()?;
    out.end_object()
}

/// Writes a member of a union.
#[cycle(print)]
fn print_member(id: i8, field: &Field, out: &mut Writer) -> Result<(), AllocError>
    ensures { OnOk result (Prints (array (item (number (of_integer id)) (item (value_of_field field.now) no_items))) out.old out.new) }
{
    out.begin_array()?;
    out.i64(id as i64)?;
    print_field(field, out)?;
    out.end_array()
}
