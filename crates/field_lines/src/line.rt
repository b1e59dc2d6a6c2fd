//! A line of text, and the field that it denotes.
ghost use Rattle.std.specs.Prelude.{◌≡◌, ◌≤◌, Some, None, Err, option_and_then, option_map, IfOk, IfSome, string_bytes};
ghost use Rattle.serde_json.specs.Data.{depth};
ghost use Rattle.serde_json.specs.Read.{read, max_depth};
ghost use Rattle.serde_json.specs.Written.{compact_text};
ghost use Rattle.arrow_values.specs.View.{texts_of};
ghost use Rattle.arrow_columns.specs.Column.{column_tree};
ghost use Rattle.field_lines.specs.ColumnOfValue.{column_of_line};
ghost use Rattle.field_lines.specs.Line.{field_of_line, line_of_field, value_of_field, other_value};
ghost use Rattle.field_lines.specs.LineForm.{HasLineForm};
ghost use Rattle.field_lines.specs.FieldOfValue.{field_of_value};

use crate::columns::take_column;
use crate::printer::{print_field, print_other};
use crate::tokens::take_field;
use arrow_columns::SchemaColumn;
use arrow_values::Field;
use json::{Reader, Scratch, Writer};
use std::alloc::{AllocError, Global};
use std::collections::BTreeMap;
use value_tokens::{MAX_DEPTH, Refusal, text_of};

/// The room that a line is given at first, in bytes. Most lines take no more.
const LINE_ROOM: usize = 1024;

/// The field that a line denotes, or `None` if it denotes no field. The line is the bytes before
/// a line feed (docs/FORMAT.md, 2.1). Errs only when out of memory.
pub fn parse_line(alloc: Global, line: &[u8]) -> Result<Option<Field>, AllocError>
    ensures field { IfOk result (λ o. o ≡ field_of_line line.now) }
    ensures form { IfOk result (λ o. IfSome o (λ f. HasLineForm f.tree)) }
{
    let mut scratch = Scratch::new(alloc);
    parse_line_with_scratch(alloc, line, &mut scratch)
}

/// The field that a line denotes, as [`parse_line`] reads it, with a scratch buffer that the caller keeps: reading many lines
/// with one scratch costs less than with a new one for each. What is left in it of one line has no effect on the next.
pub fn parse_line_with_scratch(
    alloc: Global,
    line: &[u8],
    scratch: &mut Scratch,
) -> Result<Option<Field>, AllocError>
    ensures field { IfOk result (λ o. o ≡ field_of_line line.now) }
    ensures form { IfOk result (λ o. IfSome o (λ f. HasLineForm f.tree)) }
{
    let Ok(text) = simdutf8::compat::from_utf8(line) else {
        return Ok(None);
    };
    let mut reader = Reader::new(text, scratch)?;
    match take_field(alloc, &mut reader, MAX_DEPTH) {
        Ok(field) if reader.next().is_none() => Ok(field),
        Ok(_) | Err(Refusal::Text) => Ok(None),
        Err(Refusal::Memory) => Err(AllocError),
    }
}

/// The column that a line denotes, or `None` if it denotes none: that of a field, or of another type (docs/FORMAT.md, 2.7). The line is
/// the bytes before a line feed. The scratch buffer is the caller's, as in [`parse_line_with_scratch`]. Errs only when out of memory.
///
/// ```rust
/// let line = br#"{"name":"at","nullable":true,"type":{"other":"timestamp[ms]"}}"#;
/// let read = parse_column(alloc, line, &mut Scratch::new(alloc))?;
/// assert!(rt; matches!(read, Some(column) if matches!(column.data_type, AnyType::Other(_))));
/// ```
pub fn parse_column(
    alloc: Global,
    line: &[u8],
    scratch: &mut Scratch,
) -> Result<Option<SchemaColumn>, AllocError>
    ensures { IfOk result (λ o. option_map column_tree o ≡ column_of_line line.now) }
{
    let Ok(text) = simdutf8::compat::from_utf8(line) else {
        return Ok(None);
    };
    let mut reader = Reader::new(text, scratch)?;
    match take_column(alloc, &mut reader, MAX_DEPTH) {
        Ok(column) if reader.next().is_none() => Ok(column),
        Ok(_) | Err(Refusal::Text) => Ok(None),
        Err(Refusal::Memory) => Err(AllocError),
    }
}

/// The line of a field, without a line feed: compact JSON with its keys in the order of their bytes,
/// no ignored key and no empty metadata. If a line can represent the field, its value is the only lean
/// value that denotes the field ([`laws`](crate::laws)). Errs only when out of memory.
pub fn field_line(alloc: Global, field: &Field) -> Result<String, AllocError>
    ensures text { IfOk result (λ s. string_bytes s ≡ line_of_field field.now) }
    ensures reads_back { IfOk result (λ s. HasLineForm field.now.tree → depth (value_of_field field.now) ≤ max_depth → field_of_line (string_bytes s) ≡ Some field.now) }
{
    let mut out = Writer::new(Vec::with_capacity(alloc, LINE_ROOM)?);
    print_field(field, &mut out)?;
    Ok(text_of(out))
}

/// The line of a column whose type is another than the 26 (docs/FORMAT.md, 2.7): that of a field, with an object at its key `type` whose
/// single key `other` has the notation of the type. It is read as that value. Errs only when out of memory.
///
/// ```rust
/// let line = other_line(alloc, "at", true, &BTreeMap::new(alloc), "timestamp[ms]")?;
/// assert_eq!(rt; line.as_str(), r#"{"name":"at","nullable":true,"type":{"other":"timestamp[ms]"}}"#);
/// ```
pub fn other_line(
    alloc: Global,
    name: &str,
    nullable: bool,
    metadata: &BTreeMap<String, String>,
    notation: &str,
) -> Result<String, AllocError>
    ensures text { IfOk result (λ s. string_bytes s ≡ compact_text (other_value name.now notation.now nullable (texts_of metadata.now.entries))) }
    ensures reads_back { IfOk result (λ s. read (string_bytes s) ≡ Some (other_value name.now notation.now nullable (texts_of metadata.now.entries))) }
{
    let mut out = Writer::new(Vec::with_capacity(alloc, LINE_ROOM)?);
    print_other(name, nullable, metadata, notation, &mut out)?;
    Ok(text_of(out))
}
