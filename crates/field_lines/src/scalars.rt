//! The numbers and words of the line format, from tokens: a size, a type id and a union's mode.
ghost use Rattle.std.specs.Prelude.{◌≡◌, ◌<◌, length, None, Err, IfOk, OnOk};
ghost use Rattle.std.specs.Option.{option_and_then};
ghost use Rattle.serde_json.specs.Find.{as_integer};
ghost use Rattle.serde_json.specs.View.{number_view};
ghost use Rattle.arrow_values.specs.Union.{is_type_id};
ghost use Rattle.field_lines.specs.FieldOfValue.{kept, is_size, size_of_value, id_of_value, mode_of_value};
ghost use Rattle.value_tokens.specs.Next.{next_value, ReadsValue};

use crate::names::mode_named;
use crate::tokens::Taken;
use arrow_values::UnionMode;
use json::Reader;
use serde_json::Number;
use value_tokens::{Refusal, read_number, read_str};

/// The size of a fixed size list.
fn size_of(number: Number) -> Option<i32>
    ensures { result ≡ option_and_then (kept is_size) (as_integer (number_view number)) }
{
    i32::try_from(number.as_i64()?).ok()
}

/// The size of a fixed size list that comes next.
pub(crate) fn take_size(reader: &mut Reader<'_>, depth: usize) -> Taken<i32>
    ensures ok { IfOk result (λ o. ReadsValue size_of_value depth reader.old o reader.new) }
    ensures shorter { OnOk result (length reader.new < length reader.old) }
    ensures text { result ≡ Err Refusal.Text → next_value depth reader.old ≡ None }
{
    Ok(read_number(reader, depth)?.and_then(size_of))
}

/// A type id.
fn id_of(number: Number) -> Option<i8>
    ensures { result ≡ option_and_then (kept is_type_id) (as_integer (number_view number)) }
{
    let id = i8::try_from(number.as_i64()?).ok()?;
    (id >= 0).then_some(id)
}

/// The type id that comes next.
pub(crate) fn take_id(reader: &mut Reader<'_>, depth: usize) -> Taken<i8>
    ensures ok { IfOk result (λ o. ReadsValue id_of_value depth reader.old o reader.new) }
    ensures shorter { OnOk result (length reader.new < length reader.old) }
    ensures text { result ≡ Err Refusal.Text → next_value depth reader.old ≡ None }
{
    Ok(read_number(reader, depth)?.and_then(id_of))
}

/// The union mode that comes next.
pub(crate) fn take_mode(reader: &mut Reader<'_>, depth: usize) -> Taken<UnionMode>
    ensures ok { IfOk result (λ o. ReadsValue mode_of_value depth reader.old o reader.new) }
    ensures shorter { OnOk result (length reader.new < length reader.old) }
    ensures text { result ≡ Err Refusal.Text → next_value depth reader.old ≡ None }
{
    Ok(read_str(reader, depth)?.and_then(mode_named))
}
