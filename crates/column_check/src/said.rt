//! Warnings of places in the extension metadata.
ghost use Rattle.std.specs.Prelude.{◌≡◌, ◌++◌, map, option_map, string_bytes, Some, IfOk, IfSome, OnOk};
ghost use Rattle.json.specs.Value.{value_view};
ghost use Rattle.value_tokens.specs.Values.{IsReadable};
ghost use Rattle.crs_identity.specs.Forms.{json_in};
ghost use Rattle.column_check.specs.Parts.{spot_in};
ghost use Rattle.column_check.specs.Said.{said, said_if};
ghost use Rattle.column_check.specs.Metadata.{IsReadFrom};

use crate::code::WarningCode;
use crate::warning::Warning;
use json::{Scratch, Value};
use std::alloc::{AllocError, Global};
use value_tokens::{Refusal, read_json};

/// Adds that warning of a place in the extension metadata, if the test holds.
pub(crate) fn push_in(
    alloc: Global,
    warnings: &mut Vec<Warning>,
    code: WarningCode,
    pointer: &str,
    found: Option<String>,
    holds: bool,
) -> Result<(), AllocError>
    ensures { OnOk result (map said warnings.new.items ≡ map said warnings.old.items ++ said_if code holds (spot_in pointer.now (option_map string_bytes found))) }
{
    if !holds {
        return Ok(());
    }
    let pointer = String::from_str(alloc, pointer)?;
    warnings.push(warning_in(alloc, code, pointer, found))?;
    Ok(())
}

/// Adds that warning of a place in the extension metadata, which shows that text, if the test holds.
pub(crate) fn push_shown(
    alloc: Global,
    warnings: &mut Vec<Warning>,
    code: WarningCode,
    pointer: &str,
    found: &str,
    holds: bool,
) -> Result<(), AllocError>
    ensures { OnOk result (map said warnings.new.items ≡ map said warnings.old.items ++ said_if code holds (spot_in pointer.now (Some found.now))) }
{
    if !holds {
        return Ok(());
    }
    let found = String::from_str(alloc, found)?;
    push_in(alloc, warnings, code, pointer, Some(found), true)
}

/// A warning of a place in the extension metadata.
pub(crate) fn warning_in(
    alloc: Global,
    code: WarningCode,
    pointer: String,
    found: Option<String>,
) -> Warning
    ensures { said result ≡ (code, spot_in (string_bytes pointer) (option_map string_bytes found), 0) }
{
    Warning {
        code,
        path: Vec::new(alloc),
        pointer: Some(pointer),
        found,
        wanted: None,
        more: 0,
    }
}

/// The JSON value that a text is, if it is one. Errs only when out of memory.
pub(crate) fn value_in<'t>(
    alloc: Global,
    text: &'t str,
    scratch: &'t mut Scratch,
) -> Result<Option<Value<'t>>, AllocError>
    ensures value { IfOk result (λ o. option_map value_view o ≡ json_in text.now) }
    ensures readable { IfOk result (λ o. IfSome o (λ v. IsReadable (value_view v))) }
    ensures read { IfOk result (λ o. IsReadFrom text.now (option_map value_view o)) }
{
    match read_json(alloc, text, scratch) {
        Ok(value) => Ok(Some(value)),
        Err(Refusal::Text) => Ok(None),
        Err(Refusal::Memory) => Err(AllocError),
    }
}
