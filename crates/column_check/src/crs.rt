//! What is doubtful of a CRS.
ghost use Rattle.std.specs.Prelude.{◌≡◌, ◌++◌, map, IfOk, OnOk, Some, option_to_list};
ghost use Rattle.std.specs.Char.{is_ascii_digit};
ghost use Rattle.std.specs.List.{list_all};
ghost use Rattle.json.specs.Value.{value_view};
ghost use Rattle.json.specs.Print.{print};
ghost use Rattle.json.specs.Tree.{json_tokens};
ghost use Rattle.serde_json.specs.Read.{of_json};
ghost use Rattle.geoarrow_meta.specs.Read.{some_has_float};
ghost use Rattle.value_tokens.specs.Values.{IsReadable};
ghost use Rattle.crs_identity.specs.Forms.{form_of_value, json_in};
ghost use Rattle.crs_identity.specs.FormNames.{form_name};
ghost use Rattle.column_check.specs.CrsWarnings.{crs_spot, projjson_in, are_digits, is_srid, is_of_type, contradicts, is_old_wkt, lacks_type, is_odd_crs, is_empty_crs, form_warnings, value_warnings, read_warnings, crs_warnings};
ghost use Rattle.column_check.specs.NotWhole.{not_whole_in};
ghost use Rattle.column_check.specs.Said.{said, said_if};

use crate::code::WarningCode;
use crate::excerpt::shown_value;
use crate::malformed::push_malformed;
use crate::metadata::ColumnMetadata;
use crate::not_whole::{Place, first_not_whole};
use crate::said::{push_in, value_in};
use crate::warning::Warning;
use crs_identity::{FormName, form_name};
use geoarrow_meta::{CrsType, holds_whole_numbers};
use json::{Scratch, Value};
use std::alloc::{AllocError, Global};
use value_tokens::JsonText;

/// Adds what is doubtful of a CRS.
pub(crate) fn push_crs(
    alloc: Global,
    warnings: &mut Vec<Warning>,
    metadata: &ColumnMetadata,
    notes: bool,
) -> Result<(), AllocError>
    ensures { OnOk result (map said warnings.new.items ≡ map said warnings.old.items ++ crs_warnings notes metadata.now) }
{
    let Some(crs) = &metadata.crs else {
        return Ok(());
    };
    push_read(alloc, warnings, metadata.crs_type, crs)?;
    if notes && has_fraction(alloc, crs)? {
        push_not_whole(alloc, warnings, crs)?;
    }
    Ok(())
}

/// Adds a warning of the first number of a CRS that is not whole.
fn push_not_whole(
    alloc: Global,
    warnings: &mut Vec<Warning>,
    crs: &JsonText,
) -> Result<(), AllocError>
    ensures { OnOk result (map said warnings.new.items ≡ map said warnings.old.items ++ option_to_list (not_whole_in (json_in (print (json_tokens crs.now))))) }
{
    let mut scratch = Scratch::new(alloc);
    let Some(value) = value_in(alloc, crs.as_str(), &mut scratch)? else {
        return Ok(());
    };
    if let Some(warning) = first_not_whole(alloc, &Place::Crs, &value)? {
        warnings.push(warning)?;
    }
    Ok(())
}

/// Whether a CRS has a number that is not whole.
fn has_fraction(alloc: Global, crs: &JsonText) -> Result<bool, AllocError>
    ensures { IfOk result (λ answer. answer ≡ some_has_float (of_json crs.now)) }
{
    match crs.to_value(alloc)? {
        Some(value) => Ok(!holds_whole_numbers(&value)),
        None => Ok(false),
    }
}

/// Adds what is doubtful of a CRS with that type, as it is read from its text.
fn push_read(
    alloc: Global,
    warnings: &mut Vec<Warning>,
    crs_type: Option<CrsType>,
    crs: &JsonText,
) -> Result<(), AllocError>
    ensures { OnOk result (map said warnings.new.items ≡ map said warnings.old.items ++ read_warnings crs_type (json_in (print (json_tokens crs.now)))) }
{
    let mut scratch = Scratch::new(alloc);
    match value_in(alloc, crs.as_str(), &mut scratch)? {
        Some(value) => push_value(alloc, warnings, crs_type, &value),
        None => Ok(()),
    }
}

/// Adds what is doubtful of the value of a CRS with that type.
fn push_value(
    alloc: Global,
    warnings: &mut Vec<Warning>,
    crs_type: Option<CrsType>,
    value: &Value<'_>,
) -> Result<(), AllocError>
    requires { IsReadable (value_view value.now) }
    ensures { OnOk result (map said warnings.new.items ≡ map said warnings.old.items ++ value_warnings crs_type (value_view value.now)) }
{
    if is_empty_crs(value) {
        push_of(alloc, warnings, WarningCode::CrsEmpty, value, true)
    } else {
        push_form(alloc, warnings, crs_type, value)
    }
}

/// Adds what is doubtful of a CRS that is no empty text, by its form.
fn push_form(
    alloc: Global,
    warnings: &mut Vec<Warning>,
    crs_type: Option<CrsType>,
    value: &Value<'_>,
) -> Result<(), AllocError>
    requires { IsReadable (value_view value.now) }
    ensures { OnOk result (map said warnings.new.items ≡ map said warnings.old.items ++ form_warnings crs_type (value_view value.now) (projjson_in crs_type (value_view value.now)) (form_name (form_of_value (value_view value.now)))) }
{
    let is_malformed = push_malformed(alloc, warnings, crs_type, value)?;
    let form = form_name(alloc, value)?;
    let differs = !is_malformed && contradicts(crs_type, value, form);
    let is_old = is_old_wkt(crs_type, form);
    let lacks_type = lacks_type(crs_type, value, form);
    push_of(
        alloc,
        warnings,
        WarningCode::CrsTypeContradicts,
        value,
        differs,
    )?;
    push_of(alloc, warnings, WarningCode::CrsWkt1, value, is_old)?;
    push_of(
        alloc,
        warnings,
        WarningCode::CrsWithoutType,
        value,
        lacks_type,
    )?;
    push_of(
        alloc,
        warnings,
        WarningCode::CrsNumber,
        value,
        is_odd_crs(value),
    )
}

/// Adds that warning of the CRS, which it shows, if the test holds.
fn push_of(
    alloc: Global,
    warnings: &mut Vec<Warning>,
    code: WarningCode,
    crs: &Value<'_>,
    holds: bool,
) -> Result<(), AllocError>
    requires { IsReadable (value_view crs.now) }
    ensures { OnOk result (map said warnings.new.items ≡ map said warnings.old.items ++ said_if code holds (crs_spot (value_view crs.now))) }
{
    if !holds {
        return Ok(());
    }
    let found = shown_value(alloc, crs)?;
    push_in(alloc, warnings, code, "/crs", Some(found), true)
}

/// Whether a CRS is an empty text.
fn is_empty_crs(crs: &Value<'_>) -> bool
    ensures { result ≡ is_empty_crs (value_view crs.now) }
{
    match crs {
        Value::String(text) => text.is_empty(),
        _ => false,
    }
}

/// Whether a CRS is neither an object nor a text.
fn is_odd_crs(crs: &Value<'_>) -> bool
    ensures { result ≡ is_odd_crs (value_view crs.now) }
{
    !matches!(crs, Value::Object(_) | Value::String(_))
}

/// Whether there is a type, and it is not that of a CRS of that form.
fn contradicts(crs_type: Option<CrsType>, crs: &Value<'_>, form: FormName) -> bool
    ensures { result ≡ contradicts crs_type (value_view crs.now) form }
{
    match crs_type {
        Some(crs_type) => !is_of_type(crs_type, crs, form),
        None => false,
    }
}

/// Whether a CRS of that form is one of that type.
fn is_of_type(crs_type: CrsType, crs: &Value<'_>, form: FormName) -> bool
    ensures { result ≡ is_of_type crs_type (value_view crs.now) form }
{
    match crs_type {
        CrsType::Projjson => matches!(form, FormName::Projjson),
        CrsType::Wkt2_2019 => matches!(form, FormName::Wkt1 | FormName::Wkt),
        CrsType::AuthorityCode => matches!(form, FormName::Code),
        CrsType::Srid => is_srid(crs),
    }
}

/// Whether a CRS is digits.
fn is_srid(crs: &Value<'_>) -> bool
    ensures { result ≡ is_srid (value_view crs.now) }
{
    match crs {
        Value::String(text) => are_digits(text.as_bytes()),
        Value::Number(text) => are_digits(text.as_bytes()),
        _ => false,
    }
}

/// Whether bytes are one digit or more.
fn are_digits(bytes: &[u8]) -> bool
    ensures { result ≡ are_digits bytes.now }
{
    !bytes.is_empty() && are_all_digits(bytes)
}

/// Whether each byte is a digit.
fn are_all_digits(bytes: &[u8]) -> bool
    ensures { result ≡ list_all is_ascii_digit bytes.now }
{
    for b in bytes {
        if !b.is_ascii_digit() {
            return false;
        }
    }
    true
}

/// Whether a CRS is WKT 1 where the type is that of WKT 2.
fn is_old_wkt(crs_type: Option<CrsType>, form: FormName) -> bool
    ensures { result ≡ is_old_wkt crs_type form }
{
    match (crs_type, form) {
        (Some(CrsType::Wkt2_2019), FormName::Wkt1) => true,
        _ => false,
    }
}

/// Whether a CRS is a text of no known form, and has no type.
fn lacks_type(crs_type: Option<CrsType>, crs: &Value<'_>, form: FormName) -> bool
    ensures { result ≡ lacks_type crs_type (value_view crs.now) form }
{
    match (crs_type, crs, form) {
        (None, Value::String(_), FormName::Other) => true,
        _ => false,
    }
}
