//! The reasons for which a column is invalid, as findings.
ghost use Rattle.std.specs.Prelude.{◌≡◌, ◌≢◌, ◌++◌, IfOk, IfSome, OnOk, map, option_map, string_bytes};
ghost use Rattle.json.specs.Value.{value_view};
ghost use Rattle.arrow_values.specs.Texts.{text_of};
ghost use Rattle.arrow_columns.specs.Column.{column_tree, type_tree};
ghost use Rattle.value_tokens.specs.Values.{IsReadable};
ghost use Rattle.column_check.specs.ExtensionNames.{extension_named};
ghost use Rattle.column_check.specs.ReasonFindings.{unknown_name, type_code, type_path, shown_at, type_spot, type_found, value_found, crs_type_found, edges_found, json_found, text_found, metadata_found, type_reason, metadata_reasons};
ghost use Rattle.column_check.specs.Said.{said};
ghost use Rattle.column_check.specs.Shown.{shown};
ghost use Rattle.column_check.specs.declared.metadata.MetadataFault.TheVariants.{NotJson};

use crate::along::{names_along, type_along};
use crate::code::WarningCode;
use crate::data_type::TypeFault;
use crate::excerpt::{shown, type_shown};
use crate::finding::Reasons;
use crate::malformed::found_at;
use crate::metadata::MetadataFault;
use crate::old_names::current_name;
use crate::said::{push_in, value_in};
use crate::warning::Warning;
use arrow_columns::{AnyType, SchemaColumn};
use geoarrow_layout::ExtensionName;
use json::{Scratch, Value};
use std::alloc::{AllocError, Global};
use value_tokens::member_of;

/// Adds the reason of a column's extension name or of its type; none of a column that is not read.
pub(crate) fn push_type_reason(
    alloc: Global,
    warnings: &mut Vec<Warning>,
    column: &SchemaColumn,
    reasons: &Reasons,
) -> Result<(), AllocError>
    ensures { OnOk result (map said warnings.new.items ≡ map said warnings.old.items ++ type_reason (column_tree column.now) reasons.now) }
{
    match reasons {
        Reasons::UnknownExtension => push_name(alloc, warnings, column.extension_type_name()),
        Reasons::DataType(fault) => push_type(alloc, warnings, column, fault),
        Reasons::DataTypeAndMetadata(fault, _) => push_type(alloc, warnings, column, fault),
        Reasons::Metadata(_) | Reasons::Unread => Ok(()),
    }
}

/// Adds the reasons of a column's metadata text; none of a column that is not read.
pub(crate) fn push_metadata_reasons(
    alloc: Global,
    warnings: &mut Vec<Warning>,
    column: &SchemaColumn,
    reasons: &Reasons,
) -> Result<(), AllocError>
    ensures { OnOk result (map said warnings.new.items ≡ map said warnings.old.items ++ metadata_reasons (column_tree column.now) reasons.now) }
{
    let text = column.extension_type_metadata();
    match reasons {
        Reasons::Metadata(fault) => push_metadata(alloc, warnings, text, *fault),
        Reasons::DataTypeAndMetadata(_, fault) => push_metadata(alloc, warnings, text, *fault),
        Reasons::UnknownExtension | Reasons::DataType(_) | Reasons::Unread => Ok(()),
    }
}

/// Adds the reason of an extension name that is none.
fn push_name(
    alloc: Global,
    warnings: &mut Vec<Warning>,
    name: Option<&str>,
) -> Result<(), AllocError>
    ensures { OnOk result (map said warnings.new.items ≡ map said warnings.old.items ++ unknown_name (text_of name.entry)) }
{
    let found = shown_if(alloc, name)?;
    warnings.push(Warning {
        code: WarningCode::UnknownExtension,
        path: Vec::new(alloc),
        pointer: None,
        found,
        wanted: None,
        more: 0,
    })?;
    Ok(())
}

/// A text as a finding shows it, if there is one.
fn shown_if(alloc: Global, text: Option<&str>) -> Result<Option<String>, AllocError>
    ensures { IfOk result (λ made. option_map string_bytes made ≡ option_map shown (text_of text.entry)) }
{
    match text {
        Some(text) => Ok(Some(shown(alloc, text)?)),
        None => Ok(None),
    }
}

/// Adds the reason of a type.
fn push_type(
    alloc: Global,
    warnings: &mut Vec<Warning>,
    column: &SchemaColumn,
    fault: &TypeFault,
) -> Result<(), AllocError>
    ensures { OnOk result (map said warnings.new.items ≡ map said warnings.old.items ++ type_found (column_tree column.now) fault.now) }
{
    let reason = type_reason(alloc, column, type_code(fault), type_path(fault))?;
    warnings.push(reason)?;
    Ok(())
}

/// The reason of a type, which has that fault at the end of a path.
fn type_reason(
    alloc: Global,
    column: &SchemaColumn,
    code: WarningCode,
    path: &[usize],
) -> Result<Warning, AllocError>
    ensures { IfOk result (λ reason. said reason ≡ (code, type_spot (column_tree column.now) path.now, 0)) }
{
    let names = names_along(alloc, column.data_type.as_ref(), path)?;
    let found = shown_at(alloc, &column.data_type, path)?;
    let wanted = extension_named(column.extension_type_name());
    Ok(Warning {
        code,
        path: names,
        pointer: None,
        found,
        wanted,
        more: 0,
    })
}

/// The code of a fault of a type.
fn type_code(fault: &TypeFault) -> WarningCode
    ensures { result ≡ type_code fault.now }
{
    match fault {
        TypeFault::WrongStorage => WarningCode::WrongStorage,
        TypeFault::Layout(fault, _) => WarningCode::Layout(*fault),
    }
}

/// Where the fault of a type is.
fn type_path(fault: &TypeFault) -> &[usize]
    ensures { result.now ≡ type_path fault.now }
{
    match fault {
        TypeFault::WrongStorage => &[],
        TypeFault::Layout(_, path) => path.as_slice(),
    }
}

/// The type at the end of a path, as a finding shows it, if there is one.
fn shown_at(
    alloc: Global,
    column_type: &AnyType,
    path: &[usize],
) -> Result<Option<String>, AllocError>
    ensures { IfOk result (λ text. option_map string_bytes text ≡ shown_at (type_tree column_type.now) path.now) }
{
    match type_along(column_type.as_ref(), path) {
        Some(found) => Ok(Some(type_shown(alloc, found)?)),
        None => Ok(None),
    }
}

/// The extension name as one of the eleven, if it is one or an old one of them.
fn extension_named(name: Option<&str>) -> Option<ExtensionName>
    ensures { result ≡ extension_named (text_of name.entry) }
{
    match name {
        Some(text) => ExtensionName::from_text(current_name(text)),
        None => None,
    }
}

/// Adds the reasons of a metadata text, if there is one.
fn push_metadata(
    alloc: Global,
    warnings: &mut Vec<Warning>,
    text: Option<&str>,
    fault: MetadataFault,
) -> Result<(), AllocError>
    ensures { OnOk result (map said warnings.new.items ≡ map said warnings.old.items ++ metadata_found (text_of text.entry) fault) }
{
    match text {
        Some(text) => push_text(alloc, warnings, text, fault),
        None => Ok(()),
    }
}

/// Adds the reasons of a metadata text.
fn push_text(
    alloc: Global,
    warnings: &mut Vec<Warning>,
    text: &str,
    fault: MetadataFault,
) -> Result<(), AllocError>
    ensures { OnOk result (map said warnings.new.items ≡ map said warnings.old.items ++ text_found text.now fault) }
{
    if let MetadataFault::NotJson = fault {
        let found = shown(alloc, text)?;
        let code = WarningCode::MetadataNotJson;
        return push_in(alloc, warnings, code, "", Some(found), true);
    }
    let mut scratch = Scratch::new(alloc);
    let value = value_in(alloc, text, &mut scratch)?;
    push_json(alloc, warnings, value.as_ref(), fault)
}

/// Adds the reasons of the JSON value that a metadata text is.
fn push_json(
    alloc: Global,
    warnings: &mut Vec<Warning>,
    value: Option<&Value<'_>>,
    fault: MetadataFault,
) -> Result<(), AllocError>
    requires { IfSome value (λ v. IsReadable (value_view v.now)) }
    ensures { OnOk result (map said warnings.new.items ≡ map said warnings.old.items ++ json_found (option_map (λ v. value_view v.now) value.entry) fault) }
{
    match fault {
        MetadataFault::NotJson => Ok(()),
        MetadataFault::NotObject => {
            let found = found_at(alloc, value)?;
            let code = WarningCode::MetadataNotObject;
            push_in(alloc, warnings, code, "", found, true)
        }
        MetadataFault::UnknownCrsType => push_crs_type(alloc, warnings, value),
        MetadataFault::UnknownEdges => push_edges(alloc, warnings, value),
        MetadataFault::UnknownCrsTypeAndEdges => {
            push_crs_type(alloc, warnings, value)?;
            push_edges(alloc, warnings, value)
        }
    }
}

/// Adds the reason of a CRS type that is none of the format's.
fn push_crs_type(
    alloc: Global,
    warnings: &mut Vec<Warning>,
    value: Option<&Value<'_>>,
) -> Result<(), AllocError>
    requires { IfSome value (λ v. IsReadable (value_view v.now)) }
    ensures { OnOk result (map said warnings.new.items ≡ map said warnings.old.items ++ crs_type_found (option_map (λ v. value_view v.now) value.entry)) }
{
    let code = WarningCode::UnknownCrsType;
    push_value(alloc, warnings, code, "/crs_type", "crs_type", value)
}

/// Adds the reason of edges that are none of the format's.
fn push_edges(
    alloc: Global,
    warnings: &mut Vec<Warning>,
    value: Option<&Value<'_>>,
) -> Result<(), AllocError>
    requires { IfSome value (λ v. IsReadable (value_view v.now)) }
    ensures { OnOk result (map said warnings.new.items ≡ map said warnings.old.items ++ edges_found (option_map (λ v. value_view v.now) value.entry)) }
{
    push_value(
        alloc,
        warnings,
        WarningCode::UnknownEdges,
        "/edges",
        "edges",
        value,
    )
}

/// Adds the reason of the value at a key, which it shows.
fn push_value(
    alloc: Global,
    warnings: &mut Vec<Warning>,
    code: WarningCode,
    pointer: &str,
    key: &str,
    value: Option<&Value<'_>>,
) -> Result<(), AllocError>
    requires { IfSome value (λ v. IsReadable (value_view v.now)) }
    ensures { OnOk result (map said warnings.new.items ≡ map said warnings.old.items ++ value_found code pointer.now key.now (option_map (λ v. value_view v.now) value.entry)) }
{
    let member = match value {
        Some(value) => member_of(value, key),
        None => None,
    };
    let found = found_at(alloc, member)?;
    push_in(alloc, warnings, code, pointer, found, true)
}
