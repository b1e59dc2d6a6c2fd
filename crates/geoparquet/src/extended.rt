//! The columns of a file with GeoParquet metadata.
ghost use Rattle.std.specs.Prelude.{◌≡◌, [], IfOk, IfSome, map, option_and_then, option_map};
ghost use Rattle.json.specs.Find.{get, get_member};
ghost use Rattle.json.specs.Value.{members_view, value_view};
ghost use Rattle.arrow_columns.specs.Column.{column_tree};
ghost use Rattle.arrow_values.specs.Texts.{text_of};
ghost use Rattle.arrow_values.specs.Tree.{Text};
ghost use Rattle.geoparquet.specs.Extensions.{IsRead};
ghost use Rattle.geoparquet.specs.GeoColumns.{AreGeoColumns, IsGeoColumn, IsNameFor, encoding_by, value_in};
ghost use Rattle.geoparquet.specs.Sources.{element_view, with_elements};
ghost use Rattle.value_tokens.specs.Values.{IsReadable};

use crate::encoding::encoded_as;
use crate::extension::extension_text;
use crate::finding::Version;
use crate::layout::is_laid_out;
use crate::members::encoding_of;
use crate::sources::next_element;
use crate::version::version_of;
use arrow_columns::{SchemaColumn, with_extension};
use geoarrow_layout::ExtensionName;
use json::Value;
use parquet_columns::{RootElement, is_reserved};
use std::alloc::{AllocError, Global};
use std::collections::BTreeMap;
use value_tokens::member_of;

/// Returns the columns of a file, beside which its elements say that, by the JSON at the key `geo`.
/// Errs only when out of memory.
pub(crate) fn geo_columns(
    alloc: Global,
    value: &Value<'_>,
    columns: Vec<SchemaColumn>,
    elements: &[RootElement],
) -> Result<Vec<SchemaColumn>, AllocError>
    requires { IsRead (value_view value.now) }
    ensures { IfOk result (λ made. AreGeoColumns (value_view value.now) [] (with_elements (map column_tree columns.items) (map element_view elements.now)) (map column_tree made.items)) }
{
    let version = version_of(value);
    let mut members = members_of(alloc, member_of(value, "columns"))?;
    let mut said = elements;
    let mut made = Vec::new(alloc);
    for column in columns {
        let member = members.remove(column.name.as_str());
        let (element, rest) = next_element(said);
        made.push(geo_column(alloc, version, member, column, element)?)?;
        said = rest;
    }
    Ok(made)
}

/// The members of a value by their names, the last of each name; none of a value that is no object.
/// Errs only when out of memory.
pub(crate) fn members_of<'v, 'a>(
    alloc: Global,
    value: Option<&'v Value<'a>>,
) -> Result<BTreeMap<&'v str, &'v Value<'a>>, AllocError>
    ensures { IfOk result (λ members. (name : Text) → value_in members name
        ≡ option_and_then (get name) (option_map (λ v. value_view v.now) value.entry)) }
{
    let Some(value) = value else {
        return Ok(BTreeMap::new(alloc));
    };
    match value {
        Value::Object(members) => by_name(alloc, members.as_slice()),
        _ => Ok(BTreeMap::new(alloc)),
    }
}

/// The values of members by their names, the last of each name. Errs only when out of memory.
fn by_name<'v, 'a>(
    alloc: Global,
    members: &'v [(&'a str, Value<'a>)],
) -> Result<BTreeMap<&'v str, &'v Value<'a>>, AllocError>
    ensures { IfOk result (λ values. (name : Text) → value_in values name
        ≡ get_member name (members_view members.now)) }
{
    let mut values = BTreeMap::new(alloc);
    for member in members {
        let _ = values.insert(member.0, &member.1)?;
    }
    Ok(values)
}

/// What becomes of a column by the member of `columns` that is left for it, which only the first
/// column of its name has. Errs only when out of memory.
fn geo_column(
    alloc: Global,
    version: Version,
    member: Option<&Value<'_>>,
    column: SchemaColumn,
    element: Option<&RootElement>,
) -> Result<SchemaColumn, AllocError>
    requires { IfSome member (λ v. IsRead (value_view v.now)) }
    ensures { IfOk result (λ new. IsGeoColumn version (option_map (λ v. value_view v.now) member.entry) (column_tree column) (option_map (λ e. element_view e.now) element.entry) (column_tree new)) }
{
    let Some(member) = member else {
        return Ok(column);
    };
    let Some(name) = name_for(alloc, version, member, &column, element)? else {
        return Ok(column);
    };
    let text = extension_text(alloc, member)?;
    with_extension(alloc, column, name.as_text(), text)
}

/// The encoding that a member says, where the column has its layout, or its layout is not judged.
fn encoding_by<'a>(
    version: Version,
    member: &Value<'a>,
    column: &SchemaColumn,
    element: Option<&RootElement>,
) -> Option<&'a str>
    ensures { text_of result ≡ encoding_by version (value_view member.now) (column_tree column.now) (option_map (λ e. element_view e.now) element.entry) }
{
    let Some(encoding) = encoding_of(version, member) else {
        return None;
    };
    if is_laid_out(encoding, column, element) {
        Some(encoding)
    } else {
        None
    }
}

/// The extension name that a column, the first of its name, takes by its member of `columns`. Errs
/// only when out of memory.
fn name_for(
    alloc: Global,
    version: Version,
    member: &Value<'_>,
    column: &SchemaColumn,
    element: Option<&RootElement>,
) -> Result<Option<ExtensionName>, AllocError>
    ensures { IfOk result (λ name. IsNameFor version (value_view member.now) (column_tree column.now) (option_map (λ e. element_view e.now) element.entry) name) }
{
    let encoding = encoding_by(version, member, column, element);
    let Some(name) = encoded_as(encoding, column) else {
        return Ok(None);
    };
    if is_reserved(alloc, column.extension_type_name())? {
        return Ok(None);
    }
    Ok(Some(name))
}
