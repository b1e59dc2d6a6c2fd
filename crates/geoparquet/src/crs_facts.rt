//! The CRS of a column that counts, by which source, and what the others say against it.
ghost use Rattle.std.specs.Prelude.{◌≡◌, IfOk, IfSome, false, option_map, option_and_then, string_bytes, unwrap_or};
ghost use Rattle.json.specs.Find.{as_str, get};
ghost use Rattle.json.specs.Json.{string};
ghost use Rattle.json.specs.Value.{value_view};
ghost use Rattle.value_tokens.specs.Values.{IsReadable};
ghost use Rattle.arrow_values.specs.Texts.{text_of};
ghost use Rattle.arrow_columns.specs.Column.{column_tree};
ghost use Rattle.crs_identity.specs.Verdicts.{claim};
ghost use Rattle.geoparquet.specs.CrsClaims.{element_crs, own_crs_in};
ghost use Rattle.geoparquet.specs.Facts.{crs_by, crs_claims, crs_fact, crs_fact_in, crs_fact_of, crs_from, crs_type_in, crs_value, crs_view, known, member_crs, member_type, own_type};
ghost use Rattle.geoparquet.specs.FactSources.{of_source};
ghost use Rattle.geoparquet.specs.Identifiers.{default_identifier};
ghost use Rattle.geoparquet.specs.Sources.{element_view};

use crate::column::is_object;
use crate::crs_claims::{
    DEFAULT_CRS, crs_at, element_crs, element_json, field_json, own_crs_in, said_crs, text_at,
};
use crate::fact_sources::{Against, FactSource, crs_against, source_counting};
use crate::finding::Version;
use arrow_columns::SchemaColumn;
use crs_identity::Claim;
use json::{Scratch, Value};
use parquet_columns::RootElement;
use std::alloc::{AllocError, Global};
use value_tokens::{JsonText, member_of};

/// The CRS of a column that counts.
#[derive(Debug, Drop)]
pub struct CrsFact {
    /// Which source says it.
    pub from: FactSource,
    /// The CRS as it is written, of any JSON; none where it is not known.
    pub crs: Option<JsonText>,
    /// How it is written, if that is said.
    pub crs_type: Option<String>,
    /// What the other sources say against it.
    pub against: Against,
}

/// Returns the CRS that a member says, if there is one. Errs only when out of memory.
fn member_crs<'v, 'a>(
    alloc: Global,
    version: Version,
    member: Option<&'v Value<'a>>,
    default: &'v Value<'a>,
) -> Result<Option<Claim<'v, 'a>>, AllocError>
    requires { value_view default.now ≡ string default_identifier }
    ensures { IfOk result (λ said. option_map claim said ≡ member_crs version (option_map (λ v. value_view v.now) member.entry)) }
{
    let Some(member) = member else {
        return Ok(None);
    };
    said_crs(alloc, version, member.get("crs"), default)
}

/// Returns the value at `crs`; null is none.
fn crs_value<'v, 'a>(found: Option<&'v Value<'a>>) -> Option<&'v Value<'a>>
    requires { IfSome found (λ v. IsReadable (value_view v.now)) }
    ensures value { option_map (λ v. value_view v.now) result ≡ crs_value (option_map (λ v. value_view v.now) found.entry) }
    ensures read { IfSome result (λ v. IsReadable (value_view v.now)) }
{
    let Some(value) = crs_at(found) else {
        return None;
    };
    match value {
        Value::Null => None,
        _ => Some(value),
    }
}

/// Returns the type of the CRS that is a value of a member.
fn member_type(crs: Option<&Value<'_>>) -> Option<&'static str>
    ensures { text_of result ≡ member_type (option_map (λ v. value_view v.now) crs.entry) }
{
    if is_object(crs?) {
        Some("projjson")
    } else {
        None
    }
}

/// Returns the text at `crs_type` of extension metadata.
fn own_type<'a>(found: Option<&Value<'a>>) -> Option<&'a str>
    ensures { text_of result ≡ own_type (option_map (λ v. value_view v.now) found.entry) }
{
    text_at(found?, "crs_type")
}

/// Returns the text of a value, if there is one. Errs only when out of memory.
pub(crate) fn json_text(
    alloc: Global,
    value: Option<&Value<'_>>,
) -> Result<Option<JsonText>, AllocError>
    requires { IfSome value (λ v. IsReadable (value_view v.now)) }
    ensures { IfOk result (λ made. made ≡ option_map (λ v. value_view v.now) value.entry) }
{
    match value {
        Some(value) => Ok(Some(JsonText::of(alloc, value)?)),
        None => Ok(None),
    }
}

/// Returns a text as its own, if there is one. Errs only when out of memory.
fn owned(alloc: Global, text: Option<&str>) -> Result<Option<String>, AllocError>
    ensures { IfOk result (λ made. option_map string_bytes made ≡ text_of text.entry) }
{
    match text {
        Some(text) => Ok(Some(String::from_str(alloc, text)?)),
        None => Ok(None),
    }
}

/// Returns the type of the CRS that a source says. Errs only when out of memory.
fn crs_type_in(
    alloc: Global,
    from: FactSource,
    element: Option<&Value<'_>>,
    geo: Option<&Value<'_>>,
    field: Option<&Value<'_>>,
) -> Result<Option<String>, AllocError>
    requires { IfSome geo (λ v. IsReadable (value_view v.now)) }
    ensures { IfOk result (λ made. option_map string_bytes made ≡ crs_type_in from (record { element = option_map (λ v. value_view v.now) element.entry; geo = option_map (λ v. value_view v.now) geo.entry; field = option_map (λ v. value_view v.now) field.entry })) }
{
    match from {
        FactSource::Element => owned(alloc, own_type(element)),
        FactSource::Geo => owned(alloc, member_type(crs_value(geo))),
        FactSource::Field => owned(alloc, own_type(field)),
    }
}

/// Returns the CRS that a source says, as it is written. Errs only when out of memory.
fn crs_text_in(
    alloc: Global,
    from: FactSource,
    element: Option<&Value<'_>>,
    geo: Option<&Value<'_>>,
    field: Option<&Value<'_>>,
) -> Result<Option<JsonText>, AllocError>
    requires element { IfSome element (λ v. IsReadable (value_view v.now)) }
    requires geo { IfSome geo (λ v. IsReadable (value_view v.now)) }
    requires field { IfSome field (λ v. IsReadable (value_view v.now)) }
    ensures { IfOk result (λ made. made ≡ crs_value (of_source from (record { element = option_map (λ v. value_view v.now) element.entry; geo = option_map (λ v. value_view v.now) geo.entry; field = option_map (λ v. value_view v.now) field.entry }))) }
{
    match from {
        FactSource::Element => json_text(alloc, crs_value(element)),
        FactSource::Geo => json_text(alloc, crs_value(geo)),
        FactSource::Field => json_text(alloc, crs_value(field)),
    }
}

/// Returns the CRS that a source says, or that it says the default. Errs only when out of memory.
fn crs_from(
    alloc: Global,
    is_default: bool,
    from: FactSource,
    element: Option<&Value<'_>>,
    geo: Option<&Value<'_>>,
    field: Option<&Value<'_>>,
    against: Against,
) -> Result<CrsFact, AllocError>
    requires element { IfSome element (λ v. IsReadable (value_view v.now)) }
    requires geo { IfSome geo (λ v. IsReadable (value_view v.now)) }
    requires field { IfSome field (λ v. IsReadable (value_view v.now)) }
    ensures { IfOk result (λ fact. crs_view fact ≡ crs_from is_default from (record { element = option_map (λ v. value_view v.now) element.entry; geo = option_map (λ v. value_view v.now) geo.entry; field = option_map (λ v. value_view v.now) field.entry }) against) }
{
    if is_default {
        let default = Value::String(DEFAULT_CRS);
        return Ok(CrsFact {
            from,
            crs: Some(JsonText::of(alloc, &default)?),
            crs_type: Some(String::from_str(alloc, "authority_code")?),
            against,
        });
    }
    Ok(CrsFact {
        from,
        crs: crs_text_in(alloc, from, element, geo, field)?,
        crs_type: crs_type_in(alloc, from, element, geo, field)?,
        against,
    })
}

/// Whether a CRS that is said is the default.
fn default_said(said: Option<Claim<'_, '_>>) -> Option<bool>
    ensures { result ≡ option_map (λ c. c.is_default) (option_map claim said.entry) }
{
    match said {
        Some(said) => Some(said.is_default),
        None => None,
    }
}

/// Whether the CRS that a source says is the default.
fn default_from(
    from: FactSource,
    element: Option<bool>,
    geo: Option<bool>,
    field: Option<bool>,
) -> bool
    ensures { result ≡ unwrap_or (of_source from (record { element = element; geo = geo; field = field })) false }
{
    let is_default = match from {
        FactSource::Element => element,
        FactSource::Geo => geo,
        FactSource::Field => field,
    };
    match is_default {
        Some(is_default) => is_default,
        None => false,
    }
}

/// Returns the CRS that a source says, by what each source says and the JSON that each has. Errs only
/// when out of memory.
fn crs_by(
    alloc: Global,
    from: FactSource,
    claimed: Option<Claim<'_, '_>>,
    said: Option<Claim<'_, '_>>,
    own: Option<Claim<'_, '_>>,
    element: Option<&Value<'_>>,
    geo: Option<&Value<'_>>,
    field: Option<&Value<'_>>,
) -> Result<CrsFact, AllocError>
    requires element { IfSome element (λ v. IsReadable (value_view v.now)) }
    requires geo { IfSome geo (λ v. IsReadable (value_view v.now)) }
    requires field { IfSome field (λ v. IsReadable (value_view v.now)) }
    ensures { IfOk result (λ fact. crs_view fact ≡ crs_by (record { element = option_map (λ v. value_view v.now) element.entry; geo = option_map (λ v. value_view v.now) geo.entry; field = option_map (λ v. value_view v.now) field.entry }) (record { element = option_map claim claimed.entry; geo = option_map claim said.entry; field = option_map claim own.entry }) from) }
{
    let is_default = default_from(
        from,
        default_said(claimed),
        default_said(said),
        default_said(own),
    );
    let against = crs_against(alloc, from, claimed, said, own)?;
    crs_from(alloc, is_default, from, element, geo, field, against)
}

/// Returns the CRS that counts, by what each source says and the JSON that each has. Errs only when
/// out of memory.
fn crs_fact_by(
    alloc: Global,
    claimed: Option<Claim<'_, '_>>,
    said: Option<Claim<'_, '_>>,
    own: Option<Claim<'_, '_>>,
    element: Option<&Value<'_>>,
    geo: Option<&Value<'_>>,
    field: Option<&Value<'_>>,
) -> Result<Option<CrsFact>, AllocError>
    requires element { IfSome element (λ v. IsReadable (value_view v.now)) }
    requires geo { IfSome geo (λ v. IsReadable (value_view v.now)) }
    requires field { IfSome field (λ v. IsReadable (value_view v.now)) }
    ensures { IfOk result (λ fact. option_map crs_view fact ≡ crs_fact_of (record { element = option_map (λ v. value_view v.now) element.entry; geo = option_map (λ v. value_view v.now) geo.entry; field = option_map (λ v. value_view v.now) field.entry }) (record { element = option_map claim claimed.entry; geo = option_map claim said.entry; field = option_map claim own.entry })) }
{
    let from = source_counting(default_said(claimed), default_said(said), default_said(own));
    match from {
        Some(from) => Ok(Some(crs_by(alloc, from, claimed, said, own, element, geo, field)?)),
        None => Ok(None),
    }
}

/// Returns the CRS that counts, by what the element and the member say and the JSON that each source
/// has. Errs only when out of memory.
fn crs_fact_claimed(
    alloc: Global,
    claimed: Option<Claim<'_, '_>>,
    said: Option<Claim<'_, '_>>,
    element: Option<&Value<'_>>,
    geo: Option<&Value<'_>>,
    field: Option<&Value<'_>>,
) -> Result<Option<CrsFact>, AllocError>
    requires element { IfSome element (λ v. IsReadable (value_view v.now)) }
    requires geo { IfSome geo (λ v. IsReadable (value_view v.now)) }
    requires field { IfSome field (λ v. IsReadable (value_view v.now)) }
    ensures { IfOk result (λ fact. option_map crs_view fact ≡ crs_fact_of (record { element = option_map (λ v. value_view v.now) element.entry; geo = option_map (λ v. value_view v.now) geo.entry; field = option_map (λ v. value_view v.now) field.entry }) (record { element = option_map claim claimed.entry; geo = option_map claim said.entry; field = own_crs_in (option_map (λ v. value_view v.now) field.entry) })) }
{
    let own = own_crs_in(alloc, field)?;
    crs_fact_by(alloc, claimed, said, own, element, geo, field)
}

/// Returns the CRS that counts, by what the member says and the JSON that each source has. Errs only
/// when out of memory.
fn crs_fact_said(
    alloc: Global,
    source: Option<&RootElement>,
    said: Option<Claim<'_, '_>>,
    element: Option<&Value<'_>>,
    geo: Option<&Value<'_>>,
    field: Option<&Value<'_>>,
) -> Result<Option<CrsFact>, AllocError>
    requires element { IfSome element (λ v. IsReadable (value_view v.now)) }
    requires geo { IfSome geo (λ v. IsReadable (value_view v.now)) }
    requires field { IfSome field (λ v. IsReadable (value_view v.now)) }
    ensures { IfOk result (λ fact. option_map crs_view fact ≡ crs_fact_of (record { element = option_map (λ v. value_view v.now) element.entry; geo = option_map (λ v. value_view v.now) geo.entry; field = option_map (λ v. value_view v.now) field.entry }) (record { element = element_crs (option_map (λ e. element_view e.now) source.entry) (option_map (λ v. value_view v.now) element.entry); geo = option_map claim said.entry; field = own_crs_in (option_map (λ v. value_view v.now) field.entry) })) }
{
    let default = Value::String(DEFAULT_CRS);
    let claimed = element_crs(alloc, source, element, &default)?;
    crs_fact_claimed(alloc, claimed, said, element, geo, field)
}

/// Returns the CRS that counts, by the JSON that each source has. Errs only when out of memory.
fn crs_fact_in(
    alloc: Global,
    version: Version,
    claim: Option<&RootElement>,
    element: Option<&Value<'_>>,
    geo: Option<&Value<'_>>,
    field: Option<&Value<'_>>,
) -> Result<Option<CrsFact>, AllocError>
    requires element { IfSome element (λ v. IsReadable (value_view v.now)) }
    requires geo { IfSome geo (λ v. IsReadable (value_view v.now)) }
    requires field { IfSome field (λ v. IsReadable (value_view v.now)) }
    ensures { IfOk result (λ fact. option_map crs_view fact ≡ crs_fact_in version (option_map (λ e. element_view e.now) claim.entry) (record { element = option_map (λ v. value_view v.now) element.entry; geo = option_map (λ v. value_view v.now) geo.entry; field = option_map (λ v. value_view v.now) field.entry })) }
{
    let default = Value::String(DEFAULT_CRS);
    let said = member_crs(alloc, version, geo, &default)?;
    crs_fact_said(alloc, claim, said, element, geo, field)
}

/// Returns the CRS of a column that counts, by its member, if there is one, and what its element says
/// (docs/FORMAT.md, 5). Errs only when out of memory.
pub(crate) fn crs_fact(
    alloc: Global,
    version: Version,
    member: Option<&Value<'_>>,
    column: &SchemaColumn,
    element: Option<&RootElement>,
) -> Result<Option<CrsFact>, AllocError>
    requires { IfSome member (λ v. IsReadable (value_view v.now)) }
    ensures { IfOk result (λ fact. option_map crs_view fact ≡ crs_fact version (option_map (λ v. value_view v.now) member.entry) (column_tree column.now) (option_map (λ e. element_view e.now) element.entry)) }
{
    let mut scratch = Scratch::new(alloc);
    let mut other = Scratch::new(alloc);
    let metadata = element_json(alloc, element, Some(column), &mut scratch)?;
    let own = field_json(alloc, element, Some(column), &mut other)?;
    crs_fact_in(
        alloc,
        version,
        element,
        metadata.as_ref(),
        member,
        own.as_ref(),
    )
}
