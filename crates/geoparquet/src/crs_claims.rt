//! What the element, the field and `crs` say of the CRS.
ghost use Rattle.std.specs.Prelude.{◌≡◌, ◌++◌, IfOk, IfSome, OnOk, map, option_map, option_and_then, string_bytes};
ghost use Rattle.json.specs.Json.{string};
ghost use Rattle.json.specs.Find.{as_str, get};
ghost use Rattle.json.specs.Value.{value_view};
ghost use Rattle.value_tokens.specs.Values.{IsReadable};
ghost use Rattle.arrow_values.specs.Texts.{text_of};
ghost use Rattle.arrow_columns.specs.Column.{column_tree};
ghost use Rattle.crs_identity.specs.Forms.{json_in, said};
ghost use Rattle.crs_identity.specs.Verdicts.{claim};
ghost use Rattle.geoparquet.specs.Identifiers.{default_identifier};
ghost use Rattle.geoparquet.specs.Findings.{finding};
ghost use Rattle.geoparquet.specs.CrsClaims.{own_json, is_srid, typed_crs, crs_under, is_projjson_type, judged_in, is_broken_by, is_broken, own_crs, own_crs_in, named_crs, absent_crs, text_crs, projjson_crs, object_crs, said_crs, claimed, default_claim, element_json, field_json, is_null, or_default, element_crs, crs_at, own_shown, claim_shown, pair_verdict, is_contradict, is_not_compared, verdict_findings, verdicts_findings, three_findings, claimed_findings, crs_json_findings, crs_claims_findings, crs_contradicts_findings};
ghost use Rattle.geoparquet.specs.Malformed.{is_malformed};
ghost use Rattle.geoparquet.specs.Sources.{element_view};

use crate::code::GeoCode;
use crate::contradictions::geo_metadata;
use crate::finding::{GeoFinding, Version};
use crate::malformed::{is_malformed, is_projjson};
use crate::pairs::{Pair, add_pair, by_default, first_pair};
use crate::version::is_judged;
use arrow_columns::SchemaColumn;
use column_check::shown_value;
use crs_identity::{Claim, Crs, Verdict, crs_verdict};
use json::{Scratch, Value};
use parquet_columns::{ElementClaim, RootElement};
use std::alloc::{AllocError, Global};
use value_tokens::{Refusal, member_of, read_json};

/// The CRS where `crs` is absent.
pub(crate) const DEFAULT_CRS: &str = "OGC:CRS84";

/// Returns the JSON value that a text is, if it is one. Errs only when out of memory.
fn json_in<'t>(
    alloc: Global,
    text: &'t str,
    scratch: &'t mut Scratch,
) -> Result<Option<Value<'t>>, AllocError>
    ensures value { IfOk result (λ o. option_map value_view o ≡ json_in text.now) }
    ensures read { IfOk result (λ o. IfSome o (λ v. IsReadable (value_view v))) }
{
    match read_json(alloc, text, scratch) {
        Ok(value) => Ok(Some(value)),
        Err(Refusal::Text) => Ok(None),
        Err(Refusal::Memory) => Err(AllocError),
    }
}

/// Returns the extension metadata of a column, where they are JSON. Errs only when out of memory.
fn own_json<'t>(
    alloc: Global,
    column: Option<&'t SchemaColumn>,
    scratch: &'t mut Scratch,
) -> Result<Option<Value<'t>>, AllocError>
    ensures value { IfOk result (λ o. option_map value_view o ≡ own_json (option_map (λ c. column_tree c.now) column.entry)) }
    ensures read { IfOk result (λ o. IfSome o (λ v. IsReadable (value_view v))) }
{
    let Some(column) = column else {
        return Ok(None);
    };
    let Some(text) = geo_metadata(column) else {
        return Ok(None);
    };
    json_in(alloc, text, scratch)
}

/// The CRS that is the format's default.
fn default_claim<'v, 'a>(default: &'v Value<'a>) -> Claim<'v, 'a>
    requires { value_view default.now ≡ string default_identifier }
    ensures { claim result ≡ default_claim }
{
    Claim {
        crs: Crs::Value(default),
        is_default: true,
    }
}

/// Returns the CRS where `crs` is absent.
fn absent_crs<'v, 'a>(version: Version, default: &'v Value<'a>) -> Option<Claim<'v, 'a>>
    requires { value_view default.now ≡ string default_identifier }
    ensures { option_map claim result ≡ absent_crs version }
{
    if !is_judged(version) {
        return None;
    }
    Some(default_claim(default))
}

/// A CRS that is said.
fn claimed<'v, 'a>(crs: Crs<'v, 'a>) -> Claim<'v, 'a>
    ensures { claim result ≡ claimed (said crs.entry) }
{
    Claim {
        crs,
        is_default: false,
    }
}

/// Returns the CRS that a text is: before 1.0.0 alone.
fn text_crs<'v, 'a>(version: Version, value: &'v Value<'a>) -> Option<Claim<'v, 'a>>
    ensures { option_map claim result ≡ text_crs version (value_view value.now) }
{
    if is_judged(version) {
        return None;
    }
    Some(claimed(Crs::Value(value)))
}

/// Returns the CRS that an object is, where it is PROJJSON. Errs only when out of memory.
fn projjson_crs<'v, 'a>(
    alloc: Global,
    value: &'v Value<'a>,
) -> Result<Option<Claim<'v, 'a>>, AllocError>
    ensures { IfOk result (λ said. option_map claim said ≡ projjson_crs (value_view value.now)) }
{
    if is_projjson(alloc, value)? {
        return Ok(Some(claimed(Crs::Value(value))));
    }
    Ok(None)
}

/// Returns the CRS that an object is: from 1.0.0 on only PROJJSON is one. Errs only when out of
/// memory.
fn object_crs<'v, 'a>(
    alloc: Global,
    version: Version,
    value: &'v Value<'a>,
) -> Result<Option<Claim<'v, 'a>>, AllocError>
    ensures { IfOk result (λ said. option_map claim said ≡ object_crs version (value_view value.now)) }
{
    if is_judged(version) {
        return projjson_crs(alloc, value);
    }
    Ok(Some(claimed(Crs::Value(value))))
}

/// Returns the CRS that a member says. Errs only when out of memory.
pub(crate) fn said_crs<'v, 'a>(
    alloc: Global,
    version: Version,
    found: Option<&'v Value<'a>>,
    default: &'v Value<'a>,
) -> Result<Option<Claim<'v, 'a>>, AllocError>
    requires { value_view default.now ≡ string default_identifier }
    ensures { IfOk result (λ said. option_map claim said ≡ said_crs version (option_map (λ v. value_view v.now) found.entry)) }
{
    let Some(found) = found else {
        return Ok(absent_crs(version, default));
    };
    match found {
        Value::Null => Ok(Some(claimed(Crs::Unknown))),
        Value::Object(_) => object_crs(alloc, version, found),
        Value::String(_) => Ok(text_crs(version, found)),
        _ => Ok(None),
    }
}

/// Whether a text says that a CRS is an opaque number.
fn is_srid(crs_type: Option<&str>) -> bool
    ensures { result ≡ is_srid (text_of crs_type.entry) }
{
    match crs_type {
        Some(text) => text == "srid",
        None => false,
    }
}

/// Returns the CRS that a value of extension metadata is.
fn typed_crs<'v, 'a>(opaque: bool, value: &'v Value<'a>) -> Claim<'v, 'a>
    ensures { claim result ≡ typed_crs opaque (value_view value.now) }
{
    if opaque {
        claimed(Crs::Srid(value))
    } else {
        claimed(Crs::Value(value))
    }
}

/// Returns the CRS that extension metadata say, by the value at `crs`.
fn crs_under<'v, 'a>(opaque: bool, found: Option<&'v Value<'a>>) -> Option<Claim<'v, 'a>>
    ensures { option_map claim result ≡ crs_under opaque (option_map (λ v. value_view v.now) found.entry) }
{
    let found = found?;
    match found {
        Value::Null => None,
        Value::String(text) if text.is_empty() => None,
        _ => Some(typed_crs(opaque, found)),
    }
}

/// Returns the text at a key.
pub(crate) fn text_at<'a>(value: &Value<'a>, key: &str) -> Option<&'a str>
    ensures { text_of result ≡ option_and_then as_str (get key.now (value_view value.now)) }
{
    value.get(key)?.as_str()
}

/// Whether a text says that a CRS is PROJJSON.
fn is_projjson_type(crs_type: Option<&str>) -> bool
    ensures { result ≡ is_projjson_type (text_of crs_type.entry) }
{
    match crs_type {
        Some(text) => text == "projjson",
        None => false,
    }
}

/// Returns whether a text is an object that is no PROJJSON. Errs only when out of memory.
fn is_text_broken(alloc: Global, text: &str) -> Result<bool, AllocError>
    ensures { IfOk result (λ is. is ≡ is_malformed (json_in text.now)) }
{
    let mut scratch = Scratch::new(alloc);
    let value = json_in(alloc, text, &mut scratch)?;
    is_malformed(alloc, value.as_ref())
}

/// Returns whether what is to be PROJJSON is an object that is none. Errs only when out of memory.
fn is_value_broken(alloc: Global, typed: bool, value: &Value<'_>) -> Result<bool, AllocError>
    ensures { IfOk result (λ is. is ≡ is_malformed (judged_in typed (value_view value.now))) }
{
    match value {
        Value::String(text) => {
            if typed {
                is_text_broken(alloc, text)
            } else {
                Ok(false)
            }
        }
        _ => is_malformed(alloc, Some(value)),
    }
}

/// Returns whether the value at `crs` is broken. Errs only when out of memory.
fn is_broken_by(alloc: Global, typed: bool, found: Option<&Value<'_>>) -> Result<bool, AllocError>
    ensures { IfOk result (λ is. is ≡ is_broken_by typed (option_map (λ v. value_view v.now) found.entry)) }
{
    match found {
        Some(value) => is_value_broken(alloc, typed, value),
        None => Ok(false),
    }
}

/// Returns whether the CRS of extension metadata is an object that is no PROJJSON. Errs only when out
/// of memory.
fn is_broken(alloc: Global, own: &Value<'_>) -> Result<bool, AllocError>
    ensures { IfOk result (λ is. is ≡ is_broken (value_view own.now)) }
{
    let typed = is_projjson_type(text_at(own, "crs_type"));
    is_broken_by(alloc, typed, own.get("crs"))
}

/// Returns the CRS that extension metadata say, broken or not.
fn own_crs<'v, 'a>(own: &'v Value<'a>) -> Option<Claim<'v, 'a>>
    ensures { option_map claim result ≡ own_crs (value_view own.now) }
{
    let opaque = is_srid(text_at(own, "crs_type"));
    crs_under(opaque, own.get("crs"))
}

/// Returns the CRS that extension metadata say, if there are some; none where it is broken. Errs only
/// when out of memory.
pub(crate) fn own_crs_in<'v, 'a>(
    alloc: Global,
    own: Option<&'v Value<'a>>,
) -> Result<Option<Claim<'v, 'a>>, AllocError>
    ensures { IfOk result (λ said. option_map claim said ≡ own_crs_in (option_map (λ v. value_view v.now) own.entry)) }
{
    let Some(own) = own else {
        return Ok(None);
    };
    if is_broken(alloc, own)? {
        return Ok(None);
    }
    Ok(own_crs(own))
}

/// Returns the extension metadata of an element, where they are JSON. Errs only when out of memory.
pub(crate) fn element_json<'t>(
    alloc: Global,
    element: Option<&'t RootElement>,
    column: Option<&'t SchemaColumn>,
    scratch: &'t mut Scratch,
) -> Result<Option<Value<'t>>, AllocError>
    ensures value { IfOk result (λ o. option_map value_view o ≡ element_json (option_map (λ e. element_view e.now) element.entry) (option_map (λ c. column_tree c.now) column.entry)) }
    ensures read { IfOk result (λ o. IfSome o (λ v. IsReadable (value_view v))) }
{
    let Some(element) = element else {
        return Ok(None);
    };
    match &element.claim {
        ElementClaim::Silent => Ok(None),
        ElementClaim::Given { .. } => own_json(alloc, column, scratch),
        ElementClaim::Beside { metadata, .. } => json_in(alloc, metadata.as_str(), scratch),
    }
}

/// Returns the extension metadata of a field, where they are JSON: none where its column has them from
/// the element. Errs only when out of memory.
pub(crate) fn field_json<'t>(
    alloc: Global,
    element: Option<&RootElement>,
    column: Option<&'t SchemaColumn>,
    scratch: &'t mut Scratch,
) -> Result<Option<Value<'t>>, AllocError>
    ensures value { IfOk result (λ o. option_map value_view o ≡ field_json (option_map (λ e. element_view e.now) element.entry) (option_map (λ c. column_tree c.now) column.entry)) }
    ensures read { IfOk result (λ o. IfSome o (λ v. IsReadable (value_view v))) }
{
    let Some(element) = element else {
        return own_json(alloc, column, scratch);
    };
    match &element.claim {
        ElementClaim::Silent => own_json(alloc, column, scratch),
        ElementClaim::Given { .. } => Ok(None),
        ElementClaim::Beside { .. } => own_json(alloc, column, scratch),
    }
}

/// Returns a CRS, and the default where there is none.
fn or_default<'v, 'a>(said: Option<Claim<'v, 'a>>, default: &'v Value<'a>) -> Option<Claim<'v, 'a>>
    requires { value_view default.now ≡ string default_identifier }
    ensures { option_map claim result ≡ or_default (option_map claim said.entry) }
{
    match said {
        Some(said) => Some(said),
        None => Some(default_claim(default)),
    }
}

/// Whether a value is null.
fn is_null(found: Option<&Value<'_>>) -> bool
    ensures { result ≡ is_null (option_map (λ v. value_view v.now) found.entry) }
{
    matches!(found, Some(Value::Null))
}

/// Returns the CRS that an element of a geometry type says by its metadata, and the default where they
/// name none; none where it is broken. Errs only when out of memory.
fn named_crs<'v, 'a>(
    alloc: Global,
    own: Option<&'v Value<'a>>,
    default: &'v Value<'a>,
) -> Result<Option<Claim<'v, 'a>>, AllocError>
    requires { value_view default.now ≡ string default_identifier }
    ensures { IfOk result (λ said. option_map claim said ≡ named_crs (option_map (λ v. value_view v.now) own.entry)) }
{
    let Some(own) = own else {
        return Ok(Some(default_claim(default)));
    };
    if is_null(own.get("crs")) {
        return Ok(None);
    }
    if is_broken(alloc, own)? {
        return Ok(None);
    }
    Ok(or_default(own_crs(own), default))
}

/// Returns the CRS that an element says, by its metadata. Errs only when out of memory.
pub(crate) fn element_crs<'v, 'a>(
    alloc: Global,
    element: Option<&RootElement>,
    own: Option<&'v Value<'a>>,
    default: &'v Value<'a>,
) -> Result<Option<Claim<'v, 'a>>, AllocError>
    requires { value_view default.now ≡ string default_identifier }
    ensures { IfOk result (λ said. option_map claim said ≡ element_crs (option_map (λ e. element_view e.now) element.entry) (option_map (λ v. value_view v.now) own.entry)) }
{
    let Some(element) = element else {
        return Ok(None);
    };
    match &element.claim {
        ElementClaim::Silent => Ok(None),
        ElementClaim::Given { names_crs, .. } => {
            if *names_crs {
                named_crs(alloc, own, default)
            } else {
                Ok(Some(default_claim(default)))
            }
        }
        ElementClaim::Beside { .. } => named_crs(alloc, own, default),
    }
}

/// Returns the value at `crs` of extension metadata.
pub(crate) fn crs_at<'v, 'a>(own: Option<&'v Value<'a>>) -> Option<&'v Value<'a>>
    requires { IfSome own (λ v. IsReadable (value_view v.now)) }
    ensures value { option_map (λ v. value_view v.now) result ≡ crs_at (option_map (λ v. value_view v.now) own.entry) }
    ensures read { IfSome result (λ v. IsReadable (value_view v.now)) }
{
    match own {
        Some(own) => member_of(own, "crs"),
        None => None,
    }
}

/// Returns the value at `crs` of extension metadata as a finding shows it. Errs only when out of
/// memory.
fn own_shown(alloc: Global, own: Option<&Value<'_>>) -> Result<Option<String>, AllocError>
    requires { IfSome own (λ v. IsReadable (value_view v.now)) }
    ensures { IfOk result (λ text. option_map string_bytes text ≡ own_shown (option_map (λ v. value_view v.now) own.entry)) }
{
    match crs_at(own) {
        Some(crs) => Ok(Some(shown_value(alloc, crs)?)),
        None => Ok(None),
    }
}

/// Returns the CRS that an element or a member says as a finding shows it, by the value at `crs`. Errs
/// only when out of memory.
fn claim_shown(
    alloc: Global,
    said: Option<Claim<'_, '_>>,
    found: Option<&Value<'_>>,
) -> Result<Option<String>, AllocError>
    requires { IfSome found (λ v. IsReadable (value_view v.now)) }
    ensures { IfOk result (λ text. option_map string_bytes text ≡ claim_shown (option_map claim said.entry) (option_map (λ v. value_view v.now) found.entry)) }
{
    let Some(said) = said else {
        return Ok(None);
    };
    if said.is_default {
        return Ok(Some(by_default(alloc, DEFAULT_CRS)?));
    }
    match found {
        Some(found) => Ok(Some(shown_value(alloc, found)?)),
        None => Ok(None),
    }
}

/// Returns what is said of two sources. Errs only when out of memory.
fn pair_verdict(
    alloc: Global,
    one: Option<Claim<'_, '_>>,
    other: Option<Claim<'_, '_>>,
) -> Result<Verdict, AllocError>
    ensures { IfOk result (λ v. v ≡ pair_verdict (option_map claim one.entry) (option_map claim other.entry)) }
{
    let Some(one) = one else {
        return Ok(Verdict::Agree);
    };
    let Some(other) = other else {
        return Ok(Verdict::Agree);
    };
    crs_verdict(alloc, &one, &other)
}

/// Whether two CRSs are not one.
fn is_contradict(verdict: Verdict) -> bool
    ensures { result ≡ is_contradict verdict }
{
    matches!(verdict, Verdict::Contradict)
}

/// Whether nothing decides.
fn is_not_compared(verdict: Verdict) -> bool
    ensures { result ≡ is_not_compared verdict }
{
    matches!(verdict, Verdict::NotCompared)
}

/// Adds what is found of the first pair that contradicts; and if none does, of the first that is not
/// compared. Errs only when out of memory.
fn add_verdict(
    alloc: Global,
    findings: &mut Vec<GeoFinding>,
    key: &str,
    found: Option<&str>,
    element: Option<&str>,
    own: Option<&str>,
    contradicts: Option<Pair>,
    not_compared: Option<Pair>,
) -> Result<(), AllocError>
    ensures { OnOk result (map finding findings.new.items ≡ map finding findings.old.items
        ++ verdict_findings key.now (text_of found.entry) (text_of element.entry) (text_of own.entry) contradicts not_compared) }
{
    match contradicts {
        Some(pair) => add_pair(
            alloc,
            findings,
            GeoCode::CrsContradicts,
            key,
            "crs",
            found,
            element,
            own,
            own,
            Some(pair),
        ),
        None => add_pair(
            alloc,
            findings,
            GeoCode::CrsNotCompared,
            key,
            "crs",
            found,
            element,
            own,
            own,
            not_compared,
        ),
    }
}

/// Adds what is found by the verdicts of three pairs. Errs only when out of memory.
fn add_verdicts(
    alloc: Global,
    findings: &mut Vec<GeoFinding>,
    key: &str,
    found: Option<&str>,
    element: Option<&str>,
    own: Option<&str>,
    element_geo: Verdict,
    element_field: Verdict,
    field_geo: Verdict,
) -> Result<(), AllocError>
    ensures { OnOk result (map finding findings.new.items ≡ map finding findings.old.items
        ++ verdicts_findings key.now (text_of found.entry) (text_of element.entry) (text_of own.entry) element_geo element_field field_geo) }
{
    let contradicts = first_pair(
        is_contradict(element_geo),
        is_contradict(element_field),
        is_contradict(field_geo),
    );
    let not_compared = first_pair(
        is_not_compared(element_geo),
        is_not_compared(element_field),
        is_not_compared(field_geo),
    );
    add_verdict(
        alloc,
        findings,
        key,
        found,
        element,
        own,
        contradicts,
        not_compared,
    )
}

/// Adds what is found of the CRSs of the element, of the field and of `geo`. Errs only when out of
/// memory.
fn add_three(
    alloc: Global,
    findings: &mut Vec<GeoFinding>,
    key: &str,
    found: Option<&Value<'_>>,
    shown: Option<&str>,
    own: Option<&Value<'_>>,
    element: Option<Claim<'_, '_>>,
    field: Option<Claim<'_, '_>>,
    said: Option<Claim<'_, '_>>,
) -> Result<(), AllocError>
    requires found { IfSome found (λ v. IsReadable (value_view v.now)) }
    requires own { IfSome own (λ v. IsReadable (value_view v.now)) }
    ensures { OnOk result (map finding findings.new.items ≡ map finding findings.old.items
        ++ three_findings key.now (option_map (λ v. value_view v.now) found.entry) (text_of shown.entry) (option_map (λ v. value_view v.now) own.entry) (option_map claim element.entry) (option_map claim field.entry) (option_map claim said.entry)) }
{
    let element_geo = pair_verdict(alloc, element, said)?;
    let element_field = pair_verdict(alloc, element, field)?;
    let field_geo = pair_verdict(alloc, field, said)?;
    let found = claim_shown(alloc, said, found)?;
    let own = own_shown(alloc, own)?;
    add_verdicts(
        alloc,
        findings,
        key,
        found.as_deref(),
        shown,
        own.as_deref(),
        element_geo,
        element_field,
        field_geo,
    )
}

/// Adds what is found by what the element and `geo` say and the metadata of the element and of the
/// field. Errs only when out of memory.
fn add_claimed(
    alloc: Global,
    findings: &mut Vec<GeoFinding>,
    key: &str,
    found: Option<&Value<'_>>,
    metadata: Option<&Value<'_>>,
    own: Option<&Value<'_>>,
    element: Option<Claim<'_, '_>>,
    said: Option<Claim<'_, '_>>,
) -> Result<(), AllocError>
    requires found { IfSome found (λ v. IsReadable (value_view v.now)) }
    requires metadata { IfSome metadata (λ v. IsReadable (value_view v.now)) }
    requires own { IfSome own (λ v. IsReadable (value_view v.now)) }
    ensures { OnOk result (map finding findings.new.items ≡ map finding findings.old.items
        ++ claimed_findings key.now (option_map (λ v. value_view v.now) found.entry) (option_map claim element.entry) (option_map (λ v. value_view v.now) metadata.entry) (option_map (λ v. value_view v.now) own.entry) (option_map claim said.entry)) }
{
    let shown = claim_shown(alloc, element, crs_at(metadata))?;
    let field = own_crs_in(alloc, own)?;
    let shown = shown.as_deref();
    add_three(
        alloc, findings, key, found, shown, own, element, field, said,
    )
}

/// Adds what is found by the metadata of the element and of the field. Errs only when out of memory.
fn add_json(
    alloc: Global,
    findings: &mut Vec<GeoFinding>,
    key: &str,
    found: Option<&Value<'_>>,
    element: Option<&RootElement>,
    metadata: Option<&Value<'_>>,
    own: Option<&Value<'_>>,
    said: Option<Claim<'_, '_>>,
) -> Result<(), AllocError>
    requires found { IfSome found (λ v. IsReadable (value_view v.now)) }
    requires metadata { IfSome metadata (λ v. IsReadable (value_view v.now)) }
    requires own { IfSome own (λ v. IsReadable (value_view v.now)) }
    ensures { OnOk result (map finding findings.new.items ≡ map finding findings.old.items
        ++ crs_json_findings key.now (option_map (λ v. value_view v.now) found.entry) (option_map (λ e. element_view e.now) element.entry) (option_map (λ v. value_view v.now) metadata.entry) (option_map (λ v. value_view v.now) own.entry) (option_map claim said.entry)) }
{
    let default = Value::String(DEFAULT_CRS);
    let claimed = element_crs(alloc, element, metadata, &default)?;
    add_claimed(alloc, findings, key, found, metadata, own, claimed, said)
}

/// Adds what is found where two of the element, the field and `crs` say two CRSs, or where it is not
/// known whether they are one. Errs only when out of memory.
pub(crate) fn add_crs_claims(
    alloc: Global,
    findings: &mut Vec<GeoFinding>,
    key: &str,
    found: Option<&Value<'_>>,
    column: Option<&SchemaColumn>,
    element: Option<&RootElement>,
    said: Option<Claim<'_, '_>>,
) -> Result<(), AllocError>
    requires { IfSome found (λ v. IsReadable (value_view v.now)) }
    ensures { OnOk result (map finding findings.new.items ≡ map finding findings.old.items
        ++ crs_claims_findings key.now (option_map (λ v. value_view v.now) found.entry) (option_map (λ c. column_tree c.now) column.entry) (option_map (λ e. element_view e.now) element.entry) (option_map claim said.entry)) }
{
    let mut scratch = Scratch::new(alloc);
    let mut other = Scratch::new(alloc);
    let metadata = element_json(alloc, element, column, &mut scratch)?;
    let own = field_json(alloc, element, column, &mut other)?;
    add_json(
        alloc,
        findings,
        key,
        found,
        element,
        metadata.as_ref(),
        own.as_ref(),
        said,
    )
}

/// Adds what is found where two of the element, the field and `crs` of a member say two CRSs, or where
/// it is not known whether they are one (docs/FORMAT.md, 5.1). Errs only when out of memory.
pub(crate) fn add_crs_contradicts(
    alloc: Global,
    findings: &mut Vec<GeoFinding>,
    version: Version,
    key: &str,
    column: Option<&SchemaColumn>,
    element: Option<&RootElement>,
    member: &Value<'_>,
) -> Result<(), AllocError>
    requires { IsReadable (value_view member.now) }
    ensures { OnOk result (map finding findings.new.items ≡ map finding findings.old.items
        ++ crs_contradicts_findings version key.now (option_map (λ c. column_tree c.now) column.entry) (option_map (λ e. element_view e.now) element.entry) (value_view member.now)) }
{
    let default = Value::String(DEFAULT_CRS);
    let found = member_of(member, "crs");
    let said = said_crs(alloc, version, found, &default)?;
    add_crs_claims(alloc, findings, key, found, column, element, said)
}
