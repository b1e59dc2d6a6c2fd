//! Whether the CRSs of two columns are one.
ghost use Rattle.std.specs.Prelude.{◌≡◌, IfOk, option_map, string_bytes};
ghost use Rattle.json.specs.Value.{value_view};
ghost use Rattle.arrow_values.specs.Texts.{text_of};
ghost use Rattle.crs_identity.specs.Forms.{said};
ghost use Rattle.crs_identity.specs.Verdicts.{claim, crs_verdict};
ghost use Rattle.geoparquet.specs.Facts.{crs_view};
ghost use Rattle.same_columns.specs.Aspects.{claimed, crs_between, has_default, is_agreed, is_code, is_default, is_default_value, is_of_crs, is_srid, said_by};

use crs_identity::{Claim, Crs, Verdict, crs_verdict};
use geoparquet::{CrsFact, FactSource};
use json::{Scratch, Value};
use std::alloc::{AllocError, Global};
use value_tokens::{JsonText, read_json};

/// Returns the verdict on the CRSs that count of two columns; where one says a CRS, and the other
/// none, nothing decides. Errs only when out of memory.
pub(crate) fn crs_between(
    alloc: Global,
    a: Option<&CrsFact>,
    b: Option<&CrsFact>,
) -> Result<Verdict, AllocError>
    ensures { IfOk result (λ v. v ≡ crs_between (option_map (λ f. crs_view f.now) a.entry) (option_map (λ f. crs_view f.now) b.entry)) }
{
    match (a, b) {
        (None, None) => Ok(Verdict::Agree),
        (Some(a), Some(b)) => verdict_on(alloc, a, b),
        _ => Ok(Verdict::NotCompared),
    }
}

/// Returns whether the CRS of a column that counts is the one that a text says, as `EPSG:4326`: whether
/// both agree (docs/FORMAT.md, 5.3). Errs only when out of memory.
pub fn is_of_crs(alloc: Global, fact: &CrsFact, text: &str) -> Result<bool, AllocError>
    ensures { IfOk result (λ is. is ≡ is_of_crs (crs_view fact.now) text.now) }
{
    let mut scratch = Scratch::new(alloc);
    let value = value_in(alloc, fact.crs.as_ref(), &mut scratch)?;
    let text = Value::String(text);
    let said = Claim {
        crs: Crs::Value(&text),
        is_default: false,
    };
    Ok(is_agreed(crs_verdict(alloc, &claimed(fact, value.as_ref()), &said)?))
}

/// Whether a verdict is that both are one.
fn is_agreed(verdict: Verdict) -> bool
    ensures { result ≡ is_agreed verdict }
{
    match verdict {
        Verdict::Agree => true,
        Verdict::Contradict | Verdict::NotCompared => false,
    }
}

/// Returns the verdict on two CRSs that count. Errs only when out of memory.
fn verdict_on(alloc: Global, a: &CrsFact, b: &CrsFact) -> Result<Verdict, AllocError>
    ensures { IfOk result (λ v. v ≡ crs_verdict (claimed (crs_view a.now)) (claimed (crs_view b.now))) }
{
    let mut scratch = Scratch::new(alloc);
    let mut other = Scratch::new(alloc);
    let x = value_in(alloc, a.crs.as_ref(), &mut scratch)?;
    let y = value_in(alloc, b.crs.as_ref(), &mut other)?;
    crs_verdict(alloc, &claimed(a, x.as_ref()), &claimed(b, y.as_ref()))
}

/// Returns what a column says of its CRS, which is that value.
fn claimed<'v, 'a>(fact: &CrsFact, value: Option<&'v Value<'a>>) -> Claim<'v, 'a>
    requires { option_map (λ v. value_view v.now) value ≡ (crs_view fact.now).crs }
    ensures { claim result ≡ claimed (crs_view fact.now) }
{
    let crs_type = fact.crs_type.as_deref();
    Claim {
        crs: said_by(crs_type, value),
        is_default: has_default(fact.from) && (is_code(crs_type) && is_default_value(value)),
    }
}

/// Returns a CRS by its type and its value.
fn said_by<'v, 'a>(crs_type: Option<&str>, value: Option<&'v Value<'a>>) -> Crs<'v, 'a>
    ensures { said result ≡ said_by (text_of crs_type.entry) (option_map (λ v. value_view v.now) value.entry) }
{
    match value {
        None => Crs::Unknown,
        Some(value) if is_srid(crs_type) => Crs::Srid(value),
        Some(value) => Crs::Value(value),
    }
}

/// Whether a text says that a CRS is an opaque number.
fn is_srid(crs_type: Option<&str>) -> bool
    ensures { result ≡ is_srid (text_of crs_type.entry) }
{
    match crs_type {
        Some(text) => text == "srid",
        None => false,
    }
}

/// Whether a text says that a CRS is a code.
fn is_code(crs_type: Option<&str>) -> bool
    ensures { result ≡ is_code (text_of crs_type.entry) }
{
    match crs_type {
        Some(text) => text == "authority_code",
        None => false,
    }
}

/// Whether a source has a default.
fn has_default(from: FactSource) -> bool
    ensures { result ≡ has_default from }
{
    match from {
        FactSource::Element | FactSource::Geo => true,
        FactSource::Field => false,
    }
}

/// Whether a value is that of the default.
fn is_default_value(value: Option<&Value<'_>>) -> bool
    ensures { result ≡ is_default_value (option_map (λ v. value_view v.now) value.entry) }
{
    let Some(value) = value else {
        return false;
    };
    match value {
        Value::String(text) => *text == "OGC:CRS84",
        _ => false,
    }
}

/// Returns the value of a CRS as it is written, if it is known. Errs only when out of memory.
fn value_in<'t>(
    alloc: Global,
    text: Option<&'t JsonText>,
    scratch: &'t mut Scratch,
) -> Result<Option<Value<'t>>, AllocError>
    ensures { IfOk result (λ value. option_map value_view value ≡ option_map (λ t. t.now) text.entry) }
{
    match text {
        Some(text) => Ok(Some(json_value(alloc, text, scratch)?)),
        None => Ok(None),
    }
}

/// Returns the value of a text of JSON, as which it is read. Errs only when out of memory.
fn json_value<'t>(
    alloc: Global,
    text: &'t JsonText,
    scratch: &'t mut Scratch,
) -> Result<Value<'t>, AllocError>
    ensures { IfOk result (λ value. value_view value ≡ text.now) }
{
    match read_json(alloc, text.as_str(), scratch) {
        Ok(value) => Ok(value),
        // A text of JSON is read, so memory is lacking.
        Err(_) => Err(AllocError),
    }
}
