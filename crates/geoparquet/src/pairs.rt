//! Of what three sources say of one fact, the first pair that does not go together.
ghost use Rattle.std.specs.Prelude.{◌≡◌, ◌++◌, IfOk, OnOk, map, option_map, string_bytes};
ghost use Rattle.arrow_values.specs.Texts.{text_of};
ghost use Rattle.geoparquet.specs.Findings.{finding};
ghost use Rattle.geoparquet.specs.Pairs.{first_pair, differ, texts_pair, of_element, of_field, by_default, found_word, wanted_word, pair_findings, text_findings};

use crate::adding::{add_told, add_told_in};
use crate::code::GeoCode;
use crate::fact_sources::FactSource;
use crate::finding::GeoFinding;
use column_check::shown_value;
use json::Value;
use std::alloc::{AllocError, Global};

/// Two of the three sources of a column, in the order in which pairs are judged (docs/FORMAT.md, 5.1).
#[derive(Clone, Copy, Debug, PartialEq, Eq)]
pub(crate) enum Pair {
    /// The element and `geo`.
    ElementGeo,
    /// The element and the field.
    ElementField,
    /// The field and `geo`.
    FieldGeo,
}

/// Of which sources what they say is the default of the format.
#[derive(Clone, Copy, Debug, PartialEq, Eq)]
pub(crate) struct Defaults {
    /// Of the element.
    pub element: bool,
    /// Of the field.
    pub field: bool,
    /// Of `geo`.
    pub geo: bool,
}

/// Returns the first pair of which something holds.
pub(crate) fn first_pair(element_geo: bool, element_field: bool, field_geo: bool) -> Option<Pair>
    ensures { result ≡ first_pair element_geo element_field field_geo }
{
    if element_geo {
        Some(Pair::ElementGeo)
    } else if element_field {
        Some(Pair::ElementField)
    } else if field_geo {
        Some(Pair::FieldGeo)
    } else {
        None
    }
}

/// Whether two texts are both there, and are not one.
fn differ(one: Option<&str>, other: Option<&str>) -> bool
    ensures { result ≡ differ (text_of one.entry) (text_of other.entry) }
{
    let Some(one) = one else {
        return false;
    };
    let Some(other) = other else {
        return false;
    };
    one != other
}

/// Returns the first pair of texts that are not one.
fn texts_pair(element: Option<&str>, field: Option<&str>, said: Option<&str>) -> Option<Pair>
    ensures { result ≡ texts_pair (text_of element.entry) (text_of field.entry) (text_of said.entry) }
{
    let element_geo = differ(element, said);
    let element_field = differ(element, field);
    let field_geo = differ(field, said);
    first_pair(element_geo, element_field, field_geo)
}

/// Returns what an element says, with its name. Errs only when out of memory.
fn of_element(alloc: Global, text: Option<&str>) -> Result<Option<String>, AllocError>
    ensures { IfOk result (λ made. option_map string_bytes made ≡ option_map of_element (text_of text.entry)) }
{
    match text {
        Some(text) => Ok(Some(format!(in alloc; "{text} of the element")?)),
        None => Ok(None),
    }
}

/// Returns what a field says, with its name. Errs only when out of memory.
fn of_field(alloc: Global, text: Option<&str>) -> Result<Option<String>, AllocError>
    ensures { IfOk result (λ made. option_map string_bytes made ≡ option_map of_field (text_of text.entry)) }
{
    match text {
        Some(text) => Ok(Some(format!(in alloc; "{text} of the field")?)),
        None => Ok(None),
    }
}

/// Returns what a source says where that is the default. Errs only when out of memory.
pub(crate) fn by_default(alloc: Global, text: &str) -> Result<String, AllocError>
    ensures { IfOk result (λ made. string_bytes made ≡ by_default text.now) }
{
    format!(in alloc; "{text}, the default")
}

/// Returns a text as it is found: as JSON, and one that is the default by its word. Errs only when out
/// of memory.
fn found_word(
    alloc: Global,
    is_default: bool,
    text: Option<&str>,
) -> Result<Option<String>, AllocError>
    ensures { IfOk result (λ made. option_map string_bytes made ≡ option_map (found_word is_default) (text_of text.entry)) }
{
    let Some(text) = text else {
        return Ok(None);
    };
    if is_default {
        return Ok(Some(by_default(alloc, text)?));
    }
    Ok(Some(shown_value(alloc, &Value::String(text))?))
}

/// Returns a text as it is wanted. Errs only when out of memory.
fn wanted_word(
    alloc: Global,
    is_default: bool,
    text: Option<&str>,
) -> Result<Option<String>, AllocError>
    ensures { IfOk result (λ made. option_map string_bytes made ≡ option_map (wanted_word is_default) (text_of text.entry)) }
{
    let Some(text) = text else {
        return Ok(None);
    };
    if is_default {
        return Ok(Some(by_default(alloc, text)?));
    }
    Ok(Some(String::from_str(alloc, text)?))
}

/// Adds what is found of a pair, if there is one: by what `geo`, the element and the field say, and
/// how the field says it as one that is wanted. Errs only when out of memory.
pub(crate) fn add_pair(
    alloc: Global,
    findings: &mut Vec<GeoFinding>,
    code: GeoCode,
    key: &str,
    name: &str,
    found: Option<&str>,
    element: Option<&str>,
    field: Option<&str>,
    own: Option<&str>,
    pair: Option<Pair>,
) -> Result<(), AllocError>
    ensures { OnOk result (map finding findings.new.items ≡ map finding findings.old.items
        ++ pair_findings code key.now name.now (text_of found.entry) (text_of element.entry) (text_of field.entry) (text_of own.entry) pair) }
{
    let Some(pair) = pair else {
        return Ok(());
    };
    match pair {
        Pair::ElementGeo => {
            let wanted = of_element(alloc, element)?;
            add_told(alloc, findings, code, key, name, found, wanted.as_deref())
        }
        Pair::ElementField => {
            let wanted = of_element(alloc, element)?;
            let wanted = wanted.as_deref();
            add_told_in(alloc, findings, FactSource::Field, code, key, field, wanted)
        }
        Pair::FieldGeo => {
            let wanted = of_field(alloc, own)?;
            add_told(alloc, findings, code, key, name, found, wanted.as_deref())
        }
    }
}

/// Adds what is found of three texts. Errs only when out of memory.
pub(crate) fn add_texts(
    alloc: Global,
    findings: &mut Vec<GeoFinding>,
    code: GeoCode,
    key: &str,
    name: &str,
    defaults: Defaults,
    element: Option<&str>,
    field: Option<&str>,
    said: Option<&str>,
) -> Result<(), AllocError>
    ensures { OnOk result (map finding findings.new.items ≡ map finding findings.old.items
        ++ text_findings code key.now name.now defaults (text_of element.entry) (text_of field.entry) (text_of said.entry)) }
{
    let Some(pair) = texts_pair(element, field, said) else {
        return Ok(());
    };
    let found = found_word(alloc, defaults.geo, said)?;
    let claimed = wanted_word(alloc, defaults.element, element)?;
    let shown = found_word(alloc, defaults.field, field)?;
    let own = wanted_word(alloc, defaults.field, field)?;
    add_pair(
        alloc,
        findings,
        code,
        key,
        name,
        found.as_deref(),
        claimed.as_deref(),
        shown.as_deref(),
        own.as_deref(),
        Some(pair),
    )
}
