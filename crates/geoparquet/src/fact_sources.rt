//! Which source of a fact counts, and what the others say against it.
ghost use Rattle.std.specs.Prelude.{◌≡◌, IfOk, option_map};
ghost use Rattle.arrow_values.specs.Texts.{text_of};
ghost use Rattle.crs_identity.specs.Verdicts.{claim, crs_verdict};
ghost use Rattle.geoparquet.specs.FactSources.{against, first_source, is_said, of_source, source_counting, source_word, text_verdict, verdict_beside};

use crs_identity::{Claim, Verdict, crs_verdict};
use std::alloc::{AllocError, Global};

/// A source of what is said of a column (docs/FORMAT.md, 5).
#[derive(Clone, Copy, Debug, PartialEq, Eq)]
pub enum FactSource {
    /// Its element, of Parquet's logical type.
    Element,
    /// Its member in the metadata at the key `geo`.
    Geo,
    /// Its field, by its extension name and metadata.
    Field,
}

impl FactSource {
    /// Returns the word of the source.
    pub fn word(self) -> &'static str
        ensures { result.now ≡ source_word self }
    {
        match self {
            FactSource::Element => "element",
            FactSource::Geo => "geo",
            FactSource::Field => "field",
        }
    }
}

/// What sources say against the one that counts: of each other source that says something, whether
/// it says the same.
#[derive(Clone, Copy, Debug, PartialEq, Eq)]
pub struct Against {
    /// What the element says.
    pub element: Option<Verdict>,
    /// What the member says.
    pub geo: Option<Verdict>,
    /// What the field says.
    pub field: Option<Verdict>,
}

/// Returns the first of the sources for which that holds.
fn first_source(element: bool, geo: bool, field: bool) -> Option<FactSource>
    ensures { result ≡ first_source element geo field }
{
    if element {
        Some(FactSource::Element)
    } else if geo {
        Some(FactSource::Geo)
    } else if field {
        Some(FactSource::Field)
    } else {
        None
    }
}

/// Whether a source says something, and no default.
fn is_said(is_default: Option<bool>) -> bool
    ensures { result ≡ is_said is_default }
{
    match is_default {
        Some(is_default) => !is_default,
        None => false,
    }
}

/// Returns the source that counts, by whether what each says is a default: the first that says
/// something and no default, and else the first that says something.
pub(crate) fn source_counting(
    element: Option<bool>,
    geo: Option<bool>,
    field: Option<bool>,
) -> Option<FactSource>
    ensures { result ≡ source_counting (record { element = element; geo = geo; field = field }) }
{
    match first_source(is_said(element), is_said(geo), is_said(field)) {
        Some(source) => Some(source),
        None => first_source(element.is_some(), geo.is_some(), field.is_some()),
    }
}

/// Returns the verdict on two texts.
fn text_verdict(said: &str, counts: &str) -> Verdict
    ensures { result ≡ text_verdict said.now counts.now }
{
    if said == counts {
        Verdict::Agree
    } else {
        Verdict::Contradict
    }
}

/// Returns the verdict on a text that a source says, beside the one that counts.
fn text_beside(said: Option<&str>, counts: Option<&str>) -> Option<Verdict>
    ensures { result ≡ verdict_beside text_verdict (text_of said.entry) (text_of counts.entry) }
{
    Some(text_verdict(said?, counts?))
}

/// Returns the text that a source says.
pub(crate) fn text_from<'a>(
    from: FactSource,
    element: Option<&'a str>,
    geo: Option<&'a str>,
    field: Option<&'a str>,
) -> Option<&'a str>
    ensures { text_of result ≡ of_source from (record { element = text_of element.entry; geo = text_of geo.entry; field = text_of field.entry }) }
{
    match from {
        FactSource::Element => element,
        FactSource::Geo => geo,
        FactSource::Field => field,
    }
}

/// Returns what the sources say against the one that counts, by the texts of each.
pub(crate) fn texts_against(
    from: FactSource,
    element: Option<&str>,
    geo: Option<&str>,
    field: Option<&str>,
) -> Against
    ensures { result ≡ against text_verdict from (record { element = text_of element.entry; geo = text_of geo.entry; field = text_of field.entry }) }
{
    match from {
        FactSource::Element => Against {
            element: None,
            geo: text_beside(geo, element),
            field: text_beside(field, element),
        },
        FactSource::Geo => Against {
            element: text_beside(element, geo),
            geo: None,
            field: text_beside(field, geo),
        },
        FactSource::Field => Against {
            element: text_beside(element, field),
            geo: text_beside(geo, field),
            field: None,
        },
    }
}

/// Returns the verdict on a CRS that a source says, beside the one that counts. Errs only when out of
/// memory.
fn crs_beside(
    alloc: Global,
    said: Option<Claim<'_, '_>>,
    counts: Option<Claim<'_, '_>>,
) -> Result<Option<Verdict>, AllocError>
    ensures { IfOk result (λ v. v ≡ verdict_beside crs_verdict (option_map claim said.entry) (option_map claim counts.entry)) }
{
    let Some(said) = said else {
        return Ok(None);
    };
    let Some(counts) = counts else {
        return Ok(None);
    };
    Ok(Some(crs_verdict(alloc, &said, &counts)?))
}

/// Returns what the sources say against the one that counts, by the CRS of each. Errs only when out
/// of memory.
pub(crate) fn crs_against(
    alloc: Global,
    from: FactSource,
    element: Option<Claim<'_, '_>>,
    geo: Option<Claim<'_, '_>>,
    field: Option<Claim<'_, '_>>,
) -> Result<Against, AllocError>
    ensures { IfOk result (λ verdicts. verdicts ≡ against crs_verdict from (record { element = option_map claim element.entry; geo = option_map claim geo.entry; field = option_map claim field.entry })) }
{
    match from {
        FactSource::Element => Ok(Against {
            element: None,
            geo: crs_beside(alloc, geo, element)?,
            field: crs_beside(alloc, field, element)?,
        }),
        FactSource::Geo => Ok(Against {
            element: crs_beside(alloc, element, geo)?,
            geo: None,
            field: crs_beside(alloc, field, geo)?,
        }),
        FactSource::Field => Ok(Against {
            element: crs_beside(alloc, element, field)?,
            geo: crs_beside(alloc, geo, field)?,
            field: None,
        }),
    }
}
