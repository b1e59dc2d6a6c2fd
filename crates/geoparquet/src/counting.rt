//! The CRS and the edges by which a column is judged.
ghost use Rattle.std.specs.Prelude.{◌≡◌, [], ◌∷◌, ◌++◌, IfOk, OnOk, codes, map, option_map, string_bytes};
ghost use Rattle.json.specs.Find.{get};
ghost use Rattle.json.specs.Value.{value_view};
ghost use Rattle.arrow_values.specs.Texts.{text_of};
ghost use Rattle.arrow_columns.specs.Column.{column_tree};
ghost use Rattle.crs_identity.specs.Forms.{said};
ghost use Rattle.crs_identity.specs.Verdicts.{claim, class_said, form_said, has_paired};
ghost use Rattle.geoparquet.specs.CrsWords.{crs_word};
ghost use Rattle.geoparquet.specs.Findings.{finding};
ghost use Rattle.geoparquet.specs.CrsClaims.{own_crs_in, said_crs};
ghost use Rattle.geoparquet.specs.Counting.{counting, crs_counting, crs_that_counts, is_projected_class, is_projected, is_asked, word_if, asked_word, edges_word, is_paired_by, is_crs_paired, crs_alone, projects, member_edges_finding, own_edges_finding, edges_finding, on_projected_findings, edges_on_projected_findings, own_on_projected_findings};
ghost use Rattle.geoparquet.specs.Identifiers.{default_identifier};
ghost use Rattle.geoparquet.specs.Sources.{element_view};
ghost use Rattle.json.specs.Json.{string};

use crate::adding::{add_told, add_told_in};
use crate::code::GeoCode;
use crate::contradictions::{element_metadata, own_metadata};
use crate::crs_claims::{DEFAULT_CRS, element_crs, element_json, field_json, own_crs_in, said_crs};
use crate::crs_words::crs_word;
use crate::fact_sources::FactSource;
use crate::finding::{GeoFinding, Version};
use crate::text_facts::edges_fact_in;
use crate::version::is_judged;
use arrow_columns::SchemaColumn;
use crs_identity::{Claim, Class, Crs, class_of, has_paired_identifier};
use json::{Scratch, Value};
use parquet_columns::RootElement;
use std::alloc::{AllocError, Global};

/// Whether a class is that of coordinates in a plane.
fn is_projected_class(class: Option<Class>) -> bool
    ensures { result ≡ is_projected_class class }
{
    matches!(class, Some(Class::Projected))
}

/// What is asked of a CRS.
#[derive(Clone, Copy, Debug, PartialEq, Eq)]
enum Asked {
    /// Whether it is known to be projected.
    Projected,
    /// Whether it has an identifier of the table of pairs.
    Paired,
}

/// Returns the name of a CRS, where what is asked holds of it. Errs only when out of memory.
fn asked_word(
    alloc: Global,
    asked: Asked,
    crs: Option<Claim<'_, '_>>,
) -> Result<Option<String>, AllocError>
    ensures { IfOk result (λ word. option_map string_bytes word ≡ asked_word asked (option_map claim crs.entry)) }
{
    let Some(said) = crs else {
        return Ok(None);
    };
    match asked {
        Asked::Projected => projected_word(alloc, &said.crs),
        Asked::Paired => paired_word(alloc, &said.crs),
    }
}

/// Returns the name of a CRS that is projected. Errs only when out of memory.
fn projected_word(alloc: Global, crs: &Crs<'_, '_>) -> Result<Option<String>, AllocError>
    ensures { IfOk result (λ word. option_map string_bytes word ≡ word_if (is_projected_class (class_said (said crs.now))) (crs_word (said crs.now))) }
{
    if is_projected_class(class_of(alloc, crs)?) {
        Ok(Some(crs_word(alloc, crs)?))
    } else {
        Ok(None)
    }
}

/// Returns an empty text for a CRS that has an identifier of the table of pairs. Errs only when out
/// of memory.
fn paired_word(alloc: Global, crs: &Crs<'_, '_>) -> Result<Option<String>, AllocError>
    ensures { IfOk result (λ word. option_map string_bytes word ≡ word_if (has_paired (form_said (said crs.now))) []) }
{
    if has_paired_identifier(alloc, crs)? {
        Ok(Some(String::new(alloc)))
    } else {
        Ok(None)
    }
}

/// Returns the name, where what is asked holds of it, of the one of two CRSs that counts. Errs only when out of memory.
fn word_of_two(
    alloc: Global,
    asked: Asked,
    said: Option<Claim<'_, '_>>,
    other: Option<Claim<'_, '_>>,
) -> Result<Option<String>, AllocError>
    ensures { IfOk result (λ word. option_map string_bytes word ≡ asked_word asked (counting (option_map claim said.entry) (option_map claim other.entry))) }
{
    let Some(first) = said else {
        return asked_word(alloc, asked, other);
    };
    let Some(second) = other else {
        return asked_word(alloc, asked, Some(first));
    };
    if !first.is_default {
        return asked_word(alloc, asked, Some(first));
    }
    if second.is_default {
        return asked_word(alloc, asked, Some(first));
    }
    asked_word(alloc, asked, Some(second))
}

/// Returns the name, where what is asked holds of it, of the one of three CRSs that counts. Errs only when out of memory.
fn word_of_three(
    alloc: Global,
    asked: Asked,
    claimed: Option<Claim<'_, '_>>,
    said: Option<Claim<'_, '_>>,
    own: Option<Claim<'_, '_>>,
) -> Result<Option<String>, AllocError>
    ensures { IfOk result (λ word. option_map string_bytes word ≡ asked_word asked (counting (counting (option_map claim claimed.entry) (option_map claim said.entry)) (option_map claim own.entry))) }
{
    let Some(first) = claimed else {
        return word_of_two(alloc, asked, said, own);
    };
    let Some(second) = said else {
        return word_of_two(alloc, asked, Some(first), own);
    };
    if !first.is_default {
        return word_of_two(alloc, asked, Some(first), own);
    }
    if second.is_default {
        return word_of_two(alloc, asked, Some(first), own);
    }
    word_of_two(alloc, asked, Some(second), own)
}

/// Returns the name, where what is asked holds of it, of the CRS that counts, by what the element and the member say and the metadata
/// of the field. Errs only when out of memory.
fn word_claimed(
    alloc: Global,
    asked: Asked,
    claimed: Option<Claim<'_, '_>>,
    said: Option<Claim<'_, '_>>,
    own: Option<&Value<'_>>,
) -> Result<Option<String>, AllocError>
    ensures { IfOk result (λ word. option_map string_bytes word ≡ asked_word asked (counting (counting (option_map claim claimed.entry) (option_map claim said.entry)) (own_crs_in (option_map (λ v. value_view v.now) own.entry)))) }
{
    let field = own_crs_in(alloc, own)?;
    word_of_three(alloc, asked, claimed, said, field)
}

/// Returns the name, where what is asked holds of it, of the CRS that counts, by what the member says and the metadata of the
/// element and of the field. Errs only when out of memory.
fn word_beside(
    alloc: Global,
    asked: Asked,
    element: Option<&RootElement>,
    metadata: Option<&Value<'_>>,
    own: Option<&Value<'_>>,
    said: Option<Claim<'_, '_>>,
) -> Result<Option<String>, AllocError>
    ensures { IfOk result (λ word. option_map string_bytes word ≡ asked_word asked (crs_counting (option_map (λ e. element_view e.now) element.entry) (option_map (λ v. value_view v.now) metadata.entry) (option_map (λ v. value_view v.now) own.entry) (option_map claim said.entry))) }
{
    let default = Value::String(DEFAULT_CRS);
    let claimed = element_crs(alloc, element, metadata, &default)?;
    word_claimed(alloc, asked, claimed, said, own)
}

/// Returns what is asked of the CRS that counts, by what the member says and the metadata of the
/// element and of the field. Errs only when out of memory.
fn is_asked_beside(
    alloc: Global,
    asked: Asked,
    element: Option<&RootElement>,
    metadata: Option<&Value<'_>>,
    own: Option<&Value<'_>>,
    said: Option<Claim<'_, '_>>,
) -> Result<bool, AllocError>
    ensures { IfOk result (λ is. is ≡ is_asked asked (crs_counting (option_map (λ e. element_view e.now) element.entry) (option_map (λ v. value_view v.now) metadata.entry) (option_map (λ v. value_view v.now) own.entry) (option_map claim said.entry))) }
{
    let word = word_beside(alloc, asked, element, metadata, own, said)?;
    Ok(word.is_some())
}

/// Returns the name of the CRS that counts, where it is projected, by the metadata of the element and
/// of the field. Errs only when out of memory.
fn projected_beside(
    alloc: Global,
    version: Version,
    element: Option<&RootElement>,
    metadata: Option<&Value<'_>>,
    own: Option<&Value<'_>>,
    member: &Value<'_>,
) -> Result<Option<String>, AllocError>
    ensures { IfOk result (λ word. option_map string_bytes word ≡ asked_word Asked.Projected (crs_counting (option_map (λ e. element_view e.now) element.entry) (option_map (λ v. value_view v.now) metadata.entry) (option_map (λ v. value_view v.now) own.entry) (said_crs version (get (codes "crs") (value_view member.now))))) }
{
    let default = Value::String(DEFAULT_CRS);
    let said = said_crs(alloc, version, member.get("crs"), &default)?;
    let asked = Asked::Projected;
    word_beside(alloc, asked, element, metadata, own, said)
}

/// Returns the name of the CRS that counts, where it is projected. Errs only when out of memory.
fn projected_of(
    alloc: Global,
    version: Version,
    column: Option<&SchemaColumn>,
    element: Option<&RootElement>,
    member: &Value<'_>,
) -> Result<Option<String>, AllocError>
    ensures { IfOk result (λ word. option_map string_bytes word ≡ asked_word Asked.Projected (crs_that_counts version (option_map (λ c. column_tree c.now) column.entry) (option_map (λ e. element_view e.now) element.entry) (value_view member.now))) }
{
    let mut scratch = Scratch::new(alloc);
    let mut other = Scratch::new(alloc);
    let metadata = element_json(alloc, element, column, &mut scratch)?;
    let own = field_json(alloc, element, column, &mut other)?;
    projected_beside(
        alloc,
        version,
        element,
        metadata.as_ref(),
        own.as_ref(),
        member,
    )
}

/// Returns whether the CRS that counts is projected. Errs only when out of memory.
pub(crate) fn counts_projected(
    alloc: Global,
    version: Version,
    column: Option<&SchemaColumn>,
    element: Option<&RootElement>,
    member: &Value<'_>,
) -> Result<bool, AllocError>
    ensures { IfOk result (λ is. is ≡ is_projected (crs_that_counts version (option_map (λ c. column_tree c.now) column.entry) (option_map (λ e. element_view e.now) element.entry) (value_view member.now))) }
{
    let word = projected_of(alloc, version, column, element, member)?;
    Ok(word.is_some())
}

/// Returns whether the CRS that counts has an identifier of the table of pairs, where the member says
/// one, by the metadata of the element and of the field. Errs only when out of memory.
fn is_paired_beside(
    alloc: Global,
    version: Version,
    element: Option<&RootElement>,
    metadata: Option<&Value<'_>>,
    own: Option<&Value<'_>>,
    member: &Value<'_>,
) -> Result<bool, AllocError>
    ensures { IfOk result (λ is. is ≡ is_paired_by (option_map (λ e. element_view e.now) element.entry) (option_map (λ v. value_view v.now) metadata.entry) (option_map (λ v. value_view v.now) own.entry) (said_crs version (get (codes "crs") (value_view member.now)))) }
{
    let default = Value::String(DEFAULT_CRS);
    let Some(said) = said_crs(alloc, version, member.get("crs"), &default)? else {
        return Ok(false);
    };
    let asked = Asked::Paired;
    is_asked_beside(alloc, asked, element, metadata, own, Some(said))
}

/// Returns whether the CRS that counts has an identifier of the table of pairs, where the member says
/// one. Errs only when out of memory.
pub(crate) fn counts_paired(
    alloc: Global,
    version: Version,
    column: Option<&SchemaColumn>,
    element: Option<&RootElement>,
    member: &Value<'_>,
) -> Result<bool, AllocError>
    ensures { IfOk result (λ is. is ≡ is_crs_paired version (option_map (λ c. column_tree c.now) column.entry) (option_map (λ e. element_view e.now) element.entry) (value_view member.now)) }
{
    let mut scratch = Scratch::new(alloc);
    let mut other = Scratch::new(alloc);
    let metadata = element_json(alloc, element, column, &mut scratch)?;
    let own = field_json(alloc, element, column, &mut other)?;
    is_paired_beside(
        alloc,
        version,
        element,
        metadata.as_ref(),
        own.as_ref(),
        member,
    )
}

/// Returns the name of the CRS of a column that has no member, where it is projected. Errs only when
/// out of memory.
fn projected_alone(
    alloc: Global,
    column: Option<&SchemaColumn>,
    element: Option<&RootElement>,
) -> Result<Option<String>, AllocError>
    ensures { IfOk result (λ word. option_map string_bytes word ≡ asked_word Asked.Projected (crs_alone (option_map (λ c. column_tree c.now) column.entry) (option_map (λ e. element_view e.now) element.entry))) }
{
    let mut scratch = Scratch::new(alloc);
    let mut other = Scratch::new(alloc);
    let metadata = element_json(alloc, element, column, &mut scratch)?;
    let own = field_json(alloc, element, column, &mut other)?;
    let asked = Asked::Projected;
    word_beside(alloc, asked, element, metadata.as_ref(), own.as_ref(), None)
}

/// Returns the name of the CRS that counts of a column with a member or without, where it is
/// projected. Errs only when out of memory.
fn projects(
    alloc: Global,
    version: Version,
    column: Option<&SchemaColumn>,
    element: Option<&RootElement>,
    member: Option<&Value<'_>>,
) -> Result<Option<String>, AllocError>
    ensures { IfOk result (λ word. option_map string_bytes word ≡ projects version (option_map (λ c. column_tree c.now) column.entry) (option_map (λ e. element_view e.now) element.entry) (option_map (λ v. value_view v.now) member.entry)) }
{
    match member {
        Some(member) => projected_of(alloc, version, column, element, member),
        None => projected_alone(alloc, column, element),
    }
}

/// The edges, and the name of the CRS. Errs only when out of memory.
fn edges_word(alloc: Global, edges: &str, crs: &str) -> Result<String, AllocError>
    ensures { IfOk result (λ made. string_bytes made ≡ edges_word edges.now crs.now) }
{
    format!(in alloc; "{edges}, {crs}")
}

/// Adds the finding of the edges of a member. Errs only when out of memory.
fn add_member_edges(
    alloc: Global,
    findings: &mut Vec<GeoFinding>,
    key: &str,
    word: &str,
) -> Result<(), AllocError>
    ensures { OnOk result (map finding findings.new.items ≡ map finding findings.old.items ++ member_edges_finding key.now word.now ∷ []) }
{
    let code = GeoCode::EdgesOnProjected;
    add_told(alloc, findings, code, key, "edges", Some(word), None)
}

/// Adds the finding of the edges of an element or a field. Errs only when out of memory.
fn add_own_edges(
    alloc: Global,
    findings: &mut Vec<GeoFinding>,
    source: FactSource,
    key: &str,
    word: &str,
) -> Result<(), AllocError>
    ensures { OnOk result (map finding findings.new.items ≡ map finding findings.old.items ++ own_edges_finding source key.now word.now ∷ []) }
{
    let code = GeoCode::EdgesOnProjected;
    add_told_in(alloc, findings, source, code, key, Some(word), None)
}

/// Adds the finding of edges, by their source. Errs only when out of memory.
fn add_edges_from(
    alloc: Global,
    findings: &mut Vec<GeoFinding>,
    key: &str,
    from: FactSource,
    word: &str,
) -> Result<(), AllocError>
    ensures { OnOk result (map finding findings.new.items ≡ map finding findings.old.items ++ edges_finding key.now from word.now ∷ []) }
{
    match from {
        FactSource::Geo => add_member_edges(alloc, findings, key, word),
        FactSource::Element => add_own_edges(alloc, findings, FactSource::Element, key, word),
        FactSource::Field => add_own_edges(alloc, findings, FactSource::Field, key, word),
    }
}

/// Adds what is found where the edges that count of a column with a member or without are not planar,
/// and the CRS that counts is projected. Errs only when out of memory.
fn add_on_projected(
    alloc: Global,
    findings: &mut Vec<GeoFinding>,
    version: Version,
    key: &str,
    column: Option<&SchemaColumn>,
    element: Option<&RootElement>,
    member: Option<&Value<'_>>,
) -> Result<(), AllocError>
    ensures { OnOk result (map finding findings.new.items ≡ map finding findings.old.items
        ++ on_projected_findings version key.now (option_map (λ c. column_tree c.now) column.entry) (option_map (λ e. element_view e.now) element.entry) (option_map (λ v. value_view v.now) member.entry)) }
{
    let metadata = element_metadata(alloc, element, column)?;
    let own = own_metadata(alloc, column)?;
    let Some(fact) = edges_fact_in(alloc, version, member, element, &metadata, &own)? else {
        return Ok(());
    };
    if fact.edges.as_str() == "planar" {
        return Ok(());
    }
    let Some(crs) = projects(alloc, version, column, element, member)? else {
        return Ok(());
    };
    let word = edges_word(alloc, fact.edges.as_str(), crs.as_str())?;
    add_edges_from(alloc, findings, key, fact.from, word.as_str())
}

/// Adds what is found where the edges that count are not planar, and the CRS that counts is projected
/// (docs/FORMAT.md, 5). Errs only when out of memory.
pub(crate) fn add_edges_on_projected(
    alloc: Global,
    findings: &mut Vec<GeoFinding>,
    version: Version,
    key: &str,
    column: Option<&SchemaColumn>,
    element: Option<&RootElement>,
    member: &Value<'_>,
) -> Result<(), AllocError>
    ensures { OnOk result (map finding findings.new.items ≡ map finding findings.old.items
        ++ edges_on_projected_findings version key.now (option_map (λ c. column_tree c.now) column.entry) (option_map (λ e. element_view e.now) element.entry) (value_view member.now)) }
{
    if !is_judged(version) {
        return Ok(());
    }
    add_on_projected(alloc, findings, version, key, column, element, Some(member))
}

/// Adds what is found where the edges of a column that has no member are not planar, and its CRS is
/// projected (docs/FORMAT.md, 5). Errs only when out of memory.
pub(crate) fn add_own_on_projected(
    alloc: Global,
    findings: &mut Vec<GeoFinding>,
    key: &str,
    column: Option<&SchemaColumn>,
    element: Option<&RootElement>,
) -> Result<(), AllocError>
    ensures { OnOk result (map finding findings.new.items ≡ map finding findings.old.items
        ++ own_on_projected_findings key.now (option_map (λ c. column_tree c.now) column.entry) (option_map (λ e. element_view e.now) element.entry)) }
{
    add_on_projected(alloc, findings, Version::V1_1, key, column, element, None)
}
