//! The facts of geometries, as members of the line of a column.
ghost use Rattle.std.specs.Prelude.{◌≡◌, OnOk, codes, option_map};
ghost use Rattle.arrow_values.specs.Texts.{text_of};
ghost use Rattle.geoparquet.specs.Facts.{crs_view, edges_view, facts_view};
ghost use Rattle.value_tokens.specs.Adds.{Adds};
ghost use Rattle.value_tokens.specs.Values.{or_null};
ghost use Rattle.json.specs.Tree.{json_tokens};
ghost use Rattle.column_reports.specs.FactMembers.{against_if, against_members, are_some, bbox_in, epoch_in, geometry_types_in, kind_of_field, orientation_in, crs_against, crs_fact_in, crs_members, edges_against, edges_members, edges_members_in, encoding_against, encoding_word_in, has_one, type_of_field, type_of_kind, types_said, verdict_members, verdict_word, verdicts_in};
ghost use Rattle.column_reports.specs.Objects.{member_if, AddsMembers};

use crate::named::NamedBy;
use crate::put::{put_one, put_text, put_text_if};
use column_check::Finding;
use crs_identity::Verdict;
use geoarrow_layout::Kind;
use geoparquet::{Against, ColumnFacts, CrsFact, EdgesFact, type_text};
use json::{Scratch, Writer};
use std::alloc::AllocError;
use value_tokens::JsonText;

/// Writes a value, and null where there is none.
fn put_json(
    out: &mut Writer,
    scratch: &mut Scratch,
    value: Option<&JsonText>,
) -> Result<(), AllocError>
    ensures { OnOk result (Adds (json_tokens (or_null (option_map (λ v. v.now) value.entry))) out.old out.new) }
{
    match value {
        Some(value) => value.put(scratch, out),
        None => out.null(),
    }
}

/// Writes a member with that key, if there is a value.
fn put_json_if(
    out: &mut Writer,
    scratch: &mut Scratch,
    key: &str,
    value: Option<&JsonText>,
) -> Result<(), AllocError>
    ensures { OnOk result (AddsMembers (member_if key.now (option_map (λ v. v.now) value.entry)) out.old out.new) }
{
    match value {
        Some(value) => {
            out.key(key)?;
            value.put(scratch, out)
        }
        None => Ok(()),
    }
}

/// Writes the member of the box of geometries, if their member of `columns` says one.
pub(crate) fn put_bbox(
    out: &mut Writer,
    scratch: &mut Scratch,
    facts: Option<&ColumnFacts>,
) -> Result<(), AllocError>
    ensures { OnOk result (AddsMembers (member_if (codes "bbox") (bbox_in (option_map (λ f. facts_view f.now) facts.entry))) out.old out.new) }
{
    let Some(facts) = facts else {
        return Ok(());
    };
    put_json_if(out, scratch, "bbox", facts.member.bbox.as_ref())
}

/// Writes the member of the epoch of geometries, if their member of `columns` says one.
pub(crate) fn put_epoch(
    out: &mut Writer,
    scratch: &mut Scratch,
    facts: Option<&ColumnFacts>,
) -> Result<(), AllocError>
    ensures { OnOk result (AddsMembers (member_if (codes "epoch") (epoch_in (option_map (λ f. facts_view f.now) facts.entry))) out.old out.new) }
{
    let Some(facts) = facts else {
        return Ok(());
    };
    put_json_if(out, scratch, "epoch", facts.member.epoch.as_ref())
}

/// Returns the kind that a field has by its extension name, or by inference. That of a column which has
/// its name by its member of `columns` is none: it is the encoding that the member says.
fn kind_of_field(by: NamedBy, finding: &Finding) -> Option<Kind>
    ensures { result ≡ kind_of_field by finding.now }
{
    match (by, finding) {
        (NamedBy::Geo, Finding::Geometry(_)) => None,
        (_, Finding::Geometry(geometry) | Finding::Inferred(geometry)) => Some(geometry.kind),
        _ => None,
    }
}

/// Returns the geometry type of a kind, if there is one.
fn type_of_kind(kind: Kind) -> Option<&'static str>
    ensures { text_of result ≡ type_of_kind kind }
{
    match kind {
        Kind::Native(kind, _, dimension) => Some(type_text(kind, dimension)),
        Kind::Geometry(_) | Kind::Rect(_) | Kind::Wkb(_) | Kind::Wkt(_) => None,
    }
}

/// Returns the geometry type that a field says by its kind, if it says one.
pub(crate) fn type_of_field(by: NamedBy, finding: &Finding) -> Option<&'static str>
    ensures { text_of result ≡ type_of_field by finding.now }
{
    type_of_kind(kind_of_field(by, finding)?)
}

/// Returns the types of geometries that their member of `columns` says, if it says some.
fn types_said(facts: Option<&ColumnFacts>) -> Option<&JsonText>
    ensures { option_map (λ v. v.now) result ≡ types_said (option_map (λ f. facts_view f.now) facts.entry) }
{
    match facts {
        Some(facts) => facts.member.geometry_types.as_ref(),
        None => None,
    }
}

/// Writes the member of the types of geometries: those that their member of `columns` says, or else
/// the one that their field says, if there are any.
pub(crate) fn put_geometry_types(
    out: &mut Writer,
    scratch: &mut Scratch,
    facts: Option<&ColumnFacts>,
    own: Option<&str>,
) -> Result<(), AllocError>
    ensures { OnOk result (AddsMembers (member_if (codes "geometry_types") (geometry_types_in (option_map (λ f. facts_view f.now) facts.entry) (text_of own.entry))) out.old out.new) }
{
    if let Some(types) = types_said(facts) {
        return put_json_if(out, scratch, "geometry_types", Some(types));
    }
    match own {
        Some(own) => put_one(out, "geometry_types", own),
        None => Ok(()),
    }
}

/// Writes the member of the orientation of geometries, if their member of `columns` says one.
pub(crate) fn put_orientation(
    out: &mut Writer,
    scratch: &mut Scratch,
    facts: Option<&ColumnFacts>,
) -> Result<(), AllocError>
    ensures { OnOk result (AddsMembers (member_if (codes "orientation") (orientation_in (option_map (λ f. facts_view f.now) facts.entry))) out.old out.new) }
{
    let Some(facts) = facts else {
        return Ok(());
    };
    put_json_if(
        out,
        scratch,
        "orientation",
        facts.member.orientation.as_ref(),
    )
}

/// Writes the members of the CRS of geometries, if a source says something of it.
pub(crate) fn put_crs(
    out: &mut Writer,
    scratch: &mut Scratch,
    facts: Option<&ColumnFacts>,
) -> Result<(), AllocError>
    ensures { OnOk result (AddsMembers (crs_members (crs_fact_in (option_map (λ f. facts_view f.now) facts.entry))) out.old out.new) }
{
    let Some(facts) = facts else {
        return Ok(());
    };
    match &facts.crs {
        Some(crs) => put_crs_fact(out, scratch, crs),
        None => Ok(()),
    }
}

/// Writes the members of a CRS.
fn put_crs_fact(out: &mut Writer, scratch: &mut Scratch, crs: &CrsFact) -> Result<(), AllocError>
    ensures { OnOk result (AddsMembers (crs_members (Some (crs_view crs.now))) out.old out.new) }
{
    out.key("crs")?;
    put_json(out, scratch, crs.crs.as_ref())?;
    put_text_if(out, "crs_type", crs.crs_type.as_deref())?;
    put_text(out, "crs_from", crs.from.word())
}

/// Writes the members of the edges of geometries.
pub(crate) fn put_edges(out: &mut Writer, facts: Option<&ColumnFacts>) -> Result<(), AllocError>
    ensures { OnOk result (AddsMembers (edges_members_in (option_map (λ f. facts_view f.now) facts.entry)) out.old out.new) }
{
    let Some(facts) = facts else {
        return Ok(());
    };
    match &facts.edges {
        Some(edges) => put_edges_fact(out, edges),
        None => put_text(out, "edges", "planar"),
    }
}

/// Writes the members of edges that a source says.
fn put_edges_fact(out: &mut Writer, edges: &EdgesFact) -> Result<(), AllocError>
    ensures { OnOk result (AddsMembers (edges_members (Some (edges_view edges.now))) out.old out.new) }
{
    put_text(out, "edges", edges.edges.as_str())?;
    put_text(out, "edges_from", edges.from.word())
}

/// Returns the word of the source of the encoding of geometries, if there is one.
pub(crate) fn encoding_word(facts: Option<&ColumnFacts>) -> Option<&'static str>
    ensures { text_of result ≡ encoding_word_in (option_map (λ f. facts_view f.now) facts.entry) }
{
    let Some(facts) = facts else {
        return None;
    };
    match facts.encoding {
        Some(encoding) => Some(encoding.from.word()),
        None => None,
    }
}

/// Returns the word of a verdict.
fn verdict_word(verdict: Verdict) -> &'static str
    ensures { result.now ≡ verdict_word verdict }
{
    match verdict {
        Verdict::Agree => "agree",
        Verdict::Contradict => "contradict",
        Verdict::NotCompared => "not compared",
    }
}

/// Returns the word of a verdict, if there is one.
fn word_if(verdict: Option<Verdict>) -> Option<&'static str>
    ensures { text_of result ≡ option_map verdict_word verdict }
{
    match verdict {
        Some(verdict) => Some(verdict_word(verdict)),
        None => None,
    }
}

/// Whether a source says something beside the one that counts.
fn has_verdict(against: &Against) -> bool
    ensures { result ≡ are_some (against_members against.now) }
{
    (against.element.is_some() || against.field.is_some()) || against.geo.is_some()
}

/// Writes the verdict of each source.
fn put_each(out: &mut Writer, against: &Against) -> Result<(), AllocError>
    ensures { OnOk result (AddsMembers (against_members against.now) out.old out.new) }
{
    put_text_if(out, "element", word_if(against.element))?;
    put_text_if(out, "field", word_if(against.field))?;
    put_text_if(out, "geo", word_if(against.geo))
}

/// Writes a member of the verdicts of sources, if there are any.
fn put_against(out: &mut Writer, key: &str, against: Option<&Against>) -> Result<(), AllocError>
    ensures { OnOk result (AddsMembers (against_if key.now (option_map (λ a. a.now) against.entry)) out.old out.new) }
{
    let Some(against) = against else {
        return Ok(());
    };
    if !has_verdict(against) {
        return Ok(());
    }
    out.key(key)?;
    out.begin_object()?;
    put_each(out, against)?;
    out.end_object()
}

/// Returns what the sources say against the CRS that counts, if one does.
fn crs_against(facts: &ColumnFacts) -> Option<&Against>
    ensures { option_map (λ a. a.now) result ≡ crs_against (facts_view facts.now) }
{
    match &facts.crs {
        Some(crs) => Some(&crs.against),
        None => None,
    }
}

/// Returns what the sources say against the edges that count, if some do.
fn edges_against(facts: &ColumnFacts) -> Option<&Against>
    ensures { option_map (λ a. a.now) result ≡ edges_against (facts_view facts.now) }
{
    match &facts.edges {
        Some(edges) => Some(&edges.against),
        None => None,
    }
}

/// Returns what the sources say against the encoding that counts, if one does.
fn encoding_against(facts: &ColumnFacts) -> Option<&Against>
    ensures { option_map (λ a. a.now) result ≡ encoding_against (facts_view facts.now) }
{
    match &facts.encoding {
        Some(encoding) => Some(&encoding.against),
        None => None,
    }
}

/// Whether a source says something beside the one that counts, if one does.
fn has_one(against: Option<&Against>) -> bool
    ensures { result ≡ has_one (option_map (λ a. a.now) against.entry) }
{
    match against {
        Some(against) => has_verdict(against),
        None => false,
    }
}

/// Whether a source says something beside one that counts.
fn has_verdicts(facts: &ColumnFacts) -> bool
    ensures { result ≡ are_some (verdict_members (facts_view facts.now)) }
{
    (has_one(crs_against(facts)) || has_one(edges_against(facts)))
        || has_one(encoding_against(facts))
}

/// Writes the verdicts of sources, of each fact if there are any.
fn put_facts(out: &mut Writer, facts: &ColumnFacts) -> Result<(), AllocError>
    ensures { OnOk result (AddsMembers (verdict_members (facts_view facts.now)) out.old out.new) }
{
    put_against(out, "crs", crs_against(facts))?;
    put_against(out, "edges", edges_against(facts))?;
    put_against(out, "encoding", encoding_against(facts))
}

/// Writes the member of the verdicts of sources, if there are any.
pub(crate) fn put_verdicts(out: &mut Writer, facts: Option<&ColumnFacts>) -> Result<(), AllocError>
    ensures { OnOk result (AddsMembers (member_if (codes "verdicts") (verdicts_in (option_map (λ f. facts_view f.now) facts.entry))) out.old out.new) }
{
    let Some(facts) = facts else {
        return Ok(());
    };
    if !has_verdicts(facts) {
        return Ok(());
    }
    out.key("verdicts")?;
    out.begin_object()?;
    put_facts(out, facts)?;
    out.end_object()
}
