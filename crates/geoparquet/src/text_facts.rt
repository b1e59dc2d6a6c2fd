//! The edges and the encoding of a column that count, by which source, and what the others say
//! against it.
ghost use Rattle.std.specs.Prelude.{◌≡◌, IfOk, IfSome, option_map};
ghost use Rattle.json.specs.Value.{value_view};
ghost use Rattle.serde_json.specs.View.{view};
ghost use Rattle.value_tokens.specs.Values.{IsReadable};
ghost use Rattle.arrow_values.specs.Texts.{text_of};
ghost use Rattle.arrow_columns.specs.Column.{column_tree};
ghost use Rattle.geoparquet.specs.FactSources.{source_counting};
ghost use Rattle.geoparquet.specs.Facts.{edges_defaults, edges_fact, edges_fact_in, edges_from, edges_view, encoding_fact, encoding_from, has_no_edges, has_other_layout, is_default_if, layout_contradicts, member_edges, member_encoding};
ghost use Rattle.geoparquet.specs.Sources.{element_view};

use crate::contradictions::{
    are_absent, are_default_edges, element_edges, element_encoding, element_metadata, field_edges,
    field_encoding, layout_encoding, own_metadata, said_edges,
};
use crate::fact_sources::{Against, FactSource, source_counting, text_from, texts_against};
use crate::finding::Version;
use crate::layout::is_laid_out;
use crate::members::encoding_of;
use arrow_columns::SchemaColumn;
use json::Value;
use parquet_columns::RootElement;
use std::alloc::{AllocError, Global};

/// The edges of a column that count.
#[derive(Debug, Drop)]
pub struct EdgesFact {
    /// Which source says them.
    pub from: FactSource,
    /// The edges, by their word.
    pub edges: String,
    /// What the other sources say against them.
    pub against: Against,
}

/// The encoding of a column that counts.
#[derive(Clone, Copy, Debug, PartialEq, Eq)]
pub struct EncodingFact {
    /// Which source says it.
    pub from: FactSource,
    /// What the other sources say against it.
    pub against: Against,
}

/// Returns the edges that a member says, if there is one.
fn member_edges<'a>(version: Version, member: Option<&Value<'a>>) -> Option<&'a str>
    ensures { text_of result ≡ member_edges version (option_map (λ v. value_view v.now) member.entry) }
{
    let Some(member) = member else {
        return None;
    };
    said_edges(version, member.get("edges"))
}

/// Whether what a source says is a default, if it says something.
fn is_default_if(is_default: bool, said: Option<&str>) -> Option<bool>
    ensures { result ≡ is_default_if is_default (text_of said.entry) }
{
    match said {
        Some(_) => Some(is_default),
        None => None,
    }
}

/// Whether a member has no edges.
fn has_no_edges(member: Option<&Value<'_>>) -> bool
    ensures { result ≡ has_no_edges (option_map (λ v. value_view v.now) member.entry) }
{
    let Some(member) = member else {
        return true;
    };
    member.get("edges").is_none()
}

/// Returns the edges that a source says. Errs only when out of memory.
fn edges_from(
    alloc: Global,
    from: FactSource,
    element: Option<&str>,
    geo: Option<&str>,
    field: Option<&str>,
) -> Result<Option<EdgesFact>, AllocError>
    ensures { IfOk result (λ fact. option_map edges_view fact ≡ edges_from (record { element = text_of element.entry; geo = text_of geo.entry; field = text_of field.entry }) from) }
{
    let Some(edges) = text_from(from, element, geo, field) else {
        return Ok(None);
    };
    Ok(Some(EdgesFact {
        from,
        edges: String::from_str(alloc, edges)?,
        against: texts_against(from, element, geo, field),
    }))
}

/// Returns the edges that count, by the extension metadata of the element and of the field. Errs only
/// when out of memory.
pub(crate) fn edges_fact_in(
    alloc: Global,
    version: Version,
    member: Option<&Value<'_>>,
    claim: Option<&RootElement>,
    metadata: &serde_json::Value,
    own: &serde_json::Value,
) -> Result<Option<EdgesFact>, AllocError>
    ensures { IfOk result (λ fact. option_map edges_view fact ≡ edges_fact_in version (option_map (λ v. value_view v.now) member.entry) (option_map (λ e. element_view e.now) claim.entry) (view metadata.now) (view own.now)) }
{
    let element = element_edges(claim, metadata);
    let geo = member_edges(version, member);
    let field = field_edges(claim, own);
    match edges_source(member, claim, own, element, geo, field) {
        Some(from) => edges_from(alloc, from, element, geo, field),
        None => Ok(None),
    }
}

/// Returns the source of the edges that count, by what each says.
fn edges_source(
    member: Option<&Value<'_>>,
    claim: Option<&RootElement>,
    own: &serde_json::Value,
    element: Option<&str>,
    geo: Option<&str>,
    field: Option<&str>,
) -> Option<FactSource>
    ensures { result ≡ source_counting (edges_defaults (option_map (λ v. value_view v.now) member.entry) (option_map (λ e. element_view e.now) claim.entry) (view own.now) (record { element = text_of element.entry; geo = text_of geo.entry; field = text_of field.entry })) }
{
    source_counting(
        is_default_if(are_default_edges(claim), element),
        is_default_if(has_no_edges(member), geo),
        is_default_if(are_absent(own.get("edges")), field),
    )
}

/// Returns the edges of a column that count, by its member, if there is one, and what its element
/// says (docs/FORMAT.md, 5). Errs only when out of memory.
pub(crate) fn edges_fact(
    alloc: Global,
    version: Version,
    member: Option<&Value<'_>>,
    column: &SchemaColumn,
    element: Option<&RootElement>,
) -> Result<Option<EdgesFact>, AllocError>
    ensures { IfOk result (λ fact. option_map edges_view fact ≡ edges_fact version (option_map (λ v. value_view v.now) member.entry) (column_tree column.now) (option_map (λ e. element_view e.now) element.entry)) }
{
    let metadata = element_metadata(alloc, element, Some(column))?;
    let own = own_metadata(alloc, Some(column))?;
    edges_fact_in(alloc, version, member, element, &metadata, &own)
}

/// Returns the encoding that a member says, where the column has its layout.
fn member_encoding<'a>(
    version: Version,
    column: &SchemaColumn,
    element: Option<&RootElement>,
    member: Option<&Value<'a>>,
) -> Option<&'a str>
    requires { IfSome member (λ v. IsReadable (value_view v.now)) }
    ensures { text_of result ≡ member_encoding version (column_tree column.now) (option_map (λ e. element_view e.now) element.entry) (option_map (λ v. value_view v.now) member.entry) }
{
    let Some(member) = member else {
        return None;
    };
    layout_encoding(version, Some(column), element, member)
}

/// Whether a column has another layout than that of an encoding.
fn has_other_layout(
    encoding: Option<&str>,
    column: &SchemaColumn,
    element: Option<&RootElement>,
) -> bool
    ensures { result ≡ has_other_layout (text_of encoding.entry) (column_tree column.now) (option_map (λ e. element_view e.now) element.entry) }
{
    match encoding {
        Some(encoding) => !is_laid_out(encoding, column, element),
        None => false,
    }
}

/// Whether a column has another layout than that of the encoding that its member says, if there is
/// one (docs/FORMAT.md, 5.1).
pub(crate) fn layout_contradicts(
    version: Version,
    member: Option<&Value<'_>>,
    column: &SchemaColumn,
    element: Option<&RootElement>,
) -> bool
    requires { IfSome member (λ v. IsReadable (value_view v.now)) }
    ensures { result ≡ layout_contradicts version (option_map (λ v. value_view v.now) member.entry) (column_tree column.now) (option_map (λ e. element_view e.now) element.entry) }
{
    let Some(member) = member else {
        return false;
    };
    has_other_layout(encoding_of(version, member), column, element)
}

/// Returns the source of the encoding: the field, else the member, else the element.
fn encoding_from(
    element: Option<&str>,
    geo: Option<&str>,
    field: Option<&str>,
) -> Option<FactSource>
    ensures { result ≡ encoding_from (record { element = text_of element.entry; geo = text_of geo.entry; field = text_of field.entry }) }
{
    if field.is_some() {
        Some(FactSource::Field)
    } else if geo.is_some() {
        Some(FactSource::Geo)
    } else if element.is_some() {
        Some(FactSource::Element)
    } else {
        None
    }
}

/// Returns the source of the encoding of a column, by its member, if there is one, and what its
/// element says (docs/FORMAT.md, 5).
pub(crate) fn encoding_fact(
    version: Version,
    member: Option<&Value<'_>>,
    column: &SchemaColumn,
    element: Option<&RootElement>,
) -> Option<EncodingFact>
    requires { IfSome member (λ v. IsReadable (value_view v.now)) }
    ensures { result ≡ encoding_fact version (option_map (λ v. value_view v.now) member.entry) (column_tree column.now) (option_map (λ e. element_view e.now) element.entry) }
{
    let claimed = element_encoding(element);
    let geo = member_encoding(version, column, element, member);
    let field = field_encoding(element, Some(column));
    match encoding_from(claimed, geo, field) {
        Some(from) => Some(EncodingFact {
            from,
            against: texts_against(from, claimed, geo, field),
        }),
        None => None,
    }
}
