//! The facts of columns: of the CRS, the edges and the encoding of each what counts, by which source,
//! and what the others say against it.
ghost use Rattle.std.specs.Prelude.{◌≡◌, [], IfOk, IfSome, map, option_map};
ghost use Rattle.json.specs.Value.{value_view};
ghost use Rattle.value_tokens.specs.Values.{IsReadable};
ghost use Rattle.arrow_columns.specs.Column.{column_tree};
ghost use Rattle.json.specs.Json.{null};
ghost use Rattle.geoparquet.specs.Extensions.{IsRead};
ghost use Rattle.geoparquet.specs.Facts.{column_facts, facts_alone, facts_behind, facts_view, if_object};
ghost use Rattle.geoparquet.specs.Sources.{element_view, sourced};

use crate::column::is_object;
use crate::covered::covered_by;
use crate::crs_facts::{CrsFact, crs_fact};
use crate::extended::members_of;
use crate::finding::Version;
use crate::member_facts::{MemberFacts, member_facts};
use crate::ordered::members_in;
use crate::sources::Sourced;
use crate::text_facts::{EdgesFact, EncodingFact, edges_fact, encoding_fact, layout_contradicts};
use crate::version::version_of;
use arrow_columns::SchemaColumn;
use json::Value;
use parquet_columns::RootElement;
use std::alloc::{AllocError, Global};
use value_tokens::member_of;

/// The facts of a column (docs/FORMAT.md, 5): each, if a source says it.
#[derive(Debug, Drop)]
pub struct ColumnFacts {
    /// Its CRS.
    pub crs: Option<CrsFact>,
    /// Its edges.
    pub edges: Option<EdgesFact>,
    /// Its encoding.
    pub encoding: Option<EncodingFact>,
    /// Whether it has another layout than that of the encoding that its member says: then, and only
    /// then, `GeoLayout` is found of it.
    pub layout_contradicts: bool,
    /// What its member of `columns` alone says.
    pub member: MemberFacts,
    /// Whether a path of some covering of `columns` names it.
    pub covered: bool,
}

/// Returns the facts of a column of a file without elements and without a value at the key `geo`:
/// those that its field says. Errs only when out of memory.
pub fn field_facts(alloc: Global, column: &SchemaColumn) -> Result<ColumnFacts, AllocError>
    ensures { IfOk result (λ facts. facts_view facts ≡ facts_alone (column_tree column.now)) }
{
    column_facts(alloc, Version::V1_1, false, None, column, None)
}

/// Returns the facts of columns without JSON at the key `geo`. Errs only when out of memory.
pub(crate) fn facts_without(
    alloc: Global,
    all: &[Sourced<'_>],
) -> Result<Vec<ColumnFacts>, AllocError>
    ensures { IfOk result (λ facts. map facts_view facts.items ≡ facts_behind null [] (map sourced all.now)) }
{
    facts_by(alloc, &Value::Null, all)
}

/// Returns the facts of columns by the JSON at the key `geo`. Errs only when out of memory.
pub(crate) fn facts_by(
    alloc: Global,
    value: &Value<'_>,
    all: &[Sourced<'_>],
) -> Result<Vec<ColumnFacts>, AllocError>
    requires { IsRead (value_view value.now) }
    ensures { IfOk result (λ facts. map facts_view facts.items ≡ facts_behind (value_view value.now) [] (map sourced all.now)) }
{
    let version = version_of(value);
    let columns = member_of(value, "columns");
    let by_key = members_in(alloc, columns)?;
    let covered = covered_by(alloc, &by_key)?;
    let mut members = members_of(alloc, columns)?;
    let mut made = Vec::new(alloc);
    'columns: for it in all {
        let name = it.column.name.as_str();
        let is_covered = covered.contains_key(name);
        let member = if_object(members.remove(name));
        let facts = column_facts(alloc, version, is_covered, member, it.column, it.element)?;
        made.push(facts)?;
    }
    Ok(made)
}

/// Returns a value that is an object.
fn if_object<'v, 'a>(found: Option<&'v Value<'a>>) -> Option<&'v Value<'a>>
    requires { IfSome found (λ v. IsReadable (value_view v.now)) }
    ensures value { option_map (λ v. value_view v.now) result ≡ if_object (option_map (λ v. value_view v.now) found.entry) }
    ensures read { IfSome result (λ v. IsReadable (value_view v.now)) }
{
    let Some(value) = found else {
        return None;
    };
    if is_object(value) { Some(value) } else { None }
}

/// Returns the facts of a column, which a covering names or not, by its member, if there is one, and
/// what its element says. Errs only when out of memory.
fn column_facts(
    alloc: Global,
    version: Version,
    covered: bool,
    member: Option<&Value<'_>>,
    column: &SchemaColumn,
    element: Option<&RootElement>,
) -> Result<ColumnFacts, AllocError>
    requires { IfSome member (λ v. IsReadable (value_view v.now)) }
    ensures { IfOk result (λ facts. facts_view facts ≡ column_facts version covered (option_map (λ v. value_view v.now) member.entry) (column_tree column.now) (option_map (λ e. element_view e.now) element.entry)) }
{
    Ok(ColumnFacts {
        crs: crs_fact(alloc, version, member, column, element)?,
        edges: edges_fact(alloc, version, member, column, element)?,
        encoding: encoding_fact(version, member, column, element),
        layout_contradicts: layout_contradicts(version, member, column, element),
        member: member_facts(alloc, version, member)?,
        covered,
    })
}
