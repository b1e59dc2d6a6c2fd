//! What a column is expected to hold.
ghost use Rattle.std.specs.Prelude.{◌≡◌, ◌↔◌, ◌==◌, IfOk, OnOk, IsTrue, Some, map, option_map, string_bytes};
ghost use Rattle.arrow_columns.specs.Column.{column_tree};
ghost use Rattle.column_check.specs.States.{geometry_in};
ghost use Rattle.geoparquet.specs.Facts.{crs_view, facts_view};
ghost use Rattle.file_check.specs.Crs.{crs_that_counts, edges_that_count};
ghost use Rattle.file_check.specs.declared.wants.Found.TheVariants.{NoColumn};
ghost use Rattle.file_check.specs.Wants.{parts_of, encoding_word, is_crs, IsWord, Meets, crs_or_none, unmet, unlike_view, IsUnmet, IsUnlike, IsFound, is_unmet};

use crate::asked::Want;
use crate::crs::{crs_that_counts, edges_that_count};
use arrow_columns::SchemaColumn;
use column_check::{Geometry, shown};
use column_reports::{ColumnReport, type_word};
use geoarrow_layout::{Kind, coord_type_word, dimension_word, kind_word};
use geoparquet::{ColumnFacts, CrsFact};
use same_columns::is_of_crs;
use std::alloc::{AllocError, Global};
use std::mem;
use strsim::levenshtein;

/// A column that is not what is expected.
#[derive(Debug, Drop)]
pub(crate) struct Unlike {
    /// What it holds, or its type, where it holds no geometries.
    pub(crate) held: String,
    /// The first part of the expectation that is not met, or all of it.
    pub(crate) wanted: String,
}

/// The name of a column that is like another.
#[derive(Debug, Drop)]
pub(crate) struct Near {
    /// The name.
    pub(crate) name: String,
    /// How many edits lead to it.
    edits: usize,
}

/// What is found of an expectation while the columns of a file are looked at, one after another.
#[derive(Debug, Drop)]
pub(crate) enum Found {
    /// No column of the name was looked at; with the name among them that is most like it.
    NoColumn(Option<Near>),
    /// The first column of the name was looked at; with what it is where it is not what is expected.
    Looked(Option<Unlike>),
}

impl Found {
    /// Looks at one more column: where it is the first of the name, at what is expected of it. Errs
    /// only when out of memory.
    pub(crate) fn look_at(
        &mut self,
        alloc: Global,
        want: &Want,
        said: &ColumnReport,
    ) -> Result<(), AllocError>
        ensures { OnOk result (IsFound (string_bytes want.now.column) (string_bytes want.now.want) said.now self.old self.new) }
    {
        match mem::replace(self, Found::NoColumn(None)) {
            Found::NoColumn(near) => *self = looked(alloc, near, want, said)?,
            Found::Looked(unlike) => *self = Found::Looked(unlike),
        }
        Ok(())
    }

    /// Whether the expectation is not met, once all columns were looked at.
    pub(crate) fn is_unmet(&self) -> bool
        ensures { result ≡ is_unmet self.now }
    {
        match self {
            Found::NoColumn(_) | Found::Looked(Some(_)) => true,
            Found::Looked(None) => false,
        }
    }
}

/// What is found of an expectation once one more column is looked at, where none had the name before,
/// and that one of them is like it. Errs only when out of memory.
fn looked(
    alloc: Global,
    near: Option<Near>,
    want: &Want,
    said: &ColumnReport,
) -> Result<Found, AllocError>
    ensures { IfOk result (IsFound (string_bytes want.now.column) (string_bytes want.now.want) said.now (NoColumn near)) }
{
    let name = said.column.name.as_str();
    if name == want.column.as_str() {
        let unlike = unlike_of(alloc, said, want.want.as_str())?;
        return Ok(Found::Looked(unlike));
    }
    let near = nearer(alloc, near, want.column.as_str(), name)?;
    Ok(Found::NoColumn(near))
}

/// How many edits lead from a name to one that it is like, at most.
const EDITS: usize = 2;

/// Returns which of two names is more like one, if any is like it. Errs only when out of memory.
fn nearer(
    alloc: Global,
    near: Option<Near>,
    wanted: &str,
    name: &str,
) -> Result<Option<Near>, AllocError> {
    let least = match &near {
        Some(near) => near.edits,
        None => EDITS + 1,
    };
    let one = wanted.to_ascii_lowercase(alloc)?;
    let other = name.to_ascii_lowercase(alloc)?;
    let edits = levenshtein(alloc, one.as_str(), other.as_str())?;
    if edits >= least || edits >= wanted.len() {
        return Ok(near);
    }
    let name = String::from_str(alloc, name)?;
    Ok(Some(Near { name, edits }))
}

/// Returns what a column is that is expected to hold that, if it does not: its type where it holds
/// no geometries, else what it holds, beside the first part that is not met. The parts stand
/// between commas; each is the kind, the coordinate type, the dimension, the encoding (`native`,
/// `WKB` or `WKT`) or the edges that count, all in any letters, or a CRS that agrees with the one
/// that counts. Errs only when out of memory.
fn unlike_of(alloc: Global, report: &ColumnReport, want: &str) -> Result<Option<Unlike>, AllocError>
    ensures { IfOk result (λ said. IsUnlike (column_tree report.now.column) (geometry_in report.now.finding) (facts_view report.now.facts) want.now (option_map unlike_view said)) }
{
    let Some(geometry) = report.finding.geometry() else {
        let word = type_word(alloc, &report.column, None)?;
        return Ok(Some(Unlike {
            held: shown(alloc, word.as_str())?,
            wanted: String::from_str(alloc, want)?,
        }));
    };
    let parts = parts_of(alloc, want)?;
    unmet_part(
        alloc,
        &report.column,
        geometry,
        &report.facts,
        parts.as_slice(),
    )
}

/// The parts of an expectation.
fn parts_of(alloc: Global, want: &str) -> Result<Vec<&str>, AllocError>
    ensures { IfOk result (λ parts. map (λ part. part.now) parts.items ≡ parts_of want.entry.now) }
{
    want.split(',').collect(alloc)
}

/// What a column holds beside the first part that is not met.
fn unmet_part(
    alloc: Global,
    column: &SchemaColumn,
    geometry: &Geometry,
    facts: &ColumnFacts,
    parts: &[&str],
) -> Result<Option<Unlike>, AllocError>
    ensures { IfOk result (λ said. IsUnmet geometry.now.kind (facts_view facts.now) (map (λ part. part.now) parts.entry.now) (option_map unlike_view said)) }
{
    for part in parts {
        let is_met = meets(alloc, geometry.kind, facts, part)?;
        if !is_met {
            let unlike = unmet(alloc, column, geometry, facts, part)?;
            return Ok(Some(unlike));
        }
    }
    Ok(None)
}

/// Whether a part is met. Errs only when out of memory.
fn meets(alloc: Global, kind: Kind, facts: &ColumnFacts, part: &str) -> Result<bool, AllocError>
    ensures { IfOk result (λ met. IsTrue met ↔ Meets kind (facts_view facts.now) part.now) }
{
    if is_crs(alloc, facts.crs.as_ref(), part)? {
        return Ok(true);
    }
    let edges = edges_that_count(alloc, facts)?;
    Ok(part.eq_ignore_ascii_case(edges.as_str()) || is_word(kind, part))
}

/// Whether a part is the CRS that counts. Errs only when out of memory.
fn is_crs(alloc: Global, crs: Option<&CrsFact>, part: &str) -> Result<bool, AllocError>
    ensures { IfOk result (λ is. is ≡ is_crs (option_map (λ f. crs_view f.now) crs.entry) part.now) }
{
    match crs {
        Some(crs) => is_of_crs(alloc, crs, part),
        None => Ok(false),
    }
}

/// Whether a part is a word of a kind.
fn is_word(kind: Kind, part: &str) -> bool
    ensures { IsTrue result ↔ IsWord kind part.now }
{
    part.eq_ignore_ascii_case(encoding_word(kind))
        || part.eq_ignore_ascii_case(kind_word(kind))
        || part.eq_ignore_ascii_case(coord_type_word(kind.coord_type()))
        || part.eq_ignore_ascii_case(dimension_word(kind.dimension()))
}

/// The word of an encoding.
fn encoding_word(kind: Kind) -> &'static str
    ensures { result.now ≡ encoding_word kind }
{
    match kind {
        Kind::Wkb(_) => "WKB",
        Kind::Wkt(_) => "WKT",
        Kind::Native(_, _, _) | Kind::Geometry(_) | Kind::Rect(_) => "native",
    }
}

/// What a column holds beside a part that is not met.
fn unmet(
    alloc: Global,
    column: &SchemaColumn,
    geometry: &Geometry,
    facts: &ColumnFacts,
    part: &str,
) -> Result<Unlike, AllocError>
    ensures { IfOk result (λ said. unlike_view said ≡ unmet geometry.now.kind (facts_view facts.now) part.now) }
{
    let held = type_word(alloc, column, Some(geometry))?;
    let crs = crs_that_counts(alloc, facts)?;
    let crs = crs_or_none(crs.as_str());
    let edges = edges_that_count(alloc, facts)?;
    Ok(Unlike {
        held: format!(in alloc; "{held}, {crs}, {edges}")?,
        wanted: String::from_str(alloc, part)?,
    })
}

/// The name of a CRS, if it has one.
fn crs_or_none(crs: &str) -> &str
    ensures { result.now ≡ crs_or_none crs.entry.now }
{
    if crs.is_empty() { "no CRS" } else { crs }
}
