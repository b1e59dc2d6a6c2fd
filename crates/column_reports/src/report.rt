//! What is said of a column, as one value.
ghost use Rattle.std.specs.Prelude.{◌≡◌, ◌++◌, IfOk, true};
ghost use Rattle.arrow_columns.specs.Column.{column_tree};
ghost use Rattle.geoparquet.specs.Facts.{facts_view};
ghost use Rattle.column_reports.specs.Claims.{AreClaims};
ghost use Rattle.column_reports.specs.Columns.{IsFoundBy, IsColumnReport, nothing_told};
ghost use Rattle.column_reports.specs.Named.{known, known_alone, named_view};
ghost use Rattle.column_reports.specs.Weights.{plain, weighing};

use crate::beside::warnings_beside;
use crate::capped::kept_of_column;
use crate::claims::{Claimed, claims_of};
use crate::finding::Finding as Found;
use crate::gathered::of_column;
use crate::named::{Named, NamedBy};
use crate::weighed::{Weighed, weigh};
use crate::weights::Weights;
use arrow_columns::SchemaColumn;
use column_check::{Finding, Reasons, inspect_column, warnings};
use geoparquet::{ColumnFacts, field_facts};
use json::Scratch;
use std::alloc::{AllocError, Global};

/// What is asked of a report.
#[derive(Debug, Clone, Copy)]
pub struct Options {
    /// Whether a column without an extension name, which no covering names, is taken for what is
    /// inferred from its data type.
    pub infer: bool,
    /// Whether notes stand among the findings (docs/FORMAT.md, 2.6).
    pub notes: bool,
}

/// A column, and what is said of it. Its line of JSON, its row of a table and its part of a summary
/// are made of this.
#[derive(Debug, Drop)]
pub struct ColumnReport {
    /// The column itself.
    pub column: SchemaColumn,
    /// Who gives it its extension name, if it has one.
    pub by: NamedBy,
    /// What is said of it, as `inspect_column` of `column_check` answers it.
    pub finding: column_check::Finding,
    /// What counts of its CRS, its edges and its encoding, and which source says it.
    pub facts: ColumnFacts,
    /// What is found of it and shown: first what its file finds of it in its footer and its schemas
    /// (docs/FORMAT.md, 4.5); then of why it is invalid and of what is doubtful, as `warnings` of
    /// `column_check` answers it, and that the CRS that its element says beside it is no PROJJSON; then
    /// what is found of it in GeoParquet metadata and against them, or of a column of lines of its
    /// claims (docs/FORMAT.md, 5). Of one code at most sixteen.
    pub findings: Vec<Weighed<'static>>,
}

/// Returns a column with what is said of it and what is found of it, of a file that has nothing
/// else to say of it: the facts are those that its field says. The scratch buffer is kept by the caller
/// from column to column. Errs only when out of memory.
///
/// ```rust
/// let column = SchemaColumn {
///     name: String::from_str(alloc, "geom")?,
///     nullable: false,
///     data_type: AnyType::Data(DataType::Binary),
///     metadata: BTreeMap::new(alloc),
/// };
/// let options = Options { infer: true, notes: false };
/// let report = report_column(alloc, &mut Scratch::new(alloc), column, options)?;
/// assert!(rt; matches!(report.finding, column_check::Finding::Inferred(_)));
/// assert!(rt; report.findings.is_empty());
/// ```
pub fn report_column(
    alloc: Global,
    scratch: &mut Scratch,
    column: SchemaColumn,
    options: Options,
) -> Result<ColumnReport, AllocError>
    ensures { IfOk result (IsColumnReport options.infer (plain options.notes) true (column_tree column) (known_alone (column_tree column)) nothing_told) }
{
    let weights = Weights::new(alloc, options.notes);
    weighed_column(alloc, scratch, column, options.infer, &weights)
}

/// Returns a column with what is said of it and what is found of it, as it counts by what is asked
/// of findings. `infer` and the scratch buffer are as those of [`report_column`]. Errs only when out
/// of memory.
pub fn weighed_column(
    alloc: Global,
    scratch: &mut Scratch,
    column: SchemaColumn,
    infer: bool,
    weights: &Weights,
) -> Result<ColumnReport, AllocError>
    ensures { IfOk result (IsColumnReport infer (weighing weights.now) true (column_tree column) (known_alone (column_tree column)) nothing_told) }
{
    let facts = field_facts(alloc, &column)?;
    let named = Named {
        by: NamedBy::Field,
        beside: None,
    };
    let about = Known {
        facts,
        named,
        before: Vec::new(alloc),
        behind: Vec::new(alloc),
        alone: true,
    };
    column_with(alloc, scratch, column, about, infer, weights)
}

/// What is known of a column beside itself.
#[derive(Drop)]
pub(crate) struct Known<'e> {
    /// Its facts.
    pub(crate) facts: ColumnFacts,
    /// Who gives it its extension name, and what its element says beside that.
    pub(crate) named: Named<'e>,
    /// What its report tells before what is found of the column itself.
    pub(crate) before: Vec<Found<'static>>,
    /// What it tells behind that.
    pub(crate) behind: Vec<Found<'static>>,
    /// Whether its report tells what is found of its claims, as no file does.
    pub(crate) alone: bool,
}

/// Returns a column of which that is known with what is said of it and what is found of it, as it
/// counts by what is asked of findings. Errs only when out of memory.
pub(crate) fn column_with(
    alloc: Global,
    scratch: &mut Scratch,
    column: SchemaColumn,
    about: Known<'_>,
    infer: bool,
    weights: &Weights,
) -> Result<ColumnReport, AllocError>
    ensures { IfOk result (IsColumnReport infer (weighing weights.now) about.entry.alone (column_tree column) (known (facts_view about.entry.facts, named_view about.entry.named)) (about.entry.before.items, about.entry.behind.items)) }
{
    let claimed = claims_of(alloc, about.alone, column)?;
    claimed_column(alloc, scratch, claimed, about, infer, weights)
}

/// Returns a column of which that is known with what is said of it and what is found of it, behind
/// which stand what is found of its claims and what its file tells behind it. Errs only when out of
/// memory.
fn claimed_column(
    alloc: Global,
    scratch: &mut Scratch,
    claimed: Claimed,
    about: Known<'_>,
    infer: bool,
    weights: &Weights,
) -> Result<ColumnReport, AllocError>
    ensures { AreClaims about.entry.alone (column_tree claimed.column) claimed.findings.items
        → IfOk result (IsColumnReport infer (weighing weights.now) about.entry.alone (column_tree claimed.column) (known (facts_view about.entry.facts, named_view about.entry.named)) (about.entry.before.items, about.entry.behind.items)) }
{
    let Claimed { column, findings } = claimed;
    let Known {
        facts,
        named,
        before,
        behind,
        ..
    } = about;
    let inferred = infer && !facts.covered;
    let finding = said_of(alloc, scratch, &column, named.by, inferred)?;
    let own = warnings(alloc, &column, &finding, true)?;
    let beside = warnings_beside(alloc, scratch, named.beside)?;
    let told = of_column(alloc, named, &facts, &column, own, beside)?;
    let told = in_order(before, told, findings, behind)?;
    let shown = weigh(alloc, weights, told)?;
    let findings = kept_of_column(alloc, shown)?;
    Ok(ColumnReport {
        column,
        by: named.by,
        finding,
        facts,
        findings,
    })
}

/// Returns findings of four sorts, one sort behind another. Errs only when out of memory.
fn in_order(
    before: Vec<Found<'static>>,
    own: Vec<Found<'static>>,
    claims: Vec<Found<'static>>,
    behind: Vec<Found<'static>>,
) -> Result<Vec<Found<'static>>, AllocError>
    ensures { IfOk result (λ all. all.items ≡ before.entry.items ++ own.entry.items ++ claims.entry.items ++ behind.entry.items) }
{
    let (mut all, mut own, mut claims, mut behind) = (before, own, claims, behind);
    claims.append(&mut behind)?;
    own.append(&mut claims)?;
    all.append(&mut own)?;
    Ok(all)
}

/// Returns what is said of a column which has its extension name by that: one that is not read is
/// invalid. Errs only when out of memory.
fn said_of(
    alloc: Global,
    scratch: &mut Scratch,
    column: &SchemaColumn,
    by: NamedBy,
    infer: bool,
) -> Result<Finding, AllocError>
    ensures { IfOk result (IsFoundBy by infer (column_tree column.now)) }
{
    match by {
        NamedBy::Nobody => Ok(Finding::Invalid(Reasons::Unread)),
        NamedBy::Field | NamedBy::Element | NamedBy::Geo => {
            inspect_column(alloc, scratch, column, infer)
        }
    }
}
