//! What is found of what a field claims, where the report of its column tells it.
ghost use Rattle.std.specs.Prelude.{◌≡◌, IfOk, map};
ghost use Rattle.arrow_columns.specs.Column.{column_tree};
ghost use Rattle.column_reports.specs.Claims.{AreClaims, without_name};

use crate::finding::Finding;
use arrow_columns::SchemaColumn;
use geoparquet::{GeoAnswer, GeoFinding, GeoSource, Version, inspect_geo};
use std::alloc::{AllocError, Global};

/// A column, and what is found of what its field claims.
#[derive(Drop)]
pub(crate) struct Claimed {
    /// The column.
    pub(crate) column: SchemaColumn,
    /// What is found of its claims.
    pub(crate) findings: Vec<Finding<'static>>,
}

/// Returns a column with what is found of what its field claims, as [`inspect_geo`] finds it of a
/// file of this column alone; of a column that is not alone its file tells it. Errs only when out of
/// memory.
pub(crate) fn claims_of(
    alloc: Global,
    alone: bool,
    column: SchemaColumn,
) -> Result<Claimed, AllocError>
    ensures column { IfOk result (λ made. column_tree made.column ≡ column_tree column) }
    ensures claims { IfOk result (λ made. AreClaims alone (column_tree column) made.findings.items) }
{
    if !alone {
        let findings = Vec::new(alloc);
        return Ok(Claimed { column, findings });
    }
    let columns = vec![in alloc; column]?;
    let GeoAnswer {
        report,
        columns,
        ..
    } = inspect_geo(alloc, GeoSource::Unasked, columns, &[])?;
    let findings = without_names(alloc, report.findings)?;
    let mut columns = columns;
    match columns.pop() {
        Some(column) => Ok(Claimed { column, findings }),
        None => unreachable!(),
    }
}

/// Returns findings that leave the name of their column to its report. Errs only when out of memory.
fn without_names(
    alloc: Global,
    findings: Vec<GeoFinding>,
) -> Result<Vec<Finding<'static>>, AllocError>
    ensures { IfOk result (λ made. made.items ≡ map without_name findings.items) }
{
    let mut made = Vec::new(alloc);
    for finding in findings {
        made.push(without_name(finding))?;
    }
    Ok(made)
}

/// A finding without the name of its column.
fn without_name(finding: GeoFinding) -> Finding<'static>
    ensures { result ≡ without_name finding }
{
    let GeoFinding {
        code,
        source,
        pointer,
        found,
        wanted,
        more,
        ..
    } = finding;
    Finding::Geo(
        Version::V1_1,
        GeoFinding {
            code,
            column: None,
            source,
            pointer,
            found,
            wanted,
            more,
        },
    )
}
