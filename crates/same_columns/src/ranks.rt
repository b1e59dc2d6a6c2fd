//! Columns by their names.
ghost use Rattle.std.specs.Prelude.{◌≡◌, ◌∷◌, ◌++◌, [], IfOk, OnOk, length, map, option_map};
ghost use Rattle.arrow_values.specs.Tree.{Text};
ghost use Rattle.same_columns.specs.Compared.{compared};
ghost use Rattle.same_columns.specs.Ranks.{AreNamed, left_behind, named, partner_in, rank, ranked, ranked_view, those_in};

use column_reports::ColumnReport;
use std::alloc::{AllocError, Global};
use std::collections::BTreeMap;

/// A column, with its place and how many columns of its name stand before it.
#[derive(Clone, Copy)]
pub(crate) struct Ranked<'c> {
    /// Its place, from 0.
    pub(crate) place: usize,
    /// How many columns of its name stand before it.
    pub(crate) before: usize,
    /// Its report.
    pub(crate) report: &'c ColumnReport,
}

/// Columns by their names, those of a name in their order.
pub(crate) type ByName<'c> = BTreeMap<&'c str, Vec<Ranked<'c>>>;

/// Columns in their order, and by their names.
#[derive(Drop)]
pub(crate) struct Columns<'c> {
    /// The columns in their order.
    pub(crate) all: Vec<Ranked<'c>>,
    /// The columns by their names.
    pub(crate) by_name: ByName<'c>,
}

/// Returns columns in their order, and by their names. Errs only when out of memory.
pub(crate) fn columns_of<'c>(
    alloc: Global,
    reports: &'c [ColumnReport],
) -> Result<Columns<'c>, AllocError>
    ensures all { IfOk result (λ made. map ranked_view made.all.items ≡ ranked (map compared reports.now)) }
    ensures named { IfOk result (λ made. AreNamed (map ranked_view made.all.items) made.by_name) }
{
    let mut all = Vec::new(alloc);
    let mut by_name = BTreeMap::new(alloc);
    let mut left = reports;
    'columns: while let [report, rest @ ..] = left {
        add_column(alloc, &mut all, &mut by_name, report)?;
        left = rest;
    }
    Ok(Columns { all, by_name })
}

/// Adds a column behind others.
fn add_column<'c>(
    alloc: Global,
    all: &mut Vec<Ranked<'c>>,
    by_name: &mut ByName<'c>,
    report: &'c ColumnReport,
) -> Result<(), AllocError>
    ensures all { OnOk result (AreNamed (map ranked_view all.old.items) by_name.old → map ranked_view all.new.items ≡ map ranked_view all.old.items ++ rank (map ranked_view all.old.items) (compared report.now) ∷ []) }
    ensures named { OnOk result (AreNamed (map ranked_view all.old.items) by_name.old → AreNamed (map ranked_view all.new.items) by_name.new) }
{
    let name = report.column.name.as_str();
    let mut of_name = taken(alloc, by_name, name);
    let column = Ranked {
        place: all.len(),
        before: of_name.len(),
        report,
    };
    of_name.push(column)?;
    all.push(column)?;
    let _ = by_name.insert(name, of_name)?;
    Ok(())
}

/// Takes the columns of a name out of the others.
fn taken<'c>(alloc: Global, by_name: &mut ByName<'c>, name: &str) -> Vec<Ranked<'c>>
    ensures taken { map ranked_view result.items ≡ those_in by_name.old name.now }
    ensures left { (other : Text) → those_in by_name.new other ≡ left_behind other name.now (those_in by_name.old other) }
{
    match by_name.remove(name) {
        Some(of_name) => of_name,
        None => Vec::new(alloc),
    }
}

/// Returns the column of those with which another is compared: of its name, and before which as
/// many of that name stand.
pub(crate) fn partner<'b, 'c>(by_name: &'b ByName<'c>, of: &Ranked<'_>) -> Option<&'b Ranked<'c>>
    ensures { option_map (λ x. ranked_view x.now) result ≡ partner_in by_name.now (ranked_view of.now) }
{
    match by_name.get(of.report.column.name.as_str()) {
        Some(of_name) => of_name.get(of.before),
        None => None,
    }
}
