//! The differences of two files.
ghost use Rattle.std.specs.Prelude.{◌≡◌, ◌++◌, IfOk, List, OnOk, flat_map, map, option_map};
ghost use Rattle.same_columns.specs.Compared.{compared};
ghost use Rattle.same_columns.specs.Differences.{AreDifferences, AreOfOther, AreOfOthers, first_by, of_first};
ghost use Rattle.same_columns.specs.Ranks.{AreNamed, Placed, partner_in, ranked_view};
ghost use Rattle.same_columns.specs.declared.difference.Difference.{Difference};

use crate::aspects::aspects_of;
use crate::difference::{Aspect, Difference};
use crate::ranks::{ByName, Ranked, columns_of, partner};
use column_reports::ColumnReport;
use std::alloc::{AllocError, Global};

/// Returns the differences of the columns of two files, by their reports: of each column of the
/// other file, in their order, in what it differs from that of the first file with which it is
/// compared, or that there is none; and then the columns that only the first file has. A column is
/// compared with that of its name before which as many columns of the name stand (docs/FORMAT.md,
/// 2.9). Errs only when out of memory.
///
/// ```rust
/// let column = SchemaColumn {
///     name: String::from_str(alloc, "id")?,
///     nullable: true,
///     data_type: AnyType::Data(DataType::Int64),
///     metadata: BTreeMap::new(alloc),
/// };
/// let options = Options { infer: false, notes: false };
/// let report = report_column(alloc, &mut Scratch::new(alloc), column, options)?;
/// let first = vec![in alloc; report]?;
/// let found = differences(alloc, first.as_slice(), &[])?;
/// assert!(rt; matches!(found.as_slice(), [Difference::OnlyInFirst(0)]));
/// ```
pub fn differences(
    alloc: Global,
    first: &[ColumnReport],
    other: &[ColumnReport],
) -> Result<Vec<Difference>, AllocError>
    ensures { IfOk result (λ found. AreDifferences (map compared first.now) (map compared other.now) found.items) }
{
    let first = columns_of(alloc, first)?;
    let other = columns_of(alloc, other)?;
    let mut found = Vec::new(alloc);
    add_others(alloc, &mut found, &first.by_name, other.all.as_slice())?;
    add_firsts(&mut found, &other.by_name, first.all.as_slice())?;
    Ok(found)
}

/// Adds the differences of columns of the other file.
fn add_others(
    alloc: Global,
    found: &mut Vec<Difference>,
    firsts: &ByName<'_>,
    others: &[Ranked<'_>],
) -> Result<(), AllocError>
    ensures { OnOk result ((xs : List Placed) → AreNamed xs firsts.now → (ds : List Difference) × AreOfOthers xs (map ranked_view others.now) ds × (found.new.items ≡ found.old.items ++ ds)) }
{
    'others: for other in others {
        add_by(alloc, found, firsts, other)?;
    }
    Ok(())
}

/// Adds the differences of a column of the other file, by the columns of the first.
fn add_by(
    alloc: Global,
    found: &mut Vec<Difference>,
    firsts: &ByName<'_>,
    other: &Ranked<'_>,
) -> Result<(), AllocError>
    ensures { OnOk result ((ds : List Difference) × AreOfOther (partner_in firsts.now (ranked_view other.now)) (ranked_view other.now) ds × (found.new.items ≡ found.old.items ++ ds)) }
{
    add_other(alloc, found, partner(firsts, other), other)
}

/// Adds the differences of a column of the other file, with the one of the first with which it is
/// compared, if there is one.
fn add_other(
    alloc: Global,
    found: &mut Vec<Difference>,
    first: Option<&Ranked<'_>>,
    other: &Ranked<'_>,
) -> Result<(), AllocError>
    ensures { OnOk result ((ds : List Difference) × AreOfOther (option_map (λ a. ranked_view a.now) first.entry) (ranked_view other.now) ds × (found.new.items ≡ found.old.items ++ ds)) }
{
    match first {
        None => {
            found.push(Difference::OnlyInOther(other.place))?;
            Ok(())
        }
        Some(first) => {
            let aspects = aspects_of(alloc, first.report, other.report)?;
            add_aspects(found, first.place, other.place, aspects.as_slice())
        }
    }
}

/// Adds in what two columns differ.
fn add_aspects(
    found: &mut Vec<Difference>,
    first: usize,
    other: usize,
    aspects: &[Aspect],
) -> Result<(), AllocError>
    ensures { OnOk result (found.new.items ≡ found.old.items ++ map (Difference.InBoth first other) aspects.now) }
{
    for aspect in aspects {
        found.push(Difference::InBoth(first, other, *aspect))?;
    }
    Ok(())
}

/// Adds the columns of the first file that the other lacks.
fn add_firsts(
    found: &mut Vec<Difference>,
    others: &ByName<'_>,
    firsts: &[Ranked<'_>],
) -> Result<(), AllocError>
    ensures { OnOk result (found.new.items ≡ found.old.items ++ flat_map (λ a. first_by others.now (ranked_view a)) firsts.now) }
{
    for first in firsts {
        add_first_by(found, others, first)?;
    }
    Ok(())
}

/// Adds a column of the first file, if it is compared with none of the other.
fn add_first_by(
    found: &mut Vec<Difference>,
    others: &ByName<'_>,
    first: &Ranked<'_>,
) -> Result<(), AllocError>
    ensures { OnOk result (found.new.items ≡ found.old.items ++ first_by others.now (ranked_view first.now)) }
{
    add_first(found, partner(others, first), first)
}

/// Adds a column of the first file, if the other has none with which it is compared.
fn add_first(
    found: &mut Vec<Difference>,
    other: Option<&Ranked<'_>>,
    first: &Ranked<'_>,
) -> Result<(), AllocError>
    ensures { OnOk result (found.new.items ≡ found.old.items ++ of_first (option_map (λ b. ranked_view b.now) other.entry) (ranked_view first.now)) }
{
    if other.is_none() {
        found.push(Difference::OnlyInFirst(first.place))?;
    }
    Ok(())
}
