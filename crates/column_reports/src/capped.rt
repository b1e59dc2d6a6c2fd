//! Findings of one code: at most so many, of which the last stands for the others, too.
ghost use Rattle.std.specs.Prelude.{◌≡◌, [], ◌∷◌, ◌++◌, IfOk, OnOk, List, bytes_eq, option_map, string_bytes, suc};
ghost use Rattle.arrow_values.specs.Tree.{Text};
ghost use Rattle.column_reports.specs.Capped.{head, key_of, limited, with_more, one_kept, kept_of, capped};
ghost use Rattle.column_reports.specs.Capped.{kept_of_column, kept_of_file, FewStay, AllCount};
ghost use Rattle.column_reports.specs.Capped.{seen_if, one_seen, seen_at, AreSeen};
ghost use Rattle.column_reports.specs.declared.weighed.Weighed.{Weighed};

use crate::weighed::Weighed;
use std::alloc::{AllocError, Global};
use std::collections::BTreeMap;

/// How many findings of one code are told of a column.
const OF_COLUMN: usize = 16;

/// How many findings of one code are told of a file.
const OF_FILE: usize = 100;

/// Which findings are counted together.
#[derive(Clone, Copy)]
pub(crate) enum By {
    /// Those of one code.
    Code,
    /// Those of one code that name one column; one that names none is not counted.
    Column,
}

/// What is counted of findings.
#[derive(Clone, Copy)]
pub(crate) struct Seen {
    /// How many there are, up to as many as are told.
    pub(crate) count: usize,
    /// How many are left out: those behind these, and what they stand for.
    pub(crate) left: usize,
}

/// What is counted of findings by what they have in common.
type SeenByKey = BTreeMap<String, Seen>;

/// Returns what is told of findings of a column: of one code sixteen, of which the last stands for
/// those that are left out, too. Errs only when out of memory.
pub(crate) fn kept_of_column<'a>(
    alloc: Global,
    findings: Vec<Weighed<'a>>,
) -> Result<Vec<Weighed<'a>>, AllocError>
    ensures { IfOk result (λ kept. kept.items ≡ kept_of_column findings.entry.items) }
{
    capped(alloc, By::Code, OF_COLUMN, findings)
}

/// Returns what is told of findings of a file: of one code a hundred, and sixteen that name one
/// column; the last of them stands for those that are left out, too. Errs only when out of memory.
pub(crate) fn kept_of_file<'a>(
    alloc: Global,
    findings: Vec<Weighed<'a>>,
) -> Result<Vec<Weighed<'a>>, AllocError>
    ensures { IfOk result (λ kept. kept.items ≡ kept_of_file findings.entry.items) }
{
    let of_columns = capped(alloc, By::Column, OF_COLUMN, findings)?;
    capped(alloc, By::Code, OF_FILE, of_columns)
}

/// Returns the first of findings, of those that are counted together at most so many, of which the
/// last stands for those that are left out, too. Errs only when out of memory.
fn capped<'a>(
    alloc: Global,
    by: By,
    most: usize,
    findings: Vec<Weighed<'a>>,
) -> Result<Vec<Weighed<'a>>, AllocError>
    ensures { IfOk result (λ kept. kept.items ≡ capped by most findings.entry.items) }
{
    if findings.len() <= most {
        return Ok(findings);
    }
    let all = seen_in(alloc, by, most, findings.as_slice())?;
    let mut kept = Vec::new(alloc);
    let mut seen = BTreeMap::new(alloc);
    for found in findings {
        add_kept(alloc, &mut kept, &mut seen, &all, by, most, found)?;
    }
    Ok(kept)
}

/// Returns what is counted of findings. Errs only when out of memory.
fn seen_in(
    alloc: Global,
    by: By,
    most: usize,
    findings: &[Weighed<'_>],
) -> Result<SeenByKey, AllocError>
    ensures { IfOk result (λ seen. AreSeen by most findings.now seen) }
{
    let mut seen = BTreeMap::new(alloc);
    for found in findings {
        add_seen(alloc, &mut seen, by, most, found)?;
    }
    Ok(seen)
}

/// Counts a finding behind others. Errs only when out of memory.
fn add_seen(
    alloc: Global,
    seen: &mut SeenByKey,
    by: By,
    most: usize,
    found: &Weighed<'_>,
) -> Result<(), AllocError>
    ensures { OnOk result ((ws : List Weighed) → AreSeen by most ws seen.old
        → AreSeen by most (ws ++ found.now ∷ []) seen.new) }
{
    match key_of(alloc, by, found)? {
        Some(key) => count(seen, key, most, stands_for(found)),
        None => Ok(()),
    }
}

/// Adds a finding behind others, if it is kept, where that was counted of the others, and that of
/// all. Errs only when out of memory.
fn add_kept<'a>(
    alloc: Global,
    kept: &mut Vec<Weighed<'a>>,
    seen: &mut SeenByKey,
    all: &SeenByKey,
    by: By,
    most: usize,
    found: Weighed<'a>,
) -> Result<(), AllocError>
    ensures kept { OnOk result ((vs ws : List Weighed) → AreSeen by most vs seen.old → AreSeen by most ws all.now
        → kept.new.items ≡ kept.old.items ++ kept_of by most ws vs found.entry) }
    ensures seen { OnOk result ((vs : List Weighed) → AreSeen by most vs seen.old
        → AreSeen by most (vs ++ found.entry ∷ []) seen.new) }
{
    match key_of(alloc, by, &found)? {
        Some(key) => {
            let before = seen_at(seen, key.as_str()).count;
            let left = seen_at(all, key.as_str()).left;
            count(seen, key, most, stands_for(&found))?;
            add_one(kept, most, before, left, found)
        }
        None => {
            kept.push(found)?;
            Ok(())
        }
    }
}

/// Adds a finding behind so many others that are counted with it, if it is kept.
fn add_one<'a>(
    kept: &mut Vec<Weighed<'a>>,
    most: usize,
    before: usize,
    left: usize,
    found: Weighed<'a>,
) -> Result<(), AllocError>
    ensures { OnOk result (kept.new.items ≡ kept.old.items ++ one_kept most before left found.entry) }
{
    if before >= most {
        return Ok(());
    }
    let more = if before + 1 == most { left } else { 0 };
    kept.push(with_more(found, more))?;
    Ok(())
}

/// Returns a finding that stands for so many more.
fn with_more<'a>(found: Weighed<'a>, more: usize) -> Weighed<'a>
    ensures { result ≡ with_more more found.entry }
{
    if more == 0 {
        return found;
    }
    let Weighed {
        severity,
        more: own,
        finding,
    } = found;
    let more = own.saturating_add(more);
    Weighed {
        severity,
        more,
        finding,
    }
}

/// How many a finding stands for, with itself.
fn stands_for(found: &Weighed<'_>) -> usize
    ensures { result ≡ limited (suc found.now.more) }
{
    found.more.saturating_add(1)
}

/// What was counted of the findings of a key.
fn seen_at(seen: &SeenByKey, key: &str) -> Seen
    ensures { result ≡ seen_at seen.now key.now }
{
    match seen.get(key) {
        Some(seen) => *seen,
        None => Seen { count: 0, left: 0 },
    }
}

/// Counts a finding of a key, which stands for so many. Errs only when out of memory.
fn count(seen: &mut SeenByKey, key: String, most: usize, stands: usize) -> Result<(), AllocError>
    ensures { OnOk result ((k : Text) → seen_at seen.new k
        ≡ seen_if (bytes_eq (string_bytes key) k) most stands (seen_at seen.old k)) }
{
    let one_more = one_seen(seen_at(seen, key.as_str()), most, stands);
    let _ = seen.insert(key, one_more)?;
    Ok(())
}

/// What is counted with one more, which stands for so many.
fn one_seen(seen: Seen, most: usize, stands: usize) -> Seen
    ensures { result ≡ one_seen most stands seen }
{
    let Seen { count, left } = seen;
    if count < most {
        Seen {
            count: count + 1,
            left,
        }
    } else {
        Seen {
            count,
            left: left.saturating_add(stands),
        }
    }
}

/// What findings have in common that are counted together; none, where one is not counted.
fn key_of(alloc: Global, by: By, found: &Weighed<'_>) -> Result<Option<String>, AllocError>
    ensures { IfOk result (λ key. option_map string_bytes key ≡ key_of by found.now) }
{
    match (by, found.finding.column()) {
        (By::Code, _) => Ok(Some(head(alloc, found)?)),
        (By::Column, Some(name)) => {
            let head = head(alloc, found)?;
            Ok(Some(format!(in alloc; "{head} {name}")?))
        }
        (By::Column, None) => Ok(None),
    }
}

/// A code, and how much it counts.
fn head(alloc: Global, found: &Weighed<'_>) -> Result<String, AllocError>
    ensures { IfOk result (λ text. string_bytes text ≡ head found.now) }
{
    let (severity, code) = (found.severity.word(), found.finding.code().word());
    format!(in alloc; "{severity} {code}")
}

/// A law: findings of which no more than so many are counted together are kept as they are. There is
/// no need to run this.
#[tactic(auto, using(crate::proofs::Capping::few_stay))]
pub fn few_findings_stay()
    ensures { FewStay }
{}

/// A law: findings count as those of them that are kept. There is no need to run this.
#[tactic(auto, using(crate::proofs::Capping::all_count))]
pub fn all_findings_count()
    ensures { AllCount }
{}
