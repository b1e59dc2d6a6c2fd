//! In what two columns of one name differ.
ghost use Rattle.std.specs.Prelude.{◌≡◌, ◌↔◌, ◌++◌, IfOk, IsTrue, OnOk, option_map, bytes_eq};
ghost use Rattle.arrow_columns.specs.Column.{type_tree};
ghost use Rattle.arrow_columns.specs.Notation.{type_text};
ghost use Rattle.geoparquet.specs.Facts.{crs_view, facts_view};
ghost use Rattle.same_columns.specs.Compared.{compared};
ghost use Rattle.same_columns.specs.Aspects.{AreAspects, AreOneType, HaveOneType, aspects, crs_aspects, fact_aspects, unless};

use crate::crs::crs_between;
use crate::difference::Aspect;
use crate::facts::{are_geometries, edges_word, encoding_word, facts_of};
use arrow_columns::AnyType;
use column_reports::ColumnReport;
use crs_identity::Verdict;
use geoarrow_layout::alike;
use geoparquet::ColumnFacts;
use std::alloc::{AllocError, Global};

/// Returns in what two columns differ. Errs only when out of memory.
pub(crate) fn aspects_of(
    alloc: Global,
    a: &ColumnReport,
    b: &ColumnReport,
) -> Result<Vec<Aspect>, AllocError>
    ensures { IfOk result (λ found. AreAspects (compared a.now) (compared b.now) found.items) }
{
    let same = have_one_type(alloc, a, b)?;
    aspects(alloc, same, a, b)
}

/// Returns in what two columns differ of which it is known whether they have one type. Errs only
/// when out of memory.
fn aspects(
    alloc: Global,
    same: bool,
    a: &ColumnReport,
    b: &ColumnReport,
) -> Result<Vec<Aspect>, AllocError>
    ensures { IfOk result (λ found. found.items ≡ aspects same (compared a.now) (compared b.now)) }
{
    let mut found = Vec::new(alloc);
    add_unless(&mut found, same, Aspect::DataType)?;
    let is_encoded = encoding_word(&a.column) == encoding_word(&b.column);
    add_unless(&mut found, is_encoded, Aspect::Encoding)?;
    add_facts(alloc, &mut found, facts_of(a), facts_of(b))?;
    Ok(found)
}

/// Adds in what the edges and the CRSs of geometries differ.
fn add_facts(
    alloc: Global,
    found: &mut Vec<Aspect>,
    a: Option<&ColumnFacts>,
    b: Option<&ColumnFacts>,
) -> Result<(), AllocError>
    ensures { OnOk result (found.new.items ≡ found.old.items ++ fact_aspects (option_map (λ f. facts_view f.now) a.entry) (option_map (λ f. facts_view f.now) b.entry)) }
{
    let (Some(a), Some(b)) = (a, b) else {
        return Ok(());
    };
    add_unless(found, edges_word(a) == edges_word(b), Aspect::Edges)?;
    let verdict = crs_between(alloc, a.crs.as_ref(), b.crs.as_ref())?;
    add_crs(found, verdict)
}

/// Adds in what CRSs of that verdict differ.
fn add_crs(found: &mut Vec<Aspect>, verdict: Verdict) -> Result<(), AllocError>
    ensures { OnOk result (found.new.items ≡ found.old.items ++ crs_aspects verdict) }
{
    match verdict {
        Verdict::Agree => Ok(()),
        Verdict::Contradict => Ok(found.push(Aspect::Crs)?),
        Verdict::NotCompared => Ok(found.push(Aspect::CrsNotCompared)?),
    }
}

/// Adds an aspect, unless columns are the same in it.
fn add_unless(found: &mut Vec<Aspect>, same: bool, aspect: Aspect) -> Result<(), AllocError>
    ensures { OnOk result (found.new.items ≡ found.old.items ++ unless same aspect) }
{
    if !same {
        found.push(aspect)?;
    }
    Ok(())
}

/// Returns whether two columns have one type. Errs only when out of memory.
fn have_one_type(alloc: Global, a: &ColumnReport, b: &ColumnReport) -> Result<bool, AllocError>
    ensures { IfOk result (λ same. IsTrue same ↔ HaveOneType (compared a.now) (compared b.now)) }
{
    let both = are_geometries(a, b);
    are_one_type(alloc, both, &a.column.data_type, &b.column.data_type)
}

/// Returns whether two types are one: of geometries they are alike. Errs only when out of memory.
fn are_one_type(alloc: Global, both: bool, a: &AnyType, b: &AnyType) -> Result<bool, AllocError>
    ensures { IfOk result (λ same. IsTrue same ↔ AreOneType both (type_tree a.now) (type_tree b.now)) }
{
    match (both, a, b) {
        (true, AnyType::Data(a), AnyType::Data(b)) => Ok(alike(a, b)),
        _ => have_one_notation(alloc, a, b),
    }
}

/// Returns whether two types have one notation. Errs only when out of memory.
fn have_one_notation(alloc: Global, a: &AnyType, b: &AnyType) -> Result<bool, AllocError>
    ensures { IfOk result (λ same. same ≡ bytes_eq (type_text (type_tree a.now)) (type_text (type_tree b.now))) }
{
    let one = a.notation(alloc)?;
    let other = b.notation(alloc)?;
    Ok(one.as_str() == other.as_str())
}
