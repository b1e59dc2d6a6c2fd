//! The differences of a file from the first that are shown, as findings (docs/FORMAT.md, 2.9).
ghost use Rattle.std.specs.Prelude.{◌≡◌, ◌++◌, IfOk, OnOk, flat_map, map, option_map, string_bytes, unwrap_or};
ghost use Rattle.arrow_columns.specs.Column.{column_tree};
ghost use Rattle.column_reports.specs.Weights.{weighing};
ghost use Rattle.geoparquet.specs.Facts.{crs_view, facts_view};
ghost use Rattle.same_columns.specs.Unlike.{AreUnlike, added, added_one, changed, changed_one, code_of, counted_code, crs_text, missing, missing_one, other_crs, other_edges, other_encoding, other_type, said_of, shown_crs, shown_encoding, shown_type, unlike_of, unlike_view, word_if, words_view};

use crate::code::SameCode;
use crate::compare::differences;
use crate::difference::{Aspect, Difference};
use crate::facts::{edges_word, encoding_word};
use arrow_columns::SchemaColumn;
use column_check::{Severity, shown};
use column_reports::{ColumnReport, Weights};
use geoparquet::{ColumnFacts, CrsFact};
use std::alloc::{AllocError, Global};
use value_tokens::JsonText;

/// A difference that is shown, as a finding of the later file.
#[derive(Debug, Drop)]
pub struct Unlike {
    /// How much it counts.
    pub severity: Severity,
    /// The code.
    pub code: SameCode,
    /// The name of the column.
    pub column: String,
    /// What is said of it.
    pub words: Words,
}

/// What is said of a difference.
#[derive(Debug, Drop)]
pub struct Words {
    /// What the later file has, if something.
    pub found: Option<String>,
    /// What the first file has.
    pub expected: String,
    /// What differs.
    pub help: &'static str,
}

/// Returns the findings of a file with these columns that are shown, of which the first file has
/// those: one for each of the [`differences`], in their order, unless it does not count by what is
/// asked of findings. Errs only when out of memory.
///
/// ```rust
/// let column = SchemaColumn {
///     name: String::from_str(alloc, "id")?,
///     nullable: true,
///     data_type: AnyType::Data(DataType::Int64),
///     metadata: BTreeMap::new(alloc),
/// };
/// let options = Options { infer: false, notes: false };
/// let report = report_column(alloc, &mut Scratch::new(alloc), column, options)?;
/// let first = vec![in alloc; report]?;
/// let weights = Weights::new(alloc, false);
/// let found = unlike_columns(alloc, &weights, first.as_slice(), &[])?;
/// assert_eq!(rt; found.as_slice()[0].code, SameCode::NotSame);
/// assert_eq!(rt; found.as_slice()[0].words.expected.as_str(), "int64");
/// ```
pub fn unlike_columns(
    alloc: Global,
    weights: &Weights,
    first: &[ColumnReport],
    last: &[ColumnReport],
) -> Result<Vec<Unlike>, AllocError>
    ensures { IfOk result (λ unlike. AreUnlike (weighing weights.now) first.now last.now (map unlike_view unlike.items)) }
{
    let found = differences(alloc, first, last)?;
    let mut unlike = Vec::new(alloc);
    add_all(alloc, weights, first, last, found.as_slice(), &mut unlike)?;
    Ok(unlike)
}

/// Adds the findings of differences that are shown.
fn add_all(
    alloc: Global,
    weights: &Weights,
    first: &[ColumnReport],
    last: &[ColumnReport],
    found: &[Difference],
    unlike: &mut Vec<Unlike>,
) -> Result<(), AllocError>
    ensures { OnOk result (map unlike_view unlike.new.items ≡ map unlike_view unlike.old.items ++ flat_map (unlike_of (weighing weights.now) first.now last.now) found.now) }
{
    'found: for difference in found {
        add_unlike(alloc, weights, first, last, *difference, unlike)?;
    }
    Ok(())
}

/// Adds the finding of a difference, if it is shown.
fn add_unlike(
    alloc: Global,
    weights: &Weights,
    first: &[ColumnReport],
    last: &[ColumnReport],
    difference: Difference,
    unlike: &mut Vec<Unlike>,
) -> Result<(), AllocError>
    ensures { OnOk result (map unlike_view unlike.new.items ≡ map unlike_view unlike.old.items ++ unlike_of (weighing weights.now) first.now last.now difference) }
{
    let code = code_of(difference);
    let severity = counted_code(weights, code);
    let said = said_of(alloc, difference, first, last)?;
    if let (Some(severity), Some((column, words))) = (severity, said) {
        unlike.push(Unlike {
            severity,
            code,
            column,
            words,
        })?;
    }
    Ok(())
}

/// Returns how much a finding of a code counts, by what is asked of findings.
fn counted_code(weights: &Weights, code: SameCode) -> Option<Severity>
    ensures { result ≡ counted_code (weighing weights.now) code }
{
    weights.severity_of(code.word(), code.severity())
}

/// Returns the code of a difference.
fn code_of(difference: Difference) -> SameCode
    ensures { result ≡ code_of difference }
{
    match difference {
        Difference::InBoth(_, _, Aspect::CrsNotCompared) => SameCode::CrsNotCompared,
        _ => SameCode::NotSame,
    }
}

/// Returns the name of the column that a difference is of, and what is said of it.
fn said_of(
    alloc: Global,
    difference: Difference,
    first: &[ColumnReport],
    last: &[ColumnReport],
) -> Result<Option<(String, Words)>, AllocError>
    ensures { IfOk result (λ said. option_map (λ s. (string_bytes s.0, words_view s.1)) said ≡ said_of first.now last.now difference) }
{
    match difference {
        Difference::OnlyInFirst(place) => missing_one(alloc, first.get(place)),
        Difference::OnlyInOther(place) => added_one(alloc, last.get(place)),
        Difference::InBoth(one, other, aspect) => {
            changed_one(alloc, aspect, first.get(one), last.get(other))
        }
    }
}

/// Returns what is said of a column that only the first file has.
fn missing_one(
    alloc: Global,
    report: Option<&ColumnReport>,
) -> Result<Option<(String, Words)>, AllocError>
    ensures { IfOk result (λ said. option_map (λ s. (string_bytes s.0, words_view s.1)) said ≡ missing_one (option_map (λ r. r.now) report.entry)) }
{
    match report {
        Some(report) => Ok(Some((name_of(alloc, report)?, missing(alloc, &report.column)?))),
        None => Ok(None),
    }
}

/// Returns what is said of a column that the first file lacks.
fn added_one(
    alloc: Global,
    report: Option<&ColumnReport>,
) -> Result<Option<(String, Words)>, AllocError>
    ensures { IfOk result (λ said. option_map (λ s. (string_bytes s.0, words_view s.1)) said ≡ added_one (option_map (λ r. r.now) report.entry)) }
{
    match report {
        Some(report) => Ok(Some((name_of(alloc, report)?, added(alloc, &report.column)?))),
        None => Ok(None),
    }
}

/// Returns what is said of a column that is another in the first file, in that.
fn changed_one(
    alloc: Global,
    aspect: Aspect,
    first: Option<&ColumnReport>,
    last: Option<&ColumnReport>,
) -> Result<Option<(String, Words)>, AllocError>
    ensures { IfOk result (λ said. option_map (λ s. (string_bytes s.0, words_view s.1)) said ≡ changed_one aspect (option_map (λ r. r.now) first.entry) (option_map (λ r. r.now) last.entry)) }
{
    match (first, last) {
        (Some(first), Some(last)) => Ok(Some((
            name_of(alloc, last)?,
            changed(alloc, aspect, first, last)?,
        ))),
        _ => Ok(None),
    }
}

/// Returns the name of a column.
fn name_of(alloc: Global, report: &ColumnReport) -> Result<String, AllocError>
    ensures { IfOk result (λ name. string_bytes name ≡ string_bytes report.now.column.name) }
{
    String::from_str(alloc, report.column.name.as_str())
}

/// Returns the words of a column that only the first file has.
fn missing(alloc: Global, column: &SchemaColumn) -> Result<Words, AllocError>
    ensures { IfOk result (λ words. words_view words ≡ missing (column_tree column.now)) }
{
    Ok(Words {
        found: None,
        expected: type_shown(alloc, column)?,
        help: "The column is missing.",
    })
}

/// Returns the words of a column that the first file lacks.
fn added(alloc: Global, column: &SchemaColumn) -> Result<Words, AllocError>
    ensures { IfOk result (λ words. words_view words ≡ added (column_tree column.now)) }
{
    Ok(Words {
        found: Some(type_shown(alloc, column)?),
        expected: String::from_str(alloc, "no such column")?,
        help: "The first file has no such column.",
    })
}

/// Returns the words of a column that is another in the first file, in that.
fn changed(
    alloc: Global,
    aspect: Aspect,
    first: &ColumnReport,
    last: &ColumnReport,
) -> Result<Words, AllocError>
    ensures { IfOk result (λ words. words_view words ≡ changed aspect first.now last.now) }
{
    match aspect {
        Aspect::DataType => other_type(alloc, &first.column, &last.column),
        Aspect::Encoding => other_encoding(alloc, &first.column, &last.column),
        Aspect::Edges => other_edges(alloc, &first.facts, &last.facts),
        Aspect::Crs => {
            let help = "The first file has another CRS.";
            other_crs(alloc, help, &first.facts, &last.facts)
        }
        Aspect::CrsNotCompared => {
            let help = "Nothing tells whether the CRS of the first file is this one.";
            other_crs(alloc, help, &first.facts, &last.facts)
        }
    }
}

/// Returns the words of a column that has another type in the first file.
fn other_type(alloc: Global, first: &SchemaColumn, last: &SchemaColumn) -> Result<Words, AllocError>
    ensures { IfOk result (λ words. words_view words ≡ other_type (column_tree first.now) (column_tree last.now)) }
{
    Ok(Words {
        found: Some(type_shown(alloc, last)?),
        expected: type_shown(alloc, first)?,
        help: "The first file has another type.",
    })
}

/// Returns the words of a column that has another encoding in the first file.
fn other_encoding(
    alloc: Global,
    first: &SchemaColumn,
    last: &SchemaColumn,
) -> Result<Words, AllocError>
    ensures { IfOk result (λ words. words_view words ≡ other_encoding (column_tree first.now) (column_tree last.now)) }
{
    Ok(Words {
        found: encoding_shown(alloc, last)?,
        expected: or_none(alloc, encoding_shown(alloc, first)?, "no encoding")?,
        help: "The first file has another encoding.",
    })
}

/// Returns the words of a column that has other edges in the first file.
fn other_edges(alloc: Global, first: &ColumnFacts, last: &ColumnFacts) -> Result<Words, AllocError>
    ensures { IfOk result (λ words. words_view words ≡ other_edges (facts_view first.now) (facts_view last.now)) }
{
    Ok(Words {
        found: Some(String::from_str(alloc, edges_word(last))?),
        expected: String::from_str(alloc, edges_word(first))?,
        help: "The first file has other edges.",
    })
}

/// Returns the words of a column that has another CRS in the first file, or may have.
fn other_crs(
    alloc: Global,
    help: &'static str,
    first: &ColumnFacts,
    last: &ColumnFacts,
) -> Result<Words, AllocError>
    ensures { IfOk result (λ words. words_view words ≡ other_crs help.now (facts_view first.now) (facts_view last.now)) }
{
    Ok(Words {
        found: crs_shown(alloc, last.crs.as_ref())?,
        expected: or_none(alloc, crs_shown(alloc, first.crs.as_ref())?, "no CRS")?,
        help,
    })
}

/// Returns a text, or another where there is none.
fn or_none(alloc: Global, text: Option<String>, none: &str) -> Result<String, AllocError>
    ensures { IfOk result (λ made. string_bytes made ≡ unwrap_or (option_map string_bytes text) none.now) }
{
    match text {
        Some(text) => Ok(text),
        None => String::from_str(alloc, none),
    }
}

/// Returns the type of a column, as a finding shows it.
fn type_shown(alloc: Global, column: &SchemaColumn) -> Result<String, AllocError>
    ensures { IfOk result (λ text. string_bytes text ≡ shown_type (column_tree column.now)) }
{
    let text = column.data_type.notation(alloc)?;
    shown(alloc, text.as_str())
}

/// Returns the encoding of a column, if its extension name says one.
fn encoding_shown(alloc: Global, column: &SchemaColumn) -> Result<Option<String>, AllocError>
    ensures { IfOk result (λ text. option_map string_bytes text ≡ shown_encoding (column_tree column.now)) }
{
    word_if(alloc, encoding_word(column))
}

/// Returns a word, if it is not empty.
fn word_if(alloc: Global, word: &str) -> Result<Option<String>, AllocError>
    ensures { IfOk result (λ text. option_map string_bytes text ≡ word_if word.now) }
{
    if word.is_empty() {
        return Ok(None);
    }
    Ok(Some(String::from_str(alloc, word)?))
}

/// Returns the CRS of a column, as a finding shows it: null where it is not known, and none where no
/// source says any.
fn crs_shown(alloc: Global, fact: Option<&CrsFact>) -> Result<Option<String>, AllocError>
    ensures { IfOk result (λ text. option_map string_bytes text ≡ shown_crs (option_map (λ f. crs_view f.now) fact.entry)) }
{
    match fact {
        Some(fact) => Ok(Some(crs_text(alloc, fact.crs.as_ref())?)),
        None => Ok(None),
    }
}

/// Returns a CRS, as a finding shows it: null where it is not known.
fn crs_text(alloc: Global, crs: Option<&JsonText>) -> Result<String, AllocError>
    ensures { IfOk result (λ text. string_bytes text ≡ crs_text (option_map (λ c. c.now) crs.entry)) }
{
    match crs {
        Some(crs) => shown(alloc, crs.as_str()),
        None => String::from_str(alloc, "null"),
    }
}
