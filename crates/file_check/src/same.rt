//! What is printed of the differences of a file from the first: `--same` (docs/FORMAT.md, 2.9).
ghost use Rattle.std.specs.Prelude.{◌≡◌, IfOk, map};
ghost use Rattle.std.specs.List.{list_any};
ghost use Rattle.column_reports.specs.Weights.{weighing};
ghost use Rattle.same_columns.specs.Unlike.{unlike_view};
ghost use Rattle.file_check.specs.Same.{IsStatus, is_error, status_of};

use crate::asked::{Asked, Output};
use crate::names::named;
use crate::numbers::{Numbers, Tally};
use crate::rules::{NOT_SAME, Rule};
use crate::said::{print_text, say};
use crate::told::Told;
use geoparquet::GeoCode;
use same_columns::{SameCode, Unlike, Words, unlike_columns, unlike_lines};
use std::alloc::{AllocError, Global};
use std::io;
use std::io::Write;

/// Compares the columns of the file that was read last, where they are kept, with those of the
/// first file that was read: a difference is printed on `out` as a finding of the file, and
/// counted; the first file itself is kept. Returns the status: 1 where a difference counts as an
/// error, and else 0. Errs where a writer fails, and when out of memory.
pub fn compare_columns<W: Write, E: Write>(
    alloc: Global,
    asked: &Asked,
    file: &str,
    tally: &mut Tally,
    out: &mut W,
    err: &mut E,
) -> io::Result<u8>
    ensures { IfOk result (IsStatus (weighing asked.now.weights) tally.old.first tally.old.last) }
{
    let Some(last) = tally.last.take() else {
        return Ok(0);
    };
    let Some(first) = tally.first.take() else {
        tally.first = Some(last);
        return Ok(0);
    };
    let weights = &asked.weights;
    let unlike = unlike_columns(alloc, weights, first.as_slice(), last.as_slice())?;
    tally.first = Some(first);
    tally.add_found(numbers_of(unlike.as_slice()));
    print_unlike(alloc, asked, file, unlike.as_slice(), tally, out, err)?;
    Ok(status_of(unlike.as_slice()))
}

/// The status by differences.
fn status_of(unlike: &[Unlike]) -> u8
    ensures { result ≡ status_of (map unlike_view unlike.now) }
{
    if has_error(unlike) { 1 } else { 0 }
}

/// Returns whether a finding counts as an error.
fn has_error(unlike: &[Unlike]) -> bool
    ensures { result ≡ list_any (λ u. is_error (unlike_view u)) unlike.now }
{
    unlike.iter().any(|one| one.severity.is_error())
}

/// How many findings there are.
fn numbers_of(unlike: &[Unlike]) -> Numbers {
    let mut numbers = Numbers::new();
    for one in unlike {
        numbers.add_one(one.severity);
    }
    numbers
}

/// Prints differences: as lines of JSON, or as what is told of the file.
fn print_unlike<W: Write, E: Write>(
    alloc: Global,
    asked: &Asked,
    file: &str,
    unlike: &[Unlike],
    tally: &mut Tally,
    out: &mut W,
    err: &mut E,
) -> io::Result<()> {
    if !matches!(asked.flags.output(), Output::Json) {
        let told = told_of(alloc, asked, unlike)?;
        return say(alloc, asked, file, told.as_slice(), tally, out, err);
    }
    let text = unlike_lines(alloc, named(file), unlike)?;
    print_text(asked, text.as_str(), tally, out)
}

/// What is told of differences; with `--quiet` of those that count as errors.
fn told_of(alloc: Global, asked: &Asked, unlike: &[Unlike]) -> Result<Vec<Told>, AllocError> {
    let mut told = Vec::new(alloc);
    for one in unlike {
        if one.severity.is_error() || !asked.flags.quiet {
            let words = words_of(alloc, &one.words)?;
            let (name, words) = (one.column.as_str(), words.as_str());
            let rule = rule_of(one.code);
            told.push(Told::column(alloc, one.severity, rule, name, words)?)?;
        }
    }
    Ok(told)
}

/// Returns the rule of the code of a difference.
fn rule_of(code: SameCode) -> Rule {
    match code {
        SameCode::NotSame => NOT_SAME,
        SameCode::CrsNotCompared => Rule {
            code: code.word(),
            words: GeoCode::CrsNotCompared.rule(),
        },
    }
}

/// The words of a difference behind its place.
fn words_of(alloc: Global, words: &Words) -> Result<String, AllocError> {
    let (expected, help) = (words.expected.as_str(), words.help);
    match words.found.as_deref() {
        Some(found) => format!(in alloc; "found {found}; expected {expected}. {help}"),
        None => format!(in alloc; "expected {expected}. {help}"),
    }
}
