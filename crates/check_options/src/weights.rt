//! Which findings are shown and how much each counts: `--notes`, `--deny` and `--allow`.
use crate::codes::{is_asked, is_code, is_refusal, no_code};
use clap::ArgMatches;
use column_reports::{CodeWeight, Weight, Weights};
use std::alloc::{AllocError, Global};

/// The word for all warnings, in place of a code.
const WARNINGS: &str = "warnings";

/// A word behind `--deny` or `--allow`.
#[derive(Clone, Copy)]
struct Said<'a> {
    /// Its place among the words.
    place: usize,
    /// The code, or the word for all warnings.
    word: &'a str,
    /// What is asked.
    weight: Weight,
}

/// Returns what is asked of findings, or why it cannot be: a word that is no
/// code, or one that is allowed and always counts. Errs only when out of memory.
pub(crate) fn weights_of(
    alloc: Global,
    matches: &ArgMatches<'_>,
) -> Result<Result<Weights, String>, AllocError> {
    let mut weights = Weights::new(alloc, matches.get_flag("notes"));
    for said in &all_said(alloc, matches)? {
        if said.word == WARNINGS {
            weights.warnings = weights.warnings.or(Some(said.weight));
        } else if is_code(alloc, said.word)? {
            weights.codes.push(CodeWeight {
                code: String::from_str(alloc, said.word)?,
                weight: said.weight,
            })?;
        } else if !is_refusal(said.word) && !is_asked(said.word) {
            return Ok(Err(no_code(alloc, said.word)?));
        } else if matches!(said.weight, Weight::Allow) {
            return Ok(Err(not_allowed(alloc, said.word)?));
        }
    }
    Ok(Ok(weights))
}

/// Returns why a code with which files are refused, or of what is asked of them, is not allowed.
/// Errs only when out of memory.
fn not_allowed(alloc: Global, word: &str) -> Result<String, AllocError> {
    let why = if is_asked(word) {
        "it is found only where it is asked for"
    } else {
        "no report is made of such a file"
    };
    format!(in alloc; "'{word}' cannot be allowed: {why}")
}

/// The words behind both options, the last first.
fn all_said<'a>(alloc: Global, matches: &ArgMatches<'a>) -> Result<Vec<Said<'a>>, AllocError> {
    let mut said = Vec::new(alloc);
    add_said(&mut said, matches, "deny", Weight::Deny)?;
    add_said(&mut said, matches, "allow", Weight::Allow)?;
    said.as_mut_slice()
        .sort_unstable_by_key(|it| usize::MAX - it.place);
    Ok(said)
}

/// Adds the words behind an option.
fn add_said<'a>(
    said: &mut Vec<Said<'a>>,
    matches: &ArgMatches<'a>,
    option: &str,
    weight: Weight,
) -> Result<(), AllocError> {
    let words = matches.get_strs(option).unwrap_or(&[]);
    let places = matches.indices_of(option).unwrap_or(&[]);
    for (word, place) in words.iter().zip(places.iter()) {
        said.push(Said {
            place: *place,
            word: *word,
            weight,
        })?;
    }
    Ok(())
}
