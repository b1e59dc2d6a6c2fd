//! What is said of a file beside the report of its columns.
ghost use Rattle.std.specs.Prelude.{OnOk};
ghost use Rattle.file_check.specs.Asked.{output_of};
ghost use Rattle.file_check.specs.Printed.{Keeps, PrintsText};

use crate::asked::{Asked, Output};
use crate::github::github_line;
use crate::numbers::Tally;
use crate::sarif::{sarif_result, without_comma};
use crate::told::{Told, words_line};
use std::alloc::{AllocError, Global};
use std::io;
use std::io::Write;

/// Says errors of a file, each in a line: on standard output, `out`, in a format that has all that is
/// said of a file, and else on standard error, `err`. Errs where a writer fails, and when out of memory.
pub(crate) fn say<W: Write, E: Write>(
    alloc: Global,
    asked: &Asked,
    file: &str,
    told: &[Told],
    tally: &mut Tally,
    out: &mut W,
    err: &mut E,
) -> io::Result<()>
    ensures { OnOk result (Keeps (output_of asked.now.flags) (W.contents out.old) (W.contents out.new)) }
{
    let text = said_text(alloc, asked, file, told, tally)?;
    match asked.flags.output() {
        Output::Table | Output::Errors | Output::Github | Output::Sarif => {
            print_text(asked, text.as_str(), tally, out)
        }
        Output::Json | Output::Lines | Output::Ipc => err.write_all(text.as_bytes()),
    }
}

/// Prints a text; of results of a log of SARIF without the comma before the first of all.
pub(crate) fn print_text<W: Write>(
    asked: &Asked,
    text: &str,
    tally: &mut Tally,
    out: &mut W,
) -> io::Result<()>
    ensures { OnOk result (PrintsText (output_of asked.now.flags) text.now (W.contents out.old) (W.contents out.new)) }
{
    match asked.flags.output() {
        Output::Sarif => print_results(text, tally, out),
        Output::Errors
        | Output::Table
        | Output::Json
        | Output::Github
        | Output::Lines
        | Output::Ipc => out.write_all(text.as_bytes()),
    }
}

/// Prints results of a log of SARIF.
fn print_results<W: Write>(text: &str, tally: &mut Tally, out: &mut W) -> io::Result<()> {
    if text.is_empty() {
        return Ok(());
    }
    let is_first = !tally.has_results;
    tally.has_results = true;
    let text = if is_first { without_comma(text) } else { text };
    out.write_all(text.as_bytes())
}

/// The lines of errors of a file.
fn said_text(
    alloc: Global,
    asked: &Asked,
    file: &str,
    told: &[Told],
    tally: &mut Tally,
) -> Result<String, AllocError> {
    let mut text = String::new(alloc);
    for one in told {
        let line = match asked.flags.output() {
            Output::Github => github_line(alloc, file, one)?,
            Output::Sarif => sarif_result(alloc, file, one, tally)?,
            Output::Errors | Output::Table | Output::Json | Output::Lines | Output::Ipc => {
                words_line(alloc, asked, file, one)?
            }
        };
        text.push_str(line.as_str())?;
    }
    Ok(text)
}
