//! What is asked of a file and not met, as findings.
ghost use Rattle.std.specs.Prelude.{◌≡◌, ◌++◌, IfOk, OnOk, flat_map, map, option_map, string_bytes};
ghost use Rattle.std.specs.List.{zip};
ghost use Rattle.column_reports.specs.FindingLines.{findings_text};
ghost use Rattle.file_check.specs.Asked.{output_of};
ghost use Rattle.file_check.specs.Names.{name_of};
ghost use Rattle.file_check.specs.Printed.{Keeps};
ghost use Rattle.file_check.specs.Unmet.{asked_view, help_of, no_column, unlike_column, no_geometry, help_unless, unmet_by, unmet_of, as_error};

use crate::asked::{Asked, Output, Want};
use crate::counted::Counted;
use crate::names::named;
use crate::numbers::Tally;
use crate::said::{print_text, say};
use crate::told::Told;
use crate::wants::{Found, Near, Unlike};
use column_check::Severity;
use column_reports::{AskedCode, AskedFinding, Finding, Weighed, finding_lines};
use std::alloc::{AllocError, Global};
use std::io;
use std::io::Write;

/// Returns what is asked of a file and not met. Errs only when out of memory.
pub(crate) fn unmet_of(
    alloc: Global,
    asked: &Asked,
    counted: &Counted,
) -> Result<Vec<AskedFinding>, AllocError>
    ensures { IfOk result (λ unmet. map asked_view unmet.items ≡ unmet_of asked.now counted.now) }
{
    let mut unmet = Vec::new(alloc);
    let (wants, found) = (asked.wants.as_slice(), counted.found.as_slice());
    add_expectations(alloc, wants, found, &mut unmet)?;
    if asked.flags.require_geometry && !counted.summary.has_geometry {
        let columns = counted.numbers.columns;
        unmet.push(no_geometry(alloc, columns, asked.flags.infer)?)?;
    }
    Ok(unmet)
}

/// Adds those of some expectations that are not met, by what is found of each.
fn add_expectations(
    alloc: Global,
    wants: &[Want],
    found: &[Found],
    unmet: &mut Vec<AskedFinding>,
) -> Result<(), AllocError>
    ensures { OnOk result (map asked_view unmet.new.items ≡ map asked_view unmet.old.items ++ flat_map (λ x. unmet_by x.0 x.1) (zip wants.now found.now)) }
{
    let [want, later @ ..] = wants else {
        return Ok(());
    };
    let [first, others @ ..] = found else {
        return Ok(());
    };
    add_expectation(alloc, want, first, unmet)?;
    add_expectations(alloc, later, others, unmet)
}

/// Adds an expectation, if it is not met.
fn add_expectation(
    alloc: Global,
    want: &Want,
    found: &Found,
    unmet: &mut Vec<AskedFinding>,
) -> Result<(), AllocError>
    ensures { OnOk result (map asked_view unmet.new.items ≡ map asked_view unmet.old.items ++ unmet_by want.now found.now) }
{
    match found {
        Found::NoColumn(near) => unmet.push(no_column(alloc, want, near.as_ref())?)?,
        Found::Looked(Some(unlike)) => unmet.push(unlike_column(alloc, want, unlike)?)?,
        Found::Looked(None) => {}
    }
    Ok(())
}

/// The finding of an expectation whose column is not there.
fn no_column(alloc: Global, want: &Want, near: Option<&Near>) -> Result<AskedFinding, AllocError>
    ensures { IfOk result (λ f. asked_view f ≡ no_column want.now (option_map (λ n. n.now) near.entry)) }
{
    Ok(AskedFinding {
        code: AskedCode::Expect,
        column: Some(String::from_str(alloc, want.column.as_str())?),
        found: None,
        expected: String::from_str(alloc, want.want.as_str())?,
        help: Some(help_of(alloc, near)?),
    })
}

/// What helps where a column is not there.
fn help_of(alloc: Global, near: Option<&Near>) -> Result<String, AllocError>
    ensures { IfOk result (λ text. string_bytes text ≡ help_of (option_map (λ n. n.now) near.entry)) }
{
    match near {
        Some(near) => {
            let name = near.name.as_str();
            format!(in alloc; "No column has that name. Did you mean {name}?")
        }
        None => String::from_str(alloc, "No column has that name."),
    }
}

/// The finding of an expectation that its column does not meet.
fn unlike_column(alloc: Global, want: &Want, unlike: &Unlike) -> Result<AskedFinding, AllocError>
    ensures { IfOk result (λ f. asked_view f ≡ unlike_column want.now unlike.now) }
{
    Ok(AskedFinding {
        code: AskedCode::Expect,
        column: Some(String::from_str(alloc, want.column.as_str())?),
        found: Some(String::from_str(alloc, unlike.held.as_str())?),
        expected: String::from_str(alloc, unlike.wanted.as_str())?,
        help: None,
    })
}

/// The finding of a file of so many columns without geometries, where types are inferred or not.
fn no_geometry(alloc: Global, columns: u64, infer: bool) -> Result<AskedFinding, AllocError>
    ensures { IfOk result (λ f. asked_view f ≡ no_geometry columns infer) }
{
    let code = AskedCode::NoGeometry;
    let word = if columns == 1 { "column" } else { "columns" };
    Ok(AskedFinding {
        code,
        column: None,
        found: Some(format!(in alloc; "{columns} {word}")?),
        expected: String::from_str(alloc, code.expected())?,
        help: help_unless(alloc, infer)?,
    })
}

/// What helps where a file has no geometries, unless types are inferred.
fn help_unless(alloc: Global, infer: bool) -> Result<Option<String>, AllocError>
    ensures { IfOk result (λ text. option_map string_bytes text ≡ help_unless infer) }
{
    if infer {
        return Ok(None);
    }
    let help = AskedCode::NoGeometry.help();
    Ok(Some(String::from_str(alloc, help)?))
}

/// Findings of what is asked, as errors.
fn as_errors(alloc: Global, unmet: Vec<AskedFinding>) -> Result<Vec<Weighed<'static>>, AllocError>
    ensures { IfOk result (λ errors. errors.items ≡ map as_error unmet.items) }
{
    let mut errors = Vec::new(alloc);
    for finding in unmet {
        errors.push(Weighed {
            severity: Severity::Error,
            more: 0,
            finding: Finding::Asked(finding),
        })?;
    }
    Ok(errors)
}

/// Returns a text with the lines of JSON of what is asked of a file and not met behind it. Errs only
/// when out of memory.
pub(crate) fn with_unmet(
    alloc: Global,
    file: &str,
    text: String,
    unmet: Vec<AskedFinding>,
) -> Result<String, AllocError>
    ensures { IfOk result (λ whole. string_bytes whole ≡ string_bytes text ++ findings_text (name_of file.now) (map as_error unmet.items)) }
{
    let errors = as_errors(alloc, unmet)?;
    let lines = finding_lines(alloc, named(file), errors.as_slice())?;
    let mut whole = text;
    whole.push_str(lines.as_str())?;
    Ok(whole)
}

/// Says what is asked of a file and not met, in a format that is not JSON. Errs where a writer
/// fails, and when out of memory.
pub(crate) fn say_unmet<W: Write, E: Write>(
    alloc: Global,
    asked: &Asked,
    file: &str,
    unmet: Vec<AskedFinding>,
    tally: &mut Tally,
    out: &mut W,
    err: &mut E,
) -> io::Result<()>
    ensures { OnOk result (Keeps (output_of asked.now.flags) (W.contents out.old) (W.contents out.new)) }
{
    let mut told = Vec::new(alloc);
    for error in &as_errors(alloc, unmet)? {
        told.push(Told::finding(alloc, None, error)?)?;
    }
    say(alloc, asked, file, told.as_slice(), tally, out, err)
}

/// Tells what is asked of a file and not met: as lines of JSON, or as it is said in another format.
/// Errs where a writer fails, and when out of memory.
pub(crate) fn tell_unmet<W: Write, E: Write>(
    alloc: Global,
    asked: &Asked,
    file: &str,
    unmet: Vec<AskedFinding>,
    tally: &mut Tally,
    out: &mut W,
    err: &mut E,
) -> io::Result<()> {
    match asked.flags.output() {
        Output::Json => {
            let lines = with_unmet(alloc, file, String::new(alloc), unmet)?;
            print_text(asked, lines.as_str(), tally, out)
        }
        _ => say_unmet(alloc, asked, file, unmet, tally, out, err),
    }
}
