//! The answer to one line.
ghost use Rattle.std.specs.Prelude.{◌≡◌, IfOk, string_bytes};
ghost use Rattle.geoarrow_schema.specs.Reads.{IsRefusedBy};
ghost use Rattle.geoarrow_columns.specs.declared.check.ColumnFault.{ColumnFault};
ghost use Rattle.geoarrow_columns.specs.Report.{IsRefusedFor};
ghost use Rattle.geoarrow_fields.specs.Answer.{Answers, AnswersField, error_text};

use crate::Command;
use crate::words::{column_text, error_text, inferred_text, type_after};
use arrow_values::{Field, GeoArrowError};
use field_lines::{field_line, parse_line_with_scratch};
use geoarrow_columns::{ColumnFault, check_column};
use geoarrow_schema::GeoArrowType;
use json::Scratch;
use std::alloc::{AllocError, Global};

/// The answer to one line under a command, without a line feed: what the command says about the field that the line
/// denotes, or `error field` if it denotes none (docs/FORMAT.md, 2.2). Errs only when out of memory.
pub fn answer_line(alloc: Global, command: Command, line: &[u8]) -> Result<String, AllocError>
    ensures { IfOk result (λ answer. Answers command line.now (string_bytes answer)) }
{
    let mut scratch = Scratch::new(alloc);
    answer_line_with_scratch(alloc, command, line, &mut scratch)
}

/// The answer to one line, as [`answer_line`] gives it, with a scratch buffer that is kept from line to line.
#[tactic(auto, unfolding(crate::specs::Answer::Answers))]
pub(crate) fn answer_line_with_scratch(
    alloc: Global,
    command: Command,
    line: &[u8],
    scratch: &mut Scratch,
) -> Result<String, AllocError>
    ensures { IfOk result (λ answer. Answers command line.now (string_bytes answer)) }
{
    let Some(field) = parse_line_with_scratch(alloc, line, scratch)? else {
        return String::from_str(alloc, "error field");
    };
    match command {
        Command::Read => answer_read(alloc, &field),
        Command::Infer => answer_infer(alloc, &field),
        Command::Canon => answer_canon(alloc, field),
        Command::Columns => answer_columns(alloc, &field),
    }
}

/// The type that the field is read as.
fn answer_read(alloc: Global, field: &Field) -> Result<String, AllocError>
    ensures { IfOk result (λ answer. AnswersField Command.Read field.now (string_bytes answer)) }
{
    match GeoArrowType::from_extension_field(alloc, field) {
        Ok(Some(found)) => type_after(alloc, "", &found),
        Ok(None) => String::from_str(alloc, "none"),
        Err(error) => answer_refused(alloc, field, &error),
    }
}

/// The type that the field is read as, or that is inferred.
fn answer_infer(alloc: Global, field: &Field) -> Result<String, AllocError>
    ensures { IfOk result (λ answer. AnswersField Command.Infer field.now (string_bytes answer)) }
{
    inferred_text(alloc, &check_column(alloc, field)?)
}

/// What a column of the field holds.
fn answer_columns(alloc: Global, field: &Field) -> Result<String, AllocError>
    ensures { IfOk result (λ answer. AnswersField Command.Columns field.now (string_bytes answer)) }
{
    column_text(alloc, &check_column(alloc, field)?)
}

/// The line of the field in normal form.
fn answer_canon(alloc: Global, field: Field) -> Result<String, AllocError>
    ensures { IfOk result (λ answer. AnswersField Command.Canon field (string_bytes answer)) }
{
    match GeoArrowType::from_extension_field(alloc, &field) {
        Ok(Some(found)) => match found.rewrite_field(alloc, field) {
            Ok(canonical) => field_line(alloc, &canonical),
            Err(_) => Err(AllocError),
        },
        Ok(None) => String::from_str(alloc, "none"),
        Err(error) => answer_refused(alloc, &field, &error),
    }
}

/// The answer to a field that is refused by that error, or out-of-memory.
#[tactic(auto, using(geoarrow_columns::specs::Report::refused_for))]
fn answer_refused(alloc: Global, field: &Field, error: &GeoArrowError) -> Result<String, AllocError>
    requires { IsRefusedBy field.now error.now }
    ensures { IfOk result (λ answer. (fault : ColumnFault) × IsRefusedFor field.now fault
        × (string_bytes answer ≡ error_text fault)) }
{
    let fault = ColumnFault::of_error(error)?;
    String::from_str(alloc, error_text(fault))
}
