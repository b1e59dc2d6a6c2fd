//! Why a file is refused, as every way in says it: a code, the place, what is found and expected,
//! and what helps.
ghost use Rattle.std.specs.Prelude.{◌≡◌};
ghost use Rattle.arrow_values.specs.Texts.{text_of};
ghost use Rattle.column_files.specs.Refusals.{line_code, line_found, line_expected, line_help};
ghost use Rattle.column_files.specs.Refusals.{rule_code, ipc_code, end_code, fault_code};
ghost use Rattle.column_files.specs.Refusals.{fault_found, fault_expected, end_help, fault_help};
ghost use Rattle.column_files.specs.Refusals.{behind, line_place, ipc_place, fault_place};
ghost use Rattle.column_files.specs.Refusals.{told, file_told, bad_told, long_told, write_told};

use crate::bad_lines::BadLine;
use crate::columns::FileFault;
use crate::ending::EndRule;
use crate::form::Form;
use crate::line::LineFault;
use arrow_ipc::{IpcError, IpcRule, WriteError};
use parquet_columns::{TOO_LARGE, WITHIN_BUDGET};

/// Where a file is at fault (docs/FORMAT.md, 2.8).
#[derive(Debug, Clone, Copy, PartialEq, Eq)]
pub enum Place {
    /// The file as a whole.
    File,
    /// A line, counted from 1.
    Line(u64),
    /// A byte of a line, both counted from 1.
    LineByte(u64, u64),
    /// A byte of the file, from 0.
    Byte(u64),
    /// A byte of the file, from 0, in the footer of a Parquet file.
    FooterByte(u64),
    /// The elements of the schema of a Parquet file, with the byte of the file, from 0, at which the
    /// one begins that is at fault, if there is one.
    Elements(Option<u64>),
    /// A column, from 0.
    Column(u64),
}

/// Why a file is refused (docs/FORMAT.md, 2.8).
#[derive(Debug, Clone, Copy, PartialEq, Eq)]
pub struct Fault<'a> {
    /// The code.
    pub code: &'static str,
    /// Where.
    pub place: Place,
    /// What stands there, or what is wrong with it.
    pub found: &'a str,
    /// What is expected in its place.
    pub expected: &'a str,
    /// What helps, where anything is known.
    pub help: Option<&'static str>,
}

/// The formats that are read.
const READ_FORMATS: &str = "an Arrow file, an Arrow stream, a Parquet file or lines of fields";

/// Returns the fault of a file in that format: its code, its place, what is found, what is expected
/// and what helps. A place that is greater than `u64::MAX` is that number. Allocates nothing.
///
/// ```rust
/// let refused = FileFault::NoField(1, LineFault::NotObject);
/// let fault = fault_of(Form::Lines, &refused);
/// assert_eq!(rt; fault.code, "BadLine");
/// assert_eq!(rt; fault.place, Place::Line(2));
/// assert_eq!(rt; (fault.found, fault.expected), ("JSON that is no object", "a JSON object"));
/// ```
pub fn fault_of<'a>(form: Form, fault: &'a FileFault) -> Fault<'a>
    ensures { told result ≡ file_told form fault.now }
{
    Fault {
        code: code_of(form, fault),
        place: place_of(fault),
        found: found_of(fault),
        expected: expected_of(fault),
        help: help_of(fault),
    }
}

/// Returns the fault of a bad line, which does not refuse its file. Allocates nothing.
///
/// ```rust
/// let fault = bad_line_fault(BadLine { before: 1, fault: LineFault::NotObject });
/// assert_eq!(rt; fault.code, "BadLine");
/// assert_eq!(rt; fault.place, Place::Line(2));
/// ```
pub fn bad_line_fault(bad: BadLine) -> Fault<'static>
    ensures { told result ≡ bad_told bad }
{
    let fault = bad.fault.of_later_line();
    Fault {
        code: line_code(fault),
        place: line_place(line_number(bad.before), fault),
        found: line_found(fault),
        expected: line_expected(fault),
        help: line_help(fault),
    }
}

/// Returns the fault of a line of a source that has more bytes than [`crate::MAX_LINE_BYTES`],
/// behind so many lines. Allocates nothing.
pub fn long_line(before: usize) -> Fault<'static>
    ensures { told result ≡ long_told before }
{
    Fault {
        code: "LongLine",
        place: Place::Line(line_number(before)),
        found: "more than 1048576 bytes",
        expected: "at most 1048576 bytes",
        help: None,
    }
}

/// Returns why a schema is not written. Allocates nothing.
pub fn write_fault(error: WriteError) -> Fault<'static>
    ensures { told result ≡ write_told error }
{
    Fault {
        code: error.code(),
        place: match error {
            WriteError::Column(index) => Place::Column(index as u64),
            WriteError::TooLarge | WriteError::OutOfMemory => Place::File,
        },
        found: error.message(),
        expected: error.wanted(),
        help: None,
    }
}

/// The code of a line at fault.
fn line_code(fault: LineFault) -> &'static str
    ensures { result.now ≡ line_code fault }
{
    match fault {
        LineFault::GeoJson(_) => "ForeignFormat",
        _ => "BadLine",
    }
}

/// What is found in a line at fault.
fn line_found(fault: LineFault) -> &'static str
    ensures { result.now ≡ line_found fault }
{
    match fault {
        LineFault::NotUtf8(_) => "bytes that are not UTF-8",
        LineFault::NotJson(_) | LineFault::OpenObject(_) | LineFault::OpenArray(_) => {
            "no JSON, or more than 127 levels of it"
        }
        LineFault::NotObject => "JSON that is no object",
        LineFault::GeoJson(_) => "GeoJSON",
        LineFault::Name => "no string at \"name\"",
        LineFault::Nullable => "neither true nor false at \"nullable\"",
        LineFault::Metadata => "no object of strings at \"metadata\"",
        LineFault::TypeUnknown => "an unknown type at \"type\"",
    }
}

/// What is expected of a line.
fn line_expected(fault: LineFault) -> &'static str
    ensures { result.now ≡ line_expected fault }
{
    match fault {
        LineFault::NotUtf8(_) => "UTF-8",
        LineFault::NotJson(_)
        | LineFault::OpenObject(_)
        | LineFault::OpenArray(_)
        | LineFault::NotObject => "a JSON object",
        LineFault::GeoJson(_) => READ_FORMATS,
        LineFault::Name => "a string at \"name\"",
        LineFault::Nullable => "true or false at \"nullable\"",
        LineFault::Metadata => "an object of strings at \"metadata\"",
        LineFault::TypeUnknown => "a data type, or {\"other\":\"timestamp[ms]\"}",
    }
}

/// What helps with a line at fault, if anything is known.
fn line_help(fault: LineFault) -> Option<&'static str>
    ensures { text_of result ≡ line_help fault }
{
    match fault {
        LineFault::GeoJson(_) => Some("Try ogr2ogr out.parquet FILE"),
        LineFault::OpenObject(_) => Some("One object on each line: try jq -c . FILE"),
        LineFault::OpenArray(_) => Some("One object on each line: try jq -c '.[]' FILE"),
        _ => None,
    }
}

/// The code of a file at fault.
fn code_of(form: Form, fault: &FileFault) -> &'static str
    ensures { result.now ≡ fault_code form fault.now }
{
    match fault {
        FileFault::NoField(_, fault) => line_code(*fault),
        FileFault::Empty => "EmptyFile",
        FileFault::Foreign(_, _) => "ForeignFormat",
        FileFault::End(fault) => end_code(fault.rule),
        FileFault::ReportTooLarge => "ReportTooLarge",
        FileFault::Ipc(error) => ipc_code(form, *error),
        FileFault::Footer(_, _) => "BadFooter",
        FileFault::Tree(_, _) => "BadTree",
        FileFault::OutOfMemory => "OutOfMemory",
    }
}

/// The code of a file at whose end a rule is broken.
fn end_code(rule: EndRule) -> &'static str
    ensures { result.now ≡ end_code rule }
{
    match rule {
        EndRule::Truncated => "Truncated",
        EndRule::FooterLength => "FooterLength",
        EndRule::Encrypted => "Encrypted",
    }
}

/// The code of an Arrow file or stream at fault.
fn ipc_code(form: Form, error: IpcError) -> &'static str
    ensures { result.now ≡ ipc_code form error }
{
    match error {
        IpcError::Broken(fault) => rule_code(form, fault.rule),
        IpcError::Budget(_) => "BadMessage",
        IpcError::OutOfMemory => "OutOfMemory",
    }
}

/// The code of a rule that an Arrow file or stream breaks.
fn rule_code(form: Form, rule: IpcRule) -> &'static str
    ensures { result.now ≡ rule_code form rule }
{
    match (form, rule) {
        (_, IpcRule::EndOfStream) | (Form::ArrowStream, IpcRule::Message) => "NoSchema",
        _ => "BadMessage",
    }
}

/// What is found in a file at fault.
fn found_of(fault: &FileFault) -> &str
    ensures { result.now ≡ fault_found fault.now }
{
    match fault {
        FileFault::NoField(_, fault) => line_found(*fault),
        FileFault::Empty => "0 bytes, or blanks alone",
        FileFault::Foreign(_, Some(found)) => found.as_str(),
        FileFault::Foreign(foreign, None) => foreign.name(),
        FileFault::End(fault) => fault.found.as_str(),
        FileFault::ReportTooLarge => TOO_LARGE,
        FileFault::Ipc(error) => error.message(),
        FileFault::Footer(rule, _) => rule.message(),
        FileFault::Tree(rule, _) => rule.message(),
        FileFault::OutOfMemory => "out of memory",
    }
}

/// What is expected of a file.
fn expected_of(fault: &FileFault) -> &str
    ensures { result.now ≡ fault_expected fault.now }
{
    match fault {
        FileFault::NoField(_, fault) => line_expected(*fault),
        FileFault::Empty | FileFault::Foreign(_, _) => READ_FORMATS,
        FileFault::End(fault) => fault.expected.as_str(),
        FileFault::ReportTooLarge => WITHIN_BUDGET,
        FileFault::Ipc(error) => error.wanted(),
        FileFault::Footer(rule, _) => rule.wanted(),
        FileFault::Tree(rule, _) => rule.wanted(),
        FileFault::OutOfMemory => "more memory",
    }
}

/// What helps with a file at fault, if anything is known.
fn help_of(fault: &FileFault) -> Option<&'static str>
    ensures { text_of result ≡ fault_help fault.now }
{
    match fault {
        FileFault::NoField(_, fault) => line_help(*fault),
        FileFault::Empty => Some("The writing or the copy broke off before its first byte"),
        FileFault::Foreign(foreign, _) => foreign.help(),
        FileFault::End(fault) => end_help(fault.rule),
        FileFault::Ipc(_)
        | FileFault::Footer(_, _)
        | FileFault::Tree(_, _)
        | FileFault::ReportTooLarge
        | FileFault::OutOfMemory => None,
    }
}

/// What helps with a file at whose end a rule is broken, if anything is known.
fn end_help(rule: EndRule) -> Option<&'static str>
    ensures { text_of result ≡ end_help rule }
{
    match rule {
        EndRule::Truncated => Some("The file is cut off, or still being written"),
        EndRule::Encrypted => Some("A copy with a plain footer is needed"),
        EndRule::FooterLength => None,
    }
}

/// The number of the line behind so many, counted from 1.
fn line_number(before: usize) -> u64
    ensures { result ≡ behind before }
{
    (before as u64).saturating_add(1)
}

/// Where a file is at fault.
fn place_of(fault: &FileFault) -> Place
    ensures { result ≡ fault_place fault.now }
{
    match fault {
        FileFault::NoField(before, fault) => line_place(line_number(*before), *fault),
        FileFault::Empty | FileFault::Foreign(_, _) => Place::Byte(0),
        FileFault::End(fault) => Place::Byte(fault.byte),
        FileFault::Ipc(error) => ipc_place(*error),
        FileFault::Footer(_, at) => Place::FooterByte(*at as u64),
        FileFault::Tree(_, Some(at)) => Place::Elements(Some(*at as u64)),
        FileFault::Tree(_, None) => Place::Elements(None),
        FileFault::ReportTooLarge | FileFault::OutOfMemory => Place::File,
    }
}

/// Where a line of that number is at fault.
fn line_place(line: u64, fault: LineFault) -> Place
    ensures { result ≡ line_place line fault }
{
    match fault {
        LineFault::NotUtf8(before) => Place::LineByte(line, line_number(before)),
        LineFault::NotJson(at) | LineFault::OpenObject(at) | LineFault::OpenArray(at) => {
            Place::LineByte(line, at as u64)
        }
        LineFault::NotObject
        | LineFault::GeoJson(_)
        | LineFault::Name
        | LineFault::Nullable
        | LineFault::Metadata
        | LineFault::TypeUnknown => Place::Line(line),
    }
}

/// Where an Arrow file or stream is at fault.
fn ipc_place(error: IpcError) -> Place
    ensures { result ≡ ipc_place error }
{
    match error {
        IpcError::Broken(fault) => Place::Byte(fault.at as u64),
        IpcError::Budget(at) => Place::Byte(at as u64),
        IpcError::OutOfMemory => Place::File,
    }
}
