//! What is read of a file, or why nothing is.
ghost use Rattle.std.specs.Prelude.{◌≡◌, ◌≤◌, ℕ, List, IfOk, length, map};
ghost use Rattle.arrow_columns.specs.Column.{column_tree};
ghost use Rattle.arrow_ipc.specs.Entries.{entries_of_footer, entries_of_message};
ghost use Rattle.arrow_ipc.specs.Schema.{Meets, footer_in, message_in, schema_of_footer, schema_of_message};
ghost use Rattle.parquet_columns.specs.Findings.{finding};
ghost use Rattle.column_files.specs.Endings.{message_begin, message_end};
ghost use Rattle.column_files.specs.Files.{IsSchemaRead, IsMessageRead, AreAllRead, IsOfLines};
ghost use Rattle.column_files.specs.Files.{further, counted_from, IsOfSchema, IsRepeatedIn};

use crate::bad_lines::BadLines;
use crate::ending::{EndFault, message_begin, message_size};
use crate::foreign::Foreign;
use crate::form::{Form, is_marked};
use crate::geo::{GeoText, take_geo};
use crate::line::LineFault;
use crate::lines::LinesRead;
use crate::mark::mark_findings;
use crate::opening::File;
use arrow_ipc::{IpcError, IpcFault, Schema, SchemaEntries, read_entries, read_file_entries};
use parquet_columns::{FileFinding, FilePart, SchemaRule, repeated_entries};
use parquet_footer::FooterRule;
use std::alloc::{AllocError, AllocFailed, Global};

/// Why the columns of a file are not read.
#[derive(Debug, Drop)]
pub enum FileFault {
    /// Behind so many lines, blank ones too, stands one that is not blank and denotes no column,
    /// for this reason. It refuses a file only where it is the first that is not blank.
    NoField(usize, LineFault),
    /// The file has no bytes, or blank lines alone.
    Empty,
    /// The file is of a format that is not read; with what is found in it, where more is said than
    /// the name of the format.
    Foreign(Foreign, Option<String>),
    /// The end of the file, of its footer's size or of the first message of a stream is not as it
    /// should be.
    End(EndFault),
    /// The report of the file would be greater than its budget, or what the footer of a Parquet
    /// file gives its columns is (docs/FORMAT.md, 4.6).
    ReportTooLarge,
    /// The schema of an Arrow file or stream is refused; the byte is that of the file.
    Ipc(IpcError),
    /// The footer of a Parquet file breaks the rule at that byte of the file.
    Footer(FooterRule, usize),
    /// The elements of the schema of a Parquet file make no tree, by the rule; with the byte of the
    /// file at which the element begins that breaks it, if there is that element.
    Tree(SchemaRule, Option<usize>),
    /// Out of memory.
    OutOfMemory,
}

impl From<AllocError> for FileFault {
    ghost use Rattle.std.specs.Prelude.{◌≡◌};
    ghost use Rattle.column_files.specs.declared.columns.FileFault.TheVariants.{OutOfMemory};

    ghost from_gives = { λ _ fault. fault ≡ OutOfMemory };

    fn from(_refused: AllocError) -> FileFault {
        FileFault::OutOfMemory
    }
}

impl<T: Drop> From<AllocFailed<T>> for FileFault {
    ghost use Rattle.std.specs.Prelude.{◌≡◌};
    ghost use Rattle.column_files.specs.declared.columns.FileFault.TheVariants.{OutOfMemory};

    ghost from_gives = { λ _ fault. fault ≡ OutOfMemory };

    fn from(_refused: AllocFailed<T>) -> FileFault {
        FileFault::OutOfMemory
    }
}

/// What is read of a file of lines, whose columns and bad lines are read of this text.
pub(crate) fn file_of_lines<'a>(
    alloc: Global,
    read: Result<LinesRead, FileFault>,
    text: &[u8],
) -> Result<File<'a>, FileFault>
    requires { AreAllRead text.now read }
    ensures form { IfOk result (λ file. file.form ≡ Form.Lines) }
    ensures is { IsOfLines text.now result }
{
    match read {
        Ok(read) if read.is_empty() => Err(FileFault::Empty),
        Ok(LinesRead { columns, bad_lines }) => {
            let findings = mark_findings(alloc, is_marked(text))?;
            Ok(File {
                form: Form::Lines,
                columns,
                bad_lines,
                elements: Vec::new(alloc),
                refuted: Vec::new(alloc),
                findings,
                texts: Vec::new(alloc),
                geo: GeoText::Absent,
            })
        }
        Err(fault) => Err(fault),
    }
}

/// What is read of the footer that stands in these last bytes of an Arrow file, and begins there in
/// the file.
pub(crate) fn file_of_footer<'a>(
    alloc: Global,
    read: Result<Schema, IpcError>,
    begin: usize,
    bytes: &[u8],
) -> Result<File<'a>, FileFault>
    requires { Meets (footer_in bytes.now) (schema_of_footer 61) read }
    ensures form { IfOk result (λ file. file.form ≡ Form.ArrowFile) }
    ensures is { IsSchemaRead begin (footer_in bytes.now) (schema_of_footer 61) entries_of_footer result }
{
    match read {
        Ok(schema) => {
            let found = repeated_in(alloc, &schema, read_file_entries(alloc, bytes))?;
            Ok(file_of_schema(alloc, Form::ArrowFile, schema, found))
        }
        Err(error) => Err(FileFault::Ipc(further(error, begin))),
    }
}

/// A refusal whose place is so many bytes further on; places stop at `usize::MAX`.
fn further(error: IpcError, by: usize) -> IpcError
    ensures { result ≡ further by error }
{
    match error {
        IpcError::Broken(IpcFault { rule, at }) => IpcError::Broken(IpcFault {
            rule,
            at: by.saturating_add(at),
        }),
        IpcError::Budget(at) => IpcError::Budget(by.saturating_add(at)),
        IpcError::OutOfMemory => IpcError::OutOfMemory,
    }
}

/// Where the first message of a stream begins; 0 where the stream ends there, which is told by its
/// place in the stream.
#[tactic(auto, using(crate::proofs::FirstMessage::counted))]
fn counted_from(stream: &[u8]) -> usize
    requires { message_end stream.now ≤ length stream.now }
    ensures { result ≡ counted_from (message_begin stream.now) (message_in stream.now) }
{
    if message_size(stream) == 0 {
        return 0;
    }
    message_begin(stream)
}

/// What is read of a message of a stream, whose schema is read.
pub(crate) fn file_of_message<'a>(
    alloc: Global,
    read: Result<Schema, IpcError>,
    stream: &[u8],
) -> Result<File<'a>, FileFault>
    requires whole { message_end stream.now ≤ length stream.now }
    requires is { Meets (message_in stream.now) (schema_of_message 61) read }
    ensures form { IfOk result (λ file. file.form ≡ Form.ArrowStream) }
    ensures is { IsMessageRead stream.now result }
{
    match read {
        Ok(schema) => {
            let found = repeated_in(alloc, &schema, read_entries(alloc, stream))?;
            Ok(file_of_schema(alloc, Form::ArrowStream, schema, found))
        }
        Err(error) => Err(FileFault::Ipc(further(error, counted_from(stream)))),
    }
}

/// What is found of keys that stand several times among the entries of metadata of a schema, by what
/// is read of these; nothing where they are not read. Errs only when out of memory.
fn repeated_in(
    alloc: Global,
    schema: &Schema,
    read: Result<SchemaEntries<'_>, IpcError>,
) -> Result<Vec<FileFinding>, AllocError>
    ensures { IfOk result (λ found. IsRepeatedIn (map column_tree schema.now.columns.items) read.entry (map finding found.items)) }
{
    match read {
        Ok(entries) => {
            repeated_entries(alloc, FilePart::Field, schema.columns.as_slice(), &entries)
        }
        Err(IpcError::Broken(_) | IpcError::Budget(_)) => Ok(Vec::new(alloc)),
        Err(IpcError::OutOfMemory) => Err(AllocError),
    }
}

/// The file in that format of a schema, of which that is found.
fn file_of_schema<'a>(
    alloc: Global,
    form: Form,
    schema: Schema,
    found: Vec<FileFinding>,
) -> File<'a>
    ensures form { result.form ≡ form }
    ensures is { IsOfSchema schema result }
    ensures found { result.findings ≡ found }
{
    let Schema {
        columns,
        metadata,
        ..
    } = schema;
    let mut metadata = metadata;
    let geo = take_geo(&mut metadata);
    File {
        form,
        columns,
        bad_lines: BadLines::new(alloc),
        elements: Vec::new(alloc),
        refuted: Vec::new(alloc),
        findings: found,
        texts: Vec::new(alloc),
        geo,
    }
}
