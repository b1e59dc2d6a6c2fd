//! What is read of a Parquet file, as it is told of the file.
ghost use Rattle.std.specs.Prelude.{◌≡◌, Ok, Err, IfOk, IfErr, map, option_map};
ghost use Rattle.parquet_footer.specs.Element.{element};
ghost use Rattle.parquet_footer.specs.Findings.{finding as text_finding};
ghost use Rattle.parquet_footer.specs.Spelled.{spelled};
ghost use Rattle.parquet_columns.specs.Findings.{geo_key};
ghost use Rattle.parquet_columns.specs.Invalid.{byte_at};
ghost use Rattle.parquet_columns.specs.Reads.{footer_in, IsFileRead, IsValueRead, AreTextsRead};
ghost use Rattle.column_files.specs.InFile.{byte_in_file};
ghost use Rattle.column_files.specs.Files.{IsFooterRead, IsFooterFault, IsTreeFault};

use crate::bad_lines::BadLines;
use crate::columns::FileFault;
use crate::form::Form;
use crate::geo::geo_of_footer;
use crate::in_file::{byte_in_file, findings_in_file, texts_in_file};
use crate::opening::File;
use parquet_columns::{ElementFault, FileColumns, SchemaError, footer_in};
use parquet_footer::{FooterError, SchemaElement, read_footer};
use std::alloc::Global;

/// What is read of a Parquet file of these last bytes, whose footer begins there in the file.
#[tactic(auto, using(crate::proofs::Refused::refused))]
pub(crate) fn file_of_parquet<'a>(
    alloc: Global,
    read: Result<FileColumns<'a>, SchemaError>,
    begin: usize,
    end: &[u8],
) -> Result<File<'a>, FileFault>
    requires columns { IfOk read (λ read. IsFileRead (footer_in end.now)
        (Ok (record { columns = read.columns; elements = read.elements; refuted = read.refuted; findings = read.findings }))) }
    requires texts { IfOk read (λ read. AreTextsRead (footer_in end.now) (map text_finding read.texts.items)) }
    requires value { IfOk read (λ read. IsValueRead geo_key (footer_in end.now) (option_map spelled read.value)) }
    requires fault { IfErr read (λ error. IsFileRead (footer_in end.now) (Err error)) }
    ensures form { IfOk result (λ file. file.form ≡ Form.Parquet) }
    ensures is { IsFooterRead begin (footer_in end.now) result }
{
    match read {
        Ok(read) => Ok(File {
            form: Form::Parquet,
            columns: read.columns,
            bad_lines: BadLines::new(alloc),
            elements: read.elements,
            refuted: read.refuted,
            findings: findings_in_file(alloc, begin, read.findings)?,
            texts: texts_in_file(alloc, begin, read.texts.as_slice())?,
            geo: geo_of_footer(begin, read.value),
        }),
        Err(error) => Err(footer_fault(alloc, error, begin, end)),
    }
}

/// Why a Parquet file is refused whose footer stands in these last bytes, and begins there in the
/// file.
fn footer_fault(alloc: Global, error: SchemaError, begin: usize, end: &[u8]) -> FileFault
    ensures { IsFooterFault begin (footer_in end.now) error result }
{
    match error {
        SchemaError::Footer(FooterError::Invalid(rule, at)) => {
            FileFault::Footer(rule, byte_in_file(begin, at))
        }
        SchemaError::Elements(fault) => tree_fault(alloc, fault, begin, end),
        SchemaError::Budget => FileFault::ReportTooLarge,
        // A footer that stands there has an end, and no other.
        SchemaError::Footer(_) | SchemaError::Length | SchemaError::OutOfMemory => {
            FileFault::OutOfMemory
        }
    }
}

/// Why a Parquet file is refused whose elements make no tree. Its footer is read again, for the byte
/// of the element.
#[cold]
fn tree_fault(alloc: Global, fault: ElementFault, begin: usize, end: &[u8]) -> FileFault
    ensures { IsTreeFault begin (footer_in end.now) fault result }
{
    let Ok(bytes) = footer_in(end) else {
        return FileFault::OutOfMemory;
    };
    match read_footer(alloc, bytes) {
        Ok(footer) => {
            let byte = byte_at(footer.schema.as_slice(), fault.at, begin);
            FileFault::Tree(fault.rule, byte)
        }
        Err(_) => FileFault::OutOfMemory,
    }
}

/// The byte of the file at which the element at a place begins, of a footer that begins there; none
/// where there is no such element.
fn byte_at(elements: &[SchemaElement<'_>], at: usize, begin: usize) -> Option<usize>
    ensures { result ≡ option_map (byte_in_file begin) (byte_at (map element elements.now) at) }
{
    match elements.get(at) {
        Some(found) => Some(byte_in_file(begin, found.byte)),
        None => None,
    }
}
