//! What is found in the footer of a Parquet file, as it is told of the file: the bytes of the footer
//! are counted in the file.
ghost use Rattle.std.specs.Prelude.{◌≡◌, IfOk, map, option_map};
ghost use Rattle.parquet_columns.specs.Findings.{finding};
ghost use Rattle.parquet_footer.specs.Findings.{finding as text_finding};
ghost use Rattle.parquet_footer.specs.Spelled.{spelled};
ghost use Rattle.column_files.specs.InFile.{byte_in_file, byte_of_part, place_in_file};
ghost use Rattle.column_files.specs.InFile.{finding_in_file, findings_in_file};
ghost use Rattle.column_files.specs.InFile.{spelled_in_file, text_in_file, texts_in_file};

use parquet_columns::{FileFinding, FilePart, FilePlace};
use parquet_footer::{FooterFinding, FooterText};
use std::alloc::{AllocError, Global};

/// The byte of a file at a byte of its footer, which begins there.
pub(crate) fn byte_in_file(begin: usize, at: usize) -> usize
    ensures { result ≡ byte_in_file begin at }
{
    begin.saturating_add(at)
}

/// The byte of a part, as it is told of the file.
fn byte_of_part(part: FilePart, begin: usize, at: usize) -> usize
    ensures { result ≡ byte_of_part part begin at }
{
    match part {
        FilePart::Footer | FilePart::Elements => byte_in_file(begin, at),
        FilePart::StoredText | FilePart::StoredMessage | FilePart::Field | FilePart::File => at,
    }
}

/// A place, as it is told of the file.
fn place_in_file(begin: usize, place: FilePlace) -> FilePlace
    ensures { result ≡ place_in_file begin place }
{
    FilePlace {
        part: place.part,
        byte: match place.byte {
            Some(at) => Some(byte_of_part(place.part, begin, at)),
            None => None,
        },
    }
}

/// A finding, as it is told of the file.
fn finding_in_file(begin: usize, found: FileFinding) -> FileFinding
    ensures { finding result ≡ finding_in_file begin (finding found) }
{
    FileFinding {
        place: place_in_file(begin, found.place),
        ..found
    }
}

/// What is found in a footer that begins there, as it is told of the file. Errs only when out of
/// memory.
pub(crate) fn findings_in_file(
    alloc: Global,
    begin: usize,
    found: Vec<FileFinding>,
) -> Result<Vec<FileFinding>, AllocError>
    ensures { IfOk result (λ told. map finding told.items ≡ findings_in_file begin (map finding found.items)) }
{
    let mut told = Vec::with_capacity(alloc, found.len())?;
    for one in found {
        told.push(finding_in_file(begin, one))?;
    }
    Ok(told)
}

/// A text of a footer that begins there, as it is told of the file.
pub(crate) fn text_in_file(begin: usize, text: FooterText<'_>) -> FooterText<'_>
    ensures { spelled result ≡ spelled_in_file begin (spelled text.entry) }
{
    FooterText {
        bytes: text.bytes,
        byte: byte_in_file(begin, text.byte),
    }
}

/// What is found of texts of a footer that begins there, as it is told of the file. Errs only when
/// out of memory.
pub(crate) fn texts_in_file<'a>(
    alloc: Global,
    begin: usize,
    found: &[FooterFinding<'a>],
) -> Result<Vec<FooterFinding<'a>>, AllocError>
    ensures { IfOk result (λ told. map text_finding told.items ≡ texts_in_file begin (map text_finding found.now)) }
{
    let mut told = Vec::with_capacity(alloc, found.len())?;
    for one in found {
        told.push(FooterFinding {
            code: one.code,
            text: text_in_file(begin, one.text),
        })?;
    }
    Ok(told)
}
