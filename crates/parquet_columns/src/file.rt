//! The columns of a file and the value of a key, from its end.
ghost use Rattle.std.specs.Prelude.{◌≡◌, Ok, Err, IfOk, IfErr, map, option_map};
ghost use Rattle.parquet_columns.specs.SchemaFault.{map_ok};
ghost use Rattle.parquet_footer.specs.Findings.{finding as text_finding};
ghost use Rattle.parquet_footer.specs.Spelled.{spelled};
ghost use Rattle.parquet_columns.specs.Reads.{footer_in, IsFileRead, IsValueRead, AreTextsRead};

use crate::error::{SchemaError, error_of};
use crate::finding::FileFinding;
use crate::footer::{FooterColumns, columns_of_footer};
use crate::keys::value_or_empty;
use crate::layouts::RootElement;
use arrow_columns::SchemaColumn;
use parquet_footer::{Footer, FooterError, FooterFinding, FooterText, footer_length, read_footer};
use std::alloc::Global;

/// The bytes of the footer of a Parquet file, from its end: the bytes of the file, or as many of its last ones as the footer, its
/// length and the magic take. Allocates nothing.
///
/// Errs with `Footer` where the file does not end in `PAR1`, or ends in `PARE`; and with `Length` where the footer has no bytes,
/// or there are fewer bytes than it has.
///
/// ```rust
/// let found = footer_in(&[1, 2, 0, 2, 0, 0, 0, b'P', b'A', b'R', b'1']);
/// assert!(rt; matches!(found, Ok([2, 0])));
/// ```
#[tactic(auto, unfolding(crate::specs::Reads::footer_in))]
pub fn footer_in(end: &[u8]) -> Result<&[u8], SchemaError>
    ensures { map_ok (λ m. m.now) result ≡ footer_in end.now }
{
    let Some((front, tail)) = end.split_last_chunk::<8>() else {
        return Err(SchemaError::Footer(FooterError::NotParquet));
    };
    match footer_length(tail) {
        Err(error) => Err(SchemaError::Footer(error)),
        Ok(size) => {
            let size = size as usize;
            if size == 0 || front.len() < size {
                return Err(SchemaError::Length);
            }
            Ok(&front[front.len() - size..])
        }
    }
}

/// What is read of a Parquet file.
#[derive(Debug, Drop)]
pub struct FileColumns<'a> {
    /// Its columns.
    pub columns: Vec<SchemaColumn>,
    /// What is known of the elements of the columns, one for each, in their order (`docs/FORMAT.md`,
    /// 4.6, 5.1).
    pub elements: Vec<RootElement>,
    /// Of a schema at `ARROW:schema` whose columns are used, for each of them, in their order, whether
    /// its element refutes a name of GeoArrow on it (`docs/FORMAT.md`, 4.5); else none.
    pub refuted: Vec<bool>,
    /// What is found of the schema at `ARROW:schema`, of the elements, and of keys that stand
    /// several times (`docs/FORMAT.md`, 4.5).
    pub findings: Vec<FileFinding>,
    /// What is found of names, keys and values that are not UTF-8 (`docs/FORMAT.md`, 4.3).
    pub texts: Vec<FooterFinding<'a>>,
    /// What stands at a key in its key-value metadata, as [`value_or_empty`] answers it, which need not be UTF-8: a part of the
    /// bytes that were read, and where it begins in the footer.
    pub value: Option<FooterText<'a>>,
}

/// Reads the columns of a Parquet file and the value of a key, from its end: the bytes of the file,
/// or as many of its last ones as the footer, its length and the magic take. Nothing else is looked
/// at, and the footer once.
///
/// Errs as `footer_in`; with `Footer` where the footer breaks a rule, with the rule and the offset
/// in the footer; as `columns_of_footer` does by the bytes of the footer; and when out of memory.
///
/// ```rust
/// let read = read_file(alloc, b"PAR1", "geo");
/// assert!(rt; matches!(read, Err(SchemaError::Footer(FooterError::NotParquet))));
/// ```
pub fn read_file<'a>(
    alloc: Global,
    end: &'a [u8],
    key: &str,
) -> Result<FileColumns<'a>, SchemaError>
    ensures columns { IfOk result (λ read. IsFileRead (footer_in end.now)
        (Ok (record { columns = read.columns; elements = read.elements; refuted = read.refuted; findings = read.findings }))) }
    ensures texts { IfOk result (λ read. AreTextsRead (footer_in end.now) (map text_finding read.texts.items)) }
    ensures value { IfOk result (λ read. IsValueRead key.now (footer_in end.now) (option_map spelled read.value)) }
    ensures fault { IfErr result (λ error. IsFileRead (footer_in end.now) (Err error)) }
{
    let bytes = footer_in(end)?;
    let footer = match read_footer(alloc, bytes) {
        Ok(footer) => footer,
        Err(error) => return Err(error_of(error)),
    };
    let read = columns_of_footer(alloc, &footer, bytes.len())?;
    let value = value_or_empty(&footer, key);
    let FooterColumns {
        columns,
        elements,
        refuted,
        findings,
    } = read;
    let Footer {
        findings: texts,
        ..
    } = footer;
    Ok(FileColumns {
        columns,
        elements,
        refuted,
        findings,
        texts,
        value,
    })
}
