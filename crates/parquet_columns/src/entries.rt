//! Keys that stand several times among the entries of metadata of a schema.
ghost use Rattle.std.specs.Prelude.{◌≡◌, ◌++◌, IfOk, OnOk, map};
ghost use Rattle.arrow_values.specs.Texts.{text_of};
ghost use Rattle.arrow_columns.specs.Column.{column_tree};
ghost use Rattle.arrow_ipc.specs.Entries.{entry, entries_in, entries_tree};
ghost use Rattle.parquet_columns.specs.Findings.{finding};
ghost use Rattle.parquet_columns.specs.declared.code.FilePart.TheVariants as parts;
ghost use Rattle.parquet_columns.specs.Entries.{text_under, texts_under, all_are, are_equal, several_texts, repeated_by, repeated_in, repeated_on, repeated_columns, repeated_entries, stored_entries};

use crate::code::{FileCode, FilePart};
use crate::finding::{FileFinding, FilePlace, owned};
use crate::keys::GEO_KEY;
use crate::repeated::values_text;
use arrow_columns::SchemaColumn;
use arrow_ipc::{Entry, IpcError, SchemaEntries, read_entries};
use arrow_values::{EXTENSION_TYPE_METADATA_KEY, EXTENSION_TYPE_NAME_KEY};
use std::alloc::{AllocError, Global};

/// Adds the text of an entry, if the key is its own. Errs only when out of memory.
fn add_text<'a>(texts: &mut Vec<&'a str>, one: &Entry<'a>, key: &str) -> Result<(), AllocError>
    ensures { OnOk result (map (λ t. t.now) texts.new.items ≡ map (λ t. t.now) texts.old.items ++ text_under key.now (entry one.now)) }
{
    if one.key == key {
        texts.push(one.text)?;
    }
    Ok(())
}

/// The texts of a key, in their order. Errs only when out of memory.
fn texts_under<'a>(
    alloc: Global,
    entries: &[Entry<'a>],
    key: &str,
) -> Result<Vec<&'a str>, AllocError>
    ensures { IfOk result (λ texts. map (λ t. t.now) texts.items ≡ texts_under key.now (map entry entries.now)) }
{
    let mut texts = Vec::new(alloc);
    for one in entries {
        add_text(&mut texts, one, key)?;
    }
    Ok(texts)
}

/// Whether all texts are that one.
fn all_are(text: &str, others: &[&str]) -> bool
    ensures { result ≡ all_are text.now (map (λ t. t.now) others.now) }
{
    for other in others {
        if *other != text {
            return false;
        }
    }
    true
}

/// Whether all texts are one.
fn are_equal(texts: &[&str]) -> bool
    ensures { result ≡ are_equal (map (λ t. t.now) texts.now) }
{
    match texts.split_first() {
        None => true,
        Some((first, others)) => all_are(*first, others),
    }
}

/// What is found of a key that has several texts. Errs only when out of memory.
fn several_texts(
    alloc: Global,
    part: FilePart,
    column: Option<&str>,
    key: &str,
    texts: &[&str],
) -> Result<FileFinding, AllocError>
    ensures { IfOk result (λ made. finding made ≡ several_texts part (text_of column.entry) key.now (map (λ t. t.now) texts.now)) }
{
    let found = values_text(alloc, texts.len(), are_equal(texts))?;
    let column = owned(alloc, column)?;
    let wanted = String::from_str(alloc, key)?;
    Ok(FileFinding {
        code: FileCode::RepeatedKey,
        column,
        path: Vec::new(alloc),
        place: FilePlace { part, byte: None },
        found: Some(found),
        wanted: Some(wanted),
    })
}

/// Adds what is found of a key, if it has several texts. Errs only when out of memory.
fn add_by(
    alloc: Global,
    findings: &mut Vec<FileFinding>,
    part: FilePart,
    column: Option<&str>,
    key: &str,
    texts: &[&str],
) -> Result<(), AllocError>
    ensures { OnOk result (map finding findings.new.items
        ≡ map finding findings.old.items ++ repeated_by part (text_of column.entry) key.now (map (λ t. t.now) texts.now)) }
{
    if texts.len() > 1 {
        let found = several_texts(alloc, part, column, key, texts)?;
        findings.push(found)?;
    }
    Ok(())
}

/// Adds what is found of a key among entries. Errs only when out of memory.
fn add_repeated(
    alloc: Global,
    findings: &mut Vec<FileFinding>,
    part: FilePart,
    column: Option<&str>,
    entries: &[Entry<'_>],
    key: &str,
) -> Result<(), AllocError>
    ensures { OnOk result (map finding findings.new.items
        ≡ map finding findings.old.items ++ repeated_in part (text_of column.entry) (map entry entries.now) key.now) }
{
    let texts = texts_under(alloc, entries, key)?;
    add_by(alloc, findings, part, column, key, texts.as_slice())
}

/// Adds what is found of the keys of a column's extension type. Errs only when out of memory.
fn add_on(
    alloc: Global,
    findings: &mut Vec<FileFinding>,
    part: FilePart,
    name: &str,
    entries: &[Entry<'_>],
) -> Result<(), AllocError>
    ensures { OnOk result (map finding findings.new.items
        ≡ map finding findings.old.items ++ repeated_on part name.now (map entry entries.now)) }
{
    add_repeated(
        alloc,
        findings,
        part,
        Some(name),
        entries,
        EXTENSION_TYPE_NAME_KEY,
    )?;
    add_repeated(
        alloc,
        findings,
        part,
        Some(name),
        entries,
        EXTENSION_TYPE_METADATA_KEY,
    )?;
    Ok(())
}

/// Adds what is found of columns, each with the entries at its place. Errs only when out of memory.
fn add_columns(
    alloc: Global,
    findings: &mut Vec<FileFinding>,
    part: FilePart,
    columns: &[SchemaColumn],
    entries: &[Vec<Entry<'_>>],
) -> Result<(), AllocError>
    ensures { OnOk result (map finding findings.new.items
        ≡ map finding findings.old.items ++ repeated_columns part (map column_tree columns.now) (map entries_in entries.now)) }
{
    let mut rest = entries.iter();
    for column in columns {
        let Some(own) = rest.next() else {
            return Ok(());
        };
        add_on(alloc, findings, part, column.name.as_str(), own.as_slice())?;
    }
    Ok(())
}

/// Returns what is found of keys that stand several times among the entries of metadata of a
/// schema: in that part the keys of the extension type of a column, `ARROW:extension:name` and
/// `ARROW:extension:metadata`, each column with the entries at its place; and in the file the key
/// `geo` of the schema itself (`docs/FORMAT.md`, 4.5). Errs only when out of memory.
pub fn repeated_entries(
    alloc: Global,
    part: FilePart,
    columns: &[SchemaColumn],
    entries: &SchemaEntries<'_>,
) -> Result<Vec<FileFinding>, AllocError>
    ensures { IfOk result (λ found. map finding found.items
        ≡ repeated_entries part (map column_tree columns.now) (entries_tree entries.now)) }
{
    let mut found = Vec::new(alloc);
    let file = FilePart::File;
    let own = entries.schema.as_slice();
    add_columns(alloc, &mut found, part, columns, entries.columns.as_slice())?;
    add_repeated(alloc, &mut found, file, None, own, GEO_KEY)?;
    Ok(found)
}

/// The entries of the columns of a message at `ARROW:schema`; none where they are not read. Errs
/// only when out of memory.
#[tactic(auto, using(crate::proofs::Kept::are_read, crate::proofs::Kept::are_broken, crate::proofs::Kept::are_many))]
fn stored_entries<'a>(alloc: Global, message: &'a [u8]) -> Result<Vec<Vec<Entry<'a>>>, AllocError>
    ensures { IfOk result (λ entries. map entries_in entries.items ≡ stored_entries message.now) }
{
    match read_entries(alloc, message) {
        Ok(entries) => {
            let SchemaEntries { columns, .. } = entries;
            Ok(columns)
        }
        Err(IpcError::Broken(_)) => Ok(Vec::new(alloc)),
        Err(IpcError::Budget(_)) => Ok(Vec::new(alloc)),
        Err(IpcError::OutOfMemory) => Err(AllocError),
    }
}

/// What is found of the keys of the extension types of the columns of a message at `ARROW:schema`;
/// nothing where its entries are not read. Errs only when out of memory.
pub(crate) fn stored_repeated(
    alloc: Global,
    message: &[u8],
    columns: &[SchemaColumn],
) -> Result<Vec<FileFinding>, AllocError>
    ensures { IfOk result (λ found. map finding found.items
        ≡ repeated_columns parts.StoredMessage (map column_tree columns.now) (stored_entries message.now)) }
{
    let entries = stored_entries(alloc, message)?;
    let mut found = Vec::new(alloc);
    let part = FilePart::StoredMessage;
    add_columns(alloc, &mut found, part, columns, entries.as_slice())?;
    Ok(found)
}
