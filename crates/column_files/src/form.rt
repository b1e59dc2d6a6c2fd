//! The format of a file, by its first bytes.
ghost use Rattle.std.specs.Prelude.{◌≡◌, drop, take, map};
ghost use Rattle.column_files.specs.Forms.{IsForm, head_form, stands, first_row, begins, first_text};
ghost use Rattle.column_files.specs.Forms.{is_marked, mark_len, unmarked, behind_blanks, text_form, is_tag, is_words, is_duck, is_unmarked_stream};

use crate::foreign::Foreign;

/// The format of a file.
#[derive(Debug, Clone, Copy, PartialEq, Eq)]
pub enum Form {
    /// An Arrow file, also named Feather: it begins with `ARROW1`.
    ArrowFile,
    /// An Arrow stream: it begins with the continuation marker, four bytes 255; or, as written before
    /// version 0.15, with the size of its first message.
    ArrowStream,
    /// A Parquet file: it begins with `PAR1`, or with `PARE` where its footer is encrypted.
    Parquet,
    /// Lines of fields (docs/FORMAT.md, 2.1): they begin with `{` behind blanks, or are blank.
    Lines,
    /// A format that is not read.
    Foreign(Foreign),
}

/// How many of a file's first bytes tell its format.
pub(crate) const HEAD_BYTES: usize = 64;

/// Bytes that tell a format: where they stand, what they are, and the format.
type Row = (usize, &'static [u8], Form);

/// The bytes that tell a format, whatever stands around them: the first row that fits counts.
const ROWS: &[Row] = &[
    (0, b"PAR1", Form::Parquet),
    (0, b"PARE", Form::Parquet),
    (0, b"ARROW1", Form::ArrowFile),
    (0, &[255, 255, 255, 255], Form::ArrowStream),
    (0, b"FEA1", Form::Foreign(Foreign::Feather)),
    (0, b"SQLite format 3\0", Form::Foreign(Foreign::Sqlite)),
    (0, b"fgb\x03", Form::Foreign(Foreign::FlatGeobuf)),
    (0, b"\0\0\x27\x0a", Form::Foreign(Foreign::Shapefile)),
    (0, b"\x1f\x8b", Form::Foreign(Foreign::Gzip)),
    (0, b"\x28\xb5\x2f\xfd", Form::Foreign(Foreign::Zstd)),
    (0, b"BZh", Form::Foreign(Foreign::Bzip2)),
    (0, b"\xfd7zXZ\0", Form::Foreign(Foreign::Xz)),
    (0, b"PK\x03\x04", Form::Foreign(Foreign::Zip)),
    (0, b"ORC", Form::Foreign(Foreign::Orc)),
    (0, b"Obj\x01", Form::Foreign(Foreign::Avro)),
    (0, b"\x89HDF", Form::Foreign(Foreign::Hdf5)),
    (0, b"CDF\x01", Form::Foreign(Foreign::NetCdf)),
    (0, b"CDF\x02", Form::Foreign(Foreign::NetCdf)),
    (0, b"CDF\x05", Form::Foreign(Foreign::NetCdf)),
    (0, b"II*\0", Form::Foreign(Foreign::Tiff)),
    (0, b"MM\0*", Form::Foreign(Foreign::Tiff)),
    (0, b"%PDF", Form::Foreign(Foreign::Pdf)),
    (0, b"PMTiles", Form::Foreign(Foreign::PmTiles)),
    (0, b"\xff\xfe", Form::Foreign(Foreign::Utf16)),
    (0, b"\xfe\xff", Form::Foreign(Foreign::Utf16)),
];

/// What a text begins with, in letters of any case, and the format that this tells.
type TextRow = (&'static [u8], Form);

/// What a text begins with behind its blanks: the first row that fits counts.
const TEXT_ROWS: &[TextRow] = &[
    (b"{", Form::Lines),
    (b"[", Form::Foreign(Foreign::JsonArray)),
    (
        b"version https://git-lfs",
        Form::Foreign(Foreign::LfsPointer),
    ),
    (b"<!doctype", Form::Foreign(Foreign::Html)),
    (b"<html", Form::Foreign(Foreign::Html)),
    (b"<?xml", Form::Foreign(Foreign::Xml)),
];

/// Returns the format that the first bytes of a file tell: that of the first row which fits, of
/// docs/FORMAT.md, 2.7. No more than 64 bytes are looked at. Allocates nothing.
///
/// ```rust
/// assert_eq!(rt; form_of(b"PAR1"), Form::Parquet);
/// assert_eq!(rt; form_of(b"PARE"), Form::Parquet);
/// assert_eq!(rt; form_of(b" {}"), Form::Lines);
/// assert_eq!(rt; form_of(b"[{}]"), Form::Foreign(Foreign::JsonArray));
/// assert_eq!(rt; form_of(b"\x01\x02\x03\0\x05\x06\x07\x08DUCK\x40\0"), Form::Foreign(Foreign::DuckDb));
/// assert_eq!(rt; form_of(b"{\"abc\":\"DUCK\"}"), Form::Lines);
/// assert_eq!(rt; form_of(b"\x70\x01\0\0\x10\0\0\0"), Form::ArrowStream);
/// ```
pub fn form_of(bytes: &[u8]) -> Form
    ensures { IsForm bytes.now result }
{
    head_form(head_of(bytes))
}

/// The first bytes of a file, as many as tell its format.
fn head_of(bytes: &[u8]) -> &[u8]
    ensures { result.now ≡ take 64 bytes.now }
{
    &bytes[..bytes.len().min(HEAD_BYTES)]
}

/// The format of a file with these first bytes.
fn head_form(head: &[u8]) -> Form
    ensures { result ≡ head_form head.now }
{
    match first_row(ROWS, head) {
        Some(form) => form,
        None if is_duck(head) => Form::Foreign(Foreign::DuckDb),
        None if is_unmarked_stream(head) => Form::ArrowStream,
        None => text_form(behind_blanks(unmarked(head))),
    }
}

/// Whether bytes have the word of DuckDB behind eight others, and are no text.
fn is_duck(head: &[u8]) -> bool
    ensures { result ≡ is_duck head.now }
{
    stands(8, b"DUCK", head) && !is_words(head)
}

/// Whether bytes begin with the size of a message, and the place of its table, of which both are
/// small.
fn is_unmarked_stream(head: &[u8]) -> bool
    ensures { result ≡ is_unmarked_stream head.now }
{
    !stands(0, b"\0\0\0", head) && stands(3, b"\0", head) && stands(5, b"\0\0\0", head)
}

/// The format of the first row whose bytes stand at their place.
fn first_row(rows: &[Row], bytes: &[u8]) -> Option<Form>
    ensures { result ≡ first_row (map (λ row. (row.0, (row.1.now, row.2))) rows.now) bytes.now }
{
    for row in rows {
        if stands(row.0, row.1, bytes) {
            return Some(row.2);
        }
    }
    None
}

/// What stands from a place on.
pub(crate) fn rest_of(bytes: &[u8], start: usize) -> &[u8]
    ensures { result.now ≡ drop start bytes.now }
{
    bytes.get(start..).unwrap_or(&[])
}

/// Whether bytes stand from a place on.
pub(crate) fn stands(at: usize, front: &[u8], bytes: &[u8]) -> bool
    ensures { result ≡ stands at front.now bytes.now }
{
    bytes.get(at..).unwrap_or(&[]).starts_with(front)
}

/// The format of the first row with which a text begins.
fn first_text(rows: &[TextRow], text: &[u8]) -> Option<Form>
    ensures { result ≡ first_text (map (λ row. (row.0.now, row.1)) rows.now) text.now }
{
    for row in rows {
        if begins(row.0, text) {
            return Some(row.1);
        }
    }
    None
}

/// Whether a text begins with another, in letters of any case.
fn begins(front: &[u8], text: &[u8]) -> bool
    ensures { result ≡ begins front.now text.now }
{
    match text.get(..front.len()) {
        Some(begin) => begin.eq_ignore_ascii_case(front),
        None => false,
    }
}

/// The format of what stands behind the blanks of a file.
fn text_form(text: &[u8]) -> Form
    ensures { result ≡ text_form text.now }
{
    if text.is_empty() {
        return Form::Lines;
    }
    match first_text(TEXT_ROWS, text) {
        Some(form) => form,
        None if is_tag(text) => Form::Foreign(Foreign::Xml),
        None if is_words(text) => Form::Foreign(Foreign::Text),
        None => Form::Foreign(Foreign::Unknown),
    }
}

/// Whether a text begins with `<` and a letter.
fn is_tag(text: &[u8]) -> bool
    ensures { result ≡ is_tag text.now }
{
    match text {
        [b'<', letter, ..] => letter.is_ascii_alphabetic(),
        _ => false,
    }
}

/// Whether bytes are UTF-8, but for a character that is cut at their end, and none of them is 0.
#[tactic(auto, using(crate::proofs::Texts::whole_text))]
fn is_words(text: &[u8]) -> bool
    ensures { result ≡ is_words text.now }
{
    if text.contains(&0) {
        return false;
    }
    match simdutf8::compat::from_utf8(text) {
        Ok(_) => true,
        Err(error) => error.error_len().is_none(),
    }
}

/// How many bytes the byte order mark at the begin of a text has, which may have none.
pub(crate) fn mark_len(text: &[u8]) -> usize
    ensures { result ≡ mark_len text.now }
{
    match is_marked(text) {
        true => 3,
        false => 0,
    }
}

/// Whether a text begins with a byte order mark.
pub(crate) fn is_marked(text: &[u8]) -> bool
    ensures { result ≡ is_marked text.now }
{
    match text {
        [0xef, 0xbb, 0xbf, ..] => true,
        _ => false,
    }
}

/// A text without the byte order mark at its begin.
pub(crate) fn unmarked(text: &[u8]) -> &[u8]
    ensures { result.now ≡ unmarked text.now }
{
    text.get(mark_len(text)..).unwrap_or(&[])
}

/// What stands behind the spaces, tabs, carriage returns and line feeds at the begin.
pub(crate) fn behind_blanks(text: &[u8]) -> &[u8]
    ensures { result.now ≡ behind_blanks text.now }
{
    let mut rest = text;
    while let [b' ' | b'\t' | b'\r' | b'\n', more @ ..] = rest {
        rest = more;
    }
    rest
}
