//! The line of a column of geometries that is made of words and texts.
ghost use Rattle.std.specs.Prelude.{◌≡◌, ◌↔◌, ◌⊎◌, ◌≤◌, ◌++◌, Bool, Option, Some, IsTrue, IfOk, MatchOption, option_map, string_bytes};
ghost use mir.Val.{bool_byte};
ghost use Rattle.arrow_columns.specs.Column.{column_tree};
ghost use Rattle.column_files.specs.Forms.{behind_blanks};
ghost use Rattle.column_files.specs.Refusals.{told};
ghost use Rattle.column_reports.specs.Report.{kind_text};
ghost use Rattle.geoarrow_c.specs.Buffer.{Fills, Lacks, Makes};
ghost use Rattle.geoarrow_c.specs.Canonical.{line_of};
ghost use Rattle.geoarrow_c.specs.MadeLines.{AreEdges, IsAsked, IsCrs, IsCrsType, IsMadeLine, IsUnmade};
ghost use Rattle.geoarrow_c.specs.MadeLines.{SaysNone, is_brace_first, unmade_told, with_type};
ghost use Rattle.geoarrow_c.specs.SchemaRecords.{IsLineOf};
ghost use Rattle.geoarrow_fields.specs.Lines.{Bytes};
ghost use Rattle.geoarrow_layout.specs.declared.native_kinds.Kind.{Kind};
ghost use Rattle.geoarrow_meta.specs.declared.crs.crs_type.CrsType.{CrsType};
ghost use Rattle.geoarrow_meta.specs.declared.edges.Edges.{Edges};

use crate::buffer::fill;
use crate::canonical::add_line;
use crate::refusal::refuse;
use crate::status::{MEMORY, UNKNOWN};
use arrow_columns::SchemaColumn;
use column_files::{Fault, Place};
use field_makers::{MakeError, NewColumn, make_column, told_crs_type};
use geoarrow_layout::{Kind, coord_type_word, dimension_word, kind_is_listed, kind_word};
use geoarrow_meta::{CrsType, Edges, WrittenCrs};
use std::alloc::{AllocError, Global};

/// Returns what stands behind such a word.
fn behind<'a>(words: &'a [u8], word: &str) -> Option<&'a [u8]>
    ensures { (rest : Bytes) → (option_map (λ r. r.now) result ≡ Some rest) ↔ (words.now ≡ word.now ++ rest) }
{
    words.strip_prefix(word.as_bytes())
}

/// Whether these are the words of a kind.
fn are_words_of(words: &[u8], kind: Kind) -> bool
    ensures { IsTrue result ↔ (words.now ≡ kind_text kind) }
{
    let Some(rest) = behind(words, kind_word(kind)) else {
        return false;
    };
    let Some(rest) = behind(rest, " ") else {
        return false;
    };
    let Some(rest) = behind(rest, coord_type_word(kind.coord_type())) else {
        return false;
    };
    let Some(rest) = behind(rest, " ") else {
        return false;
    };
    rest == dimension_word(kind.dimension()).as_bytes()
}

/// Returns the kind of these words, as a report has them.
fn kind_of(words: &[u8]) -> Option<Kind>
    ensures { (k : Kind) → (result ≡ Some k) ↔ (words.now ≡ kind_text k) }
{
    kind_is_listed();
    Kind::ALL
        .iter()
        .find(|kind| are_words_of(words, **kind))
        .copied()
}

/// Returns whether values may be null, by the number that says so.
fn nullable_of(number: u8) -> Option<bool>
    ensures { (b : Bool) → (result ≡ Some b) ↔ (number ≡ bool_byte b) }
{
    match number {
        0 => Some(false),
        1 => Some(true),
        _ => None,
    }
}

/// Whether a text begins with `{` behind blanks.
fn is_object(text: &[u8]) -> bool
    ensures { result ≡ is_brace_first (behind_blanks text.now) }
{
    let mut rest = text;
    while let [b' ' | b'\t' | b'\r' | b'\n', more @ ..] = rest {
        rest = more;
    }
    matches!(rest, [b'{', ..])
}

/// Returns the CRS that a text is.
fn crs_of(text: &str) -> WrittenCrs<'_>
    ensures { IsCrs text.now result }
{
    if text.is_empty() {
        WrittenCrs::Absent
    } else if is_object(text.as_bytes()) {
        WrittenCrs::Json(text)
    } else {
        WrittenCrs::Text(text)
    }
}

/// Returns the CRS type of a word.
fn crs_type_of(word: &[u8]) -> Option<Option<CrsType>>
    ensures { (t : Option CrsType) → (result ≡ Some t) ↔ IsCrsType word.now t }
{
    if word.is_empty() {
        Some(None)
    } else if word == b"projjson".as_slice() {
        Some(Some(CrsType::Projjson))
    } else if word == b"wkt2:2019".as_slice() {
        Some(Some(CrsType::Wkt2_2019))
    } else if word == b"authority_code".as_slice() {
        Some(Some(CrsType::AuthorityCode))
    } else if word == b"srid".as_slice() {
        Some(Some(CrsType::Srid))
    } else {
        None
    }
}

/// Returns the edges of a word.
fn edges_of(word: &[u8]) -> Option<Option<Edges>>
    ensures { (e : Option Edges) → (result ≡ Some e) ↔ AreEdges word.now e }
{
    match word {
        b"" | b"planar" => Some(None),
        b"andoyer" => Some(Some(Edges::Andoyer)),
        b"karney" => Some(Some(Edges::Karney)),
        b"spherical" => Some(Some(Edges::Spherical)),
        b"thomas" => Some(Some(Edges::Thomas)),
        b"vincenty" => Some(Some(Edges::Vincenty)),
        _ => None,
    }
}

/// Returns the column that the words and texts say, without the type that a CRS tells by its form.
fn asked_of<'a>(
    name: &'a [u8],
    kind: &[u8],
    nullable: u8,
    crs: &'a [u8],
    crs_type: &[u8],
    edges: &[u8],
) -> Option<NewColumn<'a>>
    ensures { MatchOption result (SaysNone name.now kind.now nullable crs.now crs_type.now edges.now) (λ new. IsAsked name.now kind.now nullable crs.now crs_type.now edges.now new × (SaysNone name.now kind.now nullable crs.now crs_type.now edges.now → ⊥)) }
{
    let Ok(name) = str::from_utf8(name) else {
        return None;
    };
    let Ok(crs) = str::from_utf8(crs) else {
        return None;
    };
    let Some(kind) = kind_of(kind) else {
        return None;
    };
    let Some(nullable) = nullable_of(nullable) else {
        return None;
    };
    let Some(crs_type) = crs_type_of(crs_type) else {
        return None;
    };
    let Some(edges) = edges_of(edges) else {
        return None;
    };
    Some(NewColumn {
        name,
        nullable,
        kind,
        crs: crs_of(crs),
        crs_type,
        edges,
    })
}

/// Returns the column with the type of its CRS, or the one that the form of its CRS tells. Errs
/// only when out of memory.
fn with_type<'a>(alloc: Global, asked: NewColumn<'a>) -> Result<NewColumn<'a>, AllocError>
    ensures { IfOk result (λ new. new ≡ with_type asked.entry) }
{
    let crs_type = match asked.crs_type {
        Some(given) => Some(given),
        None => told_crs_type(alloc, asked.crs)?,
    };
    Ok(NewColumn { crs_type, ..asked })
}

/// Returns the line of a column, with its line feed. Errs only when out of memory.
fn line_of(alloc: Global, column: SchemaColumn) -> Result<String, AllocError>
    ensures { IfOk result (λ line. string_bytes line ≡ line_of (column_tree column)) }
{
    let mut line = String::new(alloc);
    add_line(alloc, &mut line, column)?;
    Ok(line)
}

/// Writes the line of a column to the front of a buffer, if it has room, and its length in either
/// case. Returns the status.
fn fill_line(alloc: Global, column: SchemaColumn, out: &mut [u8], len: &mut usize) -> u8
    ensures done { result ≡ 0 → Makes (λ line. line ≡ line_of (column_tree column)) len.new (λ line. Fills line out.old out.new) }
    ensures short { result ≡ 1 → Makes (λ line. line ≡ line_of (column_tree column)) len.new (λ line. Lacks line out.old out.new) }
    ensures unchanged { result ≡ 2 → (out.new ≡ out.old) × (len.new ≡ len.old) }
    ensures status { result ≤ 2 }
{
    match line_of(alloc, column) {
        Ok(line) => fill(line.as_bytes(), out, len),
        Err(AllocError) => MEMORY,
    }
}

/// Returns why a column is not made; `None` where memory is all that lacks.
fn unmade_fault(error: MakeError) -> Option<Fault<'static>>
    ensures { option_map told result ≡ unmade_told error }
{
    match error {
        MakeError::NotProjjson => Some(Fault {
            code: "BadSchema",
            place: Place::Column(0),
            found: "a CRS that is no PROJJSON",
            expected: "an object of JSON that nests at most 126 levels",
            help: None,
        }),
        MakeError::TypeWithoutCrs => Some(Fault {
            code: "BadSchema",
            place: Place::Column(0),
            found: "a CRS type without a CRS",
            expected: "a CRS, or no type",
            help: None,
        }),
        MakeError::OutOfMemory => None,
    }
}

/// Writes the line that says why a column is not made, as `refuse` does.
fn refuse_made(alloc: Global, error: MakeError, out: &mut [u8], len: &mut usize) -> u8
    ensures refused { result ≡ 5 → Makes (IsLineOf (unmade_told error)) len.new (λ line. Fills line out.old out.new) }
    ensures short { result ≡ 1 → Makes (IsLineOf (unmade_told error)) len.new (λ line. Lacks line out.old out.new) }
    ensures unchanged { result ≡ 2 → (out.new ≡ out.old) × (len.new ≡ len.old) }
    ensures status { (result ≡ 1) ⊎ (result ≡ 2) ⊎ (result ≡ 5) }
{
    match unmade_fault(error) {
        Some(fault) => refuse(alloc, None, &fault, out, len),
        None => MEMORY,
    }
}

/// Writes the line of a column of geometries (docs/FORMAT.md, 2.7 and 2.11) to the front of `out`,
/// with its line feed, and its length to `len`. `name` is its name; `kind` the words of its kind in
/// a report, as `point interleaved XY` (2.5); `nullable` 1 where values may be null, and 0 where
/// not. `crs` is none where it has no bytes, the text of a PROJJSON where `{` is its first byte
/// that is no blank, and any other text as it is. `crs_type` is a word of 1.6, or has no bytes:
/// then it is the type that the form of the CRS tells, if one is. `edges` is a word of 1.6;
/// `planar` and no bytes stand for none.
///
/// Returns 0; or 5 where no such column is made: the line that says why, with its line feed, stands
/// in place of its line (docs/FORMAT.md, 2.8). Returns 1 where `out` is too small for what would
/// stand there: it is then unchanged, and `len` says what is needed; 2 when out of memory, and 3
/// where `name` or `crs` is not UTF-8, or one of the others is no such word or number, with both
/// unchanged.
#[unsafe(no_mangle)]
pub extern "C" fn geoarrow_make(
    alloc: Global,
    name: &[u8],
    kind: &[u8],
    nullable: u8,
    crs: &[u8],
    crs_type: &[u8],
    edges: &[u8],
    out: &mut [u8],
    len: &mut usize,
) -> u8
    ensures done { result ≡ 0 → Makes (IsMadeLine (IsAsked name.now kind.now nullable crs.now crs_type.now edges.now)) len.new (λ line. Fills line out.old out.new) }
    ensures refused { result ≡ 5 → Makes (IsUnmade (IsAsked name.now kind.now nullable crs.now crs_type.now edges.now)) len.new (λ line. Fills line out.old out.new) }
    ensures short { result ≡ 1 → Makes (λ text. IsMadeLine (IsAsked name.now kind.now nullable crs.now crs_type.now edges.now) text ⊎ IsUnmade (IsAsked name.now kind.now nullable crs.now crs_type.now edges.now) text) len.new (λ text. Lacks text out.old out.new) }
    ensures unchanged { (result ≡ 2) ⊎ (result ≡ 3) → (out.new ≡ out.old) × (len.new ≡ len.old) }
    ensures unknown { (result ≡ 3) ↔ SaysNone name.now kind.now nullable crs.now crs_type.now edges.now }
    ensures status { (result ≤ 3) ⊎ (result ≡ 5) }
{
    let Some(asked) = asked_of(name, kind, nullable, crs, crs_type, edges) else {
        return UNKNOWN;
    };
    let Ok(new) = with_type(alloc, asked) else {
        return MEMORY;
    };
    match make_column(alloc, &new) {
        Ok(column) => fill_line(alloc, column, out, len),
        Err(error) => refuse_made(alloc, error, out, len),
    }
}
