//! The text of a table.
ghost use Rattle.std.specs.Prelude.{◌≡◌, ◌++◌, ◌∷◌, max, IfOk, OnOk, flat_map, map, replicate, string_bytes};
ghost use Rattle.file_check.specs.Table.{line_of, head, width, rooms_of, mark_text, padded, trimmed, note_text, cells_text, line_text, table_text};

use crate::cell::width;
use column_check::Severity;
use std::alloc::{AllocError, Global};

/// How many bytes a line has room for before it grows.
const LINE_BYTES: usize = 120;

/// As many blanks as a cell has columns of a terminal at most.
const BLANKS: &str = "                                        ";

/// What a table says of a column: the cells of its line, each a text that [`cut`](crate::cut) gives,
/// and the notes below it.
#[derive(Debug, Drop)]
pub struct Row {
    /// How much the worst counts of what is found of the column and shown.
    pub mark: Option<Severity>,
    /// The name of the column.
    pub name: String,
    /// What the column holds.
    pub holds: String,
    /// The coordinate reference system of geometries, or nothing.
    pub crs: String,
    /// How the edges of geometries run, or nothing.
    pub edges: String,
    /// What else is said of the column, each in a line of its own.
    pub notes: Vec<String>,
}

/// How many columns of a terminal the widest cell of each column has, but for the last column.
#[derive(Clone, Copy)]
pub(crate) struct Rooms {
    name: usize,
    holds: usize,
    crs: usize,
}

/// Returns the rows as lines below a head: `column`, `holds`, `CRS` and `edges`, each behind its
/// mark and a blank: `E` of an error, `W` of a warning, `N` of a note. Each column is as wide as
/// its widest cell, in columns of a terminal, with two blanks between columns; each note has a
/// line of its own below that of its row, behind four blanks. White space at the end of a line is
/// left out (`docs/FORMAT.md`, 2.7). Errs only when out of memory.
///
/// ```rust
/// let name = String::from_str(alloc, "id")?;
/// let holds = String::from_str(alloc, "int64")?;
/// let row = Row { mark: None, name, holds, crs: String::new(alloc), edges: String::new(alloc), notes: Vec::new(alloc) };
/// assert_eq!(rt; table_text(alloc, &[row])?.as_str(), "  column  holds  CRS  edges\n  id      int64\n");
/// ```
pub fn table_text(alloc: Global, rows: &[Row]) -> Result<String, AllocError>
    ensures { IfOk result (λ text. string_bytes text ≡ table_text (map line_of rows.now)) }
{
    let head = head(alloc)?;
    let rooms = rooms_of(&head, rows);
    let mut text = String::new(alloc);
    push_row(alloc, &mut text, rooms, &head)?;
    for row in rows {
        push_row(alloc, &mut text, rooms, row)?;
    }
    Ok(text)
}

/// The line at the head.
fn head(alloc: Global) -> Result<Row, AllocError>
    ensures { IfOk result (λ row. line_of row ≡ head) }
{
    Ok(Row {
        mark: None,
        name: String::from_str(alloc, "column")?,
        holds: String::from_str(alloc, "holds")?,
        crs: String::from_str(alloc, "CRS")?,
        edges: String::from_str(alloc, "edges")?,
        notes: Vec::new(alloc),
    })
}

/// How wide the columns of a table are.
fn rooms_of(head: &Row, rows: &[Row]) -> Rooms
    ensures { result ≡ rooms_of (line_of head.now ∷ map line_of rows.now) }
{
    let mut rooms = Rooms {
        name: width(head.name.as_str()),
        holds: width(head.holds.as_str()),
        crs: width(head.crs.as_str()),
    };
    for row in rows {
        rooms = widened(rooms, row);
    }
    rooms
}

/// The same where a row is added.
fn widened(rooms: Rooms, row: &Row) -> Rooms
    ensures name { result.name ≡ max rooms.name (width (line_of row.now).name) }
    ensures holds { result.holds ≡ max rooms.holds (width (line_of row.now).holds) }
    ensures crs { result.crs ≡ max rooms.crs (width (line_of row.now).crs) }
{
    Rooms {
        name: rooms.name.max(width(row.name.as_str())),
        holds: rooms.holds.max(width(row.holds.as_str())),
        crs: rooms.crs.max(width(row.crs.as_str())),
    }
}

/// Adds the line of a row, and its notes.
fn push_row(alloc: Global, text: &mut String, rooms: Rooms, row: &Row) -> Result<(), AllocError>
    ensures { OnOk result (string_bytes text.new ≡ string_bytes text.old ++ line_text rooms (line_of row.now)) }
{
    let cells = cells_text(alloc, rooms, row)?;
    push_trimmed(text, cells.as_str())?;
    push_notes(text, row.notes.as_slice())
}

/// The cells of a row.
fn cells_text(alloc: Global, rooms: Rooms, row: &Row) -> Result<String, AllocError>
    ensures { IfOk result (λ text. string_bytes text ≡ cells_text rooms (line_of row.now)) }
{
    let mut text = String::with_capacity(alloc, LINE_BYTES)?;
    text.push_str(mark_text(row.mark))?;
    push_padded(&mut text, rooms.name, row.name.as_str())?;
    push_padded(&mut text, rooms.holds, row.holds.as_str())?;
    push_padded(&mut text, rooms.crs, row.crs.as_str())?;
    text.push_str(row.edges.as_str())?;
    Ok(text)
}

/// The mark of a line, and a blank.
fn mark_text(mark: Option<Severity>) -> &'static str
    ensures { result.now ≡ mark_text mark }
{
    match mark {
        None => "  ",
        Some(Severity::Error) => "E ",
        Some(Severity::Warning) => "W ",
        Some(Severity::Note) => "N ",
    }
}

/// Adds a cell, with blanks up to the next one.
fn push_padded(text: &mut String, room: usize, cell: &str) -> Result<(), AllocError>
    ensures { OnOk result (string_bytes text.new ≡ string_bytes text.old ++ padded room cell.now) }
{
    text.push_str(cell)?;
    push_blanks(text, room.saturating_sub(width(cell)))?;
    text.push_str("  ")
}

/// Adds so many blanks: at once where they are not more than a cell has characters.
fn push_blanks(text: &mut String, count: usize) -> Result<(), AllocError>
    ensures { OnOk result (string_bytes text.new ≡ string_bytes text.old ++ replicate count 32) }
{
    for _ in 0..count / BLANKS.len() {
        text.push_str(BLANKS)?;
    }
    text.push_str(&BLANKS[..count % BLANKS.len()])
}

/// Adds a line, without the white space at its end.
fn push_trimmed(text: &mut String, line: &str) -> Result<(), AllocError>
    ensures { OnOk result (string_bytes text.new ≡ string_bytes text.old ++ trimmed line.now) }
{
    text.push_str(line.trim_end())?;
    text.push_str("\n")
}

/// Adds notes.
fn push_notes(text: &mut String, notes: &[String]) -> Result<(), AllocError>
    ensures { OnOk result (string_bytes text.new ≡ string_bytes text.old ++ flat_map note_text (map string_bytes notes.now)) }
{
    for note in notes {
        text.push_str("    ")?;
        push_trimmed(text, note.as_str())?;
    }
    Ok(())
}

/// How many bytes the texts of a row have.
pub(crate) fn row_bytes(row: &Row) -> usize {
    let mut bytes = 0_usize;
    for text in [&row.name, &row.holds, &row.crs, &row.edges] {
        bytes = bytes.saturating_add(text.len());
    }
    for note in &row.notes {
        bytes = bytes.saturating_add(note.len());
    }
    bytes
}
