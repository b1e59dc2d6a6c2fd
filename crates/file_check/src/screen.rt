//! Text as a terminal shows it: colours, and tables that are not wider than it.
use crate::asked::Asked;
use crate::cell::{CELL, cut_to, width};
use crate::findings::findings_text;
use crate::table::Row;
use column_reports::Weighed;
use std::alloc::{AllocError, Global};

/// How many columns a cell has at least, where it is cut to a terminal.
const LEAST: usize = 8;

/// How many columns the mark of a line has with its blank, and how many stand between the cells.
const BETWEEN: usize = 8;

/// Cuts the cells of rows where their table is wider than the terminal, and gives the severities of
/// their notes a colour, where they have one. Errs only when out of memory.
pub(crate) fn dress(alloc: Global, asked: &Asked, rows: &mut [Row]) -> Result<(), AllocError> {
    if let Some(columns) = asked.screen.width {
        let room = room_of_cells(widest(rows), columns);
        for row in rows.iter_mut() {
            cut_row(alloc, room, row)?;
        }
    }
    if asked.is_colored() {
        for row in rows.iter_mut() {
            color_notes(alloc, row)?;
        }
    }
    Ok(())
}

/// How many columns the widest cells of rows have, and those of the head.
fn widest(rows: &[Row]) -> [usize; 4] {
    let [mut name, mut holds, mut crs, mut edges] = [6, 5, 3, 5];
    for row in rows {
        name = width(row.name.as_str()).max(name);
        holds = width(row.holds.as_str()).max(holds);
        crs = width(row.crs.as_str()).max(crs);
        edges = width(row.edges.as_str()).max(edges);
    }
    [name, holds, crs, edges]
}

/// How many columns a cell may have, so that no line has more than that many: as many as can be,
/// and no fewer than the least.
fn room_of_cells(widest: [usize; 4], columns: usize) -> usize {
    let mut room = CELL;
    for _ in LEAST..CELL {
        if line_width(&widest, room) > columns {
            room = room.saturating_sub(1);
        }
    }
    room
}

/// How many columns the widest line has whose cells have that many at most.
fn line_width(widest: &[usize; 4], room: usize) -> usize {
    let mut columns = BETWEEN;
    for cell in widest {
        columns = columns.saturating_add(room.min(*cell));
    }
    columns
}

/// Cuts the cells of a row.
fn cut_row(alloc: Global, room: usize, row: &mut Row) -> Result<(), AllocError> {
    row.name = cut_to(alloc, room, row.name.as_str())?;
    row.holds = cut_to(alloc, room, row.holds.as_str())?;
    row.crs = cut_to(alloc, room, row.crs.as_str())?;
    row.edges = cut_to(alloc, room, row.edges.as_str())?;
    Ok(())
}

/// Gives the severities of the notes of a row their colours.
fn color_notes(alloc: Global, row: &mut Row) -> Result<(), AllocError> {
    for note in row.notes.iter_mut() {
        *note = in_color(alloc, note.as_str())?;
    }
    Ok(())
}

/// Returns the lines of findings as a table has them behind it. Errs only when out of memory.
pub(crate) fn shown_findings(
    alloc: Global,
    asked: &Asked,
    findings: &[Weighed<'_>],
) -> Result<String, AllocError> {
    let text = findings_text(alloc, findings)?;
    if !asked.is_colored() {
        return Ok(text);
    }
    let mut lines = String::new(alloc);
    for line in text.as_str().lines() {
        lines.push_str(in_color(alloc, line)?.as_str())?;
        lines.push_str("\n")?;
    }
    Ok(lines)
}

/// Returns a finding in words, with a colour where they have one. Errs only when out of memory.
pub(crate) fn colored(alloc: Global, asked: &Asked, words: String) -> Result<String, AllocError> {
    if asked.is_colored() {
        in_color(alloc, words.as_str())
    } else {
        Ok(words)
    }
}

/// A finding in words, whose severity and code have the colour of the severity.
fn in_color(alloc: Global, words: &str) -> Result<String, AllocError> {
    match (color_of(words), words.split_once(']')) {
        (Some(color), Some((code, behind))) => {
            format!(in alloc; "\u{1b}[{color}m{code}]\u{1b}[0m{behind}")
        }
        _ => String::from_str(alloc, words),
    }
}

/// The colour of the severity with which words begin: red, yellow or cyan, and bold.
fn color_of(words: &str) -> Option<&'static str> {
    if words.starts_with("error[") {
        Some("1;31")
    } else if words.starts_with("warning[") {
        Some("1;33")
    } else if words.starts_with("note[") {
        Some("1;36")
    } else {
        None
    }
}
