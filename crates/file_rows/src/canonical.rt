//! Rows of columns in normal form: calls of `canonical_columns`. A row's text is the line of a column,
//! and so is the answer.
use canonical_columns::canonical_column;
use column_files::{column_line, parse_column_line};
use json::Scratch;
use rows::asked::Asked;
use std::alloc::{AllocError, Global};

/// Says the answer to a text under a command. It is lacking when out of memory.
pub fn answer(it: &mut Asked<'_>) {
    match it.command {
        "canonical" => match canonical_line(it.alloc, it.text) {
            Ok(Some(line)) => it.said.push(line.as_str()),
            Ok(None) => it.said.push("no column"),
            Err(AllocError) => it.said.fail(),
        },
        _ => it.no_command(),
    }
}

/// The line of the normal form of the column that a line denotes, if it denotes one.
fn canonical_line(alloc: Global, line: &str) -> Result<Option<String>, AllocError> {
    let mut scratch = Scratch::new(alloc);
    let Ok(column) = parse_column_line(alloc, line.as_bytes(), &mut scratch)? else {
        return Ok(None);
    };
    let canonical = canonical_column(alloc, &mut scratch, column)?;
    Ok(Some(column_line(alloc, canonical)?))
}
