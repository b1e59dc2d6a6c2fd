//! Rows of lines: calls of `geoarrow_fields` and of `field_lines`. Beside the four commands of the program there are `field`,
//! the line of the field that a line denotes, or `none`, and `refusal`, the error by which that field is refused; and the whole
//! runs of `runs`.
mod runs;

use arrow_values::Field;
use field_lines::parse_line;
use geoarrow_fields::{Command, answer_line};
use geoarrow_schema::GeoArrowType;
use rows::asked::Asked;
use rows::said::Said;
use std::alloc::AllocError;
use std::mem::ManuallyDrop;

/// The command of the program that has a name.
fn command_of(name: &str) -> Option<Command> {
    match name {
        "read" => Some(Command::Read),
        "infer" => Some(Command::Infer),
        "canon" => Some(Command::Canon),
        "columns" => Some(Command::Columns),
        _ => None,
    }
}

/// Says the answer to a line under a command.
pub fn answer(it: &mut Asked<'_>) {
    if let Some(command) = command_of(it.command) {
        return it.said.made(answer_line(it.alloc, command, it.bytes));
    }
    match it.command {
        "run" | "serve" => runs::answer(it),
        _ => of_field(it),
    }
}

/// Says what a command answers about the field that a line denotes, if it denotes one.
fn of_field(it: &mut Asked<'_>) {
    let field = ManuallyDrop::new(parse_line(it.alloc, it.bytes));
    match (it.command, &*field) {
        ("field", Ok(Some(field))) => it.said.line(field),
        ("field", Ok(None)) => it.said.push("none"),
        ("refusal", Ok(Some(field))) => refusal(&mut it.said, field),
        ("refusal", Ok(None)) => it.said.push("no field"),
        (_, Ok(_)) => it.no_command(),
        (_, Err(AllocError)) => it.said.fail(),
    }
}

/// Says the text of the error by which a field is refused; else whether it is read.
fn refusal(said: &mut Said, field: &Field) {
    match &*ManuallyDrop::new(GeoArrowType::from_extension_field(said.alloc, field)) {
        Ok(Some(_)) => said.push("read as a type"),
        Ok(None) => said.push("read as none"),
        Err(error) => said.geoarrow_refusal(error),
    }
}
