//! Samples of Arrow's IPC format: read, and read again with each byte turned and at each length; and what they hold written, and read
//! again.
//!
//! A sample in `data/samples.rows` is two lines: `stream` or `file`, a space and its bytes in hexadecimal digits; and what it
//! holds, the lines of its columns (`docs/FORMAT.md`, 2.1) with ` | ` between them, or `refused` and the rule that it breaks. A column whose
//! type no line has stands as one of nulls, with the type's notation behind it. The form `written`, in `data/written.rows`, is a stream that
//! stands there as this library writes it.
#![tactic(auto)]

use arrow_columns::{AnyType, SchemaColumn};
use arrow_ipc::{IpcError, Schema, read_file_footer, read_schema, write_schema};
use arrow_values::{DataType, Field};
use field_lines::field_line;
use std::alloc::{AllocError, Global};
use std::process::ExitCode;
use std::{fs, io};

/// The schema in a sample of that form.
fn read(alloc: Global, form: &str, bytes: &[u8]) -> Result<Schema, IpcError> {
    match form {
        "file" => read_file_footer(alloc, bytes),
        _ => read_schema(alloc, bytes),
    }
}

/// The line of a column.
fn column_line(alloc: Global, column: SchemaColumn) -> Result<String, AllocError> {
    let SchemaColumn {
        name,
        nullable,
        data_type,
        metadata,
    } = column;
    match data_type {
        AnyType::Data(data_type) => {
            let field = Field::from_parts(name, data_type, nullable, metadata);
            field_line(alloc, &field)
        }
        AnyType::Other(other) => {
            let field = Field::from_parts(name, DataType::Null, nullable, metadata);
            let line = field_line(alloc, &field)?;
            let text = other.notation;
            format!(in alloc; "{line} {text}")
        }
    }
}

/// What a sample holds.
fn said(alloc: Global, form: &str, bytes: &[u8]) -> Result<String, AllocError> {
    match read(alloc, form, bytes) {
        Ok(schema) => {
            let mut lines = Vec::new(alloc);
            for column in schema.columns {
                lines.push(column_line(alloc, column)?)?;
            }
            lines.join(alloc, " | ")
        }
        Err(IpcError::Broken(fault)) => {
            let rule = fault.rule;
            format!(in alloc; "refused {rule:?}")
        }
        Err(IpcError::Budget(_)) => String::from_str(alloc, "refused Budget"),
        Err(IpcError::OutOfMemory) => Err(AllocError),
    }
}

/// The schema in a sample of that form, written; `None` where there is none, or none that a message can hold.
fn written(alloc: Global, form: &str, bytes: &[u8]) -> Option<Vec<u8>> {
    match read(alloc, form, bytes) {
        Ok(schema) => write_schema(alloc, &schema).ok(),
        Err(_) => None,
    }
}

/// 1 where a reading ends with an answer or a named refusal.
fn ends(alloc: Global, form: &str, bytes: &[u8]) -> u64 {
    match read(alloc, form, bytes) {
        Err(IpcError::OutOfMemory) => 0,
        _ => 1,
    }
}

/// Turns bits of a byte.
fn turn(bytes: &mut [u8], i: usize, bits: u8) {
    if let Some(byte) = bytes.get_mut(i) {
        *byte ^= bits;
    }
}

/// How many readings of the sample end with an answer or a named refusal: each byte turned in two ways, and each length.
fn changed(alloc: Global, form: &str, bytes: &mut [u8]) -> u64 {
    let mut ended = 0u64;
    for i in 0..bytes.len() {
        for bits in [0xff, 0x01] {
            turn(bytes, i, bits);
            ended = ended.saturating_add(ends(alloc, form, bytes));
            turn(bytes, i, bits);
        }
        if let Some(cut) = bytes.get(..i) {
            ended = ended.saturating_add(ends(alloc, form, cut));
        }
    }
    ended
}

/// What came of the samples.
#[derive(Drop)]
struct Tally {
    right: u64,
    wrong: u64,
    written: u64,
    ended: u64,
}

/// Writes what a sample holds, if a message can hold it, and compares what is read of that; of the form `written`, also the bytes.
fn judge_written(
    rt: &HostRuntime,
    tally: &mut Tally,
    form: &str,
    bytes: &[u8],
    answer: &str,
) -> io::Result<()> {
    let alloc = rt.alloc();
    let Some(again) = written(alloc, form, bytes) else {
        return Ok(());
    };
    let found = said(alloc, "stream", again.as_slice())?;
    if found.as_str() == answer && (form != "written" || again.as_slice() == bytes) {
        tally.written = tally.written.saturating_add(1);
    } else {
        let digits = hex::encode(alloc, again)?;
        tally.wrong = tally.wrong.saturating_add(1);
        println!(rt; "written {digits}\nwanted {answer}\nfound {found}")?;
    }
    Ok(())
}

/// Reads a sample and compares, writes what it holds, and then reads it changed.
fn judge(rt: &HostRuntime, tally: &mut Tally, sample: &str, answer: &str) -> io::Result<()> {
    let alloc = rt.alloc();
    let Some((form, digits)) = sample.split_once(' ') else {
        tally.wrong = tally.wrong.saturating_add(1);
        return Ok(());
    };
    let mut bytes = hex::decode(alloc, digits).unwrap_or(Vec::new(alloc));
    let found = said(alloc, form, bytes.as_slice())?;
    if found.as_str() == answer {
        tally.right = tally.right.saturating_add(1);
    } else {
        tally.wrong = tally.wrong.saturating_add(1);
        println!(rt; "{sample}\nwanted {answer}\nfound {found}")?;
    }
    judge_written(rt, tally, form, bytes.as_slice(), answer)?;
    let ended = changed(alloc, form, bytes.as_mut_slice());
    tally.ended = tally.ended.saturating_add(ended);
    Ok(())
}

/// Judges the samples of a file.
fn judge_file(rt: &HostRuntime, tally: &mut Tally, path: &str) -> io::Result<()> {
    let text = fs::read_to_string(rt, path)?;
    let mut sample = None;
    for line in text.as_str().lines() {
        if line.starts_with('#') {
            continue;
        }
        match sample {
            None => sample = Some(line),
            Some(first) => {
                judge(rt, tally, first, line)?;
                sample = None;
            }
        }
    }
    Ok(())
}

fn run(rt: &HostRuntime) -> io::Result<bool> {
    let mut tally = Tally {
        right: 0,
        wrong: 0,
        written: 0,
        ended: 0,
    };
    judge_file(rt, &mut tally, "samples.rows")?;
    judge_file(rt, &mut tally, "written.rows")?;
    println!(rt; "{} readings of changed samples ended", tally.ended)?;
    println!(rt; "{} written and read again", tally.written)?;
    println!(rt; "{} passed, {} failed", tally.right, tally.wrong)?;
    Ok(tally.wrong == 0 && tally.right > 0)
}

fn main(rt: HostRuntime) -> ExitCode {
    match run(&rt) {
        Ok(true) => ExitCode::from(0),
        Ok(false) => ExitCode::from(1),
        Err(error) => {
            let _ = println!(rt; "{error}");
            ExitCode::from(1)
        }
    }
}
