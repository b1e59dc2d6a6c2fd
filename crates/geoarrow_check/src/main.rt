//! The program: says what each column of the files that it is given holds, in a table or as lines of JSON.
#![tactic(auto)]

mod command_line;
mod sources;

use check_options::{Said, Terminal, asked_by};
use column_files::{Form, ReadFault};
use command_line::CommandLine;
use file_check::{
    Asked, Tally, begin_output, check_file, check_source, compare_columns, end_file, end_output,
    refuse,
};
use sources::Sources;
use std::io::{ErrorKind, IsTerminal, Write};
use std::process::ExitCode;
use std::{env, fs, io};

/// Reports a file; or says why it cannot be read. `-` is standard input. Returns the status.
fn check(rt: &HostRuntime, file: &str, asked: &Asked, tally: &mut Tally) -> io::Result<u8> {
    let (alloc, mut out, mut err) = (rt.alloc(), rt.stdout(), rt.stderr());
    if file == "-" {
        return check_source(alloc, asked, file, rt.stdin(), tally, &mut out, &mut err);
    }
    match fs::File::open(rt, file) {
        Ok(source) => check_file(alloc, asked, file, source, tally, &mut out, &mut err),
        Err(error) => cannot_read(rt, file, error, asked, tally),
    }
}

/// Says that the system does not give a file or a folder. Returns the status.
fn cannot_read(
    rt: &HostRuntime,
    file: &str,
    error: io::Error,
    asked: &Asked,
    tally: &mut Tally,
) -> io::Result<u8> {
    let (alloc, mut out, mut err) = (rt.alloc(), rt.stdout(), rt.stderr());
    let (form, fault) = (Form::Lines, ReadFault::Input(error));
    refuse(alloc, asked, file, form, fault, tally, &mut out, &mut err)
}

/// Compares the columns of a file that was read with those of the first one, with `--same`. Returns
/// the status.
fn compare(rt: &HostRuntime, file: &str, asked: &Asked, tally: &mut Tally) -> io::Result<u8> {
    let (alloc, mut out, mut err) = (rt.alloc(), rt.stdout(), rt.stderr());
    compare_columns(alloc, asked, file, tally, &mut out, &mut err)
}

/// What is known of standard output.
fn known_of_output(rt: &HostRuntime) -> Terminal {
    Terminal {
        is_there: rt.stdout().is_terminal(),
        is_plain: env::var(rt, "NO_COLOR").is_ok_and(|it| !it.is_empty()),
        columns: match env::var(rt, "COLUMNS") {
            Ok(columns) => columns.as_str().parse().ok(),
            Err(_) => None,
        },
    }
}

/// Does what the words ask. The status is that so far, also where it errs.
fn run(rt: &HostRuntime, status: &mut u8) -> io::Result<()> {
    let line = CommandLine::of(rt)?;
    match asked_by(rt.alloc(), line.words.as_slice(), known_of_output(rt))? {
        Ok(asked) => check_words(rt, asked, line.not_text.as_slice(), status),
        Err(said) => say(rt, &said, status),
    }
}

/// Reports the files that the words stand for. A word that is not UTF-8 names no file that can be
/// opened.
fn check_words(
    rt: &HostRuntime,
    asked: Asked,
    not_text: &[String],
    status: &mut u8,
) -> io::Result<()> {
    let mut asked = asked;
    let mut sources = Sources::of(rt, asked.files.as_slice(), not_text)?;
    if asked.flags.ipc && sources.files.len() != 1 {
        *status = 2;
        return eprintln!(rt; "geoarrow_check: --ipc takes one file");
    }
    asked.files = sources.take_files(rt);
    check_all(rt, &asked, &mut sources, status)
}

/// Reports the files.
fn check_all(
    rt: &HostRuntime,
    asked: &Asked,
    sources: &mut Sources,
    status: &mut u8,
) -> io::Result<()> {
    let mut tally = Tally::new(rt.alloc());
    begin_output(asked, &mut rt.stdout())?;
    for file in &asked.files {
        let name = file.as_str();
        let read = match sources.take_error(name) {
            Some(error) => cannot_read(rt, name, error, asked, &mut tally)?,
            None => check(rt, name, asked, &mut tally)?,
        };
        *status = read.max(*status);
        let read = compare(rt, name, asked, &mut tally)?.max(read);
        *status = read.max(*status);
        end_file(rt.alloc(), asked, name, &mut tally, read, &mut rt.stdout())?;
    }
    end_output(rt.alloc(), asked, &tally, *status, &mut rt.stdout())
}

/// Says what is said in place of a report.
fn say(rt: &HostRuntime, said: &Said, status: &mut u8) -> io::Result<()> {
    if said.is_refusal {
        *status = 2;
        return rt.stderr().write_all(said.text.as_bytes());
    }
    rt.stdout().write_all(said.text.as_bytes())
}

/// Says why the output fails, unless nobody reads it any more. Returns the status, which was that
/// so far.
fn failed(rt: &HostRuntime, error: &io::Error, status: u8) -> u8 {
    if error.kind() == ErrorKind::BrokenPipe {
        return status;
    }
    let _ = eprintln!(rt; "geoarrow_check: {error}");
    2
}

fn main(rt: HostRuntime) -> ExitCode {
    let mut status = 0;
    match run(&rt, &mut status) {
        Ok(()) => ExitCode::from(status),
        Err(error) => ExitCode::from(failed(&rt, &error, status)),
    }
}
