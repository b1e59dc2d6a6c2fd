//! A run of a program of rows.
use crate::faults;
use crate::judging::{Layers, Tally, judge};
use crate::said::Said;
use std::io::Write;
use std::process::ExitCode;
use std::{env, fs, io};

/// Whether the program's argument is `faults`.
fn is_faults(rt: &HostRuntime) -> io::Result<bool> {
    match env::args(rt)?.nth(1) {
        Some(word) => Ok(word.as_str() == "faults"),
        None => Ok(false),
    }
}

/// Adds the files in a folder.
fn add_files(rt: &HostRuntime, files: &mut Vec<String>, folder: &str) -> io::Result<()> {
    for entry in fs::read_dir(rt, folder)? {
        files.push([folder, "/", entry?.file_name()].concat(rt.alloc())?)?;
    }
    Ok(())
}

/// Judges the rows of a file, and prints what is said of them.
fn judge_file<L: Layers>(rt: &HostRuntime, tally: &mut Tally, file: &str) -> io::Result<()> {
    let text = fs::read(rt, file).unwrap_or(Vec::new(rt.alloc()));
    let mut report = Said::new(rt.alloc());
    judge::<L>(&mut report, tally, file, text.as_slice());
    rt.stdout().write_all(report.text.as_bytes())
}

/// Judges the rows of all files, in the order of their names.
fn judge_all<L: Layers>(rt: &HostRuntime, tally: &mut Tally) -> io::Result<()> {
    let mut files = Vec::new(rt.alloc());
    for layer in L::NAMES {
        add_files(rt, &mut files, layer)?;
    }
    files.sort_unstable();
    for file in &files {
        judge_file::<L>(rt, tally, file.as_str())?;
    }
    Ok(())
}

/// Judges the rows, and prints how many are right and how many are wrong. Whether all are right.
fn run<L: Layers>(rt: &HostRuntime) -> io::Result<bool> {
    let mut tally = Tally::new(is_faults(rt)?);
    if tally.is_faults && !faults::are_refused(rt.alloc()) {
        println!(rt; "no request is refused: bin/faults starts this over a library that does so")?;
        tally.wrong = 1;
    } else {
        judge_all::<L>(rt, &mut tally)?;
    }
    println!(rt; "{} passed, {} failed", tally.right, tally.wrong)?;
    Ok(tally.wrong == 0 && tally.right > 0)
}

/// Judges the rows of a program, and prints what is said of them. The status is 0 exactly where all are right, and there are some.
pub fn judge_rows<L: Layers>(rt: &HostRuntime) -> ExitCode {
    match run::<L>(rt) {
        Ok(true) => ExitCode::from(0),
        Ok(false) => ExitCode::from(1),
        Err(error) => {
            let _ = println!(rt; "{error}");
            ExitCode::from(1)
        }
    }
}
