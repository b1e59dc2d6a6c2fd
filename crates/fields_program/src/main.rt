//! The program: [`geoarrow_fields::answer_all`] over standard input and output.
#![tactic(auto)]

use geoarrow_fields::{answer_all, exit_status};
use std::alloc::AllocError;
use std::env;
use std::io::{ErrorKind, Write};
use std::process::ExitCode;

/// The words after the program's name; no words if one of them is not UTF-8.
fn words_of(rt: &HostRuntime) -> Result<Vec<String>, AllocError> {
    let mut found = Vec::new(rt.alloc());
    match env::args(rt) {
        Ok(words) => {
            for word in words.skip(1) {
                found.push(word)?;
            }
        }
        Err(error) if error.kind() == ErrorKind::OutOfMemory => return Err(AllocError),
        Err(_) => {}
    }
    Ok(found)
}

fn main(rt: HostRuntime) -> ExitCode {
    let (mut input, mut output, mut errors) = (rt.stdin(), rt.stdout(), rt.stderr());
    let Ok(words) = words_of(&rt) else {
        let _ = output.write_all(b"error memory\n");
        return ExitCode::from(1);
    };
    let end = answer_all(
        rt.alloc(),
        words.as_slice(),
        &mut input,
        &mut output,
        &mut errors,
    );
    ExitCode::from(exit_status(end))
}
