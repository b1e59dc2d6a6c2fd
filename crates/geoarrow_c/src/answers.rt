//! The answers to lines.
ghost use Rattle.std.specs.Prelude.{◌≡◌, ◌↔◌, ◌<◌, ◌≤◌, [], MatchOption};
ghost use Rattle.geoarrow_fields.specs.Lines.{lines_of, IsWithinLimits};
ghost use Rattle.geoarrow_fields.specs.Answer.{Means};
ghost use Rattle.geoarrow_c.specs.Buffer.{Fills, Lacks};
ghost use Rattle.geoarrow_c.specs.Calls.{number_of, Gives, RunGives};

use crate::buffer::fill;
use crate::status::{LIMIT, MEMORY, UNKNOWN};
use geoarrow_fields::{Command, RunEnd, answer_line, is_within_limits, run};
use std::alloc::Global;

/// The command of a number: 0 `read`, 1 `infer`, 2 `canon`, 3 `columns`.
fn command_of(number: u8) -> Option<Command>
    ensures { MatchOption result (3 < number) (λ c. (number ≡ number_of c) × (number ≤ 3)) }
{
    match number {
        0 => Some(Command::Read),
        1 => Some(Command::Infer),
        2 => Some(Command::Canon),
        3 => Some(Command::Columns),
        _ => None,
    }
}

/// Writes the answer to one line under the command of a number, without a line feed
/// (docs/FORMAT.md, 2.2), to the front of `out`, and its length to `len`. The numbers of the
/// commands: 0 `read`, 1 `infer`, 2 `canon`, 3 `columns`.
///
/// Returns 0; 1 where `out` is too small: it is then unchanged, and `len` says what is needed; 2
/// when out of memory; 3 where the number is that of no command. With 2 and 3 both are unchanged.
#[unsafe(no_mangle)]
pub extern "C" fn geoarrow_answer(
    alloc: Global,
    command: u8,
    line: &[u8],
    out: &mut [u8],
    len: &mut usize,
) -> u8
    ensures done { result ≡ 0 → Gives command line.now len.new (λ answer. Fills answer out.old out.new) }
    ensures short { result ≡ 1 → Gives command line.now len.new (λ answer. Lacks answer out.old out.new) }
    ensures unchanged { 2 ≤ result → (out.new ≡ out.old) × (len.new ≡ len.old) }
    ensures unknown { (result ≡ 3) ↔ (3 < command) }
    ensures status { result ≤ 3 }
{
    let Some(command) = command_of(command) else {
        return UNKNOWN;
    };
    match answer_line(alloc, command, line) {
        Ok(answer) => fill(answer.as_bytes(), out, len),
        Err(_) => MEMORY,
    }
}

/// Runs a command over an input, and writes to an empty vector. Returns how the run ended.
#[tactic(auto, using(crate::proofs::Runs::all_read))]
fn run_over(alloc: Global, command: Command, input: &[u8], written: &mut Vec<u8>) -> RunEnd
    requires { written.old.items ≡ [] }
    ensures { result ≡ RunEnd.Done → Means command RunEnd.Done input.now written.new.items }
{
    let mut reader = input;
    run(alloc, command, &mut reader, written)
}

/// Writes the answers to all lines of an input, each with its line feed, as [`geoarrow_answer`]
/// writes that to one. Returns 4 where the input is past a limit (docs/FORMAT.md, 2.3), with `out`
/// and `len` unchanged.
#[unsafe(no_mangle)]
pub extern "C" fn geoarrow_run(
    alloc: Global,
    command: u8,
    input: &[u8],
    out: &mut [u8],
    len: &mut usize,
) -> u8
    ensures done { result ≡ 0 → RunGives command input.now len.new (λ output. Fills output out.old out.new) }
    ensures short { result ≡ 1 → RunGives command input.now len.new (λ output. Lacks output out.old out.new) }
    ensures unchanged { 2 ≤ result → (out.new ≡ out.old) × (len.new ≡ len.old) }
    ensures unknown { (result ≡ 3) ↔ (3 < command) }
    ensures limit { (result ≡ 4) ↔ ((command ≤ 3) × ¬ IsWithinLimits (lines_of input.now)) }
    ensures status { result ≤ 4 }
{
    let Some(command) = command_of(command) else {
        return UNKNOWN;
    };
    if !is_within_limits(input) {
        return LIMIT;
    }
    let mut written = Vec::new(alloc);
    match run_over(alloc, command, input, &mut written) {
        RunEnd::Done => fill(written.as_slice(), out, len),
        RunEnd::Memory | RunEnd::InputFault | RunEnd::OutputFault => MEMORY,
    }
}
