//! Whole runs over lines with ` | ` between them, behind the word of a command.
use geoarrow_fields::{Command, RunEnd, command_of, run, serve};
use rows::asked::Asked;
use rows::say;
use rows::texts::first_word;
use std::alloc::Global;

/// What a run writes last when out of memory, after the answers to some first lines.
const OUT_OF_MEMORY: &str = "error memory | ";

/// What a run of a command answers, and writes; none where there is no such command.
fn run_over(
    alloc: Global,
    call: &str,
    words: &[String],
    input: &str,
    written: &mut Vec<u8>,
) -> Option<RunEnd> {
    let mut input = input.as_bytes();
    if call == "serve" {
        return serve(alloc, words, &mut input, written);
    }
    let command: Command = command_of(words)?;
    Some(run(alloc, command, &mut input, written))
}

/// Whether what is said of a run that was out of memory is the answers to some first lines, of all that are wanted, and then so.
fn is_cut_off(said: &str, wanted: &str) -> bool {
    match (said.strip_suffix(OUT_OF_MEMORY), wanted.split_once(' ')) {
        (Some(answers), Some((_, wanted))) => {
            wanted.starts_with(answers) && (answers.is_empty() || answers.ends_with(" | "))
        }
        _ => false,
    }
}

/// Says how a run ends and what it writes, with ` | ` in the place of line feeds. Out of memory is no answer where the run has
/// written some first answers of those that are wanted, and that it is out of memory.
pub fn answer(it: &mut Asked<'_>) {
    let (word, lines) = first_word(&mut it.said, it.text);
    let words = [it.said.owned(word)];
    let input = it.said.replaced(lines, " | ", "\n");
    let mut written = Vec::new(it.alloc);
    it.said.note(written.reserve(4096));
    let end = run_over(it.alloc, it.command, &words, input.as_str(), &mut written);
    let written = it.said.found(str::from_utf8(written.as_slice()).ok(), "");
    let written = it.said.replaced(written, "\n", " | ");
    if let Some(RunEnd::Memory) = end
        && is_cut_off(written.as_str(), it.wanted)
    {
        it.said.fail();
    }
    say!(it.said, "{end:?} {written}");
}
