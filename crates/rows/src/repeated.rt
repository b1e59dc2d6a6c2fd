//! Texts that are spelled in short: `<<1000|,|f%>>` stands for f0 to f999 with commas between them.
//!
//! In `<<COUNT|BETWEEN|TEXT>>` each `%` of the text is the number of the repetition, from 0 on; and in `<<FIRST..END|BETWEEN|TEXT>>` from
//! the first one on. `BETWEEN` may be empty, and has no `|`. The text has no `<<` and no `>>`.
use crate::said::Said;
use crate::texts::split;
use std::alloc::Global;

/// Says a text with a number in the place of each `%`.
fn say_numbered(said: &mut Said, text: &str, number: u32) {
    let mut parts = text.split('%');
    said.push(parts.next().unwrap_or(""));
    for part in parts {
        said.shown(&number);
        said.push(part);
    }
}

/// Says a text so many times.
fn say_times(said: &mut Said, (first, end): (u32, u32), between: &str, text: &str) {
    for number in first..end {
        if number > first {
            said.push(between);
        }
        say_numbered(said, text, number);
    }
}

/// The number that a text spells.
fn number(said: &mut Said, text: &str) -> u32 {
    said.found(text.parse::<u32>().ok(), 0)
}

/// Says the text that `COUNT|BETWEEN|TEXT>>`, and what stands behind it, stands for.
fn say_repeated(said: &mut Said, text: &str) {
    let (inside, rest) = split(said, text, ">>");
    let (count, inside) = split(said, inside, "|");
    let (between, text) = split(said, inside, "|");
    let (first, end) = count.split_once("..").unwrap_or(("0", count));
    let numbers = (number(said, first), number(said, end));
    say_times(said, numbers, between, text);
    said.push(rest);
}

/// The text that one stands for; it is lacking where it is spelled otherwise.
pub fn expanded(alloc: Global, text: &str) -> Said {
    let mut said = Said::new(alloc);
    let mut parts = text.split("<<");
    said.push(parts.next().unwrap_or(""));
    for part in parts {
        say_repeated(&mut said, part);
    }
    said
}
