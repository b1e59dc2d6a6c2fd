//! What the words ask.
use crate::codes::{codes_text, explained, no_code};
use crate::command::command;
use crate::flags::{excluded, flags_of};
use crate::terminal::{Terminal, color_of, screen_of};
use crate::weights::weights_of;
use clap::error::ErrorKind;
use clap::{ArgMatches, Error};
use file_check::{Asked, Flags, Want};
use std::alloc::{AllocError, Global};

/// What is said in place of a report.
#[derive(Debug, Drop)]
pub struct Said {
    /// The lines: the help, the version, codes, or why the words are refused.
    pub text: String,
    /// Whether the words are refused.
    pub is_refusal: bool,
}

impl Said {
    /// What clap says. Errs only when out of memory.
    fn of(alloc: Global, error: &Error) -> Result<Said, AllocError> {
        if error.kind() == ErrorKind::OutOfMemory {
            return Err(AllocError);
        }
        Ok(Said {
            text: format!(in alloc; "{error}")?,
            is_refusal: error.use_stderr(),
        })
    }
}

/// Returns what the words behind the name of the program ask; or the help, the version or codes,
/// where these are asked for; or why the words are refused, with `?` in place of their control
/// characters. What is known of the output is `terminal`. Errs only when out of memory.
///
/// ```rust
/// let pipe = Terminal { is_there: false, is_plain: false, columns: None };
/// let words = vec![in alloc; String::from_str(alloc, "--ipc")?, String::from_str(alloc, "-")?]?;
/// let asked = asked_by(alloc, words.as_slice(), pipe)?;
/// assert!(rt; matches!(asked, Ok(asked) if asked.flags.ipc && asked.files.len() == 1));
/// let words = vec![in alloc; String::from_str(alloc, "--explain=GeoEpoch")?]?;
/// let said = asked_by(alloc, words.as_slice(), pipe)?;
/// assert!(rt; matches!(said, Err(said) if said.text.as_str().starts_with("error[GeoEpoch]: ")));
/// ```
pub fn asked_by(
    alloc: Global,
    words: &[String],
    terminal: Terminal,
) -> Result<Result<Asked, Said>, AllocError> {
    match read_words(alloc, words, terminal)? {
        Err(said) if said.is_refusal => {
            read_words(alloc, shown(alloc, words)?.as_slice(), terminal)
        }
        read => Ok(read),
    }
}

/// The words with `?` in place of each control character: they are refused where the words are, and
/// change nothing of a terminal.
fn shown(alloc: Global, words: &[String]) -> Result<Vec<String>, AllocError> {
    let mut shown = Vec::new(alloc);
    for word in words {
        let characters = word.as_str().chars();
        let text = characters.map(|it| if it.is_control() { '?' } else { it });
        shown.push(text.collect(alloc)?)?;
    }
    Ok(shown)
}

/// What the words ask, or what is said in place of a report.
fn read_words(
    alloc: Global,
    words: &[String],
    terminal: Terminal,
) -> Result<Result<Asked, Said>, AllocError> {
    let mut command = command(alloc)?;
    let matches = match command.try_get_matches_from_mut(words) {
        Ok(matches) => matches,
        Err(error) => return Ok(Err(Said::of(alloc, &error)?)),
    };
    if let Some(text) = codes_asked(alloc, &matches)? {
        return Ok(Err(Said {
            text,
            is_refusal: false,
        }));
    }
    let reason = match asked_of(alloc, &matches, terminal)? {
        Ok(asked) => return Ok(Ok(asked)),
        Err(reason) => reason,
    };
    let error = command.error(ErrorKind::ValueValidation, reason.as_str())?;
    Ok(Err(Said::of(alloc, &error)?))
}

/// The codes that are asked for: all, or one that is known.
fn codes_asked(alloc: Global, matches: &ArgMatches<'_>) -> Result<Option<String>, AllocError> {
    if matches.get_flag("codes") {
        return Ok(Some(codes_text(alloc)?));
    }
    match matches.get_str("explain") {
        Some(word) => explained(alloc, word),
        None => Ok(None),
    }
}

/// What is asked; or why it cannot be done.
fn asked_of(
    alloc: Global,
    matches: &ArgMatches<'_>,
    terminal: Terminal,
) -> Result<Result<Asked, String>, AllocError> {
    if let Some(word) = matches.get_str("explain") {
        return Ok(Err(no_code(alloc, word)?));
    }
    let wants = match wants_of(alloc, matches)? {
        Ok(wants) => wants,
        Err(reason) => return Ok(Err(reason)),
    };
    let weights = match weights_of(alloc, matches)? {
        Ok(weights) => weights,
        Err(reason) => return Ok(Err(reason)),
    };
    let mut files = Vec::new(alloc);
    for word in matches.get_strs("FILE").unwrap_or(&[]) {
        files.push(String::from_str(alloc, word)?)?;
    }
    let flags = flags_of(matches);
    if let Some(reason) = excluded(flags) {
        return Ok(Err(String::from_str(alloc, reason)?));
    }
    if let Some(reason) = no_stream(flags, files.len(), terminal) {
        return Ok(Err(String::from_str(alloc, reason)?));
    }
    Ok(Ok(Asked {
        flags,
        weights,
        wants,
        files,
        screen: screen_of(color_of(matches), terminal),
    }))
}

/// Why no stream is printed of so many files, where one is asked for.
fn no_stream(flags: Flags, files: usize, terminal: Terminal) -> Option<&'static str> {
    if flags.ipc && files > 1 {
        return Some("--ipc takes one file");
    }
    if flags.ipc && terminal.is_there {
        return Some("--ipc prints bytes, and the output is a terminal");
    }
    None
}

/// What columns are expected to hold; or why a word cannot be read.
fn wants_of(
    alloc: Global,
    matches: &ArgMatches<'_>,
) -> Result<Result<Vec<Want>, String>, AllocError> {
    let mut wants = Vec::new(alloc);
    for word in matches.get_strs("expect").unwrap_or(&[]) {
        match word.split_once('=') {
            Some((_, want)) if want.split(',').any(|part| part.is_empty()) => {
                return Ok(Err(format!(in alloc; "a part of WANT is empty in '{word}'")?));
            }
            Some((column, want)) => wants.push(Want {
                column: String::from_str(alloc, column)?,
                want: String::from_str(alloc, want)?,
            })?,
            None => return Ok(Err(format!(in alloc; "'{word}' is no COLUMN=WANT")?)),
        }
    }
    Ok(Ok(wants))
}
