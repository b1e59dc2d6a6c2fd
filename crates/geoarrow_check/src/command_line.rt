//! The words of the command line.
use std::env::{Env, FillError};
use std::io;

/// The words of the command line.
#[derive(Drop)]
pub(crate) struct CommandLine {
    /// The words; of one that is not UTF-8, each byte of what is none as `\xff`.
    pub(crate) words: Vec<String>,
    /// Those of them that are not UTF-8.
    pub(crate) not_text: Vec<String>,
}

impl CommandLine {
    /// Returns the words behind the name of the program. Errs only when out of memory.
    pub(crate) fn of(rt: &HostRuntime) -> io::Result<CommandLine> {
        let mut line = CommandLine {
            words: Vec::new(rt.alloc()),
            not_text: Vec::new(rt.alloc()),
        };
        let mut buffer = Vec::new(rt.alloc());
        buffer.resize(4096, 0)?;
        for place in 1..usize::MAX {
            let Some(len) = fill_word(rt, place, &mut buffer)? else {
                break;
            };
            if let Some(word) = buffer.get(..len) {
                line.push(rt, word)?;
            }
        }
        Ok(line)
    }

    /// Adds a word.
    fn push(&mut self, rt: &HostRuntime, word: &[u8]) -> io::Result<()> {
        let mut text = String::new(rt.alloc());
        let mut is_text = true;
        for chunk in word.utf8_chunks() {
            text.push_str(chunk.valid())?;
            for byte in chunk.invalid() {
                is_text = false;
                push_byte(&mut text, *byte)?;
            }
        }
        if !is_text {
            self.not_text
                .push(String::from_str(rt.alloc(), text.as_str())?)?;
        }
        self.words.push(text)?;
        Ok(())
    }
}

/// Writes the word at a place to the buffer, which grows until it has room. Returns the word's
/// length, or none where there is no word.
fn fill_word(rt: &HostRuntime, place: usize, buffer: &mut Vec<u8>) -> io::Result<Option<usize>> {
    for _ in 0..u64::MAX {
        match rt.arg(place, buffer.as_mut_slice()) {
            Ok(len) => return Ok(Some(len)),
            Err(FillError::NotPresent) => return Ok(None),
            Err(FillError::TooLong) => {
                let more = buffer.len().saturating_mul(2);
                buffer.resize(more, 0)?;
            }
        }
    }
    Ok(None)
}

/// Adds a byte as `\xff`.
fn push_byte(text: &mut String, byte: u8) -> io::Result<()> {
    text.push_str("\\x")?;
    for digit in [byte / 16, byte % 16] {
        let letter = if digit < 10 {
            b'0' + digit
        } else {
            b'a' - 10 + digit
        };
        text.push(char::from(letter))?;
    }
    Ok(())
}
