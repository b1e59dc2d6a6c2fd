//! What is said, a part at a time.
use crate::say;
use arrow_values::{ArrowError, Field, GeoArrowError};
use field_lines::field_line;
use std::alloc::{AllocError, Global};
use std::fmt::{Debug, Display};
use std::mem::forget;

/// A text that remembers whether a part of it is lacking, since it was out of memory or had no answer. So saying cannot fail.
#[derive(Drop)]
pub struct Said {
    pub alloc: Global,
    /// What is said.
    pub text: String,
    /// Whether a part is lacking.
    pub is_lacking: bool,
}

/// Says what `format!` would make.
#[macro_export]
macro_rules! say {
    ($said:expr, $($part:tt)*) => {{
        let done = write!($said.text, $($part)*);
        $said.note(done);
    }};
}

impl Said {
    /// Nothing as yet.
    pub fn new(alloc: Global) -> Said {
        Said {
            alloc,
            text: String::new(alloc),
            is_lacking: false,
        }
    }

    /// Has no answer.
    pub fn fail(&mut self) {
        self.is_lacking = true;
    }

    /// Remembers whether a part could not be said.
    pub fn note(&mut self, done: Result<(), AllocError>) {
        if done.is_err() {
            self.is_lacking = true;
        }
    }

    /// What is found; where nothing is, there is no answer, and the other stands in its place.
    pub fn found<T: Copy>(&mut self, found: Option<T>, other: T) -> T {
        match found {
            Some(found) => found,
            None => {
                self.fail();
                other
            }
        }
    }

    /// A text of its own; an empty one when out of memory.
    pub fn owned(&mut self, text: &str) -> String {
        match String::from_str(self.alloc, text) {
            Ok(text) => text,
            Err(AllocError) => {
                self.fail();
                String::new(self.alloc)
            }
        }
    }

    /// A text with one in the place of another; an empty one when out of memory.
    pub fn replaced(&mut self, text: &str, old: &str, new: &str) -> String {
        match text.replace(self.alloc, old, new) {
            Ok(text) => text,
            Err(AllocError) => {
                self.fail();
                String::new(self.alloc)
            }
        }
    }

    /// Puts an item behind the others.
    pub fn put<T: Drop>(&mut self, items: &mut Vec<T>, item: T) {
        if let Err(failed) = items.push(item) {
            forget(failed);
            self.fail();
        }
    }

    /// Says a text.
    pub fn push(&mut self, text: &str) {
        let done = self.text.push_str(text);
        self.note(done);
    }

    /// Says a text that a call has made.
    pub fn made(&mut self, made: Result<String, AllocError>) {
        match made {
            Ok(made) => self.push(made.as_str()),
            Err(AllocError) => self.fail(),
        }
    }

    /// Says `true` or `false`.
    pub fn truth(&mut self, truth: bool) {
        self.push(if truth { "true" } else { "false" });
    }

    /// Says a value as it prints itself.
    pub fn shown<T: Display>(&mut self, value: &T) {
        say!(self, "{value}");
    }

    /// Says a value by its name.
    pub fn name<T: Debug>(&mut self, value: &T) {
        say!(self, "{value:?}");
    }

    /// Says a value by its name, or `none`.
    pub fn name_or_none<T: Debug>(&mut self, value: &Option<T>) {
        match value {
            Some(value) => self.name(value),
            None => self.push("none"),
        }
    }

    /// Says what an error prints; out of memory is no answer.
    pub fn refusal(&mut self, error: &ArrowError) {
        match error {
            ArrowError::OutOfMemory => self.fail(),
            error => self.shown(error),
        }
    }

    /// Says what an error of GeoArrow prints.
    pub fn geoarrow_refusal(&mut self, error: &GeoArrowError) {
        match error {
            GeoArrowError::Arrow(error) => self.refusal(error),
            error => self.shown(error),
        }
    }

    /// Says the line of a field.
    pub fn line(&mut self, field: &Field) {
        let line = field_line(self.alloc, field);
        self.made(line);
    }

    /// Says the line of a field that was made, or what the refusal prints.
    pub fn line_or_refusal(&mut self, made: &Result<Field, ArrowError>) {
        match made {
            Ok(field) => self.line(field),
            Err(error) => self.refusal(error),
        }
    }

    /// Says bytes, those that are no ASCII as escapes.
    pub fn bytes(&mut self, bytes: &[u8]) {
        for &byte in bytes {
            if byte.is_ascii() {
                let done = self.text.push(char::from(byte));
                self.note(done);
            } else {
                say!(self, "\\x{byte:02x}");
            }
        }
    }
}
