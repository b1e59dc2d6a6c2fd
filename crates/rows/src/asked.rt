//! A question while it is answered.
use crate::memory::{refuse, was_refused};
use crate::said::Said;
use std::alloc::Global;

/// More bytes than are said of an unaided row.
const ROOM: usize = 65_536;

/// What is asked, and what is said to it.
#[derive(Drop)]
pub struct Asked<'a> {
    pub alloc: Global,
    /// The word before the first space.
    pub command: &'a str,
    /// What stands behind it.
    pub bytes: &'a [u8],
    /// What stands behind it as a text; empty where it is none.
    pub text: &'a str,
    /// The answer of the row; empty where it is no text.
    pub wanted: &'a str,
    /// The answer that is found.
    pub said: Said,
    /// Whether the call that the row is about is to make no request for memory.
    pub is_unaided: bool,
    /// Whether it was made so.
    pub was_called: bool,
    /// Whether it made a request nevertheless.
    pub was_aided: bool,
}

impl<'a> Asked<'a> {
    /// Whether what stands behind the command is a text.
    pub fn is_text(&self) -> bool {
        self.text.len() == self.bytes.len()
    }

    /// Stands before the call that the row is about. There is room for its answer, so that saying that makes no request.
    pub fn before(&mut self) {
        if self.is_unaided {
            let done = self.said.text.reserve(ROOM);
            self.said.note(done);
            refuse(self.alloc, 1);
        }
    }

    /// Stands behind it.
    pub fn after(&mut self) {
        if self.is_unaided {
            self.was_called = true;
            self.was_aided = was_refused(self.alloc) || self.was_aided;
        }
    }

    /// Says that there is no such command, which is the right answer to no row.
    pub fn no_command(&mut self) {
        self.said.push("nothing: no such command");
    }

    /// Whether the call made no request, if it was to make none.
    pub fn is_fair(&self) -> bool {
        !self.is_unaided || self.was_called && !self.was_aided
    }
}
