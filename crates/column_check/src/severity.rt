//! Severities, as words and as tests.
ghost use Rattle.std.specs.Prelude.{◌≡◌};
ghost use Rattle.column_check.specs.Severities.{severity_text, is_error_of, is_note_of};

use crate::code::Severity;

impl Severity {
    /// Returns the severity as a word: `error`, `warning` or `note`.
    ///
    /// ```rust
    /// assert_eq!(rt; Severity::Note.word(), "note");
    /// ```
    pub fn word(self) -> &'static str
        ensures { result.now ≡ severity_text self }
    {
        match self {
            Self::Error => "error",
            Self::Warning => "warning",
            Self::Note => "note",
        }
    }

    /// Returns whether a finding of it is an error: the file breaks a rule of its format, or
    /// contradicts itself.
    pub fn is_error(self) -> bool
        ensures { result ≡ is_error_of self }
    {
        matches!(self, Self::Error)
    }

    /// Returns whether a finding of it is a note, which is said only where notes are asked for.
    pub fn is_note(self) -> bool
        ensures { result ≡ is_note_of self }
    {
        matches!(self, Self::Note)
    }
}
