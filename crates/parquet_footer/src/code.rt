//! What may be found in a footer that is read: codes, with their severities and words.
ghost use Rattle.std.specs.Prelude.{◌≡◌};
ghost use Rattle.parquet_footer.specs.Codes.{severity_text, code_of, severity_of, part_of, rule_of, expected_of, help_of};

/// How much a finding weighs.
#[derive(Clone, Copy, Debug, PartialEq, Eq)]
pub enum Severity {
    /// The file breaks a rule of its format, or contradicts itself.
    Error,
    /// The file keeps the rules, and readers may take it otherwise than it is meant.
    Warning,
    /// What is worth to know, and nothing is to be done.
    Note,
}

impl Severity {
    /// Returns the word of the severity, as reports have it: `error`, `warning` or `note`.
    pub fn text(self) -> &'static str
        ensures { result.now ≡ severity_text self }
    {
        match self {
            Self::Error => "error",
            Self::Warning => "warning",
            Self::Note => "note",
        }
    }
}

/// What is wrong with a footer that is read (`docs/FORMAT.md`, 4.3).
#[derive(Clone, Copy, Debug, PartialEq, Eq)]
pub enum FooterCode {
    /// The name of an element is not UTF-8.
    NameNotText,
    /// A key, or the value of a key that is not used here, is not UTF-8.
    KeyNotText,
}

impl FooterCode {
    /// Returns the code, as reports have it.
    ///
    /// ```rust
    /// assert_eq!(rt; FooterCode::KeyNotText.code(), "KeyNotText");
    /// ```
    pub fn code(self) -> &'static str
        ensures { result.now ≡ code_of self }
    {
        match self {
            Self::NameNotText => "NameNotText",
            Self::KeyNotText => "KeyNotText",
        }
    }

    /// Returns how much a finding of the code weighs.
    pub fn severity(self) -> Severity
        ensures { result ≡ severity_of self }
    {
        match self {
            Self::NameNotText => Severity::Error,
            Self::KeyNotText => Severity::Note,
        }
    }

    /// Returns the part of a Parquet file in which a finding of the code is, as reports have it:
    /// `elements` or `footer`. Its byte is one of the footer in both.
    pub fn part(self) -> &'static str
        ensures { result.now ≡ part_of self }
    {
        match self {
            Self::NameNotText => "elements",
            Self::KeyNotText => "footer",
        }
    }

    /// Returns when the code is found.
    pub fn rule(self) -> &'static str
        ensures { result.now ≡ rule_of self }
    {
        match self {
            Self::NameNotText => "the name of an element is not UTF-8",
            Self::KeyNotText => "a key, or the value of a key that is not used here, is not UTF-8",
        }
    }

    /// Returns what is expected where the code is found.
    pub fn expected(self) -> &'static str
        ensures { result.now ≡ expected_of self }
    {
        match self {
            Self::NameNotText => "UTF-8",
            Self::KeyNotText => "UTF-8",
        }
    }

    /// Returns what helps.
    pub fn help(self) -> &'static str
        ensures { result.now ≡ help_of self }
    {
        match self {
            Self::NameNotText => {
                "The name is shown with U+FFFD for what is not UTF-8, and no key names the column."
            }
            Self::KeyNotText => "It is passed over.",
        }
    }
}
