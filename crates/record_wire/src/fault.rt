//! Why records are not read.
ghost use Rattle.std.specs.Prelude.{◌≡◌};
ghost use Rattle.record_wire.specs.Fault.{broken, rule_message, rule_wanted};

/// A rule of records (`docs/FORMAT.md`, 6), as what is asked.
#[derive(Clone, Copy, Debug, PartialEq, Eq)]
pub enum Rule {
    /// Records begin with how many they are, which is not 0, and four bytes 0.
    Head,
    /// A record's size is a multiple of 8, holds its eight numbers, and ends before the bytes do.
    Size,
    /// A number, a text and metadata end where the record does, at the latest.
    End,
    /// Marks are below 8, and what a structure has not takes no bytes.
    Marks,
    /// A text has a NUL behind it, and none within.
    Nul,
    /// A text is in UTF-8.
    Utf8,
    /// No more structures lie in one than stand before it and in no other, and in the last lie all.
    Count,
    /// A structure has a level of 61 at most, what lies in it has one more, and the last has 0.
    Depth,
    /// Nothing stands behind the last record.
    Rest,
    /// A format string is one of Arrow's.
    Format,
    /// A type has as many children as it must have.
    Children,
}

impl Rule {
    /// Returns what is wrong where the rule is broken.
    pub fn message(self) -> &'static str
        ensures { result.now ≡ rule_message self }
    {
        match self {
            Rule::Head => "no number of structures",
            Rule::Size => "a record without its size",
            Rule::End => "a record that is cut off",
            Rule::Marks => "unknown marks, or marks that its texts do not have",
            Rule::Nul => "a text without its end",
            Rule::Utf8 => "a text that is not UTF-8",
            Rule::Count => "a wrong number of children",
            Rule::Depth => "a wrong level, or structures that are nested too deep",
            Rule::Rest => "more behind the last structure",
            Rule::Format => "an unknown type",
            Rule::Children => "a type with a wrong number of children",
        }
    }

    /// Returns what the rule asks.
    pub fn wanted(self) -> &'static str
        ensures { result.now ≡ rule_wanted self }
    {
        match self {
            Rule::Head => "a number that is not 0, and a 0",
            Rule::Size => "a multiple of 8, from 32 to as many bytes as are left",
            Rule::End => "numbers, texts and metadata within the record",
            Rule::Marks => "marks below 8, and no bytes of what the structure has not",
            Rule::Nul => "a byte 0 behind the text, and none within",
            Rule::Utf8 => "UTF-8",
            Rule::Count => "as many children as stand before it, and all in the last",
            Rule::Depth => "at most 61 levels, each one more than that around it",
            Rule::Rest => "nothing behind the last structure",
            Rule::Format => "a format string of Arrow's C data interface",
            Rule::Children => "as many children as the type must have",
        }
    }
}

/// A rule that is broken, and in which record.
#[derive(Clone, Copy, Debug, PartialEq, Eq)]
pub struct Fault {
    /// How many bytes are left where that record begins.
    pub left: usize,
    /// The rule.
    pub rule: Rule,
}

/// Returns the fault of a rule that is broken in the record at the front of the bytes.
pub fn broken(rule: Rule, bytes: &[u8]) -> Fault
    ensures { result ≡ broken rule bytes.now }
{
    let left = bytes.len();
    Fault { left, rule }
}
