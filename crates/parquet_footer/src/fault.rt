//! Why a footer is not read.
ghost use Rattle.std.specs.Prelude.{◌≡◌, IsTrue, OnOk, length};
ghost use Rattle.parquet_footer.specs.Fault.{broken, kept};
ghost use Rattle.parquet_footer.specs.Rules.{rule_message, rule_wanted, error_message, error_wanted};
ghost use Rattle.parquet_footer.specs.declared.fault.Stop.TheVariants as stops;

use std::alloc::{AllocError, AllocFailed};

/// A rule that the bytes break.
#[derive(Debug, Clone, Copy, PartialEq, Eq)]
pub enum FooterRule {
    /// A value ends within the bytes.
    End,
    /// A number is below 2^32 and takes at most five bytes, or ten where it is passed over.
    Number,
    /// A number of children, and an id that stands in full, are not negative.
    Negative,
    /// A text, a list, a set or a map has no more bytes or items than there are bytes left.
    Length,
    /// A value has one of the thirteen types of the protocol, and a field that is read the type of the format's table.
    WireType,
    /// Values are nested at most `LEVELS` deep.
    Depth,
    /// The id of a field is at most 32767.
    FieldId,
    /// A field that is read stands once.
    Repeated,
    /// A field that is required is there.
    Missing,
    /// A union has one field, or none.
    Union,
    /// A text is UTF-8.
    Utf8,
}

impl FooterRule {
    /// Returns what is wrong where the rule is broken.
    pub fn message(self) -> &'static str
        ensures { result.now ≡ rule_message self }
    {
        match self {
            FooterRule::End => "a value ends past the footer",
            FooterRule::Number => "a number is too large or too long",
            FooterRule::Negative => "a number is negative",
            FooterRule::Length => "a length is greater than the bytes that are left",
            FooterRule::WireType => "a field has another type",
            FooterRule::Depth => "nested too deep",
            FooterRule::FieldId => "the id of a field is too large",
            FooterRule::Repeated => "a field stands twice",
            FooterRule::Missing => "a field is missing",
            FooterRule::Union => "a union has several fields",
            FooterRule::Utf8 => "a text is not UTF-8",
        }
    }

    /// Returns what the rule asks.
    pub fn wanted(self) -> &'static str
        ensures { result.now ≡ rule_wanted self }
    {
        match self {
            FooterRule::End => "values that end within the footer",
            FooterRule::Number => {
                "a number below 2^32 in at most 5 bytes, or 10 where it is passed over"
            }
            FooterRule::Negative => "a number from 0 on",
            FooterRule::Length => "a length of at most the bytes that are left",
            FooterRule::WireType => {
                "a type of the protocol, and of a field that is read that of the format"
            }
            FooterRule::Depth => "at most 64 levels",
            FooterRule::FieldId => "an id of at most 32767",
            FooterRule::Repeated => "each field once",
            FooterRule::Missing => "each required field",
            FooterRule::Union => "a union of one field",
            FooterRule::Utf8 => "UTF-8",
        }
    }
}

/// A rule that is broken, and how many bytes are left there.
#[derive(Clone, Copy)]
pub struct Fault {
    /// How many bytes are left where it is broken.
    pub left: usize,
    /// The rule.
    pub rule: FooterRule,
}

/// The fault of a rule that is broken at the front of the bytes.
pub fn broken(rule: FooterRule, bytes: &[u8]) -> Fault
    ensures { result ≡ broken rule bytes.now }
{
    let left = bytes.len();
    Fault { left, rule }
}

/// Why a call that allocates gives nothing.
#[derive(Clone, Copy)]
pub enum Stop {
    /// A rule is broken.
    Fault(Fault),
    /// Out of memory.
    Memory,
}

impl From<Fault> for Stop {
    ghost from_gives = { λ fault stop. stop ≡ stops.Fault fault };

    fn from(fault: Fault) -> Stop {
        Stop::Fault(fault)
    }
}

impl From<AllocError> for Stop {
    ghost from_gives = { λ _ stop. stop ≡ stops.Memory };

    fn from(_refused: AllocError) -> Stop {
        Stop::Memory
    }
}

impl<T: Drop> From<AllocFailed<T>> for Stop {
    ghost from_gives = { λ _ stop. stop ≡ stops.Memory };

    fn from(_refused: AllocFailed<T>) -> Stop {
        Stop::Memory
    }
}

/// Why a footer is not read.
#[derive(Debug, Clone, Copy, PartialEq, Eq)]
pub enum FooterError {
    /// The file does not end as a Parquet file does.
    NotParquet,
    /// The footer is encrypted.
    Encrypted,
    /// The rule is broken at that offset in the footer: behind so many of its bytes.
    Invalid(FooterRule, usize),
    /// Out of memory.
    Memory,
}

impl FooterError {
    /// Returns what is wrong.
    pub fn message(self) -> &'static str
        ensures { result.now ≡ error_message self }
    {
        match self {
            FooterError::NotParquet => "another end",
            FooterError::Encrypted => "PARE",
            FooterError::Invalid(rule, _) => rule.message(),
            FooterError::Memory => "out of memory",
        }
    }

    /// Returns what is asked.
    pub fn wanted(self) -> &'static str
        ensures { result.now ≡ error_wanted self }
    {
        match self {
            FooterError::NotParquet => "PAR1 at the end",
            FooterError::Encrypted => "PAR1",
            FooterError::Invalid(rule, _) => rule.wanted(),
            FooterError::Memory => "more memory",
        }
    }
}
