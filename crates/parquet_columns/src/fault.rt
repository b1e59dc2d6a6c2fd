//! Why a schema has no columns.
ghost use Rattle.std.specs.Prelude.{◌≡◌};
ghost use Rattle.parquet_columns.specs.Rules.{rule_message, rule_wanted};
ghost use Rattle.parquet_columns.specs.declared.fault.ColumnsError.TheVariants.{Broken, OutOfMemory};

use std::alloc::{AllocError, AllocFailed};

/// A rule of the schema (`docs/FORMAT.md`, 4.4), as what is wrong where it is broken.
#[derive(Clone, Copy, Debug, PartialEq, Eq)]
pub enum SchemaRule {
    /// The first element is the root, a group.
    Root,
    /// The children of the root, with all that is below them, are the elements behind it: they are
    /// as many as the root says, and below each there are as many as it and those below it say.
    Children,
    /// An element below the root is a leaf, which says how its values are stored and has no
    /// children, or a group, which says how many it has.
    Element,
    /// The physical type of an element is known.
    Physical,
    /// An element below the root has a repetition, which is known.
    Repetition,
    /// Values of a fixed length have a length, which is not negative.
    Length,
    /// Decimal numbers have 1 to 76 digits, of which none or more stand behind the point.
    Digits,
    /// A LIST has one element below it, which is repeated.
    List,
    /// A MAP has one element below it, which is a repeated group.
    Map,
    /// Elements are nested at most `NESTING_LIMIT` levels deep.
    Depth,
}

impl SchemaRule {
    /// Returns what is wrong where the rule is broken (`docs/FORMAT.md`, 4.4).
    pub fn message(self) -> &'static str
        ensures { result.now ≡ rule_message self }
    {
        match self {
            SchemaRule::Root => "no root",
            SchemaRule::Children => "a wrong number of children",
            SchemaRule::Element => "an element that is neither a leaf nor a group",
            SchemaRule::Physical => "a physical type that is not known",
            SchemaRule::Repetition => "an element without a repetition",
            SchemaRule::Length => "a fixed length that is not there or negative",
            SchemaRule::Digits => "a precision or a scale out of range",
            SchemaRule::List => "a list without one repeated element",
            SchemaRule::Map => "a map without one repeated group",
            SchemaRule::Depth => "nested too deep",
        }
    }

    /// Returns what the rule asks (`docs/FORMAT.md`, 4.4).
    pub fn wanted(self) -> &'static str
        ensures { result.now ≡ rule_wanted self }
    {
        match self {
            SchemaRule::Root => "a group",
            SchemaRule::Children => "as many elements as there are children",
            SchemaRule::Element => "a physical type, or a number of children",
            SchemaRule::Physical => "a type from 0 to 7",
            SchemaRule::Repetition => "required, optional or repeated",
            SchemaRule::Length => "a length from 0 on",
            SchemaRule::Digits => {
                "a precision from 1 to 76, and a scale from 0 to the precision"
            }
            SchemaRule::List => "one repeated element",
            SchemaRule::Map => "one repeated group",
            SchemaRule::Depth => "at most 64 levels",
        }
    }
}

/// A rule that is broken, and by which element.
#[derive(Clone, Copy, Debug, PartialEq, Eq)]
pub struct ElementFault {
    /// The rule.
    pub rule: SchemaRule,
    /// The element, counted from the root, which is 0; past the last one where an element is missing.
    pub at: usize,
}

impl ElementFault {
    pub(crate) fn new(rule: SchemaRule, at: usize) -> ElementFault
        ensures { result ≡ record { rule = rule; at = at } }
    {
        ElementFault { rule, at }
    }
}

/// Why a schema has no columns.
#[derive(Clone, Copy, Debug, PartialEq, Eq)]
pub enum ColumnsError {
    /// The elements break a rule.
    Broken(ElementFault),
    /// Out of memory.
    OutOfMemory,
}

impl From<ElementFault> for ColumnsError {
    ghost from_gives = { λ fault e. e ≡ Broken fault };

    fn from(fault: ElementFault) -> ColumnsError {
        ColumnsError::Broken(fault)
    }
}

impl From<AllocError> for ColumnsError {
    ghost from_gives = { λ _ e. e ≡ OutOfMemory };

    fn from(_refused: AllocError) -> ColumnsError {
        ColumnsError::OutOfMemory
    }
}

impl<T: Drop> From<AllocFailed<T>> for ColumnsError {
    ghost from_gives = { λ _ e. e ≡ OutOfMemory };

    fn from(_refused: AllocFailed<T>) -> ColumnsError {
        ColumnsError::OutOfMemory
    }
}
