//! Why no schema is read.
ghost use Rattle.std.specs.Prelude.{◌≡◌, true, false, OnOk, IfErr};
ghost use Rattle.arrow_ipc.specs.Rules.{rule_message, rule_wanted, error_message, error_wanted};
ghost use Rattle.arrow_ipc.specs.declared.fault.IpcError.TheVariants.{Broken, OutOfMemory};

use std::alloc::{AllocError, AllocFailed};

/// A rule of the format (`docs/FORMAT.md`, 3), as what is wrong where it is broken.
#[derive(Clone, Copy, Debug, PartialEq, Eq)]
pub enum IpcRule {
    /// A file ends with `ARROW1`.
    Magic,
    /// The footer of a file has some bytes, which stand before its size.
    FooterSize,
    /// The message of a stream has as many bytes as its size says.
    Cut,
    /// A stream begins with a message, and not with its end, which is a size of 0.
    EndOfStream,
    /// A number lies at a multiple of its size, before the end.
    Number,
    /// An offset is not 0, and leads no further than the end.
    Offset,
    /// A table's vtable has an even size, and lies before the end.
    Vtable,
    /// A slot of a table lies before the end.
    Slot,
    /// A text lies before the end, with a NUL behind it.
    Text,
    /// A text is in UTF-8.
    Utf8,
    /// A vector lies before the end.
    Vector,
    /// A table has the slots that it must have.
    Missing,
    /// A message is of version 4 or 5, has a schema as its header, and no body.
    Message,
    /// A type's tag is 1 to 26.
    Tag,
    /// The widths, units and sizes of a type are ones that it can have.
    Parameter,
    /// A nested type has as many children as it must have.
    Children,
    /// The type ids of a union are 0 to 127, each once, and as many as its children.
    TypeIds,
    /// Columns are nested at most 61 deep.
    Depth,
}

impl IpcRule {
    /// Returns what is wrong where the rule is broken.
    pub fn message(self) -> &'static str
        ensures { result.now ≡ rule_message self }
    {
        match self {
            IpcRule::Magic => "another end",
            IpcRule::FooterSize => "a footer of no bytes, or of more than stand before its size",
            IpcRule::Cut => "a message that is cut off",
            IpcRule::EndOfStream => "the end of the stream",
            IpcRule::Number => "no aligned number before the end",
            IpcRule::Offset => "an offset that leads nowhere",
            IpcRule::Vtable => "a table without a vtable",
            IpcRule::Slot => "a slot past the end",
            IpcRule::Text => "a text without its end",
            IpcRule::Utf8 => "a text that is not UTF-8",
            IpcRule::Vector => "a vector past the end",
            IpcRule::Missing => "a table without a slot that it must have",
            IpcRule::Message => "a message that is no schema",
            IpcRule::Tag => "an unknown type",
            IpcRule::Parameter => "a type with an unknown width, unit or size",
            IpcRule::Children => "a type with a wrong number of children",
            IpcRule::TypeIds => "a union with wrong type ids",
            IpcRule::Depth => "columns that are nested too deep",
        }
    }

    /// Returns what the rule asks.
    pub fn wanted(self) -> &'static str
        ensures { result.now ≡ rule_wanted self }
    {
        match self {
            IpcRule::Magic => "ARROW1 at the end",
            IpcRule::FooterSize => "a footer before its size",
            IpcRule::Cut => "as many bytes as its size says",
            IpcRule::EndOfStream => "a schema",
            IpcRule::Number => "a number at a multiple of its size, before the end",
            IpcRule::Offset => "an offset that is not 0 and leads no further than the end",
            IpcRule::Vtable => "a vtable of an even size, before the end",
            IpcRule::Slot => "a slot before the end",
            IpcRule::Text => "a text before the end, with a byte 0 behind it",
            IpcRule::Utf8 => "UTF-8",
            IpcRule::Vector => "a vector before the end",
            IpcRule::Missing => "each slot that the table must have",
            IpcRule::Message => "a schema of version 4 or 5, without a body",
            IpcRule::Tag => "a type of Schema.fbs, 1 to 26",
            IpcRule::Parameter => "a width, unit or size that the type can have",
            IpcRule::Children => "as many children as the type must have",
            IpcRule::TypeIds => "type ids from 0 to 127, each once, as many as children",
            IpcRule::Depth => "at most 61 levels",
        }
    }
}

/// A rule that is broken, and at which byte, counted from the message's first.
#[derive(Clone, Copy, Debug, PartialEq, Eq)]
pub struct IpcFault {
    /// The rule.
    pub rule: IpcRule,
    /// Where.
    pub at: usize,
}

/// What is found, or the rule that is broken.
pub(crate) type Found<T> = Result<T, IpcFault>;

/// A rule that is broken at a byte.
#[inline(always)]
pub(crate) fn broken(rule: IpcRule, at: usize) -> IpcFault
    ensures { result ≡ record { rule = rule; at = at } }
{
    IpcFault { rule, at }
}

/// Errs with a rule that is broken where it does not hold.
#[inline(always)]
pub(crate) fn ensure(holds: bool, rule: IpcRule, at: usize) -> Found<()>
    ensures ok { OnOk result (holds ≡ true) }
    ensures err { IfErr result (λ f. (holds ≡ false) × (f ≡ record { rule = rule; at = at })) }
{
    holds.then_some(()).ok_or(broken(rule, at))
}

/// Why no schema is read.
#[derive(Clone, Copy, Debug, PartialEq, Eq)]
pub enum IpcError {
    /// The bytes break a rule of the format.
    Broken(IpcFault),
    /// More tables and texts are to be read, each as often as it is reached, than eight times the message's bytes; with
    /// the table at which that is so.
    Budget(usize),
    /// Out of memory.
    OutOfMemory,
}

impl IpcError {
    /// Returns what is wrong.
    pub fn message(self) -> &'static str
        ensures { result.now ≡ error_message self }
    {
        match self {
            IpcError::Broken(fault) => fault.rule.message(),
            IpcError::Budget(_) => "more to be read than eight times the bytes",
            IpcError::OutOfMemory => "out of memory",
        }
    }

    /// Returns what is asked.
    pub fn wanted(self) -> &'static str
        ensures { result.now ≡ error_wanted self }
    {
        match self {
            IpcError::Broken(fault) => fault.rule.wanted(),
            IpcError::Budget(_) => "at most eight times the bytes",
            IpcError::OutOfMemory => "more memory",
        }
    }
}

impl From<IpcFault> for IpcError {
    ghost from_gives = { λ fault e. e ≡ Broken fault };

    fn from(fault: IpcFault) -> IpcError {
        IpcError::Broken(fault)
    }
}

impl From<AllocError> for IpcError {
    ghost from_gives = { λ _ e. e ≡ OutOfMemory };

    fn from(_refused: AllocError) -> IpcError {
        IpcError::OutOfMemory
    }
}

impl<T: Drop> From<AllocFailed<T>> for IpcError {
    ghost from_gives = { λ _ e. e ≡ OutOfMemory };

    fn from(_refused: AllocFailed<T>) -> IpcError {
        IpcError::OutOfMemory
    }
}
