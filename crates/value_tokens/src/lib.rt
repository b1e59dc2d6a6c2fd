//! JSON values by their tokens, without a tree: they are read one after another, and printed one after another.
//!
//! A call that reads consumes one whole value, or what is left of one. The value that comes next in a reader is the one
//! that `serde_json` would read there: `next_value` of `specs/Next`. So a number that is out of range is refused here
//! too, even in a value that is skipped. `depth` is how deep the arrays and objects of the value may be nested. A call
//! errs with [`Refusal::Text`] only if no value comes next or it is nested deeper, and with [`Refusal::Memory`] when
//! out of memory.
//!
//! `Adds` of `specs/Adds` says what is printed: the tokens that a call added after the earlier ones, which it kept.
//! The tokens of a value are those of its `outline`, whose text is `serde_json`'s `compact_text` (`proofs/Printed`).
//!
//! [`read_value`] and [`read_json`] make a tree: one returns the value as `serde_json` has it, the other with each
//! number as it is written, for what is kept as JSON.
//!
//! `proofs/` has the laws of these definitions that a reader of objects or a printer of values needs.
#![tactic(auto)]

mod json_text;
pub mod laws;
mod numbers;
mod open;
mod print;
mod refusal;
mod scalars;
mod skip;
mod text;
mod values;

pub use json_text::{JsonText, member_of, read_json};
pub use numbers::number_of;
pub use open::{open_array, open_object};
pub use print::print_value;
pub use refusal::Refusal;
pub use scalars::{read_bool, read_number, read_str, read_text};
pub use skip::{skip_items, skip_members, skip_rest, skip_value};
pub use text::text_of;
pub use values::{put_member, read_value};

/// How deep the arrays and objects of a text may be nested for `serde_json` to read it.
pub const MAX_DEPTH: usize = 127;
