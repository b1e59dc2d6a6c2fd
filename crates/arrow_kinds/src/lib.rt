//! Kinds of Arrow's types, and the type that a kind makes of its children.
#![tactic(auto)]

mod kind;
mod types;

pub use kind::{Index, Kind, Named};
pub use types::{type_of, with_dictionary};
