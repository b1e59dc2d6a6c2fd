//! Laws that tie what `column_check` says of a column to what `geoarrow_schema` reads its field as,
//! or infers for it.
#![tactic(auto)]

mod claims;
mod laws;

pub use claims::is_sound_without_errors;
pub use laws::{agrees_with_inference, agrees_with_reading};
