//! When two coordinate reference systems are one: [`crs_verdict`] compares what two sources say of
//! a CRS, whatever the form in which each says it: PROJJSON, a code of an authority, WKT, or an
//! opaque number of a database. The rules stand in docs/FORMAT.md, 5.3; the definitions in `specs/`
//! are their tables.
#![tactic(auto)]

mod class;
mod decimal;
mod equality;
mod form;
mod identifiers;
pub mod laws;
mod malformed;
mod names;
mod tokens;
mod verdict;
mod wkt;

pub use class::{Class, class_of};
pub use equality::json_equal;
pub use form::Crs;
pub use identifiers::has_paired_identifier;
pub use malformed::{Part, malformed_parts};
pub use names::{FormName, form_name};
pub use verdict::{Claim, Verdict, crs_verdict};
