//! The normal form of a column of geometries, whatever its coordinate reference system is.
//!
//! `canonical_field` of `geoarrow_schema` answers for fields whose CRS has whole numbers, as it holds them as numbers;
//! [`canonical_column`] keeps each CRS as it is written. Its contract is the relation `IsCanonical` between two columns.
#![tactic(auto)]

mod canonical;
pub mod laws;

pub use canonical::canonical_column;
