//! Findings: which rule is not kept, where, and what stands there.

use crate::code::GeoCode;
use crate::fact_sources::FactSource;

/// The version by whose rules metadata are judged (docs/FORMAT.md, 5).
#[derive(Clone, Copy, Debug, PartialEq, Eq)]
pub enum Version {
    /// Before 1.0.0.
    Old,
    /// 1.0.0.
    V1_0,
    /// 1.1.0, and each that is none of the others.
    V1_1,
    /// From 2.0.0 on, as far as it is known.
    V2,
}

/// What is found: a rule that is not kept, the place, and what stands there.
#[derive(Debug, Drop)]
pub struct GeoFinding {
    /// The rule.
    pub code: GeoCode,
    /// The name of the column: the key of `columns`, or the name of a column that is none; none
    /// where the finding is of all the metadata.
    pub column: Option<String>,
    /// The source that it is found in: the metadata, or what the field or the element of the column
    /// says, where those have no place for it.
    pub source: FactSource,
    /// The place in the metadata, as a JSON pointer (RFC 6901); empty for the whole, and in another
    /// source.
    pub pointer: String,
    /// What stands there, as JSON without blanks, at most 120 characters of it and `..` behind them;
    /// none where nothing stands there.
    pub found: Option<String>,
    /// What the rule wants there, where the code does not say it alone: a name, a type, or what
    /// another source says.
    pub wanted: Option<String>,
    /// How many more of the code in the column it stands for, which are not told one by one.
    pub more: usize,
}

/// What is found in the metadata of a file, and the version by which they are judged.
#[derive(Debug, Drop)]
pub struct GeoReport {
    /// The version.
    pub version: Version,
    /// The findings: those of all the metadata, then those of each member of `columns`, in the
    /// ascending order of keys, each in the order of `GeoCode` and of places; then those of columns
    /// that have no member.
    pub findings: Vec<GeoFinding>,
}
