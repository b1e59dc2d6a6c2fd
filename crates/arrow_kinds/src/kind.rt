//! Arrow's types by what they say themselves, before what is nested in them is known.

use arrow_columns::ListForm;
use arrow_values::{DataType, UnionMode};

/// A type that has a text in place of a data type. A unit is 0 for seconds, 1 for milliseconds, 2 for microseconds,
/// 3 for nanoseconds.
#[derive(Clone, Copy)]
pub enum Named {
    /// Width in bits, precision, and scale.
    Decimal(usize, usize, i32),
    /// A time of day, in a unit.
    Time(usize),
    /// A point in time, in a unit.
    Timestamp(usize),
    /// A duration, in a unit.
    Duration(usize),
    /// 0 for months, 1 for days with milliseconds, 2 for all three with nanoseconds.
    Interval(usize),
    /// Binary values of so many bytes.
    FixedSizeBinary(i32),
}

/// A type with its own parts, without what is nested in it.
#[derive(Drop)]
pub enum Kind {
    /// A data type that nests nothing.
    Plain(DataType),
    /// A type that has a text.
    Named(Named),
    /// A list of one child.
    List(ListForm),
    /// A struct of its children.
    Struct,
    /// A union of its children, by their type ids.
    Union(UnionMode),
    /// A map, of one child.
    Map,
    /// Run ends and values.
    RunEndEncoded,
    /// A list view of one child.
    ListView,
    /// A list view of one child, by 64-bit offsets.
    LargeListView,
}

/// How the values of a dictionary are looked up: by integers of that type, and whether their order is one of the values.
#[derive(Drop)]
pub struct Index {
    /// The type of the integers.
    pub integers: DataType,
    /// Whether the order of the values is that of the integers.
    pub ordered: bool,
}
