//! A difference of two files.

/// In what two columns differ.
#[derive(Debug, Clone, Copy, PartialEq, Eq)]
pub enum Aspect {
    /// In their types.
    DataType,
    /// In the encodings that their extension names say.
    Encoding,
    /// In their edges.
    Edges,
    /// In their CRSs, which contradict.
    Crs,
    /// In CRSs that nothing tells to be one or two.
    CrsNotCompared,
}

/// A difference of the columns of two files, by the places of columns, from 0.
#[derive(Debug, Clone, Copy, PartialEq, Eq)]
pub enum Difference {
    /// The first file has a column that the other lacks.
    OnlyInFirst(usize),
    /// The other file has a column that the first lacks.
    OnlyInOther(usize),
    /// A column of the first file and one of the other differ in that.
    InBoth(usize, usize, Aspect),
}
