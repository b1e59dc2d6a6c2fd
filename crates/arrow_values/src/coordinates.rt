//! How many numbers a coordinate has.
ghost use Rattle.std.specs.Prelude.{◌≡◌};
ghost use Rattle.arrow_values.specs.Coordinates.{dimensions_size};

/// The dimensions of a coordinate, as geometry traits name them: x and y, and a height, a measure or both; or
/// a number of dimensions whose meaning is not known.
///
/// ```rust
/// assert_eq!(rt; Dimensions::Xym.size(), 3);
/// ```
#[derive(Clone, Copy, Debug, PartialEq, Eq)]
pub enum Dimensions {
    /// x and y.
    Xy,
    /// x, y and a height.
    Xyz,
    /// x, y and a measure.
    Xym,
    /// x, y, a height and a measure.
    Xyzm,
    /// That many, with no known meaning.
    Unknown(usize),
}

impl Dimensions {
    /// How many numbers a coordinate has: 2, 3, 3, 4, and for `Unknown` its number.
    pub fn size(&self) -> usize
        ensures { result ≡ dimensions_size self.now }
    {
        match self {
            Dimensions::Xy => 2,
            Dimensions::Xyz => 3,
            Dimensions::Xym => 3,
            Dimensions::Xyzm => 4,
            Dimensions::Unknown(size) => *size,
        }
    }
}
