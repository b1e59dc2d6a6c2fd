//! What a layout has: a coordinate type and a dimension, with the tables of both.
ghost use Rattle.std.specs.Prelude.{◌≡◌, ◌≤◌, ◌↔◌, ◌⊎◌, ◌^◌};
ghost use Rattle.geoarrow_layout.specs.Cited.{IfOk, IfErr, Some, Ok, pos, map, fixed_text, size_of, order_of, interleaved_name, coordinate_names, box_names};

use crate::dimensions::Dimension::{XY, XYM, XYZ, XYZM};
use arrow_values::FixedName::{
    self, M, Mmax, Mmin, X, Xmax, Xmin, Xy, Xym, Xyz, Xyzm, Y, Ymax, Ymin, Z, Zmax, Zmin,
};
use arrow_values::{Dimensions, GeoArrowError, GeoArrowResult};
use std::alloc::Global;
use std::fmt;

/// How the numbers of a coordinate are stored (GeoArrow, "Coordinate").
/// Each variant has an example.
#[derive(Clone, Copy, Debug, PartialEq, Eq, Hash)]
pub enum CoordType {
    /// The numbers of a coordinate are stored side by side, in a fixed size list.
    ///
    /// ```rust
    /// let xy = Field::new(alloc, "xy", DataType::Float64, false)?;
    /// let wanted = DataType::FixedSizeList(Box::new(alloc, xy)?, 2);
    /// assert!(rt; coord_data_type(alloc, CoordType::Interleaved, Dimension::XY)? == wanted);
    /// ```
    Interleaved,
    /// Each dimension is stored in an array of its own, as a field of a struct.
    ///
    /// ```rust
    /// let x = Field::new(alloc, "x", DataType::Float64, false)?;
    /// let y = Field::new(alloc, "y", DataType::Float64, false)?;
    /// let wanted = DataType::Struct(Fields::from(vec![in alloc; x, y]?));
    /// assert!(rt; coord_data_type(alloc, CoordType::Separated, Dimension::XY)? == wanted);
    /// ```
    Separated,
}

impl Default for CoordType {
    ghost use Rattle.geoarrow_layout.specs.Cited.{Separated};

    ghost is_default = { λ c. c ≡ Separated };

    fn default() -> CoordType {
        CoordType::Separated
    }
}

/// What a table of four says of a dimension, the four in the order of the dimensions.
macro_rules! by_dimension {
    ($dimension:expr; $xy:expr, $xyz:expr, $xym:expr, $xyzm:expr) => {
        match $dimension {
            Dimension::XY => $xy,
            Dimension::XYZ => $xyz,
            Dimension::XYM => $xym,
            Dimension::XYZM => $xyzm,
        }
    };
}

pub(crate) use by_dimension;

/// What a macro makes of the four dimensions, in their order, and of what else it is given.
macro_rules! of_dimensions {
    ($made:ident; $($rest:tt)*) => {
        $made!(Dimension::XY, Dimension::XYZ, Dimension::XYM, Dimension::XYZM; $($rest)*)
    };
}

pub(crate) use of_dimensions;

/// The dimension of which such a table says a value, if there is one.
macro_rules! dimension_with {
    ($value:expr; $xy:literal, $xyz:literal, $xym:literal, $xyzm:literal) => {
        match $value {
            $xy => Some(XY),
            $xyz => Some(XYZ),
            $xym => Some(XYM),
            $xyzm => Some(XYZM),
            _ => None,
        }
    };
}

/// Which dimensions a coordinate has (GeoArrow, "Coordinate").
/// [`Dimension::try_from_dimensions`] has an example.
#[derive(Clone, Copy, Debug, PartialEq, Eq, Hash)]
pub enum Dimension {
    /// x and y.
    XY,
    /// x, y and a height.
    XYZ,
    /// x, y and a measure.
    XYM,
    /// x, y, a height and a measure.
    XYZM,
}

impl Dimension {
    ghost use Rattle.geoarrow_layout.specs.Cited.{dimensions_size, IsDimension, RefusesDimensions, IsGeoMemory};

    /// How many numbers a coordinate has: 2, 3, 3, 4.
    pub fn size(&self) -> usize
        ensures { result ≡ size_of self.now }
    {
        by_dimension!(self; 2, 3, 3, 4)
    }

    /// Its number among the four, from 0, as type ids count them (GeoArrow, "Geometry": the table of type ids).
    pub fn order(&self) -> u8
        ensures order { result ≡ order_of self.now }
        ensures small { result ≤ 3 }
    {
        *self as u8
    }

    /// The dimension with the name of those dimensions; for 2, 3 and 4 of no known meaning it is XY, XYZ and XYZM. Errs
    /// with `InvalidGeoArrow` for any other number of no known meaning; allocates nothing otherwise.
    ///
    /// ```rust
    /// let dimension = Dimension::try_from_dimensions(alloc, Dimensions::Unknown(3))?;
    /// assert_eq!(rt; dimension, Dimension::XYZ);
    /// assert_eq!(rt; Dimensions::from(dimension), Dimensions::Xyz);
    /// ```
    pub fn try_from_dimensions(alloc: Global, dimensions: Dimensions) -> GeoArrowResult<Dimension>
        ensures exact { (d : Dimension) → (result ≡ Ok d) ↔ IsDimension dimensions d }
        ensures size { IfOk result (λ d. size_of d ≡ dimensions_size dimensions) }
        ensures refusal { IfErr result (λ e. IsGeoMemory e ⊎ RefusesDimensions dimensions e) }
    {
        match dimensions {
            Dimensions::Xy | Dimensions::Unknown(2) => Ok(XY),
            Dimensions::Xyz | Dimensions::Unknown(3) => Ok(XYZ),
            Dimensions::Xym => Ok(XYM),
            Dimensions::Xyzm | Dimensions::Unknown(4) => Ok(XYZM),
            Dimensions::Unknown(n) => Err(GeoArrowError::InvalidGeoArrow(format!(in alloc;
                "Unsupported dimension Unknown({n})"
            )?)),
        }
    }
}

impl fmt::Display for Dimension {
    ghost use Rattle.geoarrow_layout.specs.Cited.{Some, dimension_name};

    ghost output = { λ d. Some (dimension_name d) };

    fn fmt<W: fmt::Write>(&self, f: &mut fmt::Formatter<W>) -> fmt::Result {
        f.write_str(by_dimension!(self; "XY", "XYZ", "XYM", "XYZM"))
    }
}

impl From<Dimension> for Dimensions {
    ghost use Rattle.geoarrow_layout.specs.Cited.{dimensions_of};

    ghost from_gives = { λ d e. e ≡ dimensions_of d };

    fn from(dimension: Dimension) -> Dimensions {
        by_dimension!(dimension; Dimensions::Xy, Dimensions::Xyz, Dimensions::Xym, Dimensions::Xyzm)
    }
}

/// The type and the dimension of a coordinate.
pub(crate) type Coordinate = (CoordType, Dimension);

/// All dimensions, in their order.
pub(crate) const DIMENSIONS: [Dimension; 4] = [XY, XYZ, XYM, XYZM];

/// The dimension of that place.
pub(crate) fn dimension_at(order: u8) -> Option<Dimension>
    ensures { (d : Dimension) → (result ≡ Some d) ↔ (order ≡ order_of d) }
{
    dimension_with!(order; 0, 1, 2, 3)
}

/// The name of the inner field of an interleaved coordinate.
pub(crate) fn interleaved_name(dimension: Dimension) -> FixedName
    ensures { fixed_text result ≡ interleaved_name dimension }
{
    by_dimension!(dimension; Xy, Xyz, Xym, Xyzm)
}

/// The names of the fields of a separated coordinate.
pub(crate) fn coordinate_names(dimension: Dimension) -> &'static [FixedName]
    ensures { map fixed_text result.now ≡ coordinate_names dimension }
{
    by_dimension!(dimension; &[X, Y], &[X, Y, Z], &[X, Y, M], &[X, Y, Z, M])
}

/// The names of the fields of a box.
pub(crate) fn box_names(dimension: Dimension) -> &'static [FixedName]
    ensures { map fixed_text result.now ≡ box_names dimension }
{
    by_dimension!(dimension;
        &[Xmin, Ymin, Xmax, Ymax],
        &[Xmin, Ymin, Zmin, Xmax, Ymax, Zmax],
        &[Xmin, Ymin, Mmin, Xmax, Ymax, Mmax],
        &[Xmin, Ymin, Zmin, Mmin, Xmax, Ymax, Zmax, Mmax]
    )
}

/// The dimension that the inner field of a fixed size list names.
pub(crate) fn named_dimension(name: &str) -> Option<Dimension>
    ensures { (d : Dimension) → (result ≡ Some d) ↔ (name.now ≡ interleaved_name d) }
{
    dimension_with!(name; "xy", "xyz", "xym", "xyzm")
}

/// The one dimension of a set.
pub(crate) fn only_dimension(bits: u8) -> Option<Dimension>
    ensures { (d : Dimension) → (result ≡ Some d) ↔ (bits ≡ 2 ^ order_of d) }
{
    dimension_with!(bits; 1, 2, 4, 8)
}

/// The size of the fixed size list of an interleaved coordinate.
pub(crate) fn list_size(dimension: Dimension) -> i32
    ensures { result ≡ pos (size_of dimension) }
{
    dimension.size() as i32
}
