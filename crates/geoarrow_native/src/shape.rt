//! What differs between the native types.
ghost use Rattle.std.specs.Prelude.{◌≡◌, ℤ, pos, refl};
ghost use Rattle.geoarrow_layout.specs.declared.native_kinds.NativeKind.{NativeKind};
ghost use Rattle.geoarrow_layout.specs.declared.native_kinds.NativeKind.TheVariants as kinds;
ghost use Rattle.geoarrow_layout.specs.declared.names.ExtensionName.TheVariants as names;
ghost use Rattle.geoarrow_layout.specs.Kinds.{name_text, offset_of};

use geoarrow_layout::{ExtensionName, NativeKind};

/// The shape of a native type: the parameter of `NativeType`. Each is an empty struct, which represents a kind of geometry.
pub trait NativeShape {
    /// The extension name.
    const NAME: &'static str;

    /// The name of the type, as `Debug` prints it.
    const TYPE: &'static str;

    /// The kind of geometry.
    const KIND: NativeKind;

    /// The type id in two dimensions (GeoArrow, "Geometry": the table of type ids).
    const OFFSET: i8;

    ghost KIND: { NativeKind };

    ghost OFFSET: { ℤ };

    /// `NAME`.
    fn shape_name() -> &'static str
        ensures { result.now ≡ name_text (names.Native KIND) }
    {
        ExtensionName::Native(Self::KIND).as_text()
    }

    ghost offset_is: { OFFSET ≡ pos (offset_of KIND) };
}

/// The shape of points.
pub struct Point;

impl NativeShape for Point {
    const NAME: &'static str = "geoarrow.point";

    const TYPE: &'static str = "PointType";

    const KIND: NativeKind = NativeKind::Point;

    const OFFSET: i8 = 1;

    ghost KIND = { kinds.Point };

    ghost OFFSET = { pos 1 };

    ghost offset_is = { refl };
}

/// The shape of line strings.
pub struct LineString;

impl NativeShape for LineString {
    const NAME: &'static str = "geoarrow.linestring";

    const TYPE: &'static str = "LineStringType";

    const KIND: NativeKind = NativeKind::LineString;

    const OFFSET: i8 = 2;

    ghost KIND = { kinds.LineString };

    ghost OFFSET = { pos 2 };

    ghost offset_is = { refl };
}

/// The shape of polygons.
pub struct Polygon;

impl NativeShape for Polygon {
    const NAME: &'static str = "geoarrow.polygon";

    const TYPE: &'static str = "PolygonType";

    const KIND: NativeKind = NativeKind::Polygon;

    const OFFSET: i8 = 3;

    ghost KIND = { kinds.Polygon };

    ghost OFFSET = { pos 3 };

    ghost offset_is = { refl };
}
