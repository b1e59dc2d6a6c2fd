//! The extension names, and those under which a data type can be read.
ghost use Rattle.std.specs.Prelude.{◌≡◌, ◌≢◌, ◌↔◌, ◌⊎◌};
ghost use Rattle.geoarrow_layout.specs.Cited.{Some, ExtensionName, Text, Tree, IsAccepted, Share, name_text};

use crate::native_kinds::NativeKind;

/// The extension names of columns of geometries, at a field's `ARROW:extension:name` (GeoArrow, "Extension types").
///
/// ```rust
/// assert_eq!(rt; ExtensionName::from_text("geoarrow.box"), Some(ExtensionName::Rect));
/// assert_eq!(rt; ExtensionName::from_text("geoarrow.rect"), None);
/// ```
#[derive(Clone, Copy, Debug, PartialEq, Eq)]
pub enum ExtensionName {
    /// That of a native kind: `geoarrow.point`, `geoarrow.linestring`, `geoarrow.polygon`, `geoarrow.multipoint`,
    /// `geoarrow.multilinestring`, `geoarrow.multipolygon` or `geoarrow.geometrycollection`.
    Native(NativeKind),
    /// `geoarrow.geometry`.
    Geometry,
    /// `geoarrow.box`.
    Rect,
    /// `geoarrow.wkb`.
    Wkb,
    /// `geoarrow.wkt`.
    Wkt,
}

impl ExtensionName {
    /// The text of the name.
    pub fn as_text(self) -> &'static str
        ensures { result.now ≡ name_text self }
    {
        match self {
            Self::Native(NativeKind::Point) => "geoarrow.point",
            Self::Native(NativeKind::LineString) => "geoarrow.linestring",
            Self::Native(NativeKind::Polygon) => "geoarrow.polygon",
            Self::Native(NativeKind::MultiPoint) => "geoarrow.multipoint",
            Self::Native(NativeKind::MultiLineString) => "geoarrow.multilinestring",
            Self::Native(NativeKind::MultiPolygon) => "geoarrow.multipolygon",
            Self::Native(NativeKind::GeometryCollection) => "geoarrow.geometrycollection",
            Self::Geometry => "geoarrow.geometry",
            Self::Rect => "geoarrow.box",
            Self::Wkb => "geoarrow.wkb",
            Self::Wkt => "geoarrow.wkt",
        }
    }

    /// The name with that text, compared byte for byte; `None` for any other text.
    #[inline(always)]
    pub fn from_text(text: &str) -> Option<ExtensionName>
        ensures { (name : ExtensionName) → (result ≡ Some name) ↔ (text.now ≡ name_text name) }
    {
        match text {
            "geoarrow.point" => Some(Self::Native(NativeKind::Point)),
            "geoarrow.linestring" => Some(Self::Native(NativeKind::LineString)),
            "geoarrow.polygon" => Some(Self::Native(NativeKind::Polygon)),
            "geoarrow.multipoint" => Some(Self::Native(NativeKind::MultiPoint)),
            "geoarrow.multilinestring" => Some(Self::Native(NativeKind::MultiLineString)),
            "geoarrow.multipolygon" => Some(Self::Native(NativeKind::MultiPolygon)),
            "geoarrow.geometrycollection" => Some(Self::Native(NativeKind::GeometryCollection)),
            "geoarrow.geometry" => Some(Self::Geometry),
            "geoarrow.box" => Some(Self::Rect),
            "geoarrow.wkb" => Some(Self::Wkb),
            "geoarrow.wkt" => Some(Self::Wkt),
            _ => None,
        }
    }
}

/// The extension names under which a data type can be read: at most two (GeoArrow, "Extension types").
/// [`candidates`](crate::candidates) has an example.
#[derive(Debug, Clone, Copy, PartialEq, Eq)]
pub enum Candidates {
    /// No name.
    None,
    /// Only this name.
    One(&'static str),
    /// `geoarrow.linestring` and `geoarrow.multipoint`: one list over coordinates.
    LineStringOrMultiPoint,
    /// `geoarrow.polygon` and `geoarrow.multilinestring`: two lists over coordinates.
    PolygonOrMultiLineString,
    /// `geoarrow.point` and `geoarrow.box`: a struct of four fields.
    PointOrBox,
}

/// A law: a data type has a kind under two names at most (GeoArrow, "Extension types"). Two names that have it are
/// those of line strings and multipoints, those of polygons and multilinestrings, or, if it is a struct of four fields,
/// those of points and boxes; and what has a kind under one of such two has one under the other.
pub fn two_names_at_most()
    ensures two { (t : Tree) (a b c : Text) → IsAccepted a t → IsAccepted b t → IsAccepted c t → (a ≡ b) ⊎ ((a ≡ c) ⊎ (b ≡ c)) }
    ensures which { (t : Tree) (a b : Text) → IsAccepted a t → IsAccepted b t → a ≢ b → Share t a b ⊎ Share t b a }
    ensures both { (t : Tree) (a b : Text) → Share t a b → IsAccepted a t ↔ IsAccepted b t }
{}
