//! What is expected where a code is found.
ghost use Rattle.std.specs.Prelude.{◌≡◌, IfOk, option_map, string_bytes};
ghost use Rattle.geoparquet.specs.Words.{encodings_text, types_text, edges_text, bbox_text};
ghost use Rattle.geoparquet.specs.Words.{bracketed, expected_of, expected_text};

use crate::code::GeoCode;
use crate::finding::{GeoFinding, Version};
use std::alloc::{AllocError, Global};

/// The encodings of a version.
fn encodings_text(version: Version) -> &'static str
    ensures { result.now ≡ encodings_text version }
{
    match version {
        Version::Old | Version::V1_0 => "WKB",
        Version::V1_1 | Version::V2 => {
            "WKB, point, linestring, polygon, multipoint, multilinestring or multipolygon"
        }
    }
}

/// The names of types of a version.
fn types_text(version: Version) -> &'static str
    ensures { result.now ≡ types_text version }
{
    match version {
        Version::Old | Version::V1_0 | Version::V1_1 => {
            "Point, LineString, Polygon, MultiPoint, MultiLineString, MultiPolygon or \
             GeometryCollection, alone or with \" Z\", each at most once"
        }
        Version::V2 => {
            "Point, LineString, Polygon, MultiPoint, MultiLineString, MultiPolygon or \
             GeometryCollection, alone or with \" Z\", \" M\" or \" ZM\", each at most once"
        }
    }
}

/// The edges of a version.
fn edges_text(version: Version) -> &'static str
    ensures { result.now ≡ edges_text version }
{
    match version {
        Version::Old | Version::V1_0 | Version::V1_1 => "planar or spherical",
        Version::V2 => "planar, spherical, vincenty, thomas, andoyer or karney",
    }
}

/// How many numbers a box has in a version.
fn bbox_text(version: Version) -> &'static str
    ensures { result.now ≡ bbox_text version }
{
    match version {
        Version::Old | Version::V1_0 | Version::V1_1 => "4 or 6 finite numbers",
        Version::V2 => "4, 6 or 8 finite numbers",
    }
}

impl GeoCode {
    /// Returns what is expected where the code is found in metadata of a version, in words
    /// (docs/FORMAT.md, 5).
    ///
    /// ```rust
    /// assert_eq!(rt; GeoCode::Edges.expected(Version::V1_1), "planar or spherical");
    /// ```
    pub fn expected(self, version: Version) -> &'static str
        ensures { result.now ≡ expected_of version self }
    {
        match self {
            Self::NoMetadata => "metadata of GeoParquet at the key geo",
            Self::NotJson => "JSON",
            Self::NotObject => "an object",
            Self::RepeatedKey => "one value of the key",
            Self::Version => "1.1.0",
            Self::OldVersion => "1.1.0",
            Self::NewVersion => "1.0.0 or 1.1.0",
            Self::Columns => "an object with a member for each column of geometries",
            Self::ColumnMissing => "the name of a column",
            Self::ColumnRepeated => "the name of one column",
            Self::Member => "an object",
            Self::ColumnUndeclared => "a member for the column",
            Self::PrimaryColumn => "a key of columns",
            Self::Encoding => encodings_text(version),
            Self::Layout => "the layout of the encoding",
            Self::Types => types_text(version),
            Self::TypesVersion => "the name alone or with \" Z\"",
            Self::TypesContradict => "types that the layout of the column holds",
            Self::Crs => "PROJJSON or null",
            Self::CrsMalformed => "PROJJSON",
            Self::Edges => edges_text(version),
            Self::Orientation => "counterclockwise",
            Self::Epoch => "a number",
            Self::Bbox => bbox_text(version),
            Self::BboxOrder => "at most the greatest bound",
            Self::BboxRange => "a number within the limit",
            Self::BboxDimension => "as many numbers as the geometry types ask for",
            Self::Covering => {
                "an object with bbox, which has paths of two texts at xmin, ymin, xmax and ymax, \
                 and at zmin and zmax both or neither"
            }
            Self::CoveringName => "the name of the bound",
            Self::CoveringColumn => {
                "the name of one group, the same in all paths, and that of a field in it"
            }
            Self::CoveringType => "float or double, the same for all bounds",
            Self::CoveringShape => "a group of the bounds alone, there as often as the geometry",
            Self::CoveringAbsent => "a covering that names the group",
            Self::EncodingContradicts => "the encoding of the other source",
            Self::CrsContradicts => "the CRS of the other source",
            Self::CrsNotCompared => "the CRS of the other source",
            Self::EdgesContradict => "the edges of the other source",
            Self::EdgesOnProjected => "planar edges, or a CRS that is not projected",
        }
    }
}

impl GeoFinding {
    /// Returns what is expected in place of what is found in metadata of a version, in words: that
    /// of the code, and behind it in brackets what the rule wants there, if it says more
    /// (docs/FORMAT.md, 5). Errs only when out of memory.
    pub fn expected(&self, alloc: Global, version: Version) -> Result<String, AllocError>
        ensures { IfOk result (λ text. string_bytes text ≡ expected_text version self.now.code (option_map string_bytes self.now.wanted)) }
    {
        let expected = self.code.expected(version);
        match &self.wanted {
            Some(wanted) => in_brackets(alloc, expected, wanted.as_str()),
            None => String::from_str(alloc, expected),
        }
    }
}

/// A text with another behind it in brackets.
fn in_brackets(alloc: Global, text: &str, wanted: &str) -> Result<String, AllocError>
    ensures { IfOk result (λ s. string_bytes s ≡ bracketed text.now wanted.now) }
{
    format!(in alloc; "{text} ({wanted})")
}
