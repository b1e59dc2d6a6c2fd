//! When a code is found.
ghost use Rattle.std.specs.Prelude.{◌≡◌};
ghost use Rattle.geoparquet.specs.Words.{rule_of};

use crate::code::GeoCode;

impl GeoCode {
    /// Each code, in the order of docs/FORMAT.md, 5.
    pub const ALL: [GeoCode; 38] = [
        GeoCode::NoMetadata,
        GeoCode::NotJson,
        GeoCode::NotObject,
        GeoCode::RepeatedKey,
        GeoCode::Version,
        GeoCode::OldVersion,
        GeoCode::NewVersion,
        GeoCode::Columns,
        GeoCode::ColumnMissing,
        GeoCode::ColumnRepeated,
        GeoCode::Member,
        GeoCode::ColumnUndeclared,
        GeoCode::PrimaryColumn,
        GeoCode::Encoding,
        GeoCode::Layout,
        GeoCode::Types,
        GeoCode::TypesVersion,
        GeoCode::TypesContradict,
        GeoCode::Crs,
        GeoCode::CrsMalformed,
        GeoCode::Edges,
        GeoCode::Orientation,
        GeoCode::Epoch,
        GeoCode::Bbox,
        GeoCode::BboxOrder,
        GeoCode::BboxRange,
        GeoCode::BboxDimension,
        GeoCode::Covering,
        GeoCode::CoveringName,
        GeoCode::CoveringColumn,
        GeoCode::CoveringType,
        GeoCode::CoveringShape,
        GeoCode::CoveringAbsent,
        GeoCode::EncodingContradicts,
        GeoCode::CrsContradicts,
        GeoCode::CrsNotCompared,
        GeoCode::EdgesContradict,
        GeoCode::EdgesOnProjected,
    ];

    /// Returns when the code is found, in words (docs/FORMAT.md, 5).
    ///
    /// ```rust
    /// assert_eq!(rt; GeoCode::Epoch.rule(), "epoch is neither absent nor a number");
    /// ```
    pub fn rule(self) -> &'static str
        ensures { result.now ≡ rule_of self }
    {
        match self {
            Self::NoMetadata => "the file has columns of geometries, and no value at the key geo",
            Self::NotJson => "the value of geo is absent, no UTF-8, or no JSON within 127 levels",
            Self::NotObject => "the value of geo is JSON, and no object",
            Self::RepeatedKey => "a key stands several times in an object",
            Self::Version => "version is absent, no text, or no version of the format",
            Self::OldVersion => "the version is before 1.0.0",
            Self::NewVersion => "the version is a pre-release, or after 1.1.0",
            Self::Columns => "columns is absent, no object, or without a member",
            Self::ColumnMissing => "a key of columns is the name of no column",
            Self::ColumnRepeated => "a key of columns is the name of several columns",
            Self::Member => "a member of columns is no object",
            Self::ColumnUndeclared => "a column holds geometries, and has no member of columns",
            Self::PrimaryColumn => "primary_column is absent, no text, or no key of columns",
            Self::Encoding => "encoding is absent, no text, or no encoding of the version",
            Self::Layout => "the column is not laid out as its encoding asks",
            Self::Types => {
                "geometry_types is absent or no array, or an item is no text, no name of a type, \
                 or there twice"
            }
            Self::TypesVersion => "a type has a dimension that the version does not have",
            Self::TypesContradict => "a type does not go with the layout of the column",
            Self::Crs => "crs is neither absent, null nor an object",
            Self::CrsMalformed => "an object at crs is no PROJJSON",
            Self::Edges => "edges is no text, or none of the version's",
            Self::Orientation => "orientation is neither absent nor counterclockwise",
            Self::Epoch => "epoch is neither absent nor a number",
            Self::Bbox => {
                "bbox is neither absent nor an array of as many finite numbers as the version takes"
            }
            Self::BboxOrder => "a least bound of bbox is greater than the greatest",
            Self::BboxRange => "a longitude or a latitude of bbox is out of range",
            Self::BboxDimension => "bbox has another dimension than the geometry types",
            Self::Covering => {
                "covering is no object, or lacks a part, or a path in it is no array of two texts"
            }
            Self::CoveringName => "a path of a covering ends in another name than its bound's",
            Self::CoveringColumn => "a path of a covering leads to no child of one group",
            Self::CoveringType => {
                "a path of a covering leads to another type than floats, or than the other paths"
            }
            Self::CoveringShape => {
                "the group of a covering has other children, or another repetition"
            }
            Self::CoveringAbsent => {
                "a group has the children of a covering, and no covering names it"
            }
            Self::EncodingContradicts => "two of the element, the field and geo say two encodings",
            Self::CrsContradicts => "two of the element, the field and geo say two CRSs",
            Self::CrsNotCompared => {
                "two of the element, the field and geo say CRSs that nothing tells to be one or two"
            }
            Self::EdgesContradict => "two of the element, the field and geo say two kinds of edges",
            Self::EdgesOnProjected => "the edges are not planar, and the CRS is projected",
        }
    }
}
