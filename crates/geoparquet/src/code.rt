//! What may be found in the metadata of GeoParquet: codes, with their severities.
ghost use Rattle.std.specs.Prelude.{◌≡◌};
ghost use Rattle.geoparquet.specs.Codes.{code_of, severity_of};

use column_check::Severity;

/// A rule that the metadata at the key `geo` do not keep (docs/FORMAT.md, 5). Those up to
/// `PrimaryColumn` are of all the metadata, but for `Member` and `ColumnUndeclared`, and for
/// `RepeatedKey` at or below a member of `columns`; the others of one column.
#[derive(Clone, Copy, Debug, PartialEq, Eq)]
pub enum GeoCode {
    /// There is no value at the key `geo`, and a column holds geometries by its field alone.
    NoMetadata,
    /// The value is no UTF-8, or no JSON.
    NotJson,
    /// It is JSON, and no object.
    NotObject,
    /// A key stands several times in an object.
    RepeatedKey,
    /// `version` is absent, no text, or no version of the format.
    Version,
    /// The version is one before 1.0.0.
    OldVersion,
    /// The version is a pre-release, or one after 1.1.0.
    NewVersion,
    /// `columns` is absent, no object, or without a member.
    Columns,
    /// A key of `columns` is the name of no column.
    ColumnMissing,
    /// A key of `columns` is the name of several columns.
    ColumnRepeated,
    /// A member of `columns` is no object.
    Member,
    /// A column holds geometries, and has no member of `columns`.
    ColumnUndeclared,
    /// `primary_column` is absent, no text, or no key of `columns`.
    PrimaryColumn,
    /// `encoding` is absent, no text, or no encoding of the version.
    Encoding,
    /// The column has another layout than that of its encoding.
    Layout,
    /// `geometry_types` is absent, no array, or has an item that is no text, no name of a type, or
    /// there twice.
    Types,
    /// A type has a dimension that the version does not have.
    TypesVersion,
    /// A type does not go with the layout of the column.
    TypesContradict,
    /// `crs` is neither absent, null nor an object.
    Crs,
    /// An object at `crs` is no PROJJSON.
    CrsMalformed,
    /// `edges` is no text, or none of the version's.
    Edges,
    /// `orientation` is neither absent nor `counterclockwise`.
    Orientation,
    /// `epoch` is neither absent nor a number.
    Epoch,
    /// `bbox` is neither absent nor an array of as many finite numbers as the version takes.
    Bbox,
    /// A least bound of `bbox` is greater than the greatest.
    BboxOrder,
    /// A longitude or a latitude of `bbox` is out of range.
    BboxRange,
    /// `bbox` has another dimension than the geometry types.
    BboxDimension,
    /// `covering` is no object, or lacks a part, or a path in it is no array of two texts.
    Covering,
    /// A path of a covering ends in another name than its bound's.
    CoveringName,
    /// A path of a covering leads to no child of one group.
    CoveringColumn,
    /// A path of a covering leads to another type than floats, or than the other paths.
    CoveringType,
    /// The group of a covering has other children, or another repetition.
    CoveringShape,
    /// A group has the children of a covering, and no covering names it.
    CoveringAbsent,
    /// Two of the element, the field and `geo` say two encodings.
    EncodingContradicts,
    /// Two of them say two CRSs.
    CrsContradicts,
    /// Two of them say CRSs of which it is not known whether they are one, and no two say two.
    CrsNotCompared,
    /// Two of them say two kinds of edges.
    EdgesContradict,
    /// The edges are not planar, and the CRS is projected.
    EdgesOnProjected,
}

impl GeoCode {
    /// Returns the code, as `GeoVersion` (docs/FORMAT.md, 5).
    ///
    /// ```rust
    /// assert_eq!(rt; GeoCode::Bbox.code(), "GeoBbox");
    /// ```
    pub fn code(self) -> &'static str
        ensures { result.now ≡ code_of self }
    {
        match self {
            Self::NoMetadata => "NoGeoMetadata",
            Self::NotJson => "GeoNotJson",
            Self::NotObject => "GeoNotObject",
            Self::RepeatedKey => "RepeatedKey",
            Self::Version => "GeoVersion",
            Self::OldVersion => "GeoOldVersion",
            Self::NewVersion => "GeoNewVersion",
            Self::Columns => "GeoColumns",
            Self::ColumnMissing => "GeoColumnMissing",
            Self::ColumnRepeated => "GeoColumnRepeated",
            Self::Member => "GeoMember",
            Self::ColumnUndeclared => "GeoColumnUndeclared",
            Self::PrimaryColumn => "GeoPrimaryColumn",
            Self::Encoding => "GeoEncoding",
            Self::Layout => "GeoLayout",
            Self::Types => "GeoTypes",
            Self::TypesVersion => "GeoTypesVersion",
            Self::TypesContradict => "TypesContradict",
            Self::Crs => "GeoCrs",
            Self::CrsMalformed => "CrsMalformed",
            Self::Edges => "GeoEdges",
            Self::Orientation => "GeoOrientation",
            Self::Epoch => "GeoEpoch",
            Self::Bbox => "GeoBbox",
            Self::BboxOrder => "GeoBboxOrder",
            Self::BboxRange => "GeoBboxRange",
            Self::BboxDimension => "GeoBboxDimension",
            Self::Covering => "GeoCovering",
            Self::CoveringName => "GeoCoveringName",
            Self::CoveringColumn => "GeoCoveringColumn",
            Self::CoveringType => "GeoCoveringType",
            Self::CoveringShape => "GeoCoveringShape",
            Self::CoveringAbsent => "GeoCoveringAbsent",
            Self::EncodingContradicts => "EncodingContradicts",
            Self::CrsContradicts => "CrsContradicts",
            Self::CrsNotCompared => "CrsNotCompared",
            Self::EdgesContradict => "EdgesContradict",
            Self::EdgesOnProjected => "EdgesOnProjected",
        }
    }

    /// Returns how much a finding of the code weighs.
    pub fn severity(self) -> Severity
        ensures { result ≡ severity_of self }
    {
        match self {
            Self::NoMetadata
            | Self::RepeatedKey
            | Self::OldVersion
            | Self::ColumnUndeclared
            | Self::BboxRange
            | Self::BboxDimension
            | Self::CoveringShape
            | Self::EdgesOnProjected => Severity::Warning,
            Self::NewVersion | Self::CoveringAbsent | Self::CrsNotCompared => Severity::Note,
            _ => Severity::Error,
        }
    }
}
