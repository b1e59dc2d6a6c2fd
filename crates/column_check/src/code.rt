//! What may be found of a column: codes, with their severities and words.
ghost use Rattle.std.specs.Prelude.{◌≡◌, option_map};
ghost use Rattle.column_check.specs.LayoutWords.{fault_code, fault_help};
ghost use Rattle.column_check.specs.WarningWords.{severity_of, warning_code, warning_message, warning_expected, warning_help};

use geoarrow_layout::LayoutFault;

/// How much a finding weighs.
#[derive(Clone, Copy, Debug, PartialEq, Eq)]
pub enum Severity {
    /// The file breaks a rule of its format, or contradicts itself.
    Error,
    /// The file keeps the rules, and readers may take it otherwise than it is meant.
    Warning,
    /// What is worth to know, and nothing is to be done.
    Note,
}

/// What a finding of a column says. A column is invalid for the faults of a layout, for
/// `UnknownExtension` and `WrongStorage`, and for `MetadataNotJson`, `MetadataNotObject`,
/// `UnknownCrsType` and `UnknownEdges`; the others leave it as it is.
#[derive(Debug, Clone, Copy, PartialEq, Eq)]
pub enum WarningCode {
    /// The type has that fault under the extension name (GeoArrow, "Native encoding").
    Layout(LayoutFault),
    /// The extension name begins with `geoarrow.`, in any letters, or with `ogc.`, and is none of the
    /// eleven, nor an old one of them.
    UnknownExtension,
    /// The extension name is an old one, `ogc.wkb` or `ogc.wkt`, which is read as `geoarrow.wkb` or
    /// `geoarrow.wkt`; `from_extension_field` of `geoarrow_schema` refuses the column.
    OldExtensionName,
    /// The extension name is that of well-known binary or text, and the type is no bytes or no text.
    WrongStorage,
    /// A number of a coordinate or a box is of no floating type (GeoArrow, "Coordinate").
    CoordinatesNotFloat,
    /// A number of a coordinate or a box is `Float16` or `Float32`.
    CoordinatesNotDouble,
    /// The fields of a separated coordinate are x, y, z and m, or those of a box its bounds, in another order.
    AxisOrder,
    /// The fields of a separated coordinate, or of a box, have other names.
    AxisNames,
    /// A field below a geometry is nullable, and none that it is below; the members of unions and
    /// the fields of boxes do not count.
    NullableInner,
    /// A union of a geometry or of a collection is sparse.
    UnionMode,
    /// A field below the column has one of GeoArrow's eleven extension names, or an old one of them.
    NestedGeometry,
    /// The extension metadata are not JSON.
    MetadataNotJson,
    /// The extension metadata are JSON, but no object.
    MetadataNotObject,
    /// The extension metadata are an empty text, which is read as none here;
    /// `from_extension_field` and `from_arrow_field` of `geoarrow_schema` refuse the column.
    MetadataEmpty,
    /// A key of the extension metadata is `crs`, `crs_type` or `edges` but for its letters.
    MetadataKeyCase,
    /// The value of `crs_type` is none of the format's.
    UnknownCrsType,
    /// The value of `edges` is none of the format's, and not `planar`.
    UnknownEdges,
    /// The edges in the extension metadata are `planar`, which is read as no edges;
    /// `from_extension_field` and `from_arrow_field` of `geoarrow_schema` refuse the column.
    EdgesPlanar,
    /// The CRS is an object, or with the type `projjson` a text that is one, and no PROJJSON.
    CrsMalformed,
    /// The CRS is an empty text, which is read as no CRS.
    CrsEmpty,
    /// There is a CRS type, and the CRS is not of its form.
    CrsTypeContradicts,
    /// The CRS is WKT 1, and its type that of WKT 2.
    CrsWkt1,
    /// The CRS is a text that is neither PROJJSON nor WKT nor a code, and has no CRS type.
    CrsWithoutType,
    /// The CRS is neither an object nor a text.
    CrsNumber,
    /// A number in the CRS is not whole, as GeoArrow allows: for that alone `from_extension_field`
    /// and `from_arrow_field` of `geoarrow_schema` refuse the column. It is a note, which is said
    /// only where notes are asked for.
    CrsNotWhole,
}

impl WarningCode {
    /// Each code, in the order of docs/FORMAT.md, 2.6.
    pub const ALL: [WarningCode; 35] = [
        WarningCode::Layout(LayoutFault::UnexpectedType),
        WarningCode::Layout(LayoutFault::BadInterleavedName),
        WarningCode::Layout(LayoutFault::BadSize),
        WarningCode::Layout(LayoutFault::BadFieldNames),
        WarningCode::Layout(LayoutFault::BadFieldCount),
        WarningCode::Layout(LayoutFault::MixedWidths),
        WarningCode::Layout(LayoutFault::BadTypeId),
        WarningCode::Layout(LayoutFault::MemberDimension),
        WarningCode::Layout(LayoutFault::EmptyUnion),
        WarningCode::Layout(LayoutFault::SeveralCoordTypes),
        WarningCode::Layout(LayoutFault::SeveralDimensions),
        WarningCode::UnknownExtension,
        WarningCode::OldExtensionName,
        WarningCode::WrongStorage,
        WarningCode::CoordinatesNotFloat,
        WarningCode::CoordinatesNotDouble,
        WarningCode::AxisOrder,
        WarningCode::AxisNames,
        WarningCode::NullableInner,
        WarningCode::UnionMode,
        WarningCode::NestedGeometry,
        WarningCode::MetadataNotJson,
        WarningCode::MetadataNotObject,
        WarningCode::MetadataEmpty,
        WarningCode::MetadataKeyCase,
        WarningCode::UnknownCrsType,
        WarningCode::UnknownEdges,
        WarningCode::EdgesPlanar,
        WarningCode::CrsMalformed,
        WarningCode::CrsEmpty,
        WarningCode::CrsTypeContradicts,
        WarningCode::CrsWkt1,
        WarningCode::CrsWithoutType,
        WarningCode::CrsNumber,
        WarningCode::CrsNotWhole,
    ];

    /// Returns the code, as reports have it (`docs/FORMAT.md`, 2.6).
    pub fn code(self) -> &'static str
        ensures { result.now ≡ warning_code self }
    {
        match self {
            WarningCode::Layout(fault) => fault_code(fault),
            WarningCode::UnknownExtension => "UnknownExtension",
            WarningCode::OldExtensionName => "OldExtensionName",
            WarningCode::WrongStorage => "WrongStorage",
            WarningCode::CoordinatesNotFloat => "CoordinatesNotFloat",
            WarningCode::CoordinatesNotDouble => "CoordinatesNotDouble",
            WarningCode::AxisOrder => "AxisOrder",
            WarningCode::AxisNames => "AxisNames",
            WarningCode::NullableInner => "NullableInner",
            WarningCode::UnionMode => "UnionMode",
            WarningCode::NestedGeometry => "NestedGeometry",
            WarningCode::MetadataNotJson => "MetadataNotJson",
            WarningCode::MetadataNotObject => "MetadataNotObject",
            WarningCode::MetadataEmpty => "MetadataEmpty",
            WarningCode::MetadataKeyCase => "MetadataKeyCase",
            WarningCode::UnknownCrsType => "UnknownCrsType",
            WarningCode::UnknownEdges => "UnknownEdges",
            WarningCode::EdgesPlanar => "EdgesPlanar",
            WarningCode::CrsMalformed => "CrsMalformed",
            WarningCode::CrsEmpty => "CrsEmpty",
            WarningCode::CrsTypeContradicts => "CrsTypeContradicts",
            WarningCode::CrsWkt1 => "CrsWkt1",
            WarningCode::CrsWithoutType => "CrsWithoutType",
            WarningCode::CrsNumber => "CrsNumber",
            WarningCode::CrsNotWhole => "CrsNotWhole",
        }
    }

    /// Returns how much a finding of the code weighs (`docs/FORMAT.md`, 2.6).
    pub fn severity(self) -> Severity
        ensures { result ≡ severity_of self }
    {
        match self {
            WarningCode::Layout(_)
            | WarningCode::UnknownExtension
            | WarningCode::WrongStorage
            | WarningCode::CoordinatesNotFloat
            | WarningCode::AxisOrder
            | WarningCode::MetadataNotJson
            | WarningCode::MetadataNotObject
            | WarningCode::UnknownCrsType
            | WarningCode::UnknownEdges
            | WarningCode::CrsMalformed
            | WarningCode::CrsTypeContradicts => Severity::Error,
            WarningCode::CrsNotWhole => Severity::Note,
            _ => Severity::Warning,
        }
    }

    /// Returns what is wrong or doubtful.
    pub fn message(self) -> &'static str
        ensures { result.now ≡ warning_message self }
    {
        match self {
            WarningCode::Layout(fault) => fault.text(),
            WarningCode::UnknownExtension => "GeoArrow has no extension type of this name",
            WarningCode::OldExtensionName => "extension name is an old one",
            WarningCode::WrongStorage => STORAGE_MESSAGE,
            WarningCode::CoordinatesNotFloat => "coordinates are not floating-point numbers",
            WarningCode::CoordinatesNotDouble => "coordinates are not float64",
            WarningCode::AxisOrder => "fields are named after the axes, in another order",
            WarningCode::AxisNames => "fields are not named after the axes",
            WarningCode::NullableInner => "child field is nullable",
            WarningCode::UnionMode => "union is sparse",
            WarningCode::NestedGeometry => "child field has a GeoArrow extension name",
            WarningCode::MetadataNotJson => "metadata is not JSON",
            WarningCode::MetadataNotObject => "metadata is not an object",
            WarningCode::MetadataEmpty => "metadata is an empty text",
            WarningCode::MetadataKeyCase =>
                "metadata key is one of the format's but for its letters",
            WarningCode::UnknownCrsType => "unknown crs_type",
            WarningCode::UnknownEdges => "unknown edges",
            WarningCode::EdgesPlanar => "edges are planar by name",
            WarningCode::CrsMalformed => "CRS is an object that is no PROJJSON",
            WarningCode::CrsEmpty => "CRS is an empty text",
            WarningCode::CrsTypeContradicts => "CRS is not of the form that crs_type says",
            WarningCode::CrsWkt1 => "CRS is WKT 1, and crs_type says WKT 2",
            WarningCode::CrsWithoutType => "CRS of no known form without crs_type",
            WarningCode::CrsNumber => "CRS is neither an object nor a text",
            WarningCode::CrsNotWhole => "CRS has a number that is not whole",
        }
    }

    /// Returns what is expected in place of what was found, where the finding wants no layout of its
    /// own (`docs/FORMAT.md`, 2.6).
    pub fn expected(self) -> &'static str
        ensures { result.now ≡ warning_expected self }
    {
        match self {
            WarningCode::Layout(_) => "the layout of its extension name",
            WarningCode::UnknownExtension => NAMES,
            WarningCode::OldExtensionName => "geoarrow.wkb or geoarrow.wkt",
            WarningCode::WrongStorage => "the layout of its extension name",
            WarningCode::CoordinatesNotFloat => "float64",
            WarningCode::CoordinatesNotDouble => "float64",
            WarningCode::AxisOrder => AXES,
            WarningCode::AxisNames => AXES,
            WarningCode::NullableInner => "not null",
            WarningCode::UnionMode => "a dense union",
            WarningCode::NestedGeometry => "the name of a column alone",
            WarningCode::MetadataNotJson => "JSON",
            WarningCode::MetadataNotObject => "an object",
            WarningCode::MetadataEmpty => "no metadata, or {}",
            WarningCode::MetadataKeyCase => "crs, crs_type or edges",
            WarningCode::UnknownCrsType => "projjson, wkt2:2019, authority_code or srid",
            WarningCode::UnknownEdges => "andoyer, karney, spherical, thomas or vincenty",
            WarningCode::EdgesPlanar => "no edges",
            WarningCode::CrsMalformed => "PROJJSON",
            WarningCode::CrsEmpty => "a CRS, or none",
            WarningCode::CrsTypeContradicts => "a CRS of that form",
            WarningCode::CrsWkt1 => "WKT 2",
            WarningCode::CrsWithoutType => "PROJJSON, WKT, a code as EPSG:4326, or a crs_type",
            WarningCode::CrsNumber => "an object or a text",
            WarningCode::CrsNotWhole => "whole numbers",
        }
    }

    /// Returns what helps, where there is something to say (`docs/FORMAT.md`, 2.6).
    pub fn help(self) -> Option<&'static str>
        ensures { option_map (λ text. text.now) result ≡ warning_help self }
    {
        match self {
            WarningCode::Layout(fault) => Some(fault_help(fault)),
            WarningCode::UnknownExtension => Some("Names are compared letter by letter."),
            WarningCode::OldExtensionName => Some("The column is read under the new name."),
            WarningCode::AxisOrder => Some("Readers go by place."),
            WarningCode::AxisNames => Some("Readers go by place."),
            WarningCode::NestedGeometry => Some("GeoParquet takes columns at the root alone."),
            WarningCode::MetadataNotJson => Some("Keys and texts stand in double quotes."),
            WarningCode::MetadataEmpty => Some("It is read as no metadata."),
            WarningCode::MetadataKeyCase => Some("The key is passed over."),
            WarningCode::UnknownEdges => Some("Leave it out where edges are planar."),
            WarningCode::EdgesPlanar => Some("Leave it out; planar is the default."),
            WarningCode::CrsMalformed => Some("projinfo -o PROJJSON prints it, as of EPSG:4326."),
            WarningCode::CrsEmpty => {
                Some("Of a field it is read as no CRS, of an element as the default.")
            },
            WarningCode::CrsTypeContradicts => Some("Name the form in crs_type, or leave it out."),
            WarningCode::CrsWkt1 => Some("projinfo -o WKT2:2019 prints it."),
            WarningCode::CrsNotWhole => Some(NOT_WHOLE_HELP),
            WarningCode::WrongStorage
            | WarningCode::CoordinatesNotFloat
            | WarningCode::CoordinatesNotDouble
            | WarningCode::NullableInner
            | WarningCode::UnionMode
            | WarningCode::MetadataNotObject
            | WarningCode::UnknownCrsType
            | WarningCode::CrsWithoutType
            | WarningCode::CrsNumber => None,
        }
    }
}

/// The code of a layout's fault.
fn fault_code(fault: LayoutFault) -> &'static str
    ensures { result.now ≡ fault_code fault }
{
    match fault {
        LayoutFault::UnexpectedType => "UnexpectedType",
        LayoutFault::BadInterleavedName => "BadInterleavedName",
        LayoutFault::BadSize => "BadSize",
        LayoutFault::BadFieldNames => "BadFieldNames",
        LayoutFault::BadFieldCount => "BadFieldCount",
        LayoutFault::MixedWidths => "MixedWidths",
        LayoutFault::BadTypeId => "BadTypeId",
        LayoutFault::MemberDimension => "MemberDimension",
        LayoutFault::EmptyUnion => "EmptyUnion",
        LayoutFault::SeveralCoordTypes => "SeveralCoordTypes",
        LayoutFault::SeveralDimensions => "SeveralDimensions",
    }
}

/// What helps where a layout has that fault.
fn fault_help(fault: LayoutFault) -> &'static str
    ensures { result.now ≡ fault_help fault }
{
    match fault {
        LayoutFault::UnexpectedType => "The layout has no such type there.",
        LayoutFault::BadInterleavedName => {
            "The field of the list is named xy, xyz, xym or xyzm, by its dimension."
        }
        LayoutFault::BadSize => "The size of the list differs from the name of its field.",
        LayoutFault::BadFieldNames => "The names of the fields are those of no dimension.",
        LayoutFault::BadFieldCount => "The number of the fields is that of no dimension.",
        LayoutFault::MixedWidths => "A list and the list in it are of different widths.",
        LayoutFault::BadTypeId => "The layout has no member of that type id.",
        LayoutFault::MemberDimension => "The dimension of the member differs from its type id.",
        LayoutFault::EmptyUnion => "The union has no members.",
        LayoutFault::SeveralCoordTypes => {
            "The members have both interleaved and separated coordinates."
        }
        LayoutFault::SeveralDimensions => "The members are of several dimensions.",
    }
}

/// The eleven extension names.
const NAMES: &str =
    "geoarrow.point, geoarrow.linestring, geoarrow.polygon, geoarrow.multipoint, geoarrow.multilinestring, geoarrow.multipolygon, geoarrow.geometrycollection, geoarrow.geometry, geoarrow.box, geoarrow.wkb or geoarrow.wkt";

/// Which types the names of well-known binary and text need.
const STORAGE_MESSAGE: &str =
    "well-known binary needs a binary type, and well-known text a text type";

/// The names of axes, and those of the bounds of a box.
const AXES: &str =
    "x, y, z, m in this order; of a box xmin, ymin, zmin, mmin, xmax, ymax, zmax, mmax";

/// What is to be known of numbers that are not whole.
const NOT_WHOLE_HELP: &str =
    "For this alone read and canon of geoarrow_fields refuse the field; other readers do not.";
