//! What is said of a column.
ghost use Rattle.std.specs.Prelude.{◌≡◌, option_map};
ghost use Rattle.column_check.specs.States.{is_invalid, is_geometry, geometry_in};

use crate::data_type::TypeFault;
use crate::metadata::{ColumnMetadata, MetadataFault};
use geoarrow_layout::Kind;

/// What is said of a column.
#[derive(Debug, Drop)]
pub enum Finding {
    /// Geometries: the column has one of GeoArrow's eleven extension names, or an old one of them (`ogc.wkb`, `ogc.wkt`), a type of a kind
    /// under it, and metadata of the format.
    Geometry(Geometry),
    /// The column has one of these names, and its type or its metadata do not go with it; or a name that only
    /// GeoArrow or OGC would give, and that is none of these.
    Invalid(Reasons),
    /// Another extension type, of which nothing more is said.
    Extension,
    /// The column has no extension name, and this is inferred from its type, as its name allows.
    Inferred(Geometry),
    /// Anything else.
    Plain,
}

impl Finding {
    /// Whether the column is invalid.
    pub fn is_invalid(&self) -> bool
        ensures { result ≡ is_invalid self.now }
    {
        matches!(self, Finding::Invalid(_))
    }

    /// Whether the column has geometries by its extension name.
    pub fn is_geometry(&self) -> bool
        ensures { result ≡ is_geometry self.now }
    {
        matches!(self, Finding::Geometry(_))
    }

    /// The geometries that the column holds or is taken for, if any. Allocates nothing.
    pub fn geometry(&self) -> Option<&Geometry>
        ensures { option_map (λ g. g.now) result ≡ geometry_in self.now }
    {
        match self {
            Finding::Geometry(geometry) | Finding::Inferred(geometry) => Some(geometry),
            Finding::Invalid(_) | Finding::Extension | Finding::Plain => None,
        }
    }
}

/// A column of geometries.
#[derive(Debug, Drop)]
pub struct Geometry {
    /// The kind: the geometry type, and how geometries are laid out.
    pub kind: Kind,
    /// The values of the extension metadata.
    pub metadata: ColumnMetadata,
}

/// Why a column is invalid: all that holds of its extension name, its type and its metadata; or that
/// it is not read.
#[derive(Debug, Drop)]
pub enum Reasons {
    /// The extension name begins with `geoarrow.`, in any letters, or with `ogc.`, and is none of the eleven, nor an old one of them.
    UnknownExtension,
    /// The type is of no kind under the extension name.
    DataType(TypeFault),
    /// The metadata text denotes no values of the format.
    Metadata(MetadataFault),
    /// The type is of no kind under the extension name, and the metadata text denotes no values of the format.
    DataTypeAndMetadata(TypeFault, MetadataFault),
    /// Of the column a finding of the file says why: its element breaks a rule, or its stored field
    /// contradicts it. `inspect_column` returns this of no column.
    Unread,
}
