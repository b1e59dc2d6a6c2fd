//! What a column is made of.

use geoarrow_layout::Kind;
use geoarrow_meta::{CrsType, Edges, WrittenCrs};

/// What a column is made of.
///
/// ```rust
/// let new = NewColumn {
///     name: "geom",
///     nullable: true,
///     kind: Kind::Wkb(Width::Plain),
///     crs: WrittenCrs::Text("EPSG:4326"),
///     crs_type: Some(CrsType::AuthorityCode),
///     edges: None,
/// };
/// let column = make_column(alloc, &new)?;
/// assert_eq!(rt; column.extension_type_name(), Some("geoarrow.wkb"));
/// ```
#[derive(Clone, Copy, Debug)]
pub struct NewColumn<'a> {
    /// The name.
    pub name: &'a str,
    /// Whether values may be null.
    pub nullable: bool,
    /// The kind: the geometry type, and how geometries are laid out.
    pub kind: Kind,
    /// The coordinate reference system, as it is written: none, a text as `EPSG:4326` or WKT, or
    /// the text of a PROJJSON, whose numbers and members stay as they are.
    pub crs: WrittenCrs<'a>,
    /// How the coordinate reference system is written; only where there is one.
    pub crs_type: Option<CrsType>,
    /// How edges run; planar where there is none.
    pub edges: Option<Edges>,
}
