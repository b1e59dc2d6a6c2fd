//! How edges run between vertices.
ghost use Rattle.std.specs.Prelude.{◌≡◌, ◌↔◌, Some};
ghost use Rattle.geoarrow_meta.specs.declared.edges.Edges.{Edges};
ghost use Rattle.geoarrow_meta.specs.Read.{edges_text};

/// How an edge runs between two vertices, where it is not a straight line of the plane (GeoArrow, "Extension types",
/// "Extension metadata", key `edges`). A metadata without edges means planar edges.
///
/// Edges matter for distance, length, area, intersection and bounds, and not for a change of format, as from `geoarrow.wkb`
/// to `geoarrow.linestring`. A reader that knows only planar edges may read a column with other edges if its geometries
/// have none (points and multipoints). Otherwise ignoring the edges causes an error that grows with the distance between
/// vertices, and changes every edge that crosses the antimeridian, so the reader should ask its user first, or warn.
///
/// ```rust
/// assert_eq!(rt; Edges::from_text("spherical"), Some(Edges::Spherical));
/// assert_eq!(rt; Edges::from_text("planar"), None);
/// ```
#[derive(Debug, Clone, Copy, PartialEq, Eq, Hash)]
pub enum Edges {
    /// A path by the formula of Thomas, 1965, on the ellipsoid of the CRS.
    Andoyer,
    /// A geodesic by the algorithms of Karney, 2013, on the ellipsoid of the CRS.
    Karney,
    /// The shortest path on a perfect sphere.
    Spherical,
    /// A path by the formula of Thomas, 1970, on the ellipsoid of the CRS.
    Thomas,
    /// A path by Vincenty's formula, on the ellipsoid of the CRS.
    Vincenty,
}

impl Edges {
    /// The text that denotes the edges in a metadata: `andoyer`, `karney`, `spherical`, `thomas` or `vincenty`.
    pub fn as_text(self) -> &'static str
        ensures { result.now ≡ edges_text self }
    {
        match self {
            Edges::Andoyer => "andoyer",
            Edges::Karney => "karney",
            Edges::Spherical => "spherical",
            Edges::Thomas => "thomas",
            Edges::Vincenty => "vincenty",
        }
    }

    /// The edges that a text denotes; `None` for any other text.
    pub fn from_text(text: &str) -> Option<Edges>
        ensures { (e : Edges) → (result ≡ Some e) ↔ (text.now ≡ edges_text e) }
    {
        match text {
            "andoyer" => Some(Edges::Andoyer),
            "karney" => Some(Edges::Karney),
            "spherical" => Some(Edges::Spherical),
            "thomas" => Some(Edges::Thomas),
            "vincenty" => Some(Edges::Vincenty),
            _ => None,
        }
    }
}
