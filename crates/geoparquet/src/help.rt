//! What helps where a code is found.
ghost use Rattle.std.specs.Prelude.{◌≡◌, IfOk, map, option_map, string_bytes};
ghost use Rattle.arrow_values.specs.Texts.{text_of};
ghost use Rattle.geoparquet.specs.Words.{judged_text, advice_of, member_advice};
ghost use Rattle.geoparquet.specs.Words.{encoding_names, type_names, edges_names, crs_names, names_of};
ghost use Rattle.geoparquet.specs.Words.{meant, helping, near_name, help_text};
ghost use Rattle.geoparquet.specs.Words.{advice_beside, covering_added, covering_advice, found_advice, is_of_x, order_advice, types_advice};

use crate::code::GeoCode;
use crate::finding::{GeoFinding, Version};
use crate::nearest::nearest;
use std::alloc::{AllocError, Global};

/// Which rules are used.
fn judged_text(version: Version) -> &'static str
    ensures { result.now ≡ judged_text version }
{
    match version {
        Version::Old => "The rules of versions before 1.0.0 are used.",
        Version::V1_0 => "The rules of 1.0.0 are used.",
        Version::V1_1 => "The rules of 1.1.0 are used.",
        Version::V2 => "The rules of version 2 are used, as far as they are known.",
    }
}

impl GeoCode {
    /// Returns what helps where the code is found in metadata of a version, in words, if there is
    /// something to say.
    ///
    /// ```rust
    /// assert_eq!(rt; GeoCode::Epoch.advice(Version::V1_1), Some("A number has no quotes."));
    /// ```
    pub fn advice(self, version: Version) -> Option<&'static str>
        ensures { text_of result ≡ advice_of version self }
    {
        match self {
            Self::NotJson => Some(
                "JSON has no NaN, no Infinity and no byte order mark; leave out a bbox that is \
                 not finite.",
            ),
            Self::RepeatedKey => Some("The last counts here; other readers take the first."),
            Self::Version => Some(judged_text(version)),
            Self::OldVersion => Some(
                "Versions before 1.0.0 are judged in part; write the metadata anew.",
            ),
            Self::NewVersion => Some(judged_text(version)),
            Self::ColumnUndeclared => Some("Readers of GeoParquet do not see the column."),
            _ => self.member_advice(),
        }
    }

    /// What helps where the code is found of a member of `columns`.
    fn member_advice(self) -> Option<&'static str>
        ensures { text_of result ≡ member_advice self }
    {
        match self {
            Self::Encoding => Some("The name has no geoarrow. before it."),
            Self::TypesVersion => Some("Types with measures come with version 2."),
            Self::Crs => Some("projinfo -o PROJJSON CODE prints one, where CODE is as EPSG:4326."),
            Self::Orientation => Some("Leave it out if rings go either way."),
            Self::Epoch => Some("A number has no quotes."),
            Self::BboxOrder => Some(
                "Only a box of a geographic CRS has an xmin above its xmax, where it crosses the \
                 antimeridian.",
            ),
            Self::CoveringName => {
                Some("Where bounds are exchanged, filters by this covering drop rows.")
            }
            Self::CoveringAbsent => Some(
                "Add \"covering\":{\"bbox\":{\"xmin\":[NAME,\"xmin\"],\
                 \"ymin\":[NAME,\"ymin\"],\"xmax\":[NAME,\"xmax\"],\
                 \"ymax\":[NAME,\"ymax\"]}}, where NAME is the name found.",
            ),
            Self::CrsContradicts => Some(
                "That of the element counts first, then that of geo, then that of the field; a \
                 default counts last.",
            ),
            Self::EdgesContradict => Some(
                "Those of the element count first, then those of geo, then those of the field; a \
                 default counts last.",
            ),
            _ => None,
        }
    }

    /// The names that are expected where the code is found in metadata of a version, as JSON.
    fn names(self, version: Version) -> &'static [&'static str]
        ensures { map (λ name. name.now) result.now ≡ names_of version self }
    {
        match self {
            Self::Encoding => encoding_names(version),
            Self::Types => type_names(),
            Self::Edges => edges_names(version),
            Self::Orientation => &["\"counterclockwise\""],
            Self::CrsMalformed => crs_names(),
            _ => &[],
        }
    }
}

/// The names of encodings of a version.
fn encoding_names(version: Version) -> &'static [&'static str]
    ensures { map (λ name. name.now) result.now ≡ encoding_names version }
{
    match version {
        Version::Old | Version::V1_0 => &["\"WKB\""],
        _ => &[
            "\"WKB\"",
            "\"point\"",
            "\"linestring\"",
            "\"polygon\"",
            "\"multipoint\"",
            "\"multilinestring\"",
            "\"multipolygon\"",
        ],
    }
}

/// The names of types, alone and with z.
fn type_names() -> &'static [&'static str]
    ensures { map (λ name. name.now) result.now ≡ type_names }
{
    &[
        "\"Point\"",
        "\"LineString\"",
        "\"Polygon\"",
        "\"MultiPoint\"",
        "\"MultiLineString\"",
        "\"MultiPolygon\"",
        "\"GeometryCollection\"",
        "\"Point Z\"",
        "\"LineString Z\"",
        "\"Polygon Z\"",
        "\"MultiPoint Z\"",
        "\"MultiLineString Z\"",
        "\"MultiPolygon Z\"",
        "\"GeometryCollection Z\"",
    ]
}

/// The names of edges of a version.
fn edges_names(version: Version) -> &'static [&'static str]
    ensures { map (λ name. name.now) result.now ≡ edges_names version }
{
    match version {
        Version::V2 => &[
            "\"planar\"",
            "\"spherical\"",
            "\"vincenty\"",
            "\"thomas\"",
            "\"andoyer\"",
            "\"karney\"",
        ],
        _ => &["\"planar\"", "\"spherical\""],
    }
}

/// The names of types of a CRS.
fn crs_names() -> &'static [&'static str]
    ensures { map (λ name. name.now) result.now ≡ crs_names }
{
    &[
        "\"GeographicCRS\"",
        "\"ProjectedCRS\"",
        "\"CompoundCRS\"",
        "\"BoundCRS\"",
        "\"GeodeticCRS\"",
        "\"VerticalCRS\"",
        "\"EngineeringCRS\"",
        "\"ParametricCRS\"",
        "\"TemporalCRS\"",
    ]
}

impl GeoFinding {
    /// Returns what helps, in words, if there is something to say: the name that what is found is
    /// most like, where a name is expected and one is like it; else what is said of the code in
    /// metadata of the version. Errs only when out of memory.
    pub fn help(&self, alloc: Global, version: Version) -> Result<Option<String>, AllocError>
        ensures { IfOk result (λ help. option_map string_bytes help ≡ help_text version self.now.code (option_map string_bytes self.now.found)) }
    {
        match near_name(alloc, version, self)? {
            Some(name) => Ok(Some(meant(alloc, name)?)),
            None => advice_beside(alloc, version, self.code, self.found.as_deref()),
        }
    }
}

/// The name that what is found is most like.
fn near_name(
    alloc: Global,
    version: Version,
    finding: &GeoFinding,
) -> Result<Option<&'static str>, AllocError>
    ensures { IfOk result (λ name. text_of name ≡ near_name version finding.now.code (option_map string_bytes finding.now.found)) }
{
    match &finding.found {
        Some(found) => nearest(alloc, found.as_str(), finding.code.names(version)),
        None => Ok(None),
    }
}

/// The question whether a name is meant.
fn meant(alloc: Global, name: &str) -> Result<String, AllocError>
    ensures { IfOk result (λ s. string_bytes s ≡ meant name.now) }
{
    format!(in alloc; "Did you mean {name}?")
}

/// What helps by the code and what is found, but for a name.
fn advice_beside(
    alloc: Global,
    version: Version,
    code: GeoCode,
    found: Option<&str>,
) -> Result<Option<String>, AllocError>
    ensures { IfOk result (λ s. option_map string_bytes s ≡ advice_beside version code (text_of found.entry)) }
{
    match found {
        Some(found) => found_advice(alloc, version, code, found),
        None => copied(alloc, code.advice(version)),
    }
}

/// What helps by the code and a text that is found, but for a name.
fn found_advice(
    alloc: Global,
    version: Version,
    code: GeoCode,
    found: &str,
) -> Result<Option<String>, AllocError>
    ensures { IfOk result (λ s. option_map string_bytes s ≡ found_advice version code found.now) }
{
    match code {
        GeoCode::BboxOrder => copied(alloc, order_advice(found)),
        GeoCode::CoveringAbsent => covering_advice(alloc, found),
        GeoCode::Types => copied(alloc, types_advice(found)),
        code => copied(alloc, code.advice(version)),
    }
}

/// What helps where bounds are not in order, by what is found of them.
fn order_advice(found: &str) -> Option<&'static str>
    ensures { text_of result ≡ order_advice found.now }
{
    if is_of_x(found.as_bytes()) {
        GeoCode::BboxOrder.member_advice()
    } else {
        None
    }
}

/// Whether bounds that are found are those of x.
fn is_of_x(found: &[u8]) -> bool
    ensures { result ≡ is_of_x found.now }
{
    match found {
        [first, ..] => *first == b'x',
        [] => false,
    }
}

/// What helps where geometry types are absent or wrong, by what is found in their place.
fn types_advice(found: &str) -> Option<&'static str>
    ensures { text_of result ≡ types_advice found.now }
{
    if found == "geometry_type" {
        Some("The member has geometry_type, the name of 0.4.")
    } else {
        None
    }
}

/// The covering to add, by the name of its group as JSON.
fn covering_advice(alloc: Global, found: &str) -> Result<Option<String>, AllocError>
    ensures { IfOk result (λ s. option_map string_bytes s ≡ covering_advice found.now) }
{
    if found.len() > 120 {
        return copied(alloc, GeoCode::CoveringAbsent.member_advice());
    }
    Ok(Some(covering_added(alloc, found)?))
}

/// The covering to add, by the name of its group as JSON.
fn covering_added(alloc: Global, name: &str) -> Result<String, AllocError>
    ensures { IfOk result (λ s. string_bytes s ≡ covering_added name.now) }
{
    format!(in alloc;
        "Add \"covering\":{{\"bbox\":{{\"xmin\":[{name},\"xmin\"],\"ymin\":[{name},\"ymin\"],\"xmax\":[{name},\"xmax\"],\"ymax\":[{name},\"ymax\"]}}}}."
    )
}

/// A copy of a text, if there is one.
fn copied(alloc: Global, text: Option<&str>) -> Result<Option<String>, AllocError>
    ensures { IfOk result (λ s. option_map string_bytes s ≡ text_of text.entry) }
{
    match text {
        Some(text) => Ok(Some(String::from_str(alloc, text)?)),
        None => Ok(None),
    }
}
