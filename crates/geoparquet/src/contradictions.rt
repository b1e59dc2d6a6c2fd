//! What `geo` says of a column against the column itself.
ghost use Rattle.std.specs.Prelude.{string_bytes, ◌≡◌, ◌∷◌, ◌++◌, [], IfOk, IfSome, OnOk, map, option_map};
ghost use Rattle.json.specs.Value.{value_view};
ghost use Rattle.serde_json.specs.View.{view};
ghost use Rattle.value_tokens.specs.Values.{IsReadable};
ghost use Rattle.arrow_values.specs.Texts.{text_of};
ghost use Rattle.arrow_columns.specs.Column.{column_tree};
ghost use Rattle.geoparquet.specs.declared.code.GeoCode.{GeoCode};
ghost use Rattle.geoparquet.specs.Findings.{finding};
ghost use Rattle.std.specs.List.{All};
ghost use Rattle.geoparquet.specs.Rules.{item_finding, items_findings, unless};
ghost use Rattle.geoparquet.specs.TypeRules.{is_text};
ghost use Rattle.geoparquet.specs.Contradictions.{are_absent, default_edges, layout_in, stored_layout, layout_finding, encoding_layout_findings, layout_findings, single_of, goes_with, types_contradict_findings, own_encoding, named_encoding, element_encoding, field_encoding, layout_encoding, encodings_findings, encoding_contradicts_findings, said_edges, geo_metadata, own_metadata, known_edges, edges_at, own_edges, element_metadata, edges_in, edges_if, element_edges, is_default, are_default_edges, field_edges, edges_claims_findings, edges_contradict_findings};
ghost use Rattle.geoparquet.specs.Sources.{element_view};

use crate::adding::add_part;
use crate::capped::add_capped;
use crate::code::GeoCode;
use crate::finding::{GeoFinding, Version};
use crate::layout::{Layout, is_laid_out, layout_by, layout_text};
use crate::members::{encoding_of, is_edges, is_edges_value};
use crate::pairs::{Defaults, add_texts};
use crate::place::{item_finding, part_place, told_at};
use crate::types::{type_of, type_text, types_in};
use crate::values::geo_value;
use arrow_columns::SchemaColumn;
use geoarrow_layout::{Dimension, NativeKind};
use json::Value;
use parquet_columns::{EdgesClaim, ElementClaim, RootElement};
use std::alloc::{AllocError, Global};

/// Returns the layout of an encoding, where a column has it.
fn layout_in(
    encoding: Option<&str>,
    column: Option<&SchemaColumn>,
    element: Option<&RootElement>,
) -> Option<Layout>
    ensures { result ≡ layout_in (text_of encoding.entry) (option_map (λ c. column_tree c.now) column.entry) (option_map (λ e. element_view e.now) element.entry) }
{
    match (encoding, column) {
        (Some(encoding), Some(column)) => layout_by(encoding, column, element),
        _ => None,
    }
}

/// Returns the layout of the encoding of a column, where it has that.
pub(crate) fn stored_layout(
    version: Version,
    column: Option<&SchemaColumn>,
    element: Option<&RootElement>,
    member: &Value<'_>,
) -> Option<Layout>
    requires { IsReadable (value_view member.now) }
    ensures { result ≡ stored_layout version (option_map (λ c. column_tree c.now) column.entry) (option_map (λ e. element_view e.now) element.entry) (value_view member.now) }
{
    layout_in(encoding_of(version, member), column, element)
}

/// Returns what is found of a column that has another layout than that of its encoding. Errs only
/// when out of memory.
fn layout_finding(
    alloc: Global,
    key: &str,
    found: String,
    wanted: &str,
) -> Result<GeoFinding, AllocError>
    ensures { IfOk result (λ made. finding made ≡ layout_finding key.now (string_bytes found) wanted.now) }
{
    let place = part_place(alloc, key, "encoding")?;
    let code = GeoCode::Layout;
    told_at(alloc, code, Some(key), place, Some(found), Some(wanted))
}

/// Adds what is found where a column has another layout than that of an encoding. Errs only when out
/// of memory.
fn add_other_layout(
    alloc: Global,
    findings: &mut Vec<GeoFinding>,
    key: &str,
    encoding: &str,
    column: &SchemaColumn,
    element: Option<&RootElement>,
) -> Result<(), AllocError>
    ensures { OnOk result (map finding findings.new.items ≡ map finding findings.old.items
        ++ encoding_layout_findings key.now (Some encoding.now) (Some (column_tree column.now)) (option_map (λ e. element_view e.now) element.entry)) }
{
    if is_laid_out(encoding, column, element) {
        return Ok(());
    }
    let found = layout_text(alloc, column, element)?;
    findings.push(layout_finding(alloc, key, found, encoding)?)?;
    Ok(())
}

/// Adds what is found where a column has another layout than that of its encoding (docs/FORMAT.md,
/// 5.1). Errs only when out of memory.
pub(crate) fn add_layout(
    alloc: Global,
    findings: &mut Vec<GeoFinding>,
    version: Version,
    key: &str,
    column: Option<&SchemaColumn>,
    element: Option<&RootElement>,
    member: &Value<'_>,
) -> Result<(), AllocError>
    requires { IsReadable (value_view member.now) }
    ensures { OnOk result (map finding findings.new.items ≡ map finding findings.old.items
        ++ layout_findings version key.now (option_map (λ c. column_tree c.now) column.entry) (option_map (λ e. element_view e.now) element.entry) (value_view member.now)) }
{
    let Some(encoding) = encoding_of(version, member) else {
        return Ok(());
    };
    let Some(column) = column else {
        return Ok(());
    };
    add_other_layout(alloc, findings, key, encoding, column, element)
}

/// Returns the other kind of which types may be in columns of a kind.
fn single_of(kind: NativeKind) -> NativeKind
    ensures { result ≡ single_of kind }
{
    match kind {
        NativeKind::MultiPoint => NativeKind::Point,
        NativeKind::MultiLineString => NativeKind::LineString,
        NativeKind::MultiPolygon => NativeKind::Polygon,
        NativeKind::Point
        | NativeKind::LineString
        | NativeKind::Polygon
        | NativeKind::GeometryCollection => kind,
    }
}

/// Whether a value is that text.
fn is_text(text: &str, value: &Value<'_>) -> bool
    ensures { result ≡ is_text text.now (value_view value.now) }
{
    match value {
        Value::String(other) => *other == text,
        _ => false,
    }
}

/// Whether a value goes with a native layout, or is no type.
fn goes_with(kind: NativeKind, dimension: Dimension, value: &Value<'_>) -> bool
    ensures { result ≡ goes_with kind dimension [] (value_view value.now) }
{
    type_of(value).is_none()
        || (is_text(type_text(kind, dimension), value)
            || is_text(type_text(single_of(kind), dimension), value))
}

/// Adds what is found of a type that does not go with a native layout. Errs only when out of memory.
fn add_type_beside(
    alloc: Global,
    findings: &mut Vec<GeoFinding>,
    key: &str,
    place: &str,
    kind: NativeKind,
    dimension: Dimension,
    index: usize,
    item: &Value<'_>,
) -> Result<(), AllocError>
    requires { IsReadable (value_view item.now) }
    ensures { OnOk result (map finding findings.new.items ≡ map finding findings.old.items
        ++ unless (goes_with kind dimension [] (value_view item.now)) (item_finding GeoCode.TypesContradict key.now place.now index (value_view item.now))) }
{
    if goes_with(kind, dimension, item) {
        return Ok(());
    }
    let code = GeoCode::TypesContradict;
    findings.push(item_finding(alloc, code, key, place, index, item)?)?;
    Ok(())
}

/// Adds what is found of the types that do not go with a native layout. Errs only when out of memory.
fn add_types_beside(
    alloc: Global,
    findings: &mut Vec<GeoFinding>,
    key: &str,
    place: &str,
    kind: NativeKind,
    dimension: Dimension,
    items: &[Value<'_>],
) -> Result<(), AllocError>
    requires { All IsReadable (map value_view items.now) }
    ensures { OnOk result (map finding findings.new.items ≡ map finding findings.old.items
        ++ items_findings (goes_with kind dimension) GeoCode.TypesContradict key.now place.now [] (map value_view items.now)) }
{
    for (index, item) in items.iter().enumerate() {
        add_type_beside(alloc, findings, key, place, kind, dimension, index, item)?;
    }
    Ok(())
}

/// Adds what is found of the types that do not go with the native layout of a column (docs/FORMAT.md,
/// 5.1). Errs only when out of memory.
pub(crate) fn add_types_contradict(
    alloc: Global,
    findings: &mut Vec<GeoFinding>,
    version: Version,
    key: &str,
    column: Option<&SchemaColumn>,
    element: Option<&RootElement>,
    member: &Value<'_>,
) -> Result<(), AllocError>
    requires { IsReadable (value_view member.now) }
    ensures { OnOk result (map finding findings.new.items ≡ map finding findings.old.items
        ++ types_contradict_findings version key.now (option_map (λ c. column_tree c.now) column.entry) (option_map (λ e. element_view e.now) element.entry) (value_view member.now)) }
{
    let Some(Layout::Native(kind, dimension)) = stored_layout(version, column, element, member)
    else {
        return Ok(());
    };
    let Some(items) = types_in(member) else {
        return Ok(());
    };
    let place = part_place(alloc, key, "geometry_types")?;
    let place = place.as_str();
    let mut found = Vec::new(alloc);
    add_types_beside(alloc, &mut found, key, place, kind, dimension, items)?;
    add_capped(findings, found)
}

/// Returns the encoding that an extension name says, as `WKB` or `multipoint` (docs/FORMAT.md, 5):
/// one of the eleven names of GeoArrow, or an old one.
///
/// ```rust
/// assert_eq!(rt; own_encoding("geoarrow.multipoint"), Some("multipoint"));
/// assert_eq!(rt; own_encoding("ogc.wkb"), Some("WKB"));
/// assert_eq!(rt; own_encoding("multipoint"), None);
/// ```
pub fn own_encoding(name: &str) -> Option<&'static str>
    ensures { text_of result ≡ own_encoding name.now }
{
    match name {
        "geoarrow.wkb" | "ogc.wkb" => Some("WKB"),
        "geoarrow.wkt" | "ogc.wkt" => Some("WKT"),
        "geoarrow.point" => Some("point"),
        "geoarrow.linestring" => Some("linestring"),
        "geoarrow.polygon" => Some("polygon"),
        "geoarrow.multipoint" => Some("multipoint"),
        "geoarrow.multilinestring" => Some("multilinestring"),
        "geoarrow.multipolygon" => Some("multipolygon"),
        "geoarrow.geometrycollection" => Some("geometrycollection"),
        "geoarrow.geometry" => Some("geometry"),
        "geoarrow.box" => Some("box"),
        _ => None,
    }
}

/// Returns the encoding that the extension name of a column says.
fn named_encoding(column: Option<&SchemaColumn>) -> Option<&'static str>
    ensures { text_of result ≡ named_encoding (option_map (λ c. column_tree c.now) column.entry) }
{
    own_encoding(column?.extension_type_name()?)
}

/// Returns the encoding that an element says.
pub(crate) fn element_encoding(element: Option<&RootElement>) -> Option<&'static str>
    ensures { text_of result ≡ element_encoding (option_map (λ e. element_view e.now) element.entry) }
{
    let Some(element) = element else {
        return None;
    };
    match &element.claim {
        ElementClaim::Silent => None,
        ElementClaim::Given { .. } => Some("WKB"),
        ElementClaim::Beside { .. } => Some("WKB"),
    }
}

/// Returns the encoding that a field says.
pub(crate) fn field_encoding(
    element: Option<&RootElement>,
    column: Option<&SchemaColumn>,
) -> Option<&'static str>
    ensures { text_of result ≡ field_encoding (option_map (λ e. element_view e.now) element.entry) (option_map (λ c. column_tree c.now) column.entry) }
{
    let Some(element) = element else {
        return named_encoding(column);
    };
    match &element.claim {
        ElementClaim::Silent => named_encoding(column),
        ElementClaim::Given { .. } => None,
        ElementClaim::Beside { .. } => named_encoding(column),
    }
}

/// Returns the encoding that a member says, where the column has the layout of it.
pub(crate) fn layout_encoding<'a>(
    version: Version,
    column: Option<&SchemaColumn>,
    element: Option<&RootElement>,
    member: &Value<'a>,
) -> Option<&'a str>
    requires { IsReadable (value_view member.now) }
    ensures { text_of result ≡ layout_encoding version (option_map (λ c. column_tree c.now) column.entry) (option_map (λ e. element_view e.now) element.entry) (value_view member.now) }
{
    if stored_layout(version, column, element, member).is_some() {
        encoding_of(version, member)
    } else {
        None
    }
}

/// Adds what is found where two of the element, the field and `encoding` say two. Errs only when out
/// of memory.
pub(crate) fn add_encodings(
    alloc: Global,
    findings: &mut Vec<GeoFinding>,
    key: &str,
    column: Option<&SchemaColumn>,
    element: Option<&RootElement>,
    said: Option<&str>,
) -> Result<(), AllocError>
    ensures { OnOk result (map finding findings.new.items ≡ map finding findings.old.items
        ++ encodings_findings key.now (option_map (λ c. column_tree c.now) column.entry) (option_map (λ e. element_view e.now) element.entry) (text_of said.entry)) }
{
    let defaults = Defaults {
        element: false,
        field: false,
        geo: false,
    };
    add_texts(
        alloc,
        findings,
        GeoCode::EncodingContradicts,
        key,
        "encoding",
        defaults,
        element_encoding(element),
        field_encoding(element, column),
        said,
    )
}

/// Adds what is found where two of the element, the field and `encoding` of a member say two
/// (docs/FORMAT.md, 5.1). Errs only when out of memory.
pub(crate) fn add_encoding_contradicts(
    alloc: Global,
    findings: &mut Vec<GeoFinding>,
    version: Version,
    key: &str,
    column: Option<&SchemaColumn>,
    element: Option<&RootElement>,
    member: &Value<'_>,
) -> Result<(), AllocError>
    requires { IsReadable (value_view member.now) }
    ensures { OnOk result (map finding findings.new.items ≡ map finding findings.old.items
        ++ encoding_contradicts_findings version key.now (option_map (λ c. column_tree c.now) column.entry) (option_map (λ e. element_view e.now) element.entry) (value_view member.now)) }
{
    let said = layout_encoding(version, column, element, member);
    add_encodings(alloc, findings, key, column, element, said)
}

/// Returns the edges that a member says.
pub(crate) fn said_edges<'a>(version: Version, found: Option<&Value<'a>>) -> Option<&'a str>
    ensures { text_of result ≡ said_edges version (option_map (λ v. value_view v.now) found.entry) }
{
    if !is_edges_value(version, found) {
        return None;
    }
    match found {
        Some(found) => found.as_str(),
        None => Some("planar"),
    }
}

/// Returns the extension metadata of a column under an extension name that says an encoding.
pub(crate) fn geo_metadata(column: &SchemaColumn) -> Option<&str>
    ensures { text_of result ≡ geo_metadata (column_tree column.now) }
{
    if named_encoding(Some(column)).is_some() {
        column.extension_type_metadata()
    } else {
        None
    }
}

/// Returns the extension metadata of a column, as JSON; null where there are none. Errs only when out
/// of memory.
pub(crate) fn own_metadata(
    alloc: Global,
    column: Option<&SchemaColumn>,
) -> Result<serde_json::Value, AllocError>
    ensures { IfOk result (λ value. view value ≡ own_metadata (option_map (λ c. column_tree c.now) column.entry)) }
{
    let Some(column) = column else {
        return Ok(serde_json::Value::Null);
    };
    match geo_metadata(column) {
        Some(text) => geo_value(alloc, text),
        None => Ok(serde_json::Value::Null),
    }
}

/// Returns the edges that a text names, where GeoArrow has them.
fn known_edges(text: &str) -> Option<&str>
    ensures { text_of result ≡ known_edges text.now }
{
    if is_edges(Version::V2, text) {
        Some(text)
    } else {
        None
    }
}

/// Returns the edges that a value of extension metadata says.
fn edges_at(found: Option<&serde_json::Value>) -> Option<&str>
    ensures { text_of result ≡ edges_at (option_map (λ v. view v.now) found.entry) }
{
    let Some(found) = found else {
        return Some("planar");
    };
    match found {
        serde_json::Value::Null => Some("planar"),
        serde_json::Value::String(text) => known_edges(text.as_str()),
        _ => None,
    }
}

/// Returns the edges that extension metadata say.
fn own_edges(own: &serde_json::Value) -> Option<&str>
    ensures { text_of result ≡ own_edges (view own.now) }
{
    if !own.is_object() {
        return None;
    }
    edges_at(own.get("edges"))
}

/// Returns the metadata of an element, as JSON; null where there are none. Errs only when out of
/// memory.
pub(crate) fn element_metadata(
    alloc: Global,
    element: Option<&RootElement>,
    column: Option<&SchemaColumn>,
) -> Result<serde_json::Value, AllocError>
    ensures { IfOk result (λ value. view value ≡ element_metadata (option_map (λ e. element_view e.now) element.entry) (option_map (λ c. column_tree c.now) column.entry)) }
{
    let Some(element) = element else {
        return Ok(serde_json::Value::Null);
    };
    match &element.claim {
        ElementClaim::Silent => Ok(serde_json::Value::Null),
        ElementClaim::Given { .. } => own_metadata(alloc, column),
        ElementClaim::Beside { metadata, .. } => geo_value(alloc, metadata.as_str()),
    }
}

/// Returns the edges in the metadata of an element.
fn edges_in(metadata: &serde_json::Value) -> Option<&str>
    ensures { text_of result ≡ edges_in (view metadata.now) }
{
    match metadata {
        serde_json::Value::Null => edges_at(None),
        serde_json::Value::Object(_) => own_edges(metadata),
        _ => None,
    }
}

/// Returns the edges in the metadata of an element, where it says them.
fn edges_if(said: EdgesClaim, metadata: &serde_json::Value) -> Option<&str>
    ensures { text_of result ≡ edges_if said (view metadata.now) }
{
    match said {
        EdgesClaim::Said | EdgesClaim::Default => edges_in(metadata),
        EdgesClaim::Broken => None,
    }
}

/// Returns the edges that an element says.
pub(crate) fn element_edges<'v>(
    element: Option<&RootElement>,
    metadata: &'v serde_json::Value,
) -> Option<&'v str>
    ensures { text_of result ≡ element_edges (option_map (λ e. element_view e.now) element.entry) (view metadata.now) }
{
    let Some(element) = element else {
        return None;
    };
    match &element.claim {
        ElementClaim::Silent => None,
        ElementClaim::Given { edges, .. } => edges_if(*edges, metadata),
        ElementClaim::Beside { edges, .. } => edges_if(*edges, metadata),
    }
}

/// Whether edges are said by the format's default.
fn is_default(said: EdgesClaim) -> bool
    ensures { result ≡ is_default said }
{
    matches!(said, EdgesClaim::Default)
}

/// Whether the edges that an element says are the format's default.
pub(crate) fn are_default_edges(element: Option<&RootElement>) -> bool
    ensures { result ≡ are_default_edges (option_map (λ e. element_view e.now) element.entry) }
{
    let Some(element) = element else {
        return false;
    };
    match &element.claim {
        ElementClaim::Silent => false,
        ElementClaim::Given { edges, .. } => is_default(*edges),
        ElementClaim::Beside { edges, .. } => is_default(*edges),
    }
}

/// Returns the edges that a field says.
pub(crate) fn field_edges<'v>(
    element: Option<&RootElement>,
    metadata: &'v serde_json::Value,
) -> Option<&'v str>
    ensures { text_of result ≡ field_edges (option_map (λ e. element_view e.now) element.entry) (view metadata.now) }
{
    let Some(element) = element else {
        return own_edges(metadata);
    };
    match &element.claim {
        ElementClaim::Silent => own_edges(metadata),
        ElementClaim::Given { .. } => None,
        ElementClaim::Beside { .. } => own_edges(metadata),
    }
}

/// Whether extension metadata have no edges, or null.
pub(crate) fn are_absent(found: Option<&serde_json::Value>) -> bool
    ensures { result ≡ are_absent (option_map (λ v. view v.now) found.entry) }
{
    let Some(found) = found else {
        return true;
    };
    matches!(found, serde_json::Value::Null)
}

/// Returns which edges are the default, by the element, the metadata of the field and the value at
/// `edges` of a member.
fn default_edges(
    element: Option<&RootElement>,
    own: &serde_json::Value,
    found: Option<&Value<'_>>,
) -> Defaults
    ensures { result ≡ default_edges (option_map (λ e. element_view e.now) element.entry) (view own.now) (option_map (λ v. value_view v.now) found.entry) }
{
    Defaults {
        element: are_default_edges(element),
        field: are_absent(own.get("edges")),
        geo: found.is_none(),
    }
}

/// Adds what is found where two of the element, the field and `edges` say two. Errs only when out of
/// memory.
pub(crate) fn add_edges_claims(
    alloc: Global,
    findings: &mut Vec<GeoFinding>,
    key: &str,
    found: Option<&Value<'_>>,
    column: Option<&SchemaColumn>,
    element: Option<&RootElement>,
    said: Option<&str>,
) -> Result<(), AllocError>
    ensures { OnOk result (map finding findings.new.items ≡ map finding findings.old.items
        ++ edges_claims_findings key.now (option_map (λ v. value_view v.now) found.entry) (option_map (λ c. column_tree c.now) column.entry) (option_map (λ e. element_view e.now) element.entry) (text_of said.entry)) }
{
    let metadata = element_metadata(alloc, element, column)?;
    let own = own_metadata(alloc, column)?;
    add_texts(
        alloc,
        findings,
        GeoCode::EdgesContradict,
        key,
        "edges",
        default_edges(element, &own, found),
        element_edges(element, &metadata),
        field_edges(element, &own),
        said,
    )
}

/// Adds what is found where two of the element, the field and `edges` of a member say two
/// (docs/FORMAT.md, 5.1). Errs only when out of memory.
pub(crate) fn add_edges_contradict(
    alloc: Global,
    findings: &mut Vec<GeoFinding>,
    version: Version,
    key: &str,
    column: Option<&SchemaColumn>,
    element: Option<&RootElement>,
    member: &Value<'_>,
) -> Result<(), AllocError>
    requires { IsReadable (value_view member.now) }
    ensures { OnOk result (map finding findings.new.items ≡ map finding findings.old.items
        ++ edges_contradict_findings version key.now (option_map (λ c. column_tree c.now) column.entry) (option_map (λ e. element_view e.now) element.entry) (value_view member.now)) }
{
    let found = member.get("edges");
    let said = said_edges(version, found);
    add_edges_claims(alloc, findings, key, found, column, element, said)
}
