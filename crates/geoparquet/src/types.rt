//! The names of geometry types, and `geometry_types`.
ghost use Rattle.std.specs.Prelude.{◌≡◌, ◌++◌, ◌||◌, [], ◌∷◌, IfOk, IfSome, List, None, OnOk, Some, codes, map, not, option_map, string_bytes};
ghost use Rattle.std.specs.BTreeSet.{contains_text};
ghost use Rattle.std.specs.List.{All, list_any};
ghost use Rattle.json.specs.Json.{Json};
ghost use Rattle.json.specs.Value.{value_view};
ghost use Rattle.arrow_values.specs.Tree.{Text};
ghost use Rattle.value_tokens.specs.Values.{IsReadable};
ghost use Rattle.geoparquet.specs.Findings.{finding};
ghost use Rattle.geoparquet.specs.Rules.{part_place, told_at, items_in, items_findings};
ghost use Rattle.geoparquet.specs.TypeNames.{type_text, dimension_named, type_named};
ghost use Rattle.geoparquet.specs.TypeRules.{types_in, type_of, is_text, is_new_type, type_has_m, is_without_m, takes_m, no_types_found, found_types, found_with_m, types_findings, types_version_findings};

use crate::adding::add_told;
use crate::capped::add_capped;
use crate::code::GeoCode;
use crate::finding::{GeoFinding, Version};
use crate::place::{add_item, part_place};
use crate::version::is_judged;
use column_check::shown_value;
use geoarrow_layout::{Dimension, NativeKind};
use json::Value;
use std::alloc::{AllocError, Global};
use std::collections::BTreeSet;
use value_tokens::member_of;

/// Returns the name of the type of a kind in a dimension (GeoParquet, "geometry_types").
///
/// ```rust
/// assert_eq!(rt; type_text(NativeKind::Point, Dimension::XYZ), "Point Z");
/// ```
pub fn type_text(kind: NativeKind, dimension: Dimension) -> &'static str
    ensures { result.now ≡ type_text kind dimension }
{
    match (kind, dimension) {
        (NativeKind::Point, Dimension::XY) => "Point",
        (NativeKind::Point, Dimension::XYZ) => "Point Z",
        (NativeKind::Point, Dimension::XYM) => "Point M",
        (NativeKind::Point, Dimension::XYZM) => "Point ZM",
        (NativeKind::LineString, Dimension::XY) => "LineString",
        (NativeKind::LineString, Dimension::XYZ) => "LineString Z",
        (NativeKind::LineString, Dimension::XYM) => "LineString M",
        (NativeKind::LineString, Dimension::XYZM) => "LineString ZM",
        (NativeKind::Polygon, Dimension::XY) => "Polygon",
        (NativeKind::Polygon, Dimension::XYZ) => "Polygon Z",
        (NativeKind::Polygon, Dimension::XYM) => "Polygon M",
        (NativeKind::Polygon, Dimension::XYZM) => "Polygon ZM",
        (NativeKind::MultiPoint, Dimension::XY) => "MultiPoint",
        (NativeKind::MultiPoint, Dimension::XYZ) => "MultiPoint Z",
        (NativeKind::MultiPoint, Dimension::XYM) => "MultiPoint M",
        (NativeKind::MultiPoint, Dimension::XYZM) => "MultiPoint ZM",
        (NativeKind::MultiLineString, Dimension::XY) => "MultiLineString",
        (NativeKind::MultiLineString, Dimension::XYZ) => "MultiLineString Z",
        (NativeKind::MultiLineString, Dimension::XYM) => "MultiLineString M",
        (NativeKind::MultiLineString, Dimension::XYZM) => "MultiLineString ZM",
        (NativeKind::MultiPolygon, Dimension::XY) => "MultiPolygon",
        (NativeKind::MultiPolygon, Dimension::XYZ) => "MultiPolygon Z",
        (NativeKind::MultiPolygon, Dimension::XYM) => "MultiPolygon M",
        (NativeKind::MultiPolygon, Dimension::XYZM) => "MultiPolygon ZM",
        (NativeKind::GeometryCollection, Dimension::XY) => "GeometryCollection",
        (NativeKind::GeometryCollection, Dimension::XYZ) => "GeometryCollection Z",
        (NativeKind::GeometryCollection, Dimension::XYM) => "GeometryCollection M",
        (NativeKind::GeometryCollection, Dimension::XYZM) => "GeometryCollection ZM",
    }
}

/// The dimension in which a text is the name of a kind.
fn dimension_named(kind: NativeKind, text: &str) -> Option<Dimension>
    ensures { result ≡ dimension_named kind text.now }
{
    if text == type_text(kind, Dimension::XY) {
        return Some(Dimension::XY);
    }
    if text == type_text(kind, Dimension::XYZ) {
        return Some(Dimension::XYZ);
    }
    if text == type_text(kind, Dimension::XYM) {
        return Some(Dimension::XYM);
    }
    if text == type_text(kind, Dimension::XYZM) {
        return Some(Dimension::XYZM);
    }
    None
}

/// Returns the type that has that name (GeoParquet, "geometry_types").
pub(crate) fn type_named(text: &str) -> Option<(NativeKind, Dimension)>
    ensures { result ≡ type_named text.now }
{
    if let Some(dimension) = dimension_named(NativeKind::Point, text) {
        return Some((NativeKind::Point, dimension));
    }
    if let Some(dimension) = dimension_named(NativeKind::LineString, text) {
        return Some((NativeKind::LineString, dimension));
    }
    if let Some(dimension) = dimension_named(NativeKind::Polygon, text) {
        return Some((NativeKind::Polygon, dimension));
    }
    if let Some(dimension) = dimension_named(NativeKind::MultiPoint, text) {
        return Some((NativeKind::MultiPoint, dimension));
    }
    if let Some(dimension) = dimension_named(NativeKind::MultiLineString, text) {
        return Some((NativeKind::MultiLineString, dimension));
    }
    if let Some(dimension) = dimension_named(NativeKind::MultiPolygon, text) {
        return Some((NativeKind::MultiPolygon, dimension));
    }
    if let Some(dimension) = dimension_named(NativeKind::GeometryCollection, text) {
        return Some((NativeKind::GeometryCollection, dimension));
    }
    None
}

/// Returns the type that a value says, where it is the name of one.
pub(crate) fn type_of(value: &Value<'_>) -> Option<(NativeKind, Dimension)>
    ensures { result ≡ type_of (value_view value.now) }
{
    type_named(value.as_str()?)
}

/// Returns the items of a value that is an array.
pub(crate) fn items_in<'v, 'a>(found: Option<&'v Value<'a>>) -> Option<&'v [Value<'a>]>
    requires { IfSome found (λ v. IsReadable (value_view v.now)) }
    ensures value { option_map (λ vs. map value_view vs.now) result ≡ items_in (option_map (λ v. value_view v.now) found.entry) }
    ensures readable { IfSome result (λ vs. All IsReadable (map value_view vs.now)) }
{
    let value = found?;
    match value {
        Value::Array(items) => Some(items.as_slice()),
        _ => None,
    }
}

/// Returns the items of `geometry_types` of a column's member, where it is an array.
pub(crate) fn types_in<'v, 'a>(member: &'v Value<'a>) -> Option<&'v [Value<'a>]>
    requires { IsReadable (value_view member.now) }
    ensures value { option_map (λ vs. map value_view vs.now) result ≡ types_in (value_view member.now) }
    ensures readable { IfSome result (λ vs. All IsReadable (map value_view vs.now)) }
{
    items_in(member_of(member, "geometry_types"))
}

/// Adds what is found of `geometry_types`: of an array of which each item is to be the name of a type,
/// and none twice; then of each type with an m before version 2 (docs/FORMAT.md, 5). Errs only when
/// out of memory.
pub(crate) fn add_types(
    alloc: Global,
    findings: &mut Vec<GeoFinding>,
    version: Version,
    key: &str,
    member: &Value<'_>,
) -> Result<(), AllocError>
    requires { IsReadable (value_view member.now) }
    ensures { OnOk result (map finding findings.new.items ≡ map finding findings.old.items ++ (types_findings version key.now (value_view member.now) ++ types_version_findings version key.now (value_view member.now))) }
{
    if is_judged(version) {
        let old = member.get("geometry_type").is_some();
        add_found_types(
            alloc,
            findings,
            key,
            old,
            member_of(member, "geometry_types"),
        )?;
    }
    if takes_m(version) {
        return Ok(());
    }
    add_types_version(alloc, findings, key, types_in(member))
}

/// Adds what is found of types with an m, in a version that has none.
fn add_types_version(
    alloc: Global,
    findings: &mut Vec<GeoFinding>,
    key: &str,
    types: Option<&[Value<'_>]>,
) -> Result<(), AllocError>
    requires { IfSome types (λ vs. All IsReadable (map value_view vs.now)) }
    ensures { OnOk result (map finding findings.new.items ≡ map finding findings.old.items ++ found_with_m key.now (option_map (λ vs. map value_view vs.now) types.entry)) }
{
    let Some(items) = types else {
        return Ok(());
    };
    let place = part_place(alloc, key, "geometry_types")?;
    let mut found = Vec::new(alloc);
    add_with_m(alloc, &mut found, key, place.as_str(), items)?;
    add_capped(findings, found)
}

/// Whether types may have an m in a version.
fn takes_m(version: Version) -> bool
    ensures { result ≡ takes_m version }
{
    matches!(version, Version::Old | Version::V2)
}

/// Adds what is found of `geometry_types` in any version that is judged.
fn add_found_types(
    alloc: Global,
    findings: &mut Vec<GeoFinding>,
    key: &str,
    old: bool,
    found: Option<&Value<'_>>,
) -> Result<(), AllocError>
    requires { IfSome found (λ v. IsReadable (value_view v.now)) }
    ensures { OnOk result (map finding findings.new.items ≡ map finding findings.old.items ++ found_types key.now old (option_map (λ v. value_view v.now) found.entry)) }
{
    if let Some(items) = items_in(found) {
        let place = part_place(alloc, key, "geometry_types")?;
        let mut found = Vec::new(alloc);
        add_items(alloc, &mut found, key, place.as_str(), items)?;
        return add_capped(findings, found);
    }
    add_no_types(alloc, findings, key, old, found)
}

/// Adds what is found where there is no array of types.
fn add_no_types(
    alloc: Global,
    findings: &mut Vec<GeoFinding>,
    key: &str,
    old: bool,
    found: Option<&Value<'_>>,
) -> Result<(), AllocError>
    requires { IfSome found (λ v. IsReadable (value_view v.now)) }
    ensures { OnOk result (map finding findings.new.items ≡ map finding findings.old.items
        ++ told_at GeoCode.Types (Some key.now) (part_place key.now (codes "geometry_types")) (no_types_found old (option_map (λ v. value_view v.now) found.entry)) None ∷ []) }
{
    let found = no_types_found(alloc, old, found)?;
    let found = found.as_deref();
    add_told(
        alloc,
        findings,
        GeoCode::Types,
        key,
        "geometry_types",
        found,
        None,
    )
}

/// What is found in place of an array of types: what stands there; where nothing does, the key of 0.4,
/// if that is there.
fn no_types_found(
    alloc: Global,
    old: bool,
    found: Option<&Value<'_>>,
) -> Result<Option<String>, AllocError>
    requires { IfSome found (λ v. IsReadable (value_view v.now)) }
    ensures { IfOk result (λ text. option_map string_bytes text ≡ no_types_found old (option_map (λ v. value_view v.now) found.entry)) }
{
    if let Some(found) = found {
        return Ok(Some(shown_value(alloc, found)?));
    }
    if old {
        return Ok(Some(String::from_str(alloc, "geometry_type")?));
    }
    Ok(None)
}

/// Adds what is found of the items of `geometry_types`, which stands at that place, each by those
/// before it.
pub(crate) fn add_items(
    alloc: Global,
    findings: &mut Vec<GeoFinding>,
    key: &str,
    place: &str,
    items: &[Value<'_>],
) -> Result<(), AllocError>
    requires { All IsReadable (map value_view items.now) }
    ensures { OnOk result (map finding findings.new.items ≡ map finding findings.old.items ++ items_findings is_new_type GeoCode.Types key.now place.now [] (map value_view items.now)) }
{
    let mut before = BTreeSet::new(alloc);
    for (index, item) in items.iter().enumerate() {
        let kept = is_new_type(&before, item);
        add_item(
            alloc,
            findings,
            kept,
            GeoCode::Types,
            key,
            place,
            index,
            item,
        )?;
        add_text(alloc, &mut before, item)?;
    }
    Ok(())
}

/// Whether a value is the name of a type, and none of those texts.
fn is_new_type(before: &BTreeSet<String>, value: &Value<'_>) -> bool
    ensures { (js : List Json) → ((s : Text) → contains_text before.now s ≡ list_any (is_text s) js) → result ≡ is_new_type js (value_view value.now) }
{
    match value {
        Value::String(text) => type_named(text).is_some() && !before.contains(*text),
        _ => false,
    }
}

/// Adds a value, where it is a text, to texts. Errs only when out of memory.
fn add_text(
    alloc: Global,
    texts: &mut BTreeSet<String>,
    value: &Value<'_>,
) -> Result<(), AllocError>
    ensures { OnOk result ((s : Text) → contains_text texts.new s ≡ (contains_text texts.old s || is_text s (value_view value.now))) }
{
    if let Value::String(text) = value {
        let _ = texts.insert(String::from_str(alloc, text)?)?;
    }
    Ok(())
}

/// Adds what is found of the items with an m of `geometry_types`, which stands at that place.
fn add_with_m(
    alloc: Global,
    findings: &mut Vec<GeoFinding>,
    key: &str,
    place: &str,
    items: &[Value<'_>],
) -> Result<(), AllocError>
    requires { All IsReadable (map value_view items.now) }
    ensures { OnOk result (map finding findings.new.items ≡ map finding findings.old.items ++ items_findings is_without_m GeoCode.TypesVersion key.now place.now [] (map value_view items.now)) }
{
    for (index, item) in items.iter().enumerate() {
        let kept = is_without_m(item);
        add_item(
            alloc,
            findings,
            kept,
            GeoCode::TypesVersion,
            key,
            place,
            index,
            item,
        )?;
    }
    Ok(())
}

/// Whether a value is not the name of a type with an m.
fn is_without_m(value: &Value<'_>) -> bool
    ensures { result ≡ not (type_has_m (type_of (value_view value.now))) }
{
    !matches!(type_of(value), Some((_, Dimension::XYM | Dimension::XYZM)))
}
