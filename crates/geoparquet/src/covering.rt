//! What is found of the covering of a column.
ghost use Rattle.std.specs.Prelude.{◌≡◌, ◌++◌, IfOk, IfSome, OnOk, Some, codes, is_some, map, flat_map, option_map, string_bytes};
ghost use Rattle.json.specs.Find.{at};
ghost use Rattle.json.specs.Value.{value_view};
ghost use Rattle.value_tokens.specs.Values.{IsReadable, is_object};
ghost use Rattle.arrow_columns.specs.Below.{ref_tree};
ghost use Rattle.arrow_columns.specs.Column.{column_tree};
ghost use Rattle.arrow_columns.specs.Notation.{type_text};
ghost use Rattle.geoparquet.specs.Findings.{finding, shown};
ghost use Rattle.geoparquet.specs.declared.code.GeoCode.{GeoCode};
ghost use Rattle.geoparquet.specs.Coverings.{bound_findings, is_named, second_of, name_findings, path_at, leads, is_fitting, first_astray, first_unfitting, finding_at_bound, finding_of_first, shape_findings, type_findings, fit_findings, group_findings, first_path_findings, have_paths, all_findings, bbox_findings, found_bbox_findings, found_covering_findings, covering_findings, bound_tree, path_tree, group_tree, IsBoundRead, AreBoundsRead};

use crate::adding::{add_at, add_part};
use crate::bounds::{Bound, Path, bounds_of, path_at};
use crate::code::GeoCode;
use crate::finding::{GeoFinding, Version};
use crate::group::{Group, fits, group_of, is_shaped, is_single, type_at};
use crate::place::{part_place, told_at};
use crate::version::is_judged;
use arrow_columns::{ColumnNames, SchemaColumn, TypeRef};
use column_check::{item_place, member_place, shown};
use json::Value;
use std::alloc::{AllocError, Global};
use value_tokens::member_of;

/// Where the bounds of a covering stand: the key of the column, and the place of `bbox`.
#[derive(Clone, Copy)]
struct Spot<'s> {
    key: &'s str,
    place: &'s str,
}

/// Adds a finding at a bound. Errs only when out of memory.
fn add_at_bound(
    alloc: Global,
    findings: &mut Vec<GeoFinding>,
    code: GeoCode,
    spot: Spot<'_>,
    bound: Bound<'_, '_>,
) -> Result<(), AllocError>
    requires { IsBoundRead bound }
    ensures { OnOk result (map finding findings.new.items ≡ map finding findings.old.items
        ++ finding_at_bound code spot.entry.key.now spot.entry.place.now (Some (bound_tree bound.entry))) }
{
    let place = member_place(alloc, spot.place, bound.name)?;
    add_at(
        alloc,
        findings,
        code,
        Some(spot.key),
        place.as_str(),
        bound.found,
        None,
    )
}

/// Whether a bound has a path.
fn has_path(bound: Bound<'_, '_>) -> bool
    ensures { result ≡ is_some (path_at (bound_tree bound.entry)) }
{
    match path_at(bound) {
        Some(_) => true,
        None => false,
    }
}

/// Adds what is found of a bound that has no path. Errs only when out of memory.
fn add_bound(
    alloc: Global,
    findings: &mut Vec<GeoFinding>,
    spot: Spot<'_>,
    bound: Bound<'_, '_>,
) -> Result<(), AllocError>
    requires { IsBoundRead bound }
    ensures { OnOk result (map finding findings.new.items ≡ map finding findings.old.items
        ++ bound_findings spot.entry.key.now spot.entry.place.now (bound_tree bound.entry)) }
{
    if has_path(bound) {
        return Ok(());
    }
    add_at_bound(alloc, findings, GeoCode::Covering, spot, bound)
}

/// Adds what is found of bounds that have no path. Errs only when out of memory.
fn add_bounds(
    alloc: Global,
    findings: &mut Vec<GeoFinding>,
    spot: Spot<'_>,
    bounds: &[Bound<'_, '_>],
) -> Result<(), AllocError>
    requires { AreBoundsRead bounds.now }
    ensures { OnOk result (map finding findings.new.items ≡ map finding findings.old.items
        ++ flat_map (bound_findings spot.entry.key.now spot.entry.place.now) (map bound_tree bounds.now)) }
{
    let [first, rest @ ..] = bounds else {
        return Ok(());
    };
    add_bound(alloc, findings, spot, *first)?;
    add_bounds(alloc, findings, spot, rest)
}

/// Whether a path ends in the name of its bound; a bound without a path is not judged.
fn is_named(name: &str, path: Option<Path<'_>>) -> bool
    ensures { result ≡ is_named name.now (option_map path_tree path.entry) }
{
    match path {
        Some(path) => path.child == name,
        None => true,
    }
}

/// Returns the item of an array at an index.
pub(crate) fn item_at<'v, 'a>(value: &'v Value<'a>, index: usize) -> Option<&'v Value<'a>>
    requires { IsReadable (value_view value.now) }
    ensures value { option_map (λ v. value_view v.now) result ≡ at index (value_view value.now) }
    ensures read { IfSome result (λ v. IsReadable (value_view v.now)) }
{
    value.at(index)
}

/// Returns the second item of what stands at a bound.
fn second_of<'v, 'a>(bound: Bound<'v, 'a>) -> Option<&'v Value<'a>>
    requires { IsBoundRead bound }
    ensures value { option_map (λ v. value_view v.now) result ≡ second_of (bound_tree bound.entry) }
    ensures read { IfSome result (λ v. IsReadable (value_view v.now)) }
{
    match bound.found {
        Some(found) => item_at(found, 1),
        None => None,
    }
}

/// Adds what is found of a path that ends in another name. Errs only when out of memory.
fn add_name(
    alloc: Global,
    findings: &mut Vec<GeoFinding>,
    spot: Spot<'_>,
    bound: Bound<'_, '_>,
) -> Result<(), AllocError>
    requires { IsBoundRead bound }
    ensures { OnOk result (map finding findings.new.items ≡ map finding findings.old.items
        ++ name_findings spot.entry.key.now spot.entry.place.now (bound_tree bound.entry)) }
{
    if is_named(bound.name, path_at(bound)) {
        return Ok(());
    }
    let place = member_place(alloc, spot.place, bound.name)?;
    let place = item_place(alloc, place.as_str(), 1)?;
    let found = second_of(bound);
    let key = Some(spot.key);
    add_at(
        alloc,
        findings,
        GeoCode::CoveringName,
        key,
        place.as_str(),
        found,
        Some(bound.name),
    )
}

/// Adds what is found of paths that end in other names. Errs only when out of memory.
fn add_names(
    alloc: Global,
    findings: &mut Vec<GeoFinding>,
    spot: Spot<'_>,
    bounds: &[Bound<'_, '_>],
) -> Result<(), AllocError>
    requires { AreBoundsRead bounds.now }
    ensures { OnOk result (map finding findings.new.items ≡ map finding findings.old.items
        ++ flat_map (name_findings spot.entry.key.now spot.entry.place.now) (map bound_tree bounds.now)) }
{
    let [first, rest @ ..] = bounds else {
        return Ok(());
    };
    add_name(alloc, findings, spot, *first)?;
    add_names(alloc, findings, spot, rest)
}

/// Whether each bound has a path.
fn have_paths(bounds: &[Bound<'_, '_>]) -> bool
    ensures { result ≡ have_paths (map bound_tree bounds.now) }
{
    match bounds {
        [first, rest @ ..] => has_path(*first) && have_paths(rest),
        [] => true,
    }
}

/// Whether the path of a bound leads to a child of the group.
fn leads(group: Option<Group<'_>>, bound: Bound<'_, '_>) -> bool
    ensures { result ≡ leads (option_map group_tree group.entry) (bound_tree bound.entry) }
{
    match type_at(group, path_at(bound)) {
        Some(_) => true,
        None => false,
    }
}

/// Whether the path of a bound leads to floats of single precision, or of double.
fn is_fitting(group: Option<Group<'_>>, single: bool, bound: Bound<'_, '_>) -> bool
    ensures { result ≡ is_fitting (option_map group_tree group.entry) single (bound_tree bound.entry) }
{
    fits(single, type_at(group, path_at(bound)))
}

/// Returns the first bound whose path leads to no child of the group.
fn first_astray<'v, 'a>(group: Option<Group<'_>>, bounds: &[Bound<'v, 'a>]) -> Option<Bound<'v, 'a>>
    requires { AreBoundsRead bounds.now }
    ensures value { option_map bound_tree result ≡ first_astray (option_map group_tree group.entry) (map bound_tree bounds.now) }
    ensures read { IfSome result IsBoundRead }
{
    let [first, rest @ ..] = bounds else {
        return None;
    };
    if !leads(group, *first) {
        return Some(*first);
    }
    first_astray(group, rest)
}

/// Returns the first bound whose path leads to other floats.
fn first_unfitting<'v, 'a>(
    group: Option<Group<'_>>,
    single: bool,
    bounds: &[Bound<'v, 'a>],
) -> Option<Bound<'v, 'a>>
    requires { AreBoundsRead bounds.now }
    ensures value { option_map bound_tree result ≡ first_unfitting (option_map group_tree group.entry) single (map bound_tree bounds.now) }
    ensures read { IfSome result IsBoundRead }
{
    let [first, rest @ ..] = bounds else {
        return None;
    };
    if !is_fitting(group, single, *first) {
        return Some(*first);
    }
    first_unfitting(group, single, rest)
}

/// Adds a finding at the first of some bounds. Errs only when out of memory.
fn add_of_first(
    alloc: Global,
    findings: &mut Vec<GeoFinding>,
    code: GeoCode,
    spot: Spot<'_>,
    bounds: &[Bound<'_, '_>],
) -> Result<(), AllocError>
    requires { AreBoundsRead bounds.now }
    ensures { OnOk result (map finding findings.new.items ≡ map finding findings.old.items
        ++ finding_of_first code spot.entry.key.now spot.entry.place.now (map bound_tree bounds.now)) }
{
    let [first, ..] = bounds else {
        return Ok(());
    };
    add_at_bound(alloc, findings, code, spot, *first)
}

/// Adds what is found of the shape of a group. Errs only when out of memory.
fn add_shape(
    alloc: Global,
    findings: &mut Vec<GeoFinding>,
    spot: Spot<'_>,
    column: Option<&SchemaColumn>,
    group: Option<Group<'_>>,
    bounds: &[Bound<'_, '_>],
) -> Result<(), AllocError>
    requires { AreBoundsRead bounds.now }
    ensures { OnOk result (map finding findings.new.items ≡ map finding findings.old.items
        ++ shape_findings spot.entry.key.now spot.entry.place.now (option_map (λ c. column_tree c.now) column.entry) (option_map group_tree group.entry) (map bound_tree bounds.now)) }
{
    let Some(group) = group else {
        return Ok(());
    };
    if is_shaped(column, bounds, group) {
        return Ok(());
    }
    add_of_first(alloc, findings, GeoCode::CoveringShape, spot, bounds)
}

/// The type to which a path leads, as a finding shows it. Errs only when out of memory.
fn type_shown(alloc: Global, data_type: Option<TypeRef<'_>>) -> Result<Option<String>, AllocError>
    ensures { IfOk result (λ text. option_map string_bytes text ≡ option_map (λ t. shown (type_text t)) (option_map ref_tree data_type.entry)) }
{
    let Some(data_type) = data_type else {
        return Ok(None);
    };
    let text = data_type.notation(alloc)?;
    Ok(Some(shown(alloc, text.as_str())?))
}

/// Adds what is found of the type to which the path of a bound leads. Errs only when out of memory.
fn add_type(
    alloc: Global,
    findings: &mut Vec<GeoFinding>,
    spot: Spot<'_>,
    group: Option<Group<'_>>,
    bound: Bound<'_, '_>,
) -> Result<(), AllocError>
    ensures { OnOk result (map finding findings.new.items ≡ map finding findings.old.items
        ++ type_findings spot.entry.key.now spot.entry.place.now (option_map group_tree group.entry) (Some (bound_tree bound.entry))) }
{
    let place = member_place(alloc, spot.place, bound.name)?;
    let found = type_shown(alloc, type_at(group, path_at(bound)))?;
    let code = GeoCode::CoveringType;
    findings.push(told_at(alloc, code, Some(spot.key), place, found, None)?)?;
    Ok(())
}

/// Adds what is found of the types to which the paths lead, and else of the shape of their group.
/// Errs only when out of memory.
fn add_fit(
    alloc: Global,
    findings: &mut Vec<GeoFinding>,
    spot: Spot<'_>,
    column: Option<&SchemaColumn>,
    group: Option<Group<'_>>,
    single: bool,
    bounds: &[Bound<'_, '_>],
) -> Result<(), AllocError>
    requires { AreBoundsRead bounds.now }
    ensures { OnOk result (map finding findings.new.items ≡ map finding findings.old.items
        ++ fit_findings spot.entry.key.now spot.entry.place.now (option_map (λ c. column_tree c.now) column.entry) (option_map group_tree group.entry) single (map bound_tree bounds.now)) }
{
    match first_unfitting(group, single, bounds) {
        Some(bound) => add_type(alloc, findings, spot, group, bound),
        None => add_shape(alloc, findings, spot, column, group, bounds),
    }
}

/// Adds what is found of the group to which the paths lead. Errs only when out of memory.
fn add_group(
    alloc: Global,
    findings: &mut Vec<GeoFinding>,
    spot: Spot<'_>,
    column: Option<&SchemaColumn>,
    group: Option<Group<'_>>,
    single: bool,
    bounds: &[Bound<'_, '_>],
) -> Result<(), AllocError>
    requires { AreBoundsRead bounds.now }
    ensures { OnOk result (map finding findings.new.items ≡ map finding findings.old.items
        ++ group_findings spot.entry.key.now spot.entry.place.now (option_map (λ c. column_tree c.now) column.entry) (option_map group_tree group.entry) single (map bound_tree bounds.now)) }
{
    match first_astray(group, bounds) {
        Some(bound) => add_at_bound(alloc, findings, GeoCode::CoveringColumn, spot, bound),
        None => add_fit(alloc, findings, spot, column, group, single, bounds),
    }
}

/// Adds what is found of where the paths lead. Errs only when out of memory.
fn add_paths(
    alloc: Global,
    findings: &mut Vec<GeoFinding>,
    columns: &ColumnNames<'_>,
    spot: Spot<'_>,
    column: Option<&SchemaColumn>,
    bounds: &[Bound<'_, '_>],
) -> Result<(), AllocError>
    requires { AreBoundsRead bounds.now }
    ensures { OnOk result (map finding findings.new.items ≡ map finding findings.old.items
        ++ first_path_findings (map column_tree columns.now) spot.entry.key.now spot.entry.place.now (option_map (λ c. column_tree c.now) column.entry) (map bound_tree bounds.now)) }
{
    let [first, ..] = bounds else {
        return Ok(());
    };
    let path = path_at(*first);
    let group = group_of(columns, path);
    let single = is_single(type_at(group, path));
    add_group(alloc, findings, spot, column, group, single, bounds)
}

/// Adds what is found of the bounds of a covering. Errs only when out of memory.
fn add_all(
    alloc: Global,
    findings: &mut Vec<GeoFinding>,
    columns: &ColumnNames<'_>,
    spot: Spot<'_>,
    column: Option<&SchemaColumn>,
    bounds: &[Bound<'_, '_>],
) -> Result<(), AllocError>
    requires { AreBoundsRead bounds.now }
    ensures { OnOk result (map finding findings.new.items ≡ map finding findings.old.items
        ++ all_findings (map column_tree columns.now) spot.entry.key.now spot.entry.place.now (option_map (λ c. column_tree c.now) column.entry) (map bound_tree bounds.now)) }
{
    if !have_paths(bounds) {
        return add_bounds(alloc, findings, spot, bounds);
    }
    add_names(alloc, findings, spot, bounds)?;
    add_paths(alloc, findings, columns, spot, column, bounds)
}

/// Adds what is found of a `bbox` that is an object. Errs only when out of memory.
fn add_bbox(
    alloc: Global,
    findings: &mut Vec<GeoFinding>,
    columns: &ColumnNames<'_>,
    spot: Spot<'_>,
    bbox: &Value<'_>,
    column: Option<&SchemaColumn>,
) -> Result<(), AllocError>
    requires { IsReadable (value_view bbox.now) }
    ensures { OnOk result (map finding findings.new.items ≡ map finding findings.old.items
        ++ bbox_findings (map column_tree columns.now) spot.entry.key.now spot.entry.place.now (value_view bbox.now) (option_map (λ c. column_tree c.now) column.entry)) }
{
    let bounds = bounds_of(alloc, bbox)?;
    add_all(alloc, findings, columns, spot, column, bounds.as_slice())
}

/// Adds what is found of `bbox` of a covering. Errs only when out of memory.
fn add_found_bbox(
    alloc: Global,
    findings: &mut Vec<GeoFinding>,
    columns: &ColumnNames<'_>,
    spot: Spot<'_>,
    bbox: Option<&Value<'_>>,
    column: Option<&SchemaColumn>,
) -> Result<(), AllocError>
    requires { IfSome bbox (λ v. IsReadable (value_view v.now)) }
    ensures { OnOk result (map finding findings.new.items ≡ map finding findings.old.items
        ++ found_bbox_findings (map column_tree columns.now) spot.entry.key.now spot.entry.place.now (option_map (λ c. column_tree c.now) column.entry) (option_map (λ v. value_view v.now) bbox.entry)) }
{
    let key = Some(spot.key);
    let code = GeoCode::Covering;
    let Some(bbox) = bbox else {
        return add_at(alloc, findings, code, key, spot.place, None, None);
    };
    if is_object(bbox) {
        return add_bbox(alloc, findings, columns, spot, bbox, column);
    }
    add_at(alloc, findings, code, key, spot.place, Some(bbox), None)
}

/// Whether a value is an object.
fn is_object(value: &Value<'_>) -> bool
    ensures { result ≡ is_object (value_view value.now) }
{
    matches!(value, Value::Object(_))
}

/// Adds what is found of a covering, if there is one. Errs only when out of memory.
fn add_found_covering(
    alloc: Global,
    findings: &mut Vec<GeoFinding>,
    columns: &ColumnNames<'_>,
    key: &str,
    covering: Option<&Value<'_>>,
    column: Option<&SchemaColumn>,
) -> Result<(), AllocError>
    requires { IfSome covering (λ v. IsReadable (value_view v.now)) }
    ensures { OnOk result (map finding findings.new.items ≡ map finding findings.old.items
        ++ found_covering_findings (map column_tree columns.now) key.now (option_map (λ c. column_tree c.now) column.entry) (option_map (λ v. value_view v.now) covering.entry)) }
{
    let Some(covering) = covering else {
        return Ok(());
    };
    if !is_object(covering) {
        return add_part(
            alloc,
            findings,
            GeoCode::Covering,
            key,
            "covering",
            Some(covering),
            None,
        );
    }
    let place = part_place(alloc, key, "covering")?;
    let place = member_place(alloc, place.as_str(), "bbox")?;
    let place = place.as_str();
    let bbox = member_of(covering, "bbox");
    add_found_bbox(alloc, findings, columns, Spot { key, place }, bbox, column)
}

/// Adds what is found of the covering of a column with that key, by its member of `columns`
/// (docs/FORMAT.md, 5.1). Errs only when out of memory.
pub(crate) fn add_covering(
    alloc: Global,
    findings: &mut Vec<GeoFinding>,
    columns: &ColumnNames<'_>,
    version: Version,
    key: &str,
    column: Option<&SchemaColumn>,
    member: &Value<'_>,
) -> Result<(), AllocError>
    requires { IsReadable (value_view member.now) }
    ensures { OnOk result (map finding findings.new.items ≡ map finding findings.old.items
        ++ covering_findings (map column_tree columns.now) version key.now (option_map (λ c. column_tree c.now) column.entry) (value_view member.now)) }
{
    if !is_judged(version) {
        return Ok(());
    }
    let covering = member_of(member, "covering");
    add_found_covering(alloc, findings, columns, key, covering, column)
}
