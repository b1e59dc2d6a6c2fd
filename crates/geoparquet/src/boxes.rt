//! `bbox` of a column's member.
ghost use Rattle.std.specs.Prelude.{◌≡◌, ◌<◌, ◌++◌, ◌∷◌, [], IfOk, IfSome, OnOk, Some, codes, length, map, option_map, string_bytes, unwrap_or};
ghost use Rattle.std.specs.List.{All, list_all};
ghost use Rattle.json.specs.Find.{get};
ghost use Rattle.json.specs.Json.{array};
ghost use Rattle.json.specs.Value.{value_view, items_view};
ghost use Rattle.arrow_values.specs.Texts.{text_of};
ghost use Rattle.value_tokens.specs.Values.{IsReadable};
ghost use Rattle.arrow_columns.specs.Column.{column_tree};
ghost use Rattle.geoparquet.specs.Sources.{element_view};
ghost use Rattle.geoparquet.specs.Counting.{crs_that_counts, is_projected};
ghost use Rattle.geoparquet.specs.Findings.{finding, shown, shown_value};
ghost use Rattle.geoparquet.specs.Rules.{items_findings};
ghost use Rattle.geoparquet.specs.TypeRules.{type_of, types_in};
ghost use Rattle.geoparquet.specs.BoxRules.{takes_eight, is_size, is_number, box_place, box_or_other, found_box, bbox_findings, is_box, box_in, float_of, is_less, is_in_order, axis_name, bounds_text, bound_finding, bound_findings, axis_findings, order_findings, x_findings, x_axis_findings, x_order_findings, bbox_order_findings, type_is, are_all, are_types, other_size, size_wanted, size_findings, bbox_dimension_findings};

use crate::code::GeoCode;
use crate::counting::counts_projected;
use crate::finding::{GeoFinding, Version};
use crate::place::{add_item, finding_at, part_finding, part_place, told_at};
use crate::types::{items_in, type_of, types_in};
use crate::version::is_judged;
use arrow_columns::SchemaColumn;
use column_check::{item_place, shown, shown_value};
use geoarrow_layout::Dimension;
use json::Value;
use parquet_columns::RootElement;
use std::alloc::{AllocError, Global};
use value_tokens::member_of;

/// Adds what is found of `bbox` but for the order of its bounds and its dimension (docs/FORMAT.md, 5).
/// Errs only when out of memory.
pub(crate) fn add_bbox(
    alloc: Global,
    findings: &mut Vec<GeoFinding>,
    version: Version,
    key: &str,
    member: &Value<'_>,
) -> Result<(), AllocError>
    requires { IsReadable (value_view member.now) }
    ensures { OnOk result (map finding findings.new.items ≡ map finding findings.old.items ++ bbox_findings version key.now (value_view member.now)) }
{
    if !is_judged(version) {
        return Ok(());
    }
    match member_of(member, "bbox") {
        Some(found) => add_found_box(alloc, findings, version, key, found),
        None => Ok(()),
    }
}

/// Adds what is found of `bbox`, where it is there.
fn add_found_box(
    alloc: Global,
    findings: &mut Vec<GeoFinding>,
    version: Version,
    key: &str,
    found: &Value<'_>,
) -> Result<(), AllocError>
    requires { IsReadable (value_view found.now) }
    ensures { OnOk result (map finding findings.new.items ≡ map finding findings.old.items ++ found_box version key.now (Some (value_view found.now))) }
{
    if let Some(items) = items_in(Some(found)) {
        if is_size(version, items.len()) {
            let place = part_place(alloc, key, "bbox")?;
            return add_numbers(alloc, findings, key, place.as_str(), items);
        }
    }
    findings.push(part_finding(alloc, GeoCode::Bbox, key, "bbox", Some(found))?)?;
    Ok(())
}

/// Adds what is found of the items of `bbox`, which stands at that place.
fn add_numbers(
    alloc: Global,
    findings: &mut Vec<GeoFinding>,
    key: &str,
    place: &str,
    items: &[Value<'_>],
) -> Result<(), AllocError>
    requires { All IsReadable (map value_view items.now) }
    ensures { OnOk result (map finding findings.new.items ≡ map finding findings.old.items ++ items_findings (λ before j. is_number j) GeoCode.Bbox key.now place.now [] (map value_view items.now)) }
{
    for (index, item) in items.iter().enumerate() {
        let kept = is_number(item);
        add_item(
            alloc,
            findings,
            kept,
            GeoCode::Bbox,
            key,
            place,
            index,
            item,
        )?;
    }
    Ok(())
}

/// Whether a value is a number.
fn is_number(value: &Value<'_>) -> bool
    ensures { result ≡ is_number (value_view value.now) }
{
    matches!(value, Value::Number(_))
}

/// Whether a box may have that many numbers in a version.
fn is_size(version: Version, size: usize) -> bool
    ensures { result ≡ is_size version size }
{
    size == 4 || size == 6 || takes_eight(version) && size == 8
}

/// Whether a version takes boxes of eight numbers.
fn takes_eight(version: Version) -> bool
    ensures { result ≡ takes_eight version }
{
    matches!(version, Version::V2)
}

/// Returns the numbers of `bbox` of a column's member, where it is there and nothing is found of it by
/// the rules of the version.
pub(crate) fn box_in<'v, 'a>(version: Version, member: &'v Value<'a>) -> Option<&'v [Value<'a>]>
    requires { IsReadable (value_view member.now) }
    ensures value { option_map (λ vs. map value_view vs.now) result ≡ box_in version (value_view member.now) }
    ensures readable { IfSome result (λ vs. All IsReadable (map value_view vs.now)) }
{
    let items = items_in(member_of(member, "bbox"))?;
    if is_box(version, items) {
        Some(items)
    } else {
        None
    }
}

/// Whether items are the numbers of a box in a version.
fn is_box(version: Version, items: &[Value<'_>]) -> bool
    ensures { result ≡ is_box version (map value_view items.now) }
{
    is_judged(version) && is_size(version, items.len()) && are_numbers(items)
}

/// Whether all values are numbers.
fn are_numbers(values: &[Value<'_>]) -> bool
    ensures { result ≡ list_all is_number (map value_view values.now) }
{
    values.iter().all(|value| is_number(value))
}

/// Adds what is found of the order of the bounds of `bbox`, where nothing else is found of it
/// (docs/FORMAT.md, 5). Errs only when out of memory.
pub(crate) fn add_bbox_order(
    alloc: Global,
    findings: &mut Vec<GeoFinding>,
    version: Version,
    key: &str,
    column: Option<&SchemaColumn>,
    element: Option<&RootElement>,
    member: &Value<'_>,
) -> Result<(), AllocError>
    requires { IsReadable (value_view member.now) }
    ensures { OnOk result (map finding findings.new.items ≡ map finding findings.old.items ++ bbox_order_findings version key.now (option_map (λ c. column_tree c.now) column.entry) (option_map (λ e. element_view e.now) element.entry) (value_view member.now)) }
{
    let Some(numbers) = box_in(version, member) else {
        return Ok(());
    };
    add_x_order(
        alloc, findings, version, key, column, element, member, numbers,
    )?;
    add_order(alloc, findings, key, numbers)
}

/// Adds what is found of the bounds of x of a box.
fn add_x_order(
    alloc: Global,
    findings: &mut Vec<GeoFinding>,
    version: Version,
    key: &str,
    column: Option<&SchemaColumn>,
    element: Option<&RootElement>,
    member: &Value<'_>,
    numbers: &[Value<'_>],
) -> Result<(), AllocError>
    requires { All IsReadable (map value_view numbers.now) }
    ensures { OnOk result (map finding findings.new.items ≡ map finding findings.old.items ++ x_order_findings (is_projected (crs_that_counts version (option_map (λ c. column_tree c.now) column.entry) (option_map (λ e. element_view e.now) element.entry) (value_view member.now))) key.now (map value_view numbers.now)) }
{
    let size = numbers.len();
    if size == 4 {
        return add_x_axis(
            alloc, findings, version, key, column, element, member, numbers, 2,
        );
    }
    if size == 6 {
        return add_x_axis(
            alloc, findings, version, key, column, element, member, numbers, 3,
        );
    }
    if size == 8 {
        return add_x_axis(
            alloc, findings, version, key, column, element, member, numbers, 4,
        );
    }
    Ok(())
}

/// Adds what is found of the bounds of x of a box, of which the greatest stands at that place.
fn add_x_axis(
    alloc: Global,
    findings: &mut Vec<GeoFinding>,
    version: Version,
    key: &str,
    column: Option<&SchemaColumn>,
    element: Option<&RootElement>,
    member: &Value<'_>,
    numbers: &[Value<'_>],
    greatest: usize,
) -> Result<(), AllocError>
    requires readable { All IsReadable (map value_view numbers.now) }
    requires high { greatest < length numbers.now }
    ensures { OnOk result (map finding findings.new.items ≡ map finding findings.old.items ++ x_axis_findings (is_projected (crs_that_counts version (option_map (λ c. column_tree c.now) column.entry) (option_map (λ e. element_view e.now) element.entry) (value_view member.now))) key.now (map value_view numbers.now) greatest) }
{
    let low = &numbers[0];
    let high = &numbers[greatest];
    add_x(
        alloc, findings, version, key, column, element, member, low, high,
    )
}

/// Adds what is found of the bounds of x: only where the least is greater, and the CRS that counts is
/// projected.
fn add_x(
    alloc: Global,
    findings: &mut Vec<GeoFinding>,
    version: Version,
    key: &str,
    column: Option<&SchemaColumn>,
    element: Option<&RootElement>,
    member: &Value<'_>,
    least: &Value<'_>,
    greatest: &Value<'_>,
) -> Result<(), AllocError>
    requires { IsReadable (value_view least.now) }
    ensures { OnOk result (map finding findings.new.items ≡ map finding findings.old.items ++ x_findings (is_projected (crs_that_counts version (option_map (λ c. column_tree c.now) column.entry) (option_map (λ e. element_view e.now) element.entry) (value_view member.now))) key.now (value_view least.now) (value_view greatest.now)) }
{
    if is_in_order(least, greatest) {
        return Ok(());
    }
    if !counts_projected(alloc, version, column, element, member)? {
        return Ok(());
    }
    add_greater(alloc, findings, key, 0, least, greatest)
}

/// Adds what is found of the least bound of an axis, where the greatest is less.
fn add_greater(
    alloc: Global,
    findings: &mut Vec<GeoFinding>,
    key: &str,
    index: usize,
    least: &Value<'_>,
    greatest: &Value<'_>,
) -> Result<(), AllocError>
    requires { IsReadable (value_view least.now) }
    ensures { OnOk result (map finding findings.new.items ≡ map finding findings.old.items ++ bound_finding key.now index (value_view least.now) (value_view greatest.now) ∷ []) }
{
    findings.push(bound_finding(alloc, key, index, least, greatest)?)?;
    Ok(())
}

/// Adds what is found of the order of the bounds of a box but for x.
fn add_order(
    alloc: Global,
    findings: &mut Vec<GeoFinding>,
    key: &str,
    numbers: &[Value<'_>],
) -> Result<(), AllocError>
    requires { All IsReadable (map value_view numbers.now) }
    ensures { OnOk result (map finding findings.new.items ≡ map finding findings.old.items ++ order_findings key.now (map value_view numbers.now)) }
{
    let size = numbers.len();
    if size == 4 {
        return add_axis(alloc, findings, key, numbers, 1, 3);
    }
    if size == 6 {
        add_axis(alloc, findings, key, numbers, 1, 4)?;
        return add_axis(alloc, findings, key, numbers, 2, 5);
    }
    if size == 8 {
        add_axis(alloc, findings, key, numbers, 1, 5)?;
        add_axis(alloc, findings, key, numbers, 2, 6)?;
        return add_axis(alloc, findings, key, numbers, 3, 7);
    }
    Ok(())
}

/// Adds what is found of the bounds of one axis of a box, by the places of both.
fn add_axis(
    alloc: Global,
    findings: &mut Vec<GeoFinding>,
    key: &str,
    numbers: &[Value<'_>],
    least: usize,
    greatest: usize,
) -> Result<(), AllocError>
    requires readable { All IsReadable (map value_view numbers.now) }
    requires low { least < length numbers.now }
    requires high { greatest < length numbers.now }
    ensures { OnOk result (map finding findings.new.items ≡ map finding findings.old.items ++ axis_findings key.now (map value_view numbers.now) least greatest) }
{
    let low = &numbers[least];
    let high = &numbers[greatest];
    add_bound(alloc, findings, key, least, low, high)
}

/// Adds what is found of the bounds of one axis of `bbox`, of which the least stands at that place
/// (docs/FORMAT.md, 5). Errs only when out of memory.
pub(crate) fn add_bound(
    alloc: Global,
    findings: &mut Vec<GeoFinding>,
    key: &str,
    index: usize,
    least: &Value<'_>,
    greatest: &Value<'_>,
) -> Result<(), AllocError>
    requires { IsReadable (value_view least.now) }
    ensures { OnOk result (map finding findings.new.items ≡ map finding findings.old.items ++ bound_findings key.now index (value_view least.now) (value_view greatest.now)) }
{
    if is_in_order(least, greatest) {
        return Ok(());
    }
    findings.push(bound_finding(alloc, key, index, least, greatest)?)?;
    Ok(())
}

/// What is found of the least bound of an axis, where the greatest is less.
fn bound_finding(
    alloc: Global,
    key: &str,
    index: usize,
    least: &Value<'_>,
    greatest: &Value<'_>,
) -> Result<GeoFinding, AllocError>
    requires { IsReadable (value_view least.now) }
    ensures { IfOk result (λ made. finding made ≡ bound_finding key.now index (value_view least.now) (value_view greatest.now)) }
{
    let whole = part_place(alloc, key, "bbox")?;
    let place = item_place(alloc, whole.as_str(), index)?;
    let wanted = greatest.as_number();
    let found = Some(bounds_shown(alloc, index, least, wanted)?);
    told_at(alloc, GeoCode::BboxOrder, Some(key), place, found, wanted)
}

/// The letter of an axis, by the place of its least bound.
fn axis_name(index: usize) -> &'static str
    ensures { result.now ≡ axis_name index }
{
    if index == 0 {
        "x"
    } else if index == 1 {
        "y"
    } else if index == 2 {
        "z"
    } else {
        "m"
    }
}

/// Both bounds of an axis, as a finding shows them.
fn bounds_shown(
    alloc: Global,
    index: usize,
    least: &Value<'_>,
    greatest: Option<&str>,
) -> Result<String, AllocError>
    requires { IsReadable (value_view least.now) }
    ensures { IfOk result (λ s. string_bytes s ≡ shown (bounds_text (axis_name index) (shown_value (value_view least.now)) (unwrap_or (text_of greatest.entry) []))) }
{
    let axis = axis_name(index);
    let least = shown_value(alloc, least)?;
    let least = least.as_str();
    let greatest = match greatest {
        Some(greatest) => greatest,
        None => "",
    };
    let text = bounds_text(alloc, axis, least, greatest)?;
    shown(alloc, text.as_str())
}

/// Both bounds of an axis.
fn bounds_text(alloc: Global, axis: &str, least: &str, greatest: &str) -> Result<String, AllocError>
    ensures { IfOk result (λ s. string_bytes s ≡ bounds_text axis.now least.now greatest.now) }
{
    format!(in alloc; "{axis}min {least}, {axis}max {greatest}")
}

/// Whether a least bound is at most the greatest, each as the nearest float.
fn is_in_order(least: &Value<'_>, greatest: &Value<'_>) -> bool
    ensures { result ≡ is_in_order (value_view least.now) (value_view greatest.now) }
{
    !is_less(greatest.as_f64(), least.as_f64())
}

/// Returns whether both are there, and the first is less.
pub(crate) fn is_less(one: Option<f64>, other: Option<f64>) -> bool
    ensures { result ≡ is_less one other }
{
    match (one, other) {
        (Some(one), Some(other)) => one < other,
        _ => false,
    }
}

/// Adds what is found of `bbox` by the dimension of `geometry_types`, where nothing else is found of
/// it (docs/FORMAT.md, 5). Errs only when out of memory.
pub(crate) fn add_bbox_dimension(
    alloc: Global,
    findings: &mut Vec<GeoFinding>,
    version: Version,
    key: &str,
    member: &Value<'_>,
) -> Result<(), AllocError>
    requires { IsReadable (value_view member.now) }
    ensures { OnOk result (map finding findings.new.items ≡ map finding findings.old.items ++ bbox_dimension_findings version key.now (value_view member.now)) }
{
    let Some(wanted) = size_wanted(box_in(version, member), types_in(member)) else {
        return Ok(());
    };
    let place = part_place(alloc, key, "bbox")?;
    let found = member_of(member, "bbox");
    let code = GeoCode::BboxDimension;
    findings.push(finding_at(alloc, code, Some(key), place, found, Some(wanted))?)?;
    Ok(())
}

/// How many numbers the types want, where the box has that many others.
fn size_wanted(numbers: Option<&[Value<'_>]>, types: Option<&[Value<'_>]>) -> Option<&'static str>
    ensures { text_of result ≡ size_wanted (option_map (λ vs. map value_view vs.now) numbers.entry) (option_map (λ vs. map value_view vs.now) types.entry) }
{
    other_size(numbers?.len(), types?)
}

/// How many numbers the types want of a box that has that many, where these are others.
fn other_size(size: usize, types: &[Value<'_>]) -> Option<&'static str>
    ensures { text_of result ≡ other_size size (map value_view types.now) }
{
    if size == 6 && are_types(false, types) {
        return Some("4");
    }
    if size == 4 && are_types(true, types) {
        return Some("6");
    }
    None
}

/// Whether there are types, and each has a z, or each has none.
fn are_types(z: bool, types: &[Value<'_>]) -> bool
    ensures { result ≡ are_types z (map value_view types.now) }
{
    match types {
        [] => false,
        _ => are_all(z, types),
    }
}

/// Whether each of some values is a type with a z, or each is one without.
fn are_all(z: bool, values: &[Value<'_>]) -> bool
    ensures { result ≡ are_all z (map value_view values.now) }
{
    values.iter().all(|value| type_is(z, value))
}

/// Whether a value is a type with a z, or one without.
fn type_is(z: bool, value: &Value<'_>) -> bool
    ensures { result ≡ type_is z (type_of (value_view value.now)) }
{
    match type_of(value) {
        Some((_, Dimension::XYZ | Dimension::XYZM)) => z,
        Some(_) => !z,
        None => false,
    }
}
