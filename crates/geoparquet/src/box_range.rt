//! Longitudes and latitudes of `bbox` that are out of range.
ghost use Rattle.std.specs.Prelude.{◌≡◌, ◌<◌, ◌++◌, IfOk, OnOk, length, map, option_map};
ghost use Rattle.std.specs.List.{All};
ghost use Rattle.json.specs.Value.{value_view};
ghost use Rattle.value_tokens.specs.Values.{IsReadable};
ghost use Rattle.arrow_values.specs.Texts.{text_of};
ghost use Rattle.arrow_columns.specs.Column.{column_tree};
ghost use Rattle.geoparquet.specs.Sources.{element_view};
ghost use Rattle.geoparquet.specs.Findings.{finding};
ghost use Rattle.geoparquet.specs.Counting.{is_crs_paired};
ghost use Rattle.geoparquet.specs.BoxRange.{nearest_float, longitude_limit, latitude_limit, limit_findings, bound_range_findings, pair_range_findings, range_findings, judged_range, bbox_range_findings};

use crate::boxes::{box_in, is_less};
use crate::code::GeoCode;
use crate::counting::counts_paired;
use crate::finding::{GeoFinding, Version};
use crate::place::{finding_at, part_place};
use arrow_columns::SchemaColumn;
use column_check::item_place;
use json::Value;
use parquet_columns::RootElement;
use std::alloc::{AllocError, Global};

/// Returns the nearest float of a number's text.
fn nearest_float(text: &str) -> Option<f64>
    ensures { result ≡ nearest_float text.now }
{
    let number: Value<'_> = Value::Number(text);
    number.as_f64()
}

/// Returns the limit that a longitude is beyond, if it is.
fn longitude_limit(bound: &Value<'_>) -> Option<&'static str>
    ensures { text_of result ≡ longitude_limit (value_view bound.now) }
{
    if is_less(bound.as_f64(), nearest_float("-180.001")) {
        return Some("-180");
    }
    if is_less(nearest_float("180.001"), bound.as_f64()) {
        return Some("180");
    }
    None
}

/// Returns the limit that a latitude is beyond, if it is.
fn latitude_limit(bound: &Value<'_>) -> Option<&'static str>
    ensures { text_of result ≡ latitude_limit (value_view bound.now) }
{
    if is_less(bound.as_f64(), nearest_float("-90.001")) {
        return Some("-90");
    }
    if is_less(nearest_float("90.001"), bound.as_f64()) {
        return Some("90");
    }
    None
}

/// Adds what is found of a bound that is beyond a limit. Errs only when out of memory.
fn add_limit(
    alloc: Global,
    findings: &mut Vec<GeoFinding>,
    key: &str,
    index: usize,
    bound: &Value<'_>,
    limit: Option<&str>,
) -> Result<(), AllocError>
    requires { IsReadable (value_view bound.now) }
    ensures { OnOk result (map finding findings.new.items ≡ map finding findings.old.items
        ++ limit_findings key.now index (value_view bound.now) (text_of limit.entry)) }
{
    let Some(limit) = limit else {
        return Ok(());
    };
    let place = part_place(alloc, key, "bbox")?;
    let place = item_place(alloc, place.as_str(), index)?;
    let code = GeoCode::BboxRange;
    let found = Some(bound);
    findings.push(finding_at(alloc, code, Some(key), place, found, Some(limit))?)?;
    Ok(())
}

/// Adds what is found of a longitude. Errs only when out of memory.
fn add_longitude(
    alloc: Global,
    findings: &mut Vec<GeoFinding>,
    key: &str,
    index: usize,
    bound: &Value<'_>,
) -> Result<(), AllocError>
    requires { IsReadable (value_view bound.now) }
    ensures { OnOk result (map finding findings.new.items ≡ map finding findings.old.items
        ++ bound_range_findings longitude_limit key.now index (value_view bound.now)) }
{
    add_limit(alloc, findings, key, index, bound, longitude_limit(bound))
}

/// Adds what is found of a latitude. Errs only when out of memory.
fn add_latitude(
    alloc: Global,
    findings: &mut Vec<GeoFinding>,
    key: &str,
    index: usize,
    bound: &Value<'_>,
) -> Result<(), AllocError>
    requires { IsReadable (value_view bound.now) }
    ensures { OnOk result (map finding findings.new.items ≡ map finding findings.old.items
        ++ bound_range_findings latitude_limit key.now index (value_view bound.now)) }
{
    add_limit(alloc, findings, key, index, bound, latitude_limit(bound))
}

/// Adds what is found of the bounds of x and y that stand at these places. Errs only when out of
/// memory.
fn add_pair(
    alloc: Global,
    findings: &mut Vec<GeoFinding>,
    key: &str,
    numbers: &[Value<'_>],
    x: usize,
    y: usize,
) -> Result<(), AllocError>
    requires readable { All IsReadable (map value_view numbers.now) }
    requires x { x < length numbers.now }
    requires y { y < length numbers.now }
    ensures { OnOk result (map finding findings.new.items ≡ map finding findings.old.items
        ++ pair_range_findings key.now (map value_view numbers.now) x y) }
{
    let longitude = &numbers[x];
    let latitude = &numbers[y];
    add_longitude(alloc, findings, key, x, longitude)?;
    add_latitude(alloc, findings, key, y, latitude)
}

/// Adds what is found of the bounds of a box. Errs only when out of memory.
fn add_ranges(
    alloc: Global,
    findings: &mut Vec<GeoFinding>,
    key: &str,
    numbers: &[Value<'_>],
) -> Result<(), AllocError>
    requires { All IsReadable (map value_view numbers.now) }
    ensures { OnOk result (map finding findings.new.items ≡ map finding findings.old.items
        ++ range_findings key.now (map value_view numbers.now)) }
{
    let size = numbers.len();
    if size == 4 {
        add_pair(alloc, findings, key, numbers, 0, 1)?;
        return add_pair(alloc, findings, key, numbers, 2, 3);
    }
    if size == 6 {
        add_pair(alloc, findings, key, numbers, 0, 1)?;
        return add_pair(alloc, findings, key, numbers, 3, 4);
    }
    if size == 8 {
        add_pair(alloc, findings, key, numbers, 0, 1)?;
        return add_pair(alloc, findings, key, numbers, 4, 5);
    }
    Ok(())
}

/// Adds findings of bounds, if there are some, where the CRS that counts is one of the table of pairs.
/// Errs only when out of memory.
fn add_judged(
    alloc: Global,
    findings: &mut Vec<GeoFinding>,
    version: Version,
    column: Option<&SchemaColumn>,
    element: Option<&RootElement>,
    member: &Value<'_>,
    beyond: Vec<GeoFinding>,
) -> Result<(), AllocError>
    ensures { OnOk result (map finding findings.new.items ≡ map finding findings.old.items
        ++ judged_range (map finding beyond.items) (is_crs_paired version (option_map (λ c. column_tree c.now) column.entry) (option_map (λ e. element_view e.now) element.entry) (value_view member.now))) }
{
    let mut beyond = beyond;
    let [_first, _rest @ ..] = beyond.as_slice() else {
        return Ok(());
    };
    if !counts_paired(alloc, version, column, element, member)? {
        return Ok(());
    }
    findings.append(&mut beyond)?;
    Ok(())
}

/// Adds what is found of the longitudes and latitudes of `bbox` that are out of range, where nothing
/// else is found of it (docs/FORMAT.md, 5). Errs only when out of memory.
pub(crate) fn add_bbox_range(
    alloc: Global,
    findings: &mut Vec<GeoFinding>,
    version: Version,
    key: &str,
    column: Option<&SchemaColumn>,
    element: Option<&RootElement>,
    member: &Value<'_>,
) -> Result<(), AllocError>
    requires { IsReadable (value_view member.now) }
    ensures { OnOk result (map finding findings.new.items ≡ map finding findings.old.items
        ++ bbox_range_findings version key.now (option_map (λ c. column_tree c.now) column.entry) (option_map (λ e. element_view e.now) element.entry) (value_view member.now)) }
{
    let Some(numbers) = box_in(version, member) else {
        return Ok(());
    };
    let mut beyond = Vec::new(alloc);
    add_ranges(alloc, &mut beyond, key, numbers)?;
    add_judged(alloc, findings, version, column, element, member, beyond)
}
