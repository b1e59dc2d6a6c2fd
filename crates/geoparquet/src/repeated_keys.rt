//! Keys that stand several times in an object of the metadata.
ghost use Rattle.std.specs.Prelude.{◌≡◌, [], ◌∷◌, ◌++◌, ◌||◌, IfOk, OnOk, bytes_eq, map, option_copied, string_bytes};
ghost use Rattle.std.specs.Bool.{OnFalse};
ghost use Rattle.json.specs.Value.{items_view, members_view, value_view};
ghost use Rattle.arrow_values.specs.Texts.{text_of};
ghost use Rattle.arrow_values.specs.Tree.{Text};
ghost use Rattle.geoparquet.specs.Findings.{finding};
ghost use Rattle.geoparquet.specs.Ordered.{ordered_members};
ghost use Rattle.geoparquet.specs.RepeatedKeys.{step_text, pointer, column_on, values_at, repeated_finding, several, key_findings, own_findings, repeated_in, repeated_in_items, repeated_in_members, repeated_findings, AreTold, step_view, steps_on, held, values_of, values_in, value_at, left_at, AreDistinct, has_key};

use crate::code::GeoCode;
use crate::fact_sources::FactSource;
use crate::finding::GeoFinding;
use crate::ordered::ordered_members;
use crate::place::copied;
use crate::same_values::{Held, are_equal};
use column_check::{item_place, member_place};
use json::Value;
use parquet_columns::values_text;
use std::alloc::{AllocError, Global};
use std::collections::BTreeMap;

/// How many findings are told.
const TOLD: usize = 100;

/// The way from the whole down to a value.
#[derive(Clone, Copy)]
enum Way<'w> {
    /// None: it is the whole.
    Whole,
    /// A way, and from its end to the member with that key.
    Member(&'w Way<'w>, &'w str),
    /// A way, and from its end to the item at that index.
    Item(&'w Way<'w>, usize),
}

/// A step of a way.
#[derive(Clone, Copy)]
enum Step<'w> {
    /// To the member with that key.
    Key(&'w str),
    /// To the item at that index.
    Index(usize),
}

/// The values of members by their keys.
type Values<'v, 'a> = BTreeMap<&'v str, Vec<Held<'v, 'a>>>;

/// Adds what is found of keys that stand several times in an object of a value, a hundred findings
/// at most (docs/FORMAT.md, 5). Errs only when out of memory.
pub(crate) fn add_repeated_keys(
    alloc: Global,
    findings: &mut Vec<GeoFinding>,
    value: &Value<'_>,
) -> Result<(), AllocError>
    ensures { OnOk result (map finding findings.new.items ≡ map finding findings.old.items
        ++ repeated_findings (value_view value.now)) }
{
    let mut found = Vec::new(alloc);
    add_in(alloc, &mut found, &Way::Whole, value)?;
    found.truncate(TOLD);
    findings.append(&mut found)?;
    Ok(())
}

/// Adds what is found in the value at the end of a way. It recurs as deep as the value nests. Errs
/// only when out of memory.
#[cycle(walk)]
fn add_in(
    alloc: Global,
    findings: &mut Vec<GeoFinding>,
    way: &Way<'_>,
    value: &Value<'_>,
) -> Result<(), AllocError>
    ensures { OnOk result (AreTold findings.old.items findings.new.items (repeated_in (steps_on way.now) (value_view value.now))) }
{
    match value {
        Value::Array(items) => add_in_items(alloc, findings, way, items),
        Value::Object(members) => {
            add_own(alloc, findings, way, members.as_slice())?;
            add_in_members(alloc, findings, way, members)
        }
        _ => Ok(()),
    }
}

/// Adds what is found in the items of an array. Errs only when out of memory.
#[cycle(walk)]
fn add_in_items(
    alloc: Global,
    findings: &mut Vec<GeoFinding>,
    way: &Way<'_>,
    items: &Vec<Value<'_>>,
) -> Result<(), AllocError>
    ensures { OnOk result (AreTold findings.old.items findings.new.items (repeated_in_items (steps_on way.now) 0 (items_view items.now.items))) }
{
    for (i, item) in items.iter().enumerate() {
        add_in(alloc, findings, &Way::Item(&*way, i), item)?;
    }
    Ok(())
}

/// Adds what is found in the values of members. Errs only when out of memory.
#[cycle(walk)]
fn add_in_members<'a>(
    alloc: Global,
    findings: &mut Vec<GeoFinding>,
    way: &Way<'_>,
    members: &Vec<(&'a str, Value<'a>)>,
) -> Result<(), AllocError>
    ensures { OnOk result (AreTold findings.old.items findings.new.items (repeated_in_members (steps_on way.now) (members_view members.now.items))) }
{
    for member in members.iter() {
        add_in(alloc, findings, &Way::Member(&*way, member.0), &member.1)?;
    }
    Ok(())
}

/// Adds what is found of the keys of an object. Errs only when out of memory.
fn add_own<'a>(
    alloc: Global,
    findings: &mut Vec<GeoFinding>,
    way: &Way<'_>,
    members: &[(&'a str, Value<'a>)],
) -> Result<(), AllocError>
    ensures { OnOk result (AreTold findings.old.items findings.new.items (own_findings (steps_on way.now) (members_view members.now) (ordered_members (members_view members.now)))) }
{
    if may_repeat(alloc, members)? {
        add_repeated(alloc, findings, way, members)
    } else {
        Ok(())
    }
}

/// Whether a key may stand several times in an object: of fewer than two members none does, and
/// nothing is allocated. Errs only when out of memory.
fn may_repeat<'a>(alloc: Global, members: &[(&'a str, Value<'a>)]) -> Result<bool, AllocError>
    ensures { IfOk result (λ may. OnFalse may (AreDistinct (members_view members.now))) }
{
    if members.len() < 2 {
        Ok(false)
    } else {
        is_any_repeated(alloc, members)
    }
}

/// Whether a key stands several times in an object: the first that does ends the search. Errs only
/// when out of memory.
fn is_any_repeated<'a>(alloc: Global, members: &[(&'a str, Value<'a>)]) -> Result<bool, AllocError>
    ensures { IfOk result (λ is. OnFalse is (AreDistinct (members_view members.now))) }
{
    let mut seen = BTreeMap::new(alloc);
    for member in members {
        if is_seen(&mut seen, member.0)? {
            return Ok(true);
        }
    }
    Ok(false)
}

/// Returns whether a key was seen before; now it is. Errs only when out of memory.
fn is_seen<'v>(seen: &mut BTreeMap<&'v str, ()>, key: &'v str) -> Result<bool, AllocError>
    ensures before { IfOk result (λ before. before ≡ has_key seen.old key.now) }
    ensures seen { OnOk result ((name : Text) → has_key seen.new name
        ≡ bytes_eq key.now name || has_key seen.old name) }
{
    let before = seen.insert(key, ())?;
    Ok(before.is_some())
}

/// Adds what is found of the keys of an object, of which some may stand several times. Errs only
/// when out of memory.
fn add_repeated<'a>(
    alloc: Global,
    findings: &mut Vec<GeoFinding>,
    way: &Way<'_>,
    members: &[(&'a str, Value<'a>)],
) -> Result<(), AllocError>
    ensures { OnOk result (AreTold findings.old.items findings.new.items (own_findings (steps_on way.now) (members_view members.now) (ordered_members (members_view members.now)))) }
{
    let values = values_by_key(alloc, members)?;
    let by_key = ordered_members(alloc, members)?;
    for (key, _last) in by_key.iter() {
        add_key(alloc, findings, &Way::Member(&*way, key), values.get(*key))?;
    }
    Ok(())
}

/// Returns the values of members by their keys. Errs only when out of memory.
fn values_by_key<'v, 'a>(
    alloc: Global,
    members: &'v [(&'a str, Value<'a>)],
) -> Result<Values<'v, 'a>, AllocError>
    ensures { IfOk result (λ values. (key : Text) → values_in values key ≡ values_at key (members_view members.now)) }
{
    let mut values = BTreeMap::new(alloc);
    for member in members {
        add_value(alloc, &mut values, member.0, &member.1)?;
    }
    Ok(values)
}

/// Adds the value of a key behind its others. Errs only when out of memory.
fn add_value<'v, 'a>(
    alloc: Global,
    values: &mut Values<'v, 'a>,
    key: &'v str,
    value: &'v Value<'a>,
) -> Result<(), AllocError>
    ensures { OnOk result ((name : Text) → values_in values.new name
        ≡ values_in values.old name ++ value_at name key.now (value_view value.now)) }
{
    let mut of_key = taken(alloc, values, key);
    of_key.push(Held { value })?;
    let _ = values.insert(key, of_key)?;
    Ok(())
}

/// Takes the values of a key out of the others.
fn taken<'v, 'a>(alloc: Global, values: &mut Values<'v, 'a>, key: &str) -> Vec<Held<'v, 'a>>
    ensures taken { map held result.items ≡ values_in values.old key.now }
    ensures left { (name : Text) → values_in values.new name ≡ left_at name key.now (values_in values.old name) }
{
    match values.remove(key) {
        Some(of_key) => of_key,
        None => Vec::new(alloc),
    }
}

/// Adds what is found of the key at the end of a way, which has these values. Errs only when out of
/// memory.
fn add_key(
    alloc: Global,
    findings: &mut Vec<GeoFinding>,
    way: &Way<'_>,
    values: Option<&Vec<Held<'_, '_>>>,
) -> Result<(), AllocError>
    ensures { OnOk result (AreTold findings.old.items findings.new.items (key_findings (steps_on way.now) (values_of (option_copied values.entry)))) }
{
    let Some(values) = values else {
        return Ok(());
    };
    let same = are_equal(values.as_slice());
    add_counted(alloc, findings, way, values.len(), same)
}

/// Adds what is found of the key at the end of a way, if it has several values. Errs only when out of
/// memory.
fn add_counted(
    alloc: Global,
    findings: &mut Vec<GeoFinding>,
    way: &Way<'_>,
    count: usize,
    same: bool,
) -> Result<(), AllocError>
    ensures { OnOk result (AreTold findings.old.items findings.new.items (several (steps_on way.now) count same)) }
{
    if count > 1 {
        add_several(alloc, findings, way, count, same)?;
    }
    Ok(())
}

/// Adds what is found of the key at the end of a way, which has several values, if there is room.
/// Errs only when out of memory.
fn add_several(
    alloc: Global,
    findings: &mut Vec<GeoFinding>,
    way: &Way<'_>,
    count: usize,
    same: bool,
) -> Result<(), AllocError>
    ensures { OnOk result (AreTold findings.old.items findings.new.items (repeated_finding (steps_on way.now) count same ∷ [])) }
{
    if findings.len() < TOLD {
        let found = repeated_finding(alloc, way, count, same)?;
        findings.push(found)?;
    }
    Ok(())
}

/// Returns what is found of the key at the end of a way, which has several values. Errs only when out
/// of memory.
fn repeated_finding(
    alloc: Global,
    way: &Way<'_>,
    count: usize,
    same: bool,
) -> Result<GeoFinding, AllocError>
    ensures { IfOk result (λ made. finding made ≡ repeated_finding (steps_on way.now) count same) }
{
    let mut steps = Vec::new(alloc);
    push_steps(&mut steps, way)?;
    let column = copied(alloc, column_on(steps.as_slice()))?;
    let pointer = pointer(alloc, steps.as_slice())?;
    let found = values_text(alloc, count, same)?;
    Ok(GeoFinding {
        code: GeoCode::RepeatedKey,
        column,
        source: FactSource::Geo,
        pointer,
        found: Some(found),
        wanted: None,
        more: 0,
    })
}

/// Adds the steps of a way, the first one first. Errs only when out of memory.
fn push_steps<'w>(steps: &mut Vec<Step<'w>>, way: &Way<'w>) -> Result<(), AllocError>
    ensures { OnOk result (map step_view steps.new.items ≡ map step_view steps.old.items ++ steps_on way.now) }
{
    match way {
        Way::Whole => Ok(()),
        Way::Member(above, key) => {
            push_steps(steps, above)?;
            steps.push(Step::Key(key))?;
            Ok(())
        }
        Way::Item(above, index) => {
            push_steps(steps, above)?;
            steps.push(Step::Index(*index))?;
            Ok(())
        }
    }
}

/// Returns the key of the member of `columns` that a way leads to or through.
fn column_on<'w>(steps: &[Step<'w>]) -> Option<&'w str>
    ensures { text_of result ≡ column_on (map step_view steps.now) }
{
    match steps {
        [Step::Key(first), Step::Key(key), ..] if *first == "columns" => Some(*key),
        _ => None,
    }
}

/// Returns the pointer to the end of a way. Errs only when out of memory.
fn pointer(alloc: Global, steps: &[Step<'_>]) -> Result<String, AllocError>
    ensures { IfOk result (λ text. string_bytes text ≡ pointer (map step_view steps.now)) }
{
    let mut text = String::new(alloc);
    for step in steps {
        text.push_str(step_text(alloc, *step)?.as_str())?;
    }
    Ok(text)
}

/// Returns a step as it stands in a pointer. Errs only when out of memory.
fn step_text(alloc: Global, step: Step<'_>) -> Result<String, AllocError>
    ensures { IfOk result (λ text. string_bytes text ≡ step_text (step_view step.entry)) }
{
    match step {
        Step::Key(key) => member_place(alloc, "", key),
        Step::Index(index) => item_place(alloc, "", index),
    }
}
