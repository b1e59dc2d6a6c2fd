//! The layouts of elements, as the encodings of GeoParquet ask for them.
ghost use Rattle.std.specs.Prelude.{◌≡◌, ◌++◌, ◌∷◌, ◌+◌, ◌<◌, ◌≤◌, IfOk, List, map};
ghost use Rattle.parquet_footer.specs.Element.{element};
ghost use Rattle.parquet_columns.specs.Claims.{Claim, claim as claim_view};
ghost use Rattle.parquet_columns.specs.Layouts.{layout, repetition_word, is_plain, stored_word, kind_word, in_the_way, is_bytes, is_ordinate, is_struct, with_z, behind_y, from_y, ordinates, coordinate, is_list_group, is_group_of_one, is_list, is_repeated_group, below_lists, below_list, below_group, are_stored, strict_layout, layout_of, layouts_in, root_layouts, root_element, joined};
ghost use Rattle.parquet_columns.specs.Geometry.{is_repeated};
ghost use Rattle.parquet_columns.specs.Storage.{is_stored, storage_of};

use crate::annotation::{Annotation, annotation_of};
use crate::claim::ElementClaim;
use crate::geometry::{is_geometry_type, is_plain_leaf};
use crate::marks::count_of;
use crate::storage::{is_stored, storage_of};
use crate::type_names::{physical_name, type_name};
use parquet_footer::{PhysicalType, Repetition, SchemaElement};
use std::alloc::{AllocError, Global};

/// The layout of a column's element, by the layouts that the encodings of GeoParquet ask for
/// (`docs/FORMAT.md`, 5.5).
#[derive(Debug, Clone, Copy)]
pub enum ElementLayout {
    /// Bytes: a leaf of BYTE_ARRAY, without a logical or converted type or of a geometry type.
    Bytes,
    /// Coordinates below so many lists, three at most, with z or without.
    Coordinates(usize, bool),
    /// Another layout, by the first element in the way: its repetition, and its logical, converted
    /// or physical type.
    Other(&'static str, &'static str),
    /// It is not judged, since an element is not stored as its logical or converted type asks.
    Unjudged,
}

/// What is known of the element of a column.
#[derive(Debug, Drop)]
pub struct RootElement {
    /// What its geometry type says beside the column.
    pub claim: ElementClaim,
    /// Its layout.
    pub layout: ElementLayout,
}

/// The word of a repetition.
fn repetition_word(repetition: Option<Repetition>) -> &'static str
    ensures { result.now ≡ repetition_word repetition }
{
    match repetition {
        None | Some(Repetition::Unknown(_)) => "no repetition",
        Some(Repetition::Required) => "REQUIRED",
        Some(Repetition::Optional) => "OPTIONAL",
        Some(Repetition::Repeated) => "REPEATED",
    }
}

/// Whether an element has neither a logical nor a converted type.
fn is_plain(found: &SchemaElement<'_>) -> bool
    ensures { result ≡ is_plain (element found.now) }
{
    !(found.logical_type.is_some() || found.converted_type.is_some())
}

/// The word of a physical type; of a group that it is one.
fn stored_word(physical: Option<PhysicalType>) -> &'static str
    ensures { result.now ≡ stored_word physical }
{
    if physical.is_none() {
        return "group";
    }
    physical_name(physical)
}

/// The word of what an element is: its logical, converted or physical type.
fn kind_word(found: &SchemaElement<'_>) -> &'static str
    ensures { result.now ≡ kind_word (element found.now) }
{
    if is_plain(found) {
        return stored_word(found.storage.physical_type);
    }
    type_name(found)
}

/// The layout of which that element is in the way.
fn in_the_way(found: &SchemaElement<'_>) -> ElementLayout
    ensures { layout result ≡ in_the_way (element found.now) }
{
    ElementLayout::Other(repetition_word(found.storage.repetition), kind_word(found))
}

/// Whether an element is a leaf of bytes.
pub(crate) fn is_bytes(found: &SchemaElement<'_>) -> bool
    ensures { result ≡ is_bytes (element found.now) }
{
    is_plain_leaf(found) && (is_plain(found) || is_geometry_type(found.logical_type))
}

/// Whether an element is an ordinate of that name.
fn is_ordinate(found: &SchemaElement<'_>, name: &str) -> bool
    ensures { result ≡ is_ordinate name.now (element found.now) }
{
    matches!(found.storage.physical_type, Some(PhysicalType::Double))
        && (matches!(found.storage.repetition, Some(Repetition::Required))
            && (is_plain(found) && found.storage.name.bytes == name.as_bytes()))
}

/// Whether an element is REPEATED.
fn is_repeated(found: &SchemaElement<'_>) -> bool
    ensures { result ≡ is_repeated found.now.storage.repetition }
{
    matches!(found.storage.repetition, Some(Repetition::Repeated))
}

/// Whether an element is a group that may be a coordinate.
fn is_struct(found: &SchemaElement<'_>) -> bool
    ensures { result ≡ is_struct (element found.now) }
{
    found.storage.physical_type.is_none() && (!is_repeated(found) && is_plain(found))
}

/// The layout of that group, of which x and y are there, by what stands behind them, where it has
/// three children.
fn with_z(lists: usize, group: &SchemaElement<'_>, behind: &[SchemaElement<'_>]) -> ElementLayout
    ensures { layout result ≡ with_z lists (element group.now) (map element behind.now) }
{
    match behind {
        [] => in_the_way(group),
        [z, ..] => {
            if is_ordinate(z, "z") {
                return ElementLayout::Coordinates(lists, true);
            }
            in_the_way(z)
        }
    }
}

/// The layout of that group, of which x and y are there, by what stands behind them.
fn behind_y(lists: usize, group: &SchemaElement<'_>, behind: &[SchemaElement<'_>]) -> ElementLayout
    ensures { layout result ≡ behind_y lists (element group.now) (map element behind.now) }
{
    match count_of(group) {
        2 => ElementLayout::Coordinates(lists, false),
        3 => with_z(lists, group, behind),
        _ => in_the_way(group),
    }
}

/// The layout of that group, of which x is there, by what stands behind it.
fn from_y(lists: usize, group: &SchemaElement<'_>, behind: &[SchemaElement<'_>]) -> ElementLayout
    ensures { layout result ≡ from_y lists (element group.now) (map element behind.now) }
{
    match behind {
        [] => in_the_way(group),
        [y, behind @ ..] => {
            if count_of(group) < 2 {
                return in_the_way(group);
            }
            if is_ordinate(y, "y") {
                return behind_y(lists, group, behind);
            }
            in_the_way(y)
        }
    }
}

/// The layout of that group, by what stands behind it.
fn ordinates(lists: usize, group: &SchemaElement<'_>, behind: &[SchemaElement<'_>]) -> ElementLayout
    ensures { layout result ≡ ordinates lists (element group.now) (map element behind.now) }
{
    match behind {
        [] => in_the_way(group),
        [x, behind @ ..] => {
            if count_of(group) < 1 {
                return in_the_way(group);
            }
            if is_ordinate(x, "x") {
                return from_y(lists, group, behind);
            }
            in_the_way(x)
        }
    }
}

/// The layout of coordinates below so many lists.
fn coordinate(
    lists: usize,
    found: &SchemaElement<'_>,
    behind: &[SchemaElement<'_>],
) -> ElementLayout
    ensures { layout result ≡ coordinate lists (element found.now) (map element behind.now) }
{
    if is_struct(found) {
        return ordinates(lists, found, behind);
    }
    in_the_way(found)
}

/// Whether an element is a group of one child.
fn is_group_of_one(found: &SchemaElement<'_>) -> bool
    ensures { result ≡ is_group_of_one (element found.now) }
{
    found.storage.physical_type.is_none() && count_of(found) == 1
}

/// Whether a group is a LIST.
fn is_list_group(annotation: Annotation) -> bool
    ensures { result ≡ is_list_group annotation }
{
    matches!(annotation, Annotation::List)
}

/// Whether an element is a LIST of one child.
fn is_list(found: &SchemaElement<'_>) -> bool
    ensures { result ≡ is_list (element found.now) }
{
    is_list_group(annotation_of(found)) && (is_group_of_one(found) && !is_repeated(found))
}

/// Whether an element is a REPEATED group of one child.
fn is_repeated_group(found: &SchemaElement<'_>) -> bool
    ensures { result ≡ is_repeated_group (element found.now) }
{
    is_group_of_one(found) && is_repeated(found)
}

/// The layout of an element below so many lists, by what stands behind it, with so many more lists
/// at most.
#[cycle(below)]
fn below_lists(
    more: usize,
    lists: usize,
    found: &SchemaElement<'_>,
    behind: &[SchemaElement<'_>],
) -> ElementLayout
    requires { more + lists ≤ 3 }
    ensures { layout result ≡ below_lists more lists (element found.now) (map element behind.now) }
{
    if more > 0 && is_list(found) {
        return below_list(more - 1, lists, found, behind);
    }
    coordinate(lists, found, behind)
}

/// The layout of a LIST, by what stands behind it.
#[cycle(below)]
fn below_list(
    more: usize,
    lists: usize,
    list: &SchemaElement<'_>,
    behind: &[SchemaElement<'_>],
) -> ElementLayout
    requires { more + lists < 3 }
    ensures { layout result ≡ below_list (below_lists more) lists (element list.now) (map element behind.now) }
{
    match behind {
        [] => in_the_way(list),
        [group, behind @ ..] => {
            if is_repeated_group(group) {
                return below_group(more, lists, group, behind);
            }
            in_the_way(group)
        }
    }
}

/// The layout of the REPEATED group of a LIST, by what stands behind it.
#[cycle(below)]
fn below_group(
    more: usize,
    lists: usize,
    group: &SchemaElement<'_>,
    behind: &[SchemaElement<'_>],
) -> ElementLayout
    requires { more + lists < 3 }
    ensures { layout result ≡ below_group (below_lists more) lists (element group.now) (map element behind.now) }
{
    match behind {
        [] => in_the_way(group),
        [item, behind @ ..] => below_lists(more, lists + 1, item, behind),
    }
}

/// Whether an element is stored as its type asks.
fn is_stored_so(found: &SchemaElement<'_>) -> bool
    ensures { result ≡ is_stored (storage_of (element found.now)) (element found.now) }
{
    is_stored(storage_of(found), found)
}

/// Whether the first element and each that is below it are stored as their types ask.
fn are_stored(elements: &[SchemaElement<'_>]) -> bool
    ensures { result ≡ are_stored 1 (map element elements.now) }
{
    let mut left: u128 = 1;
    for found in elements {
        if left == 0 {
            return true;
        }
        if !is_stored_so(found) {
            return false;
        }
        left = left - 1 + count_of(found);
    }
    true
}

/// The layout of an element that is judged, by what stands behind it.
fn strict_layout(found: &SchemaElement<'_>, behind: &[SchemaElement<'_>]) -> ElementLayout
    ensures { layout result ≡ strict_layout (element found.now) (map element behind.now) }
{
    if is_bytes(found) {
        return ElementLayout::Bytes;
    }
    below_lists(3, 0, found, behind)
}

/// The layout of the first element, by those behind it.
fn layout_of(elements: &[SchemaElement<'_>]) -> ElementLayout
    ensures { layout result ≡ layout_of (map element elements.now) }
{
    match elements {
        [] => ElementLayout::Unjudged,
        [found, behind @ ..] => {
            if are_stored(elements) {
                return strict_layout(found, behind);
            }
            ElementLayout::Unjudged
        }
    }
}

/// The layouts of the children of the root, of the elements behind it. Errs only when out of memory.
fn layouts_in(
    alloc: Global,
    elements: &[SchemaElement<'_>],
) -> Result<Vec<ElementLayout>, AllocError>
    ensures { IfOk result (λ made. map layout made.items ≡ layouts_in 0 (map element elements.now)) }
{
    let mut made = Vec::new(alloc);
    let mut below: u128 = 0;
    for (at, found) in elements.iter().enumerate() {
        let count = count_of(found);
        if below == 0 {
            made.push(layout_of(&elements[at..]))?;
            below = count;
        } else {
            below = below - 1 + count;
        }
    }
    Ok(made)
}

/// The layouts of the children of a schema's root. Errs only when out of memory.
fn root_layouts(
    alloc: Global,
    elements: &[SchemaElement<'_>],
) -> Result<Vec<ElementLayout>, AllocError>
    ensures { IfOk result (λ made. map layout made.items ≡ root_layouts (map element elements.now)) }
{
    match elements.split_first() {
        None => Ok(Vec::new(alloc)),
        Some((_root, below)) => layouts_in(alloc, below),
    }
}

/// Adds a claim with the first of some layouts, if one is left; and returns the others.
fn push_joined<'l>(
    made: &mut Vec<RootElement>,
    claim: ElementClaim,
    layouts: &'l [ElementLayout],
) -> Result<&'l [ElementLayout], AllocError>
    ensures { IfOk result (λ rest. (cs : List Claim) → map root_element made.new.items ++ joined cs (map layout rest.now)
        ≡ map root_element made.old.items ++ joined (claim_view claim ∷ cs) (map layout layouts.now)) }
{
    match layouts {
        [layout, rest @ ..] => {
            let layout = *layout;
            made.push(RootElement { claim, layout })?;
            Ok(rest)
        }
        [] => {
            let layout = ElementLayout::Unjudged;
            made.push(RootElement { claim, layout })?;
            Ok(layouts)
        }
    }
}

/// The elements of columns, by what they say beside them and the elements of a schema. Errs only
/// when out of memory.
pub(crate) fn root_elements(
    alloc: Global,
    elements: &[SchemaElement<'_>],
    claims: Vec<ElementClaim>,
) -> Result<Vec<RootElement>, AllocError>
    ensures { IfOk result (λ made. map root_element made.items ≡ joined (map claim_view claims.items) (root_layouts (map element elements.now))) }
{
    let layouts = root_layouts(alloc, elements)?;
    let mut made = Vec::new(alloc);
    let mut left = layouts.as_slice();
    'claims: for claim in claims {
        left = push_joined(&mut made, claim, left)?;
    }
    Ok(made)
}
