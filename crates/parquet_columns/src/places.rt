//! Where the children of a schema's root stand.
ghost use Rattle.std.specs.Prelude.{◌≡◌, ◌+◌, ◌*◌, ◌<◌, ◌≤◌, ◌^◌, ◌++◌, IfOk, OnOk, length, map, option_map};
ghost use Rattle.std.specs.List.{slice_get};
ghost use Rattle.parquet_footer.specs.Element.{element};
ghost use Rattle.parquet_columns.specs.Fault.{Says};
ghost use Rattle.parquet_columns.specs.Places.{child, children_from, missing_from, wrong_at, is_whole, counted, within, children_of_root};

use crate::fault::{ColumnsError, ElementFault, SchemaRule};
use crate::levels::deep_among;
use crate::marks::count_of;
use parquet_footer::SchemaElement;
use std::alloc::{AllocError, Global};

/// A child of the root.
#[derive(Clone, Copy)]
pub(crate) struct Child<'a> {
    /// Its place, counted from the root, which is 0.
    pub at: usize,
    /// Its name.
    pub name: &'a [u8],
}

/// The children of a root.
#[derive(Drop)]
pub(crate) struct Children<'a> {
    /// Those that there are.
    pub found: Vec<Child<'a>>,
    /// How many elements are missing below the last.
    missing: u128,
}

/// The children of the root, of the elements behind it. Errs only when out of memory.
pub(crate) fn children_behind<'a>(
    alloc: Global,
    elements: &[SchemaElement<'a>],
) -> Result<Children<'a>, AllocError>
    ensures children { IfOk result (λ made. map child made.found.items ≡ children_from 1 0 (map element elements.now)) }
    ensures missing { IfOk result (λ made. made.missing ≡ missing_from 0 (map element elements.now)) }
{
    let mut found = Vec::new(alloc);
    let mut below: u128 = 0;
    let mut at = 1;
    for next in elements {
        let count = count_of(next);
        if below == 0 {
            found.push(Child {
                at,
                name: next.storage.name.bytes,
            })?;
            below = count;
        } else {
            below = below - 1 + count;
        }
        at += 1;
    }
    Ok(Children {
        found,
        missing: below,
    })
}

/// The child at a place among the children.
fn child_among<'c, 'a>(children: &'c [Child<'a>], at: usize) -> Option<&'c Child<'a>>
    ensures { option_map (λ c. child c.now) result ≡ slice_get (map child children.now) at }
{
    children.get(at)
}

/// Where the number of children is wrong.
fn wrong_at(first: Option<&Child<'_>>, end: usize) -> usize
    ensures { result ≡ wrong_at (option_map (λ c. child c.now) first.entry) end }
{
    match first {
        Some(first) => first.at,
        None => end,
    }
}

/// Whether the children are so many, and no element is missing below the last.
fn is_whole(count: usize, missing: u128, children: &[Child<'_>]) -> bool
    ensures { result ≡ is_whole count missing (map child children.now) }
{
    children.len() == count && missing == 0
}

/// The children, if they are so many, and no element is missing below the last. Errs where it is
/// not so.
fn counted<'a>(
    count: usize,
    end: usize,
    children: Children<'a>,
) -> Result<Vec<Child<'a>>, ColumnsError>
    ensures { Says (λ v. map child v.items) (counted count end children.entry.missing (map child children.entry.found.items)) result }
{
    let Children { found, missing } = children;
    if is_whole(count, missing, found.as_slice()) {
        return Ok(found);
    }
    let at = wrong_at(child_among(found.as_slice(), count), end);
    drop(found);
    Err(ColumnsError::Broken(ElementFault::new(SchemaRule::Children, at)))
}

/// The children of the root, where no element is too deep. Errs where one is.
fn within<'a>(deep: Option<usize>, children: Vec<Child<'a>>) -> Result<Vec<Child<'a>>, ColumnsError>
    ensures { Says (λ v. map child v.items) (within deep (map child children.entry.items)) result }
{
    match deep {
        None => Ok(children),
        Some(at) => {
            drop(children);
            Err(ColumnsError::Broken(ElementFault::new(SchemaRule::Depth, at)))
        }
    }
}

/// The children of the root, which says that they are so many, of the elements behind it. Errs
/// where they are not as many, or not all elements are there below the last, or one is more than 64
/// levels deep; and when out of memory.
pub(crate) fn children_of_root<'a>(
    alloc: Global,
    count: u32,
    elements: &[SchemaElement<'a>],
) -> Result<Vec<Child<'a>>, ColumnsError>
    ensures { Says (λ v. map child v.items) (children_of_root count (map element elements.now)) result }
{
    let children = children_behind(alloc, elements)?;
    let children = counted(count as usize, elements.len() + 1, children)?;
    within(deep_among(alloc, elements)?, children)
}
