//! The groups that an element of a schema is in, by the elements before it.
ghost use Rattle.std.specs.Prelude.{◌≡◌, ◌<◌, ◌+◌, ◌∷◌, [], ◌++◌, IfOk, OnOk, Option, Some, map, option_map, option_to_list, string_bytes};
ghost use Rattle.std.specs.Str.Lossy.{utf8_lossy};
ghost use Rattle.parquet_footer.specs.Element.{element};
ghost use Rattle.parquet_columns.specs.Levels.{level, open_of, taken, entered, deep_from, open_behind, shown_names, column_in, below_column, path_in, is_below};

use crate::columns::NESTING_LIMIT;
use crate::marks::count_of;
use parquet_footer::SchemaElement;
use std::alloc::{AllocError, Global};

/// How many names below a column a path has at most, before `..`.
const MAX_NAMES: u32 = 8;

/// A group.
#[derive(Clone, Copy)]
pub(crate) struct Level<'a> {
    /// Its name.
    name: &'a [u8],
    /// How many of its children are still to come.
    left: u128,
}

/// Leaves out the innermost groups of which no child is to come. Errs only when out of memory.
pub(crate) fn close(levels: &mut Vec<Level<'_>>) -> Result<(), AllocError>
    ensures { OnOk result (map level levels.new.items ≡ open_of (map level levels.old.items)) }
{
    'levels: while let Some(last) = levels.pop() {
        if last.left > 0 {
            levels.push(last)?;
            return Ok(());
        }
    }
    Ok(())
}

/// Counts a child of the innermost group. Errs only when out of memory.
fn take_child(levels: &mut Vec<Level<'_>>) -> Result<(), AllocError>
    ensures { OnOk result (map level levels.new.items ≡ taken (map level levels.old.items)) }
{
    let Some(last) = levels.pop() else {
        return Ok(());
    };
    levels.push(Level {
        name: last.name,
        left: last.left.saturating_sub(1),
    })?;
    Ok(())
}

/// Enters an element, a child of the innermost group. Errs only when out of memory.
pub(crate) fn enter<'a>(
    levels: &mut Vec<Level<'a>>,
    child: &SchemaElement<'a>,
) -> Result<(), AllocError>
    ensures { OnOk result (map level levels.new.items ≡ entered (map level levels.old.items) (element child.now)) }
{
    take_child(levels)?;
    levels.push(Level {
        name: child.storage.name.bytes,
        left: count_of(child),
    })?;
    Ok(())
}

/// The place of the first of the elements behind the root that is more than 64 levels deep. Errs only
/// when out of memory.
pub(crate) fn deep_among(
    alloc: Global,
    elements: &[SchemaElement<'_>],
) -> Result<Option<usize>, AllocError>
    ensures { IfOk result (λ at. at ≡ deep_from 1 [] (map element elements.now)) }
{
    let mut levels = Vec::new(alloc);
    for (at, child) in elements.iter().enumerate() {
        close(&mut levels)?;
        if levels.len() >= NESTING_LIMIT {
            return Ok(Some(at + 1));
        }
        enter(&mut levels, child)?;
    }
    Ok(None)
}

/// The groups that are open behind elements, the first of which is a column. Errs only when out of
/// memory.
pub(crate) fn open_behind<'a>(
    alloc: Global,
    elements: &[SchemaElement<'a>],
) -> Result<Vec<Level<'a>>, AllocError>
    ensures { IfOk result (λ made. map level made.items ≡ open_behind [] (map element elements.now)) }
{
    let mut levels = Vec::new(alloc);
    for child in elements {
        close(&mut levels)?;
        enter(&mut levels, child)?;
    }
    close(&mut levels)?;
    Ok(levels)
}

/// A name as it is shown. Errs only when out of memory.
fn shown_name(alloc: Global, name: &[u8]) -> Result<String, AllocError>
    ensures { IfOk result (λ shown. string_bytes shown ≡ utf8_lossy name.now) }
{
    match String::from_utf8_lossy(alloc, name) {
        Ok(shown) => Ok(shown),
        Err(_) => Err(AllocError),
    }
}

/// Whether what is in these groups is below a column.
pub(crate) fn is_below(levels: &[Level<'_>]) -> bool
    ensures { result ≡ is_below (map level levels.now) }
{
    match levels {
        [] => false,
        [_, ..] => true,
    }
}

/// The column of what is in these groups, and has that name itself. Errs only when out of memory.
pub(crate) fn column_in(
    alloc: Global,
    levels: &[Level<'_>],
    own: &[u8],
) -> Result<String, AllocError>
    ensures { IfOk result (λ name. string_bytes name ≡ column_in (map level levels.now) own.now) }
{
    match levels {
        [] => shown_name(alloc, own),
        [column, ..] => shown_name(alloc, column.name),
    }
}

/// Adds a name to a path that has room for so many; and says for how many it has then.
fn push_name(
    alloc: Global,
    path: &mut Vec<String>,
    room: u32,
    name: &[u8],
) -> Result<u32, AllocError>
    requires { 0 < room }
    ensures path { OnOk result (map string_bytes path.new.items ≡ map string_bytes path.old.items ++ utf8_lossy name.now ∷ []) }
    ensures room { IfOk result (λ left. left + 1 ≡ room) }
{
    path.push(shown_name(alloc, name)?)?;
    Ok(room - 1)
}

/// Names as they are shown: at most eight, and `..` in place of the others. Errs only when out of
/// memory.
#[tactic(auto, using(crate::proofs::Opening::shown_more, crate::proofs::Opening::shown_full))]
pub(crate) fn shown_names(alloc: Global, names: &[&[u8]]) -> Result<Vec<String>, AllocError>
    ensures { IfOk result (λ path. map string_bytes path.items ≡ shown_names 8 (map (λ n. n.now) names.now)) }
{
    let mut path = Vec::new(alloc);
    let mut room = MAX_NAMES;
    let mut left = names;
    'names: while let [name, rest @ ..] = left {
        if room == 0 {
            path.push(String::from_str(alloc, "..")?)?;
            return Ok(path);
        }
        room = push_name(alloc, &mut path, room, name)?;
        left = rest;
    }
    Ok(path)
}

/// The names of groups, and behind them another, if there is one. Errs only when out of memory.
fn names_of<'a>(
    alloc: Global,
    groups: &[Level<'a>],
    own: Option<&'a [u8]>,
) -> Result<Vec<&'a [u8]>, AllocError>
    ensures { IfOk result (λ names. map (λ n. n.now) names.items
        ≡ map (λ l. l.name) (map level groups.now) ++ option_to_list (option_map (λ n. n.now) own.entry)) }
{
    let mut names = Vec::new(alloc);
    for group in groups {
        names.push(group.name)?;
    }
    if let Some(own) = own {
        names.push(own)?;
    }
    Ok(names)
}

/// The path of what is in these groups below a column, and has that name itself, if it has one.
/// Errs only when out of memory.
fn below_column<'a>(
    alloc: Global,
    groups: &[Level<'a>],
    own: Option<&'a [u8]>,
) -> Result<Vec<String>, AllocError>
    ensures { IfOk result (λ path. map string_bytes path.items
        ≡ below_column (map level groups.now) (option_map (λ n. n.now) own.entry)) }
{
    let names = names_of(alloc, groups, own)?;
    shown_names(alloc, names.as_slice())
}

/// The path of what is in these groups, and has that name itself, if it has one, down from its
/// column. Errs only when out of memory.
pub(crate) fn path_in<'a>(
    alloc: Global,
    levels: &[Level<'a>],
    own: Option<&'a [u8]>,
) -> Result<Vec<String>, AllocError>
    ensures { IfOk result (λ path. map string_bytes path.items
        ≡ path_in (map level levels.now) (option_map (λ n. n.now) own.entry)) }
{
    match levels {
        [] => Ok(Vec::new(alloc)),
        [_, groups @ ..] => below_column(alloc, groups, own),
    }
}
