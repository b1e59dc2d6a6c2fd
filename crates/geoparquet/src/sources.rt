//! Columns, each with what its element says.
ghost use Rattle.std.specs.Prelude.{◌≡◌, [], ◌∷◌, ◌++◌, IfOk, List, OnOk, map, option_map};
ghost use Rattle.arrow_columns.specs.Column.{column_tree};
ghost use Rattle.arrow_columns.specs.Types.{ColumnTree};
ghost use Rattle.geoparquet.specs.Sources.{element_view, with_elements, element_named, sourced, AreElements};
ghost use Rattle.geoparquet.specs.declared.sources.Sourced.{Sourced};

use arrow_columns::SchemaColumn;
use parquet_columns::RootElement;
use std::alloc::{AllocError, Global};
use std::collections::BTreeMap;

/// A column, and what its element says, if that is there.
#[derive(Clone, Copy)]
pub(crate) struct Sourced<'c> {
    /// The column.
    pub(crate) column: &'c SchemaColumn,
    /// What its element says.
    pub(crate) element: Option<&'c RootElement>,
}

/// What elements say, by the names of their columns: of a name that of its first column.
pub(crate) type ByName<'c> = BTreeMap<&'c str, Option<&'c RootElement>>;

/// Columns, and what their elements say by their names.
#[derive(Drop)]
pub(crate) struct Sources<'c> {
    /// The columns.
    pub(crate) all: &'c [Sourced<'c>],
    /// What their elements say.
    pub(crate) named: ByName<'c>,
}

/// Returns the first of what the elements say, if one is left, which is that of the next column; and
/// what the others say.
pub(crate) fn next_element(elements: &[RootElement]) -> (Option<&RootElement>, &[RootElement])
    ensures { (c : ColumnTree) (cs : List ColumnTree) → with_elements (c ∷ cs) (map element_view elements.now)
        ≡ (c, option_map (λ e. element_view e.now) result.0) ∷ with_elements cs (map element_view result.1.now) }
{
    match elements {
        [element, rest @ ..] => (Some(element), rest),
        [] => (None, elements),
    }
}

/// Returns columns, each with what its element says. Errs only when out of memory.
pub(crate) fn with_elements<'c>(
    alloc: Global,
    columns: &'c [SchemaColumn],
    elements: &'c [RootElement],
) -> Result<Vec<Sourced<'c>>, AllocError>
    ensures { IfOk result (λ made. map sourced made.items ≡ with_elements (map column_tree columns.now) (map element_view elements.now)) }
{
    let mut made = Vec::new(alloc);
    let mut left = columns;
    let mut said = elements;
    'columns: while let [column, rest @ ..] = left {
        let (element, others) = next_element(said);
        made.push(Sourced { column, element })?;
        left = rest;
        said = others;
    }
    Ok(made)
}

/// Puts what the element of a column says at the column's name, unless something stands there.
fn put_element<'c>(named: &mut ByName<'c>, it: &Sourced<'c>) -> Result<(), AllocError>
    ensures { OnOk result ((xs : List Sourced) → AreElements (map sourced xs) named.old → AreElements (map sourced (xs ++ it.now ∷ [])) named.new) }
{
    let name = it.column.name.as_str();
    if named.contains_key(name) {
        return Ok(());
    }
    drop(named.insert(name, it.element)?);
    Ok(())
}

/// Returns what elements say by the names of their columns. Errs only when out of memory.
fn by_name<'c>(alloc: Global, all: &'c [Sourced<'c>]) -> Result<ByName<'c>, AllocError>
    ensures { IfOk result (λ named. AreElements (map sourced all.now) named) }
{
    let mut named = BTreeMap::new(alloc);
    'sources: for it in all {
        put_element(&mut named, it)?;
    }
    Ok(named)
}

impl<'c> Sources<'c> {
    /// Returns columns, and what their elements say by their names. Errs only when out of memory.
    pub(crate) fn new(alloc: Global, all: &'c [Sourced<'c>]) -> Result<Sources<'c>, AllocError>
        ensures all { IfOk result (λ sources. sources.all.now ≡ all.now) }
        ensures named { IfOk result (λ sources. AreElements (map sourced all.now) sources.named) }
    {
        let named = by_name(alloc, all)?;
        Ok(Sources { all, named })
    }

    /// Returns what the element of the first column of a name says.
    pub(crate) fn element(&self, name: &str) -> Option<&'c RootElement>
        requires { AreElements (map sourced self.now.all.now) self.now.named }
        ensures { option_map (λ e. element_view e.now) result ≡ element_named (map sourced self.now.all.now) name.now }
    {
        match self.named.get(name) {
            Some(element) => *element,
            None => None,
        }
    }
}
