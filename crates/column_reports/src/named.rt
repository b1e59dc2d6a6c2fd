//! Who gives a column its extension name and metadata, and what its element says beside them.
ghost use Rattle.std.specs.Prelude.{◌≡◌, ◌∷◌, ◌++◌, IfOk, List, OnOk, map, option_map};
ghost use Rattle.arrow_columns.specs.Column.{column_tree, name_on};
ghost use Rattle.arrow_columns.specs.Types.{ColumnTree};
ghost use Rattle.parquet_columns.specs.Layouts.{root_element};
ghost use Rattle.geoparquet.specs.Sources.{with_elements};
ghost use Rattle.arrow_values.specs.Texts.{text_of};
ghost use Rattle.column_reports.specs.Named.{NamedOf, all_named, field_or_geo, named_by, named_view, naming, nobody_if, nobody_where, said_beside};

use arrow_columns::SchemaColumn;
use parquet_columns::{ElementClaim, RootElement, is_reserved, is_unreadable};
use std::alloc::{AllocError, Global};

/// Who gives a column its extension name and metadata, if it has any (docs/FORMAT.md, 2.6).
#[derive(Debug, Clone, Copy, PartialEq, Eq)]
pub enum NamedBy {
    /// Nobody: the column is not read, as an element of it breaks a rule (docs/FORMAT.md, 4.4), or the
    /// element refutes the field (4.5).
    Nobody,
    /// Its field.
    Field,
    /// The geometry type of its element.
    Element,
    /// Its member of `columns` of GeoParquet metadata: neither of the others does.
    Geo,
}

/// Who gives a column its extension name, and what its element says beside that.
#[derive(Debug, Clone, Copy)]
pub(crate) struct Named<'e> {
    /// Who gives it.
    pub(crate) by: NamedBy,
    /// The extension metadata that the geometry type of the element denotes beside a field with an
    /// extension name of its own.
    pub(crate) beside: Option<&'e str>,
}

/// Whether the field of a column, or its member of `columns`, gives it its name. Errs only when out of
/// memory.
fn field_or_geo(alloc: Global, column: &SchemaColumn) -> Result<NamedBy, AllocError>
    ensures { IfOk result (λ by. by ≡ field_or_geo (name_on (column_tree column.now))) }
{
    if is_reserved(alloc, column.extension_type_name())? {
        return Ok(NamedBy::Field);
    }
    Ok(NamedBy::Geo)
}

/// Who gives a column its name, by what its element says, if it says something. Errs only when out of
/// memory.
fn named_by(
    alloc: Global,
    column: &SchemaColumn,
    element: Option<&RootElement>,
) -> Result<NamedBy, AllocError>
    ensures { IfOk result (λ by. by ≡ named_by (column_tree column.now) (option_map (λ e. root_element e.now) element.entry)) }
{
    let Some(element) = element else {
        return field_or_geo(alloc, column);
    };
    if is_unreadable(&column.data_type) {
        return Ok(NamedBy::Nobody);
    }
    match &element.claim {
        ElementClaim::Given { .. } => Ok(NamedBy::Element),
        ElementClaim::Silent | ElementClaim::Beside { .. } => field_or_geo(alloc, column),
    }
}

/// Returns the extension metadata that an element says beside a field, if it says some.
fn said_beside(element: Option<&RootElement>) -> Option<&str>
    ensures { text_of result ≡ said_beside (option_map (λ e. root_element e.now) element.entry) }
{
    let Some(element) = element else {
        return None;
    };
    match &element.claim {
        ElementClaim::Beside { metadata, .. } => Some(metadata.as_str()),
        ElementClaim::Silent | ElementClaim::Given { .. } => None,
    }
}

/// Returns who names a column, and what its element says, if it says something. Errs only when out of
/// memory.
fn naming<'e>(
    alloc: Global,
    column: &SchemaColumn,
    element: Option<&'e RootElement>,
) -> Result<Named<'e>, AllocError>
    ensures { IfOk result (λ named. named_view named ≡ naming (column_tree column.now) (option_map (λ e. root_element e.now) element.entry)) }
{
    Ok(Named {
        by: named_by(alloc, column, element)?,
        beside: said_beside(element),
    })
}

/// Adds who names a column, by the first of what the elements say, if one is left; and returns what
/// the others say. Errs only when out of memory.
fn push_named<'e>(
    alloc: Global,
    all: &mut Vec<Named<'e>>,
    column: &SchemaColumn,
    elements: &'e [RootElement],
) -> Result<&'e [RootElement], AllocError>
    ensures { IfOk result (λ rest. (cs : List ColumnTree) → map named_view all.new.items ++ all_named cs (map root_element rest.now)
        ≡ map named_view all.old.items ++ all_named (column_tree column.now ∷ cs) (map root_element elements.now)) }
{
    match elements {
        [element, rest @ ..] => {
            all.push(naming(alloc, column, Some(element))?)?;
            Ok(rest)
        }
        [] => {
            all.push(naming(alloc, column, None)?)?;
            Ok(elements)
        }
    }
}

/// Returns who names each of some columns, beside which the elements say that. Errs only when out of
/// memory.
fn all_named<'e>(
    alloc: Global,
    columns: &[SchemaColumn],
    elements: &'e [RootElement],
) -> Result<Vec<Named<'e>>, AllocError>
    ensures { IfOk result (λ all. map named_view all.items ≡ all_named (map column_tree columns.now) (map root_element elements.now)) }
{
    let mut all = Vec::new(alloc);
    let mut left = columns;
    let mut said = elements;
    'columns: while let [column, rest @ ..] = left {
        said = push_named(alloc, &mut all, column, said)?;
        left = rest;
    }
    Ok(all)
}

/// Returns nobody, where the element of a column refutes the field; else who names it.
fn nobody_if(is_refuted: bool, named: Named<'_>) -> Named<'_>
    ensures { named_view result ≡ nobody_if is_refuted (named_view named.entry) }
{
    let Named { by, beside } = named;
    let by = if is_refuted { NamedBy::Nobody } else { by };
    Named { by, beside }
}

/// Adds who names a column, by the first of the flags, if one is left; and returns the others. Errs
/// only when out of memory.
fn push_unless<'e, 'r>(
    all: &mut Vec<Named<'e>>,
    named: Named<'e>,
    refuted: &'r [bool],
) -> Result<&'r [bool], AllocError>
    ensures { IfOk result (λ rest. (ns : List NamedOf) → map named_view all.new.items ++ nobody_where rest.now ns
        ≡ map named_view all.old.items ++ nobody_where refuted.now (named_view named.entry ∷ ns)) }
{
    match refuted {
        [is_refuted, rest @ ..] => {
            all.push(nobody_if(*is_refuted, named))?;
            Ok(rest)
        }
        [] => {
            all.push(named)?;
            Ok(refuted)
        }
    }
}

/// Returns those who name columns, but nobody where a flag of the column says that its element
/// refutes the field. Errs only when out of memory.
fn nobody_where<'e>(
    alloc: Global,
    refuted: &[bool],
    named: &[Named<'e>],
) -> Result<Vec<Named<'e>>, AllocError>
    ensures { IfOk result (λ all. map named_view all.items ≡ nobody_where refuted.now (map named_view named.now)) }
{
    let mut all = Vec::new(alloc);
    let mut left = named;
    let mut flags = refuted;
    'columns: while let [by, rest @ ..] = left {
        flags = push_unless(&mut all, *by, flags)?;
        left = rest;
    }
    Ok(all)
}

/// Returns who names each of the columns of a file, beside which its elements say that, and refute
/// the fields of those with a flag. Errs only when out of memory.
pub(crate) fn named_in<'e>(
    alloc: Global,
    columns: &[SchemaColumn],
    elements: &'e [RootElement],
    refuted: &[bool],
) -> Result<Vec<Named<'e>>, AllocError>
    ensures { IfOk result (λ all. map named_view all.items ≡ nobody_where refuted.now (all_named (map column_tree columns.now) (map root_element elements.now))) }
{
    let named = all_named(alloc, columns, elements)?;
    nobody_where(alloc, refuted, named.as_slice())
}
