//! Elements of a schema with all that is below them.
ghost use Rattle.std.specs.Prelude.{◌≡◌, ◌≢◌, ◌∷◌, [], length, map, IfOk, IfErr};
ghost use Rattle.arrow_columns.specs.Column.{type_tree, column_tree};
ghost use Rattle.parquet_columns.specs.Fault.{Says};
ghost use Rattle.parquet_columns.specs.Nodes.{wrapper, shape_tree, node_tree, shape_type, plain_column, is_optional, is_repeated, column_by, column_of, one_shape, group_shape, is_item_name, item_by, list_of, list_shape, is_group, map_by, map_type, map_of, map_shape};

use crate::fault::{ColumnsError, ElementFault, SchemaRule};
use arrow_columns::{
    AnyType, Form, ListForm, SchemaColumn, list_type, nested_notation, nested_type, struct_type,
};
use parquet_footer::Repetition;
use std::alloc::{AllocError, Global};
use std::collections::BTreeMap;

/// What an element stands for.
#[derive(Drop)]
pub(crate) enum Shape {
    /// A type: that of a leaf, of a LIST or of a MAP.
    Typed(AnyType),
    /// A group of one element that is not repeated.
    Wrapper(SchemaColumn),
    /// Any other group.
    Group(Vec<SchemaColumn>),
}

/// An element with all that is below it.
#[derive(Drop)]
pub(crate) struct Node<'a> {
    pub(crate) name: &'a [u8],
    pub(crate) repetition: Repetition,
    pub(crate) shape: Shape,
}

/// The type of an element's values.
fn shape_type(alloc: Global, shape: Shape) -> Result<AnyType, AllocError>
    ensures { IfOk result (λ made. type_tree made ≡ shape_type (shape_tree shape)) }
{
    match shape {
        Shape::Typed(data_type) => Ok(data_type),
        Shape::Wrapper(column) => {
            let columns = vec![in alloc; column]?;
            struct_type(alloc, columns)
        }
        Shape::Group(columns) => struct_type(alloc, columns),
    }
}

/// A column without metadata, of a name that need not be UTF-8.
pub(crate) fn plain_column(
    alloc: Global,
    name: &[u8],
    nullable: bool,
    data_type: AnyType,
) -> Result<SchemaColumn, AllocError>
    ensures { IfOk result (λ made. column_tree made ≡ plain_column name.now nullable (type_tree data_type)) }
{
    let Ok(name) = String::from_utf8_lossy(alloc, name) else {
        drop(data_type);
        return Err(AllocError);
    };
    Ok(SchemaColumn {
        name,
        nullable,
        data_type,
        metadata: BTreeMap::new(alloc),
    })
}

/// Whether a repetition lets values be null.
fn is_optional(repetition: Repetition) -> bool
    ensures { result ≡ is_optional repetition }
{
    match repetition {
        Repetition::Optional => true,
        _ => false,
    }
}

/// Whether an element has any number of values.
fn is_repeated(repetition: Repetition) -> bool
    ensures { result ≡ is_repeated repetition }
{
    match repetition {
        Repetition::Repeated => true,
        _ => false,
    }
}

/// A column of a name, a repetition and a type.
fn column_by(
    alloc: Global,
    name: &[u8],
    repetition: Repetition,
    data_type: AnyType,
) -> Result<SchemaColumn, AllocError>
    ensures { IfOk result (λ made. column_tree made ≡ column_by name.now repetition (type_tree data_type)) }
{
    let column = plain_column(alloc, name, is_optional(repetition), data_type)?;
    if is_repeated(repetition) {
        let list = list_type(alloc, ListForm::Small, column)?;
        return plain_column(alloc, name, false, list);
    }
    Ok(column)
}

/// The column of an element.
pub(crate) fn column_of(alloc: Global, node: Node<'_>) -> Result<SchemaColumn, AllocError>
    ensures { IfOk result (λ made. column_tree made ≡ column_of (node_tree node.entry)) }
{
    let Node {
        name,
        repetition,
        shape,
    } = node;
    let data_type = shape_type(alloc, shape)?;
    column_by(alloc, name, repetition, data_type)
}

/// The columns of elements.
#[tactic(auto, using(crate::proofs::Shapes::column_next, std::proofs::lemmas::List::map_push, std::proofs::lemmas::Grind::common_steps))]
fn columns_of_nodes(alloc: Global, nodes: Vec<Node<'_>>) -> Result<Vec<SchemaColumn>, AllocError>
    ensures { IfOk result (λ made. map column_tree made.items ≡ map column_of (map node_tree nodes.entry.items)) }
{
    let mut made = Vec::with_capacity(alloc, nodes.len())?;
    'nodes: for node in nodes {
        made.push(column_of(alloc, node)?)?;
    }
    Ok(made)
}

/// The one element, or the elements where they are none or more.
#[tactic(auto, using(crate::proofs::Shapes::one_item))]
fn only_node(nodes: Vec<Node<'_>>) -> Result<Node<'_>, Vec<Node<'_>>>
    ensures one { IfOk result (λ node. nodes.entry.items ≡ node ∷ []) }
    ensures more { IfErr result (λ same. same.items ≡ nodes.entry.items) }
    ensures count { IfErr result (λ same. length same.items ≢ 1) }
{
    let mut nodes = nodes;
    if nodes.len() == 1 {
        Ok(nodes.remove(0))
    } else {
        Err(nodes)
    }
}

/// What a group of one element stands for.
fn one_shape(alloc: Global, node: Node<'_>) -> Result<Shape, AllocError>
    ensures { IfOk result (λ made. shape_tree made ≡ one_shape (node_tree node.entry).repetition (column_of (node_tree node.entry))) }
{
    let repeated = is_repeated(node.repetition);
    let column = column_of(alloc, node)?;
    if repeated {
        return Ok(Shape::Group(vec![in alloc; column]?));
    }
    Ok(Shape::Wrapper(column))
}

/// What a group stands for that is neither a LIST nor a MAP.
#[tactic(auto, using(crate::proofs::Shapes::one_group, crate::proofs::Shapes::other_group))]
pub(crate) fn group_shape(alloc: Global, nodes: Vec<Node<'_>>) -> Result<Shape, AllocError>
    ensures { IfOk result (λ made. shape_tree made ≡ group_shape (map node_tree nodes.entry.items)) }
{
    match only_node(nodes) {
        Ok(node) => one_shape(alloc, node),
        Err(nodes) => columns_of_nodes(alloc, nodes).map(Shape::Group),
    }
}

/// Whether the repeated group of a LIST is the item itself, by its name.
fn is_item_name(list: &[u8], name: &[u8]) -> bool
    ensures { result ≡ is_item_name list.now name.now }
{
    if name == "array".as_bytes() {
        return true;
    }
    match name.strip_suffix(b"_tuple") {
        Some(front) => front == list,
        None => false,
    }
}

/// The item of a LIST of a name, by its repeated element of that name, a group of one element that is not repeated.
fn wrapped_item(
    alloc: Global,
    list: &[u8],
    name: &[u8],
    column: SchemaColumn,
) -> Result<SchemaColumn, AllocError>
    ensures { IfOk result (λ made. column_tree made ≡ item_by list.now name.now (wrapper (column_tree column))) }
{
    if !is_item_name(list, name) {
        return Ok(column);
    }
    let data_type = shape_type(alloc, Shape::Wrapper(column))?;
    plain_column(alloc, name, false, data_type)
}

/// The item of a LIST of a name, by its repeated element.
fn item_by(alloc: Global, list: &[u8], node: Node<'_>) -> Result<SchemaColumn, AllocError>
    ensures { IfOk result (λ made. column_tree made ≡ item_by list.now (node_tree node.entry).name (node_tree node.entry).shape) }
{
    let Node { name, shape, .. } = node;
    match shape {
        Shape::Wrapper(column) => wrapped_item(alloc, list, name, column),
        Shape::Typed(data_type) => plain_column(alloc, name, false, data_type),
        Shape::Group(columns) => {
            let data_type = struct_type(alloc, columns)?;
            plain_column(alloc, name, false, data_type)
        }
    }
}

/// What a LIST stands for, by the elements below it; it is the one with that index.
#[tactic(auto, using(crate::proofs::Shapes::one_list, crate::proofs::Shapes::no_list))]
pub(crate) fn list_shape(
    alloc: Global,
    at: usize,
    list: &[u8],
    nodes: Vec<Node<'_>>,
) -> Result<Shape, ColumnsError>
    ensures { Says shape_tree (list_shape at list.now (map node_tree nodes.entry.items)) result }
{
    match only_node(nodes) {
        Ok(node) => list_of(alloc, at, list, node),
        Err(_) => Err(ColumnsError::Broken(ElementFault::new(SchemaRule::List, at))),
    }
}

/// What a LIST stands for, by the one element below it.
fn list_of(alloc: Global, at: usize, list: &[u8], node: Node<'_>) -> Result<Shape, ColumnsError>
    ensures { Says shape_tree (list_of at list.now (node_tree node.entry)) result }
{
    if !is_repeated(node.repetition) {
        drop(node);
        return Err(ColumnsError::Broken(ElementFault::new(SchemaRule::List, at)));
    }
    let item = item_by(alloc, list, node)?;
    Ok(Shape::Typed(list_type(alloc, ListForm::Small, item)?))
}

/// Whether an element is a group that is neither a LIST nor a MAP.
fn is_group(shape: &Shape) -> bool
    ensures { result ≡ is_group (shape_tree shape.now) }
{
    match shape {
        Shape::Typed(_) => false,
        _ => true,
    }
}

/// A map whose entries are those of an element.
fn map_type(alloc: Global, node: Node<'_>) -> Result<AnyType, AllocError>
    ensures { IfOk result (λ made. type_tree made ≡ map_type (node_tree node.entry).name (shape_type (node_tree node.entry).shape)) }
{
    let Node { name, shape, .. } = node;
    let entries = shape_type(alloc, shape)?;
    map_by(alloc, plain_column(alloc, name, false, entries)?)
}

/// A map of those entries.
fn map_by(alloc: Global, entries: SchemaColumn) -> Result<AnyType, AllocError>
    ensures { IfOk result (λ made. type_tree made ≡ map_by (column_tree entries)) }
{
    let part = entries.notation(alloc)?;
    let text = nested_notation(alloc, "map", &[part])?;
    let parts = vec![in alloc; entries]?;
    nested_type(alloc, text, Form::Map, Vec::new(alloc), parts)
}

/// What a MAP stands for, by the elements below it; it is the one with that index.
#[tactic(auto, using(crate::proofs::Shapes::one_map, crate::proofs::Shapes::no_map))]
pub(crate) fn map_shape(
    alloc: Global,
    at: usize,
    nodes: Vec<Node<'_>>,
) -> Result<Shape, ColumnsError>
    ensures { Says shape_tree (map_shape at (map node_tree nodes.entry.items)) result }
{
    match only_node(nodes) {
        Ok(node) => map_of(alloc, at, node),
        Err(_) => Err(ColumnsError::Broken(ElementFault::new(SchemaRule::Map, at))),
    }
}

/// What a MAP stands for, by the one element below it.
fn map_of(alloc: Global, at: usize, node: Node<'_>) -> Result<Shape, ColumnsError>
    ensures { Says shape_tree (map_of at (node_tree node.entry)) result }
{
    if !is_repeated(node.repetition) || !is_group(&node.shape) {
        drop(node);
        return Err(ColumnsError::Broken(ElementFault::new(SchemaRule::Map, at)));
    }
    Ok(Shape::Typed(map_type(alloc, node)?))
}
