//! The columns of a schema.
ghost use Rattle.std.specs.Prelude.{◌≡◌, ◌<◌, ◌++◌, ◌∷◌, [], length, IfOk, OnOk, map};
ghost use Rattle.std.specs.Str.Lossy.{utf8_lossy};
ghost use Rattle.arrow_columns.specs.Column.{column_tree};
ghost use Rattle.parquet_footer.specs.Element.{element};
ghost use Rattle.parquet_columns.specs.Fault.{Says, map_ok};
ghost use Rattle.parquet_columns.specs.Nodes.{shape_tree, node_tree};
ghost use Rattle.parquet_columns.specs.Columns.{kind_at, repetition_at, head_tree, head_at, children_of, leaf_shape, shape_at, nodes_by, node_at, fault_tree, column_trees, column_at, faults_at, columns_at, columns_below, columns_of, compared_columns};
ghost use Rattle.parquet_columns.specs.Places.{child, children_from};
ghost use Rattle.parquet_columns.specs.declared.leaf.LeafTypes.TheVariants.{Meant, Stored};

use crate::annotation::{Annotation, annotation_of};
use crate::fault::{ColumnsError, ElementFault, SchemaRule};
use crate::leaf::{LeafTypes, digits_at, length_at, type_by};
use crate::meaning::meaning_of;
use crate::nodes::{Node, Shape, column_of, group_shape, list_shape, map_shape};
use crate::places::{Child, children_behind, children_of_root};
use crate::unreadable::unreadable_column;
use arrow_columns::SchemaColumn;
use parquet_footer::{Footer, PhysicalType, Repetition, SchemaElement};
use std::alloc::{AllocError, Global};

/// How deep the elements of a schema may be nested below its root: a child of the root is 1 deep, its children are 2 deep.
pub const NESTING_LIMIT: usize = 64;

/// How an element's values are stored, or how many children it has.
#[derive(Clone, Copy)]
enum Kind {
    /// A leaf.
    Leaf(PhysicalType),
    /// A group.
    Group(u32),
}

/// What an element says itself.
#[derive(Clone, Copy)]
struct Head<'s, 'a> {
    element: &'s SchemaElement<'a>,
    kind: Kind,
    repetition: Repetition,
}

/// Whether an element is a leaf or a group.
fn kind_at(
    at: usize,
    physical: Option<PhysicalType>,
    count: Option<u32>,
) -> Result<Kind, ElementFault>
    ensures { result ≡ kind_at at physical count }
{
    match (physical, count) {
        (Some(PhysicalType::Unknown(_)), _) => Err(ElementFault::new(SchemaRule::Physical, at)),
        (Some(physical), None | Some(0)) => Ok(Kind::Leaf(physical)),
        (None, Some(count)) => Ok(Kind::Group(count)),
        _ => Err(ElementFault::new(SchemaRule::Element, at)),
    }
}

/// The repetition of an element.
fn repetition_at(at: usize, repetition: Option<Repetition>) -> Result<Repetition, ElementFault>
    ensures { result ≡ repetition_at at repetition }
{
    match repetition {
        None | Some(Repetition::Unknown(_)) => Err(ElementFault::new(SchemaRule::Repetition, at)),
        Some(repetition) => Ok(repetition),
    }
}

/// What the element with that index says.
#[tactic(auto, using(crate::proofs::Walks::there_is, crate::proofs::Walks::none_is), unfolding(crate::specs::Columns::head_at))]
fn head_at<'s, 'a>(
    elements: &'s [SchemaElement<'a>],
    at: usize,
) -> Result<Head<'s, 'a>, ElementFault>
    ensures is { map_ok head_tree result ≡ head_at (map element elements.now) at }
    ensures within { IfOk result (λ _. at < length elements.now) }
{
    if at >= elements.len() {
        return Err(ElementFault::new(SchemaRule::Children, at));
    }
    let element = &elements[at];
    let kind = kind_at(at, element.storage.physical_type, element.num_children)?;
    let repetition = repetition_at(at, element.storage.repetition)?;
    Ok(Head {
        element,
        kind,
        repetition,
    })
}

/// How many children an element has.
fn children_of(kind: Kind) -> u32
    ensures { result ≡ children_of kind }
{
    match kind {
        Kind::Leaf(_) => 0,
        Kind::Group(count) => count,
    }
}

/// What a leaf stands for.
#[tactic(auto, unfolding(crate::specs::Columns::leaf_shape))]
fn leaf_shape(
    alloc: Global,
    types: LeafTypes,
    at: usize,
    physical: PhysicalType,
    leaf: &SchemaElement<'_>,
) -> Result<Shape, ColumnsError>
    ensures { Says shape_tree (leaf_shape types at physical (element leaf.now)) result }
{
    let length = length_at(at, physical, leaf.storage.type_length)?;
    let digits = digits_at(at, physical, leaf)?;
    let made = type_by(alloc, types, physical, meaning_of(leaf), length, digits)?;
    Ok(Shape::Typed(made))
}

/// What an element stands for, by the elements below it.
fn shape_at(
    alloc: Global,
    types: LeafTypes,
    at: usize,
    head: &Head<'_, '_>,
    below: Vec<Node<'_>>,
) -> Result<Shape, ColumnsError>
    ensures { Says shape_tree (shape_at types at (head_tree head.now) (map node_tree below.entry.items)) result }
{
    let element = head.element;
    match head.kind {
        Kind::Leaf(physical) => leaf_shape(alloc, types, at, physical, element),
        Kind::Group(_) => match annotation_of(element) {
            Annotation::Plain => Ok(group_shape(alloc, below)?),
            Annotation::List => list_shape(alloc, at, element.storage.name.bytes, below),
            Annotation::Map => map_shape(alloc, at, below),
        },
    }
}

/// Reads the element with that index and all that is below it; and says which index comes behind.
#[cycle(read)]
fn read_node<'a>(
    alloc: Global,
    types: LeafTypes,
    elements: &[SchemaElement<'a>],
    at: usize,
    levels: usize,
) -> Result<(Node<'a>, usize), ColumnsError>
    ensures { Says (λ x. (node_tree x.0, x.1)) (node_at types levels (map element elements.now) at) result }
{
    if levels == 0 {
        return Err(ColumnsError::Broken(ElementFault::new(SchemaRule::Depth, at)));
    }
    let head = head_at(elements, at)?;
    let count = children_of(head.kind);
    let (below, next) = read_nodes(alloc, types, elements, at + 1, count, levels - 1)?;
    let shape = shape_at(alloc, types, at, &head, below)?;
    let element = head.element;
    let node = Node {
        name: element.storage.name.bytes,
        repetition: head.repetition,
        shape,
    };
    Ok((node, next))
}

/// Reads so many elements, each with all that is below it; and says which index comes behind.
#[cycle(read)]
fn read_nodes<'a>(
    alloc: Global,
    types: LeafTypes,
    elements: &[SchemaElement<'a>],
    start: usize,
    count: u32,
    levels: usize,
) -> Result<(Vec<Node<'a>>, usize), ColumnsError>
    ensures { Says (λ x. (map node_tree x.0.items, x.1)) (nodes_by (node_at types levels (map element elements.now)) start count) result }
{
    let mut found = Vec::new(alloc);
    let mut at = start;
    'nodes: for i in 0..count {
        let (node, next) = read_node(alloc, types, elements, at, levels)?;
        found.push(node)?;
        at = next;
    }
    Ok((found, at))
}

/// The columns that the children of a root are, and the rules that are broken in them.
#[derive(Debug, Drop)]
pub struct ElementColumns {
    /// A column for each child of the root, in their order.
    pub columns: Vec<SchemaColumn>,
    /// Those with an element that breaks a rule, in their order.
    pub faults: Vec<ColumnFault>,
}

/// The rule that is broken in a column.
#[derive(Debug, Drop)]
pub struct ColumnFault {
    /// The name of the column.
    pub column: String,
    /// The place of its element, counted from the root, which is 0.
    pub at: usize,
    /// The rule, and by which element.
    pub fault: ElementFault,
}

/// The columns of the schema in the footer of a Parquet file, with the types that Arrow's libraries give its leaves and
/// groups (`docs/FORMAT.md`, 4.4): a group is a struct, a LIST a list, a MAP a map; a column of a required or repeated
/// element is not nullable, and a repeated element is a list of values that are not null. The key `ARROW:schema` is not
/// looked at. Metadata are empty.
///
/// A child of the root that breaks a rule, or below which an element does, is a nullable column of the type `unreadable`,
/// and the first rule that is broken in it is among the faults, with the element's place, counted from the root, which is
/// 0. At most 64 levels of elements are read.
///
/// ```rust
/// let bytes = [0x29, 0x2c, 0x48, 1, b'r', 0x15, 2, 0, 0x15, 10, 0x25, 0, 0x18, 1, b'x', 0, 0];
/// let footer = read_footer(alloc, &bytes)?;
/// let made = columns_of(alloc, &footer)?;
/// assert_eq!(rt; made.columns.len(), 1);
/// let text = made.columns[0].notation(alloc)?;
/// assert_eq!(rt; text.as_str(), "x: float64 not null");
/// assert!(rt; made.faults.is_empty());
/// ```
///
/// Errs where the tree of elements has no shape: with `Root` where the first element is no group, with `Children` where the
/// children of the root with all that is below them are not the elements behind it; and when out of memory.
pub fn columns_of(alloc: Global, footer: &Footer<'_>) -> Result<ElementColumns, ColumnsError>
    ensures { Says column_trees (columns_of (map element footer.now.schema.items)) result }
{
    columns_in(alloc, footer.schema.as_slice())
}

/// The columns of the elements of a schema.
#[tactic(auto, unfolding(crate::specs::Columns::columns_of))]
fn columns_in(alloc: Global, elements: &[SchemaElement<'_>]) -> Result<ElementColumns, ColumnsError>
    ensures { Says column_trees (columns_of (map element elements.now)) result }
{
    match elements.split_first() {
        None => Err(ColumnsError::Broken(ElementFault::new(SchemaRule::Root, 0))),
        Some((root, below)) => columns_below(alloc, elements, root.num_children, below),
    }
}

/// The columns of the elements behind a root, which says that it has so many children.
fn columns_below(
    alloc: Global,
    elements: &[SchemaElement<'_>],
    count: Option<u32>,
    below: &[SchemaElement<'_>],
) -> Result<ElementColumns, ColumnsError>
    ensures { Says column_trees (columns_below (map element elements.now) count (map element below.now)) result }
{
    match count {
        None => Err(ColumnsError::Broken(ElementFault::new(SchemaRule::Root, 0))),
        Some(count) => {
            let children = children_of_root(alloc, count, below)?;
            Ok(columns_at(alloc, elements, children.as_slice())?)
        }
    }
}

/// The columns that the children of the root are. Errs only when out of memory.
fn columns_at(
    alloc: Global,
    elements: &[SchemaElement<'_>],
    children: &[Child<'_>],
) -> Result<ElementColumns, AllocError>
    ensures { IfOk result (λ made. column_trees made ≡ columns_at (map element elements.now) (map child children.now)) }
{
    let mut columns = Vec::new(alloc);
    let mut faults = Vec::new(alloc);
    for at in children {
        add_column(alloc, &mut columns, &mut faults, elements, *at)?;
    }
    Ok(ElementColumns { columns, faults })
}

/// Adds the column that a child of the root is, and the rule that is broken in it, if one is. Errs
/// only when out of memory.
fn add_column(
    alloc: Global,
    columns: &mut Vec<SchemaColumn>,
    faults: &mut Vec<ColumnFault>,
    elements: &[SchemaElement<'_>],
    at: Child<'_>,
) -> Result<(), AllocError>
    ensures column { OnOk result (map column_tree columns.new.items
        ≡ map column_tree columns.old.items ++ column_at Meant (map element elements.now) (child at.entry) ∷ []) }
    ensures faults { OnOk result (map fault_tree faults.new.items
        ≡ map fault_tree faults.old.items ++ faults_at (map element elements.now) (child at.entry)) }
{
    match read_node(alloc, LeafTypes::Meant, elements, at.at, NESTING_LIMIT) {
        Ok((node, _)) => {
            columns.push(column_of(alloc, node)?)?;
            Ok(())
        }
        Err(ColumnsError::Broken(fault)) => {
            columns.push(unreadable_column(alloc, at.name)?)?;
            add_fault(alloc, faults, at, fault)
        }
        Err(ColumnsError::OutOfMemory) => Err(AllocError),
    }
}

/// Adds the rule that is broken in the column that a child of the root is. Errs only when out of memory.
fn add_fault(
    alloc: Global,
    faults: &mut Vec<ColumnFault>,
    child: Child<'_>,
    fault: ElementFault,
) -> Result<(), AllocError>
    ensures { OnOk result (map fault_tree faults.new.items
        ≡ map fault_tree faults.old.items ++ record { column = utf8_lossy child.entry.name.now; at = child.entry.at; fault = fault } ∷ []) }
{
    let Ok(column) = String::from_utf8_lossy(alloc, child.name) else {
        return Err(AllocError);
    };
    faults.push(ColumnFault {
        column,
        at: child.at,
        fault,
    })?;
    Ok(())
}

/// The column that a child of the root is, with the type that a stored field is compared with. Errs
/// only when out of memory.
fn compared_at(
    alloc: Global,
    elements: &[SchemaElement<'_>],
    at: Child<'_>,
) -> Result<SchemaColumn, AllocError>
    ensures { IfOk result (λ made. column_tree made ≡ column_at Stored (map element elements.now) (child at.entry)) }
{
    match read_node(alloc, LeafTypes::Stored, elements, at.at, NESTING_LIMIT) {
        Ok((node, _)) => column_of(alloc, node),
        Err(ColumnsError::Broken(_)) => unreadable_column(alloc, at.name),
        Err(ColumnsError::OutOfMemory) => Err(AllocError),
    }
}

/// The columns that some children of the root are, with those types. Errs only when out of memory.
fn all_compared(
    alloc: Global,
    elements: &[SchemaElement<'_>],
    children: &[Child<'_>],
) -> Result<Vec<SchemaColumn>, AllocError>
    ensures { IfOk result (λ made. map column_tree made.items
        ≡ map (column_at Stored (map element elements.now)) (map child children.now)) }
{
    let mut made = Vec::new(alloc);
    for child in children {
        made.push(compared_at(alloc, elements, *child)?)?;
    }
    Ok(made)
}

/// The columns of the elements of a schema, with the types that stored fields are compared with. Errs
/// only when out of memory.
pub(crate) fn compared_columns(
    alloc: Global,
    elements: &[SchemaElement<'_>],
) -> Result<Vec<SchemaColumn>, AllocError>
    ensures { IfOk result (λ made. map column_tree made.items ≡ compared_columns (map element elements.now)) }
{
    match elements.split_first() {
        None => Ok(Vec::new(alloc)),
        Some((_root, below)) => {
            let children = children_behind(alloc, below)?;
            all_compared(alloc, elements, children.found.as_slice())
        }
    }
}
