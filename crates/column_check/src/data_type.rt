//! The kind of a column's type under an extension name, or why it is of none.
ghost use Rattle.std.specs.Prelude.{◌↔◌, IfOk, IsTrue};
ghost use Rattle.arrow_values.specs.View.{tree};
ghost use Rattle.arrow_columns.specs.Column.{type_tree};
ghost use Rattle.arrow_columns.specs.Types.{known};
ghost use Rattle.column_check.specs.Types.{IsSerialized, HasTypeFault, IsTypeRead};
ghost use Rattle.geoarrow_layout.specs.declared.native_kinds.Kind.{Kind};
ghost use Rattle.geoarrow_layout.specs.Kinds.{name_text};
ghost use Rattle.geoarrow_layout.specs.Shapes.{Accepts};

use arrow_columns::{AnyType, Outline, outline_of};
use arrow_values::DataType;
use geoarrow_layout::{ExtensionName, Kind, LayoutFault, find_fault, parse_kind};
use std::alloc::{AllocError, Global};

/// Why a column's type is of no kind under an extension name (GeoArrow, "Native encoding").
#[derive(Debug, Drop)]
pub enum TypeFault {
    /// The name is that of well-known binary or text, and the type is no bytes or no text.
    WrongStorage,
    /// The type has this fault at the end of a path of child fields, outermost first, as
    /// `find_fault` of `geoarrow_layout` answers one of a data type. What lies in it and is none of
    /// the 26 data types that a layout may have is itself unexpected, but as a number.
    Layout(LayoutFault, Vec<usize>),
}

/// Returns the kind of which a column's type is under an extension name; or why it is of none. Errs
/// only when out of memory.
///
/// ```rust
/// let found = kind_under(alloc, ExtensionName::Wkb, &AnyType::Data(DataType::Utf8))?;
/// assert!(rt; matches!(found, Err(TypeFault::WrongStorage)));
/// let time = AnyType::leaf(alloc, String::from_str(alloc, "timestamp[ms]")?);
/// let found = kind_under(alloc, ExtensionName::Wkb, &time)?;
/// assert!(rt; matches!(found, Err(TypeFault::WrongStorage)));
/// let found = kind_under(alloc, ExtensionName::Geometry, &time)?;
/// assert!(rt; matches!(found, Err(TypeFault::Layout(LayoutFault::UnexpectedType, path)) if path.is_empty()));
/// ```
pub fn kind_under(
    alloc: Global,
    name: ExtensionName,
    column_type: &AnyType,
) -> Result<Result<Kind, TypeFault>, AllocError>
    ensures { IfOk result (IsTypeRead name (type_tree column_type.now)) }
{
    match column_type {
        AnyType::Data(data_type) => kind_of(alloc, name, data_type),
        AnyType::Other(_) => {
            let outline = outline_of(alloc, Outline::Layout, column_type)?;
            kind_of(alloc, name, &outline)
        }
    }
}

/// The kind of a data type under an extension name; or why it is of none.
fn kind_of(
    alloc: Global,
    name: ExtensionName,
    data_type: &DataType,
) -> Result<Result<Kind, TypeFault>, AllocError>
    ensures { IfOk result (IsTypeRead name (known (tree data_type.now))) }
{
    match parse_kind(name, data_type) {
        Ok(kind) => Ok(Ok(kind)),
        Err(_) => Ok(Err(fault_under(alloc, name, data_type)?)),
    }
}

/// Why a data type is of no kind under an extension name.
fn fault_under(
    alloc: Global,
    name: ExtensionName,
    data_type: &DataType,
) -> Result<TypeFault, AllocError>
    requires { (k : Kind) → ¬ Accepts (name_text name) (tree data_type.now) k }
    ensures { IfOk result (HasTypeFault name (known (tree data_type.now))) }
{
    match find_fault(alloc, name, data_type)? {
        None => unreachable!(),
        Some((path, fault)) => {
            if is_serialized(name) {
                return Ok(TypeFault::WrongStorage);
            }
            Ok(TypeFault::Layout(fault, path))
        }
    }
}

/// Whether the name is that of well-known binary or text.
fn is_serialized(name: ExtensionName) -> bool
    ensures { IsTrue result ↔ IsSerialized name }
{
    matches!(name, ExtensionName::Wkb | ExtensionName::Wkt)
}
