//! What each column of a schema holds.
ghost use Rattle.std.specs.Prelude.{◌≡◌, ◌≢◌, ◌↔◌, Bool, Some, None, IfOk, IsTrue, map};
ghost use Rattle.arrow_columns.specs.Column.{column_tree, name_on, metadata_on};
ghost use Rattle.arrow_columns.specs.Types.{ColumnTree};
ghost use Rattle.geoarrow_layout.specs.declared.names.ExtensionName.{ExtensionName};
ghost use Rattle.geoarrow_layout.specs.Kinds.{name_text};
ghost use Rattle.column_check.specs.OldNames.{current_name};
ghost use Rattle.column_check.specs.Types.{IsTypeRead};
ghost use Rattle.column_check.specs.Metadata.{IsMetadataRead};
ghost use Rattle.column_check.specs.Finding.{HasName, HasOtherName, IsReserved, IsFinding, AreFindings};

use crate::data_type::{TypeFault, kind_under};
use crate::finding::{Finding, Geometry, Reasons};
use crate::geometry_names::may_be_taken;
use crate::metadata::{ColumnMetadata, MetadataFault, read_metadata};
use crate::old_names::current_name;
use arrow_columns::{AnyType, SchemaColumn};
use geoarrow_layout::{ExtensionName, Kind, infer_kind};
use json::Scratch;
use std::alloc::{AllocError, Global};

/// What each column of a schema holds: one finding for each, in order, which depends only on its own column. Errs only when out
/// of memory.
pub fn inspect_columns(
    alloc: Global,
    columns: &[SchemaColumn],
    infer: bool,
) -> Result<Vec<Finding>, AllocError>
    ensures { IfOk result (λ findings. AreFindings infer (map column_tree columns.now) findings.items) }
{
    let mut scratch = Scratch::new(alloc);
    let mut findings = Vec::new(alloc);
    for column in columns {
        findings.push(inspect_column(alloc, &mut scratch, column, infer)?)?;
    }
    Ok(findings)
}

/// Returns what a column holds: geometries, where it has one of GeoArrow's extension names, or an old
/// one of them, and its type and its metadata go with it, whatever its coordinate reference system is;
/// or why not. With `infer`, a column without an extension name is taken for what `from_arrow_field`
/// of `geoarrow_schema` infers from its data type; for well-known binary or text only where it is named
/// as columns of geometries are (`docs/FORMAT.md`, 2.6). `infer` is of this column alone: without it a
/// column is taken for nothing, as one that a covering names. The scratch buffer is kept by the caller
/// from column to column. Errs only when out of memory.
///
/// ```rust
/// let column = SchemaColumn {
///     name: String::from_str(alloc, "geom")?,
///     nullable: true,
///     data_type: AnyType::Data(DataType::Binary),
///     metadata: BTreeMap::new(alloc),
/// };
/// let mut scratch = Scratch::new(alloc);
/// assert!(rt; matches!(inspect_column(alloc, &mut scratch, &column, false)?, Finding::Plain));
/// assert!(rt; matches!(inspect_column(alloc, &mut scratch, &column, true)?, Finding::Inferred(_)));
/// ```
pub fn inspect_column(
    alloc: Global,
    scratch: &mut Scratch,
    column: &SchemaColumn,
    infer: bool,
) -> Result<Finding, AllocError>
    ensures { IfOk result (IsFinding infer (column_tree column.now)) }
{
    match column.extension_type_name() {
        Some(text) => match ExtensionName::from_text(current_name(text)) {
            Some(name) => check_named(alloc, scratch, column, name),
            None => other_name(alloc, text),
        },
        None => {
            if infer {
                check_unnamed(alloc, scratch, column)
            } else {
                Ok(Finding::Plain)
            }
        }
    }
}

/// What a column holds that has one of GeoArrow's extension names.
fn check_named(
    alloc: Global,
    scratch: &mut Scratch,
    column: &SchemaColumn,
    name: ExtensionName,
) -> Result<Finding, AllocError>
    requires { HasName (column_tree column.now) name }
    ensures { (infer : Bool) → IfOk result (IsFinding infer (column_tree column.now)) }
{
    let metadata = read_metadata(alloc, column.extension_type_metadata(), scratch)?;
    let kind = kind_under(alloc, name, &column.data_type)?;
    Ok(named_finding(kind, metadata))
}

/// What is said of a column with one of GeoArrow's extension names, by what its type and its metadata are read as.
fn named_finding(
    kind: Result<Kind, TypeFault>,
    metadata: Result<ColumnMetadata, MetadataFault>,
) -> Finding
    ensures { (infer : Bool) (c : ColumnTree) (n : ExtensionName) → HasName c n → IsTypeRead n c.data_type kind
        → IsMetadataRead (metadata_on c) metadata → IsFinding infer c result }
{
    match kind {
        Ok(kind) => match metadata {
            Ok(metadata) => Finding::Geometry(Geometry { kind, metadata }),
            Err(fault) => Finding::Invalid(Reasons::Metadata(fault)),
        },
        Err(fault) => match metadata {
            Ok(_) => Finding::Invalid(Reasons::DataType(fault)),
            Err(of_text) => Finding::Invalid(Reasons::DataTypeAndMetadata(fault, of_text)),
        },
    }
}

/// What is said of a column with an extension name that is none of GeoArrow's.
fn other_name(alloc: Global, name: &str) -> Result<Finding, AllocError>
    requires { (n : ExtensionName) → current_name name.now ≢ name_text n }
    ensures { (infer : Bool) (c : ColumnTree) → name_on c ≡ Some name.now → IfOk result (IsFinding infer c) }
{
    if is_reserved(alloc, name)? {
        return Ok(Finding::Invalid(Reasons::UnknownExtension));
    }
    Ok(Finding::Extension)
}

/// Whether only GeoArrow or OGC would give that extension name.
fn is_reserved(alloc: Global, name: &str) -> Result<bool, AllocError>
    ensures { IfOk result (λ is. IsTrue is ↔ IsReserved name.now) }
{
    let small = name.to_ascii_lowercase(alloc)?;
    Ok(small.as_str().starts_with("geoarrow.") || name.starts_with("ogc."))
}

/// What a column without an extension name is taken for.
fn check_unnamed(
    alloc: Global,
    scratch: &mut Scratch,
    column: &SchemaColumn,
) -> Result<Finding, AllocError>
    requires { name_on (column_tree column.now) ≡ None }
    ensures { (infer : Bool) → IsTrue infer → IfOk result (IsFinding infer (column_tree column.now)) }
{
    let AnyType::Data(data_type) = &column.data_type else {
        return Ok(Finding::Plain);
    };
    let Some(kind) = infer_kind(data_type) else {
        return Ok(Finding::Plain);
    };
    if !may_be_taken(alloc, column.name.as_str(), kind)? {
        return Ok(Finding::Plain);
    }
    match read_metadata(alloc, column.extension_type_metadata(), scratch)? {
        Ok(metadata) => Ok(Finding::Inferred(Geometry { kind, metadata })),
        Err(_) => Ok(Finding::Plain),
    }
}
