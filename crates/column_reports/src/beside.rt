//! What is found of the CRS that the geometry type of an element says beside a field.
ghost use Rattle.std.specs.Prelude.{◌≡◌, IfOk};
ghost use Rattle.arrow_values.specs.Texts.{text_of};
ghost use Rattle.arrow_columns.specs.Column.{column_tree};
ghost use Rattle.column_reports.specs.Beside.{element_column, AreBeside, AreOfElement};

use arrow_columns::{AnyType, SchemaColumn, with_extension};
use arrow_values::DataType;
use column_check::{Warning, inspect_column, warnings};
use json::Scratch;
use std::alloc::{AllocError, Global};
use std::collections::BTreeMap;

/// Returns the column that an element gives where its field has no extension name: well-known
/// binary with those extension metadata. Errs only when out of memory.
fn element_column(alloc: Global, metadata: &str) -> Result<SchemaColumn, AllocError>
    ensures { IfOk result (λ made. column_tree made ≡ element_column metadata.now) }
{
    let column = SchemaColumn {
        name: String::new(alloc),
        nullable: true,
        data_type: AnyType::Data(DataType::Binary),
        metadata: BTreeMap::new(alloc),
    };
    let text = String::from_str(alloc, metadata)?;
    with_extension(alloc, column, "geoarrow.wkb", text)
}

/// Returns what is found of that column. Errs only when out of memory.
fn of_element(
    alloc: Global,
    scratch: &mut Scratch,
    metadata: &str,
) -> Result<Vec<Warning>, AllocError>
    ensures { IfOk result (λ them. AreOfElement metadata.now them.items) }
{
    let column = element_column(alloc, metadata)?;
    let finding = inspect_column(alloc, scratch, &column, false)?;
    warnings(alloc, &column, &finding, false)
}

/// Returns what is found of the extension metadata that an element says beside a field, if it says
/// some. Errs only when out of memory.
pub(crate) fn warnings_beside(
    alloc: Global,
    scratch: &mut Scratch,
    metadata: Option<&str>,
) -> Result<Vec<Warning>, AllocError>
    ensures { IfOk result (λ them. AreBeside (text_of metadata.entry) them.items) }
{
    match metadata {
        Some(metadata) => of_element(alloc, scratch, metadata),
        None => Ok(Vec::new(alloc)),
    }
}
