//! A column, and its type.
ghost use Rattle.std.specs.Prelude.{◌≡◌, IfOk, string_bytes};
ghost use Rattle.arrow_values.specs.Texts.{text_of};
ghost use Rattle.arrow_columns.specs.Column.{type_tree, column_tree, column_of, name_on, metadata_on};
ghost use Rattle.arrow_columns.specs.Types.{leaf};
ghost use Rattle.arrow_columns.specs.Notation.{type_text, column_text};

use crate::notation::{data_type_notation, part_notation};
use crate::other::{Form, OtherType};
use arrow_values::{
    DataType, EXTENSION_TYPE_METADATA_KEY, EXTENSION_TYPE_NAME_KEY, Field, text_at,
};
use std::alloc::{AllocError, Global};
use std::collections::BTreeMap;

/// A column of a schema: a name, a type, whether values may be null, and a map of texts.
///
/// ```rust
/// let column = SchemaColumn {
///     name: String::from_str(alloc, "at")?,
///     nullable: true,
///     data_type: AnyType::leaf(alloc, String::from_str(alloc, "timestamp[ms]")?),
///     metadata: BTreeMap::new(alloc),
/// };
/// let text = column.notation(alloc)?;
/// assert_eq!(rt; text.as_str(), "at: timestamp[ms]");
/// ```
#[derive(Debug, Drop)]
pub struct SchemaColumn {
    /// The name.
    pub name: String,
    /// Whether values may be null.
    pub nullable: bool,
    /// The type.
    pub data_type: AnyType,
    /// The metadata of the field.
    pub metadata: BTreeMap<String, String>,
}

/// The type of a column.
///
/// ```rust
/// let column_type = AnyType::Data(DataType::Float64);
/// let text = column_type.notation(alloc)?;
/// assert_eq!(rt; text.as_str(), "float64");
/// ```
#[cycle(column)]
#[derive(Debug, Drop)]
pub enum AnyType {
    /// One of the 26 data types, with all that is nested in it.
    Data(DataType),
    /// Any other type of Arrow, or a nested type with one of those anywhere below.
    Other(OtherType),
}

impl AnyType {
    /// Returns the type that is none of the 26 and of which nothing but the notation is known, as
    /// `timestamp[ms]`. Allocates nothing.
    pub fn leaf(alloc: Global, notation: String) -> AnyType
        ensures { type_tree result ≡ leaf (string_bytes notation) }
    {
        AnyType::Other(OtherType {
            notation,
            form: Form::Leaf,
            ids: Vec::new(alloc),
            parts: Vec::new(alloc),
        })
    }

    /// The type in Arrow's usual notation, as `list<item: float64 not null>` or `timestamp[ms, tz=UTC]`; of an `Other` its
    /// text. Errs only when out of memory.
    pub fn notation(&self, alloc: Global) -> Result<String, AllocError>
        ensures { IfOk result (λ text. string_bytes text ≡ type_text (type_tree self.now)) }
    {
        match self {
            AnyType::Data(data_type) => data_type_notation(alloc, data_type),
            AnyType::Other(other) => String::from_str(alloc, other.notation.as_str()),
        }
    }
}

impl SchemaColumn {
    /// The column of a field: its name, nullability, data type and metadata, which are moved. Errs only when out of memory.
    pub fn from_field(alloc: Global, field: Field) -> Result<SchemaColumn, AllocError>
        ensures { IfOk result (λ column. column_tree column ≡ column_of field) }
    {
        let (name, data_type, nullable, metadata) = field.into_parts(alloc)?;
        Ok(SchemaColumn {
            name,
            nullable,
            data_type: AnyType::Data(data_type),
            metadata,
        })
    }

    /// The column of a field that stays. Errs only when out of memory.
    pub fn of_field(alloc: Global, field: &Field) -> Result<SchemaColumn, AllocError>
        ensures { IfOk result (λ column. column_tree column ≡ column_of field.now) }
    {
        SchemaColumn::from_field(alloc, field.try_clone(alloc)?)
    }

    /// The name of the column's extension type: its text at `ARROW:extension:name`, if it has one (Arrow, "Extension Types").
    pub fn extension_type_name(&self) -> Option<&str>
        ensures { text_of result ≡ name_on (column_tree self.now) }
    {
        text_at(&self.metadata, EXTENSION_TYPE_NAME_KEY)
    }

    /// The metadata of the column's extension type: its text at `ARROW:extension:metadata`, if it has one.
    pub fn extension_type_metadata(&self) -> Option<&str>
        ensures { text_of result ≡ metadata_on (column_tree self.now) }
    {
        text_at(&self.metadata, EXTENSION_TYPE_METADATA_KEY)
    }

    /// The column as a part of a nested type is written: its name, a colon and a space, its type's notation, and
    /// ` not null` where values may not be null. Errs only when out of memory.
    pub fn notation(&self, alloc: Global) -> Result<String, AllocError>
        ensures { IfOk result (λ text. string_bytes text ≡ column_text (column_tree self.now)) }
    {
        let data_type = self.data_type.notation(alloc)?;
        part_notation(alloc, self.name.as_str(), data_type.as_str(), self.nullable)
    }
}
