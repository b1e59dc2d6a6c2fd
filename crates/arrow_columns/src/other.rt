//! Types that are none of the 26 data types, and their parts.
//!
//! In a contract a part is the column that it would be by itself: its name, type, nullability and metadata.
ghost use Rattle.std.specs.Prelude.{◌≡◌, IfOk};
ghost use Rattle.arrow_values.specs.View.{texts_of};
ghost use Rattle.arrow_columns.specs.Column.{type_tree, column_tree};
ghost use Rattle.arrow_columns.specs.declared.column.AnyType.TheVariants.{Other as OtherOf};

use crate::column::{AnyType, SchemaColumn};
use crate::nested::ListForm;
use arrow_values::UnionMode;
use std::alloc::{AllocError, Global};
use std::collections::BTreeMap;
use std::marker::Model;

/// How a type that is none of the 26, or nests one that is none, is built (Arrow, `Schema.fbs`).
#[derive(Debug, Clone, Copy)]
pub enum Form {
    /// Nothing of it is known but its notation, as of `timestamp[ms]`.
    Leaf,
    /// A list of its one part.
    List(ListForm),
    /// A list view of its one part, with offsets of 32 bits.
    ListView,
    /// A list view of its one part, with offsets of 64 bits.
    LargeListView,
    /// A struct of its parts.
    Struct,
    /// A union of its parts, under its type ids.
    Union(UnionMode),
    /// A map, whose one part are its entries.
    Map,
    /// Runs: where they end, and their values.
    RunEndEncoded,
    /// A dictionary, whose one part are its values.
    Dictionary,
}

/// A type that is none of the 26, or that nests one that is none.
#[cycle(column)]
#[derive(Debug, Drop)]
pub struct OtherType {
    /// The notation, as `struct<at: timestamp[ms]>`.
    pub notation: String,
    /// How it is built.
    pub form: Form,
    /// The type ids of a union; of other forms none.
    pub ids: Vec<i8>,
    /// The parts.
    pub parts: Vec<Part>,
}

/// A part of a type: a column below a column.
#[cycle(column)]
#[derive(Debug, Drop)]
pub struct Part {
    name: String,
    nullable: bool,
    pub(crate) data_type: AnyType,
    metadata: BTreeMap<String, String>,
}

impl Model for Part {
    ghost use Rattle.arrow_columns.specs.Types.{ColumnTree, column_code};

    ghost Value = { ColumnTree };

    ghost coded = { column_code };

    ghost use Rattle.std.specs.Prelude.{string_bytes};
    ghost use Rattle.arrow_values.specs.View.{texts_of};
    ghost use Rattle.arrow_columns.specs.Types.{column_depth};
    ghost use Rattle.arrow_columns.specs.Column.{type_tree};

    ghost view = { λ p. record {
      name = string_bytes p.name;
      data_type = type_tree p.data_type;
      nullable = p.nullable;
      metadata = texts_of p.metadata.entries;
    } };

    ghost size = { column_depth };

    ghost use Rattle.std.proofs.Common.{arith};
    ghost use Rattle.arrow_columns.specs.Falls.{deep_le-type_depth};

    ghost size_decreases = { λ p h. omega (arith, deep_le-type_depth p.data_type) };
}

impl Part {
    /// Returns a column as a part. Allocates nothing.
    pub fn of_column(column: SchemaColumn) -> Part
        ensures { result ≡ column_tree column }
    {
        let SchemaColumn {
            name,
            nullable,
            data_type,
            metadata,
        } = column;
        Part {
            name,
            nullable,
            data_type,
            metadata,
        }
    }

    /// Returns the name.
    pub fn name(&self) -> &str
        ensures { result.now ≡ self.now.name }
    {
        self.name.as_str()
    }

    /// Returns whether values may be null.
    pub fn is_nullable(&self) -> bool
        ensures { result ≡ self.now.nullable }
    {
        self.nullable
    }

    /// Returns the type.
    pub fn data_type(&self) -> &AnyType
        ensures { type_tree result.now ≡ self.now.data_type }
    {
        &self.data_type
    }

    /// Returns the metadata: a map of texts.
    pub fn metadata(&self) -> &BTreeMap<String, String>
        ensures { texts_of result.now.entries ≡ self.now.metadata }
    {
        &self.metadata
    }
}

/// A map of the same texts.
pub(crate) fn clone_texts(
    texts: &BTreeMap<String, String>,
) -> Result<BTreeMap<String, String>, AllocError>
    ensures { IfOk result (λ made. texts_of made.entries ≡ texts_of texts.now.entries) }
{
    texts.clone()
}

impl AnyType {
    /// Returns a type equal to this one. Errs only when out of memory.
    #[cycle(clone)]
    pub fn try_clone(&self, alloc: Global) -> Result<AnyType, AllocError>
        ensures { IfOk result (λ made. type_tree made ≡ type_tree self.now) }
    {
        match self {
            AnyType::Data(data_type) => Ok(AnyType::Data(data_type.try_clone(alloc)?)),
            AnyType::Other(other) => Ok(AnyType::Other(other.try_clone(alloc)?)),
        }
    }
}

impl OtherType {
    /// A type equal to this one.
    #[cycle(clone)]
    fn try_clone(&self, alloc: Global) -> Result<OtherType, AllocError>
        ensures { IfOk result (λ made. type_tree (OtherOf made) ≡ type_tree (OtherOf self.now)) }
    {
        let notation = String::from_str(alloc, self.notation.as_str())?;
        let ids = Vec::from_slice(alloc, self.ids.as_slice())?;
        let mut parts = Vec::with_capacity(alloc, self.parts.len())?;
        for part in &self.parts {
            parts.push(part.try_clone(alloc)?)?;
        }
        Ok(OtherType {
            notation,
            form: self.form,
            ids,
            parts,
        })
    }
}

impl Part {
    /// A part equal to this one.
    #[cycle(clone)]
    fn try_clone(&self, alloc: Global) -> Result<Part, AllocError>
        ensures { IfOk result (λ made. made ≡ self.now) }
    {
        let data_type = self.data_type.try_clone(alloc)?;
        let name = String::from_str(alloc, self.name.as_str())?;
        let metadata = clone_texts(&self.metadata)?;
        Ok(Part {
            name,
            nullable: self.nullable,
            data_type,
            metadata,
        })
    }
}
