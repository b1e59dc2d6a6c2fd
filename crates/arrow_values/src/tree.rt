//! Data types, fields, the fields of a struct and the members of a union, which hold each other.
//!
//! In a contract a field is its name, tree, nullability and metadata, the fields of a struct and the members of a union
//! are lists, and a data type is given by `tree`. So `≡` on them is Arrow's equality: capacities, boxes and the shape
//! of a map do not matter.
mod clone;
mod equal;
mod fixed_name;
mod name;
mod parts;
mod struct_fields;
mod union_changes;
mod union_fields;

pub use fixed_name::FixedName;
pub(crate) use name::Name;
pub use parts::{EXTENSION_TYPE_METADATA_KEY, EXTENSION_TYPE_NAME_KEY};
use std::collections::BTreeMap;
use std::marker::Model;
pub use union_fields::UnionIter;

/// How the members of a union are stored. Readers ignore it.
///
/// ```rust
/// let members = UnionFields::try_new(alloc, Vec::new(alloc), Vec::new(alloc))?;
/// let union = DataType::Union(members, UnionMode::Dense);
/// assert!(rt; matches!(union, DataType::Union(_, UnionMode::Dense)));
/// ```
#[derive(Clone, Copy, Debug, PartialEq, Eq)]
pub enum UnionMode {
    /// Each member has a place for every value.
    Sparse,
    /// Each member has places only for its own values.
    Dense,
}

/// Arrow's data types, as far as GeoArrow layouts and their readers need them. A data type is a finite tree.
///
/// ```rust
/// let item = Field::new(alloc, "item", DataType::Float64, false)?;
/// let list = DataType::List(Box::new(alloc, item)?);
/// assert!(rt; matches!(&list, DataType::List(item) if item.name() == "item"));
/// ```
#[cycle(tree)]
#[derive(Debug, Drop)]
pub enum DataType {
    /// Nulls.
    Null,
    /// Truth values.
    Boolean,
    /// Signed 8-bit integers.
    Int8,
    /// Signed 16-bit integers.
    Int16,
    /// Signed 32-bit integers.
    Int32,
    /// Signed 64-bit integers.
    Int64,
    /// Unsigned 8-bit integers.
    UInt8,
    /// Unsigned 16-bit integers.
    UInt16,
    /// Unsigned 32-bit integers.
    UInt32,
    /// Unsigned 64-bit integers.
    UInt64,
    /// 16-bit floats.
    Float16,
    /// 32-bit floats.
    Float32,
    /// 64-bit floats.
    Float64,
    /// Days since 1970-01-01.
    Date32,
    /// Milliseconds since 1970-01-01.
    Date64,
    /// Bytes, with 32-bit offsets.
    Binary,
    /// Bytes, with 64-bit offsets.
    LargeBinary,
    /// Bytes, as views.
    BinaryView,
    /// Texts, with 32-bit offsets.
    Utf8,
    /// Texts, with 64-bit offsets.
    LargeUtf8,
    /// Texts, as views.
    Utf8View,
    /// Lists of the field's values, with 32-bit offsets.
    List(Box<Field>),
    /// Lists of the field's values, with 64-bit offsets.
    LargeList(Box<Field>),
    /// Lists of that many of the field's values each. The size is what a schema says: in an untrusted schema it may be
    /// negative.
    FixedSizeList(Box<Field>, i32),
    /// Values of each of the fields.
    Struct(Fields),
    /// A value of one of the members.
    Union(UnionFields, UnionMode),
}

/// A field of a schema: a name, a data type, whether values may be null, and a map of texts.
///
/// ```rust
/// let field = Field::new(alloc, "id", DataType::Int64, false)?;
/// assert_eq!(rt; field.name(), "id");
/// assert!(rt; *field.data_type() == DataType::Int64);
/// assert!(rt; !field.is_nullable());
/// ```
#[cycle(tree)]
#[derive(Debug, Drop)]
pub struct Field {
    name: Name,
    data_type: DataType,
    nullable: bool,
    metadata: BTreeMap<String, String>,
}

/// The fields of a struct, in order.
///
/// ```rust
/// let x = Field::fixed(alloc, FixedName::X, DataType::Float64, false);
/// let y = Field::fixed(alloc, FixedName::Y, DataType::Float64, false);
/// let fields = Fields::from(vec![in alloc; x, y]?);
/// assert_eq!(rt; fields.len(), 2);
/// ```
#[cycle(tree)]
#[derive(Debug, Drop)]
pub struct Fields {
    members: Vec<Field>,
}

/// The members of a union, in order: pairs of type id and field. Ids of a union that `try_new` or `from_members` made are
/// 0 to 127, each once, and `retain_ids` and `append` keep them so.
///
/// ```rust
/// let number = Field::new(alloc, "number", DataType::Int64, true)?;
/// let text = Field::new(alloc, "text", DataType::Utf8, true)?;
/// let fields = vec![in alloc; number, text]?;
/// let members = UnionFields::try_new(alloc, vec![in alloc; 1, 2]?, fields)?;
/// let union = DataType::Union(members, UnionMode::Dense);
/// assert!(rt; matches!(&union, DataType::Union(members, _) if members.len() == 2));
/// ```
#[cycle(tree)]
#[derive(Debug, Drop)]
pub struct UnionFields {
    members: Vec<(i8, Field)>,
}

impl Model for Field {
    ghost use Rattle.arrow_values.specs.Tree.{FieldTree};
    ghost use Rattle.arrow_values.specs.Code.{field_code};

    ghost Value = { FieldTree };

    ghost coded = { field_code };

    ghost use Rattle.arrow_values.specs.Name.{name_bytes};
    ghost use Rattle.arrow_values.specs.View.{tree, texts_of, field_size};

    ghost view = { λ f. record {
      name = name_bytes f.name;
      tree = tree f.data_type;
      nullable = f.nullable;
      metadata = texts_of f.metadata.entries;
    } };

    ghost size = { field_size };

    ghost use Rattle.std.proofs.Common.{arith};
    ghost use Rattle.arrow_values.specs.Falls.{deep_le-depth};

    ghost size_decreases = { λ f h. omega (arith, deep_le-depth f.data_type) };
}

impl Model for Fields {
    ghost use Rattle.std.specs.Prelude.{List};
    ghost use Rattle.arrow_values.specs.Tree.{FieldTree};
    ghost use Rattle.arrow_values.specs.Code.{fields_code};

    ghost Value = { List FieldTree };

    ghost coded = { fields_code };

    ghost use Rattle.arrow_values.specs.View.{fields_size};

    ghost view = { λ fs. fs.members.items };

    ghost size = { fields_size };

    ghost use Rattle.std.proofs.Common.{arith};
    ghost use Rattle.arrow_values.specs.Falls.{most_le-fields_size};

    ghost size_decreases = { λ fs h. omega (arith, most_le-fields_size fs.members.items) };
}

impl Model for UnionFields {
    ghost use Rattle.arrow_values.specs.Tree.{Members};
    ghost use Rattle.arrow_values.specs.Code.{members_code};

    ghost Value = { Members };

    ghost coded = { members_code };

    ghost use Rattle.arrow_values.specs.View.{members_size};

    ghost view = { λ ms. ms.members.items };

    ghost size = { members_size };

    ghost use Rattle.arrow_values.specs.Falls.{most_le-members_size};

    ghost size_decreases = { λ ms h. most_le-members_size ms.members.items };
}
