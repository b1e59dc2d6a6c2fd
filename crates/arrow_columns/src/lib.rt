//! Columns of a schema, whose types may be ones that GeoArrow has no use for, and the usual notation of types.
#![tactic(auto)]

mod below;
mod column;
mod extension;
mod names;
mod nested;
mod notation;
mod other;
mod outline;

pub use below::{Child, TypeRef};
pub use column::{AnyType, SchemaColumn};
pub use extension::with_extension;
pub use names::ColumnNames;
pub use nested::{
    ListForm, all_known, fields_of, list_type, nested_type, only_column, parts_of, struct_type,
};
pub use notation::{
    data_type_notation, member_notation, nested_notation, part_notation, plain_name,
    sized_notation, union_word,
};
pub use other::{Form, OtherType, Part};
pub use outline::{Outline, outline_of};
