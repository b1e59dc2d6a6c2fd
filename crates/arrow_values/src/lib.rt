//! The part of Arrow's schema crate that GeoArrow needs: data types as trees, fields, the extension keys of a
//! field, and the two errors.
#![tactic(auto)]

mod coordinates;
mod equality_laws;
mod error;
mod extension;
mod texts;
mod tree;

pub use coordinates::Dimensions;
pub use equality_laws::{
    append_fault_equality_is_exact, dimensions_equality_is_exact, fixed_name_equality_is_exact,
    union_mode_equality_is_exact,
};
pub use error::{AppendFault, ArrowError, GeoArrowError, GeoArrowResult};
pub use extension::ExtensionType;
pub use texts::text_at;
pub use tree::{
    DataType, EXTENSION_TYPE_METADATA_KEY, EXTENSION_TYPE_NAME_KEY, Field, Fields, FixedName,
    UnionFields, UnionIter, UnionMode,
};
