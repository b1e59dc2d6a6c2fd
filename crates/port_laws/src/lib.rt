//! Laws of the ported calls, stated and proved over their public contracts alone.
#![tactic(auto)]

mod canonical;
mod commands;
mod equality_laws;
mod names;

pub use canonical::{canonical_field_is_its_own, canonical_field_is_one};
pub use commands::{
    canon_and_columns, canon_and_infer, canon_and_read, canonical_line_is_the_normal_form,
    infer_and_columns, infer_and_read, read_and_columns,
};
pub use equality_laws::{
    box_encoding_equality_is_exact, crs_value_equality_is_exact, data_type_equality_is_exact,
    field_equality_is_exact, fields_equality_is_exact, geometry_encoding_equality_is_exact,
    native_encoding_equality_is_exact, serialized_encoding_equality_is_exact,
    union_fields_equality_is_exact,
};
pub use names::{native_extension_names, other_extension_names};
