//! GeoArrow's layouts: which Arrow data types represent which geometries, read and written.
#![tactic(auto)]

mod alike_types;
mod dimensions;
mod fault;
mod infer;
mod laws;
mod names;
mod native_kinds;
mod read;
mod summary;
mod words;
mod write;

pub use alike_types::{alike, append_members, keep_members};
pub use dimensions::{CoordType, Dimension};
pub use fault::{LayoutFault, child_field, find_fault};
pub use infer::infer_kind;
pub use laws::{
    accepted_or_at_fault, alike_are_one_kind, alike_both_ways, alike_in_turn, alike_to_itself,
    bottom_equality_is_exact, candidates_equality_is_exact, coord_type_equality_is_exact,
    dimension_equality_is_exact, dimension_reads_back, fault_equality_is_exact, geometry_ids,
    inferred_as_read, kind_equality_is_exact, kind_is_listed, kinds_are_listed_once,
    layout_reads_back, layouts_are_distinct, leaf_reads_back, list_width_equality_is_exact,
    mixed_ids, name_equality_is_exact, names_are_distinct, native_kind_equality_is_exact,
    no_fault_if_accepted, one_fault, one_kind, order_does_not_matter, parts_are_alike, read_alike,
    summary_equality_is_exact, width_equality_is_exact,
};
pub use names::{Candidates, ExtensionName, two_names_at_most};
pub use native_kinds::{Kind, NativeKind, Width};
pub use read::{
    candidates, infer_point, parse_box, parse_geometry, parse_geometry_collection, parse_kind,
    parse_linestring, parse_mixed, parse_multilinestring, parse_multipoint, parse_multipolygon,
    parse_native, parse_point, parse_polygon, parse_wkb, parse_wkt,
};
pub use summary::{Bottom, ListWidth, Summary, summarize};
pub use words::{coord_type_word, dimension_word, kind_word};
pub use write::{
    box_data_type, coord_data_type, geometry_data_type, is_layout, kind_data_type, list_data_type,
    mixed_data_type, wkb_data_type, wkt_data_type, written_kind,
};
