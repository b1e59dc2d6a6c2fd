//! Rows of data types, their layouts and their kinds: calls of `arrow_values` and of `geoarrow_layout`. A row's text says its
//! data types in the notation of `notation`.
mod built;
mod changes;
mod errors;
mod found;
mod read;
mod summaries;
mod tables;
mod unions;
mod values;

use arrow_values::{DataType, Field, Fields, UnionFields};
use rows::asked::Asked;
use rows::compared::distinct;

/// Says the answer to a text under a command. It is lacking where the text does not spell what the command is asked about.
pub fn answer(it: &mut Asked<'_>) {
    match it.command {
        "keep_members" | "retain_ids" => changes::kept(it),
        "append_members" | "append" => changes::joined(it),
        "part_and_join" => changes::parted(it),
        "GeoArrowError" | "ArrowError" | "into_arrow_error" => errors::answer(it),
        "layout" | "coord_data_type" | "mixed_data_type" => built::answer(it),
        "spelled" | "printed" | "equal" | "UnionFields::try_new" => values::answer(it),
        "kind" => read::kind(it),
        "find_fault" => found::found(it),
        "alike" => read::likeness(it),
        _ => tables_or_read(it),
    }
}

/// Answers the commands about tables, those that compare values, and those that read a data type.
fn tables_or_read(it: &mut Asked<'_>) {
    match it.command {
        "parts" => tables::parts(it),
        "default" | "name" => tables::name(it),
        "dimensions" => tables::dimensions(it),
        "dimension" => tables::dimension(it),
        "error" => tables::error(it),
        "distinct_types" => distinct::<DataType>(it),
        "distinct_fields" => distinct::<Field>(it),
        "distinct_lists" => distinct::<Fields>(it),
        "distinct_members" => distinct::<UnionFields>(it),
        _ => read::one(it),
    }
}
