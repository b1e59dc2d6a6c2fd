//! Rows of data types and their layouts, of metadata and of types: calls of `arrow_values` and
//! `geoarrow_layout`; of `geoarrow_meta`; of `geoarrow_schema`, `geoarrow_columns` and the crates of
//! native types.
#![tactic(auto)]

mod layouts;
mod metadata;
mod schema;

use rows::asked::Asked;
use rows::{Layers, judge_rows};
use std::process::ExitCode;

/// The layers of data types and their layouts, of metadata and of types.
struct TypeRows {}

impl Layers for TypeRows {
    const NAMES: &'static [&'static str] = &["layouts", "metadata", "schema"];

    fn answer(it: &mut Asked<'_>, layer: &str) {
        match layer {
            _ if !it.is_text() => it.said.fail(),
            "layouts" => layouts::answer(it),
            "metadata" => metadata::answer(it),
            _ => schema::answer(it),
        }
    }
}

fn main(rt: HostRuntime) -> ExitCode {
    judge_rows::<TypeRows>(&rt)
}
