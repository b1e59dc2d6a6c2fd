//! Rows of lines, files and reports: calls of `geoarrow_fields` and `field_lines`; of `crs_identity`; of the crates of Parquet footers and of GeoParquet metadata; of `column_reports`; of `canonical_columns`.
#![tactic(auto)]

mod canonical;
mod crs;
mod footers;
mod geo;
mod lines;
mod reports;

use rows::asked::Asked;
use rows::{Layers, judge_rows};
use std::process::ExitCode;

/// The layers of lines, files and reports.
struct FileRows {}

impl Layers for FileRows {
    const NAMES: &'static [&'static str] = &[
        "canonical",
        "crs",
        "footers",
        "geo",
        "lines",
        "reports",
    ];

    fn answer(it: &mut Asked<'_>, layer: &str) {
        match layer {
            "lines" => lines::answer(it),
            _ if !it.is_text() => it.said.fail(),
            "canonical" => canonical::answer(it),
            "crs" => crs::answer(it),
            "footers" => footers::answer(it),
            "geo" => geo::answer(it),
            _ => reports::answer(it),
        }
    }
}

fn main(rt: HostRuntime) -> ExitCode {
    judge_rows::<FileRows>(&rt)
}
