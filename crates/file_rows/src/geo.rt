//! Rows of GeoParquet metadata: calls of `geoparquet`. A row's text is the text at the key `geo`,
//! under `check_bytes` its bytes in hexadecimal digits, and under `check_missing` and
//! `check_unasked` nothing; and then lines of fields, each with ` & ` before it. Behind the line of a
//! field may stand what its element says beside the column: `element given`, where it gives the
//! column all that this has, and ` CRS` behind that where it names a CRS; or `element` and extension
//! metadata, beside those of a field that has an extension name of its own; `element silent`, where
//! it says nothing. Its layout is that of bytes, or stands behind `; layout`.
use arrow_columns::SchemaColumn;
use column_files::{column_line, columns_of_lines};
use geoparquet::{FactSource, GeoAnswer, GeoFinding, GeoReport, GeoSource, inspect_geo};
use parquet_columns::{EdgesClaim, ElementClaim, ElementLayout, RootElement};
use rows::asked::Asked;
use rows::said::Said;
use std::alloc::AllocError;
use std::mem::ManuallyDrop;

/// Says the answer to a text under a command. It is lacking when out of memory before the call, and where the lines are no fields.
pub fn answer(it: &mut Asked<'_>) {
    let (geo, lines) = match it.command {
        "check_missing" | "check_unasked" => ("", it.text),
        _ => it.text.split_once(" & ").unwrap_or((it.text, "")),
    };
    let (lines, elements) = asked(&mut it.said, lines);
    let elements = ManuallyDrop::new(elements);
    let Ok(columns) = columns_of_lines(it.alloc, lines.as_bytes()) else {
        return it.said.fail();
    };
    let claims = elements.as_slice();
    match it.command {
        "check_missing" => say_answer(it, GeoSource::Missing, columns, claims),
        "check_unasked" => say_answer(it, GeoSource::Unasked, columns, claims),
        "check_bytes" => match hex::decode(it.alloc, geo) {
            Ok(bytes) => say_answer(it, GeoSource::Value(bytes.as_slice()), columns, claims),
            Err(_) => it.said.fail(),
        },
        _ => say_answer(it, GeoSource::Value(geo.as_bytes()), columns, claims),
    }
}

/// The lines of fields, each with a line feed, and what the element of each says beside it, as far as
/// one says something.
fn asked(said: &mut Said, text: &str) -> (String, Vec<RootElement>) {
    let mut lines = String::new(said.alloc);
    let mut elements = Vec::new(said.alloc);
    let mut before = 0usize;
    for part in text.split(" & ") {
        match part.strip_prefix("element ") {
            Some(words) => {
                for _ in elements.len() + 1..before {
                    let layout = ElementLayout::Unjudged;
                    let claim = ElementClaim::Silent;
                    said.put(&mut elements, RootElement { claim, layout });
                }
                let element = element_of(said, words);
                said.put(&mut elements, element);
            }
            None if part.is_empty() => {}
            None => {
                let done = lines.push_str(part);
                said.note(done);
                let done = lines.push_str("\n");
                said.note(done);
                before = before.saturating_add(1);
            }
        }
    }
    (lines, elements)
}

/// What is known of an element, by the words behind `element`: what it says, and its layout.
fn element_of(said: &mut Said, words: &str) -> RootElement {
    let (words, layout) = words.split_once("; layout ").unwrap_or((words, "bytes"));
    RootElement {
        claim: claim_of(said, words),
        layout: layout_of(layout),
    }
}

/// The layout that words name.
fn layout_of(words: &str) -> ElementLayout {
    match words {
        "bytes" => ElementLayout::Bytes,
        "group of x, y" => ElementLayout::Coordinates(0, false),
        "group of x, y, z" => ElementLayout::Coordinates(0, true),
        "LIST of x, y" => ElementLayout::Coordinates(1, false),
        "LIST of x, y, z" => ElementLayout::Coordinates(1, true),
        "LIST of LIST of x, y" => ElementLayout::Coordinates(2, false),
        "LIST of LIST of LIST of x, y" => ElementLayout::Coordinates(3, false),
        "OPTIONAL DOUBLE" => ElementLayout::Other("OPTIONAL", "DOUBLE"),
        "REPEATED BYTE_ARRAY" => ElementLayout::Other("REPEATED", "BYTE_ARRAY"),
        _ => ElementLayout::Unjudged,
    }
}

/// How edges are said, by the words behind what an element says.
fn edges_of(words: &str) -> (&str, EdgesClaim) {
    if let Some(words) = words.strip_suffix(", edges not known") {
        return (words, EdgesClaim::Broken);
    }
    match words.strip_suffix(", edges by default") {
        Some(words) => (words, EdgesClaim::Default),
        None => (words, EdgesClaim::Said),
    }
}

/// What an element says, by the words behind `element`.
fn claim_of(said: &mut Said, words: &str) -> ElementClaim {
    let (words, edges) = edges_of(words);
    match words {
        "silent" => ElementClaim::Silent,
        "given" => ElementClaim::Given {
            names_crs: false,
            edges,
        },
        "given CRS" => ElementClaim::Given {
            names_crs: true,
            edges,
        },
        metadata => ElementClaim::Beside {
            metadata: said.owned(metadata),
            edges,
        },
    }
}

/// Says what a command asks of what a file has at the key `geo`: what is found, or the columns.
fn say_answer(
    it: &mut Asked<'_>,
    geo: GeoSource<'_>,
    columns: Vec<SchemaColumn>,
    elements: &[RootElement],
) {
    let Ok(answer) = inspect_geo(it.alloc, geo, columns, elements) else {
        return it.said.fail();
    };
    let GeoAnswer {
        report,
        facts,
        columns,
    } = answer;
    let (report, _facts) = (ManuallyDrop::new(report), ManuallyDrop::new(facts));
    match it.command {
        "check_geo" | "check_missing" | "check_unasked" | "check_bytes" => say_report(it, &report),
        "geo_columns" => say_columns(it, columns),
        _ => it.no_command(),
    }
}

/// Says the version by which the metadata are judged, and the findings, with ` & ` between them.
fn say_report(it: &mut Asked<'_>, report: &GeoReport) {
    it.said.name(&report.version);
    for (place, finding) in report.findings.iter().enumerate() {
        it.said.push(if place > 0 { " & " } else { " " });
        say_finding(&mut it.said, finding);
    }
}

/// Says the lines of columns, with ` & ` between them.
fn say_columns(it: &mut Asked<'_>, columns: Vec<SchemaColumn>) {
    for (place, column) in columns.into_iter().enumerate() {
        it.said.push(if place > 0 { " & " } else { "" });
        match column_line(it.alloc, column) {
            Ok(line) => it.said.push(line.as_str()),
            Err(AllocError) => it.said.fail(),
        }
    }
}

/// Says the parts of a finding, with a bar between them: its pointer in the metadata, or the word of
/// another source that it is found in.
fn say_finding(said: &mut Said, finding: &GeoFinding) {
    said.push(finding.code.code());
    said.push("|");
    say_part(said, &finding.column);
    said.push("|");
    match finding.source {
        FactSource::Geo => said.push(finding.pointer.as_str()),
        source => said.push(source.word()),
    }
    said.push("|");
    say_part(said, &finding.found);
    said.push("|");
    say_part(said, &finding.wanted);
    if finding.more > 0 {
        said.push("|");
        said.shown(&finding.more);
        said.push(" more");
    }
}

/// Says a part of a finding, or `-` where it is absent.
fn say_part(said: &mut Said, part: &Option<String>) {
    match part {
        Some(part) => said.push(part.as_str()),
        None => said.push("-"),
    }
}
