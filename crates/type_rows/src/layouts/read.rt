//! Commands that read data types, by calls that allocate nothing.
use crate::layouts::summaries::say_summary;
use arrow_values::DataType;
use geoarrow_layout::{
    CoordType, Dimension, LayoutFault, alike, candidates, infer_point, parse_box, parse_geometry,
    parse_geometry_collection, parse_linestring, parse_mixed, parse_multilinestring,
    parse_multipoint, parse_multipolygon, parse_point, parse_polygon, parse_wkb, parse_wkt,
    summarize, written_kind,
};
use rows::asked::Asked;
use rows::notation::data_type;
use rows::said::Said;
use rows::texts::{first_word, halves};
use std::fmt::Debug;

/// Says what a reader of one part answers: the part by its name, or the fault.
pub fn say_part<T: Debug>(said: &mut Said, answer: &Result<T, LayoutFault>) {
    match answer {
        Ok(part) => said.name(part),
        Err(fault) => said.name(fault),
    }
}

/// What a reader of a coordinate type and a dimension answers.
type Pair = Result<(CoordType, Dimension), LayoutFault>;

/// Says what it answers.
fn say_pair(said: &mut Said, answer: Pair) {
    match answer {
        Ok((coord_type, dimension)) => {
            said.name(&coord_type);
            said.push(" ");
            said.name(&dimension);
        }
        Err(fault) => said.name(&fault),
    }
}

/// Says what a reader of a coordinate type and a dimension answers, or another one.
fn say_read(it: &mut Asked<'_>, tree: &DataType) {
    let answer = match it.command {
        "parse_point" => parse_point(tree),
        "parse_linestring" => parse_linestring(tree),
        "parse_polygon" => parse_polygon(tree),
        "parse_multipoint" => parse_multipoint(tree),
        "parse_multilinestring" => parse_multilinestring(tree),
        "parse_multipolygon" => parse_multipolygon(tree),
        "parse_mixed" => parse_mixed(tree),
        "parse_geometry_collection" => parse_geometry_collection(tree),
        _ => return say_other(it, tree),
    };
    say_pair(&mut it.said, answer);
}

/// Says what a call answers that is no reader of a coordinate type and a dimension.
fn say_other(it: &mut Asked<'_>, tree: &DataType) {
    let said = &mut it.said;
    match it.command {
        "parse_geometry" => say_part(said, &parse_geometry(tree)),
        "parse_box" => say_part(said, &parse_box(tree)),
        "parse_wkb" => say_part(said, &parse_wkb(tree)),
        "parse_wkt" => say_part(said, &parse_wkt(tree)),
        "infer_point" => match infer_point(tree) {
            Some(found) => say_pair(said, Ok(found)),
            None => said.push("none"),
        },
        "summarize" => say_summary(said, summarize(tree)),
        "candidates" => said.name(&candidates(tree)),
        "written_kind" => said.name_or_none(&written_kind(tree)),
        _ => it.no_command(),
    }
}

/// Says what a call answers about a data type.
pub fn one(it: &mut Asked<'_>) {
    let tree = data_type(&mut it.said, it.text);
    it.before();
    say_read(it, &tree);
    it.after();
}

/// Says the kind that the summary of a data type tells under a name, which is before it.
pub fn kind(it: &mut Asked<'_>) {
    let (named, rest) = first_word(&mut it.said, it.text);
    let tree = data_type(&mut it.said, rest);
    it.before();
    it.said.name_or_none(&summarize(&tree).kind(named));
    it.after();
}

/// Says whether two data types are alike, asked both ways round.
pub fn likeness(it: &mut Asked<'_>) {
    let (first, second) = halves(&mut it.said, it.text);
    let first = data_type(&mut it.said, first);
    let second = data_type(&mut it.said, second);
    it.before();
    it.said.push(likeness_of(&first, &second));
    it.after();
}

/// Whether two data types are alike, in words.
fn likeness_of(first: &DataType, second: &DataType) -> &'static str {
    match (alike(first, second), alike(second, first)) {
        (true, true) => "alike",
        (false, false) => "not alike",
        _ => "alike one way round alone",
    }
}
