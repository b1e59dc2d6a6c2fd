//! What the texts of rows spell. Where a text does not spell it, the answer is lacking, and another stands in its place.
use crate::said::Said;
use geoarrow_layout::{CoordType, Dimension, Kind};

/// The two parts of a text around the first of another.
pub fn split<'a>(said: &mut Said, text: &'a str, between: &str) -> (&'a str, &'a str) {
    said.found(text.split_once(between), ("", ""))
}

/// The two parts of a text around a bar.
pub fn halves<'a>(said: &mut Said, text: &'a str) -> (&'a str, &'a str) {
    split(said, text, " | ")
}

/// The first word of a text, and what is left after the space.
pub fn first_word<'a>(said: &mut Said, text: &'a str) -> (&'a str, &'a str) {
    split(said, text, " ")
}

/// What is left of a text behind another one, if it begins with that.
pub fn behind<'a>(text: &'a str, front: &str) -> Option<&'a str> {
    text.strip_prefix(front)
}

/// Whether a text is a line of JSON.
pub fn is_line(text: &str) -> bool {
    text.starts_with('{')
}

/// The kind that a text spells, as `Native(Point, Separated, XY)`.
pub fn kind(said: &mut Said, text: &str) -> Kind {
    let mut name = Said::new(said.alloc);
    for kind in Kind::ALL.iter() {
        name.text.clear();
        name.name(kind);
        if !name.is_lacking && name.text.as_str() == text {
            return *kind;
        }
    }
    said.fail();
    Kind::Geometry(CoordType::Interleaved)
}

/// The coordinate type of that name.
pub fn coord_type(said: &mut Said, text: &str) -> CoordType {
    match text {
        "Separated" | "separated" => return CoordType::Separated,
        "Interleaved" | "interleaved" => {}
        _ => said.fail(),
    }
    CoordType::Interleaved
}

/// The dimension of that name.
pub fn dimension(said: &mut Said, text: &str) -> Dimension {
    match text {
        "XYZ" => return Dimension::XYZ,
        "XYM" => return Dimension::XYM,
        "XYZM" => return Dimension::XYZM,
        "XY" => {}
        _ => said.fail(),
    }
    Dimension::XY
}
