//! Summaries in words, as `2 LargeList Struct 2 all Float64 x y`.
use geoarrow_layout::{Bottom, Dimension, Summary};
use rows::said::Said;

/// The names that a layout goes by, each with its bit, and what stands for any other.
const NAMES: [(u64, &str); 9] = [
    (1, "x"),
    (2, "y"),
    (4, "z"),
    (8, "m"),
    (16, "zmin"),
    (32, "zmax"),
    (64, "mmin"),
    (128, "mmax"),
    (256, "other"),
];

/// The coordinate types, each with its bit.
const COORD_TYPES: [(u64, &str); 2] = [(1, "Interleaved"), (2, "Separated")];

/// The dimensions, each with its bit.
const DIMENSIONS: [(u64, &str); 4] = [(1, "XY"), (2, "XYZ"), (4, "XYM"), (8, "XYZM")];

/// Says the words of the bits that are set, each after a space.
fn set(said: &mut Said, bits: u64, words: &[(u64, &str)]) {
    for &(bit, word) in words {
        if bits & bit != 0 {
            said.push(" ");
            said.push(word);
        }
    }
}

/// Says the numbers of the bits that are set, each after a space.
fn numbers(said: &mut Said, bits: u64) {
    for number in 0..64u32 {
        if bits >> number & 1 != 0 {
            said.push(" ");
            said.shown(&number);
        }
    }
}

/// Says the dimension that the inner field of a fixed size list names.
fn named(said: &mut Said, named: Option<Dimension>) {
    said.push("FixedSizeList ");
    match named {
        Some(named) => said.shown(&named),
        None => said.push("-"),
    }
}

/// Says what stands below the lists.
fn bottom(said: &mut Said, bottom: Bottom) {
    match bottom {
        Bottom::FixedSizeList {
            named: dimension,
            size,
            float64,
        } => {
            named(said, dimension);
            said.push(" ");
            said.shown(&size);
            said.push(" ");
            said.truth(float64);
        }
        Bottom::Struct {
            count,
            names,
            all_float64,
        } => {
            said.push("Struct ");
            said.shown(&count);
            said.push(" ");
            said.truth(all_float64);
            set(said, u64::from(names), &NAMES);
        }
        Bottom::Union {
            no_members,
            ids,
            coord_types,
            dimensions,
            mixed_fault,
            geometry_fault,
        } => {
            said.push("Union ");
            said.truth(no_members);
            numbers(said, ids);
            set(said, u64::from(coord_types), &COORD_TYPES);
            set(said, u64::from(dimensions), &DIMENSIONS);
            said.push(", mixed ");
            said.name_or_none(&mixed_fault);
            said.push(", geometry ");
            said.name_or_none(&geometry_fault);
        }
        Bottom::OtherWidth => said.push("OtherWidth"),
        Bottom::Deep => said.push("Deep"),
        Bottom::Other => said.push("Other"),
    }
}

/// Says the levels of a summary, their width, and what stands below them.
pub fn say_summary(said: &mut Said, summary: Summary) {
    said.shown(&summary.levels);
    said.push(" ");
    match summary.width {
        Some(width) => said.name(&width),
        None => said.push("-"),
    }
    said.push(" ");
    bottom(said, summary.bottom);
}
