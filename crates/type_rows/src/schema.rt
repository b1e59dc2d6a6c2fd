//! Rows of the types: calls of `geoarrow_schema`, and of the two crates of native types below it, over fields, data types
//! and types that a text spells. A type is spelled as the program answers it, as in `point separated XY -`.
mod columns;
mod each;
mod parts;
mod report;
mod spelled;
mod words;

use parts::Spelled;
use rows::asked::Asked;
use rows::compared::distinct;
use rows::texts::{first_word, halves};
use spelled::{field_of, type_of};

/// Says the answer to a text under a command. It is lacking where the text does not spell what the command is asked about.
pub fn answer(it: &mut Asked<'_>) {
    match it.command {
        "read" | "from_extension_field" | "canonical_field" | "metadata" => of_field(it),
        "rewrite_field" => columns::rewrite_field(it),
        "with_extension_texts" => columns::with_extension_texts(it),
        "check_columns" => report::report(it),
        "distinct" => distinct::<Spelled>(it),
        "try_new" | "try_extension_type" => each::make(it),
        _ => of_type(it),
    }
}

/// Says what is read from a field.
fn of_field(it: &mut Asked<'_>) {
    let field = field_of(&mut it.said, it.text);
    match it.command {
        "read" => columns::read(&mut it.said, &field),
        "metadata" => report::metadata(&mut it.said, &field),
        _ => columns::read_once(it, &field),
    }
}

/// The text of the type that a command is about, and what stands before it or behind.
fn parted<'a>(it: &mut Asked<'a>) -> (&'a str, &'a str) {
    let (before, behind) = match it.command {
        "to_field" | "with_coord_type" | "with_dimension" => first_word(&mut it.said, it.text),
        "with_metadata" => halves(&mut it.said, it.text),
        "geometry_type_id" | "serialize_metadata" | "extension_name" | "from_kind" | "normalized" =>
            ("", it.text),
        _ => return halves(&mut it.said, it.text),
    };
    (behind, before)
}

/// Says what comes of a type, and of what stands beside it.
fn of_type(it: &mut Asked<'_>) {
    let (spelled, part) = parted(it);
    let Some(one) = type_of(&mut it.said, spelled) else {
        return it.said.fail();
    };
    match it.command {
        "to_field" => columns::to_field(it, &one, part),
        "data_type" => columns::data_type(it, one, part),
        "same_written" => parts::same_written(it, one, part),
        "geometry_type_id" => each::geometry_type_id(it, &one),
        "from_kind" | "normalized" | "with_coord_type" | "with_dimension" | "with_metadata" => {
            parts::changed(it, one, part);
        }
        _ => each::used(it, &one, part),
    }
}
