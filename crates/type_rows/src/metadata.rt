//! Rows of metadata, of CRS and of their parts: calls of `geoarrow_meta`.
mod crs;
mod texts;
mod transforms;

use geoarrow_meta::DefaultCrsTransform;
use rows::asked::Asked;
use rows::compared::{distinct, equal};
use rows::texts::behind;
use texts::Spelled;
pub use texts::say_text;
use transforms::{OneText, converted};

/// Says the answer to a text under a command; a call of a transform is of that which converts nothing, or of the other one where
/// `one_text.` stands before it. It is lacking where the text does not spell what the command is asked about.
pub fn answer(it: &mut Asked<'_>) {
    match it.command {
        "extract_wkt" | "extract_projjson" | "_convert_to_wkt" | "_convert_to_projjson" => {
            converted(it, &DefaultCrsTransform {}, it.command)
        }
        command => match behind(command, "one_text.") {
            Some(call) => converted(it, &OneText {}, call),
            None => read_or_compare(it),
        },
    }
}

/// Answers the commands that read metadata, and for those that compare them.
fn read_or_compare(it: &mut Asked<'_>) {
    match it.command {
        "deserialize" => texts::deserialized(it, Some(it.text)),
        "of_no_text" => texts::deserialized(it, None),
        "from_value" => texts::from_value(it),
        "Metadata::same_written" => texts::same_written(it),
        "equal" => equal::<Spelled>(it),
        "distinct" => distinct::<Spelled>(it),
        "serialize" | "to_value" | "Metadata::normalized" | "is_normal" => texts::read(it),
        _ => crs::answer(it),
    }
}
