//! The values of the three keys of a text that is an object of plain texts, and whose CRS is made of them and of numbers, as most metadata
//! texts are: read from its bytes, without a scratch.
ghost use Rattle.std.specs.Prelude.{◌≡◌, false, Some, IfOk, option_map};
ghost use Rattle.serde_json.specs.Data.{Members, object};
ghost use Rattle.serde_json.specs.Read.{read};
ghost use Rattle.serde_json.specs.View.{view};
ghost use Rattle.geoarrow_meta.specs.Read.{some_has_float};
ghost use Rattle.geoarrow_meta.specs.KeyValues.{AreValuesOf};

use crate::metadata::key_values::{KeyValues, crs_type_of, edges_of, no_values, unless_null};
use crate::metadata::plain_members::{after_spaces, next_key, object_start, plain_word};
use crate::metadata::plain_values::{Unread, plain_value};
use serde_json::Value;
use std::alloc::Global;
use value_tokens::MAX_DEPTH;

// The values of the three keys of the object that the text is. Turns `float_read` true where the CRS holds a float.
#[tactic(auto, using(crate::proofs::KeyedValues::none_yet))]
pub(crate) fn plain_values(
    alloc: Global,
    text: &str,
    float_read: &mut bool,
) -> Result<KeyValues<Value>, Unread>
    ensures found { IfOk result (λ s. (ms : Members) × (read text.now ≡ Some (object ms))
        × AreValuesOf (object ms) (option_map view s.crs) s.crs_type s.edges) }
    ensures floats { IfOk result (λ s. float_read.new ≡ false → some_has_float (option_map view s.crs) ≡ false) }
{
    let mut at = object_start(text)?;
    let mut after_member = false;
    let mut found = no_values();
    'values: loop {
        let (key, place) = next_key(text, at, after_member)?;
        let Some(key) = key else {
            if after_spaces(text, place) < text.len() {
                return Err(Unread::NotPlain);
            }
            return Ok(found);
        };
        after_member = true;
        if key == "crs" {
            let (value, next) = plain_value(alloc, text, place, MAX_DEPTH - 1, float_read)?;
            found.crs = unless_null(value);
            at = next;
        } else {
            let (word, next) = plain_word(text, place)?;
            match key {
                "crs_type" => found.crs_type = crs_type_of(Some(word)),
                "edges" => found.edges = edges_of(Some(word)),
                _ => {}
            }
            at = next;
        }
    }
}
