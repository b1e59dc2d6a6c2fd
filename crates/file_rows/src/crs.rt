//! Rows of CRSs: calls of `crs_identity`. A row's text is a claim, and under `verdict` and `equal`
//! another behind ` & `. A claim is a JSON value; `srid` and a value; `unknown`; or `default`.
use crs_identity::{
    Claim, Crs, class_of, crs_verdict, has_paired_identifier, json_equal, malformed_parts,
};
use json::{Scratch, Value};
use rows::asked::Asked;
use std::alloc::AllocError;
use value_tokens::read_json;

/// Says the answer to a text under a command. It is lacking when out of memory, and where a claim is
/// not spelled.
pub fn answer(it: &mut Asked<'_>) {
    let (first, second) = it.text.split_once(" & ").unwrap_or((it.text, "unknown"));
    let mut scratch = Scratch::new(it.alloc);
    let mut other = Scratch::new(it.alloc);
    let Ok(a) = read_json(it.alloc, json_of(first), &mut scratch) else {
        return it.said.fail();
    };
    match read_json(it.alloc, json_of(second), &mut other) {
        Ok(b) => say(it, (first, &a), (second, &b)),
        Err(_) => it.said.fail(),
    }
}

/// The JSON text of a claim.
fn json_of(text: &str) -> &str {
    match text {
        "unknown" => "null",
        "default" => r#""OGC:CRS84""#,
        _ => text.strip_prefix("srid ").unwrap_or(text),
    }
}

/// The claim of a text and its value.
fn claim_of<'v, 'a>(text: &str, value: &'v Value<'a>) -> Claim<'v, 'a> {
    let crs = match text {
        "unknown" => Crs::Unknown,
        _ if text.starts_with("srid ") => Crs::Srid(value),
        _ => Crs::Value(value),
    };
    let is_default = text == "default";
    Claim { crs, is_default }
}

/// Says the answer to two claims, each by its text and its value.
fn say(it: &mut Asked<'_>, a: (&str, &Value<'_>), b: (&str, &Value<'_>)) {
    let first = claim_of(a.0, a.1);
    match it.command {
        "verdict" => match crs_verdict(it.alloc, &first, &claim_of(b.0, b.1)) {
            Ok(verdict) => it.said.name(&verdict),
            Err(AllocError) => it.said.fail(),
        },
        "equal" => match json_equal(it.alloc, a.1, b.1) {
            Ok(answer) => it.said.truth(answer),
            Err(AllocError) => it.said.fail(),
        },
        "class" => match class_of(it.alloc, &first.crs) {
            Ok(class) => it.said.name_or_none(&class),
            Err(AllocError) => it.said.fail(),
        },
        "paired" => match has_paired_identifier(it.alloc, &first.crs) {
            Ok(answer) => it.said.truth(answer),
            Err(AllocError) => it.said.fail(),
        },
        "malformed" => say_malformed(it, a.1),
        _ => it.no_command(),
    }
}

/// Says the parts of an object that are wrong, by their pointers.
fn say_malformed(it: &mut Asked<'_>, value: &Value<'_>) {
    match malformed_parts(it.alloc, value) {
        Ok(parts) if parts.is_empty() => it.said.push("none"),
        Ok(parts) => {
            for (place, part) in parts.iter().enumerate() {
                it.said.push(if place > 0 { " " } else { "" });
                let pointer = part.pointer(it.alloc);
                it.said.made(pointer);
            }
        }
        Err(AllocError) => it.said.fail(),
    }
}
