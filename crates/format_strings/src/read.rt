//! Reads format strings.
ghost use Rattle.std.specs.Prelude.{◌≡◌, IfOk, option_map};
ghost use Rattle.format_strings.specs.Reading.{places_in, decimal_by, decimal_in, sized_kind};
ghost use Rattle.format_strings.specs.Reading.{timestamp_kind, union_kind, said_of, said_behind};
ghost use Rattle.format_strings.specs.Reading.{said_in};

use crate::numbers::{byte_in, cut_at_colon, cut_at_comma, ids_in, number_in};
use crate::words::word_kind;
use arrow_columns::ListForm;
use arrow_kinds::{Kind, Named};
use arrow_values::UnionMode;
use std::alloc::{AllocError, Global};

/// What a format string says.
#[derive(Drop)]
pub struct Format<'a> {
    /// The kind of the type.
    pub kind: Kind,
    /// The time zone of a timestamp, where it has one; otherwise empty.
    pub zone: &'a str,
    /// The type ids of a union; otherwise empty.
    pub ids: Vec<i8>,
}

/// Reads a decimal of that width.
fn places_in(precision: &str, scale: &str, width: usize) -> Option<Named>
    ensures { result ≡ places_in precision.now scale.now width }
{
    let precision = number_in(128, precision)?;
    let scale = byte_in(scale)?;
    Some(Named::Decimal(width, precision as usize, scale))
}

/// Reads a decimal by the texts of its precision, scale and width.
pub(crate) fn decimal_by(precision: &str, scale: &str, width: &str) -> Option<Named>
    ensures { result ≡ decimal_by precision.now scale.now width.now }
{
    match width {
        "128" => places_in(precision, scale, 128),
        "32" => places_in(precision, scale, 32),
        "64" => places_in(precision, scale, 64),
        "256" => places_in(precision, scale, 256),
        _ => None,
    }
}

/// Reads a decimal, of what stands behind its colon.
#[tactic(auto, unfolding(crate::specs::Reading::decimal_in))]
fn decimal_in(text: &str) -> Option<Named>
    ensures { result ≡ decimal_in text.now }
{
    let (precision, rest) = cut_at_comma(text)?;
    match cut_at_comma(rest) {
        Some((scale, width)) => decimal_by(precision, scale, width),
        None => decimal_by(precision, rest, "128"),
    }
}

/// Returns the kind of a decimal, or of values or lists of a size.
fn sized_kind(front: &str, text: &str) -> Option<Kind>
    ensures { result ≡ sized_kind front.now text.now }
{
    match front {
        "d" => Some(Kind::Named(decimal_in(text)?)),
        "w" => {
            let size = number_in(0x8000_0000, text)?;
            Some(Kind::Named(Named::FixedSizeBinary(size as i32)))
        }
        "+w" => {
            let size = number_in(0x8000_0000, text)?;
            Some(Kind::List(ListForm::Fixed(size as i32)))
        }
        _ => None,
    }
}

/// Returns the kind of a timestamp.
fn timestamp_kind(front: &str) -> Option<Kind>
    ensures { result ≡ timestamp_kind front.now }
{
    match front {
        "tss" => Some(Kind::Named(Named::Timestamp(0))),
        "tsm" => Some(Kind::Named(Named::Timestamp(1))),
        "tsu" => Some(Kind::Named(Named::Timestamp(2))),
        "tsn" => Some(Kind::Named(Named::Timestamp(3))),
        _ => None,
    }
}

/// Returns the kind of a union.
fn union_kind(front: &str) -> Option<Kind>
    ensures { result ≡ union_kind front.now }
{
    match front {
        "+ud" => Some(Kind::Union(UnionMode::Dense)),
        "+us" => Some(Kind::Union(UnionMode::Sparse)),
        _ => None,
    }
}

/// What is read, or `None` of a text that is no format string; only memory may lack.
type Said<'a> = Result<Option<Format<'a>>, AllocError>;

/// Reads a format string, by what stands before and behind its first colon.
#[tactic(auto, unfolding(crate::specs::Reading::said_behind))]
fn said_behind<'a>(alloc: Global, front: &str, text: &'a str) -> Said<'a>
    ensures { IfOk result (λ o. option_map said_of o ≡ said_behind front.now text.now) }
{
    let none = Vec::new(alloc);
    if let Some(kind) = sized_kind(front, text) {
        return Ok(Some(Format {
            kind,
            zone: "",
            ids: none,
        }));
    }
    if let Some(kind) = timestamp_kind(front) {
        return Ok(Some(Format {
            kind,
            zone: text,
            ids: none,
        }));
    }
    let Some(kind) = union_kind(front) else {
        return Ok(None);
    };
    match ids_in(alloc, text)? {
        Some(ids) => Ok(Some(Format {
            kind,
            zone: "",
            ids,
        })),
        None => Ok(None),
    }
}

/// Reads a format string; `None` of any other text. Fails only out of memory.
#[tactic(auto, unfolding(crate::specs::Reading::said_in))]
pub fn read_format(alloc: Global, text: &str) -> Said<'_>
    ensures { IfOk result (λ o. option_map said_of o ≡ said_in text.now) }
{
    if let Some(kind) = word_kind(text) {
        let ids = Vec::new(alloc);
        return Ok(Some(Format {
            kind,
            zone: "",
            ids,
        }));
    }
    match cut_at_colon(text) {
        Some((front, rest)) => said_behind(alloc, front, rest),
        None => Ok(None),
    }
}
