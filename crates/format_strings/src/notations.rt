//! Reads the notations of types that a format string says.
ghost use Rattle.std.specs.Prelude.{◌≡◌, ◌<◌, option_map};
ghost use Rattle.std.specs.Option.{MatchOption};
ghost use Rattle.arrow_values.specs.Tree.{Text};
ghost use Rattle.arrow_kinds.specs.declared.kind.Named as named;
ghost use Rattle.format_strings.specs.Notations.{IsNotation, behind, between, unit_noted};
ghost use Rattle.format_strings.specs.Notations.{places_noted, decimal_noted, binary_noted};
ghost use Rattle.format_strings.specs.Notations.{unit_in, with_zone_noted, zone_noted};
ghost use Rattle.format_strings.specs.Notations.{zoned_noted, bare_noted, notation_in};

use crate::numbers::{cut_at_comma, cut_at_parenthesis, number_in};
use crate::read::decimal_by;
use arrow_kinds::Named;

/// Returns what stands behind such a text.
fn behind<'a>(front: &str, text: &'a str) -> Option<&'a str>
    ensures { option_map (λ t. t.now) result ≡ behind front.now text.now }
{
    text.strip_prefix(front)
}

/// Returns what stands behind such a text, and before such a character.
#[tactic(auto, unfolding(crate::specs::Notations::between))]
fn between<'a>(front: &str, end: char, text: &'a str) -> Option<&'a str>
    requires { end < 128 }
    ensures { option_map (λ t. t.now) result ≡ between front.now end text.now }
{
    behind(front, text)?.strip_suffix(end)
}

/// Reads the notation of a type of a unit, without a time zone.
fn unit_noted(text: &str) -> Option<Named>
    ensures { result ≡ unit_noted text.now }
{
    match text {
        "time32[s]" => Some(Named::Time(0)),
        "time32[ms]" => Some(Named::Time(1)),
        "time64[us]" => Some(Named::Time(2)),
        "time64[ns]" => Some(Named::Time(3)),
        "timestamp[s]" => Some(Named::Timestamp(0)),
        "timestamp[ms]" => Some(Named::Timestamp(1)),
        "timestamp[us]" => Some(Named::Timestamp(2)),
        "timestamp[ns]" => Some(Named::Timestamp(3)),
        "duration[s]" => Some(Named::Duration(0)),
        "duration[ms]" => Some(Named::Duration(1)),
        "duration[us]" => Some(Named::Duration(2)),
        "duration[ns]" => Some(Named::Duration(3)),
        "month_interval" => Some(Named::Interval(0)),
        "day_time_interval" => Some(Named::Interval(1)),
        "month_day_nano_interval" => Some(Named::Interval(2)),
        _ => None,
    }
}

/// Reads a decimal of that width, of its precision and its scale.
fn places_noted(width: &str, text: &str) -> Option<Named>
    ensures { result ≡ places_noted width.now text.now }
{
    let (precision, rest) = cut_at_comma(text)?;
    decimal_by(precision, behind(" ", rest)?, width)
}

/// Reads the notation of a decimal.
#[tactic(auto, unfolding(crate::specs::Notations::decimal_noted))]
fn decimal_noted(text: &str) -> Option<Named>
    ensures { result ≡ decimal_noted text.now }
{
    let (width, places) = cut_at_parenthesis(between("decimal", ')', text)?)?;
    places_noted(width, places)
}

/// Reads the notation of binary values of one size.
#[tactic(auto, unfolding(crate::specs::Notations::binary_noted))]
fn binary_noted(text: &str) -> Option<Named>
    ensures { result ≡ binary_noted text.now }
{
    let size = number_in(0x8000_0000, between("fixed_size_binary[", ']', text)?)?;
    Some(Named::FixedSizeBinary(size as i32))
}

/// Returns the unit of a timestamp.
fn unit_in(text: &str) -> Option<usize>
    ensures { result ≡ unit_in text.now }
{
    match text {
        "s" => Some(0),
        "ms" => Some(1),
        "us" => Some(2),
        "ns" => Some(3),
        _ => None,
    }
}

/// A kind, and its time zone.
type Noted<'a> = Option<(Named, &'a str)>;

/// Reads a timestamp of that unit, of what stands behind its comma.
fn zone_noted<'a>(unit: &str, text: &'a str) -> Noted<'a>
    ensures { option_map (λ p. (p.0, p.1.now)) result ≡ zone_noted unit.now text.now }
{
    let zone = behind(" tz=", text)?;
    let unit = unit_in(unit)?;
    if zone.is_empty() {
        return None;
    }
    Some((Named::Timestamp(unit), zone))
}

/// Reads the notation of a timestamp with a time zone.
#[tactic(auto, unfolding(crate::specs::Notations::zoned_noted))]
fn zoned_noted(text: &str) -> Noted<'_>
    ensures { option_map (λ p. (p.0, p.1.now)) result ≡ zoned_noted text.now }
{
    let (unit, rest) = cut_at_comma(between("timestamp[", ']', text)?)?;
    zone_noted(unit, rest)
}

/// Reads the notation of a type without a time zone.
fn bare_noted(text: &str) -> Option<Named>
    ensures { result ≡ bare_noted text.now }
{
    if let Some(kind) = unit_noted(text) {
        return Some(kind);
    }
    if let Some(kind) = decimal_noted(text) {
        return Some(kind);
    }
    binary_noted(text)
}

/// Reads the notation of a type that is none of the 26 data types, of which a format string says
/// all: its kind, and its time zone, which is empty where it has none; `None` of any other text.
#[tactic(auto, unfolding(crate::specs::Notations::notation_in))]
pub fn read_notation(text: &str) -> Option<(Named, &str)>
    ensures is { option_map (λ p. (p.0, p.1.now)) result ≡ notation_in text.now }
    ensures exact { MatchOption result
        ((kind : named.Named) (zone : Text) → ¬ (IsNotation text.now kind zone))
        (λ p. IsNotation text.now p.0 p.1.now) }
{
    if let Some(kind) = bare_noted(text) {
        return Some((kind, ""));
    }
    zoned_noted(text)
}
