//! Numbers of format strings.
ghost use Rattle.std.specs.Prelude.{◌≡◌, ◌<◌, ◌≤◌, ◌^◌, pos, IfOk, IfSome, option_map};
ghost use Rattle.arrow_values.specs.Union.{has};
ghost use Rattle.format_strings.specs.Numbers.{leads, number_in, byte_in, cut, ids_in};

use std::alloc::{AllocError, Global};

/// Tells whether a text is one digit, or begins with one that is not 0.
fn leads(digits: &[u8]) -> bool
    ensures { result ≡ leads digits.now }
{
    matches!(digits, [b'0'..=b'9'] | [b'1'..=b'9', ..])
}

/// Reads the number below a bound that a text is.
pub(crate) fn number_in(bound: u32, text: &str) -> Option<u32>
    ensures is { result ≡ number_in bound text.now }
    ensures below { IfSome result (λ n. n < bound) }
{
    if !leads(text.as_bytes()) {
        return None;
    }
    match text.parse::<u32>() {
        Ok(number) if number < bound => Some(number),
        _ => None,
    }
}

/// Reads the number of a signed byte that a text is.
pub(crate) fn byte_in(text: &str) -> Option<i32>
    ensures { result ≡ byte_in text.now }
{
    match text.strip_prefix('-') {
        Some(digits) => match number_in(129, digits)? {
            0 => None,
            number => Some(-(number as i32)),
        },
        None => Some(number_in(128, text)? as i32),
    }
}

/// Returns what stands before the first colon, and behind it.
pub(crate) fn cut_at_colon(text: &str) -> Option<(&str, &str)>
    ensures { option_map (λ p. (p.0.now, p.1.now)) result ≡ cut 58 text.now }
{
    text.split_once(':')
}

/// Returns what stands before the first comma, and behind it.
pub(crate) fn cut_at_comma(text: &str) -> Option<(&str, &str)>
    ensures { option_map (λ p. (p.0.now, p.1.now)) result ≡ cut 44 text.now }
{
    text.split_once(',')
}

/// Returns what stands before the first parenthesis that opens, and behind it.
pub(crate) fn cut_at_parenthesis(text: &str) -> Option<(&str, &str)>
    ensures { option_map (λ p. (p.0.now, p.1.now)) result ≡ cut 40 text.now }
{
    text.split_once('(')
}

/// Tells whether a type id is among those before it.
fn has(id: u32, ids: &[i8]) -> bool
    requires { id < 128 }
    ensures { result ≡ has (pos id) ids.now }
{
    ids.contains(&(id as i8))
}

/// Reads the type ids that a text is, each 0 to 127, and none of those before it.
pub(crate) fn ids_in(alloc: Global, text: &str) -> Result<Option<Vec<i8>>, AllocError>
    ensures { IfOk result (λ o. option_map (λ v. v.items) o ≡ ids_in text.now) }
{
    let mut ids = Vec::new(alloc);
    if text.is_empty() {
        return Ok(Some(ids));
    }
    'ids: for part in text.split(',') {
        let Some(id) = number_in(128, part) else {
            return Ok(None);
        };
        if has(id, ids.as_slice()) {
            return Ok(None);
        }
        ids.push(id as i8)?;
    }
    Ok(Some(ids))
}
