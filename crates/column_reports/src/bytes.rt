//! Bytes that are not UTF-8, as reports show them.
ghost use Rattle.std.specs.Prelude.{◌≡◌, ◌<◌, ◌++◌, IfOk, OnOk, string_bytes};
ghost use Rattle.column_check.specs.Shown.{shown};
ghost use Rattle.geoparquet.specs.Spelled.{hex_digit, spelled_byte, spelled};

use column_check::shown;
use std::alloc::{AllocError, Global};

/// Returns bytes as reports show them: each of ASCII as it is, and another as two hexadecimal
/// digits behind `\x`; at most 120 characters, and `..` behind them where there are more. Errs only
/// when out of memory.
pub(crate) fn bytes_shown(alloc: Global, bytes: &[u8]) -> Result<String, AllocError>
    ensures { IfOk result (λ text. string_bytes text ≡ shown (spelled bytes.now)) }
{
    let text = spelled(alloc, bytes)?;
    shown(alloc, text.as_str())
}

/// The text of bytes, all of it.
fn spelled(alloc: Global, bytes: &[u8]) -> Result<String, AllocError>
    ensures { IfOk result (λ text. string_bytes text ≡ spelled bytes.now) }
{
    let mut text = String::with_capacity(alloc, bytes.len())?;
    for byte in bytes {
        push_spelled(&mut text, *byte)?;
    }
    Ok(text)
}

/// Adds the text of a byte.
fn push_spelled(text: &mut String, byte: u8) -> Result<(), AllocError>
    ensures { OnOk result (string_bytes text.new ≡ string_bytes text.old ++ spelled_byte byte) }
{
    if byte < 128 {
        return text.push(char::from(byte));
    }
    text.push_str("\\x")?;
    text.push(hex_digit(byte / 16))?;
    text.push(hex_digit(byte % 16))
}

/// The character of a digit from 0 to 15.
fn hex_digit(digit: u8) -> char
    requires { digit < 16 }
    ensures { result ≡ hex_digit digit }
{
    if digit < 10 {
        char::from(48 + digit)
    } else {
        char::from(87 + digit)
    }
}
