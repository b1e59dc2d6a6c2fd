//! Bytes that are no text, as a finding shows them.
ghost use Rattle.std.specs.Prelude.{◌≡◌, ◌<◌, ◌++◌, IfOk, OnOk, string_bytes};
ghost use Rattle.geoparquet.specs.Spelled.{hex_digit, spelled_byte, spelled};

use std::alloc::{AllocError, Global};

/// The character of a digit from 0 to 15.
fn hex_digit(digit: u8) -> char
    requires { digit < 16 }
    ensures { result ≡ hex_digit digit }
{
    if digit < 10 {
        char::from(48 + digit)
    } else {
        char::from(87 + digit)
    }
}

/// Adds a byte: ASCII as it is, and any other byte in hex.
fn push_spelled(text: &mut String, byte: u8) -> Result<(), AllocError>
    ensures { OnOk result (string_bytes text.new ≡ string_bytes text.old ++ spelled_byte byte) }
{
    if byte < 128 {
        return text.push(char::from(byte));
    }
    text.push_str("\\x")?;
    text.push(hex_digit(byte / 16))?;
    text.push(hex_digit(byte % 16))
}

/// Returns bytes as a finding shows them: ASCII as it is, and any other byte in hex. Errs only when
/// out of memory.
pub(crate) fn spelled(alloc: Global, bytes: &[u8]) -> Result<String, AllocError>
    ensures { IfOk result (λ made. string_bytes made ≡ spelled bytes.now) }
{
    let mut text = String::with_capacity(alloc, bytes.len())?;
    for byte in bytes {
        push_spelled(&mut text, *byte)?;
    }
    Ok(text)
}
