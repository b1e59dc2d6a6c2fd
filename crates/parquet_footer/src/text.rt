//! Texts of a footer that need not be UTF-8: the names of elements, keys and values.
ghost use Rattle.std.specs.Prelude.{◌≡◌, option_map};
ghost use Rattle.std.specs.Str.{is_utf8};
ghost use Rattle.parquet_footer.specs.Fault.{Returns};
ghost use Rattle.parquet_footer.specs.Fields.{spots};
ghost use Rattle.parquet_footer.specs.Spelled.{spelled, spelled_at, spelled_in};

use crate::fault::{Fault, FooterRule, broken};
use crate::fields::{Found, Place};
use crate::wire::number_at;

/// A text of a footer, which need not be UTF-8: its bytes, and where they begin.
#[derive(Debug, Clone, Copy)]
pub struct FooterText<'a> {
    /// The bytes.
    pub bytes: &'a [u8],
    /// Behind how many bytes of the footer they begin.
    pub byte: usize,
}

/// The bytes of a text, in a footer of that size.
#[tactic(auto, unfolding(crate::specs::Spelled::spelled_at))]
fn spelled_at(size: usize, bytes: &[u8]) -> Result<FooterText<'_>, Fault>
    ensures { Returns spelled result (spelled_at size bytes.now) }
{
    match number_at(bytes, 5) {
        Ok((count, rest)) if count as usize <= rest.len() => {
            let byte = size.saturating_sub(rest.len());
            let bytes = &rest[..count as usize];
            Ok(FooterText { bytes, byte })
        }
        Ok(_) => Err(broken(FooterRule::Length, bytes)),
        Err(fault) => Err(fault),
    }
}

/// The bytes of the text in a field, where it is there, in a footer of that size.
#[tactic(auto, unfolding(crate::specs::Spelled::spelled_in))]
pub fn spelled_in(size: usize, place: Found<'_>) -> Result<Option<FooterText<'_>>, Fault>
    ensures { Returns (option_map spelled) result (spelled_in size (spots place.entry)) }
{
    match place {
        None => Ok(None),
        Some(Place { kind: 8, bytes }) => spelled_at(size, bytes).map(Some),
        Some(place) => Err(broken(FooterRule::WireType, place.bytes)),
    }
}

/// Whether bytes are UTF-8.
#[tactic(auto, using(crate::proofs::Texts::utf8_is, crate::proofs::Texts::utf8_is_not))]
pub fn is_text(bytes: &[u8]) -> bool
    ensures { result ≡ is_utf8 bytes.now }
{
    str::from_utf8(bytes).is_ok()
}
