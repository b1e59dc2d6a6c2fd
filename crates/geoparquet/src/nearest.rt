//! The name that a text is most like.
ghost use Rattle.std.specs.Prelude.{◌≡◌, ◌*◌, IfOk, length, map, nat_lt};
ghost use Rattle.arrow_values.specs.Texts.{text_of};
ghost use Rattle.geoparquet.specs.Nearest.{edits, is_near, is_near_by, first_near, of_others, is_name, nearest};

use std::alloc::{AllocError, Global};
use strsim::levenshtein;

/// Returns the name that a text is most like, if it is none of the names: the first that differs in
/// letters alone, else the first that one edit leads to, else the first that two do; where an edit
/// stands for more than five letters of the name. Errs only when out of memory.
pub(crate) fn nearest(
    alloc: Global,
    found: &str,
    names: &[&'static str],
) -> Result<Option<&'static str>, AllocError>
    ensures { IfOk result (λ near. text_of near ≡ nearest found.now (map (λ name. name.now) names.now)) }
{
    if is_name(found, names) {
        return Ok(None);
    }
    of_others(alloc, found, names)
}

/// Whether a text is one of the names.
fn is_name(found: &str, names: &[&str]) -> bool
    ensures { result ≡ is_name found.now (map (λ name. name.now) names.now) }
{
    let [name, rest @ ..] = names else {
        return false;
    };
    *name == found || is_name(found, rest)
}

/// The name that another text is most like.
fn of_others(
    alloc: Global,
    found: &str,
    names: &[&'static str],
) -> Result<Option<&'static str>, AllocError>
    ensures { IfOk result (λ near. text_of near ≡ of_others found.now (map (λ name. name.now) names.now)) }
{
    if let Some(name) = first_near(alloc, 0, found, names)? {
        return Ok(Some(name));
    }
    if let Some(name) = first_near(alloc, 1, found, names)? {
        return Ok(Some(name));
    }
    first_near(alloc, 2, found, names)
}

/// The first name that so many edits, or fewer, lead to.
fn first_near(
    alloc: Global,
    limit: usize,
    found: &str,
    names: &[&'static str],
) -> Result<Option<&'static str>, AllocError>
    ensures { IfOk result (λ near. text_of near ≡ first_near limit found.now (map (λ name. name.now) names.now)) }
{
    let [name, rest @ ..] = names else {
        return Ok(None);
    };
    if is_near(alloc, limit, found, name)? {
        return Ok(Some(name));
    }
    first_near(alloc, limit, found, rest)
}

/// Whether so many edits, or fewer, lead to a name.
fn is_near(alloc: Global, limit: usize, found: &str, name: &str) -> Result<bool, AllocError>
    ensures { IfOk result (λ is. is ≡ is_near limit found.now name.now) }
{
    let edits = edits(alloc, found, name)?;
    Ok(is_near_by(limit, edits, name.len()))
}

/// Whether so many edits are at most the limit, and few for a name of that size.
fn is_near_by(limit: usize, edits: usize, size: usize) -> bool
    ensures { result ≡ is_near_by limit edits size }
{
    edits <= limit && edits as u128 * 5 < size as u128
}

/// How many edits lead from one text to the other, letters of ASCII alike.
fn edits(alloc: Global, found: &str, name: &str) -> Result<usize, AllocError>
    ensures { IfOk result (λ count. count ≡ edits found.now name.now) }
{
    let found = found.to_ascii_lowercase(alloc)?;
    let name = name.to_ascii_lowercase(alloc)?;
    levenshtein(alloc, found.as_str(), name.as_str())
}
