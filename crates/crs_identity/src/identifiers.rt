//! Identifiers of CRSs: which authority has the CRS, and under which code.
ghost use Rattle.std.specs.Prelude.{◌≡◌, ◌++◌, map, IfOk, OnOk, bytes_eq, option_map};
ghost use Rattle.std.specs.Char.{is_ascii_digit};
ghost use Rattle.std.specs.List.{list_all};
ghost use Rattle.json.specs.Value.{items_view, value_view};
ghost use Rattle.crs_identity.specs.Forms.{said};
ghost use Rattle.crs_identity.specs.Identifiers.{authority_of, code_of, first_of, has_authority, has_name, identifier_in, in_small, is_paired, is_same, name_of, named, of_items, paired, pairs, projjson_identifiers, second_of, share_authority, share_identifier, with_pair};
ghost use Rattle.crs_identity.specs.Verdicts.{form_said, has_paired};
ghost use Rattle.std.specs.List.{list_any};

use crate::form::{Crs, identifiers};
use crate::verdict::form_said;
use json::{Scratch, Value};
use std::alloc::{AllocError, Global};

/// An identifier, in small letters.
#[derive(Drop)]
pub(crate) struct Identifier {
    pub(crate) authority: Vec<u8>,
    pub(crate) code: Vec<u8>,
}

impl Identifier {
    /// Returns a copy. Errs only when out of memory.
    pub(crate) fn copied(&self, alloc: Global) -> Result<Identifier, AllocError>
        ensures { IfOk result (λ i. name_of i ≡ name_of self.now) }
    {
        let authority = Vec::from_slice(alloc, self.authority.as_slice())?;
        let code = Vec::from_slice(alloc, self.code.as_slice())?;
        Ok(Identifier { authority, code })
    }
}

/// Returns whether an identifier of the CRS is one of the table of pairs, as `EPSG:4326`
/// (docs/FORMAT.md, 5.3). Errs only when out of memory.
pub fn has_paired_identifier(alloc: Global, crs: &Crs<'_, '_>) -> Result<bool, AllocError>
    ensures { IfOk result (λ answer. answer ≡ has_paired (form_said (said crs.now))) }
{
    let mut scratch = Scratch::new(alloc);
    match form_said(alloc, *crs, &mut scratch)? {
        Some(form) => Ok(has_pair(identifiers(alloc, &form)?.as_slice())),
        None => Ok(false),
    }
}

/// Whether one of these is one of the table of pairs.
fn has_pair(found: &[Identifier]) -> bool
    ensures { result ≡ list_any is_paired (map name_of found.now) }
{
    for identifier in found {
        if paired(identifier).is_some() {
            return true;
        }
    }
    false
}

/// Makes an identifier. Errs only when out of memory.
pub(crate) fn made(alloc: Global, authority: &[u8], code: &[u8]) -> Result<Identifier, AllocError>
    ensures { IfOk result (λ i. name_of i ≡ named authority.now code.now) }
{
    let authority = authority.to_ascii_lowercase(alloc)?;
    let code = code.to_ascii_lowercase(alloc)?;
    Ok(Identifier { authority, code })
}

/// Adds an identifier, if there is one, and the one that is paired with it. Errs only when out of
/// memory.
pub(crate) fn add(
    alloc: Global,
    found: &mut Vec<Identifier>,
    identifier: Option<Identifier>,
) -> Result<(), AllocError>
    ensures { OnOk result (map name_of found.new.items ≡ map name_of found.old.items
        ++ with_pair (option_map name_of identifier)) }
{
    let Some(identifier) = identifier else {
        return Ok(());
    };
    let other = paired(&identifier);
    found.push(identifier)?;
    if let Some((authority, code)) = other {
        let authority = Vec::from_slice(alloc, authority.as_bytes())?;
        let code = Vec::from_slice(alloc, code.as_bytes())?;
        found.push(Identifier { authority, code })?;
    }
    Ok(())
}

/// The authority and the code that are paired with an identifier.
pub(crate) fn paired(identifier: &Identifier) -> Option<(&'static str, &'static str)>
    ensures { option_map (λ p. record { authority = p.0.now; code = p.1.now }) result
        ≡ paired (name_of identifier.now) }
{
    let authority = identifier.authority.as_slice();
    let code = identifier.code.as_slice();
    if authority == "ogc".as_bytes() {
        return Some(("epsg", epsg_beside(code)?));
    }
    if authority == "epsg".as_bytes() {
        return Some(("ogc", ogc_beside(code)?));
    }
    None
}

/// The code of EPSG beside one of OGC.
fn epsg_beside(code: &[u8]) -> Option<&'static str>
    ensures { option_map (λ s. s.now) result ≡ second_of code.now pairs }
{
    if code == "crs84".as_bytes() {
        Some("4326")
    } else if code == "crs84h".as_bytes() {
        Some("4979")
    } else if code == "crs83".as_bytes() {
        Some("4269")
    } else if code == "crs27".as_bytes() {
        Some("4267")
    } else {
        None
    }
}

/// The code of OGC beside one of EPSG.
fn ogc_beside(code: &[u8]) -> Option<&'static str>
    ensures { option_map (λ s. s.now) result ≡ first_of code.now pairs }
{
    if code == "4326".as_bytes() {
        Some("crs84")
    } else if code == "4979".as_bytes() {
        Some("crs84h")
    } else if code == "4269".as_bytes() {
        Some("crs83")
    } else if code == "4267".as_bytes() {
        Some("crs27")
    } else {
        None
    }
}

/// Adds the identifiers of PROJJSON. Errs only when out of memory.
pub(crate) fn projjson_identifiers(
    alloc: Global,
    value: &Value<'_>,
    found: &mut Vec<Identifier>,
) -> Result<(), AllocError>
    ensures { OnOk result (map name_of found.new.items ≡ map name_of found.old.items
        ++ projjson_identifiers (value_view value.now)) }
{
    let identifier = identifier_in(alloc, value.get("id"))?;
    add(alloc, found, identifier)?;
    match value.get("ids") {
        Some(Value::Array(items)) => add_items(alloc, items.as_slice(), found),
        _ => Ok(()),
    }
}

/// Adds the identifiers that items of `ids` are. Errs only when out of memory.
fn add_items(
    alloc: Global,
    items: &[Value<'_>],
    found: &mut Vec<Identifier>,
) -> Result<(), AllocError>
    ensures { OnOk result (map name_of found.new.items ≡ map name_of found.old.items
        ++ of_items (items_view items.now)) }
{
    for item in items {
        let identifier = identifier_in(alloc, Some(item))?;
        add(alloc, found, identifier)?;
    }
    Ok(())
}

/// Returns the identifier that a value is, if it is one. Errs only when out of memory.
fn identifier_in(alloc: Global, value: Option<&Value<'_>>) -> Result<Option<Identifier>, AllocError>
    ensures { IfOk result (λ o. option_map name_of o
        ≡ identifier_in (option_map (λ v. value_view v.now) value.entry)) }
{
    let Some(value) = value else {
        return Ok(None);
    };
    match (authority_of(value), code_of(value)) {
        (Some(authority), Some(code)) => {
            Ok(Some(made(alloc, authority.as_bytes(), code.as_bytes())?))
        }
        _ => Ok(None),
    }
}

/// The authority that an identifier says.
pub(crate) fn authority_of<'a>(value: &Value<'a>) -> Option<&'a str>
    ensures { option_map (λ s. s.now) result ≡ authority_of (value_view value.now) }
{
    value.get("authority")?.as_str()
}

/// The code that an identifier says.
pub(crate) fn code_of<'a>(value: &Value<'a>) -> Option<&'a str>
    ensures { option_map (λ s. s.now) result ≡ code_of (value_view value.now) }
{
    match value.get("code")? {
        Value::String(text) => Some(*text),
        Value::Number(text) if is_digits(text.as_bytes()) => Some(*text),
        _ => None,
    }
}

/// Whether each byte is a digit.
fn is_digits(bytes: &[u8]) -> bool
    ensures { result ≡ list_all is_ascii_digit bytes.now }
{
    for b in bytes {
        if !b.is_ascii_digit() {
            return false;
        }
    }
    true
}

/// Whether a word is that text in small letters.
pub(crate) fn is_word(word: &[u8], small: &str) -> bool
    ensures { result ≡ bytes_eq (in_small word.now) small.now }
{
    let mut others = small.as_bytes().iter();
    for b in word {
        if !matches!(others.next(), Some(c) if b.to_ascii_lowercase() == *c) {
            return false;
        }
    }
    others.next().is_none()
}

/// Whether two identifiers are the same.
fn is_same(a: &Identifier, b: &Identifier) -> bool
    ensures { result ≡ is_same (name_of a.now) (name_of b.now) }
{
    a.authority.as_slice() == b.authority.as_slice() && a.code.as_slice() == b.code.as_slice()
}

/// Whether an identifier is among others.
fn has_name(others: &[Identifier], identifier: &Identifier) -> bool
    ensures { result ≡ has_name (map name_of others.now) (name_of identifier.now) }
{
    for other in others {
        if is_same(identifier, other) {
            return true;
        }
    }
    false
}

/// Whether both have an identifier in common.
pub(crate) fn share_identifier(a: &[Identifier], b: &[Identifier]) -> bool
    ensures { result ≡ share_identifier (map name_of a.now) (map name_of b.now) }
{
    for identifier in a {
        if has_name(b, identifier) {
            return true;
        }
    }
    false
}

/// Whether the authority of an identifier has one of the others.
fn has_authority(others: &[Identifier], identifier: &Identifier) -> bool
    ensures { result ≡ has_authority (map name_of others.now) (name_of identifier.now) }
{
    for other in others {
        if identifier.authority.as_slice() == other.authority.as_slice() {
            return true;
        }
    }
    false
}

/// Whether an identifier of each has the same authority.
pub(crate) fn share_authority(a: &[Identifier], b: &[Identifier]) -> bool
    ensures { result ≡ share_authority (map name_of a.now) (map name_of b.now) }
{
    for identifier in a {
        if has_authority(b, identifier) {
            return true;
        }
    }
    false
}
