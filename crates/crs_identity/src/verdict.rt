//! When two CRSs are one.
ghost use Rattle.std.specs.Prelude.{◌≡◌, IfOk, option_map};
ghost use Rattle.crs_identity.specs.Forms.{form_view, said};
ghost use Rattle.crs_identity.specs.Verdicts.{claim, crs_verdict, form_said, verdict_of, verdict_of_unknown};

use crate::class::{classes_differ, form_class};
use crate::form::{Crs, CrsForm, are_equal, form_of, identifiers};
use crate::identifiers::{share_authority, share_identifier};
use json::Scratch;
use std::alloc::{AllocError, Global};

/// What a source says of the CRS.
#[derive(Clone, Copy)]
pub struct Claim<'v, 'a> {
    /// The CRS.
    pub crs: Crs<'v, 'a>,
    /// Whether it is the format's value where nothing is said.
    pub is_default: bool,
}

/// Whether two claims are of one CRS.
#[derive(Clone, Copy, Debug, PartialEq, Eq)]
pub enum Verdict {
    /// They are.
    Agree,
    /// They are not.
    Contradict,
    /// Nothing decides.
    NotCompared,
}

/// Returns whether two sources say one CRS, by the table of docs/FORMAT.md, 5.3. Errs only when out
/// of memory.
pub fn crs_verdict(
    alloc: Global,
    a: &Claim<'_, '_>,
    b: &Claim<'_, '_>,
) -> Result<Verdict, AllocError>
    ensures { IfOk result (λ v. v ≡ crs_verdict (claim a.now) (claim b.now)) }
{
    let mut scratch = Scratch::new(alloc);
    let mut other = Scratch::new(alloc);
    let x = form_said(alloc, a.crs, &mut scratch)?;
    let y = form_said(alloc, b.crs, &mut other)?;
    match (x, y) {
        (None, None) => Ok(Verdict::Agree),
        (None, Some(_)) => Ok(verdict_of_unknown(b.is_default)),
        (Some(_), None) => Ok(verdict_of_unknown(a.is_default)),
        (Some(x), Some(y)) => verdict_of(alloc, &x, &y),
    }
}

/// Returns the form of a CRS, where it is known. Errs only when out of memory.
pub(crate) fn form_said<'v, 'a: 's, 's>(
    alloc: Global,
    crs: Crs<'v, 'a>,
    scratch: &'s mut Scratch,
) -> Result<Option<CrsForm<'v, 'a, 's>>, AllocError>
    ensures { IfOk result (λ o. option_map form_view o ≡ form_said (said crs.entry)) }
{
    match crs {
        Crs::Unknown => Ok(None),
        Crs::Value(value) => Ok(Some(form_of(alloc, value, scratch)?)),
        Crs::Srid(value) => Ok(Some(CrsForm::Number(value))),
    }
}

/// What is said of a CRS that is not known, and one that is.
fn verdict_of_unknown(is_default: bool) -> Verdict
    ensures { result ≡ verdict_of_unknown is_default }
{
    if is_default {
        Verdict::NotCompared
    } else {
        Verdict::Contradict
    }
}

/// Returns what the rows of the table say of two known CRSs, the first that applies. Errs only when
/// out of memory.
fn verdict_of(
    alloc: Global,
    x: &CrsForm<'_, '_, '_>,
    y: &CrsForm<'_, '_, '_>,
) -> Result<Verdict, AllocError>
    ensures { IfOk result (λ v. v ≡ verdict_of (form_view x.now) (form_view y.now)) }
{
    let a = identifiers(alloc, x)?;
    let b = identifiers(alloc, y)?;
    if share_identifier(a.as_slice(), b.as_slice()) || are_equal(alloc, x, y)? {
        return Ok(Verdict::Agree);
    }
    if share_authority(a.as_slice(), b.as_slice()) {
        return Ok(Verdict::Contradict);
    }
    if classes_differ(form_class(x), form_class(y)) {
        return Ok(Verdict::Contradict);
    }
    Ok(Verdict::NotCompared)
}
