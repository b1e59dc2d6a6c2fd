//! Warnings at the end of a way.
ghost use Rattle.std.specs.Prelude.{None, ◌≡◌, ◌++◌, ◌∷◌, [], if◌then◌else◌, map, IfOk, OnOk, string_bytes};
ghost use Rattle.column_check.specs.Said.{said};
ghost use Rattle.column_check.specs.Parts.{spot_at};
ghost use Rattle.column_check.specs.Walk.{names_on, shown_text, spot_if, telling, tell, tell_all, told};

use crate::code::WarningCode;
use crate::excerpt::{names_shown, type_shown};
use crate::warning::Warning;
use arrow_columns::TypeRef;
use std::alloc::{AllocError, Global};

/// The way from a column down to where a warning is.
#[derive(Clone, Copy)]
pub(crate) enum Way<'a> {
    /// None: it is of the column itself.
    Column,
    /// A way, and from its end to a child field of that name.
    Below(&'a Way<'a>, &'a str),
}

/// What is shown at the end of a way.
#[derive(Clone, Copy)]
pub(crate) enum Shown<'a> {
    /// A type, by its notation.
    Notation(TypeRef<'a>),
    /// A word.
    Word(&'a str),
    /// Names, with commas between them.
    Listed(&'a [&'a str]),
}

/// What a walk may still tell of one code.
#[derive(Drop)]
pub(crate) struct Rest {
    /// How many warnings before the last one.
    pub(crate) room: usize,
    /// The last one, once there is no room: it counts those behind it.
    pub(crate) last: Option<Warning>,
}

impl Rest {
    /// Sixteen, of which none is told.
    pub(crate) fn sixteen() -> Rest
        ensures room { result.room ≡ 15 }
        ensures last { result.last ≡ None }
    {
        Rest {
            room: 15,
            last: None,
        }
    }
}

/// Adds the last one behind the others.
pub(crate) fn finish(warnings: &mut Vec<Warning>, rest: Rest) -> Result<(), AllocError>
    ensures { OnOk result (map said warnings.new.items ≡ told (telling warnings.old.items rest)) }
{
    if let Some(last) = rest.last {
        warnings.push(last)?;
    }
    Ok(())
}

/// Tells of the end of a way, if the test holds.
pub(crate) fn tell_if(
    alloc: Global,
    warnings: &mut Vec<Warning>,
    rest: &mut Rest,
    code: WarningCode,
    way: &Way,
    shown: Shown,
    holds: bool,
) -> Result<(), AllocError>
    ensures { OnOk result (telling warnings.new.items rest.new ≡ tell_all code (telling warnings.old.items rest.old) (spot_if holds (names_on way.now) (shown_text shown.entry))) }
{
    if !holds {
        return Ok(());
    }
    let warning = warning_at(alloc, code, way, shown)?;
    tell(warnings, rest, warning)
}

/// Tells a warning, or counts it where there is no room.
pub(crate) fn tell(
    warnings: &mut Vec<Warning>,
    rest: &mut Rest,
    warning: Warning,
) -> Result<(), AllocError>
    ensures { OnOk result (telling warnings.new.items rest.new ≡ tell (telling warnings.old.items rest.old) (said warning)) }
{
    if let Some(last) = &mut rest.last {
        last.more = last.more.saturating_add(1);
        return Ok(());
    }
    if rest.room == 0 {
        rest.last = Some(warning);
    } else {
        rest.room -= 1;
        warnings.push(warning)?;
    }
    Ok(())
}

/// A warning of the end of a way.
fn warning_at(
    alloc: Global,
    code: WarningCode,
    way: &Way,
    shown: Shown,
) -> Result<Warning, AllocError>
    ensures { IfOk result (λ warning. said warning ≡ (code, spot_at (names_on way.now) (shown_text shown.entry), 0)) }
{
    let mut path = Vec::new(alloc);
    push_names(alloc, &mut path, way)?;
    let found = text_of(alloc, shown)?;
    Ok(Warning {
        code,
        path,
        pointer: None,
        found: Some(found),
        wanted: None,
        more: 0,
    })
}

/// The text of what is shown.
fn text_of(alloc: Global, shown: Shown) -> Result<String, AllocError>
    ensures { IfOk result (λ text. string_bytes text ≡ shown_text shown.entry) }
{
    match shown {
        Shown::Notation(column_type) => type_shown(alloc, column_type),
        Shown::Word(word) => String::from_str(alloc, word),
        Shown::Listed(names) => names_shown(alloc, names),
    }
}

/// Adds the names on a way, copied.
fn push_names(alloc: Global, path: &mut Vec<String>, way: &Way) -> Result<(), AllocError>
    ensures { OnOk result (map string_bytes path.new.items ≡ map string_bytes path.old.items ++ names_on way.now) }
{
    if let Way::Below(above, name) = way {
        push_names(alloc, path, above)?;
        path.push(String::from_str(alloc, name)?)?;
    }
    Ok(())
}
