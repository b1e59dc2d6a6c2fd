//! The numbers of coordinates in a type, whatever types there are in it.
ghost use Rattle.std.specs.Prelude.{◌≡◌, ◌++◌, map, OnOk};
ghost use Rattle.arrow_columns.specs.Types.{part_trees};
ghost use Rattle.arrow_columns.specs.Column.{type_tree};
ghost use Rattle.column_check.specs.Said.{said};
ghost use Rattle.column_check.specs.Warnings.{number_warnings};
ghost use Rattle.column_check.specs.Walk.{names_on, part_spots, numbers_found, numbers_below, telling, tell_all};

use crate::code::WarningCode;
use crate::walk::{Sought, push_found, tell_number};
use crate::warning::Warning;
use crate::way::{Rest, Way, finish};
use arrow_columns::{AnyType, Form, ListForm, Part};
use std::alloc::{AllocError, Global};

/// Adds that warning of each number of the coordinates in a column's type of which it holds: at most
/// sixteen, of which the last counts those behind it.
pub(crate) fn push_numbers(
    alloc: Global,
    warnings: &mut Vec<Warning>,
    code: WarningCode,
    column_type: &AnyType,
) -> Result<(), AllocError>
    ensures { OnOk result (map said warnings.new.items ≡ map said warnings.old.items ++ number_warnings code (type_tree column_type.now)) }
{
    let mut rest = Rest::sixteen();
    push_in(alloc, warnings, &mut rest, code, &Way::Column, column_type)?;
    finish(warnings, rest)?;
    Ok(())
}

/// Adds one of each number in the type at the end of a way.
#[cycle(numbers)]
fn push_in(
    alloc: Global,
    warnings: &mut Vec<Warning>,
    rest: &mut Rest,
    code: WarningCode,
    way: &Way,
    column_type: &AnyType,
) -> Result<(), AllocError>
    ensures { OnOk result (telling warnings.new.items rest.new ≡ tell_all code (telling warnings.old.items rest.old) (numbers_found code (names_on way.now) (type_tree column_type.now))) }
{
    let other = match column_type {
        AnyType::Data(data_type) => {
            return push_found(alloc, warnings, rest, Sought::Numbers(code), way, data_type);
        }
        AnyType::Other(other) => other,
    };
    match other.form {
        Form::List(ListForm::Fixed(_)) | Form::Struct => {
            tell_parts(alloc, warnings, rest, code, way, other.parts.as_slice())
        }
        Form::List(_) => push_parts(alloc, warnings, rest, code, way, other.parts.as_slice()),
        _ => Ok(()),
    }
}

/// Adds one of each number in parts of the type at the end of a way.
#[cycle(numbers)]
fn push_parts(
    alloc: Global,
    warnings: &mut Vec<Warning>,
    rest: &mut Rest,
    code: WarningCode,
    way: &Way,
    parts: &[Part],
) -> Result<(), AllocError>
    ensures { OnOk result (telling warnings.new.items rest.new ≡ tell_all code (telling warnings.old.items rest.old) (numbers_below code (names_on way.now) (part_trees parts.now))) }
{
    for part in parts {
        let here = Way::Below(&*way, part.name());
        push_in(alloc, warnings, rest, code, &here, part.data_type())?;
    }
    Ok(())
}

/// Tells of parts that are numbers of which that warning holds.
fn tell_parts(
    alloc: Global,
    warnings: &mut Vec<Warning>,
    rest: &mut Rest,
    code: WarningCode,
    way: &Way,
    parts: &[Part],
) -> Result<(), AllocError>
    ensures { OnOk result (telling warnings.new.items rest.new ≡ tell_all code (telling warnings.old.items rest.old) (part_spots code (names_on way.now) (part_trees parts.now))) }
{
    for part in parts {
        let found = part.data_type().as_ref();
        tell_number(alloc, warnings, rest, code, way, part.name(), found)?;
    }
    Ok(())
}
