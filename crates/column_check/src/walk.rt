//! The walk down a data type, which adds a warning of each part that is looked for.
ghost use Rattle.std.specs.Prelude.{◌≡◌, ◌++◌, map, IfOk, OnOk};
ghost use Rattle.arrow_values.specs.View.{tree, field_trees, member_trees};
ghost use Rattle.arrow_columns.specs.Below.{ref_tree};
ghost use Rattle.geoarrow_layout.specs.Shapes.{names_of};
ghost use Rattle.column_check.specs.Said.{said};
ghost use Rattle.column_check.specs.Warnings.{has_extension_name};
ghost use Rattle.column_check.specs.Walk.{names_on, is_own, own_word, own_spots, goes_below, is_own_union, union_spots, axis_spots, number_spot, number_spots, found, found_of, found_among, found_at, code_of, sought_warnings, telling, tell_all};

use crate::code::WarningCode;
use crate::coordinates::{are_doubtful, is_doubtful_number};
use crate::old_names::current_name;
use crate::warning::Warning;
use crate::way::{Rest, Shown, Way, finish, tell_if};
use arrow_columns::TypeRef;
use arrow_values::{DataType, Field, UnionMode};
use geoarrow_layout::{ExtensionName, Kind};
use std::alloc::{AllocError, Global};

/// What is looked for in a data type.
#[derive(Clone, Copy)]
pub(crate) enum Sought {
    /// Separated coordinates and boxes of whose fields' names that warning holds, in a geometry of
    /// that kind.
    Axes(WarningCode, Kind),
    /// Numbers of coordinates and boxes of which that warning holds.
    Numbers(WarningCode),
    /// Fields and unions.
    Inner(Inner),
}

/// Which fields and unions are looked for.
#[derive(Clone, Copy)]
pub(crate) enum Inner {
    /// Fields with one of the eleven extension names, or an old one of them.
    Extensions,
    /// Nullable fields, below no such field, but for the members of unions.
    Nullables,
    /// Sparse unions.
    Unions,
}

/// Adds a warning of each part of a column's data type that is looked for, on the way to it: at
/// most sixteen, of which the last counts those behind it.
pub(crate) fn push_sought(
    alloc: Global,
    warnings: &mut Vec<Warning>,
    sought: Sought,
    data_type: &DataType,
) -> Result<(), AllocError>
    ensures { OnOk result (map said warnings.new.items ≡ map said warnings.old.items ++ sought_warnings sought (tree data_type.now)) }
{
    let mut rest = Rest::sixteen();
    push_found(alloc, warnings, &mut rest, sought, &Way::Column, data_type)?;
    finish(warnings, rest)?;
    Ok(())
}

/// Adds one of each part of the data type at the end of a way. A coordinate or a box has no other in it.
#[cycle(walk)]
pub(crate) fn push_found(
    alloc: Global,
    warnings: &mut Vec<Warning>,
    rest: &mut Rest,
    sought: Sought,
    way: &Way,
    data_type: &DataType,
) -> Result<(), AllocError>
    ensures { OnOk result (telling warnings.new.items rest.new ≡ tell_all (code_of sought) (telling warnings.old.items rest.old) (found sought (names_on way.now) (tree data_type.now))) }
{
    match data_type {
        DataType::List(item) | DataType::LargeList(item) => {
            push_at(alloc, warnings, rest, sought, way, item, item.is_nullable())
        }
        DataType::FixedSizeList(item, _) => match sought {
            Sought::Axes(..) => Ok(()),
            Sought::Numbers(code) => {
                let found = TypeRef::Data(item.data_type());
                tell_number(alloc, warnings, rest, code, way, item.name(), found)
            }
            Sought::Inner(_) => {
                push_at(alloc, warnings, rest, sought, way, item, item.is_nullable())
            }
        },
        DataType::Struct(fields) => match sought {
            Sought::Axes(code, kind) => {
                tell_axes(alloc, warnings, rest, code, kind, way, fields.as_slice())
            }
            Sought::Numbers(code) => {
                tell_numbers(alloc, warnings, rest, code, way, fields.as_slice())
            }
            Sought::Inner(_) => {
                push_fields(alloc, warnings, rest, sought, way, fields.as_slice())
            }
        },
        DataType::Union(members, mode) => {
            tell_union(alloc, warnings, rest, sought, way, *mode)?;
            push_members(alloc, warnings, rest, sought, way, members.as_slice())
        }
        _ => Ok(()),
    }
}

/// Adds one of each part of the fields of a struct at the end of a way.
#[cycle(walk)]
fn push_fields(
    alloc: Global,
    warnings: &mut Vec<Warning>,
    rest: &mut Rest,
    sought: Sought,
    way: &Way,
    fields: &[Field],
) -> Result<(), AllocError>
    ensures { OnOk result (telling warnings.new.items rest.new ≡ tell_all (code_of sought) (telling warnings.old.items rest.old) (found_of sought (names_on way.now) (field_trees fields.now))) }
{
    for field in fields {
        push_at(
            alloc,
            warnings,
            rest,
            sought,
            way,
            field,
            field.is_nullable(),
        )?;
    }
    Ok(())
}

/// Adds one of each part of the members of a union at the end of a way.
#[cycle(walk)]
fn push_members(
    alloc: Global,
    warnings: &mut Vec<Warning>,
    rest: &mut Rest,
    sought: Sought,
    way: &Way,
    members: &[(i8, Field)],
) -> Result<(), AllocError>
    ensures { OnOk result (telling warnings.new.items rest.new ≡ tell_all (code_of sought) (telling warnings.old.items rest.old) (found_among sought (names_on way.now) (member_trees members.now))) }
{
    for member in members {
        push_at(alloc, warnings, rest, sought, way, &member.1, false)?;
    }
    Ok(())
}

/// Adds one of a child field, if it is looked for, and those of the parts below it.
#[cycle(walk)]
fn push_at(
    alloc: Global,
    warnings: &mut Vec<Warning>,
    rest: &mut Rest,
    sought: Sought,
    way: &Way,
    field: &Field,
    nullable: bool,
) -> Result<(), AllocError>
    ensures { OnOk result (telling warnings.new.items rest.new ≡ tell_all (code_of sought) (telling warnings.old.items rest.old) (found_at sought (names_on way.now) nullable field.now)) }
{
    let here = Way::Below(&*way, field.name());
    tell_own(alloc, warnings, rest, sought, &here, field, nullable)?;
    if !goes_below(sought, nullable) {
        return Ok(());
    }
    push_found(alloc, warnings, rest, sought, &here, field.data_type())?;
    Ok(())
}

/// Tells of a separated coordinate or a box with these fields at the end of a way, if that warning
/// holds of their names.
fn tell_axes(
    alloc: Global,
    warnings: &mut Vec<Warning>,
    rest: &mut Rest,
    code: WarningCode,
    kind: Kind,
    way: &Way,
    fields: &[Field],
) -> Result<(), AllocError>
    ensures { OnOk result (telling warnings.new.items rest.new ≡ tell_all code (telling warnings.old.items rest.old) (axis_spots code kind (names_on way.now) (names_of (field_trees fields.now)))) }
{
    let names = names_of(alloc, fields)?;
    let holds = are_doubtful(code, kind, names.as_slice());
    let shown = Shown::Listed(names.as_slice());
    tell_if(alloc, warnings, rest, code, way, shown, holds)
}

/// The names of fields, in order.
fn names_of<'a>(alloc: Global, fields: &'a [Field]) -> Result<Vec<&'a str>, AllocError>
    ensures { IfOk result (λ names. map (λ name. name.now) names.items ≡ names_of (field_trees fields.now)) }
{
    let mut names = Vec::new(alloc);
    for field in fields {
        names.push(field.name())?;
    }
    Ok(names)
}

/// Tells of the numbers of a coordinate or a box at the end of a way of which that warning holds.
fn tell_numbers(
    alloc: Global,
    warnings: &mut Vec<Warning>,
    rest: &mut Rest,
    code: WarningCode,
    way: &Way,
    fields: &[Field],
) -> Result<(), AllocError>
    ensures { OnOk result (telling warnings.new.items rest.new ≡ tell_all code (telling warnings.old.items rest.old) (number_spots code (names_on way.now) (field_trees fields.now))) }
{
    for field in fields {
        let found = TypeRef::Data(field.data_type());
        tell_number(alloc, warnings, rest, code, way, field.name(), found)?;
    }
    Ok(())
}

/// Tells of a number of that name and that type below the end of a way, if that warning holds of it.
pub(crate) fn tell_number(
    alloc: Global,
    warnings: &mut Vec<Warning>,
    rest: &mut Rest,
    code: WarningCode,
    way: &Way,
    name: &str,
    found: TypeRef<'_>,
) -> Result<(), AllocError>
    ensures { OnOk result (telling warnings.new.items rest.new ≡ tell_all code (telling warnings.old.items rest.old) (number_spot code (names_on way.now) name.now (ref_tree found.entry))) }
{
    let here = Way::Below(&*way, name);
    let holds = is_doubtful_number(code, found);
    let shown = Shown::Notation(found);
    tell_if(alloc, warnings, rest, code, &here, shown, holds)
}

/// Tells of a field at the end of a way, if it is looked for.
fn tell_own(
    alloc: Global,
    warnings: &mut Vec<Warning>,
    rest: &mut Rest,
    sought: Sought,
    way: &Way,
    field: &Field,
    nullable: bool,
) -> Result<(), AllocError>
    ensures { OnOk result (telling warnings.new.items rest.new ≡ tell_all (code_of sought) (telling warnings.old.items rest.old) (own_spots sought (names_on way.now) nullable field.now.metadata)) }
{
    match sought {
        Sought::Axes(..) | Sought::Numbers(_) => Ok(()),
        Sought::Inner(part) => {
            let holds = is_own(part, field, nullable);
            let shown = Shown::Word(own_word(part, field));
            tell_if(alloc, warnings, rest, code_of(sought), way, shown, holds)
        }
    }
}

/// Tells of a union at the end of a way, if it is looked for.
fn tell_union(
    alloc: Global,
    warnings: &mut Vec<Warning>,
    rest: &mut Rest,
    sought: Sought,
    way: &Way,
    mode: UnionMode,
) -> Result<(), AllocError>
    ensures { OnOk result (telling warnings.new.items rest.new ≡ tell_all (code_of sought) (telling warnings.old.items rest.old) (union_spots sought (names_on way.now) mode)) }
{
    match sought {
        Sought::Axes(..) | Sought::Numbers(_) => Ok(()),
        Sought::Inner(part) => {
            let holds = is_own_union(part, mode);
            let shown = Shown::Word("sparse");
            tell_if(alloc, warnings, rest, code_of(sought), way, shown, holds)
        }
    }
}

/// The code of the warnings of what is looked for.
fn code_of(sought: Sought) -> WarningCode
    ensures { result ≡ code_of sought }
{
    match sought {
        Sought::Axes(code, _) | Sought::Numbers(code) => code,
        Sought::Inner(Inner::Extensions) => WarningCode::NestedGeometry,
        Sought::Inner(Inner::Nullables) => WarningCode::NullableInner,
        Sought::Inner(Inner::Unions) => WarningCode::UnionMode,
    }
}

/// Whether a field itself is looked for.
fn is_own(part: Inner, field: &Field, nullable: bool) -> bool
    ensures { result ≡ is_own part nullable field.now.metadata }
{
    match part {
        Inner::Extensions => has_extension_name(field),
        Inner::Nullables => nullable,
        Inner::Unions => false,
    }
}

/// What is shown of a field that is looked for.
fn own_word(part: Inner, field: &Field) -> &str
    ensures { result.now ≡ own_word part field.now.metadata }
{
    match part {
        Inner::Extensions => field.extension_type_name().unwrap_or(""),
        Inner::Nullables => "nullable",
        Inner::Unions => "",
    }
}

/// Whether the parts below a field are looked for.
fn goes_below(sought: Sought, nullable: bool) -> bool
    ensures { result ≡ goes_below sought nullable }
{
    match sought {
        Sought::Inner(Inner::Nullables) => !nullable,
        _ => true,
    }
}

/// Whether a union itself is looked for.
fn is_own_union(part: Inner, mode: UnionMode) -> bool
    ensures { result ≡ is_own_union part mode }
{
    match part {
        Inner::Unions => matches!(mode, UnionMode::Sparse),
        Inner::Extensions | Inner::Nullables => false,
    }
}

/// Whether a field has one of the eleven extension names, or an old one of them.
fn has_extension_name(field: &Field) -> bool
    ensures { result ≡ has_extension_name field.now.metadata }
{
    match field.extension_type_name() {
        Some(text) => ExtensionName::from_text(current_name(text)).is_some(),
        None => false,
    }
}
