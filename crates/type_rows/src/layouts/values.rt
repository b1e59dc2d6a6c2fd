//! Commands that spell, compare and make values of `arrow_values`.
use crate::layouts::unions::ids;
use arrow_values::{Field, UnionFields};
use rows::asked::Asked;
use rows::notation;
use rows::said::Said;
use rows::texts::halves;
use std::mem::ManuallyDrop;

/// Says the answer to a command about values.
pub fn answer(it: &mut Asked<'_>) {
    match it.command {
        "equal" => equal(it),
        "UnionFields::try_new" => made(it),
        _ => spelled(it),
    }
}

/// Says the line of the field that a text spells, or how its data type is printed.
fn spelled(it: &mut Asked<'_>) {
    let field = notation::spelled(&mut it.said, it.text);
    if it.command == "printed" {
        it.said.name(field.data_type());
    } else {
        it.said.line(&field);
    }
}

/// Says whether two data types are equal, which are not cloned, since that takes more stack.
fn equal(it: &mut Asked<'_>) {
    let (one, other) = halves(&mut it.said, it.text);
    let one = notation::data_type(&mut it.said, one);
    let other = notation::data_type(&mut it.said, other);
    it.said.truth(*one == *other);
}

/// So many fields.
fn fields(said: &mut Said, count: &str) -> Vec<Field> {
    let mut fields = ManuallyDrop::new(Vec::new(said.alloc));
    for _ in 0..said.found(count.parse::<usize>().ok(), 0) {
        let field = notation::spelled(said, "m");
        said.put(&mut fields, ManuallyDrop::into_inner(field));
    }
    ManuallyDrop::into_inner(fields)
}

/// Makes a union of these ids and of so many fields, and says so, or what the refusal prints.
fn made(it: &mut Asked<'_>) {
    let (wanted, count) = halves(&mut it.said, it.text);
    let fields = fields(&mut it.said, count);
    let type_ids = ids(&mut it.said, wanted);
    it.before();
    let found = ManuallyDrop::new(UnionFields::try_new(it.alloc, type_ids, fields));
    it.after();
    match &*found {
        Ok(_) => it.said.push("made"),
        Err(error) => it.said.refusal(error),
    }
}
