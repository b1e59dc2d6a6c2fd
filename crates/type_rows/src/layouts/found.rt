//! The command that finds the fault of a data type, and where it is.
use arrow_values::DataType;
use geoarrow_layout::{ExtensionName, child_field, find_fault};
use rows::asked::Asked;
use rows::notation::data_type;
use rows::said::Said;
use rows::texts::first_word;
use std::alloc::AllocError;

/// Says the fault of a data type under a name, which is before it, and the path to the fault; `none` where there is none.
pub fn found(it: &mut Asked<'_>) {
    let (named, rest) = first_word(&mut it.said, it.text);
    let tree = data_type(&mut it.said, rest);
    let Some(name) = ExtensionName::from_text(named) else {
        return it.said.fail();
    };
    match &find_fault(it.alloc, name, &tree) {
        Ok(None) => it.said.push("none"),
        Ok(Some((path, fault))) => {
            it.said.name(fault);
            say_path(&mut it.said, path, &tree);
        }
        Err(AllocError) => it.said.fail(),
    }
}

/// Says each step of a path: the place and the name of the child field.
fn say_path(said: &mut Said, path: &[usize], tree: &DataType) {
    let Some((place, rest)) = path.split_first() else {
        return;
    };
    match child_field(tree, *place) {
        Some(field) => {
            said.push(" > ");
            said.shown(place);
            said.push(":");
            said.push(field.name());
            say_path(said, rest, field.data_type());
        }
        None => said.fail(),
    }
}
