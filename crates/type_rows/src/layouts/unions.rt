//! Unions and type ids that a text spells. Where a text does not spell them, the answer is lacking.
use arrow_values::{DataType, UnionFields};
use rows::notation::{self, no_members};
use rows::said::Said;
use std::mem::ManuallyDrop;

/// The members of the union that a text spells.
pub fn members(said: &mut Said, text: &str) -> ManuallyDrop<UnionFields> {
    ManuallyDrop::new(
        match ManuallyDrop::into_inner(notation::data_type(said, text)) {
            DataType::Union(members, _) => members,
            _ => no_members(said),
        },
    )
}

/// The type ids that a text spells, with spaces between them.
pub fn ids(said: &mut Said, text: &str) -> Vec<i8> {
    let mut ids = Vec::new(said.alloc);
    for word in text.split_whitespace() {
        let id = said.found(word.parse::<i8>().ok(), 0);
        said.put(&mut ids, id);
    }
    ids
}
