//! Values that a text spells, cloned and compared.
use crate::asked::Asked;
use crate::notation;
use crate::said::Said;
use crate::texts::{halves, is_line};
use arrow_values::{DataType, Field, Fields, UnionFields};
use std::alloc::AllocError;
use std::hash::{DefaultHasher, Hash, Hasher};
use std::mem::ManuallyDrop;

/// What is cloned and compared.
pub trait Compared {
    /// Whether a clone of the value of the first text is equal to that of the second, and where values of the type have hashes, so
    /// are theirs. The answer is lacking also where a text spells no value.
    fn are_equal(said: &mut Said, one: &str, other: &str) -> bool;
}

impl Compared for DataType {
    fn are_equal(said: &mut Said, one: &str, other: &str) -> bool {
        let one = notation::data_type(said, one);
        let other = notation::data_type(said, other);
        let clone = ManuallyDrop::new(one.try_clone(said.alloc));
        is_same(said, &clone, &other)
    }
}

/// The field that a text spells, in the notation or as a line of JSON.
fn field(said: &mut Said, text: &str) -> ManuallyDrop<Field> {
    if is_line(text) {
        return notation::field(said, text);
    }
    notation::spelled(said, text)
}

impl Compared for Field {
    fn are_equal(said: &mut Said, one: &str, other: &str) -> bool {
        let one = field(said, one);
        let other = field(said, other);
        let clone = ManuallyDrop::new(one.try_clone(said.alloc));
        is_same(said, &clone, &other)
    }
}

impl Compared for Fields {
    fn are_equal(said: &mut Said, one: &str, other: &str) -> bool {
        let one = notation::fields(said, one);
        let other = notation::fields(said, other);
        let clone = ManuallyDrop::new(one.try_clone(said.alloc));
        is_same(said, &clone, &other)
    }
}

impl Compared for UnionFields {
    fn are_equal(said: &mut Said, one: &str, other: &str) -> bool {
        let one = notation::members(said, one);
        let other = notation::members(said, other);
        let clone = ManuallyDrop::new(one.try_clone(said.alloc));
        is_same(said, &clone, &other)
    }
}

/// Whether a clone is equal to another value.
fn is_same<T: PartialEq>(said: &mut Said, clone: &Result<T, AllocError>, other: &T) -> bool {
    match clone {
        Ok(clone) => *clone == *other,
        Err(AllocError) => {
            said.fail();
            false
        }
    }
}

/// Whether a clone and its hash are equal to another value and to that one's.
pub fn is_same_hashed<T: PartialEq + Hash>(
    said: &mut Said,
    clone: &Result<T, AllocError>,
    other: &T,
) -> bool {
    let is_same = is_same(said, clone, other);
    match clone {
        Ok(clone) => is_same && hash_of(clone) == hash_of(other),
        Err(AllocError) => false,
    }
}

/// A hash.
fn hash_of<T: Hash>(hashed: &T) -> u64 {
    let mut state = DefaultHasher::new();
    hashed.hash(&mut state);
    state.finish()
}

/// Says whether each of the values with ` ; ` between them is equal to a clone of itself, and to none of the others.
pub fn distinct<T: Compared>(it: &mut Asked<'_>) {
    let mut at: usize = 0;
    for one in it.text.split(" ; ") {
        compare_one::<T>(&mut it.said, it.text, one, at);
        at = at.saturating_add(1);
    }
    if it.said.text.is_empty() {
        it.said.push("each is equal to itself alone");
    }
}

/// Compares one of the values, which is at that place, with each of them.
fn compare_one<T: Compared>(said: &mut Said, text: &str, one: &str, at: usize) {
    let mut other_at: usize = 0;
    for other in text.split(" ; ") {
        say_not_so::<T>(said, one, other, at == other_at);
        other_at = other_at.saturating_add(1);
    }
}

/// Says that a clone of one value is equal to the other, or is not, where that is not to be; nothing where something is said.
fn say_not_so<T: Compared>(said: &mut Said, one: &str, other: &str, are_same: bool) {
    if said.text.is_empty() && T::are_equal(said, one, other) != are_same {
        said.push("not so: ");
        said.push(one);
        said.push(" and ");
        said.push(other);
    }
}

/// Says whether the values with ` | ` between them are equal.
pub fn equal<T: Compared>(it: &mut Asked<'_>) {
    let (one, other) = halves(&mut it.said, it.text);
    let are_equal = T::are_equal(&mut it.said, one, other);
    it.said.truth(are_equal);
}
