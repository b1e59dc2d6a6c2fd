//! The members of a union, read.
ghost use Rattle.std.specs.Prelude.{◌≡◌, ◌==◌, length, slice_get, option_map};
ghost use Rattle.std.specs.Iterator.{YieldsFirstBy, item_count};
ghost use Rattle.arrow_values.specs.View.{member_of_ref};
ghost use Rattle.arrow_values.specs.Union.{union_rest};

use crate::tree::{Field, UnionFields};

/// The members of a union in order, each a pair of type id and field.
#[derive(Drop)]
pub struct UnionIter<'a> {
    rest: &'a [(i8, Field)],
}

impl<'a> Iterator for UnionIter<'a> {
    type Item = (i8, &'a Field);

    ghost next_gives = { YieldsFirstBy member_of_ref union_rest };

    ghost remaining = { item_count union_rest };

    fn next(&mut self) -> Option<(i8, &'a Field)> {
        let (first, rest) = self.rest.split_first()?;
        self.rest = rest;
        Some((first.0, &first.1))
    }
}

impl UnionFields {
    /// How many members there are.
    pub fn len(&self) -> usize
        ensures { result ≡ length self.now }
    {
        self.members.len()
    }

    /// Whether there are none.
    pub fn is_empty(&self) -> bool
        ensures { result ≡ (length self.now == 0) }
    {
        self.members.is_empty()
    }

    /// The members, in order.
    pub fn iter(&self) -> UnionIter<'_>
        ensures { union_rest result ≡ self.now }
    {
        UnionIter {
            rest: self.members.as_slice(),
        }
    }

    /// The member at an index, from 0; `None` past the last.
    pub fn get(&self, index: usize) -> Option<(i8, &Field)>
        ensures { option_map member_of_ref result ≡ slice_get self.now index }
    {
        self.members.get(index).map(|member| (member.0, &member.1))
    }

    /// The members as a slice.
    pub fn as_slice(&self) -> &[(i8, Field)]
        ensures { result.now ≡ self.now }
    {
        self.members.as_slice()
    }
}
