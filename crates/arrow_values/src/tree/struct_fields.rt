//! The fields of a struct.
ghost use Rattle.std.specs.Prelude.{◌≡◌, ◌==◌, length, slice_get, option_map};
ghost use Rattle.std.specs.Slice.Iter.{iter_rest};

use crate::tree::{Field, Fields};
use std::slice;

impl From<Vec<Field>> for Fields {
    ghost from_gives = { λ v fs. fs ≡ v.items };

    fn from(members: Vec<Field>) -> Fields {
        Fields { members }
    }
}

impl Fields {
    /// How many fields there are.
    pub fn len(&self) -> usize
        ensures { result ≡ length self.now }
    {
        self.members.len()
    }

    /// Whether there are none.
    pub fn is_empty(&self) -> bool
        ensures { result ≡ (length self.now == 0) }
    {
        self.members.is_empty()
    }

    /// The fields, in order.
    pub fn iter(&self) -> slice::Iter<'_, Field>
        ensures { iter_rest result ≡ self.now }
    {
        self.members.iter()
    }

    /// The field at an index, from 0; `None` past the last.
    pub fn get(&self, index: usize) -> Option<&Field>
        ensures { option_map (λ f. f.now) result ≡ slice_get self.now index }
    {
        self.members.get(index)
    }

    /// The fields as a slice.
    pub fn as_slice(&self) -> &[Field]
        ensures { result.now ≡ self.now }
    {
        self.members.as_slice()
    }
}
