//! How the walk over the structures of a schema ended (`native/records.c`).
ghost use Rattle.std.specs.Prelude.{◌≡◌, ◌<◌, ◌≤◌, MatchOption};
ghost use Rattle.column_files.specs.Refusals.{told};
ghost use Rattle.geoarrow_c.specs.Walks.{walk_number, walk_message, walk_wanted, walk_told, place_in};

use column_files::{Fault, Place};

/// Why no records are made of structures.
#[derive(Clone, Copy, Debug, PartialEq, Eq)]
pub(crate) enum WalkRule {
    /// There are at most 4,000,000 structures, and 2^28 bytes of records.
    Size,
    /// A structure lies in no more than 63.
    Depth,
    /// A structure is not NULL.
    Null,
    /// A structure is not released.
    Released,
    /// A format is not NULL.
    Format,
    /// A number of children is 0 to 2^28.
    Count,
    /// Children are not NULL where there are some.
    Children,
    /// Numbers in metadata are not negative.
    Metadata,
}

impl WalkRule {
    /// What is wrong where the rule is broken.
    fn message(self) -> &'static str
        ensures { result.now ≡ walk_message self }
    {
        match self {
            WalkRule::Size => "more than 4000000 structures, or than 2^28 bytes of texts",
            WalkRule::Depth => "structures that are nested too deep",
            WalkRule::Null => "a structure that is NULL",
            WalkRule::Released => "a structure that is released",
            WalkRule::Format => "a format that is NULL",
            WalkRule::Count => "a number of children that is negative, or more than 2^28",
            WalkRule::Children => "children that are NULL",
            WalkRule::Metadata => "a negative number in metadata",
        }
    }

    /// What the rule asks.
    fn wanted(self) -> &'static str
        ensures { result.now ≡ walk_wanted self }
    {
        match self {
            WalkRule::Size => "at most 4000000 structures, and 2^28 bytes of texts",
            WalkRule::Depth => "at most 61 levels",
            WalkRule::Null => "a structure",
            WalkRule::Released => "a structure that is not released",
            WalkRule::Format => "a format string of Arrow's C data interface",
            WalkRule::Count => "0 to 2^28 children",
            WalkRule::Children => "a list of as many children",
            WalkRule::Metadata => "counts and lengths that are not negative",
        }
    }

    /// Returns the fault of a schema that breaks the rule there.
    pub(crate) fn fault(self, place: Place) -> Fault<'static>
        ensures { told result ≡ walk_told self place }
    {
        Fault {
            code: "BadSchema",
            place,
            found: self.message(),
            expected: self.wanted(),
            help: None,
        }
    }
}

/// How the walk ended.
#[derive(Clone, Copy, Debug, PartialEq, Eq)]
pub(crate) enum Walk {
    /// The records are those of all structures.
    Done,
    /// Out of memory.
    OutOfMemory,
    /// A rule is broken.
    Broken(WalkRule),
}

/// Returns what a number says of the walk, that of `enum records_status` (`native/records.h`).
pub(crate) fn walk_of(number: u8) -> Option<Walk>
    ensures { MatchOption result (9 < number) (λ walk. (number ≡ walk_number walk) × (number ≤ 9)) }
{
    match number {
        0 => Some(Walk::Done),
        1 => Some(Walk::OutOfMemory),
        2 => Some(Walk::Broken(WalkRule::Size)),
        3 => Some(Walk::Broken(WalkRule::Depth)),
        4 => Some(Walk::Broken(WalkRule::Null)),
        5 => Some(Walk::Broken(WalkRule::Released)),
        6 => Some(Walk::Broken(WalkRule::Format)),
        7 => Some(Walk::Broken(WalkRule::Count)),
        8 => Some(Walk::Broken(WalkRule::Children)),
        9 => Some(Walk::Broken(WalkRule::Metadata)),
        _ => None,
    }
}

/// Returns the place of a column, of which there is none where the number is negative.
pub(crate) fn place_in(column: i64) -> Place
    ensures { result ≡ place_in column }
{
    match u64::try_from(column) {
        Ok(index) => Place::Column(index),
        Err(_) => Place::File,
    }
}
