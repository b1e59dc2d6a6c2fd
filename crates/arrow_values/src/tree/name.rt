//! The name of a field.
ghost use Rattle.std.specs.Prelude.{◌≡◌, IfOk, string_bytes};
ghost use Rattle.std.specs.Str.{bytes_eq};
ghost use Rattle.arrow_values.specs.Name.{name_bytes};

use crate::tree::fixed_name::FixedName;
use std::alloc::{AllocError, Global};
use std::fmt;

/// The name of a field: one that layouts have, which allocates nothing, or a text of its own. Contracts see the text
/// alone.
#[derive(Drop)]
pub(crate) enum Name {
    Fixed(FixedName),
    Owned(String),
}

impl Name {
    /// The text.
    #[inline(always)]
    pub(crate) fn as_str(&self) -> &str
        ensures { result.now ≡ name_bytes self.now }
    {
        match self {
            Name::Fixed(name) => name.as_text(),
            Name::Owned(text) => text.as_str(),
        }
    }

    /// The text, which is copied where it is one that layouts have. Errs only when out of memory.
    pub(crate) fn into_text(self, alloc: Global) -> Result<String, AllocError>
        ensures { IfOk result (λ text. string_bytes text ≡ name_bytes self) }
    {
        match self {
            Name::Fixed(name) => String::from_str(alloc, name.as_text()),
            Name::Owned(text) => Ok(text),
        }
    }

    /// An equal name. Errs only when out of memory, and never for a name that layouts have.
    pub(crate) fn try_clone(&self, alloc: Global) -> Result<Name, AllocError>
        ensures { IfOk result (λ n. name_bytes n ≡ name_bytes self.now) }
    {
        match self {
            Name::Fixed(name) => Ok(Name::Fixed(*name)),
            Name::Owned(text) => Ok(Name::Owned(String::from_str(alloc, text.as_str())?)),
        }
    }
}

/// Whether both are the same text.
#[inline(always)]
pub(crate) fn same_name(a: &Name, b: &Name) -> bool
    ensures { result ≡ bytes_eq (name_bytes a.now) (name_bytes b.now) }
{
    if let (Name::Fixed(x), Name::Fixed(y)) = (a, b) {
        if *x == *y {
            return true;
        }
    }
    same_text(a.as_str(), b.as_str())
}

#[inline(never)]
fn same_text(a: &str, b: &str) -> bool
    ensures { result ≡ bytes_eq a.now b.now }
{
    *a == *b
}

impl fmt::Debug for Name {
    fn fmt<W: fmt::Write>(&self, f: &mut fmt::Formatter<W>) -> fmt::Result {
        fmt::Debug::fmt(self.as_str(), f)
    }
}
