//! Members of objects of JSON.
ghost use Rattle.std.specs.Prelude.{◌≡◌, OnOk};

use json::Writer;
use std::alloc::AllocError;

/// Writes a member whose value is a string.
pub(crate) fn put_text(out: &mut Writer, key: &str, text: &str) -> Result<(), AllocError>
    ensures { OnOk result (out.new.before ≡ out.old.before) }
{
    out.key(key)?;
    out.string(text)
}

/// Writes a member whose value is a number.
pub(crate) fn put_number(out: &mut Writer, key: &str, number: u64) -> Result<(), AllocError>
    ensures { OnOk result (out.new.before ≡ out.old.before) }
{
    out.key(key)?;
    out.u64(number)
}
