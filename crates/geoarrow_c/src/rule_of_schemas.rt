//! Whether a structure that lies in memory is that of a schema.
ghost use Rattle.std.specs.Prelude.{◌≡◌, ◌⊎◌, ◌↔◌, ◌<◌, Some, IfOk};
ghost use Rattle.geoarrow_c.specs.SchemaRule.{told_schema, Tells};

use crate::status::{DONE, MEMORY, UNKNOWN};
use crate::walk::{Walk, walk_of};
use record_columns::{RecordsError, is_schema};
use std::alloc::{AllocError, Global};

/// Tells whether a structure is that of a schema, or is refused, by its record. Errs only when out
/// of memory.
fn is_schema_in(
    alloc: Global,
    may_have_name: bool,
    bytes: &[u8],
    walk: Walk,
) -> Result<bool, AllocError>
    ensures { IfOk result (λ is. told_schema may_have_name bytes.now walk ≡ Some is) }
{
    match walk {
        Walk::Done => match is_schema(alloc, bytes, may_have_name) {
            Ok(is) => Ok(is),
            Err(RecordsError::Fault(_)) => Ok(true),
            Err(RecordsError::OutOfMemory) => Err(AllocError),
        },
        Walk::OutOfMemory => Err(AllocError),
        Walk::Broken(_) => Ok(true),
    }
}

/// Tells by the record of one structure, which the bytes are, over which the walk ended so, whether
/// it is that of a schema (docs/FORMAT.md, 6.6): writes 1 to `is` if it is, or is refused, and 0 if
/// it is that of a column. That of a schema may have a name where `may_have_name` is not 0.
///
/// Returns 0; or 2 when out of memory, also where the walk was, and 3 where the number is that of
/// no walk, with `is` unchanged.
#[unsafe(no_mangle)]
pub extern "C" fn schema_rule(
    alloc: Global,
    may_have_name: u8,
    walk: u8,
    bytes: &[u8],
    is: &mut u8,
) -> u8
    ensures done { result ≡ 0 → Tells may_have_name bytes.now walk is.new }
    ensures unchanged { (result ≡ 2) ⊎ (result ≡ 3) → is.new ≡ is.old }
    ensures unknown { (result ≡ 3) ↔ (9 < walk) }
    ensures status { (result ≡ 0) ⊎ (result ≡ 2) ⊎ (result ≡ 3) }
{
    let Some(walk) = walk_of(walk) else {
        return UNKNOWN;
    };
    match is_schema_in(alloc, may_have_name != 0, bytes, walk) {
        Ok(found) => {
            *is = if found { 1 } else { 0 };
            DONE
        }
        Err(AllocError) => MEMORY,
    }
}
