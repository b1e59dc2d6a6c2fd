//! In what a file is not as another.
ghost use Rattle.std.specs.Prelude.{◌≡◌, ◌⊎◌, ◌↔◌, ◌<◌, ◌≤◌, None};
ghost use Rattle.std.specs.Str.{IsUtf8};
ghost use Rattle.geoarrow_c.specs.Buffer.{Fills, Lacks, Makes};
ghost use Rattle.geoarrow_c.specs.Refusals.{IsLineOfFile};
ghost use Rattle.geoarrow_c.specs.Same.{AreDifferences, IsFirstRefused, IsOtherRefused, IsUncompared};

use crate::buffer::fill;
use crate::refusal::refuse_file;
use crate::report::{name_if, options_of};
use crate::status::{FIRST_REFUSED, MEMORY, REFUSED, UNKNOWN};
use column_files::{FileFault, Form, form_of};
use same_columns::{SameFault, same_files};
use std::alloc::Global;

/// Writes in what the columns of a file are not those of the first, from the bytes of both, to the
/// front of `out`, and its length to `len`: a line of JSON for each difference, with its line feed,
/// and nothing where none is found (docs/FORMAT.md, 2.9). The options are those of
/// [`crate::geoarrow_report`]: 1, by which types are inferred, and 2, by which a CRS that is not
/// compared is told, since it is a note. `name` is the name that the lines give the other file, if
/// it has any bytes.
///
/// Returns 0; or 5 where the bytes of the other file are refused, and 6 where those of the first
/// are: the line that says why, with its line feed, stands in place of the differences
/// (docs/FORMAT.md, 2.8), that of the first without a name. Returns 1 where `out` is too small for
/// what would stand there: it is then unchanged, and `len` says what is needed; 2 when out of
/// memory, and 3 where the number is that of no options, or the name is not UTF-8, with both
/// unchanged.
#[unsafe(no_mangle)]
pub extern "C" fn geoarrow_same(
    alloc: Global,
    options: u8,
    first: &[u8],
    other: &[u8],
    name: &[u8],
    out: &mut [u8],
    len: &mut usize,
) -> u8
    ensures done { result ≡ 0 → Makes (AreDifferences options name.now first.now other.now) len.new (λ lines. Fills lines out.old out.new) }
    ensures refused { result ≡ 5 → Makes (IsOtherRefused name.now first.now other.now) len.new (λ line. Fills line out.old out.new) }
    ensures first_refused { result ≡ 6 → Makes (IsFirstRefused first.now) len.new (λ line. Fills line out.old out.new) }
    ensures short { result ≡ 1 → Makes (λ text. AreDifferences options name.now first.now other.now text ⊎ IsUncompared name.now first.now other.now text) len.new (λ text. Lacks text out.old out.new) }
    ensures unchanged { (result ≡ 2) ⊎ (result ≡ 3) → (out.new ≡ out.old) × (len.new ≡ len.old) }
    ensures unknown { (result ≡ 3) ↔ ((3 < options) ⊎ ¬ IsUtf8 name.now) }
    ensures status { (result ≤ 3) ⊎ (result ≡ 5) ⊎ (result ≡ 6) }
{
    let Some(asked) = options_of(options) else {
        return UNKNOWN;
    };
    let Ok(name) = str::from_utf8(name) else {
        return UNKNOWN;
    };
    let file = name_if(name);
    match same_files(alloc, file, first, other, asked) {
        Ok(lines) => fill(lines.as_bytes(), out, len),
        Err(SameFault::First(fault)) => refuse_first(alloc, form_of(first), fault, out, len),
        Err(SameFault::Other(fault)) => refuse_file(alloc, file, form_of(other), fault, out, len),
        Err(SameFault::OutOfMemory) => MEMORY,
    }
}

/// Writes the line that says why the first file is refused, as `refuse_file` does, with a status of
/// its own.
fn refuse_first(alloc: Global, form: Form, fault: FileFault, out: &mut [u8], len: &mut usize) -> u8
    ensures refused { result ≡ 6 → Makes (IsLineOfFile None form fault) len.new (λ line. Fills line out.old out.new) }
    ensures short { result ≡ 1 → Makes (IsLineOfFile None form fault) len.new (λ line. Lacks line out.old out.new) }
    ensures unchanged { result ≡ 2 → (out.new ≡ out.old) × (len.new ≡ len.old) }
    ensures status { (result ≡ 1) ⊎ (result ≡ 2) ⊎ (result ≡ 6) }
{
    let status = refuse_file(alloc, None, form, fault, out, len);
    if status == REFUSED {
        FIRST_REFUSED
    } else {
        status
    }
}
