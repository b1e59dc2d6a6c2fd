//! The report of a file.
ghost use Rattle.std.specs.Prelude.{◌≡◌, ◌⊎◌, ◌↔◌, ◌<◌, ◌≤◌, MatchOption};
ghost use Rattle.std.specs.Str.{IsUtf8};
ghost use Rattle.arrow_values.specs.Texts.{text_of};
ghost use Rattle.geoarrow_c.specs.Buffer.{Fills, Lacks, Makes};
ghost use Rattle.geoarrow_c.specs.Reports.{options_number, name_if, IsReport, IsRefusal};

use crate::buffer::fill;
use crate::refusal::refuse_file;
use crate::status::UNKNOWN;
use column_files::form_of;
use column_reports::{Options, report_file};
use std::alloc::Global;

/// The options of a number: 1 for types that are inferred, and 2 for notes.
pub(crate) fn options_of(number: u8) -> Option<Options>
    ensures { MatchOption result (3 < number) (λ options. (number ≡ options_number options) × (number ≤ 3)) }
{
    match number {
        0 => Some(options_with(false, false)),
        1 => Some(options_with(true, false)),
        2 => Some(options_with(false, true)),
        3 => Some(options_with(true, true)),
        _ => None,
    }
}

/// The options that infer types, or not, and have notes, or not.
fn options_with(infer: bool, notes: bool) -> Options
    ensures { (result.infer ≡ infer) × (result.notes ≡ notes) }
{
    Options { infer, notes }
}

/// The name of a file, if it has one.
pub(crate) fn name_if(name: &str) -> Option<&str>
    ensures { text_of result ≡ name_if name.now }
{
    if name.is_empty() { None } else { Some(name) }
}

/// Writes the report of a file, from its bytes, to the front of `out`, and its length to `len`:
/// what each of its columns holds, a line of JSON for each, with its line feed (docs/FORMAT.md,
/// 2.5). The options are 0, or a sum of 1, by which a column without an extension name is taken for
/// what is inferred from its data type, and 2, by which the notes stand among the warnings
/// (docs/FORMAT.md, 2.6). `name` is the name that the lines give the file, if it has any bytes.
/// Of a file of lines, a line that is no column has a line with `error` behind the columns
/// (docs/FORMAT.md, 2.8), and the others are columns.
///
/// Returns 0; or 5 where the bytes are refused: the line that says why, with its line feed, stands
/// in place of a report (docs/FORMAT.md, 2.8). Returns 1 where `out` is too small for what would
/// stand there: it is then unchanged, and `len` says what is needed; 2 when out of memory, and 3
/// where the number is that of no options, or the name is not UTF-8, with both unchanged.
#[unsafe(no_mangle)]
pub extern "C" fn geoarrow_report(
    alloc: Global,
    options: u8,
    name: &[u8],
    bytes: &[u8],
    out: &mut [u8],
    len: &mut usize,
) -> u8
    ensures done { result ≡ 0 → Makes (IsReport options name.now bytes.now) len.new (λ lines. Fills lines out.old out.new) }
    ensures refused { result ≡ 5 → Makes (IsRefusal options name.now bytes.now) len.new (λ line. Fills line out.old out.new) }
    ensures short { result ≡ 1 → Makes (λ text. IsReport options name.now bytes.now text ⊎ IsRefusal options name.now bytes.now text) len.new (λ text. Lacks text out.old out.new) }
    ensures unchanged { (result ≡ 2) ⊎ (result ≡ 3) → (out.new ≡ out.old) × (len.new ≡ len.old) }
    ensures unknown { (result ≡ 3) ↔ ((3 < options) ⊎ ¬ IsUtf8 name.now) }
    ensures status { (result ≤ 3) ⊎ (result ≡ 5) }
{
    let Some(asked) = options_of(options) else {
        return UNKNOWN;
    };
    let Ok(name) = str::from_utf8(name) else {
        return UNKNOWN;
    };
    let file = name_if(name);
    match report_file(alloc, file, bytes, asked) {
        Ok(report) => fill(report.as_bytes(), out, len),
        Err(fault) => refuse_file(alloc, file, form_of(bytes), fault, out, len),
    }
}
