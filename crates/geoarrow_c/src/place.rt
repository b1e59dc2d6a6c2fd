//! Which column of a schema a record is in.
ghost use Rattle.std.specs.Prelude.{◌≡◌, ◌≤◌, ◌<◌, ◌+◌, ◌^◌, drop, IfOk};
ghost use Rattle.record_wire.specs.Fault.{Returns};
ghost use Rattle.geoarrow_c.specs.Places.{level_at, place_by, step, place_from, place_at};

use column_files::Place;
use record_wire::{Rule, head_at, number_at};

/// The bytes behind so many.
fn behind(count: usize, bytes: &[u8]) -> &[u8]
    ensures { result.now ≡ drop count bytes.now }
{
    match bytes.get(count..) {
        Some(rest) => rest,
        None => &[],
    }
}

/// The level of the record at the front of the bytes, and the bytes behind it.
#[tactic(auto, unfolding(crate::specs::Places::level_at))]
fn level_at(bytes: &[u8]) -> Result<(u32, &[u8]), Rule>
    ensures { Returns (λ x. (x.0, x.1.now)) result (level_at bytes.now) }
{
    let (size, _) = number_at(bytes)?;
    let (level, _) = number_at(behind(16, bytes))?;
    Ok((level, behind(size as usize, bytes)))
}

/// The column of a record of that level, behind so many columns.
fn place_by(level: u32, before: u64) -> Place
    ensures { result ≡ place_by level before }
{
    if level == 0 {
        Place::File
    } else {
        Place::Column(before)
    }
}

/// How many columns stand before the next record, and its bytes; or the column that is looked for.
#[tactic(auto, unfolding(crate::specs::Places::step))]
fn step(left: usize, before: u64, bytes: &[u8]) -> Result<(u64, &[u8]), Place>
    requires { before < 2 ^ 32 }
    ensures is { Returns (λ x. (x.0, x.1.now)) result (step left before bytes.now) }
    ensures next { IfOk result (λ x. x.0 ≤ before + 1) }
{
    let Ok((level, rest)) = level_at(bytes) else {
        return Err(Place::File);
    };
    if bytes.len() <= left {
        return Err(place_by(level, before));
    }
    if level == 1 {
        Ok((before + 1, rest))
    } else {
        Ok((before, rest))
    }
}

/// Of so many records the column of the one that begins where so many bytes are left.
#[tactic(auto, using(crate::proofs::Placed::begins, crate::proofs::Placed::goes_on, crate::proofs::Placed::is_there, crate::proofs::Placed::is_nowhere))]
fn place_from(count: u32, left: usize, bytes: &[u8]) -> Place
    ensures { result ≡ place_from count left 0 bytes.now }
{
    let mut before = 0;
    let mut rest = bytes;
    'records: for _i in 0..count {
        match step(left, before, rest) {
            Ok((more, others)) => {
                before = more;
                rest = others;
            }
            Err(place) => return place,
        }
    }
    Place::File
}

/// Returns the column of the record that begins where so many bytes are left, if it is in one.
pub(crate) fn place_at(records: &[u8], left: usize) -> Place
    ensures { result ≡ place_at records.now left }
{
    match head_at(records) {
        Ok((count, rest)) => place_from(count, left, rest),
        Err(_) => Place::File,
    }
}
