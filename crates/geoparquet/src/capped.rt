//! Findings of one code in one column: sixteen at most.
ghost use Rattle.std.specs.Prelude.{◌≡◌, ◌++◌, IfOk, OnOk, map};
ghost use Rattle.geoparquet.specs.Capped.{standing_for, capped};
ghost use Rattle.geoparquet.specs.Findings.{finding};

use crate::finding::GeoFinding;
use std::alloc::AllocError;

/// How many findings of one code in one column are told one by one.
const MOST: usize = 16;

/// Returns a finding that stands for so many more.
fn standing_for(it: GeoFinding, more: usize) -> GeoFinding
    ensures { finding result ≡ standing_for more (finding it) }
{
    let GeoFinding {
        code,
        column,
        source,
        pointer,
        found,
        wanted,
        ..
    } = it;
    GeoFinding {
        code,
        column,
        source,
        pointer,
        found,
        wanted,
        more,
    }
}

/// Returns the first sixteen of some findings, the last of which stands for those that are left out,
/// or all where they are no more. Errs only when out of memory.
fn capped(findings: Vec<GeoFinding>) -> Result<Vec<GeoFinding>, AllocError>
    ensures { IfOk result (λ made. map finding made.items ≡ capped (map finding findings.items)) }
{
    if findings.len() <= MOST {
        return Ok(findings);
    }
    let more = findings.len() - MOST;
    let mut kept = findings;
    kept.truncate(MOST);
    match kept.pop() {
        Some(last) => {
            kept.push(standing_for(last, more))?;
            Ok(kept)
        }
        None => Ok(kept),
    }
}

/// Adds findings of one code in one column, sixteen at most. Errs only when out of memory.
pub(crate) fn add_capped(
    findings: &mut Vec<GeoFinding>,
    found: Vec<GeoFinding>,
) -> Result<(), AllocError>
    ensures { OnOk result (map finding findings.new.items ≡ map finding findings.old.items ++ capped (map finding found.items)) }
{
    let mut kept = capped(found)?;
    findings.append(&mut kept)
}
