//! Laws of facts: functions with nothing to run, whose contract is the law.
ghost use Rattle.geoparquet.specs.FactLaws.{IsJudgedByFact, IsLayoutFound};

/// A law: the CRS by which a column with a member is judged is that which counts by its facts. There
/// is nothing to run.
pub fn columns_are_judged_by_facts()
    ensures { IsJudgedByFact }
{}

/// A law: `GeoLayout` is found of a column with a member exactly where its facts say that it has
/// another layout. There is nothing to run.
pub fn layouts_are_found_by_facts()
    ensures { IsLayoutFound }
{}
