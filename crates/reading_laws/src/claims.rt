//! When what a file says of its geometry columns is sound.
ghost use Rattle.reading_laws.specs.Claims.{IsSoundWithoutErrors};

/// A law: where `inspect_geo` of `geoparquet` finds no error, the columns are sound. A value at the
/// key `geo` is then JSON: an object whose `columns` have members, of which `primary_column` names
/// one; each of them is an object, of one column and no other. What the element, the field and the
/// member of a column say goes together: two encodings and two edges are one, and two CRSs do not
/// contradict. So does what the element and the field of a column without a member say, whatever
/// stands at `geo`. There is no need to run this.
pub fn is_sound_without_errors()
    ensures { IsSoundWithoutErrors }
{}
