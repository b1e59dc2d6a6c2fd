//! Laws of the canonical field.
ghost use Rattle.port_laws.specs.Canonical.{HasOneCanonical, IsItsOwnCanonical, IsAnsweredAgain};

use geoarrow_layout::one_kind;

/// A law: `canonical_field` of `geoarrow_schema` has one answer for a field: two fields that its
/// contract allows are equal. There is no need to run this.
pub fn canonical_field_is_one()
    ensures { HasOneCanonical }
{
    one_kind();
}

/// A law: the canonical field of a canonical field is itself, where the CRS value of the first
/// field is nested at most 100 levels. It is answered: it has a GeoArrow name, and is refused only
/// out of memory. There is no need to run this.
pub fn canonical_field_is_its_own()
    ensures own { IsItsOwnCanonical }
    ensures answered { IsAnsweredAgain }
{
    one_kind();
}
