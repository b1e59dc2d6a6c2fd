//! Laws of columns that are made: functions whose contract is the law.
ghost use Rattle.geoarrow_layout.specs.declared.native_kinds.Kind.{Kind};
ghost use Rattle.geoarrow_layout.specs.Layouts.{layout};
ghost use Rattle.geoarrow_layout.specs.Shapes.{Accepted};
ghost use Rattle.field_makers.specs.Laws.{MadeIsCanonical, MadeIsFound, NothingIsFound, OnlyNotesAreFound, ToldFits};

use canonical_columns::laws::canonical_keeps_warnings;
use column_check::laws::{kind_or_fault, metadata_is_unique};
use geoarrow_layout::{Kind, kind_is_listed, layout_reads_back, names_are_distinct, one_kind};

/// A law: what `inspect_column` says of a column that is made is that it holds geometries of
/// exactly the kind, the CRS as it is written, the CRS type and the edges that it is made of; so it
/// is with inference and without. There is no need to run this.
pub fn made_is_found()
    ensures { MadeIsFound }
{
    layouts_read_back();
    names_are_distinct();
    one_kind();
    kind_or_fault();
    metadata_is_unique();
}

/// A law: a column that is made is its own normal form. There is no need to run this.
pub fn made_is_canonical()
    ensures { MadeIsCanonical }
{
    layouts_read_back();
}

/// A law: of a column that is made `warnings` of `column_check` finds nothing, where the CRS and its
/// type go together: the CRS is no empty text, it has the form of its type and is no WKT 1, or has
/// a known form where there is no type, and where it is PROJJSON, no part of it is wrong. With
/// notes, the first number in the CRS that is not whole is found, and that alone. There is no need
/// to run this.
pub fn nothing_is_found()
    ensures notes { OnlyNotesAreFound }
    ensures nothing { NothingIsFound }
{
    made_is_found();
    made_is_canonical();
    canonical_keeps_warnings();
}

/// A law: the CRS type that `told_crs_type` tells is that of the form of the CRS, where that form
/// is a known one. There is no need to run this.
pub fn told_type_fits()
    ensures { ToldFits }
{}

/// A law: the data type that is written for a kind is of that kind.
fn layouts_read_back()
    ensures { (k : Kind) → Accepted k (layout k) }
{
    kind_is_listed();
    for kind in &Kind::ALL {
        layout_reads_back(*kind);
    }
}
