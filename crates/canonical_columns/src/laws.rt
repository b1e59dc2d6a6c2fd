//! Laws of the normal form of columns: functions whose contract is the law.
ghost use Rattle.geoarrow_layout.specs.declared.native_kinds.Kind.{Kind};
ghost use Rattle.geoarrow_layout.specs.Shapes.{Accepted};
ghost use Rattle.geoarrow_layout.specs.Layouts.{layout};
ghost use Rattle.canonical_columns.specs.Laws.{HasOneCanonical, IsItsOwnCanonical, CanonicalIsFoundAlike, CanonicalKeepsWarnings, AgreesWithField, AgreesInValue, AnswerIsItsOwn};

use column_check::laws::{kind_or_fault, metadata_is_unique};
use geoarrow_layout::{Kind, kind_is_listed, layout_reads_back, names_are_distinct, one_kind};

/// A law: a column has one normal form. There is no need to run this.
pub fn one_canonical()
    ensures { HasOneCanonical }
{
    names_are_distinct();
    one_kind();
    kind_or_fault();
    metadata_is_unique();
}

/// A law: the normal form of a column is its own. There is no need to run this.
pub fn canonical_is_its_own()
    ensures { IsItsOwnCanonical }
{
    layouts_read_back();
}

/// A law: what `inspect_column` says of a column it says of its normal form, with inference and
/// without: the same kind, the same CRS as it is written, and the same edges. A CRS type is lost where
/// there is neither a CRS nor edges. There is no need to run this.
pub fn canonical_is_found_alike()
    ensures { CanonicalIsFoundAlike }
{
    names_are_distinct();
    one_kind();
    kind_or_fault();
    metadata_is_unique();
    layouts_read_back();
}

/// A law: what `warnings` of `column_check` finds of the normal form of geometries is what it finds of
/// the column, without the findings whose codes are about the form; of any other column all are left.
/// So it is with inference and without, with notes and without. There is no need to run this.
pub fn canonical_keeps_warnings()
    ensures { CanonicalKeepsWarnings }
{
    names_are_distinct();
    one_kind();
    kind_or_fault();
    metadata_is_unique();
}

/// A law: where `canonical_field` of `geoarrow_schema` answers a field, the normal form of the column of
/// the field that it was given is the column of the answer. That holds where each object in the CRS has
/// each key once, and its members in the order of their keys, as `canonical_field` writes them; so it
/// does where the CRS is a text. There is no need to run this.
pub fn agrees_with_field()
    ensures { AgreesWithField }
{
    names_are_distinct();
    one_kind();
    kind_or_fault();
    metadata_is_unique();
}

/// A law: however a CRS is spelled, where `canonical_field` of `geoarrow_schema` answers a field, the
/// normal form of the column is the column of the answer but for the text of its extension metadata, and
/// `serde_json` reads the same value of both texts, if it reads back what it prints of the metadata,
/// which it does where the CRS nests at most 100 levels. There is no need to run this.
pub fn agrees_in_value()
    ensures { AgreesInValue }
{
    names_are_distinct();
    one_kind();
    kind_or_fault();
    metadata_is_unique();
}

/// A law: the column of what `canonical_field` of `geoarrow_schema` answers is its own normal form, if
/// `serde_json` reads back what it prints of the metadata, as above. There is no need to run this.
pub fn answer_is_its_own()
    ensures { AnswerIsItsOwn }
{}

/// A law: the data type that is written for a kind is of that kind.
fn layouts_read_back()
    ensures { (k : Kind) → Accepted k (layout k) }
{
    kind_is_listed();
    for kind in &Kind::ALL {
        layout_reads_back(*kind);
    }
}
