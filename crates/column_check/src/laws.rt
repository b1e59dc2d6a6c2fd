//! Laws of what is said of a column: functions whose contract is the law.
ghost use Rattle.std.specs.Prelude.{◌≡◌, Bool, true, Option, is_some};
ghost use Rattle.json.specs.Json.{Json};
ghost use Rattle.serde_json.specs.Read.{of_json};
ghost use Rattle.arrow_values.specs.Tree.{Text};
ghost use Rattle.arrow_columns.specs.Column.{column_tree, type_tree};
ghost use Rattle.arrow_columns.specs.Types.{TypeTree};
ghost use Rattle.geoarrow_layout.specs.declared.names.ExtensionName.{ExtensionName};
ghost use Rattle.geoarrow_layout.specs.declared.native_kinds.Kind.{Kind};
ghost use Rattle.geoarrow_meta.specs.Read.{some_has_float};
ghost use Rattle.column_check.specs.Metadata.{Values, TextDenotes, HasMetadataFault};
ghost use Rattle.column_check.specs.Types.{TypeAccepted, HasTypeFault, TypeInferred};
ghost use Rattle.column_check.specs.Finding.{IsFinding};
ghost use Rattle.column_check.specs.Unique.{SameFinding};
ghost use Rattle.column_check.specs.NotWhole.{first_not_whole};
ghost use Rattle.column_check.specs.declared.data_type.TypeFault.{TypeFault};
ghost use Rattle.column_check.specs.declared.metadata.MetadataFault.{MetadataFault};

use crate::finding::Finding;
use arrow_columns::{AnyType, SchemaColumn};
use geoarrow_layout::{infer_kind, names_are_distinct, no_fault_if_accepted, one_fault, one_kind};

/// A law: of a column one thing is said, with or without inference: two findings of it say the same. There is no need to run this.
pub fn finding_is_unique(column: &SchemaColumn, _one: &Finding, _other: &Finding)
    ensures { (infer : Bool) → IsFinding infer (column_tree column.now) _one.now → IsFinding infer (column_tree column.now) _other.now → SameFinding _one.now _other.now }
{
    names_are_distinct();
    one_kind();
    one_fault();
    no_fault_if_accepted();
    one_kind_inferred(&column.data_type);
}

/// A law: one kind is inferred from a type.
fn one_kind_inferred(column_type: &AnyType)
    ensures { (j k : Kind) → TypeInferred (type_tree column_type.now) j → TypeInferred (type_tree column_type.now) k → j ≡ k }
{
    if let AnyType::Data(data_type) = column_type {
        infer_kind(data_type);
    }
}

/// A law: a type that is of a kind under an extension name has no fault under it. There is no need to
/// run this.
pub fn kind_or_fault()
    ensures { (n : ExtensionName) (t : TypeTree) (k : Kind) (f : TypeFault) → TypeAccepted n t k → ¬ HasTypeFault n t f }
{
    no_fault_if_accepted();
}

/// A law: a metadata text denotes one set of values, and a text with a fault denotes none. There is
/// no need to run this.
#[tactic(auto, using(crate::proofs::Texts::one_values, crate::proofs::Texts::text_apart))]
pub fn metadata_is_unique()
    ensures values { (t : Option Text) (v w : Values) → TextDenotes t v → TextDenotes t w → v ≡ w }
    ensures values_or_fault { (t : Option Text) (f : MetadataFault) (v : Values) → HasMetadataFault t f → ¬ TextDenotes t v }
{}

/// A law: in a value that `serde_json` reads a number that is not whole is found if, and only if,
/// there is one. There is no need to run this.
#[tactic(auto, using(crate::proofs::NotWhole::is_found))]
pub fn not_whole_is_found()
    ensures { (place : Text) (j : Json) → is_some (of_json j) ≡ true → is_some (first_not_whole place j) ≡ some_has_float (of_json j) }
{}
