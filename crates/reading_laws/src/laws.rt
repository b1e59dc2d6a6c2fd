//! How what is said of a column goes together with what its field is read as, or taken for:
//! functions whose contract is the law.
ghost use Rattle.std.specs.Prelude.{Bool};
ghost use Rattle.reading_laws.specs.Agrees.{AgreesWithType, IsReadWhereWhole, RefusesWithReading, PassesOverOldNames, ReadsNoOddText, AgreesWithInference, IsInferredWhereWhole, InfersNoOddText};

use arrow_values::Field;
use column_check::Finding;
use column_check::laws::{kind_or_fault, metadata_is_unique};
use geoarrow_layout::infer_kind;
use geoarrow_native::laws::reads_as_one_column;

/// A law: what is said of a column goes together with what `from_extension_field` of `geoarrow_schema` answers for its field.
/// Where that answers a type, the finding is its kind and the values of its metadata. Where the
/// finding is a kind, the field is read as that kind, unless it has what is refused there: an old
/// extension name, an empty metadata text, edges that are planar by name, or a number in the CRS that
/// is not whole. Where the finding is invalid under one of GeoArrow's names, the field is refused;
/// under any other name, an old one too, and under none, nothing is read. There is no need to run
/// this.
pub fn agrees_with_reading(field: &Field, _finding: &Finding)
    ensures types { (infer : Bool) → AgreesWithType infer _finding.now field.now }
    ensures whole { (infer : Bool) → IsReadWhereWhole infer _finding.now field.now }
    ensures refused { (infer : Bool) → RefusesWithReading infer _finding.now field.now }
    ensures old { PassesOverOldNames field.now }
    ensures odd { ReadsNoOddText field.now }
{
    reads_as_one_column(field);
    kind_or_fault();
    metadata_is_unique();
}

/// A law: what is said of a column goes together with what `from_arrow_field` of `geoarrow_schema`
/// infers for its field. Where that infers a type for a field without an extension name, and the
/// field's own name allows its kind (docs/FORMAT.md, 2.6), the finding, with inference, is its kind
/// and the values of its metadata. Where the finding is inferred, each number in the CRS is whole, and the metadata text is neither the
/// empty one nor one whose edges are planar by name, that kind is inferred for the field. With such a
/// metadata text nothing is inferred. There is no need to run this.
pub fn agrees_with_inference(field: &Field, _finding: &Finding)
    ensures types { AgreesWithInference _finding.now field.now }
    ensures whole { (infer : Bool) → IsInferredWhereWhole infer _finding.now field.now }
    ensures odd { InfersNoOddText field.now }
{
    infer_kind(field.data_type());
    metadata_is_unique();
}
