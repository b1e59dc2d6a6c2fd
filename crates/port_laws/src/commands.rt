//! Laws of the four commands: how their answers to one line go together (docs/FORMAT.md, 2.2).
ghost use Rattle.std.specs.Prelude.{◌≡◌, ◌≢◌, ◌⊎◌, ◌↔◌, Some, codes};
ghost use Rattle.arrow_values.specs.Tree.{FieldTree};
ghost use Rattle.geoarrow_meta.specs.Written.{NestsWithin};
ghost use Rattle.geoarrow_schema.specs.declared.types.GeoArrowType.{GeoArrowType};
ghost use Rattle.geoarrow_schema.specs.Types.{meta_of};
ghost use Rattle.geoarrow_schema.specs.Reads.{Reads};
ghost use Rattle.geoarrow_schema.specs.Normal.{normal_of};
ghost use Rattle.geoarrow_columns.specs.declared.check.ColumnFault.{ColumnFault};
ghost use Rattle.field_lines.specs.Line.{field_of_line};
ghost use Rattle.geoarrow_fields.specs.declared.Command.{Command};
ghost use Rattle.geoarrow_fields.specs.declared.Command.TheVariants.{Read, Infer, Canon, Columns};
ghost use Rattle.geoarrow_fields.specs.Lines.{Bytes};
ghost use Rattle.geoarrow_fields.specs.Answer.{Answers, error_text};
ghost use Rattle.port_laws.specs.Commands.{IsTypeText, IsFieldLine, IsUnnamed, SaysGeometry, SaysNoType, geometry, inferred, answer_of_form};

use geoarrow_fields::laws::canon_is_closed;

/// A law: `read` answers the four parts of a type exactly where `columns` answers `geometry` and
/// these; `none` exactly where it answers `inferred` and a type, `other`, or `faulty arrow` of a
/// field without a GeoArrow name; `error invalid` exactly where it answers `faulty invalid`;
/// and `error arrow` exactly where it answers `faulty arrow` of a field with a name. There is no
/// need to run this.
pub fn read_and_columns()
    ensures types { (line a : Bytes) → (Answers Read line a × IsTypeText a)
        ↔ Answers Columns line (geometry a) }
    ensures none { (line r c : Bytes) → Answers Read line r → Answers Columns line c
        → (r ≡ codes "none") ↔ SaysNoType line c }
    ensures invalid { (line : Bytes) → Answers Read line (codes "error invalid")
        ↔ Answers Columns line (codes "faulty invalid") }
    ensures arrow { (line : Bytes) → Answers Read line (codes "error arrow")
        ↔ (Answers Columns line (codes "faulty arrow") × ¬ IsUnnamed line) }
    ensures field { (line : Bytes) → Answers Read line (codes "error field")
        ↔ Answers Columns line (codes "error field") }
{}

/// A law: `infer` answers what `read` does, unless that is `none`, which `infer` never answers;
/// and `read` answers `none` exactly to a line of a field without a GeoArrow name, so to each
/// other line both answer the same. There is no need to run this.
pub fn infer_and_read()
    ensures unless { (line r : Bytes) → Answers Read line r → r ≢ codes "none"
        → Answers Infer line r }
    ensures alike { (line a : Bytes) → ¬ IsUnnamed line
        → Answers Infer line a ↔ Answers Read line a }
    ensures none { (line : Bytes) → Answers Read line (codes "none") ↔ IsUnnamed line }
    ensures never { (line : Bytes) → ¬ Answers Infer line (codes "none") }
{}

/// A law: `infer` answers the four parts of a type exactly where `columns` answers `geometry` or
/// `inferred` and these; `error invalid` exactly where it answers `other` or `faulty invalid`; and
/// `error arrow` exactly where it answers `faulty arrow`. There is no need to run this.
pub fn infer_and_columns()
    ensures types { (line a : Bytes) → (Answers Infer line a × IsTypeText a)
        ↔ (Answers Columns line (geometry a) ⊎ Answers Columns line (inferred a)) }
    ensures invalid { (line : Bytes) → Answers Infer line (codes "error invalid")
        ↔ (Answers Columns line (codes "other") ⊎ Answers Columns line (codes "faulty invalid")) }
    ensures arrow { (line : Bytes) → Answers Infer line (codes "error arrow")
        ↔ Answers Columns line (codes "faulty arrow") }
    ensures field { (line : Bytes) → Answers Infer line (codes "error field")
        ↔ Answers Columns line (codes "error field") }
{}

/// A law: `canon` answers the line of a field exactly where `read` answers the four parts of a
/// type; `none`, and each error, exactly where `read` does. There is no need to run this.
pub fn canon_and_read()
    ensures lines { (line a r : Bytes) → Answers Canon line a → Answers Read line r
        → IsFieldLine a ↔ IsTypeText r }
    ensures none { (line : Bytes) → Answers Canon line (codes "none")
        ↔ Answers Read line (codes "none") }
    ensures errors { (line : Bytes) (fault : ColumnFault) → Answers Canon line (error_text fault)
        ↔ Answers Read line (error_text fault) }
    ensures field { (line : Bytes) → Answers Canon line (codes "error field")
        ↔ Answers Read line (codes "error field") }
{}

/// A law: `canon` answers the line of a field exactly where `columns` answers `geometry` and the
/// four parts of a type; `none`, and each error, exactly where `read` does, as `read_and_columns`
/// says it. There is no need to run this.
pub fn canon_and_columns()
    ensures lines { (line a c : Bytes) → Answers Canon line a → Answers Columns line c
        → IsFieldLine a ↔ SaysGeometry c }
    ensures none { (line a c : Bytes) → Answers Canon line a → Answers Columns line c
        → (a ≡ codes "none") ↔ SaysNoType line c }
    ensures invalid { (line : Bytes) → Answers Canon line (codes "error invalid")
        ↔ Answers Columns line (codes "faulty invalid") }
    ensures arrow { (line : Bytes) → Answers Canon line (codes "error arrow")
        ↔ (Answers Columns line (codes "faulty arrow") × ¬ IsUnnamed line) }
    ensures field { (line : Bytes) → Answers Canon line (codes "error field")
        ↔ Answers Columns line (codes "error field") }
{}

/// A law: `canon` answers the line of a field exactly where `infer` answers the four parts of a
/// type to a line of a field with a GeoArrow name; `none` exactly to a line of a field without
/// one; and to each other line the errors of `infer`. There is no need to run this.
pub fn canon_and_infer()
    ensures lines { (line a i : Bytes) → Answers Canon line a → Answers Infer line i
        → IsFieldLine a ↔ (IsTypeText i × ¬ IsUnnamed line) }
    ensures none { (line : Bytes) → Answers Canon line (codes "none") ↔ IsUnnamed line }
    ensures errors { (line : Bytes) (fault : ColumnFault) → ¬ IsUnnamed line
        → Answers Canon line (error_text fault) ↔ Answers Infer line (error_text fault) }
    ensures field { (line : Bytes) → Answers Canon line (codes "error field")
        ↔ Answers Infer line (codes "error field") }
{}

/// A law: to the line that `canon` answers, `read` and `infer` answer the four parts of the normal
/// form of the type that was read, `columns` answers `geometry` and these, and `canon` answers it
/// itself, if the CRS value is nested at most 100 levels. There is no need to run this.
pub fn canonical_line_is_the_normal_form()
    ensures { (line answer : Bytes) (f : FieldTree) (g : GeoArrowType) → field_of_line line ≡ Some f
        → Reads f g → NestsWithin 100 (meta_of g).crs.value → Answers Canon line answer
        → (command : Command)
        → Answers command answer (answer_of_form command answer (normal_of g)) }
{
    canon_is_closed();
}
