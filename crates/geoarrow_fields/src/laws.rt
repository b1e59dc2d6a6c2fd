//! Laws of the answers: functions with nothing to run, whose contract is the law.
ghost use Rattle.std.specs.Prelude.{◌≡◌, ◌++◌, List, length, Some, codes};
ghost use Rattle.arrow_values.specs.Tree.{FieldTree};
ghost use Rattle.geoarrow_layout.specs.declared.native_kinds.Kind.{Kind};
ghost use Rattle.geoarrow_layout.specs.Layouts.{layout};
ghost use Rattle.geoarrow_meta.specs.Written.{NestsWithin};
ghost use Rattle.geoarrow_schema.specs.declared.types.GeoArrowType.{GeoArrowType};
ghost use Rattle.geoarrow_schema.specs.Types.{meta_of};
ghost use Rattle.geoarrow_schema.specs.Reads.{Reads};
ghost use Rattle.geoarrow_schema.specs.Normal.{IsCanonical};
ghost use Rattle.geoarrow_columns.specs.declared.check.Column.{Column};
ghost use Rattle.geoarrow_columns.specs.Report.{IsColumnOf, IsReport};
ghost use Rattle.geoarrow_columns.specs.Same.{SameColumn};
ghost use Rattle.field_lines.specs.Line.{field_of_line, line_of_field};
ghost use Rattle.field_lines.specs.LineForm.{HasLineForm};
ghost use Rattle.geoarrow_fields.specs.declared.Command.{Command};
ghost use Rattle.geoarrow_fields.specs.declared.Command.TheVariants.{Read, Canon};
ghost use Rattle.geoarrow_fields.specs.declared.RunEnd.TheVariants.{Done, InputFault};
ghost use Rattle.geoarrow_fields.specs.Lines.{Bytes, lines_of, IsLine, IsPastLimit};
ghost use Rattle.geoarrow_fields.specs.Answer.{Answers, AnswersUntil, Means, SameReport};

use field_lines::laws::{
    held_reads_back, line_reads_back, put_is_held, read_field_is_held, read_is_held,
};
use geoarrow_layout::{kind_is_listed, one_kind};

/// A law: a line can represent the data type that is written for each of the 68 kinds. There is nothing to run.
#[tactic(auto, using(crate::proofs::Layouts::layout_form))]
pub fn layouts_have_line_form()
    ensures { (k : Kind) → HasLineForm (layout k) }
{}

/// A law: the line of the canonical field of a field that a line denotes denotes that canonical field. There is nothing to run.
#[tactic(auto, using(crate::proofs::Canon::canonical_back))]
pub fn canonical_line_reads_back()
    ensures { (line : Bytes) (f n : FieldTree) → field_of_line line ≡ Some f → IsCanonical f n
        → field_of_line (line_of_field n) ≡ Some n }
{
    kind_is_listed();
    put_is_held();
    read_is_held();
    held_reads_back();
    read_field_is_held();
    line_reads_back();
}

/// A law: where a line denotes a field that is read as a type, and its CRS is nested at most 100 levels, the answer of `canon` to
/// the line is the answer of `canon` to itself, and `read` answers it as it answers the line. There is nothing to run.
#[tactic(auto, using(crate::proofs::Canon::canon_again))]
pub fn canon_is_closed()
    ensures { (line answer : Bytes) (f : FieldTree) (g : GeoArrowType) → field_of_line line ≡ Some f → Reads f g
        → NestsWithin 100 (meta_of g).crs.value → Answers Canon line answer
        → Answers Canon answer answer × ((text : Bytes) → Answers Read line text → Answers Read answer text) }
{
    canonical_line_reads_back();
    read_is_held();
    held_reads_back();
    read_field_is_held();
    one_kind();
}

/// A law: an answer holds no line feed. So in a run that is done, as many lines go out as came in. There is nothing to run.
#[tactic(auto, using(crate::proofs::Canon::answer_line, crate::proofs::Canon::as_many))]
pub fn answer_is_one_line()
    ensures line { (command : Command) (line answer : Bytes) → Answers command line answer → IsLine answer }
    ensures run { (command : Command) (input output : Bytes) → Means command Done input output
        → length (lines_of output) ≡ length (lines_of input) }
{
    kind_is_listed();
    put_is_held();
    read_is_held();
    held_reads_back();
    read_field_is_held();
}

/// A law: a line has one answer under a command, so a run that is done has one output; and fields have one report on their
/// columns. There is nothing to run.
#[tactic(auto, using(crate::proofs::OneAnswer::one_answer, crate::proofs::OneAnswer::one_done, crate::proofs::OneAnswer::one_column, crate::proofs::OneAnswer::one_report))]
pub fn answer_is_unique()
    ensures line { (command : Command) (line a b : Bytes) → Answers command line a → Answers command line b → a ≡ b }
    ensures run { (command : Command) (input x y : Bytes) → Means command Done input x → Means command Done input y
        → x ≡ y }
    ensures column { (f : FieldTree) (c d : Column) → IsColumnOf f c → IsColumnOf f d → SameColumn c d }
    ensures report { (fs : List FieldTree) (cs ds : List Column) → IsReport fs cs → IsReport fs ds → SameReport cs ds }
{
    one_kind();
}

/// A law: where an input exceeds a limit, what is written for it is written for each input that
/// begins so, in whatever pieces it is read and however far. There is nothing to run.
#[tactic(auto, using(crate::proofs::Limits::fault_longer))]
pub fn past_limit_in_any_chunks()
    ensures { (command : Command) (input more output : Bytes)
        → AnswersUntil IsPastLimit command (codes "error input\n") input output
        → Means command InputFault (input ++ more) output }
{}
