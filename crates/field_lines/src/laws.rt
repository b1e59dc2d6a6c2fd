//! Laws of the line format: functions with nothing to run, whose contract is the law.
ghost use Rattle.std.specs.Prelude.{◌≡◌, ◌≢◌, ◌≤◌, ◌↔◌, Bool, Some, All, true, false};
ghost use Rattle.std.specs.Str.{is_utf8};
ghost use Rattle.serde_json.specs.Data.{Data, Members, put, depth};
ghost use Rattle.serde_json.specs.Read.{read, max_depth};
ghost use Rattle.serde_json.specs.Written.{compact_text, has_float};
ghost use Rattle.arrow_values.specs.Tree.{Text, Metadata, FieldTree, field_tree, plain, null};
ghost use Rattle.arrow_columns.specs.Column.{column_of};
ghost use Rattle.arrow_columns.specs.Types.{leaf};
ghost use Rattle.field_lines.specs.ColumnOfValue.{column_of_value};
ghost use Rattle.field_lines.specs.Held.{is_held, members_are_held};
ghost use Rattle.field_lines.specs.FieldOfValue.{field_of_value};
ghost use Rattle.field_lines.specs.Lean.{IsLean};
ghost use Rattle.field_lines.specs.LineForm.{HasLineForm};
ghost use Rattle.field_lines.specs.Line.{texts_value, value_of_field, other_value, line_of_field, field_of_line};

use arrow_values::Field;

/// A law: the value that is written for a field has no ignored key and no empty metadata, at any depth, and denotes
/// the field if a line can represent it. There is nothing to run.
#[tactic(auto, using(crate::proofs::Round::field_read))]
pub fn written_value_is_lean(field: &Field)
    ensures lean { IsLean (value_of_field field.now) }
    ensures stands { HasLineForm field.now.tree → field_of_value (value_of_field field.now) ≡ Some field.now }
{}

/// A law: the value that is written for a field of the type null denotes that field. There is nothing to run.
#[tactic(auto, using(crate::proofs::Round::null_read))]
pub fn written_null_is_read()
    ensures { (name : Text) (nullable : Bool) (m : Metadata) → field_of_value (value_of_field (field_tree name (plain null) nullable m)) ≡ Some (field_tree name (plain null) nullable m) }
{}

/// A law: a field is a column whose type is one of the 26. There is nothing to run.
pub fn field_is_column()
    ensures { (d : Data) (f : FieldTree) → (field_of_value d ≡ Some f) ↔ (column_of_value d ≡ Some (column_of f)) }
{}

/// A law: the value that is written for a column of another type denotes that column. There is nothing to run.
#[tactic(auto, using(crate::proofs::KnownTypes::other_read))]
pub fn written_other_is_read()
    ensures { (name notation : Text) (nullable : Bool) (m : Metadata) → column_of_value (other_value name notation nullable m)
        ≡ Some (record { name = name; data_type = leaf notation; nullable = nullable; metadata = m }) }
{}

/// A law: a value that has no ignored key and no empty metadata, at any depth, and denotes a field is the value that
/// is written for that field. There is nothing to run.
#[tactic(auto, using(crate::proofs::Lean::lean_value_is))]
pub fn lean_value_is_written(field: &Field)
    ensures { (d : Data) → IsLean d → field_of_value d ≡ Some field.now → d ≡ value_of_field field.now }
{}

/// A law: in each value that UTF-8 is read as, at any depth, the integers have 64 bits, texts and keys are UTF-8, and the keys
/// of an object ascend (`is_held`). There is nothing to run.
#[tactic(auto, using(crate::proofs::Held::read_held))]
pub fn read_is_held()
    ensures { (text : Text) (d : Data) → is_utf8 text ≡ true → read text ≡ Some d → is_held d ≡ true }
{}

/// A law: members of that form still have it if one is put among them. There is nothing to run.
#[tactic(auto, using(crate::proofs::Held::put_held))]
pub fn put_is_held()
    ensures { (k : Text) (d : Data) (ms : Members) → is_utf8 k ≡ true → is_held d ≡ true
        → members_are_held ms ≡ true → members_are_held (put k d ms) ≡ true }
{}

/// A law: the compact text of a value of that form is UTF-8 and holds no line feed; without a float, and nested at most 127
/// levels, it is read as that value. There is nothing to run.
#[tactic(auto, using(crate::proofs::Held::held_read_back, crate::proofs::Compact::compact_utf8, crate::proofs::Compact::compact_line))]
pub fn held_reads_back()
    ensures utf8 { (d : Data) → is_held d ≡ true → is_utf8 (compact_text d) ≡ true }
    ensures line { (d : Data) → is_held d ≡ true → All (λ b. b ≢ 10) (compact_text d) }
    ensures read { (d : Data) → is_held d ≡ true → has_float d ≡ false → depth d ≤ max_depth
        → read (compact_text d) ≡ Some d }
{}

/// A law: the line of a field is read as that field, if a line can represent it, the form of its value is that of one that
/// `serde_json` reads (`is_held`), and that value is nested at most 127 levels. There is nothing to run.
#[tactic(auto, using(crate::proofs::ReadBack::line_back))]
pub fn line_reads_back()
    ensures { (f : FieldTree) → HasLineForm f.tree → is_held (value_of_field f) ≡ true
        → depth (value_of_field f) ≤ max_depth → field_of_line (line_of_field f) ≡ Some f }
{}

/// A law: the name of a field that a line denotes is UTF-8, and so are its metadata texts, whose keys ascend. There is nothing to
/// run.
pub fn read_field_is_held()
    ensures { (line : Text) (f : FieldTree) → field_of_line line ≡ Some f
        → (is_utf8 f.name ≡ true) × (members_are_held (texts_value f.metadata) ≡ true) }
{}
