//! Laws of format strings: functions with nothing to run, whose contract is the law.
ghost use Rattle.std.specs.Prelude.{◌≡◌, Some};
ghost use Rattle.arrow_values.specs.Tree.{Text};
ghost use Rattle.arrow_kinds.specs.declared.kind.Named as named;
ghost use Rattle.format_strings.specs.Formats.{Said, format_of, IsFormat};
ghost use Rattle.format_strings.specs.Reading.{said_in};
ghost use Rattle.format_strings.specs.Notations.{IsNotation, notation_in};

/// Says that what is written is read as the same kind, time zone and type ids. There is nothing to
/// run.
pub fn written_is_read()
    ensures { (s : Said) (text : Text) → format_of s ≡ Some text → said_in text ≡ Some s }
{}

/// Says that just the format strings are read, each as what it says. There is nothing to run.
pub fn reading_is_exact()
    ensures all { (text : Text) (s : Said) → IsFormat text s → said_in text ≡ Some s }
    ensures only { (text : Text) (s : Said) → said_in text ≡ Some s → IsFormat text s }
{}

/// Says that just the notations of types that format strings say are read, each as its kind and its
/// time zone. There is nothing to run.
pub fn notations_are_exact()
    ensures all { (text : Text) (kind : named.Named) (zone : Text) → IsNotation text kind zone
        → notation_in text ≡ Some (kind, zone) }
    ensures only { (text : Text) (kind : named.Named) (zone : Text)
        → notation_in text ≡ Some (kind, zone) → IsNotation text kind zone }
{}
