//! Format strings without parameters.
ghost use Rattle.std.specs.Prelude.{◌≡◌, option_map};
ghost use Rattle.std.specs.List.{find};
ghost use Rattle.format_strings.specs.Formats.{data_word, with_unit, interval_word, named_word};
ghost use Rattle.format_strings.specs.Formats.{list_word, word_of};
ghost use Rattle.format_strings.specs.Reading.{is_word, plain_kinds, timed_kinds, nested_kinds};
ghost use Rattle.format_strings.specs.Reading.{word_kind};

use arrow_columns::ListForm;
use arrow_kinds::{Kind, Named};
use arrow_values::DataType;

/// Returns the kind of a plain type.
fn plain_kind(text: &str) -> Option<Kind>
    ensures { result ≡ find (is_word text.now) plain_kinds }
{
    match text {
        "n" => Some(Kind::Plain(DataType::Null)),
        "b" => Some(Kind::Plain(DataType::Boolean)),
        "c" => Some(Kind::Plain(DataType::Int8)),
        "C" => Some(Kind::Plain(DataType::UInt8)),
        "s" => Some(Kind::Plain(DataType::Int16)),
        "S" => Some(Kind::Plain(DataType::UInt16)),
        "i" => Some(Kind::Plain(DataType::Int32)),
        "I" => Some(Kind::Plain(DataType::UInt32)),
        "l" => Some(Kind::Plain(DataType::Int64)),
        "L" => Some(Kind::Plain(DataType::UInt64)),
        "e" => Some(Kind::Plain(DataType::Float16)),
        "f" => Some(Kind::Plain(DataType::Float32)),
        "g" => Some(Kind::Plain(DataType::Float64)),
        "z" => Some(Kind::Plain(DataType::Binary)),
        "Z" => Some(Kind::Plain(DataType::LargeBinary)),
        "vz" => Some(Kind::Plain(DataType::BinaryView)),
        "u" => Some(Kind::Plain(DataType::Utf8)),
        "U" => Some(Kind::Plain(DataType::LargeUtf8)),
        "vu" => Some(Kind::Plain(DataType::Utf8View)),
        "tdD" => Some(Kind::Plain(DataType::Date32)),
        "tdm" => Some(Kind::Plain(DataType::Date64)),
        _ => None,
    }
}

/// Returns the kind of a time of day, a duration or an interval.
fn timed_kind(text: &str) -> Option<Kind>
    ensures { result ≡ find (is_word text.now) timed_kinds }
{
    match text {
        "tts" => Some(Kind::Named(Named::Time(0))),
        "ttm" => Some(Kind::Named(Named::Time(1))),
        "ttu" => Some(Kind::Named(Named::Time(2))),
        "ttn" => Some(Kind::Named(Named::Time(3))),
        "tDs" => Some(Kind::Named(Named::Duration(0))),
        "tDm" => Some(Kind::Named(Named::Duration(1))),
        "tDu" => Some(Kind::Named(Named::Duration(2))),
        "tDn" => Some(Kind::Named(Named::Duration(3))),
        "tiM" => Some(Kind::Named(Named::Interval(0))),
        "tiD" => Some(Kind::Named(Named::Interval(1))),
        "tin" => Some(Kind::Named(Named::Interval(2))),
        _ => None,
    }
}

/// Returns the kind of a nested type.
fn nested_kind(text: &str) -> Option<Kind>
    ensures { result ≡ find (is_word text.now) nested_kinds }
{
    match text {
        "+l" => Some(Kind::List(ListForm::Small)),
        "+L" => Some(Kind::List(ListForm::Large)),
        "+vl" => Some(Kind::ListView),
        "+vL" => Some(Kind::LargeListView),
        "+s" => Some(Kind::Struct),
        "+m" => Some(Kind::Map),
        "+r" => Some(Kind::RunEndEncoded),
        _ => None,
    }
}

/// Returns the kind of a format string that has no parameters.
#[tactic(auto, unfolding(crate::specs::Reading::word_kind))]
pub(crate) fn word_kind(text: &str) -> Option<Kind>
    ensures { result ≡ word_kind text.now }
{
    if let Some(kind) = plain_kind(text) {
        return Some(kind);
    }
    if let Some(kind) = timed_kind(text) {
        return Some(kind);
    }
    nested_kind(text)
}

/// Returns the format string of a plain type.
fn data_word(data_type: &DataType) -> Option<&'static str>
    ensures { option_map (λ w. w.now) result ≡ data_word data_type.now }
{
    match data_type {
        DataType::Null => Some("n"),
        DataType::Boolean => Some("b"),
        DataType::Int8 => Some("c"),
        DataType::UInt8 => Some("C"),
        DataType::Int16 => Some("s"),
        DataType::UInt16 => Some("S"),
        DataType::Int32 => Some("i"),
        DataType::UInt32 => Some("I"),
        DataType::Int64 => Some("l"),
        DataType::UInt64 => Some("L"),
        DataType::Float16 => Some("e"),
        DataType::Float32 => Some("f"),
        DataType::Float64 => Some("g"),
        DataType::Binary => Some("z"),
        DataType::LargeBinary => Some("Z"),
        DataType::BinaryView => Some("vz"),
        DataType::Utf8 => Some("u"),
        DataType::LargeUtf8 => Some("U"),
        DataType::Utf8View => Some("vu"),
        DataType::Date32 => Some("tdD"),
        DataType::Date64 => Some("tdm"),
        _ => None,
    }
}

/// Returns the format string of a time of day, a duration or an interval.
fn named_word(named: Named) -> Option<&'static str>
    ensures { option_map (λ w. w.now) result ≡ named_word named }
{
    match named {
        Named::Time(0) => Some("tts"),
        Named::Time(1) => Some("ttm"),
        Named::Time(2) => Some("ttu"),
        Named::Time(3) => Some("ttn"),
        Named::Duration(0) => Some("tDs"),
        Named::Duration(1) => Some("tDm"),
        Named::Duration(2) => Some("tDu"),
        Named::Duration(3) => Some("tDn"),
        Named::Interval(0) => Some("tiM"),
        Named::Interval(1) => Some("tiD"),
        Named::Interval(2) => Some("tin"),
        _ => None,
    }
}

/// Returns the format string of a kind that needs no parameters.
pub(crate) fn word_of(kind: &Kind) -> Option<&'static str>
    ensures { option_map (λ w. w.now) result ≡ word_of kind.now }
{
    match kind {
        Kind::Plain(data_type) => data_word(data_type),
        Kind::Named(named) => named_word(*named),
        Kind::List(ListForm::Small) => Some("+l"),
        Kind::List(ListForm::Large) => Some("+L"),
        Kind::ListView => Some("+vl"),
        Kind::LargeListView => Some("+vL"),
        Kind::Struct => Some("+s"),
        Kind::Map => Some("+m"),
        Kind::RunEndEncoded => Some("+r"),
        Kind::List(ListForm::Fixed(_)) | Kind::Union(_) => None,
    }
}
