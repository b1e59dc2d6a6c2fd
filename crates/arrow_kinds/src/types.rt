//! A column's type, from its kind and its children.
ghost use Rattle.std.specs.Prelude.{◌≡◌, IfOk, IsTrue, map, option_map, string_bytes};
ghost use Rattle.arrow_columns.specs.Column.{type_tree, column_tree};
ghost use Rattle.arrow_columns.specs.Nested.{only, list_type, all_known, known_fields, nested_type, struct_type};
ghost use Rattle.arrow_columns.specs.declared.other.Form.{Form};
ghost use Rattle.arrow_kinds.specs.Types.{timed_text, named_text, member_parts, union_type, others, type_of, dictionary_values, with_dictionary};

use crate::kind::{Index, Kind, Named};
use arrow_columns::{
    AnyType, Form, SchemaColumn, all_known, fields_of, list_type, member_notation, nested_notation,
    nested_type, only_column, parts_of, plain_name, sized_notation, struct_type, union_word,
};
use arrow_values::{DataType, UnionFields, UnionMode};
use std::alloc::{AllocError, Global};
use std::collections::BTreeMap;

/// What is made; only memory may lack.
type Made<T> = Result<T, AllocError>;

type Typed = Made<AnyType>;

/// A type of so many units, with a time zone where it has one.
fn timed_text(alloc: Global, word: &str, unit: usize, zone: &str) -> Made<String>
    ensures { IfOk result (λ text. string_bytes text ≡ timed_text word.now unit zone.now) }
{
    let unit = match unit {
        0 => "s",
        1 => "ms",
        2 => "us",
        _ => "ns",
    };
    if zone.is_empty() {
        return format!(in alloc; "{word}[{unit}]");
    }
    format!(in alloc; "{word}[{unit}, tz={zone}]")
}

/// The text of a type that has one in place of a data type.
#[inline(never)]
fn named_text(alloc: Global, named: Named, zone: &str) -> Made<String>
    ensures { IfOk result (λ text. string_bytes text ≡ named_text named zone.now) }
{
    match named {
        Named::Decimal(width, precision, scale) => {
            format!(in alloc; "decimal{width}({precision}, {scale})")
        }
        Named::Time(unit) if unit < 2 => timed_text(alloc, "time32", unit, ""),
        Named::Time(unit) => timed_text(alloc, "time64", unit, ""),
        Named::Timestamp(unit) => timed_text(alloc, "timestamp", unit, zone),
        Named::Duration(unit) => timed_text(alloc, "duration", unit, ""),
        Named::Interval(0) => String::from_str(alloc, "month_interval"),
        Named::Interval(1) => String::from_str(alloc, "day_time_interval"),
        Named::Interval(_) => String::from_str(alloc, "month_day_nano_interval"),
        Named::FixedSizeBinary(size) => sized_notation(alloc, "fixed_size_binary", size),
    }
}

/// The children as members of a notation, each with its type id.
#[tactic(auto, using(std::proofs::lemmas::List::map_push, std::proofs::lemmas::List::append_assoc))]
fn member_parts(alloc: Global, ids: &[i8], children: &[SchemaColumn]) -> Made<Vec<String>>
    ensures { IfOk result (λ parts. map string_bytes parts.items ≡ member_parts ids.now (map column_tree children.now)) }
{
    let mut parts = Vec::new(alloc);
    for (id, child) in ids.iter().zip(children) {
        let part = child.notation(alloc)?;
        parts.push(member_notation(alloc, part.as_str(), *id)?)?;
    }
    Ok(parts)
}

/// A union of children under type ids, which are 0 to 127, each once, and as many as the children.
fn union_type(alloc: Global, mode: UnionMode, ids: Vec<i8>, children: Vec<SchemaColumn>) -> Typed
    ensures { IfOk result (λ made. type_tree made ≡ union_type mode ids.items (map column_tree children.items)) }
{
    if !all_known(children.as_slice()) {
        let parts = member_parts(alloc, ids.as_slice(), children.as_slice())?;
        let text = nested_notation(alloc, union_word(mode), parts.as_slice())?;
        return nested_type(alloc, text, Form::Union(mode), ids, children);
    }
    let fields = fields_of(alloc, children)?;
    let members = UnionFields::try_new(alloc, ids, fields).or(Err(AllocError))?;
    Ok(AnyType::Data(DataType::Union(members, mode)))
}

/// A type of a form with so many children that is none of the 26.
fn others(
    alloc: Global,
    form: Form,
    word: &str,
    count: usize,
    children: Vec<SchemaColumn>,
) -> Made<Option<AnyType>>
    ensures { IfOk result (λ o. option_map type_tree o ≡ others form word.now count (map column_tree children.items)) }
{
    if children.len() != count {
        return Ok(None);
    }
    let parts = parts_of(alloc, children.as_slice())?;
    let text = nested_notation(alloc, word, parts.as_slice())?;
    Ok(Some(nested_type(alloc, text, form, Vec::new(alloc), children)?))
}

/// Returns the type of a kind; `None` where the number of children is wrong. Fails only out of memory.
#[tactic(auto, unfolding(crate::specs::Types::type_of))]
pub fn type_of(
    alloc: Global,
    kind: &Kind,
    zone: &str,
    ids: Vec<i8>,
    children: Vec<SchemaColumn>,
) -> Made<Option<AnyType>>
    ensures { IfOk result (λ o. option_map type_tree o ≡ type_of kind.now zone.now ids.items (map column_tree children.items)) }
{
    match kind {
        Kind::Plain(data_type) => Ok(Some(AnyType::Data(data_type.try_clone(alloc)?))),
        Kind::Named(named) => {
            let text = named_text(alloc, *named, zone)?;
            Ok(Some(AnyType::leaf(alloc, text)))
        }
        Kind::List(form) => match only_column(children) {
            Some(child) => Ok(Some(list_type(alloc, *form, child)?)),
            None => Ok(None),
        },
        Kind::Struct => Ok(Some(struct_type(alloc, children)?)),
        Kind::Union(mode) => Ok(Some(union_type(alloc, *mode, ids, children)?)),
        Kind::Map => others(alloc, Form::Map, "map", 1, children),
        Kind::RunEndEncoded => others(alloc, Form::RunEndEncoded, "run_end_encoded", 2, children),
        Kind::ListView => others(alloc, Form::ListView, "list_view", 1, children),
        Kind::LargeListView => others(alloc, Form::LargeListView, "large_list_view", 1, children),
    }
}

/// The values of a dictionary as a column.
fn dictionary_values(alloc: Global, data_type: AnyType) -> Made<SchemaColumn>
    ensures { IfOk result (λ made. column_tree made ≡ dictionary_values (type_tree data_type)) }
{
    Ok(SchemaColumn {
        name: String::from_str(alloc, "values")?,
        nullable: true,
        data_type,
        metadata: BTreeMap::new(alloc),
    })
}

/// Returns a type, or where it has a dictionary, that of the dictionary. Fails only out of memory.
pub fn with_dictionary(alloc: Global, index: &Option<Index>, values: AnyType) -> Typed
    ensures { IfOk result (λ made. type_tree made ≡ with_dictionary index.now (type_tree values)) }
{
    let Some(index) = index else {
        return Ok(values);
    };
    let notation = values.notation(alloc)?;
    let keys = plain_name(&index.integers);
    let ordered = index.ordered as u8;
    let text = format!(in alloc;
        "dictionary<values={notation}, indices={keys}, ordered={ordered}>"
    )?;
    let parts = vec![in alloc; dictionary_values(alloc, values)?]?;
    nested_type(alloc, text, Form::Dictionary, Vec::new(alloc), parts)
}
