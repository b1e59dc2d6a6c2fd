//! Equality: two data types, fields or lists of them are equal where all parts are, nested metadata and order included.
ghost use Rattle.std.specs.Prelude.{◌≡◌, ◌&&◌, ◌↔◌, IsTrue};
ghost use Rattle.std.specs.Cmp.{decided, partial_equiv_from_equiv};
ghost use Rattle.std.proofs.lemmas.Cmp.{on_equiv};
ghost use Rattle.arrow_values.specs.View.{tree, texts_of};
ghost use Rattle.arrow_values.specs.Equal.{tree_eq, metadata_eq, field_eq, field_lists_eq, member_lists_eq, tree_decides, field_decides, field_lists_decide, member_lists_decide};

use crate::tree::name::same_name;
use crate::tree::{DataType, Field, Fields, UnionFields};
use std::collections::BTreeMap;

impl PartialEq for DataType {
    ghost eq = { λ a b. tree_eq (tree a) (tree b) };

    ghost laws = { partial_equiv_from_equiv (on_equiv tree (decided tree_eq tree_decides)) };

    #[tactic(auto, using(crate::specs::Equal::tree_decides))]
    fn eq(&self, other: &DataType) -> bool
        ensures value { result ≡ tree_eq (tree self.now) (tree other.now) }
        ensures same { IsTrue result ↔ (tree self.now ≡ tree other.now) }
    {
        same_type(self, other)
    }
}

impl Eq for DataType {
    ghost laws = { on_equiv tree (decided tree_eq tree_decides) };
}

impl PartialEq for Field {
    ghost eq = { field_eq };

    ghost laws = { partial_equiv_from_equiv (decided field_eq field_decides) };

    #[tactic(auto, using(crate::specs::Equal::field_decides))]
    fn eq(&self, other: &Field) -> bool
        ensures value { result ≡ field_eq self.now other.now }
        ensures same { IsTrue result ↔ (self.now ≡ other.now) }
    {
        same_field(self, other)
    }
}

impl Eq for Field {
    ghost laws = { decided field_eq field_decides };
}

impl PartialEq for Fields {
    ghost eq = { field_lists_eq };

    ghost laws = { partial_equiv_from_equiv (decided field_lists_eq field_lists_decide) };

    #[tactic(auto, using(crate::specs::Equal::field_lists_decide))]
    fn eq(&self, other: &Fields) -> bool
        ensures value { result ≡ field_lists_eq self.now other.now }
        ensures same { IsTrue result ↔ (self.now ≡ other.now) }
    {
        same_fields(self, other)
    }
}

impl Eq for Fields {
    ghost laws = { decided field_lists_eq field_lists_decide };
}

impl PartialEq for UnionFields {
    ghost eq = { member_lists_eq };

    ghost laws = { partial_equiv_from_equiv (decided member_lists_eq member_lists_decide) };

    #[tactic(auto, using(crate::specs::Equal::member_lists_decide))]
    fn eq(&self, other: &UnionFields) -> bool
        ensures value { result ≡ member_lists_eq self.now other.now }
        ensures same { IsTrue result ↔ (self.now ≡ other.now) }
    {
        same_members(self, other)
    }
}

impl Eq for UnionFields {
    ghost laws = { decided member_lists_eq member_lists_decide };
}

#[cycle(equal)]
#[tactic(auto, using(crate::proofs::Equal::same_lists))]
fn same_type(a: &DataType, b: &DataType) -> bool
    ensures { result ≡ tree_eq (tree a.now) (tree b.now) }
{
    match (a, b) {
        (DataType::Null, DataType::Null) => true,
        (DataType::Boolean, DataType::Boolean) => true,
        (DataType::Int8, DataType::Int8) => true,
        (DataType::Int16, DataType::Int16) => true,
        (DataType::Int32, DataType::Int32) => true,
        (DataType::Int64, DataType::Int64) => true,
        (DataType::UInt8, DataType::UInt8) => true,
        (DataType::UInt16, DataType::UInt16) => true,
        (DataType::UInt32, DataType::UInt32) => true,
        (DataType::UInt64, DataType::UInt64) => true,
        (DataType::Float16, DataType::Float16) => true,
        (DataType::Float32, DataType::Float32) => true,
        (DataType::Float64, DataType::Float64) => true,
        (DataType::Date32, DataType::Date32) => true,
        (DataType::Date64, DataType::Date64) => true,
        (DataType::Binary, DataType::Binary) => true,
        (DataType::LargeBinary, DataType::LargeBinary) => true,
        (DataType::BinaryView, DataType::BinaryView) => true,
        (DataType::Utf8, DataType::Utf8) => true,
        (DataType::LargeUtf8, DataType::LargeUtf8) => true,
        (DataType::Utf8View, DataType::Utf8View) => true,
        (DataType::List(inner), DataType::List(other)) => same_boxed(inner, other),
        (DataType::LargeList(inner), DataType::LargeList(other)) => same_boxed(inner, other),
        (DataType::FixedSizeList(inner, size), DataType::FixedSizeList(other, other_size)) => {
            same_boxed(inner, other) && *size == *other_size
        }
        (DataType::Struct(fields), DataType::Struct(others)) => same_fields(fields, others),
        (DataType::Union(members, mode), DataType::Union(others, other_mode)) => {
            same_members(members, others) && *mode == *other_mode
        }
        _ => false,
    }
}

#[cycle(equal)]
#[inline(never)]
fn same_boxed(a: &Field, b: &Field) -> bool
    ensures { result ≡ field_eq a.now b.now }
{
    same_field(a, b)
}

/// As `same_type`, with the three types first that most fields inside a layout have.
#[cycle(equal)]
#[tactic(auto, using(crate::proofs::Equal::same_lists))]
#[inline(always)]
fn same_inner(a: &DataType, b: &DataType) -> bool
    ensures { result ≡ tree_eq (tree a.now) (tree b.now) }
{
    match (a, b) {
        (DataType::Float64, DataType::Float64) => true,
        (DataType::List(inner), DataType::List(other)) => same_boxed(inner, other),
        (DataType::Struct(fields), DataType::Struct(others)) => same_fields(fields, others),
        _ => same_type(a, b),
    }
}

#[cycle(equal)]
#[tactic(auto, using(crate::proofs::Equal::field_same))]
#[inline(always)]
fn same_field(a: &Field, b: &Field) -> bool
    ensures { result ≡ field_eq a.now b.now }
{
    if !same_name(&a.name, &b.name) {
        return false;
    }
    if a.nullable != b.nullable {
        return false;
    }
    if !same_metadata(&a.metadata, &b.metadata) {
        return false;
    }
    same_inner(&a.data_type, &b.data_type)
}

#[inline(always)]
fn same_metadata(a: &BTreeMap<String, String>, b: &BTreeMap<String, String>) -> bool
    ensures { result ≡ metadata_eq (texts_of a.now.entries) (texts_of b.now.entries) }
{
    if a.is_empty() {
        return b.is_empty();
    }
    same_texts(a, b)
}

#[inline(never)]
fn same_texts(a: &BTreeMap<String, String>, b: &BTreeMap<String, String>) -> bool
    ensures { result ≡ metadata_eq (texts_of a.now.entries) (texts_of b.now.entries) }
{
    *a == *b
}

#[cycle(equal)]
fn same_fields(a: &Fields, b: &Fields) -> bool
    ensures { result ≡ field_lists_eq a.now b.now }
{
    let (ones, others) = (a.members.as_slice(), b.members.as_slice());
    if ones.len() != others.len() {
        return false;
    }
    for i in 0..ones.len() {
        if !same_field(&ones[i], &others[i]) {
            return false;
        }
    }
    true
}

#[cycle(equal)]
#[tactic(auto, using(crate::specs::Equal::same_int))]
fn same_members(a: &UnionFields, b: &UnionFields) -> bool
    ensures { result ≡ member_lists_eq a.now b.now }
{
    let (ones, others) = (a.members.as_slice(), b.members.as_slice());
    if ones.len() != others.len() {
        return false;
    }
    for i in 0..ones.len() {
        let (one, other) = (&ones[i], &others[i]);
        if one.0 != other.0 || !same_field(&one.1, &other.1) {
            return false;
        }
    }
    true
}
