//! An element of the schema: a leaf or a group.
ghost use Rattle.std.specs.Prelude.{◌≡◌};
ghost use Rattle.parquet_footer.specs.Fault.{Returns};
ghost use Rattle.parquet_footer.specs.Element.{physical_of, repetition_of, stored, storage_at, element, element_at};

use crate::fault::{Fault, FooterRule, broken};
use crate::fields::{count_in, number_in, numbers_at, pair_at};
use crate::logical::{LogicalType, logical_in};
use crate::text::{FooterText, spelled_in};

/// How the values of a leaf are stored.
#[derive(Debug, Clone, Copy, PartialEq, Eq)]
pub enum PhysicalType {
    /// A truth value.
    Boolean,
    /// An integer of 32 bits.
    Int32,
    /// An integer of 64 bits.
    Int64,
    /// A number of 96 bits, as older files have it for points in time.
    Int96,
    /// A float of 32 bits.
    Float,
    /// A float of 64 bits.
    Double,
    /// Bytes of any number.
    ByteArray,
    /// Bytes, as many as `type_length` says.
    FixedLenByteArray,
    /// One that is not known, whose number is this.
    Unknown(i32),
}

/// How many values an element has in each one of its parent.
#[derive(Debug, Clone, Copy, PartialEq, Eq)]
pub enum Repetition {
    /// One.
    Required,
    /// One or none.
    Optional,
    /// Any number.
    Repeated,
    /// One that is not known, whose number is this.
    Unknown(i32),
}

/// The name of an element, and how its values are stored.
#[derive(Debug, Clone, Copy)]
pub struct Storage<'a> {
    /// Absent in a group.
    pub physical_type: Option<PhysicalType>,
    /// The bytes of a value of a fixed length.
    pub type_length: Option<i32>,
    /// Absent in the root.
    pub repetition: Option<Repetition>,
    /// The name of the element among those beside it.
    pub name: FooterText<'a>,
}

/// An element of the schema: a leaf or a group. But for the number of children, its numbers may be
/// negative, or such as no element should have.
#[derive(Debug, Clone, Copy)]
pub struct SchemaElement<'a> {
    /// Behind how many bytes of the footer it begins.
    pub byte: usize,
    /// Its name, and how its values are stored.
    pub storage: Storage<'a>,
    /// How many elements are the children of a group.
    pub num_children: Option<u32>,
    /// The older form of the logical type, by its number, as 0 of UTF8.
    pub converted_type: Option<i32>,
    /// How many digits of a decimal number stand behind the point.
    pub scale: Option<i32>,
    /// How many digits a decimal number has.
    pub precision: Option<i32>,
    /// What its values mean.
    pub logical_type: Option<LogicalType<'a>>,
}

/// The physical type of a number.
fn physical_of(number: i32) -> PhysicalType
    ensures { result ≡ physical_of number }
{
    match number {
        0 => PhysicalType::Boolean,
        1 => PhysicalType::Int32,
        2 => PhysicalType::Int64,
        3 => PhysicalType::Int96,
        4 => PhysicalType::Float,
        5 => PhysicalType::Double,
        6 => PhysicalType::ByteArray,
        7 => PhysicalType::FixedLenByteArray,
        _ => PhysicalType::Unknown(number),
    }
}

/// The repetition of a number.
fn repetition_of(number: i32) -> Repetition
    ensures { result ≡ repetition_of number }
{
    match number {
        0 => Repetition::Required,
        1 => Repetition::Optional,
        2 => Repetition::Repeated,
        _ => Repetition::Unknown(number),
    }
}

/// The fields 1 to 4 of an element, in a footer of that size.
#[tactic(auto, unfolding(crate::specs::Element::storage_at))]
fn storage_at(size: usize, bytes: &[u8]) -> Result<Storage<'_>, Fault>
    ensures { Returns stored result (storage_at size bytes.now) }
{
    let (physical, type_length) = numbers_at(bytes, 1, 2)?;
    let physical_type = physical.map(physical_of);
    let (repetition, name, _) = pair_at(bytes, 3, 4)?;
    let repetition = number_in(repetition)?.map(repetition_of);
    match spelled_in(size, name) {
        Ok(Some(name)) => Ok(Storage {
            physical_type,
            type_length,
            repetition,
            name,
        }),
        Ok(None) => Err(broken(FooterRule::Missing, bytes)),
        Err(fault) => Err(fault),
    }
}

/// An element, in a footer of that size, and the bytes behind it.
#[tactic(auto, unfolding(crate::specs::Element::element_at))]
pub fn element_at(size: usize, bytes: &[u8]) -> Result<(SchemaElement<'_>, &[u8]), Fault>
    ensures { Returns (λ x. (element x.0, x.1.now)) result (element_at size bytes.now) }
{
    let storage = storage_at(size, bytes)?;
    let (children, converted, _) = pair_at(bytes, 5, 6)?;
    let num_children = count_in(children)?;
    let converted_type = number_in(converted)?;
    let (scale, precision) = numbers_at(bytes, 7, 8)?;
    let (logical, _, rest) = pair_at(bytes, 10, 10)?;
    let element = SchemaElement {
        byte: size.saturating_sub(bytes.len()),
        storage,
        num_children,
        converted_type,
        scale,
        precision,
        logical_type: logical_in(logical)?,
    };
    Ok((element, rest))
}
