//! A footer, and the end of a file, which says where its footer begins.
ghost use Rattle.std.specs.Prelude.{◌≡◌, IfOk, length, map};
ghost use Rattle.parquet_footer.specs.Fault.{Returns, Gives, Says};
ghost use Rattle.parquet_footer.specs.Element.{element, element_at};
ghost use Rattle.parquet_footer.specs.Tail.{length_at};
ghost use Rattle.parquet_footer.specs.Footer.{all_at, pairing, key_value_at, contents, footer_at};
ghost use Rattle.parquet_footer.specs.Findings.{HasFindings};

use crate::element::{SchemaElement, element_at};
use crate::fault::{Fault, FooterError, FooterRule, Stop, broken};
use crate::fields::{pair_at, structs_in};
use crate::finding::{FooterFinding, findings_of};
use crate::text::{FooterText, spelled_in};
use std::alloc::Global;

/// A key of a file's metadata, and its value. Neither need be UTF-8.
#[derive(Debug, Clone, Copy)]
pub struct KeyValue<'a> {
    /// The key.
    pub key: FooterText<'a>,
    /// The value, which may be absent.
    pub value: Option<FooterText<'a>>,
}

/// What is kept of a footer. Its texts are those of the bytes that it was read from.
#[derive(Debug, Drop)]
pub struct Footer<'a> {
    /// The elements of the schema in the order of the file: depth first, the root first.
    pub schema: Vec<SchemaElement<'a>>,
    /// The keys and values in the order of the file.
    pub key_value_metadata: Vec<KeyValue<'a>>,
    /// What is found: of the names of the elements, in their order, and then of the keys and values, in theirs
    /// (`docs/FORMAT.md`, 4.3).
    pub findings: Vec<FooterFinding<'a>>,
}

/// A key and its value, in a footer of that size, and the bytes behind them.
#[tactic(auto, unfolding(crate::specs::Footer::key_value_at))]
fn key_value_at(size: usize, bytes: &[u8]) -> Result<(KeyValue<'_>, &[u8]), Fault>
    ensures { Returns (λ x. (pairing x.0, x.1.now)) result (key_value_at size bytes.now) }
{
    let (key, value, rest) = pair_at(bytes, 1, 2)?;
    let Some(key) = spelled_in(size, key)? else {
        return Err(broken(FooterRule::Missing, bytes));
    };
    let value = spelled_in(size, value)?;
    Ok((KeyValue { key, value }, rest))
}

/// So many elements of the schema, in a footer of that size.
fn elements_at(
    alloc: Global,
    size: usize,
    count: u32,
    bytes: &[u8],
) -> Result<Vec<SchemaElement<'_>>, Stop>
    ensures { Gives (λ v. map element v.items) result (all_at (element_at size) count bytes.now) }
{
    let mut found = Vec::new(alloc);
    let mut rest = bytes;
    'structs: for i in 0..count {
        let (item, behind) = element_at(size, rest)?;
        found.push(item)?;
        rest = behind;
    }
    Ok(found)
}

/// So many keys and values, in a footer of that size.
fn key_values_at(
    alloc: Global,
    size: usize,
    count: u32,
    bytes: &[u8],
) -> Result<Vec<KeyValue<'_>>, Stop>
    ensures { Gives (λ v. map pairing v.items) result (all_at (key_value_at size) count bytes.now) }
{
    let mut found = Vec::new(alloc);
    let mut rest = bytes;
    'structs: for i in 0..count {
        let (item, behind) = key_value_at(size, rest)?;
        found.push(item)?;
        rest = behind;
    }
    Ok(found)
}

/// The contents of a footer.
#[tactic(auto, unfolding(crate::specs::Footer::footer_at))]
fn footer_at(alloc: Global, bytes: &[u8]) -> Result<Footer<'_>, Stop>
    ensures read { Gives contents result (footer_at bytes.now) }
    ensures found { IfOk result HasFindings }
{
    let (elements, pairs, _) = pair_at(bytes, 2, 5)?;
    let Some(elements) = elements else {
        return Err(Stop::Fault(broken(FooterRule::Missing, bytes)));
    };
    let (elements, one) = structs_in(Some(elements))?;
    let (pairs, other) = structs_in(pairs)?;
    let size = bytes.len();
    let schema = elements_at(alloc, size, elements, one)?;
    let key_value_metadata = key_values_at(alloc, size, pairs, other)?;
    let findings = findings_of(alloc, schema.as_slice(), key_value_metadata.as_slice())?;
    Ok(Footer {
        schema,
        key_value_metadata,
        findings,
    })
}

/// Reads the schema and the key-value metadata of a footer, a `FileMetaData` in Thrift's compact protocol. All other
/// fields are passed over, and so is what stands behind the struct, as the signature of a signed footer does.
///
/// Names of elements, keys and values that are not UTF-8 are read, and are among the findings; but for a value of the keys `geo` and
/// `ARROW:schema`, which is looked at where it is used.
///
/// Errs with `Invalid` where the bytes break a rule, with the first one that they break and its offset, which is at most
/// the number of bytes; and with `Memory`.
pub fn read_footer(alloc: Global, bytes: &[u8]) -> Result<Footer<'_>, FooterError>
    ensures read { Says contents bytes.now result (footer_at bytes.now) }
    ensures found { IfOk result HasFindings }
{
    match footer_at(alloc, bytes) {
        Ok(footer) => Ok(footer),
        Err(Stop::Fault(Fault { left, rule })) => {
            Err(FooterError::Invalid(rule, bytes.len().saturating_sub(left)))
        }
        Err(Stop::Memory) => Err(FooterError::Memory),
    }
}

/// The length in bytes of the footer that stands before the last eight bytes of a file.
///
/// Errs with `Encrypted` where they end in `PARE`, and with `NotParquet` where they end neither so nor in `PAR1`.
#[tactic(auto, unfolding(crate::specs::Tail::length_at))]
pub fn footer_length(tail: &[u8; 8]) -> Result<u32, FooterError>
    ensures { result ≡ length_at tail.now }
{
    let [a, b, c, d, e, f, g, h] = *tail;
    let length = u32::from_le_bytes([a, b, c, d]);
    match u32::from_le_bytes([e, f, g, h]) {
        0x3152_4150 => Ok(length),
        0x4552_4150 => Err(FooterError::Encrypted),
        _ => Err(FooterError::NotParquet),
    }
}
