//! The schema that Arrow's libraries store in a footer.
ghost use Rattle.std.specs.Prelude.{◌≡◌, IfOk, map};
ghost use Rattle.base64.specs.Engines.{standard_pad_indifferent};
ghost use Rattle.base64.specs.GeneralPurpose.{decode_of};
ghost use Rattle.parquet_footer.specs.Footer.{pairing};
ghost use Rattle.parquet_columns.specs.Keys.{schema_key, value_of};
ghost use Rattle.parquet_columns.specs.Findings.{encoding_byte, stored_place, stored_message, unreadable, finding};
ghost use Rattle.parquet_columns.specs.Stored.{IsDecoded, IsSchemaOf, IsStored, AreStored};

use crate::code::{FileCode, FilePart};
use crate::entries::stored_repeated;
use crate::finding::{FileFinding, FilePlace};
use crate::keys::{ARROW_SCHEMA_KEY, value_of};
use arrow_ipc::{IpcError, IpcFault, Schema, read_schema};
use base64::engine::general_purpose::STANDARD_PAD_INDIFFERENT;
use base64::{DecodeAllocError, DecodeError};
use parquet_footer::Footer;
use std::alloc::{AllocError, Global};

/// Why the value of `ARROW:schema` holds no schema.
#[derive(Debug, Clone, Copy, PartialEq, Eq)]
pub(crate) enum StoredFault {
    /// It is no base64.
    Encoding(DecodeError),
    /// The message that it spells breaks a rule.
    Broken(IpcFault),
    /// More is to be read of the message than eight times its bytes, at that byte.
    Budget(usize),
}

/// What the value of `ARROW:schema` holds.
#[derive(Drop)]
pub(crate) enum Stored {
    /// A schema, and what is found of keys that stand several times on its columns.
    Schema(Schema, Vec<FileFinding>),
    /// None.
    Unreadable(StoredFault),
}

/// The bytes of a text in base64, or why it is none.
fn decode(alloc: Global, text: &[u8]) -> Result<Result<Vec<u8>, DecodeError>, AllocError>
    ensures { IfOk result (IsDecoded (decode_of standard_pad_indifferent text.now)) }
{
    match STANDARD_PAD_INDIFFERENT.decode(alloc, text) {
        Ok(bytes) => Ok(Ok(bytes)),
        Err(DecodeAllocError::DecodeError(error)) => Ok(Err(error)),
        Err(DecodeAllocError::OutOfMemory) => Err(AllocError),
    }
}

/// The schema of a message, and what is found of its columns; or why there is none.
fn schema_of(alloc: Global, message: &[u8]) -> Result<Stored, AllocError>
    ensures { IfOk result (IsSchemaOf message.now) }
{
    match read_schema(alloc, message) {
        Ok(schema) => {
            let found = stored_repeated(alloc, message, schema.columns.as_slice())?;
            Ok(Stored::Schema(schema, found))
        }
        Err(IpcError::Broken(fault)) => Ok(Stored::Unreadable(StoredFault::Broken(fault))),
        Err(IpcError::Budget(at)) => Ok(Stored::Unreadable(StoredFault::Budget(at))),
        Err(IpcError::OutOfMemory) => Err(AllocError),
    }
}

/// What a value of `ARROW:schema` holds.
fn stored_of(alloc: Global, value: &[u8]) -> Result<Stored, AllocError>
    ensures { IfOk result (IsStored value.now) }
{
    match decode(alloc, value)? {
        Ok(message) => schema_of(alloc, message.as_slice()),
        Err(error) => Ok(Stored::Unreadable(StoredFault::Encoding(error))),
    }
}

/// What the value of `ARROW:schema` in a footer holds, if it has one. Errs only when out of memory.
pub(crate) fn stored_in(alloc: Global, footer: &Footer<'_>) -> Result<Option<Stored>, AllocError>
    ensures { IfOk result (AreStored (value_of schema_key (map pairing footer.now.key_value_metadata.items))) }
{
    match value_of(footer, ARROW_SCHEMA_KEY) {
        Some(value) => Ok(Some(stored_of(alloc, value.bytes)?)),
        None => Ok(None),
    }
}

/// At which byte a text is no base64.
fn encoding_byte(error: DecodeError) -> Option<usize>
    ensures { result ≡ encoding_byte error }
{
    match error {
        DecodeError::InvalidByte(at, _) => Some(at),
        DecodeError::InvalidLength(at) => Some(at),
        DecodeError::InvalidLastSymbol { offset, .. } => Some(offset),
        DecodeError::InvalidPadding => None,
    }
}

/// Where a stored schema is not read.
fn stored_place(fault: StoredFault) -> FilePlace
    ensures { result ≡ stored_place fault }
{
    match fault {
        StoredFault::Encoding(error) => FilePlace {
            part: FilePart::StoredText,
            byte: encoding_byte(error),
        },
        StoredFault::Broken(fault) => FilePlace {
            part: FilePart::StoredMessage,
            byte: Some(fault.at),
        },
        StoredFault::Budget(at) => FilePlace {
            part: FilePart::StoredMessage,
            byte: Some(at),
        },
    }
}

/// What is wrong with a stored schema that is not read.
fn stored_message(fault: StoredFault) -> &'static str
    ensures { result.now ≡ stored_message fault }
{
    match fault {
        StoredFault::Encoding(_) => "a text that is no base64",
        StoredFault::Broken(fault) => fault.rule.message(),
        StoredFault::Budget(_) => "more is to be read than eight times its bytes",
    }
}

/// What is found of a stored schema that is not read. Errs only when out of memory.
pub(crate) fn unreadable(alloc: Global, fault: StoredFault) -> Result<FileFinding, AllocError>
    ensures { IfOk result (λ made. finding made ≡ unreadable fault) }
{
    let code = FileCode::ArrowSchemaUnreadable;
    let found = stored_message(fault);
    FileFinding::new(alloc, code, stored_place(fault), Some(found), None)
}
