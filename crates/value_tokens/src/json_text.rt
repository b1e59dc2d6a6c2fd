//! A JSON value, read whole from a text, and its text without blanks.
ghost use Rattle.std.specs.Prelude.{◌≡◌, Some, None, Err, is_some, IfOk, IfSome, OnOk, option_map, option_and_then};
ghost use Rattle.json.specs.Json.{Json};
ghost use Rattle.json.specs.Find.{get};
ghost use Rattle.json.specs.Lex.{tokens};
ghost use Rattle.json.specs.Print.{print};
ghost use Rattle.json.specs.Tree.{json_tokens};
ghost use Rattle.json.specs.Value.{value_view};
ghost use Rattle.serde_json.specs.Data.{Data};
ghost use Rattle.serde_json.specs.Find.{get as get_data};
ghost use Rattle.serde_json.specs.Read.{of_json, read};
ghost use Rattle.serde_json.specs.View.{view};
ghost use Rattle.value_tokens.specs.Adds.{Adds};
ghost use Rattle.value_tokens.specs.Values.{IsReadable, is_object, is_string, begins_with};

use crate::MAX_DEPTH;
use crate::refusal::Refusal;
use crate::skip::skip_value;
use crate::text::text_of;
use json::{Error, Reader, Scratch, Value, Writer};
use std::alloc::{AllocError, Global};
use std::marker::Model;

/// Reads the JSON value that a text is, with each number as it is written, its members in their
/// order and each member of a repeated key. It reads what `serde_json` reads, and what that reads is
/// this value converted. Errs with [`Refusal::Text`] only where `serde_json` reads nothing: where the
/// text is no JSON, nests more than 127 levels, or has a number that is out of range; otherwise with
/// [`Refusal::Memory`] when out of memory.
pub fn read_json<'a>(
    alloc: Global,
    text: &'a str,
    scratch: &'a mut Scratch,
) -> Result<Value<'a>, Refusal>
    ensures tokens { IfOk result (λ v. tokens text.now ≡ json_tokens (value_view v)) }
    ensures read { IfOk result (λ v. (d : Data) × (of_json (value_view v) ≡ Some d) × (read text.now ≡ Some d)) }
    ensures readable { IfOk result (λ v. IsReadable (value_view v)) }
    ensures text { result ≡ Err Refusal.Text → read text.now ≡ None }
{
    if !is_read(text, &mut *scratch)? {
        return Err(Refusal::Text);
    }
    let mut reader = Reader::new(text, scratch)?;
    match Value::read(alloc, &mut reader, MAX_DEPTH) {
        Ok(value) if reader.next().is_none() => Ok(value),
        Ok(_) => Err(Refusal::Text),
        Err(Error::OutOfMemory) => Err(Refusal::Memory),
        Err(_) => Err(Refusal::Text),
    }
}

/// Whether `serde_json` reads a text. Errs only when out of memory.
fn is_read(text: &str, scratch: &mut Scratch) -> Result<bool, AllocError>
    ensures { IfOk result (λ answer. answer ≡ is_some (read text.now)) }
{
    let mut reader = Reader::new(text, scratch)?;
    match skip_value(&mut reader, MAX_DEPTH) {
        Ok(()) => Ok(reader.next().is_none()),
        Err(_) => Ok(false),
    }
}

/// Returns the value of the last member of an object with that key, which is the one that
/// `serde_json` keeps; `None` where there is none, and for a value that is no object.
pub fn member_of<'v, 'a>(value: &'v Value<'a>, key: &str) -> Option<&'v Value<'a>>
    requires { IsReadable (value_view value.now) }
    ensures value { option_map (λ v. value_view v.now) result ≡ get key.now (value_view value.now) }
    ensures readable { IfSome result (λ v. IsReadable (value_view v.now)) }
    ensures read { (d : Data) → of_json (value_view value.now) ≡ Some d → option_and_then of_json (get key.now (value_view value.now)) ≡ get_data key.now d }
{
    value.get(key)
}

/// A JSON value as its text without blanks: each number as it was written, the members in their
/// order, and each member of a repeated key; texts with their shortest escapes.
#[derive(Debug, Drop)]
pub struct JsonText {
    text: String,
}

impl Model for JsonText {
    ghost use Rattle.std.specs.Prelude.{string_bytes};
    ghost use Rattle.json.specs.Json.{Json};
    ghost use Rattle.value_tokens.specs.Values.{json_in, json_code, IsCompact};

    ghost Value = { Json };

    ghost coded = { json_code };

    ghost view = { λ a. json_in (string_bytes a.text) };

    ghost invariant = { λ a. IsCompact (string_bytes a.text) };
}

impl JsonText {
    /// Returns the text of a value. Errs only when out of memory.
    pub fn of(alloc: Global, value: &Value<'_>) -> Result<JsonText, AllocError>
        requires { IsReadable (value_view value.now) }
        ensures { IfOk result (λ made. made ≡ value_view value.now) }
    {
        let mut out = Writer::new(Vec::new(alloc));
        out.value(value)?;
        Ok(JsonText { text: text_of(out) })
    }

    /// Returns the text.
    pub fn as_str(&self) -> &str
        ensures text { result.now ≡ print (json_tokens self.now) }
        ensures readable { IsReadable self.now }
    {
        self.text.as_str()
    }

    /// Returns the value, as `serde_json` reads it; `None` where a number is out of range. Errs only
    /// when out of memory.
    pub fn to_value(&self, alloc: Global) -> Result<Option<serde_json::Value>, AllocError>
        ensures { IfOk result (λ o. option_map view o ≡ of_json self.now) }
    {
        match serde_json::Value::from_str(alloc, self.as_str()) {
            Ok(value) => Ok(Some(value)),
            Err(error) if error.is_memory() => Err(AllocError),
            Err(_) => Ok(None),
        }
    }

    /// Returns whether the value is an object.
    pub fn is_object(&self) -> bool
        ensures { result ≡ is_object self.now }
    {
        begins_with(self.as_str(), b'{')
    }

    /// Returns whether the value is a string.
    pub fn is_string(&self) -> bool
        ensures { result ≡ is_string self.now }
    {
        begins_with(self.as_str(), b'"')
    }

    /// Prints the value. Errs only when out of memory, and then a front part may be printed.
    pub fn put(&self, scratch: &mut Scratch, out: &mut Writer) -> Result<(), AllocError>
        ensures { OnOk result (Adds (json_tokens self.now) out.old out.new) }
    {
        let mut reader = Reader::new(self.as_str(), scratch)?;
        'tokens: while let Some(token) = reader.next() {
            out.token(token)?;
        }
        Ok(())
    }
}

/// Whether a text begins with a byte.
fn begins_with(text: &str, byte: u8) -> bool
    ensures { result ≡ begins_with text.now byte }
{
    match text.as_bytes() {
        [first, ..] => *first == byte,
        [] => false,
    }
}
