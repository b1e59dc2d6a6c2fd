//! The JSON object that a metadata is written as: as a value, and printed with no value between.
ghost use Rattle.std.specs.Prelude.{◌≡◌, IfOk, OnOk, MatchOption, option_map};
ghost use Rattle.serde_json.specs.Data.{string, put};
ghost use Rattle.serde_json.specs.View.{view, members_view};
ghost use Rattle.value_tokens.specs.Adds.{Adds, Prints};
ghost use Rattle.geoarrow_meta.specs.Prints.{text_tokens};
ghost use Rattle.geoarrow_meta.specs.Written.{written};

use crate::crs::CrsType;
use crate::edges::Edges;
use crate::metadata::Metadata;
use json::Writer;
use serde_json::{Map, Value};
use std::alloc::{AllocError, Global};
use value_tokens::print_value;

// The object of the parts of a metadata. Errs only when out of memory.
pub(crate) fn written_value(alloc: Global, metadata: &Metadata) -> Result<Value, AllocError>
    ensures { IfOk result (λ v. view v
        ≡ written metadata.now.crs.value metadata.now.crs.crs_type metadata.now.edges) }
{
    let mut members = Map::new(alloc);
    let crs = match metadata.crs().crs_value() {
        Some(value) => value.clone()?,
        None => Value::Null,
    };
    serde_json::put(&mut members, alloc, "crs", crs)?;
    let crs_type = metadata.crs().crs_type().map(CrsType::as_text);
    put_text(&mut members, alloc, "crs_type", crs_type)?;
    let edges = metadata.edges().map(Edges::as_text);
    put_text(&mut members, alloc, "edges", edges)?;
    Ok(Value::Object(members))
}

// Puts a text at the key, if there is one.
fn put_text(
    members: &mut Map<String, Value>,
    alloc: Global,
    key: &str,
    text: Option<&str>,
) -> Result<(), AllocError>
    ensures { OnOk result (MatchOption text.entry (members_view members.new.entries ≡ members_view members.old.entries)
        (λ t. members_view members.new.entries ≡ put key.now (string t.now) (members_view members.old.entries))) }
{
    if let Some(text) = text {
        serde_json::put(members, alloc, key, Value::try_from_str(alloc, text)?)?;
    }
    Ok(())
}

// Prints the object of the parts of a metadata. Errs only when out of memory.
pub(crate) fn print_object(metadata: &Metadata, out: &mut Writer) -> Result<(), AllocError>
    ensures { OnOk result
        (Prints (written metadata.now.crs.value metadata.now.crs.crs_type metadata.now.edges) out.old out.new) }
{
    out.begin_object()?;
    out.key("crs")?;
    match metadata.crs().crs_value() {
        Some(value) => print_value(value, out)?,
        None => out.null()?,
    }
    let crs_type = metadata.crs().crs_type().map(CrsType::as_text);
    print_text("crs_type", crs_type, out)?;
    print_text("edges", metadata.edges().map(Edges::as_text), out)?;
    out.end_object()
}

// Prints a text at the key, if there is one.
fn print_text(key: &str, text: Option<&str>, out: &mut Writer) -> Result<(), AllocError>
    ensures { OnOk result (Adds (text_tokens key.now (option_map (λ t. t.now) text.entry)) out.old out.new) }
{
    if let Some(text) = text {
        out.key(key)?;
        return out.string(text);
    }
    Ok(())
}
