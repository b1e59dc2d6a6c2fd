//! What is told of files, as a log of SARIF 2.1.0 with one run (docs/FORMAT.md, 2.7).
ghost use Rattle.std.specs.Prelude.{◌≡◌, OnOk};
ghost use Rattle.std.specs.Str.{IsUtf8};

use crate::names::named;
use crate::numbers::Tally;
use crate::object::{put_number, put_text};
use crate::rules::Rule;
use crate::text::shown;
use crate::told::{Region, Told};
use json::Writer;
use percent_encoding::{AsciiSet, NON_ALPHANUMERIC, ascii_set, percent_encode};
use std::alloc::{AllocError, Global};
use value_tokens::text_of;

/// What stands before the results.
pub(crate) const BEGIN: &str =
    "{\"$schema\":\"https://json.schemastore.org/sarif-2.1.0.json\",\"version\":\"2.1.0\",\"runs\":[{\"results\":[";

/// What stands between the results and the rules.
const TOOL: &str = "\n],\"tool\":{\"driver\":{\"name\":\"geoarrow_check\",\"rules\":[";

/// What stands behind the rules.
const END: &str = "\n]}}}]}\n";

/// The bytes of a path that stand in a URI as `%` and two digits.
const ESCAPED: AsciiSet = ascii_set!(
    NON_ALPHANUMERIC
        .remove(b'-')
        .remove(b'.')
        .remove(b'/')
        .remove(b'_')
        .remove(b'~')
);

/// Returns the result of what is told of a file, behind a comma and a line feed; and keeps its rule.
pub(crate) fn sarif_result(
    alloc: Global,
    file: &str,
    told: &Told,
    tally: &mut Tally,
) -> Result<String, AllocError> {
    tally.add_rule(told.rule)?;
    let text = shown(alloc, told.text())?;
    let mut out = Writer::new(Vec::new(alloc));
    out.begin_object()?;
    put_text(&mut out, "ruleId", told.rule.code)?;
    put_text(&mut out, "level", told.severity.word())?;
    put_message(&mut out, "message", text.as_str())?;
    if let Some(name) = named(file) {
        put_locations(alloc, &mut out, name, told.region)?;
    }
    out.end_object()?;
    behind_comma(alloc, out)
}

/// Returns what stands behind the results: the rules that are kept, each once.
pub(crate) fn sarif_end(alloc: Global, rules: &[Rule]) -> Result<String, AllocError> {
    let mut lines = String::new(alloc);
    for rule in rules {
        lines.push_str(rule_text(alloc, *rule)?.as_str())?;
    }
    let mut text = String::from_str(alloc, TOOL)?;
    text.push_str(without_comma(lines.as_str()))?;
    text.push_str(END)?;
    Ok(text)
}

/// Returns texts that stand behind commas, as the first of an array.
pub(crate) fn without_comma(texts: &str) -> &str {
    texts.strip_prefix(',').unwrap_or(texts)
}

/// A rule, behind a comma and a line feed.
fn rule_text(alloc: Global, rule: Rule) -> Result<String, AllocError> {
    let mut out = Writer::new(Vec::new(alloc));
    out.begin_object()?;
    put_text(&mut out, "id", rule.code)?;
    put_message(&mut out, "shortDescription", rule.words)?;
    out.end_object()?;
    behind_comma(alloc, out)
}

/// What was written, behind a comma and a line feed.
fn behind_comma(alloc: Global, out: Writer) -> Result<String, AllocError>
    requires { IsUtf8 out.before }
{
    let text = text_of(out);
    format!(in alloc; ",\n{text}")
}

/// Writes a member whose value is an object with a text.
fn put_message(out: &mut Writer, key: &str, text: &str) -> Result<(), AllocError>
    ensures { OnOk result (out.new.before ≡ out.old.before) }
{
    out.key(key)?;
    out.begin_object()?;
    put_text(out, "text", text)?;
    out.end_object()
}

/// Writes where a file is at fault: its name, as a URI, and the region, if there is one.
fn put_locations(
    alloc: Global,
    out: &mut Writer,
    name: &str,
    region: Option<Region>,
) -> Result<(), AllocError>
    ensures { OnOk result (out.new.before ≡ out.old.before) }
{
    let uri = uri_of(alloc, name)?;
    out.key("locations")?;
    out.begin_array()?;
    out.begin_object()?;
    out.key("physicalLocation")?;
    out.begin_object()?;
    out.key("artifactLocation")?;
    out.begin_object()?;
    put_text(out, "uri", uri.as_str())?;
    out.end_object()?;
    put_region(out, region)?;
    out.end_object()?;
    out.end_object()?;
    out.end_array()
}

/// Writes a region, if there is one.
fn put_region(out: &mut Writer, region: Option<Region>) -> Result<(), AllocError>
    ensures { OnOk result (out.new.before ≡ out.old.before) }
{
    match region {
        Some(Region::Line(line)) => put_place(out, "startLine", line),
        Some(Region::Byte(byte)) => put_place(out, "byteOffset", byte),
        None => Ok(()),
    }
}

/// Writes a region with one number.
fn put_place(out: &mut Writer, key: &str, number: u64) -> Result<(), AllocError>
    ensures { OnOk result (out.new.before ≡ out.old.before) }
{
    out.key("region")?;
    out.begin_object()?;
    put_number(out, key, number)?;
    out.end_object()
}

/// The name of a file as a URI.
fn uri_of(alloc: Global, name: &str) -> Result<String, AllocError> {
    let mut uri = String::new(alloc);
    percent_encode(name.as_bytes(), ESCAPED).append_to(&mut uri)?;
    Ok(uri)
}
