//! The texts at the keys of a footer, each found by a map.
ghost use Rattle.std.specs.Prelude.{◌≡◌, [], ◌∷◌, ◌++◌, true, is_some, IfOk, OnOk, List, map, Option, Some, option_map, string_bytes};
ghost use Rattle.arrow_values.specs.Tree.{Text};
ghost use Rattle.arrow_values.specs.Texts.{text_of};
ghost use Rattle.parquet_footer.specs.Spelled.{spelled};
ghost use Rattle.parquet_footer.specs.Footer.{pairing};
ghost use Rattle.parquet_footer.specs.declared.footer.KeyValue.{KeyValue};
ghost use Rattle.parquet_columns.specs.Geometry.{keyed_crs, text_with};
ghost use Rattle.parquet_columns.specs.Keys.{text_in as text_spelled, value_text, text_pair, text_at};
ghost use Rattle.parquet_columns.specs.Values.{at, AreValues, AreJudged, compact_of};

use geoarrow_meta::{CrsType, Edges, WrittenCrs, compact_projjson, metadata_text};
use parquet_footer::{FooterText, KeyValue};
use std::alloc::{AllocError, Global};
use std::collections::BTreeMap;
use std::marker::Model;

/// The texts at the keys of a footer. A text is found in time that grows with the logarithm of
/// the number of pairs, and is read as PROJJSON once, however often it is asked for.
#[derive(Drop)]
pub(crate) struct KeyValues<'f, 'a> {
    pairs: &'f [KeyValue<'a>],
    last: BTreeMap<&'a str, &'a str>,
    judged: BTreeMap<&'a str, Option<String>>,
}

impl<'f, 'a> Model for KeyValues<'f, 'a> {
    ghost use Rattle.std.specs.Prelude.{List, map};
    ghost use Rattle.std.specs.Coded.{coded_list};
    ghost use Rattle.parquet_footer.specs.Footer.{Pairing, pairing};
    ghost use Rattle.parquet_columns.specs.Values.{pairing_code, AreValues, AreJudged};

    ghost coded = { coded_list pairing_code };

    ghost Value = { List Pairing };

    ghost view = { λ r. map pairing r.pairs.now };

    ghost invariant = { λ r. AreValues r.pairs.now r.last × AreJudged r.pairs.now r.judged };
}

impl<'f, 'a> KeyValues<'f, 'a> {
    /// Returns the values of these pairs. Errs only when out of memory.
    pub(crate) fn new(
        alloc: Global,
        pairs: &'f [KeyValue<'a>],
    ) -> Result<KeyValues<'f, 'a>, AllocError>
        ensures { IfOk result (λ values. values ≡ map pairing pairs.now) }
    {
        let mut last = BTreeMap::new(alloc);
        'pairs: for pair in pairs {
            put_value(&mut last, pair)?;
        }
        let judged = BTreeMap::new(alloc);
        Ok(KeyValues {
            pairs,
            last,
            judged,
        })
    }

    /// Returns the text of the metadata with the CRS `projjson:KEY` and those edges. Errs only when out
    /// of memory.
    pub(crate) fn keyed_text(
        &mut self,
        alloc: Global,
        key: &'a str,
        edges: Option<Edges>,
    ) -> Result<String, AllocError>
        ensures text { IfOk result (λ made. string_bytes made
            ≡ text_with (keyed_crs (text_at key.now self.old)) edges) }
        ensures same { self.new ≡ self.old }
    {
        let value = value_in(&self.last, key);
        judge(alloc, &mut self.judged, key, value)?;
        let json = judged_at(&self.judged, key);
        text_by(alloc, json, edges)
    }

    /// Returns whether the value of a key is PROJJSON. Errs only when out of memory.
    pub(crate) fn holds_json(&mut self, alloc: Global, key: &'a str) -> Result<bool, AllocError>
        ensures is { IfOk result (λ is. is ≡ is_some (compact_of (text_at key.now self.old))) }
        ensures same { self.new ≡ self.old }
    {
        let value = value_in(&self.last, key);
        judge(alloc, &mut self.judged, key, value)?;
        let json = judged_at(&self.judged, key);
        Ok(is_there(json))
    }
}

/// Whether there is a text.
fn is_there(text: Option<&str>) -> bool
    ensures { result ≡ is_some (text_of text.entry) }
{
    text.is_some()
}

/// The text that bytes are, if they are UTF-8.
fn text_spelled<'a>(text: FooterText<'a>) -> Option<&'a str>
    ensures { text_of result ≡ text_spelled (spelled text.entry) }
{
    match str::from_utf8(text.bytes) {
        Ok(text) => Some(text),
        Err(_) => None,
    }
}

/// The text that a value is, if there is one, and it is UTF-8.
pub(crate) fn value_text<'a>(value: Option<FooterText<'a>>) -> Option<&'a str>
    ensures { text_of result ≡ value_text (option_map spelled value.entry) }
{
    match value {
        Some(value) => text_spelled(value),
        None => None,
    }
}

/// The key and the value of a pair, if both are UTF-8.
fn text_pair<'a>(pair: &KeyValue<'a>) -> Option<(&'a str, &'a str)>
    ensures { option_map (λ q. (q.0.now, q.1.now)) result ≡ text_pair (pairing pair.now) }
{
    match (text_spelled(pair.key), value_text(pair.value)) {
        (Some(key), Some(value)) => Some((key, value)),
        _ => None,
    }
}

/// Puts the value of a pair at its key, if both are UTF-8.
fn put_value<'a>(
    last: &mut BTreeMap<&'a str, &'a str>,
    pair: &KeyValue<'a>,
) -> Result<(), AllocError>
    ensures { OnOk result ((ps : List KeyValue) → AreValues ps last.old → AreValues (ps ++ pair.now ∷ []) last.new) }
{
    match text_pair(pair) {
        None => Ok(()),
        Some((key, value)) => {
            drop(last.insert(key, value)?);
            Ok(())
        }
    }
}

/// The value at a key.
fn value_in<'a>(last: &BTreeMap<&'a str, &'a str>, key: &str) -> Option<&'a str>
    ensures { text_of result ≡ text_of (at last.now key.now) }
{
    match last.get(key) {
        Some(value) => Some(*value),
        None => None,
    }
}

/// Puts the PROJJSON that a value is, if it is one, at its key, unless it was put there before.
fn judge<'a>(
    alloc: Global,
    judged: &mut BTreeMap<&'a str, Option<String>>,
    key: &'a str,
    value: Option<&str>,
) -> Result<(), AllocError>
    ensures stay { (ps : List KeyValue) → AreJudged ps judged.old
        → text_of value.entry ≡ text_at key.now (map pairing ps) → AreJudged ps judged.new }
    ensures known { OnOk result (is_some (at judged.new key.now) ≡ true) }
{
    if judged.contains_key(key) {
        return Ok(());
    }
    let found = compact_of(alloc, value)?;
    drop(judged.insert(key, found)?);
    Ok(())
}

/// The PROJJSON that a value is, without blanks, if it is one.
fn compact_of(alloc: Global, value: Option<&str>) -> Result<Option<String>, AllocError>
    ensures { IfOk result (λ found. option_map string_bytes found ≡ compact_of (text_of value.entry)) }
{
    match value {
        Some(value) => compact_projjson(alloc, value),
        None => Ok(None),
    }
}

/// The PROJJSON at a key, if there is one.
fn judged_at<'m>(judged: &'m BTreeMap<&str, Option<String>>, key: &str) -> Option<&'m str>
    ensures { (t : Option Text) → option_map (option_map string_bytes) (at judged.now key.now) ≡ Some t → text_of result ≡ t }
{
    match judged.get(key) {
        Some(found) => text_in(found),
        None => None,
    }
}

/// A text, if there is one.
fn text_in(text: &Option<String>) -> Option<&str>
    ensures { text_of result ≡ option_map string_bytes text.now }
{
    match text {
        Some(text) => Some(text.as_str()),
        None => None,
    }
}

/// The text of the metadata with a PROJJSON, or where there is none without a CRS.
fn text_by(alloc: Global, json: Option<&str>, edges: Option<Edges>) -> Result<String, AllocError>
    requires { (value : Option Text) × (text_of json ≡ compact_of value) }
    ensures { (value : Option Text) → text_of json.entry ≡ compact_of value
        → IfOk result (λ made. string_bytes made ≡ text_with (keyed_crs value) edges) }
{
    match json {
        Some(json) => {
            let crs = WrittenCrs::Json(json);
            metadata_text(alloc, crs, Some(CrsType::Projjson), edges)
        }
        None => metadata_text(alloc, WrittenCrs::Absent, None, edges),
    }
}
