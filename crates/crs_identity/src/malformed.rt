//! What makes an object no PROJJSON.
ghost use Rattle.std.specs.Prelude.{◌≡◌, ◌++◌, IfOk, OnOk, option_map, string_bytes};
ghost use Rattle.json.specs.Value.{items_view, value_view};
ghost use Rattle.crs_identity.specs.Malformed.{has_text, is_derived_type, is_identifier, is_nameless_type, is_no_identifier, is_plain_type, is_type, malformed_parts, needs_name, part_if, pointer, wrong_ids, wrong_items};

use crate::class::type_of;
use crate::identifiers::{authority_of, code_of};
use json::Value;
use std::alloc::{AllocError, Global};

/// A part of an object that is wrong, so that the object is no PROJJSON.
#[derive(Clone, Copy, Debug, PartialEq, Eq)]
pub enum Part {
    /// `type` is none of the names of CRSs.
    Type,
    /// There is no text at `name`.
    Name,
    /// The value at `id` has no text at `authority`, or no text or whole number at `code`.
    Id,
    /// The item at this place of `ids` has none.
    Item(usize),
    /// Both `id` and `ids` are there.
    BothIds,
}

impl Part {
    /// Returns where the part stands in the object, as a JSON pointer (RFC 6901). Errs only when
    /// out of memory.
    pub fn pointer(self, alloc: Global) -> Result<String, AllocError>
        ensures { IfOk result (λ text. string_bytes text ≡ pointer self) }
    {
        match self {
            Part::Type => String::from_str(alloc, "/type"),
            Part::Name => String::from_str(alloc, "/name"),
            Part::Id => String::from_str(alloc, "/id"),
            Part::Item(place) => format!(in alloc; "/ids/{place}"),
            Part::BothIds => String::from_str(alloc, "/ids"),
        }
    }
}

/// Returns the parts of an object that are wrong, so that it is no PROJJSON; none where it is
/// PROJJSON, as far as this is judged (docs/FORMAT.md, 5.3). Errs only when out of memory.
pub fn malformed_parts(alloc: Global, value: &Value<'_>) -> Result<Vec<Part>, AllocError>
    ensures { IfOk result (λ parts. parts.items ≡ malformed_parts (value_view value.now)) }
{
    let mut parts = Vec::new(alloc);
    let text = type_of(value);
    let named = has_text(value, "name");
    let id = value.get("id");
    let ids = value.get("ids");
    add_if(&mut parts, !is_type(text), Part::Type)?;
    add_if(&mut parts, needs_name(text) && !named, Part::Name)?;
    add_if(&mut parts, is_no_identifier(id), Part::Id)?;
    add_wrong_ids(&mut parts, ids)?;
    add_if(&mut parts, id.is_some() && ids.is_some(), Part::BothIds)?;
    Ok(parts)
}

/// Adds a part if it is wrong. Errs only when out of memory.
fn add_if(parts: &mut Vec<Part>, wrong: bool, part: Part) -> Result<(), AllocError>
    ensures { OnOk result (parts.new.items ≡ parts.old.items ++ part_if wrong part) }
{
    if wrong {
        parts.push(part)?;
    }
    Ok(())
}

/// Adds the items of `ids` that are wrong. Errs only when out of memory.
fn add_wrong_ids(parts: &mut Vec<Part>, ids: Option<&Value<'_>>) -> Result<(), AllocError>
    ensures { OnOk result (parts.new.items
        ≡ parts.old.items ++ wrong_ids (option_map (λ v. value_view v.now) ids.entry)) }
{
    match ids {
        Some(Value::Array(items)) => add_wrong_items(parts, items.as_slice()),
        _ => Ok(()),
    }
}

/// Adds the items that are wrong. Errs only when out of memory.
fn add_wrong_items(parts: &mut Vec<Part>, items: &[Value<'_>]) -> Result<(), AllocError>
    ensures { OnOk result (parts.new.items ≡ parts.old.items
        ++ wrong_items 0 (items_view items.now)) }
{
    for (place, item) in items.iter().enumerate() {
        add_if(parts, !is_identifier(item), Part::Item(place))?;
    }
    Ok(())
}

/// Whether there is a text at a key.
fn has_text(value: &Value<'_>, key: &str) -> bool
    ensures { result ≡ has_text key.now (value_view value.now) }
{
    match value.get(key) {
        Some(found) => found.as_str().is_some(),
        None => false,
    }
}

/// Whether a value has an authority and a code.
fn is_identifier(value: &Value<'_>) -> bool
    ensures { result ≡ is_identifier (value_view value.now) }
{
    authority_of(value).is_some() && code_of(value).is_some()
}

/// Whether a value is there and no identifier.
fn is_no_identifier(value: Option<&Value<'_>>) -> bool
    ensures { result ≡ is_no_identifier (option_map (λ v. value_view v.now) value.entry) }
{
    match value {
        Some(value) => !is_identifier(value),
        None => false,
    }
}

/// Whether a text is the name of a CRS.
fn is_type(text: &str) -> bool
    ensures { result ≡ is_type text.now }
{
    needs_name(text) || is_nameless_type(text)
}

/// Whether a text is the name of a CRS that needs a name.
fn needs_name(text: &str) -> bool
    ensures { result ≡ needs_name text.now }
{
    is_plain_type(text) || is_derived_type(text) || text == "CompoundCRS"
}

/// Whether a text is a name that `Derived` may stand before.
fn is_plain_type(text: &str) -> bool
    ensures { result ≡ is_plain_type text.now }
{
    match text {
        "GeodeticCRS" | "GeographicCRS" | "ProjectedCRS" => true,
        "VerticalCRS" | "EngineeringCRS" => true,
        "ParametricCRS" | "TemporalCRS" => true,
        _ => false,
    }
}

/// Whether a text is one of these names with `Derived` before it.
fn is_derived_type(text: &str) -> bool
    ensures { result ≡ is_derived_type text.now }
{
    match text {
        "DerivedGeodeticCRS" | "DerivedGeographicCRS" | "DerivedProjectedCRS" => true,
        "DerivedVerticalCRS" | "DerivedEngineeringCRS" => true,
        "DerivedParametricCRS" | "DerivedTemporalCRS" => true,
        _ => false,
    }
}

/// Whether a text is the name of what needs no name.
fn is_nameless_type(text: &str) -> bool
    ensures { result ≡ is_nameless_type text.now }
{
    matches!(text, "BoundCRS" | "CoordinateMetadata")
}
