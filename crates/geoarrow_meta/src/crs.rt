//! Coordinate reference systems.
ghost use Rattle.std.specs.Prelude.{◌≡◌, ◌↔◌, false, Some, None, IfOk, IsTrue, IsSome, IfSome, Contains, option_map, string_bytes};
ghost use Rattle.serde_json.specs.Data.{string};
ghost use Rattle.serde_json.specs.Find.{as_object};
ghost use Rattle.serde_json.specs.View.{view};
ghost use Rattle.serde_json.specs.Written.{has_float};
ghost use Rattle.geoarrow_meta.specs.CrsValue.{IsCrsValue};

mod crs_type;
mod value;

use crate::json_values::{holds_whole_numbers, same_value};
pub use crs_type::CrsType;
use serde_json::Value;
use std::alloc::{AllocError, Global};
pub use value::CrsValue;

/// A coordinate reference system in a metadata (GeoArrow, "Extension types", "Extension metadata", keys `crs`
/// and `crs_type`): a JSON value, if there is one, and the format of that value, if it is known. The value is
/// never null, and its numbers are whole, at any depth (see [`Crs::is_projjson`]). The default has
/// neither value nor type. Two are equal, and then hash equally, if the JSON value and the type are equal.
///
/// Whatever axis order a CRS defines, coordinates are in the order longitude, latitude or easting, northing, as in
/// GeoPackage.
///
/// ```rust
/// let code = String::from_str(alloc, "EPSG:4326")?;
/// assert!(rt; Crs::is_authority_code(code.as_str()));
/// let crs = Crs::from_authority_code(code);
/// assert_eq!(rt; crs.crs_type(), Some(CrsType::AuthorityCode));
/// ```
#[derive(Debug, Default, PartialEq, Eq, Hash, Drop)]
pub struct Crs {
    pub(crate) value: Option<CrsValue>,
    pub(crate) crs_type: Option<CrsType>,
}

impl Crs {
    /// Whether `from_projjson` accepts the value: it is an object, and each number in it, at any depth, is whole:
    /// `serde_json` holds it as a 64-bit integer, so 1.5 is not whole, and neither are 1.0, 1e2 and -0. Allocates
    /// nothing.
    pub fn is_projjson(value: &Value) -> bool
        ensures { IsTrue result ↔ (IsSome (as_object (view value.now))
            × (has_float (view value.now) ≡ false)) }
    {
        value.is_object() && holds_whole_numbers(value)
    }

    /// Whether `from_authority_code` accepts the text: it contains a colon. Allocates nothing.
    pub fn is_authority_code(code: &str) -> bool
        ensures { IsTrue result ↔ Contains code.now 58 }
    {
        code.as_bytes().contains(&b':')
    }

    /// The CRS of a PROJJSON object (PROJ, "PROJJSON"), of type `Projjson`. The value must be an object whose numbers
    /// are whole, which `is_projjson` tests.
    ///
    /// ```rust
    /// let value = Value::from_str(alloc, r#"{"type":"GeographicCRS"}"#)?;
    /// assert!(rt; Crs::is_projjson(&value));
    /// let crs = Crs::from_projjson(value);
    /// assert_eq!(rt; crs.crs_type(), Some(CrsType::Projjson));
    /// ```
    pub fn from_projjson(value: Value) -> Crs
        requires object { IsSome (as_object (view value)) }
        requires whole { has_float (view value) ≡ false }
        ensures value { result.value ≡ Some (view value) }
        ensures crs_type { result.crs_type ≡ Some CrsType.Projjson }
    {
        Crs {
            value: Some(CrsValue::new(value)),
            crs_type: Some(CrsType::Projjson),
        }
    }

    /// The CRS of a text of WKT2:2019 (ISO 19162), of type `Wkt2_2019`; the text is not checked.
    pub fn from_wkt2_2019(text: String) -> Crs
        ensures value { result.value ≡ Some (string (string_bytes text)) }
        ensures crs_type { result.crs_type ≡ Some CrsType.Wkt2_2019 }
    {
        Crs::of_text(text, Some(CrsType::Wkt2_2019))
    }

    /// The CRS of a text `AUTHORITY:CODE`, of type `AuthorityCode`. The text must contain a colon, which
    /// `is_authority_code` tests.
    pub fn from_authority_code(code: String) -> Crs
        requires { Contains (string_bytes code) 58 }
        ensures value { result.value ≡ Some (string (string_bytes code)) }
        ensures crs_type { result.crs_type ≡ Some CrsType.AuthorityCode }
    {
        Crs::of_text(code, Some(CrsType::AuthorityCode))
    }

    /// The CRS of an opaque text that only its producer understands, of type `Srid`.
    pub fn from_srid(srid: String) -> Crs
        ensures value { result.value ≡ Some (string (string_bytes srid)) }
        ensures crs_type { result.crs_type ≡ Some CrsType.Srid }
    {
        Crs::of_text(srid, Some(CrsType::Srid))
    }

    /// The CRS of a text whose format is not known: it has no type.
    pub fn from_unknown_crs_type(crs: String) -> Crs
        ensures value { result.value ≡ Some (string (string_bytes crs)) }
        ensures crs_type { result.crs_type ≡ None }
    {
        Crs::of_text(crs, None)
    }

    // The CRS of a text, of that type.
    fn of_text(text: String, crs_type: Option<CrsType>) -> Crs
        ensures value { result.value ≡ Some (string (string_bytes text)) }
        ensures crs_type { result.crs_type ≡ crs_type }
    {
        let value = Some(CrsValue::new(Value::String(text)));
        Crs { value, crs_type }
    }

    /// The format of the value, if it is known.
    pub fn crs_type(&self) -> Option<CrsType>
        ensures { result ≡ self.now.crs_type }
    {
        self.crs_type
    }

    /// The JSON value, if there is one; it is not null, and its numbers are whole.
    pub fn crs_value(&self) -> Option<&Value>
        ensures value { option_map (λ v. view v.now) result ≡ self.now.value }
        ensures valid { IfSome self.now.value IsCrsValue }
    {
        self.value.as_ref().map(CrsValue::as_value)
    }

    // Whether both hold the same value, or none.
    #[tactic(auto, using(crate::specs::Code::same_decides))]
    pub(crate) fn same_value(&self, other: &Crs) -> bool
        ensures same { IsTrue result ↔ (self.now.value ≡ other.now.value) }
        ensures valid { IfSome self.now.value IsCrsValue }
        ensures other_valid { IfSome other.now.value IsCrsValue }
    {
        match (self.crs_value(), other.crs_value()) {
            (None, None) => true,
            (Some(a), Some(b)) => same_value(a, b),
            _ => false,
        }
    }

    /// An equal CRS. Errs only when out of memory.
    pub fn try_clone(&self, alloc: Global) -> Result<Crs, AllocError>
        ensures { IfOk result (λ c. c ≡ self.now) }
    {
        let value = self.value.as_ref().map(|value| value.try_clone(alloc));
        let value = value.transpose()?;
        let crs_type = self.crs_type;
        Ok(Crs { value, crs_type })
    }
}
