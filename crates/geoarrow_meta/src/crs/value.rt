//! The value of a CRS.
ghost use Rattle.std.specs.Prelude.{◌≡◌, IfOk};
ghost use Rattle.serde_json.specs.Data.{Data};
ghost use Rattle.serde_json.specs.View.{view, view as data_of};
ghost use Rattle.geoarrow_meta.specs.Code.{data_code, same};
ghost use Rattle.geoarrow_meta.specs.CrsValue.{IsCrsValue, same-equiv, same-per, value_fed, value_fed-same};

use crate::json_values::same_value;
use serde_json::Value;
use std::alloc::{AllocError, Global};
use std::hash::{Hash, Hasher};
use std::marker::Model;

/// A JSON value that may denote a coordinate reference system: it is not null, and its numbers are whole, at any
/// depth. Two are equal, and hash equally, where they are the same JSON value.
#[derive(Debug, Drop)]
pub struct CrsValue {
    value: Value,
}

impl Model for CrsValue {
    ghost Value = { Data };

    ghost coded = { data_code };

    ghost view = { λ c. data_of c.value };

    ghost invariant = { λ c. IsCrsValue (data_of c.value) };
}

impl CrsValue {
    // The value must not be null and must hold whole numbers only.
    pub(crate) fn new(value: Value) -> CrsValue
        requires { IsCrsValue (view value) }
        ensures { result ≡ view value }
    {
        CrsValue { value }
    }

    // The JSON value; it is not null, and its numbers are whole.
    pub(crate) fn as_value(&self) -> &Value
        ensures value { view result.now ≡ self.now }
        ensures valid { IsCrsValue self.now }
    {
        &self.value
    }

    // An equal value. Errs only when out of memory.
    pub(crate) fn try_clone(&self, _alloc: Global) -> Result<CrsValue, AllocError>
        ensures { IfOk result (λ c. c ≡ self.now) }
    {
        let value = self.value.clone()?;
        Ok(CrsValue { value })
    }
}

impl PartialEq for CrsValue {
    ghost eq = { same };

    ghost laws = { same-per };

    fn eq(&self, other: &CrsValue) -> bool {
        same_value(&self.value, &other.value)
    }
}

impl Eq for CrsValue {
    ghost laws = { same-equiv };
}

impl Hash for CrsValue {
    ghost hash_input = { value_fed };

    ghost respects_eq = { value_fed-same };

    fn hash<H: Hasher>(&self, state: &mut H) {
        match &self.value {
            Value::Null => state.write_u8(0),
            Value::Bool(_) => state.write_u8(1),
            Value::Number(_) => state.write_u8(2),
            Value::String(text) => {
                state.write_u8(3);
                text.hash(state);
            }
            Value::Array(_) => state.write_u8(4),
            Value::Object(_) => state.write_u8(5),
        }
    }
}
