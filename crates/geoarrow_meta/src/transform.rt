//! Conversions of a coordinate reference system.
ghost use Rattle.std.specs.Prelude.{◌≡◌, MatchOption, Option, None, Ok, Result, String};
ghost use Rattle.std.specs.declared.alloc.Global.{Global};
ghost use Rattle.serde_json.specs.declared.value.Value.{Value};
ghost use Rattle.arrow_values.specs.declared.error.GeoArrowError.{GeoArrowError};
ghost use Rattle.geoarrow_meta.specs.declared.crs.Crs.{Crs};
ghost use Rattle.geoarrow_meta.specs.Transform.{own_projjson, own_wkt, AnswersValue, AnswersText};

use crate::crs::{Crs, CrsType};
use arrow_values::GeoArrowResult;
use serde_json::Value;
use std::alloc::Global;
use std::fmt::Debug;

/// Converts a CRS to the format that a reader needs. The two ghost members of an implementation say what its
/// conversions may return for a CRS. Call `extract_projjson` and `extract_wkt`, which return a CRS that is in the format
/// already unchanged; do not call the two conversions, which need not do so.
///
/// ```rust
/// match DefaultCrsTransform::default().extract_projjson(alloc, metadata.crs())? {
///     Some(value) => Ok(Some(value.to_string(alloc)?)),
///     None => Ok(None),
/// }
/// ```
pub trait CrsTransform: Debug {
    // What the conversion to PROJJSON may answer for a CRS.
    ghost projjson_gives: { Self → Crs → Result (Option Value) GeoArrowError → Type 0 };

    // What the conversion to WKT may answer for a CRS.
    ghost wkt_gives: { Self → Crs → Result (Option (String Global)) GeoArrowError → Type 0 };

    /// The CRS as PROJJSON, if it can be converted. It need not handle a CRS that is PROJJSON already.
    fn _convert_to_projjson(&self, alloc: Global, crs: &Crs) -> GeoArrowResult<Option<Value>>
        ensures { projjson_gives self.now crs.now result };

    /// The CRS as a text of WKT2:2019, if it can be converted. It need not handle a CRS that is such a text already.
    fn _convert_to_wkt(&self, alloc: Global, crs: &Crs) -> GeoArrowResult<Option<String>>
        ensures { wkt_gives self.now crs.now result };

    /// The CRS as PROJJSON: if its type is `Projjson`, a copy of its value (this errs only when out of memory), or
    /// `None` if it has no value; otherwise what the conversion returns.
    fn extract_projjson(&self, alloc: Global, crs: &Crs) -> GeoArrowResult<Option<Value>>
        ensures { MatchOption (own_projjson crs.now) (projjson_gives self.now crs.now result)
            (AnswersValue result) }
    {
        if let Some(CrsType::Projjson) = crs.crs_type() {
            Ok(crs.crs_value().map(Value::clone).transpose()?)
        } else {
            self._convert_to_projjson(alloc, crs)
        }
    }

    /// The CRS as a text of WKT2:2019: if its type is `Wkt2_2019` and its value a text, a copy of that text (this errs
    /// only when out of memory); otherwise what the conversion returns.
    fn extract_wkt(&self, alloc: Global, crs: &Crs) -> GeoArrowResult<Option<String>>
        ensures { MatchOption (own_wkt crs.now) (wkt_gives self.now crs.now result)
            (AnswersText result) }
    {
        if let Some(CrsType::Wkt2_2019) = crs.crs_type() {
            if let Some(text) = crs.crs_value().and_then(Value::as_str) {
                return Ok(Some(String::from_str(alloc, text)?));
            }
        }
        self._convert_to_wkt(alloc, crs)
    }
}

/// The transform that converts nothing: both conversions return `None`, which allocates nothing. So a writer of a format that
/// allows only one form of CRS loses each CRS of another form if it uses this transform.
///
/// ```rust
/// let crs = Crs::from_wkt2_2019(String::from_str(alloc, r#"GEOGCRS["WGS 84"]"#)?);
/// let transform = DefaultCrsTransform::default();
/// assert!(rt; transform.extract_wkt(alloc, &crs)?.is_some());
/// assert!(rt; transform.extract_projjson(alloc, &crs)?.is_none());
/// ```
#[derive(Debug, Clone, Default, Drop)]
pub struct DefaultCrsTransform {}

impl CrsTransform for DefaultCrsTransform {
    ghost projjson_gives = { λ _ _ r. r ≡ Ok None };

    ghost wkt_gives = { λ _ _ r. r ≡ Ok None };

    fn _convert_to_projjson(&self, _alloc: Global, _crs: &Crs) -> GeoArrowResult<Option<Value>> {
        Ok(None)
    }

    fn _convert_to_wkt(&self, _alloc: Global, _crs: &Crs) -> GeoArrowResult<Option<String>> {
        Ok(None)
    }
}
