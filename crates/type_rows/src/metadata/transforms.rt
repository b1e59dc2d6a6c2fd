//! What a CRS is converted to, by the transform that converts nothing and by one of these tests.
use crate::metadata::texts::metadata_of;
use arrow_values::{GeoArrowError, GeoArrowResult};
use geoarrow_meta::{Crs, CrsTransform};
use rows::asked::Asked;
use rows::said::Said;
use serde_json::Value;
use std::alloc::Global;
use std::fmt::Display;
use std::mem::ManuallyDrop;

/// It converts each CRS to one text, and none to PROJJSON.
#[derive(Debug, Drop)]
pub struct OneText {}

impl CrsTransform for OneText {
    ghost use Rattle.std.specs.Prelude.{⊤};

    ghost projjson_gives = { λ _ _ _. ⊤ };

    ghost wkt_gives = { λ _ _ _. ⊤ };

    fn _convert_to_projjson(&self, alloc: Global, _crs: &Crs) -> GeoArrowResult<Option<Value>> {
        Err(GeoArrowError::Crs(String::from_str(alloc, "no PROJJSON")?))
    }

    fn _convert_to_wkt(&self, alloc: Global, _crs: &Crs) -> GeoArrowResult<Option<String>> {
        Ok(Some(String::from_str(alloc, "ENGCRS[]")?))
    }
}

/// Says the text or the PROJJSON value that a CRS is converted to, `-` for none, or what the refusal prints.
fn say_converted<T: Display + Drop>(said: &mut Said, found: GeoArrowResult<Option<T>>) {
    match &*ManuallyDrop::new(found) {
        Ok(Some(found)) => said.shown(found),
        Ok(None) => said.push("-"),
        Err(error) => said.geoarrow_refusal(error),
    }
}

/// Says what a call of a transform answers for the CRS of a metadata text.
pub fn converted<T: CrsTransform>(it: &mut Asked<'_>, transform: &T, call: &str) {
    let metadata = metadata_of(&mut it.said, it.text);
    let crs = metadata.crs();
    it.before();
    match call {
        "extract_wkt" => say_converted(&mut it.said, transform.extract_wkt(it.alloc, crs)),
        "_convert_to_wkt" => say_converted(&mut it.said, transform._convert_to_wkt(it.alloc, crs)),
        "extract_projjson" => {
            say_converted(&mut it.said, transform.extract_projjson(it.alloc, crs));
        }
        "_convert_to_projjson" => {
            say_converted(&mut it.said, transform._convert_to_projjson(it.alloc, crs));
        }
        _ => it.no_command(),
    }
    it.after();
}
