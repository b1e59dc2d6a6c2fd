//! The metadata of a GeoArrow extension type: edges, coordinate reference systems and their transforms, and the JSON text
//! at a field's `ARROW:extension:metadata` (GeoArrow, "Extension types", "Extension metadata"). [`metadata_text`] writes that text
//! from a CRS as it is written, token by token, so each number of a PROJJSON stays as it is.
#![tactic(auto)]

pub mod crs;
mod crs_text;
mod edges;
mod error;
mod json_values;
pub mod laws;
mod metadata;
mod text;
mod transform;

pub use crs::{Crs, CrsType};
pub use crs_text::{WrittenCrs, is_projjson_text};
pub use edges::Edges;
pub use json_values::holds_whole_numbers;
pub use metadata::{KeyValues, Metadata, read_values};
pub use text::{compact_projjson, metadata_text};
pub use transform::{CrsTransform, DefaultCrsTransform};
