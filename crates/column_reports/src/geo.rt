//! What a file has at the key `geo`, as the rules of GeoParquet take it.
ghost use Rattle.std.specs.Prelude.{◌≡◌};
ghost use Rattle.geoparquet.specs.Sources.{source};
ghost use Rattle.column_reports.specs.FileReport.{source_in};

use column_files::{Form, GeoText};
use geoparquet::GeoSource;

/// What a file in that format has at the key: of a Parquet file the key is missing where nothing
/// stands at it.
pub(crate) fn source_of<'g>(form: Form, geo: &'g GeoText<'_>) -> GeoSource<'g>
    ensures { source result ≡ source_in form geo.now }
{
    match geo {
        GeoText::Footer(text) => GeoSource::Value(text.bytes),
        GeoText::Schema(text) => GeoSource::Value(text.as_bytes()),
        GeoText::Absent if matches!(form, Form::Parquet) => GeoSource::Missing,
        GeoText::Absent => GeoSource::Unasked,
    }
}
