//! What stands at the key `geo` of the metadata of a file.
ghost use Rattle.std.specs.Prelude.{◌≡◌, option_map};
ghost use Rattle.arrow_values.specs.Texts.{text_at};
ghost use Rattle.arrow_values.specs.View.{texts_of};
ghost use Rattle.parquet_footer.specs.Spelled.{spelled};
ghost use Rattle.column_files.specs.Geo.{geo_of, of_footer, of_schema};
ghost use Rattle.column_files.specs.InFile.{spelled_in_file};
ghost use Rattle.parquet_columns.specs.Findings.{geo_key};

use crate::in_file::text_in_file;
use parquet_columns::GEO_KEY;
use parquet_footer::FooterText;
use std::collections::BTreeMap;

/// What stands at the key `geo` of the metadata of a file.
#[derive(Debug, Drop)]
pub enum GeoText<'a> {
    /// Nothing.
    Absent,
    /// The value of the key in the footer of a Parquet file, which need not be UTF-8: a part of the
    /// bytes that were read, and where it begins in the file.
    Footer(FooterText<'a>),
    /// The value of the key in the metadata of the schema of an Arrow file or stream.
    Schema(String),
}

/// What stands at the key in a footer that begins there in the file, and has this value of it, if
/// any.
pub(crate) fn geo_of_footer<'a>(begin: usize, value: Option<FooterText<'a>>) -> GeoText<'a>
    ensures { geo_of result ≡ of_footer (option_map (spelled_in_file begin) (option_map spelled value.entry)) }
{
    match value {
        Some(text) => GeoText::Footer(text_in_file(begin, text)),
        None => GeoText::Absent,
    }
}

/// What stands at the key in the metadata of a schema, from which it is taken out.
pub(crate) fn take_geo<'a>(metadata: &mut BTreeMap<String, String>) -> GeoText<'a>
    ensures { geo_of result ≡ of_schema (text_at geo_key (texts_of metadata.old.entries)) }
{
    match metadata.remove(GEO_KEY) {
        Some(text) => GeoText::Schema(text),
        None => GeoText::Absent,
    }
}
