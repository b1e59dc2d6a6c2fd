//! What is found, of whatever source.
ghost use Rattle.std.specs.Prelude.{◌≡◌, map, option_map, string_bytes};
ghost use Rattle.arrow_values.specs.Texts.{text_of};
ghost use Rattle.column_reports.specs.Found.{code_in, column_in, path_in};
ghost use Rattle.column_reports.specs.Found.{column_part, own_pointer, geo_part, geo_pointer, part_in, pointer_in, byte_in, more_in};

use crate::asked::AskedFinding;
use crate::code::Code;
use crate::named::NamedBy;
use column_check::Warning;
use geoparquet::{FactSource, GeoCode, GeoFinding, Version};
use parquet_columns::FileFinding;
use parquet_footer::FooterFinding;

/// What is found of a column or of a file: a rule that is not kept, where, and what stands there.
#[derive(Debug, Drop)]
pub enum Finding<'a> {
    /// What is wrong or doubtful of a column, in the report of that column (docs/FORMAT.md, 2.6);
    /// and who gives the column its extension metadata.
    Column(NamedBy, Warning),
    /// A text of the footer of a Parquet file that is not UTF-8 (docs/FORMAT.md, 4.3).
    Text(FooterFinding<'a>),
    /// What is found of the schemas and the keys of a Parquet file (docs/FORMAT.md, 4.5).
    File(FileFinding),
    /// What is found in GeoParquet metadata, and the version by which they are judged
    /// (docs/FORMAT.md, 5).
    Geo(Version, GeoFinding),
    /// What is asked of the file and not met (docs/FORMAT.md, 2.7).
    Asked(AskedFinding),
}

impl<'a> Finding<'a> {
    /// Returns the code.
    pub fn code(&self) -> Code
        ensures { result ≡ code_in self.now }
    {
        match self {
            Finding::Column(_, warning) => Code::Column(warning.code),
            Finding::Text(finding) => Code::Text(finding.code),
            Finding::File(finding) => Code::File(finding.code),
            Finding::Geo(_, finding) => Code::Geo(finding.code),
            Finding::Asked(finding) => Code::Asked(finding.code),
        }
    }

    /// Returns the name of the column, if the finding is of one. A finding of a column leaves it
    /// to the report of the column.
    pub fn column(&self) -> Option<&str>
        ensures { text_of result ≡ column_in self.now }
    {
        match self {
            Finding::Column(_, _) | Finding::Text(_) => None,
            Finding::File(finding) => finding.column.as_deref(),
            Finding::Geo(_, finding) => finding.column.as_deref(),
            Finding::Asked(finding) => finding.column.as_deref(),
        }
    }

    /// Returns the names of the child fields from the column down to where the finding is; none
    /// where it is of the column itself, or of no column.
    pub fn path(&self) -> &[String]
        ensures { map string_bytes result.now ≡ path_in self.now }
    {
        match self {
            Finding::Column(_, warning) => warning.path.as_slice(),
            Finding::File(finding) => finding.path.as_slice(),
            Finding::Text(_) | Finding::Geo(_, _) | Finding::Asked(_) => &[],
        }
    }

    /// Returns the part of the file or of the column, as reports have it: `footer`, `ARROW:schema`,
    /// `field`, `extension metadata`, `elements`, `geo` or `arguments`, and what else `FilePart::text` of
    /// `parquet_columns` returns.
    pub fn part(&self) -> Option<&'static str>
        ensures { text_of result ≡ part_in self.now }
    {
        match self {
            Finding::Column(by, warning) => Some(column_part(*by, &warning.pointer)),
            Finding::Text(finding) => Some(finding.code.part()),
            Finding::File(finding) => Some(finding.place.part.text()),
            Finding::Geo(_, finding) => Some(geo_part(finding.source, finding.code)),
            Finding::Asked(finding) => Some(finding.code.part()),
        }
    }

    /// Returns where the finding is in that part, as a JSON pointer (RFC 6901), if the part is
    /// JSON; it is empty for the whole.
    pub fn pointer(&self) -> Option<&str>
        ensures { text_of result ≡ pointer_in self.now }
    {
        match self {
            Finding::Column(_, warning) => warning.pointer.as_deref(),
            Finding::Text(_) | Finding::File(_) | Finding::Asked(_) => None,
            Finding::Geo(_, finding) => {
                geo_pointer(finding.source, finding.code, finding.pointer.as_str())
            }
        }
    }

    /// Returns the byte of that part at which the finding is, if a byte tells the place.
    pub fn byte(&self) -> Option<u64>
        ensures { result ≡ byte_in self.now }
    {
        match self {
            Finding::Text(finding) => Some(finding.text.byte as u64),
            Finding::File(finding) => wide(finding.place.byte),
            Finding::Column(_, _) | Finding::Geo(_, _) | Finding::Asked(_) => None,
        }
    }

    /// Returns how many more the finding stands for, which are not told one by one.
    pub fn more(&self) -> usize
        ensures { result ≡ more_in self.now }
    {
        match self {
            Finding::Column(_, warning) => warning.more,
            Finding::Geo(_, finding) => finding.more,
            Finding::Text(_) | Finding::File(_) | Finding::Asked(_) => 0,
        }
    }
}

/// The extension metadata of a column, where there is a pointer into them, or the elements, where
/// these are what one denotes; and else its field.
fn column_part(by: NamedBy, pointer: &Option<String>) -> &'static str
    ensures { result.now ≡ column_part by (option_map string_bytes pointer.now) }
{
    match (pointer, by) {
        (None, _) => "field",
        (Some(_), NamedBy::Element) => "elements",
        (Some(_), _) => "extension metadata",
    }
}

/// The part of a finding of `geoparquet`, by the source that it is found in: those metadata, or the
/// file, where it has none; the elements; the field, or its extension metadata.
fn geo_part(source: FactSource, code: GeoCode) -> &'static str
    ensures { result.now ≡ geo_part source code }
{
    match (source, code) {
        (FactSource::Element, _) => "elements",
        (FactSource::Field, GeoCode::EncodingContradicts) => "field",
        (FactSource::Field, _) => "extension metadata",
        (FactSource::Geo, GeoCode::NoMetadata) => "file",
        (FactSource::Geo, _) => "geo",
    }
}

/// Where a finding is in what an element or a field says.
fn own_pointer(code: GeoCode) -> Option<&'static str>
    ensures { text_of result ≡ own_pointer code }
{
    match code {
        GeoCode::EncodingContradicts => None,
        GeoCode::CrsContradicts | GeoCode::CrsNotCompared => Some("/crs"),
        _ => Some("/edges"),
    }
}

/// Where a finding of `geoparquet` is in its part.
fn geo_pointer(source: FactSource, code: GeoCode, pointer: &str) -> Option<&str>
    ensures { text_of result ≡ geo_pointer source code pointer.now }
{
    match (source, code) {
        (FactSource::Geo, GeoCode::NoMetadata) => None,
        (FactSource::Geo, _) => Some(pointer),
        (FactSource::Element | FactSource::Field, _) => own_pointer(code),
    }
}

/// A number of 64 bits, if there is one.
fn wide(number: Option<usize>) -> Option<u64>
    ensures { result ≡ number }
{
    match number {
        Some(number) => Some(number as u64),
        None => None,
    }
}
