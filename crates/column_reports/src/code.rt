//! The codes of what may be found, of whatever source.
ghost use Rattle.std.specs.Prelude.{◌≡◌};
ghost use Rattle.arrow_values.specs.Texts.{text_of};
ghost use Rattle.column_reports.specs.Codes.{word_of, as_of_columns, severity_of, rule_of};
ghost use Rattle.column_reports.specs.Codes.{expected_of, help_of};

use crate::asked::AskedCode;
use column_check::{Severity, WarningCode};
use geoparquet::{GeoCode, Version};
use parquet_columns::FileCode;
use parquet_footer::FooterCode;

/// What may be found: a code of one of the sources.
#[derive(Debug, Clone, Copy)]
pub enum Code {
    /// Of a column (docs/FORMAT.md, 2.6).
    Column(WarningCode),
    /// Of the texts of a footer (docs/FORMAT.md, 4.3).
    Text(FooterCode),
    /// Of the schemas and the keys of a Parquet file (docs/FORMAT.md, 4.5).
    File(FileCode),
    /// Of GeoParquet metadata (docs/FORMAT.md, 5).
    Geo(GeoCode),
    /// Of what is asked of a file and not met (docs/FORMAT.md, 2.7).
    Asked(AskedCode),
}

/// A severity of the footer, as those of columns are.
fn as_of_columns(severity: parquet_footer::Severity) -> Severity
    ensures { result ≡ as_of_columns severity }
{
    match severity {
        parquet_footer::Severity::Error => Severity::Error,
        parquet_footer::Severity::Warning => Severity::Warning,
        parquet_footer::Severity::Note => Severity::Note,
    }
}

impl Code {
    /// Returns the code as a word, as reports have it.
    ///
    /// ```rust
    /// assert_eq!(rt; Code::Geo(GeoCode::Bbox).word(), "GeoBbox");
    /// assert_eq!(rt; Code::Text(FooterCode::KeyNotText).word(), "KeyNotText");
    /// ```
    pub fn word(self) -> &'static str
        ensures { result.now ≡ word_of self }
    {
        match self {
            Code::Column(code) => code.code(),
            Code::Text(code) => code.code(),
            Code::File(code) => code.code(),
            Code::Geo(code) => code.code(),
            Code::Asked(code) => code.word(),
        }
    }

    /// Returns how much a finding of the code weighs.
    ///
    /// ```rust
    /// let severity = Code::File(FileCode::RepeatedKey).severity();
    /// assert!(rt; matches!(severity, Severity::Warning));
    /// ```
    pub fn severity(self) -> Severity
        ensures { result ≡ severity_of self }
    {
        match self {
            Code::Column(code) => code.severity(),
            Code::Text(code) => as_of_columns(code.severity()),
            Code::File(code) => as_of_columns(code.severity()),
            Code::Geo(code) => code.severity(),
            Code::Asked(_) => Severity::Error,
        }
    }

    /// Returns when the code is found, in words.
    ///
    /// ```rust
    /// assert_eq!(rt; Code::Geo(GeoCode::Epoch).rule(), "epoch is neither absent nor a number");
    /// ```
    pub fn rule(self) -> &'static str
        ensures { result.now ≡ rule_of self }
    {
        match self {
            Code::Column(code) => code.message(),
            Code::Text(code) => code.rule(),
            Code::File(code) => code.rule(),
            Code::Geo(code) => code.rule(),
            Code::Asked(code) => code.rule(),
        }
    }

    /// Returns what is expected where the code is found, in words; of GeoParquet metadata by the
    /// version by which they are judged.
    ///
    /// ```rust
    /// let code = Code::Geo(GeoCode::Edges);
    /// assert_eq!(rt; code.expected(Version::V1_1), "planar or spherical");
    /// ```
    pub fn expected(self, version: Version) -> &'static str
        ensures { result.now ≡ expected_of version self }
    {
        match self {
            Code::Column(code) => code.expected(),
            Code::Text(code) => code.expected(),
            Code::File(code) => code.expected(),
            Code::Geo(code) => code.expected(version),
            Code::Asked(code) => code.expected(),
        }
    }

    /// Returns what helps where the code is found, in words, if there is something to say; of
    /// GeoParquet metadata by the version by which they are judged.
    ///
    /// ```rust
    /// let code = Code::Text(FooterCode::KeyNotText);
    /// assert_eq!(rt; code.help(Version::V1_1), Some("It is passed over."));
    /// ```
    pub fn help(self, version: Version) -> Option<&'static str>
        ensures { text_of result ≡ help_of version self }
    {
        match self {
            Code::Column(code) => code.help(),
            Code::Text(code) => Some(code.help()),
            Code::File(code) => Some(code.help()),
            Code::Geo(code) => code.advice(version),
            Code::Asked(code) => Some(code.help()),
        }
    }
}
