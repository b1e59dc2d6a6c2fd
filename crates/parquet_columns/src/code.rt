//! What may be found in the footer of a Parquet file: codes, with their severities and words, and where.
ghost use Rattle.std.specs.Prelude.{◌≡◌};
ghost use Rattle.parquet_columns.specs.Codes.{code_of, severity_of, rule_of, expected_of, help_of, part_text};

use parquet_footer::Severity;

/// What is wrong with a file whose columns are read (`docs/FORMAT.md`, 4.5).
#[derive(Clone, Copy, Debug, PartialEq, Eq)]
pub enum FileCode {
    /// The value of `ARROW:schema` is no base64, or holds no schema.
    ArrowSchemaUnreadable,
    /// The schema at `ARROW:schema` has columns of other names than the elements, more or fewer, or in another order.
    ArrowSchemaNames,
    /// The type of a field of the schema at `ARROW:schema` does not fit the element, of a column
    /// that may hold geometries.
    ArrowSchemaContradicts,
    /// The key `geo` stands in the metadata of the schema at `ARROW:schema`, and has no value in
    /// the footer.
    GeoNotInFooter,
    /// An element of a column breaks a rule of the schema, so that the column is not read.
    ElementInvalid,
    /// A group has no children.
    EmptyGroup,
    /// A logical or converted type stands on a physical type that it does not go with.
    LogicalTypeInvalid,
    /// The algorithm of a GEOGRAPHY has a number other than 0 to 4.
    UnknownAlgorithm,
    /// The CRS of a geometry type is `projjson:KEY`, and the key has no value that is a JSON
    /// object.
    CrsKeyMissing,
    /// An element below a column, or one that is REPEATED, is GEOMETRY or GEOGRAPHY.
    NestedGeometry,
    /// A key is `geo` but for the case of its letters, and `geo` has no value.
    NoGeoMetadata,
    /// The key `geo` or `ARROW:schema`, or a key of the extension type of a field, stands several
    /// times with a value.
    RepeatedKey,
    /// Lines begin with a byte order mark.
    ByteOrderMark,
}

impl FileCode {
    /// Each code, in the order of docs/FORMAT.md, 4.5.
    pub const ALL: [FileCode; 13] = [
        FileCode::ArrowSchemaUnreadable,
        FileCode::ArrowSchemaNames,
        FileCode::ArrowSchemaContradicts,
        FileCode::GeoNotInFooter,
        FileCode::ElementInvalid,
        FileCode::EmptyGroup,
        FileCode::LogicalTypeInvalid,
        FileCode::UnknownAlgorithm,
        FileCode::CrsKeyMissing,
        FileCode::NestedGeometry,
        FileCode::NoGeoMetadata,
        FileCode::RepeatedKey,
        FileCode::ByteOrderMark,
    ];

    /// Returns the code, as reports have it.
    pub fn code(self) -> &'static str
        ensures { result.now ≡ code_of self }
    {
        match self {
            Self::ArrowSchemaUnreadable => "ArrowSchemaUnreadable",
            Self::ArrowSchemaNames => "ArrowSchemaNames",
            Self::ArrowSchemaContradicts => "ArrowSchemaContradicts",
            Self::GeoNotInFooter => "GeoNotInFooter",
            Self::ElementInvalid => "ElementInvalid",
            Self::EmptyGroup => "EmptyGroup",
            Self::LogicalTypeInvalid => "LogicalTypeInvalid",
            Self::UnknownAlgorithm => "UnknownAlgorithm",
            Self::CrsKeyMissing => "CrsKeyMissing",
            Self::NestedGeometry => "NestedGeometry",
            Self::NoGeoMetadata => "NoGeoMetadata",
            Self::RepeatedKey => "RepeatedKey",
            Self::ByteOrderMark => "ByteOrderMark",
        }
    }

    /// Returns how much a finding of the code weighs.
    pub fn severity(self) -> Severity
        ensures { result ≡ severity_of self }
    {
        match self {
            Self::ArrowSchemaUnreadable => Severity::Error,
            Self::ArrowSchemaNames => Severity::Warning,
            Self::ArrowSchemaContradicts => Severity::Error,
            Self::GeoNotInFooter => Severity::Warning,
            Self::ElementInvalid => Severity::Error,
            Self::EmptyGroup => Severity::Warning,
            Self::LogicalTypeInvalid => Severity::Error,
            Self::UnknownAlgorithm => Severity::Warning,
            Self::CrsKeyMissing => Severity::Error,
            Self::NestedGeometry => Severity::Warning,
            Self::NoGeoMetadata => Severity::Warning,
            Self::RepeatedKey => Severity::Warning,
            Self::ByteOrderMark => Severity::Note,
        }
    }

    /// Returns when the code is found.
    pub fn rule(self) -> &'static str
        ensures { result.now ≡ rule_of self }
    {
        match self {
            Self::ArrowSchemaUnreadable =>
                "the value of ARROW:schema is no base64, or no message of a schema",
            Self::ArrowSchemaNames =>
                "the columns at ARROW:schema have other names than the elements, another number or another order",
            Self::ArrowSchemaContradicts =>
                "the type of a field at ARROW:schema does not fit the element, of a column that may hold geometries",
            Self::GeoNotInFooter =>
                "geo stands in the metadata of the schema at ARROW:schema, and has no value in the footer",
            Self::ElementInvalid => "an element of the column breaks a rule of the schema",
            Self::EmptyGroup => "a group has no children",
            Self::LogicalTypeInvalid =>
                "a logical or converted type stands on a physical type that it does not go with",
            Self::UnknownAlgorithm => "the algorithm of a GEOGRAPHY has a number other than 0 to 4",
            Self::CrsKeyMissing =>
                "the CRS of a geometry type is projjson:KEY, and KEY has no value that is a JSON object",
            Self::NestedGeometry =>
                "an element below a column, or one that is REPEATED, is GEOMETRY or GEOGRAPHY",
            Self::NoGeoMetadata =>
                "a key is geo but for the case of its letters, and geo has no value",
            Self::RepeatedKey =>
                "geo, ARROW:schema or an extension key of a field stands several times with a value",
            Self::ByteOrderMark => "lines begin with a byte order mark",
        }
    }

    /// Returns what is expected where the code is found.
    pub fn expected(self) -> &'static str
        ensures { result.now ≡ expected_of self }
    {
        match self {
            Self::ArrowSchemaUnreadable => "an Arrow schema in base64",
            Self::ArrowSchemaNames => "the names of the elements, in their order",
            Self::ArrowSchemaContradicts => "a type that the element has",
            Self::GeoNotInFooter => "geo among the keys of the footer",
            Self::ElementInvalid => "an element that keeps the rule",
            Self::EmptyGroup => "children",
            Self::LogicalTypeInvalid => "the physical type of that type",
            Self::UnknownAlgorithm => "0 to 4, spherical, vincenty, thomas, andoyer or karney",
            Self::CrsKeyMissing => "a key whose value is PROJJSON",
            Self::NestedGeometry => "a column at the root that is not REPEATED",
            Self::NoGeoMetadata => "geo",
            Self::RepeatedKey => "one value of the key",
            Self::ByteOrderMark => "lines without one",
        }
    }

    /// Returns what helps.
    pub fn help(self) -> &'static str
        ensures { result.now ≡ help_of self }
    {
        match self {
            Self::ArrowSchemaUnreadable =>
                "The columns are those of the elements; remove the key or write it anew.",
            Self::ArrowSchemaNames =>
                "The columns are those of the elements; remove the key or write it anew.",
            Self::ArrowSchemaContradicts =>
                "Readers that follow the stored schema cannot read the column; its type here is that of the element.",
            Self::GeoNotInFooter =>
                "Readers of GeoParquet look in the footer; it is not used here.",
            Self::ElementInvalid => "The column is not read, the others are.",
            Self::EmptyGroup => "It is a struct of no fields.",
            Self::LogicalTypeInvalid => "Other readers refuse the file; the type is ignored here.",
            Self::UnknownAlgorithm => "The edges are not known, and the element says none.",
            Self::CrsKeyMissing => "The CRS is not known, and the element says none.",
            Self::NestedGeometry => "GeoParquet takes columns at the root alone.",
            Self::NoGeoMetadata =>
                "Readers of GeoParquet look for geo in small letters; it is not used here.",
            Self::RepeatedKey => "The last counts here; other readers take the first.",
            Self::ByteOrderMark => "It is passed over.",
        }
    }
}

/// The part of a file in which something is found.
#[derive(Clone, Copy, Debug, PartialEq, Eq)]
pub enum FilePart {
    /// The footer, whose bytes are counted.
    Footer,
    /// The value of `ARROW:schema`, whose bytes are counted.
    StoredText,
    /// The message that the value of `ARROW:schema` spells in base64, whose bytes are counted.
    StoredMessage,
    /// The elements of the schema; the bytes of the footer are counted.
    Elements,
    /// A field of an Arrow file.
    Field,
    /// The file itself.
    File,
}

impl FilePart {
    /// Returns the part, as reports have it: `footer`, `ARROW:schema`, `elements`,
    /// `field` or `file`.
    pub fn text(self) -> &'static str
        ensures { result.now ≡ part_text self }
    {
        match self {
            Self::Footer => "footer",
            Self::StoredText => "ARROW:schema",
            Self::StoredMessage => "ARROW:schema",
            Self::Elements => "elements",
            Self::Field => "field",
            Self::File => "file",
        }
    }
}
