//! The formats of files that are not read.
ghost use Rattle.std.specs.Prelude.{◌≡◌};
ghost use Rattle.arrow_values.specs.Texts.{text_of};
ghost use Rattle.column_files.specs.Foreigns.{format_name, format_help};

/// A format that is not read (docs/FORMAT.md, 2.7).
#[derive(Debug, Clone, Copy, PartialEq, Eq)]
pub enum Foreign {
    /// Feather of version 1.
    Feather,
    /// SQLite's database, as a GeoPackage is.
    Sqlite,
    /// FlatGeobuf.
    FlatGeobuf,
    /// Shapefile: its geometries, or their index.
    Shapefile,
    /// What gzip compresses.
    Gzip,
    /// What zstd compresses.
    Zstd,
    /// What bzip2 compresses.
    Bzip2,
    /// What xz compresses.
    Xz,
    /// A zip archive.
    Zip,
    /// ORC.
    Orc,
    /// Avro.
    Avro,
    /// DuckDB's database.
    DuckDb,
    /// HDF5.
    Hdf5,
    /// The classic format of netCDF.
    NetCdf,
    /// TIFF.
    Tiff,
    /// PDF.
    Pdf,
    /// PMTiles.
    PmTiles,
    /// Text in UTF-16.
    Utf16,
    /// A JSON array.
    JsonArray,
    /// A pointer of Git LFS, which stands in place of a file.
    LfsPointer,
    /// An HTML page.
    Html,
    /// XML.
    Xml,
    /// Text of no other format.
    Text,
    /// Bytes of no other format.
    Unknown,
}

impl Foreign {
    /// Returns what a file of the format is, as reports have it (docs/FORMAT.md, 2.7).
    pub fn name(self) -> &'static str
        ensures { result.now ≡ format_name self }
    {
        match self {
            Foreign::Feather => "a Feather file of version 1",
            Foreign::Sqlite => "a GeoPackage or SQLite database",
            Foreign::FlatGeobuf => "a FlatGeobuf file",
            Foreign::Shapefile => "a Shapefile",
            Foreign::Gzip => "a file compressed by gzip",
            Foreign::Zstd => "a file compressed by zstd",
            Foreign::Bzip2 => "a file compressed by bzip2",
            Foreign::Xz => "a file compressed by xz",
            Foreign::Zip => "a zip archive",
            Foreign::Orc => "an ORC file",
            Foreign::Avro => "an Avro file",
            Foreign::DuckDb => "a DuckDB database",
            Foreign::Hdf5 => "an HDF5 file",
            Foreign::NetCdf => "a netCDF file",
            Foreign::Tiff => "a TIFF image",
            Foreign::Pdf => "a PDF document",
            Foreign::PmTiles => "a PMTiles archive",
            Foreign::Utf16 => "text in UTF-16",
            Foreign::JsonArray => "a JSON array",
            Foreign::LfsPointer => "a Git LFS pointer",
            Foreign::Html => "an HTML page",
            Foreign::Xml => "an XML document",
            Foreign::Text => "text",
            Foreign::Unknown => "bytes of no known format",
        }
    }

    /// Returns what to try with a file of the format, if anything is known (docs/FORMAT.md, 2.7).
    pub fn help(self) -> Option<&'static str>
        ensures { text_of result ≡ format_help self }
    {
        match self {
            Foreign::Feather => {
                Some("Write it anew: pyarrow.feather.read_table, then write_feather")
            }
            Foreign::Sqlite | Foreign::FlatGeobuf | Foreign::Shapefile => {
                Some("Try ogr2ogr out.parquet FILE")
            }
            Foreign::Gzip => Some("Try gzip -dc FILE | geoarrow_check -"),
            Foreign::Zstd => Some("Try zstd -dc FILE | geoarrow_check -"),
            Foreign::Bzip2 => Some("Try bzip2 -dc FILE | geoarrow_check -"),
            Foreign::Xz => Some("Try xz -dc FILE | geoarrow_check -"),
            Foreign::Zip => Some("Unzip it, and check what is in it"),
            Foreign::Orc | Foreign::Avro | Foreign::DuckDb => Some("Convert it to Parquet"),
            Foreign::Utf16 => Some("Try iconv -f UTF-16 -t UTF-8 FILE | geoarrow_check -"),
            Foreign::JsonArray => Some("Try jq -c '.[]' FILE | geoarrow_check -"),
            Foreign::LfsPointer => Some("Try git lfs pull"),
            Foreign::Html => Some("A download may have given a page in place of the file"),
            Foreign::Xml => Some("A download may have given an error in place of the file"),
            Foreign::Text => Some("Lines have one JSON object each"),
            Foreign::Hdf5
            | Foreign::NetCdf
            | Foreign::Tiff
            | Foreign::Pdf
            | Foreign::PmTiles
            | Foreign::Unknown => None,
        }
    }
}
