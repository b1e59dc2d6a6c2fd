//! The format of a CRS value.
ghost use Rattle.std.specs.Prelude.{◌≡◌, ◌↔◌, Some};
ghost use Rattle.geoarrow_meta.specs.declared.crs.crs_type.CrsType.{CrsType};
ghost use Rattle.geoarrow_meta.specs.Read.{crs_type_text};

/// The format of a CRS value (GeoArrow, "Extension types", "Extension metadata", key `crs_type`).
///
/// ```rust
/// assert_eq!(rt; CrsType::from_text("wkt2:2019"), Some(CrsType::Wkt2_2019));
/// assert_eq!(rt; CrsType::AuthorityCode.as_text(), "authority_code");
/// ```
#[derive(Debug, Clone, Copy, PartialEq, Eq, Hash)]
pub enum CrsType {
    /// A PROJJSON object.
    Projjson,
    /// A text of WKT2:2019 (ISO 19162).
    Wkt2_2019,
    /// A text of the form `AUTHORITY:CODE`. For writers that have neither PROJJSON nor WKT.
    AuthorityCode,
    /// An opaque text that only its producer understands. For writers that have nothing else, for example databases.
    Srid,
}

impl CrsType {
    /// The text that denotes the type in a metadata: `projjson`, `wkt2:2019`, `authority_code` or `srid`.
    pub fn as_text(self) -> &'static str
        ensures { result.now ≡ crs_type_text self }
    {
        match self {
            CrsType::Projjson => "projjson",
            CrsType::Wkt2_2019 => "wkt2:2019",
            CrsType::AuthorityCode => "authority_code",
            CrsType::Srid => "srid",
        }
    }

    /// The type that a text denotes; `None` for any other text.
    pub fn from_text(text: &str) -> Option<CrsType>
        ensures { (t : CrsType) → (result ≡ Some t) ↔ (text.now ≡ crs_type_text t) }
    {
        match text {
            "projjson" => Some(CrsType::Projjson),
            "wkt2:2019" => Some(CrsType::Wkt2_2019),
            "authority_code" => Some(CrsType::AuthorityCode),
            "srid" => Some(CrsType::Srid),
            _ => None,
        }
    }
}
