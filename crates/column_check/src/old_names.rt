//! Extension names that are read as others, which replace them.
ghost use Rattle.std.specs.Prelude.{◌≡◌};
ghost use Rattle.column_check.specs.OldNames.{current_name, is_old_name};

/// The extension name as which one is read: an old one as the new one, any other as itself.
pub(crate) fn current_name(name: &str) -> &str
    ensures { result.now ≡ current_name name.now }
{
    match name {
        "ogc.wkb" => "geoarrow.wkb",
        "ogc.wkt" => "geoarrow.wkt",
        _ => name,
    }
}

/// Whether an extension name is an old one.
pub(crate) fn is_old_name(name: &str) -> bool
    ensures { result ≡ is_old_name name.now }
{
    matches!(name, "ogc.wkb" | "ogc.wkt")
}
