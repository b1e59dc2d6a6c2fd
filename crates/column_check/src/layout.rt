//! The layouts of extension names, in words.
ghost use Rattle.std.specs.Prelude.{◌≡◌, option_map};
ghost use Rattle.arrow_values.specs.Texts.{text_of};
ghost use Rattle.column_check.specs.LayoutWords.{lists_text, layout_text, is_text_type, is_binary_type, storage_help};

use geoarrow_layout::{ExtensionName, NativeKind};

/// Returns the layout of an extension name, in words: the data types that a column of that name may
/// have (`docs/FORMAT.md`, 2.6).
pub(crate) fn layout_text(name: ExtensionName) -> &'static str
    ensures { result.now ≡ layout_text name }
{
    match name {
        ExtensionName::Native(kind) => lists_text(kind),
        ExtensionName::Geometry => {
            "union whose type ids are among 1 to 7, 11 to 17, 21 to 27 and 31 to 37"
        }
        ExtensionName::Rect => {
            "struct of xmin, ymin, zmin, mmin, xmax, ymax, zmax, mmax, or without z, m or both"
        }
        ExtensionName::Wkb => "binary, large_binary or binary_view",
        ExtensionName::Wkt => "utf8, large_utf8 or utf8_view",
    }
}

/// The layout of a native kind: lists of coordinates, or of a union.
fn lists_text(kind: NativeKind) -> &'static str
    ensures { result.now ≡ lists_text kind }
{
    match kind {
        NativeKind::Point => "coordinates",
        NativeKind::LineString => "list<coordinates>",
        NativeKind::Polygon => "list<list<coordinates>>",
        NativeKind::MultiPoint => "list<coordinates>",
        NativeKind::MultiLineString => "list<list<coordinates>>",
        NativeKind::MultiPolygon => "list<list<list<coordinates>>>",
        NativeKind::GeometryCollection => {
            "list<union> whose type ids are among 1 to 6, 11 to 16, 21 to 26 or 31 to 36"
        }
    }
}

/// Returns what helps where a type is no bytes or no text, as that name wants it: the other name,
/// where the type is of that one.
pub(crate) fn storage_help(
    wanted: Option<ExtensionName>,
    found: Option<&str>,
) -> Option<&'static str>
    ensures { option_map (λ text. text.now) result ≡ storage_help wanted (text_of found.entry) }
{
    match (wanted, found) {
        (Some(ExtensionName::Wkb), Some(found)) if is_text_type(found) => {
            Some("For WKT use geoarrow.wkt.")
        }
        (Some(ExtensionName::Wkt), Some(found)) if is_binary_type(found) => {
            Some("For WKB use geoarrow.wkb.")
        }
        _ => None,
    }
}

/// Whether a type of that notation is text.
fn is_text_type(notation: &str) -> bool
    ensures { result ≡ is_text_type notation.now }
{
    matches!(notation, "utf8" | "large_utf8" | "utf8_view")
}

/// Whether a type of that notation is bytes.
fn is_binary_type(notation: &str) -> bool
    ensures { result ≡ is_binary_type notation.now }
{
    matches!(notation, "binary" | "large_binary" | "binary_view")
}
