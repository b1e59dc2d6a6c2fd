//! The names of columns that are taken for well-known binary or text.
ghost use Rattle.std.specs.Prelude.{◌≡◌, IfOk, map};
ghost use Rattle.std.specs.List.{list_any};
ghost use Rattle.column_check.specs.GeometryNames.{is_alone_or_behind, is_geometry_name, may_be_taken};

use geoarrow_layout::Kind;
use std::alloc::{AllocError, Global};

/// The names, in small letters.
const NAMES: &[&str] = &[
    "geometry",
    "geom",
    "the_geom",
    "shape",
    "geography",
    "geog",
    "wkb",
    "wkb_geometry",
    "wkt",
];

/// Returns whether a column of that name may be taken for that kind (`docs/FORMAT.md`, 2.6). Errs only
/// when out of memory.
pub(crate) fn may_be_taken(alloc: Global, name: &str, kind: Kind) -> Result<bool, AllocError>
    ensures { IfOk result (λ may. may ≡ may_be_taken name.now kind) }
{
    match kind {
        Kind::Wkb(_) | Kind::Wkt(_) => is_geometry_name(alloc, name),
        _ => Ok(true),
    }
}

/// Whether a text is one of the names in any letters, alone or behind `_`.
fn is_geometry_name(alloc: Global, text: &str) -> Result<bool, AllocError>
    ensures { IfOk result (λ is. is ≡ is_geometry_name text.now) }
{
    let small = text.to_ascii_lowercase(alloc)?;
    Ok(is_some_of(small.as_str(), NAMES))
}

/// Whether a text is some of these names, alone or behind `_`.
fn is_some_of(text: &str, names: &[&str]) -> bool
    ensures { result ≡ list_any (is_alone_or_behind text.now) (map (λ name. name.now) names.now) }
{
    let [name, rest @ ..] = names else {
        return false;
    };
    is_alone_or_behind(text, name) || is_some_of(text, rest)
}

/// Whether a text is that name, alone or behind `_`.
fn is_alone_or_behind(text: &str, name: &str) -> bool
    ensures { result ≡ is_alone_or_behind text.now name.now }
{
    match text.as_bytes().strip_suffix(name.as_bytes()) {
        Some(front) => front.is_empty() || front.ends_with(b"_"),
        None => false,
    }
}
