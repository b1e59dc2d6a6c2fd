//! Extension names that GeoArrow or OGC would have to give.
ghost use Rattle.std.specs.Prelude.{◌≡◌, IfOk};
ghost use Rattle.arrow_values.specs.Texts.{text_of};
ghost use Rattle.parquet_columns.specs.Reserved.{is_reserved};

use std::alloc::{AllocError, Global};

/// Returns whether there is an extension name, and only GeoArrow or OGC would give it (docs/FORMAT.md,
/// 2.6). Errs only when out of memory.
pub fn is_reserved(alloc: Global, name: Option<&str>) -> Result<bool, AllocError>
    ensures { IfOk result (λ is. is ≡ is_reserved (text_of name.entry)) }
{
    let Some(name) = name else {
        return Ok(false);
    };
    let small = name.to_ascii_lowercase(alloc)?;
    Ok(small.as_bytes().starts_with(b"geoarrow.") || name.as_bytes().starts_with(b"ogc."))
}
