//! The errors with which a metadata is refused.
ghost use Rattle.std.specs.Prelude.{◌≡◌, ◌⊎◌, Some, None};
ghost use Rattle.arrow_values.specs.Errors.{IsMemory as IsArrowMemory, IsArrowFormOf};
ghost use Rattle.arrow_values.specs.Tree.{Text};
ghost use Rattle.serde_json.specs.Data.{Data};
ghost use Rattle.serde_json.specs.Read.{read};
ghost use Rattle.geoarrow_meta.specs.Read.{HasFloat, RefusedAs, TextRefusedAs, IsExternalOrMemory};

use arrow_values::{ArrowError, GeoArrowError};
use std::alloc::{AllocError, Global};
use value_tokens::Refusal;

// A `Crs` error of that text; out-of-memory where there is none for the text.
pub(crate) fn crs_fault(alloc: Global, text: &str) -> GeoArrowError
    ensures { (d : Data) → HasFloat d → RefusedAs d result }
{
    String::from_str(alloc, text).map_or(AllocError.into(), GeoArrowError::Crs)
}

// An `External` error of that text; out-of-memory where there is none for the text.
pub(crate) fn external_fault(alloc: Global, text: &str) -> GeoArrowError
    ensures { IsExternalOrMemory result }
{
    String::from_str(alloc, text).map_or(AllocError.into(), GeoArrowError::External)
}

// The error as one of Arrow; out-of-memory where there is none for the box.
pub(crate) fn into_external(alloc: Global, error: GeoArrowError) -> ArrowError
    ensures { IsArrowMemory result ⊎ IsArrowFormOf error result }
{
    error
        .into_arrow_error(alloc)
        .unwrap_or(ArrowError::OutOfMemory)
}

// What is answered for a text that was not read.
pub(crate) fn unread(alloc: Global, refusal: Refusal) -> ArrowError
    ensures memory { IsArrowMemory result ⊎ (refusal ≡ Refusal.Text) }
    ensures refused { (s : Text) → (refusal ≡ Refusal.Text → read s ≡ None)
        → TextRefusedAs (Some s) result }
{
    match refusal {
        Refusal::Memory => ArrowError::OutOfMemory,
        Refusal::Text => into_external(alloc, external_fault(alloc, "metadata is not JSON")),
    }
}
