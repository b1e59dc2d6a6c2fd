//! An extension type of one's own: a field is read as it and written by the same calls as the types of GeoArrow.
//!
//! To write another, begin with a copy of this module, which stands on `arrow_values` and `geoarrow_meta` alone. Its ghost members say
//! what the type means. Its functions are proved to do what they say, and what the calls of a field promise for the type, they
//! promise in the same terms. The last four members are laws, with their proofs.
//!
//! - The name is `NAME`, and its bytes are `name_text`.
//! - The metadata is of the type `Metadata`. `printed` is the text that it prints; `Denotes` says which texts denote which value
//!   of it, and `RefusesText` how all others are refused. Several texts may denote one value, but no text two: that is the
//!   law `denotes_one`.
//! - `Accepts` says over which data types the type is written. `supports_data_type` and `try_new` test it, and allocate nothing where
//!   it holds; `RefusesUse` and `RefusesTree` say how they refuse all others.
//! - A type that has a shape, such as a dimension, keeps it in a field of its struct. Then `Accepts` holds between a data type and
//!   the types of its shape, and `Agrees` between types of one shape; the other three laws join the two.
use arrow_values::{ArrowError, DataType, ExtensionType};
use geoarrow_meta::Metadata;
use std::alloc::Global;

/// An extension type that is written on binary columns, and is nothing but its metadata.
///
/// `Field::try_with_extension_type` writes it on a column, and `Field::try_extension_type` reads it from one.
#[derive(Debug, Drop)]
pub struct Marked {
    /// The metadata, in the form of GeoArrow (GeoArrow, "Extension metadata").
    pub metadata: Metadata,
}

impl ExtensionType for Marked {
    ghost use Rattle.std.specs.Prelude.{◌≡◌, true, codes, ⊤};
    ghost use Rattle.arrow_values.specs.Tree.{plain, binary};
    ghost use Rattle.arrow_values.specs.Errors.{is_schema};
    ghost use Rattle.geoarrow_meta.specs.Written.{printed as printed_text};
    ghost use Rattle.geoarrow_meta.specs.Read.{DenotesMetadata, TextRefusedAs};
    ghost use Rattle.geoarrow_meta.specs.declared.metadata.Metadata.{Metadata as MetadataValue};
    ghost use Rattle.geoarrow_meta.specs.Laws.{text_denotes_one};

    const NAME: &'static str = "example.marked";

    type Metadata = Metadata;

    ghost name_text = { codes "example.marked" };

    ghost metadata_of = { λ e. e.metadata };

    ghost printed = { printed_text };

    // Each metadata is a value of its own.
    ghost Value = { MetadataValue };

    ghost value_of = { λ m. m };

    ghost Denotes = { DenotesMetadata };

    // Binary columns are accepted, whatever the type is.
    ghost Accepts = { λ t _. t ≡ plain binary };

    // There is one shape, so all types are of the same.
    ghost Agrees = { λ _ _. ⊤ };

    ghost RefusesText = { TextRefusedAs };

    ghost RefusesTree = { λ _ r. is_schema r ≡ true };

    ghost RefusesUse = { λ _ _ r. is_schema r ≡ true };

    ghost accepts_one = { λ t a b h k. tt };

    ghost denotes_one = { text_denotes_one };

    ghost accepts_by_shape = { λ t a e h _. h };

    ghost agrees_with_itself = { λ e. tt };

    fn extension_name() -> &'static str {
        Self::NAME
    }

    fn metadata(&self) -> &Metadata {
        &self.metadata
    }

    fn serialize_metadata(&self, alloc: Global) -> Result<Option<String>, ArrowError> {
        self.metadata.serialize(alloc)
    }

    fn deserialize_metadata(alloc: Global, metadata: Option<&str>) -> Result<Metadata, ArrowError> {
        Metadata::deserialize(alloc, metadata)
    }

    fn supports_data_type(&self, alloc: Global, data_type: &DataType) -> Result<(), ArrowError> {
        if let DataType::Binary = data_type {
            return Ok(());
        }
        Err(ArrowError::schema_error(alloc, "unexpected data type"))
    }

    fn try_new(
        alloc: Global,
        data_type: &DataType,
        metadata: Metadata,
    ) -> Result<Marked, ArrowError> {
        let marked = Marked { metadata };
        marked.supports_data_type(alloc, data_type)?;
        Ok(marked)
    }
}
