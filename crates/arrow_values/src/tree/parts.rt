//! A field, made and read, and its extension texts.
ghost use Rattle.std.specs.Prelude.{◌≡◌, [], Some, IsOk, IfOk, string_bytes};
ghost use Rattle.std.specs.Option.{option_map};
ghost use Rattle.arrow_values.specs.Tree.{list, field_tree};
ghost use Rattle.arrow_values.specs.View.{tree, texts_of};
ghost use Rattle.arrow_values.specs.Texts.{text_of, extension_name, extension_metadata, set_extension, SetsExtension};
ghost use Rattle.arrow_values.specs.Name.{fixed_text};

use crate::texts::{has_extension, set_extension, text_at};
use crate::tree::{DataType, Field, FixedName, Name};
use std::alloc::{AllocError, Global};
use std::collections::BTreeMap;

/// The metadata key for the name of a field's extension type (Arrow, "Extension Types").
pub const EXTENSION_TYPE_NAME_KEY: &str = "ARROW:extension:name";

/// The metadata key for the metadata of a field's extension type (Arrow, "Extension Types").
pub const EXTENSION_TYPE_METADATA_KEY: &str = "ARROW:extension:metadata";

impl Field {
    /// A field of that name, data type and nullability, without metadata. Errs only when out of memory.
    pub fn new(
        alloc: Global,
        name: &str,
        data_type: DataType,
        nullable: bool,
    ) -> Result<Field, AllocError>
        ensures { IfOk result (λ f. f ≡ field_tree name.now (tree data_type) nullable []) }
    {
        let name = String::from_str(alloc, name)?;
        Ok(Field::from_parts(name, data_type, nullable, BTreeMap::new(alloc)))
    }

    /// A field with a name that layouts use, that data type and nullability, without metadata. Allocates nothing.
    pub fn fixed(alloc: Global, name: FixedName, data_type: DataType, nullable: bool) -> Field
        ensures { result ≡ field_tree (fixed_text name) (tree data_type) nullable [] }
    {
        Field {
            name: Name::Fixed(name),
            data_type,
            nullable,
            metadata: BTreeMap::new(alloc),
        }
    }

    /// A field of type `List(value)`, without metadata of its own. Errs only when out of memory.
    pub fn new_list(
        alloc: Global,
        name: &str,
        value: Field,
        nullable: bool,
    ) -> Result<Field, AllocError>
        ensures { IfOk result (λ f. f ≡ field_tree name.now (list value.name value.tree value.nullable value.metadata) nullable []) }
    {
        let value = Box::new(alloc, value)?;
        Field::new(alloc, name, DataType::List(value), nullable)
    }

    /// The field with these parts, which are moved in. Allocates nothing.
    pub fn from_parts(
        name: String,
        data_type: DataType,
        nullable: bool,
        metadata: BTreeMap<String, String>,
    ) -> Field
        ensures { result ≡ field_tree (string_bytes name) (tree data_type) nullable (texts_of metadata.entries) }
    {
        Field {
            name: Name::Owned(name),
            data_type,
            nullable,
            metadata,
        }
    }

    /// The name.
    #[tactic(auto, using(crate::proofs::Equal::same_parts))]
    #[inline(always)]
    pub fn name(&self) -> &str
        ensures { result.now ≡ self.now.name }
    {
        self.name.as_str()
    }

    /// The data type.
    #[tactic(auto, using(crate::proofs::Equal::same_parts))]
    pub fn data_type(&self) -> &DataType
        ensures { tree result.now ≡ self.now.tree }
    {
        &self.data_type
    }

    /// Whether its values may be null.
    #[tactic(auto, using(crate::proofs::Equal::same_parts))]
    pub fn is_nullable(&self) -> bool
        ensures { result ≡ self.now.nullable }
    {
        self.nullable
    }

    /// The metadata: a map of texts.
    #[tactic(auto, using(crate::proofs::Equal::same_parts))]
    pub fn metadata(&self) -> &BTreeMap<String, String>
        ensures { texts_of result.now.entries ≡ self.now.metadata }
    {
        &self.metadata
    }

    /// The parts of the field: name, data type, nullability and metadata, as `from_parts` takes them. Nothing is copied but a
    /// name that layouts have. Errs only when out of memory.
    pub fn into_parts(
        self,
        alloc: Global,
    ) -> Result<(String, DataType, bool, BTreeMap<String, String>), AllocError>
        ensures { IfOk result (λ parts. field_tree (string_bytes parts.0) (tree parts.1) parts.2 (texts_of parts.3.entries) ≡ self) }
    {
        let name = self.name.into_text(alloc)?;
        Ok((name, self.data_type, self.nullable, self.metadata))
    }

    /// The field with that map as its metadata.
    pub fn with_metadata(self, metadata: BTreeMap<String, String>) -> Field
        ensures { result ≡ record self { metadata = texts_of metadata.entries } }
    {
        let mut field = self;
        field.metadata = metadata;
        field
    }

    /// Replaces the field's metadata with that map.
    pub fn set_metadata(&mut self, metadata: BTreeMap<String, String>)
        ensures { self.new ≡ record self.old { metadata = texts_of metadata.entries } }
    {
        self.metadata = metadata;
    }

    /// The field with that data type.
    pub fn with_data_type(self, data_type: DataType) -> Field
        ensures { result ≡ record self { tree = tree data_type } }
    {
        let mut field = self;
        field.data_type = data_type;
        field
    }

    /// The field with that extension name and that text of its metadata (Arrow, "Extension Types"): the name at
    /// `EXTENSION_TYPE_NAME_KEY`, and at `EXTENSION_TYPE_METADATA_KEY` the text, or nothing. Whether the data type can carry
    /// an extension type of that name is not tested. Errs only when out of memory. A field that has them so already stays
    /// as it is, which allocates nothing.
    #[tactic(auto, using(crate::proofs::Equal::same_parts, crate::proofs::TextLaws::sets_extension))]
    pub fn with_extension_texts(
        self,
        alloc: Global,
        name: &str,
        text: Option<String>,
    ) -> Result<Field, AllocError>
        ensures written { IfOk result (λ f. f ≡ record self { metadata = set_extension name.now (option_map string_bytes text) self.metadata }) }
        ensures keys { IfOk result (λ f. SetsExtension name.now (option_map string_bytes text) self.metadata f.metadata) }
        ensures no_memory { extension_name self ≡ Some name.now → extension_metadata self ≡ option_map string_bytes text → IsOk result }
    {
        if has_extension(&self.metadata, name, &text) {
            return Ok(self);
        }
        let Field {
            name: own_name,
            data_type,
            nullable,
            mut metadata,
        } = self;
        set_extension(alloc, &mut metadata, name, text)?;
        Ok(Field {
            name: own_name,
            data_type,
            nullable,
            metadata,
        })
    }

    /// The text at `EXTENSION_TYPE_NAME_KEY`, if there is one.
    #[inline(always)]
    pub fn extension_type_name(&self) -> Option<&str>
        ensures { text_of result ≡ extension_name self.now }
    {
        text_at(&self.metadata, EXTENSION_TYPE_NAME_KEY)
    }

    /// The text at `EXTENSION_TYPE_METADATA_KEY`, if there is one.
    #[inline(always)]
    pub fn extension_type_metadata(&self) -> Option<&str>
        ensures { text_of result ≡ extension_metadata self.now }
    {
        text_at(&self.metadata, EXTENSION_TYPE_METADATA_KEY)
    }
}
