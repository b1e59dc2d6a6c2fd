//! Extension types, and the calls of a field that use them.
ghost use Rattle.std.specs.Prelude.{◌≡◌, ◌⊎◌, ◌↔◌, true, IsOk, IsSome, IfOk, IfErr, OnOk, OnErr, MatchResult, Option, string_bytes};
ghost use Rattle.std.specs.Option.{option_map};

use crate::error::{ArrowError, invalid_argument};
use crate::texts::{clone_texts, set_extension};
use crate::tree::{DataType, Field};
use std::alloc::Global;

/// A type that is written on a field by a name and a metadata text, and that can be written over some data types (Arrow,
/// "Extension Types").
///
/// An implementation says what it means by its ghost members: which text its metadata prints, which metadata a text
/// denotes, and which data types it accepts and as what. A field's calls are proved once, only from these.
///
/// ```rust
/// let mut field = Field::new(alloc, "geom", DataType::Binary, true)?;
/// field.try_with_extension_type(alloc, &WkbType::try_default(alloc)?)?;
/// assert_eq!(rt; field.extension_type_name(), Some("geoarrow.wkb"));
/// assert!(rt; field.try_extension_type::<WkbType>(alloc).is_ok());
/// assert!(rt; field.try_extension_type::<WktType>(alloc).is_err());
/// ```
pub trait ExtensionType: Sized {
    ghost use Rattle.arrow_values.specs.Tree.{Text, Tree};
    ghost use Rattle.arrow_values.specs.View.{tree};
    ghost use Rattle.arrow_values.specs.Texts.{text_of};
    ghost use Rattle.arrow_values.specs.Errors.{IsMemory};
    ghost use Rattle.arrow_values.specs.declared.error.ArrowError.{ArrowError};

    /// The name of the extension type.
    const NAME: &'static str;

    /// What the metadata text of the extension type denotes.
    type Metadata;

    // The bytes of `NAME`.
    ghost name_text: { Text };

    // The metadata of a type.
    ghost metadata_of: { Self → Self.Metadata };

    // The text that a metadata prints, if any.
    ghost printed: { Self.Metadata → Option Text };

    // What metadata says: two metadata of one value say the same.
    ghost Value: { Type 0 };

    // The value of a metadata.
    ghost value_of: { Self.Metadata → Value };

    // A text, or none, denotes a value.
    ghost Denotes: { Option Text → Value → Type 0 };

    // A tree is accepted as the shape of a type, whatever its metadata is.
    ghost Accepts: { Tree → Self → Type 0 };

    // Two types are of one shape: they agree in coordinate type and dimension, as far as they have them.
    ghost Agrees: { Self → Self → Type 0 };

    // How a text is refused, out-of-memory aside.
    ghost RefusesText: { Option Text → ArrowError → Type 0 };

    // How a tree is refused where a type is made, out-of-memory aside.
    ghost RefusesTree: { Tree → ArrowError → Type 0 };

    // How a tree is refused where a type is written, out-of-memory aside.
    ghost RefusesUse: { Self → Tree → ArrowError → Type 0 };

    /// `NAME`.
    fn extension_name() -> &'static str
        ensures { result.now ≡ name_text };

    /// The metadata of this type.
    fn metadata(&self) -> &Self::Metadata
        ensures { result.now ≡ metadata_of self.now };

    /// The text that the metadata prints, or `None` if it prints none, which allocates nothing. Errs only when out of memory,
    /// and only if there is a text.
    fn serialize_metadata(&self, alloc: Global) -> Result<Option<String>, ArrowError>
        ensures { MatchResult result (λ text. option_map string_bytes text ≡ printed (metadata_of self.now))
            (λ e. IsMemory e × IsSome (printed (metadata_of self.now))) };

    /// A metadata of the value that a text, or its absence, denotes. Errs if it denotes none, and otherwise only
    /// when out of memory.
    fn deserialize_metadata(
        alloc: Global,
        metadata: Option<&str>,
    ) -> Result<Self::Metadata, ArrowError>
        ensures exact { MatchResult result (λ m. Denotes (text_of metadata.entry) (value_of m))
            (λ e. IsMemory e ⊎ ((v : Value) → Denotes (text_of metadata.entry) v → ⊥)) }
        ensures refusal { IfErr result (λ e. IsMemory e ⊎ RefusesText (text_of metadata.entry) e) };

    /// Whether this type can be written on a field of that data type: the data type is accepted as this type's shape. If it
    /// is accepted, this allocates nothing; if not, this errs.
    fn supports_data_type(&self, alloc: Global, data_type: &DataType) -> Result<(), ArrowError>
        ensures exact { IsOk result ↔ Accepts (tree data_type.now) self.now }
        ensures refusal { IfErr result (λ e. IsMemory e ⊎ RefusesUse self.now (tree data_type.now) e) };

    /// The type with that metadata and with the shape that the data type is accepted as. If it is accepted as a shape, this
    /// allocates nothing; if not, this errs.
    fn try_new(
        alloc: Global,
        data_type: &DataType,
        metadata: Self::Metadata,
    ) -> Result<Self, ArrowError>
        ensures exact { MatchResult result (λ e. Accepts (tree data_type.now) e × (metadata_of e ≡ metadata))
            (λ _. (e : Self) → Accepts (tree data_type.now) e → ⊥) }
        ensures refusal { IfErr result (λ e. IsMemory e ⊎ RefusesTree (tree data_type.now) e) };

    // A tree is accepted as one shape alone.
    ghost accepts_one: { (t : Tree) (a b : Self) → Accepts t a → Accepts t b → Agrees a b };

    // A text, or its absence, denotes one value alone.
    ghost denotes_one: { (t : Option Text) (v w : Value) → Denotes t v → Denotes t w → v ≡ w };

    // A tree that is accepted as one type's shape is accepted as that of each type that agrees with it.
    ghost accepts_by_shape: { (t : Tree) (a e : Self) → Accepts t a → Agrees e a → Accepts t e };

    ghost agrees_with_itself: { (e : Self) → Agrees e e };
}

impl Field {
    ghost use Rattle.arrow_values.specs.Errors.{IsMemory};
    ghost use Rattle.arrow_values.specs.Texts.{SetsExtension};
    ghost use Rattle.arrow_values.specs.Extension.{Carries, IsRefusedAs, Writes, DenotesPrinted};

    /// The extension type that is written on the field: its name, the metadata that its metadata text denotes, and the
    /// shape that its data type is accepted as. Errs with `InvalidArgumentError` if there is no extension name, or
    /// another one; then as `deserialize_metadata` and `try_new` err.
    #[tactic(auto, using(crate::proofs::Refusals::unnamed_refused, crate::proofs::Refusals::text_refused, crate::proofs::Refusals::tree_refused))]
    pub fn try_extension_type<E: ExtensionType>(&self, alloc: Global) -> Result<E, ArrowError>
        ensures ok { IfOk result (Carries E.ExtensionType self.now) }
        ensures only { IfOk result (λ e. (a : E) → Carries E.ExtensionType self.now a
            → E.Agrees e a × (E.value_of (E.metadata_of e) ≡ E.value_of (E.metadata_of a))) }
        ensures refused { IfErr result (λ r. IsMemory r ⊎ IsRefusedAs E.ExtensionType self.now r) }
    {
        let Some(name) = self.extension_type_name() else {
            return Err(invalid_argument(alloc, "extension name missing"));
        };
        if name != E::extension_name() {
            return Err(invalid_argument(alloc, "extension name differs"));
        }
        let metadata = E::deserialize_metadata(alloc, self.extension_type_metadata())?;
        E::try_new(alloc, self.data_type(), metadata)
    }

    /// Writes an extension type on the field: its name at the name key, and at the metadata key the text of its
    /// metadata, or nothing. Errs as `supports_data_type` does if the type cannot be written over the field's data type,
    /// and otherwise only when out of memory; the field is then unchanged.
    #[tactic(auto, using(crate::proofs::TextLaws::sets_extension))]
    pub fn try_with_extension_type<E: ExtensionType>(
        &mut self,
        alloc: Global,
        extension_type: &E,
    ) -> Result<(), ArrowError>
        ensures ok { OnOk result (Writes E.ExtensionType self.old extension_type.now self.new) }
        ensures keys { OnOk result (SetsExtension E.name_text (E.printed (E.metadata_of extension_type.now))
            self.old.metadata self.new.metadata) }
        ensures supported { OnOk result (E.Accepts self.old.tree extension_type.now) }
        ensures refused { IfErr result (λ r. IsMemory r ⊎ ¬ E.Accepts self.old.tree extension_type.now) }
        ensures handed_on { IfErr result (λ r. IsMemory r ⊎ E.RefusesUse extension_type.now self.old.tree r) }
        ensures unchanged { OnErr result (self.new ≡ self.old) }
    {
        extension_type.supports_data_type(alloc, self.data_type())?;
        let text = extension_type.serialize_metadata(alloc)?;
        let mut texts = clone_texts(self.metadata())?;
        set_extension(alloc, &mut texts, E::extension_name(), text)?;
        self.set_metadata(texts);
        Ok(())
    }

    /// The field with an extension type written on it, as `try_with_extension_type` does. The field's data type must
    /// be accepted by the type, which `supports_data_type` tests. Errs only when out of memory.
    pub fn with_extension_type<E: ExtensionType>(
        self,
        alloc: Global,
        extension_type: &E,
    ) -> Result<Field, ArrowError>
        requires { E.Accepts self.tree extension_type.now }
        ensures written { MatchResult result (Writes E.ExtensionType self extension_type.now) IsMemory }
        ensures keys { IfOk result (λ f. SetsExtension E.name_text (E.printed (E.metadata_of extension_type.now))
            self.metadata f.metadata) }
    {
        let text = extension_type.serialize_metadata(alloc)?;
        Ok(self.with_extension_texts(alloc, E::extension_name(), text)?)
    }

    /// A law: a field reads as only one value of an extension type. There is nothing to run.
    pub fn reads_as_one<E: ExtensionType>(&self, one: &E, other: &E)
        ensures { Carries E.ExtensionType self.now one.now → Carries E.ExtensionType self.now other.now
            → E.Agrees one.now other.now × (E.value_of (E.metadata_of one.now) ≡ E.value_of (E.metadata_of other.now)) }
    {}

    /// A law: a field on which an extension type was written reads as that type, where the text that its metadata
    /// prints, or its absence, denotes that metadata. There is nothing to run.
    pub fn reads_back<E: ExtensionType>(&self, extension_type: &E, written: &Field)
        ensures { E.Accepts self.now.tree extension_type.now → DenotesPrinted E.ExtensionType extension_type.now
            → Writes E.ExtensionType self.now extension_type.now written.now
            → Carries E.ExtensionType written.now extension_type.now }
    {}

    /// A law: a data type is accepted as a type's shape exactly where it is accepted as that of a type which agrees with
    /// it. There is nothing to run.
    pub fn supports_where_one_agrees<E: ExtensionType>(&self, extension_type: &E)
        ensures there { E.Accepts self.now.tree extension_type.now
            → ((a : E) × (E.Accepts self.now.tree a × E.Agrees extension_type.now a)) }
        ensures back { (a : E) → E.Accepts self.now.tree a → E.Agrees extension_type.now a
            → E.Accepts self.now.tree extension_type.now }
    {}
}
