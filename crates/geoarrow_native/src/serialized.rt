//! The serialized encodings, written once for well-known binary and text.
ghost use Rattle.std.specs.Prelude.{◌≡◌, IfOk, IfErr, refl};
ghost use Rattle.std.specs.Arc.{arc_value};
ghost use Rattle.geoarrow_layout.specs.declared.native_kinds.Width.{Width};
ghost use Rattle.geoarrow_layout.specs.declared.names.ExtensionName.{ExtensionName};
ghost use Rattle.geoarrow_layout.specs.declared.names.ExtensionName.TheVariants as names;
ghost use Rattle.geoarrow_layout.specs.Cited.{FaultAt, HasFault, IsBytes, IsText, Tree, YieldsOne, name_text, tree};
ghost use Rattle.geoarrow_meta.specs.Read.{empty};

use crate::column::{ColumnEncoding, ColumnType};
use arrow_values::{ArrowError, DataType};
use geoarrow_layout::{LayoutFault, Width, parse_wkb, parse_wkt};
use geoarrow_meta::Metadata;
use std::alloc::{AllocError, Global};
use std::fmt;
use std::marker::PhantomData;
use std::sync::Arc;

/// How geometries are serialized: the parameter of `Serialized`. Each is an empty struct.
pub trait Encoding {
    /// The extension name.
    const NAME: &'static str;

    /// The name of the type, as `Debug` prints it.
    const TYPE: &'static str;

    // The extension name.
    ghost name: { ExtensionName };

    // The data type holds geometries in this encoding, in a width.
    ghost IsStored: { Width → Tree → Type 0 };

    /// `NAME`.
    fn encoding_name() -> &'static str
        ensures { result.now ≡ name_text name };

    /// The width in which a data type holds geometries in this encoding. Errs where it holds none, with the fault that the
    /// data type has under the extension name.
    fn parse(data_type: &DataType) -> Result<Width, LayoutFault>
        ensures exact { YieldsOne result (λ w. IsStored w (tree data_type.now)) }
        ensures fault { IfErr result (HasFault (FaultAt name (tree data_type.now))) };
}

/// Well-known binary.
pub struct Wkb;

impl Encoding for Wkb {
    const NAME: &'static str = "geoarrow.wkb";

    const TYPE: &'static str = "WkbType";

    ghost name = { names.Wkb };

    ghost IsStored = { IsBytes };

    fn encoding_name() -> &'static str {
        Self::NAME
    }

    fn parse(data_type: &DataType) -> Result<Width, LayoutFault> {
        parse_wkb(data_type)
    }
}

/// Well-known text.
pub struct Wkt;

impl Encoding for Wkt {
    const NAME: &'static str = "geoarrow.wkt";

    const TYPE: &'static str = "WktType";

    ghost name = { names.Wkt };

    ghost IsStored = { IsText };

    fn encoding_name() -> &'static str {
        Self::NAME
    }

    fn parse(data_type: &DataType) -> Result<Width, LayoutFault> {
        parse_wkt(data_type)
    }
}

/// A serialized encoding: geometries of any kind and dimension.
#[derive(Drop)]
#[derive_where(Clone, Copy, PartialEq, Eq, Hash)]
pub struct Serialized<E> {
    #[derive_where(skip)]
    pub(crate) encoding: PhantomData<E>,
}

/// A serialized type. `WkbType` and `WktType` are this type at their encodings.
pub type SerializedType<E> = ColumnType<Serialized<E>>;

/// Well-known binary (GeoArrow, "WKB"): each value is the bytes of one geometry.
///
/// ```rust
/// let geometries = GeoArrowType::LargeWkb(WkbType::try_default(alloc)?);
/// assert!(rt; geometries.to_data_type(alloc)? == DataType::LargeBinary);
/// ```
pub type WkbType = SerializedType<Wkb>;

/// Well-known text (GeoArrow, "WKT"): each value is the text of one geometry.
///
/// ```rust
/// let texts = WktType::try_default(alloc)?;
/// assert!(rt; texts.supports_data_type(alloc, &DataType::Utf8View).is_ok());
/// assert!(rt; texts.supports_data_type(alloc, &DataType::Binary).is_err());
/// ```
pub type WktType = SerializedType<Wkt>;

impl<E: Encoding> ColumnType<Serialized<E>> {
    /// The type of that metadata.
    pub fn new(metadata: Arc<Metadata>) -> ColumnType<Serialized<E>>
        ensures { result.metadata ≡ metadata }
    {
        let encoding = PhantomData;
        let encoding = Serialized { encoding };
        ColumnType { encoding, metadata }
    }

    /// `new` of the default metadata. Errs only when out of memory.
    pub fn try_default(alloc: Global) -> Result<ColumnType<Serialized<E>>, AllocError>
        ensures { IfOk result (λ e. arc_value e.metadata ≡ empty) }
    {
        Ok(Self::new(Arc::new(alloc, Metadata::default())?))
    }
}

impl<E: Encoding> fmt::Debug for ColumnType<Serialized<E>> {
    fn fmt<W: fmt::Write>(&self, f: &mut fmt::Formatter<W>) -> fmt::Result {
        f.debug_struct(E::TYPE)
            .field("metadata", &self.metadata)
            .finish()
    }
}

impl<E: Encoding> ColumnEncoding for Serialized<E> {
    const NAME: &'static str = E::NAME;

    ghost name = { E.name };

    ghost Accepts = { λ t _. (w : Width) × E.IsStored w t };

    ghost accepts_one = { λ t a b h k. refl };

    fn encoding_name() -> &'static str {
        E::encoding_name()
    }

    fn read(alloc: Global, data_type: &DataType) -> Result<Serialized<E>, ArrowError> {
        E::parse(data_type).map_err(|fault| fault.into_arrow_error(alloc))?;
        let encoding = PhantomData;
        Ok(Serialized { encoding })
    }

    fn difference(&self, _other: &Serialized<E>) -> Option<&'static str> {
        None
    }
}
