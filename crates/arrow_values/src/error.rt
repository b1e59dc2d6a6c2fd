//! Why a call is refused: Arrow's error, the one of GeoArrow, which hold each other, and that of joining two unions.
ghost use Rattle.std.specs.Prelude.{◌≡◌, ◌⊎◌, IfOk, IsOk, true};
ghost use Rattle.arrow_values.specs.Errors.{IsArrowFormOf, is_arrow, IsInvalidArgument, IsMemory, IsGeoMemory, IsSchemaOf, IsInvalidOf};
ghost use Rattle.arrow_values.specs.declared.error.ArrowError.TheVariants.{OutOfMemory};
ghost use Rattle.arrow_values.specs.declared.error.GeoArrowError.TheVariants.{Arrow, IOError};

use std::alloc::{AllocError, AllocFailed, Global};
use std::io;
use thiserror::Error;

/// The errors of Arrow's schema crate that this library returns or passes on, and out of memory.
///
/// ```rust
/// let unnamed = Field::new(alloc, "geom", DataType::Binary, true)?;
/// let refused = unnamed.try_extension_type::<WkbType>(alloc);
/// assert!(rt; matches!(refused, Err(ArrowError::InvalidArgumentError(_))));
/// ```
#[derive(Debug, Drop, Error)]
#[cycle(errors)]
pub enum ArrowError {
    /// A data type is not one of those that are expected.
    #[error("Schema error: {0}")]
    SchemaError(String),
    /// An argument is not valid.
    #[error("Invalid argument error: {0}")]
    InvalidArgumentError(String),
    /// An error of GeoArrow, passed through Arrow.
    #[error("External error: {0}")]
    ExternalError(Box<GeoArrowError>),
    /// There was no memory for the result.
    #[error("Out of memory")]
    OutOfMemory,
}

/// The errors of GeoArrow. This library returns only `Arrow`, `Crs`, `External` and `InvalidGeoArrow`; the other
/// variants are for the crates that use it.
///
/// ```rust
/// let error = GeoArrowError::invalid_geoarrow(alloc, "no points");
/// let text = format!(in alloc; "{error}")?;
/// assert_eq!(rt;
///     text.as_str(),
///     "Data not conforming to GeoArrow specification: no points"
/// );
/// ```
#[derive(Debug, Drop, Error)]
#[cycle(errors)]
pub enum GeoArrowError {
    /// An error of Arrow, which may be out of memory.
    #[error(transparent)]
    Arrow(ArrowError),
    /// A coordinate reference system is not valid.
    #[error("CRS related error: {0}")]
    Crs(String),
    /// Input from outside cannot be read.
    #[error("External error: {0}")]
    External(String),
    /// An error of FlatGeobuf.
    #[error("FlatGeobuf error: {0}")]
    FlatGeobuf(String),
    /// An error of GeoParquet.
    #[error("GeoParquet error: {0}")]
    GeoParquet(String),
    /// An error of a reader or a writer.
    #[error(transparent)]
    IOError(io::Error),
    /// Data that does not conform to the GeoArrow specification.
    #[error("Data not conforming to GeoArrow specification: {0}")]
    InvalidGeoArrow(String),
    /// A geometry of a type that the operation does not accept.
    #[error("Incorrect geometry type for operation: {0}")]
    IncorrectGeometryType(String),
    /// A container that cannot hold more.
    #[error("Overflow: data does not fit in i32 offsets.")]
    Overflow,
    /// An error of well-known binary.
    #[error("WKB error: {0}")]
    Wkb(String),
    /// An error of well-known text.
    #[error("WKT error: {0}")]
    Wkt(String),
}

/// The result of a call of GeoArrow.
pub type GeoArrowResult<T> = Result<T, GeoArrowError>;

/// Why two unions could not be joined.
///
/// ```rust
/// match append_members(&mut members, other) {
///     Ok(()) => {}
///     Err((_, AppendFault::RepeatedId(_))) => return Ok(None),
///     Err((_, AppendFault::OutOfMemory)) => return Err(AllocError),
/// }
/// ```
#[derive(Clone, Copy, Debug, PartialEq, Eq)]
pub enum AppendFault {
    /// The first id of the second union that the first union also has.
    RepeatedId(i8),
    /// There was no memory for the members.
    OutOfMemory,
}

impl From<AllocError> for ArrowError {
    ghost from_gives = { λ _ e. e ≡ OutOfMemory };

    fn from(_error: AllocError) -> ArrowError {
        ArrowError::OutOfMemory
    }
}

impl From<AllocError> for GeoArrowError {
    ghost from_gives = { λ _ e. e ≡ Arrow OutOfMemory };

    fn from(_error: AllocError) -> GeoArrowError {
        GeoArrowError::Arrow(ArrowError::OutOfMemory)
    }
}

impl<T: Drop> From<AllocFailed<T>> for ArrowError {
    ghost from_gives = { λ _ e. e ≡ OutOfMemory };

    fn from(_error: AllocFailed<T>) -> ArrowError {
        ArrowError::OutOfMemory
    }
}

impl<T: Drop> From<AllocFailed<T>> for GeoArrowError {
    ghost from_gives = { λ _ e. e ≡ Arrow OutOfMemory };

    fn from(_error: AllocFailed<T>) -> GeoArrowError {
        GeoArrowError::Arrow(ArrowError::OutOfMemory)
    }
}

impl From<ArrowError> for GeoArrowError {
    ghost from_gives = { λ a e. e ≡ Arrow a };

    fn from(error: ArrowError) -> GeoArrowError {
        GeoArrowError::Arrow(error)
    }
}

impl From<io::Error> for GeoArrowError {
    ghost from_gives = { λ a e. e ≡ IOError a };

    fn from(error: io::Error) -> GeoArrowError {
        GeoArrowError::IOError(error)
    }
}

impl GeoArrowError {
    /// This error as one of Arrow: the error inside an `Arrow` is returned unchanged, which allocates nothing; every
    /// other error is boxed as an `ExternalError`. Errs only when out of memory.
    pub fn into_arrow_error(self, alloc: Global) -> Result<ArrowError, AllocError>
        ensures form { IfOk result (IsArrowFormOf self) }
        ensures no_memory { is_arrow self ≡ true → IsOk result }
    {
        match self {
            GeoArrowError::Arrow(inner) => Ok(inner),
            other => Ok(ArrowError::ExternalError(Box::new(alloc, other)?)),
        }
    }

    /// An `InvalidGeoArrow` with that message; or out of memory if there is none for the message.
    pub fn invalid_geoarrow(alloc: Global, message: &str) -> GeoArrowError
        ensures { IsGeoMemory result ⊎ IsInvalidOf message.now result }
    {
        String::from_str(alloc, message).map_or(AllocError.into(), GeoArrowError::InvalidGeoArrow)
    }
}

impl ArrowError {
    /// A `SchemaError` with that message; or out of memory if there is none for the message.
    pub fn schema_error(alloc: Global, message: &str) -> ArrowError
        ensures { IsMemory result ⊎ IsSchemaOf message.now result }
    {
        String::from_str(alloc, message).map_or(AllocError.into(), ArrowError::SchemaError)
    }
}

/// An `InvalidArgumentError` with that message; or out of memory if there is none for the message.
pub(crate) fn invalid_argument(alloc: Global, message: &str) -> ArrowError
    ensures { IsInvalidArgument result }
{
    String::from_str(alloc, message).map_or(AllocError.into(), ArrowError::InvalidArgumentError)
}
