//! The extension type of one's own that `uses` has: how it is written on fields, and read from them.
use crate::Marked;
use arrow_values::{
    ArrowError, DataType, EXTENSION_TYPE_METADATA_KEY, EXTENSION_TYPE_NAME_KEY, ExtensionType,
    Field,
};
use geoarrow_schema::Metadata;
use std::alloc::{AllocError, Global};
use std::collections::BTreeMap;
use std::mem::ManuallyDrop;
use std::test::Fail;

/// A map of those keys and texts.
pub fn texts(
    alloc: Global,
    texts: &[(&str, &str)],
) -> Result<BTreeMap<String, String>, AllocError> {
    let mut map = BTreeMap::new(alloc);
    for &(key, text) in texts {
        let text = String::from_str(alloc, text)?;
        drop(map.insert(String::from_str(alloc, key)?, text)?);
    }
    Ok(map)
}

/// A field `g` of a data type, which may be null, with those keys and texts.
pub fn column(
    alloc: Global,
    pairs: &[(&str, &str)],
    data_type: DataType,
) -> Result<Field, AllocError> {
    Ok(Field::new(alloc, "g", data_type, true)?.with_metadata(texts(alloc, pairs)?))
}

/// The type of the metadata of a text.
fn type_of(alloc: Global, text: &str) -> Result<Marked, ArrowError> {
    Ok(Marked {
        metadata: Metadata::deserialize(alloc, Some(text))?,
    })
}

/// The texts of a field before a type is written on it.
const STALE: &[(&str, &str)] = &[
    (EXTENSION_TYPE_METADATA_KEY, "stale"),
    (EXTENSION_TYPE_NAME_KEY, "stale"),
    ("kept", "too"),
];

/// Metadata texts, and the texts of that field once the type of that metadata is written on it.
const WRITTEN: [(&str, &[(&str, &str)]); 2] = [
    (
        "{}",
        &[(EXTENSION_TYPE_NAME_KEY, "example.marked"), ("kept", "too")],
    ),
    (
        r#"{"crs_type":"srid","crs":"1234"}"#,
        &[
            (
                EXTENSION_TYPE_METADATA_KEY,
                r#"{"crs":"1234","crs_type":"srid"}"#,
            ),
            (EXTENSION_TYPE_NAME_KEY, "example.marked"),
            ("kept", "too"),
        ],
    ),
];

/// The field of the stale texts with a type written on it, where it stands.
fn written(alloc: Global, marked: &Marked) -> Result<Field, ArrowError> {
    let mut field = column(alloc, STALE, DataType::Binary)?;
    field.try_with_extension_type(alloc, marked)?;
    Ok(field)
}

/// The field of the stale texts, handed over with a type written on it.
fn handed_over(alloc: Global, marked: &Marked) -> Result<Field, ArrowError> {
    let field = column(alloc, STALE, DataType::Binary)?;
    marked.supports_data_type(alloc, field.data_type())?;
    field.with_extension_type(alloc, marked)
}

/// Whether a field has those keys and texts, and is read as the type.
fn is_of(
    alloc: Global,
    field: Field,
    texts: &[(&str, &str)],
    marked: &Marked,
) -> Result<bool, ArrowError> {
    let field = ManuallyDrop::new(field);
    let wanted = ManuallyDrop::new(column(alloc, texts, DataType::Binary)?);
    let found = ManuallyDrop::new(field.try_extension_type::<Marked>(alloc)?);
    Ok(*field == *wanted && found.metadata == marked.metadata)
}

/// Whether the type of a metadata text, written by either call, makes a field of those keys and texts that is read as it.
fn is_written(alloc: Global, text: &str, texts: &[(&str, &str)]) -> Result<bool, ArrowError> {
    let marked = ManuallyDrop::new(type_of(alloc, text)?);
    let is_written = is_of(alloc, written(alloc, &marked)?, texts, &marked)?;
    Ok(is_written && is_of(alloc, handed_over(alloc, &marked)?, texts, &marked)?)
}

#[test]
fn of_ones_own_is_written_and_read(rt: HostRuntime) -> Result<(), Fail> {
    for &(text, texts) in WRITTEN.iter() {
        assert!(rt; is_written(rt.alloc(), text, texts)?, "{text}");
    }
    Ok(())
}

/// Whether the type is refused on a field of texts, which is then as it was.
fn is_refused_alone(alloc: Global) -> Result<bool, ArrowError> {
    let marked = ManuallyDrop::new(type_of(alloc, "{}")?);
    let stale = ManuallyDrop::new(column(alloc, STALE, DataType::Utf8)?);
    let mut field = ManuallyDrop::new(column(alloc, STALE, DataType::Utf8)?);
    let refused = ManuallyDrop::new(field.try_with_extension_type(alloc, &*marked));
    Ok(refused.is_err() && *field == *stale)
}

#[test]
fn of_ones_own_is_refused_with_the_field(rt: HostRuntime) -> Result<(), Fail> {
    assert!(rt; is_refused_alone(rt.alloc())?);
    Ok(())
}

/// What is said of another name.
const DIFFERS: &str = "Invalid argument error: extension name differs";

/// Extension names and metadata texts of fields of texts, and how the type is refused.
const REFUSED: [(&str, &str, &str); 4] = [
    ("example.other", "no JSON", DIFFERS),
    ("example.marke", "{}", DIFFERS),
    (
        "example.marked",
        "no JSON",
        "External error: External error: metadata is not JSON",
    ),
    ("example.marked", "{}", "Schema error: unexpected data type"),
];

/// Whether the type is refused so where it is read from a field of texts with those keys and texts.
fn is_refused(alloc: Global, texts: &[(&str, &str)], wanted: &str) -> Result<bool, AllocError> {
    let field = ManuallyDrop::new(column(alloc, texts, DataType::Utf8)?);
    match &*ManuallyDrop::new(field.try_extension_type::<Marked>(alloc)) {
        Ok(_) => Ok(false),
        Err(error) => Ok(error.to_string(alloc)?.as_str() == wanted),
    }
}

#[test]
fn of_ones_own_is_not_read_from_other_fields(rt: HostRuntime) -> Result<(), Fail> {
    for &(name, text, wanted) in REFUSED.iter() {
        let texts = [
            (EXTENSION_TYPE_NAME_KEY, name),
            (EXTENSION_TYPE_METADATA_KEY, text),
        ];
        assert!(rt; is_refused(rt.alloc(), &texts, wanted)?, "{name} {text}");
    }
    let texts = [(EXTENSION_TYPE_METADATA_KEY, "{}")];
    let wanted = "Invalid argument error: extension name missing";
    assert!(rt; is_refused(rt.alloc(), &texts, wanted)?);
    Ok(())
}
