//! Fields that are read, and types that are written.
use crate::schema::each::used;
use crate::schema::spelled::{field_of, tree_of};
use crate::schema::words::{say_error, say_type};
use arrow_values::Field;
use geoarrow_native::{ColumnType, KindEncoding};
use geoarrow_schema::GeoArrowType;
use geoarrow_schema::error::GeoArrowResult;
use rows::asked::Asked;
use rows::said::Said;
use rows::texts::{first_word, halves};
use std::alloc::{AllocError, Global};
use std::mem::ManuallyDrop;

/// Says what a reading answers.
fn say_read(said: &mut Said, found: &GeoArrowResult<Option<GeoArrowType>>) {
    match found {
        Ok(Some(found)) => say_type(said, found),
        Ok(None) => said.push("none"),
        Err(error) => say_error(said, error),
    }
}

/// Says the answers of `from_extension_field`, `try_from_field` and `from_arrow_field` to a field.
pub fn read(said: &mut Said, field: &Field) {
    let found = ManuallyDrop::new(GeoArrowType::from_extension_field(said.alloc, field));
    say_read(said, &found);
    say_otherwise(said, field);
}

/// What is said of a type that is read, or of the refusal.
fn said_of(alloc: Global, found: GeoArrowResult<GeoArrowType>) -> ManuallyDrop<Said> {
    let mut said = ManuallyDrop::new(Said::new(alloc));
    match &*ManuallyDrop::new(found) {
        Ok(found) => say_type(&mut said, found),
        Err(error) => say_error(&mut said, error),
    }
    said
}

/// Says the answers of `try_from_field` and `from_arrow_field`, with ` / ` before each; nothing where both are what is said.
fn say_otherwise(said: &mut Said, field: &Field) {
    let alloc = said.alloc;
    let second = said_of(alloc, GeoArrowType::try_from_field(alloc, field));
    let third = said_of(alloc, GeoArrowType::from_arrow_field(alloc, field));
    if second.is_lacking || third.is_lacking {
        said.fail();
    } else if second.text != said.text || third.text != said.text {
        said.push(" / ");
        said.push(second.text.as_str());
        said.push(" / ");
        said.push(third.text.as_str());
    }
}

/// Says what `from_extension_field` alone answers to a field, or the line of its canonical field.
pub fn read_once(it: &mut Asked<'_>, field: &Field) {
    it.before();
    if it.command == "canonical_field" {
        return say_canonical(it, field);
    }
    let found = ManuallyDrop::new(GeoArrowType::from_extension_field(it.alloc, field));
    it.after();
    say_read(&mut it.said, &found);
}

/// Says the line of the canonical field of a field, if it has one.
fn say_canonical(it: &mut Asked<'_>, field: &Field) {
    let found = ManuallyDrop::new(GeoArrowType::canonical_field(it.alloc, field));
    it.after();
    match &*found {
        Ok(Some(canonical)) => it.said.line(canonical),
        Ok(None) => it.said.push("none"),
        Err(error) => say_error(&mut it.said, error),
    }
}

/// Says the line of a field that is turned into its canonical form. There is no answer where it is read as no type.
pub fn rewrite_field(it: &mut Asked<'_>) {
    let field = field_of(&mut it.said, it.text);
    match &*ManuallyDrop::new(GeoArrowType::try_from_field(it.alloc, &field)) {
        Ok(found) => {
            let rewritten = found.rewrite_field(it.alloc, ManuallyDrop::into_inner(field));
            it.said.line_or_refusal(&ManuallyDrop::new(rewritten));
        }
        Err(_) => it.said.fail(),
    }
}

/// Says the line of a field on which an extension name and a metadata text were put, which stand before it; `-` for no text.
pub fn with_extension_texts(it: &mut Asked<'_>) {
    let (texts, field) = halves(&mut it.said, it.text);
    let (name, text) = first_word(&mut it.said, texts);
    let field = field_of(&mut it.said, field);
    let text = match text {
        "-" => None,
        text => Some(it.said.owned(text)),
    };
    let field = ManuallyDrop::into_inner(field).with_extension_texts(it.alloc, name, text);
    match &*ManuallyDrop::new(field) {
        Ok(field) => it.said.line(field),
        Err(AllocError) => it.said.fail(),
    }
}

/// Says the line of the field of a type, which has that name and may be null where `?` stands after that; and of what the
/// type's own call writes, if that is another.
pub fn to_field(it: &mut Asked<'_>, one: &GeoArrowType, named: &str) {
    let (name, nullable) = name_of(named);
    let written = ManuallyDrop::new(one.to_field(it.alloc, name, nullable));
    it.said.line_or_refusal(&written);
    used(it, one, named);
}

/// The name of a field, and whether it may be null.
fn name_of(named: &str) -> (&str, bool) {
    match named.strip_suffix('?') {
        Some(name) => (name, true),
        None => (named, false),
    }
}

/// Says the line of the field that the type's own call writes, if that is another than what is said.
pub fn own_field<E: KindEncoding>(it: &mut Asked<'_>, own: &ColumnType<E>, named: &str) {
    let (name, nullable) = name_of(named);
    let written = ManuallyDrop::new(own.to_field(it.alloc, name, nullable));
    let mut said = ManuallyDrop::new(Said::new(it.alloc));
    said.line_or_refusal(&written);
    if said.is_lacking {
        it.said.fail();
    } else if said.text != it.said.text {
        it.said.push(" / ");
        it.said.push(said.text.as_str());
    }
}

/// Says whether a data type is the one of a type by its own call, if it has one, by `to_data_type` and by `into_data_type`.
pub fn data_type(it: &mut Asked<'_>, one: ManuallyDrop<GeoArrowType>, text: &str) {
    used(it, &one, text);
    let tree = tree_of(&mut it.said, text);
    it.before();
    let to = one.to_data_type(it.alloc);
    let into = ManuallyDrop::into_inner(one).into_data_type(it.alloc);
    it.after();
    match &*ManuallyDrop::new((to, into)) {
        (Ok(to), Ok(into)) => {
            it.said.push(" ");
            it.said.truth(*to == *tree);
            it.said.push(" ");
            it.said.truth(*into == *tree);
        }
        _ => it.said.fail(),
    }
}

/// Says whether a data type is the one of a type by its own call.
pub fn own_data_type<E: KindEncoding>(it: &mut Asked<'_>, own: &ColumnType<E>, text: &str) {
    let tree = tree_of(&mut it.said, text);
    match &*ManuallyDrop::new(own.data_type(it.alloc)) {
        Ok(own) => it.said.truth(*own == *tree),
        Err(AllocError) => it.said.fail(),
    }
}
