//! Reports over columns, and the metadata of a field.
use crate::schema::spelled::field_of;
use crate::schema::words::{say_metadata, say_type};
use arrow_values::{ArrowError, Field};
use geoarrow_columns::{Column, check_columns};
use geoarrow_schema::Metadata;
use rows::asked::Asked;
use rows::said::Said;
use std::alloc::AllocError;
use std::mem::ManuallyDrop;

/// The fields with ` ; ` between them; none where the text is empty.
fn fields_of(said: &mut Said, text: &str) -> ManuallyDrop<Vec<Field>> {
    let mut fields = ManuallyDrop::new(Vec::new(said.alloc));
    for spelled in text.split(" ; ") {
        if !text.is_empty() {
            let field = ManuallyDrop::into_inner(field_of(said, spelled));
            said.put(&mut fields, field);
        }
    }
    fields
}

/// Says what a column holds.
fn say_column(said: &mut Said, column: &Column) {
    match column {
        Column::Geometry(found) => {
            said.push("; geometry ");
            say_type(said, found);
        }
        Column::Inferred(found) => {
            said.push("; inferred ");
            say_type(said, found);
        }
        Column::Other => said.push("; other"),
        Column::Faulty(fault) => {
            said.push("; faulty ");
            said.name(fault);
        }
    }
}

/// Says what each of some columns holds.
fn say_columns(said: &mut Said, checked: &Result<Vec<Column>, AllocError>) {
    match checked {
        Ok(columns) => {
            said.shown(&columns.len());
            said.push(" columns");
            for column in columns.iter() {
                say_column(said, column);
            }
        }
        Err(AllocError) => said.fail(),
    }
}

/// Says what each of the columns with ` ; ` between them holds.
pub fn report(it: &mut Asked<'_>) {
    let fields = fields_of(&mut it.said, it.text);
    let checked = ManuallyDrop::new(check_columns(it.alloc, fields.as_slice()));
    say_columns(&mut it.said, &checked);
}

/// Says a metadata that is read, or what the refusal prints.
fn say_read(said: &mut Said, read: &Result<Metadata, ArrowError>) {
    match read {
        Ok(metadata) => say_metadata(said, metadata),
        Err(error) => said.refusal(error),
    }
}

/// Says the metadata of a field, whatever its name, as two calls read it: once where they are the same.
pub fn metadata(said: &mut Said, field: &Field) {
    let alloc = said.alloc;
    let read = ManuallyDrop::new(Metadata::try_from_field(alloc, field));
    say_read(said, &read);
    let text = field.extension_type_metadata();
    let shared = ManuallyDrop::new(Metadata::deserialize_shared(alloc, text));
    let mut other = ManuallyDrop::new(Said::new(alloc));
    match &*shared {
        Ok(shared) => say_metadata(&mut other, shared),
        Err(error) => other.refusal(error),
    }
    if other.is_lacking {
        said.fail();
    } else if other.text != said.text {
        said.push(", otherwise shared");
    }
}
