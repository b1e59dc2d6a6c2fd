//! CRS: their tests and constructors, and the texts of their types and of edges.
use crate::metadata::texts::{json, say_crs, say_text};
use geoarrow_meta::{Crs, CrsType, Edges, Metadata};
use rows::asked::Asked;
use std::alloc::Global;
use std::mem::ManuallyDrop;

/// Says what a test answers about a text, or what a constructor makes of it.
pub fn answer(it: &mut Asked<'_>) {
    match it.command {
        "is_authority_code" => {
            it.before();
            let found = Crs::is_authority_code(it.text);
            it.after();
            it.said.truth(found);
        }
        "edges" => say_edges(it),
        "crs_type" => say_crs_type(it),
        "is_projjson" | "from_projjson" => of_value(it),
        "Crs::default" => say_written(it, Crs::default()),
        _ => of_text(it),
    }
}

/// Says the edges of a text by their variant, and the text of these; `-` for none.
fn say_edges(it: &mut Asked<'_>) {
    it.before();
    match Edges::from_text(it.text) {
        Some(edges) => {
            it.said.name(&edges);
            it.said.push(" ");
            it.said.push(edges.as_text());
        }
        None => it.said.push("-"),
    }
    it.after();
}

/// Says the CRS type of a text by its variant, and the text of that; `-` for none.
fn say_crs_type(it: &mut Asked<'_>) {
    it.before();
    match CrsType::from_text(it.text) {
        Some(crs_type) => {
            it.said.name(&crs_type);
            it.said.push(" ");
            it.said.push(crs_type.as_text());
        }
        None => it.said.push("-"),
    }
    it.after();
}

/// Says whether the JSON value of a text is taken as PROJJSON, or the parts of the CRS that is made of it.
fn of_value(it: &mut Asked<'_>) {
    let value = json(&mut it.said, it.text);
    it.before();
    let is_taken = Crs::is_projjson(&value);
    if it.command == "is_projjson" {
        it.after();
        it.said.truth(is_taken);
    } else if is_taken {
        let crs = Crs::from_projjson(ManuallyDrop::into_inner(value));
        it.after();
        say_written(it, crs);
    } else {
        it.said.fail();
    }
}

/// Says the parts of the CRS that a constructor makes of a text, and how it is written.
fn of_text(it: &mut Asked<'_>) {
    let text = it.said.owned(it.text);
    it.before();
    let crs = match it.command {
        "from_wkt2_2019" => Crs::from_wkt2_2019(text),
        "from_srid" => Crs::from_srid(text),
        "from_unknown_crs_type" => Crs::from_unknown_crs_type(text),
        "from_authority_code" if Crs::is_authority_code(text.as_str()) => {
            Crs::from_authority_code(text)
        }
        _ => return it.said.fail(),
    };
    it.after();
    say_written(it, crs);
}

/// Says the parts of a CRS, and the text of the metadata that holds it alone, which is to be read back as it was.
fn say_written(it: &mut Asked<'_>, crs: Crs) {
    let metadata = ManuallyDrop::new(Metadata::new(crs, None));
    say_crs(&mut it.said, metadata.crs());
    it.said.push(" as ");
    let printed = ManuallyDrop::new(metadata.serialize(it.alloc));
    say_text(&mut it.said, &printed);
    let text = match &*printed {
        Ok(Some(text)) => Some(text.as_str()),
        _ => None,
    };
    if !is_read_as(it.alloc, text, &metadata) {
        it.said.push(", not read back");
    }
}

/// Whether a text is read as a metadata.
fn is_read_as(alloc: Global, text: Option<&str>, metadata: &Metadata) -> bool {
    match &*ManuallyDrop::new(Metadata::deserialize(alloc, text)) {
        Ok(read) => *read == *metadata,
        Err(_) => false,
    }
}
