//! Rows of Parquet footers: calls of `parquet_footer` and `parquet_columns`. A row's text is bytes in
//! hexadecimal digits.
use arrow_columns::SchemaColumn;
use parquet_columns::{
    ColumnsError, EdgesClaim, ElementClaim, ElementColumns, ElementFault, ElementLayout,
    FileColumns, FileFinding, SchemaError, columns_of, read_file,
};
use parquet_footer::{
    Footer, FooterError, FooterFinding, FooterText, KeyValue, LogicalType, SchemaElement,
    footer_length, read_footer,
};
use rows::asked::Asked;
use rows::said::Said;
use rows::say;
use std::fmt::Debug;
use std::mem::ManuallyDrop;

/// Says the answer to a text under a command. It is lacking where the text does not spell bytes.
pub fn answer(it: &mut Asked<'_>) {
    let (key, digits) = match it.command {
        "value_in_file" => it.text.split_once(' ').unwrap_or(("", it.text)),
        _ => ("", it.text),
    };
    match hex::decode(it.alloc, digits) {
        Ok(bytes) => answer_bytes(it, bytes.as_slice(), key),
        Err(_) => it.said.fail(),
    }
}

/// Says the answer to some bytes.
fn answer_bytes(it: &mut Asked<'_>, bytes: &[u8], key: &str) {
    match it.command {
        "value_in_file" => {
            it.before();
            let read = ManuallyDrop::new(read_file(it.alloc, bytes, key));
            it.after();
            say_value(&mut it.said, &read);
        }
        "read_footer" => {
            it.before();
            let read = ManuallyDrop::new(read_footer(it.alloc, bytes));
            it.after();
            say_answer(&mut it.said, &read);
        }
        "columns_of_file" => {
            it.before();
            let read = ManuallyDrop::new(read_file(it.alloc, bytes, key));
            it.after();
            say_file(&mut it.said, &read);
        }
        "elements_of_file" => {
            let read = ManuallyDrop::new(read_file(it.alloc, bytes, key));
            say_elements(&mut it.said, &read);
        }
        "layouts_of_file" => {
            let read = ManuallyDrop::new(read_file(it.alloc, bytes, key));
            say_layouts(&mut it.said, &read);
        }
        "footer_length" => match bytes.first_chunk::<8>() {
            Some(tail) => {
                it.before();
                let length = footer_length(tail);
                it.after();
                say_length(&mut it.said, length);
            }
            None => it.said.fail(),
        },
        "columns_of" => answer_columns(it, bytes),
        "each_cut" => each_cut(&mut it.said, bytes),
        "each_turned" => each_turned(&mut it.said, bytes),
        _ => it.no_command(),
    }
}

/// Says the columns of the schema in the footer that some bytes are.
fn answer_columns(it: &mut Asked<'_>, bytes: &[u8]) {
    match &*ManuallyDrop::new(read_footer(it.alloc, bytes)) {
        Ok(footer) => {
            it.before();
            let made = ManuallyDrop::new(columns_of(it.alloc, footer));
            it.after();
            say_columns(&mut it.said, &made);
        }
        Err(_) => it.said.fail(),
    }
}

/// Says a length, or why there is none.
fn say_length(said: &mut Said, length: Result<u32, FooterError>) {
    match length {
        Ok(length) => said.name(&length),
        Err(error) => said.name(&error),
    }
}

/// Says a value by its name, or a dash.
fn say_or_dash<T: Debug>(said: &mut Said, value: &Option<T>) {
    said.push(" ");
    match value {
        Some(value) => said.name(value),
        None => said.push("-"),
    }
}

/// Says a logical type, or a dash.
fn say_logical(said: &mut Said, logical: &Option<LogicalType<'_>>) {
    match logical {
        None => said.push(" -"),
        Some(LogicalType::Decimal(scale, precision)) => {
            said.push(" Decimal(scale");
            say_or_dash(said, scale);
            said.push(", precision");
            say_or_dash(said, precision);
            said.push(")");
        }
        Some(LogicalType::Time(utc, unit)) => say!(said, " Time({utc}, {unit:?})"),
        Some(LogicalType::Timestamp(utc, unit)) => say!(said, " Timestamp({utc}, {unit:?})"),
        Some(LogicalType::Integer(bits, signed)) => say!(said, " Integer({bits}, {signed})"),
        Some(LogicalType::Other(id)) => say!(said, " Other({id})"),
        Some(LogicalType::Geometry(crs)) => {
            let crs = crs.unwrap_or("-");
            say!(said, " Geometry({crs})");
        }
        Some(LogicalType::Geography(crs, algorithm)) => {
            let crs = crs.unwrap_or("-");
            say!(said, " Geography({crs},");
            say_or_dash(said, algorithm);
            said.push(")");
        }
    }
}

/// Says bytes in hexadecimal digits.
fn say_bytes(said: &mut Said, bytes: &[u8]) {
    for byte in bytes {
        say!(said, "{byte:02x}");
    }
}

/// Says a text, or its bytes, which are no UTF-8.
fn say_text(said: &mut Said, text: FooterText<'_>) {
    match str::from_utf8(text.bytes) {
        Ok(text) => said.push(text),
        Err(_) => {
            said.push("<");
            say_bytes(said, text.bytes);
            said.push(">");
        }
    }
}

/// Says an element of a schema.
fn say_element(said: &mut Said, element: &SchemaElement<'_>) {
    say_text(said, element.storage.name);
    say_or_dash(said, &element.storage.physical_type);
    say_or_dash(said, &element.storage.type_length);
    say_or_dash(said, &element.storage.repetition);
    say_or_dash(said, &element.num_children);
    say_or_dash(said, &element.converted_type);
    say_or_dash(said, &element.scale);
    say_or_dash(said, &element.precision);
    say_logical(said, &element.logical_type);
}

/// Says a key, and its value if it has one.
fn say_key_value(said: &mut Said, pair: &KeyValue<'_>) {
    say_text(said, pair.key);
    if let Some(value) = pair.value {
        said.push("=");
        say_text(said, value);
    }
}

/// Says what is found of a name, a key or a value: the code, the byte and the bytes.
fn say_finding(said: &mut Said, finding: &FooterFinding<'_>) {
    let text = finding.text;
    let (code, byte) = (finding.code.code(), text.byte);
    say!(said, "{code} {byte} ");
    say_bytes(said, text.bytes);
}

/// Says a footer.
fn say_footer(said: &mut Said, footer: &Footer<'_>) {
    for (at, element) in footer.schema.iter().enumerate() {
        said.push(if at > 0 { "; " } else { "" });
        say_element(said, element);
    }
    said.push(" | ");
    for (at, pair) in footer.key_value_metadata.iter().enumerate() {
        said.push(if at > 0 { "; " } else { "" });
        say_key_value(said, pair);
    }
    for (at, finding) in footer.findings.iter().enumerate() {
        said.push(if at > 0 { "; " } else { " | " });
        say_finding(said, finding);
    }
}

/// Says a footer, or the rule that is broken and where; out of memory is no answer.
fn say_answer(said: &mut Said, read: &Result<Footer<'_>, FooterError>) {
    match read {
        Ok(footer) => say_footer(said, footer),
        Err(FooterError::Invalid(rule, offset)) => say!(said, "Invalid {rule:?} {offset}"),
        Err(FooterError::Memory) => said.fail(),
        Err(error) => said.name(error),
    }
}

/// Says columns in Arrow's notation, and the rules that are broken in them, by which elements; or why there are none. Out of memory is no answer.
fn say_columns(said: &mut Said, made: &Result<ElementColumns, ColumnsError>) {
    match made {
        Ok(made) => {
            for (at, column) in made.columns.iter().enumerate() {
                said.push(if at > 0 { "; " } else { "" });
                let notation = column.notation(said.alloc);
                said.made(notation);
            }
            for broken in &made.faults {
                let ElementFault { rule, at } = broken.fault;
                said.push(" | ");
                said.push(broken.column.as_str());
                say!(said, " {rule:?} {at}");
            }
        }
        Err(ColumnsError::Broken(fault)) => {
            let ElementFault { rule, at } = fault;
            say!(said, "{rule:?} {at}");
        }
        Err(ColumnsError::OutOfMemory) => said.fail(),
    }
}

/// Says the columns of a file in Arrow's notation, each with the name and the metadata of its extension type behind it.
fn say_named_columns(said: &mut Said, columns: &[SchemaColumn]) {
    for (at, column) in columns.iter().enumerate() {
        said.push(if at > 0 { "; " } else { "" });
        let notation = column.notation(said.alloc);
        said.made(notation);
        for text in [
            column.extension_type_name(),
            column.extension_type_metadata(),
        ] {
            if let Some(text) = text {
                said.push(" ");
                said.push(text);
            }
        }
    }
}

/// Says a text behind a blank, or a dash.
fn say_part(said: &mut Said, text: &Option<String>) {
    said.push(" ");
    said.push(match text {
        Some(text) => text.as_str(),
        None => "-",
    });
}

/// Says what is found in a file: the code, the column and the child fields below it, the place, what stands there and what is wanted.
fn say_file_finding(said: &mut Said, finding: &FileFinding) {
    let (code, part) = (finding.code.code(), finding.place.part.text());
    say!(said, " | {code}");
    if let Some(column) = &finding.column {
        said.push(" ");
        said.push(column.as_str());
    }
    for name in &finding.path {
        said.push(".");
        said.push(name.as_str());
    }
    say!(said, " {part}");
    say_or_dash(said, &finding.place.byte);
    say_part(said, &finding.found);
    said.push(" ->");
    say_part(said, &finding.wanted);
}

/// Says the columns of a file, or why there are none; out of memory is no answer.
fn say_file(said: &mut Said, read: &Result<FileColumns<'_>, SchemaError>) {
    match read {
        Ok(read) => {
            say_named_columns(said, read.columns.as_slice());
            for finding in &read.findings {
                say_file_finding(said, finding);
            }
            for finding in &read.texts {
                said.push(" | ");
                say_finding(said, finding);
            }
        }
        Err(error) => say_fault(said, error),
    }
}

/// Says how edges are said.
fn say_edges(said: &mut Said, edges: EdgesClaim) {
    match edges {
        EdgesClaim::Said => {}
        EdgesClaim::Default => said.push(", edges by default"),
        EdgesClaim::Broken => said.push(", edges not known"),
    }
}

/// Says what an element says beside its column.
fn say_claim(said: &mut Said, claim: &ElementClaim) {
    match claim {
        ElementClaim::Silent => said.push("silent"),
        ElementClaim::Given { names_crs, edges } => {
            said.push(if *names_crs { "given CRS" } else { "given" });
            say_edges(said, *edges);
        }
        ElementClaim::Beside { metadata, edges } => {
            said.push(metadata.as_str());
            say_edges(said, *edges);
        }
    }
}

/// Says the layout of an element.
fn say_layout(said: &mut Said, layout: ElementLayout) {
    match layout {
        ElementLayout::Bytes => said.push("bytes"),
        ElementLayout::Coordinates(lists, has_z) => {
            for _ in 0..lists {
                said.push("LIST of ");
            }
            said.push(if has_z { "x, y, z" } else { "x, y" });
        }
        ElementLayout::Other(repetition, kind) => {
            said.push(repetition);
            said.push(" ");
            said.push(kind);
        }
        ElementLayout::Unjudged => said.push("not judged"),
    }
}

/// Says the layouts of the elements of a file, or why there are none.
fn say_layouts(said: &mut Said, read: &Result<FileColumns<'_>, SchemaError>) {
    match read {
        Ok(read) => {
            for (at, element) in read.elements.iter().enumerate() {
                said.push(if at > 0 { "; " } else { "" });
                say_layout(said, element.layout);
            }
        }
        Err(error) => say_fault(said, error),
    }
}

/// Says what the elements of a file say beside its columns, or why there are none.
fn say_elements(said: &mut Said, read: &Result<FileColumns<'_>, SchemaError>) {
    match read {
        Ok(read) => {
            for (at, element) in read.elements.iter().enumerate() {
                said.push(if at > 0 { "; " } else { "" });
                say_claim(said, &element.claim);
            }
        }
        Err(error) => say_fault(said, error),
    }
}

/// Says the value of a key behind `=`, or a dash; or why there is none.
fn say_value(said: &mut Said, read: &Result<FileColumns<'_>, SchemaError>) {
    match read {
        Ok(read) => match read.value {
            Some(value) => {
                said.push("=");
                say_text(said, value);
            }
            None => said.push("-"),
        },
        Err(error) => say_fault(said, error),
    }
}

/// Says why a file is not read; out of memory is no answer.
fn say_fault(said: &mut Said, error: &SchemaError) {
    match error {
        SchemaError::Footer(FooterError::Invalid(rule, offset)) => {
            say!(said, "Footer {rule:?} {offset}");
        }
        SchemaError::Elements(fault) => {
            let ElementFault { rule, at } = fault;
            say!(said, "Elements {rule:?} {at}");
        }
        SchemaError::OutOfMemory => said.fail(),
        error => said.name(error),
    }
}

/// How many footers are read and refused, and a number that is made of all answers.
#[derive(Clone, Copy)]
struct Sum {
    read: u64,
    refused: u64,
    digest: u64,
}

impl Sum {
    /// None as yet.
    fn new() -> Sum {
        Sum {
            read: 0,
            refused: 0,
            digest: 0xcbf2_9ce4_8422_2325,
        }
    }

    /// Adds the answer to some bytes: its text and a line feed, by FNV-1a.
    fn add(&mut self, said: &mut Said, bytes: &[u8]) {
        let mut text = Said::new(said.alloc);
        let read = read_footer(said.alloc, bytes);
        say_answer(&mut text, &read);
        text.push("\n");
        if read.is_ok() {
            self.read = self.read.saturating_add(1);
        } else {
            self.refused = self.refused.saturating_add(1);
        }
        for &byte in text.text.as_bytes() {
            self.digest = (self.digest ^ byte as u64).wrapping_mul(0x100_0000_01b3);
        }
        if text.is_lacking {
            said.fail();
        }
    }

    /// Says it.
    fn say(&self, said: &mut Said) {
        say!(
            said,
            "{} read, {} refused, {:016x}",
            self.read,
            self.refused,
            self.digest
        );
    }
}

/// Reads each front of the bytes that is shorter than they are.
fn each_cut(said: &mut Said, bytes: &[u8]) {
    let mut sum = Sum::new();
    for end in 0..bytes.len() {
        sum.add(said, &bytes[..end]);
    }
    sum.say(said);
}

/// Reads the bytes with each of their bits turned, that one alone.
fn each_turned(said: &mut Said, bytes: &[u8]) {
    let Ok(mut turned) = Vec::from_slice(said.alloc, bytes) else {
        return said.fail();
    };
    let mut sum = Sum::new();
    for (at, &byte) in bytes.iter().enumerate() {
        for bit in [1, 2, 4, 8, 16, 32, 64, 128] {
            if let Some(place) = turned.get_mut(at) {
                *place = byte ^ bit;
            }
            sum.add(said, turned.as_slice());
        }
        if let Some(place) = turned.get_mut(at) {
            *place = byte;
        }
    }
    sum.say(said);
}
