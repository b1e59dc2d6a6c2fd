//! What is found of a column.
ghost use Rattle.std.specs.Prelude.{◌≡◌, ◌++◌, map, option_map, string_bytes, Some, IfOk, OnOk};
ghost use Rattle.arrow_values.specs.Texts.{text_of};
ghost use Rattle.arrow_values.specs.View.{tree};
ghost use Rattle.arrow_columns.specs.Column.{column_tree, type_tree};
ghost use Rattle.column_check.specs.Said.{said};
ghost use Rattle.column_check.specs.Warnings.{name_warnings, is_empty_text, text_warnings, axis_warnings, nullable_warnings, layout_warnings, type_warnings, geometry_metadata_warnings, nested_warnings, type_findings, metadata_findings, AreWarnings};
ghost use Rattle.column_check.specs.WarningWords.{expected_at, help_at, is_of_object, names_of, type_help};

use crate::code::WarningCode;
use crate::crs::push_crs;
use crate::finding::{Finding, Geometry};
use crate::key_case::push_keys;
use crate::layout::{layout_text, storage_help};
use crate::meant::{crs_type_names, edges_names, extension_names, meant_or};
use crate::numbers::push_numbers;
use crate::old_names::is_old_name;
use crate::reasons::{push_metadata_reasons, push_type_reason};
use crate::said::push_shown;
use crate::walk::{Inner, Sought, push_sought};
use arrow_columns::{AnyType, Outline, SchemaColumn, outline_of};
use arrow_values::DataType;
use geoarrow_layout::{ExtensionName, Kind};
use std::alloc::{AllocError, Global};

/// A finding of a column: what is wrong or doubtful of it, and where.
#[derive(Debug, Drop)]
pub struct Warning {
    /// What it says.
    pub code: WarningCode,
    /// The names of the child fields from the column down to where it is; none where it is of the column itself.
    pub path: Vec<String>,
    /// Where it is in the extension metadata, as a JSON pointer (RFC 6901); `None` where it is not of these.
    pub pointer: Option<String>,
    /// What stands there: a type's notation, a word, names, or JSON without blanks; at most 120 characters of it, and
    /// `..` behind them where there are more. `None` where the code alone says it.
    pub found: Option<String>,
    /// The extension name whose layout is wanted there, where one is.
    pub wanted: Option<ExtensionName>,
    /// How many more of its code there are that are not told one by one; 0 except in the sixteenth.
    pub more: usize,
}

impl Warning {
    /// Returns what is expected in place of what is found: the layout of a name, where one is wanted,
    /// and else what the code says (`docs/FORMAT.md`, 2.6).
    pub fn expected(&self) -> &'static str
        ensures { result.now ≡ expected_at self.now.code self.now.wanted }
    {
        match self.wanted {
            Some(name) => layout_text(name),
            None => self.code.expected(),
        }
    }

    /// Returns what helps, where there is something to say (`docs/FORMAT.md`, 2.6).
    pub fn help(&self) -> Option<&'static str>
        ensures { option_map (λ text. text.now) result ≡ help_at self.now.code self.now.wanted (option_map string_bytes self.now.found) }
    {
        match self.code {
            WarningCode::WrongStorage => storage_help(self.wanted, self.found.as_deref()),
            WarningCode::CrsTypeContradicts => type_help(self.found.as_deref()),
            code => meant_or(names_of(code), code.help(), self.found.as_deref()),
        }
    }
}

/// What helps where the type of a CRS is that of another form: the type that would be right, where what
/// is found is an object.
fn type_help(found: Option<&str>) -> Option<&'static str>
    ensures { text_of result ≡ type_help (text_of found.entry) }
{
    match found {
        Some(found) if is_of_object(found.as_bytes()) => {
            Some("The crs_type of an object is projjson.")
        }
        _ => WarningCode::CrsTypeContradicts.help(),
    }
}

/// Whether what is found is an object.
fn is_of_object(found: &[u8]) -> bool
    ensures { result ≡ is_of_object found.now }
{
    match found {
        [first, ..] => *first == b'{',
        [] => false,
    }
}

/// The names of which one is expected where a code is found, each with its question.
fn names_of(code: WarningCode) -> &'static [(&'static str, &'static str)]
    ensures { map (λ name. (name.0.now, name.1.now)) result.now ≡ names_of code }
{
    match code {
        WarningCode::UnknownExtension => extension_names(),
        WarningCode::UnknownCrsType => crs_type_names(),
        WarningCode::UnknownEdges => edges_names(),
        _ => &[],
    }
}

/// Returns what is found of a column of which that is said (`docs/FORMAT.md`, 2.6): in the order of
/// `WarningCode`, both the reasons for which it is invalid and what is doubtful, which leaves what is
/// said as it is; and under one code from left to right, a field before those below it; of one code
/// at most sixteen, of which the last says how many more there are. Of the metadata text, of a CRS, of
/// coordinates and of what they are in it speaks where the finding is of geometries; of the extension
/// name and of fields below the column always. `notes` asks for the notes too. Errs only when out of
/// memory.
///
/// ```rust
/// let finding = inspect_column(alloc, &mut scratch, &column, false)?;
/// for warning in warnings(alloc, &column, &finding, false)?.iter() {
///     println!(rt; "{:?}", warning.code)?;
/// }
/// ```
pub fn warnings(
    alloc: Global,
    column: &SchemaColumn,
    finding: &Finding,
    notes: bool,
) -> Result<Vec<Warning>, AllocError>
    ensures { IfOk result (λ them. AreWarnings notes (column_tree column.now) finding.now them.items) }
{
    let mut warnings = Vec::new(alloc);
    push_of_type(alloc, &mut warnings, column, finding)?;
    push_of_metadata(alloc, &mut warnings, column, finding, notes)?;
    Ok(warnings)
}

/// Adds what is found of a column's extension name and of its type.
fn push_of_type(
    alloc: Global,
    warnings: &mut Vec<Warning>,
    column: &SchemaColumn,
    finding: &Finding,
) -> Result<(), AllocError>
    ensures { OnOk result (map said warnings.new.items ≡ map said warnings.old.items ++ type_findings (column_tree column.now) finding.now) }
{
    push_name(alloc, warnings, column.extension_type_name())?;
    if let Finding::Invalid(reasons) = finding {
        push_type_reason(alloc, warnings, column, reasons)?;
    }
    if let Some(geometry) = finding.geometry() {
        push_type(alloc, warnings, geometry.kind, &column.data_type)?;
    }
    push_nested(alloc, warnings, &column.data_type)
}

/// Adds what is found of a column's metadata.
fn push_of_metadata(
    alloc: Global,
    warnings: &mut Vec<Warning>,
    column: &SchemaColumn,
    finding: &Finding,
    notes: bool,
) -> Result<(), AllocError>
    ensures { OnOk result (map said warnings.new.items ≡ map said warnings.old.items ++ metadata_findings notes (column_tree column.now) finding.now) }
{
    if let Finding::Invalid(reasons) = finding {
        push_metadata_reasons(alloc, warnings, column, reasons)?;
    }
    if let Some(geometry) = finding.geometry() {
        push_metadata(alloc, warnings, column, geometry, notes)?;
    }
    Ok(())
}

/// Adds what is doubtful of an extension name.
fn push_name(
    alloc: Global,
    warnings: &mut Vec<Warning>,
    name: Option<&str>,
) -> Result<(), AllocError>
    ensures { OnOk result (map said warnings.new.items ≡ map said warnings.old.items ++ name_warnings (text_of name.entry)) }
{
    let Some(name) = name else {
        return Ok(());
    };
    if !is_old_name(name) {
        return Ok(());
    }
    let found = String::from_str(alloc, name)?;
    warnings.push(Warning {
        code: WarningCode::OldExtensionName,
        path: Vec::new(alloc),
        pointer: None,
        found: Some(found),
        wanted: None,
        more: 0,
    })?;
    Ok(())
}

/// Adds what is doubtful of the metadata text of geometries and of their CRS.
fn push_metadata(
    alloc: Global,
    warnings: &mut Vec<Warning>,
    column: &SchemaColumn,
    geometry: &Geometry,
    notes: bool,
) -> Result<(), AllocError>
    ensures { OnOk result (map said warnings.new.items ≡ map said warnings.old.items ++ geometry_metadata_warnings notes (column_tree column.now) (Some geometry.now)) }
{
    push_text(alloc, warnings, column.extension_type_metadata())?;
    push_keys(alloc, warnings, column.extension_type_metadata())?;
    push_crs(alloc, warnings, &geometry.metadata, notes)
}

/// Adds what is doubtful of a type that is of a kind.
fn push_type(
    alloc: Global,
    warnings: &mut Vec<Warning>,
    kind: Kind,
    column_type: &AnyType,
) -> Result<(), AllocError>
    ensures { OnOk result (map said warnings.new.items ≡ map said warnings.old.items ++ type_warnings kind (type_tree column_type.now)) }
{
    let code = WarningCode::CoordinatesNotFloat;
    push_numbers(alloc, warnings, code, column_type)?;
    let code = WarningCode::CoordinatesNotDouble;
    push_numbers(alloc, warnings, code, column_type)?;
    match column_type {
        AnyType::Data(data_type) => push_layout(alloc, warnings, kind, data_type),
        AnyType::Other(_) => {
            let outline = outline_of(alloc, Outline::Layout, column_type)?;
            push_layout(alloc, warnings, kind, &outline)
        }
    }
}

/// Adds what is doubtful of the outline of a type that is of a kind, but for its numbers.
fn push_layout(
    alloc: Global,
    warnings: &mut Vec<Warning>,
    kind: Kind,
    data_type: &DataType,
) -> Result<(), AllocError>
    ensures { OnOk result (map said warnings.new.items ≡ map said warnings.old.items ++ layout_warnings kind (tree data_type.now)) }
{
    push_axes(alloc, warnings, WarningCode::AxisOrder, kind, data_type)?;
    push_axes(alloc, warnings, WarningCode::AxisNames, kind, data_type)?;
    push_nullables(alloc, warnings, kind, data_type)?;
    push_sought(alloc, warnings, Sought::Inner(Inner::Unions), data_type)
}

/// Adds what is doubtful of the names of the fields of coordinates, by a code.
fn push_axes(
    alloc: Global,
    warnings: &mut Vec<Warning>,
    code: WarningCode,
    kind: Kind,
    data_type: &DataType,
) -> Result<(), AllocError>
    ensures { OnOk result (map said warnings.new.items ≡ map said warnings.old.items ++ axis_warnings code kind (tree data_type.now)) }
{
    push_sought(alloc, warnings, Sought::Axes(code, kind), data_type)
}

/// Adds the nullable fields below a geometry; of a box none.
fn push_nullables(
    alloc: Global,
    warnings: &mut Vec<Warning>,
    kind: Kind,
    data_type: &DataType,
) -> Result<(), AllocError>
    ensures { OnOk result (map said warnings.new.items ≡ map said warnings.old.items ++ nullable_warnings kind (tree data_type.now)) }
{
    match kind {
        Kind::Rect(_) => Ok(()),
        _ => push_sought(alloc, warnings, Sought::Inner(Inner::Nullables), data_type),
    }
}

/// Adds the fields below a type that have one of the eleven extension names, or an old one.
fn push_nested(
    alloc: Global,
    warnings: &mut Vec<Warning>,
    column_type: &AnyType,
) -> Result<(), AllocError>
    ensures { OnOk result (map said warnings.new.items ≡ map said warnings.old.items ++ nested_warnings (type_tree column_type.now)) }
{
    let sought = Sought::Inner(Inner::Extensions);
    match column_type {
        AnyType::Data(data_type) => push_sought(alloc, warnings, sought, data_type),
        AnyType::Other(_) => {
            let fields = outline_of(alloc, Outline::Fields, column_type)?;
            push_sought(alloc, warnings, sought, &fields)
        }
    }
}

/// Adds what is doubtful of a metadata text.
fn push_text(
    alloc: Global,
    warnings: &mut Vec<Warning>,
    text: Option<&str>,
) -> Result<(), AllocError>
    ensures { OnOk result (map said warnings.new.items ≡ map said warnings.old.items ++ text_warnings (text_of text.entry)) }
{
    let holds = is_empty_text(text);
    push_shown(
        alloc,
        warnings,
        WarningCode::MetadataEmpty,
        "",
        "\"\"",
        holds,
    )
}

/// Whether there is a text, and it is empty.
fn is_empty_text(text: Option<&str>) -> bool
    ensures { result ≡ is_empty_text (text_of text.entry) }
{
    match text {
        Some(text) => text.is_empty(),
        None => false,
    }
}
