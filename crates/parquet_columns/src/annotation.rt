//! What a group means.
ghost use Rattle.std.specs.Prelude.{◌≡◌};
ghost use Rattle.parquet_footer.specs.Logical.{logical};
ghost use Rattle.parquet_footer.specs.Element.{element};
ghost use Rattle.parquet_columns.specs.Annotation.{logical_annotation, converted_annotation, annotation_of};

use parquet_footer::{LogicalType, SchemaElement};

/// What a group means.
#[derive(Clone, Copy)]
pub(crate) enum Annotation {
    /// A struct of its elements.
    Plain,
    /// A list.
    List,
    /// A map.
    Map,
}

/// The annotation of a logical type.
fn logical_annotation(named: LogicalType<'_>) -> Annotation
    ensures { result ≡ logical_annotation (logical named.entry) }
{
    match named {
        LogicalType::Other(2) => Annotation::Map,
        LogicalType::Other(3) => Annotation::List,
        _ => Annotation::Plain,
    }
}

/// The annotation of a converted type.
fn converted_annotation(number: i32) -> Annotation
    ensures { result ≡ converted_annotation number }
{
    match number {
        1 => Annotation::Map,
        3 => Annotation::List,
        _ => Annotation::Plain,
    }
}

/// What a group means: by its logical type, or where it has none by its converted type.
pub(crate) fn annotation_of(group: &SchemaElement<'_>) -> Annotation
    ensures { result ≡ annotation_of (element group.now) }
{
    match group.logical_type {
        Some(named) => logical_annotation(named),
        None => match group.converted_type {
            Some(number) => converted_annotation(number),
            None => Annotation::Plain,
        },
    }
}
