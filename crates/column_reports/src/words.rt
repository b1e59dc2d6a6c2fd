//! The words of a report.
ghost use Rattle.std.specs.Prelude.{◌≡◌, IfOk, option_map, string_bytes};
ghost use Rattle.arrow_columns.specs.Column.{column_tree};
ghost use Rattle.column_reports.specs.Report.{state_word, kind_text, type_word};

use arrow_columns::SchemaColumn;
use column_check::{Finding, Geometry};
use geoarrow_layout::{Kind, coord_type_word, dimension_word, kind_word};
use std::alloc::{AllocError, Global};

/// The word of a state.
pub(crate) fn state_word(finding: &Finding) -> &'static str
    ensures { result.now ≡ state_word finding.now }
{
    match finding {
        Finding::Geometry(_) => "geometry",
        Finding::Invalid(_) => "invalid",
        Finding::Extension => "extension",
        Finding::Inferred(_) => "inferred",
        Finding::Plain => "plain",
    }
}

/// Kind, coordinate type and dimension.
fn kind_text(alloc: Global, kind: Kind) -> Result<String, AllocError>
    ensures { IfOk result (λ text. string_bytes text ≡ kind_text kind) }
{
    let mut text = String::from_str(alloc, kind_word(kind))?;
    text.push_str(" ")?;
    text.push_str(coord_type_word(kind.coord_type()))?;
    text.push_str(" ")?;
    text.push_str(dimension_word(kind.dimension()))?;
    Ok(text)
}

/// Returns the type of a column, as the report has it (`docs/FORMAT.md`, 2.5): of geometries, which
/// `Finding::geometry` finds, their kind, coordinate type and dimension; of any other column its
/// type in Arrow's usual notation. Errs only when out of memory.
pub fn type_word(
    alloc: Global,
    column: &SchemaColumn,
    geometry: Option<&Geometry>,
) -> Result<String, AllocError>
    ensures { IfOk result (λ text. string_bytes text ≡ type_word (column_tree column.now) (option_map (λ g. g.now) geometry.entry)) }
{
    match geometry {
        Some(geometry) => kind_text(alloc, geometry.kind),
        None => column.data_type.notation(alloc),
    }
}
