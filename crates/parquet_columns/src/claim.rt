//! What the geometry type of an element says beside its column.
ghost use Rattle.std.specs.Prelude.{◌≡◌, IfOk, option_map, string_bytes};
ghost use Rattle.arrow_values.specs.Texts.{text_of};
ghost use Rattle.arrow_columns.specs.Column.{column_tree};
ghost use Rattle.parquet_footer.specs.Element.{element};
ghost use Rattle.parquet_columns.specs.Says.{says};
ghost use Rattle.parquet_columns.specs.Claims.{claim, edges_alone, own_text, claim_by, claim_of, claim_size};

use crate::geometry::{EdgesClaim, GeometrySays, geometry_of, text_with};
use crate::reserved::is_reserved;
use crate::unreadable::is_unreadable;
use crate::values::KeyValues;
use arrow_columns::SchemaColumn;
use geoarrow_meta::Edges;
use parquet_footer::SchemaElement;
use std::alloc::{AllocError, Global};

/// What the geometry type of an element, if it is of one, says of its column
/// (`docs/FORMAT.md`, 4.6).
#[derive(Debug, Drop)]
pub enum ElementClaim {
    /// Nothing: the element is of no geometry type, is none that 4.6 speaks of, or its column is
    /// not read.
    Silent,
    /// The column has its extension name and metadata from the element, as its field has no extension
    /// name of its own: none at all, or a foreign one.
    Given {
        /// Whether the geometry type names a CRS. Where it does not, the one in the metadata of the
        /// column is the format's default.
        names_crs: bool,
        /// How the edges in the metadata of the column are said.
        edges: EdgesClaim,
    },
    /// The field has an extension name of its own.
    Beside {
        /// The extension metadata that the geometry type denotes, without a CRS where it names none, so
        /// that the format's default counts.
        metadata: String,
        /// How its edges are said.
        edges: EdgesClaim,
    },
}

/// The text of extension metadata with those edges and without a CRS.
fn edges_alone(edges: Option<Edges>) -> &'static str
    ensures { result.now ≡ edges_alone edges }
{
    match edges {
        None => "{}",
        Some(Edges::Andoyer) => r#"{"edges":"andoyer"}"#,
        Some(Edges::Karney) => r#"{"edges":"karney"}"#,
        Some(Edges::Spherical) => r#"{"edges":"spherical"}"#,
        Some(Edges::Thomas) => r#"{"edges":"thomas"}"#,
        Some(Edges::Vincenty) => r#"{"edges":"vincenty"}"#,
    }
}

/// The text of the extension metadata that a geometry type denotes, without a CRS where it names none.
fn own_text<'a>(
    alloc: Global,
    values: &mut KeyValues<'_, 'a>,
    said: GeometrySays<'a>,
) -> Result<String, AllocError>
    ensures text { IfOk result (λ text. string_bytes text ≡ own_text values.old (text_of said.entry.crs) said.entry.edges) }
    ensures same { values.new ≡ values.old }
{
    match said.crs {
        None => String::from_str(alloc, edges_alone(said.edges)),
        Some(_) => text_with(alloc, values, said.crs, said.edges),
    }
}

/// What a geometry type says beside a column, by whether the column has an extension name of its own.
fn claim_by<'a>(
    alloc: Global,
    values: &mut KeyValues<'_, 'a>,
    is_own: bool,
    said: Option<GeometrySays<'a>>,
) -> Result<ElementClaim, AllocError>
    ensures made { IfOk result (λ made. claim made ≡ claim_by values.old is_own (option_map says said.entry)) }
    ensures same { values.new ≡ values.old }
{
    let Some(said) = said else {
        return Ok(ElementClaim::Silent);
    };
    if is_own {
        return Ok(ElementClaim::Beside {
            metadata: own_text(alloc, values, said)?,
            edges: said.said,
        });
    }
    Ok(ElementClaim::Given {
        names_crs: said.crs.is_some(),
        edges: said.said,
    })
}

/// What an element, if there is one, says beside a column. Errs only when out of memory.
pub(crate) fn claim_of<'a>(
    alloc: Global,
    values: &mut KeyValues<'_, 'a>,
    child: Option<&SchemaElement<'a>>,
    column: &SchemaColumn,
) -> Result<ElementClaim, AllocError>
    ensures made { IfOk result (λ made. claim made
        ≡ claim_of values.old (option_map (λ e. element e.now) child.entry) (column_tree column.now)) }
    ensures same { values.new ≡ values.old }
{
    let Some(child) = child else {
        return Ok(ElementClaim::Silent);
    };
    if is_unreadable(&column.data_type) {
        return Ok(ElementClaim::Silent);
    }
    let is_own = is_reserved(alloc, column.extension_type_name())?;
    claim_by(alloc, values, is_own, geometry_of(child))
}

/// How many bytes a claim has.
pub(crate) fn claim_size(said: &ElementClaim) -> u128
    ensures { result ≡ claim_size (claim said.now) }
{
    match said {
        ElementClaim::Silent => 0,
        ElementClaim::Given { .. } => 0,
        ElementClaim::Beside { metadata, .. } => metadata.len() as u128,
    }
}
