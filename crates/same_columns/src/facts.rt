//! What of a column is compared.
ghost use Rattle.std.specs.Prelude.{◌≡◌, option_map};
ghost use Rattle.arrow_columns.specs.Column.{column_tree};
ghost use Rattle.geoparquet.specs.Facts.{facts_view};
ghost use Rattle.same_columns.specs.Compared.{are_geometries, compared, edges_word, encoding_word};

use arrow_columns::SchemaColumn;
use column_reports::ColumnReport;
use geoparquet::{ColumnFacts, own_encoding};

/// Returns the facts of geometries; none of another column.
pub(crate) fn facts_of(report: &ColumnReport) -> Option<&ColumnFacts>
    ensures { option_map (λ f. facts_view f.now) result ≡ (compared report.now).facts }
{
    match report.finding.geometry() {
        Some(_) => Some(&report.facts),
        None => None,
    }
}

/// Returns whether both columns hold geometries.
pub(crate) fn are_geometries(a: &ColumnReport, b: &ColumnReport) -> bool
    ensures { result ≡ are_geometries (compared a.now) (compared b.now) }
{
    facts_of(a).is_some() && facts_of(b).is_some()
}

/// Returns the encoding that the extension name of a column says, as `WKB` or `multipoint`; no text
/// where it says none.
///
/// ```rust
/// let column = SchemaColumn {
///     name: String::from_str(alloc, "geom")?,
///     nullable: false,
///     data_type: AnyType::Data(DataType::Binary),
///     metadata: BTreeMap::new(alloc),
/// };
/// assert_eq!(rt; encoding_word(&column), "");
/// ```
pub fn encoding_word(column: &SchemaColumn) -> &'static str
    ensures { result.now ≡ encoding_word (column_tree column.now) }
{
    match column.extension_type_name() {
        Some(name) => own_encoding(name).unwrap_or(""),
        None => "",
    }
}

/// Returns the edges of geometries: planar where no source says any.
pub fn edges_word(facts: &ColumnFacts) -> &str
    ensures { result.now ≡ edges_word (facts_view facts.now) }
{
    match &facts.edges {
        Some(edges) => edges.edges.as_str(),
        None => "planar",
    }
}
