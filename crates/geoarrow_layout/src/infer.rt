//! Which kind is inferred from a data type, without an extension name.
ghost use Rattle.geoarrow_layout.specs.Cited.{YieldsInferred, tree};

use crate::native_kinds::{Kind, NativeKind};
use crate::read::{infer_point, parse_wkb, parse_wkt};
use arrow_values::DataType;

/// Returns the kind that is inferred from a data type without an extension name (docs/FORMAT.md,
/// 1.7): a point, as `infer_point` finds it, well-known binary or well-known text. `None` if none is
/// inferred. Allocates nothing.
///
/// ```rust
/// assert_eq!(rt; infer_kind(&DataType::LargeUtf8), Some(Kind::Wkt(Width::Large)));
/// assert_eq!(rt; infer_kind(&DataType::Boolean), None);
/// ```
pub fn infer_kind(data_type: &DataType) -> Option<Kind>
    ensures { YieldsInferred (tree data_type.now) result }
{
    if let Some((coord_type, dimension)) = infer_point(data_type) {
        return Some(Kind::Native(NativeKind::Point, coord_type, dimension));
    }
    if let Ok(width) = parse_wkb(data_type) {
        return Some(Kind::Wkb(width));
    }
    parse_wkt(data_type).ok().map(Kind::Wkt)
}
