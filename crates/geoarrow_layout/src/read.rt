//! The readers: which layout a data type has, under which extension names, and which point is inferred. Those of
//! geometries and boxes use only the summary of the data type, so they ignore the nullability, the metadata and the data
//! types of coordinate fields, the names of list items and members, and the mode of a union and the order of its members.
//! None of them allocates.
ghost use Rattle.std.specs.Prelude.{◌≡◌, ◌↔◌, ◌≢◌};
ghost use Rattle.geoarrow_layout.specs.Cited.{IfErr, IfOk, IfSome, IsTrue, Some, [], true, ℕ, List, Option, length, MatchResult, tree, field_trees, Yields, YieldsOne, Leaf, Native, Mixed, Collection, Geometry, BoxShape, IsBytes, IsText, Accepts, YieldsKind, IsStructured, IsSeparatedAs, IsBoxAs, names_of, name_text, extension_of, name_of, HasFault, BoxFault, MixedFault, NativeFault, GeometryFault, FaultAt, SeparatedFault, CoordinateFault, BoxNamesFault, Tree, Text, AreOf, IsCoordFault, Summarizes, IsBits, SomeAt, IsBottom, Tells, IsNoLeaf, ShowsIn, NativeIn, NativeFaultIn, MemberIn, MemberFaultIn, TellsBoth, IsLevelFault, MixedSays, Holds, IsAccepted, YieldsSome, Inferred, IsInferredAs, IsInferredSize, is_float64, are_float64, ListWidth};
ghost use Rattle.geoarrow_layout.specs.declared.names.ExtensionName.TheVariants as names;

use crate::dimensions::{CoordType, Coordinate, Dimension, list_size, only_dimension};
use crate::fault::LayoutFault;
use crate::names::{Candidates, ExtensionName};
use crate::native_kinds::{Kind, NativeKind, Width, list_names, parts_of_id};
use crate::summary::{Bottom, Summary, has_known, is_float64, struct_bottom, summarize};
use arrow_values::{DataType, Field};

/// What a reader of coordinates returns.
pub(crate) type Answer = Result<Coordinate, LayoutFault>;

/// Reads a point (GeoArrow, "Coordinate", "Point"): a fixed size list whose inner field's name gives the dimension and
/// whose size matches it, or a struct of two fields, of four, or of three named x, y and z or x, y and m in
/// any order. Errs on any other data type. Allocates nothing.
///
/// ```rust
/// let xym = Field::new(alloc, "xym", DataType::Float64, true)?;
/// let data_type = DataType::FixedSizeList(Box::new(alloc, xym)?, 3);
/// let wanted = (CoordType::Interleaved, Dimension::XYM);
/// assert_eq!(rt; parse_point(&data_type), Ok(wanted));
/// ```
pub fn parse_point(data_type: &DataType) -> Result<(CoordType, Dimension), LayoutFault>
    ensures exact { Yields result (Leaf (tree data_type.now)) }
    ensures fault { IfErr result (HasFault (NativeFault NativeKind.Point (tree data_type.now))) }
{
    parse_native(NativeKind::Point, data_type)
}

/// Reads a line string (GeoArrow, "LineString"), as `parse_native` does: one list over a coordinate, of either width.
pub fn parse_linestring(data_type: &DataType) -> Result<(CoordType, Dimension), LayoutFault>
    ensures exact { Yields result (Native (tree data_type.now) NativeKind.LineString) }
    ensures fault { IfErr result (HasFault (NativeFault NativeKind.LineString (tree data_type.now))) }
{
    parse_native(NativeKind::LineString, data_type)
}

/// Reads a polygon (GeoArrow, "Polygon"), as `parse_native` does: two lists over a coordinate, both of one width.
pub fn parse_polygon(data_type: &DataType) -> Result<(CoordType, Dimension), LayoutFault>
    ensures exact { Yields result (Native (tree data_type.now) NativeKind.Polygon) }
    ensures fault { IfErr result (HasFault (NativeFault NativeKind.Polygon (tree data_type.now))) }
{
    parse_native(NativeKind::Polygon, data_type)
}

/// Reads a multipoint (GeoArrow, "MultiPoint"), as `parse_native` does: one list over a coordinate, of either width.
pub fn parse_multipoint(data_type: &DataType) -> Result<(CoordType, Dimension), LayoutFault>
    ensures exact { Yields result (Native (tree data_type.now) NativeKind.MultiPoint) }
    ensures fault { IfErr result (HasFault (NativeFault NativeKind.MultiPoint (tree data_type.now))) }
{
    parse_native(NativeKind::MultiPoint, data_type)
}

/// Reads a multilinestring (GeoArrow, "MultiLineString"), as `parse_native` does: two lists, of one width, over a coordinate.
pub fn parse_multilinestring(data_type: &DataType) -> Result<(CoordType, Dimension), LayoutFault>
    ensures exact { Yields result (Native (tree data_type.now) NativeKind.MultiLineString) }
    ensures fault { IfErr result (HasFault (NativeFault NativeKind.MultiLineString (tree data_type.now))) }
{
    parse_native(NativeKind::MultiLineString, data_type)
}

/// Reads a multipolygon (GeoArrow, "MultiPolygon"), as `parse_native` does: three lists, of one width, over a coordinate.
pub fn parse_multipolygon(data_type: &DataType) -> Result<(CoordType, Dimension), LayoutFault>
    ensures exact { Yields result (Native (tree data_type.now) NativeKind.MultiPolygon) }
    ensures fault { IfErr result (HasFault (NativeFault NativeKind.MultiPolygon (tree data_type.now))) }
{
    parse_native(NativeKind::MultiPolygon, data_type)
}

/// Reads the union in a collection (GeoArrow, "GeometryCollection"): a union of at least one member, where each member
/// is of the kind and the dimension that its type id says, no collection among them, and all are of one coordinate type
/// and dimension. Errs on any other data type. Allocates nothing.
pub fn parse_mixed(data_type: &DataType) -> Result<(CoordType, Dimension), LayoutFault>
    ensures exact { Yields result (Mixed (tree data_type.now)) }
    ensures fault { IfErr result (HasFault (MixedFault (tree data_type.now))) }
{
    let summary = summarize(data_type);
    mixed_bottom(bottom_below(&summary, 0)?)
}

/// Reads a collection (GeoArrow, "GeometryCollection"), as `parse_native` does: one list over what `parse_mixed` reads.
pub fn parse_geometry_collection(
    data_type: &DataType,
) -> Result<(CoordType, Dimension), LayoutFault>
    ensures exact { Yields result (Collection (tree data_type.now)) }
    ensures fault { IfErr result (HasFault (NativeFault NativeKind.GeometryCollection (tree data_type.now))) }
{
    parse_native(NativeKind::GeometryCollection, data_type)
}

/// Reads geometries of any kind (GeoArrow, "Geometry"): a union of at least one member, where each member is of the
/// kind and the dimension that its type id says, collections among them, and all are of one coordinate type. Errs on
/// any other data type. Allocates nothing.
#[tactic(auto, using(crate::proofs::KindSteps::geometry_exact, crate::proofs::KindSteps::geometry_told))]
pub fn parse_geometry(data_type: &DataType) -> Result<CoordType, LayoutFault>
    ensures exact { YieldsOne result (Geometry (tree data_type.now)) }
    ensures fault { IfErr result (HasFault (GeometryFault (tree data_type.now))) }
{
    geometry(&summarize(data_type))
}

/// Reads a native kind (GeoArrow, "Native encoding"). Errs on any data type that is not of that kind. Allocates nothing.
pub fn parse_native(
    kind: NativeKind,
    data_type: &DataType,
) -> Result<(CoordType, Dimension), LayoutFault>
    ensures exact { Yields result (Native (tree data_type.now) kind) }
    ensures fault { IfErr result (HasFault (NativeFault kind (tree data_type.now))) }
{
    native(true, kind, &summarize(data_type))
}

/// Reads well-known binary (GeoArrow, "WKB"): bytes, of any width. Errs on any other data type. Allocates nothing.
pub fn parse_wkb(data_type: &DataType) -> Result<Width, LayoutFault>
    ensures exact { YieldsOne result (λ width. IsBytes width (tree data_type.now)) }
    ensures fault { IfErr result (HasFault (FaultAt names.Wkb (tree data_type.now))) }
{
    match data_type {
        DataType::Binary => Ok(Width::Plain),
        DataType::LargeBinary => Ok(Width::Large),
        DataType::BinaryView => Ok(Width::View),
        _ => Err(LayoutFault::UnexpectedType),
    }
}

/// Reads well-known text (GeoArrow, "WKT"): text, of any width. Errs on any other data type. Allocates nothing.
pub fn parse_wkt(data_type: &DataType) -> Result<Width, LayoutFault>
    ensures exact { YieldsOne result (λ width. IsText width (tree data_type.now)) }
    ensures fault { IfErr result (HasFault (FaultAt names.Wkt (tree data_type.now))) }
{
    match data_type {
        DataType::Utf8 => Ok(Width::Plain),
        DataType::LargeUtf8 => Ok(Width::Large),
        DataType::Utf8View => Ok(Width::View),
        _ => Err(LayoutFault::UnexpectedType),
    }
}

/// The kind of a column with that extension name and data type. Errs where it has none. Allocates nothing.
///
/// ```rust
/// let name = ExtensionName::Wkb;
/// assert_eq!(rt; parse_kind(name, &DataType::LargeBinary), Ok(Kind::Wkb(Width::Large)));
/// assert_eq!(rt; parse_kind(name, &DataType::Utf8), Err(LayoutFault::UnexpectedType));
/// ```
pub fn parse_kind(name: ExtensionName, data_type: &DataType) -> Result<Kind, LayoutFault>
    ensures exact { YieldsOne result (Accepts (name_text name) (tree data_type.now)) }
    ensures fault { IfErr result (HasFault (FaultAt name (tree data_type.now))) }
{
    match name {
        ExtensionName::Wkb => Ok(Kind::Wkb(parse_wkb(data_type)?)),
        ExtensionName::Wkt => Ok(Kind::Wkt(parse_wkt(data_type)?)),
        _ => kind_under(name, &summarize(data_type)),
    }
}

/// Reads a box (GeoArrow, "Box"): a struct of four fields or of eight, or of six fields that include `mmin` and `mmax` or,
/// failing that, `zmin` and `zmax`. Errs on any other data type. Allocates nothing.
#[tactic(auto, using(crate::proofs::KindSteps::box_exact, crate::proofs::KindSteps::box_told))]
pub fn parse_box(data_type: &DataType) -> Result<Dimension, LayoutFault>
    ensures exact { YieldsOne result (BoxShape (tree data_type.now)) }
    ensures fault { IfErr result (HasFault (BoxFault (tree data_type.now))) }
{
    boxed(&summarize(data_type))
}

impl Summary {
    /// The kind of a column of that extension name, whatever data type the summary is of: none where no kind of that
    /// name has such a data type, and none for well-known binary and text, of which a summary says nothing. Where the
    /// summary is of no data type at all, a kind that is answered is one of that name too. Allocates nothing.
    pub fn kind(&self, name: &str) -> Option<Kind>
        ensures exact { (t : Tree) → Summarizes self.now t → YieldsKind name.now t result }
        ensures named { IfSome result (λ k. (name.now ≡ name_of k) × IsStructured k) }
    {
        kind_under(ExtensionName::from_text(name)?, self).ok()
    }
}

/// The kind of a column of that extension name, from the summary of its data type, which says nothing of well-known
/// binary and text.
#[inline(always)]
fn kind_under(name: ExtensionName, summary: &Summary) -> Result<Kind, LayoutFault>
    ensures told { (name ≢ names.Wkb) × (name ≢ names.Wkt) → (t : Tree) → Summarizes summary.now t → Tells result (Accepts (name_text name) t) (FaultAt name t) }
    ensures named { IfOk result (λ k. (extension_of k ≡ name) × IsStructured k) }
{
    match name {
        ExtensionName::Native(kind) => {
            let pair = native(true, kind, summary)?;
            Ok(Kind::Native(kind, pair.0, pair.1))
        }
        ExtensionName::Geometry => geometry(summary).map(Kind::Geometry),
        ExtensionName::Rect => boxed(summary).map(Kind::Rect),
        ExtensionName::Wkb | ExtensionName::Wkt => Err(LayoutFault::UnexpectedType),
    }
}

/// All extension names, of the eleven that there are, under which the data type can be read (GeoArrow,
/// "Extension types"). Allocates nothing.
///
/// ```rust
/// let lines = list_data_type(alloc, NativeKind::LineString, CoordType::Separated, Dimension::XYZ)?;
/// assert_eq!(rt; candidates(&lines), Candidates::LineStringOrMultiPoint);
/// ```
pub fn candidates(data_type: &DataType) -> Candidates
    ensures { (n : Text) → Holds result n ↔ IsAccepted n (tree data_type.now) }
{
    if parse_kind(ExtensionName::Wkb, data_type).is_ok() {
        return Candidates::One("geoarrow.wkb");
    }
    if parse_kind(ExtensionName::Wkt, data_type).is_ok() {
        return Candidates::One("geoarrow.wkt");
    }
    let summary = summarize(data_type);
    let is_point = is_kind(ExtensionName::Native(NativeKind::Point), &summary);
    let collection = NativeKind::GeometryCollection;
    if is_kind(ExtensionName::Rect, &summary) {
        if is_point {
            Candidates::PointOrBox
        } else {
            Candidates::One("geoarrow.box")
        }
    } else if is_point {
        Candidates::One("geoarrow.point")
    } else if is_kind(ExtensionName::Native(NativeKind::LineString), &summary) {
        Candidates::LineStringOrMultiPoint
    } else if is_kind(ExtensionName::Native(NativeKind::Polygon), &summary) {
        Candidates::PolygonOrMultiLineString
    } else if is_kind(ExtensionName::Native(NativeKind::MultiPolygon), &summary) {
        Candidates::One("geoarrow.multipolygon")
    } else if is_kind(ExtensionName::Native(collection), &summary) {
        Candidates::One("geoarrow.geometrycollection")
    } else if is_kind(ExtensionName::Geometry, &summary) {
        Candidates::One("geoarrow.geometry")
    } else {
        Candidates::None
    }
}

/// Whether a column of that extension name has a kind, by the summary of its data type.
fn is_kind(name: ExtensionName, summary: &Summary) -> bool
    requires { (name ≢ names.Wkb) × (name ≢ names.Wkt) }
    ensures { (t : Tree) → Summarizes summary.now t → IsTrue result ↔ IsAccepted (name_text name) t }
{
    kind_under(name, summary).is_ok()
}

/// The point that is inferred from a data type without an extension name: a struct of two, three or four fields, or a
/// fixed size list of two, three or four numbers, all of them `Float64`. Three are x, y and m if the fields have these
/// names, in any order, or if the inner field is named `xym`; otherwise they are x, y and z. `None` for any other data
/// type. If `parse_point` reads the data type too, it returns the same point. Allocates nothing.
///
/// ```rust
/// let xym = Field::new(alloc, "xym", DataType::Float64, true)?;
/// let data_type = DataType::FixedSizeList(Box::new(alloc, xym)?, 3);
/// let wanted = (CoordType::Interleaved, Dimension::XYM);
/// assert_eq!(rt; parse_point(&data_type), Ok(wanted));
/// assert_eq!(rt; infer_point(&data_type), Some(wanted));
/// ```
pub fn infer_point(data_type: &DataType) -> Option<(CoordType, Dimension)>
    ensures exact { YieldsSome result (Inferred (tree data_type.now)) }
    ensures agrees { (c b : CoordType) (d e : Dimension) → result ≡ Some (c, d) → Leaf (tree data_type.now) b e → (c ≡ b) × (d ≡ e) }
{
    match data_type {
        DataType::Struct(fields) => {
            let dimension = struct_dimension(fields.as_slice())?;
            Some((CoordType::Separated, dimension))
        }
        DataType::FixedSizeList(inner, size) => {
            let dimension = sized_dimension(inner, *size)?;
            Some((CoordType::Interleaved, dimension))
        }
        _ => None,
    }
}

/// The dimension that is inferred from a fixed size list of so many of these.
fn sized_dimension(inner: &Field, size: i32) -> Option<Dimension>
    ensures { (d : Dimension) → (result ≡ Some d) ↔ ((is_float64 inner.now.tree ≡ true) × IsInferredSize d inner.now.name size) }
{
    if !is_float64(inner.data_type()) {
        return None;
    }
    match size {
        2 => Some(Dimension::XY),
        3 if inner.name() == "xym" => Some(Dimension::XYM),
        3 => Some(Dimension::XYZ),
        4 => Some(Dimension::XYZM),
        _ => None,
    }
}

/// The dimension that is inferred from a struct of these fields: of two, whatever their names are.
#[inline(always)]
fn struct_dimension(fields: &[Field]) -> Option<Dimension>
    ensures { (d : Dimension) → (result ≡ Some d) ↔ ((are_float64 (field_trees fields.now) ≡ true) × IsInferredAs d (names_of (field_trees fields.now))) }
{
    let [first, second] = fields else {
        return named_dimension_of(fields);
    };
    (is_float64(first.data_type()) && is_float64(second.data_type())).then_some(Dimension::XY)
}

/// The dimension that is inferred from a struct of these fields, by their names.
#[inline(never)]
#[tactic(auto, using(crate::proofs::Structs::all_inferred, crate::proofs::Structs::read_inferred))]
fn named_dimension_of(fields: &[Field]) -> Option<Dimension>
    ensures { (d : Dimension) → (result ≡ Some d) ↔ ((are_float64 (field_trees fields.now) ≡ true) × IsInferredAs d (names_of (field_trees fields.now))) }
{
    let Bottom::Struct {
        count,
        names,
        all_float64: true,
    } = struct_bottom(fields)
    else {
        return None;
    };
    match separated_dimension(count, names) {
        Ok(dimension) => Some(dimension),
        Err(LayoutFault::BadFieldNames) => Some(Dimension::XYZ),
        Err(_) => None,
    }
}

/// The dimension that the fields of a struct say.
fn separated_dimension(count: usize, names: u16) -> Result<Dimension, LayoutFault>
    ensures { (ns : List Text) → count ≡ length ns → IsBits names (λ i. SomeAt i ns) → Tells result (λ d. IsSeparatedAs d ns) (SeparatedFault ns) }
{
    match count {
        2 => Ok(Dimension::XY),
        3 if !has_known(names, 0) => Err(LayoutFault::BadFieldNames),
        3 if !has_known(names, 1) => Err(LayoutFault::BadFieldNames),
        3 if has_known(names, 3) => Ok(Dimension::XYM),
        3 if has_known(names, 2) => Ok(Dimension::XYZ),
        3 => Err(LayoutFault::BadFieldNames),
        4 => Ok(Dimension::XYZM),
        _ => Err(LayoutFault::BadFieldCount),
    }
}

#[tactic(auto, using(crate::proofs::Structs::struct_leaf))]
fn leaf(bottom: &Bottom) -> Answer
    ensures { (w : Option ListWidth) (levels : ℕ) (u : Tree) → IsBottom IsNoLeaf w levels bottom.now u → TellsBoth result (Leaf u) (CoordinateFault u) }
{
    match bottom {
        Bottom::FixedSizeList { named, size, .. } => match named {
            Some(dimension) if *size == list_size(*dimension) => {
                Ok((CoordType::Interleaved, *dimension))
            }
            Some(_) => Err(LayoutFault::BadSize),
            None => Err(LayoutFault::BadInterleavedName),
        },
        Bottom::Struct { count, names, .. } => {
            Ok((CoordType::Separated, separated_dimension(*count, *names)?))
        }
        _ => Err(LayoutFault::UnexpectedType),
    }
}

/// What is below exactly so many list levels; the fault of a data type that has fewer or more.
#[inline(always)]
fn bottom_below(summary: &Summary, levels: u8) -> Result<&Bottom, LayoutFault>
    ensures { MatchResult result (λ b. (summary.now.levels ≡ levels) × (b.now ≡ summary.now.bottom)) (IsLevelFault summary.now levels) }
{
    if levels == summary.levels {
        return Ok(&summary.bottom);
    }
    match summary.bottom {
        Bottom::OtherWidth if summary.levels < levels => Err(LayoutFault::MixedWidths),
        _ => Err(LayoutFault::UnexpectedType),
    }
}

/// The coordinate type of a union, from what was seen of its members.
fn one_of_union(
    no_members: bool,
    fault: Option<LayoutFault>,
    coord_types: u8,
) -> Result<CoordType, LayoutFault>
    ensures { MatchResult result (AreOf no_members fault coord_types) (IsCoordFault no_members fault coord_types) }
{
    if no_members {
        return Err(LayoutFault::EmptyUnion);
    }
    match (fault, coord_types) {
        (Some(fault), _) => Err(fault),
        (None, 1) => Ok(CoordType::Interleaved),
        (None, 2) => Ok(CoordType::Separated),
        (None, _) => Err(LayoutFault::SeveralCoordTypes),
    }
}

/// The coordinate type and dimension of a union in a collection, from what was seen of its members.
fn mixed_bottom(bottom: &Bottom) -> Answer
    ensures { MixedSays bottom.now result }
{
    let Bottom::Union {
        no_members,
        coord_types,
        dimensions,
        mixed_fault,
        ..
    } = bottom
    else {
        return Err(LayoutFault::UnexpectedType);
    };
    let coord_type = one_of_union(*no_members, *mixed_fault, *coord_types)?;
    let dimension = only_dimension(*dimensions).ok_or(LayoutFault::SeveralDimensions)?;
    Ok((coord_type, dimension))
}

/// A native kind; a collection only where collections are allowed.
#[inline(always)]
pub(crate) fn native(collections: bool, kind: NativeKind, summary: &Summary) -> Answer
    ensures { (t : Tree) → ShowsIn collections summary.now t → TellsBoth result (NativeIn collections t kind) (NativeFaultIn collections kind t) }
{
    match kind {
        NativeKind::GeometryCollection if collections => mixed_bottom(bottom_below(summary, 1)?),
        NativeKind::GeometryCollection => Err(LayoutFault::BadTypeId),
        _ => leaf(bottom_below(summary, list_names(kind).len() as u8)?),
    }
}

/// A member of a union of geometries, or, where collections are not allowed, of the union in a collection.
pub(crate) fn member(collections: bool, id: i8, summary: &Summary) -> Answer
    ensures { (t : Tree) → ShowsIn collections summary.now t → TellsBoth result (MemberIn collections id t) (MemberFaultIn collections id t) }
{
    let Some((kind, dimension)) = parts_of_id(id) else {
        return Err(LayoutFault::BadTypeId);
    };
    match native(collections, kind, summary) {
        Ok(pair) if pair.1 == dimension => Ok(pair),
        Ok(_) => Err(LayoutFault::MemberDimension),
        Err(fault) => Err(fault),
    }
}

/// A union of members of one coordinate type.
#[tactic(auto, using(crate::proofs::UnionSteps::root_geometry, crate::proofs::UnionSteps::at_root))]
fn geometry(summary: &Summary) -> Result<CoordType, LayoutFault>
    ensures { (t : Tree) → Summarizes summary.now t → Tells result (Geometry t) (GeometryFault t) }
{
    match bottom_below(summary, 0)? {
        Bottom::Union {
            no_members,
            coord_types,
            geometry_fault,
            ..
        } => one_of_union(*no_members, *geometry_fault, *coord_types),
        _ => Err(LayoutFault::UnexpectedType),
    }
}

/// The dimension that the fields of a box say.
fn box_dimension(count: usize, names: u16) -> Result<Dimension, LayoutFault>
    ensures { (ns : List Text) → count ≡ length ns → IsBits names (λ i. SomeAt i ns) → Tells result (λ d. IsBoxAs d ns) (BoxNamesFault ns) }
{
    match count {
        4 => Ok(Dimension::XY),
        6 if has_known(names, 6) && has_known(names, 7) => Ok(Dimension::XYM),
        6 if has_known(names, 4) && has_known(names, 5) => Ok(Dimension::XYZ),
        6 => Err(LayoutFault::BadFieldNames),
        8 => Ok(Dimension::XYZM),
        _ => Err(LayoutFault::BadFieldCount),
    }
}

#[tactic(auto, using(crate::proofs::Structs::root_box, crate::proofs::UnionSteps::at_root))]
fn boxed(summary: &Summary) -> Result<Dimension, LayoutFault>
    ensures { (t : Tree) → Summarizes summary.now t → Tells result (BoxShape t) (BoxFault t) }
{
    match bottom_below(summary, 0)? {
        Bottom::Struct { count, names, .. } => box_dimension(*count, *names),
        _ => Err(LayoutFault::UnexpectedType),
    }
}
