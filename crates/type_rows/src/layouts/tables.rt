//! Commands about kinds, names, dimensions and faults, which are tables.
use arrow_values::Dimensions;
use geoarrow_layout::{CoordType, Dimension, ExtensionName, LayoutFault};
use rows::asked::Asked;
use rows::said::Said;
use rows::texts;
use std::mem::ManuallyDrop;

/// Says the extension name, the coordinate type and the dimension of a kind.
pub fn parts(it: &mut Asked<'_>) {
    let kind = texts::kind(&mut it.said, it.text);
    it.said.push(kind.name());
    it.said.push(" ");
    match kind.coord_type() {
        Some(coord_type) => it.said.name(&coord_type),
        None => it.said.push("-"),
    }
    it.said.push(" ");
    match kind.dimension() {
        Some(dimension) => it.said.shown(&dimension),
        None => it.said.push("-"),
    }
}

/// Says the extension name of a text, and its text; or the coordinate type where none is said.
pub fn name(it: &mut Asked<'_>) {
    match (it.command, ExtensionName::from_text(it.text)) {
        ("name", Some(name)) => {
            it.said.name(&name);
            it.said.push(" ");
            it.said.push(name.as_text());
        }
        ("name", None) => it.said.push("none"),
        _ if it.text == "CoordType" => it.said.name(&CoordType::default()),
        _ => it.said.fail(),
    }
}

/// Says the size and the place of a dimension, and geometry traits' dimensions of it, with theirs.
pub fn dimensions(it: &mut Asked<'_>) {
    let dimension = texts::dimension(&mut it.said, it.text);
    let dimensions = Dimensions::from(dimension);
    it.said.shown(&dimension);
    it.said.push(" ");
    it.said.shown(&dimension.size());
    it.said.push(" ");
    it.said.shown(&dimension.order());
    it.said.push(" ");
    it.said.name(&dimensions);
    it.said.push(" ");
    it.said.shown(&dimensions.size());
}

/// Geometry traits' dimensions of a name, or of a number of no known meaning.
fn dimensions_of(said: &mut Said, text: &str) -> Dimensions {
    match text {
        "Xy" => Dimensions::Xy,
        "Xyz" => Dimensions::Xyz,
        "Xym" => Dimensions::Xym,
        "Xyzm" => Dimensions::Xyzm,
        number => Dimensions::Unknown(said.found(number.parse::<usize>().ok(), 0)),
    }
}

/// Says the dimension that they are, or the error's text.
pub fn dimension(it: &mut Asked<'_>) {
    let dimensions = dimensions_of(&mut it.said, it.text);
    it.before();
    let found = ManuallyDrop::new(Dimension::try_from_dimensions(it.alloc, dimensions));
    it.after();
    match &*found {
        Ok(dimension) => it.said.shown(dimension),
        Err(error) => it.said.geoarrow_refusal(error),
    }
}

/// All faults.
const FAULTS: [LayoutFault; 11] = [
    LayoutFault::UnexpectedType,
    LayoutFault::BadInterleavedName,
    LayoutFault::BadSize,
    LayoutFault::BadFieldNames,
    LayoutFault::BadFieldCount,
    LayoutFault::MixedWidths,
    LayoutFault::BadTypeId,
    LayoutFault::MemberDimension,
    LayoutFault::EmptyUnion,
    LayoutFault::SeveralCoordTypes,
    LayoutFault::SeveralDimensions,
];

/// The fault of that name.
fn fault_of(said: &mut Said, text: &str) -> LayoutFault {
    let mut name = Said::new(said.alloc);
    for fault in FAULTS.iter() {
        name.text.clear();
        name.name(fault);
        if !name.is_lacking && name.text.as_str() == text {
            return *fault;
        }
    }
    said.fail();
    LayoutFault::UnexpectedType
}

/// Says a fault as an error of Arrow, by its text.
pub fn error(it: &mut Asked<'_>) {
    let fault = fault_of(&mut it.said, it.text);
    let error = ManuallyDrop::new(fault.into_arrow_error(it.alloc));
    it.said.refusal(&error);
}
