//! The name that a text is most like, of a few, and the question whether it is meant.
ghost use Rattle.std.specs.Prelude.{◌≡◌, map, option_map};
ghost use Rattle.arrow_values.specs.Texts.{text_of};
ghost use Rattle.column_check.specs.Meant.{small, is_alike, rests, behind, are_done, are_same, is_left_one, is_within_one, is_left_two, is_within_two, is_within, first_meant, meant, meant_or, extension_names, crs_type_names, edges_names};

/// A byte, a capital of ASCII as the small letter.
fn small(b: u8) -> u8
    ensures { result ≡ small b }
{
    if 65 <= b && b <= 90 { b + 32 } else { b }
}

/// Whether two bytes are one but for letters of ASCII.
fn is_alike(a: u8, b: u8) -> bool
    ensures { result ≡ is_alike a b }
{
    small(a) == small(b)
}

/// What two texts have behind the bytes that they begin with alike.
fn rests<'s>(one: &'s [u8], other: &'s [u8]) -> (&'s [u8], &'s [u8])
    ensures { (result.0.now, result.1.now) ≡ rests one.now other.now }
{
    let [a, s @ ..] = one else {
        return (one, other);
    };
    let [b, t @ ..] = other else {
        return (one, other);
    };
    if is_alike(*a, *b) {
        rests(s, t)
    } else {
        (one, other)
    }
}

/// What stands behind the first byte.
fn behind(text: &[u8]) -> &[u8]
    ensures { result.now ≡ behind text.now }
{
    match text {
        [_, rest @ ..] => rest,
        [] => text,
    }
}

/// Whether nothing is left of either.
fn are_done(one: &[u8], other: &[u8]) -> bool
    ensures { result ≡ are_done (one.now, other.now) }
{
    match one {
        [] => match other {
            [] => true,
            _ => false,
        },
        _ => false,
    }
}

/// Whether two texts differ in letters of ASCII alone.
fn are_same(one: &[u8], other: &[u8]) -> bool
    ensures { result ≡ are_same one.now other.now }
{
    let left = rests(one, other);
    are_done(left.0, left.1)
}

/// Whether one edit leads from one rest to the other.
fn is_left_one(one: &[u8], other: &[u8]) -> bool
    ensures { result ≡ is_left_one (one.now, other.now) }
{
    are_same(behind(one), behind(other))
        || (are_same(behind(one), other) || are_same(one, behind(other)))
}

/// Whether one edit leads from one text to the other.
fn is_within_one(one: &[u8], other: &[u8]) -> bool
    ensures { result ≡ is_within_one one.now other.now }
{
    let left = rests(one, other);
    is_left_one(left.0, left.1)
}

/// Whether two edits lead from one rest to the other.
fn is_left_two(one: &[u8], other: &[u8]) -> bool
    ensures { result ≡ is_left_two (one.now, other.now) }
{
    is_within_one(behind(one), behind(other))
        || (is_within_one(behind(one), other) || is_within_one(one, behind(other)))
}

/// Whether two edits lead from one text to the other.
fn is_within_two(one: &[u8], other: &[u8]) -> bool
    ensures { result ≡ is_within_two one.now other.now }
{
    let left = rests(one, other);
    is_left_two(left.0, left.1)
}

/// Whether so many edits lead to a name.
fn is_within(edits: usize, found: &str, name: &str) -> bool
    ensures { result ≡ is_within edits found.now name.now }
{
    if edits == 0 {
        are_same(found.as_bytes(), name.as_bytes())
    } else if edits == 1 {
        is_within_one(found.as_bytes(), name.as_bytes())
    } else {
        10 < name.len() && is_within_two(found.as_bytes(), name.as_bytes())
    }
}

/// The question of the first name that so many edits lead to.
fn first_meant(
    edits: usize,
    found: &str,
    names: &[(&'static str, &'static str)],
) -> Option<&'static str>
    ensures { text_of result ≡ first_meant edits found.now (map (λ name. (name.0.now, name.1.now)) names.now) }
{
    let [name, rest @ ..] = names else {
        return None;
    };
    if is_within(edits, found, name.0) {
        return Some(name.1);
    }
    first_meant(edits, found, rest)
}

/// The question of the name that a text is most like.
fn meant(found: &str, names: &[(&'static str, &'static str)]) -> Option<&'static str>
    ensures { text_of result ≡ meant found.now (map (λ name. (name.0.now, name.1.now)) names.now) }
{
    if let Some(help) = first_meant(0, found, names) {
        return Some(help);
    }
    if let Some(help) = first_meant(1, found, names) {
        return Some(help);
    }
    first_meant(2, found, names)
}

/// Returns the question whether one of these names is meant, or else what helps.
pub(crate) fn meant_or(
    names: &[(&'static str, &'static str)],
    help: Option<&'static str>,
    found: Option<&str>,
) -> Option<&'static str>
    ensures { text_of result ≡ meant_or (map (λ name. (name.0.now, name.1.now)) names.now) (text_of help.entry) (text_of found.entry) }
{
    let Some(found) = found else {
        return help;
    };
    match meant(found, names) {
        Some(meant) => Some(meant),
        None => help,
    }
}

/// Returns the extension names, each with its question.
pub(crate) fn extension_names() -> &'static [(&'static str, &'static str)]
    ensures { map (λ name. (name.0.now, name.1.now)) result.now ≡ extension_names }
{
    &[
        ("geoarrow.point", "Did you mean geoarrow.point?"),
        ("geoarrow.linestring", "Did you mean geoarrow.linestring?"),
        ("geoarrow.polygon", "Did you mean geoarrow.polygon?"),
        ("geoarrow.multipoint", "Did you mean geoarrow.multipoint?"),
        (
            "geoarrow.multilinestring",
            "Did you mean geoarrow.multilinestring?",
        ),
        (
            "geoarrow.multipolygon",
            "Did you mean geoarrow.multipolygon?",
        ),
        (
            "geoarrow.geometrycollection",
            "Did you mean geoarrow.geometrycollection?",
        ),
        ("geoarrow.geometry", "Did you mean geoarrow.geometry?"),
        ("geoarrow.box", "Did you mean geoarrow.box?"),
        ("geoarrow.wkb", "Did you mean geoarrow.wkb?"),
        ("geoarrow.wkt", "Did you mean geoarrow.wkt?"),
    ]
}

/// Returns the types of a CRS, each with its question.
pub(crate) fn crs_type_names() -> &'static [(&'static str, &'static str)]
    ensures { map (λ name. (name.0.now, name.1.now)) result.now ≡ crs_type_names }
{
    &[
        ("\"projjson\"", "Did you mean \"projjson\"?"),
        ("\"wkt2:2019\"", "Did you mean \"wkt2:2019\"?"),
        ("\"authority_code\"", "Did you mean \"authority_code\"?"),
        ("\"srid\"", "Did you mean \"srid\"?"),
    ]
}

/// Returns the edges, each with their question.
pub(crate) fn edges_names() -> &'static [(&'static str, &'static str)]
    ensures { map (λ name. (name.0.now, name.1.now)) result.now ≡ edges_names }
{
    &[
        ("\"andoyer\"", "Did you mean \"andoyer\"?"),
        ("\"karney\"", "Did you mean \"karney\"?"),
        ("\"spherical\"", "Did you mean \"spherical\"?"),
        ("\"thomas\"", "Did you mean \"thomas\"?"),
        ("\"vincenty\"", "Did you mean \"vincenty\"?"),
    ]
}
