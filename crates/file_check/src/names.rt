//! The names of files.
ghost use Rattle.std.specs.Prelude.{◌≡◌};
ghost use Rattle.arrow_values.specs.Texts.{text_of};
ghost use Rattle.file_check.specs.Names.{is_hyphen, name_of};

/// The name that the lines of JSON give a file: standard input has none.
pub(crate) fn named(file: &str) -> Option<&str>
    ensures { text_of result ≡ name_of file.entry.now }
{
    if is_hyphen(file) { None } else { Some(file) }
}

/// Whether a name is `-`.
fn is_hyphen(file: &str) -> bool
    ensures { result ≡ is_hyphen file.now }
{
    match file.as_bytes() {
        [byte] => *byte == b'-',
        _ => false,
    }
}
