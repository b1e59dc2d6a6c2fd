//! What is found in the footer of a Parquet file.
ghost use Rattle.std.specs.Prelude.{◌≡◌, [], None, IfOk, option_map, string_bytes};
ghost use Rattle.arrow_values.specs.Texts.{text_of};
ghost use Rattle.parquet_columns.specs.Findings.{finding};

use crate::code::{FileCode, FilePart};
use std::alloc::{AllocError, Global};

/// Where something is found.
#[derive(Clone, Copy, Debug, PartialEq, Eq)]
pub struct FilePlace {
    /// The part of the file.
    pub part: FilePart,
    /// The byte, counted in that part; none where no byte tells the place.
    pub byte: Option<usize>,
}

/// What is found in the footer of a Parquet file whose columns are read.
#[derive(Debug, Drop)]
pub struct FileFinding {
    /// What is wrong.
    pub code: FileCode,
    /// The name of the column in which it is; none where it is in no column.
    pub column: Option<String>,
    /// The names of the child fields on the way down from the column; none where it is in the column itself.
    pub path: Vec<String>,
    /// Where in the file.
    pub place: FilePlace,
    /// What stands there; none where nothing does.
    pub found: Option<String>,
    /// What is wanted there, where the code does not say it alone: the name of an element, or the key.
    pub wanted: Option<String>,
}

/// A text of one's own, if there is one.
pub(crate) fn owned(alloc: Global, text: Option<&str>) -> Result<Option<String>, AllocError>
    ensures { IfOk result (λ made. option_map string_bytes made ≡ text_of text.entry) }
{
    match text {
        Some(text) => Ok(Some(String::from_str(alloc, text)?)),
        None => Ok(None),
    }
}

impl FileFinding {
    /// A finding of these texts that is in no column. Errs only when out of memory.
    pub(crate) fn new(
        alloc: Global,
        code: FileCode,
        place: FilePlace,
        found: Option<&str>,
        wanted: Option<&str>,
    ) -> Result<FileFinding, AllocError>
        ensures { IfOk result (λ made. finding made
            ≡ record { code = code; column = None; path = []; place = place; found = text_of found.entry; wanted = text_of wanted.entry }) }
    {
        let found = owned(alloc, found)?;
        let wanted = owned(alloc, wanted)?;
        Ok(FileFinding {
            code,
            column: None,
            path: Vec::new(alloc),
            place,
            found,
            wanted,
        })
    }
}
