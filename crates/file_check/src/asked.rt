//! What is asked of files.
ghost use Rattle.std.specs.Prelude.{◌≡◌};
ghost use Rattle.file_check.specs.Asked.{output_of, of_format};

use column_reports::Weights;

/// What is asked.
#[derive(Debug, Drop)]
pub struct Asked {
    /// Which options that stand alone there are.
    pub flags: Flags,
    /// Which findings are shown, and how much each counts: `--notes`, `--deny` and `--allow`.
    pub weights: Weights,
    /// What columns are expected to hold.
    pub wants: Vec<Want>,
    /// The files, `-` for standard input.
    pub files: Vec<String>,
    /// How text is shown.
    pub screen: Screen,
}

impl Asked {
    /// Whether words of severities have a colour in what is printed.
    pub(crate) fn is_colored(&self) -> bool {
        self.screen.is_colored && matches!(self.flags.output(), Output::Table | Output::Errors)
    }
}

/// How text is shown.
#[derive(Debug, Clone, Copy)]
pub struct Screen {
    /// Whether words of severities have a colour.
    pub is_colored: bool,
    /// How many columns a line of a table has, where that is known.
    pub width: Option<usize>,
}

/// What a column is expected to hold.
#[derive(Debug, Drop)]
pub struct Want {
    /// The name of the column.
    pub column: String,
    /// The parts of what it is to hold, with commas between them.
    pub want: String,
}

/// Which options that stand alone there are.
#[derive(Debug, Clone, Copy)]
pub struct Flags {
    /// `--format` or `--json`: what is printed in place of a table.
    pub format: Format,
    /// `--lines`: lines of fields.
    pub lines: bool,
    /// `--ipc`: an Arrow stream.
    pub ipc: bool,
    /// `--infer`: types are inferred for columns without an extension name.
    pub infer: bool,
    /// `--quiet`: only findings that count as errors are printed.
    pub quiet: bool,
    /// `--problems`: only the rows of columns of which something is found stand in a table.
    pub problems: bool,
    /// `--require-geometry`: a file has a column of geometries.
    pub require_geometry: bool,
    /// `--same`: each file has the columns of the first.
    pub same: bool,
    /// `--canonical`: columns that are printed as lines or as a stream are in normal form.
    pub canonical: bool,
}

/// A format of a report: `--format`.
#[derive(Debug, Clone, Copy)]
pub enum Format {
    /// `text`: a table, and findings in words.
    Text,
    /// `json`: lines of JSON.
    Json,
    /// `github`: findings as commands of a workflow of GitHub.
    Github,
    /// `sarif`: findings as a log of SARIF 2.1.0.
    Sarif,
}

/// What is printed of columns.
#[derive(Debug, Clone, Copy)]
pub enum Output {
    /// A line for each finding that counts as an error.
    Errors,
    /// A table for people.
    Table,
    /// Lines of JSON.
    Json,
    /// A command of a workflow of GitHub for each finding.
    Github,
    /// A result of a log of SARIF for each finding.
    Sarif,
    /// Lines of fields.
    Lines,
    /// An Arrow stream of its schema alone.
    Ipc,
}

impl Flags {
    /// Returns what is printed of columns: of several the first of lines of fields, a stream; and what
    /// the format has where neither is asked for.
    pub fn output(&self) -> Output
        ensures { result ≡ output_of self.now }
    {
        if self.lines {
            Output::Lines
        } else if self.ipc {
            Output::Ipc
        } else {
            of_format(self.format, self.quiet)
        }
    }
}

/// What is printed of columns in a format, where only errors are asked for or more.
fn of_format(format: Format, is_quiet: bool) -> Output
    ensures { result ≡ of_format format is_quiet }
{
    match format {
        Format::Text if is_quiet => Output::Errors,
        Format::Text => Output::Table,
        Format::Json => Output::Json,
        Format::Github => Output::Github,
        Format::Sarif => Output::Sarif,
    }
}
