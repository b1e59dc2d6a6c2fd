//! The options, with the help and the version. `docs/check_help.txt` is the help as it is printed.
use clap::{Arg, ArgAction, Command};
use std::alloc::{AllocError, Global};

/// The words behind `--color`.
const COLORS: &[&str] = &["auto", "always", "never"];

/// The words behind `--format`.
const FORMATS: &[&str] = &["text", "json", "github", "sarif"];

/// What stands behind the options in the help.
const AFTER: &str =
    "--format, --lines and --ipc exclude one another, as do --json, --lines and --ipc; of --format and
--json, and of two formats, the later counts. With --format github each finding that is printed is a
command of a workflow of GitHub, and with --format sarif a result of a log of SARIF 2.1.0; and so is
why a file is refused, or what is expected and not met.

--quiet is for text, where it prints a line for each finding that counts as an error, with the file's
name, and for github and sarif, of which it leaves out the other findings. --problems leaves out of
text the rows of columns and the names of files of which nothing is found; github and sarif have
findings alone. What is asked and not met, and why a file is refused, is said with both. Both exclude
--json, --lines and --ipc.

--canonical writes each column of geometries as GeoArrow does, with its CRS as it is written
(docs/FORMAT.md, 2.10); the status is that of the columns as they stand in the file.

--expect may stand several times. COLUMN is the name of a column, WANT what it is to hold, with
commas between: a kind, a coordinate type, a dimension, an encoding (native, WKB, WKT), the edges,
a CRS; as outline=point,XY,EPSG:4326. Words are met in any letters, and a CRS by one that agrees with
it (docs/FORMAT.md, 5.3).

--same compares the columns of each further file that is read with those of the first, by their
names: their types, encodings, edges and CRSs (docs/FORMAT.md, 2.9). It excludes --lines and --ipc.

--deny and --allow may stand several times. CODE is one that --codes prints (docs/FORMAT.md 2.6,
2.8, 2.9, 4.3, 4.5 and 5), or warnings for all that are warnings; what is said of a code counts before
what is said of warnings, and of two words on the same the later. Why a file is refused, and what is
asked and not met, always counts, and cannot be allowed.

A folder stands for its files whose names end in .parquet, .geoparquet, .arrow, .feather, .arrows,
.jsonl or .ndjson, down all folders, in the order of the bytes of their paths; names that begin with
_ or . are left out. --ipc takes one file, and is refused where the output is a terminal.

On a terminal the severities have colours, unless NO_COLOR is set, and a table has the columns that
COLUMNS says, if it is set.

Status: 0 if no finding counts as an error and all that is expected is met, 1
otherwise, 2 if a file or the words cannot be read or the output fails. Where nobody reads the
output any more, the status is that of the files so far.";

/// An option that stands alone.
fn flag<'a>(alloc: Global, name: &'a str, help: &'a str) -> Arg<'a> {
    Arg::new(alloc, name)
        .long(name)
        .help(help)
        .action(ArgAction::SetTrue)
}

/// The options that say what is printed of columns.
fn with_outputs<'a>(alloc: Global, command: Command<'a>) -> Result<Command<'a>, AllocError> {
    let json = "Print a line of JSON for each column: --format json";
    let lines = "Print the columns as lines of fields, in place of what they hold";
    let ipc = "Print the columns of one file as an Arrow stream of its schema alone";
    let canonical = "With --lines or --ipc: print columns of geometries in normal form";
    command
        .arg(format(alloc)?)?
        .arg(flag(alloc, "json", json).overrides_with("format")?)?
        .arg(
            flag(alloc, "lines", lines)
                .conflicts_with("format")?
                .conflicts_with("json")?,
        )?
        .arg(
            flag(alloc, "ipc", ipc)
                .conflicts_with("format")?
                .conflicts_with("json")?
                .conflicts_with("lines")?,
        )?
        .arg(flag(alloc, "canonical", canonical))
}

/// The option that takes a format.
fn format<'a>(alloc: Global) -> Result<Arg<'a>, AllocError> {
    Arg::new(alloc, "format")
        .long("format")
        .value_name("FORMAT")
        .value_parser(FORMATS)
        .help("Print a table, lines of JSON, or findings alone")
        .action(ArgAction::Set)
        .overrides_with("json")
}

/// The options that say how text is shown, and leave out what needs no care.
fn with_less<'a>(alloc: Global, command: Command<'a>) -> Result<Command<'a>, AllocError> {
    let quiet = "Print a line for each error, and nothing else";
    let problems = "Print only the columns and the files of which something is found";
    command
        .arg(of_text(flag(alloc, "quiet", quiet).short('q'))?)?
        .arg(of_text(flag(alloc, "problems", problems))?)?
        .arg(
            Arg::new(alloc, "color")
                .long("color")
                .value_name("WHEN")
                .value_parser(COLORS)
                .help("Give the severities in text a colour: by itself on a terminal")
                .action(ArgAction::Set),
        )
}

/// An option that goes with no other output than text.
fn of_text<'a>(option: Arg<'a>) -> Result<Arg<'a>, AllocError> {
    option
        .conflicts_with("json")?
        .conflicts_with("lines")?
        .conflicts_with("ipc")
}

/// The options that add to what is said.
fn with_more<'a>(alloc: Global, command: Command<'a>) -> Result<Command<'a>, AllocError> {
    let infer = "Infer a type for columns without an extension name";
    let notes = "Also print notes: of what is allowed, and only worth to know";
    command
        .arg(flag(alloc, "infer", infer))?
        .arg(flag(alloc, "notes", notes))
}

/// The options that say which findings count, and how much.
fn with_weights<'a>(alloc: Global, command: Command<'a>) -> Result<Command<'a>, AllocError> {
    let deny = "Count and print the findings of a code, or all warnings, as errors";
    let allow = "Neither count nor print the findings of a code, or all warnings";
    command
        .arg(coded(alloc, "deny", deny))?
        .arg(coded(alloc, "allow", allow))
}

/// An option that takes a code, and may stand several times.
fn coded<'a>(alloc: Global, name: &'a str, help: &'a str) -> Arg<'a> {
    Arg::new(alloc, name)
        .long(name)
        .value_name("CODE")
        .help(help)
        .action(ArgAction::Append)
}

/// The options for which the status counts.
fn with_demands<'a>(alloc: Global, command: Command<'a>) -> Result<Command<'a>, AllocError> {
    let same = "Give status 1 where a file has other columns than the first";
    let require_geometry = "Give status 1 where a file has no column of geometries";
    let expect = "Give status 1 where the column holds other geometries, or none";
    command
        .arg(flag(alloc, "require-geometry", require_geometry))?
        .arg(
            flag(alloc, "same", same)
                .conflicts_with("lines")?
                .conflicts_with("ipc")?,
        )?
        .arg(
            Arg::new(alloc, "expect")
                .long("expect")
                .value_name("COLUMN=WANT")
                .allow_hyphen_values(true)
                .help(expect)
                .action(ArgAction::Append),
        )
}

/// The options that are answered without a file.
fn with_codes<'a>(alloc: Global, command: Command<'a>) -> Result<Command<'a>, AllocError> {
    let codes = "Print the codes of findings, and read no file";
    let explain = "Print what a code stands for, and read no file";
    command.arg(flag(alloc, "codes", codes))?.arg(
        Arg::new(alloc, "explain")
            .long("explain")
            .value_name("CODE")
            .help(explain)
            .action(ArgAction::Set),
    )
}

/// The command: its options, and the files.
pub(crate) fn command<'a>(alloc: Global) -> Result<Command<'a>, AllocError> {
    let command = Command::new(alloc, "geoarrow_check")
        .version("2.0.0 (rattle-kit-13f)")
        .about(
            "Says what each column of each file holds, and why it is invalid;
and what is wrong with GeoParquet metadata",
        )
        .after_help(AFTER)
        .no_binary_name(true)
        .args_override_self(true);
    let command = with_outputs(alloc, command)?;
    let command = with_more(alloc, command)?;
    let command = with_weights(alloc, command)?;
    let command = with_less(alloc, command)?;
    let command = with_demands(alloc, command)?;
    let command = with_codes(alloc, command)?;
    command.arg(
        Arg::new(alloc, "FILE")
            .help(
                "An Arrow file (Feather), an Arrow stream, a Parquet file, or lines of fields;
- is standard input, and a folder stands for its files",
            )
            .required_unless_present("codes")?
            .required_unless_present("explain")?
            .action(ArgAction::Append),
    )
}
