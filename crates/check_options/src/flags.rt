//! The options that stand alone, and the format.
use clap::ArgMatches;
use file_check::{Flags, Format};

/// Why lines of JSON are not quiet.
const QUIET_JSON: &str = "the argument '--format json' cannot be used with '--quiet'";

/// Why lines of JSON are not those of problems alone.
const PROBLEMS_JSON: &str = "the argument '--format json' cannot be used with '--problems'";

/// Why columns in normal form are not said to hold something.
const CANONICAL_ALONE: &str = "the argument '--canonical' needs '--lines' or '--ipc'";

/// The options among what is read.
pub(crate) fn flags_of(matches: &ArgMatches<'_>) -> Flags {
    Flags {
        format: format_of(matches),
        lines: matches.get_flag("lines"),
        ipc: matches.get_flag("ipc"),
        infer: matches.get_flag("infer"),
        quiet: matches.get_flag("quiet"),
        problems: matches.get_flag("problems"),
        require_geometry: matches.get_flag("require-geometry"),
        same: matches.get_flag("same"),
        canonical: matches.get_flag("canonical"),
    }
}

/// The format.
fn format_of(matches: &ArgMatches<'_>) -> Format {
    if matches.get_flag("json") {
        return Format::Json;
    }
    match matches.get_str("format") {
        Some("json") => Format::Json,
        Some("github") => Format::Github,
        Some("sarif") => Format::Sarif,
        _ => Format::Text,
    }
}

/// Why options exclude one another, where a format does, or one needs another. What stands alone is
/// excluded by the command.
pub(crate) fn excluded(flags: Flags) -> Option<&'static str> {
    if flags.canonical && !flags.lines && !flags.ipc {
        return Some(CANONICAL_ALONE);
    }
    match flags.format {
        Format::Json if flags.quiet => Some(QUIET_JSON),
        Format::Json if flags.problems => Some(PROBLEMS_JSON),
        _ => None,
    }
}
