//! How text is shown on the output: `--color`, and what is known of a terminal.
ghost use Rattle.std.specs.Prelude.{◌≡◌};
ghost use Rattle.check_options.specs.Terminal.{is_colored, screen_of};

use clap::ArgMatches;
use file_check::Screen;

/// What is known of the output.
#[derive(Clone, Copy, Debug)]
pub struct Terminal {
    /// Whether the output is a terminal.
    pub is_there: bool,
    /// Whether colours are refused: `NO_COLOR`.
    pub is_plain: bool,
    /// How many columns it has, where that is known: `COLUMNS`.
    pub columns: Option<usize>,
}

/// When words have colours.
#[derive(Clone, Copy, Debug)]
pub enum Color {
    /// On a terminal, unless they are refused.
    Auto,
    /// Always.
    Always,
    /// Never.
    Never,
}

/// What is asked of colours.
pub(crate) fn color_of(matches: &ArgMatches<'_>) -> Color {
    match matches.get_str("color") {
        Some("always") => Color::Always,
        Some("never") => Color::Never,
        _ => Color::Auto,
    }
}

/// Returns how text is shown, by what is asked of colours and what is known of the output.
///
/// ```rust
/// let terminal = Terminal { is_there: true, is_plain: true, columns: Some(80) };
/// let screen = screen_of(Color::Auto, terminal);
/// assert!(rt; !screen.is_colored && screen.width == Some(80));
/// ```
pub fn screen_of(color: Color, terminal: Terminal) -> Screen
    ensures { result ≡ screen_of color terminal }
{
    Screen {
        is_colored: is_colored(color, terminal),
        width: if terminal.is_there {
            terminal.columns
        } else {
            None
        },
    }
}

/// Whether words have colours.
fn is_colored(color: Color, terminal: Terminal) -> bool
    ensures { result ≡ is_colored color terminal }
{
    match color {
        Color::Auto => terminal.is_there && !terminal.is_plain,
        Color::Always => true,
        Color::Never => false,
    }
}
