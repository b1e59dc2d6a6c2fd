//! The text that a JSON writer wrote.
ghost use Rattle.std.specs.Prelude.{◌≡◌, ◌≢◌, ◌++◌, All, string_bytes};
ghost use Rattle.std.specs.Str.{IsUtf8};
ghost use Rattle.json.specs.Lex.{tokens};
ghost use Rattle.json.specs.Print.{print};

use json::Writer;

/// Returns the text that a writer wrote, behind what stood before its first token. What it wrote is
/// one line: it holds no line feed.
pub fn text_of(out: Writer) -> String
    requires { IsUtf8 out.before }
    ensures text { string_bytes result ≡ out.before ++ print out.tokens }
    ensures reads_back { tokens (print out.tokens) ≡ out.tokens }
    ensures one_line { All (λ b. b ≢ 10) (print out.tokens) }
{
    unsafe { String::from_utf8_unchecked(out.into_inner()) }
}
