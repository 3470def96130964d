//! Patterns of texts (string(n), match).
ghost use Rattle.std.specs.Prelude.{◌≡◌};
ghost use Rattle.tclvalue.specs.Globs.{glob};

use tcltext::pattern::glob_match;

/// Whether the text matches the pattern: `*`, `?`, sets in brackets and backslashes. It takes no memory.
pub fn glob(pattern: &str, text: &str) -> bool
    ensures { result ≡ glob pattern.now text.now }
{
    glob_match(pattern, text)
}
