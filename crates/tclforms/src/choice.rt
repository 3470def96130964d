//! The body that switch(n) chooses.
ghost use Rattle.std.specs.Prelude.{◌≡◌, map, string_bytes, option_map};
ghost use Rattle.tclforms.specs.Views.{in_pairs, is_glob};
ghost use Rattle.tclrules.specs.Rules.{is_default, fits, fall_through, chosen};

use crate::form::Comparison;
use tclvalue::glob;

/// Whether a pattern is the default: it is `default`, and no pattern follows.
fn is_default(pattern: &str, following: &[String]) -> bool
    ensures { result ≡ is_default pattern.now (in_pairs (map string_bytes following.now)) }
{
    pattern == "default" && following.len() < 2
}

/// Whether a text matches a pattern.
fn fits(comparison: Comparison, text: &str, pattern: &str) -> bool
    ensures { result ≡ fits (is_glob comparison) text.now pattern.now }
{
    match comparison {
        Comparison::Exact => pattern == text,
        Comparison::Glob => glob(pattern, text),
    }
}

/// The body that is evaluated for a body with these patterns and bodies after it: `-` stands for the next.
fn fall_through<'a>(body: &'a str, following: &'a [String]) -> &'a str
    ensures { result.now ≡ fall_through body.entry.now (in_pairs (map string_bytes following.entry.now)) }
{
    let mut body = body;
    let mut rest = following;
    while let [_, next, after @ ..] = rest {
        if body != "-" {
            break;
        }
        body = next.as_str();
        rest = after;
    }
    body
}

/// The body of the first pattern that matches a text, or of `default` where that is the last pattern. Patterns and
/// bodies are given by turns.
pub fn chosen<'a>(comparison: Comparison, text: &str, patterns: &'a [String]) -> Option<&'a str>
    ensures { option_map (λ body. body.now) result
        ≡ chosen (is_glob comparison) text.now (in_pairs (map string_bytes patterns.entry.now)) }
{
    let mut rest = patterns;
    while let [pattern, body, after @ ..] = rest {
        if is_default(pattern, after) {
            return Some(body);
        }
        if fits(comparison, text, pattern) {
            return Some(fall_through(body, after));
        }
        rest = after;
    }
    None
}
