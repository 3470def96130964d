//! Where the parts of a word are, and what ends words, commands and scripts there (Tcl(n), rules 1 to 6).
ghost use Rattle.std.specs.Prelude.{◌≡◌, ◌&&◌, ◌==◌};
ghost use Rattle.tcltext.specs.chars.Bytes.{right_bracket};
ghost use Rattle.tcltext.specs.chars.Classes.{in_class};
ghost use Rattle.tcltext.specs.chars.Runs.{take_while, drop_while};
ghost use Rattle.tcltext.specs.script.Ends.{is_nested, word_ends, command_ends, script_ends, ends_at, parts_end, bare};
ghost use Rattle.tcltext.specs.script.Ends.{class_of};

use crate::chars::{Class, begins_class, split_run};

/// Whether a script is outside of brackets, or in brackets, of which the closing one ends it.
#[derive(Clone, Copy, Debug, PartialEq, Eq)]
pub(crate) enum Nesting {
    /// Outside of brackets.
    Top,
    /// In brackets.
    InBrackets,
}

impl Nesting {
    /// Whether the byte ends the script, as its closing bracket.
    fn closes(self, b: u8) -> bool
        ensures { result ≡ (is_nested self && b == right_bracket) }
    {
        match self {
            Nesting::Top => false,
            Nesting::InBrackets => b == b']',
        }
    }
}

/// Where the parts of a word are, which decides what is literal there and what ends the parts.
#[derive(Clone, Copy, Debug, PartialEq, Eq)]
pub enum Context {
    /// In a word without quotes and braces, in a script outside of brackets.
    InScript,
    /// In a word without quotes and braces, in a script in brackets.
    InBracket,
    /// In the parentheses of an array index.
    InIndex,
    /// In quotes.
    InQuotes,
}

/// The run of literal bytes there that the text begins with, and the rest.
pub(crate) fn split_literal(text: &str, context: Context) -> (&str, &str)
    ensures run { result.0.now ≡ take_while (in_class (class_of context)) text.now }
    ensures rest { result.1.now ≡ drop_while (in_class (class_of context)) text.now }
{
    match context {
        Context::InScript => split_run(text, Class::BareScript),
        Context::InBracket => split_run(text, Class::BareBracket),
        Context::InIndex => split_run(text, Class::BareIndex),
        Context::InQuotes => split_run(text, Class::BareQuote),
    }
}

/// The context of a word without quotes and braces.
pub(crate) fn bare(nesting: Nesting) -> Context
    ensures { result ≡ bare (is_nested nesting) }
{
    match nesting {
        Nesting::Top => Context::InScript,
        Nesting::InBrackets => Context::InBracket,
    }
}

/// Whether a word ends before the text: nothing follows, or white space, an end of the command, or the closing bracket.
pub(crate) fn word_ends(text: &str, nesting: Nesting) -> bool
    ensures { result ≡ word_ends (is_nested nesting) text.now }
{
    match text.as_bytes() {
        [] => true,
        [b'\\', b'\n', ..] => true,
        [b, ..] if nesting.closes(*b) => true,
        _ => begins_class(text, Class::Gap),
    }
}

/// Whether a command ends before the text, which begins with no blank.
pub(crate) fn command_ends(text: &str, nesting: Nesting) -> bool
    ensures { result ≡ command_ends (is_nested nesting) text.now }
{
    match text.as_bytes() {
        [] => true,
        [b, ..] => *b == b'\n' || *b == b';' || nesting.closes(*b),
    }
}

/// Whether a script ends before the text, which begins with no gap.
pub(crate) fn script_ends(text: &str, nesting: Nesting) -> bool
    ensures { result ≡ script_ends (is_nested nesting) text.now }
{
    match text.as_bytes() {
        [] => true,
        [b, ..] => nesting.closes(*b),
    }
}

/// Whether the text is empty or begins with that mark.
fn ends_at(text: &str, mark: u8) -> bool
    ensures { result ≡ ends_at mark text.now }
{
    match text.as_bytes() {
        [] => true,
        [b, ..] => *b == mark,
    }
}

/// Whether the parts of a word end before the text.
pub(crate) fn parts_end(text: &str, context: Context) -> bool
    ensures { result ≡ parts_end context text.now }
{
    match context {
        Context::InScript => word_ends(text, Nesting::Top),
        Context::InBracket => word_ends(text, Nesting::InBrackets),
        Context::InIndex => ends_at(text, b')'),
        Context::InQuotes => ends_at(text, b'"'),
    }
}
