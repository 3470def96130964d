//! Classes of bytes, and the runs of one class that a text begins with (Tcl(n), rules 1 to 9).
ghost use Rattle.std.specs.Prelude.{◌≡◌, ◌<◌, ◌∷◌, false, MatchOption};
ghost use Rattle.std.specs.List.{prefix_len};
ghost use Rattle.tcltext.specs.chars.Bytes.{is_blank, is_end, is_gap, is_special, is_literal, is_space};
ghost use Rattle.tcltext.specs.chars.Runs.{take_while, drop_while, begins};
ghost use Rattle.tcltext.specs.chars.Classes.{in_class, begins_in, is_name, is_substitution};

/// A class of bytes. It has all bytes of a character of several bytes, or none of them.
#[derive(Clone, Copy, Debug, PartialEq, Eq)]
pub enum Class {
    /// What separates the words of a command: white space without the newline.
    Blank,
    /// What may be between commands: white space and semicolons.
    Gap,
    /// White space.
    Space,
    /// Blanks and tabs: what a backslash before a newline takes with it.
    BlankOrTab,
    /// What has no meaning of its own anywhere: no white space, `;`, quote, brace, bracket, `$` or backslash.
    Literal,
    /// What is literal in a word without quotes and braces, in a script outside of brackets.
    BareScript,
    /// What is literal in a word without quotes and braces, in a script in brackets.
    BareBracket,
    /// What is literal in the index of an array element.
    BareIndex,
    /// What is literal in quotes.
    BareQuote,
    /// What is literal in an element of a list without quotes and braces.
    BareElement,
    /// What is literal in an element of a list in quotes.
    QuotedElement,
    /// Letters, digits and the underscore.
    Name,
    /// What a name in braces may hold.
    InBracedName,
    /// What is no backslash.
    Unescaped,
}

/// Whether the byte separates words: white space without the newline.
pub fn is_blank(b: u8) -> bool
    ensures { result ≡ is_blank b }
{
    b == b' ' || b == b'\t' || b == 11 || b == 12 || b == b'\r'
}

/// Whether the byte may be between commands: white space or a semicolon.
pub fn is_gap(b: u8) -> bool
    ensures { result ≡ is_gap b }
{
    is_blank(b) || b == b'\n' || b == b';'
}

/// Whether the byte is white space.
pub fn is_space(b: u8) -> bool
    ensures { result ≡ is_space b }
{
    is_blank(b) || b == b'\n'
}

/// Whether the byte has a meaning of its own somewhere in a script.
pub fn is_special(b: u8) -> bool
    ensures { result ≡ is_special b }
{
    b == b'"' || b == b'$' || b == b'[' || b == b']' || b == b'{' || b == b'}' || b == b'\\'
}

/// Whether the byte begins a substitution.
fn is_substitution(b: u8) -> bool
    ensures { result ≡ is_substitution b }
{
    b == b'$' || b == b'[' || b == b'\\'
}

/// Whether names of variables are made of the byte.
pub fn is_name(b: u8) -> bool
    ensures { result ≡ is_name b }
{
    b.is_ascii_alphanumeric() || b == b'_'
}

/// Whether the byte is of that class.
// Where a caller names the class, the loop over the run has the test of that class alone.
#[inline(always)]
fn in_class(class: Class, b: u8) -> bool
    ensures { result ≡ in_class class b }
{
    match class {
        Class::Blank => is_blank(b),
        Class::Gap => is_gap(b),
        Class::Space => is_space(b),
        Class::BlankOrTab => b == b' ' || b == b'\t',
        Class::Literal => !(is_gap(b) || is_special(b)),
        Class::BareScript => !(is_gap(b) || is_substitution(b)),
        Class::BareBracket => !(is_gap(b) || is_substitution(b) || b == b']'),
        Class::BareIndex => !(is_substitution(b) || b == b')'),
        Class::BareQuote => !(is_substitution(b) || b == b'"'),
        Class::BareElement => !(is_space(b) || b == b'\\'),
        Class::QuotedElement => !(b == b'"' || b == b'\\'),
        Class::Name => is_name(b),
        Class::InBracedName => b != b'}',
        Class::Unescaped => b != b'\\',
    }
}

/// Whether the first byte of the text is of that class.
pub fn begins_class(text: &str, class: Class) -> bool
    ensures { result ≡ begins_in (in_class class) text.now }
{
    match text.as_bytes() {
        [] => false,
        [b, ..] => in_class(class, *b),
    }
}

/// How many bytes of that class the bytes begin with.
#[inline(always)]
fn run_length(bytes: &[u8], class: Class) -> usize
    ensures { result ≡ prefix_len (in_class class) bytes.now }
{
    for (n, b) in bytes.iter().enumerate() {
        if !in_class(class, *b) {
            return n;
        }
    }
    bytes.len()
}

/// The longest run of bytes of that class that the text begins with, and the rest.
#[inline(always)]
pub fn split_run(text: &str, class: Class) -> (&str, &str)
    ensures run { result.0.now ≡ take_while (in_class class) text.now }
    ensures rest { result.1.now ≡ drop_while (in_class class) text.now }
{
    text.split_at(run_length(text.as_bytes(), class))
}

/// The rest of the text after the mark, an ASCII byte, where the text begins with it.
pub fn after_mark(text: &str, mark: u8) -> Option<&str>
    requires { mark < 128 }
    ensures { MatchOption result (begins mark text.now ≡ false) (λ rest. text.now ≡ mark ∷ rest.now) }
{
    match text.as_bytes() {
        [b, ..] if *b == mark => Some(text.split_at(1).1),
        _ => None,
    }
}
