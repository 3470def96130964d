//! The commands of modulefiles that leave a record (modulefile(5)), read from their words.
ghost use Rattle.std.specs.Prelude.{◌≡◌, ◌++◌, map, string_bytes, IfOk, OnOk};
ghost use Rattle.tcltext.specs.chars.Runs.{begins};
ghost use Rattle.tclvalue.specs.Indexes.{after_prefix};
ghost use Rattle.envvars.specs.Texts.{slice_texts, texts_in};
ghost use Rattle.message.specs.Answers.{Gives};
ghost use Rattle.modulefile.specs.Records.{Set, Push, Conflict, Prereq};
ghost use Rattle.modulefile.specs.Calls.{no_option, without_option, var_and_value, var_and_optional, with_delimiter};
ghost use Rattle.modulefile.specs.Calls.{by_next_word, by_same_word, by_option, delimited, elements_of, path_form};
ghost use Rattle.modulefile.specs.Calls.{some_words, description};
ghost use Rattle.modulefile.specs.CallViews.{reason_of, texts_of, call_view, path_words_view};

use crate::call::Call;
use crate::call_fault::CallFault;
use crate::delimiter::Delimiter;
use crate::records::{PathEdit, Record};
use envvars::fields::{join, parts, slices};
use message::texts::copies;
use std::alloc::{AllocError, Global};

/// The delimiter of a path command, and its words from VAR on.
#[derive(Clone, Copy)]
struct PathWords<'a> {
    delim: Delimiter,
    words: &'a [String],
}

/// Whether a word is an option: it begins with `-`.
fn is_option(word: &str) -> bool
    ensures { result ≡ begins 45 word.now }
{
    matches!(word.as_bytes(), [b'-', ..])
}

/// The words of a command that has no options: the first may not be one.
pub(crate) fn no_option(words: &[String]) -> Result<&[String], CallFault>
    ensures { Gives reason_of (λ ws. texts_of ws.now) result (no_option (map string_bytes words.entry.now)) }
{
    match words {
        [word, ..] if is_option(word) => Err(CallFault::BadArguments),
        _ => Ok(words),
    }
}

/// Reads the words of `setenv`.
pub(crate) fn set_form(alloc: Global, words: &[String]) -> Result<Call<'static>, CallFault>
    ensures { Gives reason_of call_view result (without_option (var_and_value Set) (map string_bytes words.now)) }
{
    match no_option(words)? {
        [var, value] => Ok(Call::Adds(Record::Set {
            var: String::from_str(alloc, var.as_str())?,
            value: String::from_str(alloc, value.as_str())?,
        })),
        _ => Err(CallFault::BadArguments),
    }
}

/// Reads the words of `pushenv`.
pub(crate) fn push_form(alloc: Global, words: &[String]) -> Result<Call<'static>, CallFault>
    ensures { Gives reason_of call_view result (without_option (var_and_value Push) (map string_bytes words.now)) }
{
    match no_option(words)? {
        [var, value] => Ok(Call::Adds(Record::Push {
            var: String::from_str(alloc, var.as_str())?,
            value: String::from_str(alloc, value.as_str())?,
        })),
        _ => Err(CallFault::BadArguments),
    }
}

/// Reads the words of `unsetenv`.
pub(crate) fn unset_form(alloc: Global, words: &[String]) -> Result<Call<'static>, CallFault>
    ensures { Gives reason_of call_view result (without_option var_and_optional (map string_bytes words.now)) }
{
    match no_option(words)? {
        [var] => Ok(Call::Adds(Record::Unset {
            var: String::from_str(alloc, var.as_str())?,
            value: None,
        })),
        [var, value] => Ok(Call::Adds(Record::Unset {
            var: String::from_str(alloc, var.as_str())?,
            value: Some(String::from_str(alloc, value.as_str())?),
        })),
        _ => Err(CallFault::BadArguments),
    }
}

/// The delimiter that a text is, one character from the space to the tilde, and the words after it.
fn with_delimiter<'a>(text: &str, words: &'a [String]) -> Result<PathWords<'a>, CallFault>
    ensures { Gives reason_of path_words_view result (with_delimiter text.now (map string_bytes words.entry.now)) }
{
    let [byte] = text.as_bytes() else {
        return Err(CallFault::BadArguments);
    };
    match Delimiter::new(*byte as char) {
        Some(delim) => Ok(PathWords { delim, words }),
        None => Err(CallFault::BadArguments),
    }
}

/// Reads a delimiter that is the next word, and the words after it.
fn by_next_word(words: &[String]) -> Result<PathWords<'_>, CallFault>
    ensures { Gives reason_of path_words_view result (by_next_word (map string_bytes words.entry.now)) }
{
    match words {
        [text, rest @ ..] => with_delimiter(text, rest),
        [] => Err(CallFault::BadArguments),
    }
}

/// Reads the option of a path command, which has its delimiter: `-d C`, `--delim C` or `--delim=C`.
fn by_option<'a>(option: &str, words: &'a [String]) -> Result<PathWords<'a>, CallFault>
    ensures { Gives reason_of path_words_view result (by_option option.now (map string_bytes words.entry.now)) }
{
    if option == "-d" || option == "--delim" {
        return by_next_word(words);
    }
    match option.strip_prefix("--delim=") {
        Some(text) => with_delimiter(text, words),
        None => Err(CallFault::BadArguments),
    }
}

/// Reads the words of a path command up to VAR. Without an option its delimiter is the colon.
fn delimited(words: &[String]) -> Result<PathWords<'_>, CallFault>
    ensures { Gives reason_of path_words_view result (delimited (map string_bytes words.entry.now)) }
{
    match words {
        [] => Err(CallFault::BadArguments),
        [word, rest @ ..] if is_option(word) => by_option(word, rest),
        _ => Ok(PathWords {
            delim: Delimiter::COLON,
            words,
        }),
    }
}

/// Appends copies of the parts of a value.
fn push_copies(alloc: Global, elements: &mut Vec<String>, parts: &[&str]) -> Result<(), AllocError>
    ensures { OnOk result (texts_in elements.new ≡ texts_in elements.old ++ slice_texts parts.now) }
{
    for part in parts {
        elements.push(String::from_str(alloc, part)?)?;
    }
    Ok(())
}

/// The elements of values, which are cut at the delimiter.
fn elements(alloc: Global, delim: Delimiter, values: &[String]) -> Result<Vec<String>, AllocError>
    ensures { IfOk result (λ v. texts_in v ≡ elements_of delim.character (map string_bytes values.now)) }
{
    let mut elements = Vec::new(alloc);
    for value in values {
        let parts = parts(alloc, value.as_str(), delim.character)?;
        push_copies(alloc, &mut elements, parts.as_slice())?;
    }
    Ok(elements)
}

/// Reads the words of a path command, which has one value or more.
pub(crate) fn path_form(
    alloc: Global,
    edit: PathEdit,
    words: &[String],
) -> Result<Call<'static>, CallFault>
    ensures { Gives reason_of call_view result (path_form edit (map string_bytes words.now)) }
{
    let PathWords { delim, words } = delimited(words)?;
    match words {
        [var, values @ ..] if !values.is_empty() => Ok(Call::Adds(Record::Path {
            edit,
            delim,
            var: String::from_str(alloc, var.as_str())?,
            elements: elements(alloc, delim, values)?,
        })),
        _ => Err(CallFault::BadArguments),
    }
}

/// Reads the words of `conflict`.
pub(crate) fn conflict_form(alloc: Global, words: &[String]) -> Result<Call<'static>, CallFault>
    ensures { Gives reason_of call_view result (without_option (some_words Conflict) (map string_bytes words.now)) }
{
    match no_option(words)? {
        [] => Err(CallFault::BadArguments),
        names => Ok(Call::Adds(Record::Conflict(copies(alloc, names)?))),
    }
}

/// Reads the words of `prereq`.
pub(crate) fn prereq_form(alloc: Global, words: &[String]) -> Result<Call<'static>, CallFault>
    ensures { Gives reason_of call_view result (without_option (some_words Prereq) (map string_bytes words.now)) }
{
    match no_option(words)? {
        [] => Err(CallFault::BadArguments),
        names => Ok(Call::Adds(Record::Prereq(copies(alloc, names)?))),
    }
}

/// Reads the words of `module-whatis`, which may begin with `-`.
pub(crate) fn whatis_form(alloc: Global, words: &[String]) -> Result<Call<'static>, CallFault>
    ensures { Gives reason_of call_view result (some_words description (map string_bytes words.now)) }
{
    if words.is_empty() {
        return Err(CallFault::BadArguments);
    }
    let words = slices(alloc, words)?;
    Ok(Call::Adds(Record::Whatis(join(alloc, words.as_slice(), ' ')?)))
}
