//! The words of the command line: options, and directories (modaudit(1)).
ghost use Rattle.std.specs.Prelude.{◌≡◌, ◌≤◌, ◌++◌, ◌∷◌, [], length, map, option_map, IfOk, OnOk, bytes_eq, string_bytes};
ghost use Rattle.std.specs.List.{list_all, list_any, before_first, after_first, position_or_len};
ghost use Rattle.modaudit.specs.command.Arguments as spec;
ghost use Rattle.modaudit.specs.command.ArgumentViews.{parted_view, wanted_view};

use audit_report::Selection;
use std::alloc::{AllocError, Global};

/// How a report is written.
#[derive(Clone, Copy, Debug, PartialEq, Eq)]
pub(crate) enum Format {
    /// As lines.
    Lines,
    /// As one JSON document.
    Document,
}

/// What the arguments ask for.
#[derive(Drop)]
pub(crate) struct AuditArguments {
    /// Which modules the report names.
    pub(crate) selection: Selection,
    /// How it is written.
    pub(crate) format: Format,
    /// The names of the modules that are excluded.
    pub(crate) without: Vec<String>,
    /// The directories that are the MODULEPATH of the audit; where there are none, it is that of the environment.
    pub(crate) directories: Vec<String>,
}

/// Words in two lists, in their order.
#[derive(Drop)]
struct PartedWords {
    /// Those behind each `--without`.
    without: Vec<String>,
    /// Those but that option and these.
    others: Vec<String>,
}

/// Whether the word ends the options.
fn is_end(word: &str) -> bool
    ensures { result ≡ spec.is_end word.now }
{
    word == "--"
}

/// Whether the word isn't an option that nobody knows.
fn is_known(word: &str) -> bool
    ensures { result ≡ spec.is_known word.now }
{
    word == "--quiet" || word == "--json" || !word.starts_with('-')
}

/// How many words stand before the one that ends the options; all of them, where none does.
fn options_count(args: &[String]) -> usize
    ensures value { result ≡ position_or_len spec.is_end (map string_bytes args.now) }
    ensures bound { result ≤ length args.now }
{
    args.iter()
        .position(|word| is_end(word))
        .unwrap_or(args.len())
}

/// The words before the one that ends the options.
fn options_in(args: &[String]) -> &[String]
    ensures { map string_bytes result.now ≡ before_first spec.is_end (map string_bytes args.now) }
{
    &args[..options_count(args)]
}

/// The words after the one that ends the options.
fn others_in(args: &[String]) -> &[String]
    ensures { map string_bytes result.now ≡ after_first spec.is_end (map string_bytes args.now) }
{
    let count = options_count(args);
    if count < args.len() {
        &args[count + 1..]
    } else {
        &args[count..]
    }
}

/// Whether the next word names modules that are excluded.
fn is_without(word: &str) -> bool
    ensures { result ≡ spec.is_without word.now }
{
    word == "--without"
}

/// Adds a copy of the word.
fn push_word(words: &mut Vec<String>, word: &String) -> Result<(), AllocError>
    ensures { OnOk result (map string_bytes words.new.items
        ≡ map string_bytes words.old.items ++ string_bytes word.now ∷ []) }
{
    words.push(word.clone()?)?;
    Ok(())
}

/// The words in two lists; none where the last is a `--without` without its name.
fn parted(alloc: Global, words: &[String]) -> Result<Option<PartedWords>, AllocError>
    ensures { IfOk result (λ parted. option_map parted_view parted ≡ spec.parted (map string_bytes words.now)) }
{
    let mut parted = PartedWords {
        without: Vec::new(alloc),
        others: Vec::new(alloc),
    };
    let mut rest = words;
    while let [word, later @ ..] = rest {
        if !is_without(word.as_str()) {
            push_word(&mut parted.others, word)?;
            rest = later;
        } else if let [name, after @ ..] = later {
            push_word(&mut parted.without, name)?;
            rest = after;
        } else {
            return Ok(None);
        }
    }
    Ok(Some(parted))
}

/// Whether the word is among the words.
fn has_word(words: &[String], word: &str) -> bool
    ensures { result ≡ list_any (λ w. bytes_eq w word.now) (map string_bytes words.now) }
{
    words.iter().any(|other| other.as_str() == word)
}

/// Which modules the report names, by the options.
fn selection_of(options: &[String]) -> Selection
    ensures { result ≡ spec.selection_of (map string_bytes options.now) }
{
    if has_word(options, "--quiet") {
        Selection::NotCertified
    } else {
        Selection::Each
    }
}

/// How it is written, by the options.
fn format_of(options: &[String]) -> Format
    ensures { result ≡ spec.format_of (map string_bytes options.now) }
{
    if has_word(options, "--json") {
        Format::Document
    } else {
        Format::Lines
    }
}

/// Adds a word, if it is no option.
fn push_directory(directories: &mut Vec<String>, word: &String) -> Result<(), AllocError>
    ensures { OnOk result (map string_bytes directories.new.items
        ≡ map string_bytes directories.old.items ++ spec.directory_in (string_bytes word.now)) }
{
    if !word.as_str().starts_with('-') {
        directories.push(word.clone()?)?;
    }
    Ok(())
}

/// Adds the words that are no options.
fn push_directories(directories: &mut Vec<String>, words: &[String]) -> Result<(), AllocError>
    ensures { OnOk result (map string_bytes directories.new.items
        ≡ map string_bytes directories.old.items ++ spec.directories_in (map string_bytes words.now)) }
{
    for word in words {
        push_directory(directories, word)?;
    }
    Ok(())
}

fn push_all(directories: &mut Vec<String>, words: &[String]) -> Result<(), AllocError>
    ensures { OnOk result (map string_bytes directories.new.items
        ≡ map string_bytes directories.old.items ++ map string_bytes words.now) }
{
    for word in words {
        push_word(directories, word)?;
    }
    Ok(())
}

/// Whether the arguments ask how the program is called.
pub(crate) fn asks_help(args: &[String]) -> bool
    ensures { result ≡ spec.asks_help (map string_bytes args.now) }
{
    has_word(options_in(args), "--help")
}

fn are_known(options: &[String]) -> bool
    ensures { result ≡ list_all spec.is_known (map string_bytes options.now) }
{
    options.iter().all(|word| is_known(word))
}

/// What options and further words ask for.
fn wanted_by(
    alloc: Global,
    options: PartedWords,
    others: &[String],
) -> Result<AuditArguments, AllocError>
    ensures { IfOk result (λ wanted. wanted_view wanted
        ≡ spec.wanted_by (parted_view options) (map string_bytes others.now)) }
{
    let words = options.others.as_slice();
    let mut directories = Vec::new(alloc);
    push_directories(&mut directories, words)?;
    push_all(&mut directories, others)?;
    Ok(AuditArguments {
        selection: selection_of(words),
        format: format_of(words),
        without: options.without,
        directories,
    })
}

/// What the arguments ask for; none, where there is an option that nobody knows, or a `--without` without its name.
pub(crate) fn wanted_of(
    alloc: Global,
    args: &[String],
) -> Result<Option<AuditArguments>, AllocError>
    ensures { IfOk result (λ wanted.
        option_map wanted_view wanted ≡ spec.wanted_of (map string_bytes args.now)) }
{
    let Some(options) = parted(alloc, options_in(args))? else {
        return Ok(None);
    };
    if !are_known(options.others.as_slice()) {
        return Ok(None);
    }
    Ok(Some(wanted_by(alloc, options, others_in(args))?))
}
