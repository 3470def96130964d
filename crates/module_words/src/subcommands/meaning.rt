//! Which subcommand a word means.
ghost use Rattle.std.specs.Prelude.{◌≡◌, Ok, Err, MatchResult, find};
ghost use Rattle.std.specs.Option.{option_map, option_copied};
ghost use Rattle.module_words.specs.subcommands.Meanings as spec;
ghost use Rattle.module_words.specs.subcommands.Meanings.{begins, is_named, meaning};
ghost use Rattle.module_words.specs.subcommands.Faults.{reason_of};
ghost use Rattle.module_words.specs.subcommands.Subcommands.{rows};
ghost use Rattle.module_words.specs.subcommands.Views.{row_view};

use crate::subcommands::fault::WordFault;
use crate::subcommands::nearness::differ_by_one;
use crate::subcommands::table::{Subcommand, SubcommandName, subcommand_names};

/// Whether the name of the row begins with the word.
fn begins(word: &str, row: &SubcommandName) -> bool
    ensures { result ≡ begins word.now (row_view row.now) }
{
    row.name.as_bytes().starts_with(word.as_bytes())
}

/// Whether the name of the row doesn't begin with the word, or is one of this subcommand.
fn leaves(word: &str, subcommand: Subcommand, row: &SubcommandName) -> bool
    ensures { result ≡ spec.leaves word.now subcommand (row_view row.now) }
{
    !begins(word, row) || row.subcommand.name() == subcommand.name()
}

/// Whether the name of the row is near the word.
fn is_near(word: &str, row: &SubcommandName) -> bool
    ensures { result ≡ spec.is_near word.now (row_view row.now) }
{
    differ_by_one(word.as_bytes(), row.name.as_bytes())
}

/// The row whose name is the word.
fn named(word: &str) -> Option<&'static SubcommandName>
    ensures { option_map row_view (option_copied result) ≡ find (is_named word.now) rows }
{
    subcommand_names().iter().find(|row| word == row.name)
}

/// The first row whose name begins with the word.
fn begun(word: &str) -> Option<&'static SubcommandName>
    ensures { option_map row_view (option_copied result) ≡ find (begins word.now) rows }
{
    subcommand_names().iter().find(|row| begins(word, row))
}

/// The first row whose name is near the word.
fn nearest(word: &str) -> Option<&'static SubcommandName>
    ensures { option_map row_view (option_copied result) ≡ spec.nearest word.now }
{
    subcommand_names().iter().find(|row| is_near(word, row))
}

/// Whether each name that begins with the word is one of this subcommand.
fn is_alone(word: &str, subcommand: Subcommand) -> bool
    ensures { result ≡ spec.is_alone word.now subcommand }
{
    subcommand_names()
        .iter()
        .all(|row| leaves(word, subcommand, row))
}

/// Why a word that begins no name means nothing.
fn reason_why(word: &str) -> WordFault<'_>
    ensures { reason_of result ≡ spec.reason_why word.now }
{
    if word.starts_with('-') {
        return WordFault::NoOption(word);
    }
    match nearest(word) {
        Some(row) => WordFault::Near(row.name),
        None => WordFault::Unknown(word),
    }
}

/// The meaning of a word that is no name.
fn by_beginning(word: &str) -> Result<Subcommand, WordFault<'_>>
    ensures { MatchResult result (λ s. spec.by_beginning word.now (find (begins word.now) rows) ≡ Ok s)
        (λ fault. spec.by_beginning word.now (find (begins word.now) rows) ≡ Err (reason_of fault)) }
{
    match begun(word) {
        None => Err(reason_why(word)),
        Some(row) => {
            if is_alone(word, row.subcommand) {
                Ok(row.subcommand)
            } else {
                Err(WordFault::Several(word))
            }
        }
    }
}

/// The subcommand that a word means: the one that it is a name of, and else the one of which alone it begins names.
///
/// The errors say why there is none: `Several`, it begins names of several; `NoOption`, it begins no name, and with a
/// hyphen; else `Near`, a name is near it, or `Unknown`.
pub fn subcommand_of(word: &str) -> Result<Subcommand, WordFault<'_>>
    ensures { MatchResult result (λ s. meaning word.now ≡ Ok s)
        (λ fault. meaning word.now ≡ Err (reason_of fault)) }
{
    match named(word) {
        Some(row) => Ok(row.subcommand),
        None => by_beginning(word),
    }
}
