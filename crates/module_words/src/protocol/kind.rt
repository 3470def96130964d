//! Which commands report something, and what their reports are like.
ghost use Rattle.std.specs.Prelude.{◌≡◌, map, string_bytes};
ghost use Rattle.module_words.specs.protocol.Kinds as spec;

use crate::protocol::place::ReportKind;
use crate::subcommands::{CommandOption, Subcommand, option_of};

/// Whether a word is the option of the subcommand that asks for one name a line.
fn is_of_lines(subcommand: Subcommand, word: &str) -> bool
    ensures { result ≡ spec.is_of_lines subcommand word.now }
{
    match option_of(subcommand, word) {
        Some(CommandOption::Lines) => true,
        _ => false,
    }
}

/// Whether a word ends the options of a report: it is none, or `--`.
fn ends_options(word: &str) -> bool
    ensures { result ≡ spec.ends_options word.now }
{
    word == "--" || !word.starts_with('-')
}

/// Whether one of the options, which stand first, asks for one name a line.
fn asks_for_lines(subcommand: Subcommand, words: &[String]) -> bool
    ensures { result ≡ spec.asks_for_lines subcommand (map string_bytes words.now) }
{
    let [word, rest @ ..] = words else {
        return false;
    };
    if ends_options(word.as_str()) {
        return false;
    }
    is_of_lines(subcommand, word.as_str()) || asks_for_lines(subcommand, rest)
}

/// What the report of a subcommand with these words is like; nothing where it makes none. Names stand in columns, unless
/// an option asks for one a line.
pub fn report_kind(subcommand: Subcommand, words: &[String]) -> Option<ReportKind>
    ensures { result ≡ spec.report_kind subcommand (map string_bytes words.now) }
{
    match subcommand.report(words) {
        Some(ReportKind::Columns) if asks_for_lines(subcommand, words) => Some(ReportKind::Lines),
        kind => kind,
    }
}
