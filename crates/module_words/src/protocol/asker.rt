//! Who runs the program, by its first argument.
ghost use Rattle.std.specs.Prelude.{◌≡◌, ◌&&◌, nat_le, slice_index};
ghost use Rattle.envstate.specs.paths.Counters.{counter_of};
ghost use Rattle.module_words.specs.protocol.Askers as spec;

use shelltext::Shell;

/// How many lines and columns a terminal has.
#[derive(Clone, Copy, Debug, PartialEq, Eq)]
pub struct Screen {
    /// How many lines.
    pub lines: u32,
    /// How many columns.
    pub columns: u32,
}

/// Who runs the program.
#[derive(Clone, Copy, Debug, PartialEq, Eq)]
pub enum Asker {
    /// No function: a script, or what completes a word.
    Script,
    /// A function that hands on its standard output as the program's standard input. It may know the size of the terminal.
    Handing(Option<Screen>),
    /// A function that can't hand its standard output on.
    Unhanding,
}

/// Whether a text begins with a digit from 1 to 9.
fn begins_with_count(text: &str) -> bool
    ensures { result ≡ (nat_le 49 (slice_index text.now 0) && nat_le (slice_index text.now 0) 57) }
{
    match text.as_bytes() {
        [first, ..] => b'1' <= *first && *first <= b'9',
        [] => false,
    }
}

/// The number from 1 on that a text spells without leading zeros, where it spells one.
fn count_in(text: &str) -> Option<u32>
    ensures { result ≡ counter_of text.now }
{
    if !begins_with_count(text) {
        return None;
    }
    match text.parse() {
        Ok(count) => Some(count),
        Err(_) => None,
    }
}

/// The size of a terminal of so many lines and columns, where both are known.
fn screen_of(lines: Option<u32>, columns: Option<u32>) -> Option<Screen>
    ensures { result ≡ spec.screen_of lines columns }
{
    match (lines, columns) {
        (Some(lines), Some(columns)) => Some(Screen { lines, columns }),
        _ => None,
    }
}

/// The size of a terminal in a text `LINES:COLUMNS`, where both are numbers.
fn screen_in(text: &str) -> Option<Screen>
    ensures { result ≡ spec.screen_in text.now }
{
    match text.split_once(':') {
        Some((lines, columns)) => screen_of(count_in(lines), count_in(columns)),
        None => None,
    }
}

/// Who asks with this text behind the colon of the first argument.
fn function_with(text: &str) -> Asker
    ensures { result ≡ spec.function_with text.now }
{
    if text.is_empty() {
        Asker::Unhanding
    } else {
        Asker::Handing(screen_in(text))
    }
}

/// A shell of this name with who asks, where there is such a shell.
fn asked_from(name: &str, asker: Asker) -> Option<(Shell, Asker)>
    ensures { result ≡ spec.asked_from name.now asker }
{
    match Shell::named(name) {
        Some(shell) => Some((shell, asker)),
        None => None,
    }
}

/// The shell that the first argument names, and who asks: a script by `SHELL` alone, a function by
/// `SHELL:LINES:COLUMNS`, and one that can't hand its standard output on by `SHELL:`. Nothing where no shell has the name.
pub fn read_asker(word: &str) -> Option<(Shell, Asker)>
    ensures { result ≡ spec.asker_in word.now }
{
    match word.split_once(':') {
        Some((name, text)) => asked_from(name, function_with(text)),
        None => asked_from(word, Asker::Script),
    }
}

/// The status of a refusal, and of an answer "no". For a function of fish that hands its standard output on it is 111:
/// there 1 says that fish started no program.
pub fn refusal_status(shell: Shell, asker: Asker) -> u8
    ensures { result ≡ spec.refusal_status shell asker }
{
    match (shell, asker) {
        (Shell::Fish, Asker::Handing(_)) => 111,
        _ => 1,
    }
}
