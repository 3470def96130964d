//! The options of `avail` and `list`, and the texts behind them.
ghost use Rattle.std.specs.Prelude.{◌≡◌, map, true, string_bytes, IfErr, MatchResult, Ok, Err};
ghost use Rattle.message.specs.Answers.{Gives};
ghost use Rattle.module_reports.specs.listings.Faults.{has_reason, reason_of};
ghost use Rattle.module_reports.specs.listings.Options as spec;
ghost use Rattle.module_reports.specs.listings.Views.{words_view};

use crate::listings::fault::ListingFault;
use module_words::subcommands::{CommandOption, Subcommand, option_of};

/// Which versions of each module are listed.
#[derive(Clone, Copy)]
pub(crate) enum Versions {
    /// All of them.
    Every,
    /// The default, or else the last.
    Default,
    /// The last.
    Latest,
}

/// What the options of a report ask for.
#[derive(Clone, Copy)]
pub(crate) struct Options {
    /// One name a line, on a terminal too.
    pub lines: bool,
    /// Which versions of each module are listed.
    pub versions: Versions,
    /// The texts may stand anywhere in a name.
    pub within: bool,
    /// Small letters stand for capitals, and capitals for small letters.
    pub any_case: bool,
}

impl Options {
    /// What is asked for without options.
    fn none() -> Options
        ensures { result ≡ spec.no_options }
    {
        Options {
            lines: false,
            versions: Versions::Every,
            within: false,
            any_case: false,
        }
    }

    /// These options with one more of a report; options of other commands change nothing.
    fn with(self, option: CommandOption) -> Options
        ensures { result ≡ spec.with_option option self }
    {
        let mut options = self;
        match option {
            CommandOption::Lines => options.lines = true,
            CommandOption::Default => options.versions = Versions::Default,
            CommandOption::Latest => options.versions = Versions::Latest,
            CommandOption::Within => options.within = true,
            CommandOption::AnyCase => options.any_case = true,
            _ => {}
        }
        options
    }
}

/// The options of a report, and the texts behind them: options stand first, and `--` ends them. It fails with the first
/// option that the subcommand doesn't have.
fn words_of<'a>(
    subcommand: Subcommand,
    options: Options,
    words: &'a [String],
) -> Result<(Options, &'a [String]), &'a str>
    ensures { MatchResult result
        (λ found. spec.words_of subcommand options (map string_bytes words.entry.now) ≡ Ok (words_view found))
        (λ word. spec.words_of subcommand options (map string_bytes words.entry.now) ≡ Err word.now) }
{
    let [first, rest @ ..] = words else {
        return Ok((options, words));
    };
    let word = first.as_str();
    if word == "--" {
        return Ok((options, rest));
    }
    if let Some(option) = option_of(subcommand, word) {
        return words_of(subcommand, options.with(option), rest);
    }
    if word.starts_with('-') {
        return Err(word);
    }
    Ok((options, words))
}

/// The options and the texts of a report, of `avail` or `list`. Of `-d` and `-L` the last counts.
pub(crate) fn report_words<'a>(
    subcommand: Subcommand,
    words: &'a [String],
) -> Result<(Options, &'a [String]), ListingFault<'a>>
    ensures words { Gives reason_of words_view result (spec.report_words subcommand (map string_bytes words.entry.now)) }
    ensures reason { IfErr result (λ fault. has_reason fault ≡ true) }
{
    match words_of(subcommand, Options::none(), words) {
        Ok(found) => Ok(found),
        Err(word) => Err(ListingFault::NoOption(subcommand, word)),
    }
}
