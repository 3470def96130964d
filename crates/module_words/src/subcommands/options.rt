//! The options of the subcommands with their names.
ghost use Rattle.std.specs.Prelude.{◌≡◌, find, map};
ghost use Rattle.std.specs.Option.{option_map, option_copied};
ghost use Rattle.module_words.specs.subcommands.Options as spec;
ghost use Rattle.module_words.specs.subcommands.Options.{is_option_name};
ghost use Rattle.module_words.specs.subcommands.Views.{option_view};

use crate::subcommands::table::Subcommand;

/// An option of a subcommand.
#[derive(Clone, Copy, Debug, PartialEq, Eq)]
pub enum CommandOption {
    /// With what the modules need, or what needs them.
    Automatic,
    /// Whatever the files of the modules would undo.
    SettingsStay,
    /// One name a line.
    Lines,
    /// The default versions.
    Default,
    /// The last versions.
    Latest,
    /// Names that have the text anywhere.
    Within,
    /// Small letters and capitals alike.
    AnyCase,
    /// Behind the other directories.
    Behind,
    /// In front of the other directories.
    InFront,
}

/// A name, and the option that it is a name of.
#[derive(Clone, Copy)]
pub struct OptionName {
    /// The name.
    pub name: &'static str,
    /// The option.
    pub option: CommandOption,
}

/// Makes a list of names with their options.
macro_rules! names {
    ($($name:literal => $option:ident,)*) => {
        [$(OptionName { name: $name, option: CommandOption::$option }),*]
    };
}

const OF_LOAD: [OptionName; 1] = names! {
    "--auto" => Automatic,
};

const OF_FORGET: [OptionName; 1] = names! {
    "--settings-stay" => SettingsStay,
};

const OF_LIST: [OptionName; 2] = names! {
    "--terse" => Lines,
    "-t" => Lines,
};

const OF_AVAIL: [OptionName; 10] = names! {
    "--contains" => Within,
    "--default" => Default,
    "--icase" => AnyCase,
    "--latest" => Latest,
    "--terse" => Lines,
    "-C" => Within,
    "-L" => Latest,
    "-d" => Default,
    "-i" => AnyCase,
    "-t" => Lines,
};

const OF_USE: [OptionName; 4] = names! {
    "--append" => Behind,
    "--prepend" => InFront,
    "-a" => Behind,
    "-p" => InFront,
};

/// The options of a subcommand under all their names.
#[tactic(auto, unfolding(crate::specs::subcommands::Options::options_of))]
pub fn options_of(subcommand: Subcommand) -> &'static [OptionName]
    ensures { map option_view result.now ≡ spec.options_of subcommand }
{
    match subcommand {
        Subcommand::Load | Subcommand::Unload => &OF_LOAD,
        Subcommand::Forget => &OF_FORGET,
        Subcommand::List => &OF_LIST,
        Subcommand::Avail => &OF_AVAIL,
        Subcommand::Use => &OF_USE,
        _ => &[],
    }
}

/// The option whose name is the word, with that name.
fn named(subcommand: Subcommand, word: &str) -> Option<&'static OptionName>
    ensures { option_map option_view (option_copied result)
        ≡ find (is_option_name word.now) (spec.options_of subcommand) }
{
    options_of(subcommand).iter().find(|row| word == row.name)
}

/// The option of a subcommand that a word names, where it names one.
pub fn option_of(subcommand: Subcommand, word: &str) -> Option<CommandOption>
    ensures { result ≡ spec.option_named subcommand word.now }
{
    match named(subcommand, word) {
        Some(row) => Some(row.option),
        None => None,
    }
}
