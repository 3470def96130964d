//! The subcommands with their names.
ghost use Rattle.std.specs.Prelude.{◌≡◌, map, string_bytes};
ghost use Rattle.module_words.specs.subcommands.Subcommands as spec;
ghost use Rattle.module_words.specs.subcommands.Subcommands.{name_of, report_of};
ghost use Rattle.module_words.specs.subcommands.Views.{row_view};

use crate::protocol::ReportKind;

/// A subcommand of `module`.
#[derive(Clone, Copy, Debug, PartialEq, Eq)]
pub enum Subcommand {
    Load,
    Unload,
    Switch,
    Purge,
    Reload,
    Forget,
    List,
    Avail,
    Show,
    Whatis,
    Keyword,
    IsLoaded,
    IsAvail,
    Use,
    Unuse,
    Save,
    Restore,
    SaveList,
    SaveShow,
    SaveRemove,
    Help,
    Version,
}

impl Subcommand {
    /// The name of the subcommand on its page.
    pub fn name(self) -> &'static str
        ensures { result.now ≡ name_of self }
    {
        match self {
            Subcommand::Load => "load",
            Subcommand::Unload => "unload",
            Subcommand::Switch => "switch",
            Subcommand::Purge => "purge",
            Subcommand::Reload => "reload",
            Subcommand::Forget => "forget",
            Subcommand::List => "list",
            Subcommand::Avail => "avail",
            Subcommand::Show => "show",
            Subcommand::Whatis => "whatis",
            Subcommand::Keyword => "keyword",
            Subcommand::IsLoaded => "is-loaded",
            Subcommand::IsAvail => "is-avail",
            Subcommand::Use => "use",
            Subcommand::Unuse => "unuse",
            Subcommand::Save => "save",
            Subcommand::Restore => "restore",
            Subcommand::SaveList => "savelist",
            Subcommand::SaveShow => "saveshow",
            Subcommand::SaveRemove => "saverm",
            Subcommand::Help => "help",
            Subcommand::Version => "--version",
        }
    }

    /// What its report with these words is like, unless an option says otherwise; nothing where it makes none.
    pub(crate) fn report(self, words: &[String]) -> Option<ReportKind>
        ensures { result ≡ report_of self (map string_bytes words.now) }
    {
        match self {
            Subcommand::List | Subcommand::Avail => Some(ReportKind::Columns),
            Subcommand::Show
            | Subcommand::Whatis
            | Subcommand::Keyword
            | Subcommand::SaveList
            | Subcommand::SaveShow => Some(ReportKind::Lines),
            Subcommand::Use if words.is_empty() => Some(ReportKind::Lines),
            Subcommand::Help if !words.is_empty() => Some(ReportKind::Lines),
            Subcommand::Help | Subcommand::Version => Some(ReportKind::OfProgram),
            _ => None,
        }
    }
}

/// A name, and the subcommand that it is a name of.
#[derive(Clone, Copy)]
pub struct SubcommandName {
    /// The name.
    pub name: &'static str,
    /// The subcommand.
    pub subcommand: Subcommand,
}

/// The table of the names. `$list` makes of its rows the list that is wanted.
macro_rules! table {
    ($list:ident) => {
        $list! {
            "load" => Subcommand::Load,
            "add" => Subcommand::Load,
            "unload" => Subcommand::Unload,
            "rm" => Subcommand::Unload,
            "remove" => Subcommand::Unload,
            "del" => Subcommand::Unload,
            "switch" => Subcommand::Switch,
            "swap" => Subcommand::Switch,
            "purge" => Subcommand::Purge,
            "reload" => Subcommand::Reload,
            "refresh" => Subcommand::Reload,
            "forget" => Subcommand::Forget,
            "list" => Subcommand::List,
            "avail" => Subcommand::Avail,
            "show" => Subcommand::Show,
            "display" => Subcommand::Show,
            "whatis" => Subcommand::Whatis,
            "keyword" => Subcommand::Keyword,
            "apropos" => Subcommand::Keyword,
            "search" => Subcommand::Keyword,
            "is-loaded" => Subcommand::IsLoaded,
            "is-avail" => Subcommand::IsAvail,
            "use" => Subcommand::Use,
            "unuse" => Subcommand::Unuse,
            "save" => Subcommand::Save,
            "restore" => Subcommand::Restore,
            "savelist" => Subcommand::SaveList,
            "saveshow" => Subcommand::SaveShow,
            "saverm" => Subcommand::SaveRemove,
            "help" => Subcommand::Help,
            "--help" => Subcommand::Help,
            "-h" => Subcommand::Help,
            "--version" => Subcommand::Version,
            "-V" => Subcommand::Version,
        }
    };
}

macro_rules! rows {
    ($($name:literal => $subcommand:expr,)*) => { [$(SubcommandName { name: $name, subcommand: $subcommand }),*] };
}

const ROWS: [SubcommandName; 34] = table!(rows);

/// The names of all subcommands.
#[tactic(auto, unfolding(crate::specs::subcommands::Subcommands::rows))]
pub fn subcommand_names() -> &'static [SubcommandName]
    ensures { map row_view result.now ≡ spec.rows }
{
    &ROWS
}
