//! The commands of values and the subcommands of `string`, by their names.
ghost use Rattle.std.specs.Prelude.{◌≡◌, is_some, option_map};
ghost use Rattle.tclvalue.specs.Commands.{command_named, subcommand_named, is_option};
ghost use Rattle.tclvalue.specs.Views.{command_view, subcommand_view, takes_options};

/// A command of values, named as in Tcl.
#[derive(Clone, Copy)]
pub(crate) enum ValueCommand {
    List,
    Llength,
    Lindex,
    Lrange,
    Split,
    Join,
    Concat,
    String,
}

/// A subcommand of `string`, named as in Tcl.
#[derive(Clone, Copy)]
pub(crate) enum Subcommand {
    Length,
    Index,
    Range,
    Equal,
    Compare,
    Match,
    First,
    Last,
    Map,
    Repeat,
    Trim,
    TrimLeft,
    TrimRight,
}

/// The command of values that a word names.
pub(crate) fn command_named(name: &str) -> Option<ValueCommand>
    ensures { option_map command_view result ≡ command_named name.now }
{
    match name {
        "list" => Some(ValueCommand::List),
        "llength" => Some(ValueCommand::Llength),
        "lindex" => Some(ValueCommand::Lindex),
        "lrange" => Some(ValueCommand::Lrange),
        "split" => Some(ValueCommand::Split),
        "join" => Some(ValueCommand::Join),
        "concat" => Some(ValueCommand::Concat),
        "string" => Some(ValueCommand::String),
        _ => None,
    }
}

/// Whether a command of values has this name.
pub fn is_value_command(name: &str) -> bool
    ensures { result ≡ is_some (command_named name.now) }
{
    command_named(name).is_some()
}

/// The subcommand of `string` that a word names.
pub(crate) fn subcommand_named(name: &str) -> Option<Subcommand>
    ensures { option_map subcommand_view result ≡ subcommand_named name.now }
{
    match name {
        "length" => Some(Subcommand::Length),
        "index" => Some(Subcommand::Index),
        "range" => Some(Subcommand::Range),
        "equal" => Some(Subcommand::Equal),
        "compare" => Some(Subcommand::Compare),
        "match" => Some(Subcommand::Match),
        "first" => Some(Subcommand::First),
        "last" => Some(Subcommand::Last),
        "map" => Some(Subcommand::Map),
        "repeat" => Some(Subcommand::Repeat),
        "trim" => Some(Subcommand::Trim),
        "trimleft" => Some(Subcommand::TrimLeft),
        "trimright" => Some(Subcommand::TrimRight),
        _ => None,
    }
}

/// Whether the subcommand takes options before its two operands in Tcl.
pub(crate) fn takes_options(command: Subcommand) -> bool
    ensures { result ≡ takes_options command }
{
    matches!(
        command,
        Subcommand::Equal | Subcommand::Compare | Subcommand::Match | Subcommand::Map
    )
}

/// Whether a word is one of the options of `string`, which are unsupported.
pub(crate) fn is_option(word: &str) -> bool
    ensures { result ≡ is_option word.now }
{
    word == "-nocase" || word == "-length"
}
