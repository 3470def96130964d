//! The commands of modulefiles and of default files by their names (modulefile(5)), supported or not.
ghost use Rattle.std.specs.Prelude.{◌≡◌, ◌&&◌, bytes_eq, map};
ghost use Rattle.std.specs.List.{list_any};
ghost use Rattle.std.specs.Option.{option_map, option_copied};
ghost use Rattle.tclrules.specs.Names.{is_among};
ghost use Rattle.envvars.specs.Texts.{Text};
ghost use Rattle.modulefile.specs.Calls.{unsupported_commands, commands, command_names, command_named};
ghost use Rattle.modulefile.specs.CallViews.{command_view, is_unsupported};

use crate::records::PathEdit;

/// The form of the words of a command.
#[derive(Clone, Copy)]
pub(crate) enum Form {
    /// `VAR value`, of `setenv`
    Set,
    /// `VAR ?value?`
    Unset,
    /// `VAR value`, of `pushenv`
    Push,
    /// `?--delim C? VAR value...`
    Path(PathEdit),
    /// `NAME...`, of `conflict`
    Conflict,
    /// `NAME...`, of `prereq`
    Prereq,
    /// `WORD...`
    Whatis,
    /// `VAR ?default?`
    Getenv,
    /// `?NAME...?`
    IsLoaded,
    /// `FIELD ?WORD?`
    Info,
    /// `?-nonewline? stderr TEXT`
    Puts,
    /// Of a command that only default files have.
    OfDefaultFiles,
    /// Of a command that is unsupported.
    Unsupported,
}

/// A command: its name, and the form of the words after it.
#[derive(Clone, Copy)]
pub(crate) struct Command {
    pub name: &'static str,
    pub form: Form,
}

/// The table of the commands. `$list` makes of its rows the list that is wanted.
macro_rules! table {
    ($list:ident) => {
        $list! {
            "setenv" => Form::Set,
            "unsetenv" => Form::Unset,
            "pushenv" => Form::Push,
            "prepend-path" => Form::Path(PathEdit::Front),
            "append-path" => Form::Path(PathEdit::Back),
            "remove-path" => Form::Path(PathEdit::Remove),
            "conflict" => Form::Conflict,
            "prereq" => Form::Prereq,
            "module-whatis" => Form::Whatis,
            "getenv" => Form::Getenv,
            "is-loaded" => Form::IsLoaded,
            "module-info" => Form::Info,
            "puts" => Form::Puts,
            "module-version" => Form::OfDefaultFiles,
            "module" => Form::Unsupported,
            "depends-on" => Form::Unsupported,
            "set-alias" => Form::Unsupported,
            "set-function" => Form::Unsupported,
            "system" => Form::Unsupported,
            "uname" => Form::Unsupported,
            "source-sh" => Form::Unsupported,
            "x-resource" => Form::Unsupported,
            "chdir" => Form::Unsupported,
            "family" => Form::Unsupported,
            "complete" => Form::Unsupported,
            "module-alias" => Form::Unsupported,
            "module-virtual" => Form::Unsupported,
            "module-tag" => Form::Unsupported,
            "module-hide" => Form::Unsupported,
            "module-forbid" => Form::Unsupported,
            "prereq-all" => Form::Unsupported,
            "prereq-any" => Form::Unsupported,
            "module-help" => Form::Unsupported,
            "is-avail" => Form::Unsupported,
            "is-saved" => Form::Unsupported,
            "is-used" => Form::Unsupported,
            "unset-alias" => Form::Unsupported,
            "unset-function" => Form::Unsupported,
            "uncomplete" => Form::Unsupported,
            "variant" => Form::Unsupported,
            "getvariant" => Form::Unsupported,
            "versioncmp" => Form::Unsupported,
        }
    };
}

/// The names alone.
macro_rules! names {
    ($($name:literal => $form:expr,)*) => { [$($name),*] };
}

/// Names and forms.
macro_rules! commands {
    ($($name:literal => $form:expr,)*) => { [$(Command { name: $name, form: $form }),*] };
}

const NAMES: [&str; 42] = table!(names);

const COMMANDS: [Command; 42] = table!(commands);

/// The names of all commands of modulefiles and default files, supported or not: no procedure may have them.
#[tactic(auto, unfolding(crate::specs::Calls::commands, crate::specs::Calls::unsupported_commands))]
pub fn command_names() -> &'static [&'static str]
    ensures { map (λ n. n.now) result.now ≡ command_names }
{
    &NAMES
}

/// All commands of modulefiles and default files.
#[tactic(auto, unfolding(crate::specs::Calls::commands, crate::specs::Calls::unsupported_commands))]
fn commands() -> &'static [Command]
    ensures commands { map command_view result.now ≡ commands }
    ensures unsupported { (name : Text) → list_any (λ c. is_unsupported c.form && bytes_eq name c.name.now) result.now
        ≡ is_among unsupported_commands name }
{
    &COMMANDS
}

/// The command of this name.
pub(crate) fn command_named(name: &str) -> Option<&'static Command>
    ensures { option_map command_view (option_copied result) ≡ command_named name.now }
{
    commands().iter().find(|command| name == command.name)
}

/// Whether modulefile(5) has a command of this name that is unsupported.
pub fn is_unsupported_command(name: &str) -> bool
    ensures { result ≡ is_among unsupported_commands name.now }
{
    commands().iter().any(|command| matches!(command.form, Form::Unsupported)
        && name == command.name)
}
