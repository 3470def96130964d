//! Parses the words of a command line into a request (module(1)).
ghost use Rattle.std.specs.Prelude.{◌≡◌, map, IfOk, string_bytes};
ghost use Rattle.filetree.specs.Relations.{Is};
ghost use Rattle.requests.specs.Requests.{some_names, switch_of, no_names, request_of};
ghost use Rattle.requests.specs.RequestViews.{action_view};
ghost use Rattle.modules.specs.Answers.{GivesOrRefuses};

use crate::refusal::Refusal;
use message::texts::copies;
use requests::{Action, Request};
use shelltext::Shell;
use std::alloc::Global;

/// The action, where at least one name follows the subcommand; else 56.
fn some_names(action: Action, words: &[String]) -> Result<Action, Refusal>
    ensures { GivesOrRefuses action_view result
        (Is (some_names (action_view action) (map string_bytes words.now))) }
{
    match words {
        [] => Err(Refusal::BadArguments),
        [_, ..] => Ok(action),
    }
}

/// The action, where no name follows the subcommand; else 56.
fn no_names(action: Action, words: &[String]) -> Result<Action, Refusal>
    ensures { GivesOrRefuses action_view result
        (Is (no_names (action_view action) (map string_bytes words.now))) }
{
    match words {
        [] => Ok(action),
        [_, ..] => Err(Refusal::BadArguments),
    }
}

/// The action of `switch [OLD] NEW`; 56 for any other count of names.
fn switch_of(words: &[String]) -> Result<Action, Refusal>
    ensures { GivesOrRefuses action_view result (Is (switch_of (map string_bytes words.now))) }
{
    match words {
        [new] => Ok(Action::Switch(None, new.clone()?)),
        [old, new] => Ok(Action::Switch(Some(old.clone()?), new.clone()?)),
        [] | [_, _, _, ..] => Err(Refusal::BadArguments),
    }
}

/// The action that the words ask for; the first is the subcommand.
fn action_of(alloc: Global, words: &[String]) -> Result<Action, Refusal>
    ensures { GivesOrRefuses action_view result (Is (request_of (map string_bytes words.now))) }
{
    let [word, names @ ..] = words else {
        return Err(Refusal::BadArguments);
    };
    match word.as_str() {
        "load" | "add" => some_names(Action::Load(copies(alloc, names)?), names),
        "unload" | "rm" => some_names(Action::Unload(copies(alloc, names)?), names),
        "switch" | "swap" => switch_of(names),
        "purge" => no_names(Action::Purge, names),
        "list" => no_names(Action::List, names),
        "avail" => Ok(Action::Avail(copies(alloc, names)?)),
        "show" | "display" => some_names(Action::Show(copies(alloc, names)?), names),
        "whatis" => some_names(Action::Whatis(copies(alloc, names)?), names),
        other => Err(Refusal::UnknownSubcommand(String::from_str(alloc, other)?)),
    }
}

/// The request that the words make; the first is the subcommand. `add`, `rm`, `swap` and `display` are short for
/// `load`, `unload`, `switch` and `show`.
///
/// Errors: `UnknownSubcommand` (57), there is no such subcommand; `BadArguments` (56), there is none at all, or the
/// names don't fit it: `load`, `unload`, `show` and `whatis` take at least one, `switch` one or two, `purge` and `list`
/// none; `OutOfMemory` (31), memory ran out.
pub fn request(alloc: Global, shell: Shell, words: &[String]) -> Result<Request, Refusal>
    ensures action { GivesOrRefuses (λ request. action_view request.action) result
        (Is (request_of (map string_bytes words.now))) }
    ensures shell { IfOk result (λ request. request.shell ≡ shell) }
{
    let action = action_of(alloc, words)?;
    Ok(Request { shell, action })
}
