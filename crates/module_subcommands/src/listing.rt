//! What can be loaded, or is, and which directories are searched.
ghost use Rattle.std.specs.Prelude.{◌≡◌, ◌<◌, ◌≤◌, map, string_bytes, IfErr, IfOk};
ghost use Rattle.module_subcommands.specs.Listings as spec;

use crate::asking::Asking;
use crate::refusal::Refusal;
use crate::reply::Reply;
use crate::reporting::{Destination, lines_reply, names_reply};
use envvars::Env;
use filetree::Tree;
use filetree::hiding::HidingTree;
use module_reports::listings::{
    avail_report, directory_lines, is_available_where_readable, loaded_report, terminal_at,
    why_none,
};
use module_words::protocol::Place;
use modules::STANDARD_LIMITS;
use std::alloc::{AllocError, Global};

/// Reports what is loaded.
pub fn report_loaded<'a>(
    alloc: Global,
    asking: &Asking,
    to: Destination,
    words: &'a [String],
) -> Result<Reply, Refusal<'a>>
    ensures reported { IfOk result (spec.ReportsLoaded asking.now to.kind to.place
        (map string_bytes words.entry.now)) }
    ensures refused { IfErr result (spec.RefusesLoaded asking.now to.place (map string_bytes words.entry.now)) }
{
    let terminal = terminal_at(asking.asker, &asking.env, to.place);
    let text = loaded_report(alloc, &asking.env, words, terminal)?;
    Ok(names_reply(alloc, &asking.env, to, String::new(alloc), text)?)
}

/// Why a report is empty, as a user is told; nothing where it isn't, or a log is told.
fn why_empty(
    alloc: Global,
    env: &Env,
    place: Place,
    words: &[String],
    report: &str,
) -> Result<String, AllocError>
    ensures { IfOk result (λ line. string_bytes line
        ≡ spec.why_empty env.now place (map string_bytes words.now) report.now) }
{
    if !report.is_empty() || place == Place::Error {
        return Ok(String::new(alloc));
    }
    why_none(alloc, env, words)
}

/// Reports what can be loaded; where that is nothing, a user is told why.
pub fn report_available<'a, T: Tree + Drop>(
    alloc: Global,
    asking: &Asking,
    to: Destination,
    words: &'a [String],
    tree: &mut HidingTree<T>,
) -> Result<Reply, Refusal<'a>>
    ensures reported { IfOk result (spec.ReportsWhatIsThere (T.agrees tree.new.tree) (T.failed tree.new.tree)
        (T.failures tree.old.tree) (T.failures tree.new.tree) asking.now to.kind to.place
        (map string_bytes words.entry.now)) }
    ensures refused { IfErr result (spec.RefusesAvailable
        ((T.failures tree.old.tree < T.failures tree.new.tree) × (1000 ≤ T.failures tree.new.tree))
        (map string_bytes words.entry.now)) }
{
    let env = &asking.env;
    let terminal = terminal_at(asking.asker, env, to.place);
    let text = avail_report(alloc, env, words, terminal, tree, STANDARD_LIMITS)?;
    let aside = why_empty(alloc, env, to.place, words, text.as_str())?;
    Ok(names_reply(alloc, env, to, aside, text)?)
}

/// Whether one of the names means a module that can be loaded.
pub fn is_one_available<T: Tree + Drop>(
    alloc: Global,
    asking: &Asking,
    words: &[String],
    tree: &mut HidingTree<T>,
) -> Result<Reply, Refusal<'static>>
    ensures tested { IfOk result (spec.TestsAvailable (T.agrees tree.new.tree) (T.failed tree.new.tree)
        (T.failures tree.old.tree) (T.failures tree.new.tree) asking.now (map string_bytes words.now)) }
{
    let env = &asking.env;
    let is = is_available_where_readable(alloc, env, words, tree, STANDARD_LIMITS)?;
    Ok(Reply::Truth(is))
}

/// Reports which directories are searched; where there are none, a user is told why.
pub fn report_directories(alloc: Global, asking: &Asking, place: Place) -> Result<Reply, AllocError>
    ensures { IfOk result (spec.ReportsDirectories asking.now place) }
{
    let lines = directory_lines(alloc, &asking.env)?;
    let aside = why_empty(alloc, &asking.env, place, &[], lines.as_str())?;
    lines_reply(alloc, aside, place, lines.into_bytes())
}
