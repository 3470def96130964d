//! Commands that `modulecmd` has too: their requests, with the text of what these change.
ghost use Rattle.std.specs.Prelude.{◌≡◌, ◌<◌, ◌∷◌, map, string_bytes, IfErr, IfOk};
ghost use Rattle.envvars.specs.Changes.{new_values_in};
ghost use Rattle.envvars.specs.Texts.{texts_in};
ghost use Rattle.filetree.specs.Agreement.{InEachPair, ReadsOn};
ghost use Rattle.requests.specs.RequestViews.{action_view};
ghost use Rattle.requests.specs.Steps.{RequestStep};
ghost use Rattle.modules.specs.Replies.{changed_env, changed_view};
ghost use Rattle.shelltext.specs.Reading.{SaysDifference, TextSays};
ghost use Rattle.module_auto.specs.Answers.{IsRequestFault};
ghost use Rattle.module_words.specs.subcommands.Subcommands.{name_of};
ghost use Rattle.module_subcommands.specs.Limits.{context};
ghost use Rattle.module_subcommands.specs.Changes.{IsRefusedChange, IsRequested, RequestedStep};

use crate::asking::Asking;
use crate::refusal::Refusal;
use envvars::Env;
use filetree::Tree;
use module_auto::RequestFault;
use module_words::subcommands::Subcommand;
use modules::{Request, RequestChanges, STANDARD_LIMITS, request, run_changes};
use shelltext::print_changes;
use std::alloc::{AllocError, Global};

/// What a request changes, and did besides, with the text of the changes.
#[derive(Drop)]
pub(crate) struct Requested {
    /// What it changes, and did besides.
    pub(crate) changed: RequestChanges,
    /// The text for the shell.
    pub(crate) text: String,
}

/// The words of a request: the subcommand's name, and these.
///
/// Errors: memory runs out.
pub fn request_words(
    alloc: Global,
    subcommand: Subcommand,
    words: &[String],
) -> Result<Vec<String>, AllocError>
    ensures { IfOk result (λ all. texts_in all ≡ name_of subcommand ∷ map string_bytes words.now) }
{
    let mut all = Vec::new(alloc);
    all.push(String::from_str(alloc, subcommand.name())?)?;
    for word in words {
        all.push(word.clone()?)?;
    }
    Ok(all)
}

/// What a request changes, with the text of that.
fn done<T: Tree>(
    alloc: Global,
    wanted: &Request,
    env: &Env,
    tree: &mut T,
) -> Result<Requested, RequestFault>
    ensures reads { ReadsOn T.agrees T.failures tree.old tree.new }
    ensures done { IfOk result (λ r. InEachPair (T.agrees tree.new) (λ files listings.
        RequestStep (context wanted.now.shell files listings) env.now (action_view wanted.now.action)
        (Ok (changed_view env.now r.changed)))) }
    ensures said { IfOk result (λ r.
        SaysDifference wanted.now.shell (string_bytes r.text) env.now (changed_env env.now r.changed)) }
    ensures changes { IfOk result (λ r.
        TextSays wanted.now.shell (string_bytes r.text) (new_values_in r.changed.changes)) }
    ensures refused { IfErr result (IsRequestFault (T.agrees tree.new) (T.failures tree.old < T.failures tree.new)
        wanted.now.shell env.now (λ files listings.
        RequestStep (context wanted.now.shell files listings) env.now (action_view wanted.now.action))) }
{
    let changed = run_changes(alloc, wanted, env, tree, STANDARD_LIMITS)?;
    let text = print_changes(alloc, wanted.shell, changed.changes.as_slice())?;
    Ok(Requested { changed, text })
}

/// What the request of these words changes, as `modulecmd` does it, with the text of that.
pub(crate) fn request_done<T: Tree>(
    alloc: Global,
    asking: &Asking,
    words: &[String],
    tree: &mut T,
) -> Result<Requested, Refusal<'static>>
    ensures reads { ReadsOn T.agrees T.failures tree.old tree.new }
    ensures done { IfOk result (IsRequested (T.agrees tree.new) asking.now.shell asking.now.env
        (map string_bytes words.now)) }
    ensures refused { IfErr result (IsRefusedChange (T.agrees tree.new) (T.failures tree.old < T.failures tree.new)
        asking.now.shell asking.now.env
        (RequestedStep asking.now.shell asking.now.env (map string_bytes words.now))) }
{
    let wanted = request(alloc, asking.shell, words)?;
    Ok(done(alloc, &wanted, &asking.env, tree)?)
}
