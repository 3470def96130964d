//! The names of all modules that can be loaded.
ghost use Rattle.std.specs.Prelude.{◌≡◌, ◌<◌, [], map, IfOk, IfErr};
ghost use Rattle.envvars.specs.Texts.{texts_in};
ghost use Rattle.envvars.specs.Fields.{without_repeats};
ghost use Rattle.filetree.specs.Agreement.{FailsOnlyAt, InEachPair, ReadsOn};
ghost use Rattle.filetree.specs.Causes.{Applies};
ghost use Rattle.lookup.specs.DefaultFileResults.{HasResult};
ghost use Rattle.lookup.specs.LineViews.{line_view};
ghost use Rattle.search.specs.Looked.{ListingLooksAt};
ghost use Rattle.shelltext.specs.declared.shell.Shell.{Shell};
ghost use Rattle.requests.specs.Steps as steps;
ghost use Rattle.requests.specs.Steps.{request_context_in};
ghost use Rattle.modules.specs.Answers.{cause_of};
ghost use Rattle.module_reports.specs.descriptions.Descriptions.{AreAllNames, name_of};

use envvars::Env;
use envvars::fields::{deduplicated, owned};
use filetree::Tree;
use lookup::{Listing, available};
use modules::Refusal;
use requests::modulepath;
use std::alloc::{AllocError, Global};
use tclrules::Limits;

/// The names of modules, each once.
fn names_of(alloc: Global, listings: &[Listing]) -> Result<Vec<String>, AllocError>
    ensures { IfOk result (λ v. texts_in v ≡ without_repeats (map name_of (map line_view listings.now))) }
{
    let mut names = Vec::with_capacity(alloc, listings.len())?;
    for listing in listings {
        names.push(listing.name.as_str())?;
    }
    let names = deduplicated(alloc, names.as_slice())?;
    owned(alloc, names.as_slice())
}

/// The names of all modules along MODULEPATH, in the order of `avail`, each once.
///
/// It fails for want of memory (31, 41), or by 43 where the device failed in this call, at a path that the listing looks
/// at.
pub(crate) fn all_names<T: Tree>(
    alloc: Global,
    env: &Env,
    tree: &mut T,
    limits: Limits,
) -> Result<Vec<String>, Refusal>
    ensures reads { ReadsOn T.agrees T.failures tree.old tree.new }
    ensures listed { IfOk result (λ names. InEachPair (T.agrees tree.new) (λ files listings. (shell : Shell)
        → AreAllNames (request_context_in limits shell files listings) env.now (texts_in names))) }
    ensures fault { IfErr result (λ refusal.
        Applies (cause_of refusal) (T.failures tree.old < T.failures tree.new) (λ reason. ⊥)) }
    ensures failed { FailsOnlyAt T.agrees T.failed tree.old tree.new (λ files listings.
        ListingLooksAt (HasResult limits) files listings [] (steps.modulepath env.now)) }
{
    let listings = available(alloc, tree, modulepath(env), limits)?;
    Ok(names_of(alloc, listings.as_slice())?)
}
