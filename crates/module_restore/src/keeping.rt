//! What `save` keeps.
ghost use Rattle.std.specs.Prelude.{◌≡◌, ◌<◌, map, IfOk, string_bytes};
ghost use Rattle.std.specs.Option.{option_map};
ghost use Rattle.message.specs.Answers.{Gives};
ghost use Rattle.envvars.specs.Fields.{without_repeats};
ghost use Rattle.envvars.specs.Environment.{lookup};
ghost use Rattle.envvars.specs.Texts.{slice_texts, texts_in};
ghost use Rattle.filetree.specs.Agreement.{FailsOnlyAt, ReadsOn};
ghost use Rattle.filetree.specs.Causes.{AnswersOverTree};
ghost use Rattle.module_collections.specs.texts.Views.{kept_view};
ghost use Rattle.module_words.specs.modulepath.Faults.{reason_of};
ghost use Rattle.module_words.specs.modulepath.ModulePaths.{directories_in, modulepath};
ghost use Rattle.requests.specs.Looked.{RequestLooksAt};
ghost use Rattle.requests.specs.Requests as actions;
ghost use Rattle.requests.specs.Steps.{request_context_in};
ghost use Rattle.module_restore.specs.Answers.{keep_cause};
ghost use Rattle.module_restore.specs.Saves.{Keeps, paths_in};

use crate::fault::KeepFault;
use crate::loaded::loaded_names;
use crate::running::MODULEPATH;
use envvars::Env;
use envvars::fields::{deduplicated, elements, owned, slices};
use filetree::Tree;
use module_collections::texts::Collection;
use module_words::modulepath::{ModulePathFault, directories_to_use};
use modules::{Action, Request, make_changes};
use shelltext::Shell;
use std::alloc::{AllocError, Global};
use tclrules::Limits;

/// The directories that are searched: the elements of MODULEPATH, but empty ones.
fn directories_of(alloc: Global, env: &Env) -> Result<Vec<&str>, AllocError>
    ensures { IfOk result (λ v. slice_texts v.items ≡ directories_in (lookup env.entry.now modulepath)) }
{
    let mut directories = elements(alloc, env.get(MODULEPATH))?;
    directories.retain(|directory| !directory.is_empty());
    Ok(directories)
}

/// The absolute paths of the directories that are searched.
fn paths_in(alloc: Global, env: &Env, working: Option<&str>) -> Result<Vec<String>, ModulePathFault>
    ensures { Gives reason_of texts_in result (paths_in (option_map (λ w. w.now) working.entry) env.now) }
{
    let directories = directories_of(alloc, env)?;
    let directories = owned(alloc, directories.as_slice())?;
    directories_to_use(alloc, working, directories.as_slice())
}

/// The texts, each once.
fn once(alloc: Global, texts: &[String]) -> Result<Vec<String>, AllocError>
    ensures { IfOk result (λ v. texts_in v ≡ without_repeats (map string_bytes texts.now)) }
{
    let texts = slices(alloc, texts)?;
    let texts = deduplicated(alloc, texts.as_slice())?;
    owned(alloc, texts.as_slice())
}

/// What `save` keeps of an environment, which doesn't change: the modules that are loaded, in load order, and the
/// directories of MODULEPATH as it is after a purge, so without what loaded modules have added; each directory once, by
/// the absolute path that `use` would take it for. The collection may be empty, and `module_collections::texts::save_text` then has
/// no text for it. The device failed only at paths that the purge looks at.
///
/// Errors: `Refused`, the loaded lists don't fit together (35), the purge is refused, by 43 where the device failed in
/// this call, or memory ran out; `Path`, a directory is relative and there is no working directory, or its path has a
/// colon, or memory ran out.
pub fn collection_of<T: Tree>(
    alloc: Global,
    shell: Shell,
    env: &Env,
    working: Option<&str>,
    tree: &mut T,
    limits: Limits,
) -> Result<Collection, KeepFault>
    ensures reads { ReadsOn T.agrees T.failures tree.old tree.new }
    ensures kept { AnswersOverTree keep_cause (T.agrees tree.new) (T.failures tree.old < T.failures tree.new) kept_view
        result (λ files listings. Keeps (request_context_in limits shell files listings)
        (option_map (λ w. w.now) working.entry) env.now) }
    ensures failed { FailsOnlyAt T.agrees T.failed tree.old tree.new (λ files listings.
        RequestLooksAt (request_context_in limits shell files listings) env.now actions.purge) }
{
    let modules = loaded_names(alloc, env)?;
    let mut purged = env.copy()?;
    let purge = Request {
        shell,
        action: Action::Purge,
    };
    let _ = make_changes(alloc, &purge, &mut purged, tree, limits)?;
    let paths = paths_in(alloc, &purged, working)?;
    let directories = once(alloc, paths.as_slice())?;
    Ok(Collection {
        directories,
        modules,
    })
}
