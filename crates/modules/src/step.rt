//! The subcommands, each over all its names: `load`, `unload`, `switch`, `purge`, `list`, `avail`, `show`, `whatis`.
ghost use Rattle.std.specs.Prelude.{◌≡◌, ◌<◌, [], ◌∷◌, Some, IfOk, IfErr, OnOk, false, map, reverse, string_bytes};
ghost use Rattle.std.specs.Option.{option_map};
ghost use Rattle.envvars.specs.Environment.{Environment};
ghost use Rattle.envvars.specs.Texts.{texts_in};
ghost use Rattle.envstate.specs.loaded_list.Loaded.{names_of};
ghost use Rattle.envstate.specs.loaded_list.LoadedEntries.{entry_view};
ghost use Rattle.filetree.specs.Relations.{Then};
ghost use Rattle.filetree.specs.Agreement.{FailsAt, InEachPair, ReadsOn};
ghost use Rattle.lookup.specs.DefaultFileResults.{HasResult};
ghost use Rattle.search.specs.Looked.{ListingLooksAt};
ghost use Rattle.requests.specs.Requests as actions;
ghost use Rattle.requests.specs.Reports.{loaded_text};
ghost use Rattle.requests.specs.RequestViews.{action_view};
ghost use Rattle.requests.specs.Steps as steps;
ghost use Rattle.requests.specs.Steps.{nothing_done, Each, EndsRequest, NeedsNames, ChangesLoaded, ShowsNames};
ghost use Rattle.requests.specs.Steps.{ListsLoaded, ListsAvailable, RequestStep, request_context_in};
ghost use Rattle.requests.specs.Looked.{PurgeLooksAt, SwitchLooksAt, RequestLooksAt};
ghost use Rattle.modules.specs.Views.{request_context_of, done_view};
ghost use Rattle.modules.specs.Answers.{GivesOrRefuses, StepAnswersOverTree, is_failure};
ghost use Rattle.modules.specs.Messages.{MemoryNumberAmong, memory_numbers};
ghost use Rattle.modules.specs.Parts.{AreEntriesOf, IsListedIn, TreeAnswer, report_mode, report_text, NameActionStep};
ghost use Rattle.modules.specs.Parts.{NameActionLooksAt, EachActionLooksAt, entries_view};
ghost use Rattle.modules.specs.Parts.{needs_another, any_needs, may_lose};
ghost use Rattle.modules.specs.declared.step.NameAction.TheVariants.{ReportOn};

use crate::done::{RememberedMoves, RequestResults};
use crate::entries::{entries_of, names_of};
use crate::one_name::{NameRequest, ReportKind, load_name, report_name, unload_name};
use crate::progress::RequestProgress;
use crate::refusal::Refusal;
use crate::settings::EvaluationSettings;
use envstate::loaded_list::Loaded;
use envvars::Vars;
use filetree::Tree;
use lookup::EvaluatedDefaultFiles;
use requests::{Action, Request, avail_report, first_part, list_report, modulepath};
use search::selected;
use std::alloc::{AllocError, Global};
use tclrules::Limits;

/// What a subcommand does for each of its names.
#[derive(Clone, Copy)]
pub(crate) enum NameAction {
    /// The module that the name means is loaded.
    Load,
    /// The last loaded module that the name means is unloaded.
    Unload,
    /// A report on the module that the name means is made.
    ReportOn(ReportKind),
}

/// Loads, unloads or reports on the module that one name means.
fn act_on_name<T: Tree, V: Vars>(
    alloc: Global,
    settings: EvaluationSettings,
    name_action: NameAction,
    typed: &str,
    env: &mut V,
    tree: &mut T,
    progress: &mut RequestProgress,
) -> Result<(), Refusal>
    requires { IsListedIn progress.old (V.vars env.old) }
    ensures done { TreeAnswer T.agrees T.failures T.failed tree.old tree.new
        (λ u. done_view progress.new.done (V.vars env.new)) result
        (λ files listings. NameActionStep name_action (request_context_of settings files listings) typed.now
        (done_view progress.old.done (V.vars env.old)))
        (λ files listings. NameActionLooksAt name_action (request_context_of settings files listings) typed.now
        (done_view progress.old.done (V.vars env.old))) }
    ensures listed { OnOk result (IsListedIn progress.new (V.vars env.new)) }
    ensures free { OnOk result (may_lose name_action (entries_view progress.old.list.entries) ≡ false
        → may_lose name_action (entries_view progress.new.list.entries) ≡ false) }
    ensures base { V.base env.new ≡ V.base env.old }
{
    let name_request = NameRequest {
        settings,
        in_switch: false,
        typed,
    };
    match name_action {
        NameAction::Load => load_name(alloc, name_request, env, tree, progress),
        NameAction::Unload => unload_name(alloc, name_request, env, tree, progress),
        NameAction::ReportOn(report_kind) => {
            report_name(alloc, settings, report_kind, typed, env, tree, progress)
        }
    }
}

/// Loads, unloads or reports on the module of each name in turn, until one is refused.
fn act_on_each<T: Tree, V: Vars>(
    alloc: Global,
    settings: EvaluationSettings,
    name_action: NameAction,
    names: &[String],
    env: &mut V,
    tree: &mut T,
    progress: &mut RequestProgress,
) -> Result<(), Refusal>
    requires { IsListedIn progress.old (V.vars env.old) }
    ensures done { TreeAnswer T.agrees T.failures T.failed tree.old tree.new
        (λ u. done_view progress.new.done (V.vars env.new)) result
        (λ files listings. Each (NameActionStep name_action (request_context_of settings files listings))
        (map string_bytes names.now) (done_view progress.old.done (V.vars env.old)))
        (λ files listings. EachActionLooksAt name_action (request_context_of settings files listings)
        (map string_bytes names.now) (done_view progress.old.done (V.vars env.old))) }
    ensures listed { OnOk result (IsListedIn progress.new (V.vars env.new)) }
    ensures free { OnOk result (may_lose name_action (entries_view progress.old.list.entries) ≡ false
        → may_lose name_action (entries_view progress.new.list.entries) ≡ false) }
    ensures base { V.base env.new ≡ V.base env.old }
{
    for name in names {
        act_on_name(
            alloc,
            settings,
            name_action,
            name.as_str(),
            env,
            tree,
            progress,
        )?;
    }
    Ok(())
}

/// Loads or unloads the module of each name in turn, and then judges what loaded modules need (53).
fn change_each<T: Tree, V: Vars>(
    alloc: Global,
    settings: EvaluationSettings,
    name_action: NameAction,
    names: &[String],
    before: &[Loaded],
    env: &mut V,
    tree: &mut T,
) -> Result<RequestResults, Refusal>
    requires { AreEntriesOf (map entry_view before.now) (V.vars env.old) }
    ensures done { TreeAnswer T.agrees T.failures T.failed tree.old tree.new
        (λ done. done_view done (V.vars env.new)) result
        (λ files listings. Then (Each (NameActionStep name_action (request_context_of settings files listings))
        (map string_bytes names.now)
        (nothing_done (V.vars env.old))) (EndsRequest (map entry_view before.now)))
        (λ files listings. EachActionLooksAt name_action (request_context_of settings files listings)
        (map string_bytes names.now) (nothing_done (V.vars env.old))) }
    ensures base { V.base env.new ≡ V.base env.old }
{
    let mut progress = RequestProgress::new(alloc, before)?;
    act_on_each(
        alloc,
        settings,
        name_action,
        names,
        env,
        tree,
        &mut progress,
    )?;
    progress.end(alloc, before)
}

/// Whether the module needs another.
fn needs_another(entry: &Loaded) -> bool
    ensures { result ≡ needs_another (entry_view entry.now) }
{
    !entry.prereqs.is_empty()
}

/// Whether one of the modules needs another.
fn any_needs(entries: &[Loaded]) -> bool
    ensures { result ≡ any_needs (map entry_view entries.now) }
{
    entries.iter().any(|entry| needs_another(entry))
}

/// Whether one of the modules can lose what it needs. An unload adds no module that needs another.
fn may_lose(name_action: NameAction, entries: &[Loaded]) -> bool
    ensures { result ≡ may_lose name_action (map entry_view entries.now) }
{
    match name_action {
        NameAction::Unload => any_needs(entries),
        NameAction::Load | NameAction::ReportOn(_) => true,
    }
}

/// Loads or unloads the module of each name in turn, where no module can lose what it needs: that isn't judged then, and
/// the list from before isn't kept.
fn change_freely<T: Tree, V: Vars>(
    alloc: Global,
    settings: EvaluationSettings,
    name_action: NameAction,
    names: &[String],
    before: Vec<Loaded>,
    env: &mut V,
    tree: &mut T,
) -> Result<RequestResults, Refusal>
    requires listed { AreEntriesOf (entries_view before) (V.vars env.old) }
    requires free { may_lose name_action (entries_view before) ≡ false }
    ensures done { TreeAnswer T.agrees T.failures T.failed tree.old tree.new
        (λ done. done_view done (V.vars env.new)) result
        (λ files listings. Then (Each (NameActionStep name_action (request_context_of settings files listings))
        (map string_bytes names.now)
        (nothing_done (V.vars env.old))) (EndsRequest (entries_view before)))
        (λ files listings. EachActionLooksAt name_action (request_context_of settings files listings)
        (map string_bytes names.now) (nothing_done (V.vars env.old))) }
    ensures base { V.base env.new ≡ V.base env.old }
{
    let mut progress = RequestProgress::of(alloc, before)?;
    act_on_each(
        alloc,
        settings,
        name_action,
        names,
        env,
        tree,
        &mut progress,
    )?;
    Ok(progress.done)
}

/// Loads or unloads the module of each name in turn, and then judges what loaded modules need (53), where one can have
/// lost it.
fn change_loaded<T: Tree, V: Vars>(
    alloc: Global,
    settings: EvaluationSettings,
    name_action: NameAction,
    names: &[String],
    before: Vec<Loaded>,
    env: &mut V,
    tree: &mut T,
) -> Result<RequestResults, Refusal>
    requires { AreEntriesOf (entries_view before) (V.vars env.old) }
    ensures done { TreeAnswer T.agrees T.failures T.failed tree.old tree.new
        (λ done. done_view done (V.vars env.new)) result
        (λ files listings. Then (Each (NameActionStep name_action (request_context_of settings files listings))
        (map string_bytes names.now)
        (nothing_done (V.vars env.old))) (EndsRequest (entries_view before)))
        (λ files listings. EachActionLooksAt name_action (request_context_of settings files listings)
        (map string_bytes names.now) (nothing_done (V.vars env.old))) }
    ensures base { V.base env.new ≡ V.base env.old }
{
    let entries = before.as_slice();
    if may_lose(name_action, entries) {
        return change_each(alloc, settings, name_action, names, entries, env, tree);
    }
    change_freely(alloc, settings, name_action, names, before, env, tree)
}

/// Loads or unloads the module of each of at least one name (else 56), as one command.
fn change_names<T: Tree, V: Vars>(
    alloc: Global,
    settings: EvaluationSettings,
    name_action: NameAction,
    names: &[String],
    env: &mut V,
    tree: &mut T,
) -> Result<RequestResults, Refusal>
    ensures done { TreeAnswer T.agrees T.failures T.failed tree.old tree.new
        (λ done. done_view done (V.vars env.new)) result
        (λ files listings. NeedsNames (map string_bytes names.now) (ChangesLoaded (V.vars env.old)
        (λ before. Each (NameActionStep name_action (request_context_of settings files listings))
        (map string_bytes names.now))))
        (λ files listings. EachActionLooksAt name_action (request_context_of settings files listings)
        (map string_bytes names.now) (nothing_done (V.vars env.old))) }
    ensures base { V.base env.new ≡ V.base env.old }
{
    if names.is_empty() {
        return Err(Refusal::BadArguments);
    }
    let before = entries_of(alloc, env)?;
    change_loaded(alloc, settings, name_action, names, before, env, tree)
}

/// The names of the loaded modules, the last loaded first.
fn names_in_reverse(alloc: Global, entries: &[Loaded]) -> Result<Vec<String>, AllocError>
    ensures { IfOk result (λ v. texts_in v ≡ reverse (names_of (map entry_view entries.now))) }
{
    let mut names = names_of(alloc, entries)?;
    names.reverse();
    Ok(names)
}

/// Unloads all modules, the last loaded first.
fn purge<T: Tree, V: Vars>(
    alloc: Global,
    settings: EvaluationSettings,
    env: &mut V,
    tree: &mut T,
) -> Result<RequestResults, Refusal>
    ensures done { TreeAnswer T.agrees T.failures T.failed tree.old tree.new
        (λ done. done_view done (V.vars env.new)) result
        (λ files listings. RequestStep (request_context_of settings files listings) (V.vars env.old) actions.purge)
        (λ files listings. PurgeLooksAt (request_context_of settings files listings) (V.vars env.old)) }
    ensures base { V.base env.new ≡ V.base env.old }
{
    let before = entries_of(alloc, env)?;
    let names = names_in_reverse(alloc, before.as_slice())?;
    change_loaded(
        alloc,
        settings,
        NameAction::Unload,
        names.as_slice(),
        before,
        env,
        tree,
    )
}

/// The name of the module that a switch unloads: without an old name it is the first part of the new one.
fn old_name<'a>(old: Option<&'a str>, new: &'a str) -> &'a str
    ensures { result.now ≡ steps.old_name (option_map (λ x. x.now) old.entry) new.entry.now }
{
    match old {
        Some(old) => old,
        None => first_part(new),
    }
}

/// Unloads the old name, and then loads the new one.
fn switch_names<T: Tree, V: Vars>(
    alloc: Global,
    settings: EvaluationSettings,
    old: &str,
    new: &str,
    env: &mut V,
    tree: &mut T,
    progress: &mut RequestProgress,
) -> Result<(), Refusal>
    requires { IsListedIn progress.old (V.vars env.old) }
    ensures done { TreeAnswer T.agrees T.failures T.failed tree.old tree.new
        (λ u. done_view progress.new.done (V.vars env.new)) result
        (λ files listings. steps.Switches (request_context_of settings files listings) (Some old.now) new.now
        (done_view progress.old.done (V.vars env.old)))
        (λ files listings. SwitchLooksAt (request_context_of settings files listings) old.now new.now
        (done_view progress.old.done (V.vars env.old))) }
    ensures listed { OnOk result (IsListedIn progress.new (V.vars env.new)) }
    ensures base { V.base env.new ≡ V.base env.old }
{
    let unloading = NameRequest {
        settings,
        in_switch: true,
        typed: old,
    };
    unload_name(alloc, unloading, env, tree, progress)?;
    let loading = NameRequest {
        settings,
        in_switch: true,
        typed: new,
    };
    load_name(alloc, loading, env, tree, progress)
}

/// Unloads the old name, and then loads the new one, as one command.
fn switch<T: Tree, V: Vars>(
    alloc: Global,
    settings: EvaluationSettings,
    old: Option<&str>,
    new: &str,
    env: &mut V,
    tree: &mut T,
) -> Result<RequestResults, Refusal>
    ensures done { TreeAnswer T.agrees T.failures T.failed tree.old tree.new
        (λ done. done_view done (V.vars env.new)) result
        (λ files listings. RequestStep (request_context_of settings files listings) (V.vars env.old)
        (actions.switch (option_map (λ x. x.now) old.entry) new.now))
        (λ files listings. SwitchLooksAt (request_context_of settings files listings)
        (steps.old_name (option_map (λ x. x.now) old.entry) new.now) new.now (nothing_done (V.vars env.old))) }
    ensures base { V.base env.new ≡ V.base env.old }
{
    let before = entries_of(alloc, env)?;
    let mut progress = RequestProgress::new(alloc, before.as_slice())?;
    let old = old_name(old, new);
    switch_names(alloc, settings, old, new, env, tree, &mut progress)?;
    progress.end(alloc, before.as_slice())
}

/// Reports on the module of each of at least one name (else 56).
fn report_names<T: Tree, V: Vars>(
    alloc: Global,
    settings: EvaluationSettings,
    report_kind: ReportKind,
    names: &[String],
    env: &mut V,
    tree: &mut T,
) -> Result<RequestResults, Refusal>
    ensures done { TreeAnswer T.agrees T.failures T.failed tree.old tree.new
        (λ done. done_view done (V.vars env.new)) result
        (λ files listings. NeedsNames (map string_bytes names.now)
        (ShowsNames (request_context_of settings files listings) (report_mode report_kind)
        (report_text report_kind) (V.vars env.old) (map string_bytes names.now)))
        (λ files listings. EachActionLooksAt (ReportOn report_kind) (request_context_of settings files listings)
        (map string_bytes names.now) (nothing_done (V.vars env.old))) }
    ensures base { V.base env.new ≡ V.base env.old }
{
    if names.is_empty() {
        return Err(Refusal::BadArguments);
    }
    let entries = entries_of(alloc, env)?;
    let mut progress = RequestProgress::of(alloc, entries)?;
    let name_action = NameAction::ReportOn(report_kind);
    act_on_each(
        alloc,
        settings,
        name_action,
        names,
        env,
        tree,
        &mut progress,
    )?;
    Ok(progress.done)
}

/// What a request has done that makes no move and reports this text.
fn done_with_report(alloc: Global, text: String) -> RequestResults
    ensures { (e : Environment) → done_view result e ≡ steps.with_report (nothing_done e) [] (string_bytes text) }
{
    RequestResults {
        loaded: Vec::new(alloc),
        messages: Vec::new(alloc),
        report: text,
        moves: RememberedMoves::Empty,
    }
}

/// The report of the loaded modules.
fn report_loaded(alloc: Global, entries: &[Loaded]) -> Result<String, AllocError>
    ensures { IfOk result (λ t. string_bytes t ≡ loaded_text (names_of (map entry_view entries.now))) }
{
    let names = names_of(alloc, entries)?;
    list_report(alloc, names.as_slice())
}

/// Reports the loaded modules.
fn list<V: Vars>(alloc: Global, env: &V) -> Result<RequestResults, Refusal>
    ensures given { GivesOrRefuses (λ done. done_view done (V.vars env.now)) result (ListsLoaded (V.vars env.now)) }
    ensures out_of_memory { IfErr result (MemoryNumberAmong (31 ∷ [])) }
{
    let entries = entries_of(alloc, env)?;
    let text = report_loaded(alloc, entries.as_slice())?;
    Ok(done_with_report(alloc, text))
}

/// Reports the modules along MODULEPATH whose names begin with one of the texts; without texts, all.
fn avail<T: Tree, V: Vars>(
    alloc: Global,
    settings: EvaluationSettings,
    texts: &[String],
    env: &V,
    tree: &mut T,
) -> Result<RequestResults, Refusal>
    ensures reads { ReadsOn T.agrees T.failures tree.old tree.new }
    ensures over_tree { StepAnswersOverTree (T.agrees tree.new) (T.failures tree.old < T.failures tree.new)
        (λ done. done_view done (V.vars env.now)) result
        (λ files listings. ListsAvailable (request_context_of settings files listings) (V.vars env.now)
        (map string_bytes texts.now)) }
    ensures out_of_memory { IfErr result (MemoryNumberAmong (31 ∷ 41 ∷ [])) }
    ensures failed { FailsAt is_failure (T.failed tree.old) (T.failed tree.new) result (λ at.
        InEachPair (T.agrees tree.new) (λ files listings.
        ListingLooksAt (HasResult settings.limits) files listings (map string_bytes texts.now)
        (steps.modulepath (V.vars env.now)) at)) }
{
    let default_files = EvaluatedDefaultFiles {
        limits: settings.limits,
    };
    let listings = selected(alloc, tree, &default_files, texts, modulepath(env))?;
    let text = avail_report(alloc, listings.as_slice())?;
    Ok(done_with_report(alloc, text))
}

/// Does what is asked for.
fn act<T: Tree, V: Vars>(
    alloc: Global,
    settings: EvaluationSettings,
    action: &Action,
    env: &mut V,
    tree: &mut T,
) -> Result<RequestResults, Refusal>
    ensures done { TreeAnswer T.agrees T.failures T.failed tree.old tree.new
        (λ done. done_view done (V.vars env.new)) result
        (λ files listings. RequestStep (request_context_of settings files listings) (V.vars env.old)
        (action_view action.now))
        (λ files listings. RequestLooksAt (request_context_of settings files listings) (V.vars env.old)
        (action_view action.now)) }
    ensures out_of_memory { IfErr result (MemoryNumberAmong (memory_numbers (action_view action.now))) }
    ensures base { V.base env.new ≡ V.base env.old }
{
    match action {
        Action::Load(names) => change_names(alloc, settings, NameAction::Load, names, env, tree),
        Action::Unload(names) => {
            change_names(alloc, settings, NameAction::Unload, names, env, tree)
        }
        Action::Switch(old, new) => {
            switch(alloc, settings, old.as_deref(), new.as_str(), env, tree)
        }
        Action::Purge => purge(alloc, settings, env, tree),
        Action::List => list(alloc, env),
        Action::Avail(texts) => avail(alloc, settings, texts, env, tree),
        Action::Show(names) => { report_names(alloc, settings, ReportKind::Show, names, env, tree) }
        Action::Whatis(names) => {
            report_names(alloc, settings, ReportKind::Whatis, names, env, tree)
        }
    }
}

/// Does a request: makes of the variables what its step over a tree of modulefiles makes of them, and answers what it
/// did besides. Where it loads or unloads, the loaded modules are read first (35); then the names are gone through in
/// turn, and after them what loaded modules need is judged once more (53).
///
/// It is refused as the request's step over the tree is, for want of memory, or by 43 where the device failed in this
/// call, at a path that the request looks at. The variables may then hold anything, so a caller who needs the old ones
/// hands in a copy.
pub(crate) fn step<T: Tree, V: Vars>(
    alloc: Global,
    request: &Request,
    env: &mut V,
    tree: &mut T,
    limits: Limits,
) -> Result<RequestResults, Refusal>
    ensures reads { ReadsOn T.agrees T.failures tree.old tree.new }
    ensures base { V.base env.new ≡ V.base env.old }
    ensures over_tree { StepAnswersOverTree (T.agrees tree.new) (T.failures tree.old < T.failures tree.new)
        (λ done. done_view done (V.vars env.new)) result
        (λ files listings. RequestStep (request_context_in limits request.now.shell files listings) (V.vars env.old)
        (action_view request.now.action)) }
    ensures out_of_memory { IfErr result (MemoryNumberAmong (memory_numbers (action_view request.now.action))) }
    ensures failed { FailsAt is_failure (T.failed tree.old) (T.failed tree.new) result (λ at.
        InEachPair (T.agrees tree.new) (λ files listings.
        RequestLooksAt (request_context_in limits request.now.shell files listings) (V.vars env.old)
        (action_view request.now.action) at)) }
{
    let settings = EvaluationSettings {
        limits,
        shell: request.shell,
    };
    act(alloc, settings, &request.action, env, tree)
}
