//! One name of a request: its module is found, the module's file is evaluated, and the module is loaded, unloaded or
//! reported on.
ghost use Rattle.std.specs.Prelude.{◌≡◌, false, IfOk, OnOk, map, string_bytes};
ghost use Rattle.std.specs.Option.{option_map};
ghost use Rattle.envvars.specs.Texts.{has};
ghost use Rattle.envstate.specs.loaded_list.Loaded.{names_of};
ghost use Rattle.envstate.specs.loaded_list.LoadedEntries.{entry_view};
ghost use Rattle.filetree.specs.Agreement.{Files, Listings};
ghost use Rattle.modulefile.specs.RecordViews.{mode_view, record_view};
ghost use Rattle.modulefile.specs.Files.{RunsFile};
ghost use Rattle.search.specs.Answers.{found_view};
ghost use Rattle.modulefile_run.specs.Running.{ran_view};
ghost use Rattle.requests.specs.Reasons.{file_refused};
ghost use Rattle.requests.specs.Refusals.{RefusedAs};
ghost use Rattle.requests.specs.Steps.{entries_of, Finds, LoadsFound, LoadsName, UnloadsName, ShowsName};
ghost use Rattle.requests.specs.Looked.{SearchLooksAt, LoadLooksAt, UnloadLooksAt, ShowLooksAt};
ghost use Rattle.modules.specs.Views.{request_context_of, done_view};
ghost use Rattle.modules.specs.Answers.{GivesOrRefuses};
ghost use Rattle.modules.specs.Parts.{IsListedIn, TreeAnswer, entries_view, file_context, ReadsEntry, FindsLoaded};
ghost use Rattle.modules.specs.Parts.{LoadedLooksAt, UnloadsFound, ReportsFound, report_mode, report_text, any_needs};

use crate::done::{Module, Move};
use crate::entries::join_loaded;
use crate::progress::RequestProgress;
use crate::refusal::Refusal;
use crate::scripts::script_at;
use crate::settings::EvaluationSettings;
use envstate::loaded_list::{Loaded, LoadedList, drop_from_list, is_loaded};
use envvars::Vars;
use filetree::Tree;
use lookup::EvaluatedDefaultFiles;
use modulefile::Mode;
use modulefile_run::{FileContext, FileRun, run_file};
use modulename::is_module_name;
use requests::{last_meant, modulepath, show_report, whatis_report};
use search::{FindFault, LocatedModule, locate};
use std::alloc::{AllocError, Global};

/// One name of a request, with what its module's file is evaluated under.
#[derive(Clone, Copy)]
pub(crate) struct NameRequest<'a> {
    /// The limits of the evaluation, and the shell.
    pub(crate) settings: EvaluationSettings,
    /// Whether it is the old or the new name of a `switch`.
    pub(crate) in_switch: bool,
    /// The name as it was typed.
    pub(crate) typed: &'a str,
}

/// The file of a module: the module's full name, the file's path and the script in it.
#[derive(Clone, Copy)]
pub(crate) struct ModuleFile<'a> {
    pub(crate) name: &'a str,
    pub(crate) path: &'a str,
    pub(crate) text: &'a str,
}

impl<'a> ModuleFile<'a> {
    /// The file of a module that was found.
    pub(crate) fn of(found: &'a LocatedModule) -> ModuleFile<'a>
        ensures name { result.name.now ≡ string_bytes found.entry.now.name }
        ensures path { result.path.now ≡ string_bytes found.entry.now.path }
        ensures text { result.text.now ≡ string_bytes found.entry.now.text }
    {
        ModuleFile {
            name: found.name.as_str(),
            path: found.path.as_str(),
            text: found.text.as_str(),
        }
    }
}

/// Which report is made of a module's records.
#[derive(Clone, Copy)]
pub(crate) enum ReportKind {
    /// `show`: what the module would do.
    Show,
    /// `whatis`: its descriptions.
    Whatis,
}

/// The module that a name means, by the search along MODULEPATH as it is now.
pub(crate) fn find_module<T: Tree, V: Vars>(
    alloc: Global,
    name_request: NameRequest<'_>,
    env: &V,
    tree: &mut T,
) -> Result<LocatedModule, Refusal>
    ensures { TreeAnswer T.agrees T.failures T.failed tree.old tree.new found_view result
        (λ files listings. Finds (request_context_of name_request.entry.settings files listings)
        (V.vars env.now) name_request.entry.typed.now)
        (λ files listings. SearchLooksAt (request_context_of name_request.entry.settings files listings)
        (V.vars env.now) name_request.entry.typed.now) }
{
    let default_files = EvaluatedDefaultFiles {
        limits: name_request.settings.limits,
    };
    Ok(locate(
        alloc,
        tree,
        &default_files,
        modulepath(env),
        name_request.typed,
    )?)
}

/// Evaluates a modulefile in a mode; its records have their effects on the variables.
pub(crate) fn evaluate<V: Vars>(
    alloc: Global,
    name_request: NameRequest<'_>,
    mode: Mode,
    list: &LoadedList,
    file: ModuleFile<'_>,
    env: &mut V,
) -> Result<FileRun, Refusal>
    ensures given { GivesOrRefuses (λ ran. ran_view ran (V.vars env.new)) result (RefusedAs file_refused
        (RunsFile name_request.entry.settings.limits (file_context name_request.entry
        (mode_view mode) file.entry.name.now
        file.entry.path.now (entries_view list.now.entries) (V.vars env.old)) file.entry.text.now)) }
    ensures listed { OnOk result (entries_of (V.vars env.new) ≡ entries_of (V.vars env.old)) }
    ensures base { V.base env.new ≡ V.base env.old }
{
    let context = FileContext {
        mode,
        in_switch: name_request.in_switch,
        name: file.name,
        path: file.path,
        shell: name_request.settings.shell,
        typed: name_request.typed,
        loaded: list.names(),
    };
    Ok(run_file(
        alloc,
        &context,
        file.text,
        env,
        name_request.settings.limits,
    )?)
}

/// Whether a module is loaded, where none of the typed name is: of that name the list isn't searched again.
fn is_other_loaded(list: &[Loaded], typed: &str, name: &str) -> bool
    requires { has typed.now (names_of (map entry_view list.now)) ≡ false }
    ensures { result ≡ has name.now (names_of (map entry_view list.now)) }
{
    name != typed && is_loaded(list, name)
}

/// Loads the module that was found, unless it is loaded already: evaluates its file, and joins it to the loaded list. No
/// module of the typed name is loaded.
fn load_found<V: Vars>(
    alloc: Global,
    name_request: NameRequest<'_>,
    found: LocatedModule,
    env: &mut V,
    progress: &mut RequestProgress,
) -> Result<(), Refusal>
    requires listed { IsListedIn progress.old (V.vars env.old) }
    requires unloaded { has name_request.typed.now (names_of (entries_view progress.old.list.entries)) ≡ false }
    ensures given { (files : Files) (listings : Listings)
        → GivesOrRefuses (λ u. done_view progress.new.done (V.vars env.new)) result
        (LoadsFound (request_context_of name_request.entry.settings files listings) name_request.entry.in_switch
        name_request.entry.typed.now (done_view progress.old.done (V.vars env.old)) (entries_view progress.old.list.entries)
        (found_view found)) }
    ensures listed { OnOk result (IsListedIn progress.new (V.vars env.new)) }
    ensures base { V.base env.new ≡ V.base env.old }
{
    let list = progress.list.entries();
    if is_other_loaded(list, name_request.typed, found.name.as_str()) {
        return Ok(());
    }
    let file = ModuleFile::of(&found);
    let ran = evaluate(alloc, name_request, Mode::Load, &progress.list, file, env)?;
    let loading = Module {
        name: found.name,
        path: found.path,
        records: ran.records,
    };
    join_loaded(alloc, &mut progress.list, &loading, env)?;
    progress
        .done
        .continue_with(Move::Loads(loading), ran.messages)?;
    Ok(())
}

/// Loads the module that a name means. A name that is exactly a loaded module's changes nothing.
///
/// It is refused as the step for the name is, for want of memory, or by 43 where the device failed in this call, at a
/// path that the load looks at. The variables, and the progress, may then hold anything.
pub(crate) fn load_name<T: Tree, V: Vars>(
    alloc: Global,
    name_request: NameRequest<'_>,
    env: &mut V,
    tree: &mut T,
    progress: &mut RequestProgress,
) -> Result<(), Refusal>
    requires { IsListedIn progress.old (V.vars env.old) }
    ensures loaded { TreeAnswer T.agrees T.failures T.failed tree.old tree.new
        (λ u. done_view progress.new.done (V.vars env.new)) result
        (λ files listings. LoadsName (request_context_of name_request.entry.settings files listings)
        name_request.entry.in_switch name_request.entry.typed.now (done_view progress.old.done (V.vars env.old)))
        (λ files listings. LoadLooksAt (request_context_of name_request.entry.settings files listings)
        name_request.entry.typed.now (done_view progress.old.done (V.vars env.old))) }
    ensures listed { OnOk result (IsListedIn progress.new (V.vars env.new)) }
    ensures base { V.base env.new ≡ V.base env.old }
{
    if is_loaded(progress.list.entries(), name_request.typed) {
        return Ok(());
    }
    let found = find_module(alloc, name_request, env, tree)?;
    load_found(alloc, name_request, found, env, progress)
}

/// The module of an entry, with the script in the file at its recorded path.
fn read_entry<T: Tree>(
    alloc: Global,
    entry: &Loaded,
    tree: &mut T,
) -> Result<LocatedModule, Refusal>
    ensures { TreeAnswer T.agrees T.failures T.failed tree.old tree.new found_view result
        (λ files listings. ReadsEntry files (entry_view entry.now))
        (λ files listings at. at ≡ string_bytes entry.now.path) }
{
    Ok(LocatedModule {
        name: String::from_str(alloc, entry.name.as_str())?,
        path: String::from_str(alloc, entry.path.as_str())?,
        text: script_at(alloc, tree, entry.path.as_str())?,
    })
}

/// The last loaded module that a name means, with the script in its file. There is no search.
fn find_loaded<T: Tree>(
    alloc: Global,
    typed: &str,
    entries: &[Loaded],
    tree: &mut T,
) -> Result<Option<LocatedModule>, Refusal>
    ensures { TreeAnswer T.agrees T.failures T.failed tree.old tree.new (option_map found_view) result
        (λ files listings. FindsLoaded files typed.now (map entry_view entries.now))
        (λ files listings. LoadedLooksAt typed.now (map entry_view entries.now)) }
{
    if !is_module_name(typed) {
        let name = String::from_str(alloc, typed)?;
        return Err(Refusal::Find(FindFault::BadName(name)));
    }
    match last_meant(entries, typed) {
        None => Ok(None),
        Some(entry) => Ok(Some(read_entry(alloc, entry, tree)?)),
    }
}

/// Unloads a loaded module by its script, and takes it out of the loaded list.
fn unload_found<V: Vars>(
    alloc: Global,
    name_request: NameRequest<'_>,
    found: LocatedModule,
    env: &mut V,
    progress: &mut RequestProgress,
) -> Result<(), Refusal>
    requires { IsListedIn progress.old (V.vars env.old) }
    ensures given { GivesOrRefuses (λ u. done_view progress.new.done (V.vars env.new)) result
        (UnloadsFound name_request.entry (found_view found) (entries_view progress.old.list.entries)
        (done_view progress.old.done (V.vars env.old))) }
    ensures listed { OnOk result (IsListedIn progress.new (V.vars env.new)) }
    ensures free { OnOk result (any_needs (entries_view progress.old.list.entries) ≡ false
        → any_needs (entries_view progress.new.list.entries) ≡ false) }
    ensures base { V.base env.new ≡ V.base env.old }
{
    let file = ModuleFile::of(&found);
    let ran = evaluate(alloc, name_request, Mode::Unload, &progress.list, file, env)?;
    drop_from_list(alloc, env, &mut progress.list, found.name.as_str())?;
    let unloaded = Module {
        name: found.name,
        path: found.path,
        records: ran.records,
    };
    progress
        .done
        .continue_with(Move::Unloads(unloaded), ran.messages)?;
    Ok(())
}

/// Unloads the last loaded module that a name means, if there is one, by the file at its recorded path.
///
/// It is refused as the step for the name is, for want of memory, or by 43 where the device failed in this call, at
/// that path. The variables, and the progress, may then hold anything.
pub(crate) fn unload_name<T: Tree, V: Vars>(
    alloc: Global,
    name_request: NameRequest<'_>,
    env: &mut V,
    tree: &mut T,
    progress: &mut RequestProgress,
) -> Result<(), Refusal>
    requires { IsListedIn progress.old (V.vars env.old) }
    ensures unloaded { TreeAnswer T.agrees T.failures T.failed tree.old tree.new
        (λ u. done_view progress.new.done (V.vars env.new)) result
        (λ files listings. UnloadsName (request_context_of name_request.entry.settings files listings)
        name_request.entry.in_switch name_request.entry.typed.now (done_view progress.old.done (V.vars env.old)))
        (λ files listings. UnloadLooksAt name_request.entry.typed.now (done_view progress.old.done (V.vars env.old))) }
    ensures listed { OnOk result (IsListedIn progress.new (V.vars env.new)) }
    ensures free { OnOk result (any_needs (entries_view progress.old.list.entries) ≡ false
        → any_needs (entries_view progress.new.list.entries) ≡ false) }
    ensures base { V.base env.new ≡ V.base env.old }
{
    let meant = find_loaded(alloc, name_request.typed, progress.list.entries(), tree)?;
    match meant {
        None => Ok(()),
        Some(found) => unload_found(alloc, name_request, found, env, progress),
    }
}

/// The mode in which a file is evaluated for a report.
fn mode_of_report(report_kind: ReportKind) -> Mode
    ensures { mode_view result ≡ report_mode report_kind }
{
    match report_kind {
        ReportKind::Show => Mode::Display,
        ReportKind::Whatis => Mode::Whatis,
    }
}

/// The text of a report on a module, by the records that its file made.
fn report_on(
    alloc: Global,
    report_kind: ReportKind,
    found: &LocatedModule,
    ran: &FileRun,
) -> Result<String, AllocError>
    ensures { IfOk result (λ t. string_bytes t ≡ report_text report_kind (found_view found.now)
        (map record_view ran.now.records.items)) }
{
    match report_kind {
        ReportKind::Show => show_report(alloc, found.path.as_str(), ran.records.as_slice()),
        ReportKind::Whatis => whatis_report(alloc, found.name.as_str(), ran.records.as_slice()),
    }
}

/// Evaluates the file of the module that was found, and adds its messages and the report.
fn report_found<V: Vars>(
    alloc: Global,
    name_request: NameRequest<'_>,
    report_kind: ReportKind,
    found: &LocatedModule,
    env: &mut V,
    progress: &mut RequestProgress,
) -> Result<(), Refusal>
    requires { IsListedIn progress.old (V.vars env.old) }
    ensures given { GivesOrRefuses (λ u. done_view progress.new.done (V.vars env.new)) result
        (ReportsFound name_request.entry report_kind (found_view found.now) (entries_view progress.old.list.entries)
        (done_view progress.old.done (V.vars env.old))) }
    ensures listed { OnOk result (IsListedIn progress.new (V.vars env.new)) }
    ensures base { V.base env.new ≡ V.base env.old }
{
    let file = ModuleFile::of(found);
    let ran = evaluate(
        alloc,
        name_request,
        mode_of_report(report_kind),
        &progress.list,
        file,
        env,
    )?;
    let text = report_on(alloc, report_kind, found, &ran)?;
    progress.done.report_on(ran.messages, text.as_str())?;
    Ok(())
}

/// Reports on the module that a name means. No variable changes.
///
/// It is refused as the step for the name is, for want of memory, or by 43 where the device failed in this call, at a
/// path that the search looks at. The variables, and the progress, may then hold anything.
pub(crate) fn report_name<T: Tree, V: Vars>(
    alloc: Global,
    settings: EvaluationSettings,
    report_kind: ReportKind,
    typed: &str,
    env: &mut V,
    tree: &mut T,
    progress: &mut RequestProgress,
) -> Result<(), Refusal>
    requires { IsListedIn progress.old (V.vars env.old) }
    ensures reported { TreeAnswer T.agrees T.failures T.failed tree.old tree.new
        (λ u. done_view progress.new.done (V.vars env.new)) result
        (λ files listings. ShowsName (request_context_of settings files listings) (report_mode report_kind)
        (report_text report_kind) typed.now (done_view progress.old.done (V.vars env.old)))
        (λ files listings. ShowLooksAt (request_context_of settings files listings) typed.now
        (done_view progress.old.done (V.vars env.old))) }
    ensures listed { OnOk result (IsListedIn progress.new (V.vars env.new)) }
    ensures base { V.base env.new ≡ V.base env.old }
{
    let name_request = NameRequest {
        settings,
        in_switch: false,
        typed,
    };
    let found = find_module(alloc, name_request, env, tree)?;
    report_found(alloc, name_request, report_kind, &found, env, progress)
}
