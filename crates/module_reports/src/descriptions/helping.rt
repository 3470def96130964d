//! `help NAME`: what the procedure `ModulesHelp` of a modulefile says.
ghost use Rattle.std.specs.Prelude.{◌≡◌, ◌<◌, ◌++◌, map, IfOk, IfErr, string_bytes};
ghost use Rattle.std.specs.Option.{option_map};
ghost use Rattle.envvars.specs.Texts.{texts_in};
ghost use Rattle.filetree.specs.Agreement.{FailsAt, InEachPair, ReadsOn};
ghost use Rattle.filetree.specs.Relations.{Is};
ghost use Rattle.modulefile_run.specs.Running.{file_reason_of};
ghost use Rattle.lookup.specs.DefaultFileResults.{HasResult};
ghost use Rattle.search.specs.Answers.{found_view};
ghost use Rattle.search.specs.Found.{Found};
ghost use Rattle.search.specs.Looked.{LooksAt};
ghost use Rattle.requests.specs.Looked.{SearchLooksAt};
ghost use Rattle.requests.specs.Reasons.{missed};
ghost use Rattle.requests.specs.Refusals.{RefusedAs};
ghost use Rattle.requests.specs.Steps as steps;
ghost use Rattle.requests.specs.Steps.{request_context_in};
ghost use Rattle.modules.specs.Answers.{GivesOrRefuses, StepAnswersOverTree, is_failure};
ghost use Rattle.module_reports.specs.descriptions.Helps.{Describes, Helps, HelpsCalled, HelpsFound, joined, said_or, without_place};
ghost use Rattle.module_reports.specs.descriptions.Views.{RunsText, context_for, help_view, lacks_by, loaded_names};

use crate::descriptions::calling::with_call;
use crate::descriptions::written::push_all;
use envstate::loaded_list::{loaded, names_of};
use envvars::fields::owned;
use envvars::{Env, Working};
use filetree::Tree;
use lookup::EvaluatedDefaultFiles;
use modulefile::Mode;
use modulefile_run::{FileContext, FileRun, RefusedFile, RunFault, RunStop, run_file};
use modules::Refusal;
use requests::{modulepath, whatis_report};
use search::{LocatedModule, locate};
use shelltext::Shell;
use std::alloc::{AllocError, Global};
use tclrules::{EvalFault, Limits};

/// What `help NAME` answers.
#[derive(Debug, Drop)]
pub enum HelpText {
    /// The messages of the file, and of its procedure `ModulesHelp`.
    Own(String),
    /// What `whatis NAME` writes, since the file has no such procedure, or that says nothing.
    Described(String),
}

/// Of which module help is wanted, and what its file is evaluated under.
#[derive(Clone, Copy)]
struct HelpRequest<'a> {
    limits: Limits,
    shell: Shell,
    /// The name as it was typed.
    typed: &'a str,
    /// The names of the modules that are loaded.
    loaded: &'a [String],
}

/// The error of a file that calls `ModulesHelp` without having it.
const WITHOUT_HELP: &str = "invalid command name \"ModulesHelp\"";

/// Whether a file was refused because it has no procedure `ModulesHelp`.
fn lacks_help(refused: &RunFault) -> bool
    ensures { result ≡ lacks_by (file_reason_of refused.now) }
{
    match &refused.stop {
        RunStop::Eval(EvalFault::TclError(message, _)) => message.as_str() == WITHOUT_HELP,
        _ => false,
    }
}

/// Texts, one after another.
fn joined(alloc: Global, texts: &[String]) -> Result<String, AllocError>
    ensures { IfOk result (λ t. string_bytes t ≡ joined (map string_bytes texts.now)) }
{
    let mut text = String::new(alloc);
    push_all(&mut text, texts)?;
    Ok(text)
}

/// Evaluates a text as that of the module's file, for its description.
fn evaluate(
    alloc: Global,
    request: HelpRequest<'_>,
    found: &LocatedModule,
    text: &str,
    env: &Env,
) -> Result<FileRun, RunFault>
    ensures { RunsText request.entry.limits (context_for request.entry (found_view found.now) env.now) text.now result }
{
    let context = FileContext {
        mode: Mode::Whatis,
        in_switch: false,
        name: found.name.as_str(),
        path: found.path.as_str(),
        shell: request.shell,
        typed: request.typed,
        loaded: request.loaded,
    };
    let mut working = Working::over(env);
    run_file(alloc, &context, text, &mut working, request.limits)
}

/// What `whatis NAME` writes of a module.
fn described(
    alloc: Global,
    request: HelpRequest<'_>,
    found: &LocatedModule,
    env: &Env,
) -> Result<String, Refusal>
    ensures { GivesOrRefuses string_bytes result (Describes request.entry.limits
        (context_for request.entry (found_view found.now) env.now) (found_view found.now)) }
{
    let ran = evaluate(alloc, request, found, found.text.as_str(), env)?;
    let mut text = joined(alloc, ran.messages.as_slice())?;
    let report = whatis_report(alloc, found.name.as_str(), ran.records.as_slice())?;
    text.push_str(report.as_str())?;
    Ok(text)
}

/// What was said; the description where nothing was.
fn said_or(said: String, description: String) -> HelpText
    ensures { help_view result ≡ said_or (string_bytes said) (string_bytes description) }
{
    if said.as_str().is_empty() {
        HelpText::Described(description)
    } else {
        HelpText::Own(said)
    }
}

/// The fault without its place, which is one of the text with the call and not of the file.
fn without_place(refused: RunFault) -> RunFault
    ensures { file_reason_of result ≡ option_map without_place (file_reason_of refused) }
{
    let RunFault { stop, file } = refused;
    let Some(file) = file else {
        return RunFault { stop, file: None };
    };
    let RefusedFile {
        name,
        path,
        place: _,
        messages,
    } = file;
    let file = RefusedFile {
        name,
        path,
        place: None,
        messages,
    };
    RunFault {
        stop,
        file: Some(file),
    }
}

/// What the procedure of a module's file says when it is called behind the file, or else the description.
fn called(
    alloc: Global,
    request: HelpRequest<'_>,
    found: &LocatedModule,
    env: &Env,
    description: String,
) -> Result<HelpText, Refusal>
    ensures { GivesOrRefuses help_view result (HelpsCalled request.entry.limits
        (context_for request.entry (found_view found.now) env.now) (found_view found.now)
        (string_bytes description)) }
{
    let text = with_call(alloc, found.text.as_str())?;
    match evaluate(alloc, request, found, text.as_str(), env) {
        Ok(ran) => {
            let said = joined(alloc, ran.messages.as_slice())?;
            Ok(said_or(said, description))
        }
        Err(refused) => {
            if lacks_help(&refused) {
                Ok(HelpText::Described(description))
            } else {
                Err(Refusal::Run(without_place(refused)))
            }
        }
    }
}

/// What the file of a module answers.
fn help_of(
    alloc: Global,
    request: HelpRequest<'_>,
    found: &LocatedModule,
    env: &Env,
) -> Result<HelpText, Refusal>
    ensures { GivesOrRefuses help_view result (HelpsFound request.entry.limits
        (context_for request.entry (found_view found.now) env.now) (found_view found.now)) }
{
    let description = described(alloc, request, found, env)?;
    called(alloc, request, found, env, description)
}

/// The module that a name means, by the search along MODULEPATH.
fn find_module<T: Tree>(
    alloc: Global,
    typed: &str,
    env: &Env,
    tree: &mut T,
    limits: Limits,
) -> Result<LocatedModule, Refusal>
    ensures reads { ReadsOn T.agrees T.failures tree.old tree.new }
    ensures over_tree { StepAnswersOverTree (T.agrees tree.new) (T.failures tree.old < T.failures tree.new) found_view
        result (λ files listings.
        RefusedAs missed (Found (HasResult limits) files listings (steps.modulepath env.now) typed.now)) }
    ensures failed { FailsAt is_failure (T.failed tree.old) (T.failed tree.new) result (λ at.
        InEachPair (T.agrees tree.new) (λ files listings.
        LooksAt (HasResult limits) files listings (steps.modulepath env.now) typed.now at)) }
{
    let default_files = EvaluatedDefaultFiles { limits };
    Ok(locate(alloc, tree, &default_files, modulepath(env), typed)?)
}

/// The names of the loaded modules, in load order; 35 where the loaded lists don't fit together.
fn loaded_names(alloc: Global, env: &Env) -> Result<Vec<String>, Refusal>
    ensures { GivesOrRefuses texts_in result (Is (loaded_names env.now)) }
{
    let entries = loaded(alloc, env)?;
    let names = names_of(alloc, entries.as_slice())?;
    Ok(owned(alloc, names.as_slice())?)
}

/// What `help NAME` answers: the module that the name means is searched for, and its file is evaluated for its
/// description; and again, with a call of `ModulesHelp` behind it, also where the file returns. The messages of the
/// latter are the answer. Where the file has no such procedure, or there are none, the answer is what `whatis NAME`
/// writes. The environment doesn't change.
///
/// Errors: loaded lists that don't fit together (35); what the search for the name answers (42, 44, 45, 46, and 43 where
/// the device failed in this call, at a path that the search looks at); what the evaluation of the file or of its
/// procedure is refused by; want of memory (11, 31, 41).
pub fn help<T: Tree>(
    alloc: Global,
    shell: Shell,
    typed: &str,
    env: &Env,
    tree: &mut T,
    limits: Limits,
) -> Result<HelpText, Refusal>
    ensures reads { ReadsOn T.agrees T.failures tree.old tree.new }
    ensures answered { StepAnswersOverTree (T.agrees tree.new) (T.failures tree.old < T.failures tree.new) help_view
        result (λ files listings. Helps (request_context_in limits shell files listings) env.now typed.now) }
    ensures failed { FailsAt is_failure (T.failed tree.old) (T.failed tree.new) result (λ at.
        InEachPair (T.agrees tree.new) (λ files listings.
        SearchLooksAt (request_context_in limits shell files listings) env.now typed.now at)) }
{
    let names = loaded_names(alloc, env)?;
    let found = find_module(alloc, typed, env, tree, limits)?;
    let request = HelpRequest {
        limits,
        shell,
        typed,
        loaded: names.as_slice(),
    };
    help_of(alloc, request, &found, env)
}
