//! The evaluations of a script: the first, for loading in sh with nothing loaded, and those in the other contexts that
//! it asks for.
ghost use Rattle.std.specs.Prelude.{◌≡◌, true, ◌++◌, find, not, map, is_none, string_bytes, IfOk, IfErr, OnOk, MatchOption};
ghost use Rattle.std.specs.Option.{option_map};
ghost use Rattle.envvars.specs.Texts.{texts_in};
ghost use Rattle.envvars.specs.Fields.{without_repeats};
ghost use Rattle.modulefile.specs.RecordViews.{record_view};
ghost use Rattle.modulefile_run.specs.Questions.{question_view, questions_in};
ghost use Rattle.audit_laws.specs.determinism.StableInput as resting;
ghost use Rattle.audit_laws.specs.determinism.Contexts as spec;
ghost use Rattle.audit_laws.specs.determinism.Contexts.{has_stable_answer};
ghost use Rattle.audit_laws.specs.determinism.ContextViews.{context_view};
ghost use Rattle.audit_certificate.specs.Steps.{are_consistent};
ghost use Rattle.audit_site.specs.Walks.{uses_told, AreUsedTwice};
ghost use Rattle.audit_site.specs.WalkParts.{site_context, ComesTo, GivesUp, ScriptRuns, ShowsOne, ShowsAll, ShowsScript};

use crate::files::SiteSettings;
use crate::unlike::unlike_in;
use crate::walk::EvaluatedFile;
use audit_laws::determinism::{
    EvaluationContext, are_few, first_context, first_unkept, is_run_equivalent, other_contexts,
    variables_read,
};
use envvars::Working;
use envvars::fields::{deduplicated, owned, slices};
use modulefile_run::{FileContext, FileRun, run_file};
use modules::Refusal;
use modules::transient_failures::unless_transient;
use std::alloc::{AllocError, Global};

/// A script in the file of a module.
#[derive(Clone, Copy)]
pub(crate) struct ModuleScript<'a> {
    /// The module's full name.
    pub(crate) name: &'a str,
    /// The path of the file.
    pub(crate) path: &'a str,
    /// The script.
    pub(crate) text: &'a str,
}

/// What the evaluations of a file show, and the variables that they read, each once.
#[derive(Drop)]
pub(crate) struct FileEvaluation {
    pub(crate) file: EvaluatedFile,
    pub(crate) reads: Vec<String>,
}

/// What the evaluation of a script leaves in a context, over the environment at hand, which doesn't change.
fn run_script(
    settings: SiteSettings<'_>,
    way: &EvaluationContext,
    script: ModuleScript<'_>,
) -> Result<FileRun, Refusal>
    ensures { ComesTo result (ScriptRuns settings.entry.limits
        (site_context (context_view way.entry.now) script.entry.name.now script.entry.path.now
        settings.entry.env.now) script.entry.text.now) }
{
    let ModuleScript { name, path, text } = script;
    let context = FileContext {
        mode: way.mode,
        in_switch: way.in_switch,
        name,
        path,
        shell: way.shell,
        typed: name,
        loaded: way.loaded.as_slice(),
    };
    let mut working = Working::over(settings.env);
    Ok(run_file(
        settings.alloc,
        &context,
        text,
        &mut working,
        settings.limits,
    )?)
}

/// What the first evaluation of a script leaves: for loading, in sh, with nothing loaded.
fn run_first(settings: SiteSettings<'_>, script: ModuleScript<'_>) -> Result<FileRun, Refusal>
    ensures { ComesTo result (ScriptRuns settings.entry.limits
        (site_context spec.first_context script.entry.name.now script.entry.path.now
        settings.entry.env.now) script.entry.text.now) }
{
    let way = first_context(settings.alloc);
    run_script(settings, &way, script)
}

/// Adds the variables that an evaluation reads.
fn push_reads(alloc: Global, reads: &mut Vec<String>, ran: &FileRun) -> Result<(), AllocError>
    ensures { OnOk result (texts_in reads.new
        ≡ texts_in reads.old ++ resting.variables_read (questions_in ran.now.asked.items)) }
{
    let names = variables_read(alloc, ran.asked.as_slice())?;
    for name in &names {
        reads.push(String::from_str(alloc, name)?)?;
    }
    Ok(())
}

/// Whether the evaluation of a script in another context is like the first one, and adds the variables that it reads.
///
/// The only error is want of memory.
fn run_other(
    settings: SiteSettings<'_>,
    script: ModuleScript<'_>,
    first: &FileRun,
    way: &EvaluationContext,
    reads: &mut Vec<String>,
) -> Result<bool, Refusal>
    ensures shows { IfOk result (ShowsOne settings.entry.limits (λ w. site_context w script.entry.name.now
        script.entry.path.now settings.entry.env.now) script.entry.text.now
        first.now (context_view way.now) (texts_in reads.old) (texts_in reads.new)) }
    ensures cause { IfErr result (GivesUp ⊥) }
{
    let alloc = settings.alloc;
    match unless_transient(run_script(settings, way, script))? {
        Ok(ran) => {
            push_reads(alloc, reads, &ran)?;
            Ok(is_run_equivalent(alloc, first, way.mode, &ran)?)
        }
        Err(_) => Ok(false),
    }
}

/// Whether the evaluations of a script in these contexts are like the first one, and adds the variables that they read.
///
/// The only error is want of memory.
fn run_others(
    settings: SiteSettings<'_>,
    script: ModuleScript<'_>,
    first: &FileRun,
    ways: &[EvaluationContext],
    reads: &mut Vec<String>,
) -> Result<bool, Refusal>
    ensures shows { IfOk result (ShowsAll settings.entry.limits (λ w. site_context w script.entry.name.now
        script.entry.path.now settings.entry.env.now) script.entry.text.now
        first.now (map context_view ways.now) (texts_in reads.old) (texts_in reads.new)) }
    ensures cause { IfErr result (GivesUp ⊥) }
{
    let mut alike = true;
    for way in ways {
        let is_alike = run_other(settings, script, first, way, reads)?;
        alike &= is_alike;
    }
    Ok(alike)
}

/// What is kept of the first evaluation of a file that reads these variables, where the others are like it or not.
fn file_of(
    alloc: Global,
    alike: bool,
    ran: FileRun,
    reads: &[String],
) -> Result<EvaluatedFile, AllocError>
    ensures records { IfOk result (λ file. file.records ≡ ran.records) }
    ensures unkept { IfOk result (λ file. option_map question_view file.unkept ≡ find (λ q. not (has_stable_answer alike
        (map record_view ran.records.items) q)) (questions_in ran.asked.items)) }
    ensures unlike { IfOk result (λ file. MatchOption file.unlike
        (are_consistent (uses_told (map record_view ran.records.items) (is_none file.unkept)
        (map string_bytes reads.now)) ≡ true)
        (AreUsedTwice (uses_told (map record_view ran.records.items) (is_none file.unkept)
        (map string_bytes reads.now)))) }
{
    let place = first_unkept(alloc, alike, &ran)?;
    let FileRun { records, asked, .. } = ran;
    match place {
        Some(place) => {
            let unlike = unlike_in(alloc, records.as_slice(), &[])?;
            let mut asked = asked;
            let unkept = Some(asked.swap_remove(place));
            Ok(EvaluatedFile {
                records,
                unkept,
                unlike,
            })
        }
        None => {
            let unlike = unlike_in(alloc, records.as_slice(), reads)?;
            Ok(EvaluatedFile {
                records,
                unkept: None,
                unlike,
            })
        }
    }
}

/// The texts, each once, in the order of their first places.
fn once_each(alloc: Global, texts: &[String]) -> Result<Vec<String>, AllocError>
    ensures { IfOk result (λ once. texts_in once ≡ without_repeats (map string_bytes texts.now)) }
{
    let names = slices(alloc, texts)?;
    let once = deduplicated(alloc, names.as_slice())?;
    owned(alloc, once.as_slice())
}

/// What the evaluations of a script show: the first, for loading, in sh, with nothing loaded, and those in the other
/// contexts that it asks for.
pub(crate) fn evaluate_script(
    settings: SiteSettings<'_>,
    script: ModuleScript<'_>,
) -> Result<FileEvaluation, Refusal>
    ensures { ShowsScript settings.entry.limits (λ w. site_context w script.entry.name.now script.entry.path.now
        settings.entry.env.now) script.entry.text.now result }
{
    let alloc = settings.alloc;
    let first = run_first(settings, script)?;
    let mut reads = Vec::new(alloc);
    push_reads(alloc, &mut reads, &first)?;
    let ways = other_contexts(alloc, first.asked.as_slice())?;
    let alike = run_others(settings, script, &first, ways.as_slice(), &mut reads)?;
    let few = are_few(alloc, first.asked.as_slice())?;
    let reads = once_each(alloc, reads.as_slice())?;
    Ok(FileEvaluation {
        file: file_of(alloc, few & alike, first, reads.as_slice())?,
        reads,
    })
}
