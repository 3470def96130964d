//! The contexts in which a modulefile is evaluated, and those that its questions ask for.
ghost use Rattle.std.specs.Prelude.{◌≡◌, [], ◌∷◌, ◌++◌, map, flat_map, string_bytes, IfOk, OnOk};
ghost use Rattle.envvars.specs.Texts.{texts_in};
ghost use Rattle.modulefile.specs.RecordViews.{mode_view};
ghost use Rattle.modulefile_run.specs.Questions.{questions_in};
ghost use Rattle.audit_laws.specs.determinism.Contexts as spec;
ghost use Rattle.audit_laws.specs.determinism.ContextViews.{context_view};

use crate::determinism::asking::{AskedOfContext, asked_of_context};
use crate::determinism::loaded_answers::{loaded_lists, questions_tried};
use message::texts::copies;
use modulefile::Mode;
use modulefile_run::Question;
use shelltext::Shell;
use std::alloc::{AllocError, Global};

/// How a file is evaluated: for what, as a half of a switch or not, for which shell, and with which modules loaded.
#[derive(Drop)]
pub struct EvaluationContext {
    /// What it is evaluated for.
    pub mode: Mode,
    /// Whether it is half of a switch.
    pub in_switch: bool,
    /// The shell that gets the text.
    pub shell: Shell,
    /// The names of the modules that are loaded.
    pub loaded: Vec<String>,
}

/// The first context in which a file is evaluated: for loading, in no switch, in sh, with nothing loaded.
pub fn first_context(alloc: Global) -> EvaluationContext
    ensures { context_view result ≡ spec.first_context }
{
    EvaluationContext {
        mode: Mode::Load,
        in_switch: false,
        shell: Shell::Sh,
        loaded: Vec::new(alloc),
    }
}

/// Adds a context.
fn push_context(
    alloc: Global,
    ways: &mut Vec<EvaluationContext>,
    mode: Mode,
    in_switch: bool,
    shell: Shell,
    loaded: &[String],
) -> Result<(), AllocError>
    ensures { OnOk result (map context_view ways.new.items ≡ map context_view ways.old.items ++ record {
      mode = mode_view mode;
      in_switch = in_switch;
      shell = shell;
      loaded = map string_bytes loaded.now;
    } ∷ []) }
{
    ways.push(EvaluationContext {
        mode,
        in_switch,
        shell,
        loaded: copies(alloc, loaded)?,
    })?;
    Ok(())
}

/// Adds the contexts of one shell beside its first, where the mode is asked for.
fn push_more(
    alloc: Global,
    ways: &mut Vec<EvaluationContext>,
    of_mode: bool,
    shell: Shell,
    loaded: &[String],
) -> Result<(), AllocError>
    ensures { OnOk result (map context_view ways.new.items
        ≡ map context_view ways.old.items ++ spec.more_in of_mode shell (map string_bytes loaded.now)) }
{
    if of_mode {
        push_context(alloc, ways, Mode::Load, true, shell, loaded)?;
        push_context(alloc, ways, Mode::Unload, false, shell, loaded)?;
        push_context(alloc, ways, Mode::Unload, true, shell, loaded)?;
    }
    Ok(())
}

/// Adds the contexts of one shell.
fn push_contexts(
    alloc: Global,
    ways: &mut Vec<EvaluationContext>,
    of_mode: bool,
    loaded: &[String],
    shell: Shell,
) -> Result<(), AllocError>
    ensures { OnOk result (map context_view ways.new.items
        ≡ map context_view ways.old.items ++ spec.contexts_in of_mode (map string_bytes loaded.now) shell) }
{
    push_context(alloc, ways, Mode::Load, false, shell, loaded)?;
    push_more(alloc, ways, of_mode, shell, loaded)
}

/// Adds the contexts of each of these shells.
fn push_shells(
    alloc: Global,
    ways: &mut Vec<EvaluationContext>,
    of_mode: bool,
    loaded: &[String],
    shells: &[Shell],
) -> Result<(), AllocError>
    ensures { OnOk result (map context_view ways.new.items
        ≡ map context_view ways.old.items ++ flat_map (spec.contexts_in of_mode (map string_bytes loaded.now)) shells.now) }
{
    for shell in shells {
        push_contexts(alloc, ways, of_mode, loaded, *shell)?;
    }
    Ok(())
}

/// The shells but sh.
fn other_shells() -> &'static [Shell]
    ensures { result.now ≡ spec.other_shells }
{
    &Shell::all()[1..]
}

/// Adds the contexts with these modules loaded, beside that for loading in sh.
fn push_more_with(
    alloc: Global,
    ways: &mut Vec<EvaluationContext>,
    asked: AskedOfContext,
    loaded: &[String],
) -> Result<(), AllocError>
    ensures { OnOk result (map context_view ways.new.items ≡ map context_view ways.old.items
        ++ spec.more_with asked.mode asked.shell (map string_bytes loaded.now)) }
{
    push_more(alloc, ways, asked.mode, Shell::Sh, loaded)?;
    if asked.shell {
        push_shells(alloc, ways, asked.mode, loaded, other_shells())?;
    }
    Ok(())
}

/// Adds all contexts with these modules loaded.
fn push_contexts_with(
    alloc: Global,
    ways: &mut Vec<EvaluationContext>,
    asked: AskedOfContext,
    loaded: &[String],
) -> Result<(), AllocError>
    ensures { OnOk result (map context_view ways.new.items ≡ map context_view ways.old.items
        ++ spec.contexts_with asked.mode asked.shell (map string_bytes loaded.now)) }
{
    push_context(alloc, ways, Mode::Load, false, Shell::Sh, loaded)?;
    push_more_with(alloc, ways, asked, loaded)
}

/// Adds all contexts with each of these lists of loaded modules.
fn push_lists(
    alloc: Global,
    ways: &mut Vec<EvaluationContext>,
    asked: AskedOfContext,
    lists: &[Vec<String>],
) -> Result<(), AllocError>
    ensures { OnOk result (map context_view ways.new.items ≡ map context_view ways.old.items
        ++ flat_map (spec.contexts_with asked.mode asked.shell) (map texts_in lists.now)) }
{
    for loaded in lists {
        push_contexts_with(alloc, ways, asked, loaded.as_slice())?;
    }
    Ok(())
}

/// The contexts that questions ask for, beside the first one, which is for loading, in no switch, in sh, with nothing
/// loaded: those with nothing loaded, and those with what is loaded by each other choice of answers.
///
/// The only error is want of memory.
pub fn other_contexts(
    alloc: Global,
    questions: &[Question],
) -> Result<Vec<EvaluationContext>, AllocError>
    ensures { IfOk result (λ ways. map context_view ways.items ≡ spec.other_contexts (questions_in questions.now)) }
{
    let asked = asked_of_context(alloc, questions)?;
    let tried = questions_tried(alloc, asked, questions)?;
    let lists = loaded_lists(alloc, tried.as_slice())?;
    let mut ways = Vec::new(alloc);
    push_more_with(alloc, &mut ways, asked, &[])?;
    push_lists(alloc, &mut ways, asked, lists.as_slice())?;
    Ok(ways)
}
