//! The effects of records on an environment, by mode (modulefile(5)).
ghost use Rattle.std.specs.Prelude.{◌≡◌, map, string_bytes};
ghost use Rattle.std.specs.List.{list_all};
ghost use Rattle.std.specs.Option.{option_map};
ghost use Rattle.envvars.specs.Reasons.{Edits};
ghost use Rattle.envstate.specs.paths.PathVariables.{is_element, path_reason, added_path, dropped_path};
ghost use Rattle.modulefile.specs.Judgments.{bad_edit, value_reason, values_of, names_reason, record_reason};
ghost use Rattle.modulefile.specs.Effects.{loaded_by, unloaded_by, edited};
ghost use Rattle.modulefile.specs.RecordViews.{record_view, mode_view};
ghost use Rattle.modulefile_run.specs.RecordAnswers.{IsJudged};

use envstate::paths::{End, add_path, drop_path, is_element};
use envstate::stacks::{pop_value, push_value};
use envvars::fields::slices;
use envvars::{EnvFault, Vars, is_nul_free, judge_name};
use modulefile::{Delimiter, Mode, PathEdit, Record, RecordFault};
use modulename::is_module_name;
use std::alloc::Global;

/// Refuses a variable that can't be edited, and then a value with NUL.
fn judge_value(alloc: Global, var: &str, value: Option<&str>) -> Result<(), RecordFault>
    ensures { IsJudged result
        (option_map bad_edit (value_reason var.now (values_of (option_map (λ v. v.now) value.entry)))) }
{
    judge_name(alloc, var)?;
    match value {
        Some(value) if !is_nul_free(value) => Err(RecordFault::Env(EnvFault::bad_value(
            alloc, var,
        ))),
        _ => Ok(()),
    }
}

/// Whether all texts are elements of a path.
fn are_elements(delim: Delimiter, texts: &[String]) -> bool
    ensures { result ≡ list_all (is_element delim.character) (map string_bytes texts.now) }
{
    let delim = delim.character;
    texts.iter().all(|text| is_element(delim, text.as_str()))
}

/// Refuses a variable that can't be edited, and then texts that aren't elements.
fn judge_path(
    alloc: Global,
    var: &str,
    delim: Delimiter,
    elements: &[String],
) -> Result<(), RecordFault>
    ensures { IsJudged result
        (option_map bad_edit (path_reason var.now delim.character (map string_bytes elements.now))) }
{
    judge_name(alloc, var)?;
    if !are_elements(delim, elements) {
        return Err(RecordFault::Env(EnvFault::bad_value(alloc, var)));
    }
    Ok(())
}

/// Refuses the first name of a module that is ill spelled.
fn judge_names(alloc: Global, names: &[String]) -> Result<(), RecordFault>
    ensures { IsJudged result (names_reason (map string_bytes names.now)) }
{
    for name in names {
        if !is_module_name(name.as_str()) {
            return Err(RecordFault::BadModuleName(String::from_str(alloc, name.as_str())?));
        }
    }
    Ok(())
}

/// Refuses a record that no environment would take.
pub(crate) fn judge(alloc: Global, recorded: &Record) -> Result<(), RecordFault>
    ensures { IsJudged result (record_reason (record_view recorded.now)) }
{
    match recorded {
        Record::Set { var, value } => judge_value(alloc, var, Some(value.as_str())),
        Record::Unset { var, value } => judge_value(alloc, var, value.as_deref()),
        Record::Push { var, value } => judge_value(alloc, var, Some(value.as_str())),
        Record::Path {
            delim,
            var,
            elements,
            ..
        } => judge_path(alloc, var, *delim, elements.as_slice()),
        Record::Conflict(names) => judge_names(alloc, names.as_slice()),
        Record::Prereq(names) => judge_names(alloc, names.as_slice()),
        Record::Whatis(_) => Ok(()),
    }
}

/// Adds elements to a path variable, at its front or its back.
fn add<V: Vars>(
    alloc: Global,
    env: &mut V,
    var: &str,
    delim: Delimiter,
    elements: &[String],
    end: End,
) -> Result<(), EnvFault>
    ensures edits { Edits result (V.vars env.old) (V.vars env.new)
        (added_path (V.vars env.old) var.now delim.character (map string_bytes elements.entry.now) end) }
    ensures base { V.base env.new ≡ V.base env.old }
{
    let slices = slices(alloc, elements)?;
    add_path(alloc, env, var, delim.character, slices.as_slice(), end)
}

/// Drops elements from a path variable.
fn drop<V: Vars>(
    alloc: Global,
    env: &mut V,
    var: &str,
    delim: Delimiter,
    elements: &[String],
) -> Result<(), EnvFault>
    ensures edits { Edits result (V.vars env.old) (V.vars env.new)
        (dropped_path (V.vars env.old) var.now delim.character (map string_bytes elements.entry.now)) }
    ensures base { V.base env.new ≡ V.base env.old }
{
    let slices = slices(alloc, elements)?;
    drop_path(alloc, env, var, delim.character, slices.as_slice())
}

/// Edits the environment as the load of a module with this record does.
fn load<V: Vars>(alloc: Global, owner: &str, recorded: &Record, env: &mut V) -> Result<(), EnvFault>
    ensures edits { Edits result (V.vars env.old) (V.vars env.new)
        (loaded_by owner.now (record_view recorded.now) (V.vars env.old)) }
    ensures base { V.base env.new ≡ V.base env.old }
{
    match recorded {
        Record::Set { var, value } => env.set(var, value),
        Record::Unset { var, .. } => env.unset(var),
        Record::Push { var, value } => push_value(alloc, env, var, owner, value),
        Record::Path {
            edit,
            delim,
            var,
            elements,
        } => match edit {
            PathEdit::Front => add(alloc, env, var, *delim, elements.as_slice(), End::Front),
            PathEdit::Back => add(alloc, env, var, *delim, elements.as_slice(), End::Back),
            PathEdit::Remove => drop(alloc, env, var, *delim, elements.as_slice()),
        },
        Record::Conflict(_) => Ok(()),
        Record::Prereq(_) => Ok(()),
        Record::Whatis(_) => Ok(()),
    }
}

/// Edits the environment as the unload of a module with this record does.
fn unload<V: Vars>(
    alloc: Global,
    owner: &str,
    recorded: &Record,
    env: &mut V,
) -> Result<(), EnvFault>
    ensures edits { Edits result (V.vars env.old) (V.vars env.new)
        (unloaded_by owner.now (record_view recorded.now) (V.vars env.old)) }
    ensures base { V.base env.new ≡ V.base env.old }
{
    match recorded {
        Record::Set { var, .. } => env.unset(var),
        Record::Unset { var, value } => match value {
            Some(value) => env.set(var, value),
            None => Ok(()),
        },
        Record::Push { var, .. } => pop_value(alloc, env, var, owner),
        Record::Path {
            edit,
            delim,
            var,
            elements,
        } => match edit {
            PathEdit::Front => drop(alloc, env, var, *delim, elements.as_slice()),
            PathEdit::Back => drop(alloc, env, var, *delim, elements.as_slice()),
            PathEdit::Remove => Ok(()),
        },
        Record::Conflict(_) => Ok(()),
        Record::Prereq(_) => Ok(()),
        Record::Whatis(_) => Ok(()),
    }
}

/// Edits the environment as a file with this record does in the mode: only loads and unloads change it.
pub(crate) fn edit<V: Vars>(
    alloc: Global,
    mode: Mode,
    owner: &str,
    recorded: &Record,
    env: &mut V,
) -> Result<(), EnvFault>
    ensures edits { Edits result (V.vars env.old) (V.vars env.new)
        (edited (mode_view mode) owner.now (record_view recorded.now) (V.vars env.old)) }
    ensures base { V.base env.new ≡ V.base env.old }
{
    match mode {
        Mode::Load => load(alloc, owner, recorded, env),
        Mode::Unload => unload(alloc, owner, recorded, env),
        Mode::Display => Ok(()),
        Mode::Whatis => Ok(()),
    }
}
