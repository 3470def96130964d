//! What `use` and `unuse` make of MODULEPATH.
ghost use Rattle.std.specs.Prelude.{◌≡◌, IfOk, IfErr, OnOk, OnErr, map, not, string_bytes};
ghost use Rattle.std.specs.Option.{option_map};
ghost use Rattle.message.specs.Answers.{Gives};
ghost use Rattle.envvars.specs.Texts.{slice_texts};
ghost use Rattle.envvars.specs.Fields.{without_repeats};
ghost use Rattle.envvars.specs.Environment.{with_value};
ghost use Rattle.module_words.specs.modulepath.ModulePaths.{at_end, directories_in, is_short, modulepath, names_one, unused, used};
ghost use Rattle.module_words.specs.modulepath.Faults.{reason_of};
ghost use Rattle.module_words.specs.modulepath.Edits.{EditsPath, unused_text, used_text};
ghost use Rattle.module_words.specs.declared.modulepath.fault.ModulePathFault.TheVariants.{OutOfMemory};

use crate::modulepath::fault::ModulePathFault;
use envstate::paths::End;
use envvars::Vars;
use envvars::fields::{deduplicated, elements, join, slices, text_of_elements};
use indexmap::IndexSet;
use process::absolute_path;
use std::alloc::{AllocError, Global};

/// How many bytes `use` makes MODULEPATH at most: of a longer text a shell may hand on nothing to a program.
const MAX_LENGTH: usize = 100_000;

/// The name of the variable.
const MODULEPATH: &str = "MODULEPATH";

/// The directories of the variable's text.
fn directories_in(alloc: Global, text: Option<&str>) -> Result<Vec<&str>, AllocError>
    ensures { IfOk result (λ list. slice_texts list.items ≡ directories_in (option_map (λ t. t.now) text.entry)) }
{
    let mut list = elements(alloc, text)?;
    list.retain(|element| !element.is_empty());
    Ok(list)
}

/// Whether an element names one of these paths.
fn names_one(
    alloc: Global,
    working: Option<&str>,
    paths: &IndexSet<&str>,
    element: &str,
) -> Result<bool, AllocError>
    ensures { IfOk result (λ found. found
        ≡ names_one (option_map (λ w. w.now) working.entry) (slice_texts paths.now.keys) element.now) }
{
    match absolute_path(alloc, working, element)? {
        Some(path) => Ok(paths.contains(path.as_str())),
        None => Ok(false),
    }
}

/// The list without what names one of these paths.
fn unused<'a>(
    alloc: Global,
    working: Option<&str>,
    paths: &IndexSet<&str>,
    list: &[&'a str],
) -> Result<Vec<&'a str>, AllocError>
    ensures { IfOk result (λ kept. slice_texts kept.items
        ≡ unused (option_map (λ w. w.now) working.entry) (slice_texts paths.now.keys) (slice_texts list.now)) }
{
    let mut kept = Vec::with_capacity(alloc, list.len())?;
    for element in list {
        if !names_one(alloc, working, paths, element)? {
            kept.push(*element)?;
        }
    }
    Ok(kept)
}

/// The texts as a set.
fn set_of<'a>(alloc: Global, texts: &[&'a str]) -> Result<IndexSet<&'a str>, AllocError>
    ensures { IfOk result (λ set. slice_texts set.keys ≡ without_repeats (slice_texts texts.now)) }
{
    let mut set = IndexSet::with_capacity(alloc, texts.len())?;
    for text in texts {
        set.insert(*text)?;
    }
    Ok(set)
}

/// The paths at an end of the others.
fn at_end<'a>(
    end: End,
    paths: Vec<&'a str>,
    others: Vec<&'a str>,
) -> Result<Vec<&'a str>, AllocError>
    ensures { IfOk result (λ list. slice_texts list.items
        ≡ at_end end (slice_texts paths.entry.items) (slice_texts others.entry.items)) }
{
    let (mut first, last) = match end {
        End::Front => (paths, others),
        End::Back => (others, paths),
    };
    first.extend_from_slice(last.as_slice())?;
    Ok(first)
}

/// The list with the paths, each once, at an end, and no more where they stood.
fn used<'a>(
    alloc: Global,
    working: Option<&str>,
    end: End,
    paths: &'a [String],
    list: &[&'a str],
) -> Result<Vec<&'a str>, AllocError>
    ensures { IfOk result (λ new. slice_texts new.items
        ≡ used (option_map (λ w. w.now) working.entry) end (map string_bytes paths.entry.now) (slice_texts list.now)) }
{
    let slices = slices(alloc, paths)?;
    let once = deduplicated(alloc, slices.as_slice())?;
    let known = set_of(alloc, slices.as_slice())?;
    let others = unused(alloc, working, &known, list)?;
    Ok(at_end(end, once, others)?)
}

/// Whether a text is longer than a shell can hand on.
fn is_long(text: &Option<String>) -> bool
    ensures { result ≡ not (is_short (option_map string_bytes text.now)) }
{
    match text {
        Some(text) => text.len() > MAX_LENGTH,
        None => false,
    }
}

/// The text of the list after `use`.
fn used_text(
    alloc: Global,
    working: Option<&str>,
    end: End,
    paths: &[String],
    text: Option<&str>,
) -> Result<Option<String>, ModulePathFault>
    ensures { Gives reason_of (option_map string_bytes) result (used_text (option_map (λ w. w.now) working.entry) end
        (map string_bytes paths.now) (option_map (λ t. t.now) text.entry)) }
{
    let old = directories_in(alloc, text)?;
    let list = used(alloc, working, end, paths, old.as_slice())?;
    let text = text_of_elements(alloc, list.as_slice())?;
    if is_long(&text) {
        return Err(ModulePathFault::TooLong);
    }
    Ok(text)
}

/// The list without what names one of the paths.
fn unused_list<'a>(
    alloc: Global,
    working: Option<&str>,
    paths: &[String],
    list: &[&'a str],
) -> Result<Vec<&'a str>, AllocError>
    ensures { IfOk result (λ new. slice_texts new.items
        ≡ unused (option_map (λ w. w.now) working.entry) (map string_bytes paths.now) (slice_texts list.now)) }
{
    let slices = slices(alloc, paths)?;
    let known = set_of(alloc, slices.as_slice())?;
    Ok(unused(alloc, working, &known, list)?)
}

/// The text of the list after `unuse`.
fn unused_text(
    alloc: Global,
    working: Option<&str>,
    paths: &[String],
    text: Option<&str>,
) -> Result<Option<String>, ModulePathFault>
    ensures { Gives reason_of (option_map string_bytes) result (unused_text (option_map (λ w. w.now) working.entry)
        (map string_bytes paths.now) (option_map (λ t. t.now) text.entry)) }
{
    let old = directories_in(alloc, text)?;
    let list = unused_list(alloc, working, paths, old.as_slice())?;
    Ok(text_of_elements(alloc, list.as_slice())?)
}

/// Gives MODULEPATH this text, or unsets it.
fn set_path<V: Vars>(env: &mut V, text: Option<String>) -> Result<(), ModulePathFault>
    ensures ok { OnOk result (V.vars env.new ≡ with_value (V.vars env.old) modulepath (option_map string_bytes text)) }
    ensures err { OnErr result (V.vars env.new ≡ V.vars env.old) }
    ensures only { IfErr result (λ e. e ≡ OutOfMemory) }
    ensures base { V.base env.new ≡ V.base env.old }
{
    let set = match text {
        Some(text) => env.put(MODULEPATH, text),
        None => env.unset(MODULEPATH),
    };
    // Memory is all that it can want.
    match set {
        Ok(()) => Ok(()),
        Err(_) => Err(ModulePathFault::OutOfMemory),
    }
}

/// Puts absolute paths at an end of MODULEPATH, in their order and each once; what names one of them elsewhere in it
/// goes, however it is spelled, and so do empty elements.
///
/// The errors, after which the environment is unchanged: `TooLong`, where MODULEPATH would be longer than 100,000
/// bytes, and `OutOfMemory`.
pub fn use_directories<V: Vars>(
    alloc: Global,
    env: &mut V,
    working: Option<&str>,
    end: End,
    paths: &[String],
) -> Result<(), ModulePathFault>
    ensures edits { EditsPath result (V.vars env.old) (V.vars env.new) (used_text
        (option_map (λ w. w.now) working.entry) end (map string_bytes paths.now)) }
    ensures base { V.base env.new ≡ V.base env.old }
{
    let text = used_text(alloc, working, end, paths, env.get(MODULEPATH))?;
    set_path(env, text)
}

/// Takes what names one of these absolute paths out of MODULEPATH, however it is spelled, and empty elements; where no
/// directory is left, MODULEPATH is unset. The only error is `OutOfMemory`, after which the environment is unchanged.
pub fn unuse_directories<V: Vars>(
    alloc: Global,
    env: &mut V,
    working: Option<&str>,
    paths: &[String],
) -> Result<(), ModulePathFault>
    ensures edits { EditsPath result (V.vars env.old) (V.vars env.new) (unused_text
        (option_map (λ w. w.now) working.entry) (map string_bytes paths.now)) }
    ensures base { V.base env.new ≡ V.base env.old }
{
    let text = unused_text(alloc, working, paths, env.get(MODULEPATH))?;
    set_path(env, text)
}
