//! What is said of modules that were loaded or unloaded with those that were asked for.
ghost use Rattle.std.specs.Prelude.{◌≡◌, ◌++◌, map, reverse, string_bytes, IfOk, OnOk};
ghost use Rattle.std.specs.List.{flat_map};
ghost use Rattle.envvars.specs.Texts.{slice_texts, texts_in};
ghost use Rattle.envstate.specs.loaded_list.LoadedEntries.{entry_view};
ghost use Rattle.modulename.specs.ModuleName.{means};
ghost use Rattle.module_auto.specs.Said as spec;

use crate::answer::AutomaticAnswer;
use envstate::loaded_list::Loaded;
use envvars::fields::slices;
use modulename::means;
use requests::last_meant;
use std::alloc::{AllocError, Global};

/// Whether one of the names means the module.
fn is_meant(names: &[String], full: &str) -> bool
    ensures { result ≡ spec.is_meant (map string_bytes names.now) full.now }
{
    names.iter().any(|name| means(name.as_str(), full))
}

/// Adds names, each behind a blank.
fn push_names(line: &mut String, names: &[&str]) -> Result<(), AllocError>
    ensures { OnOk result (string_bytes line.new ≡ string_bytes line.old
        ++ flat_map spec.behind_blank (slice_texts names.now)) }
{
    for name in names {
        line.push(' ')?;
        line.push_str(name)?;
    }
    Ok(())
}

/// The line `DOING ASKED with MORE`; nothing where there are no more.
fn with_line(
    alloc: Global,
    doing: &str,
    asked: &[&str],
    more: &[&str],
) -> Result<String, AllocError>
    ensures { IfOk result (λ line. string_bytes line
        ≡ spec.with_line doing.now (slice_texts asked.now) (slice_texts more.now)) }
{
    let mut line = String::new(alloc);
    if more.is_empty() {
        return Ok(line);
    }
    line.push_str(doing)?;
    push_names(&mut line, asked)?;
    line.push_str(" with")?;
    push_names(&mut line, more)?;
    line.push('\n')?;
    Ok(line)
}

/// Whether a module was put in: an added name means it, and none that was asked for.
fn is_put_in(asked: &[String], added: &[String], full: &str) -> bool
    ensures { result ≡ spec.is_put_in (map string_bytes asked.now) (map string_bytes added.now) full.now }
{
    is_meant(added, full) && !is_meant(asked, full)
}

/// Whether a module was put in, or whether it wasn't.
fn is_chosen(asked: &[String], added: &[String], put_in: bool, full: &str) -> bool
    ensures { result ≡ spec.is_chosen (map string_bytes asked.now) (map string_bytes added.now) put_in full.now }
{
    if put_in {
        is_put_in(asked, added, full)
    } else {
        !is_put_in(asked, added, full)
    }
}

/// Those of the loaded modules that were put in, or the others.
fn loaded_with<'a>(
    alloc: Global,
    asked: &[String],
    added: &[String],
    loaded: &'a [String],
    put_in: bool,
) -> Result<Vec<&'a str>, AllocError>
    ensures { IfOk result (λ v. slice_texts v.items ≡ spec.loaded_with
        (map string_bytes asked.now) (map string_bytes added.now) put_in (map string_bytes loaded.entry.now)) }
{
    let mut names = Vec::new(alloc);
    for one in loaded {
        if is_chosen(asked, added, put_in, one.as_str()) {
            names.push(one.as_str())?;
        }
    }
    Ok(names)
}

/// The line that says which modules were loaded with those that were asked for; nothing where none was.
///
/// It fails for want of memory alone.
pub fn loading_line(
    alloc: Global,
    asked: &[String],
    answer: &AutomaticAnswer,
) -> Result<String, AllocError>
    ensures { IfOk result (λ line. string_bytes line ≡ spec.loading_line (map string_bytes asked.now)
        (texts_in answer.now.added) (texts_in answer.now.loaded)) }
{
    let added = answer.added.as_slice();
    let loaded = answer.loaded.as_slice();
    let named = loaded_with(alloc, asked, added, loaded, false)?;
    let more = loaded_with(alloc, asked, added, loaded, true)?;
    with_line(alloc, "Loading", named.as_slice(), more.as_slice())
}

/// The full names of the loaded modules that names mean, the last one of each name.
fn meant_modules<'a>(
    alloc: Global,
    entries: &'a [Loaded],
    names: &[String],
) -> Result<Vec<&'a str>, AllocError>
    ensures { IfOk result (λ v. slice_texts v.items
        ≡ spec.meant_modules (map entry_view entries.entry.now) (map string_bytes names.now)) }
{
    let mut modules = Vec::new(alloc);
    for name in names {
        if let Some(entry) = last_meant(entries, name.as_str()) {
            modules.push(entry.name.as_str())?;
        }
    }
    Ok(modules)
}

/// The names that were put in, each of them in front of all: the last one first.
fn in_turn(alloc: Global, added: &[String]) -> Result<Vec<&str>, AllocError>
    ensures { IfOk result (λ v. slice_texts v.items ≡ reverse (map string_bytes added.entry.now)) }
{
    let mut names = slices(alloc, added)?;
    names.reverse();
    Ok(names)
}

/// The line that says which modules were unloaded with those that were asked for, of the modules that were loaded;
/// nothing where none was.
///
/// It fails for want of memory alone.
pub fn unloading_line(
    alloc: Global,
    entries: &[Loaded],
    asked: &[String],
    answer: &AutomaticAnswer,
) -> Result<String, AllocError>
    ensures { IfOk result (λ line. string_bytes line ≡ spec.unloading_line (map entry_view entries.now)
        (map string_bytes asked.now) (texts_in answer.now.added)) }
{
    let named = meant_modules(alloc, entries, asked)?;
    let more = in_turn(alloc, answer.added.as_slice())?;
    with_line(alloc, "Unloading", named.as_slice(), more.as_slice())
}
