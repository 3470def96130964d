//! What a user is told where a report or an unload comes to nothing.
ghost use Rattle.std.specs.Prelude.{◌≡◌, ◌++◌, find, map, not, string_bytes, IfOk, OnOk};
ghost use Rattle.std.specs.List.{flat_map, list_any};
ghost use Rattle.std.specs.Option.{option_map};
ghost use Rattle.envstate.specs.loaded_list.LoadedEntries.{entry_view};
ghost use Rattle.modulename.specs.ModuleName.{means};
ghost use Rattle.terminal.specs.text.Shown.{shown};
ghost use Rattle.module_reports.specs.listings.Hints as spec;

use envstate::loaded_list::Loaded;
use envvars::Env;
use envvars::fields::parts;
use modulename::means;
use requests::modulepath;
use std::alloc::{AllocError, Global};
use terminal::text::shown;

/// What is said where no name of a module has one of the texts.
#[tactic(auto, unfolding(crate::specs::listings::Hints::none_begins))]
fn none_begins(alloc: Global) -> Result<String, AllocError>
    ensures { IfOk result (λ line. string_bytes line ≡ spec.none_begins) }
{
    String::from_str(
        alloc,
        "No module begins so. \"avail\" takes the beginnings of names, as \"module avail gcc\", with small letters and capitals as they are; no patterns. \"avail -C\" takes any part of a name, and \"avail -i\" either letters.\n",
    )
}

/// What is said where no module is in the directories.
fn none_is_there(alloc: Global, directories: &str) -> Result<String, AllocError>
    ensures { IfOk result (λ line. string_bytes line ≡ spec.none_is_there directories.now) }
{
    let mut line = String::from_str(alloc, "No module is in the directories of MODULEPATH: ")?;
    line.push_str(&shown(alloc, directories)?)?;
    line.push('\n')?;
    Ok(line)
}

/// Whether one of the words is a text, and no option.
fn has_text(words: &[String]) -> bool
    ensures { result ≡ spec.has_text (map string_bytes words.now) }
{
    words.iter().any(|word| !word.as_str().starts_with('-'))
}

/// The line that says why `avail` with these words finds no module: no directory is searched, no name begins so, or no
/// module is in the directories.
///
/// It fails for want of memory alone.
pub fn why_none(alloc: Global, env: &Env, words: &[String]) -> Result<String, AllocError>
    ensures { IfOk result (λ line. string_bytes line ≡ spec.why_none env.now (map string_bytes words.now)) }
{
    let directories = modulepath(env);
    if directories.is_empty() {
        return String::from_str(alloc, "No MODULEPATH is set.\n");
    }
    if has_text(words) {
        return none_begins(alloc);
    }
    none_is_there(alloc, directories)
}

/// The directories that are searched, a line each.
///
/// It fails for want of memory alone.
pub fn directory_lines(alloc: Global, env: &Env) -> Result<String, AllocError>
    ensures { IfOk result (λ lines. string_bytes lines ≡ spec.directory_lines env.now) }
{
    let directories = parts(alloc, modulepath(env), ':')?;
    let mut lines = String::new(alloc);
    for directory in &directories {
        push_directory(&mut lines, directory)?;
    }
    Ok(lines)
}

/// Adds the line of a directory, where it has a name.
fn push_directory(lines: &mut String, directory: &str) -> Result<(), AllocError>
    ensures { OnOk result (string_bytes lines.new ≡ string_bytes lines.old ++ spec.directory_line directory.now) }
{
    if directory.is_empty() {
        return Ok(());
    }
    lines.push_str(directory)?;
    lines.push('\n')
}

/// Whether a name means one of the loaded modules.
fn is_loaded(entries: &[Loaded], name: &str) -> bool
    ensures { result ≡ list_any (λ x. means name.now x.name) (map entry_view entries.now) }
{
    entries.iter().any(|entry| means(name, entry.name.as_str()))
}

/// The first loaded module whose name begins with a text.
fn begun<'a>(entries: &'a [Loaded], name: &str) -> Option<&'a Loaded>
    ensures { option_map (λ x. entry_view x.now) result ≡ find (spec.begins name.now) (map entry_view entries.entry.now) }
{
    entries
        .iter()
        .find(|entry| entry.name.as_bytes().starts_with(name.as_bytes()))
}

/// Adds a text as a terminal shows it.
fn push_shown(alloc: Global, lines: &mut String, text: &str) -> Result<(), AllocError>
    ensures { OnOk result (string_bytes lines.new ≡ string_bytes lines.old ++ shown text.now) }
{
    let shown = shown(alloc, text)?;
    lines.push_str(shown.as_str())
}

/// Adds the line that a module is loaded, but not by this name.
fn push_but(alloc: Global, lines: &mut String, name: &str, other: &str) -> Result<(), AllocError>
    ensures { OnOk result (string_bytes lines.new ≡ string_bytes lines.old ++ spec.but_line name.now other.now) }
{
    lines.push_str("'")?;
    push_shown(alloc, lines, name)?;
    lines.push_str("' isn't loaded, but '")?;
    push_shown(alloc, lines, other)?;
    lines.push_str("' is.\n")
}

/// Adds what is said of a name: that a module is loaded whose name begins so, where the name means none.
fn push_hint(
    alloc: Global,
    lines: &mut String,
    entries: &[Loaded],
    name: &str,
) -> Result<(), AllocError>
    ensures { OnOk result (string_bytes lines.new ≡ string_bytes lines.old
        ++ spec.hint (map entry_view entries.now) name.now) }
{
    if name.is_empty() || is_loaded(entries, name) {
        return Ok(());
    }
    match begun(entries, name) {
        Some(other) => push_but(alloc, lines, name, other.name.as_str()),
        None => Ok(()),
    }
}

/// What is said of names that were to be unloaded, a line each: of each that means no loaded module the first whose name
/// begins so.
///
/// It fails for want of memory alone.
pub fn unload_hints(
    alloc: Global,
    entries: &[Loaded],
    names: &[String],
) -> Result<String, AllocError>
    ensures { IfOk result (λ lines. string_bytes lines
        ≡ flat_map (spec.hint (map entry_view entries.now)) (map string_bytes names.now)) }
{
    let mut lines = String::new(alloc);
    for name in names {
        push_hint(alloc, &mut lines, entries, name.as_str())?;
    }
    Ok(lines)
}
