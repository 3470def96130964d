//! Reading the list of loaded modules from its four variables.
ghost use Rattle.std.specs.Prelude.{◌≡◌, ◌==◌, ◌&&◌, ◌++◌, [], ◌∷◌, not, length, map, filter, bytes_eq, if◌then◌else◌};
ghost use Rattle.std.specs.Prelude.{OnOk, IfOk};
ghost use Rattle.std.specs.List.{list_all};
ghost use Rattle.std.specs.Option.{option_map, option_or};
ghost use Rattle.modulename.specs.ModuleName.{is_module_name};
ghost use Rattle.envvars.specs.Texts.{Text, slice_texts, texts_in};
ghost use Rattle.envstate.specs.loaded_list.LoadedTexts.{are_consistent, parts_of, is_element_of, first_element, words_in};
ghost use Rattle.envstate.specs.loaded_list.LoadedTexts.{conflicts_among, prereqs_among, names_of_group, has_names};
ghost use Rattle.envstate.specs.loaded_list.LoadedEntries.{element_in, GivesList, GivesOrInconsistent, groups_in, entry_view};
ghost use Rattle.envstate.specs.loaded_list.Loaded.{entry_from, entries_from, loaded_in, entry_named, conflicts_in, prereqs_in};

use crate::loaded_list::entry::Loaded;
use envvars::fields::{are_distinct, deduplicated, elements, owned, parts};
use envvars::{EnvFault, Vars};
use indexmap::IndexMap;
use modulename::is_module_name;
use std::alloc::{AllocError, Global};

/// The variable of the loaded modules' names, in load order.
pub(crate) const NAMES: &str = "LOADEDMODULES";

/// The variable of the paths of their modulefiles, in the same order.
pub(crate) const FILES: &str = "_LMFILES_";

/// The variable of what they conflict with: an element `module&name&name` for each that conflicts with some.
pub(crate) const CONFLICTS: &str = "__MODULES_LMCONFLICT";

/// The variable of what they need: an element `module&group&group` for each that needs some, a group being `name|name`.
pub(crate) const PREREQS: &str = "__MODULES_LMPREREQ";

/// The first element that a text has for each module. Later ones don't count.
type FirstElements<'a> = IndexMap<&'a str, &'a str>;

/// The words that are well spelled as names of modules; the others are passed over.
fn names_among<'a>(alloc: Global, words: &[&'a str]) -> Result<Vec<&'a str>, AllocError>
    ensures { IfOk result (λ v. v.items ≡ filter (λ word. is_module_name word.now) words.now) }
{
    words
        .iter()
        .copied()
        .filter(|word| is_module_name(word))
        .collect(alloc)
}

/// Whether each name is well spelled.
fn are_names(names: &[&str]) -> bool
    ensures { result ≡ list_all (λ name. is_module_name name.now) names.now }
{
    names.iter().all(|name| is_module_name(name))
}

/// Whether no path is empty.
fn are_paths(files: &[&str]) -> bool
    ensures { result ≡ list_all (λ file. not (length file.now == 0)) files.now }
{
    files.iter().all(|file| !file.is_empty())
}

/// Whether there are as many names as paths, each name is well spelled, and no path is empty.
fn are_well_spelled(names: &[&str], files: &[&str]) -> bool
    ensures { result ≡ (length names.now == length files.now && list_all (λ name. is_module_name name.now) names.now
        && list_all (λ file. not (length file.now == 0)) files.now) }
{
    names.len() == files.len() && are_names(names) && are_paths(files)
}

/// Whether the names and the paths are those of one list: there are as many, each is well spelled, and no name is there
/// twice.
fn are_consistent(alloc: Global, names: &[&str], files: &[&str]) -> Result<bool, AllocError>
    ensures { IfOk result (λ b. b ≡ are_consistent (slice_texts names.now) (slice_texts files.now)) }
{
    if !are_well_spelled(names, files) {
        return Ok(false);
    }
    if names.len() < 2 {
        return Ok(true);
    }
    are_distinct(alloc, names)
}

/// Enters the element of a module, unless the module has an earlier one.
fn enter_first_element<'a>(
    table: &mut FirstElements<'a>,
    module_name: &'a str,
    element: &'a str,
) -> Result<(), AllocError>
    ensures { OnOk result ((name : Text) → element_in table.new name ≡ option_or (element_in table.old name)
        (if bytes_eq name module_name.entry.now then Some element.entry.now else None)) }
{
    if table.get(module_name).is_none() {
        table.insert(module_name, element)?;
    }
    Ok(())
}

/// Enters an element for the module that it names before its `&`, unless the module has an earlier one. An element
/// without `&` is passed over.
fn enter_element<'a>(table: &mut FirstElements<'a>, element: &'a str) -> Result<(), AllocError>
    ensures { OnOk result ((name : Text) → element_in table.new name ≡ option_or (element_in table.old name)
        (if is_element_of name (parts_of element.entry.now) then Some element.entry.now else None)) }
{
    let Some((module, _)) = element.split_once('&') else {
        return Ok(());
    };
    enter_first_element(table, module, element)
}

/// The first element of each module.
fn first_elements<'a>(alloc: Global, elements: &[&'a str]) -> Result<FirstElements<'a>, AllocError>
    ensures { IfOk result (λ m. (name : Text) → element_in m name ≡ first_element name (slice_texts elements.now)) }
{
    let mut table = IndexMap::new(alloc);
    for element in elements {
        enter_element(&mut table, *element)?;
    }
    Ok(table)
}

/// The words of an element, which follow its first `&`.
fn words(alloc: Global, element: Option<&str>) -> Result<Vec<&str>, AllocError>
    ensures { IfOk result (λ v. slice_texts v.items ≡ words_in (option_map (λ t. t.now) element.entry)) }
{
    let Some(element) = element else {
        return Ok(Vec::new(alloc));
    };
    match element.split_once('&') {
        Some((_, words)) => parts(alloc, words, '&'),
        None => Ok(Vec::new(alloc)),
    }
}

/// The conflicts in an element, without repetitions.
fn conflict_names(alloc: Global, element: Option<&str>) -> Result<Vec<String>, AllocError>
    ensures { IfOk result (λ v. texts_in v ≡ conflicts_among (words_in (option_map (λ t. t.now) element.entry))) }
{
    let words = words(alloc, element)?;
    let names = names_among(alloc, words.as_slice())?;
    if names.len() < 2 {
        return owned(alloc, names.as_slice());
    }
    let names = deduplicated(alloc, names.as_slice())?;
    owned(alloc, names.as_slice())
}

/// Appends the group in a word, if it has names.
fn push_group(alloc: Global, groups: &mut Vec<Vec<String>>, word: &str) -> Result<(), AllocError>
    ensures { OnOk result (groups_in groups.new
        ≡ groups_in groups.old ++ filter has_names (names_of_group word.now ∷ [])) }
{
    let alternatives = parts(alloc, word, '|')?;
    let names = names_among(alloc, alternatives.as_slice())?;
    if names.is_empty() {
        return Ok(());
    }
    groups.push(owned(alloc, names.as_slice())?)?;
    Ok(())
}

/// The groups of names in the words.
fn groups_among(alloc: Global, words: &[&str]) -> Result<Vec<Vec<String>>, AllocError>
    ensures { IfOk result (λ v. groups_in v ≡ prereqs_among (slice_texts words.now)) }
{
    let mut groups = Vec::new(alloc);
    for word in words {
        push_group(alloc, &mut groups, *word)?;
    }
    Ok(groups)
}

fn prereq_groups(alloc: Global, element: Option<&str>) -> Result<Vec<Vec<String>>, AllocError>
    ensures { IfOk result (λ v. groups_in v ≡ prereqs_among (words_in (option_map (λ t. t.now) element.entry))) }
{
    let words = words(alloc, element)?;
    groups_among(alloc, words.as_slice())
}

/// The entry of a module with its path, and with the conflicts and prereqs in its elements.
fn entry(
    alloc: Global,
    name: &str,
    path: &str,
    conflicts: Option<&str>,
    prereqs: Option<&str>,
) -> Result<Loaded, AllocError>
    ensures { IfOk result (λ x. entry_view x ≡ entry_from name.now path.now (option_map (λ t. t.now) conflicts.entry)
        (option_map (λ t. t.now) prereqs.entry)) }
{
    Ok(Loaded {
        name: String::from_str(alloc, name)?,
        path: String::from_str(alloc, path)?,
        conflicts: conflict_names(alloc, conflicts)?,
        prereqs: prereq_groups(alloc, prereqs)?,
    })
}

/// An entry for each name with its path, and with the first elements of the module.
fn entries(
    alloc: Global,
    names: &[&str],
    files: &[&str],
    conflicts: &FirstElements<'_>,
    prereqs: &FirstElements<'_>,
) -> Result<Vec<Loaded>, AllocError>
    ensures { IfOk result (λ v. map entry_view v.items
        ≡ entries_from (element_in conflicts.now) (element_in prereqs.now) (slice_texts names.now) (slice_texts files.now)) }
{
    let mut entries = Vec::with_capacity(alloc, names.len())?;
    for (name, file) in names.iter().zip(files) {
        let conflicts = conflicts.get(*name).copied();
        let prereqs = prereqs.get(*name).copied();
        entries.push(entry(alloc, name, file, conflicts, prereqs)?)?;
    }
    Ok(entries)
}

/// An entry for each name with its path, where `conflicts` and `prereqs` are all the elements of these two variables.
fn entries_from_elements(
    alloc: Global,
    names: &[&str],
    files: &[&str],
    conflicts: &[&str],
    prereqs: &[&str],
) -> Result<Vec<Loaded>, AllocError>
    ensures { IfOk result (λ v. map entry_view v.items ≡ entries_from
        (λ name. first_element name (slice_texts conflicts.now))
        (λ name. first_element name (slice_texts prereqs.now)) (slice_texts names.now) (slice_texts files.now)) }
{
    let conflicts = first_elements(alloc, conflicts)?;
    let prereqs = first_elements(alloc, prereqs)?;
    entries(alloc, names, files, &conflicts, &prereqs)
}

/// The loaded modules in load order, read from `LOADEDMODULES`, `_LMFILES_`, `__MODULES_LMCONFLICT` and
/// `__MODULES_LMPREREQ` (module(1), ENVIRONMENT); none where the first two are inconsistent: there aren't as many names
/// as paths, a path is empty, or a name is empty, ill spelled or there twice. The texts of conflicts and prereqs are
/// never a reason: what is ill spelled in them is passed over.
pub fn loaded_if_consistent<V: Vars>(
    alloc: Global,
    env: &V,
) -> Result<Option<Vec<Loaded>>, AllocError>
    ensures { IfOk result (λ found. option_map (λ v. map entry_view v.items) found ≡ loaded_in (V.vars env.now)) }
{
    let names = elements(alloc, env.get(NAMES))?;
    let files = elements(alloc, env.get(FILES))?;
    if !are_consistent(alloc, names.as_slice(), files.as_slice())? {
        return Ok(None);
    }
    let conflicts = elements(alloc, env.get(CONFLICTS))?;
    let prereqs = elements(alloc, env.get(PREREQS))?;
    let entries = entries_from_elements(
        alloc,
        names.as_slice(),
        files.as_slice(),
        conflicts.as_slice(),
        prereqs.as_slice(),
    )?;
    Ok(Some(entries))
}

/// The loaded modules in load order, as `loaded_if_consistent` reads them.
///
/// The error is `Inconsistent` where that gives none, or `OutOfMemory`.
pub fn loaded<V: Vars>(alloc: Global, env: &V) -> Result<Vec<Loaded>, EnvFault>
    ensures { GivesList result (loaded_in (V.vars env.now)) }
{
    match loaded_if_consistent(alloc, env)? {
        Some(entries) => Ok(entries),
        None => Err(EnvFault::Inconsistent),
    }
}

/// A copy of the entry.
#[tactic(auto, using(crate::proofs::loaded_list::Copies::names_copied, crate::proofs::loaded_list::Copies::groups_copied))]
pub fn copy_entry(alloc: Global, entry: &Loaded) -> Result<Loaded, AllocError>
    ensures { IfOk result (λ x. entry_view x ≡ entry_view entry.now) }
{
    Ok(Loaded {
        name: String::from_str(alloc, entry.name.as_str())?,
        path: String::from_str(alloc, entry.path.as_str())?,
        conflicts: entry.conflicts.clone()?,
        prereqs: entry.prereqs.clone()?,
    })
}

/// A copy of the list.
pub fn copy_list(alloc: Global, list: &[Loaded]) -> Result<Vec<Loaded>, AllocError>
    ensures { IfOk result (λ v. map entry_view v.items ≡ map entry_view list.now) }
{
    let mut copies = Vec::new(alloc);
    for entry in list {
        copies.push(copy_entry(alloc, entry)?)?;
    }
    Ok(copies)
}

/// The entry of a module; none where it isn't in the list.
fn find<'a>(list: &'a [Loaded], name: &str) -> Option<&'a Loaded>
    ensures { option_map (λ x. entry_view x.now) result ≡ entry_named name.now (map entry_view list.entry.now) }
{
    list.iter().find(|entry| name == entry.name.as_str())
}

/// The names that a loaded module conflicts with, each once; none where it isn't loaded.
///
/// The error is `Inconsistent` where `loaded` answers so, or `OutOfMemory`.
#[tactic(auto, using(crate::proofs::loaded_list::Copies::names_copied))]
pub fn conflicts_of<V: Vars>(alloc: Global, env: &V, name: &str) -> Result<Vec<String>, EnvFault>
    ensures { GivesOrInconsistent texts_in result (conflicts_in (V.vars env.now) name.now) }
{
    let list = loaded(alloc, env)?;
    let Some(entry) = find(list.as_slice(), name) else {
        return Ok(Vec::new(alloc));
    };
    Ok(entry.conflicts.clone()?)
}

/// The groups of names of which a loaded module needs one each; none where it isn't loaded.
///
/// The error is `Inconsistent` where `loaded` answers so, or `OutOfMemory`.
#[tactic(auto, using(crate::proofs::loaded_list::Copies::groups_copied))]
pub fn prereqs_of<V: Vars>(alloc: Global, env: &V, name: &str) -> Result<Vec<Vec<String>>, EnvFault>
    ensures { GivesOrInconsistent groups_in result (prereqs_in (V.vars env.now) name.now) }
{
    let list = loaded(alloc, env)?;
    let Some(entry) = find(list.as_slice(), name) else {
        return Ok(Vec::new(alloc));
    };
    Ok(entry.prereqs.clone()?)
}
