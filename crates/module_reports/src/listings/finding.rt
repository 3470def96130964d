//! `is-avail`: whether the search finds a module.
ghost use Rattle.std.specs.Prelude.{◌≡◌, ◌<◌, ◌≤◌, [], map, string_bytes, IfOk, IfErr};
ghost use Rattle.filetree.specs.Agreement.{FailsWhere, InEachPair, ReadsOn};
ghost use Rattle.filetree.specs.Causes.{Applies};
ghost use Rattle.search.specs.Looked.{LooksAt};
ghost use Rattle.lookup.specs.DefaultFileResults.{HasResult};
ghost use Rattle.requests.specs.Steps.{modulepath};
ghost use Rattle.module_reports.specs.listings.Faults.{bad_arguments, cause_of, is_failure};
ghost use Rattle.module_reports.specs.listings.Finding as spec;

use crate::listings::fault::ListingFault;
use envvars::Env;
use filetree::Tree;
use filetree::hiding::{HidingTree, MOST_HIDDEN};
use lookup::locate;
use requests::modulepath;
use search::FindFault;
use std::alloc::Global;
use tclrules::Limits;

/// Whether the search finds a module that the name means.
fn is_found<T: Tree>(
    alloc: Global,
    tree: &mut T,
    modulepath: &str,
    name: &str,
    limits: Limits,
) -> Result<bool, ListingFault<'static>>
    ensures reads { ReadsOn T.agrees T.failures tree.old tree.new }
    ensures answer { IfOk result (λ found. InEachPair (T.agrees tree.new) (λ files folders.
        spec.IsFound (HasResult limits) files folders modulepath.now name.now found)) }
    ensures fault { IfErr result (λ e.
        Applies (cause_of e) (T.failures tree.old < T.failures tree.new) (λ reason. ⊥)) }
    ensures failed { FailsWhere is_failure T.agrees T.failed tree.old tree.new result (λ files folders.
        LooksAt (HasResult limits) files folders modulepath.now name.now) }
{
    match locate(alloc, tree, modulepath, name, limits) {
        Ok(_) => Ok(true),
        Err(FindFault::OutOfMemory) => Err(ListingFault::OutOfMemory),
        Err(FindFault::Device) => Err(ListingFault::Device),
        Err(_) => Ok(false),
    }
}

/// Whether the search finds a module for one of the names, which are searched in turn up to the first that means one.
fn is_one_found<T: Tree>(
    alloc: Global,
    tree: &mut T,
    modulepath: &str,
    names: &[String],
    limits: Limits,
) -> Result<bool, ListingFault<'static>>
    ensures reads { ReadsOn T.agrees T.failures tree.old tree.new }
    ensures answer { IfOk result (λ found. InEachPair (T.agrees tree.new) (λ files folders.
        spec.IsOneFound (HasResult limits) files folders modulepath.now (map string_bytes names.now) found)) }
    ensures fault { IfErr result (λ e.
        Applies (cause_of e) (T.failures tree.old < T.failures tree.new) (λ reason. ⊥)) }
    ensures failed { FailsWhere is_failure T.agrees T.failed tree.old tree.new result (λ files folders.
        spec.SearchesLookAt (HasResult limits) files folders modulepath.now (map string_bytes names.now)) }
{
    let [name, names @ ..] = names else {
        return Ok(false);
    };
    if is_found(alloc, tree, modulepath, name.as_str(), limits)? {
        return Ok(true);
    }
    is_one_found(alloc, tree, modulepath, names, limits)
}

/// Whether one of the names means a module that the search finds along MODULEPATH, as a load's does. Names are searched
/// in turn, and none after the first that means one; an ill-spelled name means none, nor does one whose search comes to
/// a default file with a fault, or to a modulefile that isn't UTF-8.
///
/// The errors: `BadArguments`, exactly where there is no name; `Device`, only where the device failed in this call, at a
/// path that such a search looks at; `OutOfMemory`.
pub fn is_available<T: Tree>(
    alloc: Global,
    env: &Env,
    names: &[String],
    tree: &mut T,
    limits: Limits,
) -> Result<bool, ListingFault<'static>>
    ensures reads { ReadsOn T.agrees T.failures tree.old tree.new }
    ensures answer { IfOk result (λ found. InEachPair (T.agrees tree.new) (λ files folders.
        spec.IsOneFound (HasResult limits) files folders (modulepath env.now) (map string_bytes names.now) found)) }
    ensures named { IfOk result (λ found. names.now ≡ [] → ⊥) }
    ensures fault { IfErr result (λ e. Applies (cause_of e) (T.failures tree.old < T.failures tree.new)
        (λ reason. (reason ≡ bad_arguments) × (names.now ≡ []))) }
    ensures failed { FailsWhere is_failure T.agrees T.failed tree.old tree.new result (λ files folders.
        spec.SearchesLookAt (HasResult limits) files folders (modulepath env.now) (map string_bytes names.now)) }
{
    if names.is_empty() {
        return Err(ListingFault::BadArguments);
    }
    is_one_found(alloc, tree, modulepath(env), names, limits)
}

/// Whether the search finds a module for one of the names where something can't be read: once, and again where what was
/// seen before can't be read any more.
fn is_one_found_without<T: Tree + Drop>(
    alloc: Global,
    tree: &mut HidingTree<T>,
    modulepath: &str,
    names: &[String],
    limits: Limits,
) -> Result<bool, ListingFault<'static>>
    ensures counts { T.failures tree.old.tree ≤ T.failures tree.new.tree }
    ensures answer { IfOk result (spec.FindsWithout (HasResult limits) (T.agrees tree.new.tree)
        (T.failed tree.new.tree) (T.failures tree.new.tree) modulepath.now
        (map string_bytes names.now)) }
    ensures fault { IfErr result (λ e. Applies (cause_of e) (1000 ≤ T.failures tree.new.tree) (λ reason. ⊥)) }
{
    for _ in 0..MOST_HIDDEN {
        match is_one_found(alloc, tree, modulepath, names, limits) {
            Err(ListingFault::Device) => {
                if !tree.hide_failed()? {
                    return Err(tree.fault_in_the_end().into());
                }
            }
            answer => return answer,
        }
    }
    Err(tree.fault_in_the_end().into())
}

/// As `is_available`, but a module that is found without what can't be read counts too.
///
/// The errors: `BadArguments`, exactly where there is no name; `Device`, only where the device failed in this call, and no
/// module is found elsewhere than at some paths or it has failed a thousand times in all; `OutOfMemory`.
pub fn is_available_where_readable<T: Tree + Drop>(
    alloc: Global,
    env: &Env,
    names: &[String],
    tree: &mut HidingTree<T>,
    limits: Limits,
) -> Result<bool, ListingFault<'static>>
    ensures answer { IfOk result (spec.FindsReadable (HasResult limits) (T.agrees tree.new.tree)
        (T.failed tree.new.tree) (T.failures tree.old.tree) (T.failures tree.new.tree)
        (modulepath env.now) (map string_bytes names.now)) }
    ensures named { IfOk result (λ found. names.now ≡ [] → ⊥) }
    ensures fault { IfErr result (λ e. Applies (cause_of e) ((T.failures tree.old.tree < T.failures tree.new.tree)
        × spec.FindsNothingReadable (HasResult limits) (T.agrees tree.new.tree)
        (T.failed tree.new.tree) (T.failures tree.new.tree)
        (modulepath env.now) (map string_bytes names.now))
        (λ reason. (reason ≡ bad_arguments) × (names.now ≡ []))) }
{
    if names.is_empty() {
        return Err(ListingFault::BadArguments);
    }
    match is_available(alloc, env, names, &mut tree.tree, limits) {
        Err(ListingFault::Device) => {
            if is_one_found_without(alloc, tree, modulepath(env), names, limits)? {
                Ok(true)
            } else {
                Err(ListingFault::Device)
            }
        }
        answer => answer,
    }
}
