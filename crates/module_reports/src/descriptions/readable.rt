//! What `whatis` and `keyword` report of the modules that can be read.
ghost use Rattle.std.specs.Prelude.{◌≡◌, ◌<◌, ◌≤◌, ◌++◌, flat_map, map, string_bytes, IfOk, IfErr, OnOk};
ghost use Rattle.std.specs.Option.{option_map};
ghost use Rattle.filetree.specs.Causes.{Applies};
ghost use Rattle.modules.specs.Answers.{cause_of};
ghost use Rattle.module_reports.specs.descriptions.Readable.{IsReadableDescription, unreadable_line};

use crate::descriptions::ahead::read_ahead;
use crate::descriptions::describing::{Description, describe};
use envvars::Env;
use filetree::hiding::{HidingTree, MOST_HIDDEN};
use filetree::{Tree, TreeFault};
use modules::Refusal;
use requests::modulepath;
use search::FindFault;
use shelltext::Shell;
use std::alloc::{AllocError, Global};
use tclrules::Limits;

/// Adds the line of a path that can't be read.
fn push_line(text: &mut String, path: &str) -> Result<(), AllocError>
    ensures { OnOk result (string_bytes text.new ≡ string_bytes text.old ++ unreadable_line path.now) }
{
    text.push_str(path)?;
    text.push_str(": not readable")?;
    text.push('\n')
}

/// Adds a line of each path that can't be read.
fn push_unreadable(text: &mut String, paths: &[String]) -> Result<(), AllocError>
    ensures { OnOk result (string_bytes text.new
        ≡ string_bytes text.old ++ flat_map unreadable_line (map string_bytes paths.now)) }
{
    for path in paths {
        push_line(text, path.as_str())?;
    }
    Ok(())
}

/// Why there is no description where the device failed at a path that can't be hidden.
fn in_the_end<T: Tree + Drop>(tree: &HidingTree<T>) -> Refusal
    ensures { Applies (cause_of result) (1000 ≤ T.failures tree.now.tree) (λ reason. ⊥) }
{
    match tree.fault_in_the_end() {
        TreeFault::Device => Refusal::Find(FindFault::Device),
        TreeFault::OutOfMemory => Refusal::OutOfMemory,
    }
}

/// Describes all modules that can be loaded, or those whose report mentions a text, as `describe` does, but without what
/// can't be read: behind the modules that are left out it has a line of each such path. It describes once, and again where
/// what was seen before can't be read any more.
///
/// Errors: want of memory (31, 41), in one of the requests too; 43 where the device failed in this call, and a thousand
/// times in all.
pub fn describe_readable<T: Tree + Drop>(
    alloc: Global,
    shell: Shell,
    sought: Option<&str>,
    env: &Env,
    tree: &mut HidingTree<T>,
    limits: Limits,
) -> Result<Description, Refusal>
    ensures described { IfOk result (λ d. IsReadableDescription (T.agrees tree.new.tree)
        (T.failed tree.new.tree) (T.failures tree.new.tree) limits shell env.now
        (option_map (λ t. t.now) sought.entry) (string_bytes d.text) (string_bytes d.left_out)) }
    ensures fault { IfErr result (λ refusal. Applies (cause_of refusal)
        ((T.failures tree.old.tree < T.failures tree.new.tree) × (1000 ≤ T.failures tree.new.tree)) (λ reason. ⊥)) }
{
    read_ahead(alloc, &mut tree.tree, modulepath(env));
    for _ in 0..MOST_HIDDEN {
        match describe(alloc, shell, sought, env, tree, limits) {
            Ok(mut description) => {
                push_unreadable(&mut description.left_out, tree.hidden.as_slice())?;
                return Ok(description);
            }
            Err(Refusal::Find(FindFault::Device)) => {
                if !tree.hide_failed()? {
                    return Err(in_the_end(tree));
                }
            }
            Err(refusal) => return Err(refusal),
        }
    }
    Err(in_the_end(tree))
}
