//! With which names an automated load or unload ends that is refused: the refusal itself doesn't say what was put in.
ghost use Rattle.std.specs.Prelude.{map, string_bytes, IfOk};
ghost use Rattle.envvars.specs.Texts.{texts_in};
ghost use Rattle.filetree.specs.Agreement.{InEachPair, ReadsOn};
ghost use Rattle.requests.specs.Steps.{request_context_in};
ghost use Rattle.module_auto.specs.Refused.{BeginsLoad, EndsLoad, EndsUnload, IsInPlace};

use crate::finding::first_found;
use crate::plan::Plan;
use crate::requesting::{loaded, unload};
use crate::unloading::put_in_front;
use envvars::Env;
use filetree::Tree;
use message::texts::copies;
use modules::Refusal;
use shelltext::Shell;
use std::alloc::{AllocError, Global};
use tclrules::Limits;

/// What the last of these names lacks behind the others, where the search for it fails.
fn lacked<T: Tree>(
    alloc: Global,
    shell: Shell,
    names: &[String],
    env: &Env,
    behind: &Env,
    tree: &mut T,
    limits: Limits,
) -> Result<Option<String>, AllocError>
    ensures { ReadsOn T.agrees T.failures tree.old tree.new }
{
    let outcome = loaded(alloc, shell, names, env, tree, limits);
    let Err(Refusal::PrereqMissing(missing)) = outcome else {
        return Ok(None);
    };
    for name in &missing.names {
        let alone = vec![in alloc; name.clone()?]?;
        if first_found(alloc, alone.as_slice(), behind, tree, limits).is_err() {
            return Ok(Some(name.clone()?));
        }
    }
    Ok(None)
}

/// Names up to one that is refused.
#[derive(Drop)]
struct Tried {
    /// The names.
    names: Vec<String>,
    /// The environment that those before the last one make.
    behind: Env,
}

/// The names of a load of these, with what was put in, up to the one that is refused.
fn tried_names<T: Tree>(
    alloc: Global,
    shell: Shell,
    asked: &[String],
    env: &Env,
    tree: &mut T,
    limits: Limits,
) -> Result<Tried, Refusal>
    ensures reads { ReadsOn T.agrees T.failures tree.old tree.new }
    ensures ends { IfOk result (λ tried. InEachPair (T.agrees tree.new) (λ files listings.
        BeginsLoad (request_context_in limits shell files listings) env.now (map string_bytes asked.now)
        (texts_in tried.names))) }
{
    let mut plan = Plan {
        names: copies(alloc, asked)?,
        ready: 0,
        after: env.copy()?,
        added: Vec::new(alloc),
    };
    while plan.ready < plan.names.len() {
        let names = copies(alloc, &plan.names[..plan.ready + 1])?;
        let behind = plan.after.copy()?;
        match plan.advance(alloc, shell, env, tree, limits) {
            Ok(()) => {}
            Err(_) => return Ok(Tried { names, behind }),
        }
    }
    let names = copies(alloc, plan.names.as_slice())?;
    Ok(Tried {
        names,
        behind: plan.after.copy()?,
    })
}

/// The names, with this one in the place of the last.
fn in_its_place(names: Vec<String>, lacked: Option<String>) -> Result<Vec<String>, AllocError>
    ensures { IfOk result (λ others. IsInPlace (texts_in names) (texts_in others)) }
{
    let mut others = names;
    let Some(name) = lacked else {
        return Ok(others);
    };
    if others.pop().is_some() {
        others.push(name)?;
    }
    Ok(others)
}

/// The names of a load of these, with what was put in, up to the one that is refused. Where the search for what that
/// lacks fails, this stands in its place.
pub fn refused_load<T: Tree>(
    alloc: Global,
    shell: Shell,
    asked: &[String],
    env: &Env,
    tree: &mut T,
    limits: Limits,
) -> Result<Vec<String>, Refusal>
    ensures reads { ReadsOn T.agrees T.failures tree.old tree.new }
    ensures ends { IfOk result (λ names. InEachPair (T.agrees tree.new) (λ files listings.
        EndsLoad (request_context_in limits shell files listings) env.now (map string_bytes asked.now)
        (texts_in names))) }
{
    let tried = tried_names(alloc, shell, asked, env, tree, limits)?;
    let names = tried.names.as_slice();
    let name = lacked(alloc, shell, names, env, &tried.behind, tree, limits)?;
    Ok(in_its_place(tried.names, name)?)
}

/// The names of an unload of these that is refused, with what was put in front of them.
pub fn refused_unload<T: Tree>(
    alloc: Global,
    shell: Shell,
    asked: &[String],
    env: &Env,
    tree: &mut T,
    limits: Limits,
) -> Result<Vec<String>, Refusal>
    ensures reads { ReadsOn T.agrees T.failures tree.old tree.new }
    ensures ends { IfOk result (λ names. InEachPair (T.agrees tree.new) (λ files listings.
        EndsUnload (request_context_in limits shell files listings) env.now (map string_bytes asked.now)
        (texts_in names))) }
{
    let mut names = copies(alloc, asked)?;
    let mut added = Vec::new(alloc);
    'needing: loop {
        match unload(alloc, shell, names.as_slice(), env, tree, limits) {
            Ok(_) => return Ok(names),
            Err(refusal) => {
                let ended = copies(alloc, names.as_slice())?;
                match put_in_front(&mut names, &mut added, refusal) {
                    Ok(()) => {}
                    Err(_) => return Ok(ended),
                }
            }
        }
    }
}
