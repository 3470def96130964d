//! The first of several alternatives that the search finds.
ghost use Rattle.std.specs.Prelude.{◌≡◌, ◌<◌, map, string_bytes, IfErr, IfOk};
ghost use Rattle.std.specs.Option.{option_map};
ghost use Rattle.filetree.specs.Agreement.{FailsWhere, InEachPair, ReadsOn};
ghost use Rattle.filetree.specs.Causes.{Applies};
ghost use Rattle.search.specs.Answers.{is_failure};
ghost use Rattle.search.specs.Answers as search;
ghost use Rattle.shelltext.specs.declared.shell.Shell.{Shell};
ghost use Rattle.requests.specs.Looked.{SearchLooksAt};
ghost use Rattle.requests.specs.Steps as steps;
ghost use Rattle.requests.specs.Steps.{request_context_in};
ghost use Rattle.module_auto.specs.Loads.{AnyLooksAt, FoundAmong};
ghost use Rattle.module_auto.specs.Views.{IsFoundOrMissed, is_reason};

use envvars::Env;
use envvars::fields::copy;
use filetree::Tree;
use lookup::EvaluatedDefaultFiles;
use requests::modulepath;
use search::{FindFault, locate};
use std::alloc::Global;
use tclrules::Limits;

/// Whether the fault is a reason in the files, and not want of memory or a failed device.
fn is_reason(fault: &FindFault) -> bool
    ensures { result ≡ is_reason (search.cause_of fault.now) }
{
    match fault {
        FindFault::OutOfMemory | FindFault::Device => false,
        FindFault::NotFound(_)
        | FindFault::BadName(_)
        | FindFault::BadDefaultFile(_)
        | FindFault::NotUtf8(_) => true,
    }
}

/// Whether the search finds a module that the name means.
fn is_found<T: Tree>(
    alloc: Global,
    name: &str,
    env: &Env,
    tree: &mut T,
    limits: Limits,
) -> Result<bool, FindFault>
    ensures reads { ReadsOn T.agrees T.failures tree.old tree.new }
    ensures found { IfOk result (λ is. InEachPair (T.agrees tree.new) (λ files listings. (shell : Shell)
        → IsFoundOrMissed (request_context_in limits shell files listings) env.now name.now is)) }
    ensures refused { IfErr result (λ fault.
        Applies (search.cause_of fault) (T.failures tree.old < T.failures tree.new) (λ reason. ⊥)) }
    ensures failed { FailsWhere is_failure T.agrees T.failed tree.old tree.new result (λ files listings at.
        (shell : Shell) → SearchLooksAt (request_context_in limits shell files listings) env.now name.now at) }
{
    let default_files = EvaluatedDefaultFiles { limits };
    match locate(alloc, tree, &default_files, modulepath(env), name) {
        Ok(_) => Ok(true),
        Err(fault) => {
            if is_reason(&fault) {
                Ok(false)
            } else {
                Err(fault)
            }
        }
    }
}

/// The first of the alternatives that the search finds in an environment; nothing where it finds none of them.
///
/// Errors: `OutOfMemory`, and `Device` where the device failed in this call.
pub fn first_found<T: Tree>(
    alloc: Global,
    alternatives: &[String],
    env: &Env,
    tree: &mut T,
    limits: Limits,
) -> Result<Option<String>, FindFault>
    ensures reads { ReadsOn T.agrees T.failures tree.old tree.new }
    ensures found { IfOk result (λ found. InEachPair (T.agrees tree.new) (λ files listings. (shell : Shell)
        → FoundAmong (request_context_in limits shell files listings) env.now (map string_bytes alternatives.now)
        (option_map string_bytes found))) }
    ensures refused { IfErr result (λ fault.
        Applies (search.cause_of fault) (T.failures tree.old < T.failures tree.new) (λ reason. ⊥)) }
    ensures failed { FailsWhere is_failure T.agrees T.failed tree.old tree.new result (λ files listings at.
        (shell : Shell) → AnyLooksAt (request_context_in limits shell files listings) env.now
        (map string_bytes alternatives.now) at) }
{
    for name in alternatives {
        if is_found(alloc, name.as_str(), env, tree, limits)? {
            return Ok(copy(alloc, Some(name.as_str()))?);
        }
    }
    Ok(None)
}
