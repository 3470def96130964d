//! Where the device failed.
ghost use Rattle.std.specs.Prelude.{◌≡◌, ◌<◌, false, true, map, string_bytes, IfErr, IfNone, IfOk, IfSome, Some};
ghost use Rattle.std.specs.List.{All};
ghost use Rattle.filetree.specs.Agreement.{FailsIf, Narrows, is_device};
ghost use Rattle.filetree.specs.declared.tree.TreeFault.TheVariants as faults;
ghost use Rattle.requests.specs.RequestViews.{action_view};
ghost use Rattle.modules.specs.transient_failures.Causes.{is_transient};
ghost use Rattle.modules.specs.Answers.{cause_of};
ghost use Rattle.module_explain.specs.FailedPaths.{IsAnswer, is_kept};

use envvars::Env;
use filetree::{SeenPath, Tree, TreeFault};
use modules::transient_failures::unless_transient;
use modules::{Refusal, Request, RequestChanges, run_changes};
use std::alloc::{AllocError, Global};
use tclrules::Limits;

/// A tree over another, which keeps the paths at which the device failed.
#[derive(Drop)]
struct WatchedTree<T: Tree + Drop> {
    tree: T,
    alloc: Global,
    /// The paths at which the device failed, in the order of the failures.
    failed: Vec<String>,
    /// The device has failed at each path that is kept.
    ghost failed_there: { All (λ path. T.failed tree path ≡ true) (map string_bytes failed.items) },
}

impl<T: Tree + Drop> WatchedTree<T> {
    /// The fault; where it is the device's, the path is kept. Without memory for it the fault is want of memory.
    fn keep(&mut self, path: &str, fault: TreeFault) -> TreeFault
        requires failed { fault ≡ faults.Device → T.failed self.old.tree path.now ≡ true }
        ensures tree { self.new.tree ≡ self.old.tree }
        ensures failed { FailsIf (is_device result) (is_kept self.old.failed) (is_kept self.new.failed)
            (λ at. at ≡ path.now) }
        ensures fault { result ≡ faults.Device → fault ≡ faults.Device }
    {
        match fault {
            TreeFault::OutOfMemory => TreeFault::OutOfMemory,
            TreeFault::Device => {
                let Ok(kept) = String::from_str(self.alloc, path) else {
                    return TreeFault::OutOfMemory;
                };
                if self.failed.push(kept).is_err() {
                    return TreeFault::OutOfMemory;
                }
                TreeFault::Device
            }
        }
    }
}

impl<T: Tree + Drop> Tree for WatchedTree<T> {
    ghost failures = { λ t. T.failures t.tree };

    ghost failed = { λ t. is_kept t.failed };

    ghost agrees = { λ t files listings. T.agrees t.tree files listings };

    fn read(&mut self, path: &str) -> Result<Option<Vec<u8>>, TreeFault> {
        match self.tree.read(path) {
            Ok(file) => Ok(file),
            Err(fault) => Err(self.keep(path, fault)),
        }
    }

    fn begins_with(&mut self, path: &str, prefix: &[u8]) -> Result<bool, TreeFault> {
        match self.tree.begins_with(path, prefix) {
            Ok(begins) => Ok(begins),
            Err(fault) => Err(self.keep(path, fault)),
        }
    }

    fn may_list(&self, path: &str) -> bool {
        self.tree.may_list(path)
    }

    fn see(&mut self, path: &str, prefix: &[u8]) -> Result<SeenPath, TreeFault> {
        match self.tree.see(path, prefix) {
            Ok(seen) => Ok(seen),
            Err(fault) => Err(self.keep(path, fault)),
        }
    }

    fn entries(&mut self, dir: &str) -> Result<Option<Vec<String>>, TreeFault> {
        match self.tree.entries(dir) {
            Ok(names) => Ok(names),
            Err(fault) => Err(self.keep(dir, fault)),
        }
    }

    ghost satisfiable = { λ t. T.satisfiable t.tree };
}

/// The path that was kept last; or nothing, where the request has an outcome.
///
/// It fails for want of memory.
fn answer(
    kept: Option<String>,
    outcome: Result<RequestChanges, Refusal>,
) -> Result<Option<String>, AllocError>
    ensures some { IfOk result (λ o. IfSome o (λ path. kept ≡ Some path)) }
    ensures none { IfOk result (λ o. IfNone o (IfErr outcome (λ refusal. is_transient (cause_of refusal) ≡ false))) }
{
    match (kept, unless_transient(outcome)) {
        (Some(path), _) => Ok(Some(path)),
        (None, Ok(_)) => Ok(None),
        (None, Err(_)) => Err(AllocError),
    }
}

/// The path at which the device fails in a request, if it does, and at which the request looks. Where it doesn't, the
/// request is accepted or has a reason.
///
/// It fails for want of memory.
pub fn failed_path<T: Tree + Drop>(
    alloc: Global,
    request: &Request,
    env: &Env,
    tree: T,
    limits: Limits,
) -> Result<Option<String>, AllocError>
    ensures { IfOk result (λ o. (last : T) × Narrows (T.agrees tree) (T.agrees last)
        × IsAnswer (T.agrees last) (T.failures tree < T.failures last) (T.failed last) limits request.now.shell env.now
        (action_view request.now.action) o) }
{
    let mut watched = WatchedTree {
        tree,
        alloc,
        failed: Vec::new(alloc),
    };
    let outcome = run_changes(alloc, request, env, &mut watched, limits);
    let mut kept = watched.failed;
    answer(kept.pop(), outcome)
}
