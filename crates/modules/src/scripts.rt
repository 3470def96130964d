//! The script in the file at a path: how a module that is loaded is read again.
ghost use Rattle.std.specs.Prelude.{◌≡◌, ◌<◌, string_bytes};
ghost use Rattle.filetree.specs.Agreement.{FailsAt, ReadsOn};
ghost use Rattle.filetree.specs.Modulefiles.{modulefile};
ghost use Rattle.filetree.specs.Relations.{Is};
ghost use Rattle.requests.specs.Steps.{script_at};
ghost use Rattle.modules.specs.Answers.{StepAnswersOverTree, is_failure};

use crate::refusal::Refusal;
use filetree::Tree;
use search::{FileContent, FindFault, read_modulefile};
use std::alloc::Global;

/// The script in the file at a path.
///
/// Errors: 54 where no file is there, 55 where it has no cookie, 46 where it isn't UTF-8; 43 where the device failed in
/// this call, at this path; want of memory (31, 41).
pub fn script_at<T: Tree>(alloc: Global, tree: &mut T, path: &str) -> Result<String, Refusal>
    ensures reads { ReadsOn T.agrees T.failures tree.old tree.new }
    ensures over_tree { StepAnswersOverTree (T.agrees tree.new) (T.failures tree.old < T.failures tree.new)
        (λ text. string_bytes text)
        result (λ files listings. Is (script_at path.now (modulefile (files path.now)))) }
    ensures failed { FailsAt is_failure (T.failed tree.old) (T.failed tree.new) result (λ at. at ≡ path.now) }
{
    match read_modulefile(tree, path)? {
        FileContent::Script(text) => Ok(text),
        FileContent::Absent => Err(Refusal::FileGone(String::from_str(alloc, path)?)),
        FileContent::NoCookie => Err(Refusal::NotAModulefile(String::from_str(alloc, path)?)),
        FileContent::NotUtf8 => Err(Refusal::Find(FindFault::NotUtf8(String::from_str(
            alloc, path,
        )?))),
    }
}
