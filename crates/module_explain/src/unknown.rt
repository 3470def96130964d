//! What is known of a name that isn't found.
ghost use Rattle.std.specs.Prelude.{◌≡◌, false, true, IfOk, IfSome};
ghost use Rattle.std.specs.Prelude.{◌<◌, IfErr};
ghost use Rattle.envvars.specs.Texts.{slice_texts};
ghost use Rattle.modules.specs.Answers.{cause_of};
ghost use Rattle.filetree.specs.Agreement.{FailsOnlyByDevice, Narrows, ReadsOn};
ghost use Rattle.requests.specs.Steps.{modulepath};
ghost use Rattle.module_explain.specs.Advised as spec;
ghost use Rattle.module_explain.specs.Alike.{respelled};
ghost use Rattle.module_explain.specs.Paths.{is_path};
ghost use Rattle.module_explain.specs.Views.{is_known};
ghost use Rattle.module_explain.specs.FailedPaths.{IsDeviceOnlyIf};

use crate::advice::Advice;
use crate::alike::{names_like, others, respelled};
use crate::known::{asked, known};
use crate::paths::line_of_path;
use crate::refused::RefusedRequest;
use filetree::{Tree, TreeFault};
use modulename::is_module_name;
use modules::Refusal;
use requests::modulepath;
use search::directories;

/// Whether one of the directories is there.
fn is_one_there<T: Tree>(tree: &mut T, directories: &[&str]) -> Result<bool, TreeFault>
    ensures narrows { Narrows (T.agrees tree.old) (T.agrees tree.new) }
    ensures cause { FailsOnlyByDevice (T.failures tree.old) (T.failures tree.new) result }
    ensures none { IfOk result (λ is. is ≡ false → spec.NoneIsThere (T.agrees tree.new) (slice_texts directories.now)) }
    ensures one { IfOk result (λ is. is ≡ true → spec.IsOneThere (T.agrees tree.new) (slice_texts directories.now)) }
{
    for directory in directories {
        if tree.entries(directory)?.is_some() {
            return Ok(true);
        }
    }
    Ok(false)
}

/// For a name that isn't found: that nothing is searched, or names that are like it.
///
/// It fails where memory ran out, or the device failed.
pub(crate) fn for_unknown<T: Tree>(
    refused: RefusedRequest<'_>,
    tree: &mut T,
    name: &str,
) -> Result<Option<Advice>, Refusal>
    ensures reads { ReadsOn T.agrees T.failures tree.old tree.new }
    ensures gave_up { IfErr result (λ refusal.
        IsDeviceOnlyIf (cause_of refusal) (T.failures tree.old < T.failures tree.new)) }
    ensures known { IfOk result (λ o. IfSome o (λ advice. is_known advice ≡ true)) }
    ensures fits { IfOk result (spec.ForUnknown (T.agrees tree.new) refused.entry.limits
        refused.entry.request.now.shell refused.entry.env.now (modulepath refused.entry.env.now) name.now) }
{
    let alloc = refused.alloc;
    let searched = modulepath(refused.env);
    if searched.is_empty() {
        let line =
            "No MODULEPATH is set: \"module use DIRECTORY\" adds one, and a site has its own in etc/modulespath.";
        return Ok(known(alloc, Some(line))?);
    }
    let directories = directories(alloc, searched)?;
    if !is_one_there(tree, directories.as_slice())? {
        let mut line = String::from_str(alloc, "None of the directories of MODULEPATH is there: ")?;
        line.push_str(searched)?;
        return Ok(known(alloc, Some(line.as_str()))?);
    }
    let names = names_like(alloc, tree, directories.as_slice(), name)?;
    let others = others(alloc, name, names.as_slice())?;
    Ok(asked(alloc, others.as_slice())?)
}

/// For an ill-spelled name: names that are like what it may stand for, if this is well spelled.
///
/// It fails where memory ran out, or the device failed.
fn for_misspelled<T: Tree>(
    refused: RefusedRequest<'_>,
    tree: &mut T,
    name: &str,
) -> Result<Option<Advice>, Refusal>
    ensures reads { ReadsOn T.agrees T.failures tree.old tree.new }
    ensures gave_up { IfErr result (λ refusal.
        IsDeviceOnlyIf (cause_of refusal) (T.failures tree.old < T.failures tree.new)) }
    ensures known { IfOk result (λ o. IfSome o (λ advice. is_known advice ≡ true)) }
    ensures fits { IfOk result (spec.ForMisspelled (T.agrees tree.new) refused.entry.limits
        refused.entry.request.now.shell refused.entry.env.now (modulepath refused.entry.env.now)
        (respelled name.now)) }
{
    let alloc = refused.alloc;
    let name = respelled(alloc, name)?;
    if !is_module_name(name.as_str()) {
        return Ok(None);
    }
    let directories = directories(alloc, modulepath(refused.env))?;
    let names = names_like(alloc, tree, directories.as_slice(), name.as_str())?;
    Ok(asked(alloc, names.as_slice())?)
}

/// For an ill-spelled name: for a path its name below a directory that is searched, and else names that are like what it
/// may stand for.
///
/// It fails where memory ran out, or the device failed.
pub(crate) fn for_bad_name<T: Tree>(
    refused: RefusedRequest<'_>,
    tree: &mut T,
    name: &str,
) -> Result<Option<Advice>, Refusal>
    ensures reads { ReadsOn T.agrees T.failures tree.old tree.new }
    ensures gave_up { IfErr result (λ refusal.
        IsDeviceOnlyIf (cause_of refusal) (T.failures tree.old < T.failures tree.new)) }
    ensures known { IfOk result (λ o. IfSome o (λ advice. is_known advice ≡ true)) }
    ensures fits { IfOk result (spec.ForPathOr (T.agrees tree.new) refused.entry.limits
        refused.entry.request.now.shell refused.entry.env.now (is_path name.now) (modulepath refused.entry.env.now)
        name.now) }
{
    if !name.starts_with('/') {
        return for_misspelled(refused, tree, name);
    }
    let alloc = refused.alloc;
    let directories = directories(alloc, modulepath(refused.env))?;
    let line = line_of_path(alloc, directories.as_slice(), name)?;
    Ok(known(alloc, Some(line.as_str()))?)
}
