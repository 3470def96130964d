//! The search for the module that a name means, with the path of its file (module(1)).
ghost use Rattle.std.specs.Prelude.{◌≡◌, ◌<◌, false};
ghost use Rattle.modulename.specs.ModuleName.{is_module_name};
ghost use Rattle.filetree.specs.Agreement.{FailsWhere, ReadsOn};
ghost use Rattle.search.specs.Looked.{LooksAt};
ghost use Rattle.search.specs.Answers.{FindAnswersOverTree, is_failure};
ghost use Rattle.lookup.specs.DefaultFileResults.{HasResult};
ghost use Rattle.lookup.specs.Located.{Located};
ghost use Rattle.lookup.specs.LocatedViews.{located_module_view};

use crate::evaluated::EvaluatedDefaultFiles;
use filetree::Tree;
use search::FindFault;
use std::alloc::Global;
use tclrules::Limits;

/// A module that was found, without its text.
#[derive(Debug, Drop)]
pub struct Found {
    /// The module's full name, as `foo/1.0`.
    pub name: String,
    /// The path of its modulefile: the directory as MODULEPATH spells it, `/`, and the name.
    pub path: String,
}

/// Finds the module that a name means, in the first directory of MODULEPATH, a list parted by colons, that gives one. A
/// directory gives the modulefile at directory, `/`, name; or else, where a folder is there with files that begin with
/// `#%Module`, the one of these that its default files name (`.modulerc`, or else `.version`, each evaluated within the
/// limits), or else the greatest in version order.
///
/// It fails with `BadName` exactly where the name is ill-spelled, before anything is read; with `NotFound` where no
/// directory gives a module; with `BadDefaultFile` where a default file of the folder that was meant has a fault;
/// with `NotUtf8` where the module found is not UTF-8; with `Device` only where the device failed in this call, at a
/// path that the search for this name looks at; and with `OutOfMemory`.
pub fn locate<T: Tree>(
    alloc: Global,
    tree: &mut T,
    modulepath: &str,
    name: &str,
    limits: Limits,
) -> Result<Found, FindFault>
    ensures reads { ReadsOn T.agrees T.failures tree.old tree.new }
    ensures over_tree { FindAnswersOverTree (T.agrees tree.new)
        (T.failures tree.old < T.failures tree.new) located_module_view result
        (λ files folders. Located (HasResult limits) files folders modulepath.now name.now) }
    ensures failed { FailsWhere is_failure T.agrees T.failed tree.old tree.new result (λ files folders.
        LooksAt (HasResult limits) files folders modulepath.now name.now) }
    ensures unread { is_module_name name.now ≡ false → tree.new ≡ tree.old }
{
    let default_files = EvaluatedDefaultFiles { limits };
    let module = search::locate(alloc, tree, &default_files, modulepath, name)?;
    Ok(Found {
        name: module.name,
        path: module.path,
    })
}
