//! Default files of a site that aren't read, since they stand above each folder.
ghost use Rattle.std.specs.Prelude.{◌≡◌, ◌<◌, ◌++◌, map, IfOk, IfErr, OnOk, string_bytes};
ghost use Rattle.envvars.specs.Texts.{texts_in};
ghost use Rattle.filetree.specs.Agreement.{FailsAt, InEachPair, ReadsOn, listing_answer};
ghost use Rattle.modules.specs.Answers.{is_failure};
ghost use Rattle.audit_certificate.specs.RecordUses.{IsAmong};
ghost use Rattle.audit_site.specs.Unread as spec;
ghost use Rattle.audit_site.specs.Unread.{default_file_in, unread_among};
ghost use Rattle.audit_site.specs.WalkParts.{GivesUp};

use filetree::Tree;
use modules::Refusal;
use search::path_of;
use std::alloc::{AllocError, Global};

/// The name of a default file.
const DEFAULT_FILE: &str = ".modulerc";

/// Whether a default file is among the names in a directory; not, where no directory is there.
fn has_default_file(names: Option<Vec<String>>) -> bool
    ensures { result ≡ spec.has_default_file (listing_answer names) }
{
    match names {
        None => false,
        Some(names) => names.iter().any(|name| DEFAULT_FILE == name.as_str()),
    }
}

/// Whether a default file is in the directory.
///
/// Errors: a device that failed, at that path; want of memory.
fn is_there<T: Tree>(tree: &mut T, dir: &str) -> Result<bool, Refusal>
    ensures reads { ReadsOn T.agrees T.failures tree.old tree.new }
    ensures answer { IfOk result (λ there. InEachPair (T.agrees tree.new) (λ files listings.
        spec.has_default_file (listings dir.now) ≡ there)) }
    ensures cause { IfErr result (GivesUp (T.failures tree.old < T.failures tree.new)) }
    ensures failed { FailsAt is_failure (T.failed tree.old) (T.failed tree.new) result (λ at. at ≡ dir.now) }
{
    let names = tree.entries(dir)?;
    Ok(has_default_file(names))
}

/// Adds the path of the default file in a directory, if it is there.
fn add_if(
    alloc: Global,
    is_there: bool,
    dir: &str,
    found: &mut Vec<String>,
) -> Result<(), AllocError>
    ensures { OnOk result (map string_bytes found.new.items
        ≡ map string_bytes found.old.items ++ default_file_in is_there dir.now) }
{
    if is_there {
        found.push(path_of(alloc, dir, DEFAULT_FILE)?)?;
    }
    Ok(())
}

/// The paths of the default files in the directories themselves, in their order.
///
/// Errors: a device that failed, at the path of one of the directories; want of memory.
pub(crate) fn unread_default_files<T: Tree>(
    alloc: Global,
    tree: &mut T,
    dirs: &[String],
) -> Result<Vec<String>, Refusal>
    ensures reads { ReadsOn T.agrees T.failures tree.old tree.new }
    ensures answer { IfOk result (λ found. InEachPair (T.agrees tree.new) (λ files listings.
        texts_in found ≡ unread_among listings (map string_bytes dirs.now))) }
    ensures cause { IfErr result (GivesUp (T.failures tree.old < T.failures tree.new)) }
    ensures failed { FailsAt is_failure (T.failed tree.old) (T.failed tree.new) result (λ at.
        IsAmong at (map string_bytes dirs.now)) }
{
    let mut found = Vec::new(alloc);
    for dir in dirs {
        let there = is_there(tree, dir.as_str())?;
        add_if(alloc, there, dir.as_str(), &mut found)?;
    }
    Ok(found)
}
