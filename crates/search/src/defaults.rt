//! The default that the default files of a folder name: `.modulerc`, or else `.version` (modulefile(5)).
ghost use Rattle.std.specs.Prelude.{◌≡◌, map, Some, IfOk, string_bytes};
ghost use Rattle.filetree.specs.Agreement.{FailsAt, FailsWhere, InEachPair, Narrows, FailsOnlyByDevice, is_device};
ghost use Rattle.filetree.specs.Modulefiles.{path_of};
ghost use Rattle.search.specs.DefaultFiles.{Names, version_named};
ghost use Rattle.search.specs.Candidates.{IsCandidate, LooksAtVersion};
ghost use Rattle.search.specs.Found.{NamedDefault, default_file};
ghost use Rattle.search.specs.Looked.{LooksAtDefaultFile, LooksForNamed};
ghost use Rattle.search.specs.DefaultFileKinds.{file_name, says};
ghost use Rattle.search.specs.VersionsNamed.{named_version_view, IsCandidateIfAny, NamedBy};
ghost use Rattle.std.specs.Option.{option_map};
ghost use Rattle.search.specs.Ended.{ended_view};

use crate::default_files::{DefaultFileEnding, DefaultFiles};
use crate::module_files::is_module_in;
use crate::modulefile::{FileContent, read_modulefile};
use crate::paths::{has, path_in_folder};
use crate::version_named::DefaultFile;
use crate::versions::is_version;
use filetree::{Tree, TreeFault};
use std::alloc::{AllocError, Global};

/// What default files name.
#[derive(Debug, Drop)]
pub enum NamedVersion {
    /// They name no version, are absent, or have no cookie.
    Nothing,
    /// They name this version.
    Version(String),
    /// The default file at this path has a fault.
    BadFile(String),
}

/// The version that the default file at a path names, by the result of its evaluation; `None` there is an evaluation
/// with a fault.
fn version_named_in(
    alloc: Global,
    file: DefaultFile,
    name: &str,
    path: String,
    ended: Option<DefaultFileEnding>,
) -> Result<NamedVersion, AllocError>
    ensures { IfOk result (λ s.
        named_version_view s ≡ version_named (says file name.now) (string_bytes path) (option_map ended_view ended)) }
{
    let Some(ended) = ended else {
        return Ok(NamedVersion::BadFile(path));
    };
    match file.version_named(name, &ended) {
        None => Ok(NamedVersion::Nothing),
        Some(version) => Ok(NamedVersion::Version(String::from_str(alloc, version)?)),
    }
}

/// The version that a default file in the folder of a name names. The file is read and evaluated where it has the
/// cookie.
fn version_named_by<T: Tree, D: DefaultFiles>(
    alloc: Global,
    tree: &mut T,
    default_files: &D,
    dir: &str,
    name: &str,
    file: DefaultFile,
) -> Result<NamedVersion, TreeFault>
    ensures narrows { Narrows (T.agrees tree.old) (T.agrees tree.new) }
    ensures answer { IfOk result (λ s. InEachPair (T.agrees tree.new) (λ files listings.
        Names (D.results default_files.now) files (says file name.now)
        (default_file dir.now name.now (file_name file)) (named_version_view s))) }
    ensures cause { FailsOnlyByDevice (T.failures tree.old) (T.failures tree.new) result }
    ensures failed { FailsAt is_device (T.failed tree.old) (T.failed tree.new) result (λ at.
        at ≡ default_file dir.now name.now (file_name file)) }
{
    let path = path_in_folder(alloc, dir, name, file.file_name())?;
    match read_modulefile(tree, &path)? {
        FileContent::Absent | FileContent::NoCookie => Ok(NamedVersion::Nothing),
        FileContent::NotUtf8 => Ok(NamedVersion::BadFile(path)),
        FileContent::Script(text) => {
            let ended = default_files.evaluate(alloc, &path, &text)?;
            Ok(version_named_in(alloc, file, name, path, ended)?)
        }
    }
}

/// This version of a name, in whose folder are these entries, where it is a candidate; else `None`. Only for one of the
/// entries that can be a version is a file asked for.
fn candidate_of<T: Tree>(
    alloc: Global,
    tree: &mut T,
    dir: &str,
    name: &str,
    entries: &[String],
    version: String,
) -> Result<Option<String>, TreeFault>
    requires { InEachPair (T.agrees tree.old) (λ files listings.
        listings (path_of dir.now name.now) ≡ Some (map string_bytes entries.now)) }
    ensures narrows { Narrows (T.agrees tree.old) (T.agrees tree.new) }
    ensures answer { IfOk result (λ r. InEachPair (T.agrees tree.new) (λ files listings.
        IsCandidateIfAny (IsCandidate files listings dir.now name.now) (string_bytes version)
        (option_map string_bytes r))) }
    ensures cause { FailsOnlyByDevice (T.failures tree.old) (T.failures tree.new) result }
    ensures failed { FailsWhere is_device T.agrees T.failed tree.old tree.new result (λ files listings.
        LooksAtVersion listings dir.now name.now (string_bytes version)) }
{
    if !has(entries, &version) || !is_version(alloc, name, &version)? {
        return Ok(None);
    }
    if is_module_in(alloc, tree, dir, name, &version)? {
        Ok(Some(version))
    } else {
        Ok(None)
    }
}

/// The candidate that one of the default files in the folder of a name names, if it names one; a version that is no
/// candidate counts as none.
fn named_by<T: Tree, D: DefaultFiles>(
    alloc: Global,
    tree: &mut T,
    default_files: &D,
    dir: &str,
    name: &str,
    entries: &[String],
    file: DefaultFile,
) -> Result<NamedVersion, TreeFault>
    requires { InEachPair (T.agrees tree.old) (λ files listings.
        listings (path_of dir.now name.now) ≡ Some (map string_bytes entries.now)) }
    ensures narrows { Narrows (T.agrees tree.old) (T.agrees tree.new) }
    ensures answer { IfOk result (λ n. InEachPair (T.agrees tree.new) (λ files listings.
        NamedBy (D.results default_files.now) files listings dir.now name.now file (named_version_view n))) }
    ensures cause { FailsOnlyByDevice (T.failures tree.old) (T.failures tree.new) result }
    ensures failed { FailsWhere is_device T.agrees T.failed tree.old tree.new result (λ files listings.
        LooksAtDefaultFile (D.results default_files.now) files listings dir.now name.now
        (says file name.now) (file_name file)) }
{
    match version_named_by(alloc, tree, default_files, dir, name, file)? {
        NamedVersion::Version(version) => match candidate_of(
            alloc, tree, dir, name, entries, version,
        )? {
            None => Ok(NamedVersion::Nothing),
            Some(version) => Ok(NamedVersion::Version(version)),
        },
        no_version => Ok(no_version),
    }
}

/// The candidate that the default files in the folder of a name, with these entries, name: `.modulerc`, or else
/// `.version`, which isn't read where `.modulerc` names a candidate. A default file without the cookie has no effect,
/// nor has one that names no candidate.
///
/// It fails as the tree does, and for want of memory.
pub fn named_default<T: Tree, D: DefaultFiles>(
    alloc: Global,
    tree: &mut T,
    default_files: &D,
    dir: &str,
    name: &str,
    entries: &[String],
) -> Result<NamedVersion, TreeFault>
    requires { InEachPair (T.agrees tree.old) (λ files listings.
        listings (path_of dir.now name.now) ≡ Some (map string_bytes entries.now)) }
    ensures narrows { Narrows (T.agrees tree.old) (T.agrees tree.new) }
    ensures answer { IfOk result (λ n. InEachPair (T.agrees tree.new) (λ files listings.
        NamedDefault (D.results default_files.now) files listings dir.now name.now (named_version_view n))) }
    ensures cause { FailsOnlyByDevice (T.failures tree.old) (T.failures tree.new) result }
    ensures failed { FailsWhere is_device T.agrees T.failed tree.old tree.new result (λ files listings.
        LooksForNamed (D.results default_files.now) files listings dir.now name.now) }
{
    match named_by(
        alloc,
        tree,
        default_files,
        dir,
        name,
        entries,
        DefaultFile::Modulerc,
    )? {
        NamedVersion::Nothing => named_by(
            alloc,
            tree,
            default_files,
            dir,
            name,
            entries,
            DefaultFile::Version,
        ),
        named => Ok(named),
    }
}
