//! Asks the system for files and directories, and says what its answers make known of a path.
ghost use Rattle.std.specs.Prelude.{◌≡◌, true, false, Ok, IfErr, IfOk, IfSome};
ghost use Rattle.std.specs.Option.{ForSome};
ghost use Rattle.filetree.specs.Known.{IsAnswered, IsBegun, IsLoaded, SaysNoLess, has_directory, has_file};
ghost use Rattle.filetree.specs.Known.{is_read_in_part, is_unlisted};
ghost use Rattle.filetree.specs.Systems.{IsFault, IsFileThere, IsLooked, WasDirectory, WasFile, is_directory, is_file};

use crate::begun::OpenFile;
use crate::known::KnownPath;
use crate::look::{PathKind, look};
use crate::names::list;
use crate::prefix::{MOST, Prefix, first_bytes, has_same_prefix};
use crate::system::System;
use crate::tree::TreeFault;
use std::io::Read;

/// The whole file at a path where one was.
fn read_file<S: System + AllocGlobal>(system: &S, path: &str) -> Result<Vec<u8>, TreeFault>
    requires { WasFile (S.answers system.now) path.now }
    ensures bytes { IfOk result (λ bytes. IsFileThere (S.answers system.now) path.now bytes.items) }
    ensures fault { IfErr result (IsFault (S.answers system.now) path.now) }
{
    let mut file = system.open(path)?;
    let mut bytes = Vec::new(system.alloc());
    file.read_to_end(&mut bytes)?;
    Ok(bytes)
}

/// What is at a path where this is, whose file is read whole. Only a file is opened, since opening a pipe or a device
/// can wait without end.
#[tactic(auto, using(crate::proofs::WasThere::file_looked))]
fn file_of_kind<S: System + AllocGlobal>(
    system: &S,
    path: &str,
    path_kind: PathKind,
) -> Result<KnownPath, TreeFault>
    requires { IsLooked (S.answers system.now) path.now (Ok path_kind) }
    ensures answered { IsLoaded (S.answers system.now) path.now result }
    ensures file { IfOk result (λ known. has_file known ≡ is_file path_kind) }
    ensures directory { IfOk result (λ known. has_directory known ≡ is_directory path_kind) }
    ensures whole { IfOk result (λ known. is_read_in_part known ≡ false) }
{
    match path_kind {
        PathKind::File => Ok(KnownPath::WholeFile(read_file(system, path)?)),
        PathKind::Directory => Ok(KnownPath::Directory),
        PathKind::Nothing | PathKind::Other => Ok(KnownPath::Neither),
    }
}

/// What is at a path, whose file is read whole.
pub(crate) fn load_file<S: System + AllocGlobal>(
    system: &S,
    path: &str,
) -> Result<KnownPath, TreeFault>
    ensures answered { IsLoaded (S.answers system.now) path.now result }
    ensures whole { IfOk result (λ known. is_read_in_part known ≡ false) }
{
    let path_kind = look(system, path)?;
    file_of_kind(system, path, path_kind)
}

/// The whole file at a path where one was: the one that was begun, where that is at this path.
fn read_on<S: System + AllocGlobal>(
    system: &S,
    path: &str,
    begun: Option<OpenFile<S::File>>,
) -> Result<Vec<u8>, TreeFault>
    requires was { WasFile (S.answers system.now) path.now }
    requires begun { ForSome begun (λ begun. ∥ IsBegun S.File.remaining (S.answers system.now) begun ∥₁) }
    ensures bytes { IfOk result (λ bytes. ∥ IsFileThere (S.answers system.now) path.now bytes.items ∥₁) }
    ensures fault { IfErr result (λ fault. ∥ IsFault (S.answers system.now) path.now fault ∥₁) }
{
    if let Some(begun) = begun {
        if begun.is_at(path) {
            return Ok(begun.whole(system.alloc())?);
        }
    }
    read_file(system, path)
}

/// The whole file at a path, of which these first bytes were read before. It is read on where it is the one that was
/// begun.
///
/// It fails with `Device` where the file does not begin with them.
pub(crate) fn load_rest<S: System + AllocGlobal>(
    system: &S,
    path: &str,
    prefix: &Prefix,
    begun: Option<OpenFile<S::File>>,
) -> Result<KnownPath, TreeFault>
    requires was { WasFile (S.answers system.now) path.now }
    requires begun { ForSome begun (λ begun. ∥ IsBegun S.File.remaining (S.answers system.now) begun ∥₁) }
    ensures answered { ∥ IsLoaded (S.answers system.now) path.now result ∥₁ }
    ensures whole { IfOk result (λ known. is_read_in_part known ≡ false) }
    ensures same_prefix { IfOk result (λ known. SaysNoLess known (KnownPath.File prefix.now)) }
{
    let bytes = read_on(system, path, begun)?;
    if has_same_prefix(&bytes, prefix) {
        Ok(KnownPath::WholeFile(bytes))
    } else {
        Err(TreeFault::Device)
    }
}

/// The file at a path where one was, of which the first `size` bytes are read. One that is shorter is read whole, and so
/// is one of which more is asked for than is kept as a prefix.
fn start_of_file<S: System + AllocGlobal>(
    system: &S,
    path: &str,
    size: usize,
) -> Result<KnownPath, TreeFault>
    requires { WasFile (S.answers system.now) path.now }
    ensures answered { IsLoaded (S.answers system.now) path.now result }
    ensures file { IfOk result (λ known. has_file known ≡ true) }
    ensures directory { IfOk result (λ known. has_directory known ≡ false) }
{
    if size <= MOST {
        let mut file = system.open(path)?;
        if let Some(prefix) = first_bytes(&mut file, size)? {
            return Ok(KnownPath::File(prefix));
        }
    }
    Ok(KnownPath::WholeFile(read_file(system, path)?))
}

/// What is at a path where this is, of whose file the first `size` bytes are read; more than are kept as a prefix are not
/// read without the rest.
#[tactic(auto, using(crate::proofs::WasThere::file_looked))]
fn prefix_of_kind<S: System + AllocGlobal>(
    system: &S,
    path: &str,
    path_kind: PathKind,
    size: usize,
) -> Result<KnownPath, TreeFault>
    requires { IsLooked (S.answers system.now) path.now (Ok path_kind) }
    ensures answered { IsLoaded (S.answers system.now) path.now result }
    ensures file { IfOk result (λ known. has_file known ≡ is_file path_kind) }
    ensures directory { IfOk result (λ known. has_directory known ≡ is_directory path_kind) }
{
    match path_kind {
        PathKind::File => start_of_file(system, path, size),
        PathKind::Directory => Ok(KnownPath::Directory),
        PathKind::Nothing | PathKind::Other => Ok(KnownPath::Neither),
    }
}

/// What is at a path, of whose file the first `size` bytes are read.
pub(crate) fn load_prefix<S: System + AllocGlobal>(
    system: &S,
    path: &str,
    size: usize,
) -> Result<KnownPath, TreeFault>
    ensures { IsLoaded (S.answers system.now) path.now result }
{
    let path_kind = look(system, path)?;
    prefix_of_kind(system, path, path_kind, size)
}

/// What is at a path where a directory is likely: that is listed at once, since no other thing is opened so. Of a file
/// the first `size` bytes are read.
pub(crate) fn load_likely_directory<S: System + AllocGlobal>(
    system: &S,
    path: &str,
    size: usize,
) -> Result<KnownPath, TreeFault>
    ensures { IsLoaded (S.answers system.now) path.now result }
{
    match list(system, path) {
        Ok(names) => Ok(KnownPath::Listing(names)),
        Err(_) => load_prefix(system, path, size),
    }
}

/// What is at a path, and the file there where its first bytes were read.
#[derive(Drop)]
pub(crate) struct FileStart<F: Read + Drop> {
    pub(crate) known: KnownPath,
    pub(crate) begun: Option<OpenFile<F>>,
}

/// The file at a path where one was, of which the first `size` bytes are read, and which stays open. One that is shorter
/// is read whole, and so is one of which more is asked for than is kept as a prefix.
fn begin_file<S: System + AllocGlobal>(
    system: &S,
    path: &str,
    size: usize,
) -> Result<FileStart<S::File>, TreeFault>
    requires { WasFile (S.answers system.now) path.now }
    ensures answered { IfOk result (λ start. IsAnswered (S.answers system.now) path.now start.known) }
    ensures begun { IfOk result (λ start. IfSome start.begun (IsBegun S.File.remaining (S.answers system.now))) }
    ensures fault { IfErr result (IsFault (S.answers system.now) path.now) }
{
    if size <= MOST {
        let file = system.open(path)?;
        if let Some(begun) = OpenFile::begin(system.alloc(), path, file, size)? {
            return Ok(FileStart {
                known: KnownPath::File(begun.prefix),
                begun: Some(begun),
            });
        }
    }
    Ok(FileStart {
        known: KnownPath::WholeFile(read_file(system, path)?),
        begun: None,
    })
}

/// What is at a path, of whose file the first `size` bytes are read, and which stays open.
#[tactic(auto, using(crate::proofs::WasThere::file_looked))]
pub(crate) fn load_begun<S: System + AllocGlobal>(
    system: &S,
    path: &str,
    size: usize,
) -> Result<FileStart<S::File>, TreeFault>
    ensures answered { IfOk result (λ start. IsAnswered (S.answers system.now) path.now start.known) }
    ensures begun { IfOk result (λ start. IfSome start.begun (IsBegun S.File.remaining (S.answers system.now))) }
    ensures fault { IfErr result (IsFault (S.answers system.now) path.now) }
{
    let known = match look(system, path)? {
        PathKind::File => return begin_file(system, path, size),
        PathKind::Directory => KnownPath::Directory,
        PathKind::Nothing | PathKind::Other => KnownPath::Neither,
    };
    Ok(FileStart { known, begun: None })
}

/// The directory at a path where one was, with its names.
pub(crate) fn load_names<S: System + AllocGlobal>(
    system: &S,
    dir: &str,
) -> Result<KnownPath, TreeFault>
    requires { WasDirectory (S.answers system.now) dir.now }
    ensures answered { IsLoaded (S.answers system.now) dir.now result }
    ensures directory { IfOk result (λ known. SaysNoLess known KnownPath.Directory) }
    ensures listed { IfOk result (λ known. is_unlisted known ≡ false) }
{
    Ok(KnownPath::Listing(list(system, dir)?))
}

/// What is at a path where this is, whose directory is listed. Of a file nothing is read.
#[tactic(auto, using(crate::proofs::WasThere::directory_looked, crate::proofs::WasThere::file_looked))]
fn listing_of_kind<S: System + AllocGlobal>(
    system: &S,
    dir: &str,
    path_kind: PathKind,
) -> Result<KnownPath, TreeFault>
    requires { IsLooked (S.answers system.now) dir.now (Ok path_kind) }
    ensures answered { IsLoaded (S.answers system.now) dir.now result }
    ensures file { IfOk result (λ known. has_file known ≡ is_file path_kind) }
    ensures directory { IfOk result (λ known. has_directory known ≡ is_directory path_kind) }
    ensures listed { IfOk result (λ known. is_unlisted known ≡ false) }
{
    match path_kind {
        PathKind::Directory => Ok(KnownPath::Listing(list(system, dir)?)),
        PathKind::File => Ok(KnownPath::File(Prefix::new(0, &[]))),
        PathKind::Nothing | PathKind::Other => Ok(KnownPath::Neither),
    }
}

/// What is at a path, whose directory is listed where a look shows one.
fn look_and_list<S: System + AllocGlobal>(system: &S, dir: &str) -> Result<KnownPath, TreeFault>
    ensures answered { IsLoaded (S.answers system.now) dir.now result }
    ensures listed { IfOk result (λ known. is_unlisted known ≡ false) }
{
    let path_kind = look(system, dir)?;
    listing_of_kind(system, dir, path_kind)
}

/// What is at a path, whose directory is listed at once, since no other thing is opened so.
pub(crate) fn load_listing<S: System + AllocGlobal>(
    system: &S,
    dir: &str,
) -> Result<KnownPath, TreeFault>
    ensures answered { IsLoaded (S.answers system.now) dir.now result }
    ensures listed { IfOk result (λ known. is_unlisted known ≡ false) }
{
    match list(system, dir) {
        Ok(names) => Ok(KnownPath::Listing(names)),
        Err(_) => look_and_list(system, dir),
    }
}
