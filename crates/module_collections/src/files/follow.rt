//! Where paths lead by links.
ghost use Rattle.std.specs.Prelude.{◌≡◌, IfOk, IfSome, string_bytes};
ghost use Rattle.std.specs.Option.{option_map};
ghost use Rattle.module_collections.specs.files.Entries.{end_of, leads};
ghost use Rattle.module_collections.specs.files.Calls.{InEach, Narrows};
ghost use Rattle.module_collections.specs.files.PathKind.{IsSeen, path_in};

use crate::files::paths::behind;
use crate::files::storage::{PathKind, Storage, StorageFault};
use std::alloc::Global;

/// How many links are followed at most.
const MAX_LINKS: usize = 40;

/// Where links end.
#[derive(Drop)]
pub(crate) struct LinkEnd {
    /// The path.
    pub(crate) path: String,
    /// What is there, which is no link.
    pub(crate) seen: PathKind,
}

/// Where a path leads, through so many links at most; `None` where there are more.
fn follow<S: Storage>(
    alloc: Global,
    storage: &mut S,
    path: String,
    left: usize,
) -> Result<Option<LinkEnd>, StorageFault>
    ensures narrows { Narrows (S.agrees storage.old) (S.agrees storage.new) }
    ensures path { IfOk result (λ found. InEach (S.agrees storage.new) (λ entries.
        leads left entries (string_bytes path) ≡ option_map path_in found)) }
    ensures seen { IfOk result (λ found. IfSome found (λ end. InEach (S.agrees storage.new) (λ entries.
        IsSeen end.seen (entries (string_bytes end.path))))) }
{
    match storage.look(path.as_str())? {
        PathKind::Link(target) => {
            if left == 0 {
                return Ok(None);
            }
            let next = behind(alloc, path.as_str(), target.as_str())?;
            follow(alloc, storage, next, left - 1)
        }
        seen => Ok(Some(LinkEnd { path, seen })),
    }
}

/// Where a path leads by links; `None` where there are too many, as in a ring.
pub(crate) fn end_of<S: Storage>(
    alloc: Global,
    storage: &mut S,
    path: &str,
) -> Result<Option<LinkEnd>, StorageFault>
    ensures narrows { Narrows (S.agrees storage.old) (S.agrees storage.new) }
    ensures path { IfOk result (λ found. InEach (S.agrees storage.new) (λ entries.
        end_of entries path.now ≡ option_map path_in found)) }
    ensures seen { IfOk result (λ found. IfSome found (λ end. InEach (S.agrees storage.new) (λ entries.
        IsSeen end.seen (entries (string_bytes end.path))))) }
{
    let path = String::from_str(alloc, path)?;
    follow(alloc, storage, path, MAX_LINKS)
}
