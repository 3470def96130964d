//! The first bytes of files: read without the rest, and compared with what is read later.
ghost use Rattle.std.specs.Prelude.{◌≡◌, ◌≤◌, Some, List, ℕ, Option, take, IfOk, IfSome, true};
ghost use Rattle.std.specs.Io.KnownBytes.{Consumes};
ghost use Rattle.std.specs.Str.{bytes_eq};
ghost use Rattle.filetree.specs.Agreement.{HaveSamePrefix, begins_with};
ghost use Rattle.filetree.specs.Prefixes.{prefix_bytes};

use std::io;
use std::io::{ErrorKind, Read};

/// How many first bytes of a file are kept, at most.
pub(crate) const MOST: usize = 8;

/// The first bytes of a file, as far as they were asked for.
#[derive(Clone, Copy)]
pub(crate) struct Prefix {
    /// How many bytes were asked for, at most `MOST`.
    pub(crate) size: usize,
    /// Room for these bytes.
    room: [u8; MOST],
    /// So many bytes, or all of a file that has fewer.
    count: usize,
}

impl Prefix {
    /// A prefix of so many bytes, of which these are there.
    pub(crate) fn new(size: usize, bytes: &[u8]) -> Prefix
        ensures size { result.size ≡ size }
        ensures bytes { prefix_bytes result ≡ take MOST bytes.now }
    {
        let kept = first(bytes, MOST);
        let mut room = [0; MOST];
        room[..kept.len()].copy_from_slice(kept);
        Prefix {
            size,
            room,
            count: kept.len(),
        }
    }

    /// The bytes.
    pub(crate) fn bytes(&self) -> &[u8]
        ensures { result.now ≡ prefix_bytes self.entry.now }
    {
        first(&self.room, self.count)
    }

    /// Whether the file begins with these bytes, or `None` where too little of it was read to say.
    pub(crate) fn begins_with(&self, prefix: &[u8]) -> Option<bool>
        ensures { IfSome result (λ answer. (file : Option (List ℕ))
            → HaveSamePrefix self.now.size file (Some (prefix_bytes self.now)) → begins_with prefix.now file ≡ answer) }
    {
        if prefix.len() <= self.size {
            Some(self.bytes().starts_with(prefix))
        } else {
            None
        }
    }
}

/// So many first bytes of a reader, at most `MOST`, or `None` where it has fewer. No more is read.
pub(crate) fn first_bytes<F: Read>(file: &mut F, size: usize) -> io::Result<Option<Prefix>>
    requires { size ≤ MOST }
    ensures size { IfOk result (λ prefix. IfSome prefix (λ prefix. prefix.size ≡ size)) }
    ensures bytes { IfSome (F.remaining file.old) (λ bytes. IfOk result (λ prefix. IfSome prefix (λ prefix.
        prefix_bytes prefix ≡ take size bytes))) }
    ensures rest { IfOk result (λ prefix. IfSome prefix (λ prefix.
        Consumes (F.remaining file.old) (F.remaining file.new) (prefix_bytes prefix))) }
{
    let mut room = [0; MOST];
    match file.read_exact(&mut room[..size]) {
        Ok(()) => Ok(Some(Prefix {
            size,
            room,
            count: size,
        })),
        Err(e) if e.kind() == ErrorKind::UnexpectedEof => Ok(None),
        Err(e) => Err(e),
    }
}

/// The first bytes of a slice, at most `size`.
fn first(bytes: &[u8], size: usize) -> &[u8]
    ensures { result.now ≡ take size bytes.entry.now }
{
    if size < bytes.len() {
        &bytes[..size]
    } else {
        bytes
    }
}

/// Whether a file begins with the first bytes that were read before.
pub(crate) fn has_same_prefix(bytes: &[u8], prefix: &Prefix) -> bool
    ensures exact { result ≡ bytes_eq (take prefix.now.size bytes.now) (prefix_bytes prefix.now) }
    ensures same { result ≡ true → HaveSamePrefix prefix.now.size (Some bytes.now) (Some (prefix_bytes prefix.now)) }
{
    first(bytes, prefix.size) == prefix.bytes()
}
