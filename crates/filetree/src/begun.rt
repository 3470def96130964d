//! Files of which the first bytes were read, and which stay open, so that they can be read on.
ghost use Rattle.std.specs.Prelude.{◌≡◌, ◌≤◌, ◌++◌, IfOk, IfSome, string_bytes, take};
ghost use Rattle.std.specs.Io.Buffered.{reader_remaining};
ghost use Rattle.std.specs.Io.KnownBytes.{Consumes};
ghost use Rattle.std.specs.Str.{bytes_eq};
ghost use Rattle.filetree.specs.Prefixes.{prefix_bytes};

use crate::prefix::{MOST, Prefix, first_bytes};
use std::alloc::Global;
use std::io;
use std::io::{BufReader, Read};

/// How many bytes of a file are read at once: all of most modulefiles.
const AT_ONCE: usize = 4096;

/// A file that is open, of which the first bytes were read.
#[derive(Drop)]
pub(crate) struct OpenFile<F: Read + Drop> {
    /// The path by which it was opened.
    path: String,
    /// The bytes that were read.
    pub(crate) prefix: Prefix,
    /// The bytes after these.
    rest: BufReader<F>,
}

impl<F: Read + Drop> OpenFile<F> {
    /// Reads so many first bytes of a file, at most `MOST`, that was opened by this path. `None` where it has fewer.
    pub(crate) fn begin(
        alloc: Global,
        path: &str,
        file: F,
        size: usize,
    ) -> io::Result<Option<OpenFile<F>>>
        requires { size ≤ MOST }
        ensures path { IfOk result (λ begun. IfSome begun (λ begun. string_bytes begun.path ≡ path.now)) }
        ensures size { IfOk result (λ begun. IfSome begun (λ begun. begun.prefix.size ≡ size)) }
        ensures bytes { IfSome (F.remaining file) (λ bytes. IfOk result (λ begun. IfSome begun (λ begun.
            prefix_bytes begun.prefix ≡ take size bytes))) }
        ensures rest { IfOk result (λ begun. IfSome begun (λ begun.
            Consumes (F.remaining file) (reader_remaining F.remaining begun.rest) (prefix_bytes begun.prefix))) }
    {
        let path = String::from_str(alloc, path)?;
        let mut rest = BufReader::with_capacity(alloc, AT_ONCE, file)?;
        match first_bytes(&mut rest, size)? {
            None => Ok(None),
            Some(prefix) => Ok(Some(OpenFile { path, prefix, rest })),
        }
    }

    /// Whether this is the path by which it was opened.
    pub(crate) fn is_at(&self, path: &str) -> bool
        ensures { result ≡ bytes_eq (string_bytes self.now.path) path.now }
    {
        self.path.as_str() == path
    }

    /// The whole file: the bytes that were read, and all after these.
    pub(crate) fn whole(self, alloc: Global) -> io::Result<Vec<u8>>
        ensures { IfSome (reader_remaining F.remaining self.rest) (λ left. IfOk result (λ bytes.
            bytes.items ≡ prefix_bytes self.prefix ++ left)) }
    {
        let OpenFile {
            path: _,
            prefix,
            mut rest,
        } = self;
        let mut bytes = prefix.bytes().to_vec(alloc)?;
        rest.read_to_end(&mut bytes)?;
        Ok(bytes)
    }
}
