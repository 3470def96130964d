//! What a path holds as a modulefile: the cookie `#%Module`, UTF-8, and the text (modulefile(5)).
ghost use Rattle.std.specs.Prelude.{◌≡◌, false, true, IfOk, None, Some};
ghost use Rattle.filetree.specs.Agreement.{FailsAt, InEachPair, FailsOnlyByDevice, Narrows, begins_with, is_device};
ghost use Rattle.filetree.specs.Modulefiles.{cookie, modulefile};
ghost use Rattle.search.specs.FileContents.{file_content_view};

use crate::module_files::COOKIE;
use filetree::{Tree, TreeFault};

/// What a path holds as a modulefile: a file that begins with `#%Module` (modulefile(5)).
#[derive(Debug, Drop)]
pub enum FileContent {
    /// No file is there.
    Absent,
    /// The file does not begin with `#%Module`.
    NoCookie,
    /// The file begins with `#%Module`, and is not UTF-8.
    NotUtf8,
    /// The text of the whole file.
    Script(String),
}

/// What the bytes of a whole file are as a modulefile, where they begin with the cookie.
fn modulefile_of(bytes: Vec<u8>) -> FileContent
    ensures { begins_with cookie (Some bytes.items) ≡ true
        → file_content_view result ≡ modulefile (Some bytes.items) }
{
    match String::from_utf8(bytes) {
        Ok(text) => FileContent::Script(text),
        Err(_) => FileContent::NotUtf8,
    }
}

/// What a path holds whose file, if there is one, does not begin with `#%Module`: no file, or one without the cookie.
fn absent_or_no_cookie<T: Tree>(tree: &mut T, path: &str) -> Result<FileContent, TreeFault>
    requires { InEachPair (T.agrees tree.old) (λ files listings. begins_with cookie (files path.now) ≡ false) }
    ensures narrows { Narrows (T.agrees tree.old) (T.agrees tree.new) }
    ensures answer { IfOk result (λ m. InEachPair (T.agrees tree.new)
        (λ files listings. modulefile (files path.now) ≡ file_content_view m)) }
    ensures cause { FailsOnlyByDevice (T.failures tree.old) (T.failures tree.new) result }
    ensures failed { FailsAt is_device (T.failed tree.old) (T.failed tree.new) result (λ at. at ≡ path.now) }
{
    if tree.begins_with(path, b"")? {
        Ok(FileContent::NoCookie)
    } else {
        Ok(FileContent::Absent)
    }
}

/// Reads what the path holds as a modulefile. A file that does not begin with `#%Module` is not read further.
///
/// It fails as the tree does.
pub fn read_modulefile<T: Tree>(tree: &mut T, path: &str) -> Result<FileContent, TreeFault>
    ensures narrows { Narrows (T.agrees tree.old) (T.agrees tree.new) }
    ensures answer { IfOk result (λ m. InEachPair (T.agrees tree.new)
        (λ files listings. modulefile (files path.now) ≡ file_content_view m)) }
    ensures cause { FailsOnlyByDevice (T.failures tree.old) (T.failures tree.new) result }
    ensures failed { FailsAt is_device (T.failed tree.old) (T.failed tree.new) result (λ at. at ≡ path.now) }
{
    if !tree.begins_with(path, COOKIE)? {
        return absent_or_no_cookie(tree, path);
    }
    match tree.read(path)? {
        None => Ok(FileContent::Absent),
        Some(bytes) => Ok(modulefile_of(bytes)),
    }
}
