//! The folder and the directory of a module, by its name and the path of its file.
ghost use Rattle.std.specs.Prelude.{◌≡◌, true, MatchOption};
ghost use Rattle.envvars.specs.Texts.{Text};
ghost use Rattle.filetree.specs.Modulefiles.{path_of};
ghost use Rattle.search.specs.Single.{is_single};
ghost use Rattle.audit_site.specs.Folders.{IsInFolder};

/// The folder in which a module of this name is: what is before the last `/`. `None` where it is in none.
pub(crate) fn folder_of(name: &str) -> Option<&str>
    ensures { MatchOption result (is_single name.entry.now ≡ true) (λ folder. IsInFolder name.entry.now folder.now) }
{
    let (folder, _) = name.rsplit_once('/')?;
    Some(folder)
}

/// The directory below which a module of this name has its file at this path; `None` where there is no such directory.
pub(crate) fn directory_of<'a>(path: &'a str, name: &str) -> Option<&'a str>
    ensures { MatchOption result ((dir : Text) → path.entry.now ≡ path_of dir name.now → ⊥)
        (λ dir. path.entry.now ≡ path_of dir.now name.now) }
{
    path.strip_suffix(name)?.strip_suffix('/')
}
