//! Laws of default files, of the search and of listings. The functions do nothing; their contracts are the theorems.
ghost use Rattle.std.specs.Prelude.{◌≡◌, [], ◌∷◌, codes, map, Some, None, List, Result};
ghost use Rattle.search.specs.DefaultVersions.{last_default};
ghost use Rattle.modulename.specs.ModuleName.{Text};
ghost use Rattle.filetree.specs.Agreement.{Files, Listings};
ghost use Rattle.search.specs.Reasons.{FindReason};
ghost use Rattle.search.specs.Found.{FoundModule, Found};
ghost use Rattle.search.specs.Listed.{Listing, Listed, selected_of};

use crate::default_files::DefaultFiles;

/// Worked examples: the version that `module-version` commands make the default of a folder.
pub fn rows_of_defaults()
    ensures named { last_default (codes "d/e") ((codes "module-version" ∷ codes "d/e/1" ∷ codes "default" ∷ [])
        ∷ (codes "module-version" ∷ codes "d/e/2" ∷ codes "old" ∷ []) ∷ []) ≡ Some (codes "1") }
    ensures last { last_default (codes "ver") ((codes "module-version" ∷ codes "ver/1" ∷ codes "default" ∷ [])
        ∷ (codes "module-version" ∷ codes "./2" ∷ codes "new" ∷ codes "default" ∷ []) ∷ []) ≡ Some (codes "2") }
    ensures slash { last_default (codes "ver") ((codes "module-version" ∷ codes "/3" ∷ codes "default" ∷ [])
        ∷ (codes "module-version" ∷ codes "other/2" ∷ codes "default" ∷ []) ∷ []) ≡ Some (codes "3") }
    ensures other { last_default (codes "ver") ((codes "module-version" ∷ codes "other/2" ∷ codes "default" ∷ [])
        ∷ []) ≡ None }
{}

/// For the same files and directories, a name along a MODULEPATH means one module at most, and there is one reason at
/// most why it means none.
pub fn one_found<D: DefaultFiles>(default_files: &D)
    ensures { (files : Files) (listings : Listings) (modulepath name : Text) (o p : Result FoundModule FindReason)
        → Found (D.results default_files.now) files listings modulepath name o
        → Found (D.results default_files.now) files listings modulepath name p → o ≡ p }
{
    let _ = default_files;
}

/// For the same files and directories, a MODULEPATH has one listing at most of the names that texts select.
pub fn one_listed<D: DefaultFiles>(default_files: &D)
    ensures { (files : Files) (listings : Listings) (texts : List Text) (modulepath : Text) (ls ks : List Listing)
        → Listed (D.results default_files.now) files listings texts modulepath ls
        → Listed (D.results default_files.now) files listings texts modulepath ks → ls ≡ ks }
{
    let _ = default_files;
}

/// The listing of the names that texts select is what they select of the listing of all names.
pub fn selected_of_all<D: DefaultFiles>(default_files: &D)
    ensures { (files : Files) (listings : Listings) (texts : List Text) (modulepath : Text) (ls : List Listing)
        → Listed (D.results default_files.now) files listings [] modulepath ls
        → Listed (D.results default_files.now) files listings texts modulepath (map (selected_of texts) ls) }
{
    let _ = default_files;
}
