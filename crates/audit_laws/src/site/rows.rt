//! Worked examples of the directories that records add to a site, computed from the definitions.
ghost use Rattle.std.specs.Prelude.{◌≡◌, [], ◌∷◌, codes, Some, None};
ghost use Rattle.modulefile.specs.Records.{Set, Unset, Push, Path};
ghost use Rattle.modulefile.specs.declared.records.PathEdit.TheVariants.{Front, Back, Remove};
ghost use Rattle.audit_laws.specs.site.Sites.{added_directories};

/// Elements that are added to MODULEPATH are directories of the site: at its front or its end, with whatever delimiter,
/// each read as a MODULEPATH is.
pub fn added_rows()
    ensures front { added_directories (Path Front 58 (codes "MODULEPATH") (codes "/b" ∷ codes "/a" ∷ []) ∷ [])
        ≡ codes "/b" ∷ codes "/a" ∷ [] }
    ensures both_ends { added_directories (Path Back 58 (codes "MODULEPATH") (codes "/a" ∷ [])
        ∷ Path Front 58 (codes "MODULEPATH") (codes "/b" ∷ []) ∷ []) ≡ codes "/a" ∷ codes "/b" ∷ [] }
    ensures other_delimiter { added_directories (Path Front 59 (codes "MODULEPATH") (codes "/a:/b" ∷ codes "/c" ∷ []) ∷ [])
        ≡ codes "/a" ∷ codes "/b" ∷ codes "/c" ∷ [] }
    ensures no_name { added_directories (Path Front 58 (codes "MODULEPATH") (codes "" ∷ codes "/a" ∷ []) ∷ [])
        ≡ codes "/a" ∷ [] }
{}

/// Other edits of MODULEPATH, and those of other variables, add none.
pub fn other_rows()
    ensures other_variable { added_directories (Path Front 58 (codes "PATH") (codes "/a" ∷ []) ∷ []) ≡ [] }
    ensures fixed { added_directories (Set (codes "MODULEPATH") (codes "/a")
        ∷ Unset (codes "MODULEPATH") (Some (codes "/b")) ∷ Unset (codes "MODULEPATH") None ∷ []) ≡ [] }
    ensures pushed { added_directories (Push (codes "MODULEPATH") (codes "/a") ∷ []) ≡ [] }
    ensures removed { added_directories (Path Remove 58 (codes "MODULEPATH") (codes "/a" ∷ []) ∷ []) ≡ [] }
{}
