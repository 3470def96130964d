//! Worked modulefiles with their outcomes in every environment, computed from the definitions. More stand in
//! `tests/core/modulefiles.txt`.
ghost use Rattle.std.specs.Prelude.{◌≡◌, [], ◌∷◌, codes, Some, None};
ghost use Rattle.tclrules.specs.Derivation.{LeftOut};
ghost use Rattle.modulefile.specs.Records.{Set, Unset, Path, Conflict, Prereq, Whatis};
ghost use Rattle.modulefile.specs.declared.records.PathEdit.TheVariants.{Front, Back};
ghost use Rattle.modulefile.specs.Reports.{show_text, whatis_text};
ghost use Rattle.modulefile.specs.Rows.{loading, unloading, showing, unchanged, sets, unsets, LeavesRecords};
ghost use Rattle.modulefile.specs.Rows.{asked_for, LeavesAsking, LeavesMessages, IsHalted, IsRefusedFor, FailsOnLine};

/// Records and effects, by mode.
pub fn file_rows()
    ensures load { LeavesRecords loading (codes "setenv K 1\nconflict k\n")
        (Set (codes "K") (codes "1") ∷ Conflict (codes "k" ∷ []) ∷ []) (sets (codes "K") (codes "1")) }
    ensures unload { LeavesRecords unloading (codes "setenv K 1\nconflict k\n")
        (Set (codes "K") (codes "1") ∷ Conflict (codes "k" ∷ []) ∷ []) (unsets (codes "K")) }
    ensures display { LeavesRecords showing (codes "setenv K 1\nconflict k\n")
        (Set (codes "K") (codes "1") ∷ Conflict (codes "k" ∷ []) ∷ []) unchanged }
    ensures unset_back { LeavesRecords unloading (codes "unsetenv LANG C")
        (Unset (codes "LANG") (Some (codes "C")) ∷ []) (sets (codes "LANG") (codes "C")) }
{}

/// Path commands and their delimiters.
pub fn path_rows()
    ensures delimiters { LeavesRecords showing (codes "prepend-path -d {;} Q {a:b;c}\nappend-path --delim=: Q a:b")
        (Path Front 59 (codes "Q") (codes "a:b" ∷ codes "c" ∷ [])
        ∷ Path Back 58 (codes "Q") (codes "a" ∷ codes "b" ∷ []) ∷ []) unchanged }
    ensures value_after { LeavesRecords showing (codes "prepend-path P -d a")
        (Path Front 58 (codes "P") (codes "-d" ∷ codes "a" ∷ []) ∷ []) unchanged }
{}

/// Questions, which the file has then asked, in their order and with their answers.
pub fn question_rows()
    ensures mode_unload { LeavesAsking unloading (codes "if {[module-info mode load]} {setenv X 1}")
        (asked_for (codes "module-info" ∷ codes "mode" ∷ codes "load" ∷ []) (codes "0") ∷ []) [] unchanged }
    ensures loaded { LeavesAsking loading
        (codes "setenv A [is-loaded gcc][is-loaded gc][is-loaded x gcc/9][is-loaded]")
        (asked_for (codes "is-loaded" ∷ codes "gcc" ∷ []) (codes "1")
        ∷ asked_for (codes "is-loaded" ∷ codes "gc" ∷ []) (codes "0")
        ∷ asked_for (codes "is-loaded" ∷ codes "x" ∷ codes "gcc/9" ∷ []) (codes "1")
        ∷ asked_for (codes "is-loaded" ∷ []) (codes "1") ∷ [])
        (Set (codes "A") (codes "1011") ∷ []) (sets (codes "A") (codes "1011")) }
    ensures getenv_shown { LeavesAsking showing (codes "setenv H [getenv HOME]")
        (asked_for (codes "getenv" ∷ codes "HOME" ∷ []) (codes "$HOME") ∷ [])
        (Set (codes "H") (codes "$HOME") ∷ []) unchanged }
{}

/// How files end, and their messages.
pub fn completion_rows()
    ensures messages { LeavesMessages loading (codes "puts stderr hi\nputs -nonewline stderr ho")
        (codes "hi\n" ∷ codes "ho" ∷ []) }
    ensures returns { LeavesRecords loading (codes "setenv A 1; return; setenv B 2")
        (Set (codes "A") (codes "1") ∷ []) (sets (codes "A") (codes "1")) }
    ensures error { FailsOnLine loading (codes "setenv A 1\n\nerror {no such thing}") (codes "no such thing") 4 21 21 }
{}

/// Files that are refused, by which number and for which name.
pub fn refused_rows()
    ensures protected { IsRefusedFor loading (codes "catch {setenv LOADEDMODULES x}") 33 (codes "LOADEDMODULES")
        9 16 }
    ensures field { IsHalted loading (codes "module-info nope x y") (LeftOut (codes "module-info nope")) 9 9 }
{}

/// The reports of `show` and `whatis`, whose words are written as a list of Tcl.
pub fn report_rows()
    ensures commands { show_text (codes "/m/d/1") (Whatis (codes "A B c")
        ∷ Path Back 58 (codes "P") (codes "/a" ∷ codes "/b" ∷ codes "/c" ∷ [])
        ∷ Prereq (codes "gcc" ∷ codes "icc" ∷ []) ∷ [])
        ≡ codes "/m/d/1:\nmodule-whatis {A B c}\nappend-path P /a:/b:/c\nprereq gcc icc\n" }
    ensures delimiter { show_text (codes "/m/dl/1") (Path Front 59 (codes "Q") (codes "a:b" ∷ codes "c" ∷ []) ∷ [])
        ≡ codes "/m/dl/1:\nprepend-path --delim {;} Q {a:b;c}\n" }
    ensures unset { show_text (codes "/m/lg/1") (Unset (codes "LANG") (Some (codes "C")) ∷ Unset (codes "X") None ∷ [])
        ≡ codes "/m/lg/1:\nunsetenv LANG C\nunsetenv X\n" }
    ensures described { whatis_text (codes "d/1")
        (Whatis (codes "A B c") ∷ Set (codes "A") [] ∷ Whatis (codes "E") ∷ [])
        ≡ codes "d/1: A B c\nd/1: E\n" }
{}
