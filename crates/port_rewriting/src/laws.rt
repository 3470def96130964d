//! Laws of translations: functions that do nothing, whose contracts are theorems about the definitions.
ghost use Rattle.std.specs.Prelude.{◌≡◌, ◌≢◌, Bool, List, String, true};
ghost use Rattle.std.specs.declared.alloc.Global.{Global};
ghost use Rattle.tcltext.specs.chars.Runs.{Text};
ghost use Rattle.port_rewriting.specs.Families.{is_among, is_excluded, ExcludesOthers};

/// Of two members of a family each is excluded by the conflict of the other.
pub fn families_are_symmetric()
    ensures { (is_member : Text → Bool) (modules : List Text) (one other : Text) (ones others : List (String Global))
        → one ≢ other → is_among one modules ≡ true → is_among other modules ≡ true
        → is_member one ≡ true → is_member other ≡ true
        → ExcludesOthers is_member modules one ones → ExcludesOthers is_member modules other others
        → (is_excluded ones other ≡ true) × (is_excluded others one ≡ true) }
{}
