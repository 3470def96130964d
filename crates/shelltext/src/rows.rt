//! Worked examples: texts, and the changes that a shell reads in them. `cases_environment` tests more of them.
ghost use Rattle.std.specs.Prelude.{[], ◌∷◌, Some, None, codes};
ghost use Rattle.envvars.specs.Texts.{Text};
ghost use Rattle.shelltext.specs.declared.shell.Shell.TheVariants.{Sh, Zsh, Csh, Tcsh, Fish};
ghost use Rattle.shelltext.specs.Reading.{TextSays};

/// Values between quotes: with bytes that need a backslash, and empty ones.
pub fn value_rows()
    ensures sh { TextSays Sh (codes "FOO='on'; export FOO;\n") ((codes "FOO", Some (codes "on")) ∷ []) }
    ensures sh_empty { TextSays Sh (codes "N=''; export N;\n") ((codes "N", Some []) ∷ []) }
    ensures sh_quote { TextSays Zsh (codes "Q='it'\\''s!'; export Q;\n") ((codes "Q", Some (codes "it's!")) ∷ []) }
    ensures csh { TextSays Csh (codes "setenv N 'a'\\!'b\\';\n") ((codes "N", Some (codes "a!b\\")) ∷ []) }
    ensures csh_quote { TextSays Tcsh (codes "setenv Q 'it'\\''s';\n") ((codes "Q", Some (codes "it's")) ∷ []) }
    ensures fish { TextSays Fish (codes "set -xg N 'a!b\\\\';\n") ((codes "N", Some (codes "a!b\\")) ∷ []) }
    ensures fish_quote { TextSays Fish (codes "set -xg Q 'it\\'s';\n") ((codes "Q", Some (codes "it's")) ∷ []) }
{}

/// Variables that are unset, no line at all, and a value that no text says.
pub fn line_rows()
    ensures nothing { TextSays Sh [] [] }
    ensures sh { TextSays Sh (codes "unset FOO;\nunset N;\n") ((codes "FOO", None) ∷ (codes "N", None) ∷ []) }
    ensures csh { TextSays Csh (codes "unsetenv FOO;\n") ((codes "FOO", None) ∷ []) }
    ensures fish { TextSays Fish (codes "set -e FOO;\n") ((codes "FOO", None) ∷ []) }
    ensures csh_newline { (text : Text) → TextSays Csh text ((codes "N", Some (codes "a\nb")) ∷ []) → ⊥ }
{}
