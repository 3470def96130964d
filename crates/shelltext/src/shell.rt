//! The shells, their names and their families.
ghost use Rattle.std.specs.Prelude.{◌≡◌};
ghost use Rattle.shelltext.specs.Shells.{all_shells, family_of, shell_name, shell_named};

use crate::family::Family;

/// A shell for which text can be printed.
#[derive(Clone, Copy, Debug, PartialEq, Eq)]
pub enum Shell {
    Sh,
    Bash,
    Ksh,
    Zsh,
    Csh,
    Tcsh,
    Fish,
}

impl Shell {
    /// All shells, `sh` first.
    pub fn all() -> &'static [Shell]
        ensures { result.now ≡ all_shells }
    {
        &[
            Shell::Sh,
            Shell::Bash,
            Shell::Ksh,
            Shell::Zsh,
            Shell::Csh,
            Shell::Tcsh,
            Shell::Fish,
        ]
    }

    /// The name of the shell, as a command line gives it and `module-info shell` answers it (modulefile(5)).
    pub fn name(self) -> &'static str
        ensures { result.now ≡ shell_name self }
    {
        match self {
            Shell::Sh => "sh",
            Shell::Bash => "bash",
            Shell::Ksh => "ksh",
            Shell::Zsh => "zsh",
            Shell::Csh => "csh",
            Shell::Tcsh => "tcsh",
            Shell::Fish => "fish",
        }
    }

    /// The shell of this name, if there is one.
    pub fn named(word: &str) -> Option<Shell>
        ensures { result ≡ shell_named word.now }
    {
        match word {
            "sh" => Some(Shell::Sh),
            "bash" => Some(Shell::Bash),
            "ksh" => Some(Shell::Ksh),
            "zsh" => Some(Shell::Zsh),
            "csh" => Some(Shell::Csh),
            "tcsh" => Some(Shell::Tcsh),
            "fish" => Some(Shell::Fish),
            _ => None,
        }
    }

    /// The family of the shells that read the same text as this one.
    pub fn family(self) -> Family
        ensures { result ≡ family_of self }
    {
        match self {
            Shell::Sh | Shell::Bash | Shell::Ksh | Shell::Zsh => Family::Sh,
            Shell::Csh | Shell::Tcsh => Family::Csh,
            Shell::Fish => Family::Fish,
        }
    }
}
