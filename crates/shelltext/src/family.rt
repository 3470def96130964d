//! Families of shells, each of which reads one kind of text.
ghost use Rattle.std.specs.Prelude.{◌≡◌};
ghost use Rattle.shelltext.specs.Shells.{family_name};

/// The shells that read the same text.
#[derive(Clone, Copy, Debug, PartialEq, Eq)]
pub enum Family {
    /// sh, bash, ksh and zsh.
    Sh,
    /// csh and tcsh.
    Csh,
    /// fish alone.
    Fish,
}

impl Family {
    /// The name of the family, as `module-info shelltype` answers it (modulefile(5)): that of its first shell.
    pub fn name(self) -> &'static str
        ensures { result.now ≡ family_name self }
    {
        match self {
            Family::Sh => "sh",
            Family::Csh => "csh",
            Family::Fish => "fish",
        }
    }
}
