//! Which program a path calls: the file of `module` has other names too.
ghost use Rattle.std.specs.Prelude.{◌≡◌, ◌||◌, bytes_eq, nat_eq};
ghost use Rattle.std.specs.List.{ends_with};
ghost use Rattle.module_subcommands.specs.Programs as spec;

/// A program that this file is.
#[derive(Clone, Copy, Debug, PartialEq, Eq)]
pub enum Program {
    /// What the function `module` does beside `modulecmd`.
    Module,
    /// The check of requests (modcheck(1)).
    Modcheck,
    /// The audit of a site (modaudit(1)).
    Modaudit,
    /// The translation of modulefiles (modport(1)).
    Modport,
}

/// Whether a path is this name, or ends with it behind a slash.
fn is_called(path: &[u8], name: &[u8], behind_slash: &[u8]) -> bool
    ensures { result ≡ (bytes_eq path.now name.now || ends_with nat_eq path.now behind_slash.now) }
{
    path == name || path.ends_with(behind_slash)
}

/// The program of this path, by its last part; `module` where that is no other's name.
pub fn program_at(path: &[u8]) -> Program
    ensures { result ≡ spec.program_at path.now }
{
    if is_called(path, b"modcheck", b"/modcheck") {
        Program::Modcheck
    } else if is_called(path, b"modaudit", b"/modaudit") {
        Program::Modaudit
    } else if is_called(path, b"modport", b"/modport") {
        Program::Modport
    } else {
        Program::Module
    }
}
