//! The context that a modulefile is evaluated in.
use modulefile::Mode;
use shelltext::Shell;

/// The context that a modulefile is evaluated in, but for the environment before it.
#[derive(Clone, Copy)]
pub struct FileContext<'a> {
    /// What it is evaluated for.
    pub mode: Mode,
    /// Whether it is half of a switch.
    pub in_switch: bool,
    /// The full name of its module.
    pub name: &'a str,
    /// The path of the file.
    pub path: &'a str,
    /// The shell that the request is for.
    pub shell: Shell,
    /// The name of the module as it was typed.
    pub typed: &'a str,
    /// The names of the modules that are loaded before the file.
    pub loaded: &'a [String],
}
