//! What the files of a request are evaluated under.

use shelltext::Shell;
use tclrules::Limits;

/// How much each modulefile may use, in every command of every program: commands, evaluations within one another, bytes
/// in a value.
pub const STANDARD_LIMITS: Limits = Limits {
    commands: 100_000,
    depth: 200,
    value_bytes: 1_048_576,
};

/// The limits on the evaluation of each file, and the shell that reads what is printed.
/// (`Setting` of tclrules is a script with all that it depends on.)
#[derive(Clone, Copy, Debug)]
pub(crate) struct EvaluationSettings {
    /// How many commands, how deep and how many bytes in a value.
    pub(crate) limits: Limits,
    /// The shell, which modulefiles can ask for.
    pub(crate) shell: Shell,
}
