//! What a command of the function answers, before anything is printed.

use envvars::Change;

/// What a command answers.
#[derive(Drop)]
pub(crate) enum Answer {
    /// The shell is to change its environment.
    Changes {
        /// The changes that it is to make.
        changes: Vec<Change>,
        /// The directories that are searched from then on, each as often as it was named.
        added: Vec<String>,
    },
    /// Yes or no.
    Truth(bool),
}
