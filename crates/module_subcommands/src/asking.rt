//! Who asks, and what the process is given.

use crate::site::Site;
use envvars::Env;
use module_words::protocol::Asker;
use shelltext::Shell;

/// Who asks, in which environment, and what the process is given besides.
#[derive(Drop)]
pub struct Asking {
    /// The shell.
    pub shell: Shell,
    /// Who asks.
    pub asker: Asker,
    /// The variables of the environment.
    pub env: Env,
    /// What the process is given besides.
    pub site: Site,
}
