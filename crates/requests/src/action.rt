//! A request: what a command line asks for, and for which shell (module(1)).

use shelltext::Shell;

/// What is asked for, with the names of modules, or the texts, as they were typed.
#[derive(Debug, Drop)]
pub enum Action {
    /// Load these modules, each in turn.
    Load(Vec<String>),
    /// Unload these modules, each in turn.
    Unload(Vec<String>),
    /// Unload the module that the first names, or without it the one that the first part of the second names, and then
    /// load the second.
    Switch(Option<String>, String),
    /// Unload all modules, the last loaded first.
    Purge,
    /// Report the loaded modules.
    List,
    /// Report the modules along MODULEPATH whose names begin with one of these texts; without texts, all.
    Avail(Vec<String>),
    /// Report what these modules would do.
    Show(Vec<String>),
    /// Report the descriptions of these modules.
    Whatis(Vec<String>),
}

/// A request: an action, and the shell that is to run the printed text.
#[derive(Debug, Drop)]
pub struct Request {
    /// The shell that is to run the printed text.
    pub shell: Shell,
    /// What is asked for.
    pub action: Action,
}
