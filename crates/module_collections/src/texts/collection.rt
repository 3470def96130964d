//! What a collection keeps.

/// What a collection keeps: what is searched, and what is loaded.
#[derive(Debug, Drop)]
pub struct Collection {
    /// The directories of MODULEPATH, in their order.
    pub directories: Vec<String>,
    /// The full names of modules, in the order of loading.
    pub modules: Vec<String>,
}
