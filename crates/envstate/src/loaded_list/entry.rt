//! An entry of the list of loaded modules.

/// A loaded module, with what its modulefile asked of other modules.
#[derive(Drop)]
pub struct Loaded {
    /// Its full name, as `gcc/9`.
    pub name: String,
    /// The path of its modulefile.
    pub path: String,
    /// The names that it conflicts with (modulefile(5), conflict).
    pub conflicts: Vec<String>,
    /// Groups of names: of each group it needs one module to be loaded (modulefile(5), prereq).
    pub prereqs: Vec<Vec<String>>,
}
