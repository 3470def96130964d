//! What a load has done.

/// What is added to a path.
#[derive(Debug, Drop)]
pub struct PathEnds {
    /// What stands before the mark, without the delimiter.
    pub front: Option<String>,
    /// What stands behind it.
    pub back: Option<String>,
    /// The delimiter.
    pub delimiter: char,
}

/// What became of a variable.
#[derive(Debug, Drop)]
pub enum VariableChange {
    /// It has this value.
    Set(String),
    /// It has this value, and the one before comes back.
    Pushed(String),
    /// It is unset.
    Unset,
    /// Elements were added to it.
    Added(PathEnds),
}

/// What a load has done.
#[derive(Debug, Drop)]
pub struct LoadRecords {
    /// The variables, in order, with what became of each.
    pub variables: Vec<(String, VariableChange)>,
    /// The names that the module is in conflict with.
    pub conflicts: Vec<String>,
    /// What it needs: one module of each list.
    pub needs: Vec<Vec<String>>,
}
