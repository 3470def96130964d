//! Modules with what they read, as they are judged beside one another.
use modulefile::Record;

/// A module, and the variables that its file reads.
#[derive(Debug, Drop)]
pub struct Candidate {
    /// Its full name, as `foo/1.0`.
    pub name: String,
    /// The path of its file.
    pub path: String,
    /// Its records.
    pub records: Vec<Record>,
    /// The variables that its file reads.
    pub reads: Vec<String>,
}
