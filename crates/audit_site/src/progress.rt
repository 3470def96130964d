//! How far a walk has come.

/// Whoever wants to know how far a walk over a site has come. A contract sees nothing of it.
pub trait WalkProgress {
    /// So many files are evaluated, of so many that were found until now.
    fn evaluated(&mut self, done: usize, found: usize);
}

/// Nobody wants to know it.
#[derive(Clone, Copy, Debug)]
pub struct SilentProgress;

impl WalkProgress for SilentProgress {
    fn evaluated(&mut self, _done: usize, _found: usize) {}
}
