//! A tree whose files are read whole where only their first bytes are asked for, since an audit evaluates them later.
ghost use Rattle.std.specs.Prelude.{◌≡◌};

use filetree::{Tree, TreeFault};

/// A tree whose files that begin as is asked are read to their end at once. So a disk opens each once, which closes a file
/// when it is asked for another, and keeps what it read.
#[derive(Drop)]
pub(crate) struct WholeFiles<T: Tree + Drop> {
    tree: T,
}

impl<T: Tree + Drop> WholeFiles<T> {
    /// The tree, of which nothing was asked yet.
    pub(crate) fn new(tree: T) -> WholeFiles<T>
        ensures { result.tree ≡ tree }
    {
        WholeFiles { tree }
    }
}

impl<T: Tree + Drop> Tree for WholeFiles<T> {
    ghost failures = { λ t. T.failures t.tree };

    ghost failed = { λ t. T.failed t.tree };

    ghost agrees = { λ t. T.agrees t.tree };

    ghost satisfiable = { λ t. T.satisfiable t.tree };

    fn read(&mut self, path: &str) -> Result<Option<Vec<u8>>, TreeFault> {
        self.tree.read(path)
    }

    fn begins_with(&mut self, path: &str, prefix: &[u8]) -> Result<bool, TreeFault> {
        let begins = self.tree.begins_with(path, prefix)?;
        if begins && !prefix.is_empty() {
            self.tree.read(path)?;
        }
        Ok(begins)
    }

    fn may_list(&self, path: &str) -> bool {
        self.tree.may_list(path)
    }

    fn entries(&mut self, dir: &str) -> Result<Option<Vec<String>>, TreeFault> {
        self.tree.entries(dir)
    }
}
