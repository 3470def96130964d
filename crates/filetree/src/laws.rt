//! Laws of every tree, and of a tree in memory. The functions do nothing; their contracts are the theorems.
ghost use Rattle.std.specs.Prelude.{◌≡◌, ℕ, List};
ghost use Rattle.filetree.specs.Contents.{files_of, listings_of};
ghost use Rattle.filetree.specs.Agreement.{InEachPair, IsSatisfiable};

use crate::memory::MemoryTree;
use crate::tree::Tree;

/// With each tree some pair of maps agrees, so that no clause about all such pairs is empty.
pub fn some_pair_agrees<T: Tree>(tree: &T)
    ensures { IsSatisfiable (T.agrees tree.now) }
{
    let _ = tree;
}

/// With a tree in memory its contents agree, and no other pair of maps.
pub fn contents_agree(tree: &MemoryTree)
    ensures agree { ⟦<MemoryTree as Tree>⟧.agrees tree.now (files_of tree.now) (listings_of tree.now) }
    ensures alone { InEachPair (⟦<MemoryTree as Tree>⟧.agrees tree.now) (λ files listings.
        ((path : List ℕ) → files path ≡ files_of tree.now path)
        × ((path : List ℕ) → listings path ≡ listings_of tree.now path)) }
{
    let _ = tree;
}
