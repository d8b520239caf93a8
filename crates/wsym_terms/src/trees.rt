ghost use Rattle.std.specs.Prelude.{◌≡◌, ◌<◌, ◌≤◌, ◌+◌, ◌^◌, ℕ};
ghost use Rattle.wsym_terms.specs.Extents.{Extent, Finite, IsAtMost, plus};
ghost use Rattle.wsym_terms.specs.Trees.{size_of, sizes_of, value_at};
ghost use Rattle.wsym_terms.specs.declared.trees.Tree.{Tree as TreeValue};

use sqlite_items::{Boxed, Items};

/// A use of a line of the instruction cache.
#[derive(Clone, Copy)]
pub struct Use {
    /// The line: the address divided by the bytes of a line.
    pub line: u32,
    /// The depth of the loops within one entry of which the line misses at most once. 0 is the whole run.
    pub scope: u32,
}

/// What stands of a block in its leaf: the cycles that it costs at most each time, with a miss for each use without a
/// scope, and its uses with a scope, in the order of its points.
#[derive(Drop)]
pub struct BlockUses {
    pub base: u128,
    pub uses: Items<Use>,
}

/// The control-flow tree of a function.
#[derive(Drop)]
pub enum Tree {
    /// A basic block: its number, what its instructions cost in cycles where no fetch misses, and the lines
    /// that it uses.
    Leaf {
        block: u32,
        base: u128,
        uses: Items<Use>,
    },
    /// One after another.
    Seq(Items<Tree>),
    /// One of them.
    Alt(Items<Tree>),
    /// A loop, by its number from 1: what runs between an entry or a turn and the next turn, and what runs
    /// between an entry or a turn and the leaving.
    Loop {
        id: u32,
        body: Boxed<Tree>,
        exit: Boxed<Tree>,
    },
}

impl Tree {
    /// The number of the tree's nodes and uses. It takes no memory.
    #[cycle(sizes)]
    pub fn size(&self) -> u64
        requires { size_of self.now < 2 ^ 64 }
        ensures { result ≡ size_of self.now }
    {
        match self {
            Tree::Leaf {
                block: _,
                base: _,
                uses,
            } => 1 + uses.len() as u64,
            Tree::Seq(members) => 1 + sizes(members.as_slice()),
            Tree::Alt(choices) => 1 + sizes(choices.as_slice()),
            Tree::Loop { id: _, body, exit } => 1 + body.get().size() + exit.get().size(),
        }
    }
}

/// The sum of the sizes of trees.
#[cycle(sizes)]
#[tactic(auto, using(std::proofs::lemmas::List::Sums::sum_by_more_le, std::proofs::lemmas::List::Sums::sum_by_more))]
fn sizes(trees: &[Tree]) -> u64
    requires { sizes_of trees.now < 2 ^ 64 }
    ensures { result ≡ sizes_of trees.now }
{
    let mut total = 0;
    for tree in trees {
        total += tree.size();
    }
    total
}

/// A law of the value of a tree, at every depth, whatever a miss costs and the bounds of the loops are: no
/// executions cost nothing.
pub fn tree_value_of_none()
    ensures { (miss : ℕ) (bounds : ℕ → Extent) (tree : TreeValue) (depth : ℕ) → value_at miss bounds tree depth 0 ≡ Finite 0 }
{}

/// A law of the value of a tree, like `tree_value_of_none`: more executions cost no less.
pub fn tree_value_rises()
    ensures { (miss : ℕ) (bounds : ℕ → Extent) (tree : TreeValue) (depth m n : ℕ) → m ≤ n → IsAtMost (value_at miss bounds tree depth m) (value_at miss bounds tree depth n) }
{}

/// A law of the value of a tree, like `tree_value_of_none`: some executions together cost no more than in two
/// parts.
pub fn tree_value_shares()
    ensures { (miss : ℕ) (bounds : ℕ → Extent) (tree : TreeValue) (depth a b : ℕ) → IsAtMost (value_at miss bounds tree depth (a + b)) (plus (value_at miss bounds tree depth a) (value_at miss bounds tree depth b)) }
{}
