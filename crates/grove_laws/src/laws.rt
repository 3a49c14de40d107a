ghost use Rattle.std.specs.Prelude.{ℕ, List};
ghost use Rattle.nesc_base.specs.declared.runs.Run.{Run};
ghost use Rattle.tree_words.specs.Shown.{Layout};
ghost use Rattle.grove_laws.specs.Laws.{CountsNodes, HasList, HasNoTrees};
ghost use Rattle.grove_laws.specs.Laws.{KeptByBuilding, KeptByDropping, KeptByPruning, KeptWithoutTree};

/// Where all nodes are free and no function has a root, no tree stands, and each file may have any runs.
pub fn no_trees_stand_at_first()
    ensures { (f : ℕ) → HasNoTrees f }
{}

/// A path that is built in the tree of one function leaves the trees of all: no two share a node, and no other node is
/// taken.
pub fn trees_stay_when_one_grows()
    ensures { (f : ℕ) → KeptByBuilding f }
{}

/// So does a leaf that is given back.
pub fn trees_stay_when_a_leaf_goes()
    ensures { (f : ℕ) → KeptByPruning f }
{}

/// So does a tree that is given up whole.
pub fn trees_stay_when_one_goes()
    ensures { (f : ℕ) → KeptByDropping f }
{}

/// A function that has no tree may get a file with any runs.
pub fn runs_of_no_tree_may_change()
    ensures { (f : ℕ) → KeptWithoutTree f }
{}

/// The nodes of a tree can be listed, each once, and as many are given back with it as are in the list.
pub fn nodes_given_back_are_counted()
    ensures listed { (words : List ℕ) (root : ℕ) (runs : List Run) (layout : Layout) → HasList words root runs layout }
    ensures counted { (layout : Layout) → CountsNodes layout }
{}
