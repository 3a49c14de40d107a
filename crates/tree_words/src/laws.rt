ghost use Rattle.std.specs.Prelude.{◌≡◌, ℕ, ◌+◌, ◌*◌, ◌<◌, ◌≤◌, List, length};
ghost use Rattle.nesc_base.specs.Memory.{IsNodeOf, node_size};
ghost use Rattle.nesc_base.specs.Runs.{AreRuns};
ghost use Rattle.nesc_base.specs.declared.runs.Run.{Run};
ghost use Rattle.host_memory.specs.Pool.{Pool, Takes};
ghost use Rattle.tree_words.specs.Laws.{AreLocal, GivesPath, HasOneLack, HasReadableWords, KeepEntryRules, LinksChild};
ghost use Rattle.tree_words.specs.Laws.{PutsNode, PutsWord, SaysChildren, SaysRuns, ShowOneLayout, StandsOnRoot};
ghost use Rattle.tree_words.specs.Laws.{StayApart, StaysShown, TakesLeaf};
ghost use Rattle.tree_words.specs.Pools.{AreTaken};
ghost use Rattle.tree_words.specs.Shown.{Layout, ShowsAt};

/// Words show one part of the tree of a file's runs under a root, and no other.
pub fn words_show_one_tree()
    ensures { (words : List ℕ) (root : ℕ) (runs : List Run) → ShowOneLayout words root runs }
{}

/// What words show, they show while the nodes that stand keep their words.
pub fn trees_stay_shown()
    ensures { (old new : List ℕ) → StaysShown old new }
{}

/// The entries of each node keep the rules, and can be read out of its words where addresses are numbers of 32 bits.
pub fn nodes_keep_the_rules()
    ensures rules { (runs : List Run) (layout : Layout) → AreRuns runs → KeepEntryRules runs layout }
    ensures readable { (runs : List Run) (layout : Layout) → AreRuns runs → HasReadableWords runs layout }
{}

/// Each word of an inner node, and the first two of a leaf.
pub fn nodes_say()
    ensures inner { (runs : List Run) (layout : Layout) (level k : ℕ) → SaysChildren runs layout level k }
    ensures leaf { (runs : List Run) (layout : Layout) (k : ℕ) → SaysRuns runs layout k }
{}

/// A child that is linked stands, and a node says nothing but where its children stand.
pub fn nodes_link()
    ensures links { (runs : List Run) (layout : Layout) (level k : ℕ) → LinksChild runs layout level k }
    ensures alone { (runs : List Run) (one other : Layout) → AreLocal runs one other }
{}

/// The nodes of a path that do not stand are the lowest so many.
pub fn paths_lack()
    ensures lack { (words : List ℕ) (runs : List Run) (top leaf : ℕ) (layout : Layout) → ShowsAt words runs top layout
        → HasOneLack top leaf layout }
    ensures root { (words : List ℕ) (runs : List Run) → StandsOnRoot words runs }
{}

/// Putting the words of a node, or one of them, changes no other node.
pub fn nodes_are_apart()
    ensures node { (words : List ℕ) (node : ℕ) (put : List ℕ) → IsNodeOf words node → length put ≡ node_size
        → PutsNode words node put }
    ensures word { (words : List ℕ) (node j word : ℕ) → IsNodeOf words node → j < node_size
        → PutsWord words node j word }
{}

/// A path that was built stands.
pub fn paths_stand()
    ensures { (old_words new_words : List ℕ) (runs : List Run) (top leaf : ℕ) →
        GivesPath old_words new_words runs top leaf }
{}

/// A leaf that was taken away does not stand, and all else does.
pub fn leaves_go()
    ensures { (old_words new_words : List ℕ) (runs : List Run) (top leaf : ℕ) →
        TakesLeaf old_words new_words runs top leaf }
{}

/// Taking a node leaves the trees of a pool as they are, and a tree that grows by free nodes stays apart from each
/// other.
pub fn trees_stay_apart()
    ensures taken { (old new : Pool) (address : ℕ) (layout : Layout) → Takes old address new → AreTaken old layout
        → AreTaken new layout }
    ensures apart { (pool : Pool) (other : Layout) → StayApart pool other }
{}
