ghost use Rattle.std.specs.Prelude.{ℕ, List};
ghost use Rattle.nesc_base.specs.declared.runs.Area.{Area};
ghost use Rattle.nesc_base.specs.declared.runs.Run.{Run};
ghost use Rattle.tree_laws.specs.Laws.{FindsSomething, FindsWhatStands, FollowsPath, HasAddresses};
ghost use Rattle.tree_words.specs.Shown.{Layout};

/// The path to a leaf has an address for each level at which its node stands, from the root's down.
pub fn paths_have_addresses()
    ensures { (layout : Layout) (top leaf lacking : ℕ) → HasAddresses layout top leaf lacking }
{}

/// A walk over words that show a tree fetches the nodes that lead to the leaf over the block, from the root down as far
/// as they stand. Where the leaf stands it finds the run that has the block, or that no run has it; else it finds that
/// a node does not stand. One of these can always be found.
pub fn walks_follow_paths()
    ensures finds { (runs : List Run) (v lacking : ℕ) → FindsSomething runs v lacking }
    ensures follows { (words : List ℕ) (root v : ℕ) (area : Area) → FollowsPath words root v area }
{}

/// Over such words no walk fetches other nodes or finds anything else.
pub fn walks_find_what_stands()
    ensures { (words : List ℕ) (root v : ℕ) (area : Area) → FindsWhatStands words root v area }
{}
