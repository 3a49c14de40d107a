ghost use Rattle.std.specs.Prelude.{◌≡◌, ℕ, ◌+◌, ◌*◌, ◌<◌, ◌≤◌, List, length};
ghost use Rattle.nesc_base.specs.Files.{longest_file};
ghost use Rattle.nesc_base.specs.Runs.{AreRuns};
ghost use Rattle.nesc_base.specs.declared.runs.Run.{Run};
ghost use Rattle.tree_shape.specs.Laws.{HangsUnder, HasChildren, HasNodesOverRuns, HasOneNodeOver, HasOneTop};
ghost use Rattle.tree_shape.specs.Laws.{HasPath, HasRisingBorders, HasWholeRoot, HoldsRuns, IsPath};
ghost use Rattle.tree_shape.specs.Laws.{IsNoHigher, LeadsToRuns, MissesNoRun, StandsInLeaf};
ghost use Rattle.tree_shape.specs.Shape.{HasNode, IsLeafOver, IsTop, fanout, highest, span, width};

/// A node has ten times as many runs under it as one of the level below.
pub fn levels_are_tenfold()
    ensures { (level : ℕ) → span (level + 1) ≡ fanout * span level }
{}

/// The tree of so many runs has one root.
pub fn there_is_one_top()
    ensures { (count : ℕ) → HasOneTop count }
{}

/// No root stands above a level at which one node can hold all runs, and so none of a file's tree above level 6.
pub fn trees_are_low()
    ensures each { (count top : ℕ) → IsNoHigher count top }
    ensures any { (count top : ℕ) → count ≤ longest_file → IsTop count top → top ≤ highest }
{}

/// Where the roots of some trees stand: of no run, of one leaf's and one more, of 65,536, and on both sides of 100,000.
pub fn tops_of_some_trees()
    ensures none { IsTop 0 0 }
    ensures leaf { IsTop 10 0 }
    ensures two { IsTop 11 1 }
    ensures middle { IsTop 65536 4 }
    ensures whole { IsTop 100000 4 }
    ensures more { IsTop 100001 5 }
{}

/// A level has a node 0, and further ones just where a run lies under them; the root's has one alone.
pub fn nodes_stand_over_runs()
    ensures { (count level : ℕ) → HasNodesOverRuns count level }
{}

/// A file has no more runs than blocks.
pub fn runs_are_few()
    ensures { (runs : List Run) → AreRuns runs → length runs ≤ longest_file }
{}

/// The nodes of each level divide the blocks that a file may have.
pub fn borders_rise()
    ensures { (runs : List Run) (level : ℕ) → AreRuns runs → HasRisingBorders runs level }
{}

/// Each block that a file may have is covered by one node of each level.
pub fn one_node_covers()
    ensures { (runs : List Run) (level v : ℕ) → AreRuns runs → v < longest_file → HasOneNodeOver runs level v }
{}

/// The root covers each block that a file may have.
pub fn the_root_covers_all()
    ensures { (runs : List Run) (top : ℕ) → IsTop (length runs) top → HasWholeRoot runs top }
{}

/// Each node below the root hangs under one of the level above, and covers no more than that one.
pub fn nodes_hang()
    ensures { (runs : List Run) (top level k : ℕ) → AreRuns runs → HasNode (length runs) top level k → level < top
        → HangsUnder runs top level k }
{}

/// Each node above the leaves has 1 to 10 children, and they cover what it covers.
pub fn nodes_have_children()
    ensures { (runs : List Run) (level k : ℕ) → k < width (length runs) (level + 1) → HasChildren runs level k }
{}

/// The nodes that cover a block are those that lead from the root to the leaf over it.
pub fn paths_lead_to_leaves()
    ensures { (runs : List Run) (top v leaf : ℕ) → AreRuns runs → IsTop (length runs) top → IsLeafOver runs v leaf
        → HasPath runs top v leaf }
{}

/// A path has one node of each level.
pub fn paths_are_as_long()
    ensures { (top leaf : ℕ) → IsPath top leaf }
{}

/// Each leaf covers the blocks of its runs, which are 1 to 10, or none where the file has none.
pub fn leaves_hold_runs()
    ensures { (runs : List Run) (k : ℕ) → AreRuns runs → HoldsRuns runs k }
{}

/// Each run is a run of one leaf, which is over each block of the run, and a block of no run of its leaf is of none.
pub fn leaves_have_all_runs()
    ensures stands { (runs : List Run) (j : ℕ) → StandsInLeaf runs j }
    ensures leads { (runs : List Run) → AreRuns runs → LeadsToRuns runs }
    ensures misses { (runs : List Run) → AreRuns runs → MissesNoRun runs }
{}
