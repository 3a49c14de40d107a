ghost use Rattle.std.specs.Prelude.{ℕ, List};
ghost use Rattle.nesc_base.specs.declared.runs.Area.{Area};
ghost use Rattle.tree_walker.specs.Laws.{EndsOneWay, FetchesFew};

/// Over the words of a memory a walk ends in one way.
pub fn walks_end_one_way()
    ensures { (words : List ℕ) (root v : ℕ) (area : Area) → EndsOneWay words root v area }
{}

/// A walk fetches five nodes at most.
pub fn walks_fetch_five_nodes_at_most()
    ensures { (words : List ℕ) (root v : ℕ) (area : Area) → FetchesFew words root v area }
{}
