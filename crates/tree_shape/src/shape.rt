ghost use Rattle.std.specs.Prelude.{◌≡◌, ◌<◌, ◌≤◌, length};
ghost use Rattle.nesc_base.specs.Files.{longest_file};
ghost use Rattle.tree_shape.specs.Shape.{IsLeafOver, IsTop, border, children, highest, node_over, span, width};

use nesc_base::{LONGEST_FILE, Runs};

/// How many entries a node has at most.
pub const FANOUT: u32 = 10;

/// No root stands above this level, since a file has no more runs than blocks.
pub const HIGHEST: u32 = 6;

/// The level of the root of the tree of so many runs, 0 to 6. Leaves are level 0.
pub fn top_of(count: u32) -> u32
    requires { count ≤ longest_file }
    ensures { IsTop count result }
{
    let mut top = 0;
    let mut held = FANOUT;
    while held < count {
        held = held * FANOUT;
        top = top + 1;
    }
    top
}

/// How many runs lie under a whole node of a level: 10 under a leaf, 10,000,000 under a node of level 6.
pub fn span_of(level: u32) -> u32
    requires { level ≤ highest }
    ensures { result ≡ span level }
{
    FANOUT.pow(level + 1)
}

/// How many nodes a level has in the tree of so many runs, 1 or more.
pub fn width_of(count: u32, level: u32) -> u32
    requires few { count ≤ longest_file }
    requires low { level ≤ highest }
    ensures { result ≡ width count level }
{
    let span = span_of(level);
    ((count + (span - 1)) / span).max(1)
}

/// How many nodes of a level hang under node `k` of the level above in the tree of so many runs: 1 to 10 where that
/// node is there, else none.
pub fn children_of(count: u32, level: u32, k: u32) -> u32
    requires few { count ≤ longest_file }
    requires low { level ≤ highest }
    ensures { result ≡ children count level k }
{
    width_of(count, level)
        .saturating_sub(k.saturating_mul(FANOUT))
        .min(FANOUT)
}

/// With which block node `k` of a level begins, or behind the last node of the level the end of what a file may have.
pub fn border_of<R: Runs>(runs: &R, level: u32, k: u32) -> u32
    requires { level ≤ highest }
    ensures { result ≡ border (R.runs runs.now) level k }
{
    let at = u64::from(k) * u64::from(span_of(level));
    if at == 0 {
        return 0;
    }
    if at >= u64::from(runs.count()) {
        return LONGEST_FILE;
    }
    runs.run(at as u32).map_or(LONGEST_FILE, |run| run.first)
}

/// The leaf that covers a block, found by a binary search over the leaves' first runs.
pub fn leaf_over<R: Runs>(runs: &R, v: u32) -> u32
    requires { v < longest_file }
    ensures { IsLeafOver (R.runs runs.now) v result }
{
    let mut low = 0;
    let mut high = width_of(runs.count(), 0);
    while high - low > 1 {
        let middle = low + (high - low) / 2;
        if border_of(runs, 0, middle) <= v {
            low = middle;
        } else {
            high = middle;
        }
    }
    low
}

/// The node of a level that leads to a leaf. Leaves are level 0, each their own.
pub fn node_over(level: u32, leaf: u32) -> u32
    requires { level ≤ highest }
    ensures { result ≡ node_over level leaf }
{
    leaf / FANOUT.pow(level)
}
