ghost use Rattle.std.specs.Prelude.{◌≤◌, ◌<◌};
ghost use Rattle.tree_shape.specs.Shape.{highest};

use crate::Planting;
use crate::plain_runs::PlainRuns;
use nesc_base::{LONGEST_FILE, NoMemory, Run, Runs};
use std::alloc::Global;
use tree_shape::{leaf_over, node_over, top_of};
use tree_walker::{Found, WalkEnd};

/// The nodes of a tree that stand, by their levels and numbers: what the shape alone says of them.
#[derive(Drop)]
pub struct PlainTree {
    nodes: Vec<(u32, u32)>,
}

impl PlainTree {
    /// No node stands.
    pub fn none(alloc: Global) -> PlainTree {
        PlainTree {
            nodes: Vec::new(alloc),
        }
    }

    /// How many nodes stand.
    pub fn count(&self) -> usize {
        self.nodes.len()
    }

    fn stands(&self, node: (u32, u32)) -> bool {
        self.nodes.iter().any(|other| *other == node)
    }

    /// The path to block `v` stands from now on. So many of its nodes did not.
    pub fn build(&mut self, runs: &PlainRuns, v: u32) -> Result<usize, NoMemory> {
        let before = self.nodes.len();
        for level in 0..=top(runs) {
            let node = (level, node_over(level, leaf(runs, v)));
            if !self.stands(node) {
                self.nodes.push(node)?;
            }
        }
        Ok(self.nodes.len().saturating_sub(before))
    }

    /// The leaf over block `v` does not stand any more.
    pub fn prune(&mut self, runs: &PlainRuns, v: u32) {
        let gone = (0, leaf(runs, v));
        self.nodes.retain(|node| *node != gone);
    }

    /// How a walk to block `v` is to end.
    pub fn walk(&self, runs: &PlainRuns, v: u32) -> WalkEnd {
        let levels = top(runs) + 1;
        for fetched in 0..levels {
            let level = levels - 1 - fetched;
            if !self.stands((level, node_over(level, leaf(runs, v)))) {
                return WalkEnd {
                    found: Found::Pruned,
                    fetched,
                };
            }
        }
        WalkEnd {
            found: run_over(runs, v).map_or(Found::Hole, |run| Found::Mapped(run)),
            fetched: levels,
        }
    }
}

// The level of the root.
fn top(runs: &PlainRuns) -> u32
    ensures { result ≤ highest }
{
    top_of(runs.count())
}

// The leaf over block `v`, or the last one where no file has such a block.
fn leaf(runs: &PlainRuns, v: u32) -> u32 {
    leaf_over(runs, v.min(LONGEST_FILE - 1))
}

// The run that has block `v`, found by looking at each.
fn run_over(runs: &PlainRuns, v: u32) -> Option<Run> {
    for k in 0..runs.count() {
        let run = runs.run(k)?;
        if run.first <= v && v - run.first < run.count {
            return Some(run);
        }
    }
    None
}

/// Whether the walks to these blocks end as they are to end.
pub fn walk_alike(planting: &mut Planting, plain: &PlainTree, blocks: &[u32]) -> bool {
    blocks
        .iter()
        .all(|v| planting.walk(*v) == plain.walk(planting.runs(), *v))
}

/// So many runs of one block each: every second block of a file from its first on, at places one behind the other from
/// 275 on.
pub fn spaced(alloc: Global, count: u16) -> Result<PlainRuns, NoMemory> {
    let mut runs = PlainRuns::none(alloc);
    for k in 0..u32::from(count) {
        runs.push(Run {
            first: 2 * k,
            count: 1,
            place: 275 + k,
        })?;
    }
    Ok(runs)
}
