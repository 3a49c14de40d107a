ghost use Rattle.std.specs.Prelude.{◌≡◌, ◌<◌, ◌≤◌, IfOk, MatchOption};
ghost use Rattle.nesc_base.specs.Files.{longest_file};
ghost use Rattle.host_memory.specs.Pool.{free_of};
ghost use Rattle.tree_pruner.specs.Reclaiming.{ReclaimsTrees};
ghost use Rattle.tree_pruner.specs.Roots.{IsFunction, root_of};
ghost use Rattle.tree_tests.specs.Forests.{bare_forest, plot_of};
ghost use Rattle.tree_tests.specs.Planted.{NeedsHere, WalksHere};

use crate::plain_runs::PlainRuns;
use crate::planting::AREA;
use host_memory::{NodePool, WordMemory};
use nesc_base::{FnNo, LONGEST_FILE, NODE_WORDS, NoMemory};
use std::alloc::Global;
use std::marker::Model;
use tree_builder::{Built, build_path, nodes_needed};
use tree_pruner::{Roots, reclaim};
use tree_walker::{WalkEnd, walk};

/// The trees of all functions, each as much of it as stands, in one memory and with one pool. Their files have the same
/// runs.
#[derive(Drop)]
pub struct Forest {
    runs: PlainRuns,
    nodes: u16,
    pool: NodePool,
    memory: WordMemory,
    roots: Roots,
}

impl Model for Forest {
    ghost use Rattle.tree_tests.specs.Forests.{IsForest, Woods};

    ghost Value = { Woods };

    ghost view = { λ f. record { runs = f.runs; nodes = f.nodes; pool = f.pool; memory = f.memory; roots = f.roots } };

    ghost invariant = { λ f. IsForest
        (record { runs = f.runs; nodes = f.nodes; pool = f.pool; memory = f.memory; roots = f.roots }) };
}

impl Forest {
    /// No function has a tree; a pool of so many nodes, and a memory with room for them.
    pub fn new(alloc: Global, runs: PlainRuns, nodes: u16) -> Result<Forest, NoMemory>
        ensures { IfOk result (λ forest. forest ≡ bare_forest runs nodes) }
    {
        let words = NODE_WORDS as u32 * (u32::from(nodes) + 1);
        Ok(Forest {
            runs,
            nodes,
            pool: NodePool::new(alloc, nodes)?,
            memory: WordMemory::new(alloc, words)?,
            roots: Roots::none(),
        })
    }

    /// How many nodes are free.
    pub fn free(&self) -> u32
        ensures { result ≡ free_of self.now.pool }
    {
        self.pool.free()
    }

    /// The root of a function's tree, 0 where it has none.
    pub fn root(&self, f: FnNo) -> u32
        requires { IsFunction f.0 }
        ensures { result ≡ root_of self.now.roots f.0 }
    {
        self.roots.get(f)
    }

    /// How many nodes of the path to block `v` in a function's tree do not stand, or `None` where no file has such a
    /// block.
    pub fn needed(&self, f: FnNo, v: u32) -> Option<u32>
        requires { IsFunction f.0 }
        ensures { MatchOption result (longest_file ≤ v)
            (λ needed. (v < longest_file) × NeedsHere (plot_of self.now f.0) v needed) }
    {
        if v >= LONGEST_FILE {
            return None;
        }
        Some(nodes_needed(&self.runs, &self.memory, self.roots.get(f), v))
    }

    /// Builds the path to block `v` in a function's tree, or says `None` where it stands or too few nodes are free.
    pub fn build(&mut self, f: FnNo, v: u32) -> Option<Built>
        requires { IsFunction f.0 }
    {
        let needed = self.needed(f, v)?;
        if needed == 0 || self.pool.free() < needed {
            return None;
        }
        let root = self.roots.get(f);
        let built = build_path(&self.runs, &mut self.pool, &mut self.memory, root, v);
        self.roots.set(f, built.root);
        Some(built)
    }

    /// Gives up trees for function `f` until so many nodes are free, and says whose. `None` says that the pool has not
    /// as many.
    pub fn reclaim(&mut self, f: FnNo, needed: u32) -> Option<u16>
        requires { IsFunction f.0 }
        ensures { MatchOption result (self.old.nodes < needed)
            (λ mask. ReclaimsTrees f.0 needed mask self.old.memory.words
            (record { pool = self.old.pool; roots = self.old.roots })
            (record { pool = self.new.pool; roots = self.new.roots })) }
    {
        if needed > u32::from(self.nodes) {
            return None;
        }
        Some(reclaim(&mut self.pool, &mut self.memory, &mut self.roots, f, needed))
    }

    /// Gives up trees as far as the path to block `v` needs it, and builds the path then, all of it where the own tree
    /// went too. Says whose trees went, and what was built.
    pub fn reach(&mut self, f: FnNo, v: u32) -> Option<(u16, Built)>
        requires { IsFunction f.0 }
    {
        let needed = self.needed(f, v)?;
        let victims = self.reclaim(f, needed)?;
        let built = self.build(f, v)?;
        Some((victims, built))
    }

    /// Walks to block `v` in a function's tree.
    pub fn walk(&mut self, f: FnNo, v: u32) -> WalkEnd
        requires { IsFunction f.0 }
        ensures { WalksHere v AREA result (plot_of self.old f.0) (plot_of self.new f.0) }
    {
        walk(&mut self.memory, self.roots.get(f), v, AREA)
    }
}
