ghost use Rattle.std.specs.Prelude.{◌≡◌, ◌<◌, ◌≤◌, IfOk, MatchOption, Some, length, slice_get};
ghost use Rattle.nesc_base.specs.Files.{longest_file};
ghost use Rattle.host_memory.specs.Pool.{free_of};
ghost use Rattle.tree_tests.specs.Planted.{BuildsHere, CannotBuild, CannotPrune, DropsHere, NeedsHere, PrunesHere};
ghost use Rattle.tree_tests.specs.Planted.{WalksHere, bare};

use crate::plain_runs::PlainRuns;
use host_memory::{NodePool, WordMemory};
use nesc_base::{Area, LONGEST_FILE, Memory, NODE_WORDS, NoMemory};
use std::alloc::Global;
use std::marker::Model;
use tree_builder::{Built, build_path, nodes_needed};
use tree_pruner::{Pruned, drop_tree, prune_leaf};
use tree_walker::{WalkEnd, walk};

/// Where the data blocks of the largest image lie whose blocks begin at place 275.
pub const AREA: Area = Area {
    from: 275,
    to: 275 + 65_536,
};

/// The tree of a file's runs, or as much of it as stands, in a memory and with a pool of its own.
#[derive(Drop)]
pub struct Planting {
    runs: PlainRuns,
    pool: NodePool,
    memory: WordMemory,
    root: u32,
}

impl Model for Planting {
    ghost use Rattle.tree_tests.specs.Planted.{IsPlanted, Plot};

    ghost Value = { Plot };

    ghost view = { λ p. record { runs = p.runs; pool = p.pool; memory = p.memory; root = p.root } };

    ghost invariant = { λ p. IsPlanted (record { runs = p.runs; pool = p.pool; memory = p.memory; root = p.root }) };
}

impl Planting {
    /// Nothing of the tree of these runs, in a memory of as many nodes as the pool has. An `Err` says that there is no
    /// memory for it.
    pub fn new(alloc: Global, runs: PlainRuns, nodes: u16) -> Result<Planting, NoMemory>
        ensures { IfOk result (λ planting. planting ≡ bare runs nodes) }
    {
        let words = NODE_WORDS as u32 * (u32::from(nodes) + 1);
        Ok(Planting {
            runs,
            pool: NodePool::new(alloc, nodes)?,
            memory: WordMemory::new(alloc, words)?,
            root: 0,
        })
    }

    /// The runs of the file.
    pub fn runs(&self) -> &PlainRuns
        ensures { result.now ≡ self.now.runs }
    {
        &self.runs
    }

    /// The address of the root, 0 where there is none.
    pub fn root(&self) -> u32
        ensures { result ≡ self.now.root }
    {
        self.root
    }

    /// How many nodes are free.
    pub fn free(&self) -> u32
        ensures { result ≡ free_of self.now.pool }
    {
        self.pool.free()
    }

    /// The word at an address, or `None` past the last.
    pub fn word(&self, at: u32) -> Option<u64>
        ensures { let words = self.now.memory.words in
            MatchOption result (length words ≤ at) (λ word. slice_get words at ≡ Some word) }
    {
        if at < self.memory.words() {
            return Some(self.memory.load(at));
        }
        None
    }

    /// How many nodes of the path to block `v` do not stand, or `None` where no file has such a block.
    pub fn needed(&self, v: u32) -> Option<u32>
        ensures { MatchOption result (longest_file ≤ v) (λ needed. (v < longest_file) × NeedsHere self.now v needed) }
    {
        if v >= LONGEST_FILE {
            return None;
        }
        Some(nodes_needed(&self.runs, &self.memory, self.root, v))
    }

    /// Builds the path to block `v`, or says `None`, and nothing has changed, where no file has such a block, where its
    /// leaf stands, or where too few nodes are free.
    pub fn build(&mut self, v: u32) -> Option<Built>
        ensures { MatchOption result ((self.new ≡ self.old) × CannotBuild self.old v)
            (λ built. BuildsHere v self.old self.new built) }
    {
        let needed = self.needed(v)?;
        if needed == 0 || self.pool.free() < needed {
            return None;
        }
        let built = build_path(&self.runs, &mut self.pool, &mut self.memory, self.root, v);
        self.root = built.root;
        Some(built)
    }

    /// Gives back the leaf over block `v`, or says `None`, and nothing has changed, where it does not stand.
    pub fn prune(&mut self, v: u32) -> Option<Pruned>
        ensures { MatchOption result ((self.new ≡ self.old) × CannotPrune self.old v)
            (λ pruned. PrunesHere v self.old self.new pruned) }
    {
        let pruned = prune_leaf(&mut self.pool, &mut self.memory, self.root, v)?;
        self.root = pruned.root;
        Some(pruned)
    }

    /// Gives back all nodes of the tree, and says how many they were.
    pub fn drop_all(&mut self) -> u32
        ensures { DropsHere result self.old self.new }
    {
        let count = drop_tree(&mut self.pool, &mut self.memory, self.root);
        self.root = 0;
        count
    }

    /// Walks to block `v`.
    pub fn walk(&mut self, v: u32) -> WalkEnd
        ensures { WalksHere v AREA result self.old self.new }
    {
        walk(&mut self.memory, self.root, v, AREA)
    }
}
