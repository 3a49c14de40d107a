ghost use Rattle.std.specs.Prelude.{◌≡◌, ◌<◌, ◌≤◌, [], ◌∷◌, ◌++◌, IfOk, MatchOption, length, vec_capacity};
ghost use Rattle.host_memory.specs.Sound.{NamesAll};
ghost use Rattle.host_memory.specs.Pool.{GivesBack, IsTaken, IsUsedUp, Takes, all_free, free_of};

use nesc_base::{NODE_WORDS, NoMemory};
use std::alloc::Global;
use std::marker::Model;

// How many words a node has.
const NODE_SIZE: u32 = NODE_WORDS as u32;

/// The addresses 32, 64 and so on of some nodes, of which each is taken or free.
///
/// Taking a node, giving one back and counting the free ones take the same time for any number of nodes, and no memory.
#[derive(Drop)]
pub struct NodePool {
    // whether each node is taken
    taken: Vec<bool>,
    // the nodes that are free, by their numbers from 0; the last is the next one to be taken
    free: Vec<u16>,
}

impl Model for NodePool {
    ghost use Rattle.std.specs.Prelude.{vec_capacity};
    ghost use Rattle.host_memory.specs.Pool as value;
    ghost use Rattle.host_memory.specs.Pool.{pool_code};
    ghost use Rattle.host_memory.specs.Sound.{IsSound};

    ghost Value = { value.Pool };

    ghost coded = { pool_code };

    ghost view = { λ p. record { taken = p.taken.items } };

    ghost invariant = { λ p. IsSound p.taken.items p.free.items (vec_capacity p.free) };
}

impl NodePool {
    /// A pool of so many nodes, each of them free. An `Err` says that there is no memory for it. No other call takes
    /// any.
    pub fn new(alloc: Global, nodes: u16) -> Result<NodePool, NoMemory>
        ensures { IfOk result (λ pool. pool ≡ all_free nodes) }
    {
        let taken = vec![in alloc; false; usize::from(nodes)]?;
        let mut free = Vec::with_capacity(alloc, usize::from(nodes))?;
        name_all(&mut free, nodes);
        Ok(NodePool { taken, free })
    }

    /// Takes a node that is free, and says its address, or `None` where none is free.
    pub fn take(&mut self) -> Option<u32>
        ensures { MatchOption result
            (IsUsedUp self.old × (self.new ≡ self.old))
            (λ address. Takes self.old address self.new) }
    {
        let k = self.free.pop()?;
        self.taken[usize::from(k)] = true;
        Some(NODE_SIZE * (u32::from(k) + 1))
    }

    /// Makes the node at an address free, which is taken. It is the next one that `take` gives.
    pub fn give_back(&mut self, node: u32)
        requires { IsTaken self.old node }
        ensures { GivesBack self.old node self.new }
    {
        let k = node / NODE_SIZE - 1;
        self.taken[k as usize] = false;
        name(&mut self.free, k as u16);
    }

    /// How many nodes are free.
    pub fn free(&self) -> u32
        ensures { result ≡ free_of self.now }
    {
        self.free.len() as u32
    }

    /// Makes every node free.
    pub fn reset(&mut self)
        ensures { self.new ≡ all_free (length self.old.taken) }
    {
        self.taken.fill(false);
        self.free.clear();
        name_all(&mut self.free, self.taken.len() as u16);
    }
}

// Puts the numbers of so many nodes into an empty list, the lowest last.
fn name_all(free: &mut Vec<u16>, nodes: u16)
    requires empty { free.old.items ≡ [] }
    requires room { nodes ≤ vec_capacity free.old }
    ensures names { NamesAll nodes free.new.items }
    ensures room { nodes ≤ vec_capacity free.new }
{
    for k in 0..nodes {
        name(free, nodes - 1 - k);
    }
}

// Puts the number of a node behind the others, for which there is memory.
fn name(free: &mut Vec<u16>, k: u16)
    requires room { length free.old.items < vec_capacity free.old }
    ensures items { free.new.items ≡ free.old.items ++ k ∷ [] }
    ensures room { vec_capacity free.old ≤ vec_capacity free.new }
{
    let _pushed = free.push(k);
}
