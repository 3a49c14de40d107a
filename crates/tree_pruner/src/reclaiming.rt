ghost use Rattle.std.specs.Prelude.{◌≡◌, ◌≢◌, ◌+◌, ◌<◌, slice_index};
ghost use Rattle.nesc_requests.specs.Machine.{most_functions};
ghost use Rattle.tree_pruner.specs.Dropping.{HasTree};
ghost use Rattle.tree_pruner.specs.Reclaiming.{MayReclaim, ReclaimsTrees, TakesTurn, turn_of};
ghost use Rattle.tree_pruner.specs.Roots.{IsFunction, root_of};

use crate::dropping::drop_tree;
use crate::roots::Roots;
use host_memory::NodePool;
use nesc_base::{FnNo, Memory};
use nesc_requests::Machine;

const FUNCTIONS: u8 = Machine::MOST_FUNCTIONS;

/// Gives up whole trees until `needed` nodes are free, at most as many as the pool has: those of the functions after
/// `f` in their order, from there around, and that of `f` last. Says by a bit for each function, the lowest for the
/// first, whose trees these were. Their roots are 0 from now on, all other trees and the words of the memory stay.
pub fn reclaim<M: Memory>(
    pool: &mut NodePool,
    memory: &mut M,
    roots: &mut Roots,
    f: FnNo,
    needed: u32,
) -> u16
    requires { MayReclaim pool.old (M.known memory.old) roots.old f.0 needed }
    ensures reclaims { ReclaimsTrees f.0 needed result (M.known memory.old).words
        (record { pool = pool.old; roots = roots.old })
        (record { pool = pool.new; roots = roots.new }) }
    ensures memory { M.known memory.new ≡ M.known memory.old }
{
    let mut mask = 0;
    for turn in 0..FUNCTIONS {
        if pool.free() >= needed {
            return mask;
        }
        mask += give_up(pool, memory, roots, in_turn(f, turn));
    }
    mask
}

// The function whose turn comes after so many others: first the one after `f`, and `f` last.
fn in_turn(f: FnNo, turn: u8) -> FnNo
    requires function { IsFunction f.0 }
    requires among { turn < most_functions }
    ensures turn { result.0 ≡ slice_index (turn_of f.0) turn }
    ensures function { IsFunction result.0 }
{
    FnNo((f.0 + turn) % FUNCTIONS + 1)
}

// Gives up the tree of a function, and says the function's bit, or 0 where it has none.
fn give_up<M: Memory>(pool: &mut NodePool, memory: &mut M, roots: &mut Roots, g: FnNo) -> u16
    requires function { IsFunction g.0 }
    requires tree { root_of roots.old g.0 ≢ 0 → HasTree pool.old (M.known memory.old).words (root_of roots.old g.0) }
    ensures turn { TakesTurn (M.known memory.old).words g.0 result
        (record { pool = pool.old; roots = roots.old })
        (record { pool = pool.new; roots = roots.new }) }
    ensures memory { M.known memory.new ≡ M.known memory.old }
{
    let root = roots.get(g);
    if root == 0 {
        return 0;
    }
    drop_tree(pool, memory, root);
    roots.set(g, 0);
    1 << (g.0 - 1)
}
