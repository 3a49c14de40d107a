ghost use Rattle.std.specs.Prelude.{◌≡◌, ◌+◌, ◌*◌, ◌<◌, ◌≤◌, Some, length, map, slice_get};
ghost use Rattle.extent_node.specs.Words.{node_words};
ghost use Rattle.extent_node.specs.declared.node.Kind.TheVariants as kind;
ghost use Rattle.tree_shape.specs.Shape.{fanout, highest, width};
ghost use Rattle.tree_words.specs.Shown.{inner_entries, leaf_entries, leaf_entry};
ghost use Rattle.tree_builder.specs.Ways.{only, path_words};

use crate::way::slot_of;
use extent_node::{Entries, Entry, Node, write_node};
use nesc_base::{NODE_WORDS, Runs};
use tree_shape::{FANOUT, border_of, children_of, node_over};

/// The words of the node of a level that leads to a leaf. Of its children one stands, at an address.
pub fn words_of<R: Runs>(runs: &R, level: u32, leaf: u32, child: u32) -> [u64; NODE_WORDS]
    requires low { level ≤ highest }
    requires among { leaf < width (length (R.runs runs.now)) 0 }
    ensures { result ≡ path_words (R.runs runs.now) leaf level child }
{
    if level == 0 {
        return leaf_node(runs, leaf);
    }
    let below = level - 1;
    inner_node(
        runs,
        below,
        node_over(level, leaf),
        slot_of(below, leaf),
        child,
    )
}

// The words of a leaf: its runs.
fn leaf_node<R: Runs>(runs: &R, leaf: u32) -> [u64; NODE_WORDS]
    requires { leaf < width (length (R.runs runs.now)) 0 }
    ensures { result ≡ node_words kind.Leaf (leaf_entries (R.runs runs.now) leaf) }
{
    let count = runs.count();
    let first = leaf * FANOUT;
    let mut entries = Entries::none();
    for i in 0..count.saturating_sub(first).min(FANOUT) {
        entries.push(run_entry(runs, first + i));
    }
    write_node(&Node::Leaf(entries))
}

// The entry of a leaf for the run at a place.
fn run_entry<R: Runs>(runs: &R, k: u32) -> Entry
    requires { k < length (R.runs runs.now) }
    ensures { slice_get (map leaf_entry (R.runs runs.now)) k ≡ Some result }
{
    let Some(run) = runs.run(k) else {
        unreachable!()
    };
    Entry {
        first: run.first,
        count: run.count,
        place: run.place,
    }
}

// The words of node `k` above a level, of whose children the one in a slot stands at an address and no other stands.
fn inner_node<R: Runs>(runs: &R, level: u32, k: u32, slot: u32, child: u32) -> [u64; NODE_WORDS]
    requires low { level < highest }
    requires among { k < width (length (R.runs runs.now)) (level + 1) }
    requires slot { slot < fanout }
    ensures { let layout = only level (k * fanout + slot) child in
        result ≡ node_words kind.Inner (inner_entries (R.runs runs.now) layout level k) }
{
    let count = runs.count();
    let first = k * FANOUT;
    let mut begin = border_of(runs, level, first);
    let mut entries = Entries::none();
    for i in 0..children_of(count, level, k) {
        let end = border_of(runs, level, first + i + 1);
        let place = if i == slot { child } else { 0 };
        entries.push(Entry {
            first: begin,
            count: end - begin,
            place,
        });
        begin = end;
    }
    write_node(&Node::Inner(entries))
}
