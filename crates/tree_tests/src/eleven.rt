use crate::Planting;
use crate::plain_tree::spaced;
use nesc_base::{NODE_WORDS, NoMemory, Run};
use std::alloc::Global;
use std::test::Fail;
use tree_builder::Built;
use tree_pruner::Pruned;
use tree_walker::{Found, WalkEnd};

/// A file of eleven runs, and a pool of eight nodes.
fn eleven(alloc: Global) -> Result<Planting, NoMemory> {
    Planting::new(alloc, spaced(alloc, 11)?, 8)
}

/// Whether the words of the node at an address begin so and are 0 from there on.
fn says(planting: &Planting, node: u32, beginning: &[u64]) -> bool {
    (0..NODE_WORDS).all(|k| {
        let word = planting.word(node.saturating_add(k as u32));
        word == Some(beginning.get(k).copied().unwrap_or(0))
    })
}

fn mapped(first: u32, place: u32) -> WalkEnd {
    WalkEnd {
        found: Found::Mapped(Run {
            first,
            count: 1,
            place,
        }),
        fetched: 2,
    }
}

#[test]
fn path_to_the_first_block_is_a_leaf_and_a_root(rt: HostRuntime) -> Result<(), Fail> {
    let mut planting = eleven(rt.alloc())?;
    assert_eq!(rt; planting.needed(0), Some(2));
    let built = planting.build(0).expect(&rt, "it is built");
    let root = built.root;
    assert_eq!(rt;
        built,
        Built {
            root,
            lo: 0,
            hi: 20,
            nodes: 2
        }
    );
    assert_eq!(rt; planting.root(), root);
    assert_eq!(rt; planting.free(), 6);
    let leaf = planting.word(root.saturating_add(4)).unwrap_or(0);
    assert_ne!(rt; leaf, 0);
    assert!(rt; says(&planting, root, &[2, 2, 0, 20, leaf, 20, 1_048_556, 0]));
    assert_eq!(rt; planting.needed(0), Some(0));
    assert_eq!(rt; planting.build(0), None);
    Ok(())
}

#[test]
fn leaf_has_the_words_of_its_runs(rt: HostRuntime) -> Result<(), Fail> {
    let mut planting = eleven(rt.alloc())?;
    let root = planting.build(20).map_or(0, |built| built.root);
    let leaf = planting.word(root.saturating_add(7)).unwrap_or(0);
    assert!(rt; says(&planting, leaf.min(256) as u32, &[1, 1, 20, 1, 285]));
    Ok(())
}

#[test]
fn walks_end_at_runs_holes_and_what_does_not_stand(rt: HostRuntime) -> Result<(), Fail> {
    let mut planting = eleven(rt.alloc())?;
    let pruned = |fetched| WalkEnd {
        found: Found::Pruned,
        fetched,
    };
    let hole = WalkEnd {
        found: Found::Hole,
        fetched: 2,
    };
    assert_eq!(rt; planting.walk(0), pruned(0));
    assert!(rt; planting.build(0).is_some());
    for (v, end) in [
        (0, mapped(0, 275)),
        (1, hole),
        (18, mapped(18, 284)),
        (19, hole),
        (20, pruned(1)),
    ] {
        assert_eq!(rt; planting.walk(v), end, "block {v}");
    }
    assert_eq!(rt; planting.needed(20), Some(1));
    let root = planting.root();
    let built = Built {
        root,
        lo: 20,
        hi: 1_048_576,
        nodes: 1,
    };
    assert_eq!(rt; planting.build(1_048_575), Some(built));
    for (v, end) in [(20, mapped(20, 285)), (21, hole), (1_048_575, hole)] {
        assert_eq!(rt; planting.walk(v), end, "block {v}");
    }
    Ok(())
}

#[test]
fn leaf_that_is_pruned_is_built_again(rt: HostRuntime) -> Result<(), Fail> {
    let mut planting = eleven(rt.alloc())?;
    planting.build(0);
    planting.build(20);
    let root = planting.root();
    assert_eq!(rt;
        planting.prune(5),
        Some(Pruned {
            lo: 0,
            hi: 20,
            root
        })
    );
    assert_eq!(rt; planting.prune(5), None);
    assert_eq!(rt; planting.free(), 6);
    assert_eq!(rt;
        planting.walk(5),
        WalkEnd {
            found: Found::Pruned,
            fetched: 1
        }
    );
    assert_eq!(rt; planting.walk(20), mapped(20, 285));
    assert_eq!(rt;
        planting.build(19),
        Some(Built {
            root,
            lo: 0,
            hi: 20,
            nodes: 1
        })
    );
    assert_eq!(rt; planting.walk(6), mapped(6, 278));
    Ok(())
}

#[test]
fn last_leaf_covers_all_blocks_behind_its_runs(rt: HostRuntime) -> Result<(), Fail> {
    let mut planting = eleven(rt.alloc())?;
    planting.build(0);
    planting.build(20);
    let root = planting.root();
    assert_eq!(rt;
        planting.prune(1_048_575),
        Some(Pruned {
            lo: 20,
            hi: 1_048_576,
            root
        })
    );
    assert_eq!(rt; planting.walk(0), mapped(0, 275));
    assert_eq!(rt;
        planting.walk(20),
        WalkEnd {
            found: Found::Pruned,
            fetched: 1
        }
    );
    assert_eq!(rt; planting.needed(20), Some(1));
    Ok(())
}

#[test]
fn whole_tree_is_given_back(rt: HostRuntime) -> Result<(), Fail> {
    let mut planting = eleven(rt.alloc())?;
    assert_eq!(rt; planting.drop_all(), 0);
    planting.build(0);
    planting.build(20);
    assert_eq!(rt; planting.free(), 5);
    assert_eq!(rt; planting.drop_all(), 3);
    assert_eq!(rt; planting.free(), 8);
    assert_eq!(rt; planting.root(), 0);
    assert_eq!(rt; planting.needed(0), Some(2));
    Ok(())
}

#[test]
fn no_path_is_built_without_enough_nodes(rt: HostRuntime) -> Result<(), Fail> {
    let mut planting = Planting::new(rt.alloc(), spaced(rt.alloc(), 11)?, 2)?;
    assert!(rt; planting.build(0).is_some());
    assert_eq!(rt; planting.build(20), None);
    assert_eq!(rt; planting.walk(2), mapped(2, 276));
    assert_eq!(rt; planting.build(1_048_576), None);
    assert_eq!(rt; planting.prune(1_048_576), None);
    assert_eq!(rt; planting.needed(1_048_576), None);
    Ok(())
}
