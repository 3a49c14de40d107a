use crate::Planting;
use crate::plain_tree::{PlainTree, spaced, walk_alike};
use nesc_base::{NoMemory, Run};
use std::alloc::Global;
use std::test::Fail;
use tree_walker::{Found, WalkEnd};

/// Blocks of a file of 60,000 runs, of which some are held and some not, over leaves that share many nodes and few.
const BLOCKS: [u32; 24] = [
    0, 19, 20, 200, 1_999, 2_000, 19_999, 20_000, 20_018, 20_020, 39_998, 40_001, 59_999, 60_000,
    77_776, 77_780, 99_980, 99_999, 100_000, 100_020, 119_960, 119_979, 119_980, 1_048_575,
];

/// A file of 60,000 runs, whose tree has five levels, and a pool of so many nodes.
fn deep(alloc: Global, nodes: u16) -> Result<Planting, NoMemory> {
    Planting::new(alloc, spaced(alloc, 60_000)?, nodes)
}

#[test]
fn path_of_a_deep_tree_has_five_nodes(rt: HostRuntime) -> Result<(), Fail> {
    let mut planting = deep(rt.alloc(), 8)?;
    assert_eq!(rt; planting.needed(108_642), Some(5));
    let built = planting.build(108_642).expect(&rt, "it is built");
    assert_eq!(rt; (built.lo, built.hi, built.nodes), (108_640, 108_660, 5));
    let run = Run {
        first: 108_642,
        count: 1,
        place: 54_596,
    };
    assert_eq!(rt;
        planting.walk(108_642),
        WalkEnd {
            found: Found::Mapped(run),
            fetched: 5
        }
    );
    // A node above the leaves covers 200, 2,000 or 20,000 blocks, and the root all.
    for (v, fetched, needed) in [
        (108_660, 4, 1),
        (108_800, 3, 2),
        (108_599, 3, 2),
        (110_000, 2, 3),
        (99_999, 1, 4),
    ] {
        assert_eq!(rt;
            planting.walk(v),
            WalkEnd {
                found: Found::Pruned,
                fetched
            },
            "block {v}"
        );
        assert_eq!(rt; planting.needed(v), Some(needed), "block {v}");
    }
    Ok(())
}

#[test]
fn deep_tree_is_built_leaf_by_leaf_and_pruned_in_another_order(
    rt: HostRuntime,
) -> Result<(), Fail> {
    let mut planting = deep(rt.alloc(), 200)?;
    let mut plain = PlainTree::none(rt.alloc());
    for v in BLOCKS {
        let came = plain.build(planting.runs(), v)?;
        assert_eq!(rt;
            planting.build(v).map_or(0, |built| built.nodes as usize),
            came,
            "block {v}"
        );
        assert!(rt;
            walk_alike(&mut planting, &plain, &BLOCKS),
            "block {v} built"
        );
    }
    for k in 0..BLOCKS.len() {
        let v = BLOCKS[k * 7 % BLOCKS.len()];
        plain.prune(planting.runs(), v);
        planting.prune(v);
        assert_eq!(rt;
            200_u32.saturating_sub(planting.free()) as usize,
            plain.count(),
            "block {v} pruned"
        );
        assert!(rt;
            walk_alike(&mut planting, &plain, &BLOCKS),
            "block {v} pruned"
        );
    }
    assert_eq!(rt; planting.drop_all() as usize, plain.count());
    assert_eq!(rt; planting.free(), 200);
    Ok(())
}
