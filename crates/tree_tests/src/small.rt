use crate::Planting;
use crate::plain_runs::PlainRuns;
use crate::plain_tree::{PlainTree, spaced, walk_alike};
use nesc_base::Run;
use std::test::Fail;
use tree_builder::Built;
use tree_pruner::Pruned;
use tree_walker::{Found, WalkEnd};

#[test]
fn runs_of_a_file_rise_and_are_as_few_as_they_can_be(rt: HostRuntime) -> Result<(), Fail> {
    let mut runs = PlainRuns::none(rt.alloc());
    for (first, count, place, put) in [
        (4, 0, 300, false),
        (4, 2, 300, true),
        (5, 1, 400, false),
        (6, 1, 302, false),
        (6, 1, 303, true),
        (1_048_575, 2, 310, false),
        (1_048_575, 1, 4_294_967_295, false),
        (1_048_575, 1, 310, true),
    ] {
        assert_eq!(rt;
            runs.push(Run {
                first,
                count,
                place
            })?,
            put,
            "run {first} {count} {place}"
        );
    }
    Ok(())
}

#[test]
fn file_without_runs_has_one_empty_leaf(rt: HostRuntime) -> Result<(), Fail> {
    let mut planting = Planting::new(rt.alloc(), PlainRuns::none(rt.alloc()), 1)?;
    let root = 32;
    assert_eq!(rt;
        planting.build(7),
        Some(Built {
            root,
            lo: 0,
            hi: 1_048_576,
            nodes: 1
        })
    );
    assert_eq!(rt; planting.word(32), Some(1));
    assert_eq!(rt; planting.word(33), Some(0));
    for v in [0, 7, 1_048_575] {
        assert_eq!(rt;
            planting.walk(v),
            WalkEnd {
                found: Found::Hole,
                fetched: 1
            },
            "block {v}"
        );
    }
    Ok(())
}

#[test]
fn leaf_of_ten_runs_is_the_root(rt: HostRuntime) -> Result<(), Fail> {
    let mut planting = Planting::new(rt.alloc(), spaced(rt.alloc(), 10)?, 1)?;
    let built = Built {
        root: 32,
        lo: 0,
        hi: 1_048_576,
        nodes: 1,
    };
    assert_eq!(rt; planting.build(1_048_575), Some(built));
    let run = Run {
        first: 18,
        count: 1,
        place: 284,
    };
    assert_eq!(rt;
        planting.walk(18),
        WalkEnd {
            found: Found::Mapped(run),
            fetched: 1
        }
    );
    assert_eq!(rt;
        planting.prune(0),
        Some(Pruned {
            lo: 0,
            hi: 1_048_576,
            root: 0
        })
    );
    assert_eq!(rt; planting.root(), 0);
    assert_eq!(rt; planting.free(), 1);
    assert_eq!(rt;
        planting.walk(18),
        WalkEnd {
            found: Found::Pruned,
            fetched: 0
        }
    );
    Ok(())
}

#[test]
fn each_block_is_found_after_each_change(rt: HostRuntime) -> Result<(), Fail> {
    for count in [11, 25] {
        let mut planting = Planting::new(rt.alloc(), spaced(rt.alloc(), count)?, 4)?;
        let mut plain = PlainTree::none(rt.alloc());
        let blocks: Vec<u32> = (0..60).collect(rt.alloc())?;
        for v in [25, 3, 41] {
            if planting.build(v).is_some() {
                plain.build(planting.runs(), v)?;
            }
            assert!(rt;
                walk_alike(&mut planting, &plain, &blocks),
                "{count} runs, {v} built"
            );
        }
        for v in [3, 59, 20] {
            if planting.prune(v).is_some() {
                plain.prune(planting.runs(), v);
            }
            assert!(rt;
                walk_alike(&mut planting, &plain, &blocks),
                "{count} runs, {v} pruned"
            );
        }
    }
    Ok(())
}
