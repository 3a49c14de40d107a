use crate::forest::Forest;
use crate::plain_tree::spaced;
use nesc_base::{FnNo, NoMemory, Run};
use std::alloc::Global;
use std::test::Fail;
use tree_builder::Built;
use tree_walker::{Found, WalkEnd};

/// Files of eleven runs, and a pool of eight nodes. The whole trees of functions 1 and 2 stand, which is six nodes, and
/// the path to block 0 in the tree of function 3 takes the last two.
fn full(alloc: Global) -> Result<Forest, NoMemory> {
    let mut forest = Forest::new(alloc, spaced(alloc, 11)?, 8)?;
    for (f, v) in [(1, 0), (1, 20), (2, 0), (2, 20), (3, 0)] {
        forest.reach(FnNo(f), v);
    }
    Ok(forest)
}

/// How a walk ends at a run of one block.
fn mapped(first: u32, place: u32) -> WalkEnd {
    let run = Run {
        first,
        count: 1,
        place,
    };
    WalkEnd {
        found: Found::Mapped(run),
        fetched: 2,
    }
}

/// How a walk ends where so many nodes of the path stand.
fn pruned(fetched: u32) -> WalkEnd {
    WalkEnd {
        found: Found::Pruned,
        fetched,
    }
}

#[test]
fn no_tree_is_given_up_while_enough_nodes_are_free(rt: HostRuntime) -> Result<(), Fail> {
    let mut forest = Forest::new(rt.alloc(), spaced(rt.alloc(), 11)?, 8)?;
    for (f, v, free) in [(1, 0, 6), (1, 20, 5), (2, 0, 3), (2, 20, 2), (3, 0, 0)] {
        assert_eq!(rt;
            forest.reach(FnNo(f), v).map(|(victims, _)| victims),
            Some(0),
            "{f} {v}"
        );
        assert_eq!(rt; forest.free(), free, "{f} {v}");
    }
    for f in [1, 2, 3] {
        assert_eq!(rt; forest.walk(FnNo(f), 4), mapped(4, 277), "{f}");
    }
    assert_eq!(rt; forest.walk(FnNo(3), 20), pruned(1));
    assert_eq!(rt; forest.walk(FnNo(4), 0), pruned(0));
    assert_eq!(rt; forest.build(FnNo(3), 20), None);
    Ok(())
}

#[test]
fn next_function_that_has_a_tree_gives_it_up(rt: HostRuntime) -> Result<(), Fail> {
    let mut forest = full(rt.alloc())?;
    let root = forest.root(FnNo(3));
    let built = Built {
        root,
        lo: 20,
        hi: 1_048_576,
        nodes: 1,
    };
    assert_eq!(rt; forest.reach(FnNo(3), 20), Some((0b1, built)));
    assert_eq!(rt; forest.free(), 2);
    assert_eq!(rt; forest.root(FnNo(1)), 0);
    assert_eq!(rt; forest.walk(FnNo(1), 0), pruned(0));
    for f in [2, 3] {
        assert_eq!(rt; forest.walk(FnNo(f), 0), mapped(0, 275), "{f}");
        assert_eq!(rt; forest.walk(FnNo(f), 20), mapped(20, 285), "{f}");
    }
    Ok(())
}

#[test]
fn functions_after_the_own_come_before_those_before_it(rt: HostRuntime) -> Result<(), Fail> {
    let mut forest = full(rt.alloc())?;
    assert_eq!(rt; forest.reclaim(FnNo(1), 3), Some(0b10));
    assert_eq!(rt; (forest.root(FnNo(2)), forest.free()), (0, 3));
    assert_eq!(rt; forest.reclaim(FnNo(1), 5), Some(0b100));
    assert_eq!(rt; (forest.root(FnNo(3)), forest.free()), (0, 5));
    assert_eq!(rt; forest.walk(FnNo(1), 20), mapped(20, 285));
    Ok(())
}

#[test]
fn as_many_trees_go_as_it_takes_and_the_own_last(rt: HostRuntime) -> Result<(), Fail> {
    for (f, needed, victims, free) in [
        (1, 0, 0, 0),
        (2, 1, 0b100, 2),
        (16, 4, 0b11, 6),
        (2, 5, 0b101, 5),
        (3, 8, 0b111, 8),
        (5, 8, 0b111, 8),
    ] {
        let mut forest = full(rt.alloc())?;
        assert_eq!(rt;
            forest.reclaim(FnNo(f), needed),
            Some(victims),
            "{f} {needed}"
        );
        assert_eq!(rt; forest.free(), free, "{f} {needed}");
    }
    Ok(())
}

#[test]
fn whole_path_is_built_where_the_own_tree_went(rt: HostRuntime) -> Result<(), Fail> {
    let mut forest = Forest::new(rt.alloc(), spaced(rt.alloc(), 11)?, 2)?;
    assert_eq!(rt;
        forest.reach(FnNo(1), 0).map(|(victims, _)| victims),
        Some(0)
    );
    assert_eq!(rt; forest.needed(FnNo(1), 20), Some(1));
    let reached = forest.reach(FnNo(1), 20);
    let root = forest.root(FnNo(1));
    let built = Built {
        root,
        lo: 20,
        hi: 1_048_576,
        nodes: 2,
    };
    assert_eq!(rt; reached, Some((0b1, built)));
    assert_eq!(rt; forest.free(), 0);
    assert_eq!(rt; forest.walk(FnNo(1), 20), mapped(20, 285));
    assert_eq!(rt; forest.walk(FnNo(1), 0), pruned(1));
    Ok(())
}
