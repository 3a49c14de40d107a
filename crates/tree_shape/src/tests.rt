ghost use Rattle.std.specs.Prelude.{◌≡◌, ◌+◌, ◌*◌, ◌≤◌, length, map, slice_get};
ghost use Rattle.std.specs.List.{range_with_len};
ghost use Rattle.nesc_base.specs.Runs.{AreRuns};

use crate::{border_of, children_of, leaf_over, node_over, top_of, width_of};
use nesc_base::{LONGEST_FILE, Run, Runs};

/// So many runs of one block each: every second block of a file from its first on, at places one behind the other from
/// 275 on.
#[derive(Drop)]
struct Spaced {
    count: u32,
    ghost few: { count ≤ 65536 },
}

impl Runs for Spaced {
    ghost runs = { λ spaced.
        map (λ k. record { first = 2 * k; count = 1; place = 275 + k }) (range_with_len 0 spaced.count) };

    fn count(&self) -> u32 {
        self.count
    }

    fn run(&self, k: u32) -> Option<Run> {
        if k >= self.count {
            return None;
        }
        Some(Run {
            first: 2 * k,
            count: 1,
            place: 275 + k,
        })
    }
}

#[test]
fn roots_stand_as_low_as_they_can(rt: HostRuntime) {
    assert_eq!(rt; top_of(0), 0);
    assert_eq!(rt; top_of(1), 0);
    assert_eq!(rt; top_of(10), 0);
    assert_eq!(rt; top_of(11), 1);
    assert_eq!(rt; top_of(100), 1);
    assert_eq!(rt; top_of(101), 2);
    assert_eq!(rt; top_of(65_536), 4);
    assert_eq!(rt; top_of(100_000), 4);
    assert_eq!(rt; top_of(100_001), 5);
    assert_eq!(rt; top_of(1_000_001), 6);
}

#[test]
fn eleven_runs_have_two_leaves(rt: HostRuntime) {
    let runs = Spaced { count: 11 };
    assert_eq!(rt; width_of(11, 0), 2);
    assert_eq!(rt; width_of(11, 1), 1);
    assert_eq!(rt; children_of(11, 0, 0), 2);
    assert_eq!(rt; border_of(&runs, 0, 0), 0);
    assert_eq!(rt; border_of(&runs, 0, 1), 20);
    assert_eq!(rt; border_of(&runs, 0, 2), 1_048_576);
    assert_eq!(rt; border_of(&runs, 1, 0), 0);
    assert_eq!(rt; border_of(&runs, 1, 1), 1_048_576);
}

#[test]
fn each_block_has_its_leaf(rt: HostRuntime) {
    let runs = Spaced { count: 11 };
    for (v, leaf) in [(0, 0), (1, 0), (19, 0), (20, 1), (21, 1), (1_048_575, 1)] {
        assert_eq!(rt; leaf_over(&runs, v), leaf, "block {v}");
    }
}

#[test]
fn one_leaf_covers_all_blocks_of_a_file_with_few_runs(rt: HostRuntime) {
    for count in [0, 10] {
        let runs = Spaced { count };
        assert_eq!(rt; width_of(count, 0), 1);
        assert_eq!(rt; border_of(&runs, 0, 0), 0);
        assert_eq!(rt; border_of(&runs, 0, 1), 1_048_576);
        assert_eq!(rt; leaf_over(&runs, 0), 0);
        assert_eq!(rt; leaf_over(&runs, 1_048_575), 0);
    }
}

#[test]
fn a_deep_tree_narrows_level_by_level(rt: HostRuntime) {
    let runs = Spaced { count: 65_536 };
    // Run 54,321 begins with block 108,642 and is of leaf 5,432.
    assert_eq!(rt; leaf_over(&runs, 108_642), 5_432);
    let path = [
        (0, 5_432, 6_554),
        (1, 543, 656),
        (2, 54, 66),
        (3, 5, 7),
        (4, 0, 1),
    ];
    for (level, node, width) in path {
        assert_eq!(rt; node_over(level, 5_432), node, "level {level}");
        assert_eq!(rt; width_of(65_536, level), width, "level {level}");
    }
    // The last node of each level has what is left.
    assert_eq!(rt; children_of(65_536, 0, 655), 4);
    assert_eq!(rt; children_of(65_536, 3, 0), 7);
    assert_eq!(rt; border_of(&runs, 3, 5), 100_000);
    assert_eq!(rt; border_of(&runs, 3, 6), 120_000);
    assert_eq!(rt; border_of(&runs, 3, 7), 1_048_576);
}
