ghost use Rattle.std.specs.Prelude.{◌≤◌, length};

use crate::{BadNode, Entries, Entry, Kind, Node, check_node, holding, read_node, write_node};
use nesc_base::Area;

const AREA: Area = Area { from: 275, to: 291 };

const MEMORY_WORDS: u32 = 128;

/// The words of a node that begins with these.
fn node_words(beginning: &[u64]) -> [u64; 32] {
    let mut words = [0; 32];
    for (word, first) in words.iter_mut().zip(beginning) {
        *word = *first;
    }
    words
}

/// The first bad word of a node that begins with these, or `None` where it is a node.
fn first_bad(beginning: &[u64]) -> Option<u32> {
    let bad = read_node(&node_words(beginning), 32, MEMORY_WORDS, AREA).err()?;
    Some(bad.word)
}

/// The words of a node that begins with these, read and written.
fn written_again(beginning: &[u64]) -> Option<[u64; 32]> {
    let node = read_node(&node_words(beginning), 32, MEMORY_WORDS, AREA).ok()?;
    Some(write_node(&node))
}

#[test]
fn leaf_of_one_run_is_five_words_and_zeros(rt: HostRuntime) {
    let mut entries = Entries::none();
    entries.push(Entry {
        first: 3,
        count: 1,
        place: 275,
    });
    let words = write_node(&Node::Leaf(entries));
    assert_eq!(rt; words, node_words(&[1, 1, 3, 1, 275]));
}

#[test]
fn eleven_entries_are_one_too_many(rt: HostRuntime) {
    let bad = read_node(&node_words(&[1, 11]), 32, MEMORY_WORDS, AREA).err();
    assert_eq!(rt;
        bad,
        Some(BadNode {
            address: 32,
            word: 1
        })
    );
    assert_eq!(rt; first_bad(&[2, 11]), Some(1));
}

#[test]
fn each_word_of_a_leaf_is_judged(rt: HostRuntime) {
    assert_eq!(rt; first_bad(&[1, 2, 3, 1, 275, 4, 2, 289]), None);
    for (leaf, bad) in [
        ([0, 2, 3, 1, 275, 4, 2, 289, 0], 0),
        ([3, 2, 3, 1, 275, 4, 2, 289, 0], 0),
        ([1, 1 << 32, 3, 1, 275, 4, 2, 289, 0], 1),
        ([1, 2, 1_048_576, 1, 275, 4, 2, 289, 0], 3),
        ([1, 2, 3, 0, 275, 4, 2, 289, 0], 3),
        ([1, 2, 3, 1, 274, 4, 2, 289, 0], 4),
        ([1, 2, 3, 1, 291, 4, 2, 289, 0], 4),
        ([1, 2, 3, 1, 275, 3, 2, 289, 0], 5),
        ([1, 2, 3, 1, 275, 4, 1_048_573, 289, 0], 6),
        ([1, 2, 3, 1, 275, 4, 2, 290, 0], 7),
        ([1, 2, 3, 1, 275, 4, 2, 289, 1], 8),
    ] {
        assert_eq!(rt; first_bad(&leaf), Some(bad), "{leaf:?}");
    }
}

#[test]
fn each_word_of_an_inner_node_is_judged(rt: HostRuntime) {
    assert_eq!(rt; first_bad(&[2, 2, 0, 10, 96, 10, 5, 0]), None);
    for (inner, bad) in [
        ([4, 2, 0, 10, 96, 10, 5, 0, 0], 0),
        ([2, 0, 0, 10, 96, 10, 5, 0, 0], 1),
        ([2, 2, 0, 1_048_577, 96, 10, 5, 0, 0], 3),
        ([2, 2, 0, 10, 33, 10, 5, 0, 0], 4),
        ([2, 2, 0, 10, 128, 10, 5, 0, 0], 4),
        ([2, 2, 0, 10, 1 << 32, 10, 5, 0, 0], 4),
        ([2, 2, 0, 10, 96, 11, 5, 0, 0], 5),
        ([2, 2, 0, 10, 96, 9, 5, 0, 0], 5),
        ([2, 2, 0, 10, 96, 10, 0, 0, 0], 6),
        ([2, 2, 0, 10, 96, 10, 5, 128, 0], 7),
        ([2, 2, 0, 10, 96, 10, 5, 0, 7], 8),
    ] {
        assert_eq!(rt; first_bad(&inner), Some(bad), "{inner:?}");
    }
}

#[test]
fn first_bad_word_is_the_lowest(rt: HostRuntime) {
    assert_eq!(rt; first_bad(&[1, 1, 0, 0, 0, 9]), Some(3));
    assert_eq!(rt; first_bad(&[1, 0, 5]), Some(2));
}

#[test]
fn nodes_are_read_and_written_again(rt: HostRuntime) {
    let ten: [u64; 32] = [
        1, 10, 0, 1, 275, 2, 1, 276, 4, 1, 277, 6, 1, 278, 8, 1, 279, 10, 1, 280, 12, 1, 281, 14,
        1, 282, 16, 1, 283, 1_048_575, 1, 290,
    ];
    assert_eq!(rt; written_again(&ten), Some(ten));
    let inner = [2, 3, 0, 10, 96, 10, 5, 0, 15, 1_048_561, 32];
    assert_eq!(rt; written_again(&inner), Some(node_words(&inner)));
    assert_eq!(rt; written_again(&[1]), Some(node_words(&[1])));
}

/// Where the block stands by a leaf of the runs 3 to 4 and 5, which touch.
fn place_of(v: u32) -> Option<u32> {
    let words = node_words(&[1, 2, 3, 2, 275, 5, 1, 290]);
    let Ok(Kind::Leaf) = check_node(&words, 32, MEMORY_WORDS, AREA) else {
        return None;
    };
    Some(holding(&words, v)?.place)
}

#[test]
fn entry_holds_its_blocks_alone(rt: HostRuntime) {
    for (v, place) in [
        (2, None),
        (3, Some(275)),
        (4, Some(275)),
        (5, Some(290)),
        (6, None),
    ] {
        assert_eq!(rt; place_of(v), place, "{v}");
    }
}
