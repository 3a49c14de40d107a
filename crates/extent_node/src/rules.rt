ghost use Rattle.std.specs.Prelude.{◌≡◌, ◌↔◌, ℕ, ◌+◌, ◌*◌, ◌<◌, ◌≤◌, IsTrue, MatchOption};
ghost use Rattle.extent_node.specs.Entries.{most_entries};
ghost use Rattle.extent_node.specs.Rules.{CountRule, FirstRule, IsChildIn, KindRule, LiesIn};
ghost use Rattle.extent_node.specs.Rules.{NumberRule, PlaceRule};
ghost use Rattle.extent_node.specs.Words.{count_word, first_word, kind_word, place_word, word};

use crate::entries::MOST_ENTRIES;
use crate::node::Kind;
use nesc_base::{Area, LONGEST_FILE, NODE_WORDS};

// The words of a node that say its kind and how many entries it has.
pub const KIND: usize = 0;

pub const NUMBER: usize = 1;

const LEAF: u64 = 1;

const INNER: u64 = 2;

// The three words of entry `k`.
pub fn first_of(k: usize) -> usize
    requires { k < most_entries }
    ensures { result ≡ first_word k }
{
    2 + 3 * k
}

pub fn count_of(k: usize) -> usize
    requires { k < most_entries }
    ensures { result ≡ count_word k }
{
    3 + 3 * k
}

pub fn place_of(k: usize) -> usize
    requires { k < most_entries }
    ensures { result ≡ place_word k }
{
    4 + 3 * k
}

// What the words are by the first, or `None` where it says nothing.
pub fn kind_in(words: &[u64; NODE_WORDS]) -> Option<Kind>
    ensures { MatchOption result (¬ KindRule words.now) (λ kind. word words.now 0 ≡ kind_word kind) }
{
    match words[KIND] {
        LEAF => Some(Kind::Leaf),
        INNER => Some(Kind::Inner),
        _ => None,
    }
}

// The word that says a kind.
pub fn word_of(kind: Kind) -> u64
    ensures { result ≡ kind_word kind }
{
    match kind {
        Kind::Leaf => LEAF,
        Kind::Inner => INNER,
    }
}

pub fn keeps_number_rule(words: &[u64; NODE_WORDS], kind: Kind) -> bool
    requires { word words.now 0 ≡ kind_word kind }
    ensures { IsTrue result ↔ NumberRule words.now }
{
    let number = words[NUMBER];
    let fewest = match kind {
        Kind::Leaf => 0,
        Kind::Inner => 1,
    };
    fewest <= number && number <= u64::from(MOST_ENTRIES)
}

// The entry before, where there is one, keeps its rules.
pub fn keeps_first_rule(words: &[u64; NODE_WORDS], kind: Kind, k: usize) -> bool
    requires kind { word words.now 0 ≡ kind_word kind }
    requires within { k < most_entries }
    requires earlier { (before : ℕ) → k ≡ before + 1 → CountRule words.now before }
    ensures { IsTrue result ↔ FirstRule words.now k }
{
    if k == 0 {
        return true;
    }
    let end = words[first_of(k - 1)] + words[count_of(k - 1)];
    let first = words[first_of(k)];
    match kind {
        Kind::Leaf => end <= first,
        Kind::Inner => end == first,
    }
}

pub fn keeps_count_rule(words: &[u64; NODE_WORDS], k: usize) -> bool
    requires { k < most_entries }
    ensures { IsTrue result ↔ CountRule words.now k }
{
    let longest = u64::from(LONGEST_FILE);
    let (first, count) = (words[first_of(k)], words[count_of(k)]);
    1 <= count && first <= longest && count <= longest - first
}

// The blocks lie in the area.
fn lies_in(area: Area, place: u64, count: u64) -> bool
    ensures { IsTrue result ↔ LiesIn area place count }
{
    let end = u64::from(area.to);
    u64::from(area.from) <= place && place <= end && count <= end - place
}

// Nothing, or an address at which a node may stand in so many words.
fn is_child_in(memory_words: u32, address: u64) -> bool
    ensures { IsTrue result ↔ IsChildIn memory_words address }
{
    let (words, size) = (u64::from(memory_words), NODE_WORDS as u64);
    address == 0 || (address % size == 0 && address <= words && size <= words - address)
}

pub fn keeps_place_rule(
    words: &[u64; NODE_WORDS],
    kind: Kind,
    k: usize,
    memory_words: u32,
    area: Area,
) -> bool
    requires kind { word words.now 0 ≡ kind_word kind }
    requires within { k < most_entries }
    ensures { IsTrue result ↔ PlaceRule words.now memory_words area k }
{
    let place = words[place_of(k)];
    match kind {
        Kind::Leaf => lies_in(area, place, words[count_of(k)]),
        Kind::Inner => is_child_in(memory_words, place),
    }
}
