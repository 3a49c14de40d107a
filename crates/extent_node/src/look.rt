ghost use Rattle.std.specs.Prelude.{◌≡◌, ℕ, ◌<◌, List, MatchOption};
ghost use Rattle.extent_node.specs.Entries.{most_entries};
ghost use Rattle.extent_node.specs.Rules.{HasHolding, Holds, HoldsNone};
ghost use Rattle.extent_node.specs.Words.{AreReadable, entry_at, node_words, word};
ghost use Rattle.extent_node.specs.declared.entries.Entry.{Entry};
ghost use Rattle.extent_node.specs.declared.node.Kind.{Kind};

use crate::entries::Entry;
use crate::rules::{NUMBER, count_of, first_of, place_of};
use nesc_base::NODE_WORDS;

/// Entry `k` of these words, of which each is a number of 32 bits.
pub fn entry_in(words: &[u64; NODE_WORDS], k: u32) -> Entry
    requires within { k < most_entries }
    requires readable { AreReadable words.now }
    ensures { result ≡ entry_at words.now k }
{
    let k = k as usize;
    Entry {
        first: words[first_of(k)] as u32,
        count: words[count_of(k)] as u32,
        place: words[place_of(k)] as u32,
    }
}

/// The entry that has block `v`, or `None` where none has it, if the words are a node's.
pub fn holding(words: &[u64; NODE_WORDS], v: u32) -> Option<Entry>
    requires { AreReadable words.now }
    ensures { (kind : Kind) (entries : List Entry) → words.now ≡ node_words kind entries
        → MatchOption result (HoldsNone entries v) (λ entry. HasHolding entries v entry) }
{
    holding_in_place(words, v)
}

// The entry of the words that has block `v`.
fn holding_in_place(words: &[u64; NODE_WORDS], v: u32) -> Option<Entry>
    requires { AreReadable words.now }
    ensures { MatchOption result
        ((k : ℕ) → k < word words.now 1 → ¬ Holds (entry_at words.now k) v)
        (λ entry. (k : ℕ) × (k < word words.now 1) × (entry ≡ entry_at words.now k) × Holds entry v) }
{
    for k in 0..words[NUMBER] as u32 {
        let entry = entry_in(words, k);
        if entry.first <= v && v - entry.first < entry.count {
            return Some(entry);
        }
    }
    None
}
