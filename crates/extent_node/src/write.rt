ghost use Rattle.std.specs.Prelude.{◌≡◌, ◌⊎◌, ℕ, ◌+◌, ◌<◌, ◌≤◌};
ghost use Rattle.extent_node.specs.Entries.{most_entries};
ghost use Rattle.extent_node.specs.Rules.{AreEntries, ReadAs};
ghost use Rattle.extent_node.specs.Words.{entries_of, entry_at, first_word, kind_of, node_words, word};

use crate::entries::{Entries, Entry};
use crate::node::{Kind, Node};
use crate::rules::{KIND, NUMBER, count_of, first_of, place_of, word_of};
use nesc_base::NODE_WORDS;

/// The words of a node. Its entries keep the rules, but where they lead is not asked: the words read as the node
/// wherever its runs lie in the data area and its nodes in the memory.
pub fn write_node(node: &Node) -> [u64; NODE_WORDS]
    requires { AreEntries (kind_of node.now) (entries_of node.now) }
    ensures words { result ≡ node_words (kind_of node.now) (entries_of node.now) }
    ensures reads { ReadAs result (kind_of node.now) (entries_of node.now) }
{
    match node {
        Node::Leaf(entries) => words_of(Kind::Leaf, entries),
        Node::Inner(entries) => words_of(Kind::Inner, entries),
    }
}

fn words_of(kind: Kind, entries: &Entries) -> [u64; NODE_WORDS]
    ensures { result ≡ node_words kind entries.now }
{
    let mut words = [0; NODE_WORDS];
    words[KIND] = word_of(kind);
    words[NUMBER] = u64::from(entries.len());
    for k in 0..entries.len() {
        put_entry(&mut words, k as usize, entries.get(k));
    }
    words
}

// Puts the three words of entry `k`.
fn put_entry(words: &mut [u64; NODE_WORDS], k: usize, entry: Entry)
    requires { k < most_entries }
    ensures puts { entry_at words.new k ≡ entry }
    ensures stay { (i : ℕ) → (i < first_word k) ⊎ (first_word (k + 1) ≤ i) → word words.new i ≡ word words.old i }
{
    words[first_of(k)] = u64::from(entry.first);
    words[count_of(k)] = u64::from(entry.count);
    words[place_of(k)] = u64::from(entry.place);
}
