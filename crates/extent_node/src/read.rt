ghost use Rattle.std.specs.Prelude.{◌≡◌, MatchResult, map};
ghost use Rattle.std.specs.List.{range_with_len};
ghost use Rattle.extent_node.specs.Rules.{IsFirstBad, IsNode};
ghost use Rattle.extent_node.specs.Words.{AreReadable, entries_of, entry_at, kind_of, word};

use crate::checks::check_node;
use crate::entries::Entries;
use crate::look::entry_in;
use crate::node::{BadNode, Kind, Node};
use crate::rules::NUMBER;
use nesc_base::{Area, NODE_WORDS};

/// The node that the words are which were read at an address of a memory of so many words, its runs in the area.
/// `Err` names the address and the first bad word.
pub fn read_node(
    words: &[u64; NODE_WORDS],
    address: u32,
    memory_words: u32,
    area: Area,
) -> Result<Node, BadNode>
    ensures { MatchResult result
        (λ node. IsNode words.now memory_words area (kind_of node) (entries_of node))
        (λ bad. (bad.address ≡ address) × IsFirstBad words.now memory_words area bad.word) }
{
    let kind = check_node(words, address, memory_words, area)?;
    Ok(node_of(kind, entries_in(words)))
}

// The node of this kind with these entries.
fn node_of(kind: Kind, entries: Entries) -> Node
    ensures kind { kind_of result ≡ kind }
    ensures entries { entries_of result ≡ entries }
{
    match kind {
        Kind::Leaf => Node::Leaf(entries),
        Kind::Inner => Node::Inner(entries),
    }
}

// The entries of these words in a list.
fn entries_in(words: &[u64; NODE_WORDS]) -> Entries
    requires { AreReadable words.now }
    ensures { result ≡ map (entry_at words.now) (range_with_len 0 (word words.now 1)) }
{
    let mut entries = Entries::none();
    for k in 0..words[NUMBER] as u32 {
        entries.push(entry_in(words, k));
    }
    entries
}
