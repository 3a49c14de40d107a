ghost use Rattle.std.specs.Prelude.{◌≡◌, ◌+◌, ◌<◌, ◌≤◌, List, IfErr, IfOk, IsOk, MatchResult};
ghost use Rattle.extent_node.specs.Entries.{most_entries};
ghost use Rattle.extent_node.specs.Rules.{IsFirstBad, IsNode, KeepAllRules, KeepBelow};
ghost use Rattle.extent_node.specs.declared.entries.Entry.{Entry};
ghost use Rattle.extent_node.specs.Words.{AreReadable, first_word, kind_word, word};

use crate::entries::MOST_ENTRIES;
use crate::node::{BadNode, Kind};
use crate::rules::{
    KIND, NUMBER, count_of, first_of, keeps_count_rule, keeps_first_rule, keeps_number_rule,
    keeps_place_rule, kind_in, place_of,
};
use nesc_base::{Area, NODE_WORDS};

// Judges the three words of entry `k`; those below them keep the rules. `Err` is the first bad word.
fn check_entry(
    words: &[u64; NODE_WORDS],
    kind: Kind,
    k: usize,
    memory_words: u32,
    area: Area,
) -> Result<(), u32>
    requires kind { word words.now 0 ≡ kind_word kind }
    requires few { word words.now 1 ≤ most_entries }
    requires one { k < word words.now 1 }
    requires below { KeepBelow words.now memory_words area (first_word k) }
    ensures { MatchResult result (λ _. KeepBelow words.now memory_words area (first_word (k + 1)))
        (λ bad. IsFirstBad words.now memory_words area bad) }
{
    if !keeps_first_rule(words, kind, k) {
        return Err(first_of(k) as u32);
    }
    if !keeps_count_rule(words, k) {
        return Err(count_of(k) as u32);
    }
    if !keeps_place_rule(words, kind, k, memory_words, area) {
        return Err(place_of(k) as u32);
    }
    Ok(())
}

// Judges the words of all entries, and answers where the next word stands; those below them keep the rules.
fn check_entries(
    words: &[u64; NODE_WORDS],
    kind: Kind,
    memory_words: u32,
    area: Area,
) -> Result<usize, u32>
    requires kind { word words.now 0 ≡ kind_word kind }
    requires few { word words.now 1 ≤ most_entries }
    requires below { KeepBelow words.now memory_words area (first_word 0) }
    ensures { MatchResult result
        (λ end. (end ≡ first_word (word words.now 1)) × KeepBelow words.now memory_words area end)
        (λ bad. IsFirstBad words.now memory_words area bad) }
{
    let number = words[NUMBER] as usize;
    for k in 0..number {
        check_entry(words, kind, k, memory_words, area)?;
    }
    Ok(2 + 3 * number)
}

// Judges the words behind the entries; those below them keep the rules.
fn check_others(
    words: &[u64; NODE_WORDS],
    from: usize,
    memory_words: u32,
    area: Area,
) -> Result<(), u32>
    requires few { word words.now 1 ≤ most_entries }
    requires from { from ≡ first_word (word words.now 1) }
    requires below { KeepBelow words.now memory_words area from }
    ensures { MatchResult result (λ _. KeepAllRules words.now memory_words area)
        (λ bad. IsFirstBad words.now memory_words area bad) }
{
    for i in from..NODE_WORDS {
        if words[i] != 0 {
            return Err(i as u32);
        }
    }
    Ok(())
}

// Judges the words from the first on.
fn checked(words: &[u64; NODE_WORDS], memory_words: u32, area: Area) -> Result<Kind, u32>
    ensures { MatchResult result
        (λ kind. (word words.now 0 ≡ kind_word kind) × KeepAllRules words.now memory_words area)
        (λ bad. IsFirstBad words.now memory_words area bad) }
{
    let Some(kind) = kind_in(words) else {
        return Err(KIND as u32);
    };
    if !keeps_number_rule(words, kind) {
        return Err(NUMBER as u32);
    }
    let end = check_entries(words, kind, memory_words, area)?;
    check_others(words, end, memory_words, area)?;
    Ok(kind)
}

/// What the words are that were read at an address of a memory of so many words: a node of that kind, with the runs of
/// a leaf in the area. `Err` names the address and the first bad word.
pub fn check_node(
    words: &[u64; NODE_WORDS],
    address: u32,
    memory_words: u32,
    area: Area,
) -> Result<Kind, BadNode>
    ensures node { IfOk result (λ kind. (entries : List Entry) × IsNode words.now memory_words area kind entries) }
    ensures readable { IsOk result → AreReadable words.now }
    ensures bad { IfErr result (λ bad. (bad.address ≡ address) × IsFirstBad words.now memory_words area bad.word) }
{
    // Read, so that it is known to be a number of 32 bits.
    let _end = area.to;
    match checked(words, memory_words, area) {
        Ok(kind) => Ok(kind),
        Err(word) => Err(BadNode { address, word }),
    }
}
