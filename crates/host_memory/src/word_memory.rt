ghost use Rattle.std.specs.Prelude.{◌≡◌, ◌<◌, [], ◌∷◌, IfOk, MatchOption, None, Some, length, slice_get, slice_set};
ghost use Rattle.nesc_base.specs.Memory.{Fetches, IsNodeOf, Lists, Stores};
ghost use Rattle.host_memory.specs.Words.{FetchesExactly, known_of, zeros};

use nesc_base::{Memory, NODE_WORDS, NoMemory};
use std::alloc::Global;
use std::marker::Model;

/// Words in the machine's own memory, which gives what it holds.
///
/// It keeps a list of the nodes that were fetched, for which a fetch may ask for memory. Where there is none, the list
/// is dropped and kept no more, and everything else goes on.
#[derive(Drop)]
pub struct WordMemory {
    words: Vec<u64>,
    // the addresses of the nodes that were fetched, in order, or `None` from when there was no memory for one
    fetched: Option<Vec<u32>>,
}

impl Model for WordMemory {
    ghost use Rattle.std.specs.Prelude.{◌<◌, ◌^◌, length};
    ghost use Rattle.std.specs.Option.{option_map};
    ghost use Rattle.host_memory.specs.Words as value;
    ghost use Rattle.host_memory.specs.Words.{memory_code};

    ghost Value = { value.WordMemory };

    ghost coded = { memory_code };

    ghost view = { λ m. record { words = m.words.items; fetched = option_map (λ list. list.items) m.fetched } };

    ghost invariant = { λ m. length m.words.items < 2 ^ 32 };
}

impl WordMemory {
    /// So many words of 0, and no node fetched. An `Err` says that there is no memory for them.
    pub fn new(alloc: Global, words: u32) -> Result<WordMemory, NoMemory>
        ensures { IfOk result (λ memory. memory ≡ zeros words) }
    {
        Ok(WordMemory {
            words: vec![in alloc; 0; words as usize]?,
            fetched: Some(Vec::new(alloc)),
        })
    }

    /// The addresses of the nodes that were fetched, in order, or `None` where there was no memory for one.
    pub fn fetched(&self) -> Option<&[u32]>
        ensures { MatchOption result (self.now.fetched ≡ None) (λ list. self.now.fetched ≡ Some list.now) }
    {
        match &self.fetched {
            Some(list) => Some(list.as_slice()),
            None => None,
        }
    }

    // Puts a node's address behind the others, or drops the list where there is no memory for it.
    fn list(&mut self, node: u32)
        ensures words { self.new.words ≡ self.old.words }
        ensures listed { Lists (node ∷ []) self.old.fetched self.new.fetched }
    {
        if let Some(list) = &mut self.fetched {
            if list.push(node).is_err() {
                self.fetched = None;
            }
        }
    }
}

impl Memory for WordMemory {
    ghost known = { known_of };

    fn words(&self) -> u32
        ensures { result ≡ length self.now.words }
    {
        self.words.len() as u32
    }

    fn load(&self, at: u32) -> u64
        requires { at < length self.now.words }
        ensures { slice_get self.now.words at ≡ Some result }
    {
        self.words[at as usize]
    }

    fn store(&mut self, at: u32, word: u64)
        requires { at < length self.old.words }
        ensures stores { Stores at word (known_of self.old) (known_of self.new) }
        ensures exact { self.new ≡ record self.old { words = slice_set self.old.words at word } }
    {
        self.words[at as usize] = word;
    }

    /// The words of the node at an address, a multiple of 32, for the device. The list of fetches gains the address, or
    /// is told no more where there is no memory for it.
    fn fetch(&mut self, node: u32) -> [u64; NODE_WORDS]
        requires { IsNodeOf self.old.words node }
        ensures fetches { Fetches node result (known_of self.old) (known_of self.new) }
        ensures exact { FetchesExactly node result (known_of self.old) (known_of self.new) }
    {
        self.list(node);
        let from = node as usize;
        let mut words = [0; NODE_WORDS];
        words.copy_from_slice(&self.words[from..from + NODE_WORDS]);
        words
    }
}
