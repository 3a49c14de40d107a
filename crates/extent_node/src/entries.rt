ghost use Rattle.std.specs.Prelude.{◌≡◌, ◌≤◌, ◌<◌, ◌++◌, [], ◌∷◌, Some, length, slice_get};
ghost use Rattle.extent_node.specs.Entries.{most_entries};

use std::marker::Model;

/// How many entries a node has at most.
pub const MOST_ENTRIES: u32 = 10;

/// Blocks of a file that follow one another, and where a node says that they are.
#[derive(Clone, Copy, Debug, PartialEq, Eq)]
pub struct Entry {
    /// The first of them, by where it stands in the file.
    pub first: u32,
    /// How many they are, 1 or more.
    pub count: u32,
    /// In a leaf: where the first stands on the disk, as a number of blocks. In an inner node: the address of the node
    /// that covers them, as a number of words, or 0 where it does not stand.
    pub place: u32,
}

const NO_ENTRY: Entry = Entry {
    first: 0,
    count: 0,
    place: 0,
};

/// The entries of a node in their order: none to ten.
#[derive(Debug, Drop)]
pub struct Entries {
    items: [Entry; MOST_ENTRIES as usize],
    count: u32,
}

impl Model for Entries {
    ghost use Rattle.std.specs.Prelude.{List, ◌≤◌, length, take};
    ghost use Rattle.extent_node.specs.declared.entries.Entry.{Entry};
    ghost use Rattle.extent_node.specs.Entries.{most_entries};

    ghost Value = { List Entry };

    ghost view = { λ entries. take entries.count entries.items };

    ghost invariant = { λ entries. (entries.count ≤ most_entries) × (entries.count ≤ length entries.items) };
}

impl Entries {
    /// No entry.
    pub fn none() -> Entries
        ensures { result ≡ [] }
    {
        Entries {
            items: [NO_ENTRY; MOST_ENTRIES as usize],
            count: 0,
        }
    }

    /// How many they are.
    pub fn len(&self) -> u32
        ensures count { result ≡ length self.now }
        ensures few { result ≤ most_entries }
    {
        self.count
    }

    /// Entry `k`, counted from 0.
    pub fn get(&self, k: u32) -> Entry
        requires { k < length self.now }
        ensures { slice_get self.now k ≡ Some result }
    {
        self.items[k as usize]
    }

    /// Puts an entry behind the others.
    pub fn push(&mut self, entry: Entry)
        requires { length self.old < most_entries }
        ensures { self.new ≡ self.old ++ entry ∷ [] }
    {
        self.items[self.count as usize] = entry;
        self.count += 1;
    }
}
