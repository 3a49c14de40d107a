ghost use Rattle.std.specs.Prelude.{◌≡◌, ◌≢◌, ◌<◌, IfSome, IsTrue, MatchOption, None, Option};
ghost use Rattle.std.specs.Prelude.{Some, length, replicate, slice_get, slice_set, ℕ};
ghost use Rattle.std.specs.Bool.{OnFalse, OnTrue};
ghost use Rattle.nesc_base.specs.Files.{most_files};
ghost use Rattle.nesc_base.specs.Name.{is_name};
ghost use Rattle.image_layout.specs.declared.table.TableEntry.{TableEntry};
ghost use Rattle.image_layout.specs.Table.{AreEntries, Fits, IsTable, entry_bytes, entry_size};

use byteorder::{ByteOrder, LittleEndian};
use nesc_base::{BLOCK_BYTES, Block, LONGEST_FILE, MOST_FILES, Name};
use std::marker::Model;

/// A file as the table has it: its name, and its length in blocks, 0 to 1,048,576.
#[derive(Clone, Copy, Debug)]
pub struct TableEntry {
    pub name: Name,
    pub length: u32,
}

// How many entries a table has: one for each file that there may be.
const ENTRIES: usize = MOST_FILES as usize;

/// The table of files: 32 entries, entry `e` that of file `e + 1`.
#[derive(Debug, Drop)]
pub struct Table {
    entries: [Option<TableEntry>; ENTRIES],
}

impl Model for Table {
    ghost use Rattle.std.specs.Prelude.{◌≡◌, List, Option, length};
    ghost use Rattle.nesc_base.specs.Files.{most_files};
    ghost use Rattle.image_layout.specs.declared.table.TableEntry.{TableEntry};

    ghost Value = { List (Option TableEntry) };

    ghost view = { λ t. t.entries };

    ghost invariant = { λ t. length t.entries ≡ most_files };
}

impl Table {
    /// The table of no files.
    pub fn empty() -> Table
        ensures { result ≡ replicate most_files None }
    {
        Table {
            entries: [None; ENTRIES],
        }
    }

    /// The entry at a place, counted from 0.
    pub fn get(&self, e: u32) -> Option<TableEntry>
        requires { e < most_files }
        ensures entry { slice_get self.now e ≡ Some result }
        ensures all { length self.now ≡ most_files }
    {
        self.entries[e as usize]
    }

    /// All entries, that of file 1 first.
    pub fn entries(&self) -> &[Option<TableEntry>]
        ensures entries { result.now ≡ self.now }
        ensures all { length self.now ≡ most_files }
    {
        &self.entries
    }

    /// Puts an entry at a place, counted from 0.
    pub fn set(&mut self, e: u32, entry: Option<TableEntry>)
        requires { e < most_files }
        ensures { self.new ≡ slice_set self.old e entry }
    {
        self.entries[e as usize] = entry;
    }
}

// How many bytes an entry has.
const ENTRY_BYTES: usize = 32;

// The spelling of an entry.
fn entry_bytes(entry: &Option<TableEntry>) -> [u8; ENTRY_BYTES]
    ensures { result ≡ entry_bytes entry.now }
{
    let mut bytes = [0; ENTRY_BYTES];
    if let Some(entry) = entry {
        let name = entry.name.bytes();
        bytes[0] = 1;
        bytes[1] = name.len() as u8;
        LittleEndian::write_u32(&mut bytes[4..], entry.length);
        bytes[8..8 + name.len()].copy_from_slice(name);
    }
    bytes
}

// The one entry that these bytes may be the spelling of.
fn candidate(bytes: &[u8]) -> Option<TableEntry>
    requires { length bytes.now ≡ entry_size }
    ensures name { IfSome result (λ entry. IsTrue (is_name entry.name)) }
    ensures only { (entry : Option TableEntry) → Fits entry → bytes.now ≡ entry_bytes entry → result ≡ entry }
{
    if bytes[0] == 0 {
        return None;
    }
    let name = bytes[8..].get(..usize::from(bytes[1]))?;
    Some(TableEntry {
        name: Name::read(name)?,
        length: LittleEndian::read_u32(&bytes[4..]),
    })
}

// The entry whose spelling these bytes are, or `None` where they are no entry's.
fn entry_of(bytes: &[u8]) -> Option<Option<TableEntry>>
    requires { length bytes.now ≡ entry_size }
    ensures { MatchOption result ((entry : Option TableEntry) → Fits entry → bytes.now ≢ entry_bytes entry)
        (λ entry. Fits entry × (bytes.now ≡ entry_bytes entry)) }
{
    let entry = candidate(bytes);
    if entry.is_some_and(|entry| entry.length > LONGEST_FILE)
        || bytes != entry_bytes(&entry).as_slice()
    {
        return None;
    }
    Some(entry)
}

// Whether one of the entries has this name.
fn has_name(entries: &[Option<TableEntry>], name: &[u8]) -> bool
    ensures found { OnTrue result
        ((k : ℕ) × (entry : TableEntry) × (slice_get entries.now k ≡ Some (Some entry)) × (entry.name ≡ name.now)) }
    ensures none { OnFalse result
        ((k : ℕ) (entry : TableEntry) → slice_get entries.now k ≡ Some (Some entry) → entry.name ≢ name.now) }
{
    for entry in entries {
        if let Some(entry) = entry
            && entry.name.bytes() == name
        {
            return true;
        }
    }
    false
}

// Whether no two entries have one name.
fn are_apart(entries: &[Option<TableEntry>]) -> bool
    ensures apart { OnTrue result ((i j : ℕ) (one other : TableEntry) → slice_get entries.now i ≡ Some (Some one)
        → slice_get entries.now j ≡ Some (Some other) → one.name ≡ other.name → i ≡ j) }
    ensures same { OnFalse result (¬ ((i j : ℕ) (one other : TableEntry) → slice_get entries.now i ≡ Some (Some one)
        → slice_get entries.now j ≡ Some (Some other) → one.name ≡ other.name → i ≡ j)) }
{
    for (e, entry) in entries.iter().enumerate() {
        if let Some(entry) = entry
            && has_name(&entries[..e], entry.name.bytes())
        {
            return false;
        }
    }
    true
}

/// The table that this block is, or `None` where it is none.
pub fn table_of(block: &Block) -> Option<Table>
    ensures { MatchOption result (¬ ((entries : _) × IsTable block.now entries)) (IsTable block.now) }
{
    let mut entries = [None; ENTRIES];
    for e in 0..ENTRIES {
        entries[e] = entry_of(&block.0[ENTRY_BYTES * e..ENTRY_BYTES * (e + 1)])?;
    }
    if !are_apart(&entries) {
        return None;
    }
    Some(Table { entries })
}

/// The block of a table in which no two files have one name and none is longer than 1,048,576 blocks.
pub fn table_block(table: &Table) -> Block
    requires { AreEntries table.now }
    ensures { IsTable result table.now }
{
    let mut bytes = [0; BLOCK_BYTES];
    for (e, entry) in table.entries.iter().enumerate() {
        bytes[ENTRY_BYTES * e..ENTRY_BYTES * (e + 1)].copy_from_slice(&entry_bytes(entry));
    }
    Block(bytes)
}

#[cfg(test)]
mod tests {
    use super::{BLOCK_BYTES, Block, table_block, table_of};

    // The block of a table whose first entry is that of file `a` of 10 blocks, with these bytes put at a place.
    fn block_with(at: usize, bytes: &[u8]) -> Block {
        let mut block = Block([0; BLOCK_BYTES]);
        for (to, from) in block.0.iter_mut().zip(b"\x01\x01\0\0\x0a\0\0\0a") {
            *to = *from;
        }
        for (to, from) in block.0.iter_mut().skip(at).zip(bytes) {
            *to = *from;
        }
        block
    }

    #[test]
    fn tables(rt: HostRuntime) {
        let bad: [(&str, usize, &[u8]); 10] = [
            ("a flag that is none", 0, b"\x02"),
            ("an unused entry with a byte", 32 + 9, b"\x01"),
            ("a name of capitals", 8, b"A"),
            ("a name that ends before its length", 1, b"\x02"),
            ("no name", 1, b"\0\0\0\0\x0a\0\0\0\0"),
            ("zero bytes that are not zero", 2, b"\x01"),
            ("padding that is not zero", 31, b"\x01"),
            ("a name longer than its length", 9, b"b"),
            ("a length of 1,048,577", 4, b"\x01\0\x10"),
            ("two files of one name", 64, b"\x01\x01\0\0\x07\0\0\0a"),
        ];
        for (case, at, bytes) in bad {
            assert!(rt; table_of(&block_with(at, bytes)).is_none(), "{case}");
        }
        let good: [(usize, &[u8], u32); 3] = [
            (0, b"", 10),
            (4, b"\0\0\x10", 1_048_576),
            (64, b"\x01\x01\0\0\x07\0\0\0b", 10),
        ];
        for (at, bytes, length) in good {
            let block = block_with(at, bytes);
            match table_of(&block) {
                Some(table) => {
                    let first = table.get(0);
                    assert!(rt;
                        first.is_some_and(|entry| entry.name.bytes() == b"a".as_slice()
                            && entry.length == length)
                    );
                    assert!(rt; table_block(&table) == block);
                }
                None => panic!(rt; "no table"),
            }
        }
    }
}
