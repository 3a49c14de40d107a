ghost use Rattle.std.specs.Prelude.{◌≡◌, ◌≢◌, ◌<◌, ◌^◌, ℕ, IfSome, List, MatchOption, None};
ghost use Rattle.std.specs.Prelude.{Option, Some, length, replicate, slice_get, slice_set};
ghost use Rattle.std.specs.Bool.{OnFalse, OnTrue};
ghost use Rattle.image_layout.specs.Owners.{AreOwners, MayOwn, owner_block, owner_bytes, owner_size};
ghost use Rattle.nesc_base.specs.Geometry.{block_owners};
ghost use Rattle.nesc_base.specs.Places.{Owner};

use byteorder::{ByteOrder, LittleEndian};
use nesc_base::{BLOCK_BYTES, Block, FileNo, Geometry};
use std::marker::Model;

// How many entries a map block has.
const ENTRIES: usize = Geometry::BLOCK_OWNERS as usize;

/// The owners of 128 data blocks: the file that holds each, and at which of its blocks, or `None` where it is free.
#[derive(Debug, Drop)]
pub struct Owners {
    entries: [Option<(FileNo, u32)>; ENTRIES],
}

impl Model for Owners {
    ghost use Rattle.std.specs.Prelude.{◌≡◌, List, Option, length};
    ghost use Rattle.nesc_base.specs.Geometry.{block_owners};
    ghost use Rattle.nesc_base.specs.Places.{Owner};

    ghost Value = { List (Option Owner) };

    ghost view = { λ o. o.entries };

    ghost invariant = { λ o. length o.entries ≡ block_owners };
}

impl Owners {
    /// The owners of blocks that are all free.
    pub fn empty() -> Owners
        ensures { result ≡ replicate block_owners None }
    {
        Owners {
            entries: [None; ENTRIES],
        }
    }

    /// The owner of the block at a place, counted from 0.
    pub fn get(&self, k: u32) -> Option<(FileNo, u32)>
        requires { k < block_owners }
        ensures { slice_get self.now k ≡ Some result }
    {
        self.entries[k as usize]
    }

    /// Puts the owner of the block at a place, counted from 0.
    pub fn set(&mut self, k: u32, owner: Option<(FileNo, u32)>)
        requires { k < block_owners }
        ensures { self.new ≡ slice_set self.old k owner }
    {
        self.entries[k as usize] = owner;
    }
}

// How many bytes an entry has.
const ENTRY_BYTES: usize = 8;

// The spelling of an entry.
fn owner_bytes(owner: &Option<(FileNo, u32)>) -> [u8; ENTRY_BYTES]
    ensures { result ≡ owner_bytes owner.now }
{
    let mut bytes = [0; ENTRY_BYTES];
    if let Some((file, at)) = owner {
        LittleEndian::write_u16(&mut bytes, file.0);
        LittleEndian::write_u32(&mut bytes[4..], *at);
    }
    bytes
}

// The one entry that these bytes may be the spelling of: no file is file 0.
fn candidate(bytes: &[u8]) -> Option<(FileNo, u32)>
    requires { length bytes.now ≡ owner_size }
    ensures { (owner : Option Owner) → IfSome owner (λ o. (o.0.0 ≢ 0) × (o.0.0 < 2 ^ 16) × (o.1 < 2 ^ 32))
        → bytes.now ≡ owner_bytes owner → result ≡ owner }
{
    let file = LittleEndian::read_u16(bytes);
    if file == 0 {
        return None;
    }
    Some((FileNo(file), LittleEndian::read_u32(&bytes[4..])))
}

// Whether entry `k` may have this owner.
fn may_own(lengths: &[Option<u32>], entries: u32, k: u32, owner: &Option<(FileNo, u32)>) -> bool
    ensures fits { OnTrue result (IfSome owner.now (MayOwn lengths.now entries k)) }
    ensures bad { OnFalse result (¬ IfSome owner.now (MayOwn lengths.now entries k)) }
{
    let Some((file, at)) = owner else {
        return true;
    };
    if entries <= k || file.0 == 0 {
        return false;
    }
    match lengths.get(usize::from(file.0 - 1)) {
        Some(Some(length)) => at < length,
        _ => false,
    }
}

// The owner of entry `k` whose spelling these bytes are, or `None` where they are not that of one that it may have.
fn owner_of(
    bytes: &[u8],
    lengths: &[Option<u32>],
    entries: u32,
    k: u32,
) -> Option<Option<(FileNo, u32)>>
    requires { length bytes.now ≡ owner_size }
    ensures { MatchOption result
        ((owner : Option Owner) → IfSome owner (MayOwn lengths.now entries k) → bytes.now ≢ owner_bytes owner)
        (λ owner. IfSome owner (MayOwn lengths.now entries k) × (bytes.now ≡ owner_bytes owner)) }
{
    let owner = candidate(bytes);
    if !may_own(lengths, entries, k, &owner) || bytes != owner_bytes(&owner).as_slice() {
        return None;
    }
    Some(owner)
}

/// The owners that this map block has, or `None` where it is bad for these files. `lengths` has the length of file
/// `k + 1` at place `k`, or `None` where that is not used; the first `entries` entries stand for data blocks.
pub fn owners_of(block: &Block, lengths: &[Option<u32>], entries: u32) -> Option<Owners>
    ensures { MatchOption result
        (¬ ((owners : _) × AreOwners lengths.now entries block.now owners)) (AreOwners lengths.now entries block.now) }
{
    let mut owners = [None; ENTRIES];
    for k in 0..ENTRIES {
        let bytes = &block.0[ENTRY_BYTES * k..ENTRY_BYTES * (k + 1)];
        owners[k] = owner_of(bytes, lengths, entries, k as u32)?;
    }
    Some(Owners { entries: owners })
}

/// The map block of these owners, none of them file 0.
pub fn owner_block(owners: &Owners) -> Block
    requires { (k : ℕ) (owner : Owner) → slice_get owners.now k ≡ Some (Some owner) → owner.0.0 ≢ 0 }
    ensures spelling { result ≡ owner_block owners.now }
    ensures reads { (lengths : List (Option ℕ)) (entries : ℕ) →
        ((k : ℕ) (owner : Owner) → slice_get owners.now k ≡ Some (Some owner) → MayOwn lengths entries k owner) →
        AreOwners lengths entries result owners.now }
{
    let mut bytes = [0; BLOCK_BYTES];
    for (k, owner) in owners.entries.iter().enumerate() {
        bytes[ENTRY_BYTES * k..ENTRY_BYTES * (k + 1)].copy_from_slice(&owner_bytes(owner));
    }
    Block(bytes)
}

#[cfg(test)]
mod tests {
    use super::{BLOCK_BYTES, Block, FileNo, owner_block, owners_of};

    // The map block whose first entry is block 3 of file 1, with these bytes put at a place.
    fn block_with(at: usize, bytes: &[u8]) -> Block {
        let mut block = Block([0; BLOCK_BYTES]);
        for (to, from) in block.0.iter_mut().zip(b"\x01\0\0\0\x03") {
            *to = *from;
        }
        for (to, from) in block.0.iter_mut().skip(at).zip(bytes) {
            *to = *from;
        }
        block
    }

    #[test]
    fn map_blocks(rt: HostRuntime) {
        let lengths = [Some(10), None];
        let bad: [(&str, usize, &[u8]); 7] = [
            ("a file that is not used", 0, b"\x02"),
            ("a file past the last", 0, b"\x03"),
            ("a file of a high number", 1, b"\x01"),
            ("a block at the file's length", 4, b"\x0a"),
            ("zero bytes that are not zero", 2, b"\x01"),
            ("an entry past the last", 8 * 100, b"\x01\0\0\0\x04"),
            ("a block of no file", 8 + 4, b"\x01"),
        ];
        for (case, at, bytes) in bad {
            assert!(rt;
                owners_of(&block_with(at, bytes), &lengths, 100).is_none(),
                "{case}"
            );
        }
        let block = block_with(8 * 99, b"\x01\0\0\0\x09");
        match owners_of(&block, &lengths, 100) {
            Some(owners) => {
                assert!(rt; owners.get(0) == Some((FileNo(1), 3)));
                assert!(rt; owners.get(1).is_none());
                assert!(rt; owners.get(99) == Some((FileNo(1), 9)));
                assert!(rt; owner_block(&owners) == block);
            }
            None => panic!(rt; "no owners"),
        }
    }
}
