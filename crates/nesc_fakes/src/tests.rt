ghost use Rattle.std.specs.Prelude.{◌≡◌, ◌<◌, length, None};

use crate::{BentMemory, Call, MemDisk, MemSink, MemSource, TinyFuse};
use nesc_base::{
    Block, Disk, DiskFault, Memory, NODE_WORDS, NoMemory, ReadFault, Sink, Source, WriteFault,
};
use std::alloc::Global;
use std::test::Fail;

fn read<S: Source>(source: &mut S, into: &mut [u8]) -> Result<usize, ReadFault>
    requires { 0 < length into.old }
{
    source.read(into)
}

fn write<S: Sink>(sink: &mut S, from: &[u8]) -> Result<usize, WriteFault> {
    sink.write(from)
}

#[test]
fn source_gives_what_fits_and_fails_where_listed(rt: HostRuntime) -> Result<(), Fail> {
    let fails = [2].to_vec(rt.alloc())?;
    let mut source = MemSource::new(b"abcde".to_vec(rt.alloc())?, fails);
    let mut buffer = [0; 3];
    assert_eq!(rt; read(&mut source, &mut buffer), Ok(3));
    assert_eq!(rt; buffer, *b"abc");
    assert_eq!(rt; read(&mut source, &mut buffer), Err(ReadFault));
    assert_eq!(rt; read(&mut source, &mut buffer), Ok(2));
    assert_eq!(rt; buffer, *b"dec");
    assert_eq!(rt; read(&mut source, &mut buffer), Ok(0));
    Ok(())
}

#[test]
fn sink_takes_whole_pieces_and_fails_where_listed(rt: HostRuntime) -> Result<(), Fail> {
    let fails = [2].to_vec(rt.alloc())?;
    let mut sink = MemSink::new(rt.alloc(), fails);
    assert_eq!(rt; write(&mut sink, b"abc"), Ok(3));
    assert_eq!(rt; write(&mut sink, b"x"), Err(WriteFault));
    assert_eq!(rt; write(&mut sink, b""), Ok(0));
    assert_eq!(rt; write(&mut sink, b"de"), Ok(2));
    assert_eq!(rt; sink.bytes(), b"abcde".as_slice());
    Ok(())
}

fn filled(byte: u8) -> Block {
    Block([byte; 1024])
}

fn write_block<D: Disk>(disk: &mut D, at: u32, byte: u8) -> Result<(), DiskFault>
    requires { at < (D.known disk.old).size }
    ensures { (D.known disk.new).size ≡ (D.known disk.old).size }
{
    disk.write(at, &filled(byte))
}

#[test]
fn disk_reads_and_fails_where_listed(rt: HostRuntime) -> Result<(), Fail> {
    let blocks = [filled(1), filled(2)].to_vec(rt.alloc())?;
    let mut disk = MemDisk::new(
        rt.alloc(),
        blocks,
        [2].to_vec(rt.alloc())?,
        [1].to_vec(rt.alloc())?,
    );
    let mut block = Block::zero();
    assert_eq!(rt; disk.blocks(), 2);
    assert_eq!(rt; disk.read(1, &mut block), Ok(()));
    assert_eq!(rt; block, filled(2));
    assert_eq!(rt; disk.read(0, &mut block), Err(DiskFault));
    assert_eq!(rt; block, filled(2));
    assert_eq!(rt; write_block(&mut disk, 0, 3), Err(DiskFault));
    assert_eq!(rt; disk.contents(), [filled(1), filled(2)].as_slice());
    assert_eq!(rt; write_block(&mut disk, 0, 3), Ok(()));
    assert_eq!(rt; disk.contents(), [filled(3), filled(2)].as_slice());
    Ok(())
}

fn leaves(disk: &MemDisk, clock: u64, bytes: [u8; 3]) -> bool {
    disk.could_leave(
        clock,
        &[filled(bytes[0]), filled(bytes[1]), filled(bytes[2])],
    )
}

#[test]
fn disk_leaves_what_no_sync_has_made_sure_of(rt: HostRuntime) -> Result<(), Fail> {
    let blocks = [filled(0), filled(0), filled(0)].to_vec(rt.alloc())?;
    let mut disk = MemDisk::new(
        rt.alloc(),
        blocks,
        Vec::new(rt.alloc()),
        [4].to_vec(rt.alloc())?,
    );
    assert!(rt; leaves(&disk, 0, [0, 0, 0]) && !leaves(&disk, 0, [0, 6, 0]));

    assert_eq!(rt; write_block(&mut disk, 1, 7), Ok(()));
    assert!(rt;
        leaves(&disk, 1, [0, 7, 0]) && leaves(&disk, 1, [0, 6, 0]) && !leaves(&disk, 1, [6, 7, 0])
    );

    assert_eq!(rt; disk.sync(), Ok(()));
    assert!(rt; leaves(&disk, 2, [0, 7, 0]) && !leaves(&disk, 2, [0, 6, 0]));

    assert_eq!(rt; write_block(&mut disk, 2, 8), Ok(()));
    assert_eq!(rt; disk.sync(), Err(DiskFault));
    assert!(rt;
        leaves(&disk, 4, [0, 7, 8]) && leaves(&disk, 4, [0, 7, 6]) && !leaves(&disk, 4, [0, 6, 8])
    );

    assert_eq!(rt; write_block(&mut disk, 1, 9), Ok(()));
    assert_eq!(rt; disk.clock(), 5);
    assert_eq!(rt;
        disk.contents(),
        [filled(0), filled(9), filled(8)].as_slice()
    );

    // what each moment could have left, by the clock, and nothing yet at a clock value to come
    for (clock, bytes, could) in [
        (0, [0, 0, 0], true),
        (0, [0, 7, 0], false),
        (1, [0, 6, 0], true),
        (1, [0, 7, 8], false),
        (2, [0, 7, 0], true),
        (2, [0, 9, 0], false),
        (3, [0, 7, 6], true),
        (3, [0, 9, 8], false),
        (4, [0, 7, 6], true),
        (4, [0, 9, 8], false),
        (5, [0, 6, 6], true),
        (5, [6, 9, 8], false),
        (6, [0, 9, 8], false),
    ] {
        assert_eq!(rt; leaves(&disk, clock, bytes), could, "{bytes:?} at {clock}");
    }
    Ok(())
}

/// The image that a pick gives, and none at a clock value to come.
fn image_at(alloc: Global, disk: &MemDisk, clock: u64, pick: u64) -> Result<Vec<Block>, NoMemory> {
    if pick == 0 || disk.clock() < clock {
        return Ok(Vec::new(alloc));
    }
    disk.image(alloc, clock, pick)
}

#[test]
fn disk_tears_what_is_unsynced(rt: HostRuntime) -> Result<(), Fail> {
    let alloc = rt.alloc();
    let mut disk = MemDisk::with_blocks(alloc, 3, &[(2, filled(5))], &[])?;
    assert_eq!(rt; write_block(&mut disk, 0, 7), Ok(()));
    assert_eq!(rt; write_block(&mut disk, 1, 8), Ok(()));
    assert_eq!(rt; disk.sync(), Ok(()));
    assert_eq!(rt; write_block(&mut disk, 2, 9), Ok(()));

    // the numbers that a shift by 13, 7 and 17 draws from 1 on
    let first = Block::repeated(&1_082_269_761_u64.to_le_bytes());
    let second = Block::repeated(&1_152_992_998_833_853_505_u64.to_le_bytes());
    let third = Block::repeated(&11_177_516_664_432_764_457_u64.to_le_bytes());
    for (clock, image) in [
        (0, [filled(0), filled(0), filled(5)]),
        (1, [first, filled(0), filled(5)]),
        (2, [first, second, filled(5)]),
        (3, [filled(7), filled(8), filled(5)]),
        (4, [filled(7), filled(8), third]),
    ] {
        let given = image_at(alloc, &disk, clock, 1)?;
        assert_eq!(rt; given.as_slice(), image.as_slice(), "at {clock}");
    }
    Ok(())
}

#[test]
fn fuse_fails_every_call_after_those_it_passes_on(rt: HostRuntime) -> Result<(), Fail> {
    let disk = MemDisk::with_blocks(rt.alloc(), 2, &[(1, filled(5))], &[])?;
    let mut fuse = TinyFuse::new(disk, 2);
    let mut block = Block::zero();
    assert_eq!(rt; fuse.read(1, &mut block), Ok(()));
    assert_eq!(rt; write_block(&mut fuse, 0, 7), Ok(()));
    assert_eq!(rt; fuse.read(0, &mut block), Err(DiskFault));
    assert_eq!(rt; block, filled(5));
    assert_eq!(rt; fuse.sync(), Err(DiskFault));
    assert_eq!(rt; (fuse.clock(), fuse.inner().clock()), (2, 1));
    let calls = fuse.inner().calls();
    assert!(rt; matches!(calls, [Call::Write { at: 0, .. }]));
    Ok(())
}

/// Two nodes of words, which do not tell from where nodes were fetched.
#[derive(Debug, Drop)]
struct TwoNodes([u64; 64]);

impl Memory for TwoNodes {
    ghost known = { λ memory. record { words = memory.0; fetched = None; bent = 0 } };

    fn words(&self) -> u32 {
        64
    }

    fn load(&self, at: u32) -> u64 {
        self.0[at as usize]
    }

    fn store(&mut self, at: u32, word: u64) {
        self.0[at as usize] = word;
    }

    fn fetch(&mut self, node: u32) -> [u64; NODE_WORDS] {
        let at = node as usize;
        let mut words = [0; NODE_WORDS];
        words.copy_from_slice(&self.0[at..at + NODE_WORDS]);
        words
    }
}

// The first two words of a node, as the device fetches them, and no words where there is no such node.
fn fetch_two<M: Memory>(memory: &mut M, node: u32) -> [u64; 2] {
    if node % 32 != 0 || memory.words() < 32 || memory.words() - 32 < node {
        return [0; 2];
    }
    let words = memory.fetch(node);
    [words[0], words[1]]
}

// The word at an address, and 0 where there is none.
fn load<M: Memory>(memory: &M, at: u32) -> u64 {
    if at < memory.words() {
        memory.load(at)
    } else {
        0
    }
}

fn store<M: Memory>(memory: &mut M, at: u32, word: u64) {
    if at < memory.words() {
        memory.store(at, word);
    }
}

#[test]
fn one_fetch_is_bent_and_the_words_stay(rt: HostRuntime) -> Result<(), Fail> {
    let mut memory = BentMemory::new(TwoNodes([0; 64]), 2, [7; NODE_WORDS]);
    store(&mut memory, 32, 5);
    store(&mut memory, 33, 6);
    assert_eq!(rt; fetch_two(&mut memory, 32), [5, 6]);
    assert_eq!(rt; fetch_two(&mut memory, 32), [7, 7]);
    assert_eq!(rt; load(&memory, 32), 5);
    assert_eq!(rt; load(memory.inner(), 33), 6);
    assert_eq!(rt; fetch_two(&mut memory, 32), [5, 6]);
    assert_eq!(rt; fetch_two(&mut memory, 0), [0, 0]);
    Ok(())
}

#[test]
fn no_fetch_is_bent_before_the_first(rt: HostRuntime) -> Result<(), Fail> {
    let mut memory = BentMemory::new(TwoNodes([4; 64]), 0, [7; NODE_WORDS]);
    assert_eq!(rt; fetch_two(&mut memory, 0), [4, 4]);
    assert_eq!(rt; fetch_two(&mut memory, 0), [4, 4]);
    Ok(())
}
