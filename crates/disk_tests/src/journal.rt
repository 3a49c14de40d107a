use host_journal::{Journal, StartFault};
use image_layout::write_super;
use nesc_base::{Block, Disk, DiskFault, Geometry, NoMemory};
use nesc_fakes::{Call, MemDisk, TinyFuse};
use slot_layout::{list_block, open_gate};
use std::alloc::Global;

const LEAST: Geometry = Geometry {
    version: 1,
    blocks: 16,
    slack: 64,
};

/// A division of which a slot has two list blocks.
const WIDE: Geometry = Geometry {
    version: 1,
    blocks: 256,
    slack: 256,
};

/// How many blocks an image of the least division has.
const TOTAL: usize = 291;

/// Where its table stands.
const TABLE_AT: u32 = 273;

fn block(byte: u8) -> Block {
    Block([byte; 1024])
}

/// A disk of these blocks, of which these writes and syncs fail.
fn disk_of(alloc: Global, image: Vec<Block>, fails: &[u64]) -> Result<MemDisk, NoMemory> {
    Ok(MemDisk::new(
        alloc,
        image,
        Vec::new(alloc),
        Vec::from_slice(alloc, fails)?,
    ))
}

/// Which of these images a stop now could leave on the disk, in their order, where it has its superblock.
fn left_of(alloc: Global, disk: &MemDisk, images: &[Vec<Block>]) -> Result<Vec<bool>, NoMemory> {
    let mut left = Vec::new(alloc);
    for image in images {
        let whole = disk.contents().first() == Some(&write_super(LEAST));
        left.push(whole && disk.could_leave(disk.clock(), image))?;
    }
    Ok(left)
}

/// Starts a journal on the disk.
fn start_on<D: Disk>(alloc: Global, disk: &mut D) -> Result<Result<(), StartFault>, NoMemory> {
    if disk.blocks() < LEAST.total() {
        return Ok(Err(StartFault::Disk(DiskFault)));
    }
    let mut journal = Journal::new(alloc, LEAST)?;
    Ok(journal.start(disk))
}

/// The table block that a journal on this image reads, or `None` where it does not.
fn table_of(alloc: Global, image: Vec<Block>) -> Result<Option<Block>, NoMemory> {
    let mut disk = disk_of(alloc, image, &[])?;
    if disk.blocks() < LEAST.total() {
        return Ok(None);
    }
    let mut journal = Journal::new(alloc, LEAST)?;
    match journal.start(&mut disk) {
        Ok(()) => {}
        Err(_) => return Ok(None),
    }
    let mut found = Block::zero();
    match journal.read(&mut disk, TABLE_AT, &mut found) {
        Ok(()) => Ok(Some(found)),
        Err(_) => Ok(None),
    }
}

/// Commits a table block to the disk, and answers the clock after it, or `None` where a call failed.
fn commit_on<D: Disk>(alloc: Global, disk: &mut D) -> Result<Option<u64>, NoMemory> {
    if disk.blocks() < LEAST.total() {
        return Ok(None);
    }
    let mut journal = Journal::new(alloc, LEAST)?;
    match journal.start(disk) {
        Ok(()) => {}
        Err(_) => return Ok(None),
    }
    journal.stage(TABLE_AT, &block(1));
    Ok(journal.commit(disk).ok())
}

/// The image of no files, with these blocks put in it.
fn image_with(alloc: Global, blocks: &[(usize, Block)]) -> Result<Vec<Block>, NoMemory> {
    let mut image = vec![in alloc; Block::zero(); TOTAL]?;
    image[0] = write_super(LEAST);
    for (at, block) in blocks {
        if *at < image.len() {
            image[*at] = *block;
        }
    }
    Ok(image)
}

/// A disk of the image of no files, of which these writes and syncs fail.
fn blank(alloc: Global, fails: &[u64]) -> Result<MemDisk, NoMemory> {
    disk_of(alloc, image_with(alloc, &[])?, fails)
}

/// An image on which the slots with these gates are open, the first with the table block 1, the next with 2, and so on.
fn open_slots(alloc: Global, gates: &[usize]) -> Result<Vec<Block>, NoMemory> {
    let list = list_block(&[TABLE_AT], LEAST, 0);
    let mut image = image_with(alloc, &[])?;
    let mut byte = 0u8;
    for gate in gates {
        byte = byte.wrapping_add(1);
        if *gate < 206 && 207 < image.len() {
            image[*gate] = open_gate();
            image[*gate + 1] = list;
            image[*gate + 2] = block(byte);
        }
    }
    Ok(image)
}

/// The places that were written, in order, with 0 for a sync, which no journal writes.
fn places_of(alloc: Global, disk: &MemDisk) -> Result<Vec<u32>, NoMemory> {
    let mut places = Vec::new(alloc);
    for call in disk.calls() {
        places.push(match call {
            Call::Write { at, .. } => *at,
            Call::Sync { .. } => 0,
        })?;
    }
    Ok(places)
}

/// Commits a data block, a map block and a table block to the disk. It answers the room before and after, and the clock
/// after it, or `None` where a call failed.
fn commit_three_on<D: Disk>(
    alloc: Global,
    disk: &mut D,
) -> Result<Option<(u32, u64, u32)>, NoMemory> {
    if disk.blocks() < LEAST.total() {
        return Ok(None);
    }
    let mut journal = Journal::new(alloc, LEAST)?;
    match journal.start(disk) {
        Ok(()) => {}
        Err(_) => return Ok(None),
    }
    journal.stage(275, &block(2));
    journal.stage(274, &block(2));
    journal.stage(TABLE_AT, &block(2));
    let before = journal.room();
    match journal.commit(disk) {
        Ok(clock) => Ok(Some((before, clock, journal.room()))),
        Err(_) => Ok(None),
    }
}

/// Commits so many data blocks to the disk, 256 at most, and answers the clock after it, or `None` where a call failed.
fn commit_many_on(alloc: Global, disk: &mut MemDisk, many: u32) -> Result<Option<u64>, NoMemory> {
    if disk.blocks() < WIDE.total() {
        return Ok(None);
    }
    let mut journal = Journal::new(alloc, WIDE)?;
    match journal.start(disk) {
        Ok(()) => {}
        Err(_) => return Ok(None),
    }
    for k in 0..many.min(WIDE.blocks) {
        if journal.room() == 0 {
            break;
        }
        journal.stage(WIDE.area_from() + k, &block(1));
    }
    Ok(journal.commit(disk).ok())
}

#[test]
fn a_long_list_takes_as_many_blocks_as_it_needs(rt: HostRuntime) -> Result<(), NoMemory> {
    let alloc = rt.alloc();
    // A start syncs once. A list block has room for the count and 255 targets.
    for (many, clock) in [(255, 1 + 2 * 255 + 1 + 6), (256, 1 + 2 * 256 + 2 + 6)] {
        let image = vec![in alloc; Block::zero(); WIDE.total() as usize]?;
        let mut disk = disk_of(alloc, image, &[])?;
        assert!(rt; commit_many_on(alloc, &mut disk, many)? == Some(clock));
    }
    Ok(())
}

#[test]
fn a_commit_of_nothing_asks_nothing(rt: HostRuntime) -> Result<(), NoMemory> {
    let mut disk = blank(rt.alloc(), &[])?;
    assert!(rt; LEAST.total() <= disk.blocks());
    let mut journal = Journal::new(rt.alloc(), LEAST)?;
    let started = journal.start(&mut disk);
    assert!(rt; started.is_ok());
    let nothing = journal.commit(&mut disk);
    assert!(rt; nothing == Ok(1));
    assert!(rt; disk.calls().len() == 1);
    Ok(())
}

#[test]
fn a_commit_makes_its_calls(rt: HostRuntime) -> Result<(), NoMemory> {
    let alloc = rt.alloc();
    let mut disk = blank(alloc, &[])?;
    assert!(rt; commit_three_on(alloc, &mut disk)? == Some((63, 14, 64)));
    let places = places_of(alloc, &disk)?;
    assert!(rt; places[..] == [0, 2, 3, 4, 5, 0, 1, 0, 273, 274, 275, 0, 1, 0]);
    Ok(())
}

#[test]
fn a_commit_cut_short_leaves_all_or_nothing(rt: HostRuntime) -> Result<(), NoMemory> {
    let alloc = rt.alloc();
    for fails in 2..=11 {
        // With the start there are ten calls, so at the last turn none fails.
        let mut disk = blank(alloc, &[fails])?;
        let committed = commit_on(alloc, &mut disk)?;
        assert!(rt; committed.is_some() == (fails == 11));
        for k in 1..=disk.clock() {
            for pick in 1..=4 {
                let found = table_of(alloc, disk.image(alloc, k, pick)?)?;
                assert!(rt; found == Some(block(1)) || found == Some(Block::zero()));
                // The gate is written from clock 5 on, and lasts open or closed from 7 on.
                assert!(rt; 5 <= k || found == Some(Block::zero()));
                assert!(rt; k < 7 || found == Some(block(1)));
            }
        }
    }
    Ok(())
}

#[test]
fn a_commit_that_fails_leaves_what_its_syncs_bound(rt: HostRuntime) -> Result<(), NoMemory> {
    let alloc = rt.alloc();
    let list = (2, list_block(&[TABLE_AT], LEAST, 0));
    let (data, home) = ((3, block(1)), (TABLE_AT as usize, block(1)));
    let gate = (1, open_gate());
    // Before the commit, with its slot written, with the gate open, with the table home, and with the gate closed
    // again.
    let images = [
        image_with(alloc, &[])?,
        image_with(alloc, &[list, data])?,
        image_with(alloc, &[list, data, gate])?,
        image_with(alloc, &[list, data, gate, home])?,
        image_with(alloc, &[list, data, home])?,
    ];
    for (fails, want) in [
        (2, [true, false, false, false, false]),
        (3, [true, true, false, false, false]),
        (4, [true, true, false, false, false]),
        (5, [false, true, true, false, false]),
        (6, [false, true, true, false, false]),
        (7, [false, false, true, true, false]),
        (8, [false, false, true, true, false]),
        (9, [false, false, false, true, true]),
        (10, [false, false, false, true, true]),
        (11, [false, false, false, false, true]),
    ] {
        let mut disk = blank(alloc, &[fails])?;
        let _committed = commit_on(alloc, &mut disk)?;
        let left = left_of(alloc, &disk, &images)?;
        assert!(rt;
            left.as_slice() == want.as_slice(),
            "where call {fails} fails"
        );
    }
    Ok(())
}

#[test]
fn a_start_that_fails_leaves_what_its_syncs_bound(rt: HostRuntime) -> Result<(), NoMemory> {
    let alloc = rt.alloc();
    let list = list_block(&[TABLE_AT], LEAST, 0);
    let slots = [(2, list), (3, block(1)), (70, list), (71, block(2))];
    let (first, second, home) = (
        (1, open_gate()),
        (69, open_gate()),
        (TABLE_AT as usize, block(2)),
    );
    let [a, b, c, d] = slots;
    // As it was, with the table home, with the first gate closed, and with both closed.
    let images = [
        image_with(alloc, &[a, b, c, d, first, second])?,
        image_with(alloc, &[a, b, c, d, first, second, home])?,
        image_with(alloc, &[a, b, c, d, second, home])?,
        image_with(alloc, &[a, b, c, d, home])?,
    ];
    // The target, the first gate and the second are written, each with a sync behind it.
    for (fails, want) in [
        (1, [true, false, false, false]),
        (2, [true, true, false, false]),
        (3, [true, true, false, false]),
        (4, [false, true, true, false]),
        (5, [false, true, true, false]),
        (6, [false, false, true, true]),
        (7, [false, false, true, true]),
        (8, [false, false, false, true]),
    ] {
        let mut disk = disk_of(alloc, open_slots(alloc, &[1, 69])?, &[fails])?;
        let _started = start_on(alloc, &mut disk)?;
        let left = left_of(alloc, &disk, &images)?;
        assert!(rt;
            left.as_slice() == want.as_slice(),
            "where call {fails} fails"
        );
    }
    Ok(())
}

#[test]
fn open_slots_are_replayed(rt: HostRuntime) -> Result<(), NoMemory> {
    let alloc = rt.alloc();
    let cases: [(&[usize], &[u32], u8); 5] = [
        (&[1], &[0, 273, 0, 1, 0], 1),
        (&[1, 69], &[0, 273, 0, 1, 0, 69, 0], 2),
        (&[1, 69, 137, 205], &[0, 273, 0, 1, 0, 69, 137, 205, 0], 4),
        // Behind a closed gate no slot counts, and its gate is closed all the same.
        (&[137], &[0, 137, 0], 0),
        (&[1, 137], &[0, 273, 0, 1, 0, 137, 0], 1),
    ];
    for (gates, calls, byte) in cases {
        let mut disk = disk_of(alloc, open_slots(alloc, gates)?, &[])?;
        assert!(rt; start_on(alloc, &mut disk)? == Ok(()));
        let places = places_of(alloc, &disk)?;
        assert!(rt; places.as_slice() == calls, "at {gates:?}");
        let found = table_of(alloc, Vec::from_slice(alloc, disk.contents())?)?;
        assert!(rt; found == Some(block(byte)));
    }
    Ok(())
}

#[test]
fn a_slot_without_a_list_is_refused(rt: HostRuntime) -> Result<(), NoMemory> {
    let alloc = rt.alloc();
    let mut image = open_slots(alloc, &[1, 69])?;
    assert!(rt; 70 < image.len());
    image[70] = block(0xFF);
    let mut disk = disk_of(alloc, image, &[])?;
    assert!(rt; start_on(alloc, &mut disk)? == Err(StartFault::BadList { block: 70 }));
    assert!(rt; disk.calls().len() == 1);
    Ok(())
}

#[test]
fn a_start_cut_short_leaves_what_was_there(rt: HostRuntime) -> Result<(), NoMemory> {
    let alloc = rt.alloc();
    for fails in 1..=10 {
        // A start over four open slots makes nine calls.
        let mut disk = disk_of(alloc, open_slots(alloc, &[1, 69, 137, 205])?, &[fails])?;
        assert!(rt; start_on(alloc, &mut disk)?.is_ok() == (fails == 10));
        for k in 0..=disk.clock() {
            let found = table_of(alloc, disk.image(alloc, k, fails)?)?;
            assert!(rt; found == Some(block(4)));
        }
    }
    Ok(())
}

#[test]
fn a_fuse_under_a_commit_leaves_all_or_nothing(rt: HostRuntime) -> Result<(), NoMemory> {
    let alloc = rt.alloc();
    // The start takes a sync and reads four gates.
    for passes in 5..=14 {
        let mut disk = TinyFuse::new(blank(alloc, &[])?, passes);
        let committed = commit_on(alloc, &mut disk)?;
        let found = table_of(alloc, Vec::from_slice(alloc, disk.inner().contents())?)?;
        assert!(rt; committed.is_some() == (passes == 14));
        assert!(rt; found == Some(block(1)) || (passes < 14 && found == Some(Block::zero())));
    }
    Ok(())
}
