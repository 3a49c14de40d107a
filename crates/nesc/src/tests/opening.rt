use crate::tests::{Piece, blocks_of, disk_of, done, run_over};
use nesc_base::{Block, Disk, NoMemory};
use nesc_monitor::Status;
use std::alloc::Global;
use std::test::Fail;

/// A gate that is open, and the first one closed.
const OPEN: &[u8] = &[0xa5; 1024];

const CLOSED: Piece = (1, 1023, b"\0");

/// A table of file 1, `a` of four blocks, and a map of which the first two data blocks are its block 0.
const TABLE: Piece = (273, 0, b"\x01\x01\0\0\x04\0\0\0a");

const OWNERS: Piece = (274, 0, b"\x01\0\0\0\0\0\0\0\x01");

/// The first slot of the journal, open, with this table, a map and a data block, which is block 0 of the file.
const SLOT: [Piece; 5] = [
    (1, 0, OPEN),
    (2, 0, b"\x03\0\0\0\x11\x01\0\0\x12\x01\0\0\x13\x01"),
    (3, 0, b"\x01\x01\0\0\x04\0\0\0a"),
    (4, 0, b"\x01"),
    (5, 0, &[0x22; 1024]),
];

/// The first so many blocks of the least image with that slot, and then these pieces.
fn image_of(alloc: Global, size: usize, more: &[Piece]) -> Result<Vec<Block>, NoMemory> {
    let mut pieces = Vec::from_slice(alloc, &SLOT)?;
    pieces.extend_from_slice(more)?;
    blocks_of(alloc, size, &pieces)
}

/// What makes such an image one that is refused, and how the line ends that says why: its size; the superblock; a list
/// of too many targets, below the table, past the image, and not rising; the second list; the table; a file that is
/// none; and a block that is held twice.
const REFUSED: [(usize, &[Piece], &str); 11] = [
    (0, &[], "size 0"),
    (290, &[], "size 290"),
    (291, &[(0, 0, b"M")], "super 0"),
    (291, &[(2, 0, b"\x43")], "list 2"),
    (291, &[(2, 4, b"\x10")], "list 2"),
    (291, &[(2, 12, b"\x23")], "list 2"),
    (291, &[(2, 8, b"\x11")], "list 2"),
    (291, &[(69, 0, OPEN), (70, 0, b"\x43")], "list 70"),
    (291, &[CLOSED, (273, 0, b"\x02")], "table 273"),
    (291, &[CLOSED, (274, 8, b"\x01")], "owner 274"),
    (291, &[CLOSED, TABLE, OWNERS], "twice 1 0"),
];

#[test]
fn a_refused_image_stays_as_it_is(rt: HostRuntime) -> Result<(), Fail> {
    let alloc = rt.alloc();
    for (size, pieces, end) in REFUSED {
        let line = format!(in alloc; "nesc: image {end}\n")?;
        let mut image = disk_of(alloc, image_of(alloc, size, pieces)?, &[], &[])?;
        let told = run_over(alloc, "", "", &mut image)?;
        assert_eq!(rt; told.said(), (Status::Image, "", line.as_str()));
        assert!(rt;
            *image.contents() == *image_of(alloc, size, pieces)?,
            "{line}"
        );
    }
    Ok(())
}

const NO_FILE: &str = "h nofile\ndone 1\n";

/// What is put to such an image that opens, what is read of its file then, and how many writes and syncs the opening
/// takes: nothing, which is replayed; a second slot, which wins; an empty list; closed gates, the second with a list
/// that is none; and a second gate that is open alone.
const OPENED: [(&[Piece], &str, u64); 6] = [
    (&[], "h data 2222222222222222 z\ndone 1\n", 7),
    (
        &[
            (69, 0, OPEN),
            (70, 0, b"\x01\0\0\0\x13\x01"),
            (71, 0, &[0x33; 1024]),
        ],
        "h data 3333333333333333 z\ndone 1\n",
        9,
    ),
    (&[(2, 0, b"\0")], NO_FILE, 4),
    (&[CLOSED], NO_FILE, 1),
    (&[(1, 512, &[0; 512]), (2, 0, b"\x43")], NO_FILE, 1),
    (&[CLOSED, (69, 0, OPEN)], NO_FILE, 3),
];

// Opened again, the image has nothing left to replay, and a sync is all.
#[test]
fn an_image_opens_as_what_it_stands_for(rt: HostRuntime) -> Result<(), Fail> {
    let alloc = rt.alloc();
    for (pieces, trace, clock) in OPENED {
        let mut image = disk_of(alloc, image_of(alloc, 291, pieces)?, &[], &[])?;
        for clock in [clock, clock.saturating_add(1)] {
            let told = run_over(alloc, "host = ['get a 0 2']", "h", &mut image)?;
            assert_eq!(rt; told.said(), done(trace));
            assert_eq!(rt; image.clock(), clock, "{trace}");
        }
    }
    Ok(())
}

// What is replayed stays replayed, and is refused again for the same cause.
#[test]
fn an_image_is_judged_as_it_is_replayed(rt: HostRuntime) -> Result<(), Fail> {
    let alloc = rt.alloc();
    let mut image = disk_of(alloc, image_of(alloc, 291, &[(3, 0, b"\x02")])?, &[], &[])?;
    for clock in [7, 8] {
        let told = run_over(alloc, "", "", &mut image)?;
        assert_eq!(rt; told.said(), (Status::Image, "", "nesc: image table 273\n"));
        assert_eq!(rt; image.clock(), clock);
    }
    Ok(())
}
