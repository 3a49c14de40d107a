use crate::tests::{Told, tell_over};
use nesc_base::{Block, Disk, NoMemory};
use nesc_fakes::MemDisk;
use nesc_monitor::Status;
use std::alloc::Global;
use std::test::Fail;

/// What `make` answers over a disk of so many blocks, none of them zeros, of which these writes and syncs fail, and
/// what the disk is then.
fn make(
    alloc: Global,
    words: &[&str],
    blocks: usize,
    fails: &[u64],
) -> Result<(Told, MemDisk), NoMemory> {
    let old = vec![in alloc; Block([7; 1024]); blocks]?;
    let mut image = MemDisk::new(alloc, old, Vec::new(alloc), Vec::from_slice(alloc, fails)?);
    let told = tell_over(alloc, words, "", "", &mut image)?;
    Ok((told, image))
}

#[test]
fn an_image_is_made(rt: HostRuntime) -> Result<(), Fail> {
    let alloc = rt.alloc();
    for (words, blocks, out) in [
        (["make", "--blocks", "16"].as_slice(), 291, "made 291\n"),
        (
            &["make", "--blocks", "016", "--slack", "64"],
            291,
            "made 291\n",
        ),
        (
            &["make", "--blocks", "4096", "--slack", "256"],
            5298,
            "made 5298\n",
        ),
    ] {
        let (told, image) = make(alloc, words, blocks, &[])?;
        assert_eq!(rt; told.status, Status::Done, "at {words:?}");
        assert_eq!(rt; told.out.bytes(), out.as_bytes());
        assert!(rt; told.err.bytes().is_empty());
        let made = image.contents();
        assert!(rt;
            made.first()
                .is_some_and(|block| block.0.starts_with(b"NESCHOST"))
        );
        assert!(rt; made.get(1) == Some(&Block::zero()));
        assert!(rt; made.get(2) == Some(&Block([7; 1024])));
        assert!(rt; made.last() == Some(&Block::zero()));
    }
    Ok(())
}

#[test]
fn each_failure_of_making_is_told(rt: HostRuntime) -> Result<(), Fail> {
    let alloc = rt.alloc();
    let words = ["make", "--blocks", "16", "--slack", "64"];
    // Four gates, the table, the map, the last data block, a sync, the superblock and a sync.
    for call in 1..=10 {
        let (told, image) = make(alloc, &words, 291, &[call])?;
        assert_eq!(rt; told.status, Status::Device, "at {call}");
        assert!(rt; told.out.bytes().is_empty());
        assert_eq!(rt; told.err.bytes(), b"nesc: device\n".as_slice());
        assert_eq!(rt; image.clock(), call);
    }
    let (told, image) = make(alloc, &words, 291, &[11])?;
    assert_eq!(rt; told.status, Status::Done);
    assert_eq!(rt; image.clock(), 10);
    let (told, image) = make(alloc, &words, 290, &[])?;
    assert_eq!(rt; told.status, Status::Image);
    assert!(rt; told.out.bytes().is_empty());
    assert_eq!(rt; told.err.bytes(), b"nesc: image size 290\n".as_slice());
    assert_eq!(rt; image.clock(), 0);
    Ok(())
}

#[test]
fn words_are_judged(rt: HostRuntime) -> Result<(), Fail> {
    let alloc = rt.alloc();
    for (words, status) in [
        (["make", "--blocks", "16"].as_slice(), Status::Image),
        (
            &["make", "--blocks", "65536", "--slack", "1024"],
            Status::Image,
        ),
        (&["make", "--blocks", "0000000000000000016"], Status::Image),
        (&["make"], Status::Words),
        (&["make", "--blocks"], Status::Words),
        (&["make", "--blocks", "15"], Status::Words),
        (&["make", "--blocks", "65537"], Status::Words),
        (&["make", "--blocks", "-16"], Status::Words),
        (&["make", "--blocks", "16 "], Status::Words),
        (
            &["make", "--blocks", "000000000000000000016"],
            Status::Words,
        ),
        (&["make", "--blocks", "16", "--slack"], Status::Words),
        (&["make", "--blocks", "16", "--slack", "63"], Status::Words),
        (
            &["make", "--blocks", "16", "--slack", "1025"],
            Status::Words,
        ),
        (&["make", "--blocks", "16", "--blocks", "16"], Status::Words),
        (&["make", "--slack", "64", "--blocks", "16"], Status::Words),
        (&["make", "16"], Status::Words),
        (&["run", "--blocks", "16"], Status::Words),
        (&["run", "--seed", "1"], Status::Words),
        (&["run", "extra"], Status::Words),
        (&[], Status::Words),
    ] {
        let (told, image) = make(alloc, words, 0, &[])?;
        assert_eq!(rt; told.status, status, "at {words:?}");
        assert!(rt; told.out.bytes().is_empty());
        let line = if status == Status::Image {
            "nesc: image size 0\n"
        } else {
            "nesc: words\n"
        };
        assert_eq!(rt; told.err.bytes(), line.as_bytes());
        assert_eq!(rt; image.clock(), 0);
    }
    Ok(())
}
