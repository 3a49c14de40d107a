use crate::tests::{Told, disk_of, done, new_image, run_over, source_of, tell_with};
use nesc_base::NoMemory;
use nesc_fakes::MemDisk;
use nesc_monitor::Status;
use std::alloc::Global;
use std::test::Fail;

/// The puts fill the slack, so that the one behind them needs a commit. Then come a flush, a `sync` and a restart.
const COMMANDS: &str = r#"
    host = ["create a 16", "put a 0 z z z z z z z z z z z z z z z z", "put a 0 z z z z z z z z z z z z z z z z",
        "put a 0 z z z z z z z z z z z z z z z z", "put a 0 z z z z z z z z z z z z z z z z",
        "put a 0 2222222222222222", "attach 1 a", "put a 2 4444444444444444", "sync", "put a 3 5555555555555555",
        "get a 0 4"]
    guest = [["w 1 3333333333333333", "f"]]"#;

const SCHEDULE: &str = "h h h h h h h g1 g1 t t h h h x h";

const TRACE: &str =
    "h ok\nh ok\nh ok\nh ok\nh ok\nc 44\nh ok\nh ok\ng 1 1\ng 1 2\nt 1 1 walk 0\nr 1 1 ok 1\nt 1 flush\nc 55\n\
        r 1 2 flushed 55\nh ok\nh ok\nc 64\nh ok\nx\nh data 2222222222222222 3333333333333333 4444444444444444 z\n\
        done 16\n";

/// What another run reads of the file where nothing was kept, after the first commit, the flush and the `sync`.
const NOTHING: &str = "h nofile\ndone 1\n";

const FILLED: &str = "h data z z z z\ndone 1\n";

const FLUSHED: &str = "h data 2222222222222222 3333333333333333 z z\ndone 1\n";

const SYNCED: &str = "h data 2222222222222222 3333333333333333 4444444444444444 z\ndone 1\n";

/// So many of the first lines of the trace.
fn first_lines(n: usize) -> &'static str {
    let mut end = 0usize;
    for line in TRACE.split_inclusive('\n').take(n) {
        end = end.saturating_add(line.len());
    }
    TRACE.get(..end).unwrap_or(TRACE)
}

/// What another run reads of the file, over the blocks as which the image reads.
fn read_again(alloc: Global, image: &MemDisk) -> Result<Told, NoMemory> {
    let blocks = Vec::from_slice(alloc, image.contents())?;
    let mut image = disk_of(alloc, blocks, &[], &[])?;
    run_over(alloc, "host = ['get a 0 4']", "h", &mut image)
}

/// What the run says where this read of the disk fails, this write or sync of it, and this write of the trace, each
/// counted from 1, or none of them for 0; and what another reads then.
fn run_failing(alloc: Global, read: u64, write: u64, out: u64) -> Result<(Told, Told), NoMemory> {
    let mut image = new_image(alloc, &[read], &[write])?;
    let commands = source_of(alloc, COMMANDS.as_bytes(), &[])?;
    let schedule = source_of(alloc, SCHEDULE.as_bytes(), &[])?;
    let told = tell_with(alloc, &["run"], commands, schedule, &mut image, &[out])?;
    Ok((told, read_again(alloc, &image)?))
}

// The first sync; the first commit up to its gate, and from the sync behind that on; the flush and the `sync` likewise;
// and the sync of the restart.
#[test]
fn each_write_of_the_disk_may_fail(rt: HostRuntime) -> Result<(), Fail> {
    for (from, to, lines, kept) in [
        (1, 2, 0, NOTHING),
        (2, 23, 5, NOTHING),
        (23, 45, 5, FILLED),
        (45, 50, 12, FILLED),
        (50, 56, 12, FLUSHED),
        (56, 60, 16, FLUSHED),
        (60, 65, 16, SYNCED),
        (65, 66, 19, SYNCED),
    ] {
        for call in from..to {
            let (told, again) = run_failing(rt.alloc(), 0, call, 0)?;
            let want = (Status::Device, first_lines(lines), "nesc: device\n");
            assert_eq!(rt; (told.said(), again.said()), (want, done(kept)), "{call}");
        }
    }
    Ok(())
}

// The opening reads superblock, gates, table and map, and the restart all but the superblock.
#[test]
fn each_read_of_an_opening_may_fail(rt: HostRuntime) -> Result<(), Fail> {
    for (from, to, lines, kept) in [(1, 8, 0, NOTHING), (8, 14, 19, SYNCED)] {
        for read in from..to {
            let (told, again) = run_failing(rt.alloc(), read, 0, 0)?;
            let want = (Status::Device, first_lines(lines), "nesc: device\n");
            assert_eq!(rt; (told.said(), again.said()), (want, done(kept)), "{read}");
        }
    }
    Ok(())
}

// Lines are handed on before each of the three commits and before the restart, and at the end.
#[test]
fn lines_go_out_before_what_is_kept_changes(rt: HostRuntime) -> Result<(), Fail> {
    for (write, lines, kept) in [
        (1, 0, NOTHING),
        (2, 5, FILLED),
        (3, 12, FLUSHED),
        (4, 16, SYNCED),
        (5, 19, SYNCED),
    ] {
        let (told, again) = run_failing(rt.alloc(), 0, 0, write)?;
        let want = (Status::Write, first_lines(lines), "nesc: write\n");
        assert_eq!(rt; (told.said(), again.said()), (want, done(kept)), "{write}");
    }
    Ok(())
}

// Past the last of all these calls nothing is left that could fail.
#[test]
fn no_other_call_is_made(rt: HostRuntime) -> Result<(), Fail> {
    let (told, again) = run_failing(rt.alloc(), 18, 66, 6)?;
    assert_eq!(rt; (told.said(), again.said()), (done(TRACE), done(SYNCED)));
    Ok(())
}

#[test]
fn a_failed_sync_keeps_nothing(rt: HostRuntime) -> Result<(), Fail> {
    let alloc = rt.alloc();
    let mut image = new_image(alloc, &[], &[4])?;
    let told = run_over(alloc, "host = ['create a 4', 'sync']", "h h", &mut image)?;
    assert_eq!(rt; told.said(), (Status::Device, "h ok\n", "nesc: device\n"));
    assert_eq!(rt; read_again(alloc, &image)?.said(), done(NOTHING));
    Ok(())
}

#[test]
fn a_failed_read_ends_its_request(rt: HostRuntime) -> Result<(), Fail> {
    let commands = r#"host = ["create a 4", "put a 0 3333333333333333", "sync", "attach 1 a"]
        guest = [["r 0 1", "r 0 1"]]"#;
    let trace =
        "h ok\nh ok\nh ok\nc 14\nh ok\ng 1 1\nt 1 0 walk 0\nr 1 1 media 0\ng 1 2\nt 1 0 walk 0\n\
            r 1 2 ok 1 3333333333333333\ndone 8\n";
    let mut image = new_image(rt.alloc(), &[8], &[])?;
    let told = run_over(rt.alloc(), commands, "h h h h g1 t g1 t", &mut image)?;
    assert_eq!(rt; told.said(), done(trace));
    Ok(())
}

#[test]
fn each_read_of_a_text_may_fail(rt: HostRuntime) -> Result<(), Fail> {
    let alloc = rt.alloc();
    for (first, second) in [(1, 9), (2, 9), (9, 1), (9, 2)] {
        let commands = source_of(alloc, COMMANDS.as_bytes(), &[first])?;
        let schedule = source_of(alloc, SCHEDULE.as_bytes(), &[second])?;
        let mut image = new_image(alloc, &[1], &[1])?;
        let told = tell_with(alloc, &["run"], commands, schedule, &mut image, &[1])?;
        assert_eq!(rt; told.said(), (Status::Read, "", "nesc: read\n"));
    }
    Ok(())
}
