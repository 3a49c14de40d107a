ghost use Rattle.std.specs.Prelude.{IfOk, IfSome};
ghost use Rattle.nesc_fakes.specs.MemDisk.{known_of};
ghost use Rattle.file_layer.specs.Changing.{GoesOn};
ghost use Rattle.file_layer.specs.Layer.{Fits};
ghost use Rattle.file_layer.specs.Showing.{RestsOn};

use file_layer::{FileFault, Files};
use host_journal::Journal;
use image_layout::write_super;
use nesc_base::{Block, Blocks, Disk, FileNo, Geometry, LONGEST_FILE, Name, NoMemory};
use nesc_fakes::MemDisk;
use std::alloc::Global;

const LEAST: Geometry = Geometry {
    version: 1,
    blocks: 16,
    slack: 64,
};

/// What is done to the files of an image.
#[derive(Clone, Copy, Debug)]
enum Act {
    /// A file of a name and a length is made.
    Create(&'static [u8], u32),
    /// The file of a number goes.
    Delete(u16),
    /// It gets another length.
    Resize(u16, u32),
    /// It comes to hold so many of its blocks from one on.
    Hold(u16, u32, u32),
    /// So many of its blocks from one on are put, the first of this byte.
    Put(u16, u32, u32, u8),
    /// So many of its blocks from one on are mapped.
    Map(u16, u32, u32),
}

use Act::{Create, Delete, Hold, Map, Put, Resize};

/// The files of the image on the disk, with its journal, or `None` where it does not open.
fn begin(alloc: Global, disk: &mut MemDisk) -> Result<Option<(Journal, Files)>, NoMemory>
    ensures { IfOk result (λ found. IfSome found (λ pair. RestsOn pair.1 pair.0 (known_of disk.new))) }
{
    if disk.blocks() < LEAST.total() {
        return Ok(None);
    }
    let mut journal = Journal::new(alloc, LEAST)?;
    match journal.start(disk) {
        Ok(()) => {}
        Err(_) => return Ok(None),
    }
    let mut files = Files::new(alloc, LEAST)?;
    match files.load(&journal, disk) {
        Ok(()) => Ok(Some((journal, files))),
        Err(_) => Ok(None),
    }
}

/// So many blocks, 1 at least and 16 at most, the first of this byte and the others of zeros.
fn blocks_of(alloc: Global, n: u32, byte: u8) -> Result<Blocks, NoMemory> {
    let mut blocks = Blocks::zeros(alloc, n.clamp(1, 16))?;
    if blocks.len() > 0 {
        blocks.set(0, &Block([byte; 1024]));
    }
    Ok(blocks)
}

/// Makes a file, and answers its number. `Media` says here that a test asks for what no caller may.
fn create(
    journal: &mut Journal,
    files: &mut Files,
    name: &[u8],
    length: u32,
) -> Result<u32, FileFault>
    requires { Fits files.old journal.old }
    ensures fits { Fits files.new journal.new }
    ensures goes { GoesOn journal.old journal.new }
{
    let Some(name) = Name::read(name) else {
        return Err(FileFault::Media);
    };
    if length > LONGEST_FILE {
        return Err(FileFault::Media);
    }
    let file = files.create(journal, name, length)?;
    Ok(u32::from(file.0))
}

/// Gives a file another length, and answers how many blocks it gave back.
fn resize(
    journal: &mut Journal,
    files: &mut Files,
    file: u16,
    length: u32,
) -> Result<u32, FileFault>
    requires { Fits files.old journal.old }
    ensures fits { Fits files.new journal.new }
    ensures goes { GoesOn journal.old journal.new }
{
    if length > LONGEST_FILE {
        return Err(FileFault::Media);
    }
    files.resize(journal, FileNo(file), length)
}

/// Removes a file, and answers 0.
fn delete(journal: &mut Journal, files: &mut Files, file: u16) -> Result<u32, FileFault>
    requires { Fits files.old journal.old }
    ensures fits { Fits files.new journal.new }
    ensures goes { GoesOn journal.old journal.new }
{
    files.delete(journal, FileNo(file))?;
    Ok(0)
}

/// Holds blocks of a file, 16 at most, and answers how many.
fn hold(
    journal: &mut Journal,
    files: &mut Files,
    file: u16,
    v: u32,
    n: u32,
) -> Result<u32, FileFault>
    requires { Fits files.old journal.old }
    ensures fits { Fits files.new journal.new }
    ensures goes { GoesOn journal.old journal.new }
{
    if v > LONGEST_FILE || n > 16 || files.length(FileNo(file)).is_none() {
        return Err(FileFault::Media);
    }
    if files.holdable(FileNo(file), v, n) > journal.room() {
        return Err(FileFault::Media);
    }
    Ok(files.hold(journal, FileNo(file), v, n).count)
}

/// Puts blocks of a file, 16 at most, and answers how many are newly held.
fn put(
    journal: &mut Journal,
    files: &mut Files,
    file: u16,
    v: u32,
    blocks: &Blocks,
) -> Result<u32, FileFault>
    requires { Fits files.old journal.old }
    ensures fits { Fits files.new journal.new }
    ensures goes { GoesOn journal.old journal.new }
{
    if v > LONGEST_FILE || blocks.len() > journal.room() {
        return Err(FileFault::Media);
    }
    files.put(journal, FileNo(file), v, blocks)
}

/// Maps blocks of a file, 16 at most, and answers how many are newly held.
fn map(
    journal: &mut Journal,
    files: &mut Files,
    file: u16,
    v: u32,
    n: u32,
) -> Result<u32, FileFault>
    requires { Fits files.old journal.old }
    ensures fits { Fits files.new journal.new }
    ensures goes { GoesOn journal.old journal.new }
{
    if v > LONGEST_FILE || n > 16 {
        return Err(FileFault::Media);
    }
    if files.needed(FileNo(file), v, n)? > journal.room() {
        return Err(FileFault::Media);
    }
    files.map(journal, FileNo(file), v, n)
}

/// Does something to the files.
fn perform(
    alloc: Global,
    journal: &mut Journal,
    files: &mut Files,
    act: Act,
) -> Result<Result<u32, FileFault>, NoMemory>
    requires { Fits files.old journal.old }
    ensures fits { Fits files.new journal.new }
    ensures goes { GoesOn journal.old journal.new }
{
    match act {
        Create(name, length) => Ok(create(journal, files, name, length)),
        Delete(file) => Ok(delete(journal, files, file)),
        Resize(file, length) => Ok(resize(journal, files, file, length)),
        Hold(file, v, n) => Ok(hold(journal, files, file, v, n)),
        Put(file, v, n, byte) => {
            let blocks = blocks_of(alloc, n, byte)?;
            Ok(put(journal, files, file, v, &blocks))
        }
        Map(file, v, n) => Ok(map(journal, files, file, v, n)),
    }
}

/// Does these one after another, as long as each is answered so, and says how many were.
fn perform_all(
    alloc: Global,
    journal: &mut Journal,
    files: &mut Files,
    acts: &[(Act, Result<u32, FileFault>)],
) -> Result<usize, NoMemory>
    requires { Fits files.old journal.old }
    ensures fits { Fits files.new journal.new }
    ensures goes { GoesOn journal.old journal.new }
{
    for (k, (act, answer)) in acts.iter().enumerate() {
        if perform(alloc, journal, files, *act)? != *answer {
            return Ok(k);
        }
    }
    Ok(acts.len())
}

/// The first byte of a block of a file of the image on the disk, or `None` where it is not read.
fn byte_of(alloc: Global, disk: &mut MemDisk, file: u16, v: u32) -> Result<Option<u8>, NoMemory> {
    let mut into = Blocks::zeros(alloc, 1)?;
    let Some((journal, files)) = begin(alloc, disk)? else {
        return Ok(None);
    };
    if v > LONGEST_FILE {
        return Ok(None);
    }
    match files.get(&journal, disk, FileNo(file), v, &mut into) {
        Ok(()) => Ok(Some(into.get(0).0[0])),
        Err(_) => Ok(None),
    }
}

/// A disk of the image of no files.
fn new_disk(alloc: Global) -> Result<MemDisk, NoMemory> {
    MemDisk::with_blocks(alloc, 291, &[(0, write_super(LEAST))], &[])
}

/// Does these to the files of the image on the disk and commits, and says how many were answered so, how much room
/// there was before the commit, and how many data blocks are free.
fn run_on(
    alloc: Global,
    disk: &mut MemDisk,
    acts: &[(Act, Result<u32, FileFault>)],
) -> Result<Option<(usize, u32, u32)>, NoMemory> {
    let Some((mut journal, mut files)) = begin(alloc, disk)? else {
        return Ok(None);
    };
    let done = perform_all(alloc, &mut journal, &mut files, acts)?;
    let (room, free) = (journal.room(), files.free());
    match journal.commit(disk) {
        Ok(_) => Ok(Some((done, room, free))),
        Err(_) => Ok(None),
    }
}

/// The places of the first five blocks of a file of the image on the disk, or 0 where one is not held.
fn places_of(alloc: Global, disk: &mut MemDisk, file: u16) -> Result<[u32; 5], NoMemory> {
    let mut places = [0; 5];
    if let Some((_journal, files)) = begin(alloc, disk)? {
        for (v, place) in places.iter_mut().enumerate() {
            *place = files.place(FileNo(file), v as u32).unwrap_or(0);
        }
    }
    Ok(places)
}

#[test]
fn files_outlast_a_commit(rt: HostRuntime) -> Result<(), NoMemory> {
    let alloc = rt.alloc();
    let mut disk = new_disk(alloc)?;
    let acts = [
        (Create(b"a", 10), Ok(1)),
        (Hold(1, 3, 2), Ok(2)),
        (Put(1, 0, 2, 0x11), Ok(2)),
        (Put(1, 3, 1, 0x22), Ok(0)),
        (Map(1, 0, 5), Ok(1)),
        (Map(1, 0, 5), Ok(0)),
        (Create(b"b", 4), Ok(2)),
        (Resize(1, 3), Ok(2)),
        (Hold(2, 1, 2), Ok(2)),
    ];
    // Eight data blocks were staged, and five are held: a map of what is held stages none.
    assert!(rt; run_on(alloc, &mut disk, &acts)? == Some((9, 64 - 8, 16 - 5)));
    // Each hold takes the lowest free data block: two for 3 and 4, two for 0 and 1, one for 2, and again the first two.
    assert!(rt; places_of(alloc, &mut disk, 1)? == [277, 278, 279, 0, 0]);
    assert!(rt; places_of(alloc, &mut disk, 2)? == [0, 275, 276, 0, 0]);
    assert!(rt;
        byte_of(alloc, &mut disk, 1, 0)? == Some(0x11)
            && byte_of(alloc, &mut disk, 1, 1)? == Some(0)
    );
    // The block that was given back and is held again has zeros, as has one that is not held.
    assert!(rt;
        byte_of(alloc, &mut disk, 2, 1)? == Some(0) && byte_of(alloc, &mut disk, 2, 3)? == Some(0)
    );
    assert!(rt; byte_of(alloc, &mut disk, 1, 3)?.is_none());
    Ok(())
}

#[test]
fn what_is_refused_changes_nothing(rt: HostRuntime) -> Result<(), NoMemory> {
    let alloc = rt.alloc();
    let mut disk = new_disk(alloc)?;
    let few = Err(FileFault::NoSpace { free: 3, needed: 4 });
    let acts = [
        (Create(b"a", 20), Ok(1)),
        (Hold(1, 0, 13), Ok(13)),
        (Create(b"a", 4), Err(FileFault::Exists)),
        (Delete(2), Err(FileFault::NoFile)),
        (Delete(0), Err(FileFault::NoFile)),
        (Resize(33, 4), Err(FileFault::NoFile)),
        (Put(2, 0, 1, 1), Err(FileFault::NoFile)),
        (Put(1, 20, 1, 1), Err(FileFault::Range)),
        (Map(1, 19, 2), Err(FileFault::Range)),
        (Put(1, 12, 5, 1), few),
        (Map(1, 12, 5), few),
    ];
    assert!(rt; run_on(alloc, &mut disk, &acts)? == Some((11, 64 - 13, 3)));
    let acts = [
        (Put(1, 11, 5, 1), Ok(3)),
        (Hold(1, 0, 16), Ok(0)),
        (Delete(1), Ok(0)),
        (Create(b"b", 2), Ok(1)),
        (Hold(1, 1, 1), Ok(1)),
    ];
    assert!(rt; run_on(alloc, &mut disk, &acts)? == Some((5, 64 - 6, 15)));
    assert!(rt; places_of(alloc, &mut disk, 1)? == [0, 275, 0, 0, 0]);
    assert!(rt; byte_of(alloc, &mut disk, 1, 1)? == Some(0));
    Ok(())
}
