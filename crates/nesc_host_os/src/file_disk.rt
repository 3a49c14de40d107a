ghost use Rattle.std.specs.Prelude.{◌≡◌, ◌≢◌, ◌⊎◌, ◌+◌, ◌*◌, ◌<◌, true, false, None, Some, IsTrue, IsSome};
ghost use Rattle.std.specs.Prelude.{IsOk, IsErr, IfOk, IfErr, OnOk, OnErr, min, slice_get, slice_set};
ghost use Rattle.std.proofs.Common.{rules};
ghost use Rattle.std.specs.Fs.{metadata_len, file_type, IsFile};
ghost use Rattle.std.specs.IoError.{error_kind};
ghost use Rattle.nesc_base.specs.Block.{block_size, zero_block};
ghost use Rattle.nesc_base.specs.Disk.{Goes, IsSettled, Unchanged, WritesAt, here, nowhere};
ghost use Rattle.nesc_base.specs.Fault.{HasCause, Rose};
ghost use Rattle.nesc_host_os.specs.FileDisk.{blank_blocks, whole_blocks_in, folder_of, known_of};

use nesc_base::{BLOCK_BYTES, Block, Disk, DiskFault};
use std::fs::{self, Metadata, OpenFile, OpenOptions};
use std::io::{self, ErrorKind};
use std::marker::Model;
use std::os::unix::fs::FileExt;
use std::path::Path;
use std::rt::Files;

/// How many blocks a disk has where there is no file yet, or an empty one.
const BLANK_BLOCKS: u32 = 4_194_304;

/// A file as a disk, which does not tell what it holds or what a stop leaves. Block `n` is the 1024 bytes from byte
/// `n * 1024` on.
#[derive(Drop)]
pub struct FileDisk<'a, R: Files> {
    rt: &'a R,
    path: &'a str,
    size: u32,
    is_blank: bool,
    file: Option<R::File>,
    is_writable: bool,
    folder_waits: bool,
    clock: u64,
    faults: u64,
}

impl<'a, R: Files> Model for FileDisk<'a, R> {
    ghost use Rattle.nesc_host_os.specs.FileDisk.{FileDiskState};

    ghost Value = { FileDiskState R.File };

    ghost view = { λ s. record {
      path = s.path.now;
      size = s.size;
      is_blank = s.is_blank;
      file = s.file;
      is_writable = s.is_writable;
      folder_waits = s.folder_waits;
      clock = s.clock;
      faults = s.faults;
    } };
}

/// How many blocks of 1024 bytes a disk has, and whether it is blank.
fn extent_of(found: &io::Result<Metadata>) -> (u32, bool)
    ensures file { IfOk found.now (λ m. IsFile (file_type m) → 0 < metadata_len m →
        result ≡ (whole_blocks_in (metadata_len m), false)) }
    ensures empty { IfOk found.now (λ m. IsFile (file_type m) → metadata_len m ≡ 0 → result ≡ (blank_blocks, true)) }
    ensures no_file { IfOk found.now (λ m. ¬ IsFile (file_type m) → result ≡ (0, false)) }
    ensures absent { IfErr found.now (λ e. error_kind e ≡ ErrorKind.NotFound → result ≡ (blank_blocks, true)) }
    ensures unseen { IfErr found.now (λ e. error_kind e ≢ ErrorKind.NotFound → result ≡ (0, false)) }
{
    match found {
        Ok(found) if !found.is_file() => (0, false),
        Ok(found) if found.len() > 0 => (whole_blocks(found.len()), false),
        Err(e) if e.kind() != ErrorKind::NotFound => (0, false),
        _ => (BLANK_BLOCKS, true),
    }
}

/// How many whole blocks there are in so many bytes, up to 2^32 - 1.
fn whole_blocks(len: u64) -> u32
    ensures { result ≡ whole_blocks_in len }
{
    u32::try_from(len / BLOCK_BYTES as u64).unwrap_or(u32::MAX)
}

/// The byte at which a block begins.
fn start_of(at: u32) -> u64
    ensures { result ≡ at * block_size }
{
    u64::from(at) * BLOCK_BYTES as u64
}

/// The folder in which the file of this path stands: its parent, or `.` where the path has one name alone.
fn folder_of(path: &str) -> &str
    ensures { result.now ≡ folder_of path.now }
{
    match Path::new(path).parent() {
        Some(folder) if !folder.as_str().is_empty() => folder.as_str(),
        _ => ".",
    }
}

/// Reads the block at a place of a blank file. What lies past its end reads as zeros.
fn read_padded<F: FileExt>(file: &F, at: u32, into: &mut Block) -> io::Result<()> {
    let mut done = 0;
    for _ in 0..u64::MAX {
        if done >= BLOCK_BYTES {
            return Ok(());
        }
        match file.read_at(&mut into.0[done..], start_of(at) + done as u64) {
            Ok(0) => {
                into.0[done..].fill(0);
                return Ok(());
            }
            Ok(count) => done += count,
            Err(e) if e.kind() == ErrorKind::Interrupted => {}
            Err(e) => return Err(e),
        }
    }
    Err(ErrorKind::Interrupted.into())
}

impl<'a, R: Files> FileDisk<'a, R>
where
    R::File: FileExt,
{
    /// The file of this path as a disk. It is looked at here, once, and opened by the first call that needs it.
    ///
    /// A file has as many blocks of 1024 bytes as its length has whole ones, up to 4,294,967,295. Where there is no
    /// file, or an empty one, the disk is blank: it has 4,194,304 blocks, which read as zeros until they are written,
    /// and its first write makes the file. What is no file, such as a folder, has 0 blocks, and so has a path that
    /// cannot be looked at.
    pub fn new(rt: &'a R, path: &'a str) -> FileDisk<'a, R>
        ensures starts { result ≡ record {
          path = path.now;
          size = result.size;
          is_blank = result.is_blank;
          file = None;
          is_writable = false;
          folder_waits = false;
          clock = 0;
          faults = 0;
        } }
        ensures blank { IsTrue result.is_blank → result.size ≡ blank_blocks }
    {
        let (size, is_blank) = extent_of(&fs::metadata(rt, path));
        FileDisk {
            rt,
            path,
            size,
            is_blank,
            file: None,
            is_writable: false,
            folder_waits: false,
            clock: 0,
            faults: 0,
        }
    }

    /// Reads a block. A file that is not open is opened first, and stays so.
    fn read_file(&mut self, at: u32, into: &mut Block) -> io::Result<()>
        ensures blank { IsTrue self.old.is_blank → self.old.file ≡ None → IsOk result × into.new ≡ zero_block }
        ensures opened { OnOk result (self.old.is_blank ≡ false → IsSome self.new.file) }
        ensures stays { IsSome self.old.file → IsSome self.new.file }
        ensures file { self.new ≡ record self.old { file = self.new.file } }
    {
        let file = match self.file.take() {
            Some(file) => file,
            None if self.is_blank => {
                *into = Block::zero();
                return Ok(());
            }
            None => fs::open(self.rt, self.path)?,
        };
        let done = if self.is_blank {
            read_padded(&file, at, into)
        } else {
            file.read_exact_at(&mut into.0, start_of(at))
        };
        self.file = Some(file);
        done
    }

    /// Writes a block. A file that is not open for writing is opened first, and stays so. That of a blank disk is
    /// made if it is not there, and its folder waits for the next sync then.
    fn write_file(&mut self, at: u32, from: &Block) -> io::Result<()>
        ensures opened { OnOk result (IsSome self.new.file × IsTrue self.new.is_writable) }
        ensures stays { IsTrue self.old.is_writable → IsSome self.old.file →
            IsSome self.new.file × IsTrue self.new.is_writable × (self.new.folder_waits ≡ self.old.folder_waits) }
        ensures made { IsTrue self.old.is_blank → self.old.file ≡ None → IsSome self.new.file
            → IsTrue self.new.folder_waits }
        ensures begins { IsTrue self.new.folder_waits → IsTrue self.old.is_blank ⊎ IsTrue self.old.folder_waits }
        ensures still_waits { IsTrue self.old.folder_waits → IsTrue self.new.folder_waits }
        ensures file { self.new ≡ record self.old {
          file = self.new.file;
          is_writable = self.new.is_writable;
          folder_waits = self.new.folder_waits;
        } }
    {
        let file = match self.file.take() {
            Some(file) if self.is_writable => file,
            _ => {
                let file = OpenOptions::new()
                    .read(true)
                    .write(true)
                    .create(self.is_blank)
                    .open(self.rt, self.path)?;
                self.folder_waits |= self.is_blank;
                file
            }
        };
        let done = file.write_all_at(&from.0, start_of(at));
        self.file = Some(file);
        self.is_writable = true;
        done
    }

    /// Makes sure of the file, which is opened first if it is not open, and then of its folder, if that waits. A
    /// blank disk that was not written has no file.
    fn sync_file(&mut self) -> io::Result<()>
        ensures blank { IsTrue self.old.is_blank → self.old.file ≡ None → IsOk result }
        ensures opened { OnOk result (self.old.is_blank ≡ false → IsSome self.new.file) }
        ensures stays { IsSome self.old.file → IsSome self.new.file }
        ensures folder { OnOk result (IsSome self.new.file → self.new.folder_waits ≡ false) }
        ensures still_waits { OnErr result (self.new.folder_waits ≡ self.old.folder_waits) }
        ensures no_file { self.new.file ≡ None → self.new.folder_waits ≡ self.old.folder_waits }
        ensures file { self.new ≡ record self.old { file = self.new.file; folder_waits = self.new.folder_waits } }
    {
        let file = match self.file.take() {
            Some(file) => file,
            None if self.is_blank => return Ok(()),
            None => fs::open(self.rt, self.path)?,
        };
        let done = file.sync_all();
        self.file = Some(file);
        done?;
        self.sync_folder()
    }

    /// Makes sure of the folder that the file stands in, if that waits.
    fn sync_folder(&mut self) -> io::Result<()>
        ensures ok { OnOk result (self.new ≡ record self.old { folder_waits = false }) }
        ensures err { OnErr result (self.new ≡ self.old × IsTrue self.old.folder_waits) }
    {
        if self.folder_waits {
            fs::open(self.rt, folder_of(self.path))?.sync_all()?;
            self.folder_waits = false;
        }
        Ok(())
    }

    /// Counts an `Err`, up to 2^64 - 1.
    fn counted(&mut self, done: io::Result<()>) -> Result<(), DiskFault>
        ensures cause { HasCause self.old.faults self.new.faults (IsErr result) }
        ensures ok { OnOk done (IsOk result × self.new ≡ self.old) }
        ensures err { OnErr done (IsErr result × self.new ≡ record self.old {
          faults = min (self.old.faults + 1) u64.MAX;
        }) }
    {
        if done.is_err() {
            self.faults = self.faults.saturating_add(1);
            return Err(DiskFault);
        }
        Ok(())
    }
}

impl<R: Files> Disk for FileDisk<'_, R>
where
    R::File: FileExt,
{
    ghost known = { known_of };

    ghost reads_as_left = { λ _ _ _. tt };

    ghost reads_whole = { Prim.search rules };

    ghost left_now = { Prim.search rules };

    ghost left_by_now = { Prim.search rules };

    ghost keeps_itself = { λ _. tt };

    ghost keeps_on = { λ _ _ _ _ _. tt };

    /// How many blocks of 1024 bytes there are, as `new` found it.
    fn blocks(&self) -> u32
        ensures { result ≡ self.now.size }
    {
        self.size
    }

    /// How many writes have begun and how many syncs have ended since `new`, up to 2^64 - 1.
    fn clock(&self) -> u64
        ensures { result ≡ self.now.clock }
    {
        self.clock
    }

    /// Reads all 1024 bytes of a block. On a blank disk what lies past the end of the file reads as zeros.
    ///
    /// An `Err` says that the path could not be opened, which the next call tries again, or that the file could not
    /// be read, or ends before the block does. It may leave anything in the buffer, and raises the count of faults
    /// by one, up to 2^64 - 1.
    fn read(&mut self, at: u32, into: &mut Block) -> Result<(), DiskFault>
        requires { at < self.old.size }
        ensures block { (known_of self.old).tells ≡ true
            → OnOk result (slice_get (known_of self.old).contents at ≡ Some into.new) }
        ensures unchanged { Unchanged (known_of self.old) (known_of self.new) }
        ensures goes { Goes (known_of self.old) (known_of self.new) }
        ensures keeps { Unit {0} }
        ensures cause { HasCause (known_of self.old).faults (known_of self.new).faults (IsErr result) }

        // A blank disk with no file yet reads as zeros. After an `Ok` the file of any other disk is open.
        ensures blank { IsTrue self.old.is_blank → self.old.file ≡ None → IsOk result × into.new ≡ zero_block }
        ensures opened { OnOk result (self.old.is_blank ≡ false → IsSome self.new.file) }
        ensures stays { IsSome self.old.file → IsSome self.new.file }

        // Only an `Err` is counted.
        ensures ok { OnOk result (self.new ≡ record self.old { file = self.new.file }) }
        ensures err { OnErr result (self.new ≡ record self.old {
          file = self.new.file;
          faults = min (self.old.faults + 1) u64.MAX;
        }) }
    {
        let done = self.read_file(at, into);
        self.counted(done)
    }

    /// Writes all 1024 bytes of a block, and raises the clock by one, up to 2^64 - 1. The file of a blank disk is
    /// made if it is not there, and grows as far as it is written.
    ///
    /// An `Err` says that the path could not be opened for writing, which the next write tries again, or that the
    /// file could not be written. Any bytes may then stand in the block. It raises the count of faults by one, up to
    /// 2^64 - 1.
    fn write(&mut self, at: u32, from: &Block) -> Result<(), DiskFault>
        requires { at < self.old.size }
        ensures written { (known_of self.old).tells ≡ true
            → OnOk result ((known_of self.new).contents ≡ slice_set (known_of self.old).contents at from.now) }
        ensures writes { WritesAt (here at) (known_of self.old) (known_of self.new) }
        ensures rises { Rose self.old.clock self.new.clock }
        ensures goes { Goes (known_of self.old) (known_of self.new) }
        ensures keeps { Unit {0} }
        ensures cause { HasCause (known_of self.old).faults (known_of self.new).faults (IsErr result) }

        // After an `Ok` the file is open for writing. One that was open for that stays so, and its folder as it was.
        ensures opened { OnOk result (IsSome self.new.file × IsTrue self.new.is_writable) }
        ensures stays { IsTrue self.old.is_writable → IsSome self.old.file →
            IsSome self.new.file × IsTrue self.new.is_writable × (self.new.folder_waits ≡ self.old.folder_waits) }

        // The folder of a file that a write made waits for a sync. No other folder begins to wait.
        ensures made { IsTrue self.old.is_blank → self.old.file ≡ None → IsSome self.new.file
            → IsTrue self.new.folder_waits }
        ensures begins { IsTrue self.new.folder_waits → IsTrue self.old.is_blank ⊎ IsTrue self.old.folder_waits }
        ensures still_waits { IsTrue self.old.folder_waits → IsTrue self.new.folder_waits }

        // Only an `Err` is counted, and the clock rises at each write.
        ensures ok { OnOk result (self.new ≡ record self.old {
          file = self.new.file;
          is_writable = self.new.is_writable;
          folder_waits = self.new.folder_waits;
          clock = min (self.old.clock + 1) u64.MAX;
        }) }
        ensures err { OnErr result (self.new ≡ record self.old {
          file = self.new.file;
          is_writable = self.new.is_writable;
          folder_waits = self.new.folder_waits;
          clock = min (self.old.clock + 1) u64.MAX;
          faults = min (self.old.faults + 1) u64.MAX;
        }) }
    {
        self.clock = self.clock.saturating_add(1);
        let done = self.write_file(at, from);
        self.counted(done)
    }

    /// Has the host bring all that the file holds to its disk, and raises the clock by one, up to 2^64 - 1. Where a
    /// write has made the file, the folder that it stands in is brought there too, once. A blank disk that was not
    /// written has nothing to bring there.
    ///
    /// An `Err` says that the path or its folder could not be opened, or that the host could not do it. The next sync
    /// tries all of it again. It raises the count of faults by one, up to 2^64 - 1.
    fn sync(&mut self) -> Result<(), DiskFault>
        ensures contents { (known_of self.old).tells ≡ true
            → (known_of self.new).contents ≡ (known_of self.old).contents }
        ensures settled { (known_of self.old).tells ≡ true → OnOk result (IsSettled (known_of self.new)) }
        ensures writes { WritesAt nowhere (known_of self.old) (known_of self.new) }
        ensures rises { Rose self.old.clock self.new.clock }
        ensures goes { Goes (known_of self.old) (known_of self.new) }
        ensures keeps { Unit {0} }
        ensures cause { HasCause (known_of self.old).faults (known_of self.new).faults (IsErr result) }

        // A blank disk with no file yet has nothing to fail. After an `Ok` the file of any other disk is open.
        ensures blank { IsTrue self.old.is_blank → self.old.file ≡ None → IsOk result }
        ensures opened { OnOk result (self.old.is_blank ≡ false → IsSome self.new.file) }
        ensures stays { IsSome self.old.file → IsSome self.new.file }

        // After an `Ok` the folder of a file waits no more. Else it waits as before.
        ensures folder { OnOk result (IsSome self.new.file → self.new.folder_waits ≡ false) }
        ensures no_file { self.new.file ≡ None → self.new.folder_waits ≡ self.old.folder_waits }

        // Only an `Err` is counted, and the clock rises at each sync.
        ensures ok { OnOk result (self.new ≡ record self.old {
          file = self.new.file;
          folder_waits = self.new.folder_waits;
          clock = min (self.old.clock + 1) u64.MAX;
        }) }
        ensures err { OnErr result (self.new ≡ record self.old {
          file = self.new.file;
          clock = min (self.old.clock + 1) u64.MAX;
          faults = min (self.old.faults + 1) u64.MAX;
        }) }
    {
        let done = self.sync_file();
        self.clock = self.clock.saturating_add(1);
        self.counted(done)
    }
}

#[cfg(test)]
mod tests {
    use super::*;
    use std::test::Fail;
    use std::{env, process};

    const ONES: Block = Block([1; BLOCK_BYTES]);

    fn path_of(rt: &HostRuntime, name: &str) -> Result<String, Fail> {
        let folder = env::temp_dir(rt)?;
        let process = process::id(rt.process());
        Ok(format!(in rt.alloc(); "{}/file-disk-{name}-{process}", folder.as_str())?)
    }

    fn size_of(rt: &HostRuntime, path: &str) -> u32 {
        FileDisk::new(rt, path).blocks()
    }

    fn block_at(disk: &mut FileDisk<'_, HostRuntime>, at: u32) -> Result<Block, DiskFault> {
        let mut block = ONES;
        if at < disk.blocks() {
            disk.read(at, &mut block)?;
        }
        Ok(block)
    }

    fn write_at(disk: &mut FileDisk<'_, HostRuntime>, at: u32) -> Result<(), DiskFault> {
        if at < disk.blocks() {
            disk.write(at, &ONES)?;
        }
        Ok(())
    }

    #[test]
    fn blank_disk_reads_zeros_and_makes_no_file(rt: HostRuntime) -> Result<(), Fail> {
        let path = path_of(&rt, "blank")?;
        let mut disk = FileDisk::new(&rt, path.as_str());
        assert_eq!(rt; disk.blocks(), 4_194_304);
        assert_eq!(rt; block_at(&mut disk, 4_194_303), Ok(Block::zero()));
        assert_eq!(rt; disk.sync(), Ok(()));
        assert!(rt; !fs::exists(&rt, path.as_str())?);
        Ok(())
    }

    #[test]
    fn first_write_makes_the_file(rt: HostRuntime) -> Result<(), Fail> {
        let path = path_of(&rt, "made")?;
        let mut disk = FileDisk::new(&rt, path.as_str());
        let done = (write_at(&mut disk, 2), disk.sync());
        let seen = [2, 1, 3].map(|at| block_at(&mut disk, at));
        let size = size_of(&rt, path.as_str());
        fs::remove_file(&rt, path.as_str())?;
        assert_eq!(rt; done, (Ok(()), Ok(())));
        assert_eq!(rt; seen, [Ok(ONES), Ok(Block::zero()), Ok(Block::zero())]);
        assert_eq!(rt; (disk.clock(), size), (2, 3));
        Ok(())
    }

    #[test]
    fn whole_blocks_are_counted(rt: HostRuntime) -> Result<(), Fail> {
        let path = path_of(&rt, "counted")?;
        let bytes = [2; 1500];
        for (len, want) in [(0, 4_194_304), (1, 0), (1023, 0), (1024, 1), (1500, 1)] {
            fs::write(&rt, path.as_str(), &bytes[..len])?;
            assert_eq!(rt; size_of(&rt, path.as_str()), want, "{len} bytes");
        }
        fs::remove_file(&rt, path.as_str())?;
        let folder = env::temp_dir(&rt)?;
        assert_eq!(rt; size_of(&rt, folder.as_str()), 0);
        Ok(())
    }

    #[test]
    fn write_keeps_the_rest_of_a_file(rt: HostRuntime) -> Result<(), Fail> {
        let path = path_of(&rt, "rest")?;
        let bytes = [2; 1500];
        fs::write(&rt, path.as_str(), &bytes)?;
        let mut disk = FileDisk::new(&rt, path.as_str());
        let first = block_at(&mut disk, 0);
        let done = (write_at(&mut disk, 0), disk.sync());
        let after = fs::read(&rt, path.as_str())?;
        fs::remove_file(&rt, path.as_str())?;
        assert_eq!(rt; first, Ok(Block([2; BLOCK_BYTES])));
        assert_eq!(rt; done, (Ok(()), Ok(())));
        assert!(rt; after.starts_with(&ONES.0) && after.ends_with(&bytes[BLOCK_BYTES..]));
        assert_eq!(rt; after.len(), 1500);
        Ok(())
    }

    #[test]
    fn file_that_is_gone_is_a_fault(rt: HostRuntime) -> Result<(), Fail> {
        let path = path_of(&rt, "gone")?;
        fs::write(&rt, path.as_str(), &[2; 1024])?;
        let mut disk = FileDisk::new(&rt, path.as_str());
        fs::remove_file(&rt, path.as_str())?;
        assert_eq!(rt; block_at(&mut disk, 0), Err(DiskFault));
        assert_eq!(rt; write_at(&mut disk, 0), Err(DiskFault));
        assert_eq!(rt; disk.sync(), Err(DiskFault));
        assert_eq!(rt; disk.clock(), 2);
        assert!(rt; !fs::exists(&rt, path.as_str())?);
        Ok(())
    }
}
