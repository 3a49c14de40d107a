ghost use Rattle.std.specs.Prelude.{◌≡◌, ◌⊎◌, ◌+◌, ◌≤◌, ℕ, IfOk, IfSome, List, MatchOption};
ghost use Rattle.std.specs.Prelude.{OnErr, OnOk, IsErr, IsErrOf, length, option_map, true};
ghost use Rattle.std.specs.FinMap.{get, len};
ghost use Rattle.nesc_base.specs.declared.block.Block.{Block};
ghost use Rattle.nesc_base.specs.Disk.{Goes, Unchanged};
ghost use Rattle.nesc_base.specs.Fault.{HasCause};
ghost use Rattle.nesc_base.specs.Files.{File, file_at, longest_file};
ghost use Rattle.nesc_base.specs.Places.{Places, place_of};
ghost use Rattle.nesc_base.specs.Runs.{AreRunsOf};
ghost use Rattle.block_map.specs.Map.{AreRunsIn, IsUnheld, StandsAt, count_free};
ghost use Rattle.file_model.specs.Files.{HasName, IsUnnamed, free, read, read_from};
ghost use Rattle.file_model.specs.Places.{held_at};
ghost use Rattle.host_journal.specs.Kept.{IsKept};
ghost use Rattle.file_layer.specs.declared.files.FileFault.TheVariants.{Media, NoFile, Range};
ghost use Rattle.file_layer.specs.Answers.{GetAnswers};
ghost use Rattle.file_layer.specs.Knowing.{FileSet, OfFiles};
ghost use Rattle.file_layer.specs.Layer.{IsLayer, IsUsed, entry_of};
ghost use Rattle.file_layer.specs.Showing.{RestsOn, Shows};

use crate::{FileFault, Files};
use block_map::FileRuns;
use host_journal::Journal;
use image_layout::TableEntry;
use nesc_base::{Block, Blocks, Disk, DiskFault, FileNo, Geometry, MOST_FILES, Name};

impl Files {
    /// Reads blocks of a file from `v` on, as many as the buffer has. A block that is not held reads as zeros.
    ///
    /// `NoFile` says that there is no file of the number, else `Range` that not all lie below its length, else `Media`
    /// that the disk failed; then the buffer may hold anything.
    pub fn get<D: Disk>(
        &self,
        journal: &Journal,
        disk: &mut D,
        file: FileNo,
        v: u32,
        into: &mut Blocks,
    ) -> Result<(), FileFault>
        requires rests { RestsOn self.now journal.now (D.known disk.old) }
        requires begins { v ≤ longest_file }
        ensures answers { OfFiles self.now (λ set _. GetAnswers set file.0 v (length into.old) result) }
        ensures blocks { (D.known disk.old).tells ≡ true → (kept : List Block) (set : FileSet) (places : Places) →
            IsKept journal.now.geometry (D.known disk.old) kept
            → Shows self.now journal.now.staged kept set places
            → OnOk result (into.new ≡ read_from (file_at set file.0) v (length into.old)) }
        ensures refused { IsErrOf result NoFile ⊎ IsErrOf result Range → into.new ≡ into.old }
        ensures whole { length into.new ≡ length into.old }
        ensures cause { HasCause (D.known disk.old).faults (D.known disk.new).faults (IsErrOf result Media) }
        ensures unchanged { Unchanged (D.known disk.old) (D.known disk.new) }
        ensures goes { Goes (D.known disk.old) (D.known disk.new) }
        ensures keeps { D.keeps disk.old disk.new }
    {
        let length = self.length(file).ok_or(FileFault::NoFile)?;
        if length < v + into.len() {
            return Err(FileFault::Range);
        }
        for k in 0..into.len() {
            let Ok(block) = self.read_block(journal, disk, file, v + k) else {
                return Err(FileFault::Media);
            };
            into.set(k, &block);
        }
        Ok(())
    }

    // Reads a block of a file, as zeros where the file does not hold it.
    fn read_block<D: Disk>(
        &self,
        journal: &Journal,
        disk: &mut D,
        file: FileNo,
        v: u32,
    ) -> Result<Block, DiskFault>
        requires rests { RestsOn self.now journal.now (D.known disk.old) }
        ensures block { (D.known disk.old).tells ≡ true → (kept : List Block) (set : FileSet) (places : Places) →
            IsKept journal.now.geometry (D.known disk.old) kept
            → Shows self.now journal.now.staged kept set places
            → IfOk result (λ block. block ≡ read (file_at set file.0) v) }
        ensures cause { HasCause (D.known disk.old).faults (D.known disk.new).faults (IsErr result) }
        ensures unchanged { Unchanged (D.known disk.old) (D.known disk.new) }
        ensures goes { Goes (D.known disk.old) (D.known disk.new) }
        ensures keeps { D.keeps disk.old disk.new }
    {
        let mut block = Block::zero();
        if let Some(place) = self.map.place(file, v) {
            journal.read(disk, place, &mut block)?;
        }
        Ok(block)
    }

    /// The file of a name, or `None` where there is none.
    pub fn find(&self, name: &Name) -> Option<FileNo>
        ensures found { OfFiles self.now (λ set _. MatchOption result (IsUnnamed set name.now)
            (λ n. (file : File) × HasName set name.now n.0 file)) }
        ensures used { IfSome result (λ n. IsUsed self.now n.0) }
    {
        let entries = self.table.entries();
        for e in 0..usize::from(MOST_FILES) {
            if let Some(entry) = &entries[e] {
                if entry.name.bytes() == name.bytes() {
                    return Some(FileNo(e as u16 + 1));
                }
            }
        }
        None
    }

    /// How many blocks long a file is, or `None` where there is no file of the number.
    pub fn length(&self, file: FileNo) -> Option<u32>
        ensures entry { result ≡ option_map (λ entry. entry.length) (entry_of self.now file.0) }
        ensures short { IsLayer self.now → IfSome result (λ length. length ≤ longest_file) }
        ensures answers { OfFiles self.now (λ set _.
            result ≡ option_map (λ (held : File). held.length) (get set file.0)) }
    {
        Some(self.entry(file)?.length)
    }

    /// The name of a file, or `None` where there is no file of the number.
    pub fn name(&self, file: FileNo) -> Option<Name>
        ensures entry { result ≡ option_map (λ entry. entry.name) (entry_of self.now file.0) }
        ensures answers { OfFiles self.now (λ set _.
            result ≡ option_map (λ (held : File). held.name) (get set file.0)) }
    {
        Some(self.entry(file)?.name)
    }

    // The entry of a file, or `None` where there is none.
    fn entry(&self, file: FileNo) -> Option<TableEntry>
        ensures { result ≡ entry_of self.now file.0 }
    {
        let e = file.0.checked_sub(1)?;
        *self.table.entries().get(usize::from(e))?
    }

    /// How the image is divided.
    pub fn geometry(&self) -> Geometry
        ensures { result ≡ self.now.geometry }
    {
        self.geometry
    }

    /// How many data blocks are free.
    pub fn free(&self) -> u32
        requires { IsLayer self.now }
        ensures count { result ≡ count_free self.now.map.owners }
        ensures answers { OfFiles self.now (λ set _. result ≡ free self.now.geometry.blocks set) }
    {
        self.map.free()
    }

    /// Where a block of a file stands, as a number of blocks of the image, or `None` where the file does not hold it.
    pub fn place(&self, file: FileNo, v: u32) -> Option<u32>
        ensures stands { MatchOption result (IsUnheld self.now.map file.0 v) (StandsAt self.now.map file.0 v) }
        ensures answers { IsLayer self.now → OfFiles self.now (λ _ places. result ≡ place_of places file.0 v) }
    {
        self.map.place(file, v)
    }

    /// How many blocks a file holds.
    pub fn held(&self, file: FileNo) -> u32
        requires { IsLayer self.now }
        ensures { OfFiles self.now (λ set _. result ≡ len (file_at set file.0).body) }
    {
        self.map.held(file)
    }

    /// The runs in which the held blocks of a file lie, in rising order.
    pub fn runs(&self, file: FileNo) -> FileRuns<'_>
        requires { IsLayer self.now }
        ensures runs { AreRunsIn self.now.map file.0 result }
        ensures answers { OfFiles self.now (λ set places. AreRunsOf (held_at places file.0) result) }
    {
        self.map.runs(file)
    }
}
