ghost use Rattle.std.specs.Prelude.{◌≡◌, ◌⊎◌, ◌==◌, if◌then◌else◌, ⊤, Bool, List, false, replicate};
ghost use Rattle.std.specs.Prelude.{None, Some, option_map, ◌+◌, ◌-◌, ◌<◌, ◌≤◌, ℕ, IfOk};
ghost use Rattle.std.specs.Prelude.{MatchResult, OnErr, OnOk, MatchOption, length, min, take};
ghost use Rattle.std.specs.Bool.{OnFalse, OnTrue};
ghost use Rattle.std.specs.FinMap.{get, len};
ghost use Rattle.image_layout.specs.declared.table.TableEntry.{TableEntry};
ghost use Rattle.image_layout.specs.Table.{table_block};
ghost use Rattle.nesc_base.specs.Blocks.{most_in_request};
ghost use Rattle.nesc_base.specs.Files.{file_at, longest_file, most_files};
ghost use Rattle.nesc_base.specs.Geometry.{most_map_blocks, table_at};
ghost use Rattle.block_map.specs.Map.{HoldsNoneFrom, IsUnheld, count_free, count_held};
ghost use Rattle.nesc_base.specs.Places.{Places};
ghost use Rattle.file_model.specs.Files.{below, free, unheld_below};
ghost use Rattle.host_journal.specs.Staged.{Staged};
ghost use Rattle.file_layer.specs.Answers.{CreateAnswers, FileAnswers, HoldAnswers};
ghost use Rattle.file_layer.specs.Changing.{AreFilled, AreHeld, AreMapped, ArePut, Forgets};
ghost use Rattle.file_layer.specs.Changing.{GoesOn, IsCreated, IsDeleted, IsOfBlocks, IsOfOwners};
ghost use Rattle.file_layer.specs.Changing.{IsResized, IsShortened, IsTable, Leads, Stages};
ghost use Rattle.file_layer.specs.Filling.{FillsBut, Grows, IsGiven, PutsBut, left_of, nothing_left};
ghost use Rattle.file_layer.specs.Knowing.{OfFiles, FileSet, Knows};
ghost use Rattle.file_layer.specs.Layer.{Fits, IsLayer, IsUsed, HasRoomFor, area_of};
ghost use Rattle.file_layer.specs.Layer.{entry_of, lacking, lacking_below, with_length};
ghost use Rattle.file_layer.specs.TakingBack.{GivesBack, TakesBack};

use crate::staging::Touched;
use crate::{FileFault, Files, Held};
use host_journal::Journal;
use image_layout::TableEntry;
use nesc_base::{Block, Blocks, FileNo, MOST_FILES, Name};

impl Files {
    /// Makes a file of a length in blocks, 0 to 1,048,576, which holds none of them, under the lowest number that is
    /// not used.
    ///
    /// `Exists` says that a file has the name, and else `NoSlot` that there are 32 files. Stages the table.
    pub fn create(
        &mut self,
        journal: &mut Journal,
        name: Name,
        length: u32,
    ) -> Result<FileNo, FileFault>
        requires fits { Fits self.old journal.old }
        requires short { length ≤ longest_file }
        ensures answers { OfFiles self.old (λ set _. CreateAnswers set name result) }
        ensures leads { IfOk result (λ n. Leads (IsCreated n.0 name length) self.old journal.old self.new journal.new) }
        ensures used { IfOk result (λ n. (m : ℕ) → entry_of self.new m
            ≡ (if m == n.0 then Some (record { name = name; length = length }) else entry_of self.old m)) }
        ensures map { self.new.map ≡ self.old.map }
        ensures stages { OnOk result (Stages (IsTable self.old.geometry) 0 journal.old journal.new) }
        ensures tabled { IfOk result (λ _.
            get journal.new.staged (table_at self.old.geometry) ≡ Some (table_block self.new.table)) }
        ensures refused { OnErr result ((self.new ≡ self.old) × (journal.new ≡ journal.old)) }
        ensures fits { Fits self.new journal.new }
        ensures goes { GoesOn journal.old journal.new }
    {
        // That a name is one is known once its bytes are read.
        let _bytes = name.bytes();
        if self.find(&name).is_some() {
            return Err(FileFault::Exists);
        }
        let file = self.lowest_unused().ok_or(FileFault::NoSlot)?;
        self.table
            .set(u32::from(file.0 - 1), Some(TableEntry { name, length }));
        self.stage_table(journal);
        Ok(file)
    }

    // The lowest number that no file has, if there is one.
    fn lowest_unused(&self) -> Option<FileNo>
        ensures { MatchOption result ((n : ℕ) → 1 ≤ n → n ≤ most_files → IsUsed self.now n) (λ n. (1 ≤ n.0)
            × (n.0 ≤ most_files) × (entry_of self.now n.0 ≡ None) × ((m : ℕ) → 1 ≤ m → m < n.0 → IsUsed self.now m)) }
    {
        for n in 1..=MOST_FILES {
            if self.table.get(u32::from(n - 1)).is_none() {
                return Some(FileNo(n));
            }
        }
        None
    }

    /// Removes a file, and gives back the blocks that it holds.
    ///
    /// `NoFile` says that there is no file of the number. Stages the table and the map blocks of what is given back,
    /// and has the journal forget the data blocks.
    pub fn delete(&mut self, journal: &mut Journal, file: FileNo) -> Result<(), FileFault>
        requires fits { Fits self.old journal.old }
        ensures answers { OfFiles self.old (λ set _. FileAnswers set file.0 (λ _ _. ⊤) result) }
        ensures leads { OnOk result (Leads (IsDeleted file.0) self.old journal.old self.new journal.new) }
        ensures used { OnOk result
            ((m : ℕ) → entry_of self.new m ≡ (if m == file.0 then None else entry_of self.old m)) }
        ensures stages { OnOk result (Stages (λ at. IsTable self.old.geometry at
            ⊎ IsOfOwners self.old.geometry self.old.map self.new.map at) 0 journal.old journal.new) }
        ensures forgets { OnOk result (Forgets self.old.map self.new.map journal.new) }
        ensures tabled { OnOk result
            (get journal.new.staged (table_at self.old.geometry) ≡ Some (table_block self.new.table)) }
        ensures refused { OnErr result ((self.new ≡ self.old) × (journal.new ≡ journal.old)) }
        ensures fits { Fits self.new journal.new }
        ensures goes { GoesOn journal.old journal.new }
    {
        if self.length(file).is_none() {
            return Err(FileFault::NoFile);
        }
        self.shorten(journal, file, 0);
        self.table.set(u32::from(file.0 - 1), None);
        self.stage_table(journal);
        Ok(())
    }

    /// Gives a file another length in blocks, 0 to 1,048,576. It answers how many blocks it gave back, which are those
    /// that it held at or past that length.
    ///
    /// `NoFile` says that there is no file of the number. Stages as `delete` does.
    pub fn resize(
        &mut self,
        journal: &mut Journal,
        file: FileNo,
        length: u32,
    ) -> Result<u32, FileFault>
        requires fits { Fits self.old journal.old }
        requires short { length ≤ longest_file }
        ensures answers { OfFiles self.old (λ set _.
            FileAnswers set file.0 (λ held given. given + len (below length held.body) ≡ len held.body) result) }
        ensures leads { OnOk result (Leads (IsResized file.0 length) self.old journal.old self.new journal.new) }
        ensures used { OnOk result ((m : ℕ) → entry_of self.new m
            ≡ (if m == file.0 then option_map (with_length length) (entry_of self.old m) else entry_of self.old m)) }
        ensures stages { OnOk result (Stages (λ at. IsTable self.old.geometry at
            ⊎ IsOfOwners self.old.geometry self.old.map self.new.map at) 0 journal.old journal.new) }
        ensures forgets { OnOk result (Forgets self.old.map self.new.map journal.new) }
        ensures tabled { OnOk result
            (get journal.new.staged (table_at self.old.geometry) ≡ Some (table_block self.new.table)) }
        ensures refused { OnErr result ((self.new ≡ self.old) × (journal.new ≡ journal.old)) }
        ensures fits { Fits self.new journal.new }
        ensures goes { GoesOn journal.old journal.new }
    {
        let Some(name) = self.name(file) else {
            return Err(FileFault::NoFile);
        };
        let given_back = self.shorten(journal, file, length);
        self.table
            .set(u32::from(file.0 - 1), Some(TableEntry { name, length }));
        self.stage_table(journal);
        Ok(given_back)
    }

    // Gives back the blocks of a file at or past a length, the last first, and says how many they are.
    fn shorten(&mut self, journal: &mut Journal, file: FileNo, length: u32) -> u32
        requires fits { Fits self.old journal.old }
        requires used { IsUsed self.old file.0 }
        ensures leads { Leads (IsShortened file.0 length) self.old journal.old self.new journal.new }
        ensures count { result + count_held file.0 self.new.map.owners ≡ count_held file.0 self.old.map.owners }
        ensures gone { HoldsNoneFrom self.new.map file.0 length }
        ensures knows { OfFiles self.old (λ set places. (others : FileSet) × (elsewhere : Places) ×
            IsShortened file.0 length set places others elsewhere × Knows self.new others elsewhere) }
        ensures table { self.new.table ≡ self.old.table }
        ensures stages { Stages (IsOfOwners self.old.geometry self.old.map self.new.map) 0 journal.old journal.new }
        ensures forgets { Forgets self.old.map self.new.map journal.new }
        ensures fits { Fits self.new journal.new }
        ensures goes { GoesOn journal.old journal.new }
    {
        let mut touched = Touched::none();
        let count = self.give_back_from(journal, file, length, &mut touched);
        self.stage_map(journal, &touched);
        count
    }

    // Gives back the blocks of a file from one on, the last first, marks their map blocks, and says how many they are.
    fn give_back_from(
        &mut self,
        journal: &mut Journal,
        file: FileNo,
        from: u32,
        touched: &mut Touched,
    ) -> u32
        requires fits { Fits self.old journal.old }
        requires none { touched.old.marks ≡ replicate most_map_blocks false }
        ensures gives { GivesBack file.0 from self.old journal.old self.new journal.new touched.new.marks }
        ensures gone { HoldsNoneFrom self.new.map file.0 from }
        ensures count { result + count_held file.0 self.new.map.owners ≡ count_held file.0 self.old.map.owners }
        ensures marks { length touched.new.marks ≡ most_map_blocks }
        ensures fits { Fits self.new journal.new }
    {
        let mut count = 0;
        for _ in 0..self.map.held(file) {
            if !self.give_back_last(journal, file, from, touched) {
                return count;
            }
            count += 1;
        }
        count
    }

    // Gives back the last block that a file holds where that lies at or past one, and says whether it does.
    fn give_back_last(
        &mut self,
        journal: &mut Journal,
        file: FileNo,
        from: u32,
        touched: &mut Touched,
    ) -> bool
        requires fits { Fits self.old journal.old }
        requires marks { length touched.old.marks ≡ most_map_blocks }
        ensures taken { OnTrue result ((v : ℕ) × (from ≤ v)
            × TakesBack file.0 v self.old journal.old touched.old.marks self.new journal.new touched.new.marks) }
        ensures none { OnFalse result (HoldsNoneFrom self.new.map file.0 from × (self.new ≡ self.old)
            × (journal.new ≡ journal.old) × (touched.new.marks ≡ touched.old.marks)) }
        ensures fits { Fits self.new journal.new }
    {
        match self.map.last_held(file) {
            Some((v, _)) if from <= v => {
                self.give_back(journal, file, v, touched);
                true
            }
            _ => false,
        }
    }

    /// How many of `n` blocks of a file from `v` on `hold` would come to hold: those below its length that are not
    /// held, as many as are free. 0 where there is no file.
    pub fn holdable(&self, file: FileNo, v: u32, n: u32) -> u32
        requires layer { IsLayer self.now }
        requires few { n ≤ most_in_request }
        requires begins { v ≤ longest_file }
        ensures count { (entry : TableEntry) → entry_of self.now file.0 ≡ Some entry
            → result ≡ min (length (lacking_below self.now file.0 entry.length v n)) (count_free self.now.map.owners) }
        ensures answers { OfFiles self.now (λ set _.
            result ≡ min (length (unheld_below (file_at set file.0) v n)) (free self.now.geometry.blocks set)) }
    {
        let end = (v + n).min(self.length(file).unwrap_or(0));
        let lacking = self.count_lacking(file, v, end);
        lacking.min(self.map.free())
    }

    // How many blocks of a file from one on up to another are not held.
    fn count_lacking(&self, file: FileNo, v: u32, end: u32) -> u32
        ensures { result ≡ length (lacking self.now file.0 v (end - v)) }
    {
        let mut count = 0;
        for at in v..end {
            if self.map.place(file, at).is_none() {
                count += 1;
            }
        }
        count
    }

    /// Of `n` blocks of a file from `v` on, those below its length that are not held come to hold zeros, in rising
    /// order, as many as are free. Each gets the lowest free data block.
    ///
    /// Stages each of these data blocks, and the map blocks that have their owners.
    pub fn hold(&mut self, journal: &mut Journal, file: FileNo, v: u32, n: u32) -> Held
        requires fits { Fits self.old journal.old }
        requires used { IsUsed self.old file.0 }
        requires few { n ≤ most_in_request }
        requires begins { v ≤ longest_file }
        requires room { (entry : TableEntry) → entry_of self.old file.0 ≡ Some entry
            → journal.old.count + min (length (lacking_below self.old file.0 entry.length v n))
            (count_free self.old.map.owners) ≤ journal.old.geometry.slack }
        ensures count { OfFiles self.old (λ set _.
            result.count ≡ min (length (unheld_below (file_at set file.0) v n)) (free self.old.geometry.blocks set)) }
        ensures leads { Leads
            (AreHeld (area_of self.old.geometry) file.0 v n result.count) self.old journal.old self.new journal.new }
        ensures table { self.new.table ≡ self.old.table }
        ensures stages { Stages
            (IsOfOwners self.old.geometry self.old.map self.new.map) result.count journal.old journal.new }
        ensures fits { Fits self.new journal.new }
        ensures goes { GoesOn journal.old journal.new }
    {
        let end = (v + n).min(self.length(file).unwrap_or(0));
        Held {
            count: self.hold_to(journal, file, v, end),
        }
    }

    // Holds a block of zeros at those blocks from one on up to another that are not held, as long as data blocks are
    // free, and says how many they are.
    fn hold_to(&mut self, journal: &mut Journal, file: FileNo, v: u32, end: u32) -> u32
        requires fits { Fits self.old journal.old }
        requires within { (entry : TableEntry) → entry_of self.old file.0 ≡ Some entry → v < end → end ≤ entry.length }
        requires used { IsUsed self.old file.0 }
        requires room { journal.old.count + min (length (lacking self.old file.0 v (end - v)))
            (count_free self.old.map.owners) ≤ journal.old.geometry.slack }
        ensures count { result ≡ min (length (lacking self.old file.0 v (end - v))) (count_free self.old.map.owners) }
        ensures leads { Leads (AreFilled (area_of self.old.geometry) file.0
            (take result (lacking self.old file.0 v (end - v)))) self.old journal.old self.new journal.new }
        ensures table { self.new.table ≡ self.old.table }
        ensures stages { Stages
            (IsOfOwners self.old.geometry self.old.map self.new.map) result journal.old journal.new }
        ensures fits { Fits self.new journal.new }
        ensures goes { GoesOn journal.old journal.new }
    {
        let mut touched = Touched::none();
        let count = self.hold_each(journal, file, v, end, &mut touched);
        self.stage_map(journal, &touched);
        count
    }

    // Holds these blocks of zeros, and marks the map blocks that have their owners.
    fn hold_each(
        &mut self,
        journal: &mut Journal,
        file: FileNo,
        v: u32,
        end: u32,
        touched: &mut Touched,
    ) -> u32
        requires fits { Fits self.old journal.old }
        requires within { (entry : TableEntry) → entry_of self.old file.0 ≡ Some entry → v < end → end ≤ entry.length }
        requires used { IsUsed self.old file.0 }
        requires room { journal.old.count + min (length (lacking self.old file.0 v (end - v)))
            (count_free self.old.map.owners) ≤ journal.old.geometry.slack }
        requires marks { touched.old.marks ≡ replicate most_map_blocks false }
        ensures count { result ≡ min (length (lacking self.old file.0 v (end - v))) (count_free self.old.map.owners) }
        ensures grows { Grows result touched.new.marks self.old self.new }
        ensures shows { FillsBut file.0 (take result (lacking self.old file.0 v (end - v))) touched.new.marks
            nothing_left self.old journal.old.staged self.new journal.new.staged }
        ensures stages { Stages (IsGiven self.old.geometry self.old.map self.new.map) result journal.old journal.new }
        ensures goes { GoesOn journal.old journal.new }
    {
        let mut count = 0;
        for at in v..end {
            if self.map.place(file, at).is_some() {
                continue;
            }
            let Some(place) = self.give(file, at, touched) else {
                return count;
            };
            journal.stage(place, &Block::zero());
            count += 1;
        }
        count
    }

    /// Writes blocks of a file from `v` on. Those that it did not hold it holds then, each in the lowest free data
    /// block, in rising order. It answers how many these are.
    ///
    /// `NoFile` says that there is no file of the number, else `Range` that not all lie below its length, else
    /// `NoSpace` that too few data blocks are free. Stages each data block, and the map blocks whose owners change.
    pub fn put(
        &mut self,
        journal: &mut Journal,
        file: FileNo,
        v: u32,
        blocks: &Blocks,
    ) -> Result<u32, FileFault>
        requires fits { Fits self.old journal.old }
        requires begins { v ≤ longest_file }
        requires room { HasRoomFor self.old file.0 v (length blocks.now)
            → journal.old.count + length blocks.now ≤ journal.old.geometry.slack }
        ensures answers { OfFiles self.old (λ set _.
            HoldAnswers self.old.geometry.blocks set file.0 v (length blocks.now) result) }
        ensures leads { OnOk result
            (Leads (ArePut (area_of self.old.geometry) file.0 v blocks.now) self.old journal.old self.new journal.new) }
        ensures table { self.new.table ≡ self.old.table }
        ensures stages { OnOk result (Stages (λ at. IsOfOwners self.old.geometry self.old.map self.new.map at
            ⊎ IsOfBlocks self.new.map file.0 v (length blocks.now) at) (length blocks.now) journal.old journal.new) }
        ensures refused { OnErr result ((self.new ≡ self.old) × (journal.new ≡ journal.old)) }
        ensures fits { Fits self.new journal.new }
        ensures goes { GoesOn journal.old journal.new }
    {
        let needed = self.needed(file, v, blocks.len())?;
        let mut touched = Touched::none();
        self.give_each(file, v, v + blocks.len(), &mut touched);
        self.stage_each(journal, file, v, blocks);
        self.stage_map(journal, &touched);
        Ok(needed)
    }

    /// Makes a file hold `n` blocks from `v` on: those that it did not hold it holds as zeros then, each in the lowest
    /// free data block, in rising order. It answers how many these are.
    ///
    /// Refuses as `put` does. Stages each data block that is newly held, and the map blocks that have their owners.
    pub fn map(
        &mut self,
        journal: &mut Journal,
        file: FileNo,
        v: u32,
        n: u32,
    ) -> Result<u32, FileFault>
        requires fits { Fits self.old journal.old }
        requires few { n ≤ most_in_request }
        requires begins { v ≤ longest_file }
        requires room { HasRoomFor self.old file.0 v n
            → journal.old.count + length (lacking self.old file.0 v n) ≤ journal.old.geometry.slack }
        ensures answers { OfFiles self.old (λ set _. HoldAnswers self.old.geometry.blocks set file.0 v n result) }
        ensures leads { OnOk result
            (Leads (AreMapped (area_of self.old.geometry) file.0 v n) self.old journal.old self.new journal.new) }
        ensures table { self.new.table ≡ self.old.table }
        ensures stages { IfOk result (λ newly.
            Stages (IsOfOwners self.old.geometry self.old.map self.new.map) newly journal.old journal.new) }
        ensures refused { OnErr result ((self.new ≡ self.old) × (journal.new ≡ journal.old)) }
        ensures fits { Fits self.new journal.new }
        ensures goes { GoesOn journal.old journal.new }
    {
        self.needed(file, v, n)?;
        Ok(self.hold_to(journal, file, v, v + n))
    }

    /// How many blocks `put` or `map` would come to hold for `n` blocks of a file from `v` on, or why they would
    /// refuse.
    pub fn needed(&self, file: FileNo, v: u32, n: u32) -> Result<u32, FileFault>
        requires layer { IsLayer self.now }
        requires few { n ≤ most_in_request }
        requires begins { v ≤ longest_file }
        ensures takes { IfOk result (λ needed. HasRoomFor self.now file.0 v n
            × (needed ≡ length (lacking self.now file.0 v n))) }
        ensures refused { OnErr result (¬ HasRoomFor self.now file.0 v n) }
        ensures answers { OfFiles self.now (λ set _. HoldAnswers self.now.geometry.blocks set file.0 v n result) }
    {
        let length = self.length(file).ok_or(FileFault::NoFile)?;
        if length < v + n {
            return Err(FileFault::Range);
        }
        let needed = self.count_lacking(file, v, v + n);
        let free = self.map.free();
        if free < needed {
            return Err(FileFault::NoSpace { free, needed });
        }
        Ok(needed)
    }

    // Gives a data block to each block from one on up to another that is not held. What they hold is staged behind it.
    fn give_each(&mut self, file: FileNo, v: u32, end: u32, touched: &mut Touched)
        requires layer { IsLayer self.old }
        requires within { (entry : TableEntry) → entry_of self.old file.0 ≡ Some entry → v < end → end ≤ entry.length }
        requires used { IsUsed self.old file.0 }
        requires enough { length (lacking self.old file.0 v (end - v)) ≤ count_free self.old.map.owners }
        requires marks { touched.old.marks ≡ replicate most_map_blocks false }
        ensures grows { Grows (length (lacking self.old file.0 v (end - v))) touched.new.marks self.old self.new }
        ensures held { (w : ℕ) → v ≤ w → w < end → ¬ IsUnheld self.new.map file.0 w }
        ensures shows { (staged : Staged) → FillsBut file.0 (lacking self.old file.0 v (end - v)) touched.new.marks
            (left_of file.0 v end) self.old staged self.new staged }
    {
        for at in v..end {
            if self.map.place(file, at).is_some() {
                continue;
            }
            let _place = self.give(file, at, touched);
        }
    }

    // Stages blocks for a file from `v` on, each of which it holds.
    fn stage_each(&self, journal: &mut Journal, file: FileNo, v: u32, blocks: &Blocks)
        requires fits { Fits self.now journal.old }
        requires begins { v ≤ longest_file }
        requires used { IsUsed self.now file.0 }
        requires held { (w : ℕ) → v ≤ w → w < v + length blocks.now → ¬ IsUnheld self.now.map file.0 w }
        requires room { journal.old.count + length blocks.now ≤ journal.old.geometry.slack }
        ensures puts { (marks : List Bool) →
            PutsBut marks file.0 v blocks.now self.now journal.old.staged journal.new.staged }
        ensures stages { Stages (IsOfBlocks self.now.map file.0 v (length blocks.now))
            (length blocks.now) journal.old journal.new }
        ensures goes { GoesOn journal.old journal.new }
    {
        for k in 0..blocks.len() {
            let Some(place) = self.map.place(file, v + k) else {
                continue;
            };
            journal.stage(place, &blocks.get(k));
        }
    }
}
