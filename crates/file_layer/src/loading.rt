ghost use Rattle.std.specs.Prelude.{◌≡◌, ◌≢◌, ◌<◌, ◌++◌, Err, IfErr, IfOk, IsErrOf};
ghost use Rattle.std.specs.Prelude.{MatchOption, MatchResult, OnErr, OnOk, length};
ghost use Rattle.nesc_base.specs.Disk.{Goes, Unchanged};
ghost use Rattle.nesc_base.specs.Fault.{HasCause};
ghost use Rattle.nesc_base.specs.Geometry.{IsGeometry, block_owners, map_blocks};
ghost use Rattle.host_journal.specs.Kept.{Rests};
ghost use Rattle.host_journal.specs.Staged.{MayStage};
ghost use Rattle.image_layout.specs.declared.fault.OpenFault.TheVariants.{Disk, NoMemory};
ghost use Rattle.image_layout.specs.Opens.{entries_in};
ghost use Rattle.image_layout.specs.Table.{AreEntries};
ghost use Rattle.file_layer.specs.Layer.{Fits, IsLayer, no_files};
ghost use Rattle.file_layer.specs.Loading.{HasOwners, IsBlockNow, IsFirstTwice, IsMapOf};
ghost use Rattle.file_layer.specs.Loading.{LacksMap, Loads, MapLoads, MayOwnEach, owners_before};
ghost use Rattle.file_layer.specs.Showing.{RestsOn};

use crate::Files;
use host_journal::Journal;
use image_layout::{ImageFault, OpenFault, Owners, Table, lengths_of, owners_of, table_of};
use nesc_base::{Block, Disk, FileNo, Geometry};

impl Files {
    /// Loads the files that the journal's blocks have: it reads the table and the map, each block once, and no data
    /// block.
    ///
    /// `Image` names the first cause for which they have none: the table is bad, a map block is, or a data block has an
    /// owner that an earlier one has. `Disk` comes only where the disk failed; `NoMemory` never does. After an `Err`
    /// none are in memory; the image is as it was.
    pub fn load<D: Disk>(&mut self, journal: &Journal, disk: &mut D) -> Result<(), OpenFault>
        requires layer { IsLayer self.old }
        requires same { journal.now.geometry ≡ self.old.geometry }
        requires rests { Rests journal.now (D.known disk.old) }
        ensures loads { Loads journal.now (D.known disk.old) self.new result }
        ensures fits { Fits self.new journal.now }
        ensures rests { OnOk result (RestsOn self.new journal.now (D.known disk.new)) }
        ensures emptied { OnErr result (self.new ≡ no_files self.old.geometry) }
        ensures memory { result ≢ Err NoMemory }
        ensures cause { HasCause (D.known disk.old).faults (D.known disk.new).faults (IsErrOf result (Disk _)) }
        ensures unchanged { Unchanged (D.known disk.old) (D.known disk.new) }
        ensures goes { Goes (D.known disk.old) (D.known disk.new) }
        ensures keeps { D.keeps disk.old disk.new }
    {
        let loaded = self.load_parts(journal, disk);
        if loaded.is_err() {
            self.table = Table::empty();
            self.map.clear();
        }
        loaded
    }

    // The same, but for what an `Err` leaves. The map has the data blocks of the image.
    fn load_parts<D: Disk>(&mut self, journal: &Journal, disk: &mut D) -> Result<(), OpenFault>
        requires sizes { IsGeometry self.old.geometry }
        requires map { IsMapOf self.old.geometry self.old.map }
        requires same { journal.now.geometry ≡ self.old.geometry }
        requires rests { Rests journal.now (D.known disk.old) }
        ensures loads { Loads journal.now (D.known disk.old) self.new result }
        ensures layer { OnOk result (IsLayer self.new) }
        ensures same_geometry { self.new.geometry ≡ self.old.geometry }
        ensures map { IsMapOf self.old.geometry self.new.map }
        ensures rests { Rests journal.now (D.known disk.new) }
        ensures memory { result ≢ Err NoMemory }
        ensures cause { HasCause (D.known disk.old).faults (D.known disk.new).faults (IsErrOf result (Disk _)) }
        ensures unchanged { Unchanged (D.known disk.old) (D.known disk.new) }
        ensures goes { Goes (D.known disk.old) (D.known disk.new) }
        ensures keeps { D.keeps disk.old disk.new }
    {
        let block = self.geometry.table_at();
        let read = read_block(journal, disk, block)?;
        self.table = table_of(&read).ok_or(ImageFault::BadTable { block })?;
        match self.load_map(journal, disk)? {
            Some((file, v)) => Err(OpenFault::Image(ImageFault::TwiceOwned { file, v })),
            None => Ok(()),
        }
    }

    // Loads the map for the files of the table, and answers the first owner that stands twice, if one does. Then the
    // map lacks that owner and those behind it.
    fn load_map<D: Disk>(
        &mut self,
        journal: &Journal,
        disk: &mut D,
    ) -> Result<Option<(FileNo, u32)>, OpenFault>
        requires sizes { IsGeometry self.old.geometry }
        requires entries { AreEntries self.old.table }
        requires map { IsMapOf self.old.geometry self.old.map }
        requires same { journal.now.geometry ≡ self.old.geometry }
        requires rests { Rests journal.now (D.known disk.old) }
        ensures loads { IfOk result (MapLoads self.old.geometry journal.now (D.known disk.old) self.old.table
            (map_blocks self.old.geometry) self.new.map) }
        ensures refused { IfErr result (LacksMap self.old.geometry journal.now (D.known disk.old) self.old.table) }
        ensures same_geometry { self.new.geometry ≡ self.old.geometry }
        ensures table { self.new.table ≡ self.old.table }
        ensures map { IsMapOf self.old.geometry self.new.map }
        ensures rests { Rests journal.now (D.known disk.new) }
        ensures cause { HasCause (D.known disk.old).faults (D.known disk.new).faults (IsErrOf result (Disk _)) }
        ensures unchanged { Unchanged (D.known disk.old) (D.known disk.new) }
        ensures goes { Goes (D.known disk.old) (D.known disk.new) }
        ensures keeps { D.keeps disk.old disk.new }
    {
        self.map.clear();
        let geometry = self.geometry;
        let lengths = lengths_of(&self.table);
        let map_at = geometry.map_at();
        let mut twice = None;
        for b in 0..geometry.area_from() - map_at {
            let block = map_at + b;
            let read = read_block(journal, disk, block)?;
            let entries = geometry.blocks - Geometry::BLOCK_OWNERS * b;
            let owners = owners_of(&read, &lengths, entries).ok_or(ImageFault::BadOwner { block })?;
            // The blocks behind are judged all the same: a map block that is bad comes before an owner that stands
            // twice.
            if twice.is_none() {
                twice = self.set_owners(b, &owners);
            }
        }
        Ok(twice)
    }

    // Sets the owners that a map block has, up to the first that an earlier data block has, which is answered.
    fn set_owners(&mut self, b: u32, owners: &Owners) -> Option<(FileNo, u32)>
        requires sizes { IsGeometry self.old.geometry }
        requires entries { AreEntries self.old.table }
        requires block { b < map_blocks self.old.geometry }
        requires count { length owners.now ≡ block_owners }
        requires may { MayOwnEach self.old.table (entries_in self.old.geometry b) owners.now }
        requires before { HasOwners self.old.geometry self.old.map (owners_before b self.old.map) }
        ensures set { MatchOption result
            (HasOwners self.old.geometry self.new.map (owners_before b self.old.map ++ owners.now))
            (IsFirstTwice (owners_before b self.old.map ++ owners.now)) }
        ensures same_geometry { self.new.geometry ≡ self.old.geometry }
        ensures table { self.new.table ≡ self.old.table }
        ensures map { IsMapOf self.old.geometry self.new.map }
    {
        let first = self.geometry.area_from() + Geometry::BLOCK_OWNERS * b;
        for k in 0..Geometry::BLOCK_OWNERS {
            if let Some((file, v)) = owners.get(k) {
                if self.map.place(file, v).is_some() {
                    return Some((file, v));
                }
                self.map.set(first + k, file, v);
            }
        }
        None
    }
}

// The block at a place, as the journal has it. `Disk` comes only where the disk failed, and nothing else is answered.
fn read_block<D: Disk>(journal: &Journal, disk: &mut D, at: u32) -> Result<Block, OpenFault>
    requires rests { Rests journal.now (D.known disk.old) }
    requires place { MayStage journal.now.geometry at }
    ensures block { MatchResult result (IsBlockNow journal.now (D.known disk.old) at) (λ fault. fault ≡ Disk _) }
    ensures rests { Rests journal.now (D.known disk.new) }
    ensures cause { HasCause (D.known disk.old).faults (D.known disk.new).faults (IsErrOf result (Disk _)) }
    ensures unchanged { Unchanged (D.known disk.old) (D.known disk.new) }
    ensures goes { Goes (D.known disk.old) (D.known disk.new) }
    ensures keeps { D.keeps disk.old disk.new }
{
    let mut read = Block::zero();
    journal.read(disk, at, &mut read).map_err(OpenFault::Disk)?;
    Ok(read)
}
