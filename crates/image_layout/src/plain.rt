ghost use Rattle.std.specs.Prelude.{◌≡◌, ◌≢◌, ◌≤◌, ◌++◌, Err, IfOk, IsErrOf, List, MatchResult, OnOk, length};
ghost use Rattle.nesc_base.specs.declared.block.Block.{Block};
ghost use Rattle.nesc_base.specs.Geometry.{IsGeometry, block_owners, table_at, total};
ghost use Rattle.image_layout.specs.declared.fault.ImageFault.{ImageFault};
ghost use Rattle.image_layout.specs.declared.fault.OpenFault.TheVariants.{Disk, Image};
ghost use Rattle.image_layout.specs.Opens.{IsDivided, IsMap, Says, lengths_of};
ghost use Rattle.image_layout.specs.Refusal.{IsRefused};
ghost use Rattle.slot_layout.specs.Slots.{Lays, block_at};
ghost use Rattle.image_layout.specs.Table.{AreEntries, IsTable};

use crate::repeats::first_repeated;
use crate::slots::lay_slots;
use crate::{ImageFault, OpenFault, Owners, Table, owners_of, read_super, table_of};
use nesc_base::{Block, FileNo, Geometry, MOST_FILES};
use std::alloc::{AllocError, Global};

/// What an image says, part by part.
#[derive(Debug, Drop)]
pub struct Opened {
    /// How it is divided.
    pub geometry: Geometry,
    /// Its blocks, with the slots that are to be replayed laid over.
    pub laid: Vec<Block>,
    /// The table of files.
    pub table: Table,
    /// The owners of all data blocks in their order, and `None` for the rest of the last map block.
    pub owners: Vec<Option<(FileNo, u32)>>,
}

/// Opens an image whose blocks are all at hand, step by step and slowly. The program opens images from a disk; this is
/// the definition of an opening as a program, for whoever has an image in memory and wants to judge it.
///
/// `Image` comes exactly where the image opens as nothing, for the first cause. It never answers `Disk`.
pub fn open_blocks(alloc: Global, image: &[Block]) -> Result<Opened, OpenFault>
    requires { length image.now ≤ 4294967295 }
    ensures says { IfOk result (λ opened.
        Says image.now opened.geometry opened.laid.items opened.table opened.owners.items) }
    ensures refused { (fault : ImageFault) → IsErrOf result (Image fault) → IsRefused image.now fault }
    ensures disk { result ≢ Err (Disk _) }
{
    let geometry = divide(image)?;
    let mut laid = Vec::from_slice(alloc, image)?;
    let mut targets = vec![in alloc; 0; geometry.slot_room() as usize]?;
    lay_slots(image, geometry, &mut targets, &mut laid)?;
    let table_at = geometry.table_at();
    let table = table_of(&laid[table_at as usize]).ok_or(ImageFault::BadTable { block: table_at })?;
    let owners = read_owners(alloc, &laid, geometry, &table)?;
    if let Some((file, v)) = first_repeated(&owners) {
        return Err(OpenFault::Image(ImageFault::TwiceOwned { file, v }));
    }
    Ok(Opened {
        geometry,
        laid,
        table,
        owners,
    })
}

/// How the image is divided.
fn divide(image: &[Block]) -> Result<Geometry, ImageFault>
    requires { length image.now ≤ 4294967295 }
    ensures { MatchResult result (IsDivided image.now) (IsRefused image.now) }
{
    let Some(first) = image.first() else {
        return Err(ImageFault::BadSize { block: 0 });
    };
    let geometry = read_super(first).ok_or(ImageFault::BadSuper { block: 0 })?;
    let blocks = image.len() as u32;
    if blocks < geometry.total() {
        return Err(ImageFault::BadSize { block: blocks });
    }
    Ok(geometry)
}

/// The owners of all data blocks, map block by map block, or the first map block that is none for the files of the
/// table.
fn read_owners(
    alloc: Global,
    laid: &[Block],
    geometry: Geometry,
    table: &Table,
) -> Result<Vec<Option<(FileNo, u32)>>, OpenFault>
    requires sizes { IsGeometry geometry }
    requires enough { total geometry ≤ length laid.now }
    requires table { AreEntries table.now }
    ensures owned { IfOk result (λ owners. IsMap geometry laid.now table.now owners.items) }
    ensures refused { (image : List Block) → IsDivided image geometry → Lays geometry image laid.now
        → IsTable (block_at laid.now (table_at geometry)) table.now
        → (fault : ImageFault) → IsErrOf result (Image fault) → IsRefused image fault }
    ensures disk { result ≢ Err (Disk _) }
{
    let lengths = lengths_of(table);
    let map_at = geometry.map_at();
    let mut owners = Vec::new(alloc);
    for b in 0..geometry.area_from() - map_at {
        let block = map_at + b;
        let map_block = &laid[block as usize];
        let entries = geometry.blocks - Geometry::BLOCK_OWNERS * b;
        let found = owners_of(map_block, &lengths, entries).ok_or(ImageFault::BadOwner { block })?;
        push_owners(&mut owners, &found)?;
    }
    Ok(owners)
}

/// The lengths in blocks of the files of a table, by their places in it.
pub fn lengths_of(table: &Table) -> [Option<u32>; MOST_FILES as usize]
    requires { AreEntries table.now }
    ensures { result ≡ lengths_of table.now }
{
    let mut lengths = [None; MOST_FILES as usize];
    for e in 0..u32::from(MOST_FILES) {
        lengths[e as usize] = table.get(e).map(|entry| entry.length);
    }
    lengths
}

/// Puts the owners of one map block behind those of the ones before. An `Err` says that there is no memory for them.
pub fn push_owners(
    owners: &mut Vec<Option<(FileNo, u32)>>,
    found: &Owners,
) -> Result<(), AllocError>
    requires { length found.now ≡ block_owners }
    ensures { OnOk result (owners.new.items ≡ owners.old.items ++ found.now) }
{
    for k in 0..Geometry::BLOCK_OWNERS {
        owners.push(found.get(k))?;
    }
    Ok(())
}

#[cfg(test)]
mod tests {
    use super::open_blocks;
    use crate::{ImageFault, OpenFault, write_super};
    use nesc_base::{Block, FileNo, Geometry};
    use std::alloc::{AllocError, Global};
    use std::test::Fail;

    // The block that begins with these bytes.
    fn block_of(bytes: &[u8]) -> Block {
        let mut block = Block::zero();
        for (to, from) in block.0.iter_mut().zip(bytes) {
            *to = *from;
        }
        block
    }

    // Puts blocks at their places, where an image has these.
    fn put(image: &mut [Block], blocks: &[(usize, Block)]) {
        for (at, block) in blocks {
            if let Some(there) = image.get_mut(*at) {
                *there = *block;
            }
        }
    }

    // So many blocks of the least image, with some blocks put in.
    fn image_of(
        alloc: Global,
        count: u32,
        blocks: &[(usize, Block)],
    ) -> Result<Vec<Block>, AllocError>
        ensures { IfOk result (λ image. length image.items ≤ 4294967295) }
    {
        let geometry = Geometry {
            version: 1,
            blocks: 16,
            slack: 64,
        };
        let mut image = vec![in alloc; Block::zero(); count as usize]?;
        put(&mut image, &[(0, write_super(geometry))]);
        put(&mut image, blocks);
        Ok(image)
    }

    // Opens an image, and answers the length of file 1, if it has one.
    fn open(alloc: Global, image: &[Block]) -> Result<Option<u32>, OpenFault>
        requires { length image.now ≤ 4294967295 }
    {
        let opened = open_blocks(alloc, image)?;
        Ok(opened.table.get(0).map(|entry| entry.length))
    }

    #[test]
    fn images(rt: HostRuntime) -> Result<(), Fail> {
        let alloc = rt.alloc();
        let gate = Block([0xA5; 1024]);
        let mut torn = gate;
        torn.0[512..].fill(0);
        let table = block_of(b"\x01\x01\0\0\x04\0\0\0a");

        let bad: [(&str, u32, &[(usize, Block)], ImageFault); 7] = [
            ("no blocks", 0, &[], ImageFault::BadSize { block: 0 }),
            (
                "zeros",
                3,
                &[(0, Block::zero())],
                ImageFault::BadSuper { block: 0 },
            ),
            (
                "a block too few",
                290,
                &[],
                ImageFault::BadSize { block: 290 },
            ),
            (
                "a list of 67",
                291,
                &[(1, gate), (2, block_of(b"\x43"))],
                ImageFault::BadList { block: 2 },
            ),
            (
                "a flag of 2",
                291,
                &[(273, block_of(b"\x02"))],
                ImageFault::BadTable { block: 273 },
            ),
            (
                "an owner that is no file",
                291,
                &[(274, block_of(b"\x01"))],
                ImageFault::BadOwner { block: 274 },
            ),
            (
                "a block held twice",
                291,
                &[(273, table), (274, block_of(b"\x01\0\0\0\0\0\0\0\x01"))],
                ImageFault::TwiceOwned {
                    file: FileNo(1),
                    v: 0,
                },
            ),
        ];
        for (case, count, blocks, fault) in bad {
            let image = image_of(alloc, count, blocks)?;
            assert!(rt;
                open(alloc, &image) == Err(OpenFault::Image(fault)),
                "{case}"
            );
        }

        let good: [(&str, &[(usize, Block)], Option<u32>); 3] = [
            ("a blank image", &[], None),
            ("a torn gate", &[(1, torn), (2, block_of(b"\x43"))], None),
            (
                "a table laid over",
                &[(1, gate), (2, block_of(b"\x01\0\0\0\x11\x01")), (3, table)],
                Some(4),
            ),
        ];
        for (case, blocks, length) in good {
            let image = image_of(alloc, 291, blocks)?;
            assert!(rt; open(alloc, &image) == Ok(length), "{case}");
        }
        Ok(())
    }
}
