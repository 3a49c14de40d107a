ghost use Rattle.std.specs.Prelude.{◌≡◌, ◌≢◌, ◌≤◌, IfOk, IsErrOf, Err, true};
ghost use Rattle.nesc_base.specs.Disk.{Goes, Unchanged};
ghost use Rattle.nesc_base.specs.Fault.{HasCause};
ghost use Rattle.nesc_base.specs.Geometry.{IsGeometry, total};
ghost use Rattle.image_layout.specs.declared.fault.ImageFault.{ImageFault};
ghost use Rattle.image_layout.specs.declared.fault.OpenFault.TheVariants.{Disk, Image, NoMemory};
ghost use Rattle.image_layout.specs.Opens.{IsDivided};
ghost use Rattle.image_layout.specs.Refusal.{IsOfDivision, IsRefused};

use crate::{ImageFault, OpenFault, read_super};
use nesc_base::{Block, Disk, Geometry};

/// Reads how the image on the disk is divided. `Image` is a disk of no blocks, then a block 0 that is no superblock,
/// then a disk with fewer blocks than it says, in this order. It never answers `NoMemory`.
pub fn read_geometry<D: Disk>(disk: &mut D) -> Result<Geometry, OpenFault>
    ensures divided { (D.known disk.old).tells ≡ true → IfOk result (IsDivided (D.known disk.old).contents) }
    ensures refused { (D.known disk.old).tells ≡ true → (fault : ImageFault) → IsErrOf result (Image fault)
        → IsRefused (D.known disk.old).contents fault }
    ensures sizes { IfOk result IsGeometry }
    ensures enough { IfOk result (λ geometry. total geometry ≤ (D.known disk.old).size) }
    ensures memory { result ≢ Err NoMemory }
    ensures kinds { (fault : ImageFault) → IsErrOf result (Image fault) → IsOfDivision fault }
    ensures cause { HasCause (D.known disk.old).faults (D.known disk.new).faults (IsErrOf result (Disk _)) }
    ensures unchanged { Unchanged (D.known disk.old) (D.known disk.new) }
    ensures goes { Goes (D.known disk.old) (D.known disk.new) }
    ensures keeps { D.keeps disk.old disk.new }
{
    if disk.blocks() == 0 {
        return Err(OpenFault::Image(ImageFault::BadSize { block: 0 }));
    }
    let mut block = Block::zero();
    disk.read(0, &mut block).map_err(OpenFault::Disk)?;
    let geometry = read_super(&block).ok_or(OpenFault::Image(ImageFault::BadSuper { block: 0 }))?;
    let blocks = disk.blocks();
    if blocks < geometry.total() {
        return Err(OpenFault::Image(ImageFault::BadSize { block: blocks }));
    }
    Ok(geometry)
}
