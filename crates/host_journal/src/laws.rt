ghost use Rattle.std.specs.Prelude.{◌≡◌, ℕ, List, length};
ghost use Rattle.std.specs.FinMap.{empty};
ghost use Rattle.nesc_base.specs.declared.block.Block.{Block};
ghost use Rattle.nesc_base.specs.declared.geometry.Geometry.{Geometry};
ghost use Rattle.nesc_base.specs.Disk.{Goes, Unchanged, WritesAt, nowhere};
ghost use Rattle.slot_layout.specs.Slots.{LacksList, Lays, StandsFor};
ghost use Rattle.host_journal.specs.Journal.{Journal};
ghost use Rattle.host_journal.specs.Kept.{IsKept, Leaves};
ghost use Rattle.host_journal.specs.Laws.{ChangesStaySound, ForgetsOne, KeepsAll, KeepsGates, StagesOne, StandsForSome};
ghost use Rattle.host_journal.specs.Staged.{Staged, now_of};
ghost use Rattle.host_journal.specs.Starting.{IsSynced};

use nesc_base::Disk;

/// What staging and forgetting make of the blocks that there are. Where nothing is staged they are those that are kept.
pub fn stages_and_forgets()
    ensures none { (kept : List Block) → now_of empty kept ≡ kept }
    ensures whole { (staged : Staged) (kept : List Block) → length (now_of staged kept) ≡ length kept }
    ensures stages { (staged : Staged) → StagesOne staged }
    ensures forgets { (staged : Staged) (kept : List Block) (at : ℕ) → ForgetsOne staged kept at }
    ensures gates { (journal : Journal) → KeepsGates journal }
{}

/// A journal and its disk still belong together after a block was staged or forgotten, after reads of the disk,
/// whatever they answered, and after syncs that succeeded.
pub fn still_rests<D: Disk>()
    ensures changes { (journal : Journal) (at : ℕ) → ChangesStaySound D.known journal at }
    ensures reads { (journal : Journal) (old new : D) → Goes (D.known old) (D.known new)
        → Unchanged (D.known old) (D.known new) → KeepsAll journal (D.known old) (D.known new) }
    ensures syncs { (journal : Journal) (old new : D) → IsSynced (D.known old) (D.known new)
        → KeepsAll journal (D.known old) (D.known new) }
{}

/// While nothing is written, a stop leaves an image that stands for the blocks that a disk has kept.
pub fn kept_is_left<D: Disk>()
    ensures { (geometry : Geometry) (old new : D) (kept : List Block) → IsKept geometry (D.known old) kept
        → Goes (D.known old) (D.known new) → WritesAt nowhere (D.known old) (D.known new)
        → Leaves (λ image. StandsFor geometry image kept) (D.known old) (D.known new) }
{}

/// An image whose slots can be replayed stands for blocks in which every gate is closed, and lacks no list.
pub fn stands_for_some()
    ensures some { (geometry : Geometry) (image : List Block) → StandsForSome geometry image }
    ensures lists { (geometry : Geometry) (image laid : List Block) (block : ℕ) → Lays geometry image laid
        → ¬ LacksList geometry image block }
{}
