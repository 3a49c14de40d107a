ghost use Rattle.std.specs.Prelude.{◌≡◌, ℕ, List, Ok, true};
ghost use Rattle.nesc_base.specs.declared.block.Block.{Block};
ghost use Rattle.nesc_base.specs.declared.geometry.Geometry.{Geometry};
ghost use Rattle.nesc_base.specs.Disk.{Goes, Unchanged};
ghost use Rattle.nesc_base.specs.Files.{Files};
ghost use Rattle.nesc_base.specs.Places.{Places};
ghost use Rattle.host_journal.specs.Committing.{Commits};
ghost use Rattle.host_journal.specs.Journal.{Journal, started_anew};
ghost use Rattle.host_journal.specs.Kept.{Rests};
ghost use Rattle.host_journal.specs.Staged.{Staged};
ghost use Rattle.file_layer.specs.Changing.{GoesOn, PutsAt};
ghost use Rattle.file_layer.specs.Knowing.{Knows};
ghost use Rattle.file_layer.specs.Layer.{Fits, IsLayer, Layer};
ghost use Rattle.file_layer.specs.Showing.{FoundIsShown, KeepsWhole, RestsOn};
ghost use Rattle.file_layer.specs.Showing.{ShowsFiles, ShowsOpens, StayShown, ShowsSome};

use nesc_base::Disk;

/// What blocks that show the files in memory have is what an opening finds in them: they open as these files. What is
/// in memory is always some files.
pub fn files_are_shown()
    ensures files { (files : Layer) (staged : Staged) (kept : List Block) (set : Files) (places : Places) →
        ShowsFiles files staged kept set places }
    ensures opens { (files : Layer) (journal : Journal) (kept : List Block) (set : Files) (places : Places) →
        ShowsOpens files journal kept set places }
    ensures found { (files : Layer) (staged : Staged) (kept : List Block) (set : Files) (places : Places) →
        FoundIsShown files staged kept set places }
    ensures known { (files : Layer) → IsLayer files → (set : Files) × (places : Places) × Knows files set places }
    ensures some { (files : Layer) (staged : Staged) (kept : List Block) → ShowsSome files staged kept }
{}

/// A block that is staged for the place of a held block is that block of its file. A journal that goes on belongs to
/// its disk as before, and so do files that stay shown while it does. Reads, whatever they answer, and a commit leave
/// all three together.
pub fn files_stay<D: Disk>()
    ensures puts { (files : Layer) (journal : Journal) → Fits files journal → PutsAt files journal }
    ensures whole { (geometry : Geometry) (disk : D) (kept : List Block) → (D.known disk).tells ≡ true
        → KeepsWhole geometry (D.known disk) kept }
    ensures rests { (old new : Journal) (disk : D) → GoesOn old new → Rests old (D.known disk)
        → Rests new (D.known disk) }
    ensures reads { (files : Layer) (journal : Journal) (old new : D) → Goes (D.known old) (D.known new)
        → Unchanged (D.known old) (D.known new)
        → RestsOn files journal (D.known old) → RestsOn files journal (D.known new) }
    ensures commits { (files : Layer) (journal : Journal) (old new : D) (clock : ℕ) →
        RestsOn files journal (D.known old)
        → Commits journal.geometry journal.staged (D.known old) (D.known new) (Ok clock)
        → Rests (started_anew journal) (D.known new)
        → RestsOn files (started_anew journal) (D.known new) }
    ensures changes { (old new : Layer) (before after : Journal) (disk : D) → GoesOn before after → Fits new after
        → StayShown old before new after
        → RestsOn old before (D.known disk) → RestsOn new after (D.known disk) }
{}
