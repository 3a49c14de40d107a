ghost use Rattle.std.specs.Prelude.{List};
ghost use Rattle.nesc_base.specs.declared.block.Block.{Block};
ghost use Rattle.image_layout.specs.Laws.{HasFilesBesideSlots, HasNoFilesBesideSlots, IsDividedAsItStands};
ghost use Rattle.image_layout.specs.Laws.{IsRefusedAsItStands, OpensAlone, OpensAsFileSet, OpensAsItStands};
ghost use Rattle.image_layout.specs.Laws.{OpensAsNothing, OpensAsSaid, OpensBesideSlots, OpensOnce};

/// An image opens as at most one division, one set of files and one set of places.
pub fn opens_once()
    ensures { (image : List Block) → OpensOnce image }
{}

/// An image whose parts are all good opens.
pub fn opens_as_said()
    ensures { (image : List Block) → OpensAsSaid image }
{}

/// An image that is refused opens as nothing, and there is one cause with one place.
pub fn opens_as_nothing()
    ensures { (image : List Block) → OpensAsNothing image }
{}

/// The files as which an image opens are as files may be, and no two of their blocks stand at one place.
pub fn opens_as_file_set()
    ensures { (image : List Block) → OpensAsFileSet image }
{}

/// Where all gates are closed an opening sees nothing of the slots.
pub fn opens_beside_slots()
    ensures images { (one other : List Block) → OpensBesideSlots one other }
    ensures files { (one other : List Block) → HasFilesBesideSlots one other }
    ensures causes { (one other : List Block) → HasNoFilesBesideSlots one other }
{}

/// An image opens as the blocks do that it stands for, and is refused as they have no files. Where all gates are closed
/// it stands for itself.
pub fn opens_as_it_stands()
    ensures divided { (image blocks : List Block) → IsDividedAsItStands image blocks }
    ensures alone { (image : List Block) → OpensAlone image }
    ensures opens { (image blocks : List Block) → OpensAsItStands image blocks }
    ensures refused { (image blocks : List Block) → IsRefusedAsItStands image blocks }
{}
