ghost use Rattle.std.specs.Prelude.{ℕ};
ghost use Rattle.nesc_base.specs.declared.runs.Area.{Area};
ghost use Rattle.translation_model.specs.Translations.{Cache, Entry};
ghost use Rattle.translation_model.specs.Laws.{BringNone, FoundInArea, HasOneEach, IsForgotten, IsFound, LeaveCaches};
ghost use Rattle.translation_model.specs.Laws.{LieIn, StayIn};

/// What is found is an entry that has the block, and nothing is found exactly where no entry has it.
pub fn what_has_the_block_is_found()
    ensures { (f v : ℕ) (cache : Cache) → IsFound f v cache }
{}

/// A new cache has no more entries than it may, each is of a run, and no two of one function have a block in common;
/// and so it is after each use.
pub fn uses_leave_caches()
    ensures { LeaveCaches }
{}

/// Each entry after a look, and after a function was forgotten, was there before; so was each after one was kept, but
/// for that one.
pub fn uses_bring_no_entry()
    ensures { (cache : Cache) → BringNone cache }
{}

/// Once a function is forgotten no block of it is found, and what is found of other functions is as before.
pub fn others_are_found_as_before()
    ensures { (f : ℕ) (cache : Cache) → IsForgotten f cache }
{}

/// Where all runs lie in an area, they lie there after each use, if that of an entry which is kept does.
pub fn uses_stay_in_an_area()
    ensures { (area : Area) (cache : Cache) → LieIn area cache → StayIn area cache }
{}

/// Where all runs lie in an area, what is found lies there.
pub fn found_in_its_area()
    ensures { (area : Area) (cache : Cache) → FoundInArea area cache }
{}

/// No two entries have one block of one function.
pub fn one_block_one_entry()
    ensures { (cache : Cache) → HasOneEach cache }
{}
