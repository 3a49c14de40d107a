ghost use Rattle.std.specs.FinMap.{empty};
ghost use Rattle.nesc_base.specs.Files.{IsFileSet};
ghost use Rattle.file_model.specs.Files.{Change};
ghost use Rattle.file_model.specs.Laws.{KeepsFileSets};

/// No files are files as they may be, and each change leaves them so.
pub fn file_sets_stay()
    ensures none { IsFileSet empty }
    ensures changes { (change : Change) → KeepsFileSets change }
{}
