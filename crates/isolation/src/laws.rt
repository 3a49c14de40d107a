ghost use Rattle.std.specs.Prelude.{ℕ};
ghost use Rattle.nesc_base.specs.declared.numbers.FnNo.{FnNo};
ghost use Rattle.isolation.specs.Laws.{HasOneSoloRun, IsToldAlone, SeesNoOther, ShowsNoForeignBytes};

/// Whatever else happens in a run, and whatever others there are: what a function is told while it has a file, and what
/// the host reads of that file, is what a machine tells that has this file and this function alone, and is given what
/// happened to them.
pub fn a_guest_sees_its_own_file()
    ensures { (f : FnNo) (n : ℕ) → IsToldAlone f n }
{}

/// That machine has no choice, so two runs tell the same where what happened to the file and the function is the same,
/// whatever the files, guests and data blocks beside them are.
pub fn the_own_history_decides()
    ensures one { (f : FnNo) (n : ℕ) → HasOneSoloRun f n }
    ensures alike { (f : FnNo) (n : ℕ) → SeesNoOther f n }
{}

/// Each block that is told so is zeros, or was in the file at that place when it was opened, or was brought there by
/// the host, by the function itself, or by another that had the file before.
pub fn no_foreign_bytes()
    ensures { (f : FnNo) (n : ℕ) → ShowsNoForeignBytes f n }
{}
