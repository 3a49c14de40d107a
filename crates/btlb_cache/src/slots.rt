//! What stands at the places of a cache.
ghost use Rattle.std.specs.Prelude.{◌≡◌, IfOk, None, is_none, is_some, length, map, replicate};
ghost use Rattle.std.specs.List.{count_by, list_any, position};
ghost use Rattle.translation_model.specs.Translations.{end_of, is_of, overlap, translates};
ghost use Rattle.btlb_cache.specs.Slots.{entry_of, passes, without};

use nesc_base::{FnNo, NoMemory, Run};
use std::alloc::Global;

/// Where the blocks of a run of a function's file stand.
#[derive(Clone, Copy, Debug, PartialEq, Eq)]
pub(crate) struct Held {
    pub(crate) function: FnNo,
    pub(crate) run: Run,
}

impl Held {
    // The first block behind those of the run.
    fn end(&self) -> u64
        ensures { result ≡ end_of self.now.run }
    {
        u64::from(self.run.first) + u64::from(self.run.count)
    }

    fn translates(&self, f: FnNo, v: u32) -> bool
        ensures { result ≡ translates f.0 v (entry_of self.now) }
    {
        self.function.0 == f.0 && (self.run.first <= v && u64::from(v) < self.end())
    }

    fn overlaps(&self, other: &Held) -> bool
        ensures { result ≡ overlap (entry_of self.now) (entry_of other.now) }
    {
        self.function.0 == other.function.0
            && (u64::from(self.run.first) < other.end() && u64::from(other.run.first) < self.end())
    }
}

fn slot_translates(slot: &Option<Held>, f: FnNo, v: u32) -> bool
    ensures { result ≡ passes (translates f.0 v) slot.now }
{
    match slot {
        Some(held) => held.translates(f, v),
        None => false,
    }
}

fn slot_overlaps(slot: &Option<Held>, held: &Held) -> bool
    ensures { result ≡ passes (overlap (entry_of held.now)) slot.now }
{
    match slot {
        Some(other) => held.overlaps(other),
        None => false,
    }
}

fn slot_without(slot: Option<Held>, f: FnNo) -> Option<Held>
    ensures { result ≡ without f.0 slot }
{
    match slot {
        Some(held) if held.function.0 == f.0 => None,
        other => other,
    }
}

/// So many places with no entries. An `Err` says that there is no memory for them.
pub(crate) fn empty(alloc: Global, count: u8) -> Result<Vec<Option<Held>>, NoMemory>
    ensures { IfOk result (λ slots. slots.items ≡ replicate count None) }
{
    Ok(vec![in alloc; None; usize::from(count)]?)
}

/// The place whose entry has block `v` of the function, or `None` where there is none.
pub(crate) fn place_of(slots: &[Option<Held>], f: FnNo, v: u32) -> Option<usize>
    ensures { result ≡ position (passes (translates f.0 v)) slots.now }
{
    slots.iter().position(|slot| slot_translates(slot, f, v))
}

/// Whether the function has an entry with a block of the run.
pub(crate) fn any_overlaps(slots: &[Option<Held>], held: &Held) -> bool
    ensures { result ≡ list_any (passes (overlap (entry_of held.now))) slots.now }
{
    slots.iter().any(|slot| slot_overlaps(slot, held))
}

/// The first place with no entry, or `None` where each has one.
pub(crate) fn unused(slots: &[Option<Held>]) -> Option<usize>
    ensures { result ≡ position is_none slots.now }
{
    slots.iter().position(|slot| slot.is_none())
}

/// How many places have entries.
pub(crate) fn used(slots: &[Option<Held>]) -> usize
    ensures { result ≡ count_by is_some slots.now }
{
    slots.iter().filter(|slot| slot.is_some()).count()
}

/// Takes away the entries of the function.
pub(crate) fn forget(slots: &mut [Option<Held>], f: FnNo)
    ensures { slots.new ≡ map (without f.0) slots.old }
{
    for slot in slots.iter_mut() {
        *slot = slot_without(*slot, f);
    }
}

/// Takes away all entries.
pub(crate) fn clear(slots: &mut [Option<Held>])
    ensures { slots.new ≡ replicate (length slots.old) None }
{
    slots.fill(None);
}
