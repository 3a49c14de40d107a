ghost use Rattle.std.specs.Prelude.{◌≡◌, ◌<◌, ◌≤◌, IfOk, length};
ghost use Rattle.nesc_base.specs.Runs.{IsRun};
ghost use Rattle.translation_model.specs.Translations.{IsCache, empty_cache, found_place, translation};
ghost use Rattle.translation_model.specs.Translations.{after_clear, after_forget, after_keep, after_look};
ghost use Rattle.btlb_cache.specs.Slots.{IsNext, IsOldest, IsOrder};

use crate::slots::{self, Held};
use lru::LruCache;
use nesc_base::{FnNo, NoMemory, Run};
use std::alloc::Global;
use std::marker::Model;
use std::num::NonZeroUsize;

/// A cache of translations: entries, each of which says where the blocks of a run of a function's file stand. No two of
/// one function have a block in common.
#[derive(Drop)]
pub struct Btlb {
    // What stands at each place.
    slots: Vec<Option<Held>>,

    // All places, the one used last first.
    order: LruCache<u8, ()>,
}

impl Model for Btlb {
    ghost use Rattle.translation_model.specs.Translations.{Cache};
    ghost use Rattle.btlb_cache.specs.Slots.{IsKept, cache_of};

    ghost Value = { Cache };

    ghost view = { λ btlb. cache_of btlb.slots.items btlb.order.entries };

    ghost invariant = { λ btlb. IsKept btlb.slots.items btlb.order.entries };
}

impl Btlb {
    /// An empty cache for so many entries, at least one, with the memory for them. An `Err` says that there is none.
    pub fn new(alloc: Global, capacity: u8) -> Result<Btlb, NoMemory>
        requires { 1 ≤ capacity }
        ensures { IfOk result (λ btlb. btlb ≡ empty_cache capacity) }
    {
        let order = places(alloc, capacity)?;
        let slots = slots::empty(alloc, capacity)?;
        Ok(Btlb { slots, order })
    }

    /// Where block `v` of the function stands on the disk, as a number of blocks, or `None` where no entry has it. The
    /// entry that has it becomes the one used last.
    pub fn look(&mut self, f: FnNo, v: u32) -> Option<u32>
        ensures place { result ≡ found_place f.0 v self.old.entries }
        ensures looks { self.new ≡ after_look f.0 v self.old }
    {
        let place = slots::place_of(&self.slots, f, v)?;
        let held = self.slots[place]?;
        self.order.promote(&(place as u8));
        Some(held.run.place + (v - held.run.first))
    }

    /// Keeps an entry, as the one used last, and drops the one that was not used for longest where the cache is full.
    /// Where an entry of the function has a block of the run, nothing changes.
    pub fn keep(&mut self, f: FnNo, run: Run)
        requires { IsRun run }
        ensures { self.new ≡ after_keep (translation f.0 run) self.old }
    {
        let held = Held { function: f, run };
        if slots::any_overlaps(&self.slots, &held) {
            return;
        }
        let place = next_place(&self.slots, &self.order);
        self.slots[usize::from(place)] = Some(held);
        self.order.promote(&place);
    }

    /// Drops the entries of the function.
    pub fn forget(&mut self, f: FnNo)
        ensures { self.new ≡ after_forget f.0 self.old }
    {
        slots::forget(&mut self.slots, f);
    }

    /// Drops all entries.
    pub fn clear(&mut self)
        ensures { self.new ≡ after_clear self.old }
    {
        slots::clear(&mut self.slots);
    }

    /// How many entries there are.
    pub fn len(&self) -> u32
        ensures count { result ≡ length self.now.entries }
        ensures is { IsCache self.now }
    {
        slots::used(&self.slots) as u32
    }
}

// All places below a number, in some order.
fn places(alloc: Global, count: u8) -> Result<LruCache<u8, ()>, NoMemory>
    requires { 1 ≤ count }
    ensures { IfOk result (λ order. IsOrder count order.entries) }
{
    let mut order = LruCache::new(alloc, NonZeroUsize::new(usize::from(count)).unwrap())?;
    for place in 0..count {
        order.put(place, ())?;
    }
    Ok(order)
}

// The place for the next entry: one that has none, and where each has one, the place that was not used for longest.
fn next_place(slots: &[Option<Held>], order: &LruCache<u8, ()>) -> u8
    requires some { 1 ≤ length slots.now }
    requires few { length slots.now < 256 }
    requires ordered { IsOrder (length slots.now) order.now.entries }
    ensures { IsNext slots.now order.now.entries result }
{
    match slots::unused(slots) {
        Some(place) => place as u8,
        None => oldest(order),
    }
}

// The place that was not used for longest.
fn oldest(order: &LruCache<u8, ()>) -> u8
    requires { 1 ≤ length order.now.entries }
    ensures { IsOldest order.now.entries result }
{
    let (place, ()) = order.peek_lru().unwrap();
    *place
}
