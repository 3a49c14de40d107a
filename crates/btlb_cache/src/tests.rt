ghost use Rattle.std.specs.Prelude.{◌≡◌, ◌<◌, ◌≤◌};

use crate::Btlb;
use nesc_base::{FnNo, NoMemory, Run};
use std::alloc::Global;

const ONE: FnNo = FnNo(1);

const TWO: FnNo = FnNo(2);

fn run(first: u32, count: u32, place: u32) -> Run
    ensures { result ≡ record { first = first; count = count; place = place } }
{
    Run {
        first,
        count,
        place,
    }
}

#[test]
fn a_new_cache_has_nothing(rt: HostRuntime) -> Result<(), NoMemory> {
    let mut cache = Btlb::new(rt.alloc(), 64)?;
    assert!(rt; cache.len() == 0 && cache.look(ONE, 0).is_none());
    Ok(())
}

#[test]
fn each_block_of_a_run_is_found_where_it_stands(rt: HostRuntime) -> Result<(), NoMemory> {
    let mut cache = Btlb::new(rt.alloc(), 4)?;
    cache.keep(ONE, run(10, 3, 500));
    assert!(rt; cache.look(ONE, 10) == Some(500) && cache.look(ONE, 12) == Some(502));
    assert!(rt; cache.look(ONE, 9).is_none() && cache.look(ONE, 13).is_none());
    assert!(rt; cache.look(TWO, 10).is_none());
    cache.keep(TWO, run(1_048_575, 1, u32::MAX - 1));
    assert!(rt; cache.look(TWO, 1_048_575) == Some(u32::MAX - 1));
    assert!(rt; cache.len() == 2);
    Ok(())
}

#[test]
fn the_one_not_used_for_longest_goes(rt: HostRuntime) -> Result<(), NoMemory> {
    let mut cache = Btlb::new(rt.alloc(), 2)?;
    cache.keep(ONE, run(0, 1, 100));
    cache.keep(ONE, run(1, 1, 200));
    assert!(rt; cache.look(ONE, 0) == Some(100));
    cache.keep(ONE, run(2, 1, 300));
    assert!(rt; cache.look(ONE, 1).is_none() && cache.len() == 2);
    assert!(rt; cache.look(ONE, 2) == Some(300) && cache.look(ONE, 0) == Some(100));
    Ok(())
}

#[test]
fn what_overlaps_is_not_kept(rt: HostRuntime) -> Result<(), NoMemory> {
    let mut cache = Btlb::new(rt.alloc(), 4)?;
    cache.keep(ONE, run(10, 10, 100));
    cache.keep(ONE, run(19, 2, 300));
    cache.keep(ONE, run(5, 6, 400));
    cache.keep(TWO, run(19, 2, 500));
    assert!(rt; cache.len() == 2);
    assert!(rt; cache.look(ONE, 19) == Some(109) && cache.look(TWO, 19) == Some(500));
    assert!(rt; cache.look(ONE, 20).is_none() && cache.look(ONE, 5).is_none());
    Ok(())
}

#[test]
fn one_function_or_all_are_forgotten(rt: HostRuntime) -> Result<(), NoMemory> {
    let mut cache = Btlb::new(rt.alloc(), 4)?;
    cache.keep(ONE, run(0, 1, 100));
    cache.keep(TWO, run(0, 1, 200));
    cache.keep(ONE, run(1, 1, 300));
    cache.forget(ONE);
    assert!(rt; cache.len() == 1 && cache.look(ONE, 0).is_none() && cache.look(ONE, 1).is_none());
    assert!(rt; cache.look(TWO, 0) == Some(200));
    cache.clear();
    assert!(rt; cache.len() == 0 && cache.look(TWO, 0).is_none());
    Ok(())
}

/// A cache as a plain list, the entry used last first.
#[derive(Drop)]
struct Plain {
    entries: Vec<(FnNo, Run)>,
    capacity: usize,
}

fn end(run: Run) -> u64 {
    u64::from(run.first) + u64::from(run.count)
}

fn has(entry: &(FnNo, Run), f: FnNo, v: u32) -> bool {
    entry.0 == f && entry.1.first <= v && u64::from(v) < end(entry.1)
}

fn meets(entry: &(FnNo, Run), f: FnNo, run: Run) -> bool {
    entry.0 == f && u64::from(entry.1.first) < end(run) && u64::from(run.first) < end(entry.1)
}

impl Plain {
    fn look(&mut self, f: FnNo, v: u32) -> Result<Option<u32>, NoMemory> {
        for k in 0..self.entries.len() {
            if has(&self.entries[k], f, v) {
                let entry = self.entries.remove(k);
                self.entries.insert(0, entry)?;
                return Ok(Some(entry.1.place.wrapping_add(v.wrapping_sub(entry.1.first))));
            }
        }
        Ok(None)
    }

    fn keep(&mut self, f: FnNo, run: Run) -> Result<(), NoMemory> {
        if !self.entries.iter().any(|entry| meets(entry, f, run)) {
            self.entries.insert(0, (f, run))?;
            self.entries.truncate(self.capacity);
        }
        Ok(())
    }

    fn forget(&mut self, f: FnNo) {
        self.entries.retain(|entry| entry.0 != f);
    }
}

/// Numbers that are drawn one after another.
#[derive(Drop)]
struct Draws(u32);

impl Draws {
    fn below(&mut self, bound: u32) -> u32
        requires { 1 ≤ bound }
        ensures { result < bound }
    {
        self.0 = self.0.wrapping_mul(1_664_525).wrapping_add(1_013_904_223);
        (self.0 >> 8) % bound
    }
}

/// Makes one call, half of them looks, of a cache and of a plain list, and says whether they are alike behind it.
fn call(
    cache: &mut Btlb,
    plain: &mut Plain,
    draws: &mut Draws,
    width: u32,
) -> Result<bool, NoMemory>
    requires some { 1 ≤ width }
    requires few { width ≤ 1000 }
{
    let f = FnNo(1 + draws.below(4) as u8);
    let kind = draws.below(100);
    if kind < 50 {
        let v = draws.below(width);
        return Ok(cache.look(f, v) == plain.look(f, v)?);
    }
    if kind < 99 {
        let run = run(draws.below(width), 1 + draws.below(16), draws.below(60_000));
        cache.keep(f, run);
        plain.keep(f, run)?;
    } else {
        cache.forget(f);
        plain.forget(f);
    }
    Ok(cache.len() as usize == plain.entries.len())
}

/// Makes so many calls of both, and says how many entries there were at most, or `None` where the two were not alike.
fn most_entries(
    alloc: Global,
    capacity: u8,
    calls: u32,
    width: u32,
) -> Result<Option<u32>, NoMemory>
    requires capacity { 1 ≤ capacity }
    requires some { 1 ≤ width }
    requires few { width ≤ 1000 }
{
    let mut cache = Btlb::new(alloc, capacity)?;
    let mut plain = Plain {
        entries: Vec::new(alloc),
        capacity: usize::from(capacity),
    };
    let mut draws = Draws(1);
    let mut most = 0;
    for _ in 0..calls {
        if !call(&mut cache, &mut plain, &mut draws, width)? {
            return Ok(None);
        }
        most = most.max(cache.len());
    }
    Ok(Some(most))
}

#[test]
fn one_entry_is_as_in_a_plain_list(rt: HostRuntime) -> Result<(), NoMemory> {
    assert!(rt; most_entries(rt.alloc(), 1, 400, 40)? == Some(1));
    Ok(())
}

#[test]
fn four_entries_are_as_in_a_plain_list(rt: HostRuntime) -> Result<(), NoMemory> {
    assert!(rt; most_entries(rt.alloc(), 4, 400, 100)? == Some(4));
    Ok(())
}

#[test]
fn sixty_four_entries_are_as_in_a_plain_list(rt: HostRuntime) -> Result<(), NoMemory> {
    assert!(rt; most_entries(rt.alloc(), 64, 800, 1000)? == Some(64));
    Ok(())
}
