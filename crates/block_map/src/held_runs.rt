ghost use Rattle.std.specs.Prelude.{◌≡◌, ◌↔◌, ℕ, ◌+◌, ◌<◌, ◌≤◌, ◌^◌, Decides, IfOk, MatchOption};
ghost use Rattle.std.specs.Prelude.{Some, [], ◌∷◌, ◌++◌, drop, length, slice_get, take, vec_capacity};
ghost use Rattle.std.specs.List.{insert};
ghost use Rattle.nesc_base.specs.Files.{longest_file};
ghost use Rattle.nesc_base.specs.Runs.{AreRuns, IsIn, IsRun};
ghost use Rattle.block_map.specs.declared.held_runs.HeldRun.{HeldRun};
ghost use Rattle.block_map.specs.Runs.{AddsOne, AreHeldRuns, AreRunsAmong, BeginsBehind, BeginsBy, BeginsPast};
ghost use Rattle.block_map.specs.Runs.{EndsAt, IsAmong, IsBegin, IsEnd, IsLastAmong, IsNextAmong, IsNotAmong};
ghost use Rattle.block_map.specs.Runs.{LacksFrom, TakesOne, begins_by, blocks_in, parts_around};

use nesc_base::{FileNo, NoMemory, Run, Runs};
use std::alloc::Global;
use std::marker::Model;

/// A run of a file.
#[derive(Clone, Copy, Debug, PartialEq, Eq)]
pub(crate) struct HeldRun {
    pub(crate) file: FileNo,
    pub(crate) run: Run,
}

impl HeldRun {
    /// Where a block of a file stands as one of this run, or `None` where it is not.
    fn place(&self, file: FileNo, v: u32) -> Option<u32>
        requires fits { self.now.run.place + self.now.run.count < 2 ^ 32 }
        requires ends { self.now.run.first + self.now.run.count < 2 ^ 32 }
        ensures { MatchOption result ((at : _) → self.now.file.0 ≡ file.0 → ¬ IsIn self.now.run v at)
            (λ at. (self.now.file.0 ≡ file.0) × IsIn self.now.run v at) }
    {
        let run = &self.run;
        if self.file != file || v < run.first || run.first + run.count <= v {
            return None;
        }
        Some(run.place + (v - run.first))
    }

    // Whether the run is of an earlier file, or of this one and begins at the block or before.
    fn begins_by(&self, file: FileNo, v: u32) -> bool
        ensures { result ≡ begins_by file.0 v self.now }
    {
        self.file.0 < file.0 || self.file.0 == file.0 && self.run.first <= v
    }

    // Whether a block at this place goes on the run.
    fn ends_at(&self, file: FileNo, v: u32, at: u32) -> bool
        requires { IsRun self.now.run }
        ensures { Decides result (EndsAt file.0 v at self.now) }
    {
        let run = &self.run;
        self.file.0 == file.0 && run.first + run.count == v && run.place + run.count == at
    }

    // Whether the run goes on a block at this place.
    fn begins_behind(&self, file: FileNo, v: u32, at: u32) -> bool
        requires filed { v + 1 < 2 ^ 32 }
        requires placed { at + 1 < 2 ^ 32 }
        ensures { Decides result (BeginsBehind file.0 v at self.now) }
    {
        self.file.0 == file.0 && self.run.first == v + 1 && self.run.place == at + 1
    }
}

/// The held blocks of all files as runs, in the order of files and blocks. A binary search finds a block.
#[derive(Drop)]
pub(crate) struct HeldRuns {
    pub(crate) runs: Vec<HeldRun>,
}

impl HeldRuns {
    /// No runs, with the memory for those of so many blocks. An `Err` says that there is none.
    pub fn new(alloc: Global, blocks: u32) -> Result<HeldRuns, NoMemory>
        ensures none { IfOk result (λ held. held.runs.items ≡ []) }
        ensures room { IfOk result (λ held. vec_capacity held.runs ≡ blocks) }
    {
        Ok(HeldRuns {
            runs: Vec::with_capacity(alloc, blocks as usize)?,
        })
    }

    /// How many runs begin at a block of a file or before, those of earlier files among them.
    fn position(&self, file: FileNo, v: u32) -> usize
        requires { AreHeldRuns self.now.runs.items }
        ensures within { result ≤ length self.now.runs.items }
        ensures by { (k : ℕ) (held : HeldRun) → k < result → slice_get self.now.runs.items k ≡ Some held
            → BeginsBy file.0 v held }
        ensures past { (k : ℕ) (held : HeldRun) → result ≤ k → slice_get self.now.runs.items k ≡ Some held
            → BeginsPast file.0 v held }
    {
        self.runs.partition_point(|held| held.begins_by(file, v))
    }

    /// Where a block of a file stands, or `None` where it is not held.
    pub fn place(&self, file: FileNo, v: u32) -> Option<u32>
        requires { AreHeldRuns self.now.runs.items }
        ensures { MatchOption result (IsNotAmong self.now.runs.items file.0 v) (IsAmong self.now.runs.items file.0 v) }
    {
        let k = self.position(file, v).checked_sub(1)?;
        self.runs[k].place(file, v)
    }

    /// The first run that has a block of the file from `from` on, or `None` where there is none.
    pub fn next(&self, file: FileNo, from: u32) -> Option<Run>
        requires { AreHeldRuns self.now.runs.items }
        ensures { MatchOption result
            (LacksFrom self.now.runs.items file.0 from) (IsNextAmong self.now.runs.items file.0 from) }
    {
        let k = self.position(file, from);
        if let Some(before) = k.checked_sub(1) {
            if self.runs[before].place(file, from).is_some() {
                return Some(self.runs[before].run);
            }
        }
        let held = self.runs.get(k)?;
        (held.file == file).then(|| held.run)
    }

    /// The last run of the file, or `None` where it has none.
    pub fn last(&self, file: FileNo) -> Option<Run>
        requires { AreHeldRuns self.now.runs.items }
        ensures { MatchOption result (LacksFrom self.now.runs.items file.0 0) (IsLastAmong self.now.runs.items file.0) }
    {
        let k = self.position(file, u32::MAX).checked_sub(1)?;
        let held = &self.runs[k];
        (held.file == file).then(|| held.run)
    }

    /// Drops all runs.
    pub fn clear(&mut self)
        ensures none { self.new.runs.items ≡ [] }
        ensures room { vec_capacity self.new.runs ≡ vec_capacity self.old.runs }
    {
        self.runs.clear();
    }

    /// Puts in a block of a file, which was not held, at its place. It goes on the run before it, or the one behind it
    /// begins with it, or it joins the two, or it is a run alone.
    pub fn add(&mut self, file: FileNo, v: u32, at: u32)
        requires sound { AreHeldRuns self.old.runs.items }
        requires unheld { IsNotAmong self.old.runs.items file.0 v }
        requires filed { v < longest_file }
        requires placed { at + 1 < 2 ^ 32 }
        requires room { blocks_in self.old.runs.items < vec_capacity self.old.runs }
        ensures sound { AreHeldRuns self.new.runs.items }
        ensures adds { AddsOne self.old.runs.items file.0 v at self.new.runs.items }
        ensures room { vec_capacity self.new.runs ≡ vec_capacity self.old.runs }
    {
        let k = self.position(file, v);
        let (from, first, place) = self.begin(k, file, v, at);
        let (to, end) = self.end(k, file, v, at);
        let run = Run {
            first,
            count: end - first,
            place,
        };
        self.put_over(from, to, HeldRun { file, run });
    }

    // Where the run that a new block belongs to begins, if `k` runs begin before the block: at which place in order,
    // with which block, and where that stands. The block goes on the last of those `k`, or its run begins with it.
    fn begin(&self, k: usize, file: FileNo, v: u32, at: u32) -> (usize, u32, u32)
        requires sound { AreHeldRuns self.now.runs.items }
        requires within { k ≤ length self.now.runs.items }
        ensures { IsBegin self.now.runs.items k file.0 v at result.0 result.1 result.2 }
    {
        if k > 0 && self.runs[k - 1].ends_at(file, v, at) {
            let run = &self.runs[k - 1].run;
            return (k - 1, run.first, run.place);
        }
        (k, v, at)
    }

    // Where that run ends: before which place in order, and before which block. The run behind the `k` goes on the new
    // block, or its run ends with it.
    fn end(&self, k: usize, file: FileNo, v: u32, at: u32) -> (usize, u32)
        requires sound { AreHeldRuns self.now.runs.items }
        requires filed { v + 1 < 2 ^ 32 }
        requires placed { at + 1 < 2 ^ 32 }
        ensures { IsEnd self.now.runs.items k file.0 v at result.0 result.1 }
    {
        if k < self.runs.len() && self.runs[k].begins_behind(file, v, at) {
            let run = &self.runs[k].run;
            return (k + 1, run.first + run.count);
        }
        (k, v + 1)
    }

    // Puts a run in place of those from one place in order on up to another, two at most.
    fn put_over(&mut self, from: usize, to: usize, held: HeldRun)
        requires rising { from ≤ to }
        requires few { to ≤ from + 2 }
        requires within { to ≤ length self.old.runs.items }
        requires room { from ≡ to → length self.old.runs.items < vec_capacity self.old.runs }
        ensures items { self.new.runs.items ≡ take from self.old.runs.items ++ held ∷ drop to self.old.runs.items }
        ensures room { vec_capacity self.new.runs ≡ vec_capacity self.old.runs }
    {
        if from == to {
            self.insert(from, held);
            return;
        }
        if from + 1 < to {
            self.runs.remove(from + 1);
        }
        self.runs[from] = held;
    }

    // Puts in a run, for which there is memory.
    fn insert(&mut self, k: usize, held: HeldRun)
        requires within { k ≤ length self.old.runs.items }
        requires room { length self.old.runs.items < vec_capacity self.old.runs }
        ensures items { self.new.runs.items ≡ insert self.old.runs.items k held }
        ensures room { vec_capacity self.new.runs ≡ vec_capacity self.old.runs }
    {
        let _inserted = self.runs.insert(k, held);
    }

    /// Takes out a block of a file and says where it stood, or `None` where it was not held. Its run loses its first or
    /// its last block, is cut in two, or goes.
    pub fn take(&mut self, file: FileNo, v: u32) -> Option<u32>
        requires sound { AreHeldRuns self.old.runs.items }
        requires room { blocks_in self.old.runs.items ≤ vec_capacity self.old.runs }
        ensures taken { MatchOption result (IsNotAmong self.old.runs.items file.0 v × (self.new ≡ self.old)) (λ at.
            IsAmong self.old.runs.items file.0 v at × TakesOne self.old.runs.items file.0 v self.new.runs.items) }
        ensures sound { AreHeldRuns self.new.runs.items }
        ensures room { vec_capacity self.new.runs ≡ vec_capacity self.old.runs }
    {
        let k = self.position(file, v).checked_sub(1)?;
        let held = self.runs[k];
        let at = held.place(file, v)?;
        self.cut(k, held, v, at);
        Some(at)
    }

    // Takes block `v`, which stands at `at`, out of the run at a place in order.
    fn cut(&mut self, k: usize, held: HeldRun, v: u32, at: u32)
        requires stands { slice_get self.old.runs.items k ≡ Some held }
        requires is_run { IsRun held.run }
        requires within { IsIn held.run v at }
        requires room { 3 ≤ held.run.count → length self.old.runs.items < vec_capacity self.old.runs }
        ensures items { self.new.runs.items ≡ take k self.old.runs.items
            ++ (parts_around held v ++ drop (k + 1) self.old.runs.items) }
        ensures room { vec_capacity self.new.runs ≡ vec_capacity self.old.runs }
    {
        let HeldRun { file, run } = held;
        let before = v - run.first;
        let behind = run.count - before - 1;
        if behind == 0 {
            if before == 0 {
                self.runs.remove(k);
            } else {
                self.runs[k].run.count = before;
            }
            return;
        }
        let rest = Run {
            first: v + 1,
            count: behind,
            place: at + 1,
        };
        if before == 0 {
            self.runs[k].run = rest;
        } else {
            self.runs[k].run.count = before;
            self.insert(k + 1, HeldRun { file, run: rest });
        }
    }

    /// The runs of a file.
    pub fn of_file(&self, file: FileNo) -> FileRuns<'_>
        requires { AreHeldRuns self.now.runs.items }
        ensures { AreRunsAmong self.now.runs.items file.0 result }
    {
        let (from, to) = self.bounds_of(file);
        FileRuns {
            runs: &self.runs[from..to],
        }
    }

    // The place in order from which on the runs of a file stand, and the one behind them.
    fn bounds_of(&self, file: FileNo) -> (usize, usize)
        requires { AreHeldRuns self.now.runs.items }
        ensures rising { result.0 ≤ result.1 }
        ensures within { result.1 ≤ length self.now.runs.items }
        ensures each { (k : ℕ) (held : HeldRun) → slice_get self.now.runs.items k ≡ Some held
            → (held.file.0 ≡ file.0) ↔ ((result.0 ≤ k) × (k < result.1)) }
    {
        let from = self.runs.partition_point(|held| held.file.0 < file.0);
        let to = self.runs.partition_point(|held| held.file.0 <= file.0);
        (from, to)
    }
}

/// The runs of a file, in rising order.
#[derive(Drop)]
pub struct FileRuns<'a> {
    runs: &'a [HeldRun],
}

impl<'a> Model for FileRuns<'a> {
    ghost use Rattle.std.specs.Prelude.{List, map};
    ghost use Rattle.nesc_base.specs.declared.runs.Run.{Run};
    ghost use Rattle.nesc_base.specs.Runs.{AreRuns};

    ghost Value = { List Run };

    ghost view = { λ r. map (λ held. held.run) r.runs.now };

    ghost invariant = { λ r. AreRuns (map (λ held. held.run) r.runs.now) };
}

impl<'a> Runs for FileRuns<'a> {
    ghost runs = { λ r. r };

    fn count(&self) -> u32
        ensures count { result ≡ length self.now }
        ensures are { AreRuns self.now }
    {
        self.runs.len() as u32
    }

    fn run(&self, k: u32) -> Option<Run>
        ensures { result ≡ slice_get self.now k }
    {
        self.runs.get(k as usize).map(|held| held.run)
    }
}
