ghost use Rattle.std.specs.Prelude.{◌≡◌, ◌↔◌, [], ◌∷◌, ◌++◌, IsTrue, MatchResult};
ghost use Rattle.nesc_base.specs.Runs.{AreRuns, IsBehind, IsRun};
ghost use Rattle.tree_tests.specs.Putting.{IsNext, PutsBehind};

use nesc_base::{LONGEST_FILE, NoMemory, Run, Runs};
use std::alloc::Global;
use std::marker::Model;

/// The runs of a file in a list.
#[derive(Drop)]
pub struct PlainRuns {
    runs: Vec<Run>,
}

impl Model for PlainRuns {
    ghost use Rattle.std.specs.Prelude.{List};
    ghost use Rattle.nesc_base.specs.Runs.{AreRuns};
    ghost use Rattle.nesc_base.specs.declared.runs.Run.{Run};

    ghost Value = { List Run };

    ghost view = { λ r. r.runs.items };

    ghost invariant = { λ r. AreRuns r.runs.items };
}

impl PlainRuns {
    /// The runs of a file that holds no block.
    pub fn none(alloc: Global) -> PlainRuns
        ensures { result ≡ [] }
    {
        PlainRuns {
            runs: Vec::new(alloc),
        }
    }

    /// Puts a run behind the others, or says `false` where they would not be runs of a file then. An `Err` says that
    /// there is no memory for it. Nothing has changed after either.
    pub fn push(&mut self, run: Run) -> Result<bool, NoMemory>
        ensures { MatchResult result (λ put. PutsBehind put run self.old self.new) (λ _. self.new ≡ self.old) }
    {
        if !fits(&self.runs, run) {
            return Ok(false);
        }
        self.runs.push(run)?;
        Ok(true)
    }
}

impl Runs for PlainRuns {
    ghost runs = { λ runs. runs };

    fn count(&self) -> u32 {
        self.runs.len() as u32
    }

    fn run(&self, k: u32) -> Option<Run> {
        self.runs.get(k as usize).copied()
    }
}

// Whether these are runs of a file with the run behind them.
fn fits(runs: &[Run], run: Run) -> bool
    requires { AreRuns runs.now }
    ensures { IsTrue result ↔ AreRuns (runs.now ++ run ∷ []) }
{
    is_run(run) && is_next(runs, run)
}

// Whether it has blocks, which a file may have, and places that are numbers of blocks.
fn is_run(run: Run) -> bool
    ensures { IsTrue result ↔ IsRun run }
{
    let longest = LONGEST_FILE;
    1 <= run.count
        && run.first <= longest
        && run.count <= longest - run.first
        && run.count <= u32::MAX - run.place
}

// Whether the run may come behind the last of these.
fn is_next(runs: &[Run], run: Run) -> bool
    requires { AreRuns runs.now }
    ensures { IsTrue result ↔ IsNext runs.now run }
{
    match runs.last() {
        Some(last) => is_behind(*last, run),
        None => true,
    }
}

// Whether a run may come behind another.
fn is_behind(one: Run, next: Run) -> bool
    requires { IsRun one }
    ensures { IsTrue result ↔ IsBehind one next }
{
    let end = one.first + one.count;
    end < next.first || (end == next.first && one.place + one.count != next.place)
}
