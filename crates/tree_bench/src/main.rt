//! How long a walk down a tree of 65,536 runs takes beside a binary search over the same runs in a vector. The word
//! `time` asks for that; without it the program prints what walks and searches find, which is always the same.
#![tactic(auto)]

use nesc_base::{NoMemory, Run};
use std::alloc::Global;
use std::rt::{Env, Runtime};
use std::time::{Clock, Duration, Instant};
use std::{env, io};
use tree_tests::{PlainRuns, Planting};
use tree_walker::Found;

// Runs of one block each, at every second block of the file from its first on.
const RUNS: u32 = 65_536;

const BLOCKS: u32 = 2 * RUNS;

// Ten runs to a leaf and ten nodes to a node: 6,554 leaves, and 656, 66, 7 and 1 nodes above them.
const BLOCKS_OF_LEAF: u32 = 20;

const NODES: u16 = 6_554 + 656 + 66 + 7 + 1;

// How often each block is asked for where time is taken.
const ROUNDS: u32 = 8;

const ASKED: u32 = ROUNDS * BLOCKS;

/// The whole tree, and its runs in a vector.
#[derive(Drop)]
struct Grown {
    planting: Planting,
    runs: Vec<Run>,
}

// Builds the tree leaf by leaf.
fn grow(alloc: Global) -> Result<Grown, NoMemory> {
    let mut listed = PlainRuns::none(alloc);
    let mut runs = Vec::with_capacity(alloc, RUNS as usize)?;
    for k in 0..RUNS {
        let run = Run {
            first: 2 * k,
            count: 1,
            place: 275 + k,
        };
        listed.push(run)?;
        runs.push(run)?;
    }
    let mut planting = Planting::new(alloc, listed, NODES)?;
    for v in (0..BLOCKS).step_by(BLOCKS_OF_LEAF as usize) {
        planting.build(v);
    }
    Ok(Grown { planting, runs })
}

// Block `k` of an order that jumps about in the file. It has each block once before it begins anew.
fn block_of(k: u32) -> u32 {
    let one = u64::from(k) * 40_503 % u64::from(BLOCKS);
    let other = (one ^ (one >> 8)) * 30_011;
    (other % u64::from(BLOCKS)) as u32
}

// The run that has block `v`.
fn search(runs: &[Run], v: u32) -> Option<Run> {
    let behind = runs.partition_point(|run| run.first <= v);
    let run = *runs.get(behind.checked_sub(1)?)?;
    if v.checked_sub(run.first)? < run.count {
        return Some(run);
    }
    None
}

// How many of so many walks end at a run.
fn walks(planting: &mut Planting, asked: u32) -> usize {
    (0..asked)
        .filter(|k| matches!(planting.walk(block_of(*k)).found, Found::Mapped(_)))
        .count()
}

// How many of so many searches find a run.
fn searches(runs: &[Run], asked: u32) -> usize {
    (0..asked)
        .filter(|k| search(runs, block_of(*k)).is_some())
        .count()
}

/// How many nanoseconds the calls took, and at how many of them a run was found.
#[derive(Clone, Copy)]
struct Timed {
    nanos: u64,
    found: usize,
}

impl Timed {
    fn new(elapsed: Duration, found: usize) -> Timed {
        let nanos = u64::try_from(elapsed.as_nanos()).unwrap_or(u64::MAX);
        Timed { nanos, found }
    }

    // How many a second.
    fn rate(self) -> u64 {
        u64::from(ASKED) * 1_000_000_000 / self.nanos.max(1)
    }

    // How many times as long it took as another, in hundredths.
    fn hundredths(self, other: Timed) -> u64 {
        self.nanos.saturating_mul(100) / other.nanos.max(1)
    }
}

fn time_walks(clock: &impl Clock, planting: &mut Planting) -> io::Result<Timed> {
    let start = Instant::now(clock)?;
    let found = walks(planting, ASKED);
    Ok(Timed::new(start.elapsed(clock)?, found))
}

fn time_searches(clock: &impl Clock, runs: &[Run]) -> io::Result<Timed> {
    let start = Instant::now(clock)?;
    let found = searches(runs, ASKED);
    Ok(Timed::new(start.elapsed(clock)?, found))
}

fn tell_found<R: Runtime>(rt: &R, grown: &mut Grown) -> io::Result<()> {
    let nodes = u32::from(NODES).saturating_sub(grown.planting.free());
    println!(rt; "{RUNS} runs, {nodes} nodes")?;
    println!(rt;
        "{BLOCKS} walks: {} runs found",
        walks(&mut grown.planting, BLOCKS)
    )?;
    println!(rt;
        "{BLOCKS} searches: {} runs found",
        searches(&grown.runs, BLOCKS)
    )
}

fn tell_times<R: Runtime>(rt: &R, grown: &mut Grown) -> io::Result<()> {
    let walks = time_walks(rt, &mut grown.planting)?;
    let searches = time_searches(rt, &grown.runs)?;
    println!(rt;
        "{ASKED} walks: {} runs found, {} a second",
        walks.found,
        walks.rate()
    )?;
    println!(rt;
        "{ASKED} searches: {} runs found, {} a second",
        searches.found,
        searches.rate()
    )?;
    let hundredths = walks.hundredths(searches);
    println!(rt;
        "a walk takes {}.{:02} times as long as a search",
        hundredths / 100,
        hundredths % 100
    )
}

// Whether the word behind the program's name is this.
fn is_asked(rt: &(impl Env + AllocGlobal), word: &str) -> io::Result<bool> {
    Ok(
        env::args(rt)?
            .nth(1)
            .is_some_and(|given| given.as_str() == word),
    )
}

fn main(rt: HostRuntime) -> io::Result<()> {
    let Ok(mut grown) = grow(rt.alloc()) else {
        return Err(io::ErrorKind::OutOfMemory.into());
    };
    if is_asked(&rt, "time")? {
        return tell_times(&rt, &mut grown);
    }
    tell_found(&rt, &mut grown)
}
