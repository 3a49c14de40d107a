ghost use Rattle.std.specs.Prelude.{◌≡◌, ◌+◌, ◌<◌, ◌≤◌, ◌⊎◌, [], ◌++◌, IfOk, IsErr};
ghost use Rattle.std.specs.Prelude.{OnOk, OnErr, Contains, Some, length, take};
ghost use Rattle.nesc_base.specs.Count.{risen};
ghost use Rattle.nesc_base.specs.Fault.{HasCause};
ghost use Rattle.nesc_base.specs.Sink.{Appends, TakesNone};

use nesc_base::{Sink, WriteFault};
use std::alloc::Global;
use std::marker::Model;

/// A sink that keeps the bytes that it takes, a whole piece a call, and fails at the calls that it was told.
#[derive(Debug, Drop)]
pub struct MemSink {
    bytes: Vec<u8>,
    fails: Vec<u64>,
    calls: u64,
    faults: u64,
}

impl Model for MemSink {
    ghost use Rattle.std.specs.Prelude.{◌-◌, vec_len, vec_capacity};
    ghost use Rattle.nesc_fakes.specs.MemSink.{MemSinkState};

    ghost Value = { MemSinkState };

    ghost view = { λ s. record {
      taken = s.bytes.items;
      fails = s.fails.items;
      calls = s.calls;
      faults = s.faults;
      room = vec_capacity s.bytes - vec_len s.bytes;
    } };
}

impl MemSink {
    /// A sink that has taken nothing. `fails` lists the calls of `write` that fail, by their numbers, from 1 on.
    /// The number of a call stands still at 2^64 - 1, so that if this one is listed, all later calls fail too.
    pub fn new(alloc: Global, fails: Vec<u64>) -> MemSink
        ensures { result ≡ record { taken = []; fails = fails.items; calls = 0; faults = 0; room = 0 } }
    {
        MemSink {
            bytes: Vec::new(alloc),
            fails,
            calls: 0,
            faults: 0,
        }
    }

    /// The bytes that the sink has taken.
    pub fn bytes(&self) -> &[u8]
        ensures { result.now ≡ self.now.taken }
    {
        &self.bytes
    }
}

impl Sink for MemSink {
    ghost taken = { λ s. Some s.taken };

    ghost faults = { λ s. s.faults };

    /// Takes the whole piece. An `Err` comes at the calls that are listed, and where there is no memory for the
    /// piece: it takes nothing, and the count of faults rises by one, up to 2^64 - 1.
    fn write(&mut self, from: &[u8]) -> Result<usize, WriteFault>
        ensures within { IfOk result (λ n. n ≤ length from.now) }
        ensures first { IfOk result (λ n. Appends (Some self.old.taken) (Some self.new.taken) (take n from.now)) }
        ensures none { OnErr result (Some self.new.taken ≡ Some self.old.taken) }
        ensures cause { HasCause self.old.faults self.new.faults (TakesNone from.now result) }

        // It fails at the calls that are listed, and else only where the piece has no room in the memory that
        // the sink has. So an empty piece is never refused for want of memory.
        ensures listed { Contains self.old.fails (risen self.old.calls) → IsErr result }
        ensures only { IsErr result
            → Contains self.old.fails (risen self.old.calls) ⊎ (self.old.room < length from.now) }
        ensures whole { IfOk result (λ n. n ≡ length from.now) }

        // What each call leaves.
        ensures ok { OnOk result (self.new ≡ record self.old {
          taken = self.old.taken ++ from.now;
          calls = risen self.old.calls;
          room = self.new.room;
        }) }
        ensures err { OnErr result (self.new ≡ record self.old {
          calls = risen self.old.calls;
          faults = risen self.old.faults;
          room = self.new.room;
        }) }
        ensures room { self.old.room + length self.old.taken ≤ self.new.room + length self.new.taken }
    {
        self.calls = self.calls.saturating_add(1);
        if self.fails.contains(&self.calls) || self.bytes.extend_from_slice(from).is_err() {
            self.faults = self.faults.saturating_add(1);
            return Err(WriteFault);
        }
        Ok(from.len())
    }
}
