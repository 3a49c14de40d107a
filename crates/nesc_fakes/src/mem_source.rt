ghost use Rattle.std.specs.Prelude.{◌≡◌, ◌<◌, ◌≤◌, ◌↔◌, ◌++◌, IfOk, IsErr, OnErr};
ghost use Rattle.std.specs.Prelude.{Contains, Some, length, min, take, drop};
ghost use Rattle.nesc_base.specs.Count.{risen};
ghost use Rattle.nesc_base.specs.Fault.{HasCause};
ghost use Rattle.nesc_base.specs.Source.{GivesFirst};

use crate::rest::Rest;
use nesc_base::{ReadFault, Source};
use std::marker::Model;

/// A source that gives bytes of memory, as many a call as fit into the buffer, and fails at the calls that it
/// was told.
#[derive(Debug, Drop)]
pub struct MemSource {
    rest: Rest,
    fails: Vec<u64>,
    calls: u64,
    faults: u64,
}

impl Model for MemSource {
    ghost use Rattle.nesc_fakes.specs.MemSource.{MemSourceState};

    ghost Value = { MemSourceState };

    ghost view = { λ s. record { left = s.rest; fails = s.fails.items; calls = s.calls; faults = s.faults } };
}

impl MemSource {
    /// A source of these bytes. `fails` lists the calls of `read` that fail, by their numbers, from 1 on. The
    /// number of a call stands still at 2^64 - 1, so that if this one is listed, all later calls fail too.
    pub fn new(bytes: Vec<u8>, fails: Vec<u64>) -> MemSource
        ensures { result ≡ record { left = bytes.items; fails = fails.items; calls = 0; faults = 0 } }
    {
        MemSource {
            rest: Rest::new(bytes),
            fails,
            calls: 0,
            faults: 0,
        }
    }
}

impl Source for MemSource {
    ghost left = { λ s. Some s.left };

    ghost faults = { λ s. s.faults };

    /// Gives as many bytes as fit. An `Err` comes at the calls that are listed, and at no others: it gives
    /// nothing, and the count of faults rises by one, up to 2^64 - 1.
    fn read(&mut self, into: &mut [u8]) -> Result<usize, ReadFault>
        requires { 0 < length into.old }
        ensures within { IfOk result (λ n. n ≤ length into.old) }
        ensures first { IfOk result (λ n. GivesFirst n into.new (Some self.old.left) (Some self.new.left)) }
        ensures cause { HasCause self.old.faults self.new.faults (IsErr result) }

        // It fails at the calls that are listed, and gives all that fits at the others.
        ensures listed { IsErr result ↔ Contains self.old.fails (risen self.old.calls) }
        ensures count { IfOk result (λ n. n ≡ min (length into.old) (length self.old.left)) }
        ensures given { IfOk result (λ n. into.new ≡ take n self.old.left ++ drop n into.old) }

        // What each call leaves.
        ensures ok { IfOk result (λ n.
            self.new ≡ record self.old { left = drop n self.old.left; calls = risen self.old.calls }) }
        ensures err { OnErr result
            (self.new ≡ record self.old { calls = risen self.old.calls; faults = risen self.old.faults }) }
        ensures none { OnErr result (into.new ≡ into.old) }
    {
        self.calls = self.calls.saturating_add(1);
        if self.fails.contains(&self.calls) {
            self.faults = self.faults.saturating_add(1);
            return Err(ReadFault);
        }
        Ok(self.rest.give(into))
    }
}
