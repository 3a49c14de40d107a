ghost use Rattle.std.specs.Prelude.{◌≡◌, ◌+◌, ◌≤◌, [], suc, true, IfSome, IfNone};
ghost use Rattle.nesc_requests.specs.Buffers.{command_buffers, request_buffers};
ghost use Rattle.nesc_requests.specs.Machine.{IsMachine};
ghost use Rattle.nesc_requests.specs.Script.{IsWithinLimits, MayAsk, requests_of};
ghost use Rattle.script_lang.specs.HostText.{NamesFunction};
ghost use Rattle.script_lang.specs.Kept.{AreKept, left_of};
ghost use Rattle.script_lang.specs.Left.{TakesCommand, TakesRequest, buffers_of, is_out, with_back};

use crate::entries::HostEntry;
use crate::guest::{Guest, take_request};
use crate::store::Store;
use nesc_base::FnNo;
use nesc_requests::{Buffers, HostCommand, Machine, Request};
use std::collections::VecDeque;
use std::marker::Model;

/// The machine of a commands file, and the commands of the host and the requests of the guests that are left.
///
/// They are kept apart from their blocks, and are given out with buffers that the caller brings, so that the memory
/// they take follows the text; no call takes more. A request that comes back keeps its buffer: as many buffers are kept
/// so as there are functions, at most.
#[derive(Drop)]
pub struct Commands {
    machine: Machine,
    store: Store,
    host: VecDeque<HostEntry>,
    guests: Vec<Guest>,
}

impl Model for Commands {
    ghost use Rattle.script_lang.specs.Left.{Left};

    ghost Value = { Left };

    ghost use Rattle.script_lang.specs.Kept.{AreKept, left_of};

    ghost view = { λ c. left_of c.machine c.store c.host.items c.guests.items };

    ghost invariant = { λ c. AreKept c.machine c.store c.host.items c.guests.items };
}

impl Commands {
    /// What is kept of a text of which nothing was taken.
    pub(crate) fn new(
        machine: Machine,
        store: Store,
        host: VecDeque<HostEntry>,
        guests: Vec<Guest>,
    ) -> Commands
        requires { AreKept machine store host.items guests.items }
        ensures { result ≡ left_of machine store host.items guests.items }
    {
        Commands {
            machine,
            store,
            host,
            guests,
        }
    }

    /// The numbers of the machine.
    pub fn machine(&self) -> Machine
        ensures machine { result ≡ self.now.script.machine }
        ensures within { IsMachine result }
    {
        self.machine
    }

    /// Takes the host's next command, with a spare buffer where it has blocks. One has to be spare. `None` says that no
    /// command is left.
    #[tactic(auto, using(crate::proofs::LeftLemmas::kept_few))]
    pub fn take_host(&mut self, spare: &mut Buffers) -> Option<HostCommand>
        requires some { 1 ≤ spare.old.count }
        ensures next { IfSome result (λ command. TakesCommand self.old command self.new) }
        ensures fits { IfSome result IsWithinLimits }
        ensures named { IfSome result (NamesFunction self.old.script.machine.functions) }
        ensures spare { IfSome result (λ command. spare.new.count + command_buffers command ≡ spare.old.count) }
        ensures none { IfNone result ((self.old.script.host ≡ []) × (self.new ≡ self.old) × (spare.new ≡ spare.old)) }
        ensures room { spare.new.room ≡ spare.old.room }
        ensures few { self.new.kept ≤ self.new.script.machine.functions }
    {
        let entry = self.host.pop_front()?;
        Some(entry.give(&self.store, spare))
    }

    /// Takes the next request of a function's guest: the one that came back, which has its buffer still, or else the
    /// first that is left, with a spare buffer where it has blocks. One has to be spare. `None` says that no request is
    /// left, or that there is no such function.
    #[tactic(auto, using(crate::proofs::LeftLemmas::kept_few))]
    pub fn take_guest(&mut self, f: FnNo, spare: &mut Buffers) -> Option<Request>
        requires some { 1 ≤ spare.old.count }
        ensures next { IfSome result (λ request. TakesRequest self.old f.0 request self.new) }
        ensures fits { IfSome result MayAsk }
        ensures out { IfSome result (λ _. is_out self.new f.0 ≡ true) }
        ensures spare { IfSome result (λ request.
            spare.new.count + self.new.kept + request_buffers request ≡ spare.old.count + self.old.kept) }
        ensures none { IfNone result
            ((requests_of self.old.script f.0 ≡ []) × (self.new ≡ self.old) × (spare.new ≡ spare.old)) }
        ensures room { spare.new.room ≡ spare.old.room }
        ensures few { self.new.kept ≤ self.new.script.machine.functions }
    {
        let guest = self.guests.get_mut(place_of(f)?)?;
        take_request(guest, &self.store, spare)
    }

    /// Puts a request back, which is the guest's next again and keeps its buffer. The guest's last request has to be
    /// out, and this one to be within the limits of each that is taken: its first block 0 to 1,048,575, and 1 to 64
    /// blocks.
    pub fn give_back(&mut self, f: FnNo, request: Request)
        requires out { is_out self.old f.0 ≡ true }
        requires fits { MayAsk request }
        ensures back { self.new ≡ with_back self.old f.0 request }
        ensures few { self.new.kept ≤ self.new.script.machine.functions }
    {
        let place = usize::from(f.0) - 1;
        self.guests[place].back = Some(request);
    }
}

/// How many buffers serve a machine, so that one is spare whenever a command or request is taken: at most 1,041 for one
/// within the limits. There is one for each request that may wait, one for a request of each guest that came back, and
/// one for what is on its way.
pub fn buffers_of(machine: Machine) -> u16
    ensures { result ≡ buffers_of machine }
{
    u16::from(machine.functions) * (u16::from(machine.queue) + 1) + 1
}

/// Where a guest stands, counted from 0. `None` says that no guest has this number.
fn place_of(f: FnNo) -> Option<usize>
    ensures place { IfSome result (λ place. f.0 ≡ suc place) }
    ensures none { IfNone result (f.0 ≡ 0) }
{
    usize::from(f.0).checked_sub(1)
}
