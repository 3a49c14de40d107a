//! The requests that wait for one function, and what it waits for.
ghost use Rattle.std.specs.Prelude.{◌≡◌, ◌+◌, ◌≤◌, true, false, length, Some, IfOk};
ghost use Rattle.nesc_base.specs.declared.numbers.FileNo.{FileNo};
ghost use Rattle.nesc_requests.specs.Buffers.{request_buffers};
ghost use Rattle.nesc_requests.specs.Script.{MayAsk};
ghost use Rattle.plain_machine.specs.Machine.{starts_with_write};
ghost use Rattle.plain_machine.specs.Submissions.{Submits};
ghost use Rattle.nesc_session.specs.Buffers.{queue_buffers, returned};
ghost use Rattle.nesc_session.specs.Requests.{cleared, function_of, is_ready_for, no_requests, starts_with_flush};

use nesc_base::NoMemory;
use nesc_requests::{Buffers, Miss, Request};
use plain_machine::Answer;
use request_queues::Queue;
use std::alloc::Global;
use std::marker::Model;

/// The requests that wait for one function, and what it waits for.
#[derive(Drop)]
pub(crate) struct Requests {
    pub(crate) queue: Queue,
    pub(crate) waiting: Option<Miss>,
}

impl Model for Requests {
    ghost use Rattle.nesc_session.specs.Requests.{IsSound, Requests};

    ghost Value = { Requests };

    ghost view = { λ r. record { queue = r.queue; waiting = r.waiting } };

    ghost invariant = { λ r. IsSound r.queue r.waiting };
}

impl Requests {
    /// No requests, with the memory for as many as may wait. An `Err` says that there is none. No other call takes any.
    pub fn new(alloc: Global, most: u8) -> Result<Requests, NoMemory>
        ensures { IfOk result (λ requests. requests ≡ no_requests most) }
    {
        Ok(Requests {
            queue: Queue::new(alloc, most)?,
            waiting: None,
        })
    }

    /// Whether a request waits, and the function does not.
    pub fn is_ready(&self) -> bool
        ensures { result ≡ is_ready_for self.now }
    {
        self.queue.len() > 0 && self.waiting.is_none()
    }

    /// Whether a request waits.
    pub fn is_empty(&self) -> bool
        ensures some { result ≡ false → 1 ≤ length self.now.queue.requests }
        ensures none { result ≡ true → self.now ≡ cleared self.now }
    {
        self.queue.len() == 0
    }

    /// Whether the first request is a write.
    pub fn starts_with_write(&self) -> bool
        ensures { result ≡ starts_with_write self.now.queue.requests }
    {
        matches!(self.queue.head(), Some(Request::Write { .. }))
    }

    /// Whether the first request is a flush.
    pub fn starts_with_flush(&self) -> bool
        ensures { result ≡ starts_with_flush self.now.queue.requests }
    {
        matches!(self.queue.head(), Some(Request::Flush))
    }

    /// Lets a request wait, behind the others, or hands it back, where as many wait as may.
    pub fn submit(&mut self, request: Request) -> Answer
        requires may { MayAsk request }
        ensures submits { (file : FileNo) → Submits self.old.queue.depth
            (function_of (Some file) self.old) request result (function_of (Some file) self.new) }
        ensures few { length self.old.queue.requests ≤ self.old.queue.depth
            → length self.new.queue.requests ≤ self.old.queue.depth }
        ensures depth { self.new.queue.depth ≡ self.old.queue.depth }
        ensures buffers { queue_buffers self.new.queue.requests
            + returned result ≡ queue_buffers self.old.queue.requests + request_buffers request }
    {
        match self.queue.submit(request) {
            Ok(id) => Answer::Queued(id),
            Err(request) => Answer::Full(request),
        }
    }

    /// The function does not wait any more.
    pub fn rewalk(&mut self)
        ensures { self.new ≡ record self.old { waiting = None } }
    {
        self.waiting = None;
    }

    /// No request waits any more, and their buffers are spare. The numbers of requests go on.
    pub fn clear(&mut self, spare: &mut Buffers)
        requires room { queue_buffers self.old.queue.requests + spare.old.count ≤ spare.old.room }
        ensures cleared { self.new ≡ cleared self.old }
        ensures spare { spare.new.count ≡ queue_buffers self.old.queue.requests + spare.old.count }
        ensures room { spare.new.room ≡ spare.old.room }
    {
        while let Some((_, _, request)) = self.queue.finish() {
            spare.reuse(request);
        }
        self.waiting = None;
    }
}
