ghost use Rattle.std.specs.Prelude.{◌≡◌, ◌+◌, ◌<◌, ◌≤◌, IfOk};
ghost use Rattle.nesc_requests.specs.Buffers.{request_buffers};

use crate::request::Request;
use nesc_base::{Blocks, NoMemory};
use std::alloc::Global;
use std::marker::Model;

/// Buffers of blocks for requests and commands, all made at first: a buffer goes along with a request, comes back with
/// the reply to it, and serves a later one. What a spare buffer holds is nobody's.
#[derive(Drop)]
pub struct Buffers {
    spare: Vec<Blocks>,
}

impl Model for Buffers {
    ghost use Rattle.nesc_requests.specs.Buffers.{Spare};

    ghost Value = { Spare };

    ghost use Rattle.std.specs.Prelude.{vec_capacity, vec_len};

    ghost view = { λ b. record { count = vec_len b.spare; room = vec_capacity b.spare } };

    ghost use Rattle.nesc_requests.specs.Buffers.{HaveRoom};

    ghost invariant = { λ b. HaveRoom (vec_len b.spare) (vec_capacity b.spare) };
}

impl Buffers {
    /// So many buffers, all of them spare, with room for each of 1 to 64 blocks. An `Err` says that there is no memory
    /// for them. No other call takes any.
    pub fn new(alloc: Global, count: u16) -> Result<Buffers, NoMemory>
        ensures count { IfOk result (λ buffers. buffers.count ≡ count) }
        ensures room { IfOk result (λ buffers. count ≤ buffers.room) }
    {
        let mut spare = Vec::with_capacity(alloc, usize::from(count))?;
        for _ in 0..count {
            spare.push_reserved(Blocks::zeros(alloc, 1)?);
        }
        Ok(Buffers { spare })
    }

    /// Takes a spare buffer, whatever it holds. One has to be spare.
    pub fn take(&mut self) -> Blocks
        requires { 1 ≤ self.old.count }
        ensures count { self.new.count + 1 ≡ self.old.count }
        ensures room { self.new.room ≡ self.old.room }
    {
        self.spare.pop().unwrap()
    }

    /// Takes a buffer back that is done with. No more may be spare than there is room for.
    pub fn give(&mut self, buffer: Blocks)
        requires { self.old.count < self.old.room }
        ensures count { self.new.count ≡ self.old.count + 1 }
        ensures room { self.new.room ≡ self.old.room }
    {
        self.spare.push_reserved(buffer);
    }

    /// Takes the buffer back of a request that is done with, if it has one.
    pub fn reuse(&mut self, request: Request)
        requires { self.old.count + request_buffers request ≤ self.old.room }
        ensures count { self.new.count ≡ self.old.count + request_buffers request }
        ensures room { self.new.room ≡ self.old.room }
    {
        match request {
            Request::Read { into, .. } => self.give(into),
            Request::Write { from, .. } => self.give(from),
            Request::Flush => {}
        }
    }
}
