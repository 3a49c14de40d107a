ghost use Rattle.std.specs.Prelude.{◌≡◌, ◌≢◌, ◌<◌, ◌≤◌, true, ◌+◌, ◌++◌, [], IfOk, IsErr};
ghost use Rattle.std.specs.Prelude.{OnErr, OnOk, drop, length, take, vec_capacity, vec_len};
ghost use Rattle.nesc_base.specs.Fault.{HasCause};
ghost use Rattle.nesc_base.specs.Sink.{Grows, StaysLent};
ghost use Rattle.text_kit.specs.Known.{Keeps, followed_by};

use crate::write::write_front;
use nesc_base::{NoMemory, Sink, WriteFault};
use std::alloc::Global;

/// How many bytes a buffered sink gathers at most.
pub const BUFFER_BYTES: usize = 65536;

/// The memory of a buffered sink.
#[derive(Drop)]
pub struct Buffer {
    bytes: Vec<u8>,
    ghost room: { 65536 ≤ vec_capacity bytes },
    ghost within: { vec_len bytes ≤ 65536 },
}

impl Buffer {
    ghost use Rattle.text_kit.specs.Buffered.{gathered_in};

    /// Takes the memory, and nothing is gathered yet. An `Err` says that there is none.
    pub fn new(alloc: Global) -> Result<Buffer, NoMemory>
        ensures { IfOk result (λ buffer. gathered_in buffer ≡ []) }
    {
        let bytes = Vec::with_capacity(alloc, BUFFER_BYTES)?;
        Ok(Buffer { bytes })
    }

    fn clear(&mut self)
        ensures { gathered_in self.new ≡ [] }
    {
        self.bytes.clear();
    }

    /// Hands on all that is gathered. An `Err` says that the sink failed: what it did not take stays gathered.
    fn hand_on_all<K: Sink>(&mut self, sink: &mut K) -> Result<(), WriteFault>
        ensures keeps { Keeps (followed_by (K.taken sink.old) (gathered_in self.old))
            (followed_by (K.taken sink.new) (gathered_in self.new)) }
        ensures empty { OnOk result (gathered_in self.new ≡ []) }
        ensures stays_lent { StaysLent (K.lent sink.old) (K.lent sink.new) }
        ensures more { Grows (K.taken sink.old) (K.taken sink.new) }
        ensures cause { HasCause (K.faults sink.old) (K.faults sink.new) (IsErr result) }
    {
        let (taken, answer) = write_front(sink, &self.bytes);
        remove_front(&mut self.bytes, taken);
        answer
    }

    /// Where it is full, hands on what the sink takes in one call. `false` says that it took nothing.
    fn make_room<K: Sink>(&mut self, sink: &mut K) -> Result<bool, WriteFault>
        ensures keeps { Keeps (followed_by (K.taken sink.old) (gathered_in self.old))
            (followed_by (K.taken sink.new) (gathered_in self.new)) }
        ensures err { OnErr result (followed_by (K.taken sink.new) (gathered_in self.new) ≡ followed_by
            (K.taken sink.old) (gathered_in self.old)) }
        ensures stays_lent { StaysLent (K.lent sink.old) (K.lent sink.new) }
        ensures more { Grows (K.taken sink.old) (K.taken sink.new) }
        ensures room { result ≡ Ok true → length (gathered_in self.new) < 65536 }
        ensures cause { HasCause (K.faults sink.old) (K.faults sink.new) (result ≢ Ok true) }
    {
        if self.bytes.len() < BUFFER_BYTES {
            return Ok(true);
        }
        let handed = sink.write(&self.bytes)?;
        remove_front(&mut self.bytes, handed);
        Ok(handed > 0)
    }

    /// Gathers the first of these bytes, as many as find room.
    fn gather(&mut self, from: &[u8]) -> usize
        ensures within { result ≤ length from.now }
        ensures gathered { gathered_in self.new ≡ gathered_in self.old ++ take result from.now }
        ensures some { length (gathered_in self.old) < 65536 → result ≡ 0 → length from.now ≡ 0 }
    {
        let more = from.len().min(BUFFER_BYTES - self.bytes.len());
        append(&mut self.bytes, &from[..more]);
        more
    }
}

/// A sink that gathers the bytes that it takes, and hands them on in large pieces to the sink that it is lent.
///
/// What is pending when it is let go is lost: `flush` it first.
#[derive(Drop)]
pub struct Buffered<'a, K> {
    sink: &'a mut K,
    buffer: &'a mut Buffer,
}

impl<'a, K: Sink> Buffered<'a, K> {
    ghost use Rattle.text_kit.specs.Buffered.{lent_name, pending_of, shown, sink_of};

    /// Nothing is pending at first: what the buffer had is forgotten.
    pub fn new(buffer: &'a mut Buffer, sink: &'a mut K) -> Buffered<'a, K>
        ensures lent { lent_name result ≡ sink.entry.ghost_name }
        ensures sink { sink_of result ≡ sink.old }
        ensures empty { pending_of result ≡ [] }
    {
        buffer.clear();
        Buffered { sink, buffer }
    }

    /// Hands on all that is pending. What is taken, or waits to be, stays the same whatever it answers.
    ///
    /// An `Err` says that the sink failed. What it did not take is still pending then.
    pub fn flush(&mut self) -> Result<(), WriteFault>
        ensures keeps { Keeps (shown K.taken self.old) (shown K.taken self.new) }
        ensures empty { OnOk result (pending_of self.new ≡ []) }
        ensures lent { lent_name self.new ≡ lent_name self.old }
        ensures stays_lent { StaysLent (K.lent (sink_of self.old)) (K.lent (sink_of self.new)) }
        ensures more { Grows (K.taken (sink_of self.old)) (K.taken (sink_of self.new)) }
        ensures cause { HasCause (K.faults (sink_of self.old)) (K.faults (sink_of self.new)) (IsErr result) }
    {
        self.buffer.hand_on_all(self.sink)
    }
}

impl<K: Sink> Sink for Buffered<'_, K> {
    ghost use Rattle.text_kit.specs.Buffered.{lent_name, lent_on, shown, sink_of};

    ghost taken = { shown K.taken };

    ghost faults = { λ buffered. K.faults (sink_of buffered) };

    ghost lent = { λ buffered. lent_on (K.lent (sink_of buffered)) (lent_name buffered) (K.taken (sink_of buffered)) };

    fn write(&mut self, from: &[u8]) -> Result<usize, WriteFault> {
        if !self.buffer.make_room(self.sink)? {
            return Ok(0);
        }
        Ok(self.buffer.gather(from))
    }
}

fn remove_front(bytes: &mut Vec<u8>, n: usize)
    requires { n ≤ vec_len bytes.old }
    ensures items { bytes.new.items ≡ drop n bytes.old.items }
    ensures len { vec_len bytes.new + n ≡ vec_len bytes.old }
    ensures capacity { vec_capacity bytes.new ≡ vec_capacity bytes.old }
{
    let len = bytes.len();
    bytes.as_mut_slice().copy_within(n..len, 0);
    bytes.truncate(len - n);
}

fn append(bytes: &mut Vec<u8>, more: &[u8])
    requires { vec_len bytes.old + length more.now ≤ vec_capacity bytes.old }
    ensures items { bytes.new.items ≡ bytes.old.items ++ more.now }
    ensures capacity { vec_capacity bytes.old ≤ vec_capacity bytes.new }
{
    let Ok(()) = bytes.extend_from_slice(more) else {
        unreachable!()
    };
}
