//! The device serves the first request of a function.
ghost use Rattle.std.specs.Prelude.{◌≡◌, ◌+◌, ◌<◌, ◌≤◌, true, false, List, ◌∷◌, [], length, Some, None, IfSome};
ghost use Rattle.nesc_base.specs.declared.numbers.FileNo.{FileNo};
ghost use Rattle.nesc_base.specs.Disk.{Goes, Unchanged};
ghost use Rattle.nesc_base.specs.Fault.{HasCause};
ghost use Rattle.nesc_base.specs.Files.{Files as FileSet};
ghost use Rattle.nesc_requests.specs.Requests.{first_of};
ghost use Rattle.nesc_requests.specs.declared.request.Kind.TheVariants.{Unmapped};
ghost use Rattle.file_layer.specs.Changing.{GoesOn};
ghost use Rattle.file_layer.specs.Layer.{IsUsed};
ghost use Rattle.file_layer.specs.Showing.{RestsOn};
ghost use Rattle.plain_machine.specs.Functions.{is_ready};
ghost use Rattle.plain_machine.specs.Given.{is_failed_get, is_failed_read};
ghost use Rattle.plain_machine.specs.Machine.{starts_with_write};
ghost use Rattle.plain_machine.specs.Misses.{HasNoTrees};
ghost use Rattle.plain_machine.specs.Ticks.{Serves};
ghost use Rattle.plain_machine.specs.declared.outcome.Answer.TheVariants.{Flushed, Missed, Served};
ghost use Rattle.nesc_requests.specs.declared.request.Queued.{Queued};
ghost use Rattle.request_queues.specs.Queue.{HasBlockToDo, first_request};
ghost use Rattle.nesc_session.specs.Buffers.{HasNoRequest, outcome_buffers, queue_buffers};
ghost use Rattle.nesc_session.specs.Requests.{function_of, starts_with_flush};
ghost use Rattle.nesc_session.specs.Serving.{Ends, FetchesNone, IsPlain, ReachesHead, ServesOnDisk};

use crate::requests::Requests;
use file_layer::Files;
use host_journal::Journal;
use nesc_base::{Block, Disk, DiskFault, FileNo, FnNo};
use nesc_requests::{End, Kind, Miss, Reply, Request};
use plain_machine::{Answer, How, Outcome};
use request_queues::Queue;

impl Requests {
    /// Serves one block of the first request, which is no flush, or finds that the function has to wait, or that the
    /// disk cannot be read.
    pub fn serve<D: Disk>(
        &mut self,
        f: FnNo,
        file: FileNo,
        files: &Files,
        journal: &mut Journal,
        disk: &mut D,
    ) -> Outcome
        requires ready { is_ready (function_of (Some file) self.old).attached ≡ true }
        requires blocks { starts_with_flush self.old.queue.requests ≡ false }
        requires used { IsUsed files.now file.0 }
        requires rests { RestsOn files.now journal.old (D.known disk.old) }
        requires room { starts_with_write self.old.queue.requests ≡ true
            → journal.old.count < journal.old.geometry.slack }
        ensures serves { ServesOnDisk
            (D.known disk.old) files.now journal.old f file self.old result self.new journal.new }
        ensures plain { IsPlain result }
        ensures no_trees { HasNoTrees result }
        ensures no_get { is_failed_get result.answer ≡ false }
        ensures depth { self.new.queue.depth ≡ self.old.queue.depth }
        ensures few { length self.new.queue.requests ≤ length self.old.queue.requests }
        ensures buffers { queue_buffers self.new.queue.requests
            + outcome_buffers result ≡ queue_buffers self.old.queue.requests }
        ensures no_request { HasNoRequest result.answer }
        ensures rests { RestsOn files.now journal.new (D.known disk.new) }
        ensures goes_on { GoesOn journal.old journal.new }
        ensures cause { HasCause (D.known disk.old).faults (D.known disk.new).faults
            (is_failed_read result.reply ≡ true) }
        ensures unchanged { Unchanged (D.known disk.old) (D.known disk.new) }
        ensures goes { Goes (D.known disk.old) (D.known disk.new) }
        ensures keeps { D.keeps disk.old disk.new }
    {
        let done = self.queue.head_done();
        let Some(head) = self.queue.head() else {
            return told(Answer::Idle, None);
        };
        let (v, blocks) = (head.first() + done, head.blocks());
        if files.length(file).unwrap_or(0) <= v {
            return end(&mut self.queue, f, served(f, v, How::Range), End::Range);
        }
        match reach(&mut self.queue, file, v, files, journal, disk) {
            Reached::Missed => {
                let miss = unmapped(v, blocks - done);
                self.waiting = Some(miss);
                told(missed(f, miss), None)
            }
            Reached::Failed => end(&mut self.queue, f, served(f, v, How::Walk(0)), End::Media),
            Reached::Served(how) if blocks <= done + 1 => {
                self.queue.served();
                end(&mut self.queue, f, served(f, v, how), End::Ok)
            }
            Reached::Served(how) => {
                self.queue.served();
                told(served(f, v, how), None)
            }
        }
    }

    /// The first request, a flush, ends with the clock of the commit that was made for it.
    pub fn end_flush(&mut self, f: FnNo, clock: u64) -> Outcome
        requires flush { starts_with_flush self.old.queue.requests ≡ true }
        ensures serves { (files : FileSet) (file : FileNo) →
            Serves files f (function_of (Some file) self.old) result [] (function_of (Some file) self.new) }
        ensures no_trees { HasNoTrees result }
        ensures before { result.before ≡ None }
        ensures after { result.after ≡ Some clock }
        ensures built { result.built ≡ None }
        ensures no_get { is_failed_get result.answer ≡ false }
        ensures read { is_failed_read result.reply ≡ false }
        ensures depth { self.new.queue.depth ≡ self.old.queue.depth }
        ensures few { length self.new.queue.requests ≤ length self.old.queue.requests }
        ensures buffers { queue_buffers self.new.queue.requests
            + outcome_buffers result ≡ queue_buffers self.old.queue.requests }
        ensures no_request { HasNoRequest result.answer }
    {
        // That a function waits for no flush is known once its requests are read.
        let _queue = &self.queue;
        Outcome {
            after: Some(clock),
            ..end(&mut self.queue, f, Answer::Flushed(f), End::Flushed(clock))
        }
    }
}

/// How the device came to a block of a request.
#[derive(Clone, Copy)]
enum Reached {
    /// It was read or written, and was found so.
    Served(How),
    /// It is to be written and is not held.
    Missed,
    /// The disk failed to read it.
    Failed,
}

// Reads or writes the next block of the first request: the file's block `v`.
fn reach<D: Disk>(
    queue: &mut Queue,
    file: FileNo,
    v: u32,
    files: &Files,
    journal: &mut Journal,
    disk: &mut D,
) -> Reached
    requires next { HasBlockToDo queue.old }
    requires place { IfSome (first_request queue.old.requests) (λ request. v ≡ first_of request + queue.old.done) }
    requires rests { RestsOn files.now journal.old (D.known disk.old) }
    requires room { starts_with_write queue.old.requests ≡ true → journal.old.count < journal.old.geometry.slack }
    ensures head { (head : Queued) (rest : List Queued) → queue.old.requests ≡ head ∷ rest
        → ReachesHead
        (D.known disk.old) files.now journal.old file.0 v queue.old head rest result queue.new journal.new }
    ensures no_nodes { FetchesNone result }
    ensures rests { RestsOn files.now journal.new (D.known disk.new) }
    ensures goes_on { GoesOn journal.old journal.new }
    ensures cause { HasCause (D.known disk.old).faults (D.known disk.new).faults (result ≡ Reached.Failed) }
    ensures unchanged { Unchanged (D.known disk.old) (D.known disk.new) }
    ensures goes { Goes (D.known disk.old) (D.known disk.new) }
    ensures keeps { D.keeps disk.old disk.new }
{
    let done = queue.head_done();
    let Some(request) = queue.head() else {
        return Reached::Missed;
    };
    match (request, files.place(file, v)) {
        (Request::Read { .. }, None) => {
            queue.read_into(&Block::zero());
            Reached::Served(How::Hole(0))
        }
        (Request::Read { .. }, Some(at)) => {
            let mut block = Block::zero();
            if journal.read(disk, at, &mut block).is_err() {
                return Reached::Failed;
            }
            queue.read_into(&block);
            Reached::Served(How::Walk(0))
        }
        (Request::Write { from, .. }, Some(at)) => {
            journal.stage(at, &from.get(done));
            Reached::Served(How::Walk(0))
        }
        _ => Reached::Missed,
    }
}

// The first request ends so, and leaves the queue.
pub(crate) fn end(queue: &mut Queue, f: FnNo, answer: Answer, end: End) -> Outcome
    ensures { Ends f answer end queue.old result queue.new }
{
    let reply = match queue.finish() {
        Some((id, done, request)) => Some(Reply {
            f,
            id,
            end,
            done,
            request,
        }),
        None => None,
    };
    told(answer, reply)
}

// A step without a commit, and without trees.
pub(crate) fn told(answer: Answer, reply: Option<Reply>) -> Outcome
    ensures { result ≡ record { before = None; answer = answer; drops = 0; built = None; after = None; reply = reply } }
{
    Outcome {
        before: None,
        answer,
        drops: 0,
        built: None,
        after: None,
        reply,
    }
}

// The device came to a block so.
fn served(f: FnNo, v: u32, how: How) -> Answer
    ensures { result ≡ Served f v how }
{
    Answer::Served { f, v, how }
}

// A function waits. No node of a tree was fetched before that was found.
fn missed(f: FnNo, miss: Miss) -> Answer
    ensures { result ≡ Missed f miss 0 }
{
    Answer::Missed {
        f,
        miss,
        fetched: 0,
    }
}

// What a write waits for that comes to a block `v` that is not held, before so many blocks are done.
fn unmapped(v: u32, n: u32) -> Miss
    ensures { result ≡ record { v = v; n = n; kind = Unmapped } }
{
    Miss {
        v,
        n,
        kind: Kind::Unmapped,
    }
}
