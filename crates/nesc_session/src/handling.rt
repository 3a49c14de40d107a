//! The host does what a function waits for.
ghost use Rattle.std.specs.Prelude.{◌≡◌, ◌+◌, ◌≤◌, ◌&&◌, List, Some, nat_lt, not, is_some, length, true, false};
ghost use Rattle.nesc_base.specs.Files.{file_at};
ghost use Rattle.nesc_base.specs.declared.numbers.FnNo.{FnNo};
ghost use Rattle.file_layer.specs.Changing.{GoesOn};
ghost use Rattle.file_layer.specs.Knowing.{OfFiles};
ghost use Rattle.file_layer.specs.Layer.{Fits, IsLayer, IsUsed};
ghost use Rattle.file_layer.specs.Showing.{StayShown};
ghost use Rattle.file_model.specs.Files.{Change, free, holds, staged};
ghost use Rattle.host_journal.specs.Journal.{Journal};
ghost use Rattle.hypervisor.specs.Needing.{HasRoom};
ghost use Rattle.nesc_base.specs.Blocks.{most_in_request};
ghost use Rattle.plain_machine.specs.Functions.{Function};
ghost use Rattle.plain_machine.specs.Given.{is_failed_get, is_failed_read};
ghost use Rattle.plain_machine.specs.Handlings.{FindsSpace, Handles};
ghost use Rattle.plain_machine.specs.Misses.{HasNoTrees};
ghost use Rattle.plain_machine.specs.declared.outcome.Outcome.{Outcome as Told};
ghost use Rattle.nesc_session.specs.Buffers.{HasNoRequest, outcome_buffers, queue_buffers};
ghost use Rattle.nesc_session.specs.Requests.{function_of};
ghost use Rattle.nesc_session.specs.Serving.{EndsWithNoSpace, HandlesForAll, HasRoomToHold, IsPlain};

use crate::requests::Requests;
use crate::serving::{end, told};
use file_layer::Files;
use host_journal::Journal;
use nesc_base::{FileNo, FnNo};
use nesc_requests::{End, Kind};
use plain_machine::{Answer, Handled, Outcome};

impl Requests {
    /// How many data blocks a handling will hold, 0 to 64.
    pub fn holdable(&self, file: FileNo, files: &Files) -> u32
        requires layer { IsLayer files.now }
        ensures few { result ≤ most_in_request }
        ensures room { (journal : Journal) → HasRoom journal result
            → HasRoomToHold files.now file.0 self.now.waiting journal }
        ensures asks { IsUsed files.now file.0 → (journal : Journal) → journal.count ≤ journal.geometry.slack
            → HasRoomToHold files.now file.0 self.now.waiting journal → HasRoom journal result }
        ensures need { OfFiles files.now (λ set _. (f : FnNo) (told : Told) (changes : List Change) (new : Function)
            → Handles set f (function_of (Some file) self.now) told changes new
            → FindsSpace (free files.now.geometry.blocks set) set (function_of (Some file) self.now) told.answer
            → result ≡ staged changes) }
    {
        let Some(miss) = self.waiting else {
            return 0;
        };
        match miss.kind {
            Kind::Pruned => 0,
            Kind::Unmapped => files.holdable(file, miss.v, miss.n),
        }
    }

    /// Holds, with zeros, those of the blocks that the function waits for which lie below the file's length and are not
    /// held, as many as there are free data blocks, and it waits no more. Where none is free and the first of them is
    /// wanted, its request ends.
    pub fn handle(
        &mut self,
        f: FnNo,
        file: FileNo,
        files: &mut Files,
        journal: &mut Journal,
    ) -> Outcome
        requires fits { Fits files.old journal.old }
        requires used { IsUsed files.old file.0 }
        requires room { HasRoomToHold files.old file.0 self.old.waiting journal.old }
        ensures handles { HandlesForAll files.old journal.old f file self.old result self.new files.new journal.new }
        ensures plain { IsPlain result }
        ensures no_trees { HasNoTrees result }
        ensures no_get { is_failed_get result.answer ≡ false }
        ensures read { is_failed_read result.reply ≡ false }
        ensures depth { self.new.queue.depth ≡ self.old.queue.depth }
        ensures few { length self.new.queue.requests ≤ length self.old.queue.requests }
        ensures buffers { queue_buffers self.new.queue.requests
            + outcome_buffers result ≡ queue_buffers self.old.queue.requests }
        ensures no_request { HasNoRequest result.answer }
        ensures table { files.new.table ≡ files.old.table }
        ensures division { files.new.geometry ≡ files.old.geometry }
        ensures stays { StayShown files.old journal.old files.new journal.new }
        ensures fits { Fits files.new journal.new }
        ensures goes_on { GoesOn journal.old journal.new }
    {
        let Some(miss) = self.waiting else {
            return told(Answer::Handled(f, Handled::None), None);
        };
        if miss.kind == Kind::Pruned {
            self.rewalk();
            return told(Answer::Handled(f, Handled::Built), None);
        }
        if files.free() == 0 && lacks(files, file, miss.v) {
            return self.end_without_space(f);
        }
        self.rewalk();
        let count = files.hold(journal, file, miss.v, miss.n).count;
        told(Answer::Handled(f, Handled::Held { count }), None)
    }

    // The first request ends, since no data block is free for it.
    fn end_without_space(&mut self, f: FnNo) -> Outcome
        requires waits { is_some self.old.waiting ≡ true }
        ensures ends { EndsWithNoSpace f self.old result self.new }
        ensures no_trees { HasNoTrees result }
    {
        self.waiting = None;
        let answer = Answer::Handled(f, Handled::NoSpace);
        end(&mut self.queue, f, answer, End::NoSpace)
    }
}

// Block `v` of the file lies below its length and is not held.
fn lacks(files: &Files, file: FileNo, v: u32) -> bool
    requires layer { IsLayer files.now }
    ensures { OfFiles files.now (λ set _. result ≡ nat_lt v (file_at set file.0).length
        && not (holds (file_at set file.0) v)) }
{
    v < files.length(file).unwrap_or(0) && files.place(file, v).is_none()
}
