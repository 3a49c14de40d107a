ghost use Rattle.std.specs.Prelude.{◌≡◌, ◌≢◌, ◌⊎◌, ◌||◌, ◌+◌, ◌<◌, ◌≤◌, ℕ, List, [], length};
ghost use Rattle.std.specs.Prelude.{IfErr, IfOk, IfSome, IfNone, IsErr, IsErrOf, IsOk};
ghost use Rattle.std.specs.Prelude.{IsOkAnd, OnErr, OnOk, false, None, Some, is_some, true};
ghost use Rattle.std.specs.FinMap.{empty};
ghost use Rattle.nesc_base.specs.Blocks.{most_in_request};
ghost use Rattle.nesc_base.specs.declared.block.Block.{Block};
ghost use Rattle.nesc_base.specs.Disk.{Goes, Unchanged};
ghost use Rattle.nesc_base.specs.Fault.{HasCause};
ghost use Rattle.nesc_requests.specs.Script.{IsWithinLimits, MayAsk};
ghost use Rattle.nesc_requests.specs.declared.host.HostAnswer.TheVariants as said;
ghost use Rattle.file_layer.specs.Changing.{GoesOn};
ghost use Rattle.file_layer.specs.Knowing.{OfFiles};
ghost use Rattle.file_layer.specs.Layer.{Fits, IsLayer};
ghost use Rattle.file_layer.specs.Showing.{StayShown};
ghost use Rattle.file_model.specs.Files.{Change, free, staged};
ghost use Rattle.host_journal.specs.Journal.{Journal as Staging};
ghost use Rattle.hypervisor.specs.Attachments.{file_of};
ghost use Rattle.hypervisor.specs.Carrying.{IsForHost, spent_buffers};
ghost use Rattle.hypervisor.specs.Needing.{HasRoom, HasRoomToDo};
ghost use Rattle.image_layout.specs.declared.fault.ImageFault.{ImageFault};
ghost use Rattle.plain_machine.specs.Functions.{Function, function_at, next_runnable, queue_of};
ghost use Rattle.plain_machine.specs.Handlings.{FindsSpace, Handles};
ghost use Rattle.plain_machine.specs.HostCommands.{RegsStep, kind_number};
ghost use Rattle.plain_machine.specs.Machine.{Does, need, needed_by_tick};
ghost use Rattle.plain_machine.specs.Misses.{HasNoTrees};
ghost use Rattle.plain_machine.specs.Placing.{Placed};
ghost use Rattle.plain_machine.specs.State.{State};
ghost use Rattle.plain_machine.specs.declared.outcome.Outcome.{Outcome as Told};
ghost use Rattle.nesc_requests.specs.Buffers.{answer_buffers, command_buffers, event_buffers, request_buffers};
ghost use Rattle.nesc_session.specs.Buffers.{HandsBack, HasNoRequest, buffers_in};
ghost use Rattle.nesc_session.specs.Buffers.{outcome_buffers, returned, waiting_buffers};
ghost use Rattle.nesc_session.specs.Resting.{IsIn, IsSession, Rests, Stands, functions_in};
ghost use Rattle.nesc_session.specs.Serving.{IsPlain};
ghost use Rattle.nesc_session.specs.Stepping.{AsksOnDisk, CommitsFor, DoesAnswer, DoesInMemory, DoesOnDisk};
ghost use Rattle.nesc_session.specs.Stepping.{FlushesFirst, HasClocks, HasRoomFor, IsQuiet, KeepsFilesAsTheyAre};
ghost use Rattle.nesc_session.specs.Stepping.{KeepsFor, LeavesBoth, LeavesBy, MayStep, Steps, TellsMedia};
ghost use Rattle.nesc_session.specs.declared.fault.StepFault.TheVariants as fault;

use crate::fault::StepFault;
use crate::functions::{next_index, pending, queued};
use crate::requests::Requests;
use crate::serving::told;
use file_layer::Files;
use host_journal::Journal;
use hypervisor::Attachments;
use nesc_base::{Blocks, Disk, FileNo, FnNo};
use nesc_requests::{Buffers, Event, HostAnswer, HostCommand, Kind, Request};
use plain_machine::{Answer, Handled, Outcome, Setting};

/// The machine while it runs over a disk: its files, and its functions.
#[derive(Drop)]
pub struct Session {
    pub(crate) setting: Setting,
    pub(crate) files: Files,
    pub(crate) journal: Journal,
    pub(crate) attachments: Attachments,
    pub(crate) requests: Vec<Requests>,
    // the number of the function that was taken last, or 0
    pub(crate) last: u8,
}

impl Session {
    /// Takes one step, and tells what it came to. The session goes with this disk, as `begin` and each `Ok` of this
    /// call leave it.
    ///
    /// `Disk` says that the disk failed in a commit or a restart, and `Image` that a restart read what opens as no
    /// files, which a disk that tells what it holds never does. The disk has to be opened again then: what a stop
    /// leaves opens as the files that were kept before, or as those that the commit keeps that the step makes.
    ///
    /// The buffer of a `put`, of a `get` that is refused, and of each request that a restart drops are spare after an
    /// `Ok`.
    pub fn step<D: Disk>(
        &mut self,
        disk: &mut D,
        spare: &mut Buffers,
        event: Event,
    ) -> Result<Outcome, StepFault>
        requires rests { Rests self.old (D.known disk.old) }
        requires may { MayStep event }
        requires room { buffers_in self.old spare.old + event_buffers event ≤ spare.old.room }
        ensures rests { OnOk result (Rests self.new (D.known disk.new)) }
        ensures steps { Steps self.old (D.known disk.old) event result self.new (D.known disk.new) }
        ensures setting { self.new.setting ≡ self.old.setting }
        ensures buffers { IfOk result (λ outcome. buffers_in self.new spare.new
            + outcome_buffers outcome ≡ buffers_in self.old spare.old + event_buffers event) }
        ensures back { IfOk result (λ outcome. HandsBack event outcome.answer) }
        ensures room { spare.new.room ≡ spare.old.room }
        ensures clocks { IfOk result (λ outcome. HasClocks D.known self.old disk.old outcome disk.new) }
        ensures leaves { LeavesBy (CommitsFor self.old event) self.old (D.known disk.old) (D.known disk.new) }
        ensures still { (CommitsFor self.old event → ⊥) → event ≢ Event.Restart
            → Unchanged (D.known disk.old) (D.known disk.new) }
        ensures unasked { self.old.journal.staged ≡ empty → KeepsFor self.old event
            → IsOk result × (disk.new ≡ disk.old) }
        ensures quiet { IfOk result (λ outcome. (CommitsFor self.old event → ⊥)
            → (outcome.before ≡ None) × (outcome.after ≡ None)) }
        ensures asks { IfErr result (λ _. AsksOnDisk self.old (D.known disk.old) event) }
        ensures media { HasCause (D.known disk.old).faults (D.known disk.new).faults (IsOkAnd result TellsMedia) }
        ensures cause { HasCause (D.known disk.old).faults (D.known disk.new).faults (IsErrOf result (fault.Disk _)) }
        ensures asked { IsErr result → CommitsFor self.old event ⊎ (event ≡ Event.Restart) }
        ensures image { (image : ImageFault) → IsErrOf result (fault.Image image) → event ≡ Event.Restart }
        ensures opens { (D.known disk.old).tells ≡ true → (image : ImageFault) → ¬ IsErrOf result (fault.Image image) }
        ensures goes { Goes (D.known disk.old) (D.known disk.new) }
        ensures keeps { D.keeps disk.old disk.new }
    {
        let before = self.make_room(disk, self.needs(&event))?;
        let outcome = self.take(disk, spare, event)?;
        Ok(Outcome { before, ..outcome })
    }

    /// Whether the step for this event makes a commit, before it or in it.
    pub fn commits_for(&self, event: &Event) -> bool
        requires session { IsSession self.now }
        requires fits { Fits self.now.files self.now.journal }
        requires may { MayStep event.now }
        ensures yes { result ≡ true → CommitsFor self.now event.now }
        ensures no { result ≡ false
            → HasRoomFor self.now event.now self.now.journal × (KeepsFor self.now event.now → ⊥) }
    {
        self.needs(event) > self.journal.room() || self.keeps_files(event)
    }

    /// How many data blocks are free, 0 to 65,536.
    pub fn free(&self) -> u32
        requires layer { IsLayer self.now.files }
        ensures { (kept : List Block) (state : State) (placed : Placed) → Stands self.now kept state placed
            → result ≡ free self.now.files.geometry.blocks state.now }
    {
        self.files.free()
    }

    /// How many requests wait for a function, 0 to 64. For one that is off, or is none, that is 0.
    pub fn queued(&self, f: FnNo) -> u32
        requires session { IsSession self.now }
        ensures { (kept : List Block) (state : State) (placed : Placed) → Stands self.now kept state placed
            → result ≡ length (queue_of (function_at state.functions f.0)) }
    {
        match self.attached(f) {
            Some((index, _)) => self.requests[index].queue.len(),
            None => 0,
        }
    }

    // Whether the event is a flush or a `sync`.
    fn keeps_files(&self, event: &Event) -> bool
        requires session { IsSession self.now }
        ensures yes { result ≡ true → KeepsFor self.now event.now }
        ensures no { result ≡ false → KeepsFor self.now event.now → ⊥ }
    {
        match event {
            Event::Host(HostCommand::Sync) => true,
            Event::Tick => match next_index(&self.requests, self.last) {
                Some(index) => self.requests[index].starts_with_flush(),
                None => false,
            },
            _ => false,
        }
    }

    // For how many data blocks an event needs room, 0 to 64.
    fn needs(&self, event: &Event) -> u32
        requires session { IsSession self.now }
        requires layer { IsLayer self.now.files }
        requires may { MayStep event.now }
        ensures few { result ≤ most_in_request }
        ensures room { (journal : Staging) → HasRoom journal result → HasRoomFor self.now event.now journal }
        ensures asks { (journal : Staging) → journal.count ≤ journal.geometry.slack
            → HasRoomFor self.now event.now journal → HasRoom journal result }
        ensures need { (kept : List Block) (state : State) (placed : Placed) → Stands self.now kept state placed
            → (changes : List Change) (outcome : Told) (next : State) →
            Does self.now.setting state event.now changes outcome next
            → result ≡ need state event.now changes }
    {
        match event {
            Event::Tick => self.needs_of_tick(),
            Event::Host(command) => hypervisor::needs(&self.files, command),
            Event::Handle(f) => self.needs_of_handling(*f),
            _ => 0,
        }
    }

    // A tick stages a block where the function that is next has a write first.
    fn needs_of_tick(&self) -> u32
        requires session { IsSession self.now }
        ensures few { result ≤ 1 }
        ensures need { result ≡ needed_by_tick (functions_in self.now)
            (next_runnable (functions_in self.now) self.now.last) }
    {
        match next_index(&self.requests, self.last) {
            Some(index) if self.requests[index].starts_with_write() => 1,
            _ => 0,
        }
    }

    // A handling stages the blocks that it will hold.
    fn needs_of_handling(&self, f: FnNo) -> u32
        requires session { IsSession self.now }
        requires layer { IsLayer self.now.files }
        ensures few { result ≤ most_in_request }
        ensures room { (journal : Staging) → HasRoom journal result → HasRoomFor self.now (Event.Handle f) journal }
        ensures asks { (journal : Staging) → journal.count ≤ journal.geometry.slack
            → HasRoomFor self.now (Event.Handle f) journal → HasRoom journal result }
        ensures need { OfFiles self.now.files (λ set _. (told : Told) (changes : List Change) (new : Function)
            → Handles set f (function_at (functions_in self.now) f.0) told changes new
            → FindsSpace (free self.now.files.geometry.blocks set) set
            (function_at (functions_in self.now) f.0) told.answer → result ≡ staged changes) }
    {
        match self.attached(f) {
            Some((index, file)) => self.requests[index].holdable(file, &self.files),
            None => 0,
        }
    }

    // At which index the function of a number stands, and its file, where it has one.
    fn attached(&self, f: FnNo) -> Option<(usize, FileNo)>
        requires session { IsSession self.now }
        ensures some { IfSome result (λ found. (found.0 < length self.now.requests.items) × (f.0 ≡ found.0 + 1)
            × (file_of self.now.attachments f.0 ≡ Some found.1)) }
        ensures none { IfNone result (file_of self.now.attachments f.0 ≡ None) }
    {
        let file = self.attachments.file(f)?;
        Some((usize::from(f.0) - 1, file))
    }

    // Does what the event asks for, once there is room for it.
    fn take<D: Disk>(
        &mut self,
        disk: &mut D,
        spare: &mut Buffers,
        event: Event,
    ) -> Result<Outcome, StepFault>
        requires rests { Rests self.old (D.known disk.old) }
        requires may { MayStep event }
        requires room { HasRoomFor self.old event self.old.journal }
        requires spare { buffers_in self.old spare.old + event_buffers event ≤ spare.old.room }
        ensures buffers { IfOk result (λ outcome. buffers_in self.new spare.new
            + outcome_buffers outcome ≡ buffers_in self.old spare.old + event_buffers event) }
        ensures back { IfOk result (λ outcome. HandsBack event outcome.answer) }
        ensures room { spare.new.room ≡ spare.old.room }
        ensures rests { OnOk result (Rests self.new (D.known disk.new)) }
        ensures does { DoesOnDisk self.old (D.known disk.old) event result self.new (D.known disk.new) }
        ensures before { IfOk result (λ outcome. outcome.before ≡ None) }
        ensures setting { self.new.setting ≡ self.old.setting }
        ensures clock { IfOk result (λ outcome. (clock : ℕ) → outcome.after ≡ Some clock
            → clock ≡ (D.known disk.new).clock) }
        ensures leaves { LeavesBy (KeepsFor self.old event) self.old (D.known disk.old) (D.known disk.new) }
        ensures quiet { IfOk result (λ outcome. (KeepsFor self.old event → ⊥) → outcome.after ≡ None) }
        ensures media { HasCause (D.known disk.old).faults (D.known disk.new).faults (IsOkAnd result TellsMedia) }
        ensures cause { HasCause (D.known disk.old).faults (D.known disk.new).faults (IsErrOf result (fault.Disk _)) }
        ensures asked { IsErr result → KeepsFor self.old event ⊎ (event ≡ Event.Restart) }
        ensures image { (image : ImageFault) → IsErrOf result (fault.Image image) → event ≡ Event.Restart }
        ensures still { (KeepsFor self.old event → ⊥) → event ≢ Event.Restart
            → Unchanged (D.known disk.old) (D.known disk.new) }
        ensures unasked { self.old.journal.staged ≡ empty → KeepsFor self.old event
            → IsOk result × (disk.new ≡ disk.old) }
        ensures opens { (D.known disk.old).tells ≡ true → (image : ImageFault) → ¬ IsErrOf result (fault.Image image) }
        ensures goes { Goes (D.known disk.old) (D.known disk.new) }
        ensures keeps { D.keeps disk.old disk.new }
    {
        match event {
            Event::Tick => self.tick(disk),
            Event::Submit(f, request) => Ok(told(self.submit(f, request), None)),
            Event::Host(HostCommand::Sync) => self.sync(disk),
            Event::Host(HostCommand::Regs { f }) => Ok(told(Answer::Host(self.regs(f)), None)),
            Event::Host(command) => Ok(told(
                Answer::Host(self.carry_out(disk, spare, command)),
                None,
            )),
            Event::Handle(f) => Ok(self.handle(f)),
            Event::Prune(f) => Ok(told(Answer::Pruned(f), None)),
            Event::PruneAt(f, _) => Ok(told(Answer::PrunedAt(f, None), None)),
            Event::Evict => Ok(told(Answer::Evicted, None)),
            Event::Restart => self.restart(disk, spare),
        }
    }

    // The device serves the next function, if one can be served.
    fn tick<D: Disk>(&mut self, disk: &mut D) -> Result<Outcome, StepFault>
        requires rests { Rests self.old (D.known disk.old) }
        requires room { HasRoomFor self.old Event.Tick self.old.journal }
        ensures rests { OnOk result (Rests self.new (D.known disk.new)) }
        ensures buffers { IfOk result (λ outcome. waiting_buffers self.new.requests.items
            + outcome_buffers outcome ≡ waiting_buffers self.old.requests.items) }
        ensures no_request { IfOk result (λ outcome. HasNoRequest outcome.answer) }
        ensures does { DoesOnDisk self.old (D.known disk.old) Event.Tick result self.new (D.known disk.new) }
        ensures before { IfOk result (λ outcome. outcome.before ≡ None) }
        ensures setting { self.new.setting ≡ self.old.setting }
        ensures clock { IfOk result (λ outcome. (clock : ℕ) → outcome.after ≡ Some clock
            → clock ≡ (D.known disk.new).clock) }
        ensures leaves { LeavesBy (KeepsFor self.old Event.Tick) self.old (D.known disk.old) (D.known disk.new) }
        ensures quiet { IfOk result (λ outcome. (KeepsFor self.old Event.Tick → ⊥) → outcome.after ≡ None) }
        ensures media { HasCause (D.known disk.old).faults (D.known disk.new).faults (IsOkAnd result TellsMedia) }
        ensures cause { HasCause (D.known disk.old).faults (D.known disk.new).faults (IsErrOf result (fault.Disk _)) }
        ensures asked { IsErr result → KeepsFor self.old Event.Tick }
        ensures still { (KeepsFor self.old Event.Tick → ⊥) → Unchanged (D.known disk.old) (D.known disk.new) }
        ensures unasked { self.old.journal.staged ≡ empty → KeepsFor self.old Event.Tick
            → IsOk result × (disk.new ≡ disk.old) }
        ensures kind { OnErr result (IsErrOf result (fault.Disk _)) }
        ensures goes { Goes (D.known disk.old) (D.known disk.new) }
        ensures keeps { D.keeps disk.old disk.new }
    {
        let Some(index) = next_index(&self.requests, self.last) else {
            return Ok(told(Answer::Idle, None));
        };
        let f = FnNo(index as u8 + 1);
        if self.requests[index].starts_with_flush() {
            return self.flush(disk, f, index);
        }
        let Some(file) = self.attachments.file(f) else {
            return Ok(told(Answer::Idle, None));
        };
        self.last = f.0;
        let requests = &mut self.requests[index];
        Ok(requests.serve(f, file, &self.files, &mut self.journal, disk))
    }

    // Keeps all files for the function at an index, whose first request is a flush.
    fn flush<D: Disk>(&mut self, disk: &mut D, f: FnNo, index: usize) -> Result<Outcome, StepFault>
        requires rests { Rests self.old (D.known disk.old) }
        requires next { next_runnable (functions_in self.old) self.old.last ≡ Some f.0 }
        requires index { f.0 ≡ index + 1 }
        requires within { index < length self.old.requests.items }
        requires flush { FlushesFirst self.old f.0 }
        ensures rests { OnOk result (Rests self.new (D.known disk.new)) }
        ensures buffers { IfOk result (λ outcome. waiting_buffers self.new.requests.items
            + outcome_buffers outcome ≡ waiting_buffers self.old.requests.items) }
        ensures no_request { IfOk result (λ outcome. HasNoRequest outcome.answer) }
        ensures does { DoesOnDisk self.old (D.known disk.old) Event.Tick result self.new (D.known disk.new) }
        ensures before { IfOk result (λ outcome. outcome.before ≡ None) }
        ensures setting { self.new.setting ≡ self.old.setting }
        ensures clock { IfOk result (λ outcome. (clock : ℕ) → outcome.after ≡ Some clock
            → clock ≡ (D.known disk.new).clock) }
        ensures leaves { LeavesBoth self.old (D.known disk.old) (D.known disk.new) }
        ensures media { IfOk result (λ outcome. ¬ TellsMedia outcome) }
        ensures cause { HasCause (D.known disk.old).faults (D.known disk.new).faults (IsErr result) }
        ensures unasked { self.old.journal.staged ≡ empty → IsOk result × (disk.new ≡ disk.old) }
        ensures kind { OnErr result (IsErrOf result (fault.Disk _)) }
        ensures goes { Goes (D.known disk.old) (D.known disk.new) }
        ensures keeps { D.keeps disk.old disk.new }
    {
        let clock = self.commit(disk)?;
        self.last = f.0;
        Ok(self.requests[index].end_flush(f, clock))
    }

    // Keeps all files for the host.
    fn sync<D: Disk>(&mut self, disk: &mut D) -> Result<Outcome, StepFault>
        requires rests { Rests self.old (D.known disk.old) }
        ensures rests { OnOk result (Rests self.new (D.known disk.new)) }
        ensures buffers { IfOk result (λ outcome. waiting_buffers self.new.requests.items
            + outcome_buffers outcome ≡ waiting_buffers self.old.requests.items) }
        ensures no_request { IfOk result (λ outcome. HasNoRequest outcome.answer) }
        ensures does { DoesOnDisk self.old (D.known disk.old)
            (Event.Host HostCommand.Sync) result self.new (D.known disk.new) }
        ensures before { IfOk result (λ outcome. outcome.before ≡ None) }
        ensures setting { self.new.setting ≡ self.old.setting }
        ensures clock { IfOk result (λ outcome. (clock : ℕ) → outcome.after ≡ Some clock
            → clock ≡ (D.known disk.new).clock) }
        ensures leaves { LeavesBoth self.old (D.known disk.old) (D.known disk.new) }
        ensures media { IfOk result (λ outcome. ¬ TellsMedia outcome) }
        ensures cause { HasCause (D.known disk.old).faults (D.known disk.new).faults (IsErr result) }
        ensures unasked { self.old.journal.staged ≡ empty → IsOk result × (disk.new ≡ disk.old) }
        ensures kind { OnErr result (IsErrOf result (fault.Disk _)) }
        ensures goes { Goes (D.known disk.old) (D.known disk.new) }
        ensures keeps { D.keeps disk.old disk.new }
    {
        let clock = self.commit(disk)?;
        Ok(Outcome {
            after: Some(clock),
            ..told(Answer::Host(HostAnswer::Ok), None)
        })
    }

    // A guest hands a request to its function.
    fn submit(&mut self, f: FnNo, request: Request) -> Answer
        requires session { IsSession self.old }
        requires may { MayAsk request }
        ensures session { IsSession self.new }
        ensures does { DoesInMemory self.old (Event.Submit f request)
            (record { before = None; answer = result; drops = 0; built = None; after = None; reply = None }) self.new }
        ensures buffers { waiting_buffers self.new.requests.items
            + returned result ≡ waiting_buffers self.old.requests.items + request_buffers request }
        ensures back { HandsBack (Event.Submit f request) result }
        ensures no_trees { IsQuiet result }
        ensures parts { KeepsFilesAsTheyAre self.old self.new }
    {
        match self.attached(f) {
            None => Answer::Off(request),
            Some((index, _)) => self.requests[index].submit(request),
        }
    }

    // Reads the registers of a function.
    fn regs(&self, f: FnNo) -> HostAnswer
        requires session { IsSession self.now }
        requires layer { IsLayer self.now.files }
        ensures answers { OfFiles self.now.files (λ set _. RegsStep set (functions_in self.now) f.0 result) }
        ensures buffers { answer_buffers result ≡ 0 }
        ensures read { result ≢ said.Media }
    {
        let Some((index, file)) = self.attached(f) else {
            return HostAnswer::NotAttached;
        };
        let size = self.files.length(file).unwrap_or(0);
        let (block, count, kind) = match self.requests[index].waiting {
            None => (0, 0, 0),
            Some(miss) => (miss.v, miss.n, kind_number(miss.kind)),
        };
        HostAnswer::Regs {
            size,
            block,
            count,
            kind,
            pending: pending(&self.requests),
        }
    }

    // Does what the host asks for, if it can: any command but a `sync` and the reading of registers.
    fn carry_out<D: Disk>(
        &mut self,
        disk: &mut D,
        spare: &mut Buffers,
        command: HostCommand,
    ) -> HostAnswer
        requires rests { Rests self.old (D.known disk.old) }
        requires within { IsWithinLimits command }
        requires here { IsForHost command }
        requires room { HasRoomToDo self.old.files command self.old.journal }
        requires spare { spare.old.count + command_buffers command ≤ spare.old.room }
        ensures rests { Rests self.new (D.known disk.new) }
        ensures does { DoesAnswer self.old (D.known disk.old) (Event.Host command)
            (Answer.Host result) self.new (D.known disk.new) }
        ensures requests { self.new.requests ≡ self.old.requests }
        ensures buffers { spare.new.count + answer_buffers result ≡ spare.old.count + command_buffers command }
        ensures room { spare.new.room ≡ spare.old.room }
        ensures setting { self.new.setting ≡ self.old.setting }
        ensures cause { HasCause (D.known disk.old).faults (D.known disk.new).faults (result ≡ said.Media) }
        ensures unchanged { Unchanged (D.known disk.old) (D.known disk.new) }
        ensures goes { Goes (D.known disk.old) (D.known disk.new) }
        ensures keeps { D.keeps disk.old disk.new }
    {
        let queued = queued(&self.requests);
        let attachments = &mut self.attachments;
        let done = hypervisor::command(
            attachments,
            &mut self.files,
            &mut self.journal,
            disk,
            queued,
            command,
        );
        give_spent(spare, done.spent);
        done.answer
    }

    // The host does what a function waits for.
    fn handle(&mut self, f: FnNo) -> Outcome
        requires session { IsSession self.old }
        requires fits { Fits self.old.files self.old.journal }
        requires room { HasRoomFor self.old (Event.Handle f) self.old.journal }
        ensures session { IsSession self.new }
        ensures does { DoesInMemory self.old (Event.Handle f) result self.new }
        ensures plain { IsPlain result }
        ensures buffers { waiting_buffers self.new.requests.items
            + outcome_buffers result ≡ waiting_buffers self.old.requests.items }
        ensures no_request { HasNoRequest result.answer }
        ensures no_trees { HasNoTrees result }
        ensures media { ¬ TellsMedia result }
        ensures setting { self.new.setting ≡ self.old.setting }
        ensures stays { StayShown self.old.files self.old.journal self.new.files self.new.journal }
        ensures fits { Fits self.new.files self.new.journal }
        ensures goes_on { GoesOn self.old.journal self.new.journal }
    {
        let Some((index, file)) = self.attached(f) else {
            return told(Answer::Handled(f, Handled::None), None);
        };
        self.requests[index].handle(f, file, &mut self.files, &mut self.journal)
    }
}

// The blocks that a command is done with, if it had any, are spare.
fn give_spent(spare: &mut Buffers, spent: Option<Blocks>)
    requires room { spare.old.count + spent_buffers spent ≤ spare.old.room }
    ensures count { spare.new.count ≡ spare.old.count + spent_buffers spent }
    ensures room { spare.new.room ≡ spare.old.room }
{
    if let Some(buffer) = spent {
        spare.give(buffer);
    }
}

// Why a function waits, as a register shows it.
fn kind_number(kind: Kind) -> u32
    ensures { result ≡ kind_number kind }
{
    match kind {
        Kind::Pruned => 1,
        Kind::Unmapped => 2,
    }
}
