//! Commits and restarts.
ghost use Rattle.std.specs.Prelude.{◌≡◌, ◌≢◌, ◌+◌, ◌<◌, ◌≤◌, ℕ, OnErr, OnOk, IfOk, IsErr};
ghost use Rattle.std.specs.Prelude.{IsErrOf, IsOk, None, Ok, Some, is_some, nat_lt, true};
ghost use Rattle.std.specs.FinMap.{empty};
ghost use Rattle.nesc_base.specs.Blocks.{most_in_request};
ghost use Rattle.nesc_base.specs.Disk.{Goes};
ghost use Rattle.nesc_base.specs.Fault.{HasCause};
ghost use Rattle.host_journal.specs.Committing.{Commits};
ghost use Rattle.host_journal.specs.Journal.{started_anew};
ghost use Rattle.image_layout.specs.declared.fault.ImageFault.{ImageFault};
ghost use Rattle.nesc_session.specs.Resting.{Rests};
ghost use Rattle.nesc_session.specs.Stepping.{DoesOnDisk, HasClock, KeepsFiles, LeavesBoth, LeavesOld, MakesRoom};
ghost use Rattle.nesc_session.specs.Stepping.{TellsMedia, made_room, step_fault_of_load, step_fault_of_start};
ghost use Rattle.nesc_session.specs.Buffers.{HasNoRequest, buffers_in, outcome_buffers};
ghost use Rattle.nesc_session.specs.Serving.{IsPlain};
ghost use Rattle.image_layout.specs.declared.fault.OpenFault.TheVariants.{NoMemory};
ghost use Rattle.nesc_session.specs.declared.fault.StepFault.TheVariants as fault;

use crate::fault::StepFault;
use crate::serving::told;
use crate::session::Session;
use host_journal::StartFault;
use image_layout::{ImageFault, OpenFault};
use nesc_base::{Disk, DiskFault};
use nesc_requests::{Buffers, Event};
use plain_machine::{Answer, Outcome};

impl Session {
    /// Keeps all files as they are now, and answers the disk's clock after that.
    pub(crate) fn commit<D: Disk>(&mut self, disk: &mut D) -> Result<u64, StepFault>
        requires rests { Rests self.old (D.known disk.old) }
        ensures rests { OnOk result (Rests self.new (D.known disk.new)) }
        ensures keeps_files { IfOk result (λ clock.
            KeepsFiles self.old (D.known disk.old) clock self.new (D.known disk.new)) }
        ensures result { OnOk result (self.new ≡ record self.old { journal = started_anew self.old.journal }) }
        ensures setting { self.new.setting ≡ self.old.setting }
        ensures commits { IfOk result (λ clock. Commits self.old.journal.geometry self.old.journal.staged
            (D.known disk.old) (D.known disk.new) (Ok clock)) }
        ensures clock { IfOk result (λ clock. clock ≡ (D.known disk.new).clock) }
        ensures unasked { self.old.journal.staged ≡ empty → IsOk result × (disk.new ≡ disk.old) }
        ensures leaves { LeavesBoth self.old (D.known disk.old) (D.known disk.new) }
        ensures cause { HasCause (D.known disk.old).faults (D.known disk.new).faults (IsErr result) }
        ensures kind { OnErr result (IsErrOf result (fault.Disk _)) }
        ensures goes { Goes (D.known disk.old) (D.known disk.new) }
        ensures keeps { D.keeps disk.old disk.new }
    {
        self.journal.commit(disk).map_err(StepFault::Disk)
    }

    /// Makes a commit if the journal has no room for so many data blocks, 0 to 64, and answers the clock of that.
    pub(crate) fn make_room<D: Disk>(
        &mut self,
        disk: &mut D,
        need: u32,
    ) -> Result<Option<u64>, StepFault>
        requires rests { Rests self.old (D.known disk.old) }
        requires few { need ≤ most_in_request }
        ensures rests { OnOk result (Rests self.new (D.known disk.new)) }
        ensures room { OnOk result (self.new.journal.count + need ≤ self.new.journal.geometry.slack) }
        ensures due { IfOk result (λ clock.
            is_some clock ≡ nat_lt self.old.setting.geometry.slack (self.old.journal.count + need)) }
        ensures committed { IfOk result (λ clock.
            MakesRoom self.old (D.known disk.old) clock self.new (D.known disk.new)) }
        ensures result { IfOk result (λ clock. self.new ≡ made_room clock self.old) }
        ensures setting { self.new.setting ≡ self.old.setting }
        ensures none { IfOk result (λ clock. clock ≡ None → disk.new ≡ disk.old) }
        ensures clock { IfOk result (λ made. (clock : ℕ) → made ≡ Some clock
            → HasClock D.known self.old disk.old clock disk.new) }
        ensures leaves { LeavesBoth self.old (D.known disk.old) (D.known disk.new) }
        ensures short { IsErr result → self.old.setting.geometry.slack < self.old.journal.count + need }
        ensures cause { HasCause (D.known disk.old).faults (D.known disk.new).faults (IsErr result) }
        ensures kind { OnErr result (IsErrOf result (fault.Disk _)) }
        ensures goes { Goes (D.known disk.old) (D.known disk.new) }
        ensures keeps { D.keeps disk.old disk.new }
    {
        if need <= self.journal.room() {
            return Ok(None);
        }
        Ok(Some(self.commit(disk)?))
    }

    /// Starts again from what the disk has kept: all functions are off, their requests are gone, and the buffers of
    /// these are spare.
    pub(crate) fn restart<D: Disk>(
        &mut self,
        disk: &mut D,
        spare: &mut Buffers,
    ) -> Result<Outcome, StepFault>
        requires rests { Rests self.old (D.known disk.old) }
        requires room { buffers_in self.old spare.old ≤ spare.old.room }
        ensures rests { OnOk result (Rests self.new (D.known disk.new)) }
        ensures buffers { IfOk result (λ outcome.
            buffers_in self.new spare.new + outcome_buffers outcome ≡ buffers_in self.old spare.old) }
        ensures no_request { IfOk result (λ outcome. HasNoRequest outcome.answer) }
        ensures room { spare.new.room ≡ spare.old.room }
        ensures does { DoesOnDisk self.old (D.known disk.old) Event.Restart result self.new (D.known disk.new) }
        ensures plain { IfOk result IsPlain }
        ensures media { IfOk result (λ outcome. ¬ TellsMedia outcome) }
        ensures setting { self.new.setting ≡ self.old.setting }
        ensures leaves { LeavesOld self.old (D.known disk.old) (D.known disk.new) }
        ensures cause { HasCause (D.known disk.old).faults (D.known disk.new).faults (IsErrOf result (fault.Disk _)) }
        ensures opens { (D.known disk.old).tells ≡ true → (image : ImageFault) → ¬ IsErrOf result (fault.Image image) }
        ensures goes { Goes (D.known disk.old) (D.known disk.new) }
        ensures keeps { D.keeps disk.old disk.new }
    {
        self.journal.start(disk).map_err(start_fault)?;
        self.files.load(&self.journal, disk).map_err(load_fault)?;
        self.attachments.clear();
        for requests in self.requests.iter_mut() {
            requests.clear(spare);
        }
        self.last = 0;
        Ok(told(Answer::Restarted, None))
    }
}

// Why the journal could not be started again.
fn start_fault(start: StartFault) -> StepFault
    ensures { result ≡ step_fault_of_start start }
{
    match start {
        StartFault::Disk(disk) => StepFault::Disk(disk),
        StartFault::BadList { block } => StepFault::Image(ImageFault::BadList { block }),
    }
}

// Why the files could not be loaded again. Loading takes no memory.
fn load_fault(load: OpenFault) -> StepFault
    requires memory { load ≢ NoMemory }
    ensures { result ≡ step_fault_of_load load }
{
    match load {
        OpenFault::Image(image) => StepFault::Image(image),
        OpenFault::Disk(disk) => StepFault::Disk(disk),
        OpenFault::NoMemory => StepFault::Disk(DiskFault),
    }
}
