//! A word of the schedule draws an event, if there is one, which makes one step, and its lines are written.
ghost use Rattle.std.specs.Prelude.{◌≡◌, ◌+◌, ◌≤◌, ◌⊎◌, [], List, true, false, IfNone, IfSome, IsErr, IsErrOf, OnOk};
ghost use Rattle.nesc_base.specs.declared.block.Block.{Block};
ghost use Rattle.nesc_base.specs.Disk.{Goes};
ghost use Rattle.nesc_base.specs.Fault.{HasCause};
ghost use Rattle.nesc_base.specs.Sink.{Grows};
ghost use Rattle.file_layer.specs.Layer.{Fits};
ghost use Rattle.nesc_requests.specs.Buffers.{event_buffers};
ghost use Rattle.plain_machine.specs.Draws.{event_of, without_drawn};
ghost use Rattle.plain_machine.specs.Placing.{Placed};
ghost use Rattle.plain_machine.specs.State.{State};
ghost use Rattle.nesc_session.specs.Buffers.{outcome_buffers};
ghost use Rattle.nesc_session.specs.Resting.{IsIn, IsSession, Rests};
ghost use Rattle.nesc_session.specs.Stepping.{MayStep};
ghost use Rattle.nesc_session.specs.declared.fault.StepFault.TheVariants as step;
ghost use Rattle.text_kit.specs.Buffered.{lent_name, pending_of, shown, sink_of};
ghost use Rattle.text_kit.specs.Known.{Keeps};
ghost use Rattle.nesc_monitor.specs.Steps.{ChangesNothing, ComesBack, ComesOfWord, IsUnderWay};
ghost use Rattle.nesc_monitor.specs.Steps.{MayGiveBack, RunsBy, out_of, with_back};
ghost use Rattle.nesc_monitor.specs.declared.fault.RunFault.TheVariants as run;

use crate::fault::RunFault;
use nesc_base::{Disk, Sink, WriteFault};
use nesc_requests::{Buffers, Event, HostAnswer, Word};
use nesc_session::{Answer, Outcome, Session};
use script_lang::{Commands, Schedule};
use text_kit::Buffered;
use trace_text::{write_done, write_end, write_step};

/// The event that a word draws, or `None` where the host or the guest whose turn it is has nothing left to give.
fn draw(commands: &mut Commands, spare: &mut Buffers, word: Word) -> Option<Event>
    requires some { 1 ≤ spare.old.count }
    ensures event { result ≡ event_of commands.old.script word }
    ensures rest { IfSome result (λ event. commands.new.script ≡ without_drawn commands.old.script event) }
    ensures buffers { IfSome result (λ event.
        spare.new.count + commands.new.kept + event_buffers event ≡ spare.old.count + commands.old.kept) }
    ensures none { IfNone result ((commands.new ≡ commands.old) × (spare.new ≡ spare.old)) }
    ensures out { IfSome result (λ event. MayGiveBack commands.new event) }
    ensures fits { IfSome result MayStep }
    ensures few { commands.old.kept ≤ commands.old.script.machine.functions
        → commands.new.kept ≤ commands.new.script.machine.functions }
    ensures room { spare.new.room ≡ spare.old.room }
{
    match word {
        Word::T => Some(Event::Tick),
        Word::G(f) => Some(Event::Submit(f, commands.take_guest(f, spare)?)),
        Word::H => Some(Event::Host(commands.take_host(spare)?)),
        Word::I(f) => Some(Event::Handle(f)),
        Word::P(f) => Some(Event::Prune(f)),
        Word::PAt(f, v) => Some(Event::PruneAt(f, v)),
        Word::E => Some(Event::Evict),
        Word::X => Some(Event::Restart),
    }
}

/// Gives a request that came back to its guest again, and lets the buffers of what was answered serve again.
fn hand_back(commands: &mut Commands, spare: &mut Buffers, word: Word, outcome: Outcome)
    requires back { ComesBack commands.old word outcome.answer }
    requires few { commands.old.kept ≤ commands.old.script.machine.functions }
    requires room { spare.old.count + outcome_buffers outcome ≤ spare.old.room }
    ensures script { commands.new.script ≡ with_back commands.old.script word outcome.answer }
    ensures buffers { spare.new.count + commands.new.kept ≡ spare.old.count + commands.old.kept
        + outcome_buffers outcome }
    ensures few { commands.new.kept ≤ commands.new.script.machine.functions }
    ensures room { spare.new.room ≡ spare.old.room }
{
    let Outcome { answer, reply, .. } = outcome;
    if let Some(reply) = reply {
        spare.reuse(reply.request);
    }
    match (word, answer) {
        (Word::G(f), Answer::Off(request) | Answer::Full(request)) => {
            commands.give_back(f, request);
        }
        (_, Answer::Host(HostAnswer::Got(blocks))) => spare.give(blocks),
        _ => {}
    }
}

/// Whether the step for this event may change what the disk keeps: it makes a commit, or is a restart.
fn may_change(session: &Session, event: &Event) -> bool
    requires session { IsSession session.now }
    requires fits { Fits session.now.files session.now.journal }
    requires may { MayStep event.now }
    ensures { result ≡ false → ChangesNothing session.now event.now }
{
    session.commits_for(event) || matches!(event, Event::Restart)
}

/// Hands on all that was told before, where the step for this event may change what the disk keeps.
fn hand_on_before<K: Sink>(
    session: &Session,
    event: &Event,
    buffered: &mut Buffered<'_, K>,
) -> Result<(), WriteFault>
    requires session { IsSession session.now }
    requires fits { Fits session.now.files session.now.journal }
    requires may { MayStep event.now }
    ensures keeps { Keeps (shown K.taken buffered.old) (shown K.taken buffered.new) }
    ensures in_time { OnOk result (ChangesNothing session.now event.now ⊎ (pending_of buffered.new ≡ [])) }
    ensures lent { lent_name buffered.new ≡ lent_name buffered.old }
    ensures grows { Grows (K.taken (sink_of buffered.old)) (K.taken (sink_of buffered.new)) }
    ensures cause { HasCause (K.faults (sink_of buffered.old)) (K.faults (sink_of buffered.new)) (IsErr result) }
{
    if may_change(session, event) {
        return buffered.flush();
    }
    Ok(())
}

/// Takes a word, and then writes its lines. All that was told before is handed on first where the step may change what
/// the disk keeps.
fn take_word<D: Disk, K: Sink>(
    session: &mut Session,
    commands: &mut Commands,
    spare: &mut Buffers,
    word: Word,
    disk: &mut D,
    buffered: &mut Buffered<'_, K>,
) -> Result<(), RunFault>
    requires under_way { IsUnderWay session.old commands.old spare.old (D.known disk.old) }
    ensures under_way { OnOk result (IsUnderWay session.new commands.new spare.new (D.known disk.new)) }
    ensures comes { (D.known disk.old).tells ≡ true
        → (kept : List Block) (state : State) (placed : Placed) → IsIn session.old (D.known disk.old) kept state placed
        → ComesOfWord session.old.setting state placed kept commands.old.script word session.new (D.known disk.old)
        (D.known disk.new) commands.new.script
        (out_of K.taken buffered.old) (out_of K.taken buffered.new) result }
    ensures setting { session.new.setting ≡ session.old.setting }
    ensures rests { IsErrOf result (run.Write _) → Rests session.new (D.known disk.new) }
    ensures grows { Grows (K.taken (sink_of buffered.old)) (K.taken (sink_of buffered.new)) }
    ensures lent { lent_name buffered.new ≡ lent_name buffered.old }
    ensures device { HasCause (D.known disk.old).faults (D.known disk.new).faults
        (IsErrOf result (run.Step (step.Disk _))) }
    ensures write { HasCause (K.faults (sink_of buffered.old)) (K.faults (sink_of buffered.new))
        (IsErrOf result (run.Write _)) }
    ensures goes { Goes (D.known disk.old) (D.known disk.new) }
    ensures keeps { D.keeps disk.old disk.new }
{
    let Some(event) = draw(commands, spare, word) else {
        return Ok(write_end(buffered, word)?);
    };
    hand_on_before(session, &event, buffered)?;
    let outcome = session.step(disk, spare, event)?;
    let told = write_step(buffered, word, &outcome);
    hand_back(commands, spare, word, outcome);
    Ok(told?)
}

/// Takes the words of a schedule and writes the lines of each behind it and `done N` at the end, all of which is handed
/// on.
pub fn take_words<D: Disk, K: Sink>(
    session: &mut Session,
    commands: &mut Commands,
    spare: &mut Buffers,
    schedule: &mut Schedule,
    disk: &mut D,
    buffered: &mut Buffered<'_, K>,
) -> Result<(), RunFault>
    requires under_way { IsUnderWay session.old commands.old spare.old (D.known disk.old) }
    requires empty { pending_of buffered.old ≡ [] }
    ensures runs { (D.known disk.old).tells ≡ true
        → (kept : List Block) (state : State) (placed : Placed) → IsIn session.old (D.known disk.old) kept state placed
        → RunsBy result session.old.setting placed.now state commands.old.script schedule.old
        (D.known disk.old) (D.known disk.new)
        (K.taken (sink_of buffered.old)) (K.taken (sink_of buffered.new)) }
    ensures lent { lent_name buffered.new ≡ lent_name buffered.old }
    ensures device { HasCause (D.known disk.old).faults (D.known disk.new).faults
        (IsErrOf result (run.Step (step.Disk _))) }
    ensures write { HasCause (K.faults (sink_of buffered.old)) (K.faults (sink_of buffered.new))
        (IsErrOf result (run.Write _)) }
    ensures goes { Goes (D.known disk.old) (D.known disk.new) }
    ensures keeps { D.keeps disk.old disk.new }
{
    let steps = u64::from(schedule.steps());
    while let Some(word) = schedule.word() {
        take_word(session, commands, spare, word, disk, buffered)?;
    }
    write_done(buffered, steps)?;
    Ok(buffered.flush()?)
}
