ghost use Rattle.std.specs.Prelude.{◌≡◌, ◌≤◌, Ok, length, IfErr, IfOk, OnOk};
ghost use Rattle.nesc_requests.specs.Machine.{IsMachine};
ghost use Rattle.script_lang.specs.CommandsText.{commands_of};
ghost use Rattle.script_lang.specs.Left.{untouched};
ghost use Rattle.script_lang.specs.Limits.{most_bytes};
ghost use Rattle.script_lang.specs.ScheduleText.{schedule_of};
ghost use Rattle.nesc_monitor.specs.Reading.{GivesAll};
ghost use Rattle.nesc_monitor.specs.Texts.{IsReadWhole, IsRefusal, AreRefusedFor};
ghost use Rattle.nesc_monitor.specs.Texts.{IsTakenFromFront, SaysScript, SaysWords};
ghost use Rattle.nesc_monitor.specs.Watched.{watch};

use crate::ending::Ending;
use crate::reading::{ReadStop, read_text};
use nesc_base::Source;
use script_lang::{
    Commands, InputFault, Limit, MOST_BYTES, Schedule, read_commands, read_schedule,
};
use std::alloc::Global;

/// Why a text is refused that has more bytes than a text may have: it is told as the least such count.
const TOO_LONG: InputFault = InputFault::OverLimit {
    limit: Limit::Text,
    count: MOST_BYTES as i64 + 1,
};

/// The two texts, as they were read.
#[derive(Drop)]
struct Texts {
    commands: Vec<u8>,
    schedule: Vec<u8>,
}

/// What the two texts say, once both are accepted.
#[derive(Drop)]
pub struct Accepted {
    pub commands: Commands,
    pub schedule: Schedule,
}

/// Reads the commands file and then the schedule, each to its end.
fn read_texts<S: Source>(alloc: Global, commands: &mut S, schedule: &mut S) -> Result<Texts, Ending>
    ensures commands { IfOk result (λ texts.
        GivesAll texts.commands.items (S.left commands.old) (S.left commands.new)) }
    ensures schedule { IfOk result (λ texts.
        GivesAll texts.schedule.items (S.left schedule.old) (S.left schedule.new)) }
    ensures within { IfOk result (λ texts. (length texts.commands.items ≤ most_bytes)
        × (length texts.schedule.items ≤ most_bytes)) }
    ensures refused { IfErr result (λ ending. AreRefusedFor ending
        (watch S.left S.faults commands.old commands.new)
        (watch S.left S.faults schedule.old schedule.new)) }
    ensures taken { IsTakenFromFront (watch S.left S.faults commands.old commands.new)
        × IsTakenFromFront (watch S.left S.faults schedule.old schedule.new) }
    ensures never_fall { (S.faults commands.old ≤ S.faults commands.new)
        × (S.faults schedule.old ≤ S.faults schedule.new) }
{
    let commands = match read_text(alloc, commands) {
        Ok(text) => text,
        Err(ReadStop::NoMemory) => return Err(Ending::Memory),
        Err(ReadStop::Fault) => return Err(Ending::Read),
        Err(ReadStop::TooLong) => return Err(Ending::Commands(TOO_LONG)),
    };
    let schedule = match read_text(alloc, schedule) {
        Ok(text) => text,
        Err(ReadStop::NoMemory) => return Err(Ending::Memory),
        Err(ReadStop::Fault) => return Err(Ending::Read),
        Err(ReadStop::TooLong) => return Err(Ending::Schedule(TOO_LONG)),
    };
    Ok(Texts { commands, schedule })
}

/// What the texts say. The commands are judged first.
fn judge(alloc: Global, texts: &Texts) -> Result<Accepted, Ending>
    ensures commands { IfOk result (λ accepted. commands_of texts.now.commands.items ≡ Ok accepted.commands.script) }
    ensures schedule { IfOk result (λ accepted.
        schedule_of accepted.commands.script.machine.functions texts.now.schedule.items ≡ Ok accepted.schedule) }
    ensures untouched { IfOk result (λ accepted. accepted.commands ≡ untouched accepted.commands.script) }
    ensures machine { IfOk result (λ accepted. IsMachine accepted.commands.script.machine) }
    ensures refusal { IfErr result (λ ending. IsRefusal ending texts.now.commands.items texts.now.schedule.items) }
{
    let commands = match read_commands(alloc, &texts.commands) {
        Ok(commands) => commands,
        Err(InputFault::NoMemory) => return Err(Ending::Memory),
        Err(fault) => return Err(Ending::Commands(fault)),
    };
    let functions = commands.machine().functions;
    let schedule = match read_schedule(alloc, &texts.schedule, functions) {
        Ok(schedule) => schedule,
        Err(InputFault::NoMemory) => return Err(Ending::Memory),
        Err(fault) => return Err(Ending::Schedule(fault)),
    };
    Ok(Accepted { commands, schedule })
}

/// Reads the two texts and judges them.
pub fn read_script<S: Source>(
    alloc: Global,
    commands: &mut S,
    schedule: &mut S,
) -> Result<Accepted, Ending>
    ensures commands { IfOk result (λ accepted. SaysScript (S.left commands.old) accepted.commands.script) }
    ensures schedule { IfOk result (λ accepted.
        SaysWords accepted.commands.script.machine.functions (S.left schedule.old) accepted.schedule) }
    ensures read { OnOk result (IsReadWhole (watch S.left S.faults commands.old commands.new)
        × IsReadWhole (watch S.left S.faults schedule.old schedule.new)) }
    ensures untouched { IfOk result (λ accepted. accepted.commands ≡ untouched accepted.commands.script) }
    ensures machine { IfOk result (λ accepted. IsMachine accepted.commands.script.machine) }
    ensures refused { IfErr result (λ ending. AreRefusedFor ending
        (watch S.left S.faults commands.old commands.new)
        (watch S.left S.faults schedule.old schedule.new)) }
    ensures taken { IsTakenFromFront (watch S.left S.faults commands.old commands.new)
        × IsTakenFromFront (watch S.left S.faults schedule.old schedule.new) }
    ensures never_fall { (S.faults commands.old ≤ S.faults commands.new)
        × (S.faults schedule.old ≤ S.faults schedule.new) }
{
    match read_texts(alloc, commands, schedule) {
        Ok(texts) => judge(alloc, &texts),
        Err(ending) => Err(ending),
    }
}
