ghost use Rattle.std.specs.Prelude.{◌≡◌, ◌≢◌, List, None, Some, length, nat_lt, option_map};
ghost use Rattle.nesc_base.specs.declared.block.Block.{Block};
ghost use Rattle.nesc_base.specs.Disk.{Goes, Unchanged};
ghost use Rattle.nesc_base.specs.Fault.{HasCause};
ghost use Rattle.file_layer.specs.Changing.{GoesOn};
ghost use Rattle.file_layer.specs.Layer.{Fits};
ghost use Rattle.file_layer.specs.Showing.{RestsOn, StayShown};
ghost use Rattle.hypervisor.specs.Carrying.{DoesOnDisk, DoesOver, IsForHost, IsSpent};
ghost use Rattle.hypervisor.specs.Carrying.{KeepsUsed, OnlyIdleGo, refusal_of};
ghost use Rattle.hypervisor.specs.Needing.{HasRoomToDo};
ghost use Rattle.hypervisor.specs.Telling.{TellsBlocks, TellsLength};
ghost use Rattle.hypervisor.specs.declared.change.Change.TheVariants.{Nothing};
ghost use Rattle.nesc_requests.specs.Script.{IsWithinLimits};
ghost use Rattle.nesc_requests.specs.declared.host.HostAnswer.TheVariants as said;

use crate::attachments::Attachments;
use crate::change::{Change, HostDone};
use file_layer::{FileFault, Files};
use host_journal::Journal;
use nesc_base::{Blocks, Disk, FnNo, Name};
use nesc_requests::{HostAnswer, HostCommand};

/// Does what the host asks for, if it can, and tells what that changes for a function. A `sync` and the reading of
/// registers are not for this call. `queued` has a bit for each function for which requests wait, the lowest for the
/// first.
///
/// The journal has room for what `needs` says of the command. A command that is refused changes nothing. `Media` says
/// that the disk failed to read.
pub fn command<D: Disk>(
    attachments: &mut Attachments,
    files: &mut Files,
    journal: &mut Journal,
    disk: &mut D,
    queued: u16,
    command: HostCommand,
) -> HostDone
    requires rests { RestsOn files.old journal.old (D.known disk.old) }
    requires within { IsWithinLimits command }
    requires here { IsForHost command }
    requires room { HasRoomToDo files.old command journal.old }
    ensures does { DoesOnDisk (D.known disk.old) attachments.old queued files.old journal.old command result
        attachments.new files.new journal.new }
    ensures spent { IsSpent command result }
    ensures used { KeepsUsed attachments.old files.old attachments.new files.new }
    ensures idle { OnlyIdleGo queued attachments.old attachments.new }
    ensures rests { RestsOn files.new journal.new (D.known disk.new) }
    ensures goes_on { GoesOn journal.old journal.new }
    ensures as_many { length attachments.new ≡ length attachments.old }
    ensures cause { HasCause (D.known disk.old).faults (D.known disk.new).faults (result.answer ≡ said.Media) }
    ensures unchanged { Unchanged (D.known disk.old) (D.known disk.new) }
    ensures goes { Goes (D.known disk.old) (D.known disk.new) }
    ensures keeps { D.keeps disk.old disk.new }
{
    match command {
        HostCommand::Create { name, length } => create(
            attachments,
            files,
            journal,
            queued,
            name,
            length,
        ),
        HostCommand::Delete { name } => delete(attachments, files, journal, queued, &name),
        HostCommand::Resize { name, length } => resize(
            attachments,
            files,
            journal,
            queued,
            &name,
            length,
        ),
        HostCommand::Put { name, v, blocks } => put(
            attachments,
            files,
            journal,
            queued,
            &name,
            v,
            blocks,
        ),
        HostCommand::Map { name, v, n } => map(attachments, files, journal, queued, &name, v, n),
        HostCommand::Get { name, v, into } => get(
            attachments,
            files,
            journal,
            disk,
            queued,
            &name,
            v,
            into,
        ),
        HostCommand::Attach { f, name } => attach(attachments, files, journal, queued, f, &name),
        HostCommand::Detach { f } => detach(attachments, files, journal, queued, f),
        // whoever has the device answers these
        HostCommand::Sync | HostCommand::Regs { .. } => answered(HostAnswer::Ok),
    }
}

// An answer that changes nothing for a function.
fn answered(answer: HostAnswer) -> HostDone
    ensures { result ≡ record { answer = answer; change = Nothing; spent = None } }
{
    HostDone {
        answer,
        change: Change::Nothing,
        spent: None,
    }
}

// An answer to a command whose blocks are spent, which changes nothing for a function.
fn spending(answer: HostAnswer, blocks: Blocks) -> HostDone
    ensures { result ≡ record { answer = answer; change = Nothing; spent = Some blocks } }
{
    HostDone {
        answer,
        change: Change::Nothing,
        spent: Some(blocks),
    }
}

// How a call on files is refused.
fn refusal(fault: FileFault) -> HostAnswer
    ensures { result ≡ refusal_of fault }
{
    match fault {
        FileFault::Exists => HostAnswer::Exists,
        FileFault::NoSlot => HostAnswer::NoSlot,
        FileFault::NoFile => HostAnswer::NoFile,
        FileFault::Range => HostAnswer::Range,
        FileFault::NoSpace { free, needed } => HostAnswer::NoSpace { free, needed },
        FileFault::Media => HostAnswer::Media,
    }
}

// Makes a file.
fn create(
    attachments: &Attachments,
    files: &mut Files,
    journal: &mut Journal,
    queued: u16,
    name: Name,
    length: u32,
) -> HostDone
    requires fits { Fits files.old journal.old }
    requires within { IsWithinLimits (HostCommand.Create name length) }
    requires room { HasRoomToDo files.old (HostCommand.Create name length) journal.old }
    ensures does { (kept : List Block) → DoesOver kept attachments.now queued files.old journal.old
        (HostCommand.Create name length) result attachments.now files.new journal.new }
    ensures spent { IsSpent (HostCommand.Create name length) result }
    ensures stays { StayShown files.old journal.old files.new journal.new }
    ensures fits { Fits files.new journal.new }
    ensures goes_on { GoesOn journal.old journal.new }
    ensures used { KeepsUsed attachments.now files.old attachments.now files.new }
    ensures read { result.answer ≢ said.Media }
{
    match files.create(journal, name, length) {
        Ok(_) => answered(HostAnswer::Ok),
        Err(fault) => answered(refusal(fault)),
    }
}

// Takes a file away that no function has.
fn delete(
    attachments: &Attachments,
    files: &mut Files,
    journal: &mut Journal,
    queued: u16,
    name: &Name,
) -> HostDone
    requires fits { Fits files.old journal.old }
    requires within { IsWithinLimits (HostCommand.Delete name.now) }
    requires room { HasRoomToDo files.old (HostCommand.Delete name.now) journal.old }
    ensures does { (kept : List Block) → DoesOver kept attachments.now queued files.old journal.old
        (HostCommand.Delete name.now) result attachments.now files.new journal.new }
    ensures spent { IsSpent (HostCommand.Delete name.now) result }
    ensures stays { StayShown files.old journal.old files.new journal.new }
    ensures fits { Fits files.new journal.new }
    ensures goes_on { GoesOn journal.old journal.new }
    ensures used { KeepsUsed attachments.now files.old attachments.now files.new }
    ensures read { result.answer ≢ said.Media }
{
    let Some(file) = files.find(name) else {
        return answered(HostAnswer::NoFile);
    };
    if attachments.function(file).is_some() {
        return answered(HostAnswer::Attached);
    }
    match files.delete(journal, file) {
        Ok(()) => answered(HostAnswer::Ok),
        Err(fault) => answered(refusal(fault)),
    }
}

// What is told of a file that has another length now, and gave back so many blocks.
fn sized(function: Option<FnNo>, length: u32, given: u32) -> Change
    ensures { TellsLength (option_map (λ f. f.0) function) length (nat_lt 0 given) result }
{
    match function {
        None => Change::Nothing,
        Some(f) => Change::Sized {
            f,
            length,
            remapped: given > 0,
        },
    }
}

// What is told of a file that holds so many blocks more.
fn remapped(function: Option<FnNo>, count: u32) -> Change
    ensures { TellsBlocks (option_map (λ f. f.0) function) count result }
{
    match function {
        Some(f) if count > 0 => Change::Remapped { f },
        _ => Change::Nothing,
    }
}

// Gives a file another length.
fn resize(
    attachments: &Attachments,
    files: &mut Files,
    journal: &mut Journal,
    queued: u16,
    name: &Name,
    length: u32,
) -> HostDone
    requires fits { Fits files.old journal.old }
    requires within { IsWithinLimits (HostCommand.Resize name.now length) }
    requires room { HasRoomToDo files.old (HostCommand.Resize name.now length) journal.old }
    ensures does { (kept : List Block) → DoesOver kept attachments.now queued files.old journal.old
        (HostCommand.Resize name.now length) result attachments.now files.new journal.new }
    ensures spent { IsSpent (HostCommand.Resize name.now length) result }
    ensures stays { StayShown files.old journal.old files.new journal.new }
    ensures fits { Fits files.new journal.new }
    ensures goes_on { GoesOn journal.old journal.new }
    ensures used { KeepsUsed attachments.now files.old attachments.now files.new }
    ensures read { result.answer ≢ said.Media }
{
    let Some(file) = files.find(name) else {
        return answered(HostAnswer::NoFile);
    };
    match files.resize(journal, file, length) {
        Ok(given) => HostDone {
            answer: HostAnswer::Ok,
            change: sized(attachments.function(file), length, given),
            spent: None,
        },
        Err(fault) => answered(refusal(fault)),
    }
}

// Writes blocks of a file.
fn put(
    attachments: &Attachments,
    files: &mut Files,
    journal: &mut Journal,
    queued: u16,
    name: &Name,
    v: u32,
    blocks: Blocks,
) -> HostDone
    requires fits { Fits files.old journal.old }
    requires within { IsWithinLimits (HostCommand.Put name.now v blocks) }
    requires room { HasRoomToDo files.old (HostCommand.Put name.now v blocks) journal.old }
    ensures does { (kept : List Block) → DoesOver kept attachments.now queued files.old journal.old
        (HostCommand.Put name.now v blocks) result attachments.now files.new journal.new }
    ensures spent { IsSpent (HostCommand.Put name.now v blocks) result }
    ensures stays { StayShown files.old journal.old files.new journal.new }
    ensures fits { Fits files.new journal.new }
    ensures goes_on { GoesOn journal.old journal.new }
    ensures used { KeepsUsed attachments.now files.old attachments.now files.new }
    ensures read { result.answer ≢ said.Media }
{
    let Some(file) = files.find(name) else {
        return spending(HostAnswer::NoFile, blocks);
    };
    match files.put(journal, file, v, &blocks) {
        Ok(newly) => HostDone {
            answer: HostAnswer::Ok,
            change: remapped(attachments.function(file), newly),
            spent: Some(blocks),
        },
        Err(fault) => spending(refusal(fault), blocks),
    }
}

// Holds blocks of a file.
fn map(
    attachments: &Attachments,
    files: &mut Files,
    journal: &mut Journal,
    queued: u16,
    name: &Name,
    v: u32,
    n: u32,
) -> HostDone
    requires fits { Fits files.old journal.old }
    requires within { IsWithinLimits (HostCommand.Map name.now v n) }
    requires room { HasRoomToDo files.old (HostCommand.Map name.now v n) journal.old }
    ensures does { (kept : List Block) → DoesOver kept attachments.now queued files.old journal.old
        (HostCommand.Map name.now v n) result attachments.now files.new journal.new }
    ensures spent { IsSpent (HostCommand.Map name.now v n) result }
    ensures stays { StayShown files.old journal.old files.new journal.new }
    ensures fits { Fits files.new journal.new }
    ensures goes_on { GoesOn journal.old journal.new }
    ensures used { KeepsUsed attachments.now files.old attachments.now files.new }
    ensures read { result.answer ≢ said.Media }
{
    let Some(file) = files.find(name) else {
        return answered(HostAnswer::NoFile);
    };
    match files.map(journal, file, v, n) {
        Ok(newly) => HostDone {
            answer: HostAnswer::Ok,
            change: remapped(attachments.function(file), newly),
            spent: None,
        },
        Err(fault) => answered(refusal(fault)),
    }
}

// Gives a function, which is off, a file that no function has.
fn attach(
    attachments: &mut Attachments,
    files: &Files,
    journal: &Journal,
    queued: u16,
    f: FnNo,
    name: &Name,
) -> HostDone
    requires fits { Fits files.now journal.now }
    requires within { IsWithinLimits (HostCommand.Attach f name.now) }
    requires room { HasRoomToDo files.now (HostCommand.Attach f name.now) journal.now }
    ensures does { (kept : List Block) → DoesOver kept attachments.old queued files.now journal.now
        (HostCommand.Attach f name.now) result attachments.new files.now journal.now }
    ensures spent { IsSpent (HostCommand.Attach f name.now) result }
    ensures as_many { length attachments.new ≡ length attachments.old }
    ensures used { KeepsUsed attachments.old files.now attachments.new files.now }
    ensures idle { OnlyIdleGo queued attachments.old attachments.new }
    ensures read { result.answer ≢ said.Media }
{
    let Some(file) = files.find(name) else {
        return answered(HostAnswer::NoFile);
    };
    if !attachments.is_off(f) {
        return answered(HostAnswer::FunctionTaken);
    }
    if attachments.function(file).is_some() {
        return answered(HostAnswer::FileTaken);
    }
    attachments.set(f, Some(file));
    HostDone {
        answer: HostAnswer::Ok,
        change: Change::Attached {
            f,
            length: files.length(file).unwrap_or(0),
        },
        spent: None,
    }
}

// Takes its file from a function for which no request waits.
fn detach(
    attachments: &mut Attachments,
    files: &Files,
    journal: &Journal,
    queued: u16,
    f: FnNo,
) -> HostDone
    requires fits { Fits files.now journal.now }
    requires within { IsWithinLimits (HostCommand.Detach f) }
    requires room { HasRoomToDo files.now (HostCommand.Detach f) journal.now }
    ensures does { (kept : List Block) → DoesOver kept attachments.old queued files.now journal.now
        (HostCommand.Detach f) result attachments.new files.now journal.now }
    ensures spent { IsSpent (HostCommand.Detach f) result }
    ensures as_many { length attachments.new ≡ length attachments.old }
    ensures used { KeepsUsed attachments.old files.now attachments.new files.now }
    ensures idle { OnlyIdleGo queued attachments.old attachments.new }
    ensures read { result.answer ≢ said.Media }
{
    if attachments.file(f).is_none() {
        return answered(HostAnswer::NotAttached);
    }
    if queued >> (f.0 - 1) & 1 != 0 {
        return answered(HostAnswer::Queued);
    }
    attachments.set(f, None);
    HostDone {
        answer: HostAnswer::Ok,
        change: Change::Detached { f },
        spent: None,
    }
}

// Reads blocks of a file.
fn get<D: Disk>(
    attachments: &Attachments,
    files: &Files,
    journal: &Journal,
    disk: &mut D,
    queued: u16,
    name: &Name,
    v: u32,
    into: Blocks,
) -> HostDone
    requires rests { RestsOn files.now journal.now (D.known disk.old) }
    requires within { IsWithinLimits (HostCommand.Get name.now v into) }
    ensures does { DoesOnDisk (D.known disk.old) attachments.now queued files.now journal.now
        (HostCommand.Get name.now v into) result attachments.now files.now journal.now }
    ensures spent { IsSpent (HostCommand.Get name.now v into) result }
    ensures cause { HasCause (D.known disk.old).faults (D.known disk.new).faults (result.answer ≡ said.Media) }
    ensures unchanged { Unchanged (D.known disk.old) (D.known disk.new) }
    ensures goes { Goes (D.known disk.old) (D.known disk.new) }
    ensures keeps { D.keeps disk.old disk.new }
{
    let mut into = into;
    let Some(file) = files.find(name) else {
        return spending(HostAnswer::NoFile, into);
    };
    match files.get(journal, disk, file, v, &mut into) {
        Ok(()) => answered(HostAnswer::Got(into)),
        Err(fault) => spending(refusal(fault), into),
    }
}
