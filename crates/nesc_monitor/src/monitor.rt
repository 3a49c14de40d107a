ghost use Rattle.std.specs.Prelude.{◌≡◌, ◌≤◌, ◌++◌, List, map, codes, string_bytes, true, IsErrOf};
ghost use Rattle.std.specs.Fmt.{decimal};
ghost use Rattle.nesc_base.specs.declared.block.Block.{Block};
ghost use Rattle.nesc_base.specs.declared.geometry.Geometry.{Geometry};
ghost use Rattle.nesc_base.specs.Disk.{Goes};
ghost use Rattle.nesc_base.specs.Fault.{HasCause};
ghost use Rattle.nesc_base.specs.Geometry.{IsGeometry};
ghost use Rattle.nesc_requests.specs.Machine.{IsMachine};
ghost use Rattle.nesc_session.specs.Resting.{IsIn};
ghost use Rattle.nesc_session.specs.declared.fault.StepFault.TheVariants as step;
ghost use Rattle.plain_machine.specs.Placing.{Placed};
ghost use Rattle.plain_machine.specs.State.{State};
ghost use Rattle.script_lang.specs.Left.{untouched};
ghost use Rattle.text_kit.specs.Writes.{Writes};
ghost use Rattle.nesc_monitor.specs.Endings.{AtAnyMoment, Comes, LeavesMade};
ghost use Rattle.nesc_monitor.specs.Making.{ComesOfMake};
ghost use Rattle.nesc_monitor.specs.Promises.{Promises};
ghost use Rattle.nesc_monitor.specs.Running.{ComesOfRun};
ghost use Rattle.nesc_monitor.specs.Starting.{StartsAndTells};
ghost use Rattle.nesc_monitor.specs.Steps.{IsUnderWay, RunsBy};
ghost use Rattle.nesc_monitor.specs.Texts.{IsTakenFromFront};
ghost use Rattle.nesc_monitor.specs.Watched.{watch, watch_disk};
ghost use Rattle.nesc_monitor.specs.Words.{command_of};
ghost use Rattle.nesc_monitor.specs.declared.fault.RunFault.TheVariants as run;

use crate::ending::{Ending, Status};
use crate::fault::RunFault;
use crate::steps::take_words;
use crate::texts::{Accepted, read_script};
use crate::words::{Command, read_words};
use image_layout::ImageFault;
use image_tools::{MakeFault, make};
use nesc_base::{Disk, Geometry, Sink, Source, WriteFault};
use nesc_requests::Buffers;
use nesc_session::Session;
use script_lang::buffers_of;
use std::alloc::Global;
use text_kit::{Buffer, Buffered};
use trace_text::{Piece, write_pieces};

/// Takes all words of the accepted texts, and writes the trace to a sink, which it gathers first.
fn write_out<D: Disk, K: Sink>(
    session: &mut Session,
    accepted: &mut Accepted,
    spare: &mut Buffers,
    buffer: &mut Buffer,
    image: &mut D,
    out: &mut K,
) -> Result<(), RunFault>
    requires { IsUnderWay session.old accepted.old.commands spare.old (D.known image.old) }
    ensures runs { (D.known image.old).tells ≡ true
        → (kept : List Block) (state : State) (placed : Placed) → IsIn session.old (D.known image.old) kept state placed
        → RunsBy result session.old.setting placed.now state accepted.old.commands.script accepted.old.schedule
        (D.known image.old) (D.known image.new)
        (K.taken out.old) (K.taken out.new) }
    ensures device { HasCause (D.known image.old).faults (D.known image.new).faults
        (IsErrOf result (run.Step (step.Disk _))) }
    ensures write { HasCause (K.faults out.old) (K.faults out.new) (IsErrOf result (run.Write _)) }
    ensures goes { Goes (D.known image.old) (D.known image.new) }
    ensures keeps { D.keeps image.old image.new }
{
    let mut buffered = Buffered::new(buffer, out);
    take_words(
        session,
        &mut accepted.commands,
        spare,
        &mut accepted.schedule,
        image,
        &mut buffered,
    )
}

/// Opens the image, takes the steps of the accepted texts from its files on, and writes their trace.
fn open_and_step<D: Disk, K: Sink>(
    alloc: Global,
    accepted: Accepted,
    image: &mut D,
    out: &mut K,
) -> Ending
    requires untouched { accepted.commands ≡ untouched accepted.commands.script }
    requires machine { IsMachine accepted.commands.script.machine }
    ensures steps { StartsAndTells result (D.known image.old)
        (D.known image.new) accepted.commands.script accepted.schedule (watch K.taken K.faults out.old out.new) }
    ensures goes { Goes (D.known image.old) (D.known image.new) }
    ensures keeps { D.keeps image.old image.new }
    ensures never_fall { ((D.known image.old).faults ≤ (D.known image.new).faults)
        × (K.faults out.old ≤ K.faults out.new) }
{
    let mut accepted = accepted;
    let machine = accepted.commands.machine();
    let Ok(mut buffer) = Buffer::new(alloc) else {
        return Ending::Memory;
    };
    let Ok(mut spare) = Buffers::new(alloc, buffers_of(machine)) else {
        return Ending::Memory;
    };
    let mut session = match Session::begin(alloc, machine, image) {
        Ok(session) => session,
        Err(fault) => return Ending::of_opening(fault),
    };
    match write_out(
        &mut session,
        &mut accepted,
        &mut spare,
        &mut buffer,
        image,
        out,
    ) {
        Ok(()) => Ending::Done,
        Err(fault) => Ending::of_run(fault),
    }
}

/// Carries out the command `run`: reads both texts, opens the image, and takes the steps.
fn run_texts<S: Source, D: Disk, K: Sink>(
    alloc: Global,
    commands: &mut S,
    schedule: &mut S,
    image: &mut D,
    out: &mut K,
) -> Ending
    ensures runs { ComesOfRun result
        (watch S.left S.faults commands.old commands.new)
        (watch S.left S.faults schedule.old schedule.new)
        (watch_disk D.known D.keeps image.old image.new)
        (watch K.taken K.faults out.old out.new) }
    ensures taken { IsTakenFromFront (watch S.left S.faults commands.old commands.new)
        × IsTakenFromFront (watch S.left S.faults schedule.old schedule.new) }
    ensures never_fall { (S.faults commands.old ≤ S.faults commands.new)
        × (S.faults schedule.old ≤ S.faults schedule.new)
        × ((D.known image.old).faults ≤ (D.known image.new).faults) × (K.faults out.old ≤ K.faults out.new) }
    ensures goes { Goes (D.known image.old) (D.known image.new) }
    ensures keeps { D.keeps image.old image.new }
{
    match read_script(alloc, commands, schedule) {
        Ok(accepted) => open_and_step(alloc, accepted, image, out),
        Err(ending) => ending,
    }
}

/// Says how many blocks the image has that was made.
fn tell_made<K: Sink>(out: &mut K, total: u32) -> Result<(), WriteFault>
    ensures { Writes K.taken K.faults K.lent out.old out.new (codes "made " ++ decimal total ++ codes "\n") result }
{
    let pieces = [
        Piece::Text(b"made "),
        Piece::Number(u64::from(total)),
        Piece::Text(b"\n"),
    ];
    write_pieces(out, &pieces)
}

/// Carries out the command `make`.
fn make_image<D: Disk, K: Sink>(image: &mut D, geometry: Geometry, out: &mut K) -> Ending
    requires { IsGeometry geometry }
    ensures makes { ComesOfMake result geometry (D.known image.old) (D.known image.new)
        (watch K.taken K.faults out.old out.new) }
    ensures any_moment { LeavesMade geometry (D.known image.old) (D.known image.new) }
    ensures goes { Goes (D.known image.old) (D.known image.new) }
    ensures keeps { D.keeps image.old image.new }
    ensures never_fall { ((D.known image.old).faults ≤ (D.known image.new).faults)
        × (K.faults out.old ≤ K.faults out.new) }
{
    let total = match make(image, geometry) {
        Ok(total) => total,
        Err(MakeFault::Disk(_)) => return Ending::Device,
        Err(MakeFault::BadSize { block }) => return Ending::Image(ImageFault::BadSize { block }),
    };
    let Ok(()) = tell_made(out, total) else {
        return Ending::Write;
    };
    Ending::Done
}

/// Carries out the command that the words name, but for what is told on standard error.
fn carry_out<S: Source, K: Sink, D: Disk>(
    alloc: Global,
    words: &[String],
    commands: &mut S,
    schedule: &mut S,
    image: &mut D,
    out: &mut K,
) -> Ending
    ensures comes { Comes result (command_of (map string_bytes words.now))
        (watch S.left S.faults commands.old commands.new)
        (watch S.left S.faults schedule.old schedule.new)
        (watch_disk D.known D.keeps image.old image.new)
        (watch K.taken K.faults out.old out.new) }
    ensures any_moment { AtAnyMoment (command_of (map string_bytes words.now)) (D.known image.old) (D.known image.new) }
    ensures taken { IsTakenFromFront (watch S.left S.faults commands.old commands.new)
        × IsTakenFromFront (watch S.left S.faults schedule.old schedule.new) }
    ensures never_fall { (S.faults commands.old ≤ S.faults commands.new)
        × (S.faults schedule.old ≤ S.faults schedule.new)
        × ((D.known image.old).faults ≤ (D.known image.new).faults) × (K.faults out.old ≤ K.faults out.new) }
    ensures goes { Goes (D.known image.old) (D.known image.new) }
    ensures keeps { D.keeps image.old image.new }
{
    match read_words(words) {
        Some(Command::Run) => run_texts(alloc, commands, schedule, image, out),
        Some(Command::Make(geometry)) => make_image(image, geometry, out),
        None => Ending::Words,
    }
}

/// Carries out the command that the words of the command line name.
///
/// `run` reads the commands file and then the schedule, opens `image` once both are accepted, takes the steps of the
/// schedule from its files on, and writes the trace to `out`. The image is changed: at the end it has the files that
/// were kept last, whatever a stop leaves then. Where a text is refused or a source fails nothing is asked of it. Lines
/// are gathered, and handed on before each step that may change what the image keeps.
///
/// `make --blocks N` and `make --blocks N --slack S` make an image of no files on `image`, over whatever that held,
/// and write to `out` how many blocks it has.
///
/// `err` gets one line where the command did not come to its end, or the first bytes of it where `err` fails, and no
/// status tells that. `spare` is neither read nor written.
pub fn run<S: Source, K: Sink, E: Sink, D: Disk>(
    alloc: Global,
    words: &[String],
    commands: &mut S,
    schedule: &mut S,
    image: &mut D,
    spare: &mut D,
    out: &mut K,
    err: &mut E,
) -> Status
    ensures { Promises result (record {
      words = map string_bytes words.now;
      commands = watch S.left S.faults commands.old commands.new;
      schedule = watch S.left S.faults schedule.old schedule.new;
      image = watch_disk D.known D.keeps image.old image.new;
      spare = watch_disk D.known D.keeps spare.old spare.new;
      out = watch K.taken K.faults out.old out.new;
      err = watch E.taken E.faults err.old err.new;
    }) }
{
    let ending = carry_out(alloc, words, commands, schedule, image, out);
    let _told = ending.tell(err);
    ending.status()
}
