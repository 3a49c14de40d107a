//! The program `nesc`: it hands the words of the command line, the files of the current folder and the standard
//! streams to `nesc_monitor::run`, and exits with the status that it answers.
#![tactic(auto)]

ghost use Rattle.std.specs.Prelude.{◌≡◌, codes};
ghost use Rattle.nesc_base.specs.Fault.{Rose};
ghost use Rattle.nesc_base.specs.Sink.{Appends};

use nesc_base::Sink;
use nesc_host_os::{FileDisk, FileSource, StdSink};
use nesc_monitor::{Status, run};
use std::process::ExitCode;
use std::rt::Env;
use std::{env, io};
use text_kit::write_text;

/// The words behind the program's name. An `Err` says that there is no memory for them.
fn words_of(rt: &(impl Env + AllocGlobal)) -> io::Result<Vec<String>> {
    let mut words = Vec::new(rt.alloc());
    for word in env::args(rt)?.skip(1) {
        words.push(word)?;
    }
    Ok(words)
}

/// Says on standard error that there was no memory for the words, and answers the status of that.
fn without_memory<E: Sink>(err: &mut E) -> Status
    ensures status { result ≡ Status.Memory }
    ensures told { ¬ Rose (E.faults err.old) (E.faults err.new)
        → Appends (E.taken err.old) (E.taken err.new) (codes "nesc: memory\n") }
{
    let _told = write_text(err, b"nesc: memory\n");
    Status::Memory
}

fn main(rt: HostRuntime) -> ExitCode {
    let mut out = StdSink::new(rt.stdout());
    let mut err = StdSink::new(rt.stderr());
    let Ok(words) = words_of(&rt) else {
        return ExitCode::from(without_memory(&mut err).code());
    };
    let mut commands = FileSource::new(&rt, "commands.toml");
    let mut schedule = FileSource::new(&rt, "schedule.txt");
    let mut image = FileDisk::new(&rt, "disk.img");
    let mut spare = FileDisk::new(&rt, "spare.img");
    let status = run(
        rt.alloc(),
        words.as_slice(),
        &mut commands,
        &mut schedule,
        &mut image,
        &mut spare,
        &mut out,
        &mut err,
    );
    ExitCode::from(status.code())
}

#[cfg(test)]
mod tests;
