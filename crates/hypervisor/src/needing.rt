ghost use Rattle.std.specs.Prelude.{◌≡◌, ◌≤◌, ℕ, List, length, IfOk, OnErr};
ghost use Rattle.nesc_base.specs.Blocks.{most_in_request};
ghost use Rattle.nesc_base.specs.Files.{longest_file};
ghost use Rattle.file_layer.specs.Knowing.{OfFiles};
ghost use Rattle.file_layer.specs.Layer.{HasRoomFor, IsLayer, lacking};
ghost use Rattle.file_model.specs.Files.{Change, staged};
ghost use Rattle.host_journal.specs.Journal.{Journal};
ghost use Rattle.hypervisor.specs.Needing.{HasRoom, HasRoomToDo, IsEntered, LackAnswers};
ghost use Rattle.nesc_requests.specs.Script.{IsWithinLimits};
ghost use Rattle.nesc_requests.specs.declared.host.HostAnswer.{HostAnswer};
ghost use Rattle.plain_machine.specs.Functions.{Function};
ghost use Rattle.plain_machine.specs.HostCommands.{HostStep};

use file_layer::{FileFault, Files};
use nesc_base::Name;
use nesc_requests::HostCommand;

/// How many data blocks the command will stage, 0 to 64: those of a `put`, and those of a `map` that are not held yet.
/// One that will be refused stages none.
pub fn needs(files: &Files, command: &HostCommand) -> u32
    requires layer { IsLayer files.now }
    requires within { IsWithinLimits command.now }
    ensures few { result ≤ most_in_request }
    ensures room { (journal : Journal) → HasRoom journal result → HasRoomToDo files.now command.now journal }
    ensures asks { (journal : Journal) → journal.count ≤ journal.geometry.slack
        → HasRoomToDo files.now command.now journal → HasRoom journal result }
    ensures need { OfFiles files.now (λ set _.
        (functions : List Function) (answer : HostAnswer) (changes : List Change) (new : List Function)
        → HostStep files.now.geometry.blocks set functions command.now answer changes new → result ≡ staged changes) }
{
    match command {
        HostCommand::Put { name, v, blocks } => match lacking(files, name, *v, blocks.len()) {
            Ok(_) => blocks.len(),
            Err(_) => 0,
        },
        HostCommand::Map { name, v, n } => lacking(files, name, *v, *n).unwrap_or(0),
        _ => 0,
    }
}

// How many of `n` blocks of a file from `v` on are not held, or why they are not to be had.
fn lacking(files: &Files, name: &Name, v: u32, n: u32) -> Result<u32, FileFault>
    requires layer { IsLayer files.now }
    requires few { n ≤ most_in_request }
    requires begins { v ≤ longest_file }
    ensures takes { IfOk result (λ count. (k : ℕ) × IsEntered files.now name.now k × HasRoomFor files.now k v n
        × (count ≡ length (lacking files.now k v n))) }
    ensures refused { OnErr result ((k : ℕ) → IsEntered files.now name.now k → ¬ HasRoomFor files.now k v n) }
    ensures answers { OfFiles files.now (λ set _. LackAnswers files.now.geometry.blocks set name.now v n result) }
{
    let file = files.find(name).ok_or(FileFault::NoFile)?;
    files.needed(file, v, n)
}
