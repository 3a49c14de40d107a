ghost use Rattle.std.specs.Prelude.{ℕ};
ghost use Rattle.nesc_base.specs.Places.{Places};
ghost use Rattle.nesc_requests.specs.declared.event.Event.{Event};
ghost use Rattle.plain_machine.specs.Functions.{AreSound};
ghost use Rattle.machine_laws.specs.Laws.{CountsStaged, HasOneStep, HasStep, IsNeverStuck};
ghost use Rattle.machine_laws.specs.Laws.{IsTakenInTime, KeepsFunctions, KeepsSets};
ghost use Rattle.plain_machine.specs.State.{State};
ghost use Rattle.plain_machine.specs.declared.setting.Setting.{Setting};

/// Each step leaves files as they may be, whatever event comes, where what the host asks for is within the limits.
pub fn file_sets_stay_in_steps()
    ensures { (event : Event) → KeepsSets event }
{}

/// Each step leaves as many functions as there were, and for each of them that waits a request waits.
pub fn functions_stay_sound()
    ensures { (event : Event) → KeepsFunctions event }
{}

/// Each step stages what its answer says was done: all blocks of a `put` that is done, those of a `map` that were not
/// held, one block that is served for a write, as many as a handling held, and else none.
pub fn staged_blocks_are_counted()
    ensures { (event : Event) → CountsStaged event }
{}

/// Over files as they may be the definition leaves no choice but what is given: each event makes one list of changes,
/// comes to one outcome, and leaves one state.
pub fn one_step()
    ensures { (event : Event) → HasOneStep event }
{}

/// Whatever event comes to whatever state in which the functions are as they may be, the definition has a step for it.
pub fn every_event_has_a_step()
    ensures { (event : Event) → HasStep event }
{}

/// The plain machine is never stuck: from every such state on, every schedule has a trace over every script.
pub fn every_run_goes_on()
    ensures { (setting : Setting) (places : Places) (old : State) → AreSound old.functions
        → IsNeverStuck setting places old }
{}

/// A function that is runnable before each of as many ticks as there are functions, with no restart among them, is
/// taken by one of them.
pub fn each_function_is_taken_in_time()
    ensures { (setting : Setting) (f : ℕ) → IsTakenInTime setting f }
{}
