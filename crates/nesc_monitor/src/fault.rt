ghost use Rattle.std.specs.Prelude.{◌≡◌};

use nesc_base::WriteFault;
use nesc_session::StepFault;

/// Why the words of a schedule were not taken to their end.
#[derive(Clone, Copy)]
pub enum RunFault {
    /// A step could not be taken.
    Step(StepFault),
    /// The lines could not be written.
    Write(WriteFault),
}

impl From<StepFault> for RunFault {
    ghost use Rattle.nesc_monitor.specs.declared.fault.RunFault.TheVariants.{Step};

    ghost from_gives = { λ step e. e ≡ Step step };

    fn from(step: StepFault) -> RunFault {
        RunFault::Step(step)
    }
}

impl From<WriteFault> for RunFault {
    ghost use Rattle.nesc_monitor.specs.declared.fault.RunFault.TheVariants.{Write};

    ghost from_gives = { λ write e. e ≡ Write write };

    fn from(write: WriteFault) -> RunFault {
        RunFault::Write(write)
    }
}
