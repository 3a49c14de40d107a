ghost use Rattle.std.specs.Prelude.{ℕ, ◌<◌, ◌≤◌, List, Option, IfOk, IsErr, length};
ghost use Rattle.nesc_base.specs.Fault.{HasCause};
ghost use Rattle.nesc_base.specs.Source.{GivesFirst};

/// A source failed to give bytes.
#[derive(Clone, Copy, Debug, PartialEq, Eq)]
pub struct ReadFault;

/// Where bytes come from, as a file.
pub trait Source {
    /// The bytes that are left, where the source tells them.
    ghost left: { Self → Option (List ℕ) };

    /// How often the source has failed. It never falls, and stands still at 2^64 - 1.
    ghost faults: { Self → ℕ };

    /// Gives the first bytes that are left, as many as it answers. It answers 0 only where none is left.
    fn read(&mut self, into: &mut [u8]) -> Result<usize, ReadFault>
        requires { 0 < length into.old }
        ensures within { IfOk result (λ n. n ≤ length into.old) }
        ensures first { IfOk result (λ n. GivesFirst n into.new (left self.old) (left self.new)) }
        ensures cause { HasCause (faults self.old) (faults self.new) (IsErr result) };
}
