ghost use Rattle.std.specs.Prelude.{◌≡◌, ℕ, ◌<◌, ◌≤◌, List, Option, IfOk, OnErr, length, take};
ghost use Rattle.nesc_base.specs.Fault.{HasCause};
ghost use Rattle.nesc_base.specs.Sink.{Appends, TakesNone, Lent, StaysLent, not_lent};

/// A sink failed to take bytes.
#[derive(Clone, Copy, Debug, PartialEq, Eq)]
pub struct WriteFault;

/// Where bytes go, as standard output.
pub trait Sink {
    /// The bytes that the sink has taken, where it tells them.
    ghost taken: { Self → Option (List ℕ) };

    /// How often the sink has failed. It never falls, and stands still at 2^64 - 1.
    ghost faults: { Self → ℕ };

    /// The sink that it is lent, where it is one that hands its bytes on to another.
    ghost lent: { Self → Lent } = { λ _. not_lent };

    /// Takes the first of these bytes, as many as it answers. To take none of some bytes is a failure, as an
    /// `Err` is, which takes none.
    fn write(&mut self, from: &[u8]) -> Result<usize, WriteFault>
        ensures within { IfOk result (λ n. n ≤ length from.now) }
        ensures first { IfOk result (λ n. Appends (taken self.old) (taken self.new) (take n from.now)) }
        ensures none { OnErr result (taken self.new ≡ taken self.old) }
        ensures lent { StaysLent (lent self.old) (lent self.new) }
        ensures cause { HasCause (faults self.old) (faults self.new) (TakesNone from.now result) };
}
