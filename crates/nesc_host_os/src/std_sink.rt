ghost use Rattle.std.specs.Prelude.{◌≡◌, ◌+◌, ◌<◌, ◌≤◌, None, IfOk, OnOk, OnErr, length, min};
ghost use Rattle.std.specs.Io.KnownBytes.{WriteAppends};
ghost use Rattle.nesc_base.specs.Fault.{HasCause};
ghost use Rattle.nesc_base.specs.Sink.{TakesNone};

use nesc_base::{Sink, WriteFault};
use std::io;
use std::marker::Model;

/// A writer of std as a sink, which does not tell what bytes it took.
#[derive(Drop)]
pub struct StdSink<W> {
    inner: W,
    faults: u64,
}

impl<W> Model for StdSink<W> {
    ghost use Rattle.nesc_host_os.specs.StdSink.{StdSinkState};

    ghost Value = { StdSinkState W };

    ghost view = { λ s. record { inner = s.inner; faults = s.faults } };
}

impl<W: io::Write> StdSink<W> {
    /// A sink whose bytes go to this writer.
    pub fn new(inner: W) -> StdSink<W>
        ensures { result ≡ record { inner = inner; faults = 0 } }
    {
        StdSink { inner, faults: 0 }
    }
}

impl<W: io::Write> Sink for StdSink<W> {
    ghost taken = { λ _. None };

    ghost faults = { λ s. s.faults };

    /// Writes once, and answers how many bytes the writer took. An `Err` says that it failed, or that it took
    /// none of some bytes. It raises the count of faults by one, up to 2^64 - 1.
    fn write(&mut self, from: &[u8]) -> Result<usize, WriteFault>
        ensures within { IfOk result (λ n. n ≤ length from.now) }
        ensures cause { HasCause self.old.faults self.new.faults (TakesNone from.now result) }

        // What the writer holds, where it tells that, has grown by the bytes that were taken, and by no more.
        ensures bytes { WriteAppends (W.contents self.old.inner) (W.contents self.new.inner) result from.now }

        // Only an `Err` is counted, and to take none of some bytes is one.
        ensures some { 0 < length from.now → IfOk result (λ n. 0 < n) }
        ensures ok { OnOk result (self.new.faults ≡ self.old.faults) }
        ensures err { OnErr result (self.new.faults ≡ min (self.old.faults + 1) u64.MAX) }
    {
        match self.inner.write(from) {
            Ok(count) if count > 0 || from.is_empty() => Ok(count),
            _ => {
                self.faults = self.faults.saturating_add(1);
                Err(WriteFault)
            }
        }
    }
}

#[cfg(test)]
mod tests {
    use super::*;
    use std::test::Fail;

    #[test]
    fn writes_once_a_call(rt: HostRuntime) -> Result<(), Fail> {
        let mut bytes = Vec::new(rt.alloc());
        let mut sink = StdSink::new(&mut bytes);
        assert_eq!(rt; sink.write(b"ab"), Ok(2));
        assert_eq!(rt; sink.write(b""), Ok(0));
        assert_eq!(rt; bytes.as_slice(), b"ab".as_slice());
        let mut full = [0; 2];
        let mut sink = StdSink::new(full.as_mut_slice());
        assert_eq!(rt; sink.write(b"abc"), Ok(2));
        assert_eq!(rt; sink.write(b"c"), Err(WriteFault));
        Ok(())
    }
}
