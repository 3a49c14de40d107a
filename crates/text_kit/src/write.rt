ghost use Rattle.std.specs.Prelude.{◌≡◌, ◌≤◌, IsErr, OnErr, OnOk, length, take};
ghost use Rattle.nesc_base.specs.Fault.{HasCause};
ghost use Rattle.nesc_base.specs.Sink.{Appends, StaysLent};
ghost use Rattle.text_kit.specs.Writes.{Writes};

use nesc_base::{Sink, WriteFault};

/// Writes all of the text, in as many calls as the sink needs.
///
/// An `Err` says that the sink failed. Whatever it answers, the sink has taken the first bytes of the text.
pub fn write_text<K: Sink>(sink: &mut K, text: &[u8]) -> Result<(), WriteFault>
    ensures { Writes K.taken K.faults K.lent sink.old sink.new text.now result }
{
    let (_taken, answer) = write_front(sink, text);
    answer
}

/// Writes the text until all of it is written or the sink fails, and says how many bytes the sink has taken.
pub(crate) fn write_front<K: Sink>(sink: &mut K, text: &[u8]) -> (usize, Result<(), WriteFault>)
    ensures within { result.0 ≤ length text.now }
    ensures front { Appends (K.taken sink.old) (K.taken sink.new) (take result.0 text.now) }
    ensures all { OnOk result.1 (result.0 ≡ length text.now) }
    ensures stays_lent { StaysLent (K.lent sink.old) (K.lent sink.new) }
    ensures cause { HasCause (K.faults sink.old) (K.faults sink.new) (IsErr result.1) }
{
    let mut done = 0;
    while done < text.len() {
        match sink.write(&text[done..]) {
            Ok(0) | Err(_) => return (done, Err(WriteFault)),
            Ok(taken) => done += taken,
        }
    }
    (done, Ok(()))
}
