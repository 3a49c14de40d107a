ghost use Rattle.std.specs.Prelude.{◌≡◌, ◌<◌, ◌≤◌, length, IfOk};
ghost use Rattle.nesc_base.specs.Fault.{HasCause, Rose};
ghost use Rattle.script_lang.specs.Limits.{most_bytes};
ghost use Rattle.nesc_monitor.specs.Reading.{GivesAll, GivesTooMany, TakesFront};

use nesc_base::{ReadFault, Source};
use script_lang::MOST_BYTES;
use std::alloc::{AllocError, Global};

/// How many bytes are asked for in one call.
const CHUNK_BYTES: usize = 16384;

/// Why a text was not read to its end.
#[derive(Clone, Copy)]
pub enum ReadStop {
    /// There was no memory for it.
    NoMemory,
    /// The source failed.
    Fault,
    /// It has more bytes than a text may have.
    TooLong,
}

impl From<AllocError> for ReadStop {
    ghost use Rattle.nesc_monitor.specs.declared.reading.ReadStop.TheVariants.{NoMemory};

    ghost from_gives = { λ _ e. e ≡ NoMemory };

    fn from(_e: AllocError) -> ReadStop {
        ReadStop::NoMemory
    }
}

impl From<ReadFault> for ReadStop {
    ghost use Rattle.nesc_monitor.specs.declared.reading.ReadStop.TheVariants.{Fault};

    ghost from_gives = { λ _ e. e ≡ Fault };

    fn from(_e: ReadFault) -> ReadStop {
        ReadStop::Fault
    }
}

/// Reads a text to its end, or until it is longer than a text may be.
pub fn read_text<S: Source>(alloc: Global, source: &mut S) -> Result<Vec<u8>, ReadStop>
    ensures whole { IfOk result (λ text. GivesAll text.items (S.left source.old) (S.left source.new)) }
    ensures within { IfOk result (λ text. length text.items ≤ most_bytes) }
    ensures too_long { result ≡ Err ReadStop.TooLong → GivesTooMany (S.left source.old) }
    ensures taken { ¬ Rose (S.faults source.old) (S.faults source.new)
        → TakesFront (S.left source.old) (S.left source.new) }
    ensures cause { HasCause (S.faults source.old) (S.faults source.new) (result ≡ Err ReadStop.Fault) }
{
    let mut chunk = [0; CHUNK_BYTES];
    let mut text = Vec::new(alloc);
    while text.len() <= MOST_BYTES {
        let room = CHUNK_BYTES.min(MOST_BYTES + 1 - text.len());
        let n = source.read(&mut chunk[..room])?;
        if n == 0 {
            return Ok(text);
        }
        text.extend_from_slice(&chunk[..n])?;
    }
    Err(ReadStop::TooLong)
}
