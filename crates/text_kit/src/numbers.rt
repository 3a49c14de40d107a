ghost use Rattle.std.specs.Prelude.{◌≡◌, ◌+◌, ◌-◌, ◌*◌, ◌^◌, ◌<◌, Some};
ghost use Rattle.std.specs.Char.{IsAsciiDigit};
ghost use Rattle.std.specs.Option.{SomeIff};
ghost use Rattle.std.specs.Fmt.{decimal};
ghost use Rattle.text_kit.specs.Number.{number_of};
ghost use Rattle.text_kit.specs.Writes.{Writes};

use crate::write_text;
use itoa::Buffer;
use nesc_base::{Sink, WriteFault};

/// How many digits a number has at most, as those of 2^64 - 1.
const MOST_DIGITS: usize = 20;

/// The number that the text writes: 1 to 20 decimal digits whose value fits in 64 bits, with no sign.
/// Leading zeros are good. `None` where the text is anything else.
pub fn number(text: &[u8]) -> Option<u64>
    ensures { result ≡ number_of text.now }
{
    if text.is_empty() || text.len() > MOST_DIGITS {
        return None;
    }
    let mut value = 0;
    for byte in text {
        value = with_digit(value, *byte)?;
    }
    Some(value)
}

/// The value with one more digit behind it, where that is a digit and the new value fits.
fn with_digit(value: u64, digit: u8) -> Option<u64>
    ensures { SomeIff result (IsAsciiDigit digit × (value * 10 + (digit - 48) < 2 ^ 64)) (value * 10 + (digit - 48)) }
{
    if !digit.is_ascii_digit() {
        return None;
    }
    value.checked_mul(10)?.checked_add(u64::from(digit - b'0'))
}

/// Writes the number in decimal digits, with no leading zeros.
///
/// An `Err` says that the sink failed. Whatever it answers, the sink has taken the first bytes of the text.
pub fn write_number<K: Sink>(sink: &mut K, n: u64) -> Result<(), WriteFault>
    ensures written { Writes K.taken K.faults K.lent sink.old sink.new (decimal n) result }

    // The text reads as the number again.
    ensures again { number_of (decimal n) ≡ Some n }
{
    write_text(sink, Buffer::new().format(n).as_bytes())
}
