ghost use Rattle.std.specs.Prelude.{◌≡◌, ◌*◌, Some, length, option_map};
ghost use Rattle.std.specs.Result.{result_ok};
ghost use Rattle.hex.specs.Hex.{decode_of, encode_lower};
ghost use Rattle.nesc_base.specs.BlockText.{block_of_text, block_text, repeated};
ghost use Rattle.text_kit.specs.Writes.{Writes};

use crate::write_text;
use nesc_base::{BLOCK_BYTES, Block, PERIOD_BYTES, Sink, WriteFault};

/// How many digits the text of a block has where it repeats, and where it does not.
const REPEATED_DIGITS: usize = 2 * PERIOD_BYTES;

const WHOLE_DIGITS: usize = 2 * BLOCK_BYTES;

/// The block that the text writes: `z` is the block of zeros, 16 hexadecimal digits are eight bytes that repeat,
/// and 2048 digits are all bytes of the block, in digits of either case. `None` where the text is anything else.
#[tactic(auto, unfolding(nesc_base::specs::BlockText::block_of_text))]
pub fn read_block(text: &[u8]) -> Option<Block>
    ensures { result ≡ block_of_text text.now }
{
    if text == b"z".as_slice() {
        return Some(Block::zero());
    }
    match text.len() {
        REPEATED_DIGITS => read_repeated(text),
        WHOLE_DIGITS => read_whole(text),
        _ => None,
    }
}

/// The block that repeats the eight bytes of the digits.
fn read_repeated(digits: &[u8]) -> Option<Block>
    requires { length digits.now ≡ 16 }
    ensures { result ≡ option_map repeated (result_ok (decode_of digits.now)) }
{
    let bytes = decode(digits)?;
    Some(Block::repeated(&bytes))
}

/// The block whose bytes all stand in the digits.
fn read_whole(digits: &[u8]) -> Option<Block>
    requires { length digits.now ≡ 2048 }
    ensures { result ≡ option_map (λ bytes. record { 0 = bytes }) (result_ok (decode_of digits.now)) }
{
    decode(digits).map(Block)
}

/// Writes the shortest text of the block: `z` for the block of zeros, the 16 digits of eight bytes for a block that
/// repeats them, and else the 2048 digits of all its bytes. Digits are in lower case.
///
/// An `Err` says that the sink failed. Whatever it answers, the sink has taken the first bytes of the text.
pub fn write_block<K: Sink>(sink: &mut K, block: &Block) -> Result<(), WriteFault>
    ensures written { Writes K.taken K.faults K.lent sink.old sink.new (block_text block.now) result }

    // The text reads as the block again.
    ensures again { block_of_text (block_text block.now) ≡ Some block.now }
{
    let mut digits = [0; WHOLE_DIGITS];
    write_text(sink, text_of(&block.0, &mut digits))
}

/// The shortest text of the block of these bytes, for which it is given the room.
fn text_of<'a>(bytes: &[u8; BLOCK_BYTES], digits: &'a mut [u8; WHOLE_DIGITS]) -> &'a [u8]
    ensures text { result.now ≡ block_text (record { 0 = bytes.now }) }
    ensures again { block_of_text result.now ≡ Some (record { 0 = bytes.now }) }
{
    let block = Block(*bytes);
    if block == Block::zero() {
        return b"z";
    }
    match block.period() {
        Some(period) => digits_of(&period, &mut digits[..REPEATED_DIGITS]),
        None => digits_of(bytes, digits),
    }
}

/// The digits of the bytes, for which it is given the room.
fn digits_of<'a>(bytes: &[u8], digits: &'a mut [u8]) -> &'a [u8]
    requires { length digits.old ≡ 2 * length bytes.now }
    ensures { result.now ≡ encode_lower bytes.now }
{
    let Ok(()) = hex::encode_to_slice(bytes, digits) else {
        unreachable!()
    };
    &*digits
}

/// The bytes that the digits write, or `None` where one of them is no hexadecimal digit.
fn decode<const N: usize>(digits: &[u8]) -> Option<[u8; N]>
    requires { length digits.now ≡ 2 * N }
    ensures { result ≡ result_ok (decode_of digits.now) }
{
    let mut bytes = [0; N];
    hex::decode_to_slice(digits, &mut bytes).ok()?;
    Some(bytes)
}
