ghost use Rattle.std.specs.Prelude.{◌++◌, codes};
ghost use Rattle.plain_machine.specs.Lines.{block_words};
ghost use Rattle.nesc_base.specs.BlockText.{block_text};
ghost use Rattle.trace_text.specs.Pieces.{piece_text, pieces_text};
ghost use Rattle.text_kit.specs.Writes.{Writes};

use nesc_base::{Block, Blocks, Sink, WriteFault};
use text_kit::{write_block, write_number, write_text};

/// A piece of a line.
#[derive(Clone, Copy)]
pub enum Piece<'a> {
    /// The text as it stands.
    Text(&'a [u8]),
    /// A number, in decimal digits.
    Number(u64),
    /// The text of each block, with a space before it.
    Words(&'a Blocks),
}

/// Writes some pieces, one behind the other.
///
/// An `Err` says that the sink failed. Whatever it answers, the sink has taken the first bytes of the pieces' text.
pub fn write_pieces<K: Sink>(sink: &mut K, pieces: &[Piece<'_>]) -> Result<(), WriteFault>
    ensures { Writes K.taken K.faults K.lent sink.old sink.new (pieces_text pieces.now) result }
{
    for piece in pieces {
        write_piece(sink, piece)?;
    }
    Ok(())
}

/// Writes one piece.
fn write_piece<K: Sink>(sink: &mut K, piece: &Piece<'_>) -> Result<(), WriteFault>
    ensures { Writes K.taken K.faults K.lent sink.old sink.new (piece_text piece.now) result }
{
    match piece {
        Piece::Text(text) => write_text(sink, text),
        Piece::Number(n) => write_number(sink, *n),
        Piece::Words(blocks) => write_blocks(sink, blocks),
    }
}

/// Writes each block, with a space before it.
fn write_blocks<K: Sink>(sink: &mut K, blocks: &Blocks) -> Result<(), WriteFault>
    ensures { Writes K.taken K.faults K.lent sink.old sink.new (block_words blocks.now) result }
{
    for k in 0..blocks.len() {
        write_word(sink, &blocks.get(k))?;
    }
    Ok(())
}

/// Writes a block, with a space before it.
fn write_word<K: Sink>(sink: &mut K, block: &Block) -> Result<(), WriteFault>
    ensures { Writes K.taken K.faults K.lent sink.old sink.new (codes " " ++ block_text block.now) result }
{
    write_text(sink, b" ")?;
    write_block(sink, block)
}
