//! The lines that say why a text is refused.
ghost use Rattle.std.specs.Prelude.{◌≡◌, ◌++◌, codes};
ghost use Rattle.std.specs.Fmt.{decimal};
ghost use Rattle.text_kit.specs.Writes.{Writes};
ghost use Rattle.nesc_monitor.specs.Inputs.{input_line, limit_text};
ghost use Rattle.script_lang.specs.declared.fault.InputFault.TheVariants.{BadCommand, OverLimit};

use nesc_base::{Sink, WriteFault};
use script_lang::{InputFault, Limit};
use trace_text::{Piece, write_pieces};

/// Writes the line that says why this text is refused, `commands` or `schedule`, and where.
pub fn tell_input<E: Sink>(err: &mut E, text: &[u8], fault: InputFault) -> Result<(), WriteFault>
    ensures { Writes E.taken E.faults E.lent err.old err.new (input_line text.now fault) result }
{
    match fault {
        InputFault::BadToml => tell_kind(err, text, b"toml"),
        InputFault::BadName => tell_kind(err, text, b"name"),
        InputFault::NoMemory => tell_kind(err, text, b"memory"),
        InputFault::BadKey { table, place } => {
            tell_place(err, text, b"key ", u64::from(table), u64::from(place))
        }
        InputFault::BadWord { line, column } => {
            tell_place(err, text, b"word ", u64::from(line), u64::from(column))
        }
        InputFault::BadCommand { actor, index } => tell_command(err, text, actor, index),
        InputFault::OverLimit { limit, count } => tell_limit(err, text, limit, count),
    }
}

/// Writes the line of a cause that has no place.
fn tell_kind<'a, E: Sink>(err: &mut E, text: &'a [u8], kind: &'a [u8]) -> Result<(), WriteFault>
    ensures { Writes E.taken E.faults E.lent err.old err.new
        (codes "nesc: input " ++ text.now ++ codes " " ++ kind.now ++ codes "\n") result }
{
    let pieces = [
        Piece::Text(b"nesc: input "),
        Piece::Text(text),
        Piece::Text(b" "),
        Piece::Text(kind),
        Piece::Text(b"\n"),
    ];
    write_pieces(err, &pieces)
}

/// Writes the line of a cause whose place has two numbers.
fn tell_place<'a, E: Sink>(
    err: &mut E,
    text: &'a [u8],
    kind: &'a [u8],
    first: u64,
    second: u64,
) -> Result<(), WriteFault>
    ensures { Writes E.taken E.faults E.lent err.old err.new
        (codes "nesc: input " ++ text.now ++ codes " "
        ++ (kind.now ++ decimal first ++ codes " " ++ decimal second) ++ codes "\n") result }
{
    let pieces = [
        Piece::Text(b"nesc: input "),
        Piece::Text(text),
        Piece::Text(b" "),
        Piece::Text(kind),
        Piece::Number(first),
        Piece::Text(b" "),
        Piece::Number(second),
        Piece::Text(b"\n"),
    ];
    write_pieces(err, &pieces)
}

/// Writes the line of a string that is no command of the host, actor 0, or of a guest, by the number of its function.
fn tell_command<E: Sink>(err: &mut E, text: &[u8], actor: u8, index: u32) -> Result<(), WriteFault>
    ensures { Writes E.taken E.faults E.lent err.old err.new (input_line text.now (BadCommand actor index)) result }
{
    if actor == 0 {
        let pieces = [
            Piece::Text(b"nesc: input "),
            Piece::Text(text),
            Piece::Text(b" h "),
            Piece::Number(u64::from(index)),
            Piece::Text(b"\n"),
        ];
        return write_pieces(err, &pieces);
    }
    let pieces = [
        Piece::Text(b"nesc: input "),
        Piece::Text(text),
        Piece::Text(b" g"),
        Piece::Number(u64::from(actor)),
        Piece::Text(b" "),
        Piece::Number(u64::from(index)),
        Piece::Text(b"\n"),
    ];
    write_pieces(err, &pieces)
}

/// Writes the line of a number that is over a limit, with a sign where it is below 0.
fn tell_limit<E: Sink>(err: &mut E, text: &[u8], limit: Limit, count: i64) -> Result<(), WriteFault>
    ensures { Writes E.taken E.faults E.lent err.old err.new (input_line text.now (OverLimit limit count)) result }
{
    let sign: &[u8] = if count < 0 { b"-" } else { b"" };
    let pieces = [
        Piece::Text(b"nesc: input "),
        Piece::Text(text),
        Piece::Text(b" limit "),
        Piece::Text(limit_name(limit)),
        Piece::Text(b" "),
        Piece::Text(sign),
        Piece::Number(count.unsigned_abs()),
        Piece::Text(b"\n"),
    ];
    write_pieces(err, &pieces)
}

/// What a limit is called.
fn limit_name(limit: Limit) -> &'static [u8]
    ensures { result.now ≡ limit_text limit }
{
    match limit {
        Limit::Text => b"text",
        Limit::Functions => b"functions",
        Limit::Queue => b"queue",
        Limit::Pool => b"pool",
        Limit::Btlb => b"btlb",
        Limit::Guests => b"guests",
        Limit::Blocks => b"blocks",
        Limit::Steps => b"steps",
    }
}
