ghost use Rattle.std.specs.Prelude.{◌≡◌, ◌≤◌, ◌++◌, codes};
ghost use Rattle.std.specs.List.{flat_map};
ghost use Rattle.nesc_requests.specs.Machine.{most_functions};
ghost use Rattle.nesc_requests.specs.declared.host.HostAnswer.{HostAnswer};
ghost use Rattle.plain_machine.specs.Groups.{end_group, functions_in, group_of, guest_of};
ghost use Rattle.plain_machine.specs.Groups.{line_of, path_told, reply_line_of};
ghost use Rattle.plain_machine.specs.Groups as line;
ghost use Rattle.plain_machine.specs.Lines.{block_words, commit_text, done_text, drop_text, function_text};
ghost use Rattle.plain_machine.specs.Lines.{group_text, kind_text, line_text, path_text, reply_text};
ghost use Rattle.trace_text.specs.Ends.{blocks_told, end_number, end_word};
ghost use Rattle.text_kit.specs.Writes.{Writes};
ghost use Rattle.trace_text.specs.Behind.{behind_text, drop_of, last_text};
ghost use Rattle.trace_text.specs.Pieces.{piece_text};

use crate::pieces::{Piece, write_pieces};
use nesc_base::{FnNo, Sink, WriteFault};
use nesc_requests::{End, HostAnswer, Kind, Machine, Miss, Reply, Request, Word};
use plain_machine::{Answer, Built, Handled, How, Outcome};
use text_kit::write_text;

/// Writes the lines of a step that this word made, which came to this outcome: the clock of a commit before it, what
/// happened, the trees that were given up and the path that was built, the clock of a flush or a `sync`, and the reply.
///
/// An `Err` says that the sink failed. Whatever it answers, the sink has taken the first bytes of these lines.
pub fn write_step<K: Sink>(sink: &mut K, word: Word, outcome: &Outcome) -> Result<(), WriteFault>
    ensures { Writes K.taken K.faults K.lent sink.old sink.new (group_text (group_of word outcome.now)) result }
{
    write_commit(sink, outcome.before)?;
    write_answer(sink, word, &outcome.answer)?;
    write_behind(sink, outcome)
}

/// Writes the lines behind that of what happened.
fn write_behind<K: Sink>(sink: &mut K, outcome: &Outcome) -> Result<(), WriteFault>
    ensures { Writes K.taken K.faults K.lent sink.old sink.new (behind_text outcome.now) result }
{
    write_drops(sink, outcome.drops)?;
    write_path(sink, &outcome.answer, outcome.built)?;
    write_end_of_step(sink, outcome)
}

/// Writes the lines that end a step: the clock of a flush or a `sync`, and the reply.
fn write_end_of_step<K: Sink>(sink: &mut K, outcome: &Outcome) -> Result<(), WriteFault>
    ensures { Writes K.taken K.faults K.lent sink.old sink.new (last_text outcome.now) result }
{
    write_commit(sink, outcome.after)?;
    match &outcome.reply {
        None => Ok(()),
        Some(reply) => write_reply(sink, reply),
    }
}

/// Writes the line of a commit, if there was one.
fn write_commit<K: Sink>(sink: &mut K, clock: Option<u64>) -> Result<(), WriteFault>
    ensures { Writes K.taken K.faults K.lent sink.old sink.new (commit_text clock) result }
{
    let Some(clock) = clock else {
        return Ok(());
    };
    write_pieces(
        sink,
        &[Piece::Text(b"c "), Piece::Number(clock), Piece::Text(b"\n")],
    )
}

/// Writes a line for each tree that was given up, by the bits of their functions.
fn write_drops<K: Sink>(sink: &mut K, bits: u16) -> Result<(), WriteFault>
    ensures { Writes K.taken K.faults K.lent sink.old sink.new (flat_map drop_text (functions_in bits)) result }
{
    if bits == 0 {
        return Ok(());
    }
    for f in 1..=Machine::MOST_FUNCTIONS {
        write_drop(sink, bits, f)?;
    }
    Ok(())
}

/// Writes the line of the tree of a function, 1 to 16, if its bit is set.
fn write_drop<K: Sink>(sink: &mut K, bits: u16, f: u8) -> Result<(), WriteFault>
    requires some { 1 ≤ f }
    requires among { f ≤ most_functions }
    ensures { Writes K.taken K.faults K.lent sink.old sink.new (drop_of bits f) result }
{
    if bits >> (f - 1) & 1 == 0 {
        return Ok(());
    }
    let f = Piece::Number(u64::from(f));
    write_pieces(sink, &[Piece::Text(b"d "), f, Piece::Text(b"\n")])
}

/// Writes the line of a path that was built, for the function that was handled.
fn write_path<K: Sink>(
    sink: &mut K,
    answer: &Answer,
    built: Option<Built>,
) -> Result<(), WriteFault>
    ensures { Writes K.taken K.faults K.lent sink.old sink.new (path_text (path_told answer.now built)) result }
{
    let (Answer::Handled(f, _), Some(built)) = (answer, built) else {
        return Ok(());
    };
    write_pieces(
        sink,
        &[
            Piece::Text(b"b "),
            Piece::Number(u64::from(f.0)),
            Piece::Text(b" "),
            Piece::Number(u64::from(built.from)),
            Piece::Text(b" "),
            Piece::Number(u64::from(built.to)),
            Piece::Text(b" "),
            Piece::Number(u64::from(built.nodes)),
            Piece::Text(b"\n"),
        ],
    )
}

/// Writes the line of a word that drew no event, since the host or the guest whose turn it was had nothing left to
/// give. For other words, which give nothing of the kind, nothing is written.
///
/// An `Err` says that the sink failed. Whatever it answers, the sink has taken the first bytes of the line.
pub fn write_end<K: Sink>(sink: &mut K, word: Word) -> Result<(), WriteFault>
    ensures { Writes K.taken K.faults K.lent sink.old sink.new (group_text (end_group word)) result }
{
    match word {
        Word::H => write_text(sink, b"h end\n"),
        Word::G(f) => write_guest(sink, f, b" end\n"),
        Word::T | Word::I(_) | Word::P(_) | Word::PAt(..) | Word::E | Word::X => Ok(()),
    }
}

/// Writes the last line, which tells how many words the schedule had.
///
/// An `Err` says that the sink failed. Whatever it answers, the sink has taken the first bytes of the line.
pub fn write_done<K: Sink>(sink: &mut K, steps: u64) -> Result<(), WriteFault>
    ensures { Writes K.taken K.faults K.lent sink.old sink.new (done_text steps) result }
{
    write_pieces(
        sink,
        &[
            Piece::Text(b"done "),
            Piece::Number(steps),
            Piece::Text(b"\n"),
        ],
    )
}

/// Writes the line of what happened in a step that this word made.
fn write_answer<K: Sink>(sink: &mut K, word: Word, answer: &Answer) -> Result<(), WriteFault>
    ensures { Writes K.taken K.faults K.lent sink.old sink.new (line_text (line_of word answer.now)) result }
{
    match answer {
        Answer::Queued(id) => write_queued(sink, guest_of(word), *id),
        Answer::Full(_) => write_guest(sink, guest_of(word), b" full\n"),
        Answer::Off(_) => write_guest(sink, guest_of(word), b" off\n"),
        Answer::Idle => write_text(sink, b"t idle\n"),
        Answer::Served { f, v, how } => write_served(sink, *f, *v, *how),
        Answer::Flushed(f) => write_function(sink, b"t ", *f, b" flush\n"),
        Answer::Missed { f, miss, fetched } => write_missed(sink, *f, *miss, *fetched),
        Answer::Host(answer) => write_host(sink, answer),
        Answer::Handled(f, handled) => write_handled(sink, *f, *handled),
        Answer::Pruned(f) => write_function(sink, b"p ", *f, b"\n"),
        Answer::PrunedAt(f, leaf) => write_pruned(sink, *f, *leaf),
        Answer::Evicted => write_text(sink, b"e\n"),
        Answer::Restarted => write_text(sink, b"x\n"),
    }
}

/// The function of the guest whose turn it is, and 0 where it is no guest's.
fn guest_of(word: Word) -> FnNo
    ensures { result ≡ guest_of word }
{
    match word {
        Word::G(f) => f,
        _ => FnNo(0),
    }
}

/// Writes the line of a request that waits now.
fn write_queued<K: Sink>(sink: &mut K, f: FnNo, id: u64) -> Result<(), WriteFault>
    ensures { Writes K.taken K.faults K.lent sink.old sink.new (line_text (line.queued f id)) result }
{
    write_pieces(
        sink,
        &[
            Piece::Text(b"g "),
            Piece::Number(u64::from(f.0)),
            Piece::Text(b" "),
            Piece::Number(id),
            Piece::Text(b"\n"),
        ],
    )
}

/// Writes a line of a guest, which ends in this text.
fn write_guest<K: Sink>(sink: &mut K, f: FnNo, end: &[u8]) -> Result<(), WriteFault>
    ensures { Writes K.taken K.faults K.lent sink.old sink.new (codes "g " ++ function_text f ++ end.now) result }
{
    write_function(sink, b"g ", f, end)
}

/// Writes a line that begins so, tells a function, and ends so.
fn write_function<K: Sink>(
    sink: &mut K,
    begin: &[u8],
    f: FnNo,
    end: &[u8],
) -> Result<(), WriteFault>
    ensures { Writes K.taken K.faults K.lent sink.old sink.new (begin.now ++ function_text f ++ end.now) result }
{
    write_text(sink, begin)?;
    let f = Piece::Number(u64::from(f.0));
    write_pieces(sink, &[f, Piece::Text(end)])
}

/// Writes the line of a leaf that was given up, with the blocks that it covered, or that none covered the block.
fn write_pruned<K: Sink>(sink: &mut K, f: FnNo, leaf: Option<(u32, u32)>) -> Result<(), WriteFault>
    ensures { Writes K.taken K.faults K.lent sink.old sink.new (line_text (line.pruned_at f leaf)) result }
{
    let Some((from, to)) = leaf else {
        return write_function(sink, b"p ", f, b" none\n");
    };
    write_pieces(
        sink,
        &[
            Piece::Text(b"p "),
            Piece::Number(u64::from(f.0)),
            Piece::Text(b" "),
            Piece::Number(u64::from(from)),
            Piece::Text(b" "),
            Piece::Number(u64::from(to)),
            Piece::Text(b"\n"),
        ],
    )
}

/// Writes the line of what the host is answered.
fn write_host<K: Sink>(sink: &mut K, answer: &HostAnswer) -> Result<(), WriteFault>
    ensures { Writes K.taken K.faults K.lent sink.old sink.new (line_text (line.host answer.now)) result }
{
    match answer {
        HostAnswer::Ok => write_text(sink, b"h ok\n"),
        HostAnswer::Exists => write_text(sink, b"h exists\n"),
        HostAnswer::NoSlot => write_text(sink, b"h noslot\n"),
        HostAnswer::NoFile => write_text(sink, b"h nofile\n"),
        HostAnswer::Range => write_text(sink, b"h range\n"),
        HostAnswer::Got(blocks) => {
            let pieces = [
                Piece::Text(b"h data"),
                Piece::Words(blocks),
                Piece::Text(b"\n"),
            ];
            write_pieces(sink, &pieces)
        }
        HostAnswer::NoSpace { free, needed } => write_pieces(
            sink,
            &[
                Piece::Text(b"h nospace "),
                Piece::Number(u64::from(*free)),
                Piece::Text(b" "),
                Piece::Number(u64::from(*needed)),
                Piece::Text(b"\n"),
            ],
        ),
        HostAnswer::Media => write_text(sink, b"h media\n"),
        HostAnswer::NotAttached => write_text(sink, b"h notattached\n"),
        HostAnswer::Queued => write_text(sink, b"h queued\n"),
        HostAnswer::Attached => write_text(sink, b"h attached\n"),
        HostAnswer::Regs {
            size,
            block,
            count,
            kind,
            pending,
        } => write_registers(sink, *size, *block, *count, *kind, *pending),
        HostAnswer::FunctionTaken => write_text(sink, b"h functiontaken\n"),
        HostAnswer::FileTaken => write_text(sink, b"h filetaken\n"),
    }
}

/// Writes the line of a function's registers.
fn write_registers<K: Sink>(
    sink: &mut K,
    size: u32,
    block: u32,
    count: u32,
    kind: u32,
    pending: u32,
) -> Result<(), WriteFault>
    ensures { Writes K.taken K.faults K.lent sink.old sink.new
        (line_text (line.host (HostAnswer.Regs size block count kind pending))) result }
{
    write_pieces(
        sink,
        &[
            Piece::Text(b"h regs "),
            Piece::Number(u64::from(size)),
            Piece::Text(b" "),
            Piece::Number(u64::from(block)),
            Piece::Text(b" "),
            Piece::Number(u64::from(count)),
            Piece::Text(b" "),
            Piece::Number(u64::from(kind)),
            Piece::Text(b" "),
            Piece::Number(u64::from(pending)),
            Piece::Text(b"\n"),
        ],
    )
}

/// Writes the line of a block that the device came to.
fn write_served<K: Sink>(sink: &mut K, f: FnNo, v: u32, how: How) -> Result<(), WriteFault>
    ensures { Writes K.taken K.faults K.lent sink.old sink.new (line_text (line.served f v how)) result }
{
    let (word, fetched) = match how {
        How::Hit => (b" hit".as_slice(), Piece::Text(b"")),
        How::Walk(fetched) => (b" walk ".as_slice(), Piece::Number(u64::from(fetched))),
        How::Hole(fetched) => (b" hole ".as_slice(), Piece::Number(u64::from(fetched))),
        How::Range => (b" range".as_slice(), Piece::Text(b"")),
    };
    write_pieces(
        sink,
        &[
            Piece::Text(b"t "),
            Piece::Number(u64::from(f.0)),
            Piece::Text(b" "),
            Piece::Number(u64::from(v)),
            Piece::Text(word),
            fetched,
            Piece::Text(b"\n"),
        ],
    )
}

/// The word for why a function cannot go on.
fn kind_text(kind: Kind) -> &'static [u8]
    ensures { result.now ≡ kind_text kind }
{
    match kind {
        Kind::Pruned => b"pruned",
        Kind::Unmapped => b"unmapped",
    }
}

/// Writes the line of a function that cannot go on.
fn write_missed<K: Sink>(sink: &mut K, f: FnNo, miss: Miss, fetched: u32) -> Result<(), WriteFault>
    ensures { Writes K.taken K.faults K.lent sink.old sink.new
        (line_text (line.missed f miss.v miss.kind fetched)) result }
{
    write_pieces(
        sink,
        &[
            Piece::Text(b"t "),
            Piece::Number(u64::from(f.0)),
            Piece::Text(b" "),
            Piece::Number(u64::from(miss.v)),
            Piece::Text(b" miss "),
            Piece::Text(kind_text(miss.kind)),
            Piece::Text(b" "),
            Piece::Number(u64::from(fetched)),
            Piece::Text(b"\n"),
        ],
    )
}

/// Writes the line of what the host did for a function.
fn write_handled<K: Sink>(sink: &mut K, f: FnNo, handled: Handled) -> Result<(), WriteFault>
    ensures { Writes K.taken K.faults K.lent sink.old sink.new (line_text (line.handled f handled)) result }
{
    let host = Piece::Text(b"i ");
    let f = Piece::Number(u64::from(f.0));
    match handled {
        Handled::None => write_pieces(sink, &[host, f, Piece::Text(b" none\n")]),
        Handled::Built => write_pieces(sink, &[host, f, Piece::Text(b" built\n")]),
        Handled::NoSpace => write_pieces(sink, &[host, f, Piece::Text(b" nospace\n")]),
        Handled::Held { count } => {
            let count = Piece::Number(u64::from(count));
            write_pieces(
                sink,
                &[host, f, Piece::Text(b" hold "), count, Piece::Text(b"\n")],
            )
        }
    }
}

/// The word for how a request ended.
fn end_word(end: End) -> &'static [u8]
    ensures { result.now ≡ end_word end }
{
    match end {
        End::Ok => b"ok ",
        End::Range => b"range ",
        End::NoSpace => b"nospace ",
        End::Media => b"media ",
        End::Flushed(_) => b"flushed ",
    }
}

/// The number behind it: how many blocks are done, or the clock of a flush.
fn end_number(end: End, done: u32) -> u64
    ensures { result ≡ end_number end done }
{
    match end {
        End::Flushed(clock) => clock,
        _ => u64::from(done),
    }
}

/// The blocks that a reply tells: those of a read that is done, and else none.
fn blocks_told(reply: &Reply) -> Piece<'_>
    ensures { piece_text result ≡ block_words (blocks_told reply.now.end reply.now.request) }
{
    match (reply.end, &reply.request) {
        (End::Ok, Request::Read { into, .. }) => Piece::Words(into),
        _ => Piece::Text(b""),
    }
}

/// Writes the line of what a guest is answered.
fn write_reply<K: Sink>(sink: &mut K, reply: &Reply) -> Result<(), WriteFault>
    ensures { Writes K.taken K.faults K.lent sink.old sink.new (reply_text (Some (reply_line_of reply.now))) result }
{
    write_pieces(
        sink,
        &[
            Piece::Text(b"r "),
            Piece::Number(u64::from(reply.f.0)),
            Piece::Text(b" "),
            Piece::Number(reply.id),
            Piece::Text(b" "),
            Piece::Text(end_word(reply.end)),
            Piece::Number(end_number(reply.end, reply.done)),
            blocks_told(reply),
            Piece::Text(b"\n"),
        ],
    )
}
