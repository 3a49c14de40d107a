mod answering;
mod failing;
mod making;
mod opening;
mod refusing;
mod running;
mod tracing;

use nesc_base::{Block, NoMemory};
use nesc_fakes::{MemDisk, MemSink, MemSource};
use nesc_monitor::{Status, run};
use std::alloc::{AllocError, Global};
use std::str::from_utf8;

/// What `run` answers, and what it writes on the two sinks.
#[derive(Drop)]
struct Told {
    status: Status,
    out: MemSink,
    err: MemSink,
}

impl Told {
    /// The status, and what stands on the two sinks.
    fn said(&self) -> (Status, &str, &str) {
        (self.status, text_of(&self.out), text_of(&self.err))
    }
}

fn text_of(sink: &MemSink) -> &str {
    from_utf8(sink.bytes()).unwrap_or("no text")
}

/// What is said where a run comes to its end with this trace.
fn done(trace: &str) -> (Status, &str, &str) {
    (Status::Done, trace, "")
}

fn line_of(alloc: Global, words: &[&str]) -> Result<Vec<String>, AllocError> {
    let mut line = Vec::new(alloc);
    for word in words {
        line.push(String::from_str(alloc, word)?)?;
    }
    Ok(line)
}

/// Bytes of an image: in which block they stand, from which byte of it on, and which they are.
type Piece = (usize, usize, &'static [u8]);

/// The superblock of the least image.
const SUPER: &[u8] = b"NESCHOST\x01\0\0\0\x10\0\0\0\x40\0\0\0\x23\x01";

/// The first so many blocks of the least image, of no files, with these pieces put in it.
fn blocks_of(alloc: Global, size: usize, pieces: &[Piece]) -> Result<Vec<Block>, NoMemory> {
    let mut blocks = vec![in alloc; Block::zero(); size]?;
    for (at, from, bytes) in [(0, 0, SUPER)].iter().chain(pieces) {
        if let Some(block) = blocks.get_mut(*at) {
            for (to, byte) in block.0.iter_mut().skip(*from).zip(*bytes) {
                *to = *byte;
            }
        }
    }
    Ok(blocks)
}

/// A disk of these blocks, of which these reads fail, and these writes and syncs.
fn disk_of(
    alloc: Global,
    blocks: Vec<Block>,
    reads: &[u64],
    writes: &[u64],
) -> Result<MemDisk, NoMemory> {
    let reads = Vec::from_slice(alloc, reads)?;
    let writes = Vec::from_slice(alloc, writes)?;
    Ok(MemDisk::new(alloc, blocks, reads, writes))
}

/// The least image, of no files, of which these reads fail, and these writes and syncs.
fn new_image(alloc: Global, reads: &[u64], writes: &[u64]) -> Result<MemDisk, NoMemory> {
    disk_of(alloc, blocks_of(alloc, 291, &[])?, reads, writes)
}

/// A disk of no blocks.
fn no_disk(alloc: Global) -> MemDisk {
    MemDisk::new(alloc, Vec::new(alloc), Vec::new(alloc), Vec::new(alloc))
}

/// So many times one text behind another.
fn times(alloc: Global, front: &str, piece: &str, n: u32) -> Result<String, AllocError> {
    let mut text = String::from_str(alloc, front)?;
    for _ in 0..n {
        text.push_str(piece)?;
    }
    Ok(text)
}

/// A source of these bytes, of which these reads fail.
fn source_of(alloc: Global, bytes: &[u8], fails: &[u64]) -> Result<MemSource, AllocError> {
    Ok(MemSource::new(
        Vec::from_slice(alloc, bytes)?,
        Vec::from_slice(alloc, fails)?,
    ))
}

/// What `run` answers to words, two texts and an image, where these writes of the trace fail.
fn tell_with(
    alloc: Global,
    words: &[&str],
    mut commands: MemSource,
    mut schedule: MemSource,
    image: &mut MemDisk,
    out_fails: &[u64],
) -> Result<Told, NoMemory> {
    let line = line_of(alloc, words)?;
    let mut spare = no_disk(alloc);
    let mut out = MemSink::new(alloc, Vec::from_slice(alloc, out_fails)?);
    let mut err = MemSink::new(alloc, Vec::new(alloc));
    let status = run(
        alloc,
        line.as_slice(),
        &mut commands,
        &mut schedule,
        image,
        &mut spare,
        &mut out,
        &mut err,
    );
    Ok(Told { status, out, err })
}

/// The same where nothing but the image fails.
fn tell_over(
    alloc: Global,
    words: &[&str],
    commands: &str,
    schedule: &str,
    image: &mut MemDisk,
) -> Result<Told, NoMemory> {
    let commands = source_of(alloc, commands.as_bytes(), &[])?;
    let schedule = source_of(alloc, schedule.as_bytes(), &[])?;
    tell_with(alloc, words, commands, schedule, image, &[])
}

/// What `run` answers over an image.
fn run_over(
    alloc: Global,
    commands: &str,
    schedule: &str,
    image: &mut MemDisk,
) -> Result<Told, NoMemory> {
    tell_over(alloc, &["run"], commands, schedule, image)
}

/// What `run` answers over the least image, of no files.
fn tell(alloc: Global, commands: &str, schedule: &str) -> Result<Told, NoMemory> {
    let mut image = new_image(alloc, &[], &[])?;
    run_over(alloc, commands, schedule, &mut image)
}
