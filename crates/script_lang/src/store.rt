ghost use Rattle.std.specs.Prelude.{◌≡◌, ◌∷◌, ◌++◌, [], length, IfOk, OnOk};
ghost use Rattle.script_lang.specs.Stored.{Grows, IsKeptAmong, IsStored, blocks_at, kept_block};

use nesc_base::{Block, Blocks, NoMemory, PERIOD_BYTES};
use std::alloc::Global;
use std::marker::Model;

/// How a block is kept: by the eight bytes that it repeats, or as one of those that are kept in full, by its place
/// among them.
#[derive(Clone, Copy)]
pub enum Kept {
    Repeats([u8; PERIOD_BYTES]),
    Full(u32),
}

/// A place in a file, 0 to 1,048,575, and the blocks from there on: where the first of them stands in the store,
/// counted from 0, and how many they are, 1 to 64.
#[derive(Clone, Copy)]
pub struct StoredRun {
    pub v: u32,
    pub first: u32,
    pub count: u32,
}

/// The blocks that all commands and requests write, one behind the other.
///
/// A block that repeats eight bytes takes some twelve bytes, and any other 1,024 more.
#[derive(Drop)]
pub struct Store {
    kept: Vec<Kept>,
    full: Vec<Block>,
}

impl Model for Store {
    ghost use Rattle.std.specs.Prelude.{List, length};
    ghost use Rattle.std.specs.List.{All};
    ghost use Rattle.nesc_base.specs.declared.block.Block.{Block};

    ghost Value = { List Block };

    ghost use Rattle.script_lang.specs.Stored.{IsKeptAmong, kept_blocks};

    ghost view = { λ s. kept_blocks s.full.items s.kept.items };

    ghost invariant = { λ s. All (IsKeptAmong (length s.full.items)) s.kept.items };
}

impl Store {
    /// A store of no blocks.
    pub fn new(alloc: Global) -> Store
        ensures { result ≡ [] }
    {
        Store {
            kept: Vec::new(alloc),
            full: Vec::new(alloc),
        }
    }

    /// How many blocks there are, as the place that the next one gets. An `Err` says that there is no such place.
    pub fn place(&self) -> Result<u32, NoMemory>
        ensures { IfOk result (λ place. place ≡ length self.now) }
    {
        u32::try_from(self.kept.len()).ok().ok_or(NoMemory)
    }

    /// Puts a copy of a block behind the others.
    pub fn push(&mut self, block: &Block) -> Result<(), NoMemory>
        ensures { OnOk result (self.new ≡ self.old ++ block.now ∷ []) }
    {
        let kept = keep(&mut self.full, block)?;
        Ok(self.kept.push(kept)?)
    }

    /// Fills a buffer with the blocks of a run.
    pub fn fill(&self, run: StoredRun, into: &mut Blocks)
        requires { IsStored (length self.now) run }
        ensures { into.new ≡ blocks_at self.now run }
    {
        into.refill(run.count);
        for k in 0..run.count {
            match &self.kept[run.first as usize + k as usize] {
                Kept::Repeats(bytes) => into.set_repeated(k, bytes),
                Kept::Full(i) => into.set(k, &self.full[*i as usize]),
            }
        }
    }
}

/// How a block is kept, which is put behind those that are kept in full unless it repeats eight bytes.
fn keep(full: &mut Vec<Block>, block: &Block) -> Result<Kept, NoMemory>
    ensures kept { IfOk result (λ kept. kept_block full.new.items kept ≡ block.now) }
    ensures among { IfOk result (IsKeptAmong (length full.new.items)) }
    ensures grows { Grows full.old.items full.new.items }
{
    if let Some(bytes) = block.period() {
        return Ok(Kept::Repeats(bytes));
    }
    let place = u32::try_from(full.len()).ok().ok_or(NoMemory)?;
    full.push(*block)?;
    Ok(Kept::Full(place))
}
