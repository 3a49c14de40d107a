ghost use Rattle.std.specs.Prelude.{◌≡◌, ◌<◌, ◌≤◌, IfOk, Some, length, replicate, slice_get, slice_set, vec_capacity};
ghost use Rattle.nesc_base.specs.Block.{zero_block};
ghost use Rattle.nesc_base.specs.BlockText.{repeated};
ghost use Rattle.nesc_base.specs.Blocks.{most_in_request, zero_form};

use crate::{Block, NoMemory, PERIOD_BYTES};
use std::alloc::Global;
use std::marker::Model;

/// How many blocks one request, put, map or get has at most.
pub const MOST_IN_REQUEST: u32 = 64;

/// How a block is kept: by the eight bytes that it repeats, or as one of those that are kept in full, by its place
/// among them.
#[derive(Clone, Copy, Debug)]
enum Form {
    Repeats([u8; PERIOD_BYTES]),
    Full(u8),
}

/// The blocks of one request or command: 1 to 64 of them.
///
/// The memory is asked for once, when they are made, and has room for 64 blocks however many they are: so they are
/// filled again without asking for more. Of that only what they were given is touched: eight bytes for a block that
/// repeats them, as a block of zeros does, and 1024 for any other.
#[derive(Debug, Drop)]
pub struct Blocks {
    forms: Vec<Form>,
    full: Vec<Block>,
}

impl Model for Blocks {
    ghost use Rattle.std.specs.Prelude.{List, vec_capacity};
    ghost use Rattle.nesc_base.specs.declared.block.Block.{Block};
    ghost use Rattle.nesc_base.specs.Blocks.{AreKept, blocks_in};

    ghost Value = { List Block };

    ghost view = { λ b. blocks_in b.forms.items b.full.items };

    ghost invariant = { λ b. AreKept b.forms.items b.full.items (vec_capacity b.forms) (vec_capacity b.full) };
}

impl Blocks {
    /// So many blocks of zeros, 1 to 64. An `Err` says that there is no memory for 64 blocks.
    pub fn zeros(alloc: Global, n: u32) -> Result<Blocks, NoMemory>
        requires some { 1 ≤ n }
        requires within { n ≤ most_in_request }
        ensures { IfOk result (λ blocks. blocks ≡ replicate n zero_block) }
    {
        let mut forms = Vec::with_capacity(alloc, MOST_IN_REQUEST as usize)?;
        let full = Vec::with_capacity(alloc, MOST_IN_REQUEST as usize)?;
        make_zeros(&mut forms, n);
        Ok(Blocks { forms, full })
    }

    /// Makes it so many blocks of zeros, 1 to 64, in the memory that it has.
    pub fn refill(&mut self, n: u32)
        requires some { 1 ≤ n }
        requires within { n ≤ most_in_request }
        ensures { self.new ≡ replicate n zero_block }
    {
        make_zeros(&mut self.forms, n);
        self.full.clear();
    }

    /// How many blocks there are, 1 to 64.
    pub fn len(&self) -> u32
        ensures count { result ≡ length self.now }
        ensures some { 1 ≤ result }
        ensures within { result ≤ most_in_request }
    {
        self.forms.len() as u32
    }

    /// The block at a place, counted from 0.
    pub fn get(&self, k: u32) -> Block
        requires { k < length self.now }
        ensures { slice_get self.now k ≡ Some result }
    {
        match &self.forms[k as usize] {
            Form::Repeats(bytes) => Block::repeated(bytes),
            Form::Full(i) => self.full[usize::from(*i)],
        }
    }

    /// Puts a copy of the block at a place, counted from 0.
    pub fn set(&mut self, k: u32, block: &Block)
        requires { k < length self.old }
        ensures { self.new ≡ slice_set self.old k block.now }
    {
        if let Form::Full(i) = self.forms[k as usize] {
            self.full[usize::from(i)] = *block;
            return;
        }
        if let Some(bytes) = block.period() {
            self.forms[k as usize] = Form::Repeats(bytes);
            return;
        }
        self.forms[k as usize] = Form::Full(self.full.len() as u8);
        self.full.push_reserved(*block);
    }
    /// Puts a block that repeats these eight bytes at a place, counted from 0.
    pub fn set_repeated(&mut self, k: u32, bytes: &[u8; PERIOD_BYTES])
        requires { k < length self.old }
        ensures { self.new ≡ slice_set self.old k (repeated bytes.now) }
    {
        if let Form::Full(i) = self.forms[k as usize] {
            self.full[usize::from(i)] = Block::repeated(bytes);
            return;
        }
        self.forms[k as usize] = Form::Repeats(*bytes);
    }
}

/// Makes them the forms of so many blocks of zeros, in the memory that they have.
fn make_zeros(forms: &mut Vec<Form>, n: u32)
    requires { n ≤ vec_capacity forms.old }
    ensures items { forms.new.items ≡ replicate n zero_form }
    ensures capacity { vec_capacity forms.old ≤ vec_capacity forms.new }
{
    forms.clear();
    let Ok(()) = forms.resize(n as usize, Form::Repeats([0; PERIOD_BYTES])) else {
        unreachable!()
    };
}
