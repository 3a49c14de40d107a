ghost use Rattle.std.specs.Prelude.{◌≡◌};
ghost use Rattle.vf_registers.specs.Registers.{Comes, function_bank, miss_block, miss_count, miss_kind, reads, writes};

use crate::fault::RegFault;
use crate::numbers::{MISS_BLOCK, MISS_COUNT, MISS_KIND, REWALK, ROOT, SIZE};
use nesc_requests::{Kind, Miss};

/// What stands in the registers of one virtual function.
#[derive(Clone, Copy, Debug)]
pub(crate) struct Function {
    /// The length of its file, in blocks.
    pub size: u64,
    /// The address of the root of its tree, or 0.
    pub root: u64,
    /// What it waits for, if it waits.
    pub miss: Option<Miss>,
}

impl Function {
    /// Without a file, a tree or a miss.
    pub const QUIET: Function = Function {
        size: 0,
        root: 0,
        miss: None,
    };

    /// What the register of a number reads as.
    pub fn read(&self, number: u32) -> Result<u64, RegFault>
        ensures { result ≡ reads (function_bank self.now) number }
    {
        match number {
            SIZE => Ok(self.size),
            ROOT => Ok(self.root),
            MISS_BLOCK => Ok(self.miss_block()),
            MISS_COUNT => Ok(self.miss_count()),
            MISS_KIND => Ok(self.miss_kind()),
            REWALK => Ok(0),
            _ => Err(RegFault::NoRegister { number }),
        }
    }

    /// Writes a value into the register of a number.
    pub fn write(&mut self, number: u32, value: u64) -> Result<(), RegFault>
        ensures { Comes (writes (function_bank self.old) number value) result self.old self.new }
    {
        match number {
            SIZE => self.size = value,
            ROOT => self.root = value,
            MISS_BLOCK | MISS_COUNT | MISS_KIND => return Err(RegFault::ReadOnly { number }),
            REWALK => self.miss = None,
            _ => return Err(RegFault::NoRegister { number }),
        }
        Ok(())
    }

    // What its three registers of a miss read as.

    fn miss_block(&self) -> u64
        ensures { result ≡ miss_block self.now.miss }
    {
        match &self.miss {
            Some(miss) => u64::from(miss.v),
            None => 0,
        }
    }

    fn miss_count(&self) -> u64
        ensures { result ≡ miss_count self.now.miss }
    {
        match &self.miss {
            Some(miss) => u64::from(miss.n),
            None => 0,
        }
    }

    fn miss_kind(&self) -> u64
        ensures { result ≡ miss_kind self.now.miss }
    {
        match &self.miss {
            Some(miss) => match miss.kind {
                Kind::Pruned => 1,
                Kind::Unmapped => 2,
            },
            None => 0,
        }
    }
}
