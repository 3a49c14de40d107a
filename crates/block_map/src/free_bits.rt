ghost use Rattle.std.specs.Prelude.{◌≡◌, ◌<◌, ◌^◌, IfOk, MatchOption, false, length, replicate, slice_set, true};
ghost use Rattle.block_map.specs.Bits.{AreClear, IsLowestSet};

use nesc_base::NoMemory;
use std::alloc::Global;
use std::marker::Model;

// How many bits a word has.
const WORD_BITS: u32 = 64;

/// A bit for each of some data blocks, which is set where that is free.
#[derive(Drop)]
pub(crate) struct FreeBits {
    words: Vec<u64>,
    len: u32,
    // no word before this one has a bit that is set
    hint: u32,
}

impl Model for FreeBits {
    ghost use Rattle.std.specs.Prelude.{Bool, List};
    ghost use Rattle.block_map.specs.Bits.{AreBits, bits_of};

    ghost Value = { List Bool };

    ghost view = { λ b. bits_of b.words.items b.len };

    ghost invariant = { λ b. AreBits b.words.items b.len b.hint };
}

impl FreeBits {
    /// So many bits, each of them set. An `Err` says that there is no memory for them; no other call takes any.
    pub fn new(alloc: Global, len: u32) -> Result<FreeBits, NoMemory>
        requires { len < 2 ^ 31 }
        ensures { IfOk result (λ bits. bits ≡ replicate len true) }
    {
        let words = vec![in alloc; 0; len.div_ceil(WORD_BITS) as usize]?;
        let mut bits = FreeBits {
            words,
            len,
            hint: 0,
        };
        bits.set_all();
        Ok(bits)
    }

    /// Sets each bit.
    pub fn set_all(&mut self)
        ensures { self.new ≡ replicate (length self.old) true }
    {
        self.hint = 0;
        let whole = (self.len / WORD_BITS) as usize;
        let rest = self.len % WORD_BITS;
        for w in 0..whole {
            self.words[w] = u64::MAX;
        }
        if rest != 0 {
            self.words[whole] = (1 << rest) - 1;
        }
    }

    /// The lowest bit that is set, if there is one.
    pub fn lowest(&self) -> Option<u32>
        ensures { MatchOption result (AreClear self.now) (IsLowestSet self.now) }
    {
        for w in self.hint as usize..self.words.len() {
            let word = self.words[w];
            if word != 0 {
                return Some(w as u32 * WORD_BITS + word.trailing_zeros());
            }
        }
        None
    }

    /// The same. It begins there when it looks again.
    pub fn seek(&mut self) -> Option<u32>
        ensures lowest { MatchOption result (AreClear self.old) (IsLowestSet self.old) }
        ensures unchanged { self.new ≡ self.old }
    {
        let k = self.lowest()?;
        self.hint = k / WORD_BITS;
        Some(k)
    }

    /// Clears a bit.
    pub fn clear(&mut self, k: u32)
        requires { k < length self.old }
        ensures { self.new ≡ slice_set self.old k false }
    {
        self.words[(k / WORD_BITS) as usize] &= !(1 << (k % WORD_BITS));
    }

    /// Sets a bit.
    pub fn set(&mut self, k: u32)
        requires { k < length self.old }
        ensures { self.new ≡ slice_set self.old k true }
    {
        let w = k / WORD_BITS;
        self.words[w as usize] |= 1 << (k % WORD_BITS);
        self.hint = self.hint.min(w);
    }
}
