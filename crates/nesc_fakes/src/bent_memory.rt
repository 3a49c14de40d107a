ghost use Rattle.std.specs.Prelude.{◌≡◌, ◌≢◌, ℕ, ◌-◌, ◌<◌, List, Some, length, slice_get};
ghost use Rattle.nesc_base.specs.Count.{risen};
ghost use Rattle.nesc_base.specs.Memory.{Fetches, IsNodeOf, Stores};

use nesc_base::{Memory, NODE_WORDS};
use std::marker::Model;

/// A memory over another, to which it passes every call on. One fetch is bent: it gives other words than those that the
/// memory holds, and from then on the count of bent fetches is that of the inner memory and one more, up to 2^64 - 1.
#[derive(Debug, Drop)]
pub struct BentMemory<M> {
    inner: M,
    // the number of the bent fetch among those to come, from 1 on, or 0 where none is
    ahead: u64,
    given: [u64; NODE_WORDS],
    // how many fetches were bent here
    bent: u64,
}

impl<M> Model for BentMemory<M> {
    ghost use Rattle.nesc_fakes.specs.BentMemory.{BentMemoryState};

    ghost Value = { BentMemoryState M };

    ghost view = { λ memory. record {
      inner = memory.inner;
      ahead = memory.ahead;
      given = memory.given;
      bent = memory.bent;
    } };
}

impl<M> BentMemory<M> {
    /// A memory over `inner`, whose fetch with the number `at`, from 1 on, gives these words. With 0 none is bent.
    pub fn new(inner: M, at: u64, words: [u64; NODE_WORDS]) -> BentMemory<M>
        ensures { result ≡ record { inner = inner; ahead = at; given = words; bent = 0 } }
    {
        BentMemory {
            inner,
            ahead: at,
            given: words,
            bent: 0,
        }
    }

    /// The memory that calls are passed on to.
    pub fn inner(&self) -> &M
        ensures { result.now ≡ self.now.inner }
    {
        &self.inner
    }
}

impl<M: Memory> Memory for BentMemory<M> {
    ghost use Rattle.nesc_fakes.specs.BentMemory.{known_of};

    ghost known = { known_of M.known };

    fn words(&self) -> u32
        ensures { result ≡ length (M.known self.now.inner).words }
    {
        self.inner.words()
    }

    fn load(&self, at: u32) -> u64
        requires { at < length (M.known self.now.inner).words }
        ensures { slice_get (M.known self.now.inner).words at ≡ Some result }
    {
        self.inner.load(at)
    }

    fn store(&mut self, at: u32, word: u64)
        requires { at < length (M.known self.old.inner).words }
        ensures stores { Stores at word (known_of M.known self.old) (known_of M.known self.new) }
        ensures passed { self.new ≡ record self.old { inner = self.new.inner } }
    {
        self.inner.store(at, word);
    }

    /// The words that the inner memory gives, or those of the bent fetch where its turn has come. Either way the inner
    /// memory is fetched from.
    fn fetch(&mut self, node: u32) -> [u64; NODE_WORDS]
        requires { IsNodeOf (M.known self.old.inner).words node }
        ensures fetches { Fetches node result (known_of M.known self.old) (known_of M.known self.new) }

        // The bent one gives its words, and is counted.
        ensures bent { self.old.ahead ≡ 1 → result ≡ self.old.given }
        ensures counted { self.old.ahead ≡ 1 → self.new ≡ record self.old {
          inner = self.new.inner;
          ahead = 0;
          bent = risen self.old.bent;
        } }
        ensures inner { self.old.ahead ≡ 1
            → (words : List ℕ) × Fetches node words (M.known self.old.inner) (M.known self.new.inner) }

        // Any other gives what the inner memory gives, and comes before the bent one or behind it.
        ensures passed { self.old.ahead ≢ 1 → Fetches node result (M.known self.old.inner) (M.known self.new.inner) }
        ensures nearer { self.old.ahead ≢ 1 → self.new ≡ record self.old {
          inner = self.new.inner;
          ahead = self.old.ahead - 1;
        } }
    {
        let fetched = self.inner.fetch(node);
        match self.ahead {
            0 => fetched,
            1 => {
                self.ahead = 0;
                self.bent = self.bent.saturating_add(1);
                self.given
            }
            _ => {
                self.ahead -= 1;
                fetched
            }
        }
    }
}
