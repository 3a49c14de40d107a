ghost use Rattle.std.specs.Prelude.{◌≡◌, ◌<◌, Some, length, slice_get};
ghost use Rattle.nesc_base.specs.Memory.{Fetches, IsNodeOf, KnownMemory, Stores};

/// How many words a node has.
pub const NODE_WORDS: usize = 32;

/// Words of 64 bits, numbered from 0, which the host reads and writes one by one and the device node by node.
///
/// A fetch that gives other words than the memory holds is bent, and is counted. The count never falls, and stands
/// still at 2^64 - 1. Nothing fails.
pub trait Memory {
    /// What is known of the memory: its words, where it tells that from where nodes were fetched, and how many
    /// fetches were bent.
    ghost known: { Self → KnownMemory };

    /// How many words there are, which never changes.
    fn words(&self) -> u32
        ensures { result ≡ length (known self.now).words };

    /// The word at an address, for the host.
    fn load(&self, at: u32) -> u64
        requires { at < length (known self.now).words }
        ensures { slice_get (known self.now).words at ≡ Some result };

    /// Puts a word at an address, for the host.
    fn store(&mut self, at: u32, word: u64)
        requires { at < length (known self.old).words }
        ensures { Stores at word (known self.old) (known self.new) };

    /// The words of the node at an address, a multiple of 32, for the device.
    fn fetch(&mut self, node: u32) -> [u64; NODE_WORDS]
        requires { IsNodeOf (known self.old).words node }
        ensures { Fetches node result (known self.old) (known self.new) };
}
