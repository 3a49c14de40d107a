ghost use Rattle.std.specs.Prelude.{◌≡◌};
ghost use Rattle.nesc_base.specs.Block.{zero_block};
ghost use Rattle.nesc_base.specs.BlockText.{period_of, repeated};

/// How many bytes a block has.
pub const BLOCK_BYTES: usize = 1024;

/// How many bytes a block repeats, if it does.
pub const PERIOD_BYTES: usize = 8;

/// What is read and written at one place of a disk or a file: 1024 bytes.
#[derive(Clone, Copy, Debug, PartialEq, Eq)]
pub struct Block(pub [u8; BLOCK_BYTES]);

impl Block {
    /// The block of zeros, which stands wherever nobody has written.
    #[tactic(auto, unfolding(crate::specs::Block::zero_block))]
    pub fn zero() -> Block
        ensures { result ≡ zero_block }
    {
        Block([0; BLOCK_BYTES])
    }

    /// The block that has these eight bytes 128 times.
    pub fn repeated(bytes: &[u8; PERIOD_BYTES]) -> Block
        ensures { result ≡ repeated bytes.now }
    {
        let mut all = [0; BLOCK_BYTES];
        for k in 0..BLOCK_BYTES / PERIOD_BYTES {
            all[k * PERIOD_BYTES..(k + 1) * PERIOD_BYTES].copy_from_slice(bytes);
        }
        Block(all)
    }

    /// The eight bytes that the block has 128 times, or `None` where it does not repeat.
    pub fn period(&self) -> Option<[u8; PERIOD_BYTES]>
        ensures { result ≡ period_of self.now }
    {
        let mut period = [0; PERIOD_BYTES];
        period.copy_from_slice(&self.0[..PERIOD_BYTES]);
        if *self == Block::repeated(&period) {
            Some(period)
        } else {
            None
        }
    }
}
