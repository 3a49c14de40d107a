ghost use Rattle.std.specs.Prelude.{◌≡◌};
ghost use Rattle.slot_layout.specs.Gate.{is_open, open_gate};

use nesc_base::{BLOCK_BYTES, Block};

/// What an open gate has in all its bytes.
const OPEN: u8 = 0xA5;

/// Whether the gate that this block is stands open.
#[tactic(auto, unfolding(crate::specs::Gate::is_open, crate::specs::Gate::open_gate))]
pub fn is_open(block: &Block) -> bool
    ensures { result ≡ is_open block.now }
{
    block.0 == [OPEN; BLOCK_BYTES]
}

/// A gate that stands open. Any other block is a closed one, as that of zeros.
#[tactic(auto, unfolding(crate::specs::Gate::open_gate))]
pub fn open_gate() -> Block
    ensures { result ≡ open_gate }
{
    Block([OPEN; BLOCK_BYTES])
}

#[cfg(test)]
mod tests {
    use super::is_open;
    use nesc_base::{BLOCK_BYTES, Block};

    #[test]
    fn a_torn_gate_is_closed(rt: HostRuntime) {
        let mut gate = Block([0xA5; BLOCK_BYTES]);
        assert!(rt; is_open(&gate));
        gate.0[BLOCK_BYTES / 2..].fill(0);
        assert!(rt; !is_open(&gate));
    }
}
