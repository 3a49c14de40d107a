ghost use Rattle.std.specs.Prelude.{◌≡◌, ◌<◌, ◌≤◌, length};
ghost use Rattle.std.specs.List.{All};
ghost use Rattle.slot_layout.specs.Slots.{laid_over};

use nesc_base::Block;

/// How many slots an image has.
pub const SLOTS: u32 = 4;

/// Puts each fresh block where its target says, for as many as there are targets.
pub fn lay_over(blocks: &mut [Block], targets: &[u32], fresh: &[Block])
    requires enough { length targets.now ≤ length fresh.now }
    requires within { All (λ at. at < length blocks.old) targets.now }
    ensures { blocks.new ≡ laid_over targets.now fresh.now blocks.old }
{
    for (i, target) in targets.iter().enumerate() {
        blocks[*target as usize] = fresh[i];
    }
}
