ghost use Rattle.std.specs.Prelude.{◌≡◌, ◌≤◌, MatchResult, length};
ghost use Rattle.nesc_base.specs.Geometry.{slot_room};
ghost use Rattle.image_layout.specs.Opens.{IsDivided};
ghost use Rattle.image_layout.specs.Refusal.{IsRefused};
ghost use Rattle.slot_layout.specs.Slots.{Lays};

use crate::ImageFault;
use nesc_base::{Block, Geometry};
use slot_layout::{SLOTS, is_open, lay_over, list_of};

/// Lays the slots of an image that are to be replayed over a copy of it, in the order of their numbers. `targets` is
/// room for the targets of one slot, and holds anything afterwards.
pub fn lay_slots(
    image: &[Block],
    geometry: Geometry,
    targets: &mut [u32],
    laid: &mut [Block],
) -> Result<(), ImageFault>
    requires divided { IsDivided image.now geometry }
    requires room { slot_room geometry ≤ length targets.old }
    requires copy { laid.old ≡ image.now }
    ensures { MatchResult result (λ _. Lays geometry image.now laid.new) (IsRefused image.now) }
{
    for k in 1..=SLOTS {
        // A gate is looked at in the image itself, so that no slot laid over opens or closes a later one.
        let gate_at = geometry.slot_at(k);
        if !is_open(&image[gate_at as usize]) {
            return Ok(());
        }
        let list_at = gate_at + 1;
        let fresh_at = list_at + geometry.list_blocks();
        let list = &image[list_at as usize..fresh_at as usize];
        let fresh = &image[fresh_at as usize..(fresh_at + geometry.slot_room()) as usize];
        let count = list_of(list, geometry, targets).ok_or(ImageFault::BadList { block: list_at })?;
        lay_over(laid, &targets[..count as usize], fresh);
    }
    Ok(())
}
