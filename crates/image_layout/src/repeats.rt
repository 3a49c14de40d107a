ghost use Rattle.std.specs.Prelude.{◌≡◌, ◌<◌, ℕ, MatchOption, slice_get};
ghost use Rattle.image_layout.specs.Opens.{Repeats};
ghost use Rattle.nesc_base.specs.Places.{Owner};

use nesc_base::FileNo;

/// The owner of the first data block whose owner an earlier one has.
pub fn first_repeated(owners: &[Option<(FileNo, u32)>]) -> Option<(FileNo, u32)>
    ensures { MatchOption result ((k : ℕ) (owner : Owner) → ¬ Repeats owners.now k owner) (λ owner.
        (k : ℕ) × Repeats owners.now k owner × ((j : ℕ) (earlier : Owner) → j < k → ¬ Repeats owners.now j earlier)) }
{
    for (k, owner) in owners.iter().enumerate() {
        if owner.is_some() && owners[..k].contains(owner) {
            return *owner;
        }
    }
    None
}
