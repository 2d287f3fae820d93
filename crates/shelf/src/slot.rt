//! Slots, numbered from 0 to 15.
ghost use Rattle.std.specs.Prelude.{◌≡◌, ◌<◌, [], ◌∷◌};
ghost use Rattle.trees.specs.declared.codes.Refusal.TheVariants.{Slot as no_slot};
ghost use Rattle.trees.specs.State.{slot_count};
ghost use Rattle.trees.specs.Tests.{◌by◌, over};
ghost use Rattle.shelf.specs.Tries.{Tries};

use trees::codes::Refusal;

/// How many slots there are.
pub(crate) const SLOTS: usize = 16;

/// A slot.
#[derive(Clone, Copy, Debug, PartialEq, Eq)]
pub(crate) struct Slot {
    pub(crate) number: usize,
    ghost low: { number < slot_count },
}

impl TryFrom<usize> for Slot {
    type Error = Refusal;

    ghost try_from_gives = { λ n r. Tries (over n by no_slot ∷ []) (λ s. s.number ≡ n) r };

    fn try_from(number: usize) -> Result<Slot, Refusal> {
        if number >= SLOTS {
            return Err(Refusal::Slot);
        }
        Ok(Slot { number })
    }
}
