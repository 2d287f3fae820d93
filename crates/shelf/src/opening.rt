//! The tests that calls begin with, in number order.
ghost use Rattle.std.specs.Prelude.{◌≡◌, ◌≢◌, ◌<◌, ◌≤◌, ◌+◌, ℕ, [], ◌∷◌, length, OnOk, IfOk};
ghost use Rattle.trees.specs.declared.codes.Refusal.TheVariants as refuse;
ghost use Rattle.trees.specs.State.{State, free_cells};
ghost use Rattle.trees.specs.Tests.{◌by◌, too_deep, short_name_row};
ghost use Rattle.shelf.specs.Holds.{Holds};
ghost use Rattle.shelf.specs.Tries.{Tries};
ghost use Rattle.shelf.specs.Questions.{full_test, bare_test, holding, receiving, holding_both, passing, room_test, AreSlots};
ghost use Rattle.shelf.specs.Places.{standing, meeting, leaving, At, IsMet, IsLeft, IsPlain, IsFull, IsBare};
ghost use Rattle.shelf.specs.Patching.{laying, IsReady};

use crate::places::Spot;
use crate::rack::Rack;
use crate::slot::Slot;
use cells::LEVELS;
use names;
use trees::codes::Refusal;

/// The least length of a path row.
const PATH_ROW: usize = LEVELS - 1;

/// A row that a name of any length fits.
pub(crate) fn name_row(row: &[u8]) -> Result<(), Refusal>
    ensures { Tries (short_name_row row.now by refuse.Lent ∷ []) (λ _. 32 ≤ length row.now) result }
{
    if row.len() < names::MOST {
        return Err(Refusal::Lent);
    }
    Ok(())
}

impl<'a> Rack<'a> {
    /// Whether a slot holds a tree.
    fn hold(&self, slot: Slot) -> Result<(), Refusal>
        requires { (s : State) × Holds self.now s }
        ensures tries { (s : State) → Holds self.now s →
            Tries (full_test s slot.number) (λ _. IsFull self.now slot) result }
    {
        if self.size(slot) == 0 {
            return Err(Refusal::Empty);
        }
        Ok(())
    }

    /// Whether a slot is empty.
    fn bare(&self, slot: Slot) -> Result<(), Refusal>
        requires { (s : State) × Holds self.now s }
        ensures tries { (s : State) → Holds self.now s →
            Tries (bare_test s slot.number) (λ _. IsBare self.now slot) result }
    {
        if self.size(slot) > 0 {
            return Err(Refusal::Taken);
        }
        Ok(())
    }

    /// A slot that holds a tree.
    pub(crate) fn full(&self, number: usize) -> Result<Slot, Refusal>
        requires { (s : State) × Holds self.now s }
        ensures tries { (s : State) → Holds self.now s →
            Tries (holding s number) (λ slot. slot.number ≡ number) result }
        ensures full { IfOk result (IsFull self.now) }
    {
        let slot = Slot::try_from(number)?;
        self.hold(slot)?;
        Ok(slot)
    }

    /// A slot that is empty.
    pub(crate) fn empty(&self, number: usize) -> Result<Slot, Refusal>
        requires { (s : State) × Holds self.now s }
        ensures tries { (s : State) → Holds self.now s →
            Tries (receiving s number) (λ slot. slot.number ≡ number) result }
        ensures bare { IfOk result (IsBare self.now) }
    {
        let slot = Slot::try_from(number)?;
        self.bare(slot)?;
        Ok(slot)
    }

    /// Two slots that hold trees.
    pub(crate) fn both_full(&self, first: usize, second: usize) -> Result<(Slot, Slot), Refusal>
        requires { (s : State) × Holds self.now s }
        ensures tries { (s : State) → Holds self.now s →
            Tries (holding_both s first second) (AreSlots first second) result }
        ensures full { IfOk result (λ p. IsFull self.now p.0 × IsFull self.now p.1) }
    {
        let (first, second) = (Slot::try_from(first)?, Slot::try_from(second)?);
        self.hold(first)?;
        self.hold(second)?;
        Ok((first, second))
    }

    /// A slot that holds a tree, and one that is empty.
    pub(crate) fn full_and_empty(&self, from: usize, to: usize) -> Result<(Slot, Slot), Refusal>
        requires { (s : State) × Holds self.now s }
        ensures tries { (s : State) → Holds self.now s →
            Tries (passing s from to) (AreSlots from to) result }
        ensures ok { IfOk result (λ p. IsFull self.now p.0 × IsBare self.now p.1) }
    {
        let (from, to) = (Slot::try_from(from)?, Slot::try_from(to)?);
        self.hold(from)?;
        self.bare(to)?;
        Ok((from, to))
    }

    /// The node at which a call works.
    pub(crate) fn stand(&self, slot: usize, path: &[u16]) -> Result<Spot, Refusal>
        requires { (s : State) × Holds self.now s }
        ensures stands { (s : State) → Holds self.now s →
            Tries (standing s slot path.now) (At s slot path.now) result }
        ensures plain { IfOk result (IsPlain self.now path.now) }
    {
        let slot = self.full(slot)?;
        // the kit cannot build its plan of `ok_or` here, since nothing names a head
        match self.spot(slot, path) {
            None => Err(Refusal::Path),
            Some(spot) => Ok(spot),
        }
    }

    /// The node of a slot's tree to which the second slot's tree is to go.
    pub(crate) fn meet(
        &self,
        slot: usize,
        path: &[u16],
        second: usize,
    ) -> Result<(Spot, Slot), Refusal>
        requires { (s : State) × Holds self.now s }
        ensures meets { (s : State) → Holds self.now s →
            Tries (meeting s slot path.now second) (IsMet s slot path.now second) result }
        ensures plain { IfOk result (λ p. IsPlain self.now path.now p.0) }
        ensures full { IfOk result (λ p. IsFull self.now p.1) }
        ensures apart { IfOk result (λ p. p.0.slot.number ≢ p.1.number) }
    {
        let (slot, second) = self.both_full(slot, second)?;
        if slot.number == second.number {
            return Err(Refusal::Same);
        }
        let spot = self.spot(slot, path).ok_or(Refusal::Path)?;
        Ok((spot, second))
    }

    /// The node of a slot's tree from which a child is to go to the empty second slot.
    pub(crate) fn leave(
        &self,
        slot: usize,
        path: &[u16],
        second: usize,
    ) -> Result<(Spot, Slot), Refusal>
        requires { (s : State) × Holds self.now s }
        ensures leaves { (s : State) → Holds self.now s →
            Tries (leaving s slot path.now second) (IsLeft s slot path.now second) result }
        ensures plain { IfOk result (λ p. IsPlain self.now path.now p.0) }
        ensures bare { IfOk result (λ p. IsBare self.now p.1) }
    {
        let (slot, second) = self.full_and_empty(slot, second)?;
        let spot = self.spot(slot, path).ok_or(Refusal::Path)?;
        Ok((spot, second))
    }

    /// Two slots that hold trees, and a path row that is long enough.
    pub(crate) fn ready(
        &self,
        target: usize,
        second: usize,
        row: &[u16],
    ) -> Result<(Slot, Slot), Refusal>
        requires { (s : State) × Holds self.now s }
        ensures tries { (s : State) → Holds self.now s →
            Tries (laying s target second row.now) (AreSlots target second) result }
        ensures ready { IfOk result (λ p. IsReady self.now p row.now) }
    {
        if row.len() < PATH_ROW {
            return Err(Refusal::Lent);
        }
        let (target, second) = self.both_full(target, second)?;
        if target.number == second.number {
            return Err(Refusal::Same);
        }
        Ok((target, second))
    }

    /// Whether a slot's tree, put under the node to which a path leads, has no level too many.
    pub(crate) fn deep_enough(&self, path: &[u16], second: Slot) -> Result<(), Refusal>
        requires holds { (s : State) × Holds self.now s }
        requires full { IsFull self.now second }
        requires short { length path.now < 16 }
        ensures { (s : State) (j : ℕ) → second.number ≡ j → Holds self.now s →
            Tries (too_deep s path.now j by refuse.Depth ∷ []) (λ _. Unit {0}) result }
    {
        if path.len() + 1 + self.tall(second) > LEVELS {
            return Err(Refusal::Depth);
        }
        Ok(())
    }

    /// Whether so many cells are free.
    pub(crate) fn room_for(&self, size: usize) -> Result<(), Refusal>
        requires { (s : State) × Holds self.now s }
        ensures tries { (s : State) → Holds self.now s → Tries (room_test s size) (λ _. Unit {0}) result }
        ensures room { OnOk result (self.now.used + size ≤ self.now.room) }
    {
        if self.room - self.used < size {
            return Err(Refusal::Room);
        }
        Ok(())
    }
}
