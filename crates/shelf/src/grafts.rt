//! Children of a node that are taken out of a slot's tree, or replaced by the tree of another slot.
ghost use Rattle.std.specs.Prelude.{◌≡◌, ◌≢◌, ◌≤◌, ℕ, List, Some};
ghost use Rattle.trees.specs.Tree.{Tree};
ghost use Rattle.trees.specs.State.{State, slot as in_slot};
ghost use Rattle.shelf.specs.Holds.{Holds};
ghost use Rattle.shelf.specs.Places.{IsFull, IsMet, Here};
ghost use Rattle.shelf.specs.Changes.{Grafts, Cuts, Adds};

use crate::places::Spot;
use crate::rack::Rack;
use crate::slot::Slot;
use cells::Cell;
use names::Name;

impl<'a> Rack<'a> {
    /// Puts the second slot's tree in the place of the children of a node from one up to an end, and names
    /// it; the node's cell becomes `cell`. Those children lie loose then.
    pub(crate) fn graft(
        &mut self,
        spot: &Spot,
        from: usize,
        end: usize,
        cell: Cell,
        second: Slot,
        label: Name,
    )
        requires full { IsFull self.old second }
        requires apart { spot.now.slot.number ≢ second.number }
        requires here { Here self.old spot.now end }
        requires order { from ≤ end }
        ensures { (s : State) (j : ℕ) (w : Tree) → Holds self.old s → second.number ≡ j →
            in_slot s.slots j ≡ Some w → Grafts self.new s spot.now from end cell j label w }
    {
        let at = self.gap(spot, from);
        let old = self.gap(spot, end) - at;
        let size = self.lift(second);
        self.rename(label);
        self.trade(spot, cell, at, old, size);
    }

    /// Adds the second slot's tree to the children of a node under a name; those from `i` on shift.
    pub(crate) fn add(&mut self, spot: &Spot, i: usize, second: Slot, label: Name)
        requires full { IsFull self.old second }
        requires apart { spot.now.slot.number ≢ second.number }
        requires here { Here self.old spot.now i }
        ensures { (s : State) (k : ℕ) (path : List ℕ) (j : ℕ) → Holds self.old s →
            (m : IsMet s k path j (spot.now, second)) → Adds self.new m i label }
    {
        let cell = spot.with_children(spot.cell.children + 1);
        self.graft(spot, i, i, cell, second, label);
    }

    // The opposite of `graft`: what both do to the cells is `trade`.

    /// Takes the children of a node from one up to an end out of a slot's tree, and tells how many cells
    /// they have; the node's cell becomes `cell`.
    pub(crate) fn cut(&mut self, spot: &Spot, from: usize, end: usize, cell: Cell) -> usize
        requires here { Here self.old spot.now end }
        requires order { from ≤ end }
        ensures { (s : State) → Holds self.old s → Cuts self.new s spot.now from end cell result }
    {
        let at = self.gap(spot, from);
        let old = self.gap(spot, end) - at;
        self.trade(spot, cell, at, old, 0);
        old
    }
}
