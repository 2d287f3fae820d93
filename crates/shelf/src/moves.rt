//! Runs of cells that are taken out of a slot's tree or put into one. What is moved lies loose in between, behind the used cells.
ghost use Rattle.std.specs.Prelude.{◌≡◌, ℕ, ◌+◌, ◌-◌, ◌<◌, ◌≤◌, List, [], ◌∷◌, length, take, drop, slice_index, None, Some};
ghost use Rattle.trees.specs.declared.head.Head.{Head as Kind};
ghost use Rattle.trees.specs.Tree.{Tree, node, empty, height};
ghost use Rattle.trees.specs.State.{State, slot as in_slot, put_slot};
ghost use Rattle.cells.specs.Layout.{encode};
ghost use Rattle.shelf.specs.Holds.{Shows, ShowsBeside, Lands, Trades, IsLoose, IsStill, IsSized, run};
ghost use Rattle.shelf.specs.Places.{IsBare};

use crate::places::Spot;
use crate::rack::Rack;
use crate::slot::Slot;
use cells::{Cell, LEVELS, copy_run, exchange, release};
use names::Name;
use trees::head::Head;

impl<'a> Rack<'a> {
    // `lift` and `land` are opposite steps.

    /// Takes the tree out of a slot; its cells lie loose then.
    pub(crate) fn lift(&mut self, slot: Slot) -> usize
        requires { (s : State) × Shows self.old s }
        ensures size { result ≡ slice_index self.old.sizes slot.number }
        ensures sized { IsSized self.old self.new slot.number 0 }
        ensures is { (s : State) (k : ℕ) → slot.number ≡ k → Shows self.old s →
            ShowsBeside self.new (put_slot s k None) (run (in_slot s.slots k)) }
    {
        let size = self.size(slot);
        let used = self.used;
        let at = self.start(slot);
        exchange(self.cells, at, at + size, used);
        self.sizes[slot.number] = 0;
        self.used = used - size;
        size
    }

    /// Puts the loose tree into an empty slot.
    pub(crate) fn land(&mut self, slot: Slot, size: usize)
        requires shows { (s : State) × Shows self.old s }
        requires size { self.old.used + size ≤ self.old.room }
        ensures { (s : State) (k : ℕ) (t : Tree) → Lands self.old slot.number size s k t →
            Shows self.new (put_slot s k (Some t)) }
    {
        let used = self.used;
        let at = self.start(slot);
        exchange(self.cells, at, used, used + size);
        self.sizes[slot.number] = size;
        self.used = used + size;
    }

    /// In the tree of a slot, takes `old` cells out at the place `at` and puts the `size` loose ones in, and
    /// writes the node's cell. What was taken out lies loose then.
    pub(crate) fn trade(&mut self, spot: &Spot, cell: Cell, at: usize, old: usize, size: usize)
        requires shows { (s : State) × Shows self.old s }
        requires place { (spot.now.node < at)
            × (at + old ≤ slice_index self.old.sizes spot.now.slot.number) }
        requires size { self.old.used + size ≤ self.old.room }
        ensures { (s : State) (k : ℕ) (t : Tree) (out : List Cell) →
            Trades self.old spot.now cell at old size s k t out →
            ShowsBeside self.new (put_slot s k (Some t)) out }
    {
        let used = self.used;
        let start = self.start(spot.slot);
        self.cells[start + spot.node] = cell;
        exchange(self.cells, start + at, used, used + size);
        exchange(
            self.cells,
            start + at + size,
            start + at + size + old,
            used + size,
        );
        self.sizes[spot.slot.number] = self.sizes[spot.slot.number] - old + size;
        self.used = used - old + size;
    }

    /// Names the loose tree.
    pub(crate) fn rename(&mut self, label: Name)
        requires room { self.old.used < length self.old.cells.now }
        ensures shows { (s : State) → Shows self.old s → Shows self.new s }
        ensures loose { (l : List ℕ) (t : Tree) → IsLoose self.old (encode l t) →
            IsLoose self.new (encode label t) }
        ensures still { IsStill self.old self.new }
    {
        let used = self.used;
        let cell = self.cells[used];
        self.cells[used] = Cell { label, ..cell };
    }

    /// Writes one loose cell.
    pub(crate) fn write(&mut self, cell: Cell)
        requires shows { (s : State) × Shows self.old s }
        requires room { self.old.used < self.old.room }
        ensures shows { (s : State) → Shows self.old s → Shows self.new s }
        ensures loose { IsLoose self.new (cell ∷ []) }
        ensures still { IsStill self.old self.new }
    {
        let used = self.used;
        self.cells[used] = cell;
    }

    /// Puts a node without children into an empty slot.
    pub(crate) fn plant(&mut self, slot: Slot, head: Head)
        requires shows { (s : State) × Shows self.old s }
        requires room { self.old.used < self.old.room }
        ensures { (s : State) (k : ℕ) (h : Kind) → slot.number ≡ k → Shows self.old s →
            in_slot s.slots k ≡ None → head ≡ h →
            Shows self.new (put_slot s k (Some (node h empty))) }
    {
        self.write(Cell {
            label: Name::EMPTY,
            head,
            children: 0,
        });
        self.land(slot, 1);
    }

    /// Copies a run of cells; the copy lies loose.
    pub(crate) fn append(&mut self, at: usize, size: usize)
        requires shows { (s : State) × Shows self.old s }
        requires within { at + size ≤ self.old.used }
        requires room { self.old.used + size ≤ self.old.room }
        ensures shows { (s : State) → Shows self.old s → Shows self.new s }
        ensures loose { IsLoose self.new (take size (drop at self.old.cells.now)) }
        ensures still { IsStill self.old self.new }
    {
        let used = self.used;
        copy_run(self.cells, at, used, size);
    }

    /// Releases the cells of the loose tree.
    pub(crate) fn free(&mut self)
        requires { (l : List ℕ) × (t : Tree) × IsLoose self.old (encode l t) × (height t ≤ 16) }
        ensures { (s : State) → Shows self.old s → Shows self.new s }
    {
        let used = self.used;
        let _ = release(self.cells, used, LEVELS);
    }
}
