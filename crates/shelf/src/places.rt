//! Nodes in the trees of slots: where a path leads, and how high trees are.
ghost use Rattle.std.specs.Prelude.{◌≡◌, ℕ, ◌+◌, ◌<◌, ◌≤◌, List, IfSome, Some, None, MatchOption, slice_index};
ghost use Rattle.trees.specs.Tree.{Tree, height};
ghost use Rattle.trees.specs.Place.{find as led_to, position_from};
ghost use Rattle.trees.specs.State.{State, slot as in_slot};
ghost use Rattle.trees.specs.Tests.{node_at};
ghost use Rattle.cells.specs.Layout.{Lies, kids, before, far, with_count};
ghost use Rattle.shelf.specs.Holds.{Holds};
ghost use Rattle.shelf.specs.Places.{At, IsPlain, IsFull, Here};

use crate::rack::Rack;
use crate::slot::Slot;
use cells::{Cell, LEVELS, Node, child_at, height_of};
use names::Name;

/// A node in the tree of a slot: its place behind the root, and its cell.
#[derive(Clone, Copy, PartialEq, Eq)]
pub(crate) struct Spot {
    pub(crate) slot: Slot,
    pub(crate) node: usize,
    pub(crate) cell: Cell,
}

impl Spot {
    /// The node's cell with another number of children.
    pub(crate) fn with_children(&self, children: usize) -> Cell
        ensures { result ≡ with_count self.now.cell children }
    {
        Cell {
            children,
            ..self.cell
        }
    }
}

// Positions and no views, since what is found here is written.

/// The position of the node to which a path leads from the root at `at`.
fn find(cells: &[Cell], at: usize, path: &[u16]) -> Option<usize>
    requires { (t : Tree) × Lies cells.now at t × (height t ≤ 16) }
    ensures { (t : Tree) → Lies cells.now at t →
        MatchOption result (led_to (Some t) path.now ≡ None)
        (λ pos. ((u : Tree) × (led_to (Some t) path.now ≡ Some u)) × (pos ≡ at + far (Some t) path.now)) }
{
    let mut pos = at;
    for step in path {
        let i = *step as usize;
        if i >= cells[pos].children {
            return None;
        }
        pos = child_at(cells, pos, i);
    }
    Some(pos)
}

impl<'a> Rack<'a> {
    /// The node of a slot's tree to which a path leads.
    pub(crate) fn spot(&self, slot: Slot, path: &[u16]) -> Option<Spot>
        requires holds { (s : State) × Holds self.now s }
        requires tree { IsFull self.now slot }
        ensures found { (s : State) (k : ℕ) → slot.number ≡ k → Holds self.now s →
            MatchOption result (node_at s k path.now ≡ None) (At s k path.now) }
        ensures plain { IfSome result (IsPlain self.now path.now) }
    {
        let start = self.start(slot);
        match find(self.cells, start, path) {
            Some(at) => Some(Spot {
                slot,
                node: at - start,
                cell: self.cells[at],
            }),
            None => None,
        }
    }

    /// How many levels the tree of a slot has.
    pub(crate) fn tall(&self, slot: Slot) -> usize
        requires holds { (s : State) × Holds self.now s }
        requires tree { IsFull self.now slot }
        ensures is { (s : State) (t : Tree) → Holds self.now s →
            in_slot s.slots slot.number ≡ Some t → result ≡ height t }
        ensures low { result ≤ 16 }
    {
        height_of(self.cells, self.start(slot), LEVELS)
    }

    /// The place before the child `i` of a node, or behind its last.
    pub(crate) fn gap(&self, spot: &Spot, i: usize) -> usize
        requires { Here self.now spot.now i }
        ensures is { (s : State) (k : ℕ) (path : List ℕ) → Holds self.now s →
            (a : At s k path spot.now) → result ≡ spot.now.node + 1 + before i (kids a.goal) }
        ensures within { (spot.now.node < result)
            × (result ≤ slice_index self.now.sizes spot.now.slot.number) }
    {
        let start = self.start(spot.slot);
        child_at(self.cells, start + spot.node, i) - start
    }

    /// Which child of a node has a name.
    pub(crate) fn field(&self, spot: &Spot, name: &Name) -> Option<usize>
        requires { Here self.now spot.now 0 }
        ensures { (s : State) (k : ℕ) (path : List ℕ) → Holds self.now s →
            (a : At s k path spot.now) → result ≡ position_from 0 name.now (kids a.goal) }
    {
        Node::at(self.cells, self.start(spot.slot) + spot.node).index_of(name)
    }
}
