//! Children by their positions, of any tree that lies in cells, sound or not: views are of sound trees alone.
ghost use Rattle.std.specs.Prelude.{◌≡◌, ℕ, ◌+◌, ◌<◌, ◌≤◌, List};
ghost use Rattle.trees.specs.Tree.{Tree, Forest, more, height};
ghost use Rattle.cells.specs.Layout.{Lies, kids};
ghost use Rattle.cells.specs.Children.{IsKept, Finds};

use crate::reads::end_of;
use crate::types::{Cell, LEVELS};
use names::Name;

/// Children that lie one after the other, from `at` on: all of a node's, or those that are left of them.
#[derive(Clone, Copy, Debug, PartialEq, Eq)]
pub struct Row {
    pub at: usize,
    pub count: usize,
}

/// A child that a search found: which one it is, and its position.
#[derive(Clone, Copy, Debug, PartialEq, Eq)]
pub struct Kid {
    pub index: usize,
    pub at: usize,
}

impl Row {
    /// The children of the tree at `at`.
    pub fn of(cells: &[Cell], at: usize) -> Row
        requires { (t : Tree) × Lies cells.now at t }
        ensures { (t : Tree) → Lies cells.now at t → height t ≤ 16 → IsKept cells.now result (kids t) }
    {
        Row {
            at: at + 1,
            count: cells[at].children,
        }
    }

    /// The name of the first.
    pub fn label(self, cells: &[Cell]) -> Name
        requires some { 0 < self.count }
        requires kept { (f : Forest) × IsKept cells.now self f }
        ensures { (n : List ℕ) (t : Tree) (f : Forest) →
            IsKept cells.now self (more n t f) → result ≡ n }
    {
        cells[self.at].label
    }

    /// Those behind the first.
    pub fn rest(self, cells: &[Cell]) -> Row
        requires some { 0 < self.count }
        requires kept { (f : Forest) × IsKept cells.now self f }
        ensures counts { result.count + 1 ≡ self.count }
        ensures keeps { (n : List ℕ) (t : Tree) (f : Forest) →
            IsKept cells.now self (more n t f) → IsKept cells.now result f }
    {
        Row {
            at: end_of(cells, self.at, LEVELS),
            count: self.count - 1,
        }
    }

    /// The one under a name.
    pub fn under(self, cells: &[Cell], name: &Name) -> Option<Kid>
        requires { (f : Forest) × IsKept cells.now self f }
        ensures { (f : Forest) → IsKept cells.now self f → Finds cells.now name.now f result }
    {
        let mut pos = self.at;
        for i in 0..self.count {
            if *name == cells[pos].label {
                return Some(Kid { index: i, at: pos });
            }
            pos = end_of(cells, pos, LEVELS);
        }
        None
    }
}
