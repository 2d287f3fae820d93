//! Rows of children, and the place that a patch child takes among the target's.
ghost use Rattle.std.specs.Prelude.{◌≡◌, ℕ, suc, ◌+◌, ◌<◌, ◌≤◌, ◌⊎◌, MatchOption};
ghost use Rattle.trees.specs.Tree.{Tree, size, height};
ghost use Rattle.cells.specs.Layout.{Lies, kids};
ghost use Rattle.patch.specs.Rows.{From, EndsAt, LaidChild, Comes, Beside, Alone, Under, Lacks};

use crate::frames::{Frame, Row};
use crate::manners::Pairing;
use crate::steps::Walk;
use cells::{LEVELS, end_of};
use names::Name;

impl<'a> Walk<'a> {
    /// Where the tree at a position ends.
    pub fn end_of(&self, at: usize) -> usize
        requires { (t : Tree) × Lies self.now.cells.now at t × (height t ≤ 16) }
        ensures { (t : Tree) → Lies self.now.cells.now at t → result ≡ at + size t }
    {
        // With no call for a leaf: 91, 52 and 70 ns a node in bench's patches, else 95, 55 and 75.
        if self.cells[at].children == 0 {
            return at + 1;
        }
        end_of(self.cells, at, LEVELS)
    }

    /// The children behind the first.
    pub fn without_first(&self, row: Row) -> Row
        requires first { (t : Tree) × Lies self.now.cells.now row.at t × (height t ≤ 16) }
        requires some { 0 < row.count }
        ensures place { (t : Tree) → Lies self.now.cells.now row.at t →
            result.at ≡ row.at + size t }
        ensures fewer { result.count + 1 ≡ row.count }
    {
        Row {
            at: self.end_of(row.at),
            count: row.count - 1,
        }
    }

    /// Where a row ends.
    pub fn end_of_row(&self, row: Row) -> usize
        requires { (end : ℕ) × EndsAt self.now.cells.now row end }
        ensures { (end : ℕ) → EndsAt self.now.cells.now row end → result ≡ end }
    {
        let mut rest = row;
        while rest.count > 0 {
            rest = self.without_first(rest);
        }
        rest.at
    }

    /// What is left of a row behind so many of its cells, nothing if it has no more.
    fn behind_cells(&self, row: Row, many: usize) -> Row
        requires { (end : ℕ) × EndsAt self.now.cells.now row end }
        ensures ends { (end : ℕ) → EndsAt self.now.cells.now row end →
            EndsAt self.now.cells.now result end }
        ensures most { result.at ≤ row.at + many }
        ensures all { 0 < result.count → result.at ≡ row.at + many }
    {
        let mut rest = row;
        for _ in 0..many {
            if rest.count == 0 {
                return rest;
            }
            rest = Row {
                at: rest.at + 1,
                count: rest.count - 1 + self.cells[rest.at].children,
            };
        }
        rest
    }

    /// The children of the node at `target` from the one under a name on; so many of the last are not
    /// tried. One loop, so a `return` says what a label would.
    fn under(&self, target: usize, name: &Name, last: usize) -> Option<Row>
        requires { (t : Tree) × Lies self.now.cells.now target t × (height t ≤ 16) }
        ensures { (t : Tree) → Lies self.now.cells.now target t →
            MatchOption result (Lacks name.now (kids t) last) (Under target name.now (kids t)) }
    {
        let mut row = Row {
            at: target + 1,
            count: self.cells[target].children,
        };
        while row.count > last {
            let label = self.cells[row.at].label;
            if *name == label {
                return Some(row);
            }
            row = self.without_first(row);
        }
        None
    }

    /// The target's children behind the one that was laid, of which `rest` is still to be passed.
    pub fn row_behind(&self, frame: Frame, rest: Row) -> Row
        requires { (t : Tree) × LaidChild self.now.cells.now frame t rest }
        ensures { (t : Tree) → (p : LaidChild self.now.cells.now frame t rest) →
            From frame.target (kids t) (suc p.j) result }
    {
        Row {
            at: self.end_of_row(rest),
            count: frame.row.count - 1,
        }
    }

    /// The same by name, where the patch's next child has that name. If more cells are still to be
    /// passed than lie before the child that was laid, the children before it are tried first.
    pub fn row_by_name(&self, frame: Frame, rest: Row, name: &Name) -> Row
        requires { (t : Tree) × LaidChild self.now.cells.now frame t rest }
        ensures { (t : Tree) → (p : LaidChild self.now.cells.now frame t rest) →
            From frame.target (kids t) (suc p.j) result ⊎ Under frame.target name.now (kids t) result }
    {
        let rest = self.behind_cells(rest, frame.row.at - frame.target);
        if rest.count > 0 {
            if let Some(row) = self.under(frame.target, name, frame.row.count) {
                return row;
            }
        }
        self.row_behind(frame, rest)
    }

    /// The target's children from the one on, on which the patch's next child is laid. By name, the
    /// first of the row is tried before all others.
    pub fn partner(&self, frame: Frame) -> Option<Row>
        requires { (t : Tree) × (u : Tree) × Comes self.now.cells.now frame t u }
        ensures { (t u : Tree) → (c : Comes self.now.cells.now frame t u) →
            MatchOption result (Alone frame c.patch.label (kids t))
            (Beside frame c.patch.label (kids t)) }
    {
        let row = frame.row;
        match frame.pairing {
            Pairing::ByName => {
                let name = self.cells[frame.next.at].label;
                if row.count > 0 {
                    let first = self.cells[row.at].label;
                    if name == first {
                        return Some(row);
                    }
                }
                self.under(frame.target, &name, 0)
            }
            _ => if row.count > 0 { Some(row) } else { None },
        }
    }
}
