//! Where trees end in cells, how high they are, and where paths and names lead. Measuring recurses over plain
//! cells, the levels falling, as releasing does: one function for the three would hide that two read and one writes.
ghost use Rattle.std.specs.Prelude.{◌≡◌, ◌+◌, ◌≤◌, Some, None, MatchOption};
ghost use Rattle.trees.specs.Tree.{Tree, size, height, count as number_of};
ghost use Rattle.trees.specs.Place.{find as led_to, position_from};
ghost use Rattle.cells.specs.Layout.{Lies, kids, before, far};
ghost use Rattle.cells.specs.Reading.{tree_at, StandsAt};

use crate::rows::Row;
use crate::types::{Cell, LEVELS};
use names::Name;

/// The position behind the tree at `at`.
pub fn end_of(cells: &[Cell], at: usize, levels: usize) -> usize
    requires { StandsAt cells.now at levels }
    ensures { result ≡ at + size (tree_at cells.now at) }
{
    let mut next = at + 1;
    for _ in 0..cells[at].children {
        next = end_of(cells, next, levels - 1);
    }
    next
}

/// How many levels the tree at `at` has.
pub fn height_of(cells: &[Cell], at: usize, levels: usize) -> usize
    requires { StandsAt cells.now at levels }
    ensures { result ≡ height (tree_at cells.now at) }
{
    let mut most: usize = 0;
    let mut pos = at + 1;
    for _ in 0..cells[at].children {
        most = most.max(height_of(cells, pos, levels - 1));
        pos = end_of(cells, pos, levels - 1);
    }
    most + 1
}

/// The position of the child `i` of the tree at `at`, or that behind its last child.
pub fn child_at(cells: &[Cell], at: usize, i: usize) -> usize
    requires tree { StandsAt cells.now at 16 }
    requires index { i ≤ number_of (kids (tree_at cells.now at)) }
    ensures { result ≡ at + 1 + before i (kids (tree_at cells.now at)) }
{
    // A view has no position, and none stands behind the last child.
    let mut pos = at + 1;
    for _ in 0..i {
        pos = end_of(cells, pos, LEVELS);
    }
    pos
}

/// The position of the node to which a path leads from the root at `at`.
pub fn find(cells: &[Cell], at: usize, path: &[u16]) -> Option<usize>
    requires { (t : Tree) × Lies cells.now at t × (height t ≤ 16) }
    ensures { (t : Tree) → Lies cells.now at t →
        MatchOption result (led_to (Some t) path.now ≡ None)
        (λ pos. ((u : Tree) × (led_to (Some t) path.now ≡ Some u)) × (pos ≡ at + far (Some t) path.now)) }
{
    let mut pos = at;
    for step in path {
        let i = *step as usize;
        if i >= cells[pos].children {
            return None;
        }
        pos = child_at(cells, pos, i);
    }
    Some(pos)
}

/// Which child of the tree at `at` has a name.
pub fn index_of(cells: &[Cell], at: usize, name: &Name) -> Option<usize>
    requires { (t : Tree) × Lies cells.now at t × (height t ≤ 16) }
    ensures { (t : Tree) → Lies cells.now at t → result ≡ position_from 0 name.now (kids t) }
{
    let kid = Row::of(cells, at).under(cells, name)?;
    Some(kid.index)
}
