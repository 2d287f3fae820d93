//! Trees that lie in lent cells, as values.
ghost use Rattle.std.specs.Prelude.{◌≡◌, ℕ, ◌≤◌, true, length, drop, Some, option_map, MatchOption, IfSome};
ghost use Rattle.std.specs.Iterator.{YieldsFirstBy, item_count};
ghost use Rattle.trees.specs.Tree.{size, height, count as number_of, at as child_of, each, sound, IsSound, empty, more};
ghost use Rattle.trees.specs.Place.{find as led_to, position_from};
ghost use Rattle.cells.specs.Layout.{kids, root};
ghost use Rattle.cells.specs.Reading.{roots, first_tree, front, behind, complete, tree_at, StandsAt};

use crate::reads::{end_of, height_of};
use crate::types::{Cell, LEVELS};
use names::Name;
use trees::head::Head;

/// A sound tree at the front of cells.
#[derive(Clone, Copy)]
pub struct Node<'a> {
    pub cells: &'a [Cell],
    ghost whole: { complete 1 cells.now ≡ true },
    ghost sane: { sound 16 (first_tree (roots cells.now)) ≡ true },
}

/// Sound trees that lie one after the other.
#[derive(Clone, Copy)]
pub struct Kids<'a> {
    pub cells: &'a [Cell],
    pub count: usize,
    ghost whole: { complete count cells.now ≡ true },
    ghost sane: { each (sound 16) (front count (roots cells.now)) ≡ true },
}

impl<'a> Node<'a> {
    ghost use Rattle.cells.specs.Views.{tree, label, forest, IsChildOf, IsFoundBy};

    /// The tree at a position.
    pub fn at(cells: &'a [Cell], at: usize) -> Node<'a>
        requires whole { complete 1 (drop at cells.now) ≡ true }
        requires sane { IsSound (tree_at cells.now at) }
        ensures tree { tree result ≡ tree_at cells.now at }
        ensures place { result.cells.now ≡ drop at cells.now }
    {
        Node {
            cells: &cells[at..],
        }
    }

    /// What the node is, apart from its children.
    pub fn head(self) -> &'a Head
        ensures { result.now ≡ root (tree self.entry) }
    {
        &self.cells[0].head
    }

    /// The name under which its parent holds it.
    pub fn label(self) -> &'a Name
        ensures { result.now ≡ label self.entry }
    {
        &self.cells[0].label
    }

    /// The trees of its children.
    pub fn children(self) -> Kids<'a>
        ensures forest { forest result ≡ kids (tree self.entry) }
        ensures place { result.cells.now ≡ drop 1 self.entry.cells.now }
        ensures count { result.count ≡ number_of (kids (tree self.entry)) }
    {
        Kids {
            cells: &self.cells[1..],
            count: self.cells[0].children,
        }
    }

    /// How many nodes the tree has.
    pub fn len(self) -> usize
        ensures { result ≡ size (tree self.entry) }
    {
        end_of(self.cells, 0, LEVELS)
    }

    /// How many levels it has.
    pub fn height(self) -> usize
        ensures { result ≡ height (tree self.entry) }
    {
        height_of(self.cells, 0, LEVELS)
    }

    /// The child at a position, if there are as many.
    pub fn child(self, i: usize) -> Option<Node<'a>>
        ensures child { option_map tree result ≡ child_of i (kids (tree self.entry)) }
        ensures place { IfSome result (IsChildOf self.entry i) }
    {
        self.children().at(i)
    }

    /// The node to which a path leads.
    pub fn find(self, path: &[u16]) -> Option<Node<'a>>
        ensures node { option_map tree result ≡ led_to (Some (tree self.entry)) path.now }
        ensures place { IfSome result (IsFoundBy self.entry path.now) }
    {
        let mut node = self;
        for step in path {
            node = node.child(usize::from(*step))?;
        }
        Some(node)
    }

    /// Which child has a name.
    pub fn index_of(self, name: &Name) -> Option<usize>
        ensures { result ≡ position_from 0 name.now (kids (tree self.entry)) }
    {
        // By `enumerate` the loop would owe, where it begins, that the count stays below 2 to the 64: tried, left open.
        let mut row = self.children();
        for i in 0..row.len() {
            let child = row.first()?;
            if *name == *child.label() {
                return Some(i);
            }
            row = row.rest();
        }
        None
    }
}

impl<'a> Kids<'a> {
    ghost use Rattle.cells.specs.Views.{tree, label, forest, IsFirst, FirstAndRest, Cuts, TrailsIn, IsAmong};

    /// How many there are.
    pub fn len(self) -> usize
        ensures { result ≡ number_of (forest self.entry) }
    {
        let Kids { count, .. } = self;
        count
    }

    /// The first. Where it ends is not looked for.
    pub fn first(self) -> Option<Node<'a>>
        ensures { MatchOption result (forest self.entry ≡ empty) (IsFirst self.entry) }
    {
        if self.count == 0 {
            return None;
        }
        Some(Node { cells: self.cells })
    }

    /// The first, and those behind it.
    pub fn split_first(self) -> Option<(Node<'a>, Kids<'a>)>
        ensures split { MatchOption result (forest self.entry ≡ empty) (FirstAndRest self.entry) }
        ensures cut { IfSome result (Cuts self.entry) }
        ensures behind { IfSome result (λ p. TrailsIn self.entry p.1) }
    {
        let child = self.first()?;
        let cells = self.cells;
        let (_, rest) = cells.split_at(end_of(cells, 0, LEVELS));
        let others = Kids {
            cells: rest,
            count: self.count - 1,
        };
        Some((child, others))
    }

    /// Those behind the first, if there is one.
    pub fn rest(self) -> Kids<'a>
        ensures forest { forest result ≡ behind 1 (forest self.entry) }
        ensures behind { TrailsIn self.entry result }
    {
        match self.split_first() {
            Some((_, rest)) => rest,
            None => self,
        }
    }

    /// The one at a position, if there are as many.
    pub fn at(self, i: usize) -> Option<Node<'a>>
        ensures child { option_map tree result ≡ child_of i (forest self.entry) }
        ensures place { IfSome result (IsAmong self.entry i) }
    {
        if i >= self.count {
            return None;
        }
        // `nth` gives the child, and not where its cells lie, which `IsAmong` says. It also looks
        // for the child's end.
        let mut row = self;
        for _ in 0..i {
            let (_, rest) = row.split_first()?;
            row = rest;
        }
        Some(Node { cells: row.cells })
    }
}

impl<'a> Iterator for Kids<'a> {
    type Item = Node<'a>;

    ghost use Rattle.cells.specs.Views.{labelled, entries, forest};

    ghost next_gives = { YieldsFirstBy labelled (λ k. entries (forest k)) };

    ghost remaining = { item_count (λ k. entries (forest k)) };

    fn next(&mut self) -> Option<Node<'a>> {
        let row = *self;
        let (child, rest) = row.split_first()?;
        *self = rest;
        Some(child)
    }
}

impl<'a> Default for Kids<'a> {
    ghost use Rattle.cells.specs.Views.{forest};

    ghost is_default = { λ k. forest k ≡ empty };

    fn default() -> Kids<'a> {
        Kids {
            cells: &[],
            count: 0,
        }
    }
}
