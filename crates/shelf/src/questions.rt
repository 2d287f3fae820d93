//! Questions about the trees of slots under a leaf rule: equality, order and hash.
ghost use Rattle.std.specs.Prelude.{[]};
ghost use Rattle.trees.specs.Calls.{ask_equal, ask_compare, ask_hash, truth, order, number};
ghost use Rattle.shelf.specs.Does.{DoesUnder};
ghost use Rattle.shelf.specs.Answers.{told};

use crate::Shelf;
use cells::Node;
use rules::rule::LeafRule;
use std::cmp::Ordering;
use trees::codes::Refusal;
use walks;

impl Shelf<'_> {
    /// Whether the trees of two slots are equal.
    pub fn equal<R: LeafRule>(
        &self,
        rule: &R,
        first: usize,
        second: usize,
    ) -> Result<Option<bool>, Refusal>
        ensures { DoesUnder (R.means rule.now) (ask_equal first second) self.now self.now
            (told truth [] result) }
    {
        let (first, second) = self.rack.both_full(first, second)?;
        let a = Node::at(self.rack.cells, self.rack.start(first));
        let b = Node::at(self.rack.cells, self.rack.start(second));
        Ok(walks::equal(rule, a, b))
    }

    /// How the trees of two slots compare.
    pub fn compare<R: LeafRule>(
        &self,
        rule: &R,
        first: usize,
        second: usize,
    ) -> Result<Option<Ordering>, Refusal>
        ensures { DoesUnder (R.means rule.now) (ask_compare first second) self.now self.now
            (told order [] result) }
    {
        let (first, second) = self.rack.both_full(first, second)?;
        let a = Node::at(self.rack.cells, self.rack.start(first));
        let b = Node::at(self.rack.cells, self.rack.start(second));
        Ok(walks::compare(rule, a, b))
    }

    /// The hash of a slot's tree.
    pub fn hash<R: LeafRule>(&self, rule: &R, slot: usize) -> Result<Option<u64>, Refusal>
        ensures { DoesUnder (R.means rule.now) (ask_hash slot) self.now self.now
            (told number [] result) }
    {
        let slot = self.rack.full(slot)?;
        let node = Node::at(self.rack.cells, self.rack.start(slot));
        Ok(walks::hash(rule, node))
    }
}
