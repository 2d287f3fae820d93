//! Calls on whole slots: new leaves and nodes, copies, and trees that are dropped.
ghost use Rattle.trees.specs.Calls.{new_leaf, new_node, copy as copied, drop_tree};
ghost use Rattle.shelf.specs.Does.{Does, DoesUnder};
ghost use Rattle.shelf.specs.Answers.{plainly};

use crate::Shelf;
use crate::heads::head_of;
use rules::leaf::Leaf;
use rules::rule::LeafRule;
use trees::codes::Refusal;
use trees::head::Head;

impl Shelf<'_> {
    /// Puts a leaf that the rule admits into an empty slot.
    pub fn leaf<R: LeafRule>(
        &mut self,
        rule: &R,
        slot: usize,
        tag: u16,
        value: u64,
    ) -> Result<(), Refusal>
        ensures { DoesUnder (R.means rule.now) (new_leaf slot tag value) self.old self.new
            (plainly result) }
    {
        let slot = self.rack.empty(slot)?;
        let leaf = Leaf { tag, value };
        if !rule.admits(leaf) {
            return Err(Refusal::Leaf);
        }
        self.rack.room_for(1)?;
        self.rack.plant(slot, Head::Leaf(leaf));
        Ok(())
    }

    /// Puts a node without children into an empty slot. The code comes as a number, since one that is none is refused
    /// after the tests of the slot.
    pub fn node(&mut self, slot: usize, code: u8, name: &[u8], index: u16) -> Result<(), Refusal>
        ensures { Does (new_node slot code name.now index) self.old self.new (plainly result) }
    {
        let slot = self.rack.empty(slot)?;
        let head = head_of(code, name, index)?;
        self.rack.room_for(1)?;
        self.rack.plant(slot, head);
        Ok(())
    }

    /// Copies a slot's tree to an empty slot.
    pub fn copy(&mut self, from: usize, to: usize) -> Result<(), Refusal>
        ensures { Does (copied from to) self.old self.new (plainly result) }
    {
        let (from, to) = self.rack.full_and_empty(from, to)?;
        let size = self.rack.size(from);
        self.rack.room_for(size)?;
        let at = self.rack.start(from);
        self.rack.append(at, size);
        self.rack.land(to, size);
        Ok(())
    }

    /// Empties a slot; its cells are free again.
    pub fn drop_tree(&mut self, slot: usize) -> Result<(), Refusal>
        ensures { Does (drop_tree slot) self.old self.new (plainly result) }
    {
        let slot = self.rack.full(slot)?;
        let _ = self.rack.lift(slot);
        self.rack.free();
        Ok(())
    }
}
