//! Calls that move a slot's tree to a node of another slot's.
ghost use Rattle.trees.specs.Calls.{push as pushes, put_at, insert as inserts};
ghost use Rattle.shelf.specs.Does.{Does};
ghost use Rattle.shelf.specs.Answers.{plainly};

use crate::Shelf;
use names::Name;
use trees::codes::Refusal;

impl Shelf<'_> {
    /// Appends the second slot's tree to the children of a Tuple, a List or a tuple variant.
    pub fn push(&mut self, slot: usize, path: &[u16], second: usize) -> Result<(), Refusal>
        ensures { Does (pushes slot path.now second) self.old self.new (plainly result) }
    {
        let (node, second) = self.rack.meet(slot, path, second)?;
        if !node.cell.head.is_unnamed() {
            return Err(Refusal::Kind);
        }
        self.rack.deep_enough(path, second)?;
        self.rack
            .add(&node, node.cell.children, second, Name::EMPTY);
        Ok(())
    }

    /// Inserts the second slot's tree into a List, the children from there on shifting.
    pub fn put_at(
        &mut self,
        slot: usize,
        path: &[u16],
        second: usize,
        index: usize,
    ) -> Result<(), Refusal>
        ensures { Does (put_at slot path.now second index) self.old self.new (plainly result) }
    {
        let (list, second) = self.rack.meet(slot, path, second)?;
        if !list.cell.head.is_list() {
            return Err(Refusal::Kind);
        }
        if index > list.cell.children {
            return Err(Refusal::Index);
        }
        self.rack.deep_enough(path, second)?;
        self.rack.add(&list, index, second, Name::EMPTY);
        Ok(())
    }

    /// Puts the second slot's tree into a Struct or a named variant under a name; the same name is replaced
    /// in its position, a new name goes last.
    pub fn insert(
        &mut self,
        slot: usize,
        path: &[u16],
        second: usize,
        name: &[u8],
    ) -> Result<(), Refusal>
        ensures { Does (inserts slot path.now second name.now) self.old self.new (plainly result) }
    {
        let (spot, second) = self.rack.meet(slot, path, second)?;
        if !spot.cell.head.is_named() {
            return Err(Refusal::Kind);
        }
        let label = Name::new(name).ok_or(Refusal::Name)?;
        self.rack.deep_enough(path, second)?;
        match self.rack.field(&spot, &label) {
            Some(i) => {
                self.rack.graft(&spot, i, i + 1, spot.cell, second, label);
                self.rack.free();
            }
            None => self.rack.add(&spot, spot.cell.children, second, label),
        }
        Ok(())
    }
}
