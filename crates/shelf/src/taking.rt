//! Calls that take children out of a slot's tree.
ghost use Rattle.trees.specs.Calls.{remove_at, set_variant};
ghost use Rattle.shelf.specs.Does.{Does};
ghost use Rattle.shelf.specs.Answers.{plainly};

use crate::Shelf;
use crate::heads::variant_type;
use names::Name;
use trees::codes::Refusal;
use trees::head::Head;

impl Shelf<'_> {
    /// Moves a child of a Struct or a List to the empty second slot; a field's name is lost.
    pub fn remove_at(
        &mut self,
        slot: usize,
        path: &[u16],
        second: usize,
        index: usize,
    ) -> Result<(), Refusal>
        ensures { Does (remove_at slot path.now second index) self.old self.new (plainly result) }
    {
        let (spot, second) = self.rack.leave(slot, path, second)?;
        if !spot.cell.head.is_struct_or_list() {
            return Err(Refusal::Kind);
        }
        if index >= spot.cell.children {
            return Err(Refusal::Index);
        }
        let cell = spot.with_children(spot.cell.children - 1);
        let size = self.rack.cut(&spot, index, index + 1, cell);
        self.rack.rename(Name::EMPTY);
        self.rack.land(second, size);
        Ok(())
    }

    /// Gives an enum a new variant: code, name and index, and no fields. The code is a number as in `node`.
    pub fn set_variant(
        &mut self,
        slot: usize,
        path: &[u16],
        code: u8,
        name: &[u8],
        index: u16,
    ) -> Result<(), Refusal>
        ensures { Does (set_variant slot path.now code name.now index) self.old self.new
            (plainly result) }
    {
        let spot = self.rack.stand(slot, path)?;
        if !spot.cell.head.is_enum() {
            return Err(Refusal::Kind);
        }
        let kind = variant_type(code)?;
        let name = Name::new(name).ok_or(Refusal::Name)?;
        let mut cell = spot.with_children(0);
        cell.head = Head::Enum { kind, name, index };
        let _ = self.rack.cut(&spot, 0, spot.cell.children, cell);
        Ok(())
    }
}
