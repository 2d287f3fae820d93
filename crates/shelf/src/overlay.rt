//! A patch laid on the tree of a slot.
ghost use Rattle.std.specs.Prelude.{◌≡◌, ℕ};
ghost use Rattle.trees.specs.State.{State};
ghost use Rattle.shelf.specs.Holds.{Holds};
ghost use Rattle.shelf.specs.Patching.{IsReady, Lays};

use crate::rack::Rack;
use crate::slot::Slot;
use patch::Fault;

impl<'a> Rack<'a> {
    /// Lays the second slot's tree on the target's, and leaves what the walk did also where it stopped.
    pub(crate) fn lay(&mut self, target: Slot, second: Slot, row: &mut [u16]) -> Result<(), Fault>
        requires holds { (s : State) × Holds self.old s }
        requires ready { IsReady self.old (target, second) row.old }
        ensures { (s : State) → Holds self.old s →
            Lays self.new s target.number second.number result row.old row.new }
    {
        let size = self.lift(target);
        let used = self.used;
        let room = self.room;
        let patch = self.start(second);
        let laid = patch::apply(&mut self.cells[0..room], used, patch, used + size, row);
        self.land(target, laid.used - used);
        laid.outcome
    }
}
