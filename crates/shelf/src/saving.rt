//! The saved area.
ghost use Rattle.std.specs.Prelude.{◌≡◌, ◌≤◌, ◌++◌, length, take, drop};
ghost use Rattle.shelf.specs.Holds.{Copies, Returns};

use crate::rack::Rack;
use cells::Cell;

/// Copies the first cells of one area over those of another: lent for writing, and lent on for reading.
fn copy_front(from: &mut [Cell], to: &mut [Cell], count: usize)
    requires { (count ≤ length from.old) × (count ≤ length to.old) }
    ensures from { from.new ≡ from.old }
    ensures to { to.new ≡ take count from.old ++ drop count to.old }
{
    // By hand: `copy_from_slice` would be a call of `memmove`, which C programs need not have.
    for i in 0..count {
        to[i] = from[i];
    }
}

impl Rack<'_> {
    /// Copies the first cells to the saved area.
    pub(crate) fn save(&mut self, count: usize)
        requires { (count ≤ length self.old.cells.now) × (count ≤ length self.old.saved.now) }
        ensures { Copies self.old self.new count }
    {
        copy_front(self.cells, self.saved, count);
    }

    /// Copies the first cells of the saved area back.
    pub(crate) fn restore(&mut self, count: usize)
        requires { (count ≤ length self.old.cells.now) × (count ≤ length self.old.saved.now) }
        ensures { Returns self.old self.new count }
    {
        copy_front(self.saved, self.cells, count);
    }
}
