//! Calls that lay the tree of one slot, the patch, on that of another, the target.
ghost use Rattle.std.specs.Prelude.{◌≡◌, [], Some, Err};
ghost use Rattle.trees.specs.Calls.{lay as lays, lay_whole};
ghost use Rattle.shelf.specs.declared.patching.Stop.TheVariants.{Refused, Fault as stopped_at};
ghost use Rattle.shelf.specs.Does.{Does};
ghost use Rattle.shelf.specs.Stops.{stopping, IsShort};

use crate::Shelf;
use patch::{ApplyError, Fault};
use trees::codes::Refusal;

/// Why a patch was not laid.
#[derive(Clone, Copy, Debug, PartialEq, Eq)]
pub enum Stop {
    /// By one of the tests that the call begins with.
    Refused(Refusal),
    /// By the patch, where the walk met it.
    Fault(Fault),
}

impl Stop {
    /// Its refusal.
    pub fn refusal(self) -> Refusal
        ensures { (stopping (Err self) []).refusal ≡ Some result }
    {
        match self {
            Stop::Refused(refusal) => refusal,
            Stop::Fault(fault) => match fault.error {
                ApplyError::MismatchedKinds(_) => Refusal::MismatchedKinds,
                ApplyError::MismatchedTypes { .. } => Refusal::MismatchedTypes,
                ApplyError::Room { .. } => Refusal::Room,
            },
        }
    }
}

// By hand: `#[from]` belongs to errors with texts, which a shelf has none of.
impl From<Refusal> for Stop {
    ghost from_gives = { λ e r. r ≡ Refused e };

    fn from(e: Refusal) -> Stop {
        Stop::Refused(e)
    }
}

impl From<Fault> for Stop {
    ghost from_gives = { λ x r. r ≡ stopped_at x };

    fn from(x: Fault) -> Stop {
        Stop::Fault(x)
    }
}

impl Shelf<'_> {
    /// Lays the patch on the target. A walk that stops leaves what it had done; the positions of the patch node
    /// met go to the front of the row, and the rest stays.
    pub fn apply(&mut self, target: usize, second: usize, row: &mut [u16]) -> Result<(), Stop>
        ensures does { Does (lays target second row.old) self.old self.new
            (stopping result row.new) }
        ensures short { IsShort result }
    {
        let (target, second) = self.rack.ready(target, second, row)?;
        self.rack.lay(target, second, row)?;
        Ok(())
    }

    /// Lays the patch on the target whole or not at all: where the walk stops, every slot is as it was.
    pub fn apply_whole(&mut self, target: usize, second: usize, row: &mut [u16]) -> Result<(), Stop>
        ensures does { Does (lay_whole target second row.old) self.old self.new
            (stopping result row.new) }
        ensures short { IsShort result }
    {
        let (target, second) = self.rack.ready(target, second, row)?;
        let mark = self.mark()?;
        match self.rack.lay(target, second, row) {
            Ok(()) => {
                self.keep(mark).unwrap();
                Ok(())
            }
            Err(fault) => {
                self.roll_back(mark).unwrap();
                Err(Stop::Fault(fault))
            }
        }
    }
}
