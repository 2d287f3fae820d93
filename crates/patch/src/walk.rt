//! The call that lays a patch on a target.
ghost use Rattle.std.specs.Prelude.{◌≡◌, ℕ, ◌≤◌, List, length};
ghost use Rattle.trees.specs.Tree.{Tree};
ghost use Rattle.trees.specs.Apply.{apply as laid};
ghost use Rattle.cells.specs.declared.types.Cell.{Cell as CellOf};
ghost use Rattle.patch.specs.Outcome.{Begins, Leaves};

use crate::errors::ApplyError;
use crate::frames::Meeting;
use crate::steps::Walk;
use arrayvec::ArrayVec;
use cells::Cell;

/// Where a patch did not fit: why, and how many positions of the path row lead to the patch node.
#[derive(Clone, Copy, Debug, PartialEq, Eq)]
pub struct Fault {
    pub error: ApplyError,
    pub depth: usize,
}

/// How a patch was laid: how many cells are used then, and where it did not fit.
#[derive(Clone, Copy, Debug, PartialEq, Eq)]
pub struct Applied {
    pub used: usize,
    pub outcome: Result<(), Fault>,
}

/// Lays the patch at `patch` on the target at `target`, the last of the used cells. Of a patch that
/// does not fit, the positions that lead to the node that met the fault go to the front of the row.
pub fn apply(
    cells: &mut [Cell],
    target: usize,
    patch: usize,
    used: usize,
    row: &mut [u16],
) -> Applied
    requires trees { (base : List CellOf) × (l : List ℕ) × (t : Tree) × (p : Tree) ×
        (rest : List CellOf) × Begins cells.old target patch used base l t p rest }
    requires lent { 15 ≤ length row.old }
    ensures { (base : List CellOf) (l : List ℕ) (t p : Tree) (rest : List CellOf) →
        Begins cells.old target patch used base l t p rest →
        Leaves base l cells.new result row.old row.new (laid t p (length rest)) }
{
    let mut walk = Walk {
        cells,
        used,
        stack: ArrayVec::new(),
    };
    // Not `map_err`: of a row that its closure borrows nothing is known where it is not called.
    let outcome = match walk.run(Meeting { target, patch }) {
        Ok(()) => Ok(()),
        Err(error) => Err(Fault {
            error,
            depth: walk.write_path(row),
        }),
    };
    Applied {
        used: walk.used,
        outcome,
    }
}
