//! Copies of patch runs that take a place in the target: the cells are lent for writing, and the
//! functions here lend them on for reading.
ghost use Rattle.std.specs.Prelude.{◌≡◌, ◌+◌, ◌<◌, ◌≤◌, MatchResult};
ghost use Rattle.trees.specs.declared.head.Head.{Head as HeadOf};
ghost use Rattle.trees.specs.Tree.{Tree, Forest, node, size, sizes};
ghost use Rattle.trees.specs.Place.{add_last};
ghost use Rattle.cells.specs.Layout.{Lies};
ghost use Rattle.patch.specs.declared.errors.ApplyError.TheVariants.{Room};
ghost use Rattle.patch.specs.Edits.{Placed, Becomes, NoRoom, Site, Renews, Refuses};

use crate::errors::ApplyError;
use crate::frames::Meeting;
use cells::{Cell, LEVELS, copy_run, end_of, exchange};
use std::ops::Range;

/// A copy of so many cells must find them free.
fn fit(from: usize, to: usize) -> Result<(), ApplyError>
    ensures { MatchResult result (λ _. from ≤ to) (λ e. (to < from) × (e ≡ Room from to)) }
{
    if from > to {
        return Err(ApplyError::Room { from, to });
    }
    Ok(())
}

/// Puts a copy of a run in the place of an old one, whose cells are free then, and writes the
/// node's cell; tells how many cells are used.
fn renew(
    cells: &mut [Cell],
    used: usize,
    target: usize,
    cell: Cell,
    run: Range<usize>,
    old: Range<usize>,
) -> Result<usize, ApplyError>
    requires { Site cells.old used target run old }
    ensures { (s : Site cells.old used target run old) →
        MatchResult result (Renews s cell cells.new) (Refuses s cells.new) }
{
    let size = run.end - run.start;
    fit(size, cells.len() - used)?;
    copy_run(cells, run.start, used, size);
    exchange(cells, old.start, used, used + size);
    exchange(cells, old.start + size, old.end + size, used + size);
    cells[target] = cell;
    Ok(used + size - (old.end - old.start))
}

// `switch` and `extend` share `renew`; where the copy goes and what the cell becomes is each one's own.

/// A patch node's fields, copied, take the place of the target's, with the patch's head; tells
/// how many cells are used.
pub fn switch(cells: &mut [Cell], used: usize, at: Meeting) -> Result<usize, ApplyError>
    requires { (h : HeadOf) × (k : HeadOf) × (f : Forest) × (g : Forest) ×
        Placed cells.old used at (node h f) (node k g) }
    ensures { (h k : HeadOf) (f g : Forest) →
        (s : Placed cells.old used at (node h f) (node k g)) →
        MatchResult result (Becomes s (node k g) (sizes g) (sizes f) cells.new)
        (NoRoom s (sizes g) cells.new) }
{
    let old = cells[at.target];
    let new = cells[at.patch];
    let cell = Cell {
        label: old.label,
        ..new
    };
    let run = at.patch + 1..end_of(cells, at.patch, LEVELS);
    let fields = at.target + 1..end_of(cells, at.target, LEVELS);
    renew(cells, used, at.target, cell, run, fields)
}

/// A copy of a patch node becomes the target's last child, at the target's end; tells how many
/// cells are used.
pub fn extend(cells: &mut [Cell], used: usize, at: Meeting, end: usize) -> Result<usize, ApplyError>
    requires placed { (h : HeadOf) × (f : Forest) × (u : Tree) ×
        Placed cells.old used at (node h f) u }
    requires end { (t : Tree) → Lies cells.old at.target t → end ≡ at.target + size t }
    ensures { (h : HeadOf) (f : Forest) (u : Tree) →
        (s : Placed cells.old used at (node h f) u) →
        MatchResult result
        (Becomes s (node h (add_last s.spot.patch.label u f)) (size u) 0 cells.new)
        (NoRoom s (size u) cells.new) }
{
    let old = cells[at.target];
    let cell = Cell {
        children: old.children + 1,
        ..old
    };
    let run = at.patch..end_of(cells, at.patch, LEVELS);
    renew(cells, used, at.target, cell, run, end..end)
}
