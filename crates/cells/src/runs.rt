//! Releasing, moving and copying runs of cells.
ghost use Rattle.std.specs.Prelude.{◌≡◌, ◌+◌, ◌-◌, ◌≤◌, ◌++◌, length, take, drop};
ghost use Rattle.std.proofs.Math.Seq.{paste};
ghost use Rattle.trees.specs.Tree.{size};
ghost use Rattle.cells.specs.Layout.{blanked, Exchanges};
ghost use Rattle.cells.specs.Reading.{tree_at, StandsAt};

use crate::types::Cell;

/// Releases the cells of the tree at `at`, and tells the position behind them.
pub fn release(cells: &mut [Cell], at: usize, levels: usize) -> usize
    requires { StandsAt cells.old at levels }
    ensures end { result ≡ at + size (tree_at cells.old at) }
    ensures blank { cells.new ≡ blanked cells.old at (size (tree_at cells.old at)) }
{
    let mut pos = at + 1;
    for _ in 0..cells[at].children {
        pos = release(cells, pos, levels - 1);
    }
    cells[at] = Cell::VACANT;
    pos
}

/// Exchanges two neighbouring runs of cells, `from..mid` and `mid..to`.
pub fn exchange(cells: &mut [Cell], from: usize, mid: usize, to: usize)
    requires { (from ≤ mid) × (mid ≤ to) × (to ≤ length cells.old) }
    ensures { Exchanges cells.old cells.new from mid to }
{
    // A run of one cell is held while the other slides, and `second` is put as `rotate_left` puts
    // it: so the loops of its own for one cell fall away, which would be calls of `memmove`.
    let first = mid - from;
    let second = (to - from) - first;
    if first == 1 {
        let held = cells[from];
        slide_down(cells, mid, from, second);
        cells[from + second] = held;
    } else if second == 1 {
        let held = cells[mid];
        slide_up(cells, mid, to, first);
        cells[from] = held;
    } else {
        cells[from..to].rotate_left(first);
    }
}

/// Moves the `len` cells from `from` on down to those from `to` on, the first of them first.
#[inline(always)]
fn slide_down(cells: &mut [Cell], from: usize, to: usize, len: usize)
    requires { (to ≤ from) × (from + len ≤ length cells.old) }
    ensures { cells.new ≡ paste cells.old to (drop from cells.old) len }
{
    for i in 0..len {
        cells[to + i] = cells[from + i];
    }
}

/// Moves the `len` cells before `from` up to those before `to`, the last of them first.
#[inline(always)]
fn slide_up(cells: &mut [Cell], from: usize, to: usize, len: usize)
    requires { (len ≤ from) × (from ≤ to) × (to ≤ length cells.old) }
    ensures { cells.new ≡ paste cells.old (to - len) (drop (from - len) cells.old) len }
{
    for i in 0..len {
        cells[to - 1 - i] = cells[from - 1 - i];
    }
}

/// Copies the `len` cells from `from` on to those from `to` on, which lie behind them.
pub fn copy_run(cells: &mut [Cell], from: usize, to: usize, len: usize)
    requires { (from + len ≤ to) × (to + len ≤ length cells.old) }
    ensures { cells.new ≡ paste cells.old to (drop from cells.old) len }
{
    // By hand: `copy_within` would be a call of `memmove`, which C programs need not have.
    for i in 0..len {
        let cell = cells[from + i];
        cells[to + i] = cell;
    }
}

/// Copies the first `len` cells of a row over those of another.
pub fn copy_front(from: &[Cell], to: &mut [Cell], len: usize)
    requires { (len ≤ length from.now) × (len ≤ length to.old) }
    ensures { to.new ≡ take len from.now ++ drop len to.old }
{
    to[..len].copy_from_slice(&from[..len]);
}
