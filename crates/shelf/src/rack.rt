//! The lent cells, what the shelf keeps about them, and where a slot's cells begin.
ghost use Rattle.std.specs.Prelude.{◌≡◌, ℕ, ◌+◌, ◌^◌, ◌<◌, ◌≤◌, length, take, sum, slice_index};
ghost use Rattle.trees.specs.State.{State, opening, fit_sizes, used as nodes_in};
ghost use Rattle.shelf.specs.Holds.{Holds, Shows};

use crate::slot::{SLOTS, Slot};
use cells::Cell;

/// The fewest and the most cells that a shelf may be opened on.
const FEWEST: usize = 16;

const MOST: usize = 4096;

/// The lent cells and what the shelf keeps about them. It has no invariant of its own: a change breaks what a shelf keeps
/// until it is done, so each function here says of which state it speaks.
#[derive(Drop)]
pub(crate) struct Rack<'a> {
    pub(crate) cells: &'a mut [Cell],
    pub(crate) saved: &'a mut [Cell],
    pub(crate) sizes: [usize; SLOTS],
    pub(crate) mark: Option<[usize; SLOTS]>,
    /// The sum of the sizes, kept since each move of cells asks for it.
    pub(crate) used: usize,
    pub(crate) room: usize,
}

/// Whether a shelf may be opened on so many cells and such a saved area.
pub(crate) fn fit(cells: usize, saved: usize) -> bool
    ensures { result ≡ fit_sizes cells saved }
{
    FEWEST <= cells && cells <= MOST && cells <= saved
}

/// How many cells the slots before one have.
pub(crate) fn start_of(sizes: &[usize], slot: usize) -> usize
    requires { (slot ≤ length sizes.now) × (sum (take slot sizes.now) < 2 ^ 64) }
    ensures { result ≡ sum (take slot sizes.now) }
{
    sizes[0..slot].iter().sum()
}

impl<'a> Rack<'a> {
    /// An empty shelf on lent cells; it has no cells on unfit sizes.
    pub(crate) fn open(cells: &'a mut [Cell], saved: &'a mut [Cell]) -> Rack<'a>
        ensures { Holds result (opening (length cells.old) (length saved.old)) }
    {
        let room = if fit(cells.len(), saved.len()) {
            cells.len()
        } else {
            0
        };
        Rack {
            cells,
            saved,
            sizes: [0; SLOTS],
            mark: None,
            used: 0,
            room,
        }
    }

    /// How many cells a slot has.
    pub(crate) fn size(&self, slot: Slot) -> usize
        ensures { result ≡ slice_index self.now.sizes slot.number }
    {
        self.sizes[slot.number]
    }

    /// Where the cells of a slot begin.
    pub(crate) fn start(&self, slot: Slot) -> usize
        requires { (s : State) × Shows self.now s }
        ensures is { (s : State) → Shows self.now s → result ≡ nodes_in (take slot.number s.slots) }
        ensures within { result + slice_index self.now.sizes slot.number ≤ self.now.used }
    {
        start_of(&self.sizes, slot.number)
    }
}
