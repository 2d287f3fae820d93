//! The shelf: sixteen slots for trees on lent cells. In contracts it is a state of the theory, and every call
//! leads from one state to the next, and answers, as the theory's state machine says; no call asks anything
//! of its caller.
#![tactic(auto)]

ghost use Rattle.std.specs.Prelude.{◌≡◌, ◌≤◌, [], length};
ghost use Rattle.trees.specs.Tree.{IsSound};
ghost use Rattle.trees.specs.State.{State, opening, free_cells};
ghost use Rattle.trees.specs.Keeps.{Everywhere, IsRoomy};
ghost use Rattle.shelf.specs.Holds.{Holds};
ghost use Rattle.shelf.specs.Answers.{plainly, sizes_answer};

use crate::rack::Rack;
use cells::Cell;
use std::marker::Model;
use trees::codes::Refusal;

mod building;
mod derived;
mod grafts;
mod heads;
mod marks;
mod moves;
mod opening;
mod overlay;
mod patching;
mod places;
mod questions;
mod rack;
mod reads;
mod saving;
mod slot;
mod slots;
mod taking;

pub use derived::{is_variant, pop, to_dynamic};
pub use marks::{Mark, NoMark};
pub use patch::{ApplyError, Fault};
pub use patching::Stop;
pub use reads::Look;

/// Sixteen slots for trees on lent cells.
#[derive(Drop)]
pub struct Shelf<'a> {
    rack: Rack<'a>,
    ghost ok: { ∥ ((s : State) × Holds rack s) ∥₁ },
}

impl<'a> Model for Shelf<'a> {
    ghost use Rattle.trees.specs.State.{State};
    ghost use Rattle.trees.specs.StateCodes.{state_code};
    ghost use Rattle.shelf.specs.State.{state_of};

    ghost Value = { State };

    ghost coded = { state_code };

    ghost view = { λ a. state_of a.ok };

    ghost use Rattle.shelf.specs.Holds.{Holds};

    ghost invariant = { λ a. Holds a.rack (state_of a.ok) };
}

/// Tests the sizes that a shelf may be opened on: 16 to 4,096 cells, and a saved area at least as long.
pub fn fit(cells: usize, saved: usize) -> Result<(), Refusal>
    ensures { plainly result ≡ sizes_answer cells saved }
{
    if rack::fit(cells, saved) {
        Ok(())
    } else {
        Err(Refusal::Lent)
    }
}

impl<'a> Shelf<'a> {
    /// How many of its cells are free. From any shelf it is known that it fits its cells, and that its trees are sound.
    pub fn free(&self) -> usize
        ensures is { result ≡ free_cells self.now }
        ensures roomy { IsRoomy self.now.capacity self.now × (self.now.capacity ≤ 4096) }
        ensures sound { Everywhere IsSound self.now }
    {
        self.rack.room - self.rack.used
    }

    /// An empty shelf on lent cells, with no mark open; on unfit sizes it has no cells.
    pub fn open(cells: &'a mut [Cell], saved: &'a mut [Cell]) -> Shelf<'a>
        ensures { result ≡ opening (length cells.old) (length saved.old) }
    {
        Shelf {
            rack: Rack::open(cells, saved),
        }
    }
}
