//! Shelves on cells of the heap, for programs; no call of a shelf allocates.
#![tactic(auto)]

ghost use Rattle.std.specs.Prelude.{Ok, IfOk};
ghost use Rattle.std.specs.Fn.{FnOnceTakesAtMut, FnOnceReturnsAtMut};
ghost use Rattle.trees.specs.State.{State, opening};

use cells::Cell;
use shelf::Shelf;
use std::alloc::{AllocError, Global};

/// Takes a step on an empty shelf of so many cells, which are freed after it.
pub fn with_shelf<T, E: From<AllocError>, F: FnOnce(&mut Shelf<'_>) -> Result<T, E>>(
    alloc: Global,
    cells: usize,
    step: F,
) -> Result<T, E>
    requires { FnOnceTakesAtMut F.FnOnce step (opening cells cells) }
    ensures { IfOk result (λ given. (last : State)
        × FnOnceReturnsAtMut F.FnOnce step (opening cells cells) (Ok given) last) }
{
    let mut lent = vec![in alloc; Cell::VACANT; cells]?;
    let mut saved = vec![in alloc; Cell::VACANT; cells]?;
    let mut shelf = Shelf::open(lent.as_mut_slice(), saved.as_mut_slice());
    step(&mut shelf)
}

#[cfg(test)]
mod tests {
    use super::*;
    use std::test::Fail;

    #[test]
    fn lends(rt: HostRuntime) -> Result<(), Fail> {
        let free: usize = with_shelf(
            rt.alloc(),
            16,
            |shelf| Ok::<usize, AllocError>(shelf.free()),
        )?;
        assert_eq!(rt; free, 16);
        Ok(())
    }
}
