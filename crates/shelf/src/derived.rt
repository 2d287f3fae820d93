//! Functions that are made of the shelf's calls.
ghost use Rattle.std.specs.Prelude.{◌≡◌, [], Some};
ghost use Rattle.trees.specs.Calls.{copy as copied, number, truth};
ghost use Rattle.shelf.specs.Answers.{plainly, told};
ghost use Rattle.shelf.specs.Does.{Does};
ghost use Rattle.shelf.specs.Derived.{variant_asked, popped};

use crate::Shelf;
use crate::heads::same_variant;
use trees::codes::{Refusal, VariantType};
use trees::head::Head;

/// A slot's tree once more, in an empty slot.
pub fn to_dynamic(shelf: &mut Shelf, from: usize, to: usize) -> Result<(), Refusal>
    ensures { Does (copied from to) shelf.old shelf.new (plainly result) }
{
    shelf.copy(from, to)
}

/// Whether an enum is of a variant type.
pub fn is_variant(
    shelf: &Shelf,
    slot: usize,
    path: &[u16],
    kind: VariantType,
) -> Result<bool, Refusal>
    ensures { told (λ b. truth (Some b)) [] result
        ≡ (variant_asked shelf.now slot path.now kind).answer }
{
    let spot = shelf.rack.stand(slot, path)?;
    match spot.cell.head {
        Head::Enum { kind: own, .. } => Ok(same_variant(own, kind)),
        _ => Err(Refusal::Kind),
    }
}

/// Moves the last element of a List to the empty second slot, and tells its position; none if there is no element.
pub fn pop(
    shelf: &mut Shelf,
    slot: usize,
    path: &[u16],
    second: usize,
) -> Result<Option<usize>, Refusal>
    ensures after { shelf.new ≡ (popped shelf.old slot path.now second).state }
    ensures answer { told number [] result ≡ (popped shelf.old slot path.now second).answer }
{
    let (spot, _) = shelf.rack.leave(slot, path, second)?;
    if !spot.cell.head.is_list() {
        return Err(Refusal::Kind);
    }
    let Some(index) = spot.cell.children.checked_sub(1) else {
        return Ok(None);
    };
    shelf.remove_at(slot, path, second, index)?;
    Ok(Some(index))
}
