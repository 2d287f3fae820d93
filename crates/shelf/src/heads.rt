//! Heads of nodes by their codes.
ghost use Rattle.std.specs.Prelude.{◌≡◌, ◌==◌, MatchResult};
ghost use Rattle.trees.specs.Codes.{variant_number};
ghost use Rattle.shelf.specs.Tries.{Heads, IsVariant, NoVariant};

use names::Name;
use trees::codes::{Refusal, Shape, VariantType};
use trees::head::Head;

/// Whether two variant types are the same: `==`, told by their numbers, as the theory compares them.
pub(crate) fn same_variant(a: VariantType, b: VariantType) -> bool
    ensures { result ≡ (variant_number a == variant_number b) }
{
    a == b
}

/// The variant type of a code 4 to 6.
pub(crate) fn variant_type(code: u8) -> Result<VariantType, Refusal>
    ensures { MatchResult result (IsVariant code) (NoVariant code) }
{
    match Shape::try_from(code)? {
        Shape::Enum(kind) => Ok(kind),
        _ => Err(Refusal::Kind),
    }
}

/// The head of a code 1 to 6; an enum's name is tested.
pub(crate) fn head_of(code: u8, name: &[u8], index: u16) -> Result<Head, Refusal>
    ensures { Heads code name.now index result }
{
    match Shape::try_from(code)? {
        Shape::Leaf => Err(Refusal::Kind),
        Shape::Struct => Ok(Head::Struct),
        Shape::Tuple => Ok(Head::Tuple),
        Shape::List => Ok(Head::List),
        Shape::Enum(kind) => Ok(Head::Enum {
            kind,
            name: Name::new(name).ok_or(Refusal::Name)?,
            index,
        }),
    }
}
