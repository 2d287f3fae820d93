//! How the children of a patch node find those of its target.
ghost use Rattle.std.specs.Prelude.{◌≡◌, true, MatchResult};
ghost use Rattle.trees.specs.Tree.{same_kind};
ghost use Rattle.patch.specs.Manners.{manner_of, fields_of, IsMismatched};

use crate::errors::ReflectKindMismatchError;
use trees::codes::VariantType;
use trees::head::Head;

/// Whose place a patch child takes.
#[derive(Clone, Copy, Debug, Default, PartialEq, Eq)]
pub enum Pairing {
    /// That of the child of its name; without one it is skipped.
    #[default]
    ByName,
    /// That of the child at its position; beyond the last it is skipped.
    ByPlace,
    /// The same, but beyond the last it is copied to the end.
    Extending,
}

/// What becomes of two nodes of one kind.
#[derive(Clone, Copy, Debug, PartialEq, Eq)]
pub enum Manner {
    Nothing,
    Switch,
    Pair(Pairing),
}

/// A patch node must be of the target's kind.
pub fn same_kind(patch: &Head, target: &Head) -> Result<(), ReflectKindMismatchError>
    ensures { MatchResult result (λ _. same_kind target.now patch.now ≡ true)
        (IsMismatched target.now patch.now) }
{
    let from = patch.kind();
    let to = target.kind();
    if to != from {
        return Err(ReflectKindMismatchError { from, to });
    }
    Ok(())
}

/// What enums of one variant name do with their fields.
fn fields(patch: VariantType, target: VariantType) -> Manner
    ensures { result ≡ fields_of target patch }
{
    match target {
        VariantType::Unit => Manner::Nothing,
        VariantType::Tuple => match patch {
            VariantType::Tuple => Manner::Pair(Pairing::ByPlace),
            _ => Manner::Nothing,
        },
        VariantType::Struct => match patch {
            VariantType::Unit => Manner::Nothing,
            VariantType::Tuple => Manner::Pair(Pairing::ByPlace),
            VariantType::Struct => Manner::Pair(Pairing::ByName),
        },
    }
}

/// What becomes of a patch node and a target of its kind.
pub fn manner_of(patch: &Head, target: &Head) -> Manner
    ensures { result ≡ manner_of target.now patch.now }
{
    match target {
        Head::Leaf(_) => Manner::Nothing,
        Head::Struct => Manner::Pair(Pairing::ByName),
        Head::Tuple => Manner::Pair(Pairing::ByPlace),
        Head::List => Manner::Pair(Pairing::Extending),
        Head::Enum { kind, name, .. } => match patch {
            Head::Enum {
                kind: other,
                name: its,
                ..
            } => {
                if *name == *its {
                    return fields(*other, *kind);
                }
                Manner::Switch
            }
            _ => Manner::Nothing,
        },
    }
}
