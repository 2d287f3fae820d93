//! The release compare of two trees on a shelf: whether they are equal, and in what order they
//! stand, under the stamp layer for a tag over the address rule.
ghost use Rattle.std.specs.Prelude.{◌≡◌, []};
ghost use Rattle.trees.specs.Tree.{Tree, IsSound};
ghost use Rattle.trees.specs.Calls.{ask_equal, ask_compare, truth, order};
ghost use Rattle.trees.specs.Play.{step};
ghost use Rattle.shelf.specs.Answers.{told};
ghost use Rattle.columns.specs.Releases.{release_rule, ReleaseLaws};

use rules::assemblies;
use shelf::Shelf;
use std::cmp::Ordering;
use trees::codes::Refusal;

/// What the release compare answers.
#[derive(Clone, Copy, Debug, PartialEq, Eq, Hash)]
pub struct Release {
    /// Whether the trees are equal: true, false or none.
    pub equal: Option<bool>,
    /// How they are ordered: less, equal, greater or none.
    pub order: Option<Ordering>,
}

/// Compares the declared tree with the found one. Under this rule the order agrees with the
/// equality, equal trees have one hash, and an accepted patch settles.
pub fn compare_release(
    shelf: &Shelf,
    stamp: u16,
    declared: usize,
    found: usize,
) -> Result<Release, Refusal>
    ensures equality { told (λ x. truth x.equal) [] result
        ≡ (step (release_rule stamp) shelf.now (ask_equal declared found)).answer }
    ensures ordering { told (λ x. order x.order) [] result
        ≡ (step (release_rule stamp) shelf.now (ask_compare declared found)).answer }
    ensures laws { (a b : Tree) → IsSound a → IsSound b → ReleaseLaws stamp a b }
{
    let rule = assemblies::release(stamp);
    let equal = shelf.equal(&rule, declared, found)?;
    let order = shelf.compare(&rule, declared, found)?;
    Ok(Release { equal, order })
}
