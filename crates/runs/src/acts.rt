//! One call of a script on a shelf.
ghost use Rattle.runs.specs.Replies.{Replies};
ghost use Rattle.script.specs.Answers.{fields_of};
ghost use Rattle.script.specs.Calls.{asked};

use crate::replies::{reply, stopped};
use rules::rule::LeafRule;
use script::answer::Reply;
use script::record::{Call, PATH};
use shelf::Shelf;

/// Does what a record asks for on a shelf, under a rule, and replies.
pub fn act<R: LeafRule>(shelf: &mut Shelf<'_>, rule: &R, call: &Call<'_>) -> Reply
    ensures { Replies (R.means rule.now) (asked call.now) shelf.old shelf.new (fields_of result) }
{
    match call {
        Call::Leaf { slot, tag, value } => reply(shelf.leaf(rule, *slot, *tag, *value)),
        Call::Node {
            slot,
            code,
            name,
            index,
        } => reply(shelf.node(*slot, *code, name, *index)),
        Call::Insert {
            place,
            second,
            name,
        } => reply(shelf.insert(place.slot, place.path.as_slice(), *second, name)),
        Call::Push { place, second } => {
            reply(shelf.push(place.slot, place.path.as_slice(), *second))
        }
        Call::PutAt {
            place,
            second,
            index,
        } => reply(shelf.put_at(place.slot, place.path.as_slice(), *second, *index)),
        Call::RemoveAt {
            place,
            second,
            index,
        } => reply(shelf.remove_at(place.slot, place.path.as_slice(), *second, *index)),
        Call::SetVariant {
            place,
            code,
            name,
            index,
        } => reply(shelf.set_variant(place.slot, place.path.as_slice(), *code, name, *index)),
        Call::Copy { from, to } => reply(shelf.copy(*from, *to)),
        Call::DropTree { slot } => reply(shelf.drop_tree(*slot)),
        Call::Apply { target, patch } => {
            reply(
                shelf
                    .apply(*target, *patch, &mut [0; PATH])
                    .map_err(stopped),
            )
        }
        Call::ApplyWhole { target, patch } => reply(
            shelf
                .apply_whole(*target, *patch, &mut [0; PATH])
                .map_err(stopped),
        ),
        Call::Equal { first, second } => reply(shelf.equal(rule, *first, *second)),
        Call::Compare { first, second } => reply(shelf.compare(rule, *first, *second)),
        Call::Hash { slot } => reply(shelf.hash(rule, *slot)),
        Call::IndexOf { place, name } => {
            reply(shelf.index_of(place.slot, place.path.as_slice(), name))
        }
    }
}
