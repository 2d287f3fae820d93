//! Marks: one at a time on a shelf, kept or rolled back there, by any token.
ghost use Rattle.std.specs.Prelude.{◌≡◌, true, None};
ghost use Rattle.trees.specs.Tests.{is_some};

use crate::report;
use crate::sight::sight;
use lending::with_shelf;
use rules::assemblies;
use shelf::{Mark, NoMark, Shelf};
use std::io;
use trees::codes::Refusal;

// Each of these says whether a mark is open, before and after: a type for a marked shelf would be a second shelf.

/// Sets a mark where none is open.
fn set(shelf: &mut Shelf<'_>) -> Mark
    requires { shelf.old.saved ≡ None }
    ensures { is_some shelf.new.saved ≡ true }
{
    shelf.mark().unwrap()
}

/// The refusal of a second mark.
fn second(shelf: &mut Shelf<'_>) -> Refusal
    requires { is_some shelf.old.saved ≡ true }
    ensures { is_some shelf.new.saved ≡ true }
{
    shelf.mark().unwrap_err()
}

/// Puts a leaf into a slot.
fn put(shelf: &mut Shelf<'_>, slot: usize)
    ensures { shelf.new.saved ≡ shelf.old.saved }
{
    let _ = shelf.leaf(&assemblies::board(), slot, 1, 212);
}

/// Keeps the open mark.
fn keep(shelf: &mut Shelf<'_>, mark: Mark)
    requires { is_some shelf.old.saved ≡ true }
    ensures { shelf.new.saved ≡ None }
{
    shelf.keep(mark).unwrap()
}

/// Rolls back to the open mark.
fn roll_back(shelf: &mut Shelf<'_>, mark: Mark)
    requires { is_some shelf.old.saved ≡ true }
    ensures { shelf.new.saved ≡ None }
{
    shelf.roll_back(mark).unwrap()
}

/// Where no mark is open, keep and roll_back hand the token back.
fn handed(shelf: &mut Shelf<'_>, mark: Mark) -> (Mark, [Option<Refusal>; 2])
    requires { shelf.old.saved ≡ None }
    ensures { shelf.new.saved ≡ None }
{
    let NoMark { mark } = shelf.keep(mark).unwrap_err();
    let NoMark { mark } = shelf.roll_back(mark).unwrap_err();
    (mark, [Some(Refusal::NoMark); 2])
}

/// A second mark, and rolling back to the first.
fn rolled(rt: &HostRuntime, shelf: &mut Shelf<'_>) -> io::Result<()>
    requires { shelf.old.saved ≡ None }
{
    put(shelf, 0);
    let before = sight(shelf);
    let mark = set(shelf);
    let again = second(shelf);
    let same = before == sight(shelf);
    put(shelf, 1);
    let put = before == sight(shelf);
    roll_back(shelf, mark);
    let back = before == sight(shelf);
    report::refused(rt, "a second mark", &[Some(again)], same)?;
    println!(rt; "trees as at the mark after a leaf: {put}, rolled back: {back}")
}

/// The token of the first shelf offered to the second, and the tokens of both spent crosswise.
fn crossed(rt: &HostRuntime, first: &mut Shelf<'_>, second: &mut Shelf<'_>) -> io::Result<()>
    requires first { first.old.saved ≡ None }
    requires second { second.old.saved ≡ None }
{
    let before = sight(first);
    let one = set(first);
    let bare = sight(second);
    let (one, refusals) = handed(second, one);
    let same = bare == sight(second);
    let two = set(second);
    put(first, 2);
    put(second, 2);
    keep(second, one);
    roll_back(first, two);
    let back = before == sight(first);
    let stays = bare != sight(second);
    let what = "keep and roll_back with no mark open";
    report::refused(rt, what, &refusals, same)?;
    println!(rt; "by the other's token, rolled back: {back}, kept: {stays}")
}

/// Marks on two shelves.
pub fn all(rt: &HostRuntime) -> io::Result<()> {
    with_shelf(rt.alloc(), 16, |shelf| rolled(rt, shelf))?;
    with_shelf(rt.alloc(), 16, |first| {
        with_shelf(rt.alloc(), 16, |second| crossed(rt, first, second))
    })
}
