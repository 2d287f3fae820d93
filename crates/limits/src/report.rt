//! The lines that are printed, and trees that more than one limit needs.
use rules::assemblies;
use shelf::Shelf;
use std::{fmt, io};
use trees::codes::{Refusal, Shape};

/// A refusal as its number, 0 for none.
#[derive(Clone, Copy, Debug, PartialEq, Eq, Hash)]
pub struct Number(pub Option<Refusal>);

impl fmt::Display for Number {
    fn fmt<W: fmt::Write>(&self, f: &mut fmt::Formatter<W>) -> fmt::Result {
        let number = self.0.map_or(0, u8::from);
        write!(f, "{number}")
    }
}

/// What was tried, and the refusals' numbers.
#[derive(Clone, Copy, Debug)]
struct Tried<'a> {
    what: &'a str,
    refusals: &'a [Option<Refusal>],
}

impl fmt::Display for Tried<'_> {
    fn fmt<W: fmt::Write>(&self, f: &mut fmt::Formatter<W>) -> fmt::Result {
        let what = self.what;
        write!(f, "{what}:")?;
        for refusal in self.refusals {
            let number = Number(*refusal);
            write!(f, " {number}")?;
        }
        Ok(())
    }
}

/// Prints calls that were accepted or refused.
pub fn say(rt: &HostRuntime, what: &str, refusals: &[Option<Refusal>]) -> io::Result<()> {
    let tried = Tried { what, refusals };
    println!(rt; "{tried}")
}

/// Prints calls that were all refused, and whether every tree looks as before.
pub fn refused(
    rt: &HostRuntime,
    what: &str,
    refusals: &[Option<Refusal>],
    same: bool,
) -> io::Result<()> {
    let tried = Tried { what, refusals };
    println!(rt; "{tried}; trees as before: {same}")
}

/// Puts a List of so many numbers into a slot, through another slot that is empty.
pub fn list(shelf: &mut Shelf<'_>, slot: usize, other: usize, many: u64) {
    let _ = shelf.node(slot, Shape::List.into(), b"", 0);
    for i in 0..many {
        let _ = shelf.leaf(&assemblies::board(), other, 1, i);
        let _ = shelf.push(slot, &[], other);
    }
}

/// Puts Lists within each other into a slot, so many levels of them, at most 16, through another
/// empty slot.
pub fn chain(shelf: &mut Shelf<'_>, slot: usize, other: usize, levels: usize) {
    // a lent row of zeros, of which calls take a part
    let path = [0; 16];
    let _ = shelf.node(slot, Shape::List.into(), b"", 0);
    for level in 1..levels {
        let _ = shelf.node(other, Shape::List.into(), b"", 0);
        if level <= 16 {
            let _ = shelf.push(slot, &path[0..level - 1], other);
        }
    }
}

/// Empties every slot; slots are numbers to a caller.
pub fn clear(shelf: &mut Shelf<'_>) {
    for slot in 0..16 {
        let _ = shelf.drop_tree(slot);
    }
}
