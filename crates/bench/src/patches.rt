//! Patches, each with its time for a node of the patch: one that sets leaves, one that extends a
//! list, and one that is refused at its end and rolled back.
use crate::shapes;
use crate::shapes::Shape;
use crate::times::timed;
use rules::assemblies;
use shelf::{Shelf, Stop};
use std::io;
use trees::codes::Refusal;

/// Times a call that lays the patch of slot 1 on the target of slot 0, and drops both.
fn laid<F: FnOnce(&mut Shelf<'_>, &mut [u16]) -> Result<(), Stop>>(
    rt: &HostRuntime,
    shelf: &mut Shelf<'_>,
    what: &str,
    nodes: usize,
    lay: F,
) -> io::Result<Result<(), Refusal>>
    requires { F.IsAlwaysCallable lay }
{
    let mut row = [0; 15];
    let (result, spent) = timed(rt, nodes, || lay(shelf, &mut row))?;
    eprintln!(rt; "patch, {what}, ns for each of its {nodes} nodes: {spent}")?;
    let _ = shelf.drop_tree(0);
    let _ = shelf.drop_tree(1);
    Ok(result.map_err(Stop::refusal))
}

/// The three patches; whether they ended as they should.
pub fn patching(rt: &HostRuntime, shelf: &mut Shelf<'_>) -> io::Result<bool> {
    shapes::build(shelf, 0, Shape::List, 3000);
    shapes::build(shelf, 1, Shape::List, 1001);
    let what = "1000 leaves set in a list of 2999";
    let set = laid(rt, shelf, what, 1001, |shelf, row| shelf.apply(0, 1, row))?;
    shapes::build(shelf, 0, Shape::List, 1001);
    shapes::build(shelf, 1, Shape::List, 2001);
    let what = "a list of 1000 extended by 1000";
    let grown = laid(rt, shelf, what, 2001, |shelf, row| shelf.apply(0, 1, row))?;
    shapes::build(shelf, 0, Shape::List, 1002);
    shapes::build(shelf, 1, Shape::List, 1001);
    let _ = shelf.leaf(&assemblies::board(), 15, 2, 7);
    let _ = shelf.push(1, &[], 15);
    let what = "refused at its end and rolled back";
    let refused = laid(rt, shelf, what, 1002, |shelf, row| {
        shelf.apply_whole(0, 1, row)
    })?;
    Ok(set.is_ok() && grown.is_ok() && refused == Err(Refusal::MismatchedTypes))
}
