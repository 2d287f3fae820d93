//! The calls, each with its time.
use crate::shapes;
use crate::shapes::Shape;
use rules::assemblies;
use rules::rule::LeafRule;
use shelf::Shelf;
use std::cmp::Ordering;
use std::io;
use std::time::Instant;

/// What a step gives, and the nanoseconds that it takes for each of so many nodes.
pub fn timed<T: Drop, F: FnOnce() -> T>(
    rt: &HostRuntime,
    nodes: usize,
    step: F,
) -> io::Result<(T, u128)>
    requires { F.IsAlwaysCallable step }
{
    let start = Instant::now(rt)?;
    let given = step();
    let spent = start.elapsed(rt)?;
    Ok((
        given,
        spent.as_nanos().checked_div(nodes as u128).unwrap_or(0),
    ))
}

/// Builds a tree in slot 0, and copies it to slot 1.
pub fn making(
    rt: &HostRuntime,
    shelf: &mut Shelf<'_>,
    shape: Shape,
    nodes: usize,
) -> io::Result<bool> {
    eprintln!(rt; "{shape}, {nodes} nodes, ns for each")?;
    let ((), build) = timed(rt, nodes, || shapes::build(shelf, 0, shape, nodes))?;
    let (copied, copy) = timed(rt, nodes, || shelf.copy(0, 1))?;
    eprintln!(rt; "  build {build}, copy {copy}")?;
    if shape == Shape::Reversed {
        let _ = shelf.drop_tree(1);
        shapes::build(shelf, 1, Shape::Struct, nodes);
    }
    Ok(copied.is_ok())
}

/// Asks whether the two trees are equal, how they compare, and the hash of one.
pub fn asking(rt: &HostRuntime, shelf: &Shelf<'_>, shape: Shape, nodes: usize) -> io::Result<bool> {
    let rule = assemblies::board();
    let (same, equal) = timed(rt, nodes, || shelf.equal(&rule, 0, 1))?;
    let (order, compare) = timed(rt, nodes, || shelf.compare(&rule, 0, 1))?;
    let (number, hash) = timed(rt, nodes, || shelf.hash(&rule, 0))?;
    eprintln!(rt; "  equal {equal}, compare {compare}, hash {hash}")?;
    let hashed = matches!(number, Ok(Some(_)));
    let hashes = !matches!(shape, Shape::Struct | Shape::Reversed);
    Ok(same == Ok(Some(true)) && order == Ok(Some(Ordering::Equal)) && hashed == hashes)
}

/// Sets a mark and rolls back to it.
fn rolled(shelf: &mut Shelf<'_>) -> bool {
    let Ok(mark) = shelf.mark() else {
        return false;
    };
    shelf.roll_back(mark).unwrap();
    true
}

/// Marks and rolls back a shelf with both trees, and drops them.
pub fn leaving(rt: &HostRuntime, shelf: &mut Shelf<'_>, nodes: usize) -> io::Result<bool> {
    let both = nodes.saturating_mul(2);
    let (back, roll) = timed(rt, both, || rolled(shelf))?;
    let (dropped, drops) = timed(rt, both, || {
        shelf.drop_tree(0).is_ok() && shelf.drop_tree(1).is_ok()
    })?;
    eprintln!(rt; "  mark and roll back {roll}, drop {drops}")?;
    Ok(back && dropped)
}
