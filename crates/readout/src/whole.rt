//! The two columns as two Struct trees on a shelf, a field a row, and the release compare of the
//! whole.
use crate::rows::{Fault, Sheet};
use columns::release::Release;
use columns::{Row, release};
use lending::with_shelf;
use rules::assemblies;
use rules::leaf::Leaf;
use shelf::Shelf;
use std::alloc::Global;
use trees::codes::{Refusal, Shape};

/// The cells of the shelf, enough for two trees of as many fields as a row file may have rows.
const CELLS: usize = 4096;
/// The slots of the two trees, and the one in which a field is made.
const DECLARED: usize = 0;

const FOUND: usize = 1;

const FIELD: usize = 2;

/// Puts a leaf into a tree under the row's name; a field of that name is replaced.
fn put(shelf: &mut Shelf, stamp: u16, slot: usize, row: &Row, leaf: Leaf) -> Result<(), Refusal> {
    shelf.leaf(&assemblies::release(stamp), FIELD, leaf.tag, leaf.value)?;
    shelf.insert(slot, &[], FIELD, row.name.bytes())
}

/// Builds the two trees of the sheet.
fn build(shelf: &mut Shelf, sheet: &Sheet) -> Result<(), Refusal> {
    shelf.node(DECLARED, Shape::Struct.into(), &[], 0)?;
    shelf.node(FOUND, Shape::Struct.into(), &[], 0)?;
    for row in sheet.rows.iter() {
        put(shelf, sheet.stamp, DECLARED, row, row.declared)?;
        put(shelf, sheet.stamp, FOUND, row, row.found)?;
    }
    Ok(())
}

/// How the declared tree and the found one compare.
pub fn compare(alloc: Global, sheet: &Sheet) -> Result<Release, Fault> {
    with_shelf(alloc, CELLS, |shelf| {
        build(shelf, sheet)?;
        Ok(release::compare_release(shelf, sheet.stamp, DECLARED, FOUND)?)
    })
}

#[cfg(test)]
mod tests {
    use super::*;
    use crate::rows;
    use rules::words::{Ordered, Truth};
    use std::test::Fail;

    const WHOLES: [(&str, &str, &str); 6] = [
        ("stamp 3\n", "true", "equal"),
        ("stamp 3\nm 3:1 3:9\n", "true", "equal"),
        ("stamp 9\nm 3:1 3:1\n", "none", "none"),
        ("stamp 3\nm 2:1 2:2\nm 2:1 2:1\n", "true", "equal"),
        ("stamp 3\nm 2:1 2:1\nn 2:9 2:8\n", "false", "greater"),
        (
            "stamp 3\nm 2:1 2:1\nn 1:0 1:0x1000000000000\n",
            "false",
            "none",
        ),
    ];

    #[test]
    fn wholes(rt: HostRuntime) -> Result<(), Fail> {
        for (text, equal, order) in WHOLES.iter() {
            let sheet = rows::read(rt.alloc(), text)?;
            let whole = compare(rt.alloc(), &sheet)?;
            assert!(rt; Truth(whole.equal).to_string(rt.alloc())?.as_str() == *equal);
            assert!(rt; Ordered(whole.order).to_string(rt.alloc())?.as_str() == *order);
        }
        Ok(())
    }
}
