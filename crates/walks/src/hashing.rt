//! The hash of a tree: a loop over its cells in their order, with a stack of those that are open.
ghost use Rattle.std.specs.Prelude.{◌≡◌};
ghost use Rattle.rules.specs.Fnv.{fnv as hash_of, from, le_bytes};
ghost use Rattle.trees.specs.Hash.{hash as tree_hash, list_front, enum_front};
ghost use Rattle.cells.specs.Views.{tree};
ghost use Rattle.walks.specs.HashWalk.{IsMet};

use crate::met::Met;
use arrayvec::ArrayVec;
use cells::{Cell, LEVELS, Node};
use names::Name;
use rules::fnv;
use rules::rule::LeafRule;
use trees::codes::VariantType;
use trees::head::Head;

/// A node that is open: the hash of what has come of it, and how many children are to come.
#[derive(Clone, Copy, Default)]
struct Frame {
    acc: u64,
    left: usize,
}

/// The hash with the eight bytes of a number more.
fn fed_number(hash: u64, n: u64) -> u64
    ensures { result ≡ from hash (le_bytes 8 n) }
{
    fnv::fed(hash, &n.to_le_bytes())
}

/// The hash of what stands before the children's hashes in a List of that length.
fn list_begun(children: usize) -> u64
    ensures { result ≡ hash_of (list_front children) }
{
    fed_number(fnv::fed_byte(fnv::START, 3), children as u64)
}

/// The hash of what stands before the fields' hashes in an enum.
fn enum_begun(kind: VariantType, name: &Name) -> u64
    ensures { result ≡ hash_of (enum_front kind name.now) }
{
    let opened = fnv::fed_byte(fnv::START, 4);
    let sized = fnv::fed_byte(opened, name.len() as u8);
    let named = fnv::fed(sized, name.bytes());
    fnv::fed_byte(named, u8::from(kind))
}

/// A node's cell is met. A leaf is answered by the rule; none: the node has no hash.
fn meet<R: LeafRule>(rule: &R, cell: &Cell) -> Met<Option<u64>, Frame>
    ensures { IsMet (R.means rule.now) cell.now result }
{
    let left = cell.children;
    match &cell.head {
        Head::Leaf(p) => Met::Answered(rule.hash(*p)),
        Head::Struct | Head::Tuple => Met::Answered(None),
        Head::List => Met::Opened(Frame {
            acc: list_begun(left),
            left,
        }),
        Head::Enum { kind, name, .. } => Met::Opened(Frame {
            acc: enum_begun(*kind, name),
            left,
        }),
    }
}

/// The hash of a tree, or none.
// Over cells, since a row of views would look for the end of each child, anew on each level, and a hash asks
// every cell once, in their order. The open nodes are on a stack of their own, as in all walks: nothing recurses.
pub fn hash<R: LeafRule>(rule: &R, node: Node<'_>) -> Option<u64>
    ensures { result ≡ tree_hash (R.means rule.now) (tree node.entry) }
{
    let mut frame = match meet(rule, &node.cells[0]) {
        Met::Answered(answer) => return answer,
        Met::Opened(frame) => frame,
    };
    let mut cells = &node.cells[1..];
    let mut open: ArrayVec<Frame, LEVELS> = ArrayVec::new();
    loop {
        if frame.left == 0 {
            match open.pop() {
                None => return Some(frame.acc),
                Some(around) => {
                    frame = Frame {
                        acc: fed_number(around.acc, frame.acc),
                        ..around
                    }
                }
            }
        } else {
            let (cell, rest) = cells.split_first()?;
            cells = rest;
            frame.left -= 1;
            match meet(rule, cell) {
                Met::Answered(None) => return None,
                Met::Answered(Some(h)) => frame.acc = fed_number(frame.acc, h),
                Met::Opened(inner) => {
                    open.push(frame);
                    frame = inner;
                }
            }
        }
    }
}
