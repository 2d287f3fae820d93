//! Whether two trees are equal: a loop over pairs of nodes, with a stack of those that are open.
ghost use Rattle.std.specs.Prelude.{◌≡◌};
ghost use Rattle.trees.specs.Equal.{equal as equal_trees};
ghost use Rattle.cells.specs.Views.{tree};
ghost use Rattle.walks.specs.Pairs.{HasFields};
ghost use Rattle.walks.specs.EqualWalk.{IsFrameOf, IsMet};

use crate::heads::alike;
use crate::met::Met;
use crate::pairs::{Fields, Pairs, Partners};
use arrayvec::ArrayVec;
use cells::{Kids, LEVELS, Node};
use rules::rule::LeafRule;
use trees::head::Head;

/// Two alike nodes that are open.
#[derive(Clone, Copy, Default)]
struct Frame<'a> {
    pairs: Pairs<'a>,
    /// They are fields of an enum, or are within one: none becomes false. A flag, as in the definition.
    sure: bool,
}

/// The pairs of the children of two alike nodes: the second's in their order, of enums the first's.
fn frame_of<'a>(head: &Head, ours: Kids<'a>, theirs: Kids<'a>) -> Frame<'a>
    requires ours { HasFields head.now ours }
    requires theirs { HasFields head.now theirs }
    ensures { IsFrameOf head.now ours.entry theirs.entry result }
{
    let sure = head.is_enum();
    let (next, row) = if sure { (ours, theirs) } else { (theirs, ours) };
    let partners = if head.is_named() {
        Partners::ByName(Fields::new(row))
    } else {
        Partners::ByPlace(row)
    };
    Frame {
        pairs: Pairs {
            ours: next,
            theirs: partners,
        },
        sure,
    }
}

/// Two nodes meet.
#[inline(always)]
fn meet<'a, R: LeafRule>(rule: &R, x: Node<'a>, y: Node<'a>) -> Met<Option<bool>, Frame<'a>>
    ensures { IsMet (R.means rule.now) (tree x.entry) (tree y.entry) result }
{
    match (x.head(), y.head()) {
        (Head::Leaf(p), Head::Leaf(q)) => Met::Answered(rule.eq(*p, *q)),
        (Head::Leaf(p), _) => Met::Answered(rule.beside(*p)),
        (head, other) => {
            let ours = x.children();
            let theirs = y.children();
            if !alike(head, other) || ours.len() != theirs.len() {
                return Met::Answered(Some(false));
            }
            Met::Opened(frame_of(head, ours, theirs))
        }
    }
}

/// Whether two trees are equal: true, false or none.
pub fn equal<R: LeafRule>(rule: &R, a: Node<'_>, b: Node<'_>) -> Option<bool>
    ensures { result ≡ equal_trees (R.means rule.now) (tree a.entry) (tree b.entry) }
{
    let mut frame = match meet(rule, a, b) {
        Met::Answered(answer) => return answer,
        Met::Opened(frame) => frame,
    };
    // a stack of its own, at most 16 levels: no walk of a shelf recurses or allocates
    let mut open: ArrayVec<Frame<'_>, LEVELS> = ArrayVec::new();
    loop {
        match frame.pairs.next() {
            None => match open.pop() {
                None => return Some(true),
                Some(around) => frame = around,
            },
            Some(pair) => {
                let Some(partner) = pair.theirs else {
                    return Some(false);
                };
                match meet(rule, partner, pair.ours) {
                    Met::Answered(Some(true)) => {}
                    Met::Answered(Some(false)) => return Some(false),
                    Met::Answered(None) => return if frame.sure { Some(false) } else { None },
                    Met::Opened(inner) => {
                        open.push(frame);
                        let sure = inner.sure || frame.sure;
                        frame = Frame { sure, ..inner };
                    }
                }
            }
        }
    }
}
