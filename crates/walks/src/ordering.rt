//! The order of two trees: a loop over pairs of nodes, with a stack of the pairs that are open.
ghost use Rattle.std.specs.Prelude.{◌≡◌, true, not, Some};
ghost use Rattle.trees.specs.Name.{distinct};
ghost use Rattle.trees.specs.Tree.{labels};
ghost use Rattle.trees.specs.Compare.{together, same_order, compare as compare_trees};
ghost use Rattle.cells.specs.Views.{tree, forest};
ghost use Rattle.walks.specs.Pairs.{HasFields, partners, is_by_name};
ghost use Rattle.walks.specs.CompareWalk.{IsFrameOf, IsMet, IsGiven};

use crate::heads::alike;
use crate::met::Met;
use crate::pairs::{Fields, Pairs, Partners};
use arrayvec::ArrayVec;
use cells::{Kids, LEVELS, Node};
use rules::rule::LeafRule;
use std::cmp::Ordering;
use trees::head::Head;

/// Two alike nodes that are open, and what they answer if all pairs that are left are equal.
#[derive(Clone, Copy)]
struct Frame<'a> {
    pairs: Pairs<'a>,
    so_far: Ordering,
}

/// Two answers that are not none, together. `Ordering::then` would let the first of two unlike ones decide.
fn joined(a: Ordering, b: Ordering) -> Option<Ordering>
    ensures { result ≡ together (Some a) (Some b) }
{
    match (a, b) {
        (Ordering::Equal, o) | (o, Ordering::Equal) => Some(o),
        (Ordering::Less, Ordering::Less) => Some(Ordering::Less),
        (Ordering::Greater, Ordering::Greater) => Some(Ordering::Greater),
        _ => None,
    }
}

/// The partners of named children: by place, if the names of the two rows agree at every position.
fn partners_of<'a>(ours: Kids<'a>, theirs: Kids<'a>) -> Partners<'a>
    requires { distinct (labels (forest theirs)) ≡ true }
    ensures row { partners result ≡ forest theirs.entry }
    ensures way { is_by_name result ≡ not (same_order (forest ours.entry) (forest theirs.entry)) }
{
    let mut x = ours;
    let mut y = theirs;
    // the flag comes by `break`, as soon as two names are unlike or a row ends
    let same = loop {
        let Some(a) = x.first() else {
            break y.len() == 0;
        };
        let Some(b) = y.first() else {
            break x.len() == 0;
        };
        if *a.label() != *b.label() {
            break false;
        }
        x = x.rest();
        y = y.rest();
    };
    if same {
        Partners::ByPlace(theirs)
    } else {
        Partners::ByName(Fields::new(theirs))
    }
}

/// The frame of two alike nodes. None: the counts of other children than a List's are unlike.
fn frame_of<'a>(head: &Head, ours: Kids<'a>, theirs: Kids<'a>) -> Option<Frame<'a>>
    requires { HasFields head.now theirs }
    ensures { IsFrameOf head.now ours.entry theirs.entry result }
{
    let lengths = ours.len().cmp(&theirs.len());
    if !head.is_list() && lengths.is_ne() {
        return None;
    }
    let partners = if head.is_named() {
        partners_of(ours, theirs)
    } else {
        Partners::ByPlace(theirs)
    };
    let pairs = Pairs {
        ours,
        theirs: partners,
    };
    Some(Frame {
        pairs,
        so_far: lengths,
    })
}

// Equality has a `Frame`, a `frame_of` and a `meet` too: of other fields, steps and answers; `Met`, `Pairs` and
// `alike` are what both share.
/// Two nodes meet.
#[inline(always)]
fn meet<'a, R: LeafRule>(rule: &R, x: Node<'a>, y: Node<'a>) -> Met<Option<Ordering>, Frame<'a>>
    ensures { IsMet (R.means rule.now) (tree x.entry) (tree y.entry) result }
{
    match (x.head(), y.head()) {
        (Head::Leaf(p), Head::Leaf(q)) => Met::Answered(rule.cmp(*p, *q)),
        (Head::Leaf(_), _) => Met::Answered(None),
        (head, other) => {
            if !alike(head, other) {
                return Met::Answered(None);
            }
            match frame_of(head, x.children(), y.children()) {
                None => Met::Answered(None),
                Some(frame) => Met::Opened(frame),
            }
        }
    }
}

impl Default for Frame<'_> {
    fn default() -> Self {
        Frame {
            pairs: Pairs::default(),
            so_far: Ordering::Equal,
        }
    }
}

impl<'a> Frame<'a> {
    /// A pair has answered: by name all answers count, by place the first that is not equal ends.
    #[inline(always)]
    fn take(&mut self, answer: Ordering) -> Option<()>
        ensures { IsGiven self.old answer self.new result }
    {
        match self.pairs.theirs {
            Partners::ByName(_) => self.so_far = joined(self.so_far, answer)?,
            Partners::ByPlace(row) => {
                if answer.is_ne() {
                    self.pairs = Pairs {
                        ours: Kids::default(),
                        theirs: Partners::ByPlace(row),
                    };
                    self.so_far = answer;
                }
            }
        }
        Some(())
    }
}

/// The order of two trees: less, equal, greater or none.
pub fn compare<R: LeafRule>(rule: &R, a: Node<'_>, b: Node<'_>) -> Option<Ordering>
    ensures { result ≡ compare_trees (R.means rule.now) (tree a.entry) (tree b.entry) }
{
    let mut frame = match meet(rule, a, b) {
        Met::Answered(answer) => return answer,
        Met::Opened(frame) => frame,
    };
    // a stack of its own, at most 16 levels: no walk of a shelf recurses or allocates
    let mut open: ArrayVec<Frame<'_>, LEVELS> = ArrayVec::new();
    loop {
        match frame.pairs.next() {
            None => match open.pop() {
                None => return Some(frame.so_far),
                Some(mut around) => {
                    around.take(frame.so_far)?;
                    frame = around;
                }
            },
            Some(pair) => {
                let partner = pair.theirs?;
                match meet(rule, pair.ours, partner) {
                    Met::Answered(answer) => frame.take(answer?)?,
                    Met::Opened(inner) => {
                        open.push(frame);
                        frame = inner;
                    }
                }
            }
        }
    }
}
