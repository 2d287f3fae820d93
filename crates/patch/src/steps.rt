//! The walk: a loop over the nodes that meet.
ghost use Rattle.std.specs.Prelude.{◌≡◌, ◌<◌, ◌≤◌, ◌∷◌, ◌++◌, length, drop, IfOk, MatchResult};
ghost use Rattle.trees.specs.Tree.{Tree};
ghost use Rattle.cells.specs.Layout.{Lies, root};
ghost use Rattle.patch.specs.Manners.{taken};
ghost use Rattle.patch.specs.Edits.{Keeps};
ghost use Rattle.patch.specs.declared.frames.Step.TheVariants.{On, Done};
ghost use Rattle.patch.specs.Walk.{Task, Meets, IsLaidOrOpen, HasLaid, IsAtStep, Grows, IsRootDone, IsEnded};
ghost use Rattle.patch.specs.Walk.{frames_of, way, rank, weight};

use crate::edits::{extend, switch};
use crate::errors::ApplyError;
use crate::frames::{Ends, Frame, Meeting, Row, Step};
use crate::manners::{Manner, Pairing, manner_of, same_kind};
use arrayvec::ArrayVec;
use cells::{Cell, LEVELS};
use rules::leaf::Leaf;
use trees::head::Head;

/// The lent cells, how many are used, and the target's nodes that are open around the current one.
#[derive(Drop)]
pub struct Walk<'a> {
    pub cells: &'a mut [Cell],
    pub used: usize,
    pub stack: ArrayVec<Frame, LEVELS>,
}

impl<'a> Walk<'a> {
    /// A leaf takes a leaf of its tag whole.
    fn taken_leaf(&self, target: Leaf, patch: usize) -> Result<Leaf, ApplyError>
        requires { (u : Tree) × Lies self.now.cells.now patch u }
        ensures { (u : Tree) → Lies self.now.cells.now patch u →
            result ≡ taken target ((root u)) }
    {
        let from = match self.cells[patch].head {
            Head::Leaf(q) if q.tag == target.tag => return Ok(q),
            Head::Leaf(q) => q.tag,
            _ => 0,
        };
        Err(ApplyError::MismatchedTypes {
            from,
            to: target.tag,
        })
    }

    /// The patch's node is laid on the target's. Some: the target's node is open, and goes on.
    fn lay_node(&mut self, at: Meeting) -> Result<Option<Frame>, ApplyError>
        requires { (k : Task) × Meets k self.old at }
        ensures comes { (k : Task) → Meets k self.old at →
            MatchResult result (IsLaidOrOpen k self.new at) (IsEnded k self.new) }
        ensures keeps { Keeps self.old self.new }
    {
        if let Head::Leaf(p) = self.cells[at.target].head {
            let q = self.taken_leaf(p, at.patch)?;
            self.cells[at.target].head = Head::Leaf(q);
            return Ok(None);
        }
        let old = self.cells[at.target].head;
        let new = self.cells[at.patch].head;
        same_kind(&new, &old)?;
        match manner_of(&new, &old) {
            Manner::Nothing => Ok(None),
            Manner::Switch => {
                self.used = switch(self.cells, self.used, at)?;
                Ok(None)
            }
            Manner::Pair(pairing) => Ok(Some(Frame {
                pairing,
                target: at.target,
                row: Row {
                    at: at.target + 1,
                    count: self.cells[at.target].children,
                },
                next: Row {
                    at: at.patch + 1,
                    count: self.cells[at.patch].children,
                },
                index: 0,
            })),
        }
    }

    /// The patch's node is laid on the target's, which is done then or goes on.
    fn meet(&mut self, at: Meeting) -> Result<Step, ApplyError>
        requires { (k : Task) × Meets k self.old at }
        ensures comes { (k : Task) → Meets k self.old at →
            MatchResult result (IsAtStep k self.new) (IsEnded k self.new) }
        ensures keeps { Keeps self.old self.new }
    {
        match self.lay_node(at)? {
            Some(frame) => Ok(Step::On(frame)),
            None => Ok(Step::Done(at.ends())),
        }
    }

    /// A list's next patch child has no partner: a copy of it becomes the last child, and is done.
    fn grow(&mut self, frame: Frame) -> Result<Step, ApplyError>
        requires { (k : Task) × Grows k self.old frame }
        ensures comes { (k : Task) → Grows k self.old frame →
            MatchResult result (IsAtStep k self.new) (IsEnded k self.new) }
        ensures lent { self.new.cells.ghost_name ≡ self.old.cells.ghost_name }
        ensures falls { IfOk result (λ o. weight o self.new < weight (On frame) self.old) }
    {
        let end = frame.row.at;
        let patch = frame.next.at;
        self.stack.push(Frame {
            row: Row { at: end, count: 1 },
            ..frame
        });
        let list = Meeting {
            target: frame.target,
            patch,
        };
        self.used = extend(self.cells, self.used, list, end)?;
        Ok(Step::Done(Meeting { target: end, patch }.ends()))
    }

    /// A node goes on with the patch's next child, or is done.
    fn advance(&mut self, frame: Frame) -> Result<Step, ApplyError>
        requires { (k : Task) × IsAtStep k self.old (On frame) }
        ensures comes { (k : Task) → IsAtStep k self.old (On frame) →
            MatchResult result (IsAtStep k self.new) (IsEnded k self.new) }
        ensures lent { self.new.cells.ghost_name ≡ self.old.cells.ghost_name }
        ensures falls { IfOk result (λ o. weight o self.new < weight (On frame) self.old) }
    {
        if frame.next.count == 0 {
            return Ok(Step::Done(Ends {
                target: frame.row,
                patch: frame.next,
            }));
        }
        match self.partner(frame) {
            Some(row) => {
                self.stack.push(Frame { row, ..frame });
                self.meet(Meeting {
                    target: row.at,
                    patch: frame.next.at,
                })
            }
            None => match frame.pairing {
                Pairing::Extending => self.grow(frame),
                _ => Ok(Step::On(Frame {
                    next: self.without_first(frame.next),
                    index: frame.index + 1,
                    ..frame
                })),
            },
        }
    }

    /// A child is done: the node around it goes on behind the child, or is done as well, and then
    /// nothing asks where the child ends.
    fn go_up(&self, frame: Frame, ends: Ends) -> Step
        requires { (k : Task) × HasLaid k self.now frame ends }
        ensures comes { (k : Task) → HasLaid k self.now frame ends → IsAtStep k self.now result }
        ensures falls { weight result self.now < rank 65535 (frame ∷ frames_of self.now) }
    {
        if frame.is_last() {
            return Step::Done(Ends {
                target: ends.target.longer(frame.row.count - 1),
                patch: ends.patch.longer(frame.next.count - 1),
            });
        }
        let next = self.end_of_row(ends.patch);
        let row = match frame.pairing {
            Pairing::ByName => {
                let name = self.cells[next].label;
                self.row_by_name(frame, ends.target, &name)
            }
            _ => self.row_behind(frame, ends.target),
        };
        Step::On(frame.after_child(row, next))
    }

    /// A loop with a stack of its own, at most 16 levels: the nodes that meet, one after the other, until the root is done or the patch does not fit.
    pub fn run(&mut self, from: Meeting) -> Result<(), ApplyError>
        requires { (k : Task) × Meets k self.old from }
        ensures comes { (k : Task) → Meets k self.old from →
            MatchResult result (λ _. IsRootDone k self.new) (IsEnded k self.new) }
        ensures lent { self.new.cells.ghost_name ≡ self.old.cells.ghost_name }
    {
        let mut step = self.meet(from)?;
        loop {
            match step {
                Step::On(frame) => step = self.advance(frame)?,
                Step::Done(ends) => match self.stack.pop() {
                    None => return Ok(()),
                    Some(frame) => step = self.go_up(frame, ends),
                },
            }
        }
    }

    /// The positions at which the open nodes are go to the front of the row; tells how many.
    pub fn write_path(&self, row: &mut [u16]) -> usize
        requires { length (frames_of self.now) ≤ length row.old }
        ensures counts { result ≡ length (frames_of self.now) }
        ensures writes { row.new ≡ way (frames_of self.now) ++ drop result row.old }
    {
        for (i, frame) in self.stack.as_slice().iter().enumerate() {
            row[i] = frame.index;
        }
        self.stack.len()
    }
}
