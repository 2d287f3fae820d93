//! What a walk remembers.
ghost use Rattle.std.specs.Prelude.{◌≡◌, ◌+◌, ◌^◌, ◌<◌, ◌≤◌, MatchBool};
ghost use Rattle.patch.specs.Rows.{onward, ends_of, longer, IsLast};

use crate::manners::Pairing;

/// A target node, and a patch node that is to be laid on it. Positions, since the cells are written.
#[derive(Clone, Copy, Debug, PartialEq, Eq)]
pub struct Meeting {
    pub target: usize,
    pub patch: usize,
}

/// What a walk does next: an open node goes on, or one is done. Neither is a failure or the end of
/// the walk, as `Result` and `ControlFlow` would say.
#[derive(Clone, Copy, Debug, PartialEq, Eq)]
pub enum Step {
    On(Frame),
    Done(Ends),
}

/// Trees that lie one after the other: where they begin, and how many they are.
#[derive(Clone, Copy, Debug, Default, PartialEq, Eq)]
pub struct Row {
    pub at: usize,
    pub count: usize,
}

/// What is still to be passed of a target node, and of the patch node that was laid on it: rows that
/// end where the two nodes do. They are walked only if an end is asked for.
#[derive(Clone, Copy, Debug, PartialEq, Eq)]
pub struct Ends {
    pub target: Row,
    pub patch: Row,
}

/// A target node that is open. While a child is laid, both rows begin with that child.
#[derive(Clone, Copy, Debug, Default, PartialEq, Eq)]
pub struct Frame {
    pub pairing: Pairing,
    pub target: usize,
    /// The target's children from its next on, by name those behind the last that was found, or
    /// those from the partner of the patch's next child on.
    pub row: Row,
    /// The patch's children that are to come, and the position of the first.
    pub next: Row,
    pub index: u16,
}

impl Row {
    /// The row with so many trees more behind it.
    pub fn longer(self, more: usize) -> Row
        requires { self.count + more < 2 ^ 64 }
        ensures { result ≡ longer self more }
    {
        Row {
            count: self.count + more,
            ..self
        }
    }
}

impl Meeting {
    /// The rows of the two nodes alone, of which nothing is passed.
    pub fn ends(self) -> Ends
        ensures { result ≡ ends_of self }
    {
        Ends {
            target: Row {
                at: self.target,
                count: 1,
            },
            patch: Row {
                at: self.patch,
                count: 1,
            },
        }
    }
}

impl Frame {
    /// Whether the child that was laid is the last one: the patch has no other, or by place the
    /// target has no other.
    pub fn is_last(self) -> bool
        ensures { MatchBool result (IsLast self) (IsLast self → ⊥) }
    {
        match self.pairing {
            Pairing::ByPlace => self.next.count <= 1 || self.row.count <= 1,
            _ => self.next.count <= 1,
        }
    }

    /// The node behind the child that was laid: its row, and where the patch's next child is.
    pub fn after_child(self, row: Row, next: usize) -> Frame
        requires next { 0 < self.next.count }
        requires few { self.index + self.next.count ≤ 65535 }
        ensures { result ≡ onward self row next }
    {
        Frame {
            row,
            next: Row {
                at: next,
                count: self.next.count - 1,
            },
            index: self.index + 1,
            ..self
        }
    }
}
