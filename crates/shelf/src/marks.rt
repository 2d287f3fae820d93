//! Marks: all slots saved, and kept as they are then or restored.
ghost use Rattle.trees.specs.Calls.{mark as marks, keep as keeps, roll_back};
ghost use Rattle.std.specs.Prelude.{◌≡◌};
ghost use Rattle.trees.specs.Deeds.{mark_kept, rolled_back};
ghost use Rattle.shelf.specs.Does.{Does};
ghost use Rattle.shelf.specs.Answers.{plainly, spent};

use crate::Shelf;
use crate::rack::start_of;
use crate::slot::SLOTS;
use trees::codes::Refusal;

/// An open mark. It must be kept or rolled back.
pub struct Mark {
    pub(crate) seal: (),
}

/// No mark is open here: the mark is handed back.
pub struct NoMark {
    pub mark: Mark,
}

impl Shelf<'_> {
    /// Saves all slots, and gives a mark that must be kept or rolled back.
    pub fn mark(&mut self) -> Result<Mark, Refusal>
        ensures { Does marks self.old self.new (plainly result) }
    {
        if self.rack.mark.is_some() {
            return Err(Refusal::MarkOpen);
        }
        let used = self.rack.used;
        self.rack.save(used);
        self.rack.mark = Some(self.rack.sizes);
        Ok(Mark { seal: () })
    }

    /// Ends a mark and leaves the trees.
    fn end(&mut self, mark: Mark)
        ensures { self.new ≡ mark_kept self.old }
    {
        let Mark { seal: () } = mark;
        self.rack.mark = None;
    }

    /// Ends a mark and restores every slot as of then.
    fn undo(&mut self, mark: Mark)
        ensures { self.new ≡ rolled_back self.old }
    {
        let Mark { seal: () } = mark;
        if let Some(sizes) = self.rack.mark {
            let used = start_of(&sizes, SLOTS);
            self.rack.restore(used);
            self.rack.sizes = sizes;
            self.rack.used = used;
            self.rack.mark = None;
        }
    }

    /// Takes a mark and leaves the trees; the mark is handed back if none is open here.
    pub fn keep(&mut self, mark: Mark) -> Result<(), NoMark>
        ensures { Does keeps self.old self.new (plainly (spent result)) }
    {
        if self.rack.mark.is_none() {
            return Err(NoMark { mark });
        }
        self.end(mark);
        Ok(())
    }

    /// Takes a mark and restores every slot as of the mark; the mark is handed back if none is open here.
    pub fn roll_back(&mut self, mark: Mark) -> Result<(), NoMark>
        ensures { Does roll_back self.old self.new (plainly (spent result)) }
    {
        if self.rack.mark.is_none() {
            return Err(NoMark { mark });
        }
        self.undo(mark);
        Ok(())
    }
}
