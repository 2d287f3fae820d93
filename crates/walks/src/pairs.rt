//! Children of two alike nodes, each with its partner.
ghost use Rattle.std.specs.Prelude.{◌≡◌, true};
ghost use Rattle.trees.specs.Name.{distinct};
ghost use Rattle.trees.specs.Tree.{labels};
ghost use Rattle.cells.specs.Views.{forest, TrailsIn};

use cells::{Kids, Node};
use names::Name;

/// Children of unlike names. The one that is looked for is often the sibling after the last that
/// was found: the hint begins with it, and it is tried first.
#[derive(Clone, Copy)]
pub struct Fields<'a> {
    row: Kids<'a>,
    hint: Kids<'a>,
    ghost apart: { distinct (labels (forest row)) ≡ true },
    ghost trails: { TrailsIn row hint },
}

impl<'a> Fields<'a> {
    ghost use Rattle.walks.specs.Pairs.{Finds};

    /// All of a row.
    pub fn new(row: Kids<'a>) -> Fields<'a>
        requires { distinct (labels (forest row)) ≡ true }
        ensures { result.row ≡ row.entry }
    {
        Fields { row, hint: row }
    }

    /// The child under a name, with the hint behind it.
    pub fn find(self, name: &Name) -> Option<(Node<'a>, Fields<'a>)>
        ensures { Finds self.entry name.now result }
    {
        // Left by its label as soon as a name is found, by the hint or among all, with the row from
        // there on: only children that are passed over are gone through.
        let found = 'search: {
            if let Some(child) = self.hint.first() {
                if *name == *child.label() {
                    break 'search Some(self.hint);
                }
            }
            let mut left = self.row;
            while let Some(child) = left.first() {
                if *name == *child.label() {
                    break 'search Some(left);
                }
                left = left.rest();
            }
            None
        };
        let from = found?;
        let (child, hint) = from.split_first()?;
        Some((
            child,
            Fields {
                row: self.row,
                hint,
            },
        ))
    }
}

/// Children against which others are asked: by place those that are left, by name all.
#[derive(Clone, Copy)]
pub enum Partners<'a> {
    ByPlace(Kids<'a>),
    ByName(Fields<'a>),
}

impl Default for Partners<'_> {
    fn default() -> Self {
        Partners::ByPlace(Kids::default())
    }
}

/// Children that are left to be asked about, in order, and their partners.
#[derive(Clone, Copy, Default)]
pub struct Pairs<'a> {
    pub ours: Kids<'a>,
    pub theirs: Partners<'a>,
}

/// A child, and its partner, if there is one under its name.
#[derive(Clone, Copy)]
pub struct Pair<'a> {
    pub ours: Node<'a>,
    pub theirs: Option<Node<'a>>,
}

impl<'a> Pairs<'a> {
    ghost use Rattle.walks.specs.Pairs.{ShowsFirst, LeavesRest};

    /// The first pair, which is taken away. By place, the shorter row decides how many there are.
    /// Where the first child has no partner nothing is taken, and the child is not gone through.
    #[inline(always)]
    pub fn next(&mut self) -> Option<Pair<'a>>
        ensures shows { ShowsFirst self.old self.new result }
        ensures rest { LeavesRest self.old self.new result }
    {
        let child = self.ours.first()?;
        match self.theirs {
            Partners::ByPlace(row) => {
                let partner = row.first()?;
                let rest = row.rest();
                self.ours = self.ours.rest();
                self.theirs = Partners::ByPlace(rest);
                Some(Pair {
                    ours: child,
                    theirs: Some(partner),
                })
            }
            Partners::ByName(fields) => match fields.find(child.label()) {
                Some((partner, rest)) => {
                    self.ours = self.ours.rest();
                    self.theirs = Partners::ByName(rest);
                    Some(Pair {
                        ours: child,
                        theirs: Some(partner),
                    })
                }
                None => Some(Pair {
                    ours: child,
                    theirs: None,
                }),
            },
        }
    }
}

#[cfg(test)]
mod tests {
    use super::*;
    use cells::Cell;
    use std::test::Fail;

    #[test]
    fn shown(rt: HostRuntime) -> Result<(), Fail> {
        let cells = [Cell::VACANT, Cell::VACANT];
        let two = Kids {
            cells: &cells,
            count: 2,
        };
        let one = Kids {
            cells: two.cells,
            count: 1,
        };
        let mut by_place = Pairs {
            ours: two,
            theirs: Partners::ByPlace(one),
        };
        match by_place.next() {
            Some(pair) => assert!(rt; pair.theirs.is_some()),
            None => return Err(Fail::new("two children by place, and no pair")),
        }
        assert_eq!(rt; by_place.ours.len(), 1);
        assert!(rt; by_place.next().is_none());
        let mut by_name = Pairs {
            ours: two,
            theirs: Partners::ByName(Fields::new(one)),
        };
        match by_name.next() {
            Some(pair) => assert!(rt; pair.theirs.is_some()),
            None => return Err(Fail::new("two children by name, and no pair")),
        }
        assert_eq!(rt; by_name.ours.len(), 1);
        let mut lone = Pairs {
            ours: two,
            theirs: Partners::ByName(Fields::new(Kids::default())),
        };
        match lone.next() {
            Some(pair) => assert!(rt; pair.theirs.is_none()),
            None => return Err(Fail::new("a child without a partner, and no pair")),
        }
        assert_eq!(rt; lone.ours.len(), 2);
        Ok(())
    }
}
