//! The search for a name among children by their positions, of trees that need not be sound.
ghost use Rattle.std.specs.Prelude.{◌≡◌, true, None, MatchOption};
ghost use Rattle.trees.specs.Name.{distinct};
ghost use Rattle.trees.specs.Tree.{Forest, labels, under};
ghost use Rattle.cells.specs.Children.{IsKept};
ghost use Rattle.walks.specs.Seeking.{Behind, There};

use cells::{Cell, Row};
use names::Name;

/// The children of a row from the one under a name on. The first of the hint, which are the last of
/// the row, is tried before all others.
pub fn seek(cells: &[Cell], row: Row, hint: Row, name: &Name) -> Option<Row>
    requires { (f : Forest) × (h : Forest) × IsKept cells.now row f × IsKept cells.now hint h }
    ensures { (f h : Forest) → IsKept cells.now row f → IsKept cells.now hint h → Behind f h →
        distinct (labels f) ≡ true →
        MatchOption result (under name.now f ≡ None) (There cells.now name.now f) }
{
    let mut rest = hint;
    let found = 'search: {
        if rest.count > 0 && *name == rest.label(cells) {
            break 'search true;
        }
        rest = row;
        while rest.count > 0 {
            if *name == rest.label(cells) {
                break 'search true;
            }
            rest = rest.rest(cells);
        }
        false
    };
    if found { Some(rest) } else { None }
}
