//! Calls that read a node: which child has a name, what the node is, and what its children are called.
ghost use Rattle.std.specs.Prelude.{◌≡◌, ℕ, ◌≤◌, [], length, Some};
ghost use Rattle.trees.specs.Tree.{variant_name};
ghost use Rattle.trees.specs.Calls.{index_of, look as looks, name_at, number, in_front};
ghost use Rattle.trees.specs.Deeds.{seen_head};
ghost use Rattle.shelf.specs.Does.{Does};
ghost use Rattle.shelf.specs.Answers.{told};
ghost use Rattle.shelf.specs.Looks.{seen_by};

use crate::Shelf;
use crate::opening::name_row;
use names::Name;
use trees::codes::Refusal;
use trees::head::Head;

/// What a node is; what does not apply is zero: the answer of a look is fixed so. The name goes to a lent row, and its
/// length stands here.
#[derive(Clone, Copy, Debug, PartialEq, Eq)]
pub struct Look {
    pub code: u8,
    pub tag: u16,
    pub value: u64,
    pub index: u16,
    pub children: usize,
    pub name_len: usize,
}

/// Writes a name to the front of a row, and tells its length.
pub(crate) fn show_name(name: &Name, row: &mut [u8]) -> usize
    requires { 32 ≤ length row.old }
    ensures size { result ≡ length name.now }
    ensures front { row.new ≡ in_front name.now row.old }
{
    let len = name.len();
    row[0..len].copy_from_slice(name.bytes());
    len
}

/// Writes the variant name of a node to the front of a row, and tells its length.
pub(crate) fn show_variant(head: &Head, row: &mut [u8]) -> usize
    requires { 32 ≤ length row.old }
    ensures size { result ≡ length (variant_name head.now) }
    ensures front { row.new ≡ in_front (variant_name head.now) row.old }
{
    match head {
        Head::Enum { name, .. } => show_name(name, row),
        _ => 0,
    }
}

/// What the node of a cell is, whose variant name has so many bytes.
pub(crate) fn look_of(head: &Head, children: usize, name_len: usize) -> Look
    requires { name_len ≡ length (variant_name head.now) }
    ensures { seen_by result ≡ seen_head head.now children }
{
    let (tag, value, index) = match head {
        Head::Leaf(p) => (p.tag, p.value, 0),
        Head::Enum { index, .. } => (0, 0, *index),
        _ => (0, 0, 0),
    };
    Look {
        code: head.code(),
        tag,
        value,
        index,
        children,
        name_len,
    }
}

impl Shelf<'_> {
    /// Which child of a node has a name, if one has.
    pub fn index_of(&self, slot: usize, path: &[u16], name: &[u8]) -> Result<Option<usize>, Refusal>
        ensures { Does (index_of slot path.now name.now) self.now self.now (told number [] result) }
    {
        let parent = self.rack.stand(slot, path)?;
        // the kit cannot build its plan of a function that carries a head and names none
        let _ = parent.cell.head.is_list();
        let label = Name::new(name).ok_or(Refusal::Name)?;
        Ok(self.rack.field(&parent, &label))
    }

    /// What a node is; its variant name goes to the front of a row of 32 or more.
    pub fn look(&self, slot: usize, path: &[u16], row: &mut [u8]) -> Result<Look, Refusal>
        ensures { Does (looks slot path.now row.old) self.now self.now
            (told seen_by row.new result) }
    {
        name_row(row)?;
        let node = self.rack.stand(slot, path)?;
        let name_len = show_variant(&node.cell.head, row);
        Ok(look_of(&node.cell.head, node.cell.children, name_len))
    }

    /// The name of a node's child goes to the front of a row of 32 or more, and its length is told, 0 for none.
    pub fn name_at(
        &self,
        slot: usize,
        path: &[u16],
        index: usize,
        row: &mut [u8],
    ) -> Result<usize, Refusal>
        ensures { Does (name_at slot path.now index row.old) self.now self.now
            (told (λ n. number (Some n)) row.new result) }
    {
        name_row(row)?;
        let spot = self.rack.stand(slot, path)?;
        if index >= spot.cell.children {
            return Err(Refusal::Index);
        }
        let at = self.rack.start(spot.slot) + self.rack.gap(&spot, index);
        let label = self.rack.cells[at].label;
        Ok(show_name(&label, row))
    }
}
