//! Names of fields and variants: 1 to 32 bytes, each from 33 to 126. In clauses a name is its bytes.
//! The empty name stands where a child has none.
#![tactic(auto)]

ghost use Rattle.std.specs.Prelude.{◌≡◌, ◌≤◌, length, position, ◌==◌};
ghost use Rattle.std.specs.Cmp.{partial_equiv_from_equiv};
ghost use Rattle.std.specs.Cmp.Lexicographic.{nat_list_eq_equiv};
ghost use Rattle.names.specs.Names.{same_name, named, printable};

use std::marker::Model;

/// The most bytes that a name has.
pub const MOST: usize = 32;

/// The least and the greatest byte that a name may have.
pub const LEAST: u8 = 33;

pub const GREATEST: u8 = 126;

/// A name, or the empty one. An array, since a cell holds its name in fixed memory.
#[derive(Clone, Copy)]
pub struct Name {
    bytes: [u8; MOST],
}

impl Model for Name {
    ghost use Rattle.std.specs.Prelude.{ℕ, List};
    ghost use Rattle.names.specs.Names.{before_zero, padded, HoldsText};

    ghost Value = { List ℕ };

    ghost view = { λ n. before_zero n.bytes };

    ghost invariant = { λ n. HoldsText n.bytes };

    ghost inverse = { λ xs. record { bytes = padded xs } };

    ghost use Rattle.std.proofs.Common.{ap, sym};

    ghost inverse_ok = { λ a h. ap (λ bs. record { bytes = bs }) (sym h.0) };
}

impl Name {
    /// What stands where there is no name: an `Option` in each cell would make it larger.
    pub const EMPTY: Name = Name { bytes: [0; MOST] };

    /// The name that the bytes spell, if there are 1 to 32 and each is from 33 to 126.
    pub fn new(bytes: &[u8]) -> Option<Name>
        ensures { result ≡ named bytes.now }
    {
        if bytes.is_empty() || bytes.len() > MOST || !is_printable(bytes) {
            return None;
        }
        let mut row = [0; MOST];
        row[..bytes.len()].copy_from_slice(bytes);
        Some(Name { bytes: row })
    }

    /// How many bytes the name has, 0 for the empty one.
    pub fn len(&self) -> usize
        ensures value { result ≡ length self.now }
        ensures most { result ≤ 32 }
    {
        first_zero(&self.bytes).unwrap_or(MOST)
    }

    /// The bytes of the name, none for the empty one.
    pub fn bytes(&self) -> &[u8]
        ensures { result.now ≡ self.now }
    {
        let len = self.len();
        &self.bytes[..len]
    }
}

impl PartialEq for Name {
    ghost eq = { same_name };

    ghost laws = { partial_equiv_from_equiv nat_list_eq_equiv };

    fn eq(&self, other: &Name) -> bool {
        // as slices: arrays take half as long again where names are unlike (3,749 ns a node of 2,048 fields, 2,429 so)
        let mine: &[u8] = &self.bytes;
        let its: &[u8] = &other.bytes;
        mine == its
    }
}

impl Eq for Name {
    ghost laws = { nat_list_eq_equiv };
}

/// Whether all bytes are such as a name may have.
fn is_printable(bytes: &[u8]) -> bool
    ensures { result ≡ printable bytes.now }
{
    bytes.iter().all(|b| LEAST <= *b && *b <= GREATEST)
}

/// The place of the first zero.
fn first_zero(bytes: &[u8]) -> Option<usize>
    ensures { result ≡ position (λ b. b == 0) bytes.now }
{
    bytes.iter().position(|b| *b == 0)
}
