//! The answers of rules in words, as programs print them.
ghost use Rattle.std.specs.Prelude.{Some};
ghost use Rattle.rules.specs.Words.{truth_word, order_word};

use std::cmp::Ordering;
use std::fmt;

/// Whether something is equal or admitted, or none: `true`, `false` or `none`.
#[derive(Clone, Copy, Debug, PartialEq, Eq, Hash)]
pub struct Truth(pub Option<bool>);

/// How two things are ordered, or none: `less`, `equal`, `greater` or `none`.
#[derive(Clone, Copy, Debug, PartialEq, Eq, Hash)]
pub struct Ordered(pub Option<Ordering>);

impl fmt::Display for Truth {
    ghost output = { λ t. Some (truth_word t.0) };

    fn fmt<W: fmt::Write>(&self, f: &mut fmt::Formatter<W>) -> fmt::Result {
        f.write_str(match self.0 {
            None => "none",
            Some(true) => "true",
            Some(false) => "false",
        })
    }
}

impl fmt::Display for Ordered {
    ghost output = { λ o. Some (order_word o.0) };

    fn fmt<W: fmt::Write>(&self, f: &mut fmt::Formatter<W>) -> fmt::Result {
        f.write_str(match self.0 {
            None => "none",
            Some(Ordering::Less) => "less",
            Some(Ordering::Equal) => "equal",
            Some(Ordering::Greater) => "greater",
        })
    }
}
