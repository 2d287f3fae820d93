//! How rows are printed.
use crate::rows::Field;
use columns::Row;
use columns::release::Release;
use rules::words::{Ordered, Truth};
use std::io;

/// The word of what a rule says of a row.
fn word(equal: Option<bool>) -> &'static str {
    match equal {
        Some(true) => "agree",
        Some(false) => "differ",
        None => "cannot be compared",
    }
}

/// Prints the two leaves of a row, the name and the answer.
pub fn print_row(rt: &HostRuntime, row: &Row, equal: Option<bool>) -> io::Result<()> {
    let declared = Field(row.declared);
    let found = Field(row.found);
    let name = std::str::from_utf8(row.name.bytes()).unwrap_or("");
    let answer = word(equal);
    println!(rt; "{declared} {found} {name} {answer}")
}

/// Prints how the two columns compare as wholes.
pub fn print_whole(rt: &HostRuntime, whole: Release) -> io::Result<()> {
    let equal = Truth(whole.equal);
    let order = Ordered(whole.order);
    println!(rt; "whole: equal {equal}, order {order}")
}
