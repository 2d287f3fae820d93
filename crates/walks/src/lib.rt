//! Equality, order and hash of trees. Each is written once, for every leaf rule, as a loop that
//! keeps the nodes that are open on a stack of its own, with at most 16 levels.
#![tactic(auto)]

mod equality;
mod hashing;
mod heads;
mod met;
mod ordering;
mod pairs;
pub mod seeking;

pub use equality::equal;
pub use hashing::hash;
pub use ordering::compare;
