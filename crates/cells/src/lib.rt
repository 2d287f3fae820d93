//! Trees in lent cells: one cell a node, each node before its children, so that a tree is a run of
//! cells. Here are the cells, views of the trees that lie in them, where a tree ends, how high it
//! is and where paths and names lead, and the moving, copying and releasing of runs.
#![tactic(auto)]

mod reads;
mod rows;
mod runs;
mod types;
mod views;

pub use reads::{child_at, end_of, find, height_of, index_of};
pub use rows::{Kid, Row};
pub use runs::{copy_front, copy_run, exchange, release};
pub use trees::head::Head;
pub use types::{Cell, LEVELS};
pub use views::{Kids, Node};
