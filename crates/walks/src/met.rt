//! What nodes that meet come to.

/// An answer, or children that are to be asked, by a frame for the stack.
#[derive(Clone, Copy)]
pub enum Met<A, F> {
    Answered(A),
    Opened(F),
}
