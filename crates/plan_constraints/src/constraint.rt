//! A constraint on the difference of two nodes.

/// Says that the left node is at most `bound` above the right one. The two may be the same.
#[derive(Clone, Copy, PartialEq, Eq, Debug, Default)]
pub struct Constraint {
    pub left: u8,
    pub right: u8,
    pub bound: i64,
}
