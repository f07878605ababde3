//! The lines of a certificate.
use arrayvec::ArrayVec;

/// A chain of constraints that leads from one node of the bounds to another: the numbers of the constraints, from 1.
#[derive(Drop)]
pub struct Path {
    pub from: u16,
    pub to: u16,
    pub numbers: ArrayVec<u16, 12>,
}

/// A line of a certificate. Each but a path is a node of the tree; the paths that follow a leaf belong to it.
#[derive(Drop)]
pub enum Line {
    /// Three nodes follow, with everything below each: for less, equal and greater of the pair with this number, from 1.
    Split(u16),
    /// No assignment gets here: the constraints with these numbers, from 1, close a chain with a negative sum.
    Infeasible(ArrayVec<u16, 13>),
    /// No assignment gets here: the soft comparison with this number, from 1, is false under the sign of its pair, or says that an
    /// element is not itself.
    Against(u16),
    /// A part of the query. The paths behind it tell what its constraints imply.
    Leaf,
    Path(Path),
}
