//! The pairs of a query and their signs.
ghost use Rattle.std.specs.Prelude.{◌≡◌};
ghost use Rattle.sem_query.specs.Parts.{pair_eq};

use crate::atom::{Attr, Element, is_same, is_same_element};
use arrayvec::ArrayVec;

/// How the two sides of a pair stand to each other.
#[derive(Clone, Copy, Debug, Default, PartialEq, Eq)]
pub enum Sign {
    #[default]
    Lt,
    Eq,
    Gt,
}

/// Two elements whose order a part fixes: a column with a constant, or with a later column.
#[derive(Clone, Copy, Debug, Default, PartialEq, Eq)]
pub struct Pair {
    pub left: Attr,
    pub right: Element,
}

/// A sign for each pair of a query.
pub type Signs = ArrayVec<Sign, 114>;

/// A part of a query: its satisfying assignments with these signs.
#[derive(Drop)]
pub struct Part {
    pub signs: Signs,
}

/// Returns whether two pairs are the same.
pub fn is_same_pair(p: Pair, r: Pair) -> bool
    ensures { result ≡ pair_eq p r }
{
    is_same(p.left, r.left) && is_same_element(p.right, r.right)
}
