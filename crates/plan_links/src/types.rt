//! What is told of a part.
use crate::range::Range;
use arrayvec::ArrayVec;
use sem_query::{Attr, Link};

/// What holds in a part: for each attribute of the query, in order, its range where it is bounded, and the place of the
/// attribute that names its class; the equalities between streams, the earlier attribute on the left; the nonredundant
/// inequalities between streams; and the attributes that are references by the left or the right of one.
#[derive(Drop)]
pub struct Refs {
    pub ranges: ArrayVec<Option<Range>, 12>,
    pub class: ArrayVec<u8, 12>,
    pub equal: ArrayVec<Link, 66>,
    pub less: ArrayVec<Link, 66>,
    pub min_ref: ArrayVec<Attr, 12>,
    pub max_ref: ArrayVec<Attr, 12>,
}
