//! What the one part of the whole form keeps.
use arrayvec::ArrayVec;
use sem_query::{Dim, Kind};

/// What is kept of one stream: a cell for each combination of values of the dims. A value outside of the range of a dim is kept as the nearest end.
#[derive(Drop, Default)]
pub struct WholeStream {
    pub dims: ArrayVec<Dim, 8>,
    pub kind: Kind,
}
