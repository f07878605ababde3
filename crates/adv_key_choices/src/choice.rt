//! Choices of keys, and queries with the classes of their columns.
use arrayvec::ArrayVec;
use sem_query::{Query, Which};

/// The key column of each stream by its number, or none where it is broadcast.
#[derive(Clone, Copy, Debug, PartialEq, Eq)]
pub struct Choice {
    pub keys: [Option<u8>; 16],
}

/// A query with the classes of its columns, whether boxes that are the same have their cells once, and the limit that refuses it, if one does.
#[derive(Drop)]
pub struct KeyedQuery {
    pub query: Query,
    pub classes: ArrayVec<u8, 12>,
    pub shared: bool,
    pub limit: Option<Which>,
}
