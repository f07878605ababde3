//! A leaf of a certificate.
use sem_query::{Query, Sign};

/// A leaf of a query: the signs at which it stands, and the bounds that its paths give, 13 nodes to a row.
#[derive(Clone, Copy)]
pub struct Leaf<'a> {
    pub query: &'a Query,
    pub signs: &'a [Sign],
    pub bounds: &'a [Option<i64>; 169],
}
