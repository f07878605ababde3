//! What a certificate branches on.
use cert_checker::Shown;
use sem_query::{Pair, Query};

/// A query, the form that its certificate shows, and the pairs that get signs.
#[derive(Clone, Copy)]
pub struct Branches<'a> {
    pub query: &'a Query,
    pub shown: Shown,
    pub pairs: &'a [Pair],
}
