//! The links of a query and what is kept of each of its streams.
ghost use Rattle.std.specs.Prelude.{◌<◌, map, length};
ghost use Rattle.sem_whole.specs.Links.{AreLinks};
ghost use Rattle.plan_whole.specs.Columns.{atom_of};
ghost use Rattle.plan_whole.specs.Streams.{ArePlanned};

use crate::closed::ClosedSystem;
use crate::links::{ColumnLink, links_of};
use crate::streams::{KeptStream, stream_of};
use arrayvec::ArrayVec;

/// The links of a query, and what is kept of each stream of FROM.
#[derive(Drop, Default)]
pub struct WholeKeeps {
    pub links: ArrayVec<ColumnLink, 24>,
    pub streams: ArrayVec<KeptStream, 4>,
}

// What is kept of each stream of FROM.
fn streams_of(closed: &ClosedSystem, links: &[ColumnLink]) -> ArrayVec<KeptStream, 4>
    requires { AreLinks closed.now (map atom_of links.now) }
    ensures { ArePlanned closed.now (map atom_of links.now) result.items }
{
    let from = closed.query().from();
    let mut streams = ArrayVec::new();
    for place in 0..from.len() {
        streams.push(stream_of(closed, links, place as u8));
    }
    streams
}

/// Returns the links of a query, in their order, and what is kept of each stream of FROM.
pub fn keeps_of(closed: &ClosedSystem) -> WholeKeeps
    ensures links { AreLinks closed.now (map atom_of result.links.items) }
    ensures streams { ArePlanned closed.now (map atom_of result.links.items) result.streams.items }
{
    let links = links_of(closed);
    let streams = streams_of(closed, links.as_slice());
    WholeKeeps { links, streams }
}
