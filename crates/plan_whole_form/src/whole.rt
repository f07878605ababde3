//! The whole form of a query.
ghost use Rattle.std.specs.Prelude.{◌≡◌, ◌≤◌, length, map, IfOk, None};
ghost use Rattle.sem_whole.specs.Links.{AreLinks};
ghost use Rattle.sem_whole.specs.Failing.{IsFirstWholeBreak};
ghost use Rattle.plan_whole.specs.Columns.{atom_of};
ghost use Rattle.plan_whole.specs.Streams.{ArePlanned};
ghost use Rattle.plan_whole_form.specs.Part.{IsWholePart, IsWhole};
ghost use Rattle.plan_whole_form.specs.Streams.{dim_of, stream_of};

use crate::breaking::first_break;
use crate::conditions::conditions_of;
use crate::part::WholeStream;
use crate::selected::{dim_in, selected_ranges};
use arrayvec::ArrayVec;
use plan_whole::{ClosedSystem, ColumnLink, KeptClass, KeptStream, WholeKeeps, keeps_of};
use sem_query::{Break, Dim, LocalCondition};
use std::alloc::{AllocError, Global};

/// The one part of a query: its links in their order, what the rows of each stream are asked, what is kept of each stream of FROM, and the ranges
/// of the different selected columns.
#[derive(Drop)]
pub struct WholePart {
    pub links: ArrayVec<ColumnLink, 24>,
    pub conditions: Vec<LocalCondition>,
    pub streams: ArrayVec<WholeStream, 4>,
    pub selected: ArrayVec<Dim, 8>,
}

/// The whole form of a query.
#[derive(Drop)]
pub enum Whole {
    /// No assignment meets all comparisons and domains: the query has no part, and is answered nothing.
    Contradiction,
    /// The first condition that is broken.
    Broken(Break),
    Part(WholePart),
}

// The dims of a stream, with 0 for an end that is not there.
fn dims_of(classes: &[KeptClass]) -> ArrayVec<Dim, 8>
    requires { length classes.now ≤ 8 }
    ensures { result.items ≡ map dim_of classes.now }
{
    let mut list = ArrayVec::new();
    for class in classes {
        list.push(dim_in(class.attr, class.ends));
    }
    list
}

// What is kept of a stream, with 0 for an end that is not there.
fn stream_of(stream: &KeptStream) -> WholeStream
    ensures { result ≡ stream_of stream.now }
{
    WholeStream {
        dims: dims_of(stream.dims.as_slice()),
        kind: stream.kind,
    }
}

// What is kept of each stream.
fn streams_of(streams: &[KeptStream]) -> ArrayVec<WholeStream, 4>
    requires { length streams.now ≤ 4 }
    ensures { result.items ≡ map stream_of streams.now }
{
    let mut list = ArrayVec::new();
    for stream in streams {
        list.push(stream_of(stream));
    }
    list
}

// The one part of a query whose form breaks no condition. An error says that memory was not found.
fn part_of(alloc: Global, closed: &ClosedSystem, keeps: WholeKeeps) -> Result<WholePart, AllocError>
    requires links { AreLinks closed.now (map atom_of keeps.links.items) }
    requires streams { ArePlanned closed.now (map atom_of keeps.links.items) keeps.streams.items }
    requires sound { IsFirstWholeBreak closed.now (map atom_of keeps.links.items) None }
    ensures { IfOk result (IsWholePart closed.now) }
{
    // Named for the proof alone: the system of the query has a solution.
    let _query = closed.query();
    let conditions = conditions_of(alloc, closed)?;
    let WholeKeeps { links, streams } = keeps;
    Ok(WholePart {
        links,
        conditions,
        streams: streams_of(streams.as_slice()),
        selected: selected_ranges(closed),
    })
}

/// Returns the whole form of a query whose system does not contradict itself: the first condition that the form breaks and the first column that
/// shows it, or its one part. An error says that memory was not found.
pub fn whole_over(alloc: Global, closed: &ClosedSystem) -> Result<Whole, AllocError>
    ensures { IfOk result (IsWhole closed.now) }
{
    // Named for the proof alone: the system of the query has a solution.
    let _query = closed.query();
    let keeps = keeps_of(closed);
    match first_break(closed, keeps.links.as_slice()) {
        Some(found) => Ok(Whole::Broken(found)),
        None => match part_of(alloc, closed, keeps) {
            Ok(part) => Ok(Whole::Part(part)),
            Err(error) => Err(error),
        },
    }
}
