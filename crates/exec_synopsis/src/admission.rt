//! Which rows a part admits.
ghost use Rattle.std.specs.Prelude.{◌≡◌, ◌<◌, length};
ghost use Rattle.std.specs.List.{list_all};
ghost use Rattle.sem_query.specs.Parts.{pairs};
ghost use Rattle.sem_query.specs.Meaning.{by_column};
ghost use Rattle.sem_query.specs.Plan.{stream_at, dims_at};
ghost use Rattle.sem_query.specs.Admission.{in_range};
ghost use Rattle.exec_synopsis.specs.Preparing.{IsPrepared};
ghost use Rattle.exec_synopsis.specs.Axes.{IsPlacement};

use crate::axes::{Placement, placement_at};
use crate::prepared::Prepared;
use sem_query::{Dim, PartPlan, Query, Row, StreamPlan, value_at};

// Whether the value of a dim is within its range.
fn is_in_range(row: &[i64], dim: Dim) -> bool
    ensures { result ≡ in_range (by_column row.now) dim }
{
    let value = value_at(row, dim.attr.column);
    !(value < dim.lo) && !(dim.hi < value)
}

// Whether the values of all dims are.
fn all_in_range(row: &[i64], dims: &[Dim]) -> bool
    ensures { result ≡ list_all (in_range (by_column row.now)) dims.now }
{
    dims.iter().all(|dim| is_in_range(row, *dim))
}

/// Returns what is kept of the stream at a place of FROM.
pub fn stream_at(part: &PartPlan, place: usize) -> &StreamPlan
    requires { place < length part.now.streams.items }
    ensures { result.now ≡ stream_at part.now place }
{
    &part.streams.as_slice()[place]
}

// Whether a row of the stream at a place of FROM lies in the ranges of its dims.
fn lies_inside(part: &PartPlan, pos: u8, row: &Row) -> bool
    requires { pos < length part.now.streams.items }
    ensures { result ≡ list_all (in_range (by_column row.now.items)) (dims_at part.now pos) }
{
    all_in_range(
        row.as_slice(),
        stream_at(part, usize::from(pos)).dims.as_slice(),
    )
}

/// Returns where a row of the stream at a place of FROM stands by the ranges of the dims alone.
#[inline(always)]
pub fn placement_by_ranges(
    q: &Query,
    part: &PartPlan,
    prepared: &Prepared,
    pos: u8,
    row: &Row,
) -> Placement
    requires here { pos < length part.now.streams.items }
    requires prepared { IsPrepared (pairs q.now) part.now prepared.now }
    ensures { IsPlacement part.now pos row.now.items (list_all (in_range (by_column row.now.items)) (dims_at part.now pos)) result }
{
    // Named for the proof alone: the contract speaks of it.
    let _query = q;
    match prepared.places().get(usize::from(pos)) {
        Some(listed) => placement_at(part, pos, listed, row.as_slice()),
        None => {
            if lies_inside(part, pos, row) {
                Placement::Inside
            } else {
                Placement::Outside
            }
        }
    }
}
