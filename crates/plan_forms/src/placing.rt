//! The boxes of streams one after another.
ghost use Rattle.std.specs.Prelude.{◌≡◌, ◌≤◌, length, nat_eq};
ghost use Rattle.std.specs.List.{sum_by};
ghost use Rattle.plan_forms.specs.Placed.{cells_over, ArePlaced};

use arrayvec::ArrayVec;
use plan_whole_form::{WholeStream, box_size};
use sem_query::{Dim, StreamPlan};

/// Returns a list of these dims.
pub fn copied(dims: &[Dim]) -> ArrayVec<Dim, 8>
    requires { length dims.now ≤ 8 }
    ensures { result.items ≡ dims.now }
{
    let mut copy = ArrayVec::new();
    for dim in dims {
        copy.push(*dim);
    }
    copy
}

// How many cells a stream has: alone in FROM it has none.
fn cells_over(is_alone: bool, dims: &[Dim]) -> u32
    requires { cells_over is_alone dims.now ≤ 262144 }
    ensures { result ≡ cells_over is_alone dims.now }
{
    if is_alone { 0 } else { box_size(dims) as u32 }
}

/// Returns the plan of a stream whose box begins at a cell.
pub fn plan_of(stream: &WholeStream, base: u32, size: u32) -> StreamPlan
    ensures { result ≡ record { dims = stream.now.dims; kind = stream.now.kind; base = base; size = size } }
{
    StreamPlan {
        dims: copied(stream.dims.as_slice()),
        kind: stream.kind,
        base,
        size,
    }
}

/// Returns the plans of streams, their boxes one after another from cell 0 on.
pub fn placed(streams: &[WholeStream]) -> ArrayVec<StreamPlan, 4>
    requires few { length streams.now ≤ 4 }
    requires cells { sum_by (λ s. cells_over (nat_eq (length streams.now) 1) s.dims.items) streams.now ≤ 262144 }
    ensures { ArePlaced (nat_eq (length streams.now) 1) 0 streams.now result.items }
{
    let is_alone = streams.len() == 1;
    let mut list = ArrayVec::new();
    let mut next: u32 = 0;
    'streams: for i in 0..streams.len() {
        let size = cells_over(is_alone, streams[i].dims.as_slice());
        list.push(plan_of(&streams[i], next, size));
        next = next + size;
    }
    list
}
