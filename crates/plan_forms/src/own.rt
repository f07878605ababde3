//! The classes of a form with their own ranges.
ghost use Rattle.std.specs.Prelude.{◌≡◌, ◌≤◌, length};
ghost use Rattle.plan_forms.specs.Own.{IsOwnDim, AreOwnDimsOr, IsOwnOr, AreOwnOr};

use arrayvec::ArrayVec;
use plan_whole::ClosedSystem;
use plan_whole_form::WholeStream;
use sem_query::{Attr, Dim};

// A column with its own range as a dim, or none where that lacks an end.
fn own_dim(closed: &ClosedSystem, attr: Attr) -> Option<Dim>
    ensures { IsOwnDim closed.now attr result }
{
    let ends = closed.ends(attr);
    match ends.lo {
        Some(lo) => match ends.hi {
            Some(hi) => Some(Dim { attr, lo, hi }),
            None => None,
        },
        None => None,
    }
}

// The dims with their own ranges, or the first column whose range lacks an end.
fn own_dims(closed: &ClosedSystem, dims: &[Dim]) -> Result<ArrayVec<Dim, 8>, Attr>
    requires { length dims.now ≤ 8 }
    ensures { AreOwnDimsOr closed.now dims.now result }
{
    let mut list = ArrayVec::new();
    'dims: for i in 0..dims.len() {
        match own_dim(closed, dims[i].attr) {
            Some(dim) => list.push(dim),
            None => return Err(dims[i].attr),
        }
    }
    Ok(list)
}

// What is kept of a stream with own ranges, or the first column whose range lacks an end.
fn own_stream(closed: &ClosedSystem, stream: &WholeStream) -> Result<WholeStream, Attr>
    ensures { IsOwnOr closed.now stream.now result }
{
    match own_dims(closed, stream.dims.as_slice()) {
        Ok(dims) => Ok(WholeStream {
            dims,
            kind: stream.kind,
        }),
        Err(open) => Err(open),
    }
}

/// Returns what is kept of each stream, of each class its own range, or the first column, by stream and then in the order of the dims, whose range
/// lacks an end.
pub fn own_streams(
    closed: &ClosedSystem,
    streams: &[WholeStream],
) -> Result<ArrayVec<WholeStream, 4>, Attr>
    requires { length streams.now ≤ 4 }
    ensures { AreOwnOr closed.now streams.now result }
{
    let mut list = ArrayVec::new();
    'streams: for i in 0..streams.len() {
        match own_stream(closed, &streams[i]) {
            Ok(stream) => list.push(stream),
            Err(open) => return Err(open),
        }
    }
    Ok(list)
}
