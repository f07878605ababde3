//! What the one part of a form comes to as a part of a plan, but for where its boxes begin.
ghost use Rattle.std.specs.Prelude.{◌≤◌, IfOk};
ghost use Rattle.plan_whole_form.specs.Part.{IsWholePart};
ghost use Rattle.plan_forms.specs.Made.{IsMade, IsMadeOr};
ghost use Rattle.plan_forms.specs.Own.{AreOwnStreams};

use crate::equating::equal_dims;
use crate::linking::{inequalities, soft_links};
use crate::ordering::ascending;
use crate::own::own_streams;
use crate::placing::copied;
use arrayvec::ArrayVec;
use plan_whole::ClosedSystem;
use plan_whole_form::{PartNumbers, WholePart, WholeStream, numbers_of};
use sem_query::{Attr, Dim, Link, Locals, SoftLink};
use std::alloc::{AllocError, Global};

/// What the one part of a form comes to, but for where its boxes begin: what is kept of each stream, of each class its own range; its links, what the
/// rows of each stream are asked, its numbers, as 64 bits keep them, and the ranges of the different selected columns.
#[derive(Drop)]
pub struct Made {
    pub streams: ArrayVec<WholeStream, 4>,
    pub equal: ArrayVec<Link, 66>,
    pub less: ArrayVec<Link, 66>,
    pub soft: ArrayVec<SoftLink, 16>,
    pub local: Locals,
    pub numbers: PartNumbers,
    pub selected: ArrayVec<Dim, 8>,
}

// What the one part of a form comes to with these streams, of each class its own range. An error says that memory was not found.
fn made_with(
    alloc: Global,
    closed: &ClosedSystem,
    part: &WholePart,
    streams: ArrayVec<WholeStream, 4>,
) -> Result<Made, AllocError>
    requires part { IsWholePart closed.now part.now }
    requires streams { AreOwnStreams closed.now part.now.streams.items streams.items }
    ensures { IfOk result (IsMade closed.now) }
{
    // Named for the proof alone: the query is well formed.
    let _query = closed.query();
    let equal = equal_dims(closed, streams.as_slice());
    let numbers = numbers_of(
        streams.as_slice(),
        equal.as_slice(),
        part.selected.as_slice(),
    );
    let links = part.links.as_slice();
    let local = ascending(alloc, part.conditions.as_slice())?;
    Ok(Made {
        streams,
        equal,
        less: inequalities(links),
        soft: soft_links(links),
        local: Locals::of(local),
        numbers,
        selected: copied(part.selected.as_slice()),
    })
}

/// Returns what the one part of a form comes to, or the first column of its dims, by stream and then by name, whose own range lacks an end. An error
/// says that memory was not found.
pub fn made_of(
    alloc: Global,
    closed: &ClosedSystem,
    part: &WholePart,
) -> Result<Result<Made, Attr>, AllocError>
    requires { IsWholePart closed.now part.now }
    ensures { IfOk result (IsMadeOr closed.now part.now) }
{
    match own_streams(closed, part.streams.as_slice()) {
        Ok(streams) => Ok(Ok(made_with(alloc, closed, part, streams)?)),
        Err(open) => Ok(Err(open)),
    }
}
