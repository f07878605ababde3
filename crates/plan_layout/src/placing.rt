//! Boxes that are the same stand once: each is set where the first one begins.
ghost use Rattle.std.specs.Prelude.{◌≡◌, ◌+◌, ◌<◌, ◌≤◌, length, IfOk, OnOk};
ghost use Rattle.plan_layout.specs.Boxed.{boxed};
ghost use Rattle.plan_layout.specs.Shared.{with_slot, ArePlaced, AreShared};

use crate::boxes::{Boxes, Slot};
use sem_query::{PartPlan, Query};
use std::alloc::{AllocError, Global};

// Sets where a box of a part stands.
fn set_slot(part: &mut PartPlan, place: usize, slot: Slot)
    requires { place < length part.old.streams.items }
    ensures { part.new ≡ with_slot part.old place slot }
{
    let stream = &mut part.streams[place];
    stream.base = slot.base;
    stream.size = slot.size;
}

// Sets the boxes of the part of a number, where those of all earlier ones are set.
fn place_part(
    q: &Query,
    parts: &mut [PartPlan],
    part: usize,
    boxes: &mut Boxes,
) -> Result<(), AllocError>
    requires known { part < length parts.old }
    requires placed { ArePlaced q.now (boxed q.now 0 parts.old) parts.old boxes.old part 0 }
    ensures { OnOk result (ArePlaced q.now (boxed q.now 0 parts.old) parts.new boxes.new (part + 1) 0) }
{
    'places: for place in 0..parts[part].streams.len() {
        let slot = boxes.slot(q, parts, part, place)?;
        set_slot(&mut parts[part], place, slot);
    }
    Ok(())
}

/// Sets each box of some parts where the first one that is the same begins, and tells how many cells the different boxes have. An
/// error says that memory was not found; the parts are to be dropped then.
#[inline(never)]
pub fn share(alloc: Global, q: &Query, parts: &mut [PartPlan]) -> Result<u64, AllocError>
    requires few { length parts.old ≤ 4096 }
    ensures { IfOk result (AreShared q.now parts.old parts.new) }
{
    let mut boxes = Boxes::new(alloc, parts.len())?;
    'parts: for part in 0..parts.len() {
        place_part(q, parts, part, &mut boxes)?;
    }
    Ok(boxes.cells)
}
