//! Which parts take a row into a box of their own at a place of FROM: of several that share one box, the first takes a row into it.
ghost use Rattle.std.specs.Prelude.{◌≡◌, ◌<◌, ◌&&◌, nat_lt, not, true, length, IfOk};
ghost use Rattle.std.specs.List.{list_all};
ghost use Rattle.sem_query.specs.Plan.{stream_at};
ghost use Rattle.exec_part_index.specs.Owners.{BeginBehind, AreOwners, EachTakes};

use sem_query::{PartPlan, PartPlans, Query};
use std::alloc::{AllocError, Global};

/// Returns where the box of a part begins.
pub fn base_at(part: &PartPlan, place: u8) -> u32
    ensures { result ≡ (stream_at part.now place).base }
{
    match part.streams.as_slice().get(usize::from(place)) {
        Some(stream) => stream.base,
        None => 0,
    }
}

// Whether a part takes rows into the box that begins here, if boxes of the parts before it begin below a number.
fn is_own(q: &Query, next: u64, base: u64) -> bool
    ensures { result ≡ (nat_lt 1 (length q.now.from) && not (nat_lt base next)) }
{
    1 < q.from().len() && next <= base
}

/// Tells for each part whether it takes rows into a box of its own: a new box begins behind all before it. An error says that memory was not found.
pub fn owners_at(
    alloc: Global,
    q: &Query,
    parts: &PartPlans,
    place: u8,
) -> Result<Vec<bool>, AllocError>
    requires here { place < length q.now.from }
    requires bases { BeginBehind (length q.now.from) parts.now }
    ensures { IfOk result (λ owns. AreOwners q.now parts.now place owns.items) }
{
    let mut owns: Vec<bool> = Vec::with_capacity(alloc, parts.len() as usize)?;
    let mut next: u64 = 0;
    'parts: for i in 0..parts.len() {
        let base = u64::from(base_at(parts.get(i), place));
        owns.push(is_own(q, next, base))?;
        if next <= base {
            next = base + 1;
        }
    }
    Ok(owns)
}

// Whether all marks are set.
fn are_set(marks: &[bool]) -> bool
    ensures { result ≡ list_all (λ mark. mark) marks.now }
{
    marks.iter().all(|mark| *mark)
}

/// Returns whether each part takes rows into a box of its own at a place, by the marks of all.
pub fn each_takes(q: &Query, parts: &PartPlans, place: u8, owns: &[bool]) -> bool
    requires { AreOwners q.now parts.now place owns.now }
    ensures { result ≡ true → EachTakes q.now parts.now place }
{
    let (_from, _parts) = (q.from(), parts.len());
    are_set(owns)
}
