//! The different boxes of a plan, each with where it stands, and how the same one is found among them.
ghost use Rattle.std.specs.Prelude.{◌≡◌, ◌%◌, ◌<◌, ◌≤◌, ◌^◌, ◌++◌, [], ◌∷◌, length, false, IfOk, OnOk, slice_index_or};
ghost use Rattle.std.specs.List.{list_any};
ghost use Rattle.sem_query.specs.Sharing.{same_box};
ghost use Rattle.plan_layout.specs.Boxed.{boxed};
ghost use Rattle.plan_layout.specs.Codes.{code_of};
ghost use Rattle.plan_layout.specs.Listed.{no_part, box_in, box_of, listed, with_box, IsSlot, IsEntry, IsFound, IsEmpty, AreListed};

use crate::alike::is_box;
use crate::codes::code_of;
use crate::draft::{cells_over, narrowed};
use sem_query::{PartPlan, Query, dims_at};
use std::alloc::{AllocError, Global};

/// Where a box stands: the number of its first cell, and how many cells it has.
#[derive(Clone, Copy)]
pub struct Slot {
    pub base: u32,
    pub size: u32,
}

// A box that is listed: its part, its place of FROM and where it stands; its code; and the last box before it of its bucket, by its
// number from 1, or 0 where there is none.
#[derive(Clone, Copy)]
struct BoxEntry {
    part: usize,
    place: usize,
    slot: Slot,
    code: u64,
    before: usize,
}

/// The different boxes so far, the last one of each bucket of codes, by its number from 1, and how many cells they have.
#[derive(Drop)]
pub struct Boxes {
    entries: Vec<BoxEntry>,
    lasts: Vec<usize>,
    pub cells: u64,
}

// The bucket of a code, of so many buckets.
fn bucket_of(code: u64, count: usize) -> usize
    requires { 0 < count }
    ensures bucket { result ≡ code % count }
    ensures within { result < count }
{
    (code % count as u64) as usize
}

// Whether an entry is of the same box. The code is that of the box.
fn is_entry(
    entry: BoxEntry,
    q: &Query,
    parts: &[PartPlan],
    part: usize,
    place: usize,
    code: u64,
) -> bool
    requires entry { IsEntry q.now (boxed q.now 0 parts.now) entry }
    requires known { part < length parts.now }
    requires code { code ≡ code_of q.now (box_in (boxed q.now 0 parts.now) part place) }
    ensures { result ≡ same_box q.now (box_of (boxed q.now 0 parts.now) entry) (box_in (boxed q.now 0 parts.now) part place) }
{
    entry.code == code && is_box(q, &parts[entry.part], entry.place, &parts[part], place)
}

impl Boxes {
    /// Makes a list of no boxes, for a plan of so many parts. An error says that memory was not found.
    pub fn new(alloc: Global, parts: usize) -> Result<Boxes, AllocError>
        requires { parts ≤ 4096 }
        ensures { IfOk result IsEmpty }
    {
        Ok(Boxes {
            entries: Vec::with_capacity(alloc, parts)?,
            lasts: vec![in alloc; 0; 4 * parts + 1]?,
            cells: 0,
        })
    }

    // Where the same box stands, or none where it is not listed. The code is that of the box.
    fn find(
        &self,
        q: &Query,
        parts: &[PartPlan],
        part: usize,
        place: usize,
        code: u64,
    ) -> Option<Slot>
        requires known { part < length parts.now }
        requires code { code ≡ code_of q.now (box_in (boxed q.now 0 parts.now) part place) }
        requires listed { AreListed q.now (boxed q.now 0 parts.now) self.now }
        ensures { IsFound q.now (boxed q.now 0 parts.now) self.now (box_in (boxed q.now 0 parts.now) part place) result }
    {
        let mut number = self.lasts[bucket_of(code, self.lasts.len())];
        'chain: while number > 0 {
            let entry = self.entries[number - 1];
            if is_entry(entry, q, parts, part, place, code) {
                return Some(entry.slot);
            }
            number = entry.before;
        }
        None
    }

    // Adds a box, which stands behind all others. The code is that of the box.
    fn push(
        &mut self,
        q: &Query,
        parts: &[PartPlan],
        part: usize,
        place: usize,
        code: u64,
    ) -> Result<Slot, AllocError>
        requires known { part < length parts.now }
        requires here { place < length (slice_index_or parts.now part no_part).streams.items }
        requires code { code ≡ code_of q.now (box_in (boxed q.now 0 parts.now) part place) }
        requires listed { AreListed q.now (boxed q.now 0 parts.now) self.old }
        requires new { list_any (λ c. same_box q.now c (box_in (boxed q.now 0 parts.now) part place)) (listed (boxed q.now 0 parts.now) self.old) ≡ false }
        ensures listed { OnOk result (AreListed q.now (boxed q.now 0 parts.now) self.new) }
        ensures boxes { OnOk result (listed (boxed q.now 0 parts.now) self.new ≡ listed (boxed q.now 0 parts.now) self.old ++ box_in (boxed q.now 0 parts.now) part place ∷ []) }
        ensures slot { IfOk result (λ slot. self.new.cells < 2 ^ 32 → IsSlot q.now (listed (boxed q.now 0 parts.now) self.new) (box_in (boxed q.now 0 parts.now) part place) slot) }
    {
        let size = cells_over(q, dims_at(&parts[part], place));
        let slot = Slot {
            base: narrowed(self.cells),
            size: narrowed(size),
        };
        let bucket = bucket_of(code, self.lasts.len());
        self.entries.push(BoxEntry {
            part,
            place,
            slot,
            code,
            before: self.lasts[bucket],
        })?;
        self.lasts[bucket] = self.entries.len();
        self.cells = self.cells.saturating_add(size);
        Ok(slot)
    }

    /// Returns where the box of a part at a place of FROM stands: where the same one does, or else behind all others, and it is added. An
    /// error says that memory was not found.
    pub fn slot(
        &mut self,
        q: &Query,
        parts: &[PartPlan],
        part: usize,
        place: usize,
    ) -> Result<Slot, AllocError>
        requires known { part < length parts.now }
        requires here { place < length (slice_index_or parts.now part no_part).streams.items }
        requires listed { AreListed q.now (boxed q.now 0 parts.now) self.old }
        ensures listed { OnOk result (AreListed q.now (boxed q.now 0 parts.now) self.new) }
        ensures boxes { OnOk result (listed (boxed q.now 0 parts.now) self.new ≡ with_box q.now (listed (boxed q.now 0 parts.now) self.old) (box_in (boxed q.now 0 parts.now) part place)) }
        ensures slot { IfOk result (λ slot. self.new.cells < 2 ^ 32 → IsSlot q.now (listed (boxed q.now 0 parts.now) self.new) (box_in (boxed q.now 0 parts.now) part place) slot) }
    {
        let code = code_of(q, &parts[part], place);
        match self.find(q, parts, part, place, code) {
            Some(slot) => Ok(slot),
            None => self.push(q, parts, part, place, code),
        }
    }
}
