//! Which parts may admit a row: those whose signs the row has. Parts of one code stand in one bucket, a chain that one look-up finds.
ghost use Rattle.std.specs.Prelude.{◌≡◌, ◌+◌, ◌*◌, ◌%◌, ◌^◌, ◌<◌, length, map, slice_get, slice_index_or, bit_and, true, Some, IfOk, IfSome};
ghost use Rattle.std.specs.List.{list_all};
ghost use Rattle.sem_query.specs.Parts.{pairs, sign, sign_at};
ghost use Rattle.sem_query.specs.Meaning.{by_column};
ghost use Rattle.sem_query.specs.Admission.{alone, meets_local, admits};
ghost use Rattle.exec_synopsis.specs.Preparing.{IsPrepared};
ghost use Rattle.exec_synopsis.specs.Axes.{IsPlacement};
ghost use Rattle.exec_synopsis.specs.Premises.{AreKeeping};
ghost use Rattle.exec_part_index.specs.Prepared.{ArePrepared, IsPreparedPlan};
ghost use Rattle.exec_part_index.specs.Leaving.{IsPlaced};
ghost use Rattle.exec_part_index.specs.SimpleBox.{IsInBox};
ghost use Rattle.exec_part_index.specs.Shifts.{HasNextAlike, IsNextShifted, StandsAt};
ghost use Rattle.exec_part_index.specs.PartEntry.{IsPartEntry, ArePartEntries};
ghost use Rattle.exec_part_index.specs.Owners.{BeginBehind, EachTakes, takes_rows};
ghost use Rattle.exec_part_index.specs.Span.{in_span, IsSpan};
ghost use Rattle.exec_part_index.specs.PartIndex.{number_of, code_after, row_code, buckets, row_bucket, IsNext, AreLinked, IsPartIndex};

use crate::owners::{each_takes, owners_at};
use crate::part_entry::{PartEntry, simple_box_at};
use crate::prepared::{PreparedPlan, prepared_of};
use crate::remaining::remaining_at;
use crate::shift::{CellAt, Shift, shift_between};
use crate::span::{Span, is_span};
use crate::tests::tested_at;
use exec_pool::Extent;
use exec_synopsis::{Placement, Prepared, meets_local, placement_by_ranges};
use sem_query::{
    LocalCondition, Pair, PartPlan, PartPlans, Query, Row, Sign, Signs, value_alone, value_at,
};
use std::alloc::{AllocError, Global};

/// An index of the parts of a plan at a place of FROM: parts whose codes fall into one bucket stand in a chain.
#[derive(Drop)]
pub struct PartIndex {
    /// The pairs whose signs make a code.
    tested: Vec<Pair>,
    /// What codes do not tell of what parts ask.
    conditions: Vec<LocalCondition>,
    /// Which of these conditions are a part's.
    spans: Vec<Span>,
    codes: Vec<u32>,
    /// Whether each part takes rows into a box of its own, and whether all do.
    owns: Vec<bool>,
    each: bool,
    /// The mask that leaves of a code its bucket: the number of the greatest one.
    mask: u32,
    /// The first part of each bucket; the number of all parts where there is none.
    heads: Vec<u32>,
    /// The next part of the bucket of each part; the number of all parts where there is none.
    links: Vec<u32>,
    entries: Vec<PartEntry>,
}

/// The code of a row, and the first part that it is led to.
#[derive(Drop)]
pub struct IndexHit {
    pub code: u32,
    pub first: u32,
}

/// A row of the stream at a place of FROM that is led to the parts of its bucket: its code, the chains of its place, whether each part takes rows
/// into a box of its own, what the parts are asked, the extent of the cells, and whether it is known that a row which leaves its cell as it is
/// is answered nothing new.
#[derive(Clone, Copy)]
pub struct Led<'a> {
    pub q: &'a Query,
    pub parts: &'a PartPlans,
    pub pos: u8,
    pub row: &'a Row,
    pub code: u32,
    pub part_index: &'a PartIndex,
    pub each: bool,
    pub prepared: &'a PreparedPlan,
    pub extent: &'a Extent,
    pub known: bool,
}

// The number of the sign that a row has at a pair, without a branch.
fn number_at(row: &[i64], pair: &Pair) -> u32
    ensures { result ≡ number_of (sign_at (alone (by_column row.now)) pair.now) }
{
    let left = value_at(row, pair.left.column);
    let right = value_alone(row, pair.right);
    u32::from(right <= left) + u32::from(right < left)
}

// The number of a sign.
fn number_of(sign: Sign) -> u32
    ensures number { result ≡ number_of sign }
    ensures small { result < 3 }
{
    match sign {
        Sign::Lt => 0,
        Sign::Eq => 1,
        Sign::Gt => 2,
    }
}

// The code with the number of one sign more.
fn with_number(code: u32, number: u32) -> u32
    ensures { result ≡ (code * 3 + number) % 2 ^ 32 }
{
    code.wrapping_mul(3).wrapping_add(number)
}

// The code of signs.
fn code_of(signs: &[Sign]) -> u32
    ensures { result ≡ code_after 0 signs.now }
{
    let mut code: u32 = 0;
    'signs: for sign in signs {
        code = with_number(code, number_of(*sign));
    }
    code
}

impl PartIndex {
    /// Returns the code of a row, and the first part of its bucket.
    pub fn first(&self, q: &Query, parts: &PartPlans, pos: u8, row: &Row) -> IndexHit
        requires { IsPartIndex q.now parts.now pos self.now }
        ensures code { result.code ≡ row_code self.now.tested.items (by_column row.now.items) }
        ensures first { IsNext (buckets self.now) (row_bucket self.now (by_column row.now.items)) 0 result.first }
    {
        // Named for the proof alone: the contract speaks of it.
        let (_query, _parts, _pos) = (q, parts.len(), pos);
        let (values, tested) = (row.as_slice(), self.tested.as_slice());
        let mut code: u32 = 0;
        'tests: for pair in tested {
            code = with_number(code, number_at(values, pair));
        }
        IndexHit {
            code,
            first: self.heads[(code & self.mask) as usize],
        }
    }

    /// Returns the next part of a part's bucket.
    pub fn after(&self, q: &Query, parts: &PartPlans, pos: u8, i: u32) -> u32
        requires inside { i < length parts.now }
        requires part_index { IsPartIndex q.now parts.now pos self.now }
        ensures next { IsNext (buckets self.now) (slice_index_or (buckets self.now) i 0) (i + 1) result }
        ensures number { result ≡ slice_index_or self.now.links.items i 0 }
    {
        self.entry(q, parts, pos, i).next
    }

    /// Returns what a row meets at each part.
    pub fn entries(&self) -> &[PartEntry]
        ensures { result.now ≡ self.now.entries.items }
    {
        self.entries.as_slice()
    }

    // What a row meets at a part.
    fn entry(&self, q: &Query, parts: &PartPlans, pos: u8, i: u32) -> &PartEntry
        requires inside { i < length parts.now }
        requires part_index { IsPartIndex q.now parts.now pos self.now }
        ensures { IsPartEntry parts.now pos self.now.codes.items self.now.links.items self.now.spans.items i result.now }
    {
        // Named for the proof alone: the contract speaks of it.
        let _parts = parts.len();
        &self.entries[i as usize]
    }

    /// Returns whether each part takes rows into a box of its own.
    pub fn each_owns(&self, q: &Query, parts: &PartPlans, pos: u8) -> bool
        requires { IsPartIndex q.now parts.now pos self.now }
        ensures { result ≡ true → EachTakes q.now parts.now pos }
    {
        // Named for the proof alone: the contract speaks of it.
        let _parts = parts.len();
        self.each
    }

    /// Returns whether the part of a number takes rows into a box of its own, where it may be known that each does.
    pub fn owns(
        &self,
        each: bool,
        q: &Query,
        parts: &PartPlans,
        part: &PartPlan,
        pos: u8,
        i: u32,
    ) -> bool
        requires each { each ≡ true → EachTakes q.now parts.now pos }
        requires part_index { IsPartIndex q.now parts.now pos self.now }
        requires part { slice_get parts.now i ≡ Some part.now }
        ensures { result ≡ takes_rows q.now parts.now pos i part.now }
    {
        // Named for the proof alone: the contract speaks of it.
        let _parts = parts.len();
        each || self.owns[i as usize]
    }

    // Whether a row meets the conditions of a span.
    fn meets(&self, span: Span, row: &Row) -> bool
        requires { IsSpan (length self.now.conditions.items) span }
        ensures { result ≡ list_all (meets_local (alone (by_column row.now.items))) (in_span self.now.conditions.items span) }
    {
        let conditions = &self.conditions.as_slice()[span.from as usize..span.to as usize];
        are_met(row.as_slice(), conditions)
    }

    // Whether the next part of a part's bucket has the same code and the same remaining conditions.
    fn has_next_alike(&self, parts: &PartPlans, i: u32) -> bool
        requires inside { i < length parts.now }
        requires codes { length self.now.codes.items ≡ length parts.now }
        requires links { length self.now.links.items ≡ length parts.now }
        requires spans { length self.now.spans.items ≡ length parts.now }
        ensures { result ≡ true → HasNextAlike parts.now self.now.codes.items self.now.links.items self.now.spans.items i }
    {
        let next = self.links[i as usize];
        if next >= parts.len() {
            return false;
        }
        self.codes[i as usize] == self.codes[next as usize]
            && is_span(self.spans[i as usize], self.spans[next as usize])
    }

    // How many cells later the box of the next part begins, where a row stands at the same place of both.
    fn shift_at(
        &self,
        q: &Query,
        parts: &PartPlans,
        prepared: &[Prepared],
        place: u8,
        i: u32,
    ) -> Option<Shift>
        requires inside { i < length parts.now }
        requires prepared { ArePrepared (pairs q.now) parts.now prepared.now }
        requires codes { length self.now.codes.items ≡ length parts.now }
        requires links { length self.now.links.items ≡ length parts.now }
        requires spans { length self.now.spans.items ≡ length parts.now }
        ensures { IfSome result (λ shift. IsNextShifted parts.now place self.now.codes.items self.now.links.items self.now.spans.items i shift) }
    {
        if !self.has_next_alike(parts, i) {
            return None;
        }
        let next = self.links[i as usize];
        let prepared = prepared_of(q, parts, prepared, next);
        shift_between(q, parts.get(i), parts.get(next), prepared, place)
    }

    // What a row meets at the part of a number.
    fn entry_at(
        &self,
        q: &Query,
        parts: &PartPlans,
        prepared: &[Prepared],
        place: u8,
        i: u32,
    ) -> PartEntry
        requires inside { i < length parts.now }
        requires prepared { ArePrepared (pairs q.now) parts.now prepared.now }
        requires codes { length self.now.codes.items ≡ length parts.now }
        requires links { length self.now.links.items ≡ length parts.now }
        requires spans { length self.now.spans.items ≡ length parts.now }
        ensures { IsPartEntry parts.now place self.now.codes.items self.now.links.items self.now.spans.items i result }
    {
        PartEntry {
            simple_box: simple_box_at(q, parts, prepared, place, i),
            shift: self.shift_at(q, parts, prepared, place, i),
            code: self.codes[i as usize],
            next: self.links[i as usize],
            span: self.spans[i as usize],
            follows: self.has_next_alike(parts, i),
        }
    }

    // What a row meets at each part. An error says that memory was not found.
    fn entries_of(
        &self,
        alloc: Global,
        q: &Query,
        parts: &PartPlans,
        prepared: &[Prepared],
        place: u8,
    ) -> Result<Vec<PartEntry>, AllocError>
        requires prepared { ArePrepared (pairs q.now) parts.now prepared.now }
        requires codes { length self.now.codes.items ≡ length parts.now }
        requires links { length self.now.links.items ≡ length parts.now }
        requires spans { length self.now.spans.items ≡ length parts.now }
        ensures { IfOk result (λ entries. ArePartEntries parts.now place self.now.codes.items self.now.links.items self.now.spans.items entries.items) }
    {
        let mut entries: Vec<PartEntry> = Vec::with_capacity(alloc, parts.len() as usize)?;
        'parts: for i in 0..parts.len() {
            entries.push(self.entry_at(q, parts, prepared, place, i))?;
        }
        Ok(entries)
    }
}

impl Led<'_> {
    /// Returns the cell of a row in the next part of a part's bucket, where the row's cell in the part and the boxes of both tell it.
    pub fn cell_after(&self, part: &PartPlan, placement: Placement, i: u32) -> Option<CellAt>
        requires part_index { IsPartIndex self.now.q.now self.now.parts.now self.now.pos self.now.part_index.now }
        requires inside { i < length self.now.parts.now }
        requires part { slice_get self.now.parts.now i ≡ Some part.now }
        requires placement { IsPlacement part.now self.now.pos self.now.row.now.items (admits self.now.q.now part.now self.now.pos (by_column self.now.row.now.items)) placement }
        ensures { IfSome result (λ cell. StandsAt self.now.q.now self.now.parts.now self.now.pos self.now.row.now.items (slice_index_or self.now.part_index.now.links.items i 0) cell) }
    {
        // Named for the proof alone: the contract speaks of it.
        let _part = part;
        match placement {
            Placement::Cell { number, kind } => {
                let entry = self.part_index.entry(self.q, self.parts, self.pos, i);
                self.cell_behind(CellAt { number, kind }, i, entry)
            }
            Placement::Inside | Placement::Outside => None,
        }
    }

    /// Returns the same by what a row meets at the part, where it stands in a cell.
    pub fn cell_behind(&self, cell: CellAt, i: u32, entry: &PartEntry) -> Option<CellAt>
        requires part_index { IsPartIndex self.now.q.now self.now.parts.now self.now.pos self.now.part_index.now }
        requires entry { IsPartEntry self.now.parts.now self.now.pos self.now.part_index.now.codes.items self.now.part_index.now.links.items self.now.part_index.now.spans.items i entry.now }
        requires stands { StandsAt self.now.q.now self.now.parts.now self.now.pos self.now.row.now.items i cell }
        ensures { IfSome result (λ found. StandsAt self.now.q.now self.now.parts.now self.now.pos self.now.row.now.items (slice_index_or self.now.part_index.now.links.items i 0) found) }
    {
        // Named for the proof alone: the contract speaks of it.
        let _part = i;
        match entry.shift {
            Some(shift) => Some(CellAt {
                number: cell.number + shift.cells,
                kind: shift.kind,
            }),
            None if entry.follows => {
                let (q, parts, next) = (self.q, self.parts, entry.next);
                let following = self.part_index.entry(q, parts, self.pos, next);
                let (part, row) = (parts.get(next), self.row.as_slice());
                match following.simple_box.placement(part, self.pos, row) {
                    Some(Placement::Cell { number, kind }) => Some(CellAt { number, kind }),
                    _ => None,
                }
            }
            None => None,
        }
    }

    /// Returns where a row stands in the part of a number.
    pub fn placement_of(&self, i: u32) -> Placement
        requires here { self.now.pos < length self.now.q.now.from }
        requires plan { AreKeeping self.now.q.now self.now.parts.now }
        requires inside { i < length self.now.parts.now }
        requires part_index { IsPartIndex self.now.q.now self.now.parts.now self.now.pos self.now.part_index.now }
        requires prepared { IsPreparedPlan self.now.q.now self.now.parts.now self.now.prepared.now }
        requires code { self.now.code ≡ row_code self.now.part_index.now.tested.items (by_column self.now.row.now.items) }
        ensures { IsPlaced self.now.q.now self.now.parts.now self.now.pos self.now.row.now.items i result }
    {
        let entry = self.part_index.entry(self.q, self.parts, self.pos, i);
        if entry.code != self.code {
            return Placement::Outside;
        }
        let (part, row) = (self.parts.get(i), self.row.as_slice());
        if entry.span.is_none() {
            if let Some(placement) = entry.simple_box.placement(part, self.pos, row) {
                return placement;
            }
        }
        // What few parts want is given values alone, so that the view of a row stays out of memory.
        let placement = match entry.simple_box.listed_placement(part, self.pos, row) {
            Some(placement) => placement,
            None => {
                let prepared = self.prepared.part(self.q, self.parts, i);
                placement_by_dims(self.q, part, prepared, self.pos, self.row)
            }
        };
        if !placement.is_inside() {
            return placement;
        }
        if entry.span.is_none() {
            return placement;
        }
        if self.part_index.meets(entry.span, self.row) {
            placement
        } else {
            Placement::Outside
        }
    }
}

// Where a row stands in a part by the ranges of the dims alone. It is not inlined: few boxes have more than two dims.
#[cold]
#[inline(never)]
fn placement_by_dims(
    q: &Query,
    part: &PartPlan,
    prepared: &Prepared,
    pos: u8,
    row: &Row,
) -> Placement
    requires here { pos < length part.now.streams.items }
    requires prepared { IsPrepared (pairs q.now) part.now prepared.now }
    ensures { IsInBox part.now pos row.now.items result }
{
    placement_by_ranges(q, part, prepared, pos, row)
}

// Whether a row meets these conditions. It is not inlined: few parts ask what their codes do not tell.
#[cold]
#[inline(never)]
fn are_met(row: &[i64], conditions: &[LocalCondition]) -> bool
    ensures { result ≡ list_all (meets_local (alone (by_column row.now))) conditions.now }
{
    conditions
        .iter()
        .all(|condition| meets_local(row, *condition))
}

// The number of the greatest bucket: there are at least twice as many buckets as parts, up to 4,096, and one where there are few parts.
fn mask_for(parts: u32) -> u32
    ensures { result < 4096 }
{
    match parts {
        0..=2 => 0,
        3..=32 => 63,
        33..=128 => 255,
        129..=512 => 1023,
        _ => 4095,
    }
}

// The codes of the parts.
#[tactic(auto, using(crate::proofs::Coded::codes_more))]
fn codes_of(alloc: Global, signs: &[Signs]) -> Result<Vec<u32>, AllocError>
    ensures many { IfOk result (λ codes. length codes.items ≡ length signs.now) }
    ensures codes { IfOk result (λ codes. codes.items ≡ map (λ s. code_after 0 s.items) signs.now) }
{
    let mut codes: Vec<u32> = Vec::with_capacity(alloc, signs.len())?;
    'parts: for part in signs {
        codes.push(code_of(part.as_slice()))?;
    }
    Ok(codes)
}

// The first part of each bucket, and the next part of the bucket of each part.
#[derive(Drop)]
struct Chains {
    heads: Vec<u32>,
    links: Vec<u32>,
}

// The chains through the parts that have these codes.
fn chains_of(alloc: Global, codes: &[u32], count: u32, mask: u32) -> Result<Chains, AllocError>
    requires few { mask < 4096 }
    requires codes { length codes.now ≡ count }
    ensures { IfOk result (λ chains. AreLinked (map (λ code. bit_and code mask) codes.now) mask 0 chains.heads.items chains.links.items) }
{
    let mut heads: Vec<u32> = vec![in alloc; count; mask as usize + 1]?;
    let mut links: Vec<u32> = vec![in alloc; count; count as usize]?;
    let mut i = count;
    'parts: while i > 0 {
        i -= 1;
        let bucket = (codes[i as usize] & mask) as usize;
        links[i as usize] = heads[bucket];
        heads[bucket] = i;
    }
    Ok(Chains { heads, links })
}

/// Returns the chains of the parts of a plan at a place of FROM. An error says that memory was not found.
pub fn part_index_at(
    alloc: Global,
    q: &Query,
    parts: &PartPlans,
    prepared: &[Prepared],
    place: u8,
) -> Result<PartIndex, AllocError>
    requires here { place < length q.now.from }
    requires bases { BeginBehind (length q.now.from) parts.now }
    requires prepared { ArePrepared (pairs q.now) parts.now prepared.now }
    ensures { IfOk result (λ part_index. IsPartIndex q.now parts.now place part_index) }
{
    let count = parts.len();
    let tested = tested_at(alloc, q, parts, prepared, place)?;
    let codes = codes_of(alloc, tested.signs.as_slice())?;
    let owns = owners_at(alloc, q, parts, place)?;
    let each = each_takes(q, parts, place, owns.as_slice());
    let mask = mask_for(count);
    let Chains { heads, links } = chains_of(alloc, codes.as_slice(), count, mask)?;
    let remaining = remaining_at(alloc, q, parts, prepared, place, &tested, links.as_slice())?;
    let mut part_index = PartIndex {
        tested: tested.pairs,
        conditions: remaining.conditions,
        spans: remaining.spans,
        codes,
        owns,
        each,
        mask,
        heads,
        links,
        entries: Vec::new(alloc),
    };
    let entries = part_index.entries_of(alloc, q, parts, prepared, place)?;
    part_index.entries = entries;
    Ok(part_index)
}
