//! The parts of a plan, each worked out once, and which of them are asked of a row.
ghost use Rattle.std.specs.Prelude.{◌≡◌, ◌<◌, length, slice_get, Some, IfOk};
ghost use Rattle.sem_query.specs.declared.plan.PartPlan.{PartPlan};
ghost use Rattle.sem_query.specs.Parts.{pairs};
ghost use Rattle.sem_query.specs.Numbers.{parts_of};
ghost use Rattle.exec_synopsis.specs.Preparing.{IsPrepared};
ghost use Rattle.exec_part_index.specs.PartIndex.{IsPartIndex};
ghost use Rattle.exec_part_index.specs.Owners.{BeginBehind};
ghost use Rattle.exec_part_index.specs.Prepared.{ArePrepared, ArePartIndexes, IsPreparedPlan};

use crate::part_index::{PartIndex, part_index_at};
use exec_synopsis::{Prepared, prepare};
use sem_query::{PartPlans, Plan, Query};
use std::alloc::{AllocError, Global};

/// What the parts of a plan are asked of every row, and for each place of FROM the chains that lead a row to them.
#[derive(Drop)]
pub struct PreparedPlan {
    parts: Vec<Prepared>,
    part_index: Vec<PartIndex>,
}

impl PreparedPlan {
    /// Returns what one part is asked.
    pub fn part(&self, q: &Query, parts: &PartPlans, i: u32) -> &Prepared
        requires inside { i < length parts.now }
        requires prepared { IsPreparedPlan q.now parts.now self.now }
        ensures { (part : PartPlan) → slice_get parts.now i ≡ Some part → IsPrepared (pairs q.now) part result.now }
    {
        // Named for the proof alone: the contract speaks of it.
        let _parts = parts.len();
        &self.parts[i as usize]
    }

    /// Returns the chains at a place of FROM.
    pub fn part_index(&self, q: &Query, parts: &PartPlans, pos: u8) -> &PartIndex
        requires here { pos < length q.now.from }
        requires prepared { IsPreparedPlan q.now parts.now self.now }
        ensures { IsPartIndex q.now parts.now pos result.now }
    {
        // Named for the proof alone: the contract speaks of it.
        let _parts = parts.len();
        &self.part_index[usize::from(pos)]
    }
}

/// Returns what a part is asked of every row.
pub fn prepared_of<'a>(
    q: &Query,
    parts: &PartPlans,
    prepared: &'a [Prepared],
    i: u32,
) -> &'a Prepared
    requires inside { i < length parts.now }
    requires prepared { ArePrepared (pairs q.now) parts.now prepared.now }
    ensures { (part : PartPlan) → slice_get parts.now i ≡ Some part → IsPrepared (pairs q.now) part result.now }
{
    // Named for the proof alone: the contract speaks of them.
    let (_query, _parts) = (q, parts.len());
    &prepared[i as usize]
}

// What each part is asked of every row.
fn prepare_parts(alloc: Global, q: &Query, parts: &PartPlans) -> Result<Vec<Prepared>, AllocError>
    ensures { IfOk result (λ prepared. ArePrepared (pairs q.now) parts.now prepared.items) }
{
    let mut prepared: Vec<Prepared> = Vec::with_capacity(alloc, parts.len() as usize)?;
    'parts: for i in 0..parts.len() {
        prepared.push(prepare(alloc, q, parts.get(i))?)?;
    }
    Ok(prepared)
}

// The chains at all places of FROM.
fn index_parts(
    alloc: Global,
    q: &Query,
    parts: &PartPlans,
    prepared: &[Prepared],
) -> Result<Vec<PartIndex>, AllocError>
    requires bases { BeginBehind (length q.now.from) parts.now }
    requires prepared { ArePrepared (pairs q.now) parts.now prepared.now }
    ensures many { IfOk result (λ all. length all.items ≡ length q.now.from) }
    ensures part_index { IfOk result (λ all. ArePartIndexes q.now parts.now all.items) }
{
    let places = q.from().len() as u8;
    let mut all: Vec<PartIndex> = Vec::with_capacity(alloc, usize::from(places))?;
    'places: for place in 0..places {
        all.push(part_index_at(alloc, q, parts, prepared, place)?)?;
    }
    Ok(all)
}

// What these parts are asked of every row.
fn prepare_over(alloc: Global, q: &Query, parts: &PartPlans) -> Result<PreparedPlan, AllocError>
    requires { BeginBehind (length q.now.from) parts.now }
    ensures { IfOk result (λ prepared. IsPreparedPlan q.now parts.now prepared) }
{
    let prepared = prepare_parts(alloc, q, parts)?;
    let part_index = index_parts(alloc, q, parts, prepared.as_slice())?;
    Ok(PreparedPlan {
        parts: prepared,
        part_index,
    })
}

/// Returns what the parts of a plan are asked of every row; a filter has no parts. An error says that memory was not found.
pub fn prepare_all(alloc: Global, q: &Query, plan: &Plan) -> Result<PreparedPlan, AllocError>
    requires { BeginBehind (length q.now.from) (parts_of plan.now) }
    ensures { IfOk result (λ prepared. IsPreparedPlan q.now (parts_of plan.now) prepared) }
{
    match plan {
        Plan::Filter => prepare_over(alloc, q, &PartPlans::of(Vec::new(alloc))),
        Plan::Parts { parts, .. } => prepare_over(alloc, q, parts),
    }
}
