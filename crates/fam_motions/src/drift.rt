//! Assignments of all numbers.
ghost use Rattle.std.specs.Prelude.{◌≡◌, ◌<◌, length, IfOk, IfSome};
ghost use Rattle.fam_motions.specs.Apart.{AreSolutions};

use crate::block::Taken;
use crate::values::{Values, is_solution};
use sem_query::Query;
use std::alloc::{AllocError, Global};

/// Attributes that move together: how far for number 0, and how much farther for each number.
#[derive(Clone, Copy)]
pub struct Block {
    pub taken: Taken,
    pub start: i128,
    pub step: i128,
}

/// Values that move in one block, or in two. What is in both moves with the second.
#[derive(Drop)]
pub struct Drift<'a> {
    pub base: &'a [i128],
    pub first: Block,
    pub second: Block,
}

// How far a block moves for a number.
fn shift(block: &Block, number: u16) -> i128 {
    block
        .start
        .saturating_add(block.step.saturating_mul(i128::from(number)))
}

// How far the attribute at a place moves for a number.
fn shift_at(drift: &Drift, place: usize, number: u16) -> i128
    requires { place < 13 }
{
    if drift.second.taken[place] {
        shift(&drift.second, number)
    } else if drift.first.taken[place] {
        shift(&drift.first, number)
    } else {
        0
    }
}

// The values of a number.
fn values_for(drift: &Drift, number: u16) -> Values {
    let mut values = Values::new();
    for place in 0..12 {
        if place < drift.base.len() {
            let value = drift.base[place].saturating_add(shift_at(drift, place, number));
            values.push(value);
        }
    }
    values
}

/// Returns the values of so many numbers, from 0, or none where some do not satisfy the query, do not keep to its domains, or lie beyond 10^18 either way.
/// An error says that memory was not found.
pub fn run(
    alloc: Global,
    q: &Query,
    drift: &Drift,
    n: u16,
) -> Result<Option<Vec<Values>>, AllocError>
    ensures { IfOk result (λ found. IfSome found (λ all. AreSolutions q.now n all.items)) }
{
    let mut all = Vec::new(alloc);
    for number in 0..n {
        let values = values_for(drift, number);
        if !is_solution(q, values.as_slice()) {
            return Ok(None);
        }
        match all.push(values) {
            Ok(()) => {}
            Err(_) => return Err(AllocError),
        }
    }
    Ok(Some(all))
}
