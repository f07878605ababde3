//! What is found for the streams and queries of a script.
ghost use Rattle.std.specs.Prelude.{◌≡◌, ◌↔◌, ◌-◌, ◌≤◌, IsTrue, [], IfOk, length, take};
ghost use Rattle.cmd_advise_split.specs.State.{widths_of};
ghost use Rattle.cmd_advise_split.specs.Finding.{IsFinding};

use crate::state::Splitting;
use crate::told::{ToldChoice, tell_each};
use adv_key_choices::{Choice, has_many_choices, least_choices};
use arrayvec::ArrayVec;
use sql_catalog::Catalog;
use std::alloc::{AllocError, Global};

/// The most choices that are told.
const MOST_TOLD: usize = 16;

/// What is found for the streams and queries of a script.
#[derive(Drop)]
pub enum Finding {
    /// There is no stream.
    NoStream,
    /// There are more than 2^20 choices of keys, which is too many to look at.
    Many,
    /// The first 16 of the least choices, and how many more there are.
    Least { told: Vec<ToldChoice>, more: usize },
}

/// What the lines of a script have made, and what is found for that.
#[derive(Drop)]
pub struct Found {
    pub state: Splitting,
    pub finding: Finding,
}

// How many columns each stream has.
fn widths_of(catalog: &Catalog) -> ArrayVec<u8, 16>
    ensures widths { result.items ≡ widths_of catalog.now }
    ensures few { length result.items ≤ 16 }
{
    let mut widths = ArrayVec::new();
    for number in 0..catalog.len() {
        widths.push(catalog.width(number));
    }
    widths
}

// The first 16 of some choices.
fn first_choices(choices: &[Choice]) -> &[Choice]
    ensures { result.now ≡ take 16 choices.now }
{
    if MOST_TOLD < choices.len() {
        choices.split_at(MOST_TOLD).0
    } else {
        choices
    }
}

// How many choices there are beyond the first 16.
fn others(choices: &[Choice]) -> usize
    ensures { result ≡ length choices.now - 16 }
{
    choices.len().saturating_sub(MOST_TOLD)
}

// The least choices, told.
fn tell_least(alloc: Global, state: &Splitting, widths: &[u8]) -> Result<Finding, AllocError>
    requires widths { widths.now ≡ widths_of state.now.streams }
    requires few { length widths.now ≤ 16 }
    ensures { IfOk result (IsFinding state.now) }
{
    let choices = least_choices(alloc, state.queries(), widths)?;
    let told = tell_each(alloc, state.queries(), first_choices(choices.as_slice()))?;
    let more = others(choices.as_slice());
    Ok(Finding::Least { told, more })
}

// Whether there is no stream.
fn has_none(catalog: &Catalog) -> bool
    ensures { IsTrue result ↔ catalog.now ≡ [] }
{
    catalog.len() == 0
}

/// Returns what is found for what the lines of a script have made. `AllocError` where no memory is found.
pub fn find(alloc: Global, state: &Splitting) -> Result<Finding, AllocError>
    ensures { IfOk result (IsFinding state.now) }
{
    if has_none(state.catalog()) {
        return Ok(Finding::NoStream);
    }
    let widths = widths_of(state.catalog());
    if has_many_choices(widths.as_slice()) {
        Ok(Finding::Many)
    } else {
        tell_least(alloc, state, widths.as_slice())
    }
}
