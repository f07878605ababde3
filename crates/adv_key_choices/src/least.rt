//! The least ones of some choices.
ghost use Rattle.std.specs.Prelude.{◌↔◌, ◌≤◌, IsTrue, All, IfOk, OnOk, length};
ghost use Rattle.std.specs.List.{Any};
ghost use Rattle.adv_key_choices.specs.Choices.{IsKeyed, IsAtMost, AreLeast};
ghost use Rattle.adv_key_choices.specs.Sifting.{AddsUncovered, IsPassed};

use crate::choice::{Choice, KeyedQuery};
use crate::extending::exact_choices;
use crate::order::is_at_most;
use std::alloc::{AllocError, Global};

// Whether some of the choices is at most one.
fn is_covered(queries: &[KeyedQuery], kept: &[Choice], choice: &Choice) -> bool
    requires { All IsKeyed queries.now }
    ensures { IsTrue result ↔ Any (λ c. IsAtMost queries.now c choice.now) kept.now }
{
    for i in 0..kept.len() {
        if is_at_most(queries, &kept[i], choice) {
            return true;
        }
    }
    false
}

// Adds a choice, unless one that is kept is at most it.
fn add_uncovered(
    queries: &[KeyedQuery],
    choice: Choice,
    kept: &mut Vec<Choice>,
) -> Result<(), AllocError>
    requires { All IsKeyed queries.now }
    ensures { OnOk result (AddsUncovered queries.now choice kept.old.items kept.new.items) }
{
    if is_covered(queries, kept.as_slice(), &choice) {
        return Ok(());
    }
    match kept.push(choice) {
        Ok(()) => Ok(()),
        Err(_) => Err(AllocError),
    }
}

// The choices of which no one that was kept before is at most them.
fn pass(
    alloc: Global,
    queries: &[KeyedQuery],
    choices: &[Choice],
) -> Result<Vec<Choice>, AllocError>
    requires { All IsKeyed queries.now }
    ensures { IfOk result (λ kept. IsPassed queries.now choices.now kept.items) }
{
    let mut kept = Vec::new(alloc);
    for i in 0..choices.len() {
        add_uncovered(queries, choices[i], &mut kept)?;
    }
    Ok(kept)
}

/// Returns the least choices for streams of so many columns: each is exact, each exact choice has one at most it, and none is at most another.
/// `AllocError` where no memory is found. All exact choices are looked at: `has_many_choices` tells beforehand where they may be too many.
pub fn least_choices(
    alloc: Global,
    queries: &[KeyedQuery],
    widths: &[u8],
) -> Result<Vec<Choice>, AllocError>
    requires queries { All IsKeyed queries.now }
    requires few { length widths.now ≤ 16 }
    ensures { IfOk result (λ list. AreLeast queries.now widths.now list.items) }
{
    let exact = exact_choices(alloc, queries, widths)?;
    let mut kept = pass(alloc, queries, exact.as_slice())?;
    kept.reverse();
    let mut least = pass(alloc, queries, kept.as_slice())?;
    least.reverse();
    Ok(least)
}
