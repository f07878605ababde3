//! Choices, each with how the shards answer under it.
ghost use Rattle.std.specs.Prelude.{◌≡◌, ◌++◌, ◌∷◌, [], All, IfOk, OnOk};
ghost use Rattle.std.specs.List.{AllZip};
ghost use Rattle.adv_key_decision.specs.Judged.{IsJudged};
ghost use Rattle.adv_key_choices.specs.Choices.{IsKeyed, keys_in};
ghost use Rattle.adv_key_ranges.specs.Ranges.{AreRanges};
ghost use Rattle.cmd_advise_split.specs.Limited.{IsLimited};
ghost use Rattle.cmd_advise_split.specs.Finding.{AreJudged, AreRangesOf, IsTold};

use adv_key_choices::{Choice, KeyedQuery};
use adv_key_decision::{Judgement, judge};
use adv_key_ranges::{Ranges, ranges_for};
use std::alloc::{AllocError, Global};

/// A choice, with how the shards answer each query under it, and of each query that a limit refuses and whose keys have domains the least number of
/// ranges.
#[derive(Drop)]
pub struct ToldChoice {
    pub choice: Choice,
    pub judgements: Vec<Judgement>,
    pub ranges: Vec<Option<Ranges>>,
}

// How the shards answer a query under a choice.
fn judgement_of(k: &KeyedQuery, choice: &Choice) -> Judgement
    requires { IsKeyed k.now }
    ensures { IsJudged k.now.query (keys_in choice.now) result }
{
    judge(&k.query, k.classes.as_slice(), &choice.keys)
}

// Puts a judgement behind others.
fn push_judgement(list: &mut Vec<Judgement>, how: Judgement) -> Result<(), AllocError>
    ensures { OnOk result (list.new.items ≡ list.old.items ++ how ∷ []) }
{
    match list.push(how) {
        Ok(()) => Ok(()),
        Err(_) => Err(AllocError),
    }
}

// How the shards answer each query under a choice.
fn judgements_of(
    alloc: Global,
    queries: &[KeyedQuery],
    choice: &Choice,
) -> Result<Vec<Judgement>, AllocError>
    requires { All IsKeyed queries.now }
    ensures { IfOk result (λ judgements. AreJudged queries.now choice.now judgements.items) }
{
    let mut judgements = Vec::new(alloc);
    for i in 0..queries.len() {
        push_judgement(&mut judgements, judgement_of(&queries[i], choice))?;
    }
    Ok(judgements)
}

// What is said of the ranges of a query under a choice.
fn ranges_of(alloc: Global, k: &KeyedQuery, choice: &Choice) -> Result<Option<Ranges>, AllocError>
    requires { IsLimited k.now }
    ensures { IfOk result (AreRanges k.now.shared k.now.query (keys_in choice.now)) }
{
    ranges_for(alloc, &k.query, k.shared, k.limit, &choice.keys)
}

// Puts what is said of ranges behind others.
fn push_ranges(list: &mut Vec<Option<Ranges>>, ranges: Option<Ranges>) -> Result<(), AllocError>
    ensures { OnOk result (list.new.items ≡ list.old.items ++ ranges ∷ []) }
{
    match list.push(ranges) {
        Ok(()) => Ok(()),
        Err(_) => Err(AllocError),
    }
}

// What is said of the ranges of each query under a choice.
fn all_ranges(
    alloc: Global,
    queries: &[KeyedQuery],
    choice: &Choice,
) -> Result<Vec<Option<Ranges>>, AllocError>
    requires { All IsLimited queries.now }
    ensures { IfOk result (λ list. AreRangesOf queries.now choice.now list.items) }
{
    let mut list = Vec::new(alloc);
    for i in 0..queries.len() {
        let ranges = ranges_of(alloc, &queries[i], choice)?;
        push_ranges(&mut list, ranges)?;
    }
    Ok(list)
}

// A choice, with how the shards answer each query under it, and what is said of its ranges.
fn tell(alloc: Global, queries: &[KeyedQuery], choice: Choice) -> Result<ToldChoice, AllocError>
    requires keyed { All IsKeyed queries.now }
    requires limited { All IsLimited queries.now }
    ensures { IfOk result (IsTold queries.now choice) }
{
    let judgements = judgements_of(alloc, queries, &choice)?;
    let ranges = all_ranges(alloc, queries, &choice)?;
    Ok(ToldChoice {
        choice,
        judgements,
        ranges,
    })
}

// Puts a choice that is told behind others.
fn push_told(list: &mut Vec<ToldChoice>, told: ToldChoice) -> Result<(), AllocError>
    ensures { OnOk result (list.new.items ≡ list.old.items ++ told ∷ []) }
{
    match list.push(told) {
        Ok(()) => Ok(()),
        Err(_) => Err(AllocError),
    }
}

/// Returns some choices, each with how the shards answer each query under it, and of each query that a limit refuses the least number of ranges.
/// `AllocError` where no memory is found.
pub fn tell_each(
    alloc: Global,
    queries: &[KeyedQuery],
    choices: &[Choice],
) -> Result<Vec<ToldChoice>, AllocError>
    requires keyed { All IsKeyed queries.now }
    requires limited { All IsLimited queries.now }
    ensures { IfOk result (λ told. AllZip (IsTold queries.now) choices.now told.items) }
{
    let mut told = Vec::new(alloc);
    for i in 0..choices.len() {
        let one = tell(alloc, queries, choices[i])?;
        push_told(&mut told, one)?;
    }
    Ok(told)
}
