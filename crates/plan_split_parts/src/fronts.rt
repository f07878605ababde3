//! Fronts with one more pair.
ghost use Rattle.std.specs.Prelude.{◌≡◌, ◌≢◌, ◌↔◌, ◌+◌, ◌<◌, ◌≤◌, ◌∷◌, [], ◌++◌, length, IsTrue, IfOk, OnOk};
ghost use Rattle.std.specs.List.{list_any};
ghost use Rattle.sem_query.specs.declared.part.Sign.{Sign};
ghost use Rattle.plan_constraints.specs.Soft.{denies_itself};
ghost use Rattle.plan_split_pairs.specs.SplitParts.{HasMoreSplitParts};
ghost use Rattle.plan_split_parts.specs.Parts.{OnTooMany};
ghost use Rattle.plan_split_parts.specs.Fronts.{IsFrontOf, AreFronts, AreSplitPairs, signs_behind, signs_at, candidates, Pushes};

use crate::closing::distances_of;
use crate::error::PartsError;
use crate::front::{Front, copy_of};
use plan_constraints::denies_itself;
use plan_whole::of_sign;
use sem_query::{Pair, Query, Sign, Signs};
use std::alloc::{AllocError, Global};

// Signs with one more behind them.
fn longer(signs: &[Sign], sign: Sign) -> Signs
    requires { length signs.now < 114 }
    ensures { result.items ≡ signs.now ++ sign ∷ [] }
{
    let mut list = copy_of(signs);
    list.push(sign);
    list
}

// Adds a front with a sign of the next pair, where it is a front.
fn push_front(
    list: &mut Vec<Front>,
    q: &Query,
    pairs: &[Pair],
    unlikes: usize,
    front: &Front,
    sign: Sign,
) -> Result<(), AllocError>
    requires pairs { AreSplitPairs q.now pairs.now unlikes }
    requires room { length front.now.signs.items < length pairs.now }
    requires front { IsFrontOf q.now (length front.now.signs.items) front.now }
    requires sign { length front.now.signs.items < unlikes → sign ≢ Sign.Eq }
    ensures { OnOk result (Pushes q.now (length front.now.signs.items + 1) ((front.now.signs.items ++ sign ∷ []) ∷ []) list.old.items list.new.items) }
{
    let added = of_sign(q, pairs[front.signs.len()], sign);
    if !front.distances.allows_each(added.as_slice()) {
        return Ok(());
    }
    let mut distances = front.distances;
    distances.add_all(added.as_slice());
    if !distances.satisfiable() {
        return Ok(());
    }
    let signs = longer(front.signs.as_slice(), sign);
    match list.push(Front { signs, distances }) {
        Ok(()) => Ok(()),
        Err(_) => Err(AllocError),
    }
}

// Adds the fronts with the signs but less that the next pair may have, in order.
fn push_others(
    list: &mut Vec<Front>,
    q: &Query,
    pairs: &[Pair],
    unlikes: usize,
    front: &Front,
) -> Result<(), AllocError>
    requires pairs { AreSplitPairs q.now pairs.now unlikes }
    requires room { length front.now.signs.items < length pairs.now }
    requires front { IsFrontOf q.now (length front.now.signs.items) front.now }
    ensures { OnOk result (Pushes q.now (length front.now.signs.items + 1) (candidates (signs_behind q.now (length front.now.signs.items)) front.now.signs.items) list.old.items list.new.items) }
{
    if front.signs.len() < unlikes {
        return push_front(list, q, pairs, unlikes, front, Sign::Gt);
    }
    match push_front(list, q, pairs, unlikes, front, Sign::Eq) {
        Ok(()) => push_front(list, q, pairs, unlikes, front, Sign::Gt),
        Err(why) => Err(why),
    }
}

// Adds the fronts with each sign that the next pair may have, in order.
fn push_fronts(
    list: &mut Vec<Front>,
    q: &Query,
    pairs: &[Pair],
    unlikes: usize,
    front: &Front,
) -> Result<(), AllocError>
    requires pairs { AreSplitPairs q.now pairs.now unlikes }
    requires room { length front.now.signs.items < length pairs.now }
    requires front { IsFrontOf q.now (length front.now.signs.items) front.now }
    ensures { OnOk result (Pushes q.now (length front.now.signs.items + 1) (candidates (signs_at q.now (length front.now.signs.items)) front.now.signs.items) list.old.items list.new.items) }
{
    match push_front(list, q, pairs, unlikes, front, Sign::Lt) {
        Ok(()) => push_others(list, q, pairs, unlikes, front),
        Err(why) => Err(why),
    }
}

// Whether there are too many fronts of the first pairs: those of `<>` alone, which are the first, have no limit.
fn are_too_many(fronts: usize, pairs: usize, unlikes: usize) -> bool
    ensures { IsTrue result ↔ ((unlikes ≤ pairs) × (4096 < fronts)) }
{
    unlikes <= pairs && fronts > 4096
}

/// Returns the fronts with one more pair, the one at a place. `TooManyParts` where the pairs of `<>` are among them and there are more than
/// 4,096; `Memory` where the list finds none.
pub fn next_fronts(
    alloc: Global,
    q: &Query,
    pairs: &[Pair],
    unlikes: usize,
    place: usize,
    fronts: &[Front],
) -> Result<Vec<Front>, PartsError>
    requires pairs { AreSplitPairs q.now pairs.now unlikes }
    requires room { place < length pairs.now }
    requires fronts { AreFronts q.now place fronts.now }
    ensures fronts { IfOk result (λ next. AreFronts q.now (place + 1) next.items) }
    ensures over { OnTooMany result (HasMoreSplitParts q.now 4096) }
{
    let mut list = Vec::new(alloc);
    for front in fronts {
        match push_fronts(&mut list, q, pairs, unlikes, front) {
            Ok(()) => {}
            Err(_) => return Err(PartsError::Memory),
        }
        if are_too_many(list.len(), place + 1, unlikes) {
            return Err(PartsError::TooManyParts);
        }
    }
    Ok(list)
}

// Whether a comparison of the query says that an element is not itself.
fn has_denial(q: &Query) -> bool
    ensures { result ≡ list_any (λ t. denies_itself t) q.now.atoms }
{
    q.atoms().iter().any(|t| denies_itself(t))
}

/// Returns the front of no pair: none where the comparisons but `<>` contradict each other or a domain, or where a `<>` is of an element with
/// itself. An error says that memory was not found.
pub fn first_fronts(alloc: Global, q: &Query) -> Result<Vec<Front>, AllocError>
    ensures { IfOk result (λ fronts. AreFronts q.now 0 fronts.items) }
{
    let mut list = Vec::new(alloc);
    if has_denial(q) {
        return Ok(list);
    }
    let distances = distances_of(q);
    if !distances.satisfiable() {
        return Ok(list);
    }
    let signs = Signs::new();
    match list.push(Front { signs, distances }) {
        Ok(()) => Ok(list),
        Err(_) => Err(AllocError),
    }
}
