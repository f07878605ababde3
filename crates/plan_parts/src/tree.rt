//! The tree of signs.
ghost use Rattle.std.specs.Prelude.{◌≡◌, ◌<◌, ◌≤◌, ◌++◌, ◌∷◌, [], length, slice_get, All, IsTrue, IfSome, false};
ghost use Rattle.sem_query.specs.Parts.{pairs};
ghost use Rattle.plan_closure.specs.Choices.{AreChoices, chosen};
ghost use Rattle.plan_closure.specs.Shortest.{AreDistances};
ghost use Rattle.plan_constraints.specs.PartConstraints.{AddsSign};
ghost use Rattle.plan_constraints.specs.Soft.{next_fails};
ghost use Rattle.plan_constraints.specs.Solutions.{IsWithin};
ghost use Rattle.plan_parts.specs.Soft.{AreFails};
ghost use Rattle.plan_parts.specs.Tree.{Before, AreImplied, FollowsNext, Follows, Walks, WalksTwo, Adds};

use crate::error::SplitError;
use crate::soft::{Fails, next_fails};
use arrayvec::ArrayVec;
use plan_closure::{Choice, Distances};
use plan_constraints::Constraint;
use sem_query::{Part, Query, Sign, Signs};

// The constraints that one more sign adds.
fn next_constraints<'a>(
    q: &Query,
    choices: &'a [Choice],
    signs: &[Sign],
    sign: Sign,
) -> &'a [Constraint]
    requires choices { AreChoices q.now choices.now }
    requires room { length signs.now < length choices.now }
    ensures { AddsSign q.now signs.now sign result.now }
{
    // Named for the proof alone: the contract speaks of it.
    let _query = q;
    choices[signs.len()].by(sign)
}

// Whether the distances imply the constraints of the sign.
fn is_implied(distances: &Distances, choice: &Choice, sign: Sign) -> bool
    requires known { AreDistances distances.now }
    requires within { All (IsWithin distances.now.attrs) (chosen choice.now sign) }
    ensures { IsTrue result → AreImplied distances.now (chosen choice.now sign) }
{
    distances.implies_each(choice.by(sign))
}

// The sign that follows, where there is one.
fn implied(distances: &Distances, choice: &Choice) -> Option<Sign>
    requires known { AreDistances distances.now }
    requires within { (s : Sign) → All (IsWithin distances.now.attrs) (chosen choice.now s) }
    ensures { IfSome result (λ s. AreImplied distances.now (chosen choice.now s)) }
{
    if is_implied(distances, choice, Sign::Lt) {
        Some(Sign::Lt)
    } else if is_implied(distances, choice, Sign::Gt) {
        Some(Sign::Gt)
    } else if is_implied(distances, choice, Sign::Eq) {
        Some(Sign::Eq)
    } else {
        None
    }
}

// The same where no soft comparison is false under it.
fn next_sign(
    q: &Query,
    fails: &[Fails],
    signs: &[Sign],
    distances: &Distances,
    choice: &Choice,
) -> Option<Sign>
    requires fails { AreFails q.now fails.now }
    requires known { AreDistances distances.now }
    requires within { (s : Sign) → All (IsWithin distances.now.attrs) (chosen choice.now s) }
    ensures { IfSome result (λ s. FollowsNext q.now signs.now distances.now choice.now s) }
{
    match implied(distances, choice) {
        Some(sign) => {
            if next_fails(q, fails, signs, sign) {
                None
            } else {
                Some(sign)
            }
        }
        None => None,
    }
}

// Adds the signs that follow from these, up to a pair for which none follows, or one under which a soft comparison is false.
fn follow(q: &Query, fails: &[Fails], choices: &[Choice], distances: &Distances, signs: &mut Signs)
    requires fails { AreFails q.now fails.now }
    requires before { Before q.now choices.now distances.now signs.old.items }
    ensures before { Before q.now choices.now distances.now signs.new.items }
    ensures follow { Follows q.now signs.old.items signs.new.items }
{
    for i in signs.len()..choices.len() {
        match next_sign(q, fails, signs.as_slice(), distances, &choices[i]) {
            Some(sign) => signs.push(sign),
            None => return,
        }
    }
}

/// Adds the parts that begin with these signs, with at most 4,096 in all. The distances are given up.
#[cycle(walk)]
pub fn walk(
    q: &Query,
    fails: &[Fails],
    choices: &[Choice],
    distances: &mut Distances,
    signs: Signs,
    parts: &mut Vec<Part>,
) -> Result<(), SplitError>
    requires fails { AreFails q.now fails.now }
    requires before { Before q.now choices.now distances.old signs.items }
    requires few { length parts.old.items ≤ 4096 }
    ensures { Walks result q.now signs.items parts.old.items parts.new.items }
{
    let mut longer = signs;
    follow(q, fails, choices, distances, &mut longer);
    if longer.len() == choices.len() {
        return add_part(Part { signs: longer }, parts);
    }
    branches(q, fails, choices, distances, longer, parts)
}

// The same where the next pair has a sign that does not follow.
#[tactic(auto, using(crate::proofs::Walks::last, crate::proofs::Walks::broke_before))]
#[cycle(walk)]
fn branches(
    q: &Query,
    fails: &[Fails],
    choices: &[Choice],
    distances: &mut Distances,
    signs: Signs,
    parts: &mut Vec<Part>,
) -> Result<(), SplitError>
    requires fails { AreFails q.now fails.now }
    requires before { Before q.now choices.now distances.old signs.items }
    requires room { length signs.items < length choices.now }
    requires few { length parts.old.items ≤ 4096 }
    ensures { Walks result q.now signs.items parts.old.items parts.new.items }
{
    match less_or_equal(q, fails, choices, distances, signs.as_slice(), parts) {
        Ok(()) => greater(q, fails, choices, distances, signs, parts),
        Err(why) => Err(why),
    }
}

// The same for these signs and then less, and then for these signs and then equal. The distances stay.
#[tactic(auto, using(crate::proofs::Walks::second, crate::proofs::Walks::broke_first))]
#[cycle(walk)]
fn less_or_equal(
    q: &Query,
    fails: &[Fails],
    choices: &[Choice],
    distances: &Distances,
    signs: &[Sign],
    parts: &mut Vec<Part>,
) -> Result<(), SplitError>
    requires fails { AreFails q.now fails.now }
    requires before { Before q.now choices.now distances.now signs.now }
    requires room { length signs.now < length choices.now }
    requires few { length parts.old.items ≤ 4096 }
    ensures { WalksTwo result q.now signs.now parts.old.items parts.new.items }
{
    match branch(q, fails, choices, distances, signs, Sign::Lt, parts) {
        Ok(()) => branch(q, fails, choices, distances, signs, Sign::Eq, parts),
        Err(why) => Err(why),
    }
}

// The same for these signs and then greater. The distances are given up.
#[cycle(walk)]
fn greater(
    q: &Query,
    fails: &[Fails],
    choices: &[Choice],
    distances: &mut Distances,
    signs: Signs,
    parts: &mut Vec<Part>,
) -> Result<(), SplitError>
    requires fails { AreFails q.now fails.now }
    requires before { Before q.now choices.now distances.old signs.items }
    requires room { length signs.items < length choices.now }
    requires few { length parts.old.items ≤ 4096 }
    ensures { Walks result q.now (signs.items ++ Sign.Gt ∷ []) parts.old.items parts.new.items }
{
    if next_fails(q, fails, signs.as_slice(), Sign::Gt) {
        return Ok(());
    }
    deeper(q, fails, choices, distances, signs, Sign::Gt, parts)
}

// The same for these signs and one more. The distances stay: a copy of them is given up. It is not inlined, so that a level of
// the tree has one copy on the stack.
#[inline(never)]
#[cycle(walk)]
fn branch(
    q: &Query,
    fails: &[Fails],
    choices: &[Choice],
    distances: &Distances,
    signs: &[Sign],
    sign: Sign,
    parts: &mut Vec<Part>,
) -> Result<(), SplitError>
    requires fails { AreFails q.now fails.now }
    requires before { Before q.now choices.now distances.now signs.now }
    requires room { length signs.now < length choices.now }
    requires few { length parts.old.items ≤ 4096 }
    ensures { Walks result q.now (signs.now ++ sign ∷ []) parts.old.items parts.new.items }
{
    if next_fails(q, fails, signs, sign) {
        return Ok(());
    }
    if !distances.allows_each(next_constraints(q, choices, signs, sign)) {
        return Ok(());
    }
    let mut next = *distances;
    deeper(q, fails, choices, &mut next, copy_of(signs), sign, parts)
}

// The same for these signs and one more, under which no soft comparison is false. The distances are given up.
#[cycle(walk)]
fn deeper(
    q: &Query,
    fails: &[Fails],
    choices: &[Choice],
    distances: &mut Distances,
    signs: Signs,
    sign: Sign,
    parts: &mut Vec<Part>,
) -> Result<(), SplitError>
    requires fails { AreFails q.now fails.now }
    requires before { Before q.now choices.now distances.old signs.items }
    requires room { length signs.items < length choices.now }
    requires agrees { next_fails q.now.atoms (slice_get (pairs q.now) (length signs.items)) sign ≡ false }
    requires few { length parts.old.items ≤ 4096 }
    ensures { Walks result q.now (signs.items ++ sign ∷ []) parts.old.items parts.new.items }
{
    let mut longer = signs;
    distances.add_all(next_constraints(q, choices, longer.as_slice(), sign));
    if !distances.satisfiable() {
        return Ok(());
    }
    longer.push(sign);
    walk(q, fails, choices, distances, longer, parts)
}

// A copy of these signs.
fn copy_of(signs: &[Sign]) -> Signs
    requires { length signs.now ≤ 114 }
    ensures { result.items ≡ signs.now }
{
    let mut copy = ArrayVec::new();
    match copy.try_extend_from_slice(signs) {
        Ok(()) => copy,
        Err(_) => unreachable!(),
    }
}

// Adds a part where there are fewer than 4,096.
fn add_part(part: Part, parts: &mut Vec<Part>) -> Result<(), SplitError>
    requires few { length parts.old.items ≤ 4096 }
    ensures { Adds result part parts.old.items parts.new.items }
{
    if parts.len() >= 4096 {
        return Err(SplitError::TooManyParts);
    }
    match parts.push(part) {
        Ok(()) => Ok(()),
        Err(_) => Err(SplitError::Memory),
    }
}
