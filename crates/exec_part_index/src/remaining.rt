//! What a part asks of a row that lies in the ranges of its dims and has its code: the signs and conditions that no tested pair says.
ghost use Rattle.std.specs.Prelude.{◌≡◌, ◌≤◌, ◌<◌, ◌&&◌, ◌||◌, not, true, false, ℕ, ℤ, pos, ◌+ℤ◌, length, take, slice_get, Some, All, IfOk, OnOk};
ghost use Rattle.std.specs.List.{list_all};
ghost use Rattle.sem_query.specs.declared.plan.PartPlan.{PartPlan};
ghost use Rattle.sem_query.specs.Assignment.{compares};
ghost use Rattle.sem_query.specs.Parts.{pairs, is_within, sign, sign_at};
ghost use Rattle.sem_query.specs.Admission.{alone, sign_eq, meets_local, keeps_local};
ghost use Rattle.exec_synopsis.specs.Preparing.{keeps_pair, keeps_tests};
ghost use Rattle.exec_part_index.specs.Span.{in_span, IsSpan};
ghost use Rattle.exec_part_index.specs.PartIndex.{signs_at, code_after, AsksOnly};
ghost use Rattle.exec_part_index.specs.Prepared.{ArePrepared};
ghost use Rattle.exec_part_index.specs.Showing.{shown_signs, AreShown, IsAsking, AreAskings};
ghost use Rattle.exec_part_index.specs.Remaining.{meets_any, AreRemaining};
ghost use Rattle.plan_implied_signs.specs.Showing.{SaysCondition};

use crate::prepared::prepared_of;
use crate::span::Span;
use crate::tests::{Asking, Tested};
use exec_synopsis::Prepared;
use plan_implied_signs::says_condition;
use sem_query::{
    Attr, Element, LocalCondition, Op, Pair, PartPlan, PartPlans, Query, Sign, is_same,
    is_same_element, is_same_sign, is_within,
};
use std::alloc::{AllocError, Global};

/// The conditions that remain to be asked at a place of FROM, and which of them are a part's.
#[derive(Drop)]
pub struct Remaining {
    pub conditions: Vec<LocalCondition>,
    pub spans: Vec<Span>,
}

// Whether a condition asks for this sign of a pair, and for nothing else.
#[tactic(auto, using(crate::proofs::RemainingLaws::asks_sign))]
fn is_for_sign(pair: Pair, wanted: Sign, condition: LocalCondition) -> bool
    ensures { result ≡ true → SaysCondition pair wanted condition }
{
    let asked = LocalCondition {
        left: pair.left,
        op: op_of(wanted),
        right: pair.right,
        by: 0,
    };
    is_same_condition(condition, asked)
}

// Whether a condition asks for the sign of one of some pairs.
#[tactic(auto, using(crate::proofs::RemainingLaws::said_or_not))]
fn is_for_one(tested: &Tested, shown: &[Sign], condition: LocalCondition) -> bool
    requires { length shown.now ≡ length tested.now.pairs.items }
    ensures { result ≡ true → (v : ℕ → ℤ) → signs_at v tested.now.pairs.items ≡ shown.now → meets_local (alone v) condition ≡ true }
{
    'pairs: for (i, pair) in tested.pairs.as_slice().iter().enumerate() {
        if is_for_sign(*pair, shown[i], condition) {
            return true;
        }
    }
    false
}

// Whether the sign of one of some pairs says that a condition holds.
#[tactic(auto, using(crate::proofs::RemainingLaws::said_or_not))]
fn is_said_by_one(tested: &Tested, shown: &[Sign], condition: LocalCondition) -> bool
    requires { length shown.now ≡ length tested.now.pairs.items }
    ensures { result ≡ true → (v : ℕ → ℤ) → signs_at v tested.now.pairs.items ≡ shown.now → meets_local (alone v) condition ≡ true }
{
    'pairs: for (i, pair) in tested.pairs.as_slice().iter().enumerate() {
        if says_condition(*pair, shown[i], condition) {
            return true;
        }
    }
    false
}

// Whether the signs of some pairs say that a condition holds. Most conditions ask for the sign of one of them, which is found sooner than what a sign says.
fn is_said(tested: &Tested, shown: &[Sign], condition: LocalCondition) -> bool
    requires { length shown.now ≡ length tested.now.pairs.items }
    ensures { result ≡ true → (v : ℕ → ℤ) → signs_at v tested.now.pairs.items ≡ shown.now → meets_local (alone v) condition ≡ true }
{
    is_for_one(tested, shown, condition) || is_said_by_one(tested, shown, condition)
}

// The operator that says a sign.
fn op_of(wanted: Sign) -> Op
    ensures { (x y : ℤ) → compares result x (y +ℤ pos 0) ≡ sign_eq (sign x y) wanted }
{
    match wanted {
        Sign::Lt => Op::Lt,
        Sign::Eq => Op::Eq,
        Sign::Gt => Op::Gt,
    }
}

// What a pair asks of a row by its sign, where it is of the stream at a place.
fn of_sign(place: u8, pair: Pair, wanted: Sign) -> Option<LocalCondition>
    ensures { (v : ℕ → ℤ) → meets_any v result ≡ (not (is_within place pair.left pair.right) || sign_eq (sign_at (alone v) pair) wanted) }
{
    if is_within(usize::from(place), pair) {
        Some(LocalCondition {
            left: pair.left,
            op: op_of(wanted),
            right: pair.right,
            by: 0,
        })
    } else {
        None
    }
}

// A condition that no row meets: that a column is less than itself.
fn never(place: u8) -> LocalCondition
    ensures { (v : ℕ → ℤ) → meets_local (alone v) result ≡ false }
{
    let first = Attr {
        stream: place,
        column: 0,
    };
    LocalCondition {
        left: first,
        op: Op::Lt,
        right: Element::Attr(first),
        by: 0,
    }
}

// What a pair asks of a row by its sign, where it is of the stream at a place; no row has the sign of what is not there.
fn of_test(place: u8, pair: Option<Pair>, sign: Option<Sign>) -> Option<LocalCondition>
    ensures { (v : ℕ → ℤ) → meets_any v result ≡ keeps_pair place (alone v) pair sign }
{
    match (pair, sign) {
        (Some(pair), Some(sign)) => of_sign(place, pair, sign),
        _ => Some(never(place)),
    }
}

// A condition, where it is of the stream at a place.
fn of_condition(place: u8, condition: LocalCondition) -> Option<LocalCondition>
    ensures { (v : ℕ → ℤ) → meets_any v result ≡ (not (is_within place condition.left condition.right) || meets_local (alone v) condition) }
{
    let (left, right) = (condition.left, condition.right);
    if is_within(usize::from(place), Pair { left, right }) {
        Some(condition)
    } else {
        None
    }
}

// Adds a condition, where there is one, that the signs of some pairs do not say. An error says that memory was not found.
#[tactic(auto, using(crate::proofs::RemainingLaws::pushed_all, crate::proofs::RemainingLaws::nothing_more))]
fn ask(
    list: &mut Vec<LocalCondition>,
    tested: &Tested,
    shown: &[Sign],
    condition: Option<LocalCondition>,
) -> Result<(), AllocError>
    requires { length shown.now ≡ length tested.now.pairs.items }
    ensures { OnOk result ((v : ℕ → ℤ) → signs_at v tested.now.pairs.items ≡ shown.now → list_all (meets_local (alone v)) list.new.items ≡ (list_all (meets_local (alone v)) list.old.items && meets_any v condition)) }
{
    match condition {
        Some(condition) if !is_said(tested, shown, condition) => list.push(condition)?,
        _ => {}
    }
    Ok(())
}

// Whether the pair at a place of these has this sign.
#[tactic(auto, using(crate::proofs::RemainingLaws::has_sign))]
fn is_signed(tested: &Tested, shown: &[Sign], i: usize, pair: Pair, wanted: Sign) -> bool
    requires full { length shown.now ≡ length tested.now.pairs.items }
    requires pair { slice_get tested.now.pairs.items i ≡ Some pair }
    ensures { result ≡ true → (v : ℕ → ℤ) → signs_at v tested.now.pairs.items ≡ shown.now → sign_eq (sign_at (alone v) pair) wanted ≡ true }
{
    // Named for the proof alone: the contract speaks of them.
    let (_tested, _pair) = (tested, pair);
    is_same_sign(shown[i], wanted)
}

// Whether what is asked of a pair by its sign is of another stream, or the pair is tested and has this sign.
fn is_told(
    tested: &Tested,
    shown: &[Sign],
    asking: Asking,
    place: u8,
    pair: Pair,
    wanted: Sign,
) -> bool
    requires full { length shown.now ≡ length tested.now.pairs.items }
    requires asking { IsAsking place tested.now.pairs.items pair asking }
    ensures { result ≡ true → (v : ℕ → ℤ) → signs_at v tested.now.pairs.items ≡ shown.now → (not (is_within place pair.left pair.right) || sign_eq (sign_at (alone v) pair) wanted) ≡ true }
{
    // Named for the proof alone: the contract speaks of it.
    let _place = place;
    match asking {
        Asking::Elsewhere => true,
        Asking::Tested(k) => is_signed(tested, shown, usize::from(k), pair, wanted),
        Asking::Untested => false,
    }
}

// How a row is asked for the sign of the pair of a number.
fn asking_at(tested: &Tested, place: u8, pairs: &[Pair], i: usize) -> Asking
    requires { AreAskings pairs.now place tested.now.pairs.items tested.now.askings.items }
    ensures { (p : Pair) → slice_get pairs.now i ≡ Some p → IsAsking place tested.now.pairs.items p result }
{
    // Named for the proof alone: the contract speaks of them.
    let (_place, _pairs) = (place, pairs);
    match tested.askings.as_slice().get(i) {
        Some(asking) => *asking,
        None => Asking::Untested,
    }
}

// Adds what the pair of a number asks of a row by its sign, where the signs of some pairs do not say it. An error says that memory was not found.
fn ask_number(
    list: &mut Vec<LocalCondition>,
    tested: &Tested,
    shown: &[Sign],
    place: u8,
    pairs: &[Pair],
    signs: &[Sign],
    i: u8,
) -> Result<(), AllocError>
    requires full { length shown.now ≡ length tested.now.pairs.items }
    requires askings { AreAskings pairs.now place tested.now.pairs.items tested.now.askings.items }
    ensures { OnOk result ((v : ℕ → ℤ) → signs_at v tested.now.pairs.items ≡ shown.now → list_all (meets_local (alone v)) list.new.items ≡ (list_all (meets_local (alone v)) list.old.items && keeps_pair place (alone v) (slice_get pairs.now i) (slice_get signs.now i))) }
{
    let i = usize::from(i);
    let (pair, sign) = (pairs.get(i).copied(), signs.get(i).copied());
    let asking = asking_at(tested, place, pairs, i);
    if let (Some(pair), Some(sign)) = (pair, sign) {
        if is_told(tested, shown, asking, place, pair, sign) {
            return Ok(());
        }
    }
    ask(list, tested, shown, of_test(place, pair, sign))
}

// What a part asks of a row that has these signs at these pairs, beside the ranges of its dims. An error says that memory was not found.
fn asked_beside(
    alloc: Global,
    q: &Query,
    part: &PartPlan,
    prepared: &Prepared,
    place: u8,
    tested: &Tested,
    shown: &[Sign],
) -> Result<Vec<LocalCondition>, AllocError>
    requires full { length shown.now ≡ length tested.now.pairs.items }
    requires askings { AreAskings (pairs q.now) place tested.now.pairs.items tested.now.askings.items }
    ensures { IfOk result (λ list. (v : ℕ → ℤ) → signs_at v tested.now.pairs.items ≡ shown.now → list_all (meets_local (alone v)) list.items ≡ (keeps_tests place (alone v) (pairs q.now) part.now.signs.items prepared.now.tests.items && keeps_local place (alone v) prepared.now.asked.items)) }
{
    let mut list: Vec<LocalCondition> = Vec::new(alloc);
    let (pairs, signs) = (q.pairs().as_slice(), part.signs.as_slice());
    'tests: for test in prepared.tests() {
        ask_number(&mut list, tested, shown, place, pairs, signs, *test)?;
    }
    'asked: for condition in prepared.asked() {
        ask(&mut list, tested, shown, of_condition(place, *condition))?;
    }
    Ok(list)
}

// The signs that the part of a number shows at the tested pairs.
fn shown_at<'a>(q: &Query, parts: &PartPlans, place: u8, tested: &'a Tested, i: u32) -> &'a [Sign]
    requires inside { i < length parts.now }
    requires shown { AreShown q.now parts.now place tested.now }
    ensures signs { result.now ≡ shown_signs tested.now i }
    ensures full { length result.now ≡ length tested.now.pairs.items }
{
    // Named for the proof alone: the contract speaks of them.
    let (_query, _parts, _place) = (q, parts.len(), place);
    tested.signs[i as usize].as_slice()
}

// What the code of a row does not tell of the part of a number. An error says that memory was not found.
fn remaining_of_part(
    alloc: Global,
    q: &Query,
    parts: &PartPlans,
    prepared: &[Prepared],
    place: u8,
    tested: &Tested,
    i: u32,
) -> Result<Vec<LocalCondition>, AllocError>
    requires inside { i < length parts.now }
    requires prepared { ArePrepared (pairs q.now) parts.now prepared.now }
    requires shown { AreShown q.now parts.now place tested.now }
    requires few { length tested.now.pairs.items ≤ 20 }
    ensures { IfOk result (λ list. (part : PartPlan) → slice_get parts.now i ≡ Some part → AsksOnly q.now part place tested.now.pairs.items (code_after 0 (shown_signs tested.now i)) list.items) }
{
    let shown = shown_at(q, parts, place, tested, i);
    let prepared = prepared_of(q, parts, prepared, i);
    asked_beside(alloc, q, parts.get(i), prepared, place, tested, shown)
}

// Whether two operators are the same.
fn is_same_op(op: Op, other: Op) -> bool
    ensures { result ≡ true → op ≡ other }
{
    op == other
}

// Whether two conditions are the same.
#[tactic(auto, using(crate::proofs::RemainingLaws::same_condition))]
fn is_same_condition(c: LocalCondition, d: LocalCondition) -> bool
    ensures { result ≡ true → c ≡ d }
{
    is_same(c.left, d.left)
        && is_same_op(c.op, d.op)
        && is_same_element(c.right, d.right)
        && c.by == d.by
}

// Whether two lists of conditions are the same.
fn are_same(list: &[LocalCondition], other: &[LocalCondition]) -> bool
    ensures { result ≡ true → list.now ≡ other.now }
{
    if list.len() != other.len() {
        return false;
    }
    'conditions: for (i, condition) in list.iter().enumerate() {
        if !is_same_condition(*condition, other[i]) {
            return false;
        }
    }
    true
}

// The number of a place in a list, where it has 32 bits; a list that is longer is taken as one that finds no memory.
fn short(n: usize) -> Result<u32, AllocError>
    ensures { IfOk result (λ k. k ≡ n) }
{
    match u32::try_from(n) {
        Ok(k) => Ok(k),
        Err(_) => Err(AllocError),
    }
}

// Puts conditions behind a list, and returns their span. An error says that memory was not found.
fn append(list: &mut Vec<LocalCondition>, own: &[LocalCondition]) -> Result<Span, AllocError>
    ensures kept { IfOk result (λ _. take (length list.old.items) list.new.items ≡ list.old.items) }
    ensures span { IfOk result (IsSpan (length list.new.items)) }
    ensures own { IfOk result (λ span. in_span list.new.items span ≡ own.now) }
{
    let from = short(list.len())?;
    list.extend_from_slice(own)?;
    let to = short(list.len())?;
    Ok(Span { from, to })
}

// The span of a part's conditions: none, that of the next part where this has the same, or one behind the list. An error says that memory was not found.
fn listed(
    list: &mut Vec<LocalCondition>,
    next: Span,
    own: &[LocalCondition],
) -> Result<Span, AllocError>
    requires { IsSpan (length list.old.items) next }
    ensures kept { IfOk result (λ _. take (length list.old.items) list.new.items ≡ list.old.items) }
    ensures span { IfOk result (IsSpan (length list.new.items)) }
    ensures own { IfOk result (λ span. in_span list.new.items span ≡ own.now) }
{
    if own.is_empty() {
        return Ok(Span { from: 0, to: 0 });
    }
    if are_same(&list[next.from as usize..next.to as usize], own) {
        return Ok(next);
    }
    append(list, own)
}

// The span of the part of a number; none where there is no such part.
fn span_of(spans: &[Span], i: u32) -> Span
    ensures { (n : ℕ) → All (IsSpan n) spans.now → IsSpan n result }
{
    spans
        .get(i as usize)
        .copied()
        .unwrap_or(Span { from: 0, to: 0 })
}

/// Returns what the code of a row does not tell of each part at a place. An error says that memory was not found, or that 32 bits do not count the conditions.
pub fn remaining_at(
    alloc: Global,
    q: &Query,
    parts: &PartPlans,
    prepared: &[Prepared],
    place: u8,
    tested: &Tested,
    links: &[u32],
) -> Result<Remaining, AllocError>
    requires prepared { ArePrepared (pairs q.now) parts.now prepared.now }
    requires shown { AreShown q.now parts.now place tested.now }
    requires few { length tested.now.pairs.items ≤ 20 }
    requires links { length links.now ≡ length parts.now }
    ensures { IfOk result (AreRemaining q.now parts.now place tested.now) }
{
    let count = parts.len();
    let mut conditions: Vec<LocalCondition> = Vec::new(alloc);
    let mut spans: Vec<Span> = vec![in alloc; Span { from: 0, to: 0 }; count as usize]?;
    let mut i = count;
    'parts: while i > 0 {
        i -= 1;
        let own = remaining_of_part(alloc, q, parts, prepared, place, tested, i)?;
        let next = span_of(spans.as_slice(), links[i as usize]);
        let span = listed(&mut conditions, next, own.as_slice())?;
        spans[i as usize] = span;
    }
    Ok(Remaining { conditions, spans })
}
