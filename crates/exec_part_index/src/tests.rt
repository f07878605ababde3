//! Which pairs are tested at a place: at most 20 at which each part shows one sign, and which tell parts apart or say what some part is asked.
ghost use Rattle.std.specs.Prelude.{◌≡◌, ◌≤◌, [], length, IfOk, IfSome};
ghost use Rattle.sem_query.specs.Parts.{pairs};
ghost use Rattle.exec_part_index.specs.Prepared.{ArePrepared};
ghost use Rattle.exec_part_index.specs.Showing.{pairs_tested, IsShownBy, AreSignsOf, AreShown, IsAsking, AreAskings};

use crate::prepared::prepared_of;
use arrayvec::ArrayVec;
use exec_synopsis::Prepared;
use plan_implied_signs::{Test, says_condition, shown_sign};
use sem_query::{
    Element, LocalCondition, Op, Pair, PartPlan, PartPlans, Query, Sign, Signs, is_before,
    is_same_pair, is_same_sign, is_within,
};
use std::alloc::{AllocError, Global};

/// How a row of the stream at a place is asked for the sign of a pair.
#[derive(Clone, Copy)]
pub enum Asking {
    /// The pair is not of this stream, and nothing is asked.
    Elsewhere,
    /// The pair has this place among those that are tested.
    Tested(u8),
    /// It is not known to be either.
    Untested,
}

/// The pairs that are tested at a place, the sign that each part shows at each of them, and how a row is asked for each pair of the query.
#[derive(Drop)]
pub struct Tested {
    pub pairs: Vec<Pair>,
    pub signs: Vec<Signs>,
    pub askings: Vec<Asking>,
}

// A pair at which each part shows one sign, and this sign where it is the same of all: if not, it tells parts from each other.
#[derive(Clone, Copy, Debug, Default, PartialEq, Eq)]
struct Shown {
    test: Test,
    sign: Option<Sign>,
}

// Whether a condition is on rows of the stream at a place.
fn is_at(place: u8, condition: LocalCondition) -> bool {
    let (left, right) = (condition.left, condition.right);
    is_within(usize::from(place), Pair { left, right })
}

// Adds a pair that may be tested, where there is room.
fn add(list: &mut ArrayVec<Test, 254>, test: Test) {
    if list.as_slice().len() < 254 {
        list.push(test);
    }
}

// Adds the pairs of the query that are of the stream at a place.
fn add_numbered(list: &mut ArrayVec<Test, 254>, q: &Query, place: u8) {
    let pairs = q.pairs().as_slice();
    'pairs: for (i, pair) in pairs.iter().enumerate() {
        if is_within(usize::from(place), *pair) {
            let (pair, number) = (*pair, Some(i as u8));
            add(list, Test { pair, number });
        }
    }
}

// The integer with which a condition compares a column, made so that the sign of the column with it is one where the condition holds.
fn integer_named(condition: LocalCondition, integer: i64) -> Option<i64> {
    match condition.op {
        Op::Le => integer.checked_add(1),
        Op::Ge => integer.checked_sub(1),
        Op::Lt | Op::Gt | Op::Eq | Op::Ne => Some(integer),
    }
}

// The pair of the sides of a condition, of two columns the earlier one first.
fn pair_named(condition: LocalCondition) -> Option<Pair> {
    let left = condition.left;
    let (left, right) = match condition.right {
        Element::Const(integer) => (left, Element::Const(integer_named(condition, integer)?)),
        Element::Attr(right) if is_before(left, right) => (left, condition.right),
        Element::Attr(right) => (right, Element::Attr(left)),
    };
    Some(Pair { left, right })
}

// Whether a pair is among some.
fn has_pair(list: &[Test], pair: Pair) -> bool {
    list.iter().any(|test| is_same_pair(test.pair, pair))
}

// Adds the pair that a condition names, where it is not among them and a part shows a sign at it.
fn add_named(
    list: &mut ArrayVec<Test, 254>,
    q: &Query,
    first: &PartPlan,
    place: u8,
    condition: LocalCondition,
) {
    if let (true, Some(pair)) = (is_at(place, condition), pair_named(condition)) {
        let test = Test { pair, number: None };
        if !has_pair(list.as_slice(), pair) && shown_sign(q, first, place, test).is_some() {
            add(list, test);
        }
    }
}

// The pairs that may be tested at a place: those of the query and those that conditions name, where the first part shows signs at them.
fn candidates_at(q: &Query, parts: &PartPlans, place: u8) -> ArrayVec<Test, 254> {
    let mut list: ArrayVec<Test, 254> = ArrayVec::new();
    if parts.len() == 0 {
        return list;
    }
    let first = parts.get(0);
    if first.signs.as_slice().len() >= q.pairs().as_slice().len() {
        add_numbered(&mut list, q, place);
    }
    'parts: for k in 0..parts.len() {
        let local = parts.get(k).local.as_slice();
        'conditions: for condition in local {
            add_named(&mut list, q, first, place, *condition);
        }
    }
    list
}

// The sign that a part shows at a pair that may be tested: its own sign of the pair's number at once, or the one that its conditions show.
fn sign_in(q: &Query, part: &PartPlan, place: u8, test: Test) -> Option<Sign> {
    match test.number {
        Some(i) => part.signs.as_slice().get(usize::from(i)).copied(),
        None => shown_sign(q, part, place, test),
    }
}

// How all parts show a sign at a pair, where they do.
fn shown_by_all(q: &Query, parts: &PartPlans, place: u8, test: Test) -> Option<Shown> {
    let mut one: Option<Sign> = None;
    let mut differs = false;
    'parts: for k in 0..parts.len() {
        let sign = sign_in(q, parts.get(k), place, test)?;
        match one {
            Some(other) => differs = differs || !is_same_sign(sign, other),
            None => one = Some(sign),
        }
    }
    let sign = if differs { None } else { one };
    Some(Shown { test, sign })
}

// Whether a pair says a condition by a sign, where it has one.
fn is_said(pair: Pair, sign: Option<Sign>, condition: LocalCondition) -> bool {
    match sign {
        Some(sign) => says_condition(pair, sign, condition),
        None => false,
    }
}

// Whether a pair says a condition of the stream at a place that those before it do not say.
fn says_more(prepared: &Prepared, place: u8, before: &[Shown], test: Test, sign: Sign) -> bool {
    'conditions: for condition in prepared.asked() {
        let condition = *condition;
        if is_at(place, condition)
            && says_condition(test.pair, sign, condition)
            && !before
                .iter()
                .any(|one| is_said(one.test.pair, one.sign, condition))
        {
            return true;
        }
    }
    false
}

// Whether a part must be asked for its sign at a pair, or for a condition that this says and those before it do not.
fn is_asked(prepared: &Prepared, place: u8, before: &[Shown], test: Test, sign: Sign) -> bool {
    match test.number {
        Some(i) => prepared.tests().iter().any(|number| *number == i),
        None => says_more(prepared, place, before, test, sign),
    }
}

// Whether a pair is of use: it tells parts from each other, or some part must be asked for it.
fn is_useful(
    q: &Query,
    parts: &PartPlans,
    prepared: &[Prepared],
    place: u8,
    before: &[Shown],
    shown: Shown,
) -> bool
    requires { ArePrepared (pairs q.now) parts.now prepared.now }
{
    let Some(sign) = shown.sign else {
        return true;
    };
    'parts: for k in 0..parts.len() {
        let of_part = prepared_of(q, parts, prepared, k);
        if is_asked(of_part, place, before, shown.test, sign) {
            return true;
        }
    }
    false
}

// The pairs that are of use among those that may be tested.
fn useful_among(
    q: &Query,
    parts: &PartPlans,
    prepared: &[Prepared],
    place: u8,
    candidates: &[Test],
) -> ArrayVec<Shown, 254>
    requires { ArePrepared (pairs q.now) parts.now prepared.now }
{
    let mut useful: ArrayVec<Shown, 254> = ArrayVec::new();
    'candidates: for test in candidates {
        if let Some(shown) = shown_by_all(q, parts, place, *test) {
            if useful.as_slice().len() < 254
                && is_useful(q, parts, prepared, place, useful.as_slice(), shown)
            {
                useful.push(shown);
            }
        }
    }
    useful
}

// Adds a test, where there is room.
fn add_test(tests: &mut ArrayVec<Test, 20>, test: Test) {
    if tests.as_slice().len() < 20 {
        tests.push(test);
    }
}

// At most 20 of some pairs: where they are more, those that tell parts from each other come first.
fn first_of(useful: &[Shown]) -> ArrayVec<Test, 20> {
    let mut tests: ArrayVec<Test, 20> = ArrayVec::new();
    let are_few = useful.len() <= 20;
    'telling: for shown in useful {
        if are_few || shown.sign.is_none() {
            add_test(&mut tests, shown.test);
        }
    }
    'others: for shown in useful {
        if !are_few && shown.sign.is_some() {
            add_test(&mut tests, shown.test);
        }
    }
    tests
}

// Whether a test is of the pair of a number, or this pair is not of the stream at a place.
fn is_number_tested(q: &Query, place: u8, tests: &[Test], i: u8) -> bool {
    match q.pairs().as_slice().get(usize::from(i)) {
        Some(pair) => !is_within(usize::from(place), *pair) || has_pair(tests, *pair),
        None => false,
    }
}

// Whether the sign of a part at a test says a condition, or this is not on rows of the stream at a place.
fn is_condition_said(
    q: &Query,
    part: &PartPlan,
    place: u8,
    tests: &[Test],
    condition: LocalCondition,
) -> bool {
    !is_at(place, condition)
        || tests.iter().any(|test| is_said(test.pair, sign_in(q, part, place, *test), condition))
}

// Whether the signs of a part at some tests leave nothing to be asked.
fn is_all_said(q: &Query, part: &PartPlan, prepared: &Prepared, place: u8, tests: &[Test]) -> bool {
    let (numbers, conditions) = (prepared.tests(), prepared.asked());
    numbers
        .iter()
        .all(|i| is_number_tested(q, place, tests, *i))
        && conditions
            .iter()
            .all(|c| is_condition_said(q, part, place, tests, *c))
}

// Whether they leave nothing to be asked of any part.
fn are_all_said(
    q: &Query,
    parts: &PartPlans,
    prepared: &[Prepared],
    place: u8,
    tests: &[Test],
) -> bool
    requires { ArePrepared (pairs q.now) parts.now prepared.now }
{
    'parts: for k in 0..parts.len() {
        let of_part = prepared_of(q, parts, prepared, k);
        if !is_all_said(q, parts.get(k), of_part, place, tests) {
            return false;
        }
    }
    true
}

// The sign that a part shows at each test.
#[tactic(auto, using(crate::proofs::TestsLaws::signs_more))]
fn signs_shown(q: &Query, part: &PartPlan, place: u8, tests: &[Test]) -> Option<Signs>
    requires { length tests.now ≤ 20 }
    ensures { IfSome result (λ signs. IsShownBy q.now place (pairs_tested tests.now) part.now signs) }
{
    let mut signs: Signs = ArrayVec::new();
    'tests: for test in tests {
        let Some(sign) = shown_sign(q, part, place, *test) else {
            return None;
        };
        signs.push(sign);
    }
    Some(signs)
}

// The signs that all parts show.
fn all_signs(
    alloc: Global,
    q: &Query,
    parts: &PartPlans,
    place: u8,
    tests: &[Test],
) -> Result<Option<Vec<Signs>>, AllocError>
    requires { length tests.now ≤ 20 }
    ensures { IfOk result (λ found. IfSome found (λ all. AreSignsOf q.now place (pairs_tested tests.now) parts.now all.items)) }
{
    let mut all: Vec<Signs> = Vec::with_capacity(alloc, parts.len() as usize)?;
    'parts: for k in 0..parts.len() {
        let Some(signs) = signs_shown(q, parts.get(k), place, tests) else {
            return Ok(None);
        };
        all.push(signs)?;
    }
    Ok(Some(all))
}

// The pairs of some tests.
#[tactic(auto, using(crate::proofs::TestsLaws::pair_pushed))]
fn pairs_of(alloc: Global, tests: &[Test]) -> Result<Vec<Pair>, AllocError>
    ensures { IfOk result (λ pairs. pairs.items ≡ pairs_tested tests.now) }
{
    let mut pairs: Vec<Pair> = Vec::with_capacity(alloc, tests.len())?;
    'tests: for test in tests {
        pairs.push(test.pair)?;
    }
    Ok(pairs)
}

// How a row of the stream at a place is asked for the sign of a pair, where some pairs are tested.
#[tactic(auto, using(crate::proofs::TestsLaws::pair_found))]
fn asking_of(place: u8, pair: Pair, tested: &[Pair]) -> Asking
    requires { length tested.now ≤ 20 }
    ensures { IsAsking place tested.now pair result }
{
    if !is_within(usize::from(place), pair) {
        return Asking::Elsewhere;
    }
    'pairs: for (i, other) in tested.iter().enumerate() {
        if is_same_pair(*other, pair) {
            return Asking::Tested(i as u8);
        }
    }
    Asking::Untested
}

// The same of each of some pairs. An error says that memory was not found.
fn askings_of(
    alloc: Global,
    pairs: &[Pair],
    place: u8,
    tested: &[Pair],
) -> Result<Vec<Asking>, AllocError>
    requires { length tested.now ≤ 20 }
    ensures { IfOk result (λ askings. AreAskings pairs.now place tested.now askings.items) }
{
    let mut askings: Vec<Asking> = Vec::with_capacity(alloc, pairs.len())?;
    'pairs: for pair in pairs {
        askings.push(asking_of(place, *pair, tested))?;
    }
    Ok(askings)
}

// For each part no signs.
fn no_signs(
    alloc: Global,
    q: &Query,
    parts: &PartPlans,
    place: u8,
) -> Result<Vec<Signs>, AllocError>
    ensures { IfOk result (λ all. AreSignsOf q.now place [] parts.now all.items) }
{
    // Named for the proof alone: the contract speaks of them.
    let (_query, _place) = (q, place);
    let mut all: Vec<Signs> = Vec::with_capacity(alloc, parts.len() as usize)?;
    'parts: for k in 0..parts.len() {
        let _part = parts.get(k);
        all.push(ArrayVec::new())?;
    }
    Ok(all)
}

// No pair is tested.
fn untested(alloc: Global, q: &Query, parts: &PartPlans, place: u8) -> Result<Tested, AllocError>
    ensures shown { IfOk result (λ t. AreShown q.now parts.now place t) }
    ensures few { IfOk result (λ t. length t.pairs.items ≤ 20) }
{
    let signs = no_signs(alloc, q, parts, place)?;
    Ok(Tested {
        pairs: Vec::new(alloc),
        signs,
        askings: Vec::new(alloc),
    })
}

// These pairs are tested, where each part shows a sign at each.
#[tactic(auto, using(crate::proofs::TestsLaws::many_pairs))]
fn tested_by(
    alloc: Global,
    q: &Query,
    parts: &PartPlans,
    place: u8,
    tests: &[Test],
) -> Result<Tested, AllocError>
    requires { length tests.now ≤ 20 }
    ensures shown { IfOk result (λ t. AreShown q.now parts.now place t) }
    ensures few { IfOk result (λ t. length t.pairs.items ≤ 20) }
{
    let pairs = pairs_of(alloc, tests)?;
    let numbered = q.pairs().as_slice();
    let askings = askings_of(alloc, numbered, place, pairs.as_slice())?;
    match all_signs(alloc, q, parts, place, tests)? {
        Some(signs) => Ok(Tested {
            pairs,
            signs,
            askings,
        }),
        None => untested(alloc, q, parts, place),
    }
}

/// Returns the pairs at which each part shows one sign, at most 20, and which tell parts apart or say what some part is asked beside the ranges of
/// its dims. Two parts or fewer need no code that leaves something to be asked. An error says that memory was not found.
pub fn tested_at(
    alloc: Global,
    q: &Query,
    parts: &PartPlans,
    prepared: &[Prepared],
    place: u8,
) -> Result<Tested, AllocError>
    requires prepared { ArePrepared (pairs q.now) parts.now prepared.now }
    ensures shown { IfOk result (λ t. AreShown q.now parts.now place t) }
    ensures few { IfOk result (λ t. length t.pairs.items ≤ 20) }
{
    let candidates = candidates_at(q, parts, place);
    let useful = useful_among(q, parts, prepared, place, candidates.as_slice());
    let tests = first_of(useful.as_slice());
    if parts.len() <= 2 && !are_all_said(q, parts, prepared, place, tests.as_slice()) {
        return untested(alloc, q, parts, place);
    }
    tested_by(alloc, q, parts, place, tests.as_slice())
}
