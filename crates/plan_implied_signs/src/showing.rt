//! Which sign all rows that a part admits have at a pair, and which conditions a sign says.
ghost use Rattle.std.specs.Prelude.{◌≡◌, ℕ, ℤ, ◌+ℤ◌, true, not, pos, ◌≤ℤ◌, IfSome, MatchOption, Some, None, slice_get};
ghost use Rattle.sem_query.specs.declared.atom.Element.TheVariants as element;
ghost use Rattle.sem_query.specs.declared.part.Pair.{Pair};
ghost use Rattle.sem_query.specs.Assignment.{Assignment, value, compares};
ghost use Rattle.sem_query.specs.Parts.{pair, pairs, is_within, sign, sign_at};
ghost use Rattle.sem_query.specs.Admission.{alone, keeps_local, meets_local};
ghost use Rattle.plan_implied_signs.specs.Showing.{Excludes, Says, IsOver, SaysCondition, may_be, keeps_condition, Stands, IsKnown, HasPossible, HasSign, AreAlike, AreEqualIn, ShowsSign};

use sem_query::{
    Attr, Element, LocalCondition, Op, Pair, PartPlan, Query, Sign, is_same, is_same_pair,
    is_within,
};

/// A pair that may be tested, and its number among the pairs of the query, where it is one of them.
#[derive(Clone, Copy, Debug, Default, PartialEq, Eq)]
pub struct Test {
    pub pair: Pair,
    pub number: Option<u8>,
}

/// Returns whether a comparison, its second side moved by a number, cannot hold where the sides have a sign.
pub fn excludes(op: Op, by: i128, sign: Sign) -> bool
    ensures { result ≡ true → Excludes op by sign }
{
    match sign {
        Sign::Lt => excludes_less(op, by),
        Sign::Eq => excludes_equal(op, by),
        Sign::Gt => excludes_greater(op, by),
    }
}

// Whether it cannot hold where the first side is less.
fn excludes_less(op: Op, by: i128) -> bool
    ensures { result ≡ true → Excludes op by Sign.Lt }
{
    match op {
        Op::Lt | Op::Le | Op::Ne => false,
        Op::Eq | Op::Ge => by >= 0,
        Op::Gt => by >= -1,
    }
}

// Whether it cannot hold where the sides are equal.
fn excludes_equal(op: Op, by: i128) -> bool
    ensures { result ≡ true → Excludes op by Sign.Eq }
{
    match op {
        Op::Lt => by <= 0,
        Op::Le => by < 0,
        Op::Eq => by != 0,
        Op::Ge => by > 0,
        Op::Gt => by >= 0,
        Op::Ne => by == 0,
    }
}

// Whether it cannot hold where the first side is greater.
fn excludes_greater(op: Op, by: i128) -> bool
    ensures { result ≡ true → Excludes op by Sign.Gt }
{
    match op {
        Op::Lt => by <= 1,
        Op::Le | Op::Eq => by <= 0,
        Op::Ge | Op::Gt | Op::Ne => false,
    }
}

// The operator that holds where another does not.
fn negated(op: Op) -> Op
    ensures { (x y : ℤ) → compares result x y ≡ not (compares op x y) }
{
    match op {
        Op::Lt => Op::Ge,
        Op::Eq => Op::Ne,
        Op::Gt => Op::Le,
        Op::Le => Op::Gt,
        Op::Ge => Op::Lt,
        Op::Ne => Op::Eq,
    }
}

/// Returns whether a comparison, its second side moved by a number, holds wherever the sides have a sign.
pub fn says(sign: Sign, op: Op, by: i128) -> bool
    ensures { result ≡ true → Says sign op by }
{
    excludes(negated(op), by, sign)
}

// The operator by which the second side stands to the first.
fn flipped(op: Op) -> Op
    ensures { (x y j k : ℤ) → j +ℤ k ≡ pos 0 → compares op y (x +ℤ j) ≡ compares result x (y +ℤ k) }
{
    match op {
        Op::Lt => Op::Gt,
        Op::Eq => Op::Eq,
        Op::Gt => Op::Lt,
        Op::Le => Op::Ge,
        Op::Ge => Op::Le,
        Op::Ne => Op::Ne,
    }
}

/// How the sides of a pair stand to each other by a condition: by an operator, the second side moved by a number.
#[derive(Clone, Copy)]
pub struct Stated {
    pub op: Op,
    pub by: i128,
}

// How much an integer is above another.
fn difference(x: i64, y: i64) -> i128
    ensures { y +ℤ result ≡ x }
{
    i128::from(x) - i128::from(y)
}

// How much it is above it when it is moved by a number.
fn difference_moved(x: i64, by: i64, y: i64) -> i128
    ensures { y +ℤ result ≡ x +ℤ by }
{
    difference(x, y) + i128::from(by)
}

// The number that makes good a move.
fn opposite(by: i64) -> i128
    ensures { by +ℤ result ≡ pos 0 }
{
    -i128::from(by)
}

// How the second side stands to the first where this one stands so to it, moved by a number.
fn turned(op: Op, by: i64) -> Stated
    ensures { (x y : ℤ) → compares op y (x +ℤ by) ≡ compares result.op x (y +ℤ result.by) }
{
    Stated {
        op: flipped(op),
        by: opposite(by),
    }
}

// What a condition asks of a column and an integer.
#[tactic(auto, using(crate::proofs::ShowingLaws::over_integer))]
fn over_integer(left: Attr, integer: i64, condition: LocalCondition) -> Option<Stated>
    ensures { IfSome result (λ s. IsOver (pair left (element.Const integer)) condition s.op s.by) }
{
    if !is_same(condition.left, left) {
        return None;
    }
    match condition.right {
        Element::Const(other) => Some(Stated {
            op: condition.op,
            by: difference_moved(other, condition.by, integer),
        }),
        Element::Attr(_) => None,
    }
}

// What a condition on two columns asks of two, in either order.
#[tactic(auto, using(crate::proofs::ShowingLaws::over_flipped))]
fn over_columns(left: Attr, right: Attr, condition: LocalCondition, other: Attr) -> Option<Stated>
    requires { condition.right ≡ element.Attr other }
    ensures { IfSome result (λ s. IsOver (pair left (element.Attr right)) condition s.op s.by) }
{
    if is_same(condition.left, left) && is_same(other, right) {
        return Some(Stated {
            op: condition.op,
            by: i128::from(condition.by),
        });
    }
    if is_same(condition.left, right) && is_same(other, left) {
        return Some(turned(condition.op, condition.by));
    }
    None
}

/// Returns what a condition asks of the sides of a pair, where it is about these: of a column and integers, or of two columns in either order.
pub fn over(pair: Pair, condition: LocalCondition) -> Option<Stated>
    ensures { IfSome result (λ s. IsOver pair condition s.op s.by) }
{
    match pair.right {
        Element::Const(integer) => over_integer(pair.left, integer, condition),
        Element::Attr(right) => match condition.right {
            Element::Const(_) => None,
            Element::Attr(other) => over_columns(pair.left, right, condition, other),
        },
    }
}

/// Returns whether a sign of a pair says that a condition holds.
pub fn says_condition(pair: Pair, sign: Sign, condition: LocalCondition) -> bool
    ensures { result ≡ true → SaysCondition pair sign condition }
{
    match over(pair, condition) {
        Some(stated) => says(sign, stated.op, stated.by),
        None => false,
    }
}

/// The signs that two sides may have.
#[derive(Clone, Copy)]
pub struct PossibleSigns {
    pub less: bool,
    pub equal: bool,
    pub greater: bool,
}

// The signs that are left where the sides stand so.
fn narrowed(possible: PossibleSigns, stated: Stated) -> PossibleSigns
    ensures { (x y : ℤ) → may_be possible (sign x y) ≡ true → compares stated.op x (y +ℤ stated.by) ≡ true → may_be result (sign x y) ≡ true }
{
    PossibleSigns {
        less: possible.less && !excludes(stated.op, stated.by, Sign::Lt),
        equal: possible.equal && !excludes(stated.op, stated.by, Sign::Eq),
        greater: possible.greater && !excludes(stated.op, stated.by, Sign::Gt),
    }
}

// The one sign that is left.
fn lone_sign(possible: PossibleSigns) -> Option<Sign>
    ensures { IfSome result (λ s. (t : Sign) → may_be possible t ≡ true → t ≡ s) }
{
    if possible.less {
        if possible.equal || possible.greater {
            None
        } else {
            Some(Sign::Lt)
        }
    } else if possible.equal {
        if possible.greater {
            None
        } else {
            Some(Sign::Eq)
        }
    } else {
        Some(Sign::Gt)
    }
}

// Whether a condition is on rows of the stream at a place.
fn is_at(place: u8, condition: LocalCondition) -> bool
    ensures { result ≡ is_within place condition.left condition.right }
{
    let (left, right) = (condition.left, condition.right);
    is_within(usize::from(place), Pair { left, right })
}

// Whether a condition on rows of the stream at a place is on a column, and moves nothing.
fn is_on(place: u8, condition: LocalCondition, a: Attr) -> bool
    ensures { result ≡ true → (v : ℕ → ℤ) → keeps_condition place (alone v) condition ≡ true → compares condition.op (v a.column) (value condition.right (alone v)) ≡ true }
{
    let here = is_at(place, condition);
    let same = is_same(condition.left, a);
    here && same && condition.by == 0
}

// The column that a column equals by a condition on rows of the stream at a place.
fn equal_by(place: u8, condition: LocalCondition, a: Attr) -> Option<Attr>
    ensures { IfSome result (λ b. (v : ℕ → ℤ) → keeps_condition place (alone v) condition ≡ true → v a.column ≡ v b.column) }
{
    match condition.op {
        Op::Eq => match condition.right {
            Element::Attr(b) => {
                if is_on(place, condition, a) {
                    Some(b)
                } else {
                    None
                }
            }
            Element::Const(_) => None,
        },
        Op::Lt | Op::Gt | Op::Le | Op::Ge | Op::Ne => None,
    }
}

// The integer that a column is not above by a condition on rows of the stream at a place.
fn greatest_by(place: u8, condition: LocalCondition, a: Attr) -> Option<i64>
    ensures { IfSome result (λ m. (v : ℕ → ℤ) → keeps_condition place (alone v) condition ≡ true → v a.column ≤ℤ m) }
{
    match condition.op {
        Op::Le => match condition.right {
            Element::Attr(_) => None,
            Element::Const(m) => {
                if is_on(place, condition, a) {
                    Some(m)
                } else {
                    None
                }
            }
        },
        Op::Lt | Op::Eq | Op::Gt | Op::Ge | Op::Ne => None,
    }
}

// The integer that a column is not below by a condition on rows of the stream at a place.
fn least_by(place: u8, condition: LocalCondition, a: Attr) -> Option<i64>
    ensures { IfSome result (λ m. (v : ℕ → ℤ) → keeps_condition place (alone v) condition ≡ true → m ≤ℤ v a.column) }
{
    match condition.op {
        Op::Ge => match condition.right {
            Element::Attr(_) => None,
            Element::Const(m) => {
                if is_on(place, condition, a) {
                    Some(m)
                } else {
                    None
                }
            }
        },
        Op::Lt | Op::Eq | Op::Gt | Op::Le | Op::Ne => None,
    }
}

// The column that a part says a column equals: the right side of its first condition that says so, or the column itself.
fn tied_to(part: &PartPlan, place: u8, a: Attr) -> Attr
    ensures { AreEqualIn part.now place a result }
{
    let local = part.local.as_slice();
    'conditions: for condition in local {
        match equal_by(place, *condition, a) {
            Some(b) => return b,
            None => {}
        }
    }
    a
}

// An integer that a column is not above in rows that meet the conditions of a part.
fn greatest_in(part: &PartPlan, place: u8, a: Attr) -> Option<i64>
    ensures { IfSome result (λ m. (v : ℕ → ℤ) → keeps_local place (alone v) part.now.local ≡ true → v a.column ≤ℤ m) }
{
    let local = part.local.as_slice();
    'conditions: for condition in local {
        match greatest_by(place, *condition, a) {
            Some(m) => return Some(m),
            None => {}
        }
    }
    None
}

// An integer that a column is not below in rows that meet the conditions of a part.
fn least_in(part: &PartPlan, place: u8, a: Attr) -> Option<i64>
    ensures { IfSome result (λ m. (v : ℕ → ℤ) → keeps_local place (alone v) part.now.local ≡ true → m ≤ℤ v a.column) }
{
    let local = part.local.as_slice();
    'conditions: for condition in local {
        match least_by(place, *condition, a) {
            Some(m) => return Some(m),
            None => {}
        }
    }
    None
}

// How two sides stand to each other where the first is at most the one integer, and the second at least the other.
#[tactic(auto, using(crate::proofs::ShowingLaws::below_ends))]
fn at_most(high: i64, low: i64) -> Stated
    ensures { (x y : ℤ) → x ≤ℤ high → low ≤ℤ y → compares result.op x (y +ℤ result.by) ≡ true }
{
    Stated {
        op: Op::Le,
        by: difference(high, low),
    }
}

// How they stand where the first is at least the one integer, and the second at most the other.
#[tactic(auto, using(crate::proofs::ShowingLaws::above_ends))]
fn at_least(low: i64, high: i64) -> Stated
    ensures { (x y : ℤ) → low ≤ℤ x → y ≤ℤ high → compares result.op x (y +ℤ result.by) ≡ true }
{
    Stated {
        op: Op::Ge,
        by: difference(low, high),
    }
}

// How far a column is above another at most, by the greatest value of the one and the least of the other.
fn most_above(part: &PartPlan, place: u8, a: Attr, b: Attr) -> Option<Stated>
    ensures { IsKnown part.now place (pair a (element.Attr b)) result }
{
    match greatest_in(part, place, a) {
        Some(high) => match least_in(part, place, b) {
            Some(low) => Some(at_most(high, low)),
            None => None,
        },
        None => None,
    }
}

// How far it is above it at least, by the least value of the one and the greatest of the other.
fn least_above(part: &PartPlan, place: u8, a: Attr, b: Attr) -> Option<Stated>
    ensures { IsKnown part.now place (pair a (element.Attr b)) result }
{
    match least_in(part, place, a) {
        Some(low) => match greatest_in(part, place, b) {
            Some(high) => Some(at_least(low, high)),
            None => None,
        },
        None => None,
    }
}

// What a condition on rows of the stream at a place asks of the sides of a pair.
fn stated_at(place: u8, pair: Pair, condition: LocalCondition) -> Option<Stated>
    ensures { IfSome result (λ s. (v : ℕ → ℤ) → keeps_condition place (alone v) condition ≡ true → Stands (alone v) pair s.op s.by) }
{
    if is_at(place, condition) {
        over(pair, condition)
    } else {
        None
    }
}

// The signs that are left to a pair by what may be known of it.
fn left_if(
    part: &PartPlan,
    place: u8,
    pair: Pair,
    possible: PossibleSigns,
    stated: Option<Stated>,
) -> PossibleSigns
    requires possible { HasPossible part.now place pair possible }
    requires known { IsKnown part.now place pair stated }
    ensures { HasPossible part.now place pair result }
{
    // Named for the proof alone: the contract speaks of them.
    let (_part, _place, _pair) = (part, place, pair);
    match stated {
        Some(stated) => narrowed(possible, stated),
        None => possible,
    }
}

// The signs that the conditions of a part leave to a pair.
fn left_by_conditions(
    part: &PartPlan,
    place: u8,
    pair: Pair,
    possible: PossibleSigns,
) -> PossibleSigns
    requires { HasPossible part.now place pair possible }
    ensures { HasPossible part.now place pair result }
{
    let mut possible = possible;
    let local = part.local.as_slice();
    'conditions: for condition in local {
        let stated = stated_at(place, pair, *condition);
        possible = left_if(part, place, pair, possible, stated);
    }
    possible
}

// The signs that the ends of the ranges of two columns leave to them.
fn left_by_ranges(
    part: &PartPlan,
    place: u8,
    left: Attr,
    right: Attr,
    possible: PossibleSigns,
) -> PossibleSigns
    requires { HasPossible part.now place (pair left (element.Attr right)) possible }
    ensures { HasPossible part.now place (pair left (element.Attr right)) result }
{
    let most = most_above(part, place, left, right);
    let least = least_above(part, place, left, right);
    let right = Element::Attr(right);
    let possible = left_if(part, place, Pair { left, right }, possible, most);
    left_if(part, place, Pair { left, right }, possible, least)
}

// The signs that all that a part says leaves to a pair.
fn left_by_all(part: &PartPlan, place: u8, pair: Pair, possible: PossibleSigns) -> PossibleSigns
    requires { HasPossible part.now place pair possible }
    ensures { HasPossible part.now place pair result }
{
    let possible = left_by_conditions(part, place, pair, possible);
    match pair.right {
        Element::Attr(right) => left_by_ranges(part, place, pair.left, right, possible),
        Element::Const(_) => possible,
    }
}

// The element that a part says an element equals.
fn tied_element(part: &PartPlan, place: u8, element: Element) -> Element
    ensures { (v : ℕ → ℤ) → keeps_local place (alone v) part.now.local ≡ true → value element (alone v) ≡ value result (alone v) }
{
    match element {
        Element::Attr(a) => Element::Attr(tied_to(part, place, a)),
        Element::Const(_) => element,
    }
}

// A pair of sides that a part says equal those of a pair.
fn tied_pair(part: &PartPlan, place: u8, pair: Pair) -> Pair
    ensures { AreAlike part.now place pair result }
{
    Pair {
        left: tied_to(part, place, pair.left),
        right: tied_element(part, place, pair.right),
    }
}

// Whether both sides of a pair are one column.
fn is_one_column(pair: Pair) -> bool
    ensures { result ≡ true → (v : ℕ → ℤ) → sign_at (alone v) pair ≡ Sign.Eq }
{
    match pair.right {
        Element::Attr(right) => is_same(pair.left, right),
        Element::Const(_) => false,
    }
}

// The signs that a part leaves to a pair, of which another is alike.
fn left_to(part: &PartPlan, place: u8, own: Pair, tied: Pair) -> PossibleSigns
    requires { AreAlike part.now place own tied }
    ensures { HasPossible part.now place own result }
{
    let all = PossibleSigns {
        less: true,
        equal: true,
        greater: true,
    };
    let possible = left_by_all(part, place, own, all);
    if is_same_pair(own, tied) {
        possible
    } else {
        left_by_all(part, place, tied, possible)
    }
}

// The sign that the conditions of a part show at a pair.
fn sign_by_conditions(part: &PartPlan, place: u8, pair: Pair) -> Option<Sign>
    ensures { IfSome result (λ s. HasSign part.now place pair s) }
{
    let tied = tied_pair(part, place, pair);
    if is_one_column(tied) {
        return Some(Sign::Eq);
    }
    lone_sign(left_to(part, place, pair, tied))
}

// The pair of a number.
fn pair_of_number(q: &Query, i: u8) -> Option<Pair>
    ensures { result ≡ slice_get (pairs q.now) i }
{
    q.pairs().as_slice().get(usize::from(i)).copied()
}

// The sign of a part at the pair of a number.
fn sign_of_number(part: &PartPlan, i: u8) -> Option<Sign>
    ensures { result ≡ slice_get part.now.signs.items i }
{
    part.signs.as_slice().get(usize::from(i)).copied()
}

// The sign of a part at the pair of a number, where this is a pair and of the stream at a place.
#[tactic(auto, using(crate::proofs::ShowingLaws::own_shows))]
fn own_sign(q: &Query, part: &PartPlan, place: u8, pair: Pair, i: u8) -> Option<Sign>
    ensures { IfSome result (λ s. ShowsSign q.now part.now place pair s) }
{
    match pair_of_number(q, i) {
        Some(own) => {
            if is_same_pair(own, pair) && is_within(usize::from(place), own) {
                sign_of_number(part, i)
            } else {
                None
            }
        }
        None => None,
    }
}

/// Returns the sign that all rows which a part admits have at a pair, where the part's own sign of that number or its conditions show it.
pub fn shown_sign(q: &Query, part: &PartPlan, place: u8, test: Test) -> Option<Sign>
    ensures { IfSome result (λ s. ShowsSign q.now part.now place test.pair s) }
{
    match test.number {
        Some(i) => own_sign(q, part, place, test.pair, i),
        None => sign_by_conditions(part, place, test.pair),
    }
}
