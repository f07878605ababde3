//! Boxes that are the same: they keep the same cells of all rows.
ghost use Rattle.std.specs.Prelude.{◌≡◌, ◌&&◌, []};
ghost use Rattle.std.specs.Ordering.{int_eq};
ghost use Rattle.sem_query.specs.Query.{attr_eq};
ghost use Rattle.sem_query.specs.Plan.{stream_at};
ghost use Rattle.sem_query.specs.Sharing.{box_at, same_signs, same_op, same_local, same_locals, locals_at, same_dim, same_dims, same_kind, same_box};
ghost use Rattle.sem_query.specs.Parts.{pairs, element_eq};
ghost use Rattle.plan_layout.specs.Alike.{within, asked_alike};

use sem_query::{
    Dim, Kind, LocalCondition, Op, Pair, PartPlan, Query, Sign, dims_at, is_same, is_same_element,
    is_same_sign, is_within,
};

// Whether the pairs of the stream at a place have the same signs.
fn has_signs(place: usize, pairs: &[Pair], signs: &[Sign], others: &[Sign]) -> bool
    ensures { result ≡ same_signs place pairs.now signs.now others.now }
{
    let [pair, pairs @ ..] = pairs else {
        return true;
    };
    let [sign, signs @ ..] = signs else {
        return others.is_empty();
    };
    let [other, others @ ..] = others else {
        return false;
    };
    (!is_within(place, *pair) || is_same_sign(*sign, *other))
        && has_signs(place, pairs, signs, others)
}

// Whether two comparisons are the same.
fn is_op(op: Op, other: Op) -> bool
    ensures { result ≡ same_op op other }
{
    match (op, other) {
        (Op::Lt, Op::Lt) => true,
        (Op::Eq, Op::Eq) => true,
        (Op::Gt, Op::Gt) => true,
        (Op::Le, Op::Le) => true,
        (Op::Ge, Op::Ge) => true,
        (Op::Ne, Op::Ne) => true,
        _ => false,
    }
}

// Whether two conditions are the same.
fn is_condition(condition: LocalCondition, other: LocalCondition) -> bool
    ensures { result ≡ same_local condition other }
{
    has_sides(condition, other) && has_comparison(condition, other)
}

// Whether they have the same sides.
fn has_sides(condition: LocalCondition, other: LocalCondition) -> bool
    ensures { result ≡ (attr_eq condition.left other.left && element_eq condition.right other.right) }
{
    is_same(condition.left, other.left) && is_same_element(condition.right, other.right)
}

// Whether they compare alike.
fn has_comparison(condition: LocalCondition, other: LocalCondition) -> bool
    ensures { result ≡ (same_op condition.op other.op && int_eq condition.by other.by) }
{
    is_op(condition.op, other.op) && condition.by == other.by
}

// Whether a condition is of the stream at a place.
fn is_at(place: usize, condition: LocalCondition) -> bool
    ensures { result ≡ within place condition }
{
    let (left, right) = (condition.left, condition.right);
    is_within(place, Pair { left, right })
}

// Whether no condition is of the stream at a place.
#[tactic(auto, using(crate::proofs::AskedAlike::skip_right, crate::proofs::AskedAlike::none_there))]
fn asks_nothing(place: usize, there: usize, conditions: &[LocalCondition]) -> bool
    ensures { result ≡ asked_alike place there [] conditions.now }
{
    let [condition, conditions @ ..] = conditions else {
        return true;
    };
    if is_at(there, *condition) {
        return false;
    }
    asks_nothing(place, there, conditions)
}

// Whether the conditions of the stream at one place are those of the stream at another.
#[tactic(auto, using(crate::proofs::AskedAlike::skip_left, crate::proofs::AskedAlike::skip_right, crate::proofs::AskedAlike::step_both, crate::proofs::AskedAlike::none_here))]
fn has_conditions(
    place: usize,
    there: usize,
    conditions: &[LocalCondition],
    others: &[LocalCondition],
) -> bool
    ensures { result ≡ asked_alike place there conditions.now others.now }
{
    let [condition, later @ ..] = conditions else {
        return asks_nothing(place, there, others);
    };
    if !is_at(place, *condition) {
        return has_conditions(place, there, later, others);
    }
    let [other, behind @ ..] = others else {
        return false;
    };
    if !is_at(there, *other) {
        return has_conditions(place, there, conditions, behind);
    }
    is_condition(*condition, *other) && has_conditions(place, there, later, behind)
}

// Whether the streams at places of two parts are asked the same.
fn is_asked_alike(q: &Query, part: &PartPlan, place: usize, other: &PartPlan, there: usize) -> bool
    ensures { result ≡ (same_signs place (pairs q.now) part.now.signs.items other.now.signs.items && same_locals (locals_at part.now place) (locals_at other.now there)) }
{
    has_signs(
        place,
        q.pairs().as_slice(),
        part.signs.as_slice(),
        other.signs.as_slice(),
    ) && has_conditions(place, there, part.local.as_slice(), other.local.as_slice())
}

// Whether two dims are the same.
fn is_dim(dim: Dim, other: Dim) -> bool
    ensures { result ≡ same_dim dim other }
{
    is_same(dim.attr, other.attr) && dim.lo == other.lo && dim.hi == other.hi
}

// Whether the dims are the same.
fn has_dims(dims: &[Dim], others: &[Dim]) -> bool
    ensures { result ≡ same_dims dims.now others.now }
{
    let [dim, dims @ ..] = dims else {
        return others.is_empty();
    };
    let [other, others @ ..] = others else {
        return false;
    };
    is_dim(*dim, *other) && has_dims(dims, others)
}

// Whether two kinds of cells are the same.
fn is_kind(kind: Kind, other: Kind) -> bool
    ensures { result ≡ same_kind kind other }
{
    match (kind, other) {
        (Kind::Count, Kind::Count) => true,
        (Kind::Present, Kind::Present) => true,
        (Kind::Least(attr), Kind::Least(other)) => is_same(attr, other),
        (Kind::Greatest(attr), Kind::Greatest(other)) => is_same(attr, other),
        _ => false,
    }
}

/// Returns the kind of the cells of the stream at a place of FROM: `Present` where there is no stream.
pub fn kind_at(part: &PartPlan, place: usize) -> Kind
    ensures { result ≡ (stream_at part.now place).kind }
{
    match part.streams.as_slice().get(place) {
        Some(stream) => stream.kind,
        None => Kind::Present,
    }
}

/// Returns whether the boxes of two parts at places of FROM are the same.
pub fn is_box(q: &Query, part: &PartPlan, place: usize, other: &PartPlan, there: usize) -> bool
    ensures { result ≡ same_box q.now (box_at part.now place) (box_at other.now there) }
{
    place == there
        && is_asked_alike(q, part, place, other, there)
        && has_dims(dims_at(part, place), dims_at(other, there))
        && is_kind(kind_at(part, place), kind_at(other, there))
}
