//! Columns of one class: those that the signs of a part, or what else it asks of rows of one stream, say are equal.
ghost use Rattle.std.specs.Prelude.{◌≡◌, ◌&&◌, ◌||◌, length, position, ◌<◌, ◌≤◌, IfSome};
ghost use Rattle.std.specs.List.{list_any};
ghost use Rattle.sem_query.specs.Combinations.{compares_both, ties, any_ties, is_equality, binds};
ghost use Rattle.sem_query.specs.Query.{attr_eq};
ghost use Rattle.exec_synopsis.specs.Classes.{are_tied};
ghost use Rattle.std.specs.declared.option.Option.TheVariants.{Some};

use sem_query::{
    Attr, Dim, Element, LocalCondition, Op, Pair, PartPlan, Sign, is_same, is_same_sign,
};

// Whether a pair compares two columns.
fn compares_both(a: Attr, b: Attr, pair: Pair) -> bool
    ensures { result ≡ compares_both a b pair.left pair.right }
{
    match pair.right {
        Element::Attr(right) => {
            (is_same(pair.left, a) && is_same(right, b))
                || (is_same(pair.left, b) && is_same(right, a))
        }
        Element::Const(_) => false,
    }
}

// Whether a pair says that two columns are equal.
fn ties(a: Attr, b: Attr, pair: Pair, s: Sign) -> bool
    ensures { result ≡ ties a b pair s }
{
    is_same_sign(s, Sign::Eq) && compares_both(a, b, pair)
}

// Whether some pair does.
#[tactic(auto, using(crate::proofs::SignLaws::tied_past, crate::proofs::SignLaws::tied_all, crate::proofs::SignLaws::tied_step))]
fn any_ties(a: Attr, b: Attr, pairs: &[Pair], signs: &[Sign]) -> bool
    ensures { result ≡ any_ties a b pairs.now signs.now }
{
    'pairs: for (i, pair) in pairs.iter().enumerate() {
        if i >= signs.len() {
            return false;
        }
        if ties(a, b, *pair, signs[i]) {
            return true;
        }
    }
    false
}

// Whether it is an equality.
fn is_equality(op: Op) -> bool
    ensures { result ≡ is_equality op }
{
    match op {
        Op::Eq => true,
        Op::Lt | Op::Gt | Op::Le | Op::Ge | Op::Ne => false,
    }
}

// Whether a condition on rows of one stream says that two columns are equal.
fn binds(a: Attr, b: Attr, condition: LocalCondition) -> bool
    ensures { result ≡ binds a b condition }
{
    let (left, right) = (condition.left, condition.right);
    is_equality(condition.op) && (condition.by == 0 && compares_both(a, b, Pair { left, right }))
}

/// Returns whether some condition on rows of one stream says that two columns are equal.
pub(crate) fn any_binds(conditions: &[LocalCondition], a: Attr, b: Attr) -> bool
    ensures { result ≡ list_any (binds a b) conditions.now }
{
    conditions.iter().any(|condition| binds(a, b, *condition))
}

// Whether two columns are the same, or the signs say that they are equal.
fn are_signed_equal(pairs: &[Pair], signs: &[Sign], a: Attr, b: Attr) -> bool
    ensures { result ≡ (attr_eq a b || any_ties a b pairs.now signs.now) }
{
    is_same(a, b) || any_ties(a, b, pairs, signs)
}

// Whether two columns are of one class.
fn are_tied(pairs: &[Pair], part: &PartPlan, a: Attr, b: Attr) -> bool
    ensures { result ≡ are_tied pairs.now part.now a b }
{
    are_signed_equal(pairs, part.signs.as_slice(), a, b) || any_binds(part.local.as_slice(), a, b)
}

/// Returns the place of the dim whose class has the column.
pub fn dim_of(pairs: &[Pair], part: &PartPlan, dims: &[Dim], a: Attr) -> Option<usize>
    ensures place { result ≡ position (λ d. are_tied pairs.now part.now d.attr a) dims.now }
    ensures below { IfSome result (λ k. k < length dims.now) }
{
    dims.iter()
        .position(|dim| are_tied(pairs, part, dim.attr, a))
}
