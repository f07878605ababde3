//! Whether mixtures of two assignments do not satisfy a query.
ghost use Rattle.std.specs.Prelude.{◌≡◌, ◌≢◌, ℤ, ◌<ℤ◌, ◌≤ℤ◌, length, IsTrue};
ghost use Rattle.std.specs.List.{All};
ghost use Rattle.arrayvec.specs.ArrayVec.{ArrayVec as Items};
ghost use Rattle.sem_query.specs.Query.{attrs_of};
ghost use Rattle.sem_query.specs.Assignment.{Assignment, AtomHolds, compares};
ghost use Rattle.fam_motions.specs.Values.{valued};
ghost use Rattle.fam_motions.specs.Apart.{SaysAtMost, Rises, Falls, LaterMixesFail, EarlierMixesFail, assigned};

use crate::block::Difference;
use crate::values::{Values, value_of};
use sem_query::{Atom, Attr, Element, Op, Query, is_same};

// Whether an operator says that its left side is at most its right one.
fn is_at_most(op: Op) -> bool
    ensures { IsTrue result → (x y : ℤ) → IsTrue (compares op x y) → x ≤ℤ y }
{
    match op {
        Op::Lt | Op::Le | Op::Eq => true,
        Op::Gt | Op::Ge | Op::Ne => false,
    }
}

// Whether it says that its left side is at least its right one.
fn is_at_least(op: Op) -> bool
    ensures { IsTrue result → (x y : ℤ) → IsTrue (compares op x y) → y ≤ℤ x }
{
    match op {
        Op::Gt | Op::Ge | Op::Eq => true,
        Op::Lt | Op::Le | Op::Ne => false,
    }
}

// Whether a comparison of two columns is of these, in this order.
fn is_of(left: Attr, right: Attr, x: Attr, y: Attr) -> bool
    ensures left { IsTrue result → left ≡ x }
    ensures right { IsTrue result → right ≡ y }
{
    is_same(left, x) && is_same(right, y)
}

// Whether a comparison of two columns says that one is at most another.
fn columns_say(left: Attr, op: Op, right: Attr, x: Attr, y: Attr) -> bool
    ensures { IsTrue result → (v : Assignment) → IsTrue (compares op (v left) (v right)) → v x ≤ℤ v y }
{
    if is_of(left, right, x, y) {
        return is_at_most(op);
    }
    if is_of(left, right, y, x) {
        return is_at_least(op);
    }
    false
}

// Whether a comparison says that one column is at most another.
fn says(atom: &Atom, x: Attr, y: Attr) -> bool
    ensures { IsTrue result → (v : Assignment) → AtomHolds v atom.now → v x ≤ℤ v y }
{
    match (atom.left, atom.right) {
        (Element::Attr(left), Element::Attr(right)) => columns_say(left, atom.op, right, x, y),
        (Element::Attr(_), Element::Const(_)) => false,
        (Element::Const(_), Element::Attr(_)) => false,
        (Element::Const(_), Element::Const(_)) => false,
    }
}

// Whether a query says that one column is at most another.
fn says_at_most(q: &Query, x: Attr, y: Attr) -> bool
    ensures { IsTrue result → SaysAtMost q.now x y }
{
    for atom in q.atoms() {
        if says(atom, x, y) {
            return true;
        }
    }
    false
}

// Whether a column is less than an integer in each of these.
fn are_below(attrs: &[Attr], all: &[Values], attr: Attr, bound: i128) -> bool
    ensures { IsTrue result → All (λ (xs : Items ℤ). valued attrs.now xs.items attr <ℤ bound) all.now }
{
    all.iter()
        .all(|values| value_of(attrs, values.as_slice(), attr) < bound)
}

// Whether it is greater in each.
fn are_above(attrs: &[Attr], all: &[Values], attr: Attr, bound: i128) -> bool
    ensures { IsTrue result → All (λ (xs : Items ℤ). bound <ℤ valued attrs.now xs.items attr) all.now }
{
    all.iter()
        .all(|values| bound < value_of(attrs, values.as_slice(), attr))
}

/// Returns whether at each later number the one attribute lies above what the other is at each earlier number.
pub fn rises(attrs: &[Attr], all: &[Values], above: Attr, below: Attr) -> bool
    ensures { IsTrue result → Rises attrs.now all.now above below }
{
    for j in 0..all.len() {
        let value = value_of(attrs, all[j].as_slice(), above);
        if !are_below(attrs, &all[..j], below, value) {
            return false;
        }
    }
    true
}

/// Returns whether at each earlier number the one attribute lies above what the other is at each later number.
pub fn falls(attrs: &[Attr], all: &[Values], above: Attr, below: Attr) -> bool
    ensures { IsTrue result → Falls attrs.now all.now above below }
{
    for j in 0..all.len() {
        let value = value_of(attrs, all[j].as_slice(), below);
        if !are_above(attrs, &all[..j], above, value) {
            return false;
        }
    }
    true
}

// Whether the first column alone is of a place.
fn is_here_alone(here: Attr, elsewhere: Attr, place: u8) -> bool
    ensures here { IsTrue result → here.stream ≡ place }
    ensures elsewhere { IsTrue result → elsewhere.stream ≢ place }
{
    here.stream == place && elsewhere.stream != place
}

/// Returns whether what later numbers have at a place and earlier ones elsewhere goes against what a comparison says.
pub fn later_fails(q: &Query, all: &[Values], difference: Difference, place: u8) -> bool
    ensures { IsTrue result → LaterMixesFail q.now place (length all.now) (assigned q.now all.now) }
{
    let Difference { left, right } = difference;
    if !says_at_most(q, left, right) {
        return false;
    }
    if is_here_alone(left, right, place) {
        return rises(q.attrs(), all, left, right);
    }
    if is_here_alone(right, left, place) {
        return falls(q.attrs(), all, left, right);
    }
    false
}

/// Returns whether what earlier numbers have there and later ones elsewhere does.
pub fn earlier_fails(q: &Query, all: &[Values], difference: Difference, place: u8) -> bool
    ensures { IsTrue result → EarlierMixesFail q.now place (length all.now) (assigned q.now all.now) }
{
    let Difference { left, right } = difference;
    if !says_at_most(q, left, right) {
        return false;
    }
    if is_here_alone(left, right, place) {
        return falls(q.attrs(), all, left, right);
    }
    if is_here_alone(right, left, place) {
        return rises(q.attrs(), all, left, right);
    }
    false
}
