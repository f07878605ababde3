//! Whether all mixtures satisfy a query but those of the next number.
ghost use Rattle.std.specs.Prelude.{◌≡◌, ℕ, ◌<◌, length, IsTrue};
ghost use Rattle.sem_query.specs.Query.{attrs_of};
ghost use Rattle.sem_query.specs.Assignment.{value, meets, holds};
ghost use Rattle.fam_motions.specs.Values.{valued};
ghost use Rattle.fam_motions.specs.Apart.{mixture, assigned, FailsAsNext, OnlyNextMixesFail};

use crate::values::{Values, compares, value_of};
use sem_query::{Atom, Attr, Element, Query};

// The value of an element by what one assignment has at a place, and another elsewhere.
fn mixed_value(
    attrs: &[Attr],
    place: u8,
    here: &[i128],
    elsewhere: &[i128],
    element: Element,
) -> i128
    ensures { result ≡ value element (mixture place (valued attrs.now here.now) (valued attrs.now elsewhere.now)) }
{
    match element {
        Element::Attr(attr) => if attr.stream == place {
            value_of(attrs, here, attr)
        } else {
            value_of(attrs, elsewhere, attr)
        },
        Element::Const(integer) => i128::from(integer),
    }
}

// Whether a comparison holds by both.
fn is_met(attrs: &[Attr], place: u8, here: &[i128], elsewhere: &[i128], atom: &Atom) -> bool
    ensures { result ≡ meets (mixture place (valued attrs.now here.now) (valued attrs.now elsewhere.now)) atom.now }
{
    let left = mixed_value(attrs, place, here, elsewhere, atom.left);
    let right = mixed_value(attrs, place, here, elsewhere, atom.right);
    compares(atom.op, left, right)
}

// Whether all comparisons of a query do.
fn are_met(q: &Query, place: u8, here: &[i128], elsewhere: &[i128]) -> bool
    ensures { result ≡ holds q.now (mixture place (valued (attrs_of q.now.atoms) here.now) (valued (attrs_of q.now.atoms) elsewhere.now)) }
{
    let attrs = q.attrs();
    q.atoms()
        .iter()
        .all(|t| is_met(attrs, place, here, elsewhere, t))
}

// Whether what number j has at a place, and number i elsewhere, satisfies the query, unless j is the next number.
fn fails_as_next(q: &Query, all: &[Values], place: u8, i: usize, j: usize) -> bool
    requires i { i < length all.now }
    requires j { j < length all.now }
    ensures { IsTrue result → FailsAsNext q.now place (assigned q.now all.now) i j }
{
    let met = are_met(q, place, all[j].as_slice(), all[i].as_slice());
    if j == i + 1 { !met } else { met }
}

// Whether this is so of all numbers at the place.
fn fail_as_next(q: &Query, all: &[Values], place: u8, i: usize) -> bool
    requires { i < length all.now }
    ensures { (j : ℕ) → IsTrue result → j < length all.now → FailsAsNext q.now place (assigned q.now all.now) i j }
{
    for j in 0..all.len() {
        if !fails_as_next(q, all, place, i, j) {
            return false;
        }
    }
    true
}

/// Returns whether all mixtures satisfy the query but those of the next number.
pub fn only_next_fail(q: &Query, all: &[Values], place: u8) -> bool
    ensures { IsTrue result → OnlyNextMixesFail q.now place (length all.now) (assigned q.now all.now) }
{
    for i in 0..all.len() {
        if !fail_as_next(q, all, place, i) {
            return false;
        }
    }
    true
}
