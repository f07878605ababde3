//! Soft comparisons under the sign of a pair.
ghost use Rattle.std.specs.Prelude.{◌≡◌};
ghost use Rattle.std.specs.List.{list_any};
ghost use Rattle.sem_query.specs.Parts.{pair_of, pair_eq};
ghost use Rattle.plan_constraints.specs.Soft.{stands, sides_sign, fails_by, is_unequal, denies_itself};

use crate::nodes::turn;
use sem_query::{Atom, Attr, Element, Op, Pair, Sign, is_before, is_same_element, is_same_pair};

// Whether two elements make the pair.
fn make(left: Element, right: Element, pair: Pair) -> bool
    ensures { result ≡ list_any (λ r. pair_eq r pair) (pair_of left right) }
{
    match (left, right) {
        (Element::Attr(a), Element::Attr(b)) => {
            if is_before(a, b) {
                is_same_pair(Pair { left: a, right }, pair)
            } else if is_before(b, a) {
                is_same_pair(
                    Pair {
                        left: b,
                        right: left,
                    },
                    pair,
                )
            } else {
                false
            }
        }
        (Element::Attr(a), Element::Const(_)) => is_same_pair(Pair { left: a, right }, pair),
        (Element::Const(_), Element::Attr(b)) => is_same_pair(
            Pair {
                left: b,
                right: left,
            },
            pair,
        ),
        (Element::Const(_), Element::Const(_)) => false,
    }
}

// An integer that has the sign to 0.
fn stands(sign: Sign) -> i64
    ensures { result ≡ stands sign }
{
    match sign {
        Sign::Lt => -1,
        Sign::Eq => 0,
        Sign::Gt => 1,
    }
}

// The sign of the sides of a comparison that names the pair, where the pair has this sign.
fn sides_sign(atom: &Atom, pair: Pair, sign: Sign) -> Sign
    ensures { result ≡ sides_sign atom.now pair sign }
{
    if is_same_element(atom.left, Element::Attr(pair.left)) {
        sign
    } else {
        turn(sign)
    }
}

/// Returns whether a comparison is soft, names the pair, and is false where the pair has the sign.
pub fn fails_by(atom: &Atom, pair: Pair, sign: Sign) -> bool
    ensures { result ≡ fails_by atom.now pair sign }
{
    atom.op.is_soft()
        && make(atom.left, atom.right, pair)
        && !atom.op.compares(stands(sides_sign(atom, pair, sign)), 0)
}

fn is_unequal(op: Op) -> bool
    ensures { result ≡ is_unequal op }
{
    match op {
        Op::Ne => true,
        Op::Lt | Op::Eq | Op::Gt | Op::Le | Op::Ge => false,
    }
}

/// Returns whether a comparison says that an element is not itself.
pub fn denies_itself(atom: &Atom) -> bool
    ensures { result ≡ denies_itself atom.now }
{
    is_unequal(atom.op) && is_same_element(atom.left, atom.right)
}
